//! Computes where columns and rows lie, in picture units from the upper left corner; called by
//! `painting`, `rows`, `columns` and `arrows`.
use crate::Row;
use craq_model::{LinkMessage, Out};
use craq_names::NodeId;
use craq_runs::{Move, Taken};
use std::alloc::{AllocError, Global};

/// The distance of the first column from the left.
const FIRST_COLUMN: u64 = 152;

/// The distance between columns, and that of at most three.
const COLUMN: u64 = 150;

const FEW_COLUMNS: u64 = 190;

/// The width right of the last column, for a reply and the commit index, and the least width of a
/// picture. Four columns fit the least width, so a page shows the texts at their size.
const LAST_COLUMN: u64 = 194;

const LEAST_WIDTH: u64 = 800;

/// The distance of the first row from the top.
const FIRST_ROW: u64 = 66;

/// The height of one line of a row, and of one line of the legend.
pub(crate) const LINE: u64 = 17;

/// The gap between a row and the one above it, without its lines.
const GAP: u64 = 13;

/// A point of the picture.
#[derive(Clone, Copy)]
pub(crate) struct Point {
    pub(crate) x: u64,
    pub(crate) y: u64,
}

/// The layout of a picture.
#[derive(Drop)]
pub(crate) struct PictureLayout<'a> {
    pub(crate) columns: &'a [NodeId],
    /// The height of each row, and at the end the height where the next one would be.
    pub(crate) tops: &'a [u64],
}

impl PictureLayout<'_> {
    /// Returns the distance of a node's column from the left.
    pub(crate) fn across(&self, node: NodeId) -> u64 {
        let index = self
            .columns
            .iter()
            .position(|column| *column == node)
            .unwrap_or(0);
        self.nth_column(index as u64)
    }

    /// Returns the distance from the left of the column of this index, counted from 0.
    fn nth_column(&self, index: u64) -> u64 {
        let distance = if self.columns.len() <= 3 {
            FEW_COLUMNS
        } else {
            COLUMN
        };
        index.saturating_mul(distance).saturating_add(FIRST_COLUMN)
    }

    /// Returns the distance of a move's row from the top; moves are numbered from 1.
    pub(crate) fn down(&self, row: u64) -> u64 {
        if row == 0 {
            return FIRST_ROW;
        }
        match self.tops.get((row - 1) as usize) {
            Some(top) => *top,
            None => self.bottom(),
        }
    }

    /// Returns the height where the rows end.
    pub(crate) fn bottom(&self) -> u64 {
        self.tops.last().copied().unwrap_or(FIRST_ROW)
    }

    /// Returns the width of the picture.
    pub(crate) fn width(&self) -> u64 {
        let last = (self.columns.len() as u64).saturating_sub(1);
        self.nth_column(last)
            .saturating_add(LAST_COLUMN)
            .max(LEAST_WIDTH)
    }

    /// Returns the distance from the left of the right ends of the committed numbers.
    pub(crate) fn side(&self) -> u64 {
        self.width().saturating_sub(10)
    }

    /// Returns the distance from the top of a move's output at index `place`. The first output lies
    /// `first` below the row.
    pub(crate) fn out_down(&self, number: u64, first: u64, place: u64) -> u64 {
        self.down(number)
            .saturating_add(first)
            .saturating_add(place.saturating_mul(LINE))
    }

    /// Returns the point of a move's output.
    pub(crate) fn out_at(&self, row: &Row, number: u64, first: u64, place: u64) -> Point {
        Point {
            x: self.across(row.node),
            y: self.out_down(number, first, place),
        }
    }
}

/// Returns how far below its row a move's first output lies: one line if a message arrives there,
/// else 0.
pub(crate) fn first_out(chosen: &Move) -> u64 {
    match chosen {
        Move::Deliver(_) => LINE,
        _ => 0,
    }
}

/// Returns the height of a move's row.
fn height_of(taken: &Taken) -> u64 {
    let lines = (taken.step.outs.len() as u64).max(1).saturating_sub(1);
    let below = if taken.step.outs.is_empty() {
        0
    } else {
        first_out(&taken.chosen)
    };
    lines
        .saturating_mul(LINE)
        .saturating_add(below)
        .saturating_add(LINE)
        .saturating_add(GAP)
}

/// Returns the height of each move's row, and at the end the height where the next one would be.
pub(crate) fn tops_of(alloc: Global, moves: &[Taken]) -> Result<Vec<u64>, AllocError> {
    let mut tops = Vec::new(alloc);
    let mut top = FIRST_ROW;
    tops.push(top)?;
    for taken in moves {
        top = top.saturating_add(height_of(taken));
        tops.push(top)?;
    }
    Ok(tops)
}

/// Returns the message at an index of a move's outputs, if one was sent there.
pub(crate) fn sent_at(taken: &Taken, place: u64) -> Option<&LinkMessage> {
    match taken.step.outs.as_slice().get(place as usize) {
        Some(Out::Send { to: _, message }) => Some(message),
        _ => None,
    }
}
