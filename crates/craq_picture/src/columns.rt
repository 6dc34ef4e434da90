//! Draws the columns: each node's name, and its line from its join to its stop; called by
//! `painting`.
use crate::layout::{PictureLayout, Point};
use crate::pen::{Side, draw_line, draw_text};
use craq_names::NodeId;
use craq_runs::{Move, Taken};
use std::alloc::{AllocError, Global};

/// The height of the columns' names.
const NAMES: u64 = 34;

/// The height where the lines of the opening nodes begin.
const START: u64 = 42;

/// Returns the height where a node's line begins: at the move by which it joined, if it did.
fn start_of(layout: &PictureLayout<'_>, moves: &[Taken], node: NodeId) -> u64 {
    for (index, taken) in moves.iter().enumerate() {
        if let Move::Join(id) = &taken.chosen
            && *id == node
        {
            return layout.down(index as u64 + 1);
        }
    }
    START
}

/// Returns the height where a node's line ends: at the move by which it stopped, if it did.
fn end_of(layout: &PictureLayout<'_>, moves: &[Taken], node: NodeId) -> u64 {
    for (index, taken) in moves.iter().enumerate() {
        if let Move::Stop(id) = &taken.chosen
            && *id == node
        {
            return layout.down(index as u64 + 1);
        }
    }
    layout.bottom()
}

/// Returns the name of a column.
fn name_of(alloc: Global, node: NodeId) -> Result<String, AllocError> {
    let mut name = String::new(alloc);
    let id = node.get();
    if id == 0 {
        name.push_str("master")?;
    } else {
        write!(name, "node {id}")?;
    }
    Ok(name)
}

/// Draws the column of a node.
fn draw_column(
    alloc: Global,
    svg: &mut String,
    layout: &PictureLayout<'_>,
    moves: &[Taken],
    node: NodeId,
) -> Result<(), AllocError> {
    let x = layout.across(node);
    let start = start_of(layout, moves, node);
    let end = end_of(layout, moves, node);
    draw_line(svg, "life", Point { x, y: start }, Point { x, y: end })?;
    let name = name_of(alloc, node)?;
    draw_text(
        svg,
        "name",
        Point { x, y: NAMES },
        Side::Middle,
        name.as_str(),
    )
}

/// Draws the columns.
pub(crate) fn draw_columns(
    alloc: Global,
    svg: &mut String,
    layout: &PictureLayout<'_>,
    moves: &[Taken],
) -> Result<(), AllocError> {
    for node in layout.columns {
        draw_column(alloc, svg, layout, moves, *node)?;
    }
    let side = Point {
        x: layout.side(),
        y: NAMES,
    };
    draw_text(svg, "name", side, Side::Left, "committed")
}
