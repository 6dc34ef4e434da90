//! Computes the lines of the arrows, from each message's sender to each of its arrivals or into the
//! air, and places their labels; called by `painting`.
use crate::board::{Board, MarkKind, Segment, Spot, Stroke};
use crate::layout::{PictureLayout, Point, first_out, sent_at};
use crate::pen::Side;
use crate::{Arrow, MessageArrival, SentMessage};
use craq_model::LinkMessage;
use craq_play::{print_message, word_of};
use craq_runs::Taken;
use std::alloc::{AllocError, Global};

/// The drop of a lost message's line, in picture units.
const FALL: u64 = 6;

/// The distance of a label from its column.
const OFF: u64 = 9;

/// Moves `x` by `by` toward `other`.
fn toward(x: u64, other: u64, by: u64) -> u64 {
    if x < other {
        x.saturating_add(by)
    } else {
        x.saturating_sub(by)
    }
}

/// Moves `x` by `by` away from `other`.
fn away(x: u64, other: u64, by: u64) -> u64 {
    if x < other {
        x.saturating_sub(by)
    } else {
        x.saturating_add(by)
    }
}

/// Returns a place beside a column, on the side that faces `other`, at this height.
fn near_spot(x: u64, other: u64, y: u64) -> Spot {
    let side = if x < other { Side::Right } else { Side::Left };
    let x = toward(x, other, OFF);
    Spot {
        at: Point { x, y },
        side,
    }
}

/// Returns a place beside a column, on the side that faces away from `other`, at this height.
fn far_spot(x: u64, other: u64, y: u64) -> Spot {
    let side = if x < other { Side::Left } else { Side::Right };
    let x = away(x, other, OFF);
    Spot {
        at: Point { x, y },
        side,
    }
}

/// Returns the move of a number, counted from 1.
fn move_at(moves: &[Taken], number: u64) -> Option<&Taken> {
    if number == 0 {
        return None;
    }
    moves.get((number - 1) as usize)
}

/// Returns the point where a message starts.
fn start_of(layout: &PictureLayout<'_>, moves: &[Taken], sent: &SentMessage) -> Point {
    let first = match move_at(moves, sent.row) {
        Some(taken) => first_out(&taken.chosen),
        None => 0,
    };
    Point {
        x: layout.across(sent.from),
        y: layout.out_down(sent.row, first, sent.place),
    }
}

/// Returns the line of a message that was never delivered.
fn lost_segment(start: Point, end: u64) -> Segment {
    let far = start.x.max(end).saturating_sub(start.x.min(end));
    let to = Point {
        x: toward(start.x, end, (far / 2).saturating_add(20).min(105)),
        y: start.y.saturating_add(FALL),
    };
    Segment {
        stroke: Stroke::Lost,
        from: start,
        to,
    }
}

/// Returns the line of a message to one of its arrivals.
fn segment_of(
    layout: &PictureLayout<'_>,
    sent: &SentMessage,
    start: Point,
    arrival: &MessageArrival,
) -> Segment {
    let to = Point {
        x: toward(layout.across(sent.to), start.x, 5),
        y: layout.down(arrival.row),
    };
    let stroke = if arrival.ignored.is_none() {
        Stroke::Used
    } else {
        Stroke::Ignored
    };
    Segment {
        stroke,
        from: start,
        to,
    }
}

/// Adds the lines of a message.
fn add_segments(
    segments: &mut Vec<Segment>,
    layout: &PictureLayout<'_>,
    arrow: &Arrow,
    start: Point,
) -> Result<(), AllocError> {
    if arrow.arrivals.is_empty() {
        segments.push(lost_segment(start, layout.across(arrow.sent.to)))?;
    }
    for arrival in arrow.arrivals.as_slice() {
        segments.push(segment_of(layout, &arrow.sent, start, arrival))?;
    }
    Ok(())
}

/// Returns the lines of all messages.
pub(crate) fn segments_of(
    alloc: Global,
    layout: &PictureLayout<'_>,
    moves: &[Taken],
    arrows: &[Arrow],
) -> Result<Vec<Segment>, AllocError> {
    let mut segments = Vec::new(alloc);
    for arrow in arrows {
        let start = start_of(layout, moves, &arrow.sent);
        add_segments(&mut segments, layout, arrow, start)?;
    }
    Ok(segments)
}

/// Places a message's number and text at its start.
fn place_start(
    alloc: Global,
    board: &mut Board,
    number: u64,
    message: &LinkMessage,
    start: Point,
    end: u64,
) -> Result<(), AllocError> {
    let mut words = String::new(alloc);
    write!(words, "m{number} ")?;
    print_message(&mut words, message)?;
    let spots = [
        near_spot(start.x, end, start.y.saturating_sub(4)),
        far_spot(start.x, end, start.y.saturating_sub(6)),
        far_spot(start.x, end, start.y.saturating_add(4)),
        near_spot(start.x, end, start.y.saturating_add(14)),
    ];
    board.place(MarkKind::Message, words, spots)
}

/// Places a message's number where it arrived, with the reason if it was ignored.
fn place_end(
    alloc: Global,
    board: &mut Board,
    layout: &PictureLayout<'_>,
    sent: &SentMessage,
    arrival: &MessageArrival,
) -> Result<(), AllocError> {
    let number = sent.number;
    let mut words = String::new(alloc);
    write!(words, "m{number}")?;
    let mut kind = MarkKind::Arrival;
    if let Some(why) = arrival.ignored {
        let word = word_of(why);
        write!(words, " {word}")?;
        kind = MarkKind::Reason;
    }
    let x = layout.across(sent.to);
    let start = layout.across(sent.from);
    let y = layout.down(arrival.row);
    let spots = [
        far_spot(x, start, y.saturating_add(4)),
        near_spot(x, start, y.saturating_add(15)),
        far_spot(x, start, y.saturating_sub(8)),
        near_spot(x, start, y.saturating_sub(10)),
    ];
    board.place(kind, words, spots)
}

/// Places the label of each message at its start.
pub(crate) fn place_starts(
    alloc: Global,
    board: &mut Board,
    layout: &PictureLayout<'_>,
    moves: &[Taken],
    arrows: &[Arrow],
) -> Result<(), AllocError> {
    for arrow in arrows {
        let sent = &arrow.sent;
        if let Some(taken) = move_at(moves, sent.row)
            && let Some(message) = sent_at(taken, sent.place)
        {
            let start = start_of(layout, moves, sent);
            let end = layout.across(sent.to);
            place_start(alloc, board, sent.number, message, start, end)?;
        }
    }
    Ok(())
}

/// Places the number of each message at each of its arrivals.
pub(crate) fn place_ends(
    alloc: Global,
    board: &mut Board,
    layout: &PictureLayout<'_>,
    arrows: &[Arrow],
) -> Result<(), AllocError> {
    for arrow in arrows {
        for arrival in arrow.arrivals.as_slice() {
            place_end(alloc, board, layout, &arrow.sent, arrival)?;
        }
    }
    Ok(())
}
