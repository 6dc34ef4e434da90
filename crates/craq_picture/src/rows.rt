//! Draws the rows: each move's request, its node, its replies, and the number of updates committed
//! after it; called by `painting`.
use crate::Row;
use crate::board::{Board, MarkKind, Spot};
use crate::labels::print_move;
use crate::layout::{PictureLayout, Point, first_out};
use crate::pen::{Side, draw_box, draw_cross, draw_dot, draw_line, draw_text};
use craq_model::{Answer, Out};
use craq_names::{NodeId, Ticket};
use craq_play::print_answer;
use craq_runs::{Move, Place, Taken};
use std::alloc::{AllocError, Global};

/// A move with its number, from 1, and its row.
#[derive(Clone, Copy)]
pub(crate) struct Numbered<'a> {
    pub(crate) number: u64,
    pub(crate) row: Row,
    pub(crate) taken: &'a Taken,
}

/// Draws a paler background behind every second row.
fn draw_band(svg: &mut String, layout: &PictureLayout<'_>, number: u64) -> Result<(), AllocError> {
    if number % 2 == 1 {
        return Ok(());
    }
    let top = layout.down(number);
    let height = layout.down(number.saturating_add(1)).saturating_sub(top);
    let at = Point {
        x: 0,
        y: top.saturating_sub(14),
    };
    draw_box(svg, "band", at, layout.width(), height)
}

/// Draws a move's number, left of the columns.
fn draw_number(
    alloc: Global,
    svg: &mut String,
    layout: &PictureLayout<'_>,
    numbered: &Numbered<'_>,
) -> Result<(), AllocError> {
    let y = layout.down(numbered.number).saturating_add(4);
    let mut words = String::new(alloc);
    let number = numbered.number;
    write!(words, "{number}")?;
    draw_text(svg, "faint", Point { x: 26, y }, Side::Left, words.as_str())
}

/// Places a move's request, left of the columns.
fn place_words(
    alloc: Global,
    board: &mut Board,
    layout: &PictureLayout<'_>,
    numbered: &Numbered<'_>,
) -> Result<(), AllocError> {
    let mut words = String::new(alloc);
    print_move(&mut words, &numbered.taken.chosen)?;
    let spot = Spot {
        at: Point {
            x: 34,
            y: layout.down(numbered.number).saturating_add(4),
        },
        side: Side::Right,
    };
    board.place(MarkKind::Move, words, [spot, spot, spot, spot])
}

/// Draws the number of updates committed after a move, bold if it is more than before the move.
fn draw_committed(
    alloc: Global,
    svg: &mut String,
    layout: &PictureLayout<'_>,
    numbered: &Numbered<'_>,
    before: u64,
) -> Result<(), AllocError> {
    let at = Point {
        x: layout.side(),
        y: layout.down(numbered.number).saturating_add(4),
    };
    let committed = numbered.row.committed;
    let mut words = String::new(alloc);
    write!(words, "{committed}")?;
    let class = if committed == before {
        "faint"
    } else {
        "grown"
    };
    draw_text(svg, class, at, Side::Left, words.as_str())
}

/// Draws the rows' backgrounds, the moves' numbers left of the columns, and the committed numbers
/// right of them.
pub(crate) fn draw_margins(
    alloc: Global,
    svg: &mut String,
    layout: &PictureLayout<'_>,
    rows: &[Row],
    moves: &[Taken],
) -> Result<(), AllocError> {
    let mut before = 0;
    let mut number = 0u64;
    for (row, taken) in rows.iter().zip(moves) {
        number = number.saturating_add(1);
        let numbered = Numbered {
            number,
            row: *row,
            taken,
        };
        draw_band(svg, layout, number)?;
        draw_number(alloc, svg, layout, &numbered)?;
        draw_committed(alloc, svg, layout, &numbered, before)?;
        before = row.committed;
    }
    Ok(())
}

/// Returns the linearization point of a reply, by its node and ticket; `None` if it has none.
fn place_of(places: &[Place], node: NodeId, ticket: Ticket) -> Option<u64> {
    for place in places {
        if place.node == node && place.ticket == ticket {
            return Some(place.position.get());
        }
    }
    None
}

/// Returns the places of a label beside a column, at this height: right of it, then left.
fn beside(x: u64, y: u64) -> [Spot; 4] {
    let right = Spot {
        at: Point {
            x: x.saturating_add(9),
            y: y.saturating_add(4),
        },
        side: Side::Right,
    };
    let left = Spot {
        at: Point {
            x: x.saturating_sub(9),
            y: y.saturating_add(4),
        },
        side: Side::Left,
    };
    [right, left, right, left]
}

/// Places a reply, with its linearization point if it has one.
fn place_answer(
    alloc: Global,
    board: &mut Board,
    at: Point,
    ticket: Ticket,
    answer: &Answer,
    place: Option<u64>,
) -> Result<(), AllocError> {
    let mut words = String::new(alloc);
    let ticket = ticket.get();
    write!(words, "a{ticket} ")?;
    if let Some(position) = place {
        write!(words, "@{position} ")?;
    }
    print_answer(&mut words, answer)?;
    board.place(MarkKind::Reply, words, beside(at.x, at.y))
}

/// Places the replies among the outputs of a move.
fn place_answers(
    alloc: Global,
    board: &mut Board,
    layout: &PictureLayout<'_>,
    numbered: &Numbered<'_>,
    places: &[Place],
) -> Result<(), AllocError> {
    let first = first_out(&numbered.taken.chosen);
    let node = numbered.row.node;
    for (place, out) in numbered.taken.step.outs.as_slice().iter().enumerate() {
        if let Out::Answer { ticket, answer } = out {
            let at = layout.out_at(&numbered.row, numbered.number, first, place as u64);
            let stands = place_of(places, node, *ticket);
            place_answer(alloc, board, at, *ticket, answer, stands)?;
        }
    }
    Ok(())
}

/// Draws the point where a move happens: a disc, and a strong line down to its last output; a cross
/// where a node stops.
fn draw_place(
    svg: &mut String,
    layout: &PictureLayout<'_>,
    numbered: &Numbered<'_>,
) -> Result<(), AllocError> {
    let at = layout.out_at(&numbered.row, numbered.number, 0, 0);
    if let Move::Stop(_) = &numbered.taken.chosen {
        return draw_cross(svg, "halt", at);
    }
    let outs = numbered.taken.step.outs.as_slice().len() as u64;
    if outs > 0 {
        let first = first_out(&numbered.taken.chosen);
        let last = layout.out_at(&numbered.row, numbered.number, first, outs - 1);
        draw_line(svg, "busy", at, last)?;
    }
    draw_dot(svg, "dot", at)
}

/// Places a word at the column of a node that the master removes or adds.
fn place_membership(
    alloc: Global,
    board: &mut Board,
    layout: &PictureLayout<'_>,
    numbered: &Numbered<'_>,
) -> Result<(), AllocError> {
    let (node, word) = match &numbered.taken.chosen {
        Move::Remove(node) => (*node, "removed"),
        Move::Join(node) => (*node, "joins"),
        _ => return Ok(()),
    };
    let mut words = String::new(alloc);
    words.push_str(word)?;
    let spots = beside(layout.across(node), layout.down(numbered.number));
    board.place(MarkKind::Reason, words, spots)
}

/// Draws the point of each move.
pub(crate) fn draw_points(
    svg: &mut String,
    layout: &PictureLayout<'_>,
    rows: &[Row],
    moves: &[Taken],
) -> Result<(), AllocError> {
    let mut number = 0u64;
    for (row, taken) in rows.iter().zip(moves) {
        number = number.saturating_add(1);
        let numbered = Numbered {
            number,
            row: *row,
            taken,
        };
        draw_place(svg, layout, &numbered)?;
    }
    Ok(())
}

/// Places the words of each move: its request, its replies, and the node that it removes or adds.
pub(crate) fn place_replies(
    alloc: Global,
    board: &mut Board,
    layout: &PictureLayout<'_>,
    rows: &[Row],
    moves: &[Taken],
    places: &[Place],
) -> Result<(), AllocError> {
    let mut number = 0u64;
    for (row, taken) in rows.iter().zip(moves) {
        number = number.saturating_add(1);
        let numbered = Numbered {
            number,
            row: *row,
            taken,
        };
        place_words(alloc, board, layout, &numbered)?;
        place_membership(alloc, board, layout, &numbered)?;
        place_answers(alloc, board, layout, &numbered, places)?;
    }
    Ok(())
}
