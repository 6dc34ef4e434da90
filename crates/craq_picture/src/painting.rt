//! Draws the whole picture as SVG text: `picture_of`, called by `craq_lab`.
use crate::arrows::{place_ends, place_starts, segments_of};
use crate::board::Board;
use crate::columns::draw_columns;
use crate::layout::{LINE, PictureLayout, Point, tops_of};
use crate::pen::{draw_box, draw_note};
use crate::rows::{draw_margins, draw_points, place_replies};
use crate::style::STYLE;
use crate::{Drawing, drawing_of};
use craq_runs::{Explanation, Run};
use std::alloc::{AllocError, Global};

/// The legend, a line for each kind of sign.
static LEGEND: [&str; 4] = [
    "mN: message N, at its sending and its arrival. Dotted: ignored, with the reason. Into the air: never delivered.",
    "aT @P: the reply to this node's request of ticket T. A single copy replies so after the first P updates.",
    "(C.N): request N of client C. Thick: what the node sends and replies at once.",
    "committed: the commit index after the move.",
];

/// Begins the picture: its size, its colours and its background.
fn open_picture(svg: &mut String, layout: &PictureLayout<'_>) -> Result<(), AllocError> {
    let width = layout.width();
    let height = layout.bottom().saturating_add(82);
    write!(
        svg,
        "<svg xmlns=\"http://www.w3.org/2000/svg\" viewBox=\"0 0 {width} {height}\" "
    )?;
    write!(svg, "width=\"{width}\" height=\"{height}\">\n")?;
    svg.push_str(STYLE)?;
    draw_box(svg, "paper", Point { x: 0, y: 0 }, width, height)
}

/// Ends the picture with the legend.
fn close_picture(svg: &mut String, layout: &PictureLayout<'_>) -> Result<(), AllocError> {
    let mut y = layout.bottom().saturating_add(12);
    for line in LEGEND {
        draw_note(svg, Point { x: 16, y }, line)?;
        y = y.saturating_add(LINE);
    }
    svg.push_str("</svg>\n")
}

/// Draws the shapes of the picture, the lower ones first.
fn draw_shapes(
    alloc: Global,
    svg: &mut String,
    layout: &PictureLayout<'_>,
    drawing: &Drawing,
    run: &Run,
    explanation: &Explanation,
) -> Result<(), AllocError> {
    let moves = run.moves.as_slice();
    let rows = drawing.rows.as_slice();
    let arrows = drawing.arrows.as_slice();
    draw_margins(alloc, svg, layout, rows, moves)?;
    draw_columns(alloc, svg, layout, moves)?;
    let mut board = Board::new(alloc, segments_of(alloc, layout, moves, arrows)?);
    let places = explanation.places.as_slice();
    place_replies(alloc, &mut board, layout, rows, moves, places)?;
    place_starts(alloc, &mut board, layout, moves, arrows)?;
    place_ends(alloc, &mut board, layout, arrows)?;
    board.draw_lines(svg)?;
    draw_points(svg, layout, rows, moves)?;
    board.draw_labels(svg)
}

/// Draws a run as an SVG picture of its `drawing_of`.
///
/// It has a column for each node, and for the master if a move is its own, and a row for each move.
/// An arrow goes from the row that sent a message to the rows that received it. It is dotted, with
/// the reason, if the message was ignored, and ends in the air if it was never delivered. The
/// picture shows the replies with their linearization points in the list of updates, and the number
/// of updates committed after each move. A label lies over no arrow where one of its four places is
/// free. Up to four columns fit a page of 800 pixels with texts of 12 pixels.
///
/// Fails only when out of memory.
pub fn picture_of(
    alloc: Global,
    run: &Run,
    explanation: &Explanation,
) -> Result<String, AllocError> {
    let drawing = drawing_of(alloc, run, explanation)?;
    let tops = tops_of(alloc, run.moves.as_slice())?;
    let layout = PictureLayout {
        columns: drawing.columns.as_slice(),
        tops: tops.as_slice(),
    };
    let mut svg = String::new(alloc);
    open_picture(&mut svg, &layout)?;
    draw_shapes(alloc, &mut svg, &layout, &drawing, run, explanation)?;
    close_picture(&mut svg, &layout)?;
    Ok(svg)
}
