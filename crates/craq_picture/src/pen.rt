//! Writes the SVG shapes of a picture; called by `painting`, `rows`, `columns` and `arrows`.
use crate::layout::Point;
use std::alloc::AllocError;

/// The largest number of characters in a label.
const MOST: usize = 34;

/// The side of its point on which a label stands.
#[derive(Clone, Copy)]
pub(crate) enum Side {
    Left,
    Right,
    Middle,
}

/// Returns SVG's word for a side.
fn anchor_of(side: Side) -> &'static str {
    match side {
        Side::Left => "end",
        Side::Right => "start",
        Side::Middle => "middle",
    }
}

/// Writes a character, escaped if SVG reserves it.
fn write_character(svg: &mut String, character: char) -> Result<(), AllocError> {
    match character {
        '<' => svg.push_str("&lt;"),
        '>' => svg.push_str("&gt;"),
        '&' => svg.push_str("&amp;"),
        other => svg.push(other),
    }
}

/// Writes a text, or its first 34 characters if it has more.
fn write_text(svg: &mut String, text: &str) -> Result<(), AllocError> {
    for character in text.chars().take(MOST) {
        write_character(svg, character)?;
    }
    if text.len() > MOST {
        svg.push_str("..")?;
    }
    Ok(())
}

/// Begins a text of this class at a point.
fn open_text(svg: &mut String, class: &str, at: Point, side: Side) -> Result<(), AllocError> {
    let x = at.x;
    let y = at.y;
    let anchor = anchor_of(side);
    write!(
        svg,
        "<text class=\"{class}\" x=\"{x}\" y=\"{y}\" text-anchor=\"{anchor}\">"
    )
}

/// Draws a text of this class at a point, or its first 34 characters if it has more.
pub(crate) fn draw_text(
    svg: &mut String,
    class: &str,
    at: Point,
    side: Side,
    text: &str,
) -> Result<(), AllocError> {
    open_text(svg, class, at, side)?;
    write_text(svg, text)?;
    svg.push_str("</text>\n")
}

/// Draws this program's own words right of a point. They must hold no character that SVG reserves.
pub(crate) fn draw_note(svg: &mut String, at: Point, note: &str) -> Result<(), AllocError> {
    open_text(svg, "faint", at, Side::Right)?;
    svg.push_str(note)?;
    svg.push_str("</text>\n")
}

/// Draws a line of this class.
pub(crate) fn draw_line(
    svg: &mut String,
    class: &str,
    from: Point,
    to: Point,
) -> Result<(), AllocError> {
    let x = from.x;
    let y = from.y;
    write!(svg, "<path class=\"{class}\" d=\"M{x} {y}")?;
    let x = to.x;
    let y = to.y;
    write!(svg, "L{x} {y}\"/>\n")
}

/// Draws a disc of this class.
pub(crate) fn draw_dot(svg: &mut String, class: &str, at: Point) -> Result<(), AllocError> {
    let x = at.x;
    let y = at.y;
    write!(
        svg,
        "<circle class=\"{class}\" cx=\"{x}\" cy=\"{y}\" r=\"4\"/>\n"
    )
}

/// Draws a cross of this class.
pub(crate) fn draw_cross(svg: &mut String, class: &str, at: Point) -> Result<(), AllocError> {
    let left = at.x.saturating_sub(5);
    let top = at.y.saturating_sub(5);
    write!(
        svg,
        "<path class=\"{class}\" d=\"M{left} {top}l10 10m0 -10l-10 10\"/>\n"
    )
}

/// Draws a box of this class.
pub(crate) fn draw_box(
    svg: &mut String,
    class: &str,
    at: Point,
    width: u64,
    height: u64,
) -> Result<(), AllocError> {
    let x = at.x;
    let y = at.y;
    write!(svg, "<rect class=\"{class}\" x=\"{x}\" y=\"{y}\" ")?;
    write!(svg, "width=\"{width}\" height=\"{height}\"/>\n")
}
