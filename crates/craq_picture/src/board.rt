//! Holds the arrows' lines and the labels of a picture, and puts each label where it lies over
//! neither; called by `painting`, `rows` and `arrows`.
use crate::layout::Point;
use crate::pen::{Side, draw_cross, draw_line, draw_text};
use std::alloc::{AllocError, Global};

/// The width of a character of a label: at least that of most characters.
const CHARACTER: u64 = 7;

/// The largest number of characters that a label shows.
const MOST_SHOWN: u64 = 36;

/// The height of a label above its base line, and below it.
const ABOVE: u64 = 10;

const BELOW: u64 = 2;

/// The kinds of arrows: of a message that was used, ignored, or never delivered.
#[derive(Clone, Copy)]
pub(crate) enum Stroke {
    Used,
    Ignored,
    Lost,
}

/// The straight line of an arrow.
#[derive(Clone, Copy)]
pub(crate) struct Segment {
    pub(crate) stroke: Stroke,
    pub(crate) from: Point,
    pub(crate) to: Point,
}

/// A place for a label: a point, and the label's side of it.
#[derive(Clone, Copy)]
pub(crate) struct Spot {
    pub(crate) at: Point,
    pub(crate) side: Side,
}

/// The kinds of labels: a move's request, a message at its sending, its number at its arrival, a
/// reason, a reply.
#[derive(Clone, Copy)]
pub(crate) enum MarkKind {
    Move,
    Message,
    Arrival,
    Reason,
    Reply,
}

/// A label at its place.
#[derive(Drop)]
struct Label {
    kind: MarkKind,
    spot: Spot,
    text: String,
}

/// A part of the picture: its left and right end, its top and bottom.
#[derive(Clone, Copy)]
struct Area {
    left: u64,
    right: u64,
    top: u64,
    bottom: u64,
}

/// The lines and the labels of a picture.
#[derive(Drop)]
pub(crate) struct Board {
    segments: Vec<Segment>,
    labels: Vec<Label>,
}

/// Returns the class of a line.
fn class_of_stroke(stroke: Stroke) -> &'static str {
    match stroke {
        Stroke::Used => "message",
        Stroke::Ignored => "ignored",
        Stroke::Lost => "lost",
    }
}

/// Returns the class of a label.
fn class_of_label(kind: MarkKind) -> &'static str {
    match kind {
        MarkKind::Move => "move",
        MarkKind::Message => "label",
        MarkKind::Arrival => "who",
        MarkKind::Reason => "why",
        MarkKind::Reply => "answer",
    }
}

/// Returns the area of a label of this many characters.
fn area_of(spot: Spot, length: usize) -> Area {
    let wide = (length as u64).min(MOST_SHOWN).saturating_mul(CHARACTER);
    let x = spot.at.x;
    let (left, right) = match spot.side {
        Side::Left => (x.saturating_sub(wide), x),
        Side::Right => (x, x.saturating_add(wide)),
        Side::Middle => (x.saturating_sub(wide / 2), x.saturating_add(wide / 2)),
    };
    Area {
        left,
        right,
        top: spot.at.y.saturating_sub(ABOVE),
        bottom: spot.at.y.saturating_add(BELOW),
    }
}

/// Reports whether two areas have a point in common.
fn meets(one: Area, other: Area) -> bool {
    one.left <= other.right
        && other.left <= one.right
        && one.top <= other.bottom
        && other.top <= one.bottom
}

/// Returns the difference of two numbers.
fn apart(one: u64, other: u64) -> u64 {
    one.max(other).saturating_sub(one.min(other))
}

/// Returns the height at which a segment, which falls to its end, passes this distance from the
/// left.
fn height_at(segment: &Segment, x: u64) -> u64 {
    let wide = apart(segment.from.x, segment.to.x);
    if wide == 0 {
        return segment.from.y;
    }
    let fall = segment.to.y.saturating_sub(segment.from.y);
    let part = fall.saturating_mul(apart(segment.from.x, x)) / wide;
    segment.from.y.saturating_add(part)
}

/// Reports whether a segment passes through an area.
fn crosses(segment: &Segment, area: Area) -> bool {
    let left = segment.from.x.min(segment.to.x).max(area.left);
    let right = segment.from.x.max(segment.to.x).min(area.right);
    if left > right {
        return false;
    }
    let one = height_at(segment, left);
    let other = height_at(segment, right);
    one.min(other) <= area.bottom && area.top <= one.max(other)
}

impl Board {
    /// Makes a board with these lines and no label.
    pub(crate) fn new(alloc: Global, segments: Vec<Segment>) -> Board {
        Board {
            segments,
            labels: Vec::new(alloc),
        }
    }

    /// Reports whether no line and no label meets an area.
    fn is_free(&self, area: Area) -> bool {
        for segment in self.segments.as_slice() {
            if crosses(segment, area) {
                return false;
            }
        }
        for label in self.labels.as_slice() {
            if meets(area_of(label.spot, label.text.len()), area) {
                return false;
            }
        }
        true
    }

    /// Adds a label at the first of these places that is free; at the first one if none is.
    pub(crate) fn place(
        &mut self,
        kind: MarkKind,
        text: String,
        spots: [Spot; 4],
    ) -> Result<(), AllocError> {
        let mut spot = spots[0];
        for other in spots {
            if self.is_free(area_of(other, text.len())) {
                spot = other;
                break;
            }
        }
        self.labels.push(Label { kind, spot, text })?;
        Ok(())
    }

    /// Draws the lines, and a cross at the end of each message that was never delivered.
    pub(crate) fn draw_lines(&self, svg: &mut String) -> Result<(), AllocError> {
        for segment in self.segments.as_slice() {
            let class = class_of_stroke(segment.stroke);
            draw_line(svg, class, segment.from, segment.to)?;
            if let Stroke::Lost = segment.stroke {
                draw_cross(svg, "cross", segment.to)?;
            }
        }
        Ok(())
    }

    /// Draws the labels.
    pub(crate) fn draw_labels(&self, svg: &mut String) -> Result<(), AllocError> {
        for label in self.labels.as_slice() {
            let class = class_of_label(label.kind);
            draw_text(
                svg,
                class,
                label.spot.at,
                label.spot.side,
                label.text.as_str(),
            )?;
        }
        Ok(())
    }
}
