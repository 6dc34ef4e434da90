//! Draws a run, for `craq_lab`: a column for each node, a row for each move, an arrow for each
//! message; as a value and as SVG text.
//! Runs in the program.
#![tactic(auto)]

mod arrows;
mod board;
mod columns;
mod drawing;
mod labels;
mod layout;
mod painting;
mod pen;
mod rows;
mod style;

pub use drawing::{Arrow, Drawing, MessageArrival, Row, SentMessage, drawing_of};
pub use painting::picture_of;
