//! Plays schedules of a script, for `craq_lab`: one drawn by numbers, and one for each move after
//! which a node stops.
//! Runs in the program.
#![tactic(auto)]

mod drawing;
mod stopping;
mod verdict;

pub use drawing::draw;
pub use stopping::{replayed_chain, stops};
