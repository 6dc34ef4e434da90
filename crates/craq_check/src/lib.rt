//! Tests an explanation of a run from the two alone, without nodes, chains or a search.
//! Runs in the program: in `craq_lab` and `craq_schedules`.
#![tactic(auto)]

mod form;
mod index;
mod lookups;
mod once;
mod replies;
mod seen;
mod single;
mod strong;
mod verdict;

pub use verdict::check;
