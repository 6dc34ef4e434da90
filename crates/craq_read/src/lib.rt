//! The read rules of a node: each computes a change and the sends, and changes nothing itself.
//! Runs in the program; `craq_node` calls it.
#![tactic(auto)]

mod asks;
mod words;

pub use asks::compute_read;
pub use words::{compute_query, compute_version};
