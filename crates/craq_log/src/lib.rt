//! The entries of a node's history after a base position, as `craq_compact_state` stores them.
//! Runs in the program.
#![tactic(auto)]

mod suffix;

pub use suffix::Suffix;
