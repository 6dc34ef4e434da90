//! A node's past as a state and all entries after it, with look-ups that scan them.
//! Runs in the program: `craq_explain` and `craq_play` use the past, compacting pasts its look-ups.
#![tactic(auto)]

mod history;
pub mod lookups;
pub mod slots;
pub mod states;

pub use history::FullHistory;
