//! A chain of locked cells: nodes' desks and the master's cell, each with a lock, and messages.
//! Runs in the program, in `craq_play`, and in tests; has no threads and no links.
#![tactic(auto)]

mod cell_chain;
mod copying;
mod posted;
mod stepping;

pub use cell_chain::CellChain;
pub use stepping::CellStep;
