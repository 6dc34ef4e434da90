//! Proves that each move of a chain is a few moves of `craq_protocol`'s machine, which is safe.
//! States laws for the later crates: functions without bodies, whose contracts are the theorems.
#![tactic(auto)]

pub mod lines;
pub mod runs;
