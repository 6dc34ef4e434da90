//! Finds the explanation of any run of a chain by replaying the run's moves on its nodes.
//! Runs in the program: in `craq_world`, `craq_play`, `craq_schedules` and `craq_lab`.
#![tactic(auto)]

mod account;
mod answers;
mod asks;
mod committed;
mod firsts;
mod notes;
mod replay;
mod tables;

pub use replay::explain_run_of;
