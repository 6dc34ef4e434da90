//! A chain that takes moves: its master, its nodes, its messages and its run so far.
//! Runs in the program, without threads or locks; `craq_seat` and `craq_audit` call parts of it.
#![tactic(auto)]

mod chain;
mod limits;
mod masters;
mod messages;
mod moving;
mod nodes;

pub use chain::ChainCore;
pub use limits::{keep_ask_limits, keep_limits};
pub use masters::{announce, compute_join, compute_removal};
pub use messages::{message_after, sends_in};
