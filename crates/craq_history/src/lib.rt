//! The trait `History` for a node's past, and `Change`, the changes that a step makes to a node.
//! Runs in the program; the crates of rules and those of pasts both build on it.
#![tactic(auto)]

mod change;
mod history;
mod making;
pub mod members;
mod node;
pub mod outs;
pub mod steps;
mod waiting_updates;

pub use change::{Change, GatheringChange, HistoryChange, WaitingChange};
pub use history::{History, ObjectVersions};
pub use node::Node;
pub use waiting_updates::WaitingUpdates;
