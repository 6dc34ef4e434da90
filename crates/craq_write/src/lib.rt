//! The update rules of a node: each computes a change and the sends, and changes nothing itself.
//! Runs in the program; `craq_node` calls it.
#![tactic(auto)]

mod answers;
mod deliveries;
mod gathering;
mod making_entries;
mod readiness;
mod sending_states;
mod settling;
mod updates;

pub use deliveries::{compute_ack, compute_blank, compute_entries, compute_entry};
pub use gathering::compute_part;
pub use readiness::{compute_copy, compute_floor};
pub use settling::{add_tick_outs, compute_config};
pub use updates::compute_update;
