//! A chain that runs: its routing table, batches of its nodes' steps, and the work of its threads.
//! For `craq_workers`, which makes the threads.
//! Code that runs in the programs.
#![tactic(auto)]

mod batch;
mod chain;
mod held_back;
mod help;
mod rest;
mod shared;
mod wake_up;
mod work;

pub use chain::{Chain, Open, RoutingTable, refuse_queued};
pub use help::Help;
pub use rest::Rest;
pub use shared::{AskedChain, Shared, Wakes, possible_refusal};
pub use wake_up::WakeUp;
pub use work::{Worker, master_of, run_worker};
