//! A store that runs. Its nodes' steps are taken by threads of the nodes, or by two threads for each
//! chain and by callers; each chain's master has a thread. Links between nodes are channels.
//! Clients call from any thread. `craq_running_chain` and `craq_running_node` do the work of the
//! threads; here a store starts, changes and ends.
//! Code that runs in the programs.
#![tactic(auto)]

mod auditing;
mod client;
mod history;
mod looking;
mod losses;
mod opening;
mod sessions;
mod store;

pub use client::Client;
pub use craq_ghost_history::Named;
pub use craq_running_node::{Asked, CallOutcome, Destination, OwnReply};
pub use craq_seat::{CallToken, Completion, CompletionQueue, Reach};
pub use craq_store_history::CallId;
pub use craq_store_parts::{AnsweredCall, At, CallRefusal, Gate, MadeAsk, OpenGate, Session, Work};
pub use history::{OpenedHistory, open_history};
pub use store::{ChainStatus, Store};
