//! Values that go between the threads of a store, and what each of them keeps of the store's
//! history. A call from request to reply, a refusal and a session each carry a token of the history.
//! A token has no bytes, and its type keeps the fact.
//!
//! Has also the hooks round each piece of work (`Gate`), and a count of the messages that were lost
//! because memory ended (`Losses`). For `craq_running_node` and the crates above.
//! Code that runs in the programs.
#![tactic(auto)]

mod answered_call;
mod at;
mod call_made;
mod call_refusal;
mod cause;
mod gate;
mod losses;
mod made_ask;
mod refused;
mod session;
mod stopped_node;

pub use answered_call::{Acceptance, AcceptedCall, AnsweredCall, StepReceipt};
pub use at::At;
pub use call_made::CallMade;
pub use call_refusal::CallRefusal;
pub use cause::{Cause, Origin};
use craq_ghost_history::{GhostHistory, Grant, Token, Writer};
use craq_store_history::{HistoryEntry, StoreRule};
pub use gate::{Gate, OpenGate, Work};
pub use losses::Losses;
pub use made_ask::MadeAsk;
pub use refused::{RefusalMoment, Refused};
pub use session::Session;
pub use stopped_node::StoppedNode;

/// The history of a store.
pub type StoreHistory<N> = GhostHistory<HistoryEntry, StoreRule, N>;

/// A prefix of a store's history that was seen.
pub type StoreToken<N> = Token<HistoryEntry, StoreRule, N>;

/// A prefix of a store's history that was seen, with the permit of a call if it has one.
pub type StoreGrant<N> = Grant<HistoryEntry, StoreRule, N>;

/// The right to the entries of one author in a store's history.
pub type StoreWriter<N> = Writer<HistoryEntry, StoreRule, N>;
