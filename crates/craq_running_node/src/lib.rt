//! A node that runs: its locked seat, its inbox, its steps under the lock, and the replies of each
//! step, which are sent once the lock is free. For `craq_locked_chain`, `craq_running_chain` and
//! `craq_workers`; starts no threads.
//!
//! Each step of a node (`RecordedDesk`), and of a chain's master (`RecordedBook`), becomes an entry
//! of the store's history.
//!
//! Encodes what a step sends: all its messages, or those alone that bring entries (`Messages`).
//! Tells the two kinds of steps that can wait: one that only sends an entry, and one that only
//! acknowledges (`LoneAck`), which can be encoded after later steps. Bytes on their way (`Wire`)
//! carry a token of the history, in which their message was sent.
//!
//! Code that runs in the programs.
#![tactic(auto)]

mod asked;
mod callers;
mod encoding;
mod inbox;
mod joined_node;
mod limits;
mod messages;
mod node;
mod recorded_book;
mod recorded_desk;
mod steps;

pub use asked::{Asked, Destination, OwnAsk, QueuedAsk, refuse_own};
pub use callers::{CallOutcome, OwnReply, PendingCaller, dismiss, refuse_callers};
pub use encoding::{Kind, LoneAck, Sent, lone_entry};
pub use inbox::{Delivery, Entrances, Inbox, Waiting, open_inbox};
pub use joined_node::{JoinedNode, open_joined};
pub use messages::{
    Messages, Outgoing, OwedAck, Wire, encode_entries, encode_sent, entries_of, lone_entry_of,
    messages_of, messages_of_book, owed_by,
};
pub use node::{Removed, Route, RunningNode};
pub use recorded_book::RecordedBook;
pub use recorded_desk::{RecordedDesk, StepCalls};
pub use steps::{
    ArrivedEvent, Replies, SeatedNode, refuse_asked, take_event, take_own_ask, take_queued_ask,
};
