//! Nodes and masters with a journal (cells), the calls that wait at them (desks), and completions on
//! their way to the callers that wait. A seat is a desk under a lock.
//!
//! A stamp numbers a step in a logical clock: it is above that of every step that may have caused
//! it. `craq_audit` reads the journals.
//!
//! Any thread puts a completion into a queue. The queue's one owner polls it between other work, or
//! sleeps until one comes. A caller checks that a receipt is of its own request, which pass
//! follows, and which refusal the request can have. `receipts_by_chain` sorts the receipts of all
//! connections.
//!
//! Code that runs in the programs, from `craq_store_parts` to `craq_server`, and in
//! `craq_cell_chain`; it starts no threads.
#![tactic(auto)]

mod answering;
mod book;
mod calls;
mod cell;
mod completion_queue;
mod completion_sender;
mod desk;
mod journal;
mod laws;
mod mastering;
mod numbering;
mod queue_state;
mod refusing;
mod seat;
mod sorting;
mod stamps;
mod ticket_queue;
mod token;

pub use answering::{answer_of_call, pass_after};
pub use book::BookCell;
pub use calls::{Call, CallReceipt};
pub use cell::Cell;
pub use completion_queue::CompletionQueue;
pub use completion_sender::CompletionSender;
pub use desk::Desk;
pub use journal::{BookEvent, Opening, Receipt, Record};
pub use laws::stamps_rise;
pub use numbering::numbered;
pub use queue_state::{Completion, Outcome};
pub use refusing::{is_update, refusal_of_call};
pub use seat::{Caller, Seat, Seated};
pub use sorting::receipts_by_chain;
pub use ticket_queue::{TicketQueue, Ticketed};
pub use token::{CallToken, Reach};
