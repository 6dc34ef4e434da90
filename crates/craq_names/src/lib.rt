//! Keys, values, ids, numbers, refusals, checked by type; below every crate but `craq_protocol`.
//! Runs in the program; `specs/` defines limits, maps and refusal numbers.
#![tactic(auto)]

mod copied;
mod key;
mod list;
mod map;
mod name;
mod number;
mod order;
mod refusal;
mod same;
mod short;

pub use copied::{Copied, copies_of};
pub use key::{Key, Value};
pub use list::Items;
pub use map::put_at;
pub use name::{NodeName, ObjectId};
pub use number::{ChainId, ClientId, Epoch, NodeId, Pass, RequestNo, Seq, Stamp, Ticket, Version};
pub use refusal::Refusal;
pub use same::{Same, are_same};
