//! A node's kept replies: a map from client to request numbers with replies, for `craq_compact_state`.
//! Runs in the program.
#![tactic(auto)]

mod held;
mod items;
mod places;
mod table;

pub use items::KeptReplies;
pub use table::ReplyTable;
