//! A list of entries that only grows and exists in the proofs alone, under a rule that is the
//! user's: each author's right is given once, each permit is used up by one entry at most, and a
//! token, which has no bytes, is a prefix that was seen. `craq_store_history` has the entries of a
//! store. A step runs as one load of a word that nobody writes; it cannot fail, wait or allocate.
#![tactic(auto)]

mod author;
mod grant;
mod history;
mod opening;
mod token;
mod writer;

pub use author::{Author, Permit, Right};
pub use grant::Grant;
pub use history::{GhostHistory, HistoryRule, Law, Named, View};
pub use opening::{Opened, Registrar};
pub use token::Token;
pub use writer::Writer;
