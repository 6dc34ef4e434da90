//! An index of unsettled entries by client, so that a client's look-up reads only its own entries.
//! Runs in the program; `craq_compact_history` calls it.
#![tactic(auto)]

mod index;
mod places;
mod positions;
mod replies;

pub use index::ClientIndex;
