//! The history of a store: its entries, its rule, and that each chain's lines in it are a run; the
//! running store adds what it does to it. Laws, and types that exist in the proofs alone.
#![tactic(auto)]

mod entry;
mod laws;
mod rule;

pub use entry::{CallId, HistoryEntry};
pub use laws::{
    accepted_calls_follow, authors_are_replayed, authors_keep_the_rule, calls_are_accepted_once,
    each_chain_is_a_run,
};
pub use rule::StoreRule;
