//! `StoreRule`: the rule of a store's history.
use crate::entry::HistoryEntry;
use craq_ghost_history::HistoryRule;

/// The rule of a store's history: the lines of each chain are in causal order, each author's are a
/// journal, and a step accepts a call only after the client made it. At most one step accepts a
/// call, and none if the client takes the call back: either uses the call's permit up.
pub struct StoreRule;

impl HistoryRule<HistoryEntry> for StoreRule {
    ghost use Rattle.craq_store_history.specs.Chains.{IsHistory};
    ghost use Rattle.craq_store_history.specs.Entries.{author_of, permit_of};

    ghost author = { author_of };

    ghost permit = { permit_of };

    ghost holds = { IsHistory };
}
