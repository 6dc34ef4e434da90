//! `open_history`: opens the history of a store, before the program that starts the store names it.
use craq_ghost_history::Opened;
use craq_store_history::{HistoryEntry, StoreRule};
use std::alloc::{AllocError, Global};

/// The history of a store before its first entry. It exists in the proofs alone, except one word.
pub type OpenedHistory = Opened<HistoryEntry, StoreRule>;

/// Opens the history of a store, for `Store::start`. Fails only when out of memory.
///
/// A program that starts a store is a function that is generic in the history's name: it takes
/// `N: Named + Send + 'static` and the opened history, and requires that this is the history of
/// `N`. Its core is `At<C, N>`. Its caller passes `Brand` for `N`, and picks the history in its
/// file `Invariants.antt`.
pub fn open_history(alloc: Global) -> Result<OpenedHistory, AllocError> {
    Opened::new(alloc)
}
