//! Defines `Kept`, a node that tells how its history keeps entries; for `steps` and `worlds`.
use super::teller::Teller;
use craq_compact_history::ListCore;
use craq_history::History;
use craq_play::PlainCore;

/// A node that tells how its history keeps entries.
pub trait Kept {
    /// Returns the number of entries that the history represents.
    fn entries(&self) -> u64;

    /// Returns the number of settled entries that the history still holds in memory, where it
    /// forgets settled entries. It is above 0 only after it ran out of memory for applying them.
    fn unfolded(&self) -> u64;
}

impl Kept for PlainCore {
    fn entries(&self) -> u64 {
        self.node().history.len()
    }

    fn unfolded(&self) -> u64 {
        0
    }
}

impl Kept for ListCore {
    fn entries(&self) -> u64 {
        self.node().history.len()
    }

    fn unfolded(&self) -> u64 {
        let history = &self.node().history;
        history.acknowledged().saturating_sub(history.base().get())
    }
}

/// The entries of nodes: the number that their histories represent, and the number of settled ones
/// that they still hold in memory.
#[derive(Clone, Copy)]
pub struct Entries {
    pub all: u64,
    pub unfolded: u64,
}

/// Returns the entries of a node.
pub fn entries_of<C: Kept>(node: &C) -> Entries {
    Entries {
        all: node.entries(),
        unfolded: node.unfolded(),
    }
}

/// Returns the entries of several nodes together.
pub fn entries_in<C: Kept>(nodes: &[C]) -> Entries {
    let (mut all, mut unfolded) = (0u64, 0u64);
    for node in nodes {
        all = all.saturating_add(node.entries());
        unfolded = unfolded.saturating_add(node.unfolded());
    }
    Entries { all, unfolded }
}

/// Prints how many entries a call appended, and how many settled ones are held in memory after it.
pub fn tell_entries(teller: Teller, before: Entries, after: Entries) {
    let appended = after.all.saturating_sub(before.all);
    let unfolded = after.unfolded;
    let _ = println!(teller.host; "history: appended {appended}, unfolded {unfolded}");
}
