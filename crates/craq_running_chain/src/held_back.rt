//! `HeldBack`: the entries that a batch of a node's steps holds back, to send them together. For
//! `batch`.
ghost use Rattle.std.specs.Prelude.{◌≡◌};
ghost use Rattle.craq_running_chain.specs.Batches.{after_another, with_entry};

use craq_names::Seq;

/// The entries that a batch's steps made and that have not been sent.
#[derive(Clone, Copy, Debug, PartialEq, Eq)]
pub(crate) enum HeldBack {
    /// None.
    Nothing,
    /// One entry, of this position, which the node's last step sends.
    Last(Seq),
    /// Entries of several steps, or one of a step before the last. The first has this position.
    Several(Seq),
}

impl HeldBack {
    /// Returns what is held back once an entry of this position is held back too.
    pub(crate) fn with_entry(self, position: Seq) -> Self
        ensures { result ≡ with_entry position self }
    {
        match self {
            HeldBack::Nothing => HeldBack::Last(position),
            HeldBack::Last(first) | HeldBack::Several(first) => HeldBack::Several(first),
        }
    }

    /// Returns what is held back after a step of which nothing is held back.
    pub(crate) fn after_another(self) -> Self
        ensures { result ≡ after_another self }
    {
        match self {
            HeldBack::Nothing => HeldBack::Nothing,
            HeldBack::Last(first) | HeldBack::Several(first) => HeldBack::Several(first),
        }
    }
}
