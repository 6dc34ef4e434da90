//! A compacting past: the state after the settled entries, in maps, and the unsettled entries.
//! Runs in the program: `craqd`, `craq_lab` and `craq_embedding` run nodes over it.
#![tactic(auto)]

ghost use Rattle.craq_model.specs.Plain.{Plain};
ghost use Rattle.craq_node_invariant.specs.Sound.{IsSound};
ghost use Rattle.craq_compact_history.specs.Forgotten.{DiffersInSettled};

mod figures;
mod history;
mod later;

use craq_node::{Core, NodeCore};
pub use figures::{NodeFigures, figures_of};
pub use history::CompactingHistory;

/// A node over the compacting past.
pub type ListCore = NodeCore<CompactingHistory>;

/// States that a compacting core represents, with a node, each sound node that differs from it only
/// in settled entries and has the same clean state. Does nothing.
pub fn settled_entries_are_forgotten(core: &ListCore)
    ensures { (p q : Plain) → ⟦<ListCore as Core>⟧.represents core.now p → IsSound q → DiffersInSettled p q → ⟦<ListCore as Core>⟧.represents core.now q }
{
    let _core = core;
}
