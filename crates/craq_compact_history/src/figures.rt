//! `NodeFigures`: figures of a node over the compacting past, for people who watch a store.
ghost use Rattle.std.specs.Prelude.{◌≡◌};
ghost use Rattle.craq_model.specs.Plain.{Plain};
ghost use Rattle.craq_compact_history.specs.Counted.{CountsHeld};
ghost use Rattle.craq_compact_history.specs.Figures.{figures_of};

use crate::ListCore;
use craq_history::History;
use craq_node::Core;

/// Figures of a node.
#[derive(Clone, Copy, Debug, PartialEq, Eq)]
pub struct NodeFigures {
    /// The epoch of the membership that it knows, 0 if it knows none yet.
    pub epoch: u64,
    /// True if it holds its chain's history.
    pub is_ready: bool,
    /// True if it is not stopped.
    pub is_running: bool,
    /// The number of entries of its history.
    pub length: u64,
    /// Its commit index.
    pub committed: u64,
    /// The number of updates that wait at it.
    pub waiting_updates: usize,
    /// The number of reads that wait at it.
    pub waiting_reads: usize,
    /// The number of objects after all entries of its history, at most 2^64 - 1.
    pub objects: u64,
    /// The number of bytes of the keys and values that it holds, modulo 2^64: those of the settled
    /// versions, and those of the writes after them.
    pub bytes: u64,
}

/// Returns whether a node is not stopped.
fn is_running(core: &ListCore) -> bool
    ensures { (p : Plain) → ⟦<ListCore as Core>⟧.represents core.now p → result ≡ p.running }
{
    core.switch().receipt().is_none()
}

/// Returns the figures of a node, in constant time. Allocates nothing.
pub fn figures_of(core: &ListCore) -> NodeFigures
    ensures figures { (p : Plain) → ⟦<ListCore as Core>⟧.represents core.now p → result ≡ figures_of p result.bytes }
    ensures bytes { (p : Plain) → ⟦<ListCore as Core>⟧.represents core.now p → CountsHeld p.past result.bytes }
{
    let node = core.node();
    let reads = node.waiting_reads.as_slice();
    NodeFigures {
        epoch: node.epoch.get(),
        is_ready: node.ready,
        is_running: is_running(core),
        length: node.history.len(),
        committed: node.history.acknowledged(),
        waiting_updates: node.waiting_updates.len(),
        waiting_reads: reads.len(),
        objects: node.history.objects(),
        bytes: node.history.bytes(),
    }
}
