//! The name of a step, its record in a journal, and the events of a master; used by `cell` and
//! `book`, which keep journals, and by `craq_audit`, which reads them.
use craq_epochs::StopReceipt;
use craq_model::{Config, Step};
use craq_names::{NodeId, NodeName, Pass, Stamp};

/// Names a step in its chain: the node that took it (0: the master), and the step's stamp.
#[derive(Clone, Copy, Debug, PartialEq, Eq)]
pub struct Receipt {
    pub node: NodeId,
    pub stamp: Stamp,
}

/// Start of a cell: its name, its first membership, and the stamp that all of its steps
/// exceed.
#[derive(Debug, Drop)]
pub struct Opening {
    pub name: NodeName,
    pub config: Option<Config>,
    pub stamp: Stamp,
}

/// A step that was taken, as a journal keeps it.
#[derive(Debug, Drop)]
pub struct Record<E> {
    pub stamp: Stamp,
    pub event: E,
    /// The largest stamp that the sender of the event had seen.
    pub pass: Pass,
    pub step: Step,
}

/// An event at a chain's master.
#[derive(Clone, Copy, Debug, PartialEq, Eq)]
pub enum BookEvent {
    /// A new node joins after the last member.
    Join(NodeId),
    /// A stopped member is removed; `stop` names the step in which it stopped.
    Remove { stopped: StopReceipt, stop: Receipt },
    /// The master sends its membership again.
    Tick,
}
