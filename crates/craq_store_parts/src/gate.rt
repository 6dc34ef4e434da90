//! `Gate`: hooks round each piece of work, by which tests delay work and inject faults; `OpenGate`
//! for all other programs.
use craq_names::NodeName;

/// The kind of a piece of work. A tick, and all that a chain's master does, is a delivery.
#[derive(Clone, Copy, Debug, PartialEq, Eq)]
pub enum Work {
    /// The requests of clients.
    Asks,
    /// The messages that arrive.
    Deliveries,
}

/// Hooks round each piece of work of a store's workers. A hook that waits delays the worker; to
/// wait it needs a handle of its own.
///
/// Each worker counts its pieces from 0, without gaps. Callers that take their steps themselves
/// count among their node's requests, in no fixed order. A piece of a chain thread is a batch of a
/// node: at most 32 messages and 16 requests that wait there, counted among its requests.
pub trait Gate: Drop {
    /// Called before a piece of work, with no lock held.
    fn before(&self, node: NodeName, work: Work, count: u64);

    /// Called after a piece of work, with no lock held.
    fn after(&self, node: NodeName, work: Work, count: u64);

    /// Called right before the first step of a piece, with the lock of that node or master held and
    /// no other.
    fn within(&self, node: NodeName, work: Work, count: u64);

    /// Returns whether the link from one node, or the master, to another carries a message. If not,
    /// the message is lost.
    fn carries(&self, from: NodeName, to: NodeName) -> bool;

    /// Returns whether the link from one node, or the master, to another sends a message twice. It
    /// then comes twice. Of acknowledgements that wait, and of words of a node that is not ready,
    /// only the last is taken.
    fn repeats(&self, _from: NodeName, _to: NodeName) -> bool {
        false
    }

    /// Returns whether a chain thread takes the steps of all nodes of its chain, and a second thread
    /// those of the nodes behind a busy head. Callers then take the steps of their reads themselves,
    /// and, while the chain thread sleeps, those of few updates. If not, two threads of each node
    /// take all steps: one those of requests, one those of messages and ticks. A store asks this
    /// once, when it starts.
    fn chain_threads(&self) -> bool {
        false
    }
}

/// A gate that neither delays work nor loses messages.
#[derive(Drop)]
pub struct OpenGate {
    /// The two threads of each chain take the steps of all its nodes.
    pub chain_threads: bool,
}

impl Gate for OpenGate {
    fn before(&self, _node: NodeName, _work: Work, _count: u64) {}

    fn after(&self, _node: NodeName, _work: Work, _count: u64) {}

    fn within(&self, _node: NodeName, _work: Work, _count: u64) {}

    fn carries(&self, _from: NodeName, _to: NodeName) -> bool {
        true
    }

    fn chain_threads(&self) -> bool {
        self.chain_threads
    }
}
