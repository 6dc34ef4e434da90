//! `Node`: a node of a chain over any `History`. The rules read it, and only `Node::apply` changes
//! it.
ghost use Rattle.std.specs.Prelude.{◌≡◌, ◌+◌, nat_le, length};
ghost use Rattle.craq_names.specs.Limits.{waiting_limit};

use crate::WaitingUpdates;
use crate::outs::Sender;
use craq_model::{Gathering, WaitingRead};
use craq_names::{Epoch, Items, NodeId, NodeName, Seq, Ticket};

/// The maximum number of waiting requests at a node.
const MOST_WAITING: usize = 1024;

/// A node of a chain, over any storage of its past.
#[derive(Drop)]
pub struct Node<H> {
    pub name: NodeName,
    /// The epoch of the membership that it knows, 0 if it knows none yet.
    pub epoch: Epoch,
    /// The members that it knows, head first.
    pub members: Items<NodeId>,
    pub ready: bool,
    pub history: H,
    /// The number of entries that it must hold to become ready, once it is known.
    pub floor: Option<Seq>,
    /// The parts of a state that it has gathered while it is not ready.
    pub gathering: Option<Gathering>,
    pub last_ticket: Ticket,
    /// Updates without a reply so far, by rising ticket.
    pub waiting_updates: WaitingUpdates,
    /// Reads without a reply so far, by rising ticket.
    pub waiting_reads: Vec<WaitingRead>,
}

impl<H> Node<H> {
    /// Returns true exactly if no more requests can wait.
    pub fn is_full(&self) -> bool
        ensures { result ≡ nat_le waiting_limit (length self.now.waiting_updates.items + length self.now.waiting_reads.items) }
    {
        let updates = self.waiting_updates.len();
        let reads = self.waiting_reads.len();
        updates >= MOST_WAITING || reads >= MOST_WAITING - updates
    }

    /// Returns the node as the sender of messages.
    pub fn sender(&self) -> Sender
        ensures name { result.name ≡ self.now.name }
        ensures epoch { result.epoch ≡ self.now.epoch }
    {
        Sender {
            name: self.name,
            epoch: self.epoch,
        }
    }
}
