//! `RunningNode`: a node as its workers and callers share it: its desk and callers under a lock
//! (`SeatedNode`), its inbox and the state of its life; and `Route`, the routing entry of a node.
ghost use Rattle.std.specs.Prelude.{◌≡◌};
ghost use Rattle.craq_running_node.specs.Routes.{retired};

use crate::inbox::{Delivery, Entrances, Inbox};
use crate::recorded_desk::RecordedDesk;
use crate::steps::SeatedNode;
use craq_ghost_history::Named;
use craq_names::{NodeId, NodeName};
use craq_node::Core;
use craq_seat::TicketQueue;
use craq_store_parts::{Losses, StoppedNode, StoreHistory};
use std::alloc::Global;
use std::sync::atomic::{AtomicBool, AtomicU64, Ordering};
use std::sync::{Arc, Mutex, MutexGuard, OnceLock, Wait};

/// A node that runs: its locked seat, its inbox, and the state of its life.
#[derive(Drop)]
pub struct RunningNode<C: Core + Named> {
    pub name: NodeName,
    /// It is set once: a node that joins is made before the step that lets it join.
    seat: OnceLock<Mutex<SeatedNode<C>>>,
    pub inbox: Inbox<C>,
    /// The number of pieces of work on requests that have begun.
    pieces: AtomicU64,
    halted: AtomicBool,
    closed: AtomicBool,
    pub losses: Losses,
}

impl<C: Core + Named> RunningNode<C> {
    /// Makes a node that runs once it is opened (`open`) and has nothing to do yet. Takes no memory.
    pub fn new(name: NodeName, inbox: Inbox<C>) -> Self
        ensures { result.name ≡ name }
    {
        RunningNode {
            name,
            seat: OnceLock::new(),
            inbox,
            pieces: AtomicU64::new(0),
            halted: AtomicBool::new(false),
            closed: AtomicBool::new(false),
            losses: Losses::new(),
        }
    }

    /// Opens the node with its desk. Only the first desk counts. Takes no memory.
    pub fn open<R: Wait>(&self, rt: &R, alloc: Global, desk: RecordedDesk<C>) {
        let seated = SeatedNode {
            desk,
            callers: TicketQueue::new(alloc),
        };
        let _ = self.seat.set(rt, Mutex::new(seated));
    }

    /// Locks the node until the guard is dropped; waits while another thread holds the lock, and
    /// until the node is open. Never allocates.
    pub fn lock<R: Wait>(&self, rt: &R) -> MutexGuard<'_, SeatedNode<C>> {
        self.seat.wait(rt).lock(rt)
    }

    /// Returns the proof that the node has stopped, with the receipt of the step in which it did,
    /// or `None` if it runs.
    pub fn stopped<R: Wait>(&self, rt: &R, history: &StoreHistory<C>) -> Option<StoppedNode<C>> {
        let mut seated = self.lock(rt);
        seated.desk.stopped(history)
    }

    /// Returns the count of the next piece of work on requests.
    pub fn next_piece(&self) -> u64 {
        self.pieces.fetch_add(1, Ordering::SeqCst)
    }

    /// Marks the node as halted.
    pub fn halt(&self) {
        self.halted.store(true, Ordering::SeqCst);
    }

    /// Returns whether the node is marked as halted.
    pub fn is_halted(&self) -> bool {
        self.halted.load(Ordering::SeqCst)
    }

    /// Marks the node as closed: it takes no request from now on.
    pub fn close(&self) {
        self.closed.store(true, Ordering::SeqCst);
    }

    /// Returns whether the node is closed. Under its lock the reply stays true while the lock is
    /// held.
    pub fn is_closed(&self) -> bool {
        self.closed.load(Ordering::SeqCst)
    }
}

/// The part of a removed node that its chain keeps.
#[derive(Clone, Copy)]
pub enum Removed {
    /// The node: an audit will merge its journal.
    Kept,
    /// Nothing.
    Dropped,
}

/// The routing entry of a node: the node, and the ways into its inbox.
///
/// A removed node has none of these, so its workers end. It is kept only if an audit has to merge its
/// journal.
#[derive(Drop)]
pub struct Route<C: Core + Named> {
    pub name: NodeName,
    pub node: Option<Arc<RunningNode<C>>>,
    pub entrances: Option<Entrances<C>>,
}

impl<C: Core + Named> Route<C> {
    /// Drops the senders if this is the entry of the node of this id, and the node too unless it is
    /// kept.
    pub fn retire(&mut self, id: NodeId, removed: Removed)
        ensures { self.new ≡ retired id removed self.old }
    {
        if self.name.node == id {
            drop(self.entrances.take());
            match removed {
                Removed::Kept => (),
                Removed::Dropped => drop(self.node.take()),
            }
        }
    }

    /// Brings something to the node, unless the node was removed, or one waits already that stands
    /// for it.
    pub fn forward<R: Wait>(&self, rt: &R, brought: Delivery<C>) {
        if let (Some(node), Some(entrances)) = (&self.node, &self.entrances) {
            node.inbox.put(rt, entrances, brought, &node.losses);
        }
    }
}
