//! `Seat`: a desk under a lock, with the callers that wait for its replies; used by
//! `craq_cell_chain`.
use crate::{Desk, TicketQueue, Ticketed};
use craq_names::Ticket;
use craq_node::Core;
use std::alloc::Global;
use std::sync::{Mutex, MutexGuard, Wait};

/// A caller that waits for the reply to its request: the request's ticket, and where it waits.
#[derive(Drop)]
pub struct Caller<W: Drop> {
    pub ticket: Ticket,
    pub at: W,
}

impl<W: Drop> Ticketed for Caller<W> {
    ghost ticket_of = { λ caller. caller.ticket };

    fn ticket(&self) -> Ticket {
        self.ticket
    }
}

/// The content of a seat's lock: a node's desk, and the callers that wait for its replies.
#[derive(Drop)]
pub struct Seated<C: Core, W: Drop = ()> {
    pub desk: Desk<C>,
    pub callers: TicketQueue<Caller<W>>,
}

/// A node's desk and its callers under one lock, shared by several threads. A thread that takes the
/// lock knows of the desk only what its type keeps: that its cell is the replay of its journal.
#[derive(Drop)]
pub struct Seat<C: Core, W: Drop = ()> {
    inside: Mutex<Seated<C, W>>,
}

impl<C: Core, W: Drop> Seat<C, W> {
    /// Makes the seat of a desk, without waiting callers. Never allocates.
    pub fn new(alloc: Global, desk: Desk<C>) -> Self {
        Seat {
            inside: Mutex::new(Seated {
                desk,
                callers: TicketQueue::new(alloc),
            }),
        }
    }

    /// Locks the desk and its callers until the guard is dropped; waits while another thread holds
    /// them. Never allocates.
    pub fn lock<R: Wait>(&self, rt: &R) -> MutexGuard<'_, Seated<C, W>> {
        self.inside.lock(rt)
    }

    /// Locks the desk and its callers until the guard is dropped; returns `None` if another thread
    /// holds them now. Never allocates.
    pub fn try_lock(&self) -> Option<MutexGuard<'_, Seated<C, W>>> {
        self.inside.try_lock()
    }
}
