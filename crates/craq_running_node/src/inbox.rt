//! `Inbox`: all that waits at a node, requests and what is brought; and `Entrances`, the ways into
//! it. For `node`, and the crates above.
ghost use Rattle.std.specs.Prelude.{◌≡◌, ◌⊎◌};
ghost use Rattle.craq_running_node.specs.Inboxes.{Gives, WaitsAs};

use crate::asked::QueuedAsk;
use crate::encoding::Kind;
use crate::messages::Wire;
use craq_ghost_history::Named;
use craq_store_parts::Losses;
use crossbeam_channel::{Receiver, SendError, Sender};
use std::alloc::{AllocError, Global};
use std::sync::atomic::{AtomicBool, Ordering};
use std::sync::{Mutex, Wait};

/// An item brought to a node.
#[derive(Drop)]
pub enum Delivery<N: Named> {
    /// An encoded message.
    Message(Wire<N>),
    /// An encoded acknowledgement.
    Ack(Wire<N>),
    /// An encoded message that says that its sender is not ready.
    Blank(Wire<N>),
    /// The node has to send again what its neighbours may lack.
    Tick,
}

impl<N: Named> Delivery<N> {
    /// Makes the item of an encoded message of this class.
    pub fn of(kind: Kind, wire: Wire<N>) -> Self
        ensures ack { kind ≡ Kind.Ack → result ≡ Delivery.Ack wire }
        ensures blank { kind ≡ Kind.Blank → result ≡ Delivery.Blank wire }
        ensures message { (kind ≡ Kind.Entry) ⊎ (kind ≡ Kind.Other) → result ≡ Delivery.Message wire }
    {
        match kind {
            Kind::Ack => Delivery::Ack(wire),
            Kind::Blank => Delivery::Blank(wire),
            Kind::Entry | Kind::Other => Delivery::Message(wire),
        }
    }
}

/// The place of a brought item in an inbox. `Inbox::take` gives the item.
#[derive(Drop)]
pub enum Waiting<N: Named> {
    /// An encoded message.
    Message(Wire<N>),
    /// The acknowledgement that was brought last.
    Ack,
    /// The word of a node that is not ready that was brought last.
    Blank,
    /// A tick.
    Tick,
}

/// Of the messages that neighbours repeat, the one that was brought last: links may lose the others.
type Last<N> = Mutex<Option<Wire<N>>>;

/// All that waits at a node: requests, and what is brought. At most one tick, one acknowledgement
/// and one word of a node that is not ready wait at a time.
#[derive(Drop)]
pub struct Inbox<N: Named> {
    asks: Receiver<QueuedAsk<N>>,
    brought: Receiver<Waiting<N>>,
    ack: Last<N>,
    blank: Last<N>,
    /// A tick waits.
    tick: AtomicBool,
}

/// The ways into an inbox. Its readers end once these are dropped and nothing waits.
#[derive(Drop)]
pub struct Entrances<N: Named> {
    pub asks: Sender<QueuedAsk<N>>,
    brought: Sender<Waiting<N>>,
}

/// Makes an empty inbox, with the ways into it. Fails only when out of memory.
pub fn open_inbox<N: Named>(alloc: Global) -> Result<(Entrances<N>, Inbox<N>), AllocError> {
    let (to_asks, asks) = crossbeam_channel::unbounded(alloc)?;
    let (to_brought, brought) = crossbeam_channel::unbounded(alloc)?;
    let entrances = Entrances {
        asks: to_asks,
        brought: to_brought,
    };
    let inbox = Inbox {
        asks,
        brought,
        ack: Mutex::new(None),
        blank: Mutex::new(None),
        tick: AtomicBool::new(false),
    };
    Ok((entrances, inbox))
}

/// Keeps a message in place of the one before. Returns whether there was none.
fn keep<R: Wait, N: Named>(rt: &R, last: &Last<N>, wire: Wire<N>) -> bool {
    let before = last.lock(rt).replace(wire);
    before.is_none()
}

impl<N: Named> Inbox<N> {
    /// Waits for a request. Returns `None` once no request can come any more.
    pub fn wait_for_ask<R: Wait>(&self, rt: &R) -> Option<QueuedAsk<N>> {
        self.asks.recv(rt).ok()
    }

    /// Returns the request that has waited longest, or `None` if none waits.
    pub fn next_ask<R: Wait>(&self, rt: &R) -> Option<QueuedAsk<N>> {
        self.asks.try_recv(rt).ok()
    }

    /// Waits until something is brought. Returns `None` once nothing can be brought any more.
    pub fn wait<R: Wait>(&self, rt: &R) -> Option<Waiting<N>> {
        self.brought.recv(rt).ok()
    }

    /// Returns the place of the brought item that has waited longest, or `None` if none waits.
    pub fn next<R: Wait>(&self, rt: &R) -> Option<Waiting<N>> {
        self.brought.try_recv(rt).ok()
    }

    /// Takes the item that has this place. Returns `None` only if that of an earlier place was taken
    /// in its stead. Another tick, acknowledgement or word may wait from now on.
    pub fn take<R: Wait>(&self, rt: &R, waiting: Waiting<N>) -> Option<Delivery<N>>
        ensures { Gives waiting result }
    {
        match waiting {
            Waiting::Message(wire) => Some(Delivery::Message(wire)),
            Waiting::Ack => self.ack.lock(rt).take().map(|wire| Delivery::Ack(wire)),
            Waiting::Blank => self.blank.lock(rt).take().map(|wire| Delivery::Blank(wire)),
            Waiting::Tick => {
                self.tick.store(false, Ordering::SeqCst);
                Some(Delivery::Tick)
            }
        }
    }

    /// Drops the word of a node that is not ready that was brought since `take`: a step that begins
    /// later has answered it.
    pub fn blank_answered<R: Wait>(&self, rt: &R) {
        let answered = self.blank.lock(rt).take();
        drop(answered);
    }

    /// Returns whether nothing waits.
    pub fn is_empty(&self) -> bool {
        self.brought.is_empty() && self.asks.is_empty()
    }

    /// Returns the item that waits for what is brought, or `None` if such an item waits already.
    fn admit<R: Wait>(&self, rt: &R, brought: Delivery<N>) -> Option<Waiting<N>>
        ensures { WaitsAs brought result }
    {
        match brought {
            Delivery::Message(wire) => Some(Waiting::Message(wire)),
            Delivery::Ack(wire) => keep(rt, &self.ack, wire).then_some(Waiting::Ack),
            Delivery::Blank(wire) => keep(rt, &self.blank, wire).then_some(Waiting::Blank),
            Delivery::Tick => (!self.tick.swap(true, Ordering::SeqCst)).then_some(Waiting::Tick),
        }
    }

    /// Puts what is brought behind what waits, unless such an item waits already. Out of memory it is
    /// lost, and a message counts as a loss.
    pub(crate) fn put<R: Wait>(
        &self,
        rt: &R,
        entrances: &Entrances<N>,
        brought: Delivery<N>,
        losses: &Losses,
    ) {
        let Some(waiting) = self.admit(rt, brought) else {
            return;
        };
        match entrances.brought.send(rt, waiting) {
            Ok(()) => (),
            Err(SendError::OutOfMemory(lost)) => {
                if !matches!(&lost, Waiting::Tick) {
                    losses.add();
                }
                self.lose(rt, lost);
            }
            Err(SendError::Disconnected(lost)) => self.lose(rt, lost),
        }
    }

    /// Loses the item that has this place.
    fn lose<R: Wait>(&self, rt: &R, waiting: Waiting<N>) {
        let lost = self.take(rt, waiting);
        drop(lost);
    }
}
