//! `Help` calls a chain's second thread. `HeadLoad` is the load of the head, by which the chain thread
//! decides whether to call it. For `batch`.
ghost use Rattle.std.specs.Prelude.{◌≡◌, ◌↔◌, ◌≤◌, IsTrue};
ghost use Rattle.craq_running_chain.specs.Loads.{most_load, noted_alone, noted_helped};

use crate::batch::ASKS;
use std::sync::Wait;
use std::sync::atomic::{AtomicBool, Ordering};
use std::thread::Parker;

/// The load from which on a second thread is worth its cost. This project's profile.
const MOST_LOAD: u32 = 128;

/// The requests of a batch from which on a second thread stays. This project's profile.
const ENOUGH: u32 = 6;

/// Calls the second thread of a chain, which sleeps until then (`run_second_thread`).
#[derive(Drop)]
pub struct Help {
    parker: Parker,
    /// The second thread is to take the nodes behind the head.
    called: AtomicBool,
}

impl Help {
    /// Makes the value of a thread that is not called. Takes no memory.
    pub fn new() -> Self {
        Help {
            parker: Parker::new(),
            called: AtomicBool::new(false),
        }
    }

    /// Calls the second thread, and wakes it.
    pub(crate) fn call(&self) {
        self.called.store(true, Ordering::SeqCst);
        self.parker.unpark();
    }

    /// Takes the call back. The second thread may still take one batch of each node.
    pub(crate) fn end(&self) {
        self.called.store(false, Ordering::SeqCst);
    }

    /// Returns whether the second thread is called.
    pub(crate) fn is_called(&self) -> bool {
        self.called.load(Ordering::SeqCst)
    }

    /// Wakes the second thread without a call, so it sees that the store is closed.
    pub(crate) fn wake(&self) {
        self.parker.unpark();
    }

    /// Sleeps until the thread is woken.
    pub(crate) fn sleep<R: Wait>(&self, rt: &R) {
        self.parker.park(rt);
    }
}

/// The load of a chain's head. While one thread takes all nodes: the last full batches in a row. While
/// a second one helps: the batches with enough requests less the others. At most `MOST_LOAD`.
#[derive(Debug, Clone, Copy)]
pub(crate) struct HeadLoad {
    load: u32,
}

impl HeadLoad {
    /// Makes the load of a head without a batch.
    pub(crate) fn new() -> Self
        ensures { result.load ≡ 0 }
    {
        HeadLoad { load: 0 }
    }

    /// Counts a batch of `taken` requests of the head, while one thread takes all nodes. A batch of
    /// messages alone does not count.
    pub(crate) fn note_alone(&mut self, taken: u32)
        ensures { self.new.load ≡ noted_alone taken self.old.load }
    {
        match taken {
            0 => {}
            _ if taken < ASKS => self.load = 0,
            _ => self.load = self.load.saturating_add(1).min(MOST_LOAD),
        }
    }

    /// Counts a batch of `taken` requests of the head, while a second thread helps. A batch of
    /// messages alone does not count.
    pub(crate) fn note_helped(&mut self, taken: u32)
        ensures { self.new.load ≡ noted_helped taken self.old.load }
    {
        match taken {
            0 => {}
            _ if taken < ENOUGH => self.load = self.load.saturating_sub(1),
            _ => self.load = self.load.saturating_add(1).min(MOST_LOAD),
        }
    }

    /// Returns whether a second thread is worth its cost.
    pub(crate) fn is_high(&self) -> bool
        ensures { IsTrue result ↔ (most_load ≤ self.now.load) }
    {
        self.load >= MOST_LOAD
    }

    /// Returns whether one thread is enough.
    pub(crate) fn is_low(&self) -> bool
        ensures { IsTrue result ↔ (self.now.load ≡ 0) }
    {
        self.load == 0
    }
}
