//! `WakeUp` wakes the chain thread. Each thread that brings something to the chain calls it. It costs
//! a system call only if the chain thread sleeps.
use std::sync::Wait;
use std::sync::atomic::{AtomicBool, AtomicU64, Ordering};
use std::thread::Parker;
use std::time::Duration;

/// The milliseconds for which the chain thread waits when it is out of memory.
const PAUSE_MILLISECONDS: u64 = 10;

/// Wakes the chain thread, and counts the changes of the chain's nodes.
#[derive(Drop)]
pub struct WakeUp {
    parker: Parker,
    /// The chain thread sleeps, or is about to.
    idle: AtomicBool,
    /// A request was queued for which nobody was woken: its caller is to run the chain.
    left: AtomicBool,
    changes: AtomicU64,
}

impl WakeUp {
    /// Makes the wake-up of a thread that does not sleep. Takes no memory.
    pub fn new() -> Self {
        WakeUp {
            parker: Parker::new(),
            idle: AtomicBool::new(false),
            left: AtomicBool::new(false),
            changes: AtomicU64::new(0),
        }
    }

    /// Wakes the chain thread (`run_chain_thread`) if it sleeps. What waits has to be there before.
    pub(crate) fn wake(&self) {
        if self.idle.load(Ordering::SeqCst) && self.idle.swap(false, Ordering::SeqCst) {
            self.parker.unpark();
        }
    }

    /// Tells the chain thread that the nodes of the chain have changed, and wakes it.
    pub fn change(&self) {
        self.changes.fetch_add(1, Ordering::SeqCst);
        self.parker.unpark();
    }

    /// Returns how often the nodes have changed.
    pub(crate) fn changes(&self) -> u64 {
        self.changes.load(Ordering::SeqCst)
    }

    /// Takes the chain thread's place if that thread sleeps, or is about to. Returns whether it did.
    /// Nobody wakes the thread then: the caller takes what waits, and gives the place back by
    /// `doze`.
    pub(crate) fn take_place(&self) -> bool {
        self.idle.load(Ordering::SeqCst) && self.idle.swap(false, Ordering::SeqCst)
    }

    /// Marks that a request is queued for which nobody is woken.
    pub(crate) fn leave(&self) {
        self.left.store(true, Ordering::SeqCst);
    }

    /// Clears the mark of `leave`. Returns whether it was set.
    pub(crate) fn take_left(&self) -> bool {
        self.left.load(Ordering::SeqCst) && self.left.swap(false, Ordering::SeqCst)
    }

    /// Marks the thread as about to sleep, or gives its place back. The caller has to look once more
    /// for what waits: nobody was woken for what came before.
    pub(crate) fn doze(&self) {
        self.idle.store(true, Ordering::SeqCst);
    }

    /// Marks the thread as awake: it found something.
    pub(crate) fn rouse(&self) {
        self.idle.store(false, Ordering::SeqCst);
    }

    /// Waits `PAUSE_MILLISECONDS`, or less where the nodes of the chain change meanwhile.
    pub(crate) fn pause<R: Wait>(&self, rt: &R) {
        let pause = Duration::from_millis(PAUSE_MILLISECONDS);
        self.parker.park_timeout(rt, pause);
    }

    /// Sleeps until the thread is woken.
    pub(crate) fn sleep<R: Wait>(&self, rt: &R) {
        self.parker.park(rt);
        self.rouse();
    }
}
