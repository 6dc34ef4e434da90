//! `Losses`: a count of what a node lost because memory ended; for `craq_running_node`, and for
//! batches of `craq_running_chain`.
use std::sync::atomic::{AtomicU64, Ordering};

/// The number of messages to and from a node that were lost because memory ended. Those of one step
/// are encoded together, and count once.
///
/// Threads add to it under no common lock, so it is an atomic number. The kit's contracts say
/// nothing of the value of one, so no contract pins the count: one that stays 0 meets them too.
#[derive(Drop)]
pub struct Losses {
    count: AtomicU64,
}

impl Losses {
    /// Makes a count of nothing. Takes no memory.
    pub fn new() -> Self {
        Losses {
            count: AtomicU64::new(0),
        }
    }

    /// Counts a loss.
    pub fn add(&self) {
        self.count.fetch_add(1, Ordering::SeqCst);
    }

    /// Returns the number of losses so far.
    pub fn count(&self) -> u64 {
        self.count.load(Ordering::SeqCst)
    }
}
