//! `Rest`: the ticks since a chain last had work, by which a quiet chain ticks less often; for
//! `chain` and `shared`.
ghost use Rattle.std.specs.Prelude.{◌≡◌};
ghost use Rattle.craq_running_chain.specs.Resting.{takes_tick};

use std::sync::atomic::{AtomicU32, Ordering};

/// A chain rests after this many ticks without work: about a second. Then it takes one of this many
/// ticks. This project's profile.
const QUIET_TICKS: u32 = 20;

/// Counts the ticks since a chain last had work: a request, a node that is not ready, or a change
/// of its nodes.
#[derive(Drop)]
pub struct Rest {
    quiet: AtomicU32,
}

/// Returns whether a chain takes the tick that comes after this many quiet ones.
const fn takes_tick(quiet: u32) -> bool
    ensures { result ≡ takes_tick quiet }
{
    quiet < QUIET_TICKS || quiet % QUIET_TICKS == 0
}

impl Rest {
    /// Makes the count of a chain that had work just now. Takes no memory.
    pub fn new() -> Self {
        Rest {
            quiet: AtomicU32::new(0),
        }
    }

    /// Ends the rest: the chain has work. Writes only after a tick, since each request calls this.
    pub(crate) fn end(&self) {
        if self.quiet.load(Ordering::Relaxed) != 0 {
            self.quiet.store(0, Ordering::Relaxed);
        }
    }

    /// Counts a tick. Returns whether the chain takes it.
    pub(crate) fn tick(&self) -> bool {
        takes_tick(self.quiet.fetch_add(1, Ordering::Relaxed))
    }
}
