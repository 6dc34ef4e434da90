//! `Passes`: the passes that a server takes, by the largest that it returned; shared by its
//! connections.
ghost use Rattle.std.specs.Prelude.{◌≡◌, ◌⊎◌, ◌+◌, ◌/◌, ◌<◌, ◌≤◌, ◌↔◌, ℕ, IsTrue, false};
ghost use Rattle.craq_server.specs.Refusing.{Leaps};

use craq_names::{Pass, Stamp};
use std::sync::atomic::{AtomicU64, Ordering};

/// Returns whether a pass is taken, where `known` is the largest that is known to be returned: one
/// that lies at most `leap` above it, or any where `leap` is 0. A node counts on from a pass that
/// it is shown, so one that is taken brings it at most that far.
pub(crate) fn is_taken(known: Pass, leap: u32, shown: Pass) -> bool
    ensures { IsTrue result ↔ ((leap ≡ 0) ⊎ (shown ≤ known + leap)) }
{
    let known = known.stamp().get();
    let shown = shown.stamp().get();
    leap == 0 || shown <= known || shown - known <= u64::from(leap)
}

/// Returns whether a pass that is about to be returned has to be made known before: where it lies
/// more than half of `leap` above `known`.
fn is_news(known: u64, leap: u32, returned: u64) -> bool
    ensures { IsTrue result ↔ (known + leap / 2 < returned) }
{
    known < returned && returned - known > u64::from(leap / 2)
}

/// The passes that a server returned. `tell` keeps `known` at most half of `leap` below any of
/// them, so that each of them is taken. That is reviewed and not proved, since no contract sees
/// what an atomic number holds; which passes are taken where a pass is known, `is_taken` says.
#[derive(Drop)]
pub(crate) struct Passes {
    /// A pass that was returned, or 0. No pass was returned that lies more than half of `leap`
    /// above.
    known: AtomicU64,
    /// The most that a pass may lie above `known`; 0 for no bound.
    leap: u32,
}

impl Passes {
    /// Makes the record of a server that has returned no pass.
    pub(crate) fn new(leap: u32) -> Self
        ensures { result.leap ≡ leap }
    {
        Passes {
            known: AtomicU64::new(0),
            leap,
        }
    }

    /// Returns whether the pass is taken, by the largest that is known to be returned (`is_taken`).
    /// One of at most `leap` always is, and each where `leap` is 0.
    pub(crate) fn takes(&self, pass: Pass) -> bool
        ensures taken { (known : ℕ) × (IsTrue result ↔ ((self.now.leap ≡ 0) ⊎ (pass ≤ known + self.now.leap))) }
        ensures leaps { result ≡ false → Leaps self.now.leap pass }
    {
        let known = Stamp::new(self.known.load(Ordering::SeqCst));
        is_taken(Pass::of(known), self.leap, pass)
    }

    /// Notes a pass that is about to be returned. To be called before the reply with it goes out:
    /// its client may show the pass at once, on any connection.
    pub(crate) fn tell(&self, pass: Pass) {
        if self.leap == 0 {
            return;
        }
        let returned = pass.stamp().get();
        if is_news(self.known.load(Ordering::SeqCst), self.leap, returned) {
            self.known.fetch_max(returned, Ordering::SeqCst);
        }
    }
}
