//! Tests how much pending work a held node collects while others send the same messages again and
//! again; called by `driving`.
use crate::asks::chain;
use crate::driving::{Callers, Ground};
use crate::fault::{Fact, Fault, expect};
use craq_names::NodeId;
use craq_workers::Named;
use std::sync::Wait;
use std::sync::atomic::Ordering;
use std::thread::Threads;

/// The number of times that the held node's successor repeats its message, once per tick, and the
/// largest number of polls for that.
const REPEATS: u64 = 100;

const MOST_TURNS: u64 = 300;

/// The largest number of work items that the held node has from before its release. They are the
/// item that it was held before, a tick, an acknowledgement, a message of an unready successor, and
/// one more of these in transit.
const ONE_OF_EACH: u64 = 5;

impl<N: Named + Send + 'static> Ground<N> {
    /// Holds the head, or the tail after which a node joins then, while the store ticks.
    ///
    /// Once the node is released a put is answered: after all pending work of the node, one item of
    /// each kind.
    pub fn fill<R>(&self, rt: R, held: u64, callers: &mut Callers) -> Result<(), Fault>
    where
        R: Threads + Wait + Copy + Send + 'static,
    {
        if held == 3 {
            self.store.join(rt, chain(), NodeId::new(4))?;
        }
        self.tick_until(&rt, &self.course.repeated, REPEATS, MOST_TURNS);
        let repeated = self.course.repeated.load(Ordering::SeqCst);
        let ticks = self.course.ticks.load(Ordering::SeqCst);
        self.course.open.store(true, Ordering::SeqCst);
        self.start_caller(rt, 1, 1, callers)?;
        self.end_asking(&rt)?;
        expect(self.has_few_pieces(repeated, ticks), Fact::WaitsOnce)
    }

    /// Returns true if the held node has begun few enough work items: one of each kind, plus one
    /// for each message from others, for each later message from its successor, and for each later
    /// tick.
    fn has_few_pieces(&self, repeated: u64, ticks: u64) -> bool {
        let course = &self.course;
        let pieces = course.pieces.load(Ordering::SeqCst);
        let others = course.others.load(Ordering::SeqCst);
        let repeats = course.repeated.load(Ordering::SeqCst);
        let ticked = course.ticks.load(Ordering::SeqCst);
        let most = others
            .saturating_add(repeats.saturating_sub(repeated))
            .saturating_add(ticked.saturating_sub(ticks))
            .saturating_add(ONE_OF_EACH);
        pieces <= most
    }
}
