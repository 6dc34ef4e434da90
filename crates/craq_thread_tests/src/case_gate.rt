//! Defines the fault-injection hook of a case, which holds workers and cuts links, and the flags
//! that it and the case share; made by `cases`, called through `gate`.
use crate::case::Case;
use crate::form::Form;
use crate::waits::{LIMIT, wait_for};
use craq_names::NodeName;
use craq_workers::{Gate, Work};
use std::sync::Arc;
use std::sync::atomic::{AtomicBool, AtomicU64, Ordering};

/// The number of polls for which a caller that runs its own step is held after it.
const FEW_TURNS: u64 = 5;

/// One message of this many is lost while members change.
const ONE_LOST: u64 = 500;

/// The flags and counts that a hook and its test share.
#[derive(Drop)]
pub struct Signs {
    /// The awaited request is at the hook.
    pub reached: AtomicBool,
    /// The test releases the request.
    pub open: AtomicBool,
    /// The request went on.
    pub passed: AtomicBool,
    /// The request was held for as long as a wait may take.
    pub late: AtomicBool,
    /// The number of node 1's request work items that have begun.
    begun: AtomicU64,
    /// The sum of their counts.
    counts: AtomicU64,
    /// The number of messages handed to a link.
    sent: AtomicU64,
}

impl Signs {
    pub fn new() -> Signs {
        Signs {
            reached: AtomicBool::new(false),
            open: AtomicBool::new(false),
            passed: AtomicBool::new(false),
            late: AtomicBool::new(false),
            begun: AtomicU64::new(0),
            counts: AtomicU64::new(0),
            sent: AtomicU64::new(0),
        }
    }

    /// Counts a request work item of node 1 that begins.
    fn begin(&self, count: u64) {
        self.begun.fetch_add(1, Ordering::SeqCst);
        self.counts.fetch_add(count, Ordering::SeqCst);
    }

    /// Returns true if node 1 counted its request work items from 0 without gaps: the sum of the
    /// first n counts is n (n - 1) / 2.
    pub fn are_counted(&self) -> bool {
        let begun = self.begun.load(Ordering::SeqCst);
        let twice = self.counts.load(Ordering::SeqCst).wrapping_mul(2);
        begun > 0 && twice == begun.wrapping_mul(begun.wrapping_sub(1))
    }
}

/// The fault-injection hook of a case.
#[derive(Drop)]
pub struct CaseGate {
    pub clock: HostRuntime,
    pub case: Case,
    pub form: Form,
    pub signs: Arc<Signs>,
}

impl CaseGate {
    /// Holds the calling thread until the test releases it, for at most `turns` polls.
    fn hold(&self, turns: u64) {
        self.signs.reached.store(true, Ordering::SeqCst);
        if !wait_for(self.clock, &self.signs.open, turns) {
            self.signs.late.store(true, Ordering::SeqCst);
        }
        self.signs.passed.store(true, Ordering::SeqCst);
    }

    /// Returns the number of polls for which a read is held after its step. With a chain thread its
    /// caller is held, and would release it only afterwards.
    fn turns_of_read(&self) -> u64 {
        match self.form {
            Form::Workers => LIMIT,
            Form::ChainThread => FEW_TURNS,
        }
    }
}

impl Gate for CaseGate {
    fn before(&self, node: NodeName, work: Work, count: u64) {
        if node.node.get() != 1 || matches!(work, Work::Deliveries) {
            return;
        }
        self.signs.begin(count);
        if matches!(self.case, Case::Before) && count == 0 {
            self.hold(LIMIT);
        }
    }

    fn after(&self, node: NodeName, work: Work, count: u64) {
        if matches!(work, Work::Deliveries) {
            return;
        }
        match self.case {
            Case::After if node.node.get() == 1 && count == 0 => self.hold(LIMIT),
            Case::Taking => self.hold(self.turns_of_read()),
            Case::Stop => self.signs.reached.store(true, Ordering::SeqCst),
            _ => (),
        }
    }

    fn within(&self, node: NodeName, work: Work, count: u64) {
        if matches!(self.case, Case::Overlap)
            && matches!(work, Work::Asks)
            && node.node.get() == 1
            && count == 0
        {
            self.hold(LIMIT);
        }
    }

    fn carries(&self, _from: NodeName, _to: NodeName) -> bool {
        match self.case {
            Case::Stop => false,
            Case::Changes => self.signs.sent.fetch_add(1, Ordering::SeqCst) % ONE_LOST != 0,
            _ => true,
        }
    }

    fn chain_threads(&self) -> bool {
        self.form.is_chain_thread()
    }
}
