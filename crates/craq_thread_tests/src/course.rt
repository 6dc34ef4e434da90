//! Defines the values that the clients, the fault-injection hook and the driver of a trial share;
//! for `caller`, `driving`, `trials` and `trial_gate`.
use craq_seat::CallReceipt;
use std::alloc::Global;
use std::sync::atomic::{AtomicBool, AtomicU32, AtomicU64, Ordering};
use std::sync::{Mutex, Wait};

/// The course of a trial.
#[derive(Drop)]
pub struct Course {
    /// The node that puts go to.
    pub head: AtomicU32,
    /// The node that reads go to.
    pub tail: AtomicU32,
    /// The largest id of a node that answered a strong read.
    pub ready: AtomicU64,
    /// The number of ticks of the store.
    pub ticks: AtomicU64,
    /// The largest number of ticks while a call waited.
    pub longest: AtomicU64,
    /// The number of answered calls.
    pub answered: AtomicU64,
    /// The number of calls refused other than as `Closed`.
    pub refused: AtomicU64,
    /// The number of calls with a wrong version, or without room for their receipt.
    pub wrong: AtomicU64,
    /// The number of clients that have begun.
    pub begun: AtomicU64,
    /// The number of clients that have ended.
    pub ended: AtomicU64,
    /// The number of times that the hook held the node that it holds.
    pub held: AtomicU64,
    /// The number of work items that this node has begun.
    pub pieces: AtomicU64,
    /// The number of messages that its successor sent it.
    pub repeated: AtomicU64,
    /// The number of messages that other nodes sent it.
    pub others: AtomicU64,
    /// The number of messages handed to a link.
    pub sent: AtomicU64,
    /// The held node may go on.
    pub open: AtomicBool,
    /// The node was held for as long as a wait may take.
    pub late: AtomicBool,
    /// No more messages are lost.
    pub calm: AtomicBool,
    /// The clients must end.
    pub over: AtomicBool,
    /// The receipts of all answered calls.
    pub receipts: Mutex<Vec<CallReceipt>>,
}

impl Course {
    /// Creates the course of a chain of the nodes 1 to 3, before any call.
    pub fn new(alloc: Global) -> Course {
        Course {
            head: AtomicU32::new(1),
            tail: AtomicU32::new(3),
            ready: AtomicU64::new(0),
            ticks: AtomicU64::new(0),
            longest: AtomicU64::new(0),
            answered: AtomicU64::new(0),
            refused: AtomicU64::new(0),
            wrong: AtomicU64::new(0),
            begun: AtomicU64::new(0),
            ended: AtomicU64::new(0),
            held: AtomicU64::new(0),
            pieces: AtomicU64::new(0),
            repeated: AtomicU64::new(0),
            others: AtomicU64::new(0),
            sent: AtomicU64::new(0),
            open: AtomicBool::new(false),
            late: AtomicBool::new(false),
            calm: AtomicBool::new(false),
            over: AtomicBool::new(false),
            receipts: Mutex::new(Vec::new(alloc)),
        }
    }

    /// Notes the reply to a call that was made at tick `asked`, and whether it has the right
    /// version.
    pub fn note<R: Wait>(&self, rt: &R, receipt: CallReceipt, asked: u64, is_right: bool) {
        let waited = self.ticks.load(Ordering::SeqCst).saturating_sub(asked);
        self.longest.fetch_max(waited, Ordering::SeqCst);
        let mut receipts = self.receipts.lock(rt);
        let is_kept = receipts.push(receipt).is_ok();
        drop(receipts);
        if !is_right || !is_kept {
            self.wrong.fetch_add(1, Ordering::SeqCst);
        }
        self.answered.fetch_add(1, Ordering::SeqCst);
    }

    /// Notes a message to the held node: a repeated one if its successor sent it, else another one.
    pub fn note_sent(&self, from: u64, to: u64) {
        if from == to.wrapping_add(1) {
            self.repeated.fetch_add(1, Ordering::SeqCst);
        } else {
            self.others.fetch_add(1, Ordering::SeqCst);
        }
    }

    /// Prints the outcome of all calls on standard error.
    pub fn tell(&self, host: HostRuntime) {
        let answered = self.answered.load(Ordering::SeqCst);
        let refused = self.refused.load(Ordering::SeqCst);
        let ticks = self.longest.load(Ordering::SeqCst);
        let _ = eprintln!(host; "{answered} answered, {refused} refused, {ticks} ticks at most");
    }
}
