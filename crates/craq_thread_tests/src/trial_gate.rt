//! Defines the fault-injection hook of a trial, which holds a node or the master, and loses,
//! repeats and delays messages; made by `trials`, called through `gate`.
use crate::course::Course;
use crate::form::Form;
use crate::trial::{Place, Trial};
use crate::waits::{LIMIT, wait_for};
use craq_names::NodeName;
use craq_workers::{Gate, Work};
use std::sync::Arc;
use std::sync::atomic::Ordering;
use std::thread;
use std::time::Duration;

/// The delay of each message from node 3 to node 4 in a slow join, in milliseconds.
const SLOW: u64 = 50;

/// One message of this many is lost while messages are lost, or while members change.
const THIRD: u64 = 3;

const HUNDREDTH: u64 = 100;

/// One message of this many that are not lost is sent twice, while some are lost.
const TENTH: u64 = 10;

/// Scrambles a message's number into a pseudorandom one.
fn spread(number: u64) -> u64 {
    number.wrapping_mul(0x9e37_79b9_7f4a_7c15) >> 40
}

/// The fault-injection hook of a trial.
#[derive(Drop)]
pub struct TrialGate {
    pub clock: HostRuntime,
    pub form: Form,
    pub trial: Trial,
    pub course: Arc<Course>,
}

impl TrialGate {
    /// Holds a node here until it is released, if the trial does so at this point.
    fn pass(&self, node: NodeName, work: Work, count: u64, place: Place) {
        let is_turn = self.form.is_chain_thread() && self.trial.holds_node();
        if u64::from(node.node.get()) != self.trial.held()
            || matches!(work, Work::Asks) != is_turn
            || !self.trial.holds(place, count)
        {
            return;
        }
        self.course.held.fetch_add(1, Ordering::SeqCst);
        if !wait_for(self.clock, &self.course.open, LIMIT) {
            self.course.late.store(true, Ordering::SeqCst);
        }
    }
}

impl Gate for TrialGate {
    fn before(&self, node: NodeName, work: Work, count: u64) {
        let number = u64::from(node.node.get());
        if matches!(work, Work::Deliveries) && self.trial.fills(number) {
            self.course.pieces.fetch_add(1, Ordering::SeqCst);
        }
        self.pass(node, work, count, Place::Before);
    }

    fn after(&self, node: NodeName, work: Work, count: u64) {
        self.pass(node, work, count, Place::After);
    }

    fn within(&self, node: NodeName, work: Work, count: u64) {
        self.pass(node, work, count, Place::Within);
    }

    fn carries(&self, from: NodeName, to: NodeName) -> bool {
        let number = self.course.sent.fetch_add(1, Ordering::SeqCst);
        let (sender, receiver) = (u64::from(from.node.get()), u64::from(to.node.get()));
        match self.trial {
            Trial::Losses(_) => {
                self.course.calm.load(Ordering::SeqCst) || spread(number) % THIRD != 0
            }
            Trial::Changes(_) => spread(number) % HUNDREDTH != 0,
            Trial::Filling(held) => {
                if receiver == held {
                    self.course.note_sent(sender, receiver);
                }
                true
            }
            Trial::SlowJoin(_) => {
                if sender == 3 && receiver == 4 {
                    thread::sleep(&self.clock, Duration::from_millis(SLOW));
                }
                true
            }
            _ => true,
        }
    }

    fn repeats(&self, _from: NodeName, _to: NodeName) -> bool {
        let number = self.course.sent.load(Ordering::SeqCst);
        match self.trial {
            Trial::Losses(_) => !self.course.calm.load(Ordering::SeqCst)
                && spread(number) % TENTH == 0,
            Trial::Changes(_) => spread(number) % TENTH == 0,
            _ => false,
        }
    }

    fn chain_threads(&self) -> bool {
        self.form.is_chain_thread()
    }
}
