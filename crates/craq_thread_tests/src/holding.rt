//! Drives the trials in which a node or the master is held; called by `driving`.
use crate::asks::chain;
use crate::behind::audit_behind;
use crate::caller::Caller;
use crate::driving::{CLIENTS, Callers, Ground};
use crate::fault::{Fact, Fault, expect};
use crate::waits::LIMIT;
use craq_names::NodeId;
use craq_workers::Named;
use std::sync::Wait;
use std::sync::atomic::Ordering;
use std::thread::Threads;

/// The number of calls that a client makes with one request number: a put, a read, and the put
/// again.
const CALLS: u64 = 3;

impl<N: Named + Send + 'static> Ground<N> {
    /// Starts a put, and waits until node 2 is held.
    fn put_and_hold<R>(&self, rt: R, callers: &mut Callers) -> Result<(), Fault>
    where
        R: Threads + Wait + Copy + Send + 'static,
    {
        self.start_caller(rt, 1, 1, callers)?;
        let held = self.tick_until(&rt, &self.course.held, 1, LIMIT);
        expect(held, Fact::IsHeld)
    }

    /// Starts a put while node 2 is held, stops and removes the node, and then sends the put again
    /// by another client of the same id. All calls of both must be answered.
    pub fn stop<R>(&self, rt: R, callers: &mut Callers) -> Result<(), Fault>
    where
        R: Threads + Wait + Copy + Send + 'static,
    {
        self.put_and_hold(rt, callers)?;
        self.store.stop(&rt, chain(), NodeId::new(2))?;
        self.store.remove(&rt, chain(), NodeId::new(2))?;
        self.course.open.store(true, Ordering::SeqCst);
        self.start_caller(rt, 1, 1, callers)?;
        self.end_asking(&rt)?;
        let late = self.course.late.load(Ordering::SeqCst);
        let answered = self.course.answered.load(Ordering::SeqCst);
        expect(!late, Fact::IsFree)?;
        expect(answered == 2 * CALLS, Fact::IsAnswered)
    }

    /// Starts a put while node 2 is held, and expects that the locks are free meanwhile. If it is
    /// held within its work, only its own lock is taken, and an audit must wait for it.
    pub fn hold<R>(&self, rt: R, callers: &mut Callers, within: bool) -> Result<(), Fault>
    where
        R: Threads + Wait + Copy + Send + 'static,
    {
        self.put_and_hold(rt, callers)?;
        let audited = if within {
            self.look(rt)
        } else {
            self.audit(&rt)
        };
        self.let_go()?;
        audited
    }

    /// Releases the held node, and expects that it was not held for as long as a wait may take.
    fn let_go(&self) -> Result<(), Fault> {
        let late = self.course.late.load(Ordering::SeqCst);
        self.course.open.store(true, Ordering::SeqCst);
        expect(!late, Fact::IsFree)
    }

    /// Holds the master within a tick, and expects that all nodes answer meanwhile and that an
    /// audit waits.
    pub fn hold_master<R>(&self, rt: R) -> Result<(), Fault>
    where
        R: Threads + Wait + Copy + Send + 'static,
    {
        let held = self.tick_until(&rt, &self.course.held, 1, LIMIT);
        expect(held, Fact::IsHeld)?;
        let audited = self.glance_and_audit(rt, &[1, 2, 3]);
        self.let_go()?;
        audited
    }

    /// Reads the master's membership, and expects that nodes 1 and 3 answer and that an audit waits
    /// until node 2 is released.
    fn look<R>(&self, rt: R) -> Result<(), Fault>
    where
        R: Threads + Wait + Copy + Send + 'static,
    {
        let reported = self.store.status(&rt)?;
        drop(reported);
        self.glance_and_audit(rt, &[1, 3])
    }

    /// Expects that each of these nodes answers, and that an audit waits until the held node is
    /// released.
    fn glance_and_audit<R>(&self, rt: R, nodes: &[u32]) -> Result<(), Fault>
    where
        R: Threads + Wait + Copy + Send + 'static,
    {
        self.glance(&rt, nodes)?;
        audit_behind(rt, self.host, &self.store, &self.course.open)
    }

    /// Expects that each of these nodes answers.
    fn glance<R: Wait>(&self, rt: &R, nodes: &[u32]) -> Result<(), Fault> {
        let mut caller = Caller::new(rt, self.host.alloc(), &self.store, CLIENTS.wrapping_add(1))?;
        let mut glanced = Ok(());
        for node in nodes {
            if glanced.is_ok() {
                glanced = caller.glance(rt, &self.course, *node);
            }
        }
        drop(caller);
        Ok(glanced?)
    }
}
