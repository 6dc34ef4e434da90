//! Runs an audit while a work item is held under its node's lock: the audit must wait. Called by
//! `calls` and `driving`.
use crate::calls::confirm;
use crate::fault::{Fact, Fault, expect};
use crate::gate::Tested;
use crate::waits::{LIMIT, wait_for};
use craq_names::Refusal;
use craq_workers::Named;
use std::sync::Wait;
use std::sync::atomic::{AtomicBool, Ordering};
use std::thread;
use std::thread::Threads;

/// The number of polls that an audit must wait; it ends within one if no lock is held.
const A_WHILE: u64 = 10;

/// Audits the chain, and sets a flag when the audit begins and another when it has ended.
fn audit_between<R: Wait, N: Named + Send + 'static>(
    rt: &R,
    store: &Tested<N>,
    begun: &AtomicBool,
    ended: &AtomicBool,
) -> Result<(), Fault> {
    begun.store(true, Ordering::SeqCst);
    let audited = confirm(rt, store, &[]);
    ended.store(true, Ordering::SeqCst);
    audited
}

/// Audits the chain, which locks its master and all its nodes, while a work item is held under its
/// node's lock.
///
/// The audit must not end before `open` releases the work item, and must then find a run.
pub fn audit_behind<R, N>(
    rt: R,
    host: HostRuntime,
    store: &Tested<N>,
    open: &AtomicBool,
) -> Result<(), Fault>
where
    N: Named + Send + 'static,
    R: Threads + Wait + Copy + Send + 'static,
{
    let begun = AtomicBool::new(false);
    let ended = AtomicBool::new(false);
    let (begins, ends) = (&begun, &ended);
    thread::scope(thread::scope_env(), &rt, |scope| {
        let Ok(auditing) = scope.spawn(move || audit_between(&rt, store, begins, ends)) else {
            return Err(Fault::Refused(Refusal::Memory));
        };
        let early = wait_for(host, begins, LIMIT) && wait_for(host, ends, A_WHILE);
        open.store(true, Ordering::SeqCst);
        auditing.join(&rt)?;
        expect(!early, Fact::IsLocked)
    })
}
