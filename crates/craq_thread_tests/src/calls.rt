//! Tests calls: two that overlap, a read whose caller or whose node's worker runs the step, a
//! client's own write; called by `cases` and `changes`.
use crate::asker::Asker;
use crate::asks::chain;
use crate::behind::audit_behind;
use crate::case_gate::Signs;
use crate::fault::{Fact, Fault, expect, expect_refusal};
use crate::form::Form;
use crate::gate::Tested;
use crate::waits::{LIMIT, wait_for};
use craq_audit::Audit;
use craq_names::{NodeId, Refusal};
use craq_seat::CallReceipt;
use craq_workers::Named;
use std::sync::Wait;
use std::sync::atomic::{AtomicBool, Ordering};
use std::thread;
use std::thread::{JoinHandle, Threads};

/// Audits the store and expects a run with these receipts.
pub fn confirm<R: Wait, N: Named + Send + 'static>(
    rt: &R,
    store: &Tested<N>,
    receipts: &[CallReceipt],
) -> Result<(), Fault> {
    let audit = store.audit(rt, chain(), receipts)?;
    let is_merged = matches!(&audit, Audit::Merged(_));
    drop(audit);
    expect(is_merged, Fact::IsMerged)
}

/// Sends a put to node 1.
fn put_once<R: Wait, N: Named>(rt: &R, mut asker: Asker<N>) -> Result<Asker<N>, Refusal> {
    match asker.put(rt, 1) {
        Ok(()) => Ok(asker),
        Err(refusal) => {
            drop(asker);
            Err(refusal)
        }
    }
}

/// Sends a put to node 1 from a thread of its own.
fn start_put<R, N>(rt: R, asker: Asker<N>) -> Result<JoinHandle<Result<Asker<N>, Refusal>>, Refusal>
where
    N: Named + Send + 'static,
    R: Threads + Wait + Copy + Send + 'static,
{
    match thread::spawn(&rt, move || put_once(&rt, asker)) {
        Ok(caller) => Ok(caller),
        Err(_) => Err(Refusal::Memory),
    }
}

/// Holds a put at node 1 under the node's lock alone: the other nodes answer reads, the master
/// reports its membership, and an audit waits. Then the put is answered, and a read at node 2 with
/// its pass finds it.
pub fn overlap<R, N>(
    rt: R,
    host: HostRuntime,
    store: &Tested<N>,
    signs: &Signs,
) -> Result<(), Fault>
where
    N: Named + Send + 'static,
    R: Threads + Wait + Copy + Send + 'static,
{
    let caller = start_put(rt, Asker::new(&rt, host.alloc(), store, 1)?)?;
    let reached = wait_for(host, &signs.reached, LIMIT);
    let read = read_meanwhile(&rt, host, store);
    let looked = look_behind(rt, host, store, &signs.open);
    let late = signs.late.load(Ordering::SeqCst);
    signs.open.store(true, Ordering::SeqCst);
    find_both(&rt, store, reached && !late, caller.join(&rt), read)?;
    looked
}

/// Reads the master's membership, then expects that an audit waits until `open` releases a held
/// put.
fn look_behind<R, N>(
    rt: R,
    host: HostRuntime,
    store: &Tested<N>,
    open: &AtomicBool,
) -> Result<(), Fault>
where
    N: Named + Send + 'static,
    R: Threads + Wait + Copy + Send + 'static,
{
    let reported = store.status(&rt)?;
    drop(reported);
    audit_behind(rt, host, store, open)
}

/// Returns the version in the reply to a put.
fn version_of_put<R: Threads, N: Named>(
    rt: &R,
    caller: JoinHandle<Result<Asker<N>, Refusal>>,
) -> Result<u64, Refusal> {
    let asker = caller.join(rt)?;
    Ok(asker.version)
}

/// Audits the chain, which locks its master and all its nodes, while a put at node 1 is held before
/// or after its step. Then the put is answered.
pub fn free<R, N>(rt: R, host: HostRuntime, store: &Tested<N>, signs: &Signs) -> Result<(), Fault>
where
    N: Named + Send + 'static,
    R: Threads + Wait + Copy + Send + 'static,
{
    let caller = start_put(rt, Asker::new(&rt, host.alloc(), store, 1)?)?;
    let reached = wait_for(host, &signs.reached, LIMIT);
    let audited = confirm(&rt, store, &[]);
    let late = signs.late.load(Ordering::SeqCst);
    signs.open.store(true, Ordering::SeqCst);
    let version = version_of_put(&rt, caller)?;
    audited?;
    expect(reached && !late, Fact::IsFree)?;
    expect(version == 1, Fact::Writes)
}

/// Reads at nodes 2 and 3 by another client.
fn read_both<R: Wait, N: Named>(rt: &R, asker: &mut Asker<N>) -> Result<(), Refusal> {
    asker.read(rt, 2)?;
    asker.read(rt, 3)
}

/// Reads at nodes 2 and 3 by a new client.
fn read_meanwhile<R: Wait, N: Named + Send + 'static>(
    rt: &R,
    host: HostRuntime,
    store: &Tested<N>,
) -> Result<Asker<N>, Refusal> {
    let mut asker = Asker::new(rt, host.alloc(), store, 2)?;
    match read_both(rt, &mut asker) {
        Ok(()) => Ok(asker),
        Err(refusal) => {
            drop(asker);
            Err(refusal)
        }
    }
}

/// Expects that the put wrote version 1, and that a read at node 2 with its pass finds it. The
/// reads while the put was held must have found nothing, and an audit with the calls of both
/// clients must find a run.
fn find_put<R: Wait, N: Named + Send + 'static>(
    rt: &R,
    store: &Tested<N>,
    held: bool,
    first: &mut Asker<N>,
    second: &mut Asker<N>,
) -> Result<(), Fault> {
    expect(held, Fact::AnswersMeanwhile)?;
    expect(second.version == 0, Fact::FindsNothing)?;
    expect(first.version == 1, Fact::Writes)?;
    first.read(rt, 2)?;
    expect(first.version == 1, Fact::Finds)?;
    first.take_receipts(second)?;
    confirm(rt, store, first.receipts.as_slice())
}

/// Expects that a put at node 1 and the reads meanwhile were answered, as `find_put` checks.
fn find_both<R: Wait, N: Named + Send + 'static>(
    rt: &R,
    store: &Tested<N>,
    held: bool,
    put: Result<Asker<N>, Refusal>,
    read: Result<Asker<N>, Refusal>,
) -> Result<(), Fault> {
    match put {
        Ok(mut first) => match read {
            Ok(mut second) => find_put(rt, store, held, &mut first, &mut second),
            Err(refusal) => {
                drop(first);
                Err(Fault::Refused(refusal))
            }
        },
        Err(refusal) => {
            drop(read);
            Err(Fault::Refused(refusal))
        }
    }
}

/// Expects that a caller has its reply while the request worker is held after its step. With a
/// chain thread a caller runs the step of its read, and has its reply once it is released itself.
pub fn taking<R: Wait, N: Named + Send + 'static>(
    rt: &R,
    host: HostRuntime,
    store: &Tested<N>,
    signs: &Signs,
    form: Form,
) -> Result<(), Fault> {
    let mut asker = Asker::new(rt, host.alloc(), store, 1)?;
    let read = asker.read(rt, 3);
    let passed = signs.passed.load(Ordering::SeqCst);
    signs.open.store(true, Ordering::SeqCst);
    drop(asker);
    read?;
    expect(passed == form.is_chain_thread(), Fact::TakesItsStep)
}

/// Puts with a client, and expects to find the value at another node.
pub fn read_back<R: Wait, N: Named + Send + 'static>(
    rt: &R,
    host: HostRuntime,
    store: &Tested<N>,
) -> Result<(), Fault> {
    let mut asker = Asker::new(rt, host.alloc(), store, 1)?;
    put_and_read(rt, &mut asker)
}

/// Puts at node 1 and then reads strongly at node 3, by this client.
fn put_and_read<R: Wait, N: Named>(rt: &R, asker: &mut Asker<N>) -> Result<(), Fault> {
    asker.put(rt, 1)?;
    expect(asker.version == 1, Fact::Writes)?;
    asker.read(rt, 3)?;
    expect(asker.version == 1, Fact::Finds)
}

/// Expects that a put which cannot commit, since links deliver nothing, waits until its node stops.
pub fn stop<R, N>(rt: R, host: HostRuntime, store: &Tested<N>, signs: &Signs) -> Result<(), Fault>
where
    N: Named + Send + 'static,
    R: Threads + Wait + Copy + Send + 'static,
{
    let caller = start_put(rt, Asker::new(&rt, host.alloc(), store, 1)?)?;
    let reached = wait_for(host, &signs.reached, LIMIT);
    store.stop(&rt, chain(), NodeId::new(1))?;
    let refusal = caller.join(&rt).err();
    expect(reached, Fact::IsStopped)?;
    expect_refusal(refusal, Refusal::Stopped, Fact::IsStopped)
}
