//! Tests memberships and the number of threads; called by `cases`.
use crate::asks::chain;
use crate::fault::{Fact, Fault, expect, expect_refusal};
use crate::form::Form;
use crate::gate::Tested;
use crate::waits::comes_to;
use craq_names::{NodeId, Refusal};
use craq_workers::{ChainStatus, Named};
use std::sync::Wait;
use std::thread::Threads;

/// Returns the system's report of this process with a store of three nodes: the main thread and
/// that of a case, two threads for each node or two for the chain, and one for the master.
fn with_store(form: Form) -> &'static str {
    match form {
        Form::Workers => "\nThreads:\t9\n",
        Form::ChainThread => "\nThreads:\t5\n",
    }
}

/// Returns the system's report of this process once a node was removed.
fn with_two_nodes(form: Form) -> &'static str {
    match form {
        Form::Workers => "\nThreads:\t7\n",
        Form::ChainThread => "\nThreads:\t5\n",
    }
}

/// Expects that this process comes to have the reported number of threads.
pub fn expect_threads(host: HostRuntime, threads: &str) -> Result<(), Fault> {
    expect(comes_to(host, threads), Fact::HasItsThreads)
}

/// Returns true if the only chain has this epoch and three members.
fn has_members(statuses: &[ChainStatus], epoch: u64) -> bool {
    match statuses {
        [status] => status.config.epoch.get() == epoch && status.config.members.len() == 3,
        _ => false,
    }
}

/// Expects that the chain has this epoch and three members.
fn expect_members<R: Wait, N: Named>(rt: &R, store: &Tested<N>, epoch: u64) -> Result<(), Fault> {
    let statuses = store.status(rt)?;
    expect(has_members(statuses.as_slice(), epoch), Fact::HasItsMembers)
}

/// Expects that a running member is not removed, and that a used id does not join.
fn refuse<R, N>(rt: R, store: &Tested<N>) -> Result<(), Fault>
where
    N: Named + Send + 'static,
    R: Threads + Wait + Copy + Send + 'static,
{
    let removed = store.remove(&rt, chain(), NodeId::new(1));
    expect_refusal(removed.err(), Refusal::NotStopped, Fact::IsRefused)?;
    let joined = store.join(rt, chain(), NodeId::new(1));
    expect_refusal(joined.err(), Refusal::UsedId, Fact::IsRefused)
}

/// Removes the head, and adds another node.
fn change<R, N>(rt: R, host: HostRuntime, store: &Tested<N>, form: Form) -> Result<(), Fault>
where
    N: Named + Send + 'static,
    R: Threads + Wait + Copy + Send + 'static,
{
    store.stop(&rt, chain(), NodeId::new(1))?;
    store.remove(&rt, chain(), NodeId::new(1))?;
    expect_threads(host, with_two_nodes(form))?;
    store.join(rt, chain(), NodeId::new(4))?;
    expect_threads(host, with_store(form))
}

/// Expects that refused moves leave members and threads unchanged, that the threads of a removed
/// node end, and that those of a joining node start.
pub fn members<R, N>(rt: R, host: HostRuntime, store: &Tested<N>, form: Form) -> Result<(), Fault>
where
    N: Named + Send + 'static,
    R: Threads + Wait + Copy + Send + 'static,
{
    refuse(rt, store)?;
    expect_threads(host, with_store(form))?;
    expect_members(&rt, store, 1)?;
    change(rt, host, store, form)?;
    expect_members(&rt, store, 3)
}
