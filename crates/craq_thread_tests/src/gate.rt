//! Defines the fault-injection hook of a store under test: that of a case, that of a trial, or an
//! open one; and starts a store with one. Called by `cases`, `trials` and `server`.
ghost use Rattle.std.specs.Prelude.{◌≡◌};

use crate::asks::plan;
use crate::case_gate::CaseGate;
use crate::trial_gate::TrialGate;
use craq_compact_history::ListCore;
use craq_names::{NodeName, Refusal};
use craq_workers::{At, Gate, Named, OpenGate, OpenedHistory, Store, Work};
use std::alloc::Global;
use std::sync::Wait;
use std::thread::Threads;

/// A fault-injection hook.
#[derive(Drop)]
pub enum TestGate {
    Case(CaseGate),
    Trial(TrialGate),
    Open(OpenGate),
}

/// The stores under test: their nodes keep compacting histories, as those of a server do. `N` names
/// the history of the store.
pub type Tested<N> = Store<At<ListCore, N>, TestGate>;

/// Starts a store of the tests' chain configuration with this history and hook, with or without
/// journals.
pub fn start_store<R, N>(
    rt: R,
    alloc: Global,
    opened: OpenedHistory,
    gate: TestGate,
    journals: bool,
) -> Result<Tested<N>, Refusal>
where
    N: Named + Send + 'static,
    R: Threads + Wait + Copy + Send + 'static,
    requires { opened ≡ N.history }
{
    let plan = plan(alloc)?;
    let started = Store::start(rt, alloc, opened, &plan, gate, journals);
    drop(plan);
    started
}

impl Gate for TestGate {
    fn before(&self, node: NodeName, work: Work, count: u64) {
        match self {
            TestGate::Case(gate) => gate.before(node, work, count),
            TestGate::Trial(gate) => gate.before(node, work, count),
            TestGate::Open(gate) => gate.before(node, work, count),
        }
    }

    fn after(&self, node: NodeName, work: Work, count: u64) {
        match self {
            TestGate::Case(gate) => gate.after(node, work, count),
            TestGate::Trial(gate) => gate.after(node, work, count),
            TestGate::Open(gate) => gate.after(node, work, count),
        }
    }

    fn within(&self, node: NodeName, work: Work, count: u64) {
        match self {
            TestGate::Case(gate) => gate.within(node, work, count),
            TestGate::Trial(gate) => gate.within(node, work, count),
            TestGate::Open(gate) => gate.within(node, work, count),
        }
    }

    fn carries(&self, from: NodeName, to: NodeName) -> bool {
        match self {
            TestGate::Case(gate) => gate.carries(from, to),
            TestGate::Trial(gate) => gate.carries(from, to),
            TestGate::Open(gate) => gate.carries(from, to),
        }
    }

    fn repeats(&self, from: NodeName, to: NodeName) -> bool {
        match self {
            TestGate::Trial(gate) => gate.repeats(from, to),
            TestGate::Case(_) | TestGate::Open(_) => false,
        }
    }

    fn chain_threads(&self) -> bool {
        match self {
            TestGate::Case(gate) => gate.chain_threads(),
            TestGate::Trial(gate) => gate.chain_threads(),
            TestGate::Open(gate) => gate.chain_threads(),
        }
    }
}
