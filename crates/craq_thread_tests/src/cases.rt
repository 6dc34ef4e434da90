//! Runs each case on a store of its own, which is closed at the end; called by `judge`.
ghost use Rattle.std.specs.Prelude.{◌≡◌};

use crate::asker::Asker;
use crate::calls::{free, overlap, read_back, stop, taking};
use crate::case::Case;
use crate::case_gate::{CaseGate, Signs};
use crate::changes::changes;
use crate::fault::{Fact, Fault, expect_refusal};
use crate::form::Form;
use crate::gate::{TestGate, Tested, start_store};
use crate::members::{expect_threads, members};
use crate::waits::ALONE;
use craq_names::Refusal;
use craq_workers::{Named, OpenedHistory, open_history};
use std::marker::Brand;
use std::sync::{Arc, Wait};
use std::thread::Threads;

/// Runs a case on its store.
fn try_on<R, N>(
    rt: R,
    host: HostRuntime,
    case: Case,
    form: Form,
    store: &Tested<N>,
    signs: &Signs,
) -> Result<(), Fault>
where
    N: Named + Send + 'static,
    R: Threads + Wait + Copy + Send + 'static,
{
    match case {
        Case::Overlap => overlap(rt, host, store, signs),
        Case::Before | Case::After => free(rt, host, store, signs),
        Case::Taking => taking(&rt, host, store, signs, form),
        Case::ReadBack => read_back(&rt, host, store),
        Case::Stop => stop(rt, host, store, signs),
        Case::Members => members(rt, host, store, form),
        Case::Changes => changes(rt, host, store, signs),
    }
}

/// Makes the fault-injection hook of a case.
fn gate_of(
    host: HostRuntime,
    case: Case,
    form: Form,
    signs: &Arc<Signs>,
) -> Result<TestGate, Fault> {
    let signs = Arc::try_clone(signs)?;
    Ok(TestGate::Case(CaseGate {
        clock: host,
        case,
        form,
        signs,
    }))
}

/// Expects that a call of a closed store returns `Closed`, and that no thread of the store is left.
fn is_closed<R: Wait, N: Named>(
    rt: &R,
    host: HostRuntime,
    asker: Result<Asker<N>, Refusal>,
) -> Result<(), Fault> {
    let refusal = asker?.read(rt, 2).err();
    expect_refusal(refusal, Refusal::Closed, Fact::IsClosed)?;
    expect_threads(host, ALONE)
}

/// Starts a store with this history for a case, runs the case on it, and closes it.
fn try_named<N, R>(
    rt: R,
    host: HostRuntime,
    case: Case,
    form: Form,
    opened: OpenedHistory,
) -> Result<(), Fault>
where
    N: Named + Send + 'static,
    R: Threads + Wait + Copy + Send + 'static,
    requires { opened ≡ N.history }
{
    let signs = Arc::new(host.alloc(), Signs::new())?;
    let gate = gate_of(host, case, form, &signs)?;
    let store: Tested<N> = start_store(rt, host.alloc(), opened, gate, case.has_journals())?;
    let tried = try_on(rt, host, case, form, &store, &signs);
    let asker = Asker::new(&rt, host.alloc(), &store, 9);
    store.close(&rt);
    match tried {
        Ok(()) => is_closed(&rt, host, asker),
        Err(fault) => {
            drop(asker);
            Err(fault)
        }
    }
}

/// Runs a case on a store of its own.
pub fn try_case<R>(rt: R, host: HostRuntime, case: Case, form: Form) -> Result<(), Fault>
where
    R: Threads + Wait + Copy + Send + 'static,
{
    let opened = open_history(host.alloc())?;
    try_named::<Brand, R>(rt, host, case, form, opened)
}
