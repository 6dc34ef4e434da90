//! Runs each trial on stores of its own, which are closed at the end; called by `judge`.
ghost use Rattle.std.specs.Prelude.{◌≡◌};

use crate::course::Course;
use crate::driving::{Callers, Ground};
use crate::fault::{Fact, Fault, expect};
use crate::form::Form;
use crate::gate::{TestGate, Tested, start_store};
use crate::trial::Trial;
use crate::trial_gate::TrialGate;
use crate::waits::{ALONE, comes_to};
use craq_workers::{Named, OpenedHistory, open_history};
use std::marker::Brand;
use std::sync::atomic::Ordering;
use std::sync::{Arc, Wait};
use std::thread::Threads;

/// One repetition of a trial.
#[derive(Clone, Copy)]
struct Repetition {
    trial: Trial,
    form: Form,
    /// Its number, from 0.
    time: u64,
}

impl Repetition {
    /// Makes the fault-injection hook of the trial.
    fn gate(self, host: HostRuntime, course: &Arc<Course>) -> Result<TestGate, Fault> {
        let Repetition { trial, form, .. } = self;
        let course = Arc::try_clone(course)?;
        Ok(TestGate::Trial(TrialGate {
            clock: host,
            form,
            trial,
            course,
        }))
    }
}

/// Starts a store with this history for a trial, with its course.
fn start<N, R>(
    rt: R,
    host: HostRuntime,
    repetition: Repetition,
    opened: OpenedHistory,
) -> Result<Ground<N>, Fault>
where
    N: Named + Send + 'static,
    R: Threads + Wait + Copy + Send + 'static,
    requires { opened ≡ N.history }
{
    let course = Arc::new(host.alloc(), Course::new(host.alloc()))?;
    let gate = repetition.gate(host, &course)?;
    let store: Tested<N> = start_store(rt, host.alloc(), opened, gate, true)?;
    Ok(Ground {
        host,
        store,
        course,
    })
}

/// Runs a trial once, on a store with this history that is closed at the end.
fn try_named<N, R>(
    rt: R,
    host: HostRuntime,
    repetition: Repetition,
    opened: OpenedHistory,
) -> Result<(), Fault>
where
    N: Named + Send + 'static,
    R: Threads + Wait + Copy + Send + 'static,
    requires { opened ≡ N.history }
{
    let ground = start::<N, R>(rt, host, repetition, opened)?;
    let mut callers: Callers = Vec::new(host.alloc());
    let tried = ground.drive(rt, repetition.trial, repetition.time, &mut callers);
    ground.course.open.store(true, Ordering::SeqCst);
    let Ground {
        host: _,
        store,
        course,
    } = ground;
    store.close(&rt);
    for caller in callers {
        caller.join(&rt);
    }
    let wrong = course.wrong.load(Ordering::SeqCst);
    course.tell(host);
    drop(course);
    tried?;
    expect(wrong == 0, Fact::HasItsVersion)?;
    expect(comes_to(host, ALONE), Fact::LeavesNone)
}

/// Runs a trial once, on a store of its own.
fn try_once<R>(rt: R, host: HostRuntime, repetition: Repetition) -> Result<(), Fault>
where
    R: Threads + Wait + Copy + Send + 'static,
{
    let opened = open_history(host.alloc())?;
    try_named::<Brand, R>(rt, host, repetition, opened)
}

/// Runs a trial as often as it says.
pub fn try_all<R>(rt: R, host: HostRuntime, trial: Trial, form: Form) -> Result<(), Fault>
where
    R: Threads + Wait + Copy + Send + 'static,
{
    for time in 0..trial.times() {
        let repetition = Repetition { trial, form, time };
        try_once(rt, host, repetition)?;
    }
    Ok(())
}
