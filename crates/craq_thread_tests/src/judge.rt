//! Runs one test on a thread of its own, with a time limit; called by `main` for each case and each
//! trial.
use crate::case::Case;
use crate::cases::try_case;
use crate::fault::Fault;
use crate::form::Form;
use crate::trial::Trial;
use crate::trials::try_all;
use crate::waits::end_of;
use craq_names::Refusal;
use std::sync::atomic::{AtomicBool, Ordering};
use std::sync::{Arc, Wait};
use std::thread;
use std::thread::Threads;

/// The largest number of polls that a case takes.
const CASE_TURNS: u64 = 3000;

/// The largest number of polls that a trial takes: this many, and more for each of its number.
const TRIAL_TURNS: u64 = 6000;

const MORE_TURNS: u64 = 10;

/// A case or a trial.
#[derive(Clone, Copy)]
pub enum Test {
    Case(Case),
    Trial(Trial),
}

impl Test {
    /// Returns the largest number of polls, of 10 milliseconds, that the test takes.
    fn turns(self) -> u64 {
        match self {
            Test::Case(_) => CASE_TURNS,
            Test::Trial(trial) => {
                TRIAL_TURNS.saturating_add(trial.number().saturating_mul(MORE_TURNS))
            }
        }
    }
}

/// Runs the test on this thread.
fn try_test<R>(rt: R, host: HostRuntime, test: Test, form: Form) -> Result<(), Fault>
where
    R: Threads + Wait + Copy + Send + 'static,
{
    match test {
        Test::Case(case) => try_case(rt, host, case, form),
        Test::Trial(trial) => try_all(rt, host, trial, form),
    }
}

/// Runs the test on a thread of its own, and waits for its end at most as long as it may take.
/// `Late` if it does not end in time.
pub fn judge<R>(rt: R, host: HostRuntime, test: Test, form: Form) -> Result<(), Fault>
where
    R: Threads + Wait + Copy + Send + 'static,
{
    let over = Arc::new(host.alloc(), AtomicBool::new(false))?;
    let theirs = Arc::try_clone(&over)?;
    let spawned = thread::spawn(&rt, move || {
        let tried = try_test(rt, host, test, form);
        theirs.store(true, Ordering::SeqCst);
        tried
    });
    match spawned {
        Ok(thread) => end_of(&rt, host, thread, &over, test.turns()),
        Err(_) => Err(Fault::Refused(Refusal::Memory)),
    }
}
