//! Tests running stores, on threads. Each case and each trial is printed with whether it holds. A
//! test that does not end in its time ends the program. In the trials nodes stop, messages are lost
//! and stores are closed.
//!
//! Up to three numbers on the command line make the trials larger: the number of polls, of 10
//! milliseconds, while messages are lost; the number of times that a store is closed; the number of
//! calls answered while members change.
//!
//! At the end three connections reach a store over the loopback, all in one process, in each way of
//! serving. Their replies are printed, and the result of the store's audit.
//!
//! `./test` and `tools/quick/run` compare the output with the file `stdout`; `./hostile` runs it
//! too.
#![tactic(auto)]

mod asker;
mod asks;
mod behind;
mod caller;
mod calls;
mod case;
mod case_gate;
mod cases;
mod changes;
mod client;
mod course;
mod driving;
mod fault;
mod filling;
mod form;
mod gate;
mod holding;
mod judge;
mod members;
mod requests;
mod server;
mod trial;
mod trial_gate;
mod trials;
mod waits;

use case::CASES;
use fault::{Fault, tell};
use form::{FORMS, Form};
use judge::{Test, judge};
use server::{MANNERS, serve_clients};
use std::sync::Wait;
use std::thread::Threads;
use std::{env, io};
use trial::{Sizes, Trial};

/// The last work item, counted from 0, before which node 2 stops in a trial.
const LAST_PIECE: u64 = 8;

/// Such a trial in words; its number follows, as for the other trials.
const STOP: &str = "node 2 stops before a piece of its work, a put is asked again, piece";

/// Returns the sizes from the command line; the usual ones where there are none.
fn sizes(rt: HostRuntime) -> io::Result<Sizes> {
    let mut sizes = Sizes::usual();
    let mut place: u64 = 0;
    for word in env::args(&rt)? {
        sizes.take(place, word.as_str());
        place = place.saturating_add(1);
    }
    Ok(sizes)
}

/// Runs a test, and prints its words, its number if it has one, and how it ended. Returns true
/// unless it ended late.
fn try_one<R>(rt: R, host: HostRuntime, test: Test, text: &str, form: Form) -> io::Result<bool>
where
    R: Threads + Wait + Copy + Send + 'static,
{
    let ended = judge(rt, host, test, form);
    match test {
        Test::Case(_) => print!(host; "{text}: ")?,
        Test::Trial(trial) => {
            let number = trial.number();
            print!(host; "{text} {number}: ")?;
        }
    }
    tell(host, &ended)?;
    Ok(!matches!(ended, Err(Fault::Late)))
}

/// Runs all cases. Returns true if the trials can be run.
fn try_cases<R>(rt: R, host: HostRuntime, form: Form) -> io::Result<bool>
where
    R: Threads + Wait + Copy + Send + 'static,
{
    for (case, text) in &CASES {
        if !try_one(rt, host, Test::Case(*case), *text, form)? {
            return Ok(false);
        }
    }
    Ok(true)
}

/// Runs all trials. Returns true if a store in another form can be tested.
fn try_trials<R>(rt: R, host: HostRuntime, form: Form, sizes: Sizes) -> io::Result<bool>
where
    R: Threads + Wait + Copy + Send + 'static,
{
    for piece in 0..=LAST_PIECE {
        if !try_one(rt, host, Test::Trial(Trial::Stop(piece)), STOP, form)? {
            return Ok(false);
        }
    }
    for (trial, text) in &sizes.others() {
        if form.is_chain_thread() && trial.wants_workers() {
            continue;
        }
        if !try_one(rt, host, Test::Trial(*trial), *text, form)? {
            return Ok(false);
        }
    }
    Ok(true)
}

/// Runs all cases and trials of a store in a form. Returns true if a store in another form can be
/// tested.
fn try_all_in<R>(rt: R, host: HostRuntime, form: Form, sizes: Sizes) -> io::Result<bool>
where
    R: Threads + Wait + Copy + Send + 'static,
{
    if try_cases(rt, host, form)? {
        try_trials(rt, host, form, sizes)
    } else {
        Ok(false)
    }
}

fn main(rt: HostRuntime) -> io::Result<()> {
    let sizes = sizes(rt)?;
    for (form, words) in &FORMS {
        println!(rt; "{words}")?;
        if !try_all_in(rt, rt, *form, sizes)? {
            return Ok(());
        }
    }
    for (manner, words) in &MANNERS {
        println!(rt; "{words}")?;
        if let Err(refusal) = serve_clients(rt, *manner) {
            println!(rt; "refused: {refusal}")?;
        }
    }
    Ok(())
}
