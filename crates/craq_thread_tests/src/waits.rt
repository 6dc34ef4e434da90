//! Provides the waits of tests, each for a bounded time: for a flag, for the end of a test, and for
//! a number of threads.
use crate::fault::Fault;
use std::sync::atomic::{AtomicBool, Ordering};
use std::thread::{JoinHandle, Threads};
use std::time::Duration;
use std::{fs, thread};

/// The largest number of polls of a wait. A join whose state takes longer to send than a tick takes
/// many seconds on a busy machine.
pub const LIMIT: u64 = 5000;

/// The time of a poll, in milliseconds.
const TURN: u64 = 10;

/// The system's report of this process with two threads: its own and that of a test.
pub const ALONE: &str = "\nThreads:\t2\n";

/// Rests for one poll.
pub fn rest(clock: HostRuntime) {
    thread::sleep(&clock, Duration::from_millis(TURN));
}

/// Waits until a flag is set, for at most `turns` polls. Returns true if it is.
pub fn wait_for(clock: HostRuntime, flag: &AtomicBool, turns: u64) -> bool {
    for _ in 0..turns {
        if flag.load(Ordering::SeqCst) {
            return true;
        }
        rest(clock);
    }
    flag.load(Ordering::SeqCst)
}

/// Returns how a test on a thread of its own ended, once the flag that it sets is set. `Late` if
/// that takes more than `turns` polls.
pub fn end_of<R: Threads>(
    rt: &R,
    clock: HostRuntime,
    test: JoinHandle<Result<(), Fault>>,
    over: &AtomicBool,
    turns: u64,
) -> Result<(), Fault> {
    if wait_for(clock, over, turns) {
        test.join(rt)
    } else {
        Err(Fault::Late)
    }
}

/// Returns true if the system reports this of the process.
fn is_reported(host: HostRuntime, threads: &str) -> bool {
    match fs::read_to_string(&host, "/proc/self/status") {
        Ok(status) => status.as_str().contains(threads),
        Err(_) => false,
    }
}

/// Polls until this process has the reported number of threads. Returns false if it never has.
pub fn comes_to(host: HostRuntime, threads: &str) -> bool {
    for _ in 0..LIMIT {
        if is_reported(host, threads) {
            return true;
        }
        rest(host);
    }
    false
}
