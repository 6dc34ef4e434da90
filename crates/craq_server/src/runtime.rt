//! `ServerRuntime`: the handles that a server needs; for `accepting`, `io_threads` and programs
//! that serve.
use std::sync::Wait;
use std::thread::Threads;
use std::time::Clock;

/// A runtime that a server can run on: one with threads, locks, a clock and a standard error.
pub trait ServerRuntime: Eprint + Clock + Threads + Wait + Copy + Drop + Send + Sync + 'static {}

impl<R: Eprint + Clock + Threads + Wait + Copy + Drop + Send + Sync + 'static> ServerRuntime
    for R {}
