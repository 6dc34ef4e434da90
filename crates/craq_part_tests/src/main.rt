//! Tests parts over memory, with enough memory. Values: names, commands, memberships, versions,
//! entries, kept replies and compact states. Bytes: messages, payloads, frames and chain
//! configurations, against bytes and texts from outside this project. Connections: serving and
//! exchanges.
//!
//! Prints the result of each call, the decoded form of bytes, and the bytes that a connection is
//! sent. Also prints whether decoded bytes are encoded again as they were. `./test` and
//! `tools/quick/run` compare the output with the file `stdout`.
#![tactic(auto)]

mod commands;
mod cuts;
mod door;
mod entries;
mod exchanges;
mod fakes;
mod frames;
mod held;
mod links;
mod lists;
mod masters;
mod names;
mod objects;
mod payloads;
mod plans;
mod replies;
mod rows;
mod states;
mod worked;

use std::fmt::Debug;
use std::io;

/// Prints a call and its result.
fn say<R: Print, T: Debug + Drop>(rt: &R, asked: &str, answer: T) -> io::Result<()> {
    println!(rt; "{asked}: {answer:?}")
}

/// Prints the results of calls on values.
fn run_values<R: AllocGlobal + Print>(rt: &R) -> io::Result<()> {
    names::run(rt)?;
    commands::run(rt)?;
    masters::run(rt)?;
    objects::run(rt)?;
    lists::run(rt)?;
    entries::run(rt)?;
    replies::run(rt)?;
    held::run(rt)
}

/// Prints the decoded forms of bytes.
fn run_bytes<R: AllocGlobal + Print>(rt: &R) -> io::Result<()> {
    links::print_counts(rt)?;
    links::run(rt)?;
    states::run(rt)?;
    payloads::run(rt)?;
    frames::run(rt)?;
    plans::run(rt)
}

/// Prints the results of whole connections, then of each cut, each changed byte and each failing
/// call.
fn run_connections<R: AllocGlobal + Print>(rt: &R) -> io::Result<()> {
    rows::run(rt)?;
    cuts::run(rt)?;
    exchanges::run(rt)
}

fn main(rt: HostRuntime) -> io::Result<()> {
    run_values(&rt)?;
    run_bytes(&rt)?;
    run_connections(&rt)
}
