//! Tests nodes, chains with linearization witnesses of their runs, worlds and locked nodes: makes
//! each public call that may run out of memory, with enough memory. Random scripts run on both
//! cores, in which corrupted messages arrive. Each fact is printed with what was observed.
//!
//! At the end a script is played by calls that may run out of memory (`refused`), here with enough
//! memory. With words on the command line only such a script is played.
//!
//! `./test` and `tools/quick/run` compare the output without words with the file `stdout`.
//! `./hostile`, and `./test` after CI, run it with words.
#![tactic(auto)]

mod audits;
mod cells;
mod chains;
mod moves;
mod nodes;
mod refused;
mod spoiled;
mod worlds;

use craq_compact_history::ListCore;
use craq_names::Refusal;
use craq_node::Core;
use craq_play::PlainCore;
use std::rt::Files;
use std::sync::Wait;
use std::thread::Threads;
use std::{env, io};

/// Prints a fact and the observed lines, all on one line.
fn tell_lines<R: Print>(rt: &R, fact: &str, seen: &str) -> io::Result<()> {
    print!(rt; "{fact}:")?;
    for line in seen.lines() {
        print!(rt; " {line};")?;
    }
    println!(rt; "")
}

/// Prints a fact and what was observed.
fn tell<R: Print>(rt: &R, fact: &str, seen: &Result<String, Refusal>) -> io::Result<()> {
    match seen {
        Ok(text) => tell_lines(rt, fact, text.as_str()),
        Err(refusal) => println!(rt; "{fact}: {refusal}"),
    }
}

/// Prints the facts of nodes, chains and worlds over a core.
fn tell_core<C: Core, R: AllocGlobal + Print>(rt: &R) -> io::Result<()> {
    let alloc = rt.alloc();
    for case in &nodes::CASES {
        tell(rt, case.fact, &nodes::reported::<C>(alloc, case))?;
    }
    for case in &chains::CASES {
        tell(rt, case.fact, &chains::reported::<C>(alloc, case))?;
    }
    for scene in &worlds::SCENES {
        tell(rt, scene.fact, &worlds::reported::<C>(alloc, scene))?;
    }
    tell(
        rt,
        "a list of moves goes on after a refusal",
        &worlds::reported_of_list::<C>(alloc),
    )?;
    tell(
        rt,
        "worlds have 1 to 64 chains of memberships",
        &worlds::reported_of_counts::<C>(alloc),
    )
}

/// Prints what a lone node with a compacting history holds in memory after many puts.
fn tell_forgetting<R: AllocGlobal + Print>(rt: &R) -> io::Result<()> {
    let puts = nodes::PUTS;
    print!(rt; "after {puts} puts a lone node forgot those that are settled: ")?;
    match nodes::after_puts(rt.alloc()) {
        Ok((base, held)) => println!(rt; "its base is {base}, and {held} entries are in memory"),
        Err(refusal) => println!(rt; "{refusal}"),
    }
}

/// Prints the facts of locked nodes, and of audits of them.
fn tell_cells<R: AllocGlobal + Print + Threads + Wait + Sync>(rt: &R) -> io::Result<()> {
    tell(
        rt,
        "at the last stamp a stopped node has no next one",
        &cells::reported_of_last_stamp::<ListCore>(rt.alloc()),
    )?;
    tell(
        rt,
        "two threads take steps on two cells",
        &cells::reported_of_threads(rt),
    )?;
    for case in &audits::CASES {
        tell(rt, case.fact, &audits::reported::<ListCore, R>(rt, case))?;
    }
    Ok(())
}

/// Prints whether both cores take the same steps when corrupted messages arrive.
fn tell_spoiled<R: AllocGlobal + Files + Print + Wait>(rt: &R) -> io::Result<()> {
    for case in &spoiled::CASES {
        tell(rt, case.file, &spoiled::reported(rt, case))?;
    }
    Ok(())
}

/// Prints all facts, and plays a script by calls.
fn tell_all<R>(rt: R, host: HostRuntime) -> io::Result<()>
where
    R: AllocGlobal + Files + Print + Threads + Wait + Copy + Send + Sync + 'static,
{
    tell(
        &host,
        "a read of a value that was never put is refused",
        &chains::reported_of_values(host.alloc()),
    )?;
    println!(host; "over nodes that keep every entry:")?;
    tell_core::<PlainCore, _>(&host)?;
    println!(host; "over nodes that forget settled entries:")?;
    tell_core::<ListCore, _>(&host)?;
    tell_forgetting(&host)?;
    tell_cells(&rt)?;
    tell_spoiled(&rt)?;
    refused::play(
        rt,
        host,
        "all",
        "list",
        3,
        "put-then-read-everywhere.script",
    )
}

/// Returns the words of the command line, the program's own name included.
fn words_of(rt: HostRuntime) -> io::Result<Vec<String>> {
    let mut words = Vec::new(rt.alloc());
    for word in env::args(&rt)? {
        words.push(word)?;
    }
    Ok(words)
}

fn main(rt: HostRuntime) -> io::Result<()> {
    let words = words_of(rt)?;
    if words.len() > 1 {
        refused::play_asked(rt, rt, words.as_slice())
    } else {
        tell_all(rt, rt)
    }
}
