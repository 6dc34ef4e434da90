//! Runs control lines: each is read and its answer printed on standard error; called by `serving`.
ghost use Rattle.std.specs.Prelude.{◌≤◌, ◌^◌, length, IfOk};

use crate::line_slot::{InputLine, LineSlot};
use crate::readiness::{MemberCondition, is_last_ready, members_of};
use crate::serving::RunningStore;
use craq_cli::{BadWord, ControlLine, UsageError, control_line};
use craq_names::{ChainId, NodeName, Refusal};
use craq_place::MOST_CHAINS;
use craq_workers::{ChainStatus, Named};
use std::alloc::{AllocError, Global};
use std::str::from_utf8;
use std::sync::Wait;
use std::thread::Threads;

/// The answer to `help`.
const HELP: &str =
    "stop CHAIN/NODE [--force]   stop a node forever; --force also the last ready member of a chain
remove CHAIN/NODE           remove a stopped node from its chain
join CHAIN/NODE             let a new node join its chain, behind the last one
status                      each chain with its epoch, and its members, the head first
help                        these lines";

/// The most chains that lines can name: as many as there are ids.
const MOST_NAMES: usize = 65_536;

/// A change of a chain's nodes.
#[derive(Clone, Copy, Debug)]
enum MemberChange {
    Stopped,
    Removed,
    Joined,
}

impl MemberChange {
    /// Returns the word for the change.
    const fn in_words(self) -> &'static str {
        match self {
            MemberChange::Stopped => "stopped",
            MemberChange::Removed => "removed",
            MemberChange::Joined => "joined",
        }
    }
}

/// Returns the name of the chain of a node.
fn chain_name<'a>(chains: &'a [ChainStatus], node: &NodeName) -> &'a str {
    match chains.get(node.chain.get() as usize) {
        Some(chain) => chain.name.as_str(),
        None => "",
    }
}

/// Prints that a change was made, or the refusal in words.
fn tell_change<R: Eprint>(
    rt: &R,
    chains: &[ChainStatus],
    node: &NodeName,
    change: MemberChange,
    refused: Option<Refusal>,
) {
    let (chain, id, word) = (chain_name(chains, node), node.node.get(), change.in_words());
    let _ = match refused {
        None => eprintln!(rt; "{chain}/{id} {word}"),
        Some(refusal) => {
            let number = refusal.number();
            eprintln!(rt; "{chain}/{id} not {word}: refused {number}, {refusal}")
        }
    };
}

/// Prints that a node is not stopped, since its chain has no other ready member.
fn tell_last<R: Eprint>(rt: &R, chains: &[ChainStatus], node: &NodeName) {
    let (chain, id) = (chain_name(chains, node), node.node.get());
    let _ = eprintln!(rt;
        "{chain}/{id} not stopped: it is the last ready member of its chain; --force stops it"
    );
}

/// Returns whether a node is the last ready member of its chain. Fails only when out of memory.
fn is_last_of_chain<R: AllocGlobal + Wait, N: Named>(
    rt: &R,
    store: &RunningStore<N>,
    chains: &[ChainStatus],
    node: NodeName,
) -> Result<bool, AllocError> {
    let Some(chain) = chains.get(node.chain.get() as usize) else {
        return Ok(false);
    };
    let members = members_of(rt, store, node.chain, chain.config.members.as_slice())?;
    Ok(is_last_ready(members.as_slice(), node.node))
}

/// Stops a node unless it is the last ready member of its chain. Fails only when out of memory.
fn stop_if_another<R: AllocGlobal + Eprint + Wait, N: Named + Send + 'static>(
    rt: &R,
    store: &RunningStore<N>,
    chains: &[ChainStatus],
    node: NodeName,
) -> Result<(), AllocError> {
    if is_last_of_chain(rt, store, chains, node)? {
        tell_last(rt, chains, &node);
    } else {
        stop_node(rt, store, chains, node);
    }
    Ok(())
}

/// Stops a node.
fn stop_node<R: Eprint + Wait, N: Named + Send + 'static>(
    rt: &R,
    store: &RunningStore<N>,
    chains: &[ChainStatus],
    node: NodeName,
) {
    let stopped = store.stop(rt, node.chain, node.node);
    tell_change(rt, chains, &node, MemberChange::Stopped, stopped.err());
}

/// Returns the text about a chain: its epoch, and its members, the head first. Fails only when out
/// of memory.
fn chain_text(
    alloc: Global,
    index: u16,
    chain: &ChainStatus,
    members: &[MemberCondition],
) -> Result<String, AllocError> {
    let mut text = String::new(alloc);
    let (name, epoch) = (chain.name.as_str(), chain.config.epoch.get());
    write!(text, "chain {name}, index {index}, epoch {epoch}")?;
    for member in members {
        let (id, condition) = (member.node.get(), member.condition.in_words());
        write!(text, ", node {id} {condition}")?;
    }
    Ok(text)
}

/// Prints a chain with its epoch, and its members, the head first. Fails only when out of memory.
fn tell_chain<R: AllocGlobal + Eprint + Wait, N: Named>(
    rt: &R,
    store: &RunningStore<N>,
    index: u16,
    chain: &ChainStatus,
) -> Result<(), AllocError> {
    let ids = chain.config.members.as_slice();
    let members = members_of(rt, store, ChainId::new(index), ids)?;
    let text = chain_text(rt.alloc(), index, chain, members.as_slice())?;
    let text = text.as_str();
    let _ = eprintln!(rt; "{text}");
    Ok(())
}

/// Prints each chain. Fails only when out of memory.
fn tell_chains<R: AllocGlobal + Eprint + Wait, N: Named>(
    rt: &R,
    store: &RunningStore<N>,
    chains: &[ChainStatus],
) -> Result<(), AllocError> {
    for (index, chain) in (0..MOST_CHAINS).zip(chains.iter()) {
        tell_chain(rt, store, index, chain)?;
    }
    Ok(())
}

/// Does what a line asks for, and prints its answer. Fails only when out of memory.
fn run_line<R, N>(
    rt: R,
    store: &RunningStore<N>,
    chains: &[ChainStatus],
    line: ControlLine,
) -> Result<(), AllocError>
where
    N: Named + Send + 'static,
    R: AllocGlobal + Eprint + Threads + Wait + Copy + Send + 'static,
{
    match line {
        ControlLine::Nothing => (),
        ControlLine::Help => {
            let _ = eprintln!(rt; "{HELP}");
        }
        ControlLine::Status => tell_chains(&rt, store, chains)?,
        ControlLine::Stop(node) => stop_if_another(&rt, store, chains, node)?,
        ControlLine::ForceStop(node) => stop_node(&rt, store, chains, node),
        ControlLine::Remove(node) => {
            let removed = store.remove(&rt, node.chain, node.node);
            tell_change(&rt, chains, &node, MemberChange::Removed, removed.err());
        }
        ControlLine::Join(node) => {
            let joined = store.join(rt, node.chain, node.node);
            tell_change(&rt, chains, &node, MemberChange::Joined, joined.err());
        }
    }
    Ok(())
}

/// Prints what was expected in a line. Fails only when out of memory.
fn tell_bad<R: AllocGlobal + Eprint>(
    rt: &R,
    bad: &BadWord,
    words: &[&str],
) -> Result<(), AllocError> {
    let reported = bad.reported(rt.alloc(), words)?;
    let text = reported.as_str();
    let _ = eprintln!(rt; "control: {text}");
    Ok(())
}

/// Returns the names of chains. Fails only when out of memory.
fn names_of(alloc: Global, chains: &[ChainStatus]) -> Result<Vec<&str>, AllocError>
    ensures { IfOk result (λ names. length names.items ≤ 2 ^ 16) }
{
    let mut names = Vec::new(alloc);
    for chain in chains {
        names.push(chain.name.as_str())?;
    }
    names.truncate(MOST_NAMES);
    Ok(names)
}

/// Runs a line by its text. Fails only when out of memory.
fn run_text<R, N>(rt: R, store: &RunningStore<N>, text: &str) -> Result<(), AllocError>
where
    N: Named + Send + 'static,
    R: AllocGlobal + Eprint + Threads + Wait + Copy + Send + 'static,
{
    let chains = store.status(&rt)?;
    let names = names_of(rt.alloc(), chains.as_slice())?;
    let words: Vec<&str> = text.split_whitespace().collect(rt.alloc())?;
    match control_line(names.as_slice(), words.as_slice()) {
        Ok(line) => run_line(rt, store, chains.as_slice(), line),
        Err(UsageError::Memory) => Err(AllocError),
        Err(UsageError::Bad(bad)) => tell_bad(&rt, &bad, words.as_slice()),
    }
}

/// Runs a line.
fn run_input<R, N>(rt: R, store: &RunningStore<N>, line: InputLine)
where
    N: Named + Send + 'static,
    R: AllocGlobal + Eprint + Threads + Wait + Copy + Send + 'static,
{
    let _ = match line {
        InputLine::Text(bytes) => match from_utf8(bytes.as_slice()) {
            Ok(text) => match run_text(rt, store, text) {
                Ok(()) => Ok(()),
                Err(_) => eprintln!(rt; "control: no memory"),
            },
            Err(_) => eprintln!(rt; "control: expected a line of text in UTF-8"),
        },
        InputLine::TooLong => eprintln!(rt; "control: expected a line of at most 256 bytes"),
        InputLine::Lost => eprintln!(rt; "control: no memory"),
    };
}

/// Runs the lines that come into a slot, until the server is over.
pub fn run_lines<R, N>(rt: R, store: &RunningStore<N>, slot: &LineSlot)
where
    N: Named + Send + 'static,
    R: AllocGlobal + Eprint + Threads + Wait + Copy + Send + 'static,
{
    for _ in rt.forever() {
        match slot.take(&rt) {
            Some(line) => run_input(rt, store, line),
            None => break,
        }
        slot.finish_line(&rt);
    }
}
