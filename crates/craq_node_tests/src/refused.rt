//! Plays a script by library calls, each of which may run out of memory; called by `main`.
//!
//! The command line gives a mode or `all`, a kind of nodes, their number, and the script's file.
//! The results of the calls are printed. The beginning and the end of each call are marked on
//! standard error, for a library loaded before the program that makes allocations within them fail.
//! A call that runs out of memory is made once more.
mod audits;
mod connections;
mod histories;
mod messages;
mod payloads;
mod rows;
mod steps;
mod stores;
mod teller;
mod ways;
mod worlds;

use craq_compact_history::ListCore;
use craq_names::Refusal;
use craq_play::PlainCore;
use rows::Row;
use std::sync::Wait;
use std::thread::Threads;
use std::{fs, io};
use teller::Teller;
use ways::WAYS;

/// Plays a script on nodes of this kind, in the mode of this word, or in all modes.
fn play_on<R>(rt: R, teller: Teller, word: &str, kind: &str, row: &Row) -> Result<(), Refusal>
where
    R: Threads + Wait + Copy + Send + 'static,
{
    for way in WAYS {
        let named = way.word();
        if word == named || word == "all" {
            let _ = println!(teller.host; "{named}");
            match kind {
                "plain" => ways::play::<PlainCore, R>(rt, teller, way, row)?,
                _ => ways::play::<ListCore, R>(rt, teller, way, row)?,
            }
        }
    }
    Ok(())
}

/// Plays the script of a file on `nodes` nodes of this kind, in the mode of this word, or in all
/// modes.
pub fn play<R>(
    rt: R,
    host: HostRuntime,
    word: &str,
    kind: &str,
    nodes: u32,
    file: &str,
) -> io::Result<()>
where
    R: Threads + Wait + Copy + Send + 'static,
{
    let teller = Teller {
        host,
        alloc: host.alloc(),
    };
    let script = fs::read(&host, file)?;
    let reported = match &Row::read(teller.alloc, nodes, script.as_slice()) {
        Ok(row) => play_on(rt, teller, word, kind, row),
        Err(refusal) => Err(*refusal),
    };
    match reported {
        Ok(()) => Ok(()),
        Err(refusal) => println!(host; "refused: {refusal}"),
    }
}

/// Plays a script as the command line's words say; the first word is the program's own name.
pub fn play_asked<R>(rt: R, host: HostRuntime, words: &[String]) -> io::Result<()>
where
    R: Threads + Wait + Copy + Send + 'static,
{
    let [_, way, kind, nodes, file] = words else {
        return println!(host; "the words are a way, a kind, a count of nodes and a script");
    };
    let count = nodes.as_str().parse::<u32>().unwrap_or(0);
    play(rt, host, way.as_str(), kind.as_str(), count, file.as_str())
}
