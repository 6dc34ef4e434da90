//! Runs the program that `./play` and `tools/rows/run` start, one of:
//! - `craq_lab play [--nodes N] [--core CORE] [FILE]`
//! - `craq_lab draw [--nodes N] [--core CORE] FILE CHOICES`
//! - `craq_lab stops [--nodes N] [--core CORE] FILE NODE`
//! - `craq_lab picture [--nodes N] [--core CORE] FILE`
//! - `craq_lab check [--nodes N] [--core CORE] FILE EXPLANATION`
#![tactic(auto)]

ghost use Rattle.std.specs.Prelude.{◌≤◌};

mod command_line;
mod numbers;
mod runs;

use command_line::{CoreKind, Nodes, Wanted, wanted_by};
use craq_cli::{
    BAD_INPUT, NO_MEMORY, report_failure, report_memory, report_no_text, report_words, words_of,
};
use craq_compact_history::ListCore;
use craq_epochs::MEMBER_LIMIT;
use craq_names::{NodeId, Refusal};
use craq_node::Core;
use craq_play::{JsonError, PlainCore, PlayFault, explanation_of, play};
use craq_runs::Explanation;
use craq_schedules::{draw, stops};
use runs::{picture, verdict};
use std::alloc::Global;
use std::env::Env;
use std::io::{ErrorKind, Read};
use std::process::ExitCode;
use std::rt::Files;
use std::sync::Wait;
use std::{fs, io};

/// The exit status if a locked node and the chain differ in what they did.
const CELLS_DIFFER: u8 = 5;

/// Reads the bytes of the file, or of standard input if there is none.
fn bytes_of<R>(rt: &R, file: Option<&str>) -> io::Result<Vec<u8>>
where
    R: AllocGlobal + Files + Input,
{
    match file {
        Some(path) => fs::read(rt, path),
        None => {
            let mut bytes = Vec::new(rt.alloc());
            rt.reader().read_to_end(&mut bytes)?;
            Ok(bytes)
        }
    }
}

/// Reports why a script was not played, and returns the exit status.
fn report_fault<R>(rt: &R, fault: &PlayFault) -> io::Result<u8>
where
    R: AllocGlobal + Eprint,
{
    match fault {
        PlayFault::Refused(Refusal::BadScript(line)) => {
            let line = *line;
            eprintln!(rt; "script line {line}")?;
            Ok(BAD_INPUT)
        }
        PlayFault::Differs => {
            eprintln!(rt; "a cell and the chain differ")?;
            Ok(CELLS_DIFFER)
        }
        _ => report_memory(rt, NO_MEMORY),
    }
}

/// Reports why a file was not read, and returns the exit status.
fn report_unread<R>(rt: &R, file: Option<&str>, kind: ErrorKind) -> io::Result<u8>
where
    R: AllocGlobal + Eprint,
{
    if kind == ErrorKind::OutOfMemory {
        return report_memory(rt, NO_MEMORY);
    }
    let name = file.unwrap_or("-");
    eprintln!(rt; "cannot read {name}")?;
    Ok(BAD_INPUT)
}

/// Prints a script's output, or reports why there is none. Returns the exit status.
fn report<R>(rt: &R, played: Result<String, PlayFault>) -> io::Result<u8>
where
    R: AllocGlobal + Print + Eprint,
{
    match played {
        Ok(text) => {
            print!(rt; "{text}")?;
            Ok(0)
        }
        Err(fault) => report_fault(rt, &fault),
    }
}

/// The use to make of a script.
#[derive(Clone, Copy)]
enum ScriptUse<'a> {
    Play,
    Draw(&'a [u32]),
    Stops(NodeId),
    Picture,
    Check(&'a Explanation),
}

/// Returns the output of a script on a chain of `nodes` nodes, each a core of type `C`.
fn played<C: Core, R: AllocGlobal + Wait>(
    rt: &R,
    nodes: u32,
    script: &[u8],
    way: &ScriptUse<'_>,
) -> Result<String, PlayFault>
    requires { (1 ≤ nodes) × (nodes ≤ 8) }
{
    let alloc = rt.alloc();
    match way {
        ScriptUse::Play => play::<C, R>(rt, alloc, nodes, script),
        ScriptUse::Draw(choices) => {
            draw::<C>(alloc, nodes, script, choices).map_err(PlayFault::Refused)
        }
        ScriptUse::Stops(node) => stops::<C>(alloc, nodes, script, *node).map_err(
            PlayFault::Refused,
        ),
        ScriptUse::Picture => picture::<C>(alloc, nodes, script).map_err(PlayFault::Refused),
        ScriptUse::Check(explanation) => {
            verdict::<C>(alloc, nodes, script, explanation).map_err(PlayFault::Refused)
        }
    }
}

/// Plays the script of a file and prints its output. Returns the exit status.
fn play_file<R>(rt: &R, nodes: Nodes, file: Option<&str>, way: &ScriptUse<'_>) -> io::Result<u8>
where
    R: AllocGlobal + Files + Input + Print + Eprint + Wait,
{
    let bytes = match bytes_of(rt, file) {
        Ok(bytes) => bytes,
        Err(error) => return report_unread(rt, file, error.kind()),
    };
    let count = nodes.count.max(1).min(MEMBER_LIMIT as u32);
    let script = bytes.as_slice();
    let printed = match nodes.core {
        CoreKind::Plain => played::<PlainCore, R>(rt, count, script, way),
        CoreKind::List => played::<ListCore, R>(rt, count, script, way),
    };
    report(rt, printed)
}

/// Plays the schedule that the choices draw. Returns the exit status.
fn draw_file<R>(rt: &R, nodes: Nodes, file: &str, choices: &str) -> io::Result<u8>
where
    R: AllocGlobal + Files + Input + Print + Eprint + Wait,
{
    match numbers::choices_of(rt.alloc(), choices)? {
        Some(choices) => play_file(rt, nodes, Some(file), &ScriptUse::Draw(choices.as_slice())),
        None => {
            eprintln!(rt; "choices refused")?;
            Ok(BAD_INPUT)
        }
    }
}

/// Plays the script up to each of its moves, and stops the node there. Returns the exit status.
fn stops_file<R>(rt: &R, nodes: Nodes, file: &str, node: &str) -> io::Result<u8>
where
    R: AllocGlobal + Files + Input + Print + Eprint + Wait,
{
    match numbers::number_in_word(node.as_bytes()) {
        Some(id) => play_file(rt, nodes, Some(file), &ScriptUse::Stops(NodeId::new(id))),
        None => {
            eprintln!(rt; "error: invalid value '{node}' for '<NODE>': a leading zero or sign")?;
            Ok(BAD_INPUT)
        }
    }
}

/// Reports why a file was not read as a linearization witness, and returns the exit status.
fn report_misread<R>(rt: &R, file: &str, misread: &JsonError) -> io::Result<u8>
where
    R: AllocGlobal + Eprint,
{
    if *misread == JsonError::Memory {
        return report_memory(rt, NO_MEMORY);
    }
    eprintln!(rt; "{file}: {misread}")?;
    Ok(BAD_INPUT)
}

/// Plays the script of a file, and checks the linearization witness in another file against the
/// run. Returns the exit status.
fn check_file<R>(rt: &R, nodes: Nodes, file: &str, claimed: &str) -> io::Result<u8>
where
    R: AllocGlobal + Files + Input + Print + Eprint + Wait,
{
    let bytes = match bytes_of(rt, Some(claimed)) {
        Ok(bytes) => bytes,
        Err(error) => return report_unread(rt, Some(claimed), error.kind()),
    };
    match explanation_of(rt.alloc(), bytes.as_slice()) {
        Ok(explanation) => play_file(rt, nodes, Some(file), &ScriptUse::Check(&explanation)),
        Err(misread) => report_misread(rt, claimed, &misread),
    }
}

/// Runs the command that the words of the command line give. Returns the exit status.
fn answer<'a, R>(rt: &R, words: &'a [&'a str]) -> io::Result<u8>
where
    R: AllocGlobal + Files + Input + Print + Eprint + Wait,
{
    match wanted_by(rt.alloc(), words) {
        Ok(Wanted::Play { nodes, file }) => play_file(rt, nodes, file, &ScriptUse::Play),
        Ok(
            Wanted::Draw {
                nodes,
                file,
                choices,
            },
        ) => draw_file(rt, nodes, file, choices),
        Ok(Wanted::Stops { nodes, file, node }) => stops_file(rt, nodes, file, node),
        Ok(Wanted::Picture { nodes, file }) => play_file(
            rt,
            nodes,
            Some(file),
            &ScriptUse::Picture,
        ),
        Ok(
            Wanted::Check {
                nodes,
                file,
                explanation,
            },
        ) => check_file(rt, nodes, file, explanation),
        Ok(Wanted::Nothing) => Ok(BAD_INPUT),
        Err(error) => report_words(rt, &error, NO_MEMORY),
    }
}

/// Runs the command that these words give. Returns the exit status.
fn run_words<R>(rt: &R, words: &[String]) -> io::Result<u8>
where
    R: AllocGlobal + Env + Files + Input + Print + Eprint + Wait,
{
    let mut texts = Vec::new(rt.alloc());
    for word in words {
        texts.push(word.as_str())?;
    }
    answer(rt, texts.as_slice())
}

/// Runs the command of the process's own command line. Returns the exit status.
///
/// Words that are not UTF-8 are reported as bad input.
fn run<R>(rt: &R) -> io::Result<u8>
where
    R: AllocGlobal + Env + Files + Input + Print + Eprint + Wait,
{
    match words_of(rt) {
        Ok(words) => run_words(rt, words.as_slice()),
        Err(error) if error.kind() == ErrorKind::InvalidData => report_no_text(rt),
        Err(error) => Err(error),
    }
}

fn main(rt: HostRuntime) -> ExitCode {
    match run(&rt) {
        Ok(status) => ExitCode::from(status),
        Err(error) => ExitCode::from(report_failure(&rt, error.kind(), NO_MEMORY)),
    }
}
