//! The program with which people and scripts ask a server: `craq [OPTION ..] [VERB ..]`, and `craq
//! --connect ADDRESS --node N [--pass P] [COMMAND ..]`.
#![tactic(auto)]

mod asking;
mod bench;
mod calling;
mod chains;
mod deadline;
mod fault;
mod health;
mod identity;
mod link;
mod output;
mod people;
mod positions;
mod quoting;
mod reporting;
mod session;
mod shell;
mod tally;
mod timed;
mod watch;

use asking::known_chains;
use bench::ProgressDisplay;
use calling::{Asker, Shown, explain, shown_over};
use chains::members_of;
use craq_cli::{
    BAD_INPUT, CallLine, CommandFault, Request, Task, VerbLine, has_raw_bytes, open_placeholders,
    raw_words_of, report_failure, report_memory, report_no_text, report_words, words_of,
};
use craq_names::{ChainId, NodeId};
use deadline::Deadline;
use fault::{Fault, REFUSED};
use identity::default_address;
use link::ServerLink;
use output::ValueEnd;
use people::{Setting, run_verb};
use shell::Terminals;
use std::env::Env;
use std::io;
use std::io::{ErrorKind, IsTerminal};
use std::net::{Net, TcpListener, TcpStream};
use std::process::ExitCode;
use std::random::RandomSource;
use std::rt::Files;
use std::sync::Wait;
use std::thread::Threads;
use std::time::Clock;
use watch::Watched;

/// Asks once, and prints the answer with its pass on a line of its own, or the refusal. Returns the
/// status.
fn ask_once<R>(
    rt: &R,
    link: &mut ServerLink<'_>,
    asker: &Asker<'_>,
    request: &Request,
) -> Result<u8, Fault>
where
    R: AllocGlobal + Print + Eprint + Clock + Net<Listener = TcpListener, Stream = TcpStream>,
{
    let shown = shown_over(rt, link, asker, request)?;
    let status = print_shown(rt, &shown)?;
    explain(rt, &shown)?;
    Ok(status)
}

/// Prints an answer with its pass on a line of its own, or a refusal. Returns the status.
fn print_shown<R: Print>(rt: &R, shown: &Shown) -> Result<u8, Fault> {
    let text = shown.text.as_str();
    let (printed, status) = match shown.pass {
        Some(pass) => {
            let pass = pass.stamp().get();
            (print!(rt; "{text}pass {pass}\n"), 0)
        }
        None => (print!(rt; "{text}"), REFUSED),
    };
    match printed {
        Ok(()) => Ok(status),
        Err(error) => Err(Fault::CannotPrint(error)),
    }
}

/// Returns the node of a line: the one that it names, else the head of chain 0.
fn node_of<R>(rt: &R, link: &mut ServerLink<'_>, node: Option<NodeId>) -> Result<NodeId, Fault>
where
    R: AllocGlobal + Clock + Wait + Net<Listener = TcpListener, Stream = TcpStream>,
{
    if let Some(node) = node {
        return Ok(node);
    }
    let chains = known_chains(rt, link, Deadline::begin(rt)?)?;
    match members_of(chains.as_slice(), ChainId::new(0)) {
        Ok([head, ..]) => Ok(*head),
        _ => Err(Fault::Connection),
    }
}

/// Returns what follows a value that is printed as it is: a line feed on a terminal.
fn value_end_at(terminals: Terminals) -> ValueEnd {
    if terminals.output {
        ValueEnd::LineFeed
    } else {
        ValueEnd::Nothing
    }
}

/// Returns whether a load shows its progress: on a terminal.
fn progress_at(terminals: Terminals) -> ProgressDisplay {
    if terminals.errors {
        ProgressDisplay::Shown
    } else {
        ProgressDisplay::Hidden
    }
}

/// Runs a verb for people. Returns the status.
fn run_person<R>(
    rt: &R,
    terminals: Terminals,
    address: &str,
    line: &CallLine<'_>,
    verb: &VerbLine<'_>,
) -> Result<u8, Fault>
where
    R: AllocGlobal + Env + Files + RandomSource + Input + Print + Eprint + Clock + Wait,
    R: Net<Listener = TcpListener, Stream = TcpStream>,
{
    let mut link = ServerLink::new(address);
    let mut setting = Setting {
        node: line.node,
        pass: line.pass,
        value_end: value_end_at(terminals),
        reads_input: true,
    };
    run_verb(rt, &mut link, &mut setting, verb)
}

/// Runs what asks one node: a command or a tool. Returns the status.
fn run_asker<R>(
    rt: R,
    terminals: Terminals,
    address: &str,
    line: &CallLine<'_>,
) -> Result<u8, Fault>
where
    R: AllocGlobal + Env + Files + RandomSource + Input + Print + Eprint + Clock + Threads + Wait,
    R: Net<Listener = TcpListener, Stream = TcpStream> + Copy + Drop + Send + Sync + 'static,
{
    let mut link = ServerLink::new(address);
    let asker = Asker {
        address,
        node: node_of(&rt, &mut link, line.node)?,
        pass: line.pass,
    };
    match &line.task {
        Task::Ask(request) => ask_once(&rt, &mut link, &asker, request),
        Task::Bench(load) => bench::bench(rt, &asker, load, progress_at(terminals)),
        _ => shell::shell(&rt, link, &asker, terminals),
    }
}

/// Returns what a watch watches: the positions of nodes where the line names the metrics, else the
/// status.
fn watched_by<'a>(line: &CallLine<'a>, address: &'a str) -> Watched<'a> {
    match line.metrics {
        Some(metrics) => Watched::Positions(metrics),
        None => Watched::Status(address),
    }
}

/// Does what a command line asks for at an address. Returns the status.
fn run_at<R>(rt: R, terminals: Terminals, address: &str, line: &CallLine<'_>) -> Result<u8, Fault>
where
    R: AllocGlobal + Env + Files + RandomSource + Input + Print + Eprint + Clock + Threads + Wait,
    R: Net<Listener = TcpListener, Stream = TcpStream> + Copy + Drop + Send + Sync + 'static,
{
    match &line.task {
        Task::Verb(verb) => run_person(&rt, terminals, address, line, verb),
        Task::Watch(seconds) => watch::watch(&rt, watched_by(line, address), *seconds),
        _ => run_asker(rt, terminals, address, line),
    }
}

/// Does what a command line asks for. Returns the status.
fn run_line<R>(rt: R, terminals: Terminals, line: &CallLine<'_>) -> Result<u8, Fault>
where
    R: AllocGlobal + Env + Files + RandomSource + Input + Print + Eprint + Clock + Threads + Wait,
    R: Net<Listener = TcpListener, Stream = TcpStream> + Copy + Drop + Send + Sync + 'static,
{
    match line.address {
        Some(address) => run_at(rt, terminals, address, line),
        None => {
            let address = default_address(&rt)?;
            run_at(rt, terminals, address.as_str(), line)
        }
    }
}

/// Does what a command line asks for, and prints what was wrong. Returns the status.
fn run_and_report<R>(rt: R, terminals: Terminals, line: &CallLine<'_>) -> io::Result<u8>
where
    R: AllocGlobal + Env + Files + RandomSource + Input + Print + Eprint + Clock + Threads + Wait,
    R: Net<Listener = TcpListener, Stream = TcpStream> + Copy + Drop + Send + Sync + 'static,
{
    match run_line(rt, terminals, line) {
        Ok(status) => Ok(status),
        Err(fault) => fault.report(&rt),
    }
}

/// Prints what is wrong with a command line, or the help that it asks for. Words of a command that
/// fit no script line are `script line 1`, then what was expected. Returns the status.
fn report_unread<R: Print + Eprint>(rt: &R, fault: &CommandFault) -> io::Result<u8> {
    match fault {
        CommandFault::Words(error) => report_words(rt, error, REFUSED),
        CommandFault::Command(error) => {
            eprintln!(rt; "script line 1")?;
            report_words(rt, error, REFUSED)
        }
        CommandFault::Memory => report_memory(rt, REFUSED),
    }
}

/// Does what these words of a command line ask for, and prints what was wrong. Returns the status.
fn run_words<'a, R>(rt: R, terminals: Terminals, words: &'a [&'a str]) -> io::Result<u8>
where
    R: AllocGlobal + Env + Files + RandomSource + Input + Print + Eprint + Clock + Threads + Wait,
    R: Net<Listener = TcpListener, Stream = TcpStream> + Copy + Drop + Send + Sync + 'static,
{
    match CallLine::read(rt.alloc(), words) {
        Ok(line) => run_and_report(rt, terminals, &line),
        Err(fault) => report_unread(&rt, &fault),
    }
}

/// Returns the words as slices. Fails only when out of memory.
fn texts_of<'a, R: AllocGlobal>(rt: &R, words: &'a [String]) -> io::Result<Vec<&'a str>> {
    let mut texts = Vec::new(rt.alloc());
    for word in words {
        texts.push(word.as_str())?;
    }
    Ok(texts)
}

/// Does what these words of a command line ask for. Returns the status.
fn run_texts<R>(rt: R, terminals: Terminals, words: &[String]) -> io::Result<u8>
where
    R: AllocGlobal + Env + Files + RandomSource + Input + Print + Eprint + Clock + Threads + Wait,
    R: Net<Listener = TcpListener, Stream = TcpStream> + Copy + Drop + Send + Sync + 'static,
{
    let texts = texts_of(&rt, words)?;
    run_words(rt, terminals, texts.as_slice())
}

/// Returns true if the words are those of a verb for people.
fn is_person<R: AllocGlobal>(rt: &R, words: &[String]) -> io::Result<bool> {
    let texts = texts_of(rt, words)?;
    let read = CallLine::read(rt.alloc(), texts.as_slice());
    Ok(matches!(
        &read,
        Ok(CallLine {
            task: Task::Verb(_),
            ..
        })
    ))
}

/// Does what the command line asks for, where its words are text. Returns the status.
fn run_plain<R>(rt: R, terminals: Terminals) -> io::Result<u8>
where
    R: AllocGlobal + Env + Files + RandomSource + Input + Print + Eprint + Clock + Threads + Wait,
    R: Net<Listener = TcpListener, Stream = TcpStream> + Copy + Drop + Send + Sync + 'static,
{
    match words_of(&rt) {
        Ok(words) => run_texts(rt, terminals, words.as_slice()),
        Err(error) if error.kind() == ErrorKind::InvalidData => report_no_text(&rt),
        Err(error) => Err(error),
    }
}

/// The words that ask for the long help.
const LONG_HELP: [&str; 2] = ["craq", "--help"];

/// The words that ask for the short help.
const SHORT_HELP: [&str; 2] = ["craq", "-h"];

/// Prints the short help on standard error: the command line has no word. Returns the status.
fn report_no_words<R: AllocGlobal + Print + Eprint>(rt: &R) -> io::Result<u8> {
    match CallLine::read(rt.alloc(), &SHORT_HELP) {
        Err(CommandFault::Words(help)) => {
            eprint!(rt; "{help}")?;
            Ok(BAD_INPUT)
        }
        Err(fault) => report_unread(rt, &fault),
        Ok(_) => Ok(BAD_INPUT),
    }
}

/// Returns true for the words `craq help`.
fn asks_help(words: &[String]) -> bool {
    match words {
        [_, word] => word.as_str() == "help",
        _ => false,
    }
}

/// Does what the command line asks for. The words of a verb for people are any bytes, those of
/// other commands are text. Returns the status.
fn run<R>(rt: R, terminals: Terminals) -> io::Result<u8>
where
    R: AllocGlobal + Env + Files + RandomSource + Input + Print + Eprint + Clock + Threads + Wait,
    R: Net<Listener = TcpListener, Stream = TcpStream> + Copy + Drop + Send + Sync + 'static,
{
    let words = raw_words_of(&rt)?;
    if words.len() <= 1 {
        drop(words);
        return report_no_words(&rt);
    }
    if asks_help(words.as_slice()) {
        drop(words);
        return run_words(rt, terminals, &LONG_HELP);
    }
    let is_raw = words.iter().any(|word| has_raw_bytes(word.as_str()));
    if is_raw && is_person(&rt, words.as_slice())? {
        return run_texts(rt, terminals, words.as_slice());
    }
    drop(words);
    run_plain(rt, terminals)
}

fn main(rt: HostRuntime) -> ExitCode {
    let opened = open_placeholders(&rt);
    let terminals = Terminals {
        input: rt.stdin().is_terminal(),
        output: rt.stdout().is_terminal(),
        errors: rt.stderr().is_terminal(),
    };
    let status = match run(rt, terminals) {
        Ok(status) => status,
        Err(error) => report_failure(&rt, error.kind(), REFUSED),
    };
    drop(opened);
    ExitCode::from(status)
}
