//! The program that runs and serves the store of a plan, which `./serve` starts too: `craqd
//! [OPTION ..] PLAN ADDRESS`.
#![tactic(auto)]

mod audits;
mod closing;
mod control_input;
mod controlling;
mod failure;
mod fault;
mod figures;
mod line_slot;
mod lines;
mod pages;
mod plan_faults;
mod plans;
mod readiness;
mod serving;
mod telling;
mod ticking;

use craq_cli::{
    Line, NO_MEMORY, open_placeholders, report_failure, report_no_text, report_words, words_of,
};
use serving::serve_line;
use std::env::Env;
use std::io;
use std::io::{ErrorKind, Input, StdinLock};
use std::net::{Net, TcpListener, TcpStream};
use std::process::ExitCode;
use std::rt::Files;
use std::sync::Wait;
use std::thread::Threads;
use std::time::Clock;

/// Serves as a command line asks for, and prints a fault with its reason. Returns the status.
fn run_words<R>(rt: R, words: &[&str]) -> io::Result<u8>
where
    R: AllocGlobal + Files + Input<Reader = StdinLock<'static>> + Print + Eprint + Clock,
    R: Threads + Wait + Copy,
    R: Drop + Send + Sync + 'static + Net<Listener = TcpListener, Stream = TcpStream>,
{
    match Line::read(rt.alloc(), words) {
        Ok(line) => match serve_line(rt, &line) {
            Ok(()) => Ok(0),
            Err(failure) => failure.report(&rt, line.plan),
        },
        Err(error) => report_words(&rt, &error, NO_MEMORY),
    }
}

/// Does what these words of a command line ask for. Returns the status.
fn run_texts<R>(rt: R, words: &[String]) -> io::Result<u8>
where
    R: AllocGlobal + Files + Input<Reader = StdinLock<'static>> + Print + Eprint + Clock,
    R: Threads + Wait + Copy,
    R: Drop + Send + Sync + 'static + Net<Listener = TcpListener, Stream = TcpStream>,
{
    let mut texts = Vec::new(rt.alloc());
    for word in words {
        texts.push(word.as_str())?;
    }
    run_words(rt, texts.as_slice())
}

/// Does what the command line asks for, where its words are text. Returns the status.
fn run<R>(rt: R) -> io::Result<u8>
where
    R: AllocGlobal + Env + Files + Input<Reader = StdinLock<'static>> + Print + Eprint + Clock,
    R: Threads + Wait,
    R: Net<Listener = TcpListener, Stream = TcpStream> + Copy + Drop + Send + Sync + 'static,
{
    match words_of(&rt) {
        Ok(words) => run_texts(rt, words.as_slice()),
        Err(error) if error.kind() == ErrorKind::InvalidData => report_no_text(&rt),
        Err(error) => Err(error),
    }
}

fn main(rt: HostRuntime) -> ExitCode {
    let opened = open_placeholders(&rt);
    let status = match run(rt) {
        Ok(status) => status,
        Err(error) => report_failure(&rt, error.kind(), NO_MEMORY),
    };
    drop(opened);
    ExitCode::from(status)
}
