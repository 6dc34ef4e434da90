//! The shared parts of the programs: reading their words, and reporting wrong words or a failed
//! output; for the mains of the programs.
ghost use Rattle.std.specs.Prelude.{◌≡◌, ◌⊎◌, IfOk};

use clap::Error;
use clap::error::ErrorKind as ClapKind;
use std::env::Env;
use std::io::ErrorKind;
use std::{env, io};

/// The status where the output takes no text.
pub const CANNOT_PRINT: u8 = 1;

/// The status after bad words, and after input of which nothing can be made.
pub const BAD_INPUT: u8 = 2;

/// The status of `craqd` and `craq_lab` where a growth was refused.
pub const NO_MEMORY: u8 = 3;

/// Returns the words of the command line, the program's own among them.
///
/// Fails with kind `InvalidData` if a word is not UTF-8, and with kind `OutOfMemory` when out of
/// memory.
pub fn words_of<R: AllocGlobal + Env>(rt: &R) -> io::Result<Vec<String>> {
    let mut words = Vec::new(rt.alloc());
    for word in env::args(rt)? {
        words.push(word)?;
    }
    Ok(words)
}

/// Prints that a word of the command line is not UTF-8. Returns the status, `BAD_INPUT`.
pub fn report_no_text<R: Eprint>(rt: &R) -> io::Result<u8>
    ensures { IfOk result (λ status. status ≡ BAD_INPUT) }
{
    eprintln!(rt; "error: a word of the command line is not UTF-8")?;
    Ok(BAD_INPUT)
}

/// Prints that the process is out of memory. Returns this status.
pub fn report_memory<R: Eprint>(rt: &R, no_memory: u8) -> io::Result<u8>
    ensures { IfOk result (λ status. status ≡ no_memory) }
{
    eprintln!(rt; "no memory")?;
    Ok(no_memory)
}

/// Prints what is wrong with the command line, or the help that it asks for. Returns the status: 0
/// after a help, `no_memory` where a growth was refused, else `BAD_INPUT`.
pub fn report_words<R: Print + Eprint>(rt: &R, error: &Error, no_memory: u8) -> io::Result<u8>
    ensures { IfOk result (λ status. (status ≡ 0) ⊎ (status ≡ no_memory) ⊎ (status ≡ BAD_INPUT)) }
{
    if error.kind() == ClapKind::OutOfMemory {
        return report_memory(rt, no_memory);
    }
    error.print(rt)?;
    Ok(if error.use_stderr() { BAD_INPUT } else { 0 })
}

/// Prints why nothing more is printed: out of memory, or the output takes no text. Returns the
/// status: `no_memory` or `CANNOT_PRINT`.
pub fn report_failure<R: Eprint>(rt: &R, kind: ErrorKind, no_memory: u8) -> u8
    ensures { (result ≡ no_memory) ⊎ (result ≡ CANNOT_PRINT) }
{
    if kind == ErrorKind::OutOfMemory {
        let _ = eprintln!(rt; "no memory");
        return no_memory;
    }
    let _ = eprintln!(rt; "cannot print");
    CANNOT_PRINT
}
