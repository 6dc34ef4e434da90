//! Why `craq` ends without an answer once its command line was read, with the text and the status
//! of each reason; for the modules of `craq`.
use crate::link::Failure;
use craq_cli::{ADDRESS_FORM, BAD_INPUT, CANNOT_PRINT, report_memory};
use std::alloc::{AllocError, AllocFailed};
use std::io;

/// The status after a refusal, and where a growth was refused.
pub const REFUSED: u8 = 3;

/// The status where there is no connection, it broke, or no reply came in time.
pub const NO_CONNECTION: u8 = 4;

/// The hint at a server that has as many connections as it may have.
pub const MAYBE_FULL: &str = "; a server that is full (--most) closes each connection";

/// The place in which a client's id was looked for.
#[derive(Clone, Copy, Debug, PartialEq, Eq)]
pub enum IdSource {
    /// The variable `CRAQ_CLIENT`.
    Variable,
    /// The file in the folder `$XDG_STATE_HOME`.
    StateFolder,
    /// The file in the folder `~/.local/state`.
    Home,
}

/// Reasons for no answer.
#[derive(Clone, Copy, Debug)]
pub enum Fault {
    /// A growth was refused.
    Memory,
    /// There is no connection, it broke, or no reply came in time.
    Connection,
    /// The server closed each connection for 20 seconds.
    Closed,
    /// The input cannot be read, or the clock gives no time.
    System,
    /// The output takes no text.
    CannotPrint(io::Error),
    /// A client's id was no number of 64 bits.
    BadId(IdSource),
    /// The variable `CRAQ_CONNECT` holds no address.
    BadAddress,
}

impl<T: Drop> From<AllocFailed<T>> for Fault {
    fn from(_error: AllocFailed<T>) -> Fault {
        Fault::Memory
    }
}

impl From<Failure> for Fault {
    fn from(failure: Failure) -> Fault {
        match failure {
            Failure::Memory => Fault::Memory,
            Failure::NoClock => Fault::System,
            _ => Fault::Connection,
        }
    }
}

impl IdSource {
    /// Returns the place, in words.
    const fn place(self) -> &'static str {
        match self {
            IdSource::Variable => "the variable CRAQ_CLIENT",
            IdSource::StateFolder => "the file $XDG_STATE_HOME/jilsdau/client",
            IdSource::Home => "the file ~/.local/state/jilsdau/client",
        }
    }
}

impl From<AllocError> for Fault {
    fn from(_error: AllocError) -> Fault {
        Fault::Memory
    }
}

impl Fault {
    /// Prints what was wrong. Returns the status.
    pub fn report<R: Eprint>(self, rt: &R) -> io::Result<u8> {
        match self {
            Fault::Memory => report_memory(rt, REFUSED),
            Fault::Connection => {
                eprintln!(rt; "connection")?;
                Ok(NO_CONNECTION)
            }
            Fault::Closed => {
                eprintln!(rt; "connection\ncraq: the connection broke{MAYBE_FULL}")?;
                Ok(NO_CONNECTION)
            }
            Fault::System => {
                eprintln!(rt; "cannot read")?;
                Ok(CANNOT_PRINT)
            }
            Fault::CannotPrint(error) => Err(error),
            Fault::BadId(source) => {
                let place = source.place();
                eprintln!(rt; "craq: {place} holds no client id, a number of 64 bits")?;
                Ok(BAD_INPUT)
            }
            Fault::BadAddress => {
                eprintln!(rt; "craq: the variable CRAQ_CONNECT holds no address: {ADDRESS_FORM}")?;
                Ok(BAD_INPUT)
            }
        }
    }
}
