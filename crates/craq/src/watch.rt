//! `craq watch`: the status of the server, or the positions of its nodes, printed again whenever it
//! changes; called by `main`.
use crate::deadline::Deadline;
use crate::fault::Fault;
use crate::link::{Failure, ServerLink};
use crate::positions::read_positions;
use craq_frames::{ClientMessage, ClientReply};
use std::net::{Net, TcpListener, TcpStream};
use std::sync::Wait;
use std::thread;
use std::time::{Clock, Duration, Instant};

/// The milliseconds between two requests.
const PAUSE_MILLISECONDS: u64 = 200;

/// The most requests of one look: as many as the pauses between them are 20 seconds.
const MOST_REQUESTS: u32 = 100;

/// The thing that is watched.
#[derive(Clone, Copy, Debug)]
pub enum Watched<'a> {
    /// The status, asked of the server at this address.
    Status(&'a str),
    /// The positions of nodes, asked of the metrics at this address.
    Positions(&'a str),
}

/// Asks the server for its status. Returns it as a line.
fn status<R>(rt: &R, address: &str, deadline: Deadline) -> Result<String, Failure>
where
    R: AllocGlobal + Clock + Net<Listener = TcpListener, Stream = TcpStream>,
{
    match ServerLink::new(address).ask(rt, &ClientMessage::Status, deadline)? {
        ClientReply::Status(status) => {
            let status = status.as_str();
            Ok(format!(in rt.alloc(); "{status}\n")?)
        }
        _ => Err(Failure::NoReply),
    }
}

/// Asks once for what is watched, and returns its lines.
fn seen_once<R>(rt: &R, watched: Watched<'_>, deadline: Deadline) -> Result<String, Failure>
where
    R: AllocGlobal + Clock + Net<Listener = TcpListener, Stream = TcpStream>,
{
    match watched {
        Watched::Status(address) => status(rt, address, deadline),
        Watched::Positions(address) => read_positions(rt, address, deadline),
    }
}

/// Returns the lines of what is watched. Asks again for up to 20 seconds while the server closes each
/// connection, as one does that has too many.
fn seen<R>(rt: &R, watched: Watched<'_>) -> Result<String, Fault>
where
    R: AllocGlobal + Clock + Net<Listener = TcpListener, Stream = TcpStream>,
{
    let deadline = Deadline::begin(rt)?;
    for _ in 0..MOST_REQUESTS {
        match seen_once(rt, watched, deadline) {
            Err(Failure::Broken) => {}
            looked => return Ok(looked?),
        }
        if !deadline.pause(rt, Duration::from_millis(PAUSE_MILLISECONDS)) {
            break;
        }
    }
    Err(match watched {
        Watched::Status(_) => Fault::Closed,
        Watched::Positions(_) => Fault::Connection,
    })
}

/// Prints lines.
fn print_lines<R: Print>(rt: &R, lines: &str) -> Result<(), Fault> {
    match print!(rt; "{lines}") {
        Ok(()) => Ok(()),
        Err(error) => Err(Fault::CannotPrint(error)),
    }
}

/// Prints lines if they differ from the last ones.
fn print_change<R: Print>(rt: &R, last: &str, next: &str) -> Result<(), Fault> {
    if next == last {
        Ok(())
    } else {
        print_lines(rt, next)
    }
}

/// Returns whether this many seconds are over; never if there is no number.
fn is_over<R: Clock>(rt: &R, began: &Instant, seconds: Option<u64>) -> Result<bool, Fault> {
    let Some(seconds) = seconds else {
        return Ok(false);
    };
    match began.elapsed(rt) {
        Ok(elapsed) => Ok(elapsed.as_secs() >= seconds),
        Err(_) => Err(Fault::System),
    }
}

/// Prints what is watched, and prints it again whenever it changes, for this many seconds; without
/// end if there is no number.
pub fn watch<R>(rt: &R, watched: Watched<'_>, seconds: Option<u64>) -> Result<u8, Fault>
where
    R: AllocGlobal + Print + Clock + Wait + Net<Listener = TcpListener, Stream = TcpStream>,
{
    let Ok(began) = Instant::now(rt) else {
        return Err(Fault::System);
    };
    let mut last = seen(rt, watched)?;
    print_lines(rt, last.as_str())?;
    for _ in rt.forever() {
        if is_over(rt, &began, seconds)? {
            break;
        }
        thread::sleep(rt, Duration::from_millis(PAUSE_MILLISECONDS));
        let next = seen(rt, watched)?;
        print_change(rt, last.as_str(), next.as_str())?;
        last = next;
    }
    Ok(0)
}
