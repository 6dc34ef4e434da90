//! Ends a server in order once its standard input ends, whose lines may be control lines; begun by
//! `serving`.
use crate::control_input::read_control_lines;
use crate::fault::Fault;
use crate::line_slot::LineSlot;
use craq_server::Connections;
use std::io::{ErrorKind, Input, Read, StdinLock};
use std::sync::{Arc, Wait};
use std::thread;
use std::thread::Threads;
use std::time::{Clock, Duration};

/// The milliseconds after which requests that still wait are refused once the server is to end.
const REPLY_MILLISECONDS: u64 = 4_500;

/// The milliseconds after which clients that have not taken their replies are cut.
const GRACE_MILLISECONDS: u64 = 5_000;

/// Reads standard input to its end. A failed read counts as the end.
fn read_to_end<R: Wait>(rt: &R, input: StdinLock<'static>) {
    let mut input = input;
    let mut chunk = [0u8; 64];
    for _ in rt.forever() {
        match input.read(&mut chunk) {
            Ok(n) if n > 0 => (),
            Err(error) if error.kind() == ErrorKind::Interrupted => (),
            _ => break,
        }
    }
    drop(input);
}

/// Ends a server: no connection is taken from now on, and those that are open bring no more. After
/// 4.5 seconds requests that still wait are refused, and after 5 those connections are cut that
/// have not taken their replies.
fn end_in_order<R: Clock + Wait>(rt: &R, connections: &Connections) {
    connections.end(rt);
    thread::sleep(rt, Duration::from_millis(REPLY_MILLISECONDS));
    connections.time_out(rt);
    thread::sleep(
        rt,
        Duration::from_millis(GRACE_MILLISECONDS - REPLY_MILLISECONDS),
    );
    connections.cut(rt);
}

/// Begins a thread that ends a server once standard input has ended. It is not joined: it reads for
/// as long as the program runs. Fails where there is no thread or no memory.
pub fn watch_input<R>(rt: R, connections: &Arc<Connections>) -> Result<(), Fault>
where
    R: Input<Reader = StdinLock<'static>> + Clock + Threads + Wait + Copy + Drop + Send + 'static,
{
    let theirs = Arc::try_clone(connections)?;
    let input = rt.reader();
    let begun = thread::spawn(&rt, move || {
        read_to_end(&rt, input);
        end_in_order(&rt, &theirs);
    });
    match begun {
        Ok(watching) => {
            drop(watching);
            Ok(())
        }
        Err(_) => Err(Fault::Memory),
    }
}

/// Begins a thread that hands over the control lines of standard input, and ends the server once
/// they have ended and the last one was run. It is not joined: it reads for as long as the program
/// runs. Fails where there is no thread or no memory.
pub fn watch_control<R>(
    rt: R,
    connections: &Arc<Connections>,
    slot: &Arc<LineSlot>,
) -> Result<(), Fault>
where
    R: AllocGlobal + Input<Reader = StdinLock<'static>> + Clock,
    R: Threads + Wait + Copy + Drop + Send + 'static,
{
    let theirs = Arc::try_clone(connections)?;
    let lines = Arc::try_clone(slot)?;
    let input = rt.reader();
    let begun = thread::spawn(&rt, move || {
        read_control_lines(&rt, input, &lines);
        end_in_order(&rt, &theirs);
    });
    match begun {
        Ok(watching) => {
            drop(watching);
            Ok(())
        }
        Err(_) => Err(Fault::Memory),
    }
}
