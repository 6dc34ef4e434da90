//! Tests a client's exchange over memory: the reply, bytes that are no reply, each cut; run by
//! `main`.
ghost use Rattle.std.specs.Prelude.{◌≤◌};

use crate::fakes::{Duplex, Pieces, Room};
use crate::worked::{BAD_FRAME, PUT, TOO_LONG, WRITTEN};
use craq_frames::{ClientMessage, ClientReply};
use craq_front::{Counted, Stream, exchange};
use craq_names::Refusal;
use std::alloc::Global;
use std::io;

/// The outcome of an exchange.
#[derive(Debug, Drop)]
struct Exchanged {
    answer: Result<ClientReply, Refusal>,
    sent: Vec<u8>,
    faults: u64,
}

/// Sends the put over a connection on which the bytes `came` arrive. The read number `fails_at`
/// fails (0: none), and at most `room` bytes can be written.
fn ask(alloc: Global, came: &[u8], fails_at: u64, room: usize) -> Result<Exchanged, Refusal> {
    let put = ClientMessage::decode(alloc, &PUT[4..])?;
    let mut stream = Stream::new(Duplex {
        input: Pieces {
            rest: came,
            size: 5,
            reads: 0,
            fails_at,
        },
        output: Room {
            held: Vec::new(alloc),
            room,
            writes: 0,
        },
    });
    let answer = exchange(alloc, &mut stream, &put);
    let faults = stream.faults();
    let duplex = stream.into_inner();
    Ok(Exchanged {
        answer,
        sent: duplex.output.held,
        faults,
    })
}

/// Returns true if the put is sent and a reply that is cut after `len` bytes ends with `Closed`.
fn is_closed_after(alloc: Global, len: usize) -> Result<bool, Refusal>
    requires { len ≤ 23 }
{
    let exchanged = ask(alloc, &WRITTEN[..len], 0, 100)?;
    let is_closed = match exchanged.answer {
        Err(Refusal::Closed) => true,
        _ => false,
    };
    Ok(is_closed && exchanged.sent.as_slice() == PUT.as_slice() && exchanged.faults == 0)
}

/// Returns true if every cut reply ends with `Closed`.
fn are_cuts_closed(alloc: Global) -> Result<bool, Refusal> {
    for len in 0..23 {
        if !is_closed_after(alloc, len)? {
            return Ok(false);
        }
    }
    Ok(true)
}

/// Prints the outcome of sending the put.
fn print_ask<R>(rt: &R, name: &str, came: &[u8], fails_at: u64, room: usize) -> io::Result<()>
where
    R: AllocGlobal + Print,
{
    let exchanged = ask(rt.alloc(), came, fails_at, room);
    println!(rt; "{name}: {exchanged:?}")
}

/// Prints the outcomes of exchanges: the reply, bytes that are no reply, and each cut.
pub(crate) fn run<R: AllocGlobal + Print>(rt: &R) -> io::Result<()> {
    print_ask(rt, "a reply", &WRITTEN, 0, 100)?;
    print_ask(rt, "a refusal", &BAD_FRAME, 0, 100)?;
    print_ask(rt, "a message instead of a reply", &PUT, 0, 100)?;
    print_ask(rt, "a long reply", &TOO_LONG, 0, 100)?;
    print_ask(rt, "a failing read", &WRITTEN, 2, 100)?;
    print_ask(rt, "a failing write", &WRITTEN, 0, 10)?;
    let cuts = are_cuts_closed(rt.alloc());
    println!(rt; "cut replies are closed: {cuts:?}")
}
