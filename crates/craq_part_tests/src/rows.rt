//! Tests whole connections by their table; run by `main`.
use crate::door::Answers;
use crate::fakes::{Pieces, Room};
use crate::worked::{
    FIRST_MANY, MANY, NINE_MESSAGES, NO_MESSAGE, PUT, SECOND_PUT, TOO_LONG, WRITTEN,
};
use craq_front::{Counted, Stream, serve};
use craq_names::Refusal;
use std::alloc::Global;
use std::io;

/// A connection to serve.
#[derive(Clone, Copy)]
pub(crate) struct Row<'a> {
    /// The bytes that the client sends.
    pub(crate) sent: &'a [u8],
    /// The largest number of them that arrive at once.
    pub(crate) size: usize,
    /// The number of the read that fails; 0 if none does.
    pub(crate) fails_at: u64,
    /// The number of bytes that the client accepts.
    pub(crate) room: usize,
}

/// The outcome of serving a connection.
#[derive(Debug, Drop)]
pub(crate) struct RowResult {
    pub(crate) answer: Result<u64, Refusal>,
    pub(crate) written: Vec<u8>,
    pub(crate) writes: u64,
    pub(crate) asked: u64,
    pub(crate) faults: u64,
}

/// Serves the connection.
pub(crate) fn serve_row(alloc: Global, row: &Row<'_>) -> RowResult {
    let mut reader = Stream::new(Pieces {
        rest: row.sent,
        size: row.size,
        reads: 0,
        fails_at: row.fails_at,
    });
    let mut writer = Stream::new(Room {
        held: Vec::new(alloc),
        room: row.room,
        writes: 0,
    });
    let mut door = Answers { alloc, asked: 0 };
    let answer = serve(alloc, &mut reader, &mut writer, &mut door);
    let faults = reader.faults().saturating_add(writer.faults());
    let room = writer.into_inner();
    RowResult {
        answer,
        written: room.held,
        writes: room.writes,
        asked: door.asked,
        faults,
    }
}

/// Prints the outcome for a client that sends these bytes at once and accepts all replies.
fn print_row<R>(rt: &R, name: &str, sent: &[u8]) -> io::Result<()>
where
    R: AllocGlobal + Print,
{
    let row = Row {
        sent,
        size: 8192,
        fails_at: 0,
        room: 1_000_000,
    };
    let served = serve_row(rt.alloc(), &row);
    println!(rt; "{name}: {served:?}")
}

/// Prints the outcome for a client that sends two frames, one after the other.
fn print_both<R>(rt: &R, name: &str, first: &[u8], second: &[u8]) -> io::Result<()>
where
    R: AllocGlobal + Print,
{
    let mut sent = Vec::new(rt.alloc());
    sent.extend_from_slice(first)?;
    sent.extend_from_slice(second)?;
    print_row(rt, name, sent.as_slice())
}

/// Prints the outcomes of whole connections.
pub(crate) fn run<R: AllocGlobal + Print>(rt: &R) -> io::Result<()> {
    print_row(rt, "nothing", &[])?;
    print_row(rt, "a put", &PUT)?;
    print_row(rt, "a put cut short", &PUT[..41])?;
    print_both(rt, "an empty frame and a put", &[0, 0, 0, 0], &PUT)?;
    print_row(rt, "a length above the limit", &TOO_LONG)?;
    print_both(rt, "a put and a length above the limit", &PUT, &TOO_LONG)?;
    print_both(rt, "two puts", &PUT, &PUT)?;
    print_row(rt, "a put of version 2", &SECOND_PUT)?;
    print_row(rt, "a put and a read in one payload", &MANY)?;
    print_both(
        rt,
        "several messages in version 1, and a put",
        &FIRST_MANY,
        &PUT,
    )?;
    print_both(rt, "no message and nine", &NO_MESSAGE, &NINE_MESSAGES)?;
    print_row(rt, "a reply instead of a message", &WRITTEN)
}
