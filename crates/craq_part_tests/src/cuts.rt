//! Tests connections that are cut, changed or fail at each byte or call; run by `main`.
ghost use Rattle.std.specs.Prelude.{◌≤◌, length};

use crate::rows::{Row, RowResult, serve_row};
use crate::worked::{BAD_FRAME, PUT, WRITTEN};
use craq_frames::Payload;
use craq_names::Refusal;
use std::alloc::Global;
use std::io;

/// Serves a connection on which the put comes twice, one byte at a time. The read number `fails_at`
/// fails, and at most `room` bytes are written.
fn two_puts(alloc: Global, fails_at: u64, room: usize) -> io::Result<RowResult> {
    let mut sent = Vec::new(alloc);
    sent.extend_from_slice(&PUT)?;
    sent.extend_from_slice(&PUT)?;
    let row = Row {
        sent: sent.as_slice(),
        size: 1,
        fails_at,
        room,
    };
    Ok(serve_row(alloc, &row))
}

/// Returns true if the bytes are a prefix of the put's reply, written twice.
fn begins_replies(bytes: &[u8]) -> bool {
    let second = bytes.len().saturating_sub(WRITTEN.len());
    let first = bytes.len().min(WRITTEN.len());
    bytes.len() <= 2 * WRITTEN.len()
        && bytes[..first] == WRITTEN[..first]
        && bytes[first..] == WRITTEN[..second]
}

/// Returns true if a put that is cut after `len` bytes ends with `Closed`, and nothing is written.
fn is_closed_after(alloc: Global, len: usize) -> bool
    requires { len ≤ 42 }
{
    let row = Row {
        sent: &PUT[..len],
        size: 8192,
        fails_at: 0,
        room: 100,
    };
    let served = serve_row(alloc, &row);
    served.answer == Err(Refusal::Closed) && served.written.is_empty() && served.asked == 0
}

/// Returns true if every cut put ends with `Closed`.
fn are_cuts_closed(alloc: Global) -> bool {
    for len in 1..42 {
        if !is_closed_after(alloc, len) {
            return false;
        }
    }
    true
}

/// Returns true if the payload is encoded again as the same bytes; `None` if it does not decode.
fn is_written_again(alloc: Global, payload: &[u8]) -> Option<bool> {
    match Payload::decode(alloc, payload) {
        Ok(decoded) => match decoded.encode(alloc) {
            Ok(again) => Some(again.as_slice() == payload),
            Err(_) => Some(false),
        },
        Err(_) => None,
    }
}

/// Returns true if a frame reaches the request handler exactly if its payload decodes, and is
/// refused otherwise.
fn is_answered(alloc: Global, frame: &[u8]) -> bool
    requires { 4 ≤ length frame.now }
{
    let row = Row {
        sent: frame,
        size: 8192,
        fails_at: 0,
        room: 1_000_000,
    };
    let served = serve_row(alloc, &row);
    let is_refused = served.written.as_slice() == BAD_FRAME.as_slice();
    served.answer == Ok(1)
        && match is_written_again(alloc, &frame[4..]) {
            Some(is_same) => is_same && served.asked == 1 && !is_refused,
            None => served.asked == 0 && is_refused,
        }
}

/// Returns true if each put with one byte of its payload changed passes `is_answered`.
fn are_changes_answered(alloc: Global) -> bool {
    for place in 4..PUT.len() {
        for byte in 0..=255u8 {
            let mut frame = PUT;
            frame[place] = byte;
            if !is_answered(alloc, &frame) {
                return false;
            }
        }
    }
    true
}

/// Returns true if exactly `room` bytes are written for two puts when no more fit, and the failure
/// is reported.
fn is_short_write(alloc: Global, room: usize) -> io::Result<bool> {
    let served = two_puts(alloc, 0, room)?;
    Ok(
        served.answer == Err(Refusal::Io)
            && served.faults == 1
            && served.written.len() == room
            && begins_replies(served.written.as_slice()),
    )
}

/// Returns true if `is_short_write` passes for each number of bytes.
fn are_short_writes(alloc: Global) -> io::Result<bool> {
    for room in 0..46 {
        if !is_short_write(alloc, room)? {
            return Ok(false);
        }
    }
    Ok(true)
}

/// Returns true if only whole frames are answered when the read number `fails_at` fails.
fn is_failed_read(alloc: Global, fails_at: u64) -> io::Result<bool> {
    let served = two_puts(alloc, fails_at, 1_000_000)?;
    let whole = if fails_at <= 42 { 0 } else { 1 };
    Ok(
        served.answer == Err(Refusal::Io)
            && served.faults == 1
            && served.asked == whole
            && served.written.len() as u64 == 23 * whole
            && begins_replies(served.written.as_slice()),
    )
}

/// Returns true if `is_failed_read` passes for each read.
fn are_failed_reads(alloc: Global) -> io::Result<bool> {
    for fails_at in 1..85 {
        if !is_failed_read(alloc, fails_at)? {
            return Ok(false);
        }
    }
    Ok(true)
}

/// Prints the results for connections that are cut, changed or fail at each byte or call.
pub(crate) fn run<R: AllocGlobal + Print>(rt: &R) -> io::Result<()> {
    let cuts = are_cuts_closed(rt.alloc());
    println!(rt; "cut puts are closed: {cuts}")?;
    let changes = are_changes_answered(rt.alloc());
    println!(rt; "changed puts are answered: {changes}")?;
    let writes = are_short_writes(rt.alloc())?;
    println!(rt; "failing writes end the replies: {writes}")?;
    let reads = are_failed_reads(rt.alloc())?;
    println!(rt; "failing reads leave whole replies: {reads}")
}
