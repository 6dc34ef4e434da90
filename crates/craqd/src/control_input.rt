//! Reads standard input as control lines, and hands each to the thread that runs them; called by
//! `closing`.
ghost use Rattle.std.specs.Prelude.{◌≡◌, ◌≤◌, ◌++◌, ◌∷◌, [], length, None, Some, IsSome};

use crate::line_slot::{InputLine, LineSlot};
use std::alloc::Global;
use std::io::{ErrorKind, Read, StdinLock};
use std::sync::Wait;

/// The most bytes of a control line.
const MOST_BYTES: usize = 256;

/// Why a line has no text.
#[derive(Clone, Copy, Debug, PartialEq, Eq)]
enum LineFault {
    /// It has more than `MOST_BYTES`.
    TooLong,
    /// A growth was refused.
    Memory,
}

/// The bytes of a line so far.
#[derive(Drop)]
struct LineBuffer {
    bytes: Vec<u8>,
    /// `None` where all bytes of the line are held.
    fault: Option<LineFault>,
}

impl LineBuffer {
    /// Makes an empty line. Takes no memory.
    fn new(alloc: Global) -> Self
        ensures bytes { result.bytes.items ≡ [] }
        ensures fault { result.fault ≡ None }
    {
        LineBuffer {
            bytes: Vec::new(alloc),
            fault: None,
        }
    }

    /// Adds a byte to the line. The first byte that does not fit, or for which there is no memory,
    /// spoils the line.
    fn push(&mut self, byte: u8)
        ensures held { self.new.fault ≡ None → self.new.bytes.items ≡ self.old.bytes.items ++ byte ∷ [] }
        ensures fault { IsSome self.old.fault → self.new ≡ self.old }
        ensures bound { self.new.fault ≡ None → length self.new.bytes.items ≤ 256 }
    {
        if self.fault.is_some() {
            return;
        }
        if self.bytes.len() >= MOST_BYTES {
            self.fault = Some(LineFault::TooLong);
        } else if self.bytes.push(byte).is_err() {
            self.fault = Some(LineFault::Memory);
        }
    }

    /// Returns the line.
    fn finish(self) -> InputLine
        ensures text { self.fault ≡ None → result ≡ InputLine.Text self.bytes }
        ensures long { self.fault ≡ Some LineFault.TooLong → result ≡ InputLine.TooLong }
        ensures lost { self.fault ≡ Some LineFault.Memory → result ≡ InputLine.Lost }
    {
        let LineBuffer { bytes, fault } = self;
        match fault {
            None => InputLine::Text(bytes),
            Some(LineFault::TooLong) => InputLine::TooLong,
            Some(LineFault::Memory) => InputLine::Lost,
        }
    }

    /// Returns whether no byte has come.
    fn is_empty(&self) -> bool {
        self.bytes.is_empty() && self.fault.is_none()
    }
}

/// Takes bytes that were read: each end of a line hands the line over, and what is behind the last
/// one begins the next line, which is returned.
fn take_bytes<R: AllocGlobal + Wait>(
    rt: &R,
    slot: &LineSlot,
    begun: LineBuffer,
    bytes: &[u8],
) -> LineBuffer {
    let mut line = begun;
    for byte in bytes {
        if *byte == b'\n' {
            let ended = line;
            line = LineBuffer::new(rt.alloc());
            slot.put(rt, ended.finish());
        } else {
            line.push(*byte);
        }
    }
    line
}

/// Hands over each line of standard input, and waits at its end until the last one was run. A
/// failed read counts as the end.
pub fn read_control_lines<R: AllocGlobal + Wait>(
    rt: &R,
    input: StdinLock<'static>,
    slot: &LineSlot,
) {
    let mut input = input;
    let mut chunk = [0u8; 64];
    let mut line = LineBuffer::new(rt.alloc());
    for _ in rt.forever() {
        match input.read(&mut chunk) {
            Ok(n) if n > 0 && n <= chunk.len() => {
                line = take_bytes(rt, slot, line, &chunk[..n]);
            }
            Err(error) if error.kind() == ErrorKind::Interrupted => (),
            _ => break,
        }
    }
    drop(input);
    if !line.is_empty() {
        slot.put(rt, line.finish());
    }
    slot.wait_until_free(rt);
}
