//! `Source` and `Sink`, the streams of `serve` and `exchange`, and `Stream`, which makes them of
//! std's readers and writers.
ghost use Rattle.std.specs.Prelude.{◌≡◌, ℕ, ◌+◌, ◌-◌, ◌^◌, ◌<◌, ◌≤◌, List, Option, length, take, Ok, IfOk, OnErr};
ghost use Rattle.std.specs.Io.KnownBytes.{Appends, Consumes, IsAtEnd, Keeps};

use std::io::{Read, Write};

/// The error of a failed call of a stream. The stream has counted it.
#[derive(Clone, Copy, Debug, PartialEq, Eq)]
pub struct Failed;

/// A stream that counts those of its calls that failed.
pub trait Counted {
    /// The number of its calls that failed.
    ghost count: { Self → ℕ };

    /// Returns the number of its calls that failed so far.
    fn faults(&self) -> u64
        ensures { result ≡ count self.now };
}

/// A stream that bytes are read from.
pub trait Source: Counted {
    /// The bytes that reads will give from here on, where they are known.
    ghost remaining: { Self → Option (List ℕ) };

    /// Reads once into the front of the buffer and returns how many bytes came: 0 at the end of the
    /// input, or where the buffer has no room. A failed call gives no byte and raises the count of
    /// failed calls by 1; no other call changes it. The count has to be below 2^64 - 1.
    fn read(&mut self, buffer: &mut [u8]) -> Result<usize, Failed>
        requires { Self.count self.old < 2 ^ 64 - 1 }
        ensures gave { IfOk result (λ n. (n ≤ length buffer.new)
            × Consumes (remaining self.old) (remaining self.new) (take n buffer.new)
            × (Self.count self.new ≡ Self.count self.old)) }
        ensures end { result ≡ Ok 0 → 0 < length buffer.new → IsAtEnd (remaining self.new) }
        ensures failed { OnErr result (Keeps (remaining self.old) (remaining self.new)
            × (Self.count self.new ≡ Self.count self.old + 1)) };
}

/// A stream that bytes are written to.
pub trait Sink: Counted {
    /// The bytes that it took, where they are known.
    ghost contents: { Self → Option (List ℕ) };

    /// Writes the front of the bytes and returns how many were taken: at least 1 where there are
    /// any. A failed call takes no byte and raises the count of failed calls by 1; no other call
    /// changes it. The count has to be below 2^64 - 1.
    fn write(&mut self, bytes: &[u8]) -> Result<usize, Failed>
        requires { Self.count self.old < 2 ^ 64 - 1 }
        ensures took { IfOk result (λ n. (n ≤ length bytes.now) × (0 < length bytes.now → 0 < n)
            × Appends (contents self.old) (contents self.new) (take n bytes.now)
            × (Self.count self.new ≡ Self.count self.old)) }
        ensures failed { OnErr result (Keeps (contents self.old) (contents self.new)
            × (Self.count self.new ≡ Self.count self.old + 1)) };
}

/// Makes a source of any std reader and a sink of any std writer. A write that took none of some
/// bytes counts as failed.
#[derive(Drop)]
pub struct Stream<S> {
    stream: S,
    faults: u64,
}

impl<S> Stream<S> {
    /// Makes a stream over a reader or writer. No call has failed yet.
    pub fn new(stream: S) -> Self
        ensures stream { result.stream ≡ stream }
        ensures faults { result.faults ≡ 0 }
    {
        Stream { stream, faults: 0 }
    }

    /// Returns the reader or writer.
    pub fn into_inner(self) -> S
        ensures { result ≡ self.stream }
    {
        let Stream { stream, .. } = self;
        stream
    }
}

impl<S> Counted for Stream<S> {
    ghost count = { λ s. s.faults };

    fn faults(&self) -> u64 {
        self.faults
    }
}

impl<S: Read> Source for Stream<S> {
    ghost remaining = { λ s. S.remaining s.stream };

    fn read(&mut self, buffer: &mut [u8]) -> Result<usize, Failed> {
        match self.stream.read(buffer) {
            Ok(n) => Ok(n),
            Err(_) => {
                self.faults += 1;
                Err(Failed)
            }
        }
    }
}

impl<S: Write> Sink for Stream<S> {
    ghost contents = { λ s. S.contents s.stream };

    fn write(&mut self, bytes: &[u8]) -> Result<usize, Failed> {
        match self.stream.write(bytes) {
            Ok(n) if n > 0 || bytes.is_empty() => Ok(n),
            _ => {
                self.faults += 1;
                Err(Failed)
            }
        }
    }
}
