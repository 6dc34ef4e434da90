//! `Socket`: the stream of a connection, as `Connection` sees it.
ghost use Rattle.std.specs.Prelude.{◌≡◌, ◌≢◌, ◌<◌, ◌≤◌, ℕ, List, Option, None, Some, IfErr, IfOk, length, take, ⊤};
ghost use Rattle.std.specs.Io.KnownBytes.{Appends, Consumes};
ghost use Rattle.std.specs.IoError.{error_kind};
ghost use Rattle.craq_event_loop.specs.Sockets.{moved_count, moved_of_count, moved_of_error};

use crate::traffic::ClientStream;
use mio::Registry;
use mio::unix::SourceFd;
use std::io;
use std::io::{ErrorKind, Read, Write};
use std::os::fd::AsRawFd;

/// The outcome of a read or a write of a socket.
#[derive(Debug, Clone, Copy, PartialEq, Eq)]
pub(crate) enum Moved {
    /// This many bytes were moved, at least 1.
    Bytes(usize),
    /// No byte was moved, and none will be before readiness is reported.
    NotReady,
    /// No byte was moved, and it may be tried again at once.
    Interrupted,
    /// No byte was moved, and none will be: the stream is at its end, or has failed.
    Over,
}

/// A stream whose reads and writes do not wait for one another.
pub(crate) trait Socket {
    /// The bytes that reads will give from here on, where they are known.
    ghost remaining: { Self → Option (List ℕ) };

    /// The bytes that it took, where they are known.
    ghost contents: { Self → Option (List ℕ) };

    /// It gives and takes no more bytes.
    ghost is_over: { Self → Type 0 };

    /// A read gives no byte before more have come.
    ghost is_dry: { Self → Type 0 };

    /// A write takes no byte before there is room again.
    ghost is_full: { Self → Type 0 };

    /// Reads once into the front of the buffer. Returns how many bytes came.
    fn take(&mut self, buffer: &mut [u8]) -> Moved
        ensures few { moved_count result ≤ length buffer.new }
        ensures gave { Consumes (remaining self.old) (remaining self.new) (take (moved_count result) buffer.new) }
        ensures over { result ≡ Moved.Over → is_over self.new }
        ensures some { result ≢ Moved.Bytes 0 }
        ensures not_ready { result ≡ Moved.NotReady → is_dry self.new }
        ensures short { (n : ℕ) → result ≡ Moved.Bytes n → n < length buffer.new → is_dry self.new }
        ensures contents { contents self.new ≡ contents self.old };

    /// Writes the front of the bytes. Returns how many were taken.
    fn put(&mut self, bytes: &[u8]) -> Moved
        ensures few { moved_count result ≤ length bytes.now }
        ensures took { Appends (contents self.old) (contents self.new) (take (moved_count result) bytes.now) }
        ensures over { result ≡ Moved.Over → is_over self.new }
        ensures some { result ≢ Moved.Bytes 0 }
        ensures not_ready { result ≡ Moved.NotReady → is_full self.new }
        ensures remaining { remaining self.new ≡ remaining self.old };

    /// Ends the reports of its readiness.
    fn leave(&self, registry: &Registry);
}

/// Returns the outcome of a read or write of the system, which gave an error or a number of bytes.
/// 0 bytes are the end.
fn moved_by(gone: io::Result<usize>) -> Moved
    ensures went { IfOk gone (λ n. (result ≡ moved_of_count n) × (moved_count result ≡ n)) }
    ensures none { IfErr gone (λ e. (result ≡ moved_of_error (error_kind e)) × (moved_count result ≡ 0)) }
    ensures some { result ≢ Moved.Bytes 0 }
{
    match gone {
        Ok(0) => Moved::Over,
        Ok(count) => Moved::Bytes(count),
        Err(error) => match error.kind() {
            ErrorKind::WouldBlock => Moved::NotReady,
            ErrorKind::Interrupted => Moved::Interrupted,
            _ => Moved::Over,
        },
    }
}

impl Socket for ClientStream {
    ghost remaining = { λ _. None };

    ghost contents = { λ _. None };

    ghost is_over = { λ _. ⊤ };

    ghost is_dry = { λ _. ⊤ };

    ghost is_full = { λ _. ⊤ };

    fn take(&mut self, buffer: &mut [u8]) -> Moved {
        let moved = moved_by((&*self.stream).read(buffer));
        if let Moved::Bytes(count) = moved {
            self.traffic.add_read(count);
        }
        moved
    }

    fn put(&mut self, bytes: &[u8]) -> Moved {
        let moved = moved_by((&*self.stream).write(bytes));
        if let Moved::Bytes(count) = moved {
            self.traffic.add_written(count);
        }
        moved
    }

    fn leave(&self, registry: &Registry) {
        let _ = registry.deregister(&mut SourceFd(&self.stream.as_raw_fd()));
    }
}
