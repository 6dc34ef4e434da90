//! The two buffers of a connection; for `ProtocolCodec`, and for `serve` and `exchange` of
//! `craq_front`, which fill and flush them.
ghost use Rattle.std.specs.Prelude.{◌≡◌, ◌≤◌, ◌↔◌, [], length, IsTrue};

use bytes::BytesMut;
use std::alloc::Global;

/// The bytes of unsent replies from which on they are written before more are made. This project's
/// profile.
pub(crate) const MOST_UNSENT: usize = 65_536;

/// The input and the output buffer of a connection.
#[derive(Drop)]
pub struct Buffers {
    /// The bytes that were read and not yet cut off as a frame.
    pub input: BytesMut,
    /// The bytes that are to be written.
    pub output: BytesMut,
}

impl Buffers {
    /// Makes empty buffers. Takes no memory.
    pub fn new(alloc: Global) -> Self
        ensures input { result.input.items ≡ [] }
        ensures output { result.output.items ≡ [] }
    {
        Buffers {
            input: BytesMut::new(alloc),
            output: BytesMut::new(alloc),
        }
    }

    /// Returns whether unsent bytes have to be written before more replies are made.
    pub(crate) fn is_full(&self) -> bool
        ensures { IsTrue result ↔ (MOST_UNSENT ≤ length self.now.output.items) }
    {
        self.output.len() >= MOST_UNSENT
    }
}
