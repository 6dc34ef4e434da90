//! Provides readers and writers over memory that split, end or fail on purpose; for `rows` and
//! `exchanges`.
use std::io;
use std::io::{Read, Write};

/// A reader that returns at most `size` bytes at once, and whose read number `fails_at` (from 1)
/// fails.
#[derive(Drop)]
pub(crate) struct Pieces<'a> {
    pub(crate) rest: &'a [u8],
    pub(crate) size: usize,
    pub(crate) reads: u64,
    pub(crate) fails_at: u64,
}

impl Read for Pieces<'_> {
    fn read(&mut self, buffer: &mut [u8]) -> io::Result<usize> {
        self.reads = self.reads.saturating_add(1);
        if self.reads == self.fails_at {
            return Err(io::Error::from(io::ErrorKind::ConnectionReset));
        }
        let count = self.size.min(buffer.len());
        self.rest.read(&mut buffer[..count])
    }
}

/// A writer with room for `room` bytes, which then fails.
#[derive(Drop)]
pub(crate) struct Room {
    pub(crate) held: Vec<u8>,
    pub(crate) room: usize,
    pub(crate) writes: u64,
}

impl Write for Room {
    fn write(&mut self, bytes: &[u8]) -> io::Result<usize> {
        self.writes = self.writes.saturating_add(1);
        if self.room == 0 {
            return Err(io::Error::from(io::ErrorKind::BrokenPipe));
        }
        let count = self.room.min(bytes.len());
        self.held.extend_from_slice(&bytes[..count])?;
        self.room -= count;
        Ok(count)
    }

    fn flush(&mut self) -> io::Result<()> {
        Ok(())
    }
}

/// Both directions of a connection.
#[derive(Drop)]
pub(crate) struct Duplex<'a> {
    pub(crate) input: Pieces<'a>,
    pub(crate) output: Room,
}

impl Read for Duplex<'_> {
    fn read(&mut self, buffer: &mut [u8]) -> io::Result<usize> {
        self.input.read(buffer)
    }
}

impl Write for Duplex<'_> {
    fn write(&mut self, bytes: &[u8]) -> io::Result<usize> {
        self.output.write(bytes)
    }

    fn flush(&mut self) -> io::Result<()> {
        self.output.flush()
    }
}
