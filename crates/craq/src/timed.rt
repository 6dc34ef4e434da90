//! `TimedStream`: a connection whose reads and writes end at a deadline; for `link` and `positions`.
use crate::deadline::Deadline;
use std::io;
use std::io::{Error, ErrorKind, Read, Write};
use std::net::TcpStream;
use std::time::{Clock, Duration};

/// A connection whose reads and writes end at a deadline.
#[derive(Drop)]
pub struct TimedStream<'a, R> {
    rt: &'a R,
    stream: TcpStream,
    deadline: Deadline,
    /// True if a read or a write ended at the deadline.
    is_late: bool,
}

/// Returns true if a read or a write ended since its time was over.
fn is_over<T>(done: &io::Result<T>) -> bool {
    match done {
        Ok(_) => false,
        Err(error) => matches!(error.kind(), ErrorKind::WouldBlock | ErrorKind::TimedOut),
    }
}

impl<'a, R: Clock> TimedStream<'a, R> {
    /// Makes a stream over a connection.
    pub fn new(rt: &'a R, stream: TcpStream, deadline: Deadline) -> Self {
        TimedStream {
            rt,
            stream,
            deadline,
            is_late: false,
        }
    }

    /// Returns the connection, and true if a read or a write ended at the deadline.
    pub fn into_parts(self) -> (TcpStream, bool) {
        let TimedStream {
            stream,
            is_late,
            ..
        } = self;
        (stream, is_late)
    }

    /// Returns the time that the next call may take. `TimedOut` if none is left.
    fn time(&mut self) -> io::Result<Duration> {
        match self.deadline.left(self.rt) {
            Some(left) => Ok(left),
            None => {
                self.is_late = true;
                Err(Error::from(ErrorKind::TimedOut))
            }
        }
    }
}

impl<R: Clock> Read for TimedStream<'_, R> {
    fn read(&mut self, buffer: &mut [u8]) -> io::Result<usize> {
        let time = self.time()?;
        self.stream.set_read_timeout(Some(time))?;
        let read = self.stream.read(buffer);
        self.is_late = is_over(&read);
        read
    }
}

impl<R: Clock> Write for TimedStream<'_, R> {
    fn write(&mut self, bytes: &[u8]) -> io::Result<usize> {
        let time = self.time()?;
        self.stream.set_write_timeout(Some(time))?;
        let written = self.stream.write(bytes);
        self.is_late = is_over(&written);
        written
    }

    fn flush(&mut self) -> io::Result<()> {
        self.stream.flush()
    }
}
