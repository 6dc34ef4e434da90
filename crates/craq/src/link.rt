//! `ServerLink`: the connection to the server, kept from one request to the next; for `shell` and
//! `asking`.
use crate::calling::connection;
use crate::deadline::Deadline;
use crate::fault::Fault;
use crate::timed::TimedStream;
use craq_frames::{ClientMessage, ClientReply};
use craq_front::{Stream, exchange};
use craq_names::Refusal;
use std::alloc::{AllocError, AllocFailed};
use std::io::ErrorKind;
use std::net::{Net, TcpListener, TcpStream};
use std::time::Clock;

/// The reason that a request was not answered.
#[derive(Clone, Copy, Debug, PartialEq, Eq)]
pub enum Failure {
    /// Out of memory.
    Memory,
    /// The server refused it, or it would refuse it whatever it holds.
    Refused(Refusal),
    /// No connection could be made: nothing was sent.
    Unsent,
    /// The connection broke after something was sent: an update may have been done.
    Broken,
    /// No whole reply came in time: an update may have been done.
    Late,
    /// Bytes came that are no reply to this request: an update may have been done.
    NoReply,
    /// The clock gives no time.
    NoClock,
}

impl From<AllocError> for Failure {
    fn from(_error: AllocError) -> Failure {
        Failure::Memory
    }
}

impl<T: Drop> From<AllocFailed<T>> for Failure {
    fn from(_error: AllocFailed<T>) -> Failure {
        Failure::Memory
    }
}

/// A connection to the server, which is made again after a fault.
#[derive(Drop)]
pub struct ServerLink<'a> {
    /// The address of the server: a host and a port.
    address: &'a str,
    /// The connection; `None` before the first request, and after a fault.
    stream: Option<TcpStream>,
}

/// Returns true if the server has neither closed a connection nor sent anything over it.
fn is_open(stream: &TcpStream) -> bool {
    if stream.set_nonblocking(true).is_err() {
        return false;
    }
    let seen = stream.peek(&mut [0u8; 1]);
    if stream.set_nonblocking(false).is_err() {
        return false;
    }
    match seen {
        Ok(_) => false,
        Err(error) => error.kind() == ErrorKind::WouldBlock,
    }
}

impl<'a> ServerLink<'a> {
    /// Makes a link. The first request makes the connection.
    pub fn new(address: &'a str) -> Self {
        ServerLink {
            address,
            stream: None,
        }
    }

    /// Returns where the server listens.
    pub fn address(&self) -> &'a str {
        self.address
    }

    /// Asks over this connection, and keeps the connection if a reply came.
    fn ask_over<R: AllocGlobal + Clock>(
        &mut self,
        rt: &R,
        stream: TcpStream,
        message: &ClientMessage,
        deadline: Deadline,
    ) -> Result<ClientReply, Failure> {
        let mut timed = Stream::new(TimedStream::new(rt, stream, deadline));
        let exchanged = exchange(rt.alloc(), &mut timed, message);
        let (stream, is_late) = timed.into_inner().into_parts();
        match exchanged {
            Ok(reply) => {
                self.stream = Some(stream);
                Ok(reply)
            }
            Err(Refusal::Memory) => Err(Failure::Memory),
            Err(_) if is_late => Err(Failure::Late),
            Err(_) => Err(Failure::Broken),
        }
    }

    /// Returns the connection that was kept, if it is still open.
    fn kept(&mut self) -> Option<TcpStream> {
        let kept = self.stream.take()?;
        if is_open(&kept) { Some(kept) } else { None }
    }

    /// Asks a request once, and waits for its reply until the deadline. A server may have closed the
    /// connection that was kept: then a new one is made first.
    ///
    /// - `Memory` when out of memory.
    /// - `Unsent` if no connection was made, so that nothing was sent.
    /// - `Broken` if the connection broke.
    /// - `Late` if no whole reply came in time.
    ///
    /// After each of these the next request makes a new connection.
    pub fn ask<R>(
        &mut self,
        rt: &R,
        message: &ClientMessage,
        deadline: Deadline,
    ) -> Result<ClientReply, Failure>
    where
        R: AllocGlobal + Clock + Net<Listener = TcpListener, Stream = TcpStream>,
    {
        if let Some(kept) = self.kept() {
            return self.ask_over(rt, kept, message, deadline);
        }
        match connection(rt, self.address, deadline) {
            Ok(stream) => self.ask_over(rt, stream, message, deadline),
            Err(Fault::Memory) => Err(Failure::Memory),
            Err(_) => Err(Failure::Unsent),
        }
    }
}
