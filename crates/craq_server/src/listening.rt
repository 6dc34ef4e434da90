//! One try to accept a connection of a listener that does not block, and a bounded wait before it;
//! called by `accepting`, and by `craqd` for its second listener.
ghost use Rattle.std.specs.Prelude.{◌↔◌, IsTrue};
ghost use Rattle.craq_server.specs.Listening.{Lasts};

use libc::net;
use libc::types::pollfd;
use std::io;
use std::io::ErrorKind;
use std::net::{TcpListener, TcpStream};
use std::os::fd::AsRawFd;

/// The longest wait for a connection, in milliseconds: a server that is to end looks so often.
const WAIT_MILLISECONDS: i32 = 100;

/// `EOPNOTSUPP` of Linux: the socket takes no connections.
const EOPNOTSUPP: i32 = 95;

/// The outcome of a try to accept a connection.
#[derive(Drop)]
pub enum Attempt {
    /// A connection.
    Connection(TcpStream),
    /// No connection has come yet.
    NoneYet,
    /// An error that may pass, as no free descriptor or an aborted connection.
    Transient,
    /// An error that lasts: the listener gives no connection any more.
    Failed,
}

/// Waits until the listener has a connection or an error to give, for at most 100 milliseconds.
/// Returns false where the system refused to wait.
pub fn wait_for_connection(listener: &TcpListener) -> bool {
    let mut polled = [pollfd {
        fd: listener.as_raw_fd(),
        events: net::POLLIN,
        revents: 0,
    }];
    net::poll(&mut polled, WAIT_MILLISECONDS) >= 0
}

/// Returns whether this error number of `accept` lasts: `EBADF`, `EINVAL` (a listener that was shut
/// down), `ENOTSOCK` and `EOPNOTSUPP` do. accept(2) lists the others as errors of one connection or
/// of what the system has just now.
fn lasts(code: i32) -> bool
    ensures { IsTrue result ↔ Lasts code }
{
    code == libc::EBADF || code == libc::EINVAL || code == libc::ENOTSOCK || code == EOPNOTSUPP
}

/// Returns what an error of `accept` means for the listener.
fn attempt_of_error(error: io::Error) -> Attempt {
    if error.kind() == ErrorKind::WouldBlock {
        return Attempt::NoneYet;
    }
    match error.raw_os_error() {
        Some(code) if lasts(code) => Attempt::Failed,
        _ => Attempt::Transient,
    }
}

/// Tries once to accept a connection of a listener that does not block.
pub fn try_accept(listener: &TcpListener) -> Attempt {
    match listener.accept() {
        Ok((stream, _)) => Attempt::Connection(stream),
        Err(error) => attempt_of_error(error),
    }
}
