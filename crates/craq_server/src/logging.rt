//! `Log`: the log of a server's connections and refusals; for `accepting` and `served_store`.
use craq_names::Refusal;
use std::net::TcpStream;

/// The log of a server. A line that standard error does not take is lost. Where standard error is a
/// full pipe, the thread that logs waits until the pipe is read.
#[derive(Clone, Copy, Debug)]
pub enum Log {
    /// No log.
    Silent,
    /// A line on standard error for each connection that begins, is turned away or ends, and for
    /// each call that is refused.
    Lines,
}

/// Logs that a connection has a place, and its peer: `nowhere` if the peer has already gone.
fn tell_begun<R: Eprint>(rt: &R, slot: usize, stream: &TcpStream) {
    let _ = match stream.peer_addr() {
        Ok(peer) => eprintln!(rt; "connection {slot} from {peer}"),
        Err(_) => eprintln!(rt; "connection {slot} from nowhere"),
    };
}

/// Logs that a connection is turned away, with the number of those turned away so far.
fn tell_turned_away<R: Eprint>(rt: &R, stream: &TcpStream, count: u64) {
    let _ = match stream.peer_addr() {
        Ok(peer) => eprintln!(rt; "connection from {peer} turned away, {count} so far"),
        Err(_) => eprintln!(rt; "connection from nowhere turned away, {count} so far"),
    };
}

impl Log {
    /// Logs that a connection has a place from now on.
    pub(crate) fn begun<R: Eprint>(self, rt: &R, slot: usize, stream: &TcpStream) {
        match self {
            Log::Silent => (),
            Log::Lines => tell_begun(rt, slot, stream),
        }
    }

    /// Logs that the connection of a place is over.
    pub(crate) fn ended<R: Eprint>(self, rt: &R, slot: usize) {
        match self {
            Log::Silent => (),
            Log::Lines => {
                let _ = eprintln!(rt; "connection {slot} ended");
            }
        }
    }

    /// Logs that a connection is turned away, the `count`th one.
    pub(crate) fn turned_away<R: Eprint>(self, rt: &R, stream: &TcpStream, count: u64) {
        match self {
            Log::Silent => (),
            Log::Lines => tell_turned_away(rt, stream, count),
        }
    }

    /// Logs that a call of the connection of a place is refused.
    pub(crate) fn refused<R: Eprint>(self, rt: &R, slot: usize, refusal: Refusal) {
        match self {
            Log::Silent => (),
            Log::Lines => {
                let number = refusal.number();
                let _ = eprintln!(rt; "connection {slot}: refused {number}, {refusal}");
            }
        }
    }
}
