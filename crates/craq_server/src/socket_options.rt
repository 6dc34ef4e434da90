//! The options of a connection's socket: how much the system holds for it, and when it is probed;
//! called by `accepting`.
ghost use Rattle.std.specs.Prelude.{◌++◌, ◌≡◌, replicate};
ghost use Rattle.std.specs.Int.{to_le_bytes, w32};

use libc::net;
use std::net::TcpStream;
use std::os::fd::AsRawFd;

/// The bytes that the system is asked to hold in each direction of a connection. Linux doubles the
/// number and counts what it needs beside the bytes. This project's profile.
const HELD_BYTES: u32 = 65_536;

/// The seconds without a byte from the peer before it is probed. This project's profile.
const PROBE_AFTER_SECONDS: u32 = 30;

/// The seconds between two probes of a silent peer. This project's profile.
const PROBE_EVERY_SECONDS: u32 = 10;

/// The number of unanswered probes after which a connection is over. This project's profile.
const MOST_PROBES: u32 = 3;

/// The bytes of an option whose value is a C `int`.
const INT_BYTES: u32 = 4;

/// Returns the value of an option as the system reads it: a C `int`, then 12 bytes that it ignores.
fn option_value(number: u32) -> [u8; 16]
    ensures { result ≡ to_le_bytes w32 number ++ replicate 12 0 }
{
    let mut value = [0u8; 16];
    value[..4].copy_from_slice(&number.to_ne_bytes());
    value
}

/// Returns the value of `SO_SNDBUF` and `SO_RCVBUF`.
fn held_bytes() -> [u8; 16]
    ensures { result ≡ to_le_bytes w32 65536 ++ replicate 12 0 }
{
    option_value(HELD_BYTES)
}

/// Bounds what the system holds for a connection, in each direction; by itself Linux lets both grow
/// to megabytes. Once it holds that much of what was written, a write waits for the client. Returns
/// whether the system takes both bounds. No contract of the kit says what the system is asked, so
/// none stands here: `./hostile` measures what it holds.
fn bound_buffers(stream: &TcpStream) -> bool {
    let (fd, level, value) = (stream.as_raw_fd(), net::SOL_SOCKET, held_bytes());
    let sends = unsafe { net::setsockopt(fd, level, net::SO_SNDBUF, &value, INT_BYTES) };
    let receives = unsafe { net::setsockopt(fd, level, net::SO_RCVBUF, &value, INT_BYTES) };
    sends == 0 && receives == 0
}

/// Has the system probe a peer that is silent for 30 seconds, every 10 seconds, and end its
/// connection after 3 probes without an answer (TCP keepalive). So a peer that vanished without a
/// word, as in a network partition, frees its place within some 60 seconds. Returns whether the
/// system takes all four options.
fn probe_silent_peer(stream: &TcpStream) -> bool {
    let (fd, tcp) = (stream.as_raw_fd(), net::IPPROTO_TCP);
    let (on, after) = (option_value(1), option_value(PROBE_AFTER_SECONDS));
    let (every, most) = (option_value(PROBE_EVERY_SECONDS), option_value(MOST_PROBES));
    let ons = unsafe { net::setsockopt(fd, net::SOL_SOCKET, net::SO_KEEPALIVE, &on, INT_BYTES) };
    let afters = unsafe { net::setsockopt(fd, tcp, net::TCP_KEEPIDLE, &after, INT_BYTES) };
    let everies = unsafe { net::setsockopt(fd, tcp, net::TCP_KEEPINTVL, &every, INT_BYTES) };
    let mosts = unsafe { net::setsockopt(fd, tcp, net::TCP_KEEPCNT, &most, INT_BYTES) };
    ons == 0 && afters == 0 && everies == 0 && mosts == 0
}

/// Sets the options of a new connection: the bounds of what the system holds for it, and keepalive.
/// Returns whether the system takes all of them.
pub(crate) fn prepare(stream: &TcpStream) -> bool {
    bound_buffers(stream) && probe_silent_peer(stream)
}
