//! `Traffic`: a count of the bytes of connections, and `ClientStream`, a client's stream with its
//! count; for `socket`, and for servers.
use std::net::TcpStream;
use std::sync::Arc;
use std::sync::atomic::{AtomicU64, Ordering};

/// The number of bytes that were read and written on some connections. No contract sees what an
/// atomic number holds.
#[derive(Drop)]
pub struct Traffic {
    read: AtomicU64,
    written: AtomicU64,
}

impl Traffic {
    /// Makes a count of no bytes. Takes no memory.
    pub fn new() -> Self {
        Traffic {
            read: AtomicU64::new(0),
            written: AtomicU64::new(0),
        }
    }

    /// Adds bytes that were read.
    pub fn add_read(&self, bytes: usize) {
        self.read.fetch_add(bytes as u64, Ordering::SeqCst);
    }

    /// Adds bytes that were written.
    pub fn add_written(&self, bytes: usize) {
        self.written.fetch_add(bytes as u64, Ordering::SeqCst);
    }

    /// Returns the number of bytes that were read so far.
    pub fn bytes_read(&self) -> u64 {
        self.read.load(Ordering::SeqCst)
    }

    /// Returns the number of bytes that were written so far.
    pub fn bytes_written(&self) -> u64 {
        self.written.load(Ordering::SeqCst)
    }
}

/// The stream of a client, whose bytes are counted.
#[derive(Drop)]
pub struct ClientStream {
    pub stream: Arc<TcpStream>,
    pub traffic: Arc<Traffic>,
}
