//! `Author`: an author of a history's entries; `Permit`, which one entry uses up; and `Right`, which
//! exists in the proofs alone.
use std::collections::LinkedList;

/// An author: it adds entries to a history.
#[derive(Clone, Copy, Debug, PartialEq, Eq)]
pub enum Author {
    /// A node of a chain, or the chain's master as node 0.
    Node { chain: u64, node: u64 },
    /// A session of a client.
    Client(u64),
}

/// Names a permit: the client that gave it, and its number. At most one entry uses it up.
#[derive(Clone, Copy, Debug, PartialEq, Eq)]
pub struct Permit {
    pub client: u64,
    pub number: u64,
}

/// The right to add entries, and to use permits up. No value of it is made.
pub enum Right {
    Nothing,
    /// The right to the entries of this author.
    One(Author),
    /// The right to the entries of this client, and to its permits from this number on.
    Caller { client: u64, next: u64 },
    /// The right to use this permit up.
    Using(Permit),
    /// The right to the entries of each author but these nodes, and the clients below this number;
    /// and to all permits of the other clients.
    Others { used: LinkedList<Author>, next: u64 },
}
