//! The numbers of the store: versions, positions, epochs, ids, tickets, stamps and passes. Each has
//! its own type, so that none is mistaken for another.
ghost use Rattle.std.specs.Prelude.{◌≡◌, ◌+◌, ◌-◌, ◌^◌, ℕ, ◌≤◌, ◌↔◌, max, Err, IfOk, IfErr};

use crate::Refusal;
use std::fmt;
use std::marker::Model;

/// The number of times an object was written: 0 if it is absent.
#[derive(Clone, Copy, Debug, PartialEq, Eq, PartialOrd, Ord)]
pub struct Version {
    version: u64,
}

impl Model for Version {
    ghost Value = { ℕ };

    ghost view = { λ a. a.version };

    ghost inverse = { λ n. record { version = n } };
}

impl Version {
    /// Returns the number as a version.
    pub const fn new(version: u64) -> Self
        ensures { result ≡ version }
    {
        Version { version }
    }

    /// Returns the number.
    pub const fn get(self) -> u64
        ensures { result ≡ self }
    {
        self.version
    }
}

impl fmt::Display for Version {
    fn fmt<W: fmt::Write>(&self, f: &mut fmt::Formatter<W>) -> fmt::Result {
        let number = self.version;
        write!(f, "{number}")
    }
}

/// A position in a history, counted from 1. As a length: the number of entries of a history.
#[derive(Clone, Copy, Debug, PartialEq, Eq, PartialOrd, Ord)]
pub struct Seq {
    position: u64,
}

impl Model for Seq {
    ghost Value = { ℕ };

    ghost view = { λ a. a.position };

    ghost inverse = { λ n. record { position = n } };
}

impl Seq {
    /// Returns the number as a position.
    pub const fn new(position: u64) -> Self
        ensures { result ≡ position }
    {
        Seq { position }
    }

    /// Returns the number.
    pub const fn get(self) -> u64
        ensures { result ≡ self }
    {
        self.position
    }
}

impl fmt::Display for Seq {
    fn fmt<W: fmt::Write>(&self, f: &mut fmt::Formatter<W>) -> fmt::Result {
        let number = self.position;
        write!(f, "{number}")
    }
}

/// The number of a membership, from 1. It is 0 at a node that knows no membership yet.
#[derive(Clone, Copy, Debug, PartialEq, Eq, PartialOrd, Ord)]
pub struct Epoch {
    epoch: u64,
}

impl Model for Epoch {
    ghost Value = { ℕ };

    ghost view = { λ a. a.epoch };

    ghost inverse = { λ n. record { epoch = n } };
}

impl Epoch {
    /// Returns the number as an epoch.
    pub const fn new(epoch: u64) -> Self
        ensures { result ≡ epoch }
    {
        Epoch { epoch }
    }

    /// Returns the number.
    pub const fn get(self) -> u64
        ensures { result ≡ self }
    {
        self.epoch
    }
}

impl fmt::Display for Epoch {
    fn fmt<W: fmt::Write>(&self, f: &mut fmt::Formatter<W>) -> fmt::Result {
        let number = self.epoch;
        write!(f, "{number}")
    }
}

/// The id of a node of a chain, from 1. Id 0 is the chain's master.
#[derive(Clone, Copy, Debug, PartialEq, Eq, PartialOrd, Ord)]
pub struct NodeId {
    id: u32,
}

impl Model for NodeId {
    ghost Value = { ℕ };

    ghost view = { λ a. a.id };

    ghost inverse = { λ n. record { id = n } };
}

impl NodeId {
    /// Returns the number as a node id.
    pub const fn new(id: u32) -> Self
        ensures { result ≡ id }
    {
        NodeId { id }
    }

    /// Returns the number.
    pub const fn get(self) -> u32
        ensures { result ≡ self }
    {
        self.id
    }
}

impl fmt::Display for NodeId {
    fn fmt<W: fmt::Write>(&self, f: &mut fmt::Formatter<W>) -> fmt::Result {
        let number = self.id;
        write!(f, "{number}")
    }
}

/// The id of a chain.
#[derive(Clone, Copy, Debug, PartialEq, Eq, PartialOrd, Ord)]
pub struct ChainId {
    id: u16,
}

impl Model for ChainId {
    ghost Value = { ℕ };

    ghost view = { λ a. a.id };

    ghost inverse = { λ n. record { id = n } };
}

impl ChainId {
    /// Returns the number as a chain id.
    pub const fn new(id: u16) -> Self
        ensures { result ≡ id }
    {
        ChainId { id }
    }

    /// Returns the number.
    pub const fn get(self) -> u16
        ensures { result ≡ self }
    {
        self.id
    }
}

impl fmt::Display for ChainId {
    fn fmt<W: fmt::Write>(&self, f: &mut fmt::Formatter<W>) -> fmt::Result {
        let number = self.id;
        write!(f, "{number}")
    }
}

/// The id of a client. The store trusts it: clients are not authenticated.
#[derive(Clone, Copy, Debug, PartialEq, Eq, PartialOrd, Ord)]
pub struct ClientId {
    id: u64,
}

impl Model for ClientId {
    ghost Value = { ℕ };

    ghost view = { λ a. a.id };

    ghost inverse = { λ n. record { id = n } };
}

impl ClientId {
    /// Returns the number as a client id.
    pub const fn new(id: u64) -> Self
        ensures { result ≡ id }
    {
        ClientId { id }
    }

    /// Returns the number.
    pub const fn get(self) -> u64
        ensures { result ≡ self }
    {
        self.id
    }
}

impl fmt::Display for ClientId {
    fn fmt<W: fmt::Write>(&self, f: &mut fmt::Formatter<W>) -> fmt::Result {
        let number = self.id;
        write!(f, "{number}")
    }
}

/// The number of an accepted request at its node, from 1.
#[derive(Clone, Copy, Debug, PartialEq, Eq, PartialOrd, Ord)]
pub struct Ticket {
    ticket: u64,
}

impl Model for Ticket {
    ghost Value = { ℕ };

    ghost view = { λ a. a.ticket };

    ghost inverse = { λ n. record { ticket = n } };
}

impl Ticket {
    /// Returns the number as a ticket.
    pub const fn new(ticket: u64) -> Self
        ensures { result ≡ ticket }
    {
        Ticket { ticket }
    }

    /// Returns the number.
    pub const fn get(self) -> u64
        ensures { result ≡ self }
    {
        self.ticket
    }
}

impl fmt::Display for Ticket {
    fn fmt<W: fmt::Write>(&self, f: &mut fmt::Formatter<W>) -> fmt::Result {
        let number = self.ticket;
        write!(f, "{number}")
    }
}

/// A logical timestamp of a step. It rises from each step to every step that it may have caused.
#[derive(Clone, Copy, Debug, PartialEq, Eq, PartialOrd, Ord)]
pub struct Stamp {
    stamp: u64,
}

impl Model for Stamp {
    ghost Value = { ℕ };

    ghost view = { λ a. a.stamp };

    ghost inverse = { λ n. record { stamp = n } };
}

impl Stamp {
    /// Returns the number as a stamp.
    pub const fn new(stamp: u64) -> Self
        ensures { result ≡ stamp }
    {
        Stamp { stamp }
    }

    /// Returns the number.
    pub const fn get(self) -> u64
        ensures { result ≡ self }
    {
        self.stamp
    }
}

impl fmt::Display for Stamp {
    fn fmt<W: fmt::Write>(&self, f: &mut fmt::Formatter<W>) -> fmt::Result {
        let number = self.stamp;
        write!(f, "{number}")
    }
}

/// A request number: the number of an update among its client's updates in one chain, from 1.
#[derive(Clone, Copy, Debug, PartialEq, Eq, PartialOrd, Ord)]
pub struct RequestNo {
    number: u64,
}

impl Model for RequestNo {
    ghost Value = { ℕ };

    ghost view = { λ a. a.number };

    ghost invariant = { λ a. 1 ≤ a.number };

    ghost inverse = { λ n. record { number = n } };
}

impl RequestNo {
    /// Makes a request number. Returns `BadNumber` exactly if it is 0.
    pub fn new(number: u64) -> Result<Self, Refusal>
        ensures ok { IfOk result (λ n. n ≡ number) }
        ensures bad { (result ≡ Err Refusal.BadNumber) ↔ (number ≡ 0) }
        ensures err { IfErr result (λ e. e ≡ Refusal.BadNumber) }
    {
        if number == 0 {
            return Err(Refusal::BadNumber);
        }
        Ok(RequestNo { number })
    }

    /// Returns the number, at least 1.
    pub const fn get(self) -> u64
        ensures number { result ≡ self }
        ensures some { 1 ≤ result }
    {
        self.number
    }

    /// Returns the next request number. Returns `Exhausted` exactly if this is the greatest, 2^64 -
    /// 1.
    pub fn next(self) -> Result<Self, Refusal>
        ensures ok { IfOk result (λ n. n ≡ self + 1) }
        ensures last { (result ≡ Err Refusal.Exhausted) ↔ (self ≡ 2 ^ 64 - 1) }
        ensures err { IfErr result (λ e. e ≡ Refusal.Exhausted) }
    {
        match self.number.checked_add(1) {
            None => Err(Refusal::Exhausted),
            Some(number) => Ok(RequestNo { number }),
        }
    }
}

impl fmt::Display for RequestNo {
    fn fmt<W: fmt::Write>(&self, f: &mut fmt::Formatter<W>) -> fmt::Result {
        let number = self.number;
        write!(f, "{number}")
    }
}

/// A session token: the largest stamp that its owner has seen. A request that shows it gets nothing
/// older.
#[derive(Clone, Copy, Debug, PartialEq, Eq, PartialOrd, Ord)]
pub struct Pass {
    stamp: u64,
}

impl Model for Pass {
    ghost Value = { ℕ };

    ghost view = { λ a. a.stamp };

    ghost inverse = { λ n. record { stamp = n } };
}

impl Pass {
    /// Returns the pass of an owner that has seen nothing: stamp 0.
    pub const fn start() -> Self
        ensures { result ≡ 0 }
    {
        Pass { stamp: 0 }
    }

    /// Returns the pass of an owner that has seen the step of this stamp.
    pub const fn of(stamp: Stamp) -> Self
        ensures { result ≡ stamp }
    {
        Pass { stamp: stamp.get() }
    }

    /// Combines two passes: returns the larger.
    pub fn join(self, other: Pass) -> Self
        ensures { result ≡ max self other }
    {
        Pass {
            stamp: self.stamp.max(other.stamp),
        }
    }

    /// Returns the largest stamp seen.
    pub const fn stamp(self) -> Stamp
        ensures { result ≡ self }
    {
        Stamp::new(self.stamp)
    }
}
