//! `Refusal`: why a call was refused, with the number and the detail that clients receive. Nodes
//! and masters return it.
ghost use Rattle.std.specs.Prelude.{◌≡◌};
ghost use Rattle.craq_names.specs.declared.refusal.Refusal.TheVariants.{Memory};

use crate::NodeId;
use std::alloc::{AllocError, AllocFailed};
use thiserror::Error;

/// Why a call was refused. After a refusal the receiver is unchanged, unless the call's docstring
/// says otherwise.
#[derive(Clone, Copy, Debug, PartialEq, Eq, Error)]
pub enum Refusal {
    /// The key has no bytes, or more than 128.
    #[error("a key has 1 to 128 bytes")]
    BadKey,
    /// The value has more than 4,096 bytes.
    #[error("a value has at most 4096 bytes")]
    ValueTooLong,
    /// A list of the transaction has more than 16 items.
    #[error("each list of a transaction has at most 16 items")]
    TooManyItems,
    /// All three lists of the transaction are empty.
    #[error("a transaction compares, reads or writes at least one object")]
    EmptyTransaction,
    /// An object occurs twice in one list of the transaction.
    #[error("an object occurs twice in one list of the transaction")]
    DuplicateKey,
    /// The request number is 0.
    #[error("request numbers begin at 1")]
    BadNumber,
    /// There is no such chain.
    #[error("there is no such chain")]
    UnknownChain,
    /// The objects of the request are not all in the chain that it addresses.
    #[error("the objects are not all in the chain that was named")]
    TwoChains,
    /// The update reached a node that is not the head; carries the head's id.
    #[error("updates go to the head of the chain, node {0}")]
    NotHead(NodeId),
    /// The node is not ready: it joined, and does not hold the chain's history yet.
    #[error("the node does not hold the chain's history yet")]
    NotReady,
    /// The node is stopped; it refuses every request.
    #[error("the node is stopped")]
    Stopped,
    /// The request would have to wait, and 1,024 requests already wait at the node.
    #[error("1024 requests already wait at the node")]
    PendingFull,
    /// A counter is at its greatest value. From a server with a bound on passes also: the pass is
    /// too far above the largest one that it sent.
    #[error("a counter is at its greatest value, or the pass is too large")]
    Exhausted,
    /// Out of memory.
    #[error("out of memory")]
    Memory,
    /// The bytes encode no message.
    #[error("the bytes encode no message")]
    BadFrame,
    /// The frame's length is above 1,048,576 bytes.
    #[error("a frame has at most 1048576 bytes")]
    FrameTooLong,
    /// The node to remove is not a member.
    #[error("the node is not a member of the chain")]
    NotMember,
    /// The member to remove is not stopped.
    #[error("the member is not stopped")]
    NotStopped,
    /// The id to join was a member before, or is 0.
    #[error("the node id was used in this chain before")]
    UsedId,
    /// The chain to join already has 8 members.
    #[error("a chain has at most 8 members")]
    ChainFull,
    /// The node to remove is the only member.
    #[error("the only member of a chain cannot be removed")]
    LastNode,
    /// The message to deliver was not sent.
    #[error("there is no such message")]
    UnknownMessage,
    /// The chain has no such node, or the message is for another node.
    #[error("there is no such node here")]
    WrongNode,
    /// An audit was requested of a store that keeps no journals.
    #[error("the store keeps no journals")]
    JournalOff,
    /// A line of the script is outside its grammar; carries the first such line, counted from 1.
    #[error("line {0} of the script cannot be read")]
    BadScript(u64),
    /// The configuration or the list of members is not allowed.
    #[error("the plan or the list of members is not allowed")]
    BadConfig,
    /// The input ended early, or the component that would have replied is gone, as when a store
    /// closes: the update may have been done. For a receipt: it belongs to another call.
    #[error("the connection was closed")]
    Closed,
    /// Reading from or writing to the stream or the listener failed.
    #[error("reading or writing failed")]
    Io,
}

impl Refusal {
    ghost use Rattle.craq_names.specs.Refused.{refusal_number, detail_of};

    /// Returns the refusal's number, 1 to 28, in the order of the variants.
    pub fn number(self) -> u8
        ensures { result ≡ refusal_number self }
    {
        match self {
            Refusal::BadKey => 1,
            Refusal::ValueTooLong => 2,
            Refusal::TooManyItems => 3,
            Refusal::EmptyTransaction => 4,
            Refusal::DuplicateKey => 5,
            Refusal::BadNumber => 6,
            Refusal::UnknownChain => 7,
            Refusal::TwoChains => 8,
            Refusal::NotHead(_) => 9,
            Refusal::NotReady => 10,
            Refusal::Stopped => 11,
            Refusal::PendingFull => 12,
            Refusal::Exhausted => 13,
            Refusal::Memory => 14,
            Refusal::BadFrame => 15,
            Refusal::FrameTooLong => 16,
            Refusal::NotMember => 17,
            Refusal::NotStopped => 18,
            Refusal::UsedId => 19,
            Refusal::ChainFull => 20,
            Refusal::LastNode => 21,
            Refusal::UnknownMessage => 22,
            Refusal::WrongNode => 23,
            Refusal::JournalOff => 24,
            Refusal::BadScript(_) => 25,
            Refusal::BadConfig => 26,
            Refusal::Closed => 27,
            Refusal::Io => 28,
        }
    }

    /// Returns the detail sent beside the number: the head's id for `NotHead`, the line for
    /// `BadScript`, else 0.
    pub fn detail(self) -> u64
        ensures { result ≡ detail_of self }
    {
        match self {
            Refusal::NotHead(head) => u64::from(head.get()),
            Refusal::BadScript(line) => line,
            _ => 0,
        }
    }
}

impl From<AllocError> for Refusal {
    ghost from_gives = { λ _ e. e ≡ Memory };

    fn from(_e: AllocError) -> Refusal {
        Refusal::Memory
    }
}

impl<T: Drop> From<AllocFailed<T>> for Refusal {
    ghost from_gives = { λ _ e. e ≡ Memory };

    fn from(_e: AllocFailed<T>) -> Refusal {
        Refusal::Memory
    }
}
