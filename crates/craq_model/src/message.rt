//! `LinkMessage`, a message between nodes, with its `Body`. `craq_history` makes messages, and
//! `craq_wire` encodes them.
use craq_commands::{Entry, State};
use craq_names::{ChainId, Copied, Epoch, Items, Key, NodeId, Same, Seq, Stamp, Ticket, Version};
use std::alloc::{AllocError, Global};

/// The maximum number of entries in a batch.
pub const BATCH_LIMIT: usize = 16;

/// The maximum number of items of a state in one message.
pub const PART_LIMIT: usize = 64;

/// The greatest index or count in a message.
pub const GREATEST_COUNT: usize = u32::MAX as usize;

/// One part of a state that has more items than fit in one message. A state's items are its
/// objects, sorted by key, then its kept replies, sorted by client.
#[derive(Debug, Drop)]
pub struct StatePart {
    /// The position after which the state is taken.
    pub position: Seq,
    /// The part's number, from 1.
    pub number: u32,
    /// The number of parts of the state, at least 2.
    pub count: u32,
    /// The objects and kept replies of this part.
    pub state: State,
}

impl Copied for StatePart {
    fn copied(&self, alloc: Global) -> Result<Self, AllocError> {
        Ok(StatePart {
            position: self.position,
            number: self.number,
            count: self.count,
            state: self.state.copied(alloc)?,
        })
    }
}

impl Same for StatePart {
    fn is_same(&self, other: &Self) -> bool {
        self.position == other.position
            && self.number == other.number
            && self.count == other.count
            && self.state.is_same(&other.state)
    }
}

/// The content of a message.
#[derive(Debug, Drop)]
pub enum Body {
    /// The membership of the message's epoch, head first. Only the master sends it.
    Config { members: Items<NodeId> },
    /// An entry of the sender's history.
    Entry(Entry),
    /// Consecutive entries of the sender's history: 2 to 16.
    Batch(Items<Entry>),
    /// All entries up to the position are committed.
    Ack(Seq),
    /// Asks which version of the object is committed.
    Query { ticket: Ticket, key: Key },
    /// Replies to `Query` of this ticket: the object's committed version.
    VersionIs { ticket: Ticket, version: Version },
    /// The sender is not ready and holds this many entries.
    Blank(Seq),
    /// The state after a position.
    Copy { position: Seq, state: State },
    /// A part of the state after a position.
    Part(StatePart),
    /// The sender is ready and holds this many entries.
    Floor(Seq),
}

impl Copied for Body {
    fn copied(&self, alloc: Global) -> Result<Self, AllocError> {
        Ok(match self {
            Body::Config { members } => Body::Config {
                members: members.copied(alloc)?,
            },
            Body::Entry(entry) => Body::Entry(entry.copied(alloc)?),
            Body::Batch(entries) => Body::Batch(entries.copied(alloc)?),
            Body::Ack(position) => Body::Ack(*position),
            Body::Query { ticket, key } => Body::Query {
                ticket: *ticket,
                key: key.copied(alloc)?,
            },
            Body::VersionIs { ticket, version } => Body::VersionIs {
                ticket: *ticket,
                version: *version,
            },
            Body::Blank(count) => Body::Blank(*count),
            Body::Copy { position, state } => Body::Copy {
                position: *position,
                state: state.copied(alloc)?,
            },
            Body::Part(part) => Body::Part(part.copied(alloc)?),
            Body::Floor(count) => Body::Floor(*count),
        })
    }
}

impl Same for Body {
    fn is_same(&self, other: &Self) -> bool {
        match (self, other) {
            (Body::Config { members }, Body::Config { members: theirs }) => members.is_same(theirs),
            (Body::Entry(mine), Body::Entry(theirs)) => mine.is_same(theirs),
            (Body::Ack(mine), Body::Ack(theirs))
            | (Body::Blank(mine), Body::Blank(theirs))
            | (Body::Floor(mine), Body::Floor(theirs)) => mine == theirs,
            (
                Body::Query { ticket, key },
                Body::Query {
                    ticket: their_ticket,
                    key: their_key,
                },
            ) => ticket == their_ticket && key == their_key,
            (
                Body::VersionIs { ticket, version },
                Body::VersionIs {
                    ticket: their_ticket,
                    version: their_version,
                },
            ) => ticket == their_ticket && version == their_version,
            (
                Body::Copy { position, state },
                Body::Copy {
                    position: their_position,
                    state: theirs,
                },
            ) => position == their_position && state.is_same(theirs),
            (Body::Part(mine), Body::Part(theirs)) => mine.is_same(theirs),
            (Body::Batch(mine), Body::Batch(theirs)) => mine.is_same(theirs),
            _ => false,
        }
    }
}

/// A message between nodes of a chain. Sender, stamp and index among the sends of the sender's step
/// name it. Inside a step the stamp is 1 and the index 0; both are set once the step has its stamp.
#[derive(Debug, Drop)]
pub struct LinkMessage {
    pub chain: ChainId,
    pub sender: NodeId,
    pub receiver: NodeId,
    pub stamp: Stamp,
    pub index: u32,
    pub epoch: Epoch,
    pub body: Body,
}

impl Copied for LinkMessage {
    fn copied(&self, alloc: Global) -> Result<Self, AllocError> {
        Ok(LinkMessage {
            chain: self.chain,
            sender: self.sender,
            receiver: self.receiver,
            stamp: self.stamp,
            index: self.index,
            epoch: self.epoch,
            body: self.body.copied(alloc)?,
        })
    }
}

impl Same for LinkMessage {
    fn is_same(&self, other: &Self) -> bool {
        self.chain == other.chain
            && self.sender == other.sender
            && self.receiver == other.receiver
            && self.stamp == other.stamp
            && self.index == other.index
            && self.epoch == other.epoch
            && self.body.is_same(&other.body)
    }
}
