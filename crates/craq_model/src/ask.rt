//! `Ask`, `Answer` and `Event`: requests, replies and the inputs of a node's step.
ghost use Rattle.std.specs.Prelude.{◌≡◌};
ghost use Rattle.craq_commands.specs.Evaluation.{chain_of_first};
ghost use Rattle.craq_model.specs.Asks.{asked_objects};

use crate::LinkMessage;
use craq_commands::{ReadMode, Reply, Update};
use craq_names::{ChainId, Copied, ObjectId, Same, Value, Version};
use std::alloc::{AllocError, Global};

/// A client's request.
#[derive(Debug, Drop)]
pub enum Ask {
    /// An update. The head accepts it.
    Update(Update),
    /// A read of an object. Any node accepts it.
    Read { mode: ReadMode, object: ObjectId },
}

impl Ask {
    /// Returns the chain that the request addresses: that of its first object.
    pub fn chain(&self) -> ChainId
        ensures { result ≡ chain_of_first (asked_objects self.now) }
    {
        match self {
            Ask::Update(update) => update.command.chain(),
            Ask::Read { mode: _, object } => object.chain,
        }
    }
}

impl Copied for Ask {
    fn copied(&self, alloc: Global) -> Result<Self, AllocError> {
        Ok(match self {
            Ask::Update(update) => Ask::Update(update.copied(alloc)?),
            Ask::Read { mode, object } => Ask::Read {
                mode: *mode,
                object: object.copied(alloc)?,
            },
        })
    }
}

impl Same for Ask {
    fn is_same(&self, other: &Self) -> bool {
        match (self, other) {
            (Ask::Update(mine), Ask::Update(theirs)) => mine.is_same(theirs),
            (
                Ask::Read { mode, object },
                Ask::Read {
                    mode: their_mode,
                    object: their_object,
                },
            ) => { mode == their_mode && object == their_object }
            _ => false,
        }
    }
}

/// A node's reply to a request.
#[derive(Debug, Drop)]
pub enum Answer {
    /// The reply to an update.
    Update(Reply),
    /// The version and value that the read found.
    Read { version: Version, value: Value },
}

impl Copied for Answer {
    fn copied(&self, alloc: Global) -> Result<Self, AllocError> {
        Ok(match self {
            Answer::Update(reply) => Answer::Update(reply.copied(alloc)?),
            Answer::Read { version, value } => Answer::Read {
                version: *version,
                value: value.copied(alloc)?,
            },
        })
    }
}

impl Same for Answer {
    fn is_same(&self, other: &Self) -> bool {
        match (self, other) {
            (Answer::Update(mine), Answer::Update(theirs)) => mine.is_same(theirs),
            (
                Answer::Read { version, value },
                Answer::Read {
                    version: their_version,
                    value: their_value,
                },
            ) => version == their_version && value == their_value,
            _ => false,
        }
    }
}

/// An input of a node's step.
#[derive(Debug, Drop)]
pub enum Event {
    /// A client's request arrives.
    Ask(Ask),
    /// A message arrives.
    Deliver(LinkMessage),
    /// The timer fires: the node resends its pending messages.
    Tick,
    /// The node stops and stays stopped.
    Stop,
}

impl Copied for Event {
    fn copied(&self, alloc: Global) -> Result<Self, AllocError> {
        Ok(match self {
            Event::Ask(ask) => Event::Ask(ask.copied(alloc)?),
            Event::Deliver(message) => Event::Deliver(message.copied(alloc)?),
            Event::Tick => Event::Tick,
            Event::Stop => Event::Stop,
        })
    }
}

impl Same for Event {
    fn is_same(&self, other: &Self) -> bool {
        match (self, other) {
            (Event::Ask(mine), Event::Ask(theirs)) => mine.is_same(theirs),
            (Event::Deliver(mine), Event::Deliver(theirs)) => mine.is_same(theirs),
            (Event::Tick, Event::Tick) | (Event::Stop, Event::Stop) => true,
            _ => false,
        }
    }
}
