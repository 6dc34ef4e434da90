//! `Command`, the operation of an update, and `Update`, a command with its client and request
//! number. An `Ask` holds an update.
ghost use Rattle.std.specs.Prelude.{◌≡◌};
ghost use Rattle.craq_commands.specs.Evaluation.{chain_of_first, objects_named};

use crate::Mini;
use craq_names::{ChainId, ClientId, Copied, ObjectId, RequestNo, Same, Value, Version};
use std::alloc::{AllocError, Global};

/// An operation of an update on the objects of one chain.
#[derive(Debug, Drop)]
pub enum Command {
    /// Sets the object's value.
    Put {
        object: ObjectId,
        value: Value,
    },
    /// Sets the object's value if the object has the expected version.
    TestAndSet {
        object: ObjectId,
        expect: Version,
        value: Value,
    },
    /// Appends the bytes to the object's value.
    Append {
        object: ObjectId,
        value: Value,
    },
    /// Prepends the bytes to the object's value.
    Prepend {
        object: ObjectId,
        value: Value,
    },
    /// Adds to the object's value, a big-endian number of 8 bytes.
    Increment {
        object: ObjectId,
        by: u64,
    },
    /// Subtracts from the object's value, a big-endian number of 8 bytes.
    Decrement {
        object: ObjectId,
        by: u64,
    },
    /// A mini-transaction.
    Mini(Mini),
}

impl Command {
    /// Returns the command's chain: that of its first object.
    pub fn chain(&self) -> ChainId
        ensures { result ≡ chain_of_first (objects_named self.now) }
    {
        match self {
            Command::Put { object, value: _ } => object.chain,
            Command::TestAndSet {
                object,
                expect: _,
                value: _,
            } => object.chain,
            Command::Append { object, value: _ } => object.chain,
            Command::Prepend { object, value: _ } => object.chain,
            Command::Increment { object, by: _ } => object.chain,
            Command::Decrement { object, by: _ } => object.chain,
            Command::Mini(mini) => mini.chain(),
        }
    }
}

impl Copied for Command {
    fn copied(&self, alloc: Global) -> Result<Self, AllocError> {
        Ok(match self {
            Command::Put { object, value } => Command::Put {
                object: object.copied(alloc)?,
                value: value.copied(alloc)?,
            },
            Command::TestAndSet {
                object,
                expect,
                value,
            } => Command::TestAndSet {
                object: object.copied(alloc)?,
                expect: *expect,
                value: value.copied(alloc)?,
            },
            Command::Append { object, value } => Command::Append {
                object: object.copied(alloc)?,
                value: value.copied(alloc)?,
            },
            Command::Prepend { object, value } => Command::Prepend {
                object: object.copied(alloc)?,
                value: value.copied(alloc)?,
            },
            Command::Increment { object, by } => Command::Increment {
                object: object.copied(alloc)?,
                by: *by,
            },
            Command::Decrement { object, by } => Command::Decrement {
                object: object.copied(alloc)?,
                by: *by,
            },
            Command::Mini(mini) => Command::Mini(mini.copied(alloc)?),
        })
    }
}

impl Same for Command {
    fn is_same(&self, other: &Self) -> bool {
        match (self, other) {
            (
                Command::Put { object, value },
                Command::Put {
                    object: their_object,
                    value: their_value,
                },
            )
            | (
                Command::Append { object, value },
                Command::Append {
                    object: their_object,
                    value: their_value,
                },
            )
            | (
                Command::Prepend { object, value },
                Command::Prepend {
                    object: their_object,
                    value: their_value,
                },
            ) => object == their_object && value == their_value,
            (
                Command::TestAndSet {
                    object,
                    expect,
                    value,
                },
                Command::TestAndSet {
                    object: their_object,
                    expect: their_expect,
                    value: their_value,
                },
            ) => object == their_object && expect == their_expect && value == their_value,
            (
                Command::Increment { object, by },
                Command::Increment {
                    object: their_object,
                    by: their_by,
                },
            )
            | (
                Command::Decrement { object, by },
                Command::Decrement {
                    object: their_object,
                    by: their_by,
                },
            ) => object == their_object && by == their_by,
            (Command::Mini(mine), Command::Mini(theirs)) => mine.is_same(theirs),
            _ => false,
        }
    }
}

/// A client's command and its request number, from 1. A client uses each number for only one update
/// of a chain.
#[derive(Debug, Drop)]
pub struct Update {
    pub client: ClientId,
    pub number: RequestNo,
    pub command: Command,
}

impl Copied for Update {
    fn copied(&self, alloc: Global) -> Result<Self, AllocError> {
        Ok(Update {
            client: self.client,
            number: self.number,
            command: self.command.copied(alloc)?,
        })
    }
}

impl Same for Update {
    fn is_same(&self, other: &Self) -> bool {
        self.client == other.client
            && self.number == other.number
            && self.command.is_same(&other.command)
    }
}
