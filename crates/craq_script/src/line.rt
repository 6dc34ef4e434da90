//! Defines `ScriptLine`, a parsed line of a script; made by `reading`, and played by `craq_play` and
//! `craq_schedules`.
use craq_commands::ReadMode;
use craq_names::{ChainId, ClientId, Items, NodeId, Version};

/// An object as a script names it: the key is one or more ASCII letters, digits, `_` and `-`. It
/// may be longer than `Key` allows; the line is refused when played.
#[derive(Debug, Drop)]
pub struct ScriptObject {
    pub chain: ChainId,
    pub key: Items<u8>,
}

/// An item of a `mini` line.
#[derive(Debug, Drop)]
pub enum MiniItem {
    /// `c:OBJECT:VERSION`: the object must have the version.
    Compare {
        object: ScriptObject,
        version: Version,
    },
    /// `r:OBJECT`: the object is read.
    Read {
        object: ScriptObject,
    },
    /// `w:OBJECT:VALUE`: the object gets the value.
    Write {
        object: ScriptObject,
        value: Items<u8>,
    },
}

/// The change that an update makes. A value may be longer than `Value` allows. A transaction may
/// have too many items, none, or an object twice. Such a line parses and is refused when played.
#[derive(Debug, Drop)]
pub enum ScriptCommand {
    /// `put`: the object gets the value.
    Put {
        object: ScriptObject,
        value: Items<u8>,
    },
    /// `tas`: the object gets the value if it has the version.
    TestAndSet {
        object: ScriptObject,
        expect: Version,
        value: Items<u8>,
    },
    /// `append`: the value is added at the end of the object's value.
    Append {
        object: ScriptObject,
        value: Items<u8>,
    },
    /// `prepend`: the value is added at the front of the object's value.
    Prepend {
        object: ScriptObject,
        value: Items<u8>,
    },
    /// `inc`: adds to the object's number.
    Increment {
        object: ScriptObject,
        by: u64,
    },
    /// `dec`: subtracts from the object's number.
    Decrement {
        object: ScriptObject,
        by: u64,
    },
    /// `mini`: a transaction of these items, in the order of the line.
    Mini {
        items: Items<MiniItem>,
    },
}

/// An update that a script's line requests from a node. The request number may be 0; the line is
/// then refused when played.
#[derive(Debug, Drop)]
pub struct UpdateLine {
    pub node: NodeId,
    pub client: ClientId,
    pub number: u64,
    pub change: ScriptCommand,
}

/// A line of a script.
#[derive(Debug, Drop)]
pub enum ScriptLine {
    /// A client requests an update from the node.
    Update {
        update: UpdateLine,
    },
    /// A client requests a read of the object from the node.
    Read {
        node: NodeId,
        mode: ReadMode,
        object: ScriptObject,
    },
    /// The message of this number arrives.
    Deliver {
        message: u64,
    },
    /// The node resends what it has to send; node 0 is the master.
    Tick {
        node: NodeId,
    },
    /// The node stops and never runs again.
    Stop {
        node: NodeId,
    },
    /// The master removes the node.
    Remove {
        node: NodeId,
    },
    /// The master adds the node.
    Join {
        node: NodeId,
    },
    /// The linearization witness of the run so far is printed.
    Explain,
}
