//! `Entry`, an update with its outcome, and `Write`, a value that it gives an object. Nodes store
//! entries and forward them.
use crate::Reply;
use craq_names::{
    ClientId, Copied, Items, Key, NodeId, RequestNo, Same, Seq, Ticket, Value, Version,
};
use std::alloc::{AllocError, Global};

/// A new value of an object, with the object's new version.
#[derive(Debug, Drop)]
pub struct Write {
    pub key: Key,
    pub version: Version,
    pub value: Value,
}

impl Copied for Write {
    fn copied(&self, alloc: Global) -> Result<Self, AllocError> {
        Ok(Write {
            key: self.key.copied(alloc)?,
            version: self.version,
            value: self.value.copied(alloc)?,
        })
    }
}

impl Same for Write {
    fn is_same(&self, other: &Self) -> bool {
        self.key == other.key && self.version == other.version && self.value == other.value
    }
}

/// One update of a history with its outcome: the reply and the writes. The origin, the head's id
/// and ticket, names the request that made the entry.
#[derive(Debug, Drop)]
pub struct Entry {
    pub position: Seq,
    pub origin_node: NodeId,
    pub origin_ticket: Ticket,
    pub client: ClientId,
    pub number: RequestNo,
    pub reply: Reply,
    pub writes: Items<Write>,
}

impl Copied for Entry {
    fn copied(&self, alloc: Global) -> Result<Self, AllocError> {
        Ok(Entry {
            position: self.position,
            origin_node: self.origin_node,
            origin_ticket: self.origin_ticket,
            client: self.client,
            number: self.number,
            reply: self.reply.copied(alloc)?,
            writes: self.writes.copied(alloc)?,
        })
    }
}

impl Same for Entry {
    fn is_same(&self, other: &Self) -> bool {
        self.position == other.position
            && self.origin_node == other.origin_node
            && self.origin_ticket == other.origin_ticket
            && self.client == other.client
            && self.number == other.number
            && self.reply.is_same(&other.reply)
            && self.writes.is_same(&other.writes)
    }
}
