//! `NodeName` and `ObjectId`: a node, or an object, together with its chain. Nodes hold the first;
//! commands and requests hold the second.
use crate::{ChainId, Key, NodeId};

/// A node of a chain.
#[derive(Clone, Copy, Debug, PartialEq, Eq, PartialOrd, Ord)]
pub struct NodeName {
    pub chain: ChainId,
    pub node: NodeId,
}

/// An object of a chain.
#[derive(Debug, Drop, PartialEq, Eq)]
pub struct ObjectId {
    pub chain: ChainId,
    pub key: Key,
}
