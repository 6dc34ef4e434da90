//! `Config`: a membership with its epoch. The master in `craq_epochs` makes it and sends it to
//! nodes.
use craq_names::{Copied, Epoch, Items, NodeId, Same};
use std::alloc::{AllocError, Global};

/// A membership of a chain: its members, head first, and its epoch. The first has epoch 1.
#[derive(Debug, Drop)]
pub struct Config {
    pub epoch: Epoch,
    pub members: Items<NodeId>,
}

impl Copied for Config {
    fn copied(&self, alloc: Global) -> Result<Self, AllocError> {
        Ok(Config {
            epoch: self.epoch,
            members: self.members.copied(alloc)?,
        })
    }
}

impl Same for Config {
    fn is_same(&self, other: &Self) -> bool {
        self.epoch == other.epoch && self.members.is_same(&other.members)
    }
}
