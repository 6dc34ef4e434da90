//! `State`: the objects and the kept replies after a list of updates. Messages to a joining node
//! hold it.
use crate::Window;
use craq_names::{ClientId, Copied, Items, Key, Same, Value, Version};
use std::alloc::{AllocError, Global};

/// The objects with their versions and values, sorted by key, and the replies kept for clients,
/// sorted by client.
#[derive(Debug, Drop)]
pub struct State {
    pub objects: Items<(Key, (Version, Value))>,
    pub kept: Items<(ClientId, Window)>,
}

impl State {
    ghost use Rattle.std.specs.Prelude.{◌≡◌};
    ghost use Rattle.craq_commands.specs.SingleCopy.{opening_state};

    /// Returns the empty state: no objects and no kept replies. Allocates nothing.
    pub fn new(alloc: Global) -> Self
        ensures { result ≡ opening_state }
    {
        State {
            objects: Items::new(alloc),
            kept: Items::new(alloc),
        }
    }
}

impl Copied for State {
    fn copied(&self, alloc: Global) -> Result<Self, AllocError> {
        Ok(State {
            objects: self.objects.copied(alloc)?,
            kept: self.kept.copied(alloc)?,
        })
    }
}

impl Same for State {
    fn is_same(&self, other: &Self) -> bool {
        self.objects.is_same(&other.objects) && self.kept.is_same(&other.kept)
    }
}
