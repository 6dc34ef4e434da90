//! `Copied`: values that can be duplicated. It is defined here because types of `craq_commands`,
//! `craq_model` and `craq_runs` implement it too.
ghost use Rattle.std.specs.Prelude.{◌≡◌, IfOk};

use crate::{ClientId, Items, Key, NodeId, ObjectId, RequestNo, Value, Version};
use std::alloc::{AllocError, Global};

/// A value that can be duplicated. The copy is independent of the original: they share at most
/// immutable data.
pub trait Copied: Drop {
    /// Returns an equal value. Fails only when out of memory.
    fn copied(&self, alloc: Global) -> Result<Self, AllocError>
        ensures { IfOk result (λ c. c ≡ self.now) };
}

impl Copied for Key {
    fn copied(&self, alloc: Global) -> Result<Self, AllocError> {
        Key::copy_of(alloc, self)
    }
}

impl Copied for Value {
    fn copied(&self, _alloc: Global) -> Result<Self, AllocError> {
        Value::copy_of(self)
    }
}

impl Copied for Version {
    fn copied(&self, _alloc: Global) -> Result<Self, AllocError> {
        Ok(*self)
    }
}

impl Copied for NodeId {
    fn copied(&self, _alloc: Global) -> Result<Self, AllocError> {
        Ok(*self)
    }
}

impl Copied for ClientId {
    fn copied(&self, _alloc: Global) -> Result<Self, AllocError> {
        Ok(*self)
    }
}

impl Copied for RequestNo {
    fn copied(&self, _alloc: Global) -> Result<Self, AllocError> {
        Ok(*self)
    }
}

impl Copied for ObjectId {
    fn copied(&self, alloc: Global) -> Result<Self, AllocError> {
        Ok(ObjectId {
            chain: self.chain,
            key: self.key.copied(alloc)?,
        })
    }
}

impl<A: Copied, B: Copied> Copied for (A, B) {
    fn copied(&self, alloc: Global) -> Result<Self, AllocError> {
        Ok((self.0.copied(alloc)?, self.1.copied(alloc)?))
    }
}

impl<T: Copied> Copied for Items<T> {
    fn copied(&self, alloc: Global) -> Result<Self, AllocError> {
        Ok(Items::of(copies_of(alloc, self.as_slice())?))
    }
}

/// Copies the items, in order. Fails only when out of memory.
pub fn copies_of<T: Copied>(alloc: Global, items: &[T]) -> Result<Vec<T>, AllocError>
    ensures { IfOk result (λ copies. copies.items ≡ items.now) }
{
    let mut copies = Vec::with_capacity(alloc, items.len())?;
    for item in items {
        copies.push(item.copied(alloc)?)?;
    }
    Ok(copies)
}
