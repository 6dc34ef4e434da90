//! `Mini`, a mini-transaction whose type enforces its limits. A `Command` can hold one.
ghost use Rattle.std.specs.Prelude.{◌≡◌, ◌≤◌, length, map};
ghost use Rattle.std.specs.List.{list_any};
ghost use Rattle.craq_names.specs.Limits.{item_limit};
ghost use Rattle.craq_names.specs.declared.name.ObjectId.{ObjectId};
ghost use Rattle.craq_commands.specs.Evaluation.{chain_of_first, objects_named};
ghost use Rattle.craq_commands.specs.Transaction.{IsWithinLimits, mini_of, same_object, stands_twice, has_doubles};

use crate::Command;
use craq_names::{ChainId, Copied, Items, ObjectId, Refusal, Same, Value, Version};
use std::alloc::{AllocError, Global};
use std::marker::Model;

/// A mini-transaction: compares, reads and writes that happen atomically, in one chain.
///
/// Each list has at most 16 items and names no object twice, and not all three are empty.
/// Mini-transactions are from the USENIX ATC 2009 paper; the limits are this project's profile.
#[derive(Debug, Drop)]
pub struct Mini {
    compares: Items<(ObjectId, Version)>,
    reads: Items<ObjectId>,
    writes: Items<(ObjectId, Value)>,
}

impl Model for Mini {
    ghost use Rattle.craq_commands.specs.Transaction.{Transaction, IsWithinLimits};

    ghost Value = { Transaction };

    ghost view = { λ m. record { compares = m.compares; reads = m.reads; writes = m.writes } };

    ghost invariant = { λ m. IsWithinLimits (record { compares = m.compares; reads = m.reads; writes = m.writes }) };
}

/// An item of a list of a transaction.
pub(crate) trait Named {
    ghost object_named: { Self → ObjectId };

    /// Returns the object that the item names.
    fn object(&self) -> &ObjectId
        ensures { result.now ≡ object_named self.now };
}

impl Named for ObjectId {
    ghost object_named = { λ o. o };

    fn object(&self) -> &ObjectId {
        self
    }
}

impl<T> Named for (ObjectId, T) {
    ghost object_named = { λ item. item.0 };

    fn object(&self) -> &ObjectId {
        &self.0
    }
}

/// Returns true exactly if one of the items names the object.
fn is_among<T: Named>(object: &ObjectId, items: &[T]) -> bool
    ensures { result ≡ list_any (same_object object.now) (map T.object_named items.now) }
{
    for item in items {
        let named = item.object();
        if object.chain == named.chain && object.key == named.key {
            return true;
        }
    }
    false
}

/// Returns true exactly if two of the items name the same object.
fn has_double<T: Named>(items: &[T]) -> bool
    ensures { result ≡ stands_twice (map T.object_named items.now) }
{
    for i in 0..items.len() {
        if is_among(items[i].object(), &items[i + 1..]) {
            return true;
        }
    }
    false
}

/// Returns true exactly if two items of one list name the same object.
fn has_doubles(
    compares: &[(ObjectId, Version)],
    reads: &[ObjectId],
    writes: &[(ObjectId, Value)],
) -> bool
    ensures { result ≡ has_doubles (record { compares = compares.now; reads = reads.now; writes = writes.now }) }
{
    has_double(compares) || has_double(reads) || has_double(writes)
}

impl Mini {
    /// The maximum number of items of each list.
    pub const MOST_ITEMS: usize = 16;

    /// Makes a transaction that writes if each object of `compares` has the given version, and then
    /// returns the objects of `reads` as they were before.
    ///
    /// The first error that applies is returned: `TooManyItems` if a list has more than 16 items,
    /// `EmptyTransaction` if all three are empty, `DuplicateKey` if an object occurs twice in one
    /// list (it may occur in several).
    #[tactic(auto, using(crate::proofs::Doubles::distinct_unless_twice))]
    pub fn new(
        compares: Items<(ObjectId, Version)>,
        reads: Items<ObjectId>,
        writes: Items<(ObjectId, Value)>,
    ) -> Result<Self, Refusal>
        ensures { result ≡ mini_of (record { compares = compares; reads = reads; writes = writes }) }
    {
        let longest = compares.len().max(reads.len()).max(writes.len());
        if longest > Mini::MOST_ITEMS {
            return Err(Refusal::TooManyItems);
        }
        if longest == 0 {
            return Err(Refusal::EmptyTransaction);
        }
        if has_doubles(compares.as_slice(), reads.as_slice(), writes.as_slice()) {
            return Err(Refusal::DuplicateKey);
        }
        Ok(Mini {
            compares,
            reads,
            writes,
        })
    }

    /// States that each transaction is within the limits that `new` tests. Does nothing.
    pub fn keeps_limits(&self)
        ensures { IsWithinLimits self.now }
    {
        let _ = &self.compares;
    }

    /// Returns the chain of the first object: of the compares, else of the reads, else of the
    /// writes.
    pub fn chain(&self) -> ChainId
        ensures { result ≡ chain_of_first (objects_named (Command.Mini self.now)) }
    {
        if let Some(compare) = self.compares().first() {
            return compare.0.chain;
        }
        if let Some(object) = self.reads().first() {
            return object.chain;
        }
        match self.writes().first() {
            Some(write) => write.0.chain,
            None => ChainId::new(0),
        }
    }

    /// Returns the objects to compare, each with the version that it must have, in order.
    pub fn compares(&self) -> &[(ObjectId, Version)]
        ensures value { result.now ≡ self.now.compares }
        ensures few { length result.now ≤ item_limit }
    {
        self.compares.as_slice()
    }

    /// Returns the objects to read, in order.
    pub fn reads(&self) -> &[ObjectId]
        ensures value { result.now ≡ self.now.reads }
        ensures few { length result.now ≤ item_limit }
    {
        self.reads.as_slice()
    }

    /// Returns the objects to write, each with its new value, in order.
    pub fn writes(&self) -> &[(ObjectId, Value)]
        ensures value { result.now ≡ self.now.writes }
        ensures few { length result.now ≤ item_limit }
    {
        self.writes.as_slice()
    }
}

impl Copied for Mini {
    fn copied(&self, alloc: Global) -> Result<Self, AllocError> {
        Ok(Mini {
            compares: self.compares.copied(alloc)?,
            reads: self.reads.copied(alloc)?,
            writes: self.writes.copied(alloc)?,
        })
    }
}

impl Same for Mini {
    fn is_same(&self, other: &Self) -> bool {
        self.compares.is_same(&other.compares)
            && self.reads.is_same(&other.reads)
            && self.writes.is_same(&other.writes)
    }
}
