//! `Same`: an exact test of equality. It is defined here because types of `craq_commands` and
//! `craq_model` implement it too; `craq_audit` and `craq_seat` call it.
ghost use Rattle.std.specs.Prelude.{◌≡◌, ◌↔◌, IsTrue};

use crate::{ClientId, Items, Key, NodeId, ObjectId, Refusal, RequestNo, Value, Version};

/// A value with an exact test of equality.
///
/// In generic code `==` promises only an equivalence relation; `is_same` decides equality.
pub trait Same {
    /// Returns true exactly if the two values are equal.
    fn is_same(&self, other: &Self) -> bool
        ensures { IsTrue result ↔ (self.now ≡ other.now) };
}

impl Same for Key {
    fn is_same(&self, other: &Self) -> bool {
        self == other
    }
}

impl Same for Value {
    fn is_same(&self, other: &Self) -> bool {
        self == other
    }
}

impl Same for Version {
    fn is_same(&self, other: &Self) -> bool {
        self == other
    }
}

impl Same for NodeId {
    fn is_same(&self, other: &Self) -> bool {
        self == other
    }
}

impl Same for ClientId {
    fn is_same(&self, other: &Self) -> bool {
        self == other
    }
}

impl Same for RequestNo {
    fn is_same(&self, other: &Self) -> bool {
        self == other
    }
}

impl Same for ObjectId {
    fn is_same(&self, other: &Self) -> bool {
        self == other
    }
}

impl Same for Refusal {
    #[tactic(auto, using(crate::proofs::Refusals::known))]
    fn is_same(&self, other: &Self) -> bool {
        self.number() == other.number() && self.detail() == other.detail()
    }
}

impl<T: Same, E: Same> Same for Result<T, E> {
    fn is_same(&self, other: &Self) -> bool {
        match (self, other) {
            (Ok(mine), Ok(theirs)) => mine.is_same(theirs),
            (Err(mine), Err(theirs)) => mine.is_same(theirs),
            _ => false,
        }
    }
}

impl<A: Same, B: Same> Same for (A, B) {
    fn is_same(&self, other: &Self) -> bool {
        self.0.is_same(&other.0) && self.1.is_same(&other.1)
    }
}

impl<T: Same> Same for Items<T> {
    fn is_same(&self, other: &Self) -> bool {
        are_same(self.as_slice(), other.as_slice())
    }
}

/// Returns true exactly if the two lists are equal: the same length and the same item at each
/// index.
pub fn are_same<T: Same>(items: &[T], others: &[T]) -> bool
    ensures { IsTrue result ↔ (items.now ≡ others.now) }
{
    if items.len() != others.len() {
        return false;
    }
    for i in 0..items.len() {
        if !items[i].is_same(&others[i]) {
            return false;
        }
    }
    true
}
