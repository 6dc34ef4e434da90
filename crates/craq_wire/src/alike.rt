//! Tests of lists: equal items, ascending keys; used by `rules`.
ghost use Rattle.std.specs.Prelude.{◌≡◌, Bool, nat_eq};
ghost use Rattle.std.specs.List.{list_any};
ghost use Rattle.craq_wire.specs.Tests.{is_rising, same_key, stands_twice};

use craq_commands::Write;
use craq_names::NodeId;
use std::cmp::Ordering;

/// Items of which no two equal ones may occur in one list.
pub(crate) trait Alike {
    ghost same: { Self → Self → Bool };

    /// Returns true if the two items count as equal.
    fn is_same(&self, other: &Self) -> bool
        ensures { result ≡ same self.now other.now };
}

impl Alike for NodeId {
    ghost same = { nat_eq };

    fn is_same(&self, other: &Self) -> bool {
        *self == *other
    }
}

impl Alike for Write {
    ghost same = { same_key };

    fn is_same(&self, other: &Self) -> bool {
        self.key == other.key
    }
}

/// Returns true if one of the items equals this one.
fn is_among<T: Alike>(item: &T, items: &[T]) -> bool
    ensures { result ≡ list_any (T.same item.now) items.now }
{
    for other in items {
        if item.is_same(other) {
            return true;
        }
    }
    false
}

/// Returns true if two of the items are equal.
pub(crate) fn has_twice<T: Alike>(items: &[T]) -> bool
    ensures { result ≡ stands_twice T.same items.now }
{
    for i in 0..items.len() {
        if is_among(&items[i], &items[i + 1..]) {
            return true;
        }
    }
    false
}

/// Returns true if the keys are strictly ascending.
pub(crate) fn rises<K: Ord, V>(entries: &[(K, V)]) -> bool
    ensures { result ≡ is_rising K.cmp entries.now }
{
    let mut rest = entries;
    while let [first, tail @ ..] = rest {
        if let [second, ..] = tail {
            match first.0.cmp(&second.0) {
                Ordering::Less => {}
                _ => return false,
            }
        }
        rest = tail;
    }
    true
}
