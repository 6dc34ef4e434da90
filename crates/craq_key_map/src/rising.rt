//! `Rising`: the keys of a map with their items, ascending. `map` returns it.
ghost use Rattle.std.specs.Prelude.{◌≡◌};
ghost use Rattle.std.specs.Iterator.{YieldsFirstBy, item_count};
ghost use Rattle.craq_key_map.specs.Mapped.{entries_of};
ghost use Rattle.craq_key_map.specs.Rising.{lent_pair};

use crate::KeyMap;
use craq_names::Key;
use std::marker::Model;

/// The keys of a map with their items, ascending.
///
/// Allocates nothing: each call of `next` scans the map for the least key above the last one. So it
/// is for maps of few keys, and where memory may be short.
#[derive(Drop)]
pub struct Rising<'a, T> {
    map: &'a KeyMap<T>,
    last: Option<&'a Key>,
}

impl<'a, T> Model for Rising<'a, T> {
    ghost use Rattle.std.specs.Prelude.{ℕ, List};
    ghost use Rattle.std.specs.Option.{option_copied};
    ghost use Rattle.craq_key_map.specs.Mapped.{entries_of};
    ghost use Rattle.craq_key_map.specs.Rising.{entries_above};

    ghost Value = { List (List ℕ × T) };

    ghost view = { λ r. entries_above (option_copied r.last) (entries_of r.map.now) };
}

impl<'a, T: Drop> Rising<'a, T> {
    /// Makes the iterator over the entries of a map.
    pub(crate) fn of(map: &'a KeyMap<T>) -> Self
        ensures { result ≡ entries_of map.now }
    {
        Rising { map, last: None }
    }
}

impl<'a, T: Drop> Iterator for Rising<'a, T> {
    type Item = (&'a Key, &'a T);

    ghost next_gives = { YieldsFirstBy lent_pair (λ s. s) };

    ghost remaining = { item_count (λ s. s) };

    fn next(&mut self) -> Option<(&'a Key, &'a T)> {
        let next = self.map.least_above(self.last);
        if let Some((key, _)) = next {
            self.last = Some(key);
        }
        next
    }
}
