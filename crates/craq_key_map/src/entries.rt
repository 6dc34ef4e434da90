//! `Entries`: the keys of a map with their items, in the order in which they came. `map` returns it.
ghost use Rattle.std.specs.Prelude.{◌≡◌};
ghost use Rattle.std.specs.Iterator.{YieldsFirstBy, item_count};
ghost use Rattle.craq_key_map.specs.Rising.{lent_pair};

use crate::KeyMap;
use craq_names::Key;
use std::marker::Model;

/// The keys of a map with their items, in the order in which the keys came. Allocates nothing.
#[derive(Drop)]
pub struct Entries<'a, T> {
    map: &'a KeyMap<T>,
    next: usize,
}

impl<'a, T> Model for Entries<'a, T> {
    ghost use Rattle.std.specs.Prelude.{drop, ◌≤◌, length};
    ghost use Rattle.craq_key_map.specs.Mapped.{Mapped};

    ghost Value = { Mapped T };

    ghost view = { λ s. drop s.next s.map.now };

    ghost invariant = { λ s. s.next ≤ length s.map.now };
}

impl<'a, T: Drop> Entries<'a, T> {
    /// Makes the iterator over the entries of a map.
    pub(crate) fn of(map: &'a KeyMap<T>) -> Self
        ensures { result ≡ map.now }
    {
        Entries { map, next: 0 }
    }
}

impl<'a, T: Drop> Iterator for Entries<'a, T> {
    type Item = (&'a Key, &'a T);

    ghost next_gives = { YieldsFirstBy lent_pair (λ s. s) };

    ghost remaining = { item_count (λ s. s) };

    fn next(&mut self) -> Option<(&'a Key, &'a T)> {
        if self.next == self.map.len() {
            return None;
        }
        let entry = self.map.entry(self.next);
        self.next += 1;
        Some(entry)
    }
}
