//! The iterators of a table: the keys that have versions, with them, or ascending without them. `table`
//! returns them.
ghost use Rattle.std.specs.Prelude.{◌≡◌, map};
ghost use Rattle.std.specs.Iterator.{YieldsFirstBy, item_count};
ghost use Rattle.craq_names.specs.Places.{filled};
ghost use Rattle.craq_versions.specs.Tables.{shown, shown_key, shown_pair};

use crate::VersionList;
use craq_key_map::{Entries, Rising};
use craq_names::Key;
use std::marker::Model;

/// The keys of a table that have versions, each with its versions, in the order in which the keys
/// came. Takes no memory.
#[derive(Drop)]
pub struct Objects<'a, V> {
    lists: Entries<'a, VersionList<V>>,
}

impl<'a, V> Model for Objects<'a, V> {
    ghost use Rattle.std.specs.Prelude.{ℕ, List};
    ghost use Rattle.craq_names.specs.Places.{filled};
    ghost use Rattle.craq_versions.specs.Tables.{Held, shown};

    ghost Value = { List (List ℕ × Held V) };

    ghost view = { λ s. filled shown s.lists };
}

impl<'a, V: Drop> Objects<'a, V> {
    /// Makes the iterator over these lists, without those that have no versions.
    pub(crate) fn of(lists: Entries<'a, VersionList<V>>) -> Self
        ensures { result ≡ filled shown lists.entry }
    {
        Objects { lists }
    }
}

impl<'a, V: Drop> Iterator for Objects<'a, V> {
    type Item = (&'a Key, &'a VersionList<V>);

    ghost next_gives = { YieldsFirstBy shown_pair (λ s. s) };

    ghost remaining = { item_count (λ s. s) };

    fn next(&mut self) -> Option<(&'a Key, &'a VersionList<V>)> {
        while let Some((key, list)) = self.lists.next() {
            if !list.is_empty() {
                return Some((key, list));
            }
        }
        None
    }
}

/// The keys of a table that have versions, ascending. Takes no memory, and scans the table for each
/// key.
#[derive(Drop)]
pub struct Keys<'a, V> {
    lists: Rising<'a, VersionList<V>>,
}

impl<'a, V> Model for Keys<'a, V> {
    ghost use Rattle.std.specs.Prelude.{ℕ, List, map};
    ghost use Rattle.craq_names.specs.Places.{filled};
    ghost use Rattle.craq_versions.specs.Tables.{shown};

    ghost Value = { List (List ℕ) };

    ghost view = { λ s. map (λ o. o.0) (filled shown s.lists) };
}

impl<'a, V: Drop> Keys<'a, V> {
    /// Makes the iterator over the keys of these lists, without those that have no versions.
    pub(crate) fn of(lists: Rising<'a, VersionList<V>>) -> Self
        ensures { result ≡ map (λ o. o.0) (filled shown lists.entry) }
    {
        Keys { lists }
    }
}

impl<'a, V: Drop> Iterator for Keys<'a, V> {
    type Item = &'a Key;

    ghost next_gives = { YieldsFirstBy shown_key (λ s. s) };

    ghost remaining = { item_count (λ s. s) };

    fn next(&mut self) -> Option<&'a Key> {
        while let Some((key, versions)) = self.lists.next() {
            if !versions.is_empty() {
                return Some(key);
            }
        }
        None
    }
}
