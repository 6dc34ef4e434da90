//! The version lists by key. A compacting past holds one such table.
ghost use Rattle.std.specs.Prelude.{◌≡◌, ℕ, ◌+◌, ◌<◌, ◌≤◌, List, [], map, Some, IfNone, IfOk, IfSome, IsOk, IsSome, OnOk, OnErr, if◌then◌else◌};
ghost use Rattle.std.specs.Option.{option_map};
ghost use Rattle.std.specs.List.{AllByRecursion};
ghost use Rattle.std.specs.List.Sorted.{IsStrictlySortedBy};
ghost use Rattle.craq_names.specs.Maps.{at_key, key_cmp, put_key, same_bytes};
ghost use Rattle.craq_key_map.specs.Mapped.{AreEntries};
ghost use Rattle.craq_versions.specs.Versions.{AreVersions, CanPush, CanSettle, CanSettleAs};
ghost use Rattle.craq_versions.specs.Tables.{held_at, held_in, key_at, only_clean, popped, room_at, pushed, settled, settled_as, shown, HasNoList, KeepsRoom, KeepsOthersRoom};

use crate::lists::{
    Lists, place, pop_in, push_in, put_clean_in, reserve_in, settle_as_at_in, settle_as_in,
    settle_in,
};
use crate::{Keys, Objects, VersionList};
use craq_key_map::KeyMap;
use craq_names::{Key, Version};
use std::alloc::{AllocError, Global};
use std::marker::Model;

/// A node's versions of the objects of a chain, by key, each version with a held item. A key for
/// which only room was reserved has an empty list, which no call returns. Where 2^32 - 1 keys have
/// lists, one more counts as out of memory.
#[derive(Drop)]
pub struct ObjectTable<V> {
    lists: Lists<V>,
    alloc: Global,
}

impl<V> Model for ObjectTable<V> {
    ghost use Rattle.craq_versions.specs.Tables.{Table, table_in};

    ghost Value = { Table V };

    ghost view = { λ t. table_in t.lists };
}

impl<V: Drop> ObjectTable<V> {
    /// Returns the empty table. Allocates nothing.
    pub fn new(alloc: Global) -> Self
        ensures { result.objects ≡ [] }
    {
        ObjectTable {
            lists: KeyMap::new(alloc),
            alloc,
        }
    }

    /// Reserves room for one more version of the key, whose `push` then allocates nothing. Fails
    /// only when out of memory; the versions are unchanged in either case.
    pub fn reserve_key(&mut self, key: &Key) -> Result<(), AllocError>
        ensures objects { self.new.objects ≡ self.old.objects }
        ensures room { KeepsRoom self.old self.new }
        ensures ok { OnOk result (0 < room_at self.new key.now) }
        ensures succeeds { 0 < room_at self.old key.now → IsOk result }
    {
        place(self.alloc, &mut self.lists, key)?;
        reserve_in(self.alloc, &mut self.lists, key)
    }

    /// Appends the next version of the key with its held item. Looks the key up once. Fails only
    /// when out of memory, and only if no room is reserved; the versions are unchanged on error.
    pub fn push(&mut self, key: &Key, version: Version, held: V) -> Result<(), AllocError>
        requires { CanPush (held_at self.old key.now).versions version }
        ensures ok { OnOk result (self.new.objects ≡ put_key self.old.objects key.now (pushed (held_at self.old key.now) version held)) }
        ensures err { OnErr result (self.new.objects ≡ self.old.objects) }
        ensures room { room_at self.old key.now ≤ room_at self.new key.now + 1 }
        ensures rooms { KeepsOthersRoom self.old self.new key.now }
        ensures succeeds { 0 < room_at self.old key.now → IsOk result }
    {
        push_in(self.alloc, &mut self.lists, key, version, held)
    }

    /// Inserts one clean version of the key with its held item, replacing the key's versions. Looks
    /// the key up once. Fails only when out of memory; the versions are unchanged on error.
    pub fn put_clean(&mut self, key: Key, version: Version, held: V) -> Result<(), AllocError>
        requires { 1 ≤ version }
        ensures ok { OnOk result (self.new.objects ≡ put_key self.old.objects key (only_clean version held)) }
        ensures err { OnErr result (self.new.objects ≡ self.old.objects) }
        ensures rooms { KeepsOthersRoom self.old self.new key }
    {
        put_clean_in(self.alloc, &mut self.lists, key, version, held)
    }

    /// Removes the newest version of the key, if there is one. No version of the key is clean once
    /// none is left. Allocates nothing.
    pub fn pop(&mut self, key: &Key)
        ensures held { (q : List ℕ) → held_at self.new q ≡ (if same_bytes key.now q then popped (held_at self.old q) else held_at self.old q) }
        ensures rising { IsStrictlySortedBy key_cmp (map (λ o. o.0) self.new.objects) }
        ensures room { KeepsRoom self.old self.new }
    {
        pop_in(self.alloc, &mut self.lists, key);
    }

    /// Reserves room for one more version of each of these keys, whose next `push` then allocates
    /// nothing. Fails only when out of memory; the versions are unchanged in either case.
    pub fn reserve(&mut self, keys: &[Key]) -> Result<(), AllocError>
        ensures objects { self.new.objects ≡ self.old.objects }
        ensures room { KeepsRoom self.old self.new }
        ensures ok { OnOk result (AllByRecursion (λ key. 0 < room_at self.new key) keys.now) }
        ensures succeeds { AllByRecursion (λ key. 0 < room_at self.old key) keys.now → IsOk result }
    {
        for key in keys {
            self.reserve_key(key)?;
        }
        Ok(())
    }

    /// Makes this version of the key the clean one and drops the key's older versions. Does nothing
    /// if it, or a newer version, is clean already. Allocates nothing.
    pub fn settle(&mut self, key: &Key, version: Version)
        requires { CanSettle (held_at self.old key.now).versions (held_at self.old key.now).clean version }
        ensures objects { self.new.objects ≡ put_key self.old.objects key.now (settled (held_at self.old key.now) version) }
        ensures room { KeepsRoom self.old self.new }
    {
        settle_in(self.alloc, &mut self.lists, key, version);
    }

    /// Makes this version of the key the clean one with this held item, and drops the key's older
    /// versions. The version is in the key's list or follows its newest. Allocates nothing.
    pub fn settle_as(&mut self, key: &Key, version: Version, held: V)
        requires { CanSettleAs (held_at self.old key.now).versions version }
        ensures objects { self.new.objects ≡ put_key self.old.objects key.now (settled_as (held_at self.old key.now) version held) }
        ensures were_versions { AreVersions (held_at self.old key.now).versions (held_at self.old key.now).clean }
        ensures rooms { KeepsOthersRoom self.old self.new key.now }
    {
        settle_as_in(self.alloc, &mut self.lists, key, version, held);
    }

    /// Returns the place of the key's list, `None` if the key has neither versions nor reserved
    /// room. Allocates nothing.
    pub fn place_of(&self, key: &Key) -> Option<usize>
        ensures none { IfNone result (HasNoList self.now key.now) }
        ensures some { IfSome result (λ place. key_at self.now place ≡ Some key.now) }
    {
        self.lists.find(key)
    }

    /// Lends the versions of the key at a place; the list is empty if the key only has reserved
    /// room. Allocates nothing.
    pub fn at(&self, place: usize) -> &VersionList<V>
        requires { IsSome (key_at self.now place) }
        ensures { (key : List ℕ) → key_at self.now place ≡ Some key → shown result.now ≡ at_key self.now.objects key }
    {
        self.lists.at(place)
    }

    /// Makes this version of the key at a place the clean one with this held item, and drops the
    /// key's older versions. The version is in the key's list or follows its newest. The key keeps
    /// its place. Allocates nothing.
    pub fn settle_as_at(&mut self, place: usize, version: Version, held: V)
        requires placed { IsSome (key_at self.old place) }
        requires next { (key : List ℕ) → key_at self.old place ≡ Some key → CanSettleAs (held_at self.old key).versions version }
        ensures objects { (key : List ℕ) → key_at self.old place ≡ Some key → self.new.objects ≡ put_key self.old.objects key (settled_as (held_at self.old key) version held) }
        ensures were_versions { (key : List ℕ) → key_at self.old place ≡ Some key → AreVersions (held_at self.old key).versions (held_at self.old key).clean }
        ensures rooms { (key : List ℕ) → key_at self.old place ≡ Some key → KeepsOthersRoom self.old self.new key }
        ensures place { key_at self.new place ≡ key_at self.old place }
    {
        settle_as_at_in(self.alloc, &mut self.lists, place, version, held);
    }

    /// Returns the versions of a key, `None` if it has none. Allocates nothing.
    pub fn list(&self, key: &Key) -> Option<&VersionList<V>>
        ensures { option_map (λ list. held_in list.now) result ≡ at_key self.now.objects key.now }
    {
        match self.lists.get(key) {
            None => None,
            Some(list) => { if list.is_empty() { None } else { Some(list) } }
        }
    }

    /// Iterates over the keys that have versions, in the order in which they came, each with its
    /// versions. Allocates nothing.
    pub fn iter(&self) -> Objects<'_, V>
        ensures objects { AreEntries result self.now.objects }
        ensures rising { IsStrictlySortedBy key_cmp (map (λ o. o.0) self.now.objects) }
    {
        Objects::of(self.lists.iter())
    }

    /// Iterates over the keys that have versions, ascending. Allocates nothing, and scans the table
    /// for each key.
    pub fn keys(&self) -> Keys<'_, V>
        ensures keys { result ≡ map (λ o. o.0) self.now.objects }
        ensures rising { IsStrictlySortedBy key_cmp result }
    {
        Keys::of(self.lists.rising())
    }
}
