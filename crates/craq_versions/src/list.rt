//! The versions of one object. A table has one such list for each key.
ghost use Rattle.std.specs.Prelude.{◌≡◌, ◌≢◌, ◌+◌, ◌-◌, ◌<◌, ◌≤◌, [], ◌∷◌, ◌++◌, ◌==◌, if◌then◌else◌, max, drop, false, length, map, slice_index_or, IfOk, IsOk, OnOk, OnErr, IsTrue, ◌↔◌};
ghost use Rattle.std.specs.Option.{option_copied, option_map};
ghost use Rattle.craq_names.specs.Maps.{at_number};
ghost use Rattle.craq_versions.specs.Versions.{clean_without, first_of, newest_of, newest_or_none, newest_within, versions_from, versions_settled, without_newest, AreVersions, CanPush, CanSettle, CanSettleAs};

use crate::kept::KeptItems;
use craq_names::{Value, Version};
use std::alloc::{AllocError, Global};
use std::marker::Model;

/// A node's versions of one object, each with a held item such as its value. They are consecutive
/// and ascending. At most one is clean, the first; the others are dirty (clean and dirty versions
/// as in the USENIX ATC 2009 paper).
#[derive(Drop)]
pub struct VersionList<V> {
    first: u64,
    has_clean: bool,
    items: KeptItems<V>,
}

impl<V> Model for VersionList<V> {
    ghost use Rattle.std.specs.Prelude.{if◌then◌else◌};
    ghost use Rattle.craq_versions.specs.Versions.{Versions, numbered, IsStored};

    ghost Value = { Versions V };

    ghost view = { λ l. record {
      versions = numbered l.first l.items.items;
      clean = (if l.has_clean then l.first else 0);
      room = l.items.room;
    } };

    ghost invariant = { λ l. IsStored l.first l.has_clean l.items.items };
}

impl<V: Drop> VersionList<V> {
    /// Returns the empty list. Allocates nothing.
    pub fn new(alloc: Global) -> Self
        ensures versions { result.versions ≡ [] }
        ensures clean { result.clean ≡ 0 }
    {
        VersionList {
            first: 1,
            has_clean: false,
            items: KeptItems::new(alloc),
        }
    }

    /// Returns the empty list with room for this many versions, whose `push` then allocates
    /// nothing. Fails only when out of memory.
    pub fn with_room(alloc: Global, room: usize) -> Result<Self, AllocError>
        ensures versions { IfOk result (λ list. list.versions ≡ []) }
        ensures clean { IfOk result (λ list. list.clean ≡ 0) }
        ensures room { IfOk result (λ list. room ≤ list.room) }
    {
        Ok(VersionList {
            first: 1,
            has_clean: false,
            items: KeptItems::with_room(alloc, room)?,
        })
    }

    /// Returns a list of one clean version with its held item. Allocates nothing.
    pub fn of_clean(alloc: Global, version: Version, held: V) -> Self
        requires { 1 ≤ version }
        ensures versions { result.versions ≡ (version, held) ∷ [] }
        ensures clean { result.clean ≡ version }
    {
        VersionList {
            first: version.get(),
            has_clean: true,
            items: KeptItems::of_one(alloc, held),
        }
    }

    /// Returns true exactly if there are no versions.
    pub fn is_empty(&self) -> bool
        ensures { IsTrue result ↔ (self.now.versions ≡ []) }
    {
        self.items.len() == 0
    }

    /// Returns the newest version with its held item, `None` if there is none. Allocates nothing.
    pub fn last(&self) -> Option<(Version, &V)>
        ensures { option_map (λ found. (found.0, found.1.now)) result ≡ newest_of self.now.versions }
    {
        let count = self.items.len();
        if count == 0 {
            return None;
        }
        match self.items.get(count - 1) {
            None => None,
            Some(held) => Some((Version::new(self.first + (count as u64 - 1)), held)),
        }
    }

    /// Returns the oldest version with its held item, `None` if there is none. Allocates nothing.
    pub fn oldest(&self) -> Option<(Version, &V)>
        ensures { option_map (λ found. (found.0, found.1.now)) result ≡ first_of self.now.versions }
    {
        match self.items.get(0) {
            None => None,
            Some(held) => Some((Version::new(self.first), held)),
        }
    }

    /// Returns the number of versions. Allocates nothing.
    pub fn len(&self) -> usize
        ensures { result ≡ length self.now.versions }
    {
        self.items.len()
    }

    /// Returns the held item at an index, from 0, oldest version first. Allocates nothing.
    pub fn held(&self, index: usize) -> &V
        requires { index < length self.now.versions }
        ensures { result.now ≡ slice_index_or (map (λ v. v.1) self.now.versions) index result.now }
    {
        self.items.at(index)
    }

    /// Returns the clean version, 0 if none is clean. Allocates nothing.
    pub fn clean(&self) -> Version
        ensures clean { result ≡ self.now.clean }
        ensures versions { AreVersions self.now.versions self.now.clean }
    {
        Version::new(if self.has_clean { self.first } else { 0 })
    }

    /// Returns the item held for a version, `None` if the version is not in the list. Allocates
    /// nothing.
    pub fn get(&self, version: Version) -> Option<&V>
        ensures { option_copied result ≡ at_number self.now.versions version }
    {
        let version = version.get();
        if version < self.first {
            return None;
        }
        self.items.get((version - self.first) as usize)
    }

    /// Returns the newest version at most `bound`, with its held item. Allocates nothing.
    pub fn at_most(&self, bound: Version) -> Option<(Version, &V)>
        ensures { option_map (λ found. (found.0, found.1.now)) result ≡ newest_within self.now.versions bound }
    {
        let bound = bound.get();
        let count = self.items.len() as u64;
        if bound < self.first {
            return None;
        }
        if count == 0 {
            return None;
        }
        let index = (bound - self.first).min(count - 1);
        match self.items.get(index as usize) {
            None => None,
            Some(held) => Some((Version::new(self.first + index), held)),
        }
    }

    /// Reserves room for this many more versions, whose `push` then allocates nothing. Fails only
    /// when out of memory; the versions are unchanged in either case.
    pub fn reserve(&mut self, additional: usize) -> Result<(), AllocError>
        ensures versions { self.new.versions ≡ self.old.versions }
        ensures clean { self.new.clean ≡ self.old.clean }
        ensures ok { OnOk result (additional ≤ self.new.room) }
        ensures room { self.old.room ≤ self.new.room }
        ensures succeeds { additional ≤ self.old.room → IsOk result }
    {
        self.items.reserve(additional)
    }

    /// Appends the next version with its held item. Fails only when out of memory, and only if no
    /// room is reserved; the versions are unchanged on error.
    pub fn push(&mut self, version: Version, held: V) -> Result<(), AllocError>
        requires { CanPush self.old.versions version }
        ensures ok { OnOk result (self.new.versions ≡ self.old.versions ++ (version, held) ∷ []) }
        ensures err { OnErr result (self.new.versions ≡ self.old.versions) }
        ensures clean { self.new.clean ≡ self.old.clean }
        ensures were_versions { AreVersions self.old.versions self.old.clean }
        ensures room { self.old.room ≤ self.new.room + 1 }
        ensures succeeds { 0 < self.old.room → IsOk result }
    {
        let version = version.get();
        self.items.reserve(1)?;
        self.first = first_with(self.items.len(), self.first, version);
        self.items.push_reserved(held);
        Ok(())
    }

    /// Makes this version the clean one and drops all older versions. Does nothing if it, or a
    /// newer version, is clean already. Allocates nothing.
    pub fn settle(&mut self, version: Version)
        requires { CanSettle self.old.versions self.old.clean version }
        ensures versions { self.new.versions ≡ versions_from self.old.versions version }
        ensures clean { self.new.clean ≡ max self.old.clean version }
        ensures some { self.new.versions ≢ [] }
        ensures room { self.old.room ≤ self.new.room }
    {
        let version = version.get();
        if version < self.first {
            return;
        }
        self.items.remove_first((version - self.first) as usize);
        self.first = version;
        self.has_clean = true;
    }

    /// Makes this version the clean one with this held item, and drops all older versions. The
    /// version is in the list or follows the newest. Allocates nothing.
    pub fn settle_as(&mut self, version: Version, held: V)
        requires { CanSettleAs self.old.versions version }
        ensures versions { self.new.versions ≡ versions_settled self.old.versions version held }
        ensures clean { self.new.clean ≡ version }
        ensures were_versions { AreVersions self.old.versions self.old.clean }
    {
        let settled = version.get();
        let last = self.items.len() - 1;
        let index = ((settled - self.first) as usize).min(last);
        self.items.replace_first(index, held);
        self.first = settled;
        self.has_clean = true;
    }

    /// Removes the newest version, if there is one. No version is clean once none is left.
    /// Allocates nothing.
    pub fn pop(&mut self)
        ensures versions { self.new.versions ≡ without_newest self.old.versions }
        ensures clean { self.new.clean ≡ clean_without self.old.versions self.old.clean }
        ensures were_versions { AreVersions self.old.versions self.old.clean }
        ensures are_versions { AreVersions self.new.versions self.new.clean }
        ensures room { self.old.room ≤ self.new.room }
    {
        self.items.pop();
        self.has_clean = still_clean(self.items.len(), self.has_clean);
    }
}

// The first version after a push to a list of `count` versions.
fn first_with(count: usize, first: u64, pushed: u64) -> u64
    ensures { result ≡ (if count == 0 then pushed else first) }
{
    if count == 0 { pushed } else { first }
}

// The clean flag of a list with `count` versions left.
fn still_clean(count: usize, has_clean: bool) -> bool
    ensures { result ≡ (if count == 0 then false else has_clean) }
{
    if count == 0 { false } else { has_clean }
}

impl VersionList<Value> {
    /// Returns the newest version and its value, version 0 and no bytes on an empty list. Allocates
    /// nothing.
    pub fn newest(&self) -> (Version, &[u8])
        ensures { (result.0, result.1.now) ≡ newest_or_none self.now.versions }
    {
        match self.last() {
            None => (Version::new(0), &[]),
            Some((version, value)) => (version, value.as_slice()),
        }
    }
}
