//! `KeyMap`: items by key.
ghost use Rattle.std.specs.Prelude.{◌≡◌, ◌≢◌, ◌<◌, length, ℕ, List, [], IsSome, IfNone, IfSome, IsTrue, ◌↔◌, None, OnOk, OnErr, Some, slice_get};
ghost use Rattle.std.specs.List.{Contains};
ghost use Rattle.std.specs.Option.{option_copied};
ghost use Rattle.craq_names.specs.Maps.{at_key, put_key};
ghost use Rattle.craq_key_map.specs.Mapped.{entries_of, key_of, AreDistinct};
ghost use Rattle.craq_key_map.specs.Rising.{lent_least, lent_pair, IsNext};

use crate::chunks::Chunks;
use crate::hashing::KeyHasher;
use crate::index::{Index, Slot};
use crate::least::{Lent, lesser_of};
use crate::{Entries, Rising};
use craq_names::Key;
use std::alloc::{AllocError, Global};
use std::marker::Model;

/// The average number of keys of a bucket beyond which a bucket is split.
const LOAD: usize = 8;

/// Items by key. They stand in the order in which their keys came; an index has their places, by the
/// keys' hashes.
///
/// A look-up takes constant time on average. An insertion splits at most one bucket of the index, and
/// moves no item, so none waits for the whole map to grow.
#[derive(Drop)]
pub struct KeyMap<T> {
    items: Chunks<(Key, T)>,
    count: u32,
    index: Index,
    hasher: KeyHasher,
}

impl<T> Model for KeyMap<T> {
    ghost use Rattle.craq_key_map.specs.Mapped.{Mapped, IsMapped};

    ghost Value = { Mapped T };

    ghost view = { λ m. m.items };

    ghost invariant = { λ m. IsMapped m.items m.count m.index m.hasher.fed };
}

impl<T: Drop> KeyMap<T> {
    /// Returns the empty map. Allocates nothing.
    pub fn new(alloc: Global) -> Self
        ensures { entries_of result ≡ [] }
    {
        KeyMap {
            items: Chunks::new(alloc),
            count: 0,
            index: Index::new(alloc),
            hasher: KeyHasher::new(),
        }
    }

    /// Returns the number of keys.
    pub(crate) fn len(&self) -> usize
        ensures { result ≡ length self.now }
    {
        self.count as usize
    }

    /// Lends the key and the item at a place.
    pub(crate) fn entry(&self, place: usize) -> (&Key, &T)
        requires { place < length self.now }
        ensures { slice_get self.now place ≡ Some (lent_pair result) }
    {
        let (key, item) = self.items.get(place);
        (key, item)
    }

    /// Returns true exactly if a key is at a place.
    fn has(&self, place: u32, key: &Key) -> bool
        ensures { IsTrue result ↔ (key_of self.now place ≡ Some key.now) }
    {
        place < self.count && self.items.get(place as usize).0.cmp(key).is_eq()
    }

    /// Returns the place of a key, if it is among these of the key's hash.
    fn find_among(&self, slots: &[Slot], hash: u32, key: &Key) -> Option<usize>
        ensures none { IfNone result ((place : ℕ) → Contains slots.now (record { hash = hash; place = place }) → key_of self.now place ≢ Some key.now) }
        ensures some { IfSome result (λ place. key_of self.now place ≡ Some key.now) }
    {
        for index in 0..slots.len() {
            let slot = slots[index];
            if slot.hash == hash && self.has(slot.place, key) {
                return Some(slot.place as usize);
            }
        }
        None
    }

    /// Returns the place of a key, `None` if it is absent. Allocates nothing.
    pub fn find(&self, key: &Key) -> Option<usize>
        ensures none { IfNone result (at_key (entries_of self.now) key.now ≡ None) }
        ensures some { IfSome result (λ place. key_of self.now place ≡ Some key.now) }
    {
        let hash = self.hasher.hash(key);
        self.find_among(self.index.slots(hash), hash, key)
    }

    /// Lends the item at a place. Allocates nothing.
    pub fn at(&self, place: usize) -> &T
        requires { IsSome (key_of self.now place) }
        ensures { (key : List ℕ) → key_of self.now place ≡ Some key → at_key (entries_of self.now) key ≡ Some result.now }
    {
        &self.items.get(place).1
    }

    /// Returns the item of a key, `None` if it is absent. Allocates nothing.
    pub fn get(&self, key: &Key) -> Option<&T>
        ensures { option_copied result ≡ at_key (entries_of self.now) key.now }
    {
        match self.find(key) {
            None => None,
            Some(place) => Some(self.at(place)),
        }
    }

    /// Replaces the item at a place, and returns the one that was there. Allocates nothing.
    pub fn replace(&mut self, place: usize, item: T) -> T
        requires { IsSome (key_of self.old place) }
        ensures old { (key : List ℕ) → key_of self.old place ≡ Some key → at_key (entries_of self.old) key ≡ Some result }
        ensures new { (key : List ℕ) → key_of self.old place ≡ Some key → entries_of self.new ≡ put_key (entries_of self.old) key item }
        ensures place { key_of self.new place ≡ key_of self.old place }
    {
        self.items.replace_second(place, item)
    }

    /// Inserts a key that is absent, with its item. Fails only when out of memory, or where there are
    /// 2^32 - 1 keys; the entries are unchanged on error.
    pub fn insert(&mut self, key: Key, item: T) -> Result<(), AllocError>
        requires { at_key (entries_of self.old) key ≡ None }
        ensures ok { OnOk result (entries_of self.new ≡ put_key (entries_of self.old) key item) }
        ensures err { OnErr result (entries_of self.new ≡ entries_of self.old) }
    {
        if self.count == u32::MAX {
            return Err(AllocError);
        }
        self.items.reserve()?;
        self.index.add(self.hasher.hash(&key), self.count)?;
        self.items.push((key, item))?;
        self.count += 1;
        self.grow();
        Ok(())
    }

    /// Splits a bucket of the index, if the buckets have many keys and there is memory.
    fn grow(&mut self)
        ensures { self.new ≡ self.old }
    {
        if self.count as usize / LOAD >= self.index.count() {
            let _refused = self.index.split();
        }
    }

    /// Returns the least key above `last` with its item, the least of all without `last`; `None` if
    /// there is none. Scans all keys. Allocates nothing.
    pub(crate) fn least_above<'a>(&'a self, last: Option<&Key>) -> Option<Lent<'a, T>>
        ensures { IsNext (entries_of self.now) (option_copied last.entry) (lent_least result) }
    {
        let mut least = None;
        for place in 0..self.count as usize {
            least = lesser_of(last, least, self.entry(place));
        }
        least
    }

    /// Iterates over the keys in the order in which they came, each with its item. Allocates nothing.
    pub fn iter(&self) -> Entries<'_, T>
        ensures entries { result ≡ self.now }
        ensures distinct { AreDistinct result }
    {
        let _count = self.count;
        Entries::of(self)
    }

    /// Iterates over the keys, ascending, each with its item. Allocates nothing, and scans the map
    /// for each key.
    pub fn rising(&self) -> Rising<'_, T>
        ensures { result ≡ entries_of self.now }
    {
        Rising::of(self)
    }
}
