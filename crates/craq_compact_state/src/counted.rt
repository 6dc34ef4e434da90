//! `CountedTable`: objects by key, with a count of the bytes of keys and values. `held` and
//! `applying` call this.
ghost use Rattle.std.specs.Prelude.{◌≡◌, ◌+◌, ◌%◌, ◌^◌, ℕ, ◌≤◌, List, [], T, IfOk, drop, if◌then◌else◌, length};
ghost use Rattle.std.specs.List.{AllByRecursion};
ghost use Rattle.std.specs.FinMap.Entries.{is_sorted};
ghost use Rattle.craq_names.specs.Maps.{key_cmp, same_bytes};
ghost use Rattle.craq_commands.specs.Objects.{set_object};
ghost use Rattle.craq_versions.specs.Versions.{versions_settled};
ghost use Rattle.craq_compact_state.specs.declared.value_locations.ValueLocation.TheVariants.{Settled};
ghost use Rattle.craq_compact_state.specs.Bytes.{bytes_of_entries, bytes_of_object, bytes_of_objects, bytes_of_writes, Counts};
ghost use Rattle.craq_compact_state.specs.Placed.{objects_of, later_of, settled_in, versions_of, IsPlaced, SettlesNext};

use crate::objects::objects_placed;
use crate::value_locations::{ValueLocation, settled_of};
use craq_commands::{Entry, Write};
use craq_names::{Items, Key, Value, Version};
use craq_versions::{ObjectTable, VersionList};
use std::alloc::{AllocError, Global};

/// Objects by key, with a count of bytes.
#[derive(Drop)]
pub struct CountedTable {
    /// The objects, each with its versions.
    pub table: ObjectTable<ValueLocation>,
    /// The number of bytes of the settled keys and values, and of those of the entries that are not
    /// applied yet, modulo 2^64.
    pub bytes: u64,
}

/// Returns the number of bytes of a key and a value.
fn bytes_of(key: &Key, value: &Value) -> u64
    ensures { result ≡ length key.now + length value.now }
{
    key.as_slice().len() as u64 + value.as_slice().len() as u64
}

/// Returns the number of bytes of a key and its settled value; 0 if no version is settled.
fn bytes_in(key: &Key, list: &VersionList<ValueLocation>) -> u64
    ensures { result ≡ bytes_of_object key.now (settled_in list.now.versions) }
{
    match settled_of(list) {
        None => 0,
        Some((_, value)) => bytes_of(key, value),
    }
}

/// Returns the number of bytes of objects, modulo 2^64.
fn bytes_of_objects(objects: &[(Key, (Version, Value))]) -> u64
    ensures { result ≡ bytes_of_objects objects.now % 2 ^ 64 }
{
    let mut bytes = 0u64;
    for object in objects {
        bytes = bytes.wrapping_add(bytes_of(&object.0, &object.1.1));
    }
    bytes
}

/// Returns the number of bytes of writes, modulo 2^64.
fn bytes_of_writes(writes: &[Write]) -> u64
    ensures { result ≡ bytes_of_writes writes.now % 2 ^ 64 }
{
    let mut bytes = 0u64;
    for write in writes {
        bytes = bytes.wrapping_add(bytes_of(&write.key, &write.value));
    }
    bytes
}

/// Returns the number of bytes of entries, modulo 2^64.
pub fn bytes_of_entries(entries: &[Entry]) -> u64
    ensures { result ≡ bytes_of_entries entries.now % 2 ^ 64 }
{
    let mut bytes = 0u64;
    for entry in entries {
        bytes = bytes.wrapping_add(bytes_of_writes(entry.writes.as_slice()));
    }
    bytes
}

impl CountedTable {
    /// Returns the empty table. Allocates nothing.
    pub fn new(alloc: Global) -> Self
        ensures objects { result.table.objects ≡ [] }
        ensures counted { Counts result.bytes (objects_of result.table) 0 }
    {
        CountedTable {
            table: ObjectTable::new(alloc),
            bytes: 0,
        }
    }

    /// Moves the objects, sorted by key, into a table. Fails only when out of memory.
    pub fn of(alloc: Global, objects: Items<(Key, (Version, Value))>) -> Result<Self, AllocError>
        requires rising { T (is_sorted key_cmp objects) }
        requires written { AllByRecursion (λ (o : List ℕ × (ℕ × List ℕ)). 1 ≤ o.1.0) objects }
        ensures objects { IfOk result (λ c. objects_of c.table ≡ objects) }
        ensures later { IfOk result (λ c. (q : List ℕ) → later_of c.table q ≡ []) }
        ensures placed { IfOk result (λ c. IsPlaced c.table) }
        ensures counted { IfOk result (λ c. Counts c.bytes (objects_of c.table) 0) }
    {
        let bytes = bytes_of_objects(objects.as_slice());
        Ok(CountedTable {
            table: objects_placed(alloc, objects)?,
            bytes,
        })
    }

    /// Settles an object's next version: the oldest of its later ones, if there are some. The value
    /// is moved here; the one that it replaces counts no more. Looks the object up once. Allocates
    /// nothing.
    pub fn settle(&mut self, key: &Key, version: Version, value: Value)
        requires placed { IsPlaced self.old.table }
        requires next { SettlesNext (versions_of self.old.table key.now) version }
        ensures objects { objects_of self.new.table ≡ set_object (objects_of self.old.table) key.now version value }
        ensures versions { (q : List ℕ) → versions_of self.new.table q ≡ (if same_bytes key.now q then versions_settled (versions_of self.old.table key.now) version (Settled value) else versions_of self.old.table q) }
        ensures later { (q : List ℕ) → later_of self.new.table q ≡ drop (if same_bytes key.now q then 1 else 0) (later_of self.old.table q) }
        ensures placed { IsPlaced self.new.table }
        ensures counted { (more : ℕ) → Counts self.old.bytes (objects_of self.old.table) ((length key.now + length value) + more) → Counts self.new.bytes (objects_of self.new.table) more }
    {
        let Some(place) = self.table.place_of(key) else {
            return;
        };
        let replaced = bytes_in(key, self.table.at(place));
        let settled = ValueLocation::Settled(value);
        self.table.settle_as_at(place, version, settled);
        self.bytes = self.bytes.wrapping_sub(replaced);
    }
}
