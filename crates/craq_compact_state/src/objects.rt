//! Objects by key, each with its versions. `held` and `applying` call this.
ghost use Rattle.std.specs.Prelude.{◌≡◌, ◌≤◌, ℕ, List, [], T, IfOk, OnOk, length};
ghost use Rattle.std.specs.List.{AllByRecursion};
ghost use Rattle.std.specs.FinMap.Entries.{is_sorted};
ghost use Rattle.craq_names.specs.Maps.{key_cmp, put_key};
ghost use Rattle.craq_names.specs.Places.{filled};
ghost use Rattle.craq_commands.specs.Objects.{object_of};
ghost use Rattle.craq_compact_state.specs.Placed.{objects_of, later_of, shown, IsPlaced};

use crate::value_locations::{ValueLocation, settled_object, settled_of};
use craq_key_map::sort_by_key;
use craq_names::{Copied, Items, Key, Value, Version};
use craq_versions::{ObjectTable, Objects};
use std::alloc::{AllocError, Global};

/// Returns an object's settled version and value; version 0 and no bytes if it is absent. Allocates
/// nothing.
pub fn object_in<'a>(table: &'a ObjectTable<ValueLocation>, key: &Key) -> (Version, &'a [u8])
    requires { IsPlaced table.now }
    ensures object { (result.0, result.1.now) ≡ object_of (objects_of table.now) key.now }
    ensures short { length result.1.now ≤ 4096 }
{
    match table.list(key) {
        None => (Version::new(0), &[]),
        Some(list) => settled_object(list),
    }
}

/// Inserts an object of one settled version, replacing the key's versions. Fails only when out of
/// memory.
fn put_object(
    table: &mut ObjectTable<ValueLocation>,
    key: Key,
    version: Version,
    value: Value,
) -> Result<(), AllocError>
    requires placed { IsPlaced table.old }
    requires written { 1 ≤ version }
    ensures objects { OnOk result (objects_of table.new ≡ put_key (objects_of table.old) key (version, value)) }
    ensures later { OnOk result ((q : List ℕ) → later_of table.old q ≡ [] → later_of table.new q ≡ []) }
    ensures placed { OnOk result (IsPlaced table.new) }
{
    table.put_clean(key, version, ValueLocation::Settled(value))
}

/// Copies the settled objects, in the order in which they come. Fails only when out of memory.
fn copy_settled(
    alloc: Global,
    objects: Objects<'_, ValueLocation>,
) -> Result<Vec<(Key, (Version, Value))>, AllocError>
    ensures { IfOk result (λ copies. copies.items ≡ filled shown objects.entry) }
{
    let mut copies = Vec::new(alloc);
    for (key, list) in objects {
        if let Some((version, value)) = settled_of(list) {
            copies.push((key.copied(alloc)?, (version, value.copied(alloc)?)))?;
        }
    }
    Ok(copies)
}

/// Copies the objects, sorted by key. Fails only when out of memory.
///
/// Each object is visited once, in the order in which its key came. The copies are sorted, since
/// they stand close together in memory.
pub fn objects_copied(
    alloc: Global,
    table: &ObjectTable<ValueLocation>,
) -> Result<Items<(Key, (Version, Value))>, AllocError>
    ensures { IfOk result (λ objects. objects ≡ objects_of table.now) }
{
    let mut copies = copy_settled(alloc, table.iter())?;
    sort_by_key(&mut copies);
    Ok(Items::of(copies))
}

/// Moves the objects, sorted by key, into a table. Fails only when out of memory.
pub fn objects_placed(
    alloc: Global,
    objects: Items<(Key, (Version, Value))>,
) -> Result<ObjectTable<ValueLocation>, AllocError>
    requires rising { T (is_sorted key_cmp objects) }
    requires written { AllByRecursion (λ (o : List ℕ × (ℕ × List ℕ)). 1 ≤ o.1.0) objects }
    ensures objects { IfOk result (λ table. objects_of table ≡ objects) }
    ensures later { IfOk result (λ table. (q : List ℕ) → later_of table q ≡ []) }
    ensures placed { IfOk result (λ table. IsPlaced table) }
{
    let mut table = ObjectTable::new(alloc);
    for (key, (version, value)) in objects.into_vec() {
        put_object(&mut table, key, version, value)?;
    }
    Ok(table)
}
