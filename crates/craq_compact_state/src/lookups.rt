//! Look-ups of an object in its versions and in the entries that are not indexed. `held` calls
//! this.
ghost use Rattle.std.specs.Prelude.{◌≡◌, ℕ, ◌+◌, ◌-◌, ◌≤◌, List, [], IfSome, drop, length, take, unwrap_or};
ghost use Rattle.std.specs.Option.{option_map};
ghost use Rattle.std.specs.List.{AllZip};
ghost use Rattle.craq_names.specs.Maps.{same_bytes};
ghost use Rattle.craq_commands.specs.Objects.{object_of};
ghost use Rattle.craq_log.specs.Suffixed.{length_of};
ghost use Rattle.craq_model.specs.Past.{newest_within, values_in, values_after};
ghost use Rattle.craq_full_history.specs.Scans.{last_value};
ghost use Rattle.craq_versions.specs.Versions.{newest_of};
ghost use Rattle.craq_compact_state.specs.Indexed.{AreIndexed, GivesValue, IsGiven, Stands};
ghost use Rattle.craq_compact_state.specs.Placed.{later_in, objects_of, settled_in, IsPlaced};

use crate::objects::object_in;
use crate::value_locations::{ValueLocation, WriteRef, settled_object};
use craq_commands::{Entry, Write};
use craq_full_history::lookups::object_up_to;
use craq_log::Suffix;
use craq_names::{Key, Seq, Version};
use craq_versions::{ObjectTable, VersionList};

/// Returns the version and value written there.
fn written<'a>(entries: &'a Suffix, at: &WriteRef) -> (Version, &'a [u8])
    requires { (given : ℕ × List ℕ) × GivesValue entries.now at.now given }
    ensures object { (given : ℕ × List ℕ) → GivesValue entries.now at.now given → (result.0, result.1.now) ≡ given }
    ensures short { length result.1.now ≤ 4096 }
{
    let count = (at.position.get() - entries.base().get()) as usize;
    let entry = &entries.from(entries.base())[count - 1];
    let write = &entry.writes.as_slice()[at.index];
    (write.version, write.value.as_slice())
}

/// Returns a version with its value, which stands there.
fn value_at<'a>(
    entries: &'a Suffix,
    version: Version,
    place: &'a ValueLocation,
) -> (Version, &'a [u8])
    requires { (given : ℕ × List ℕ) × Stands entries.now (version, place.now) given }
    ensures object { (given : ℕ × List ℕ) → Stands entries.now (version, place.now) given → (result.0, result.1.now) ≡ given }
    ensures short { length result.1.now ≤ 4096 }
{
    match place {
        ValueLocation::Settled(value) => (version, value.as_slice()),
        ValueLocation::Written(at) => written(entries, at),
    }
}

/// Returns the newest version with its value; version 0 and no bytes if there is none.
fn newest_of<'a>(entries: &'a Suffix, list: &'a VersionList<ValueLocation>) -> (Version, &'a [u8])
    requires { (values : List (ℕ × List ℕ)) × AllZip (IsGiven entries.now) (later_in list.now.versions) values }
    ensures object { (values : List (ℕ × List ℕ)) → AllZip (IsGiven entries.now) (later_in list.now.versions) values → (result.0, result.1.now) ≡ last_value (unwrap_or (settled_in list.now.versions) (0, [])) values }
    ensures short { length result.1.now ≤ 4096 }
{
    match list.last() {
        None => (Version::new(0), &[]),
        Some(found) => value_at(entries, found.0, found.1),
    }
}

/// An object's settled and newest version, with their values; version 0 and no bytes if there is
/// none.
#[derive(Clone, Copy)]
pub struct Lookup<'a> {
    pub settled: (Version, &'a [u8]),
    pub newest: (Version, &'a [u8]),
}

/// Returns an object's settled and newest version after the indexed entries. Looks the object up
/// once.
fn seen_indexed<'a>(
    table: &'a ObjectTable<ValueLocation>,
    entries: &'a Suffix,
    indexed: Seq,
    key: &Key,
) -> Lookup<'a>
    requires placed { IsPlaced table.now }
    requires indexed { AreIndexed table.now entries.now indexed }
    ensures settled { (result.settled.0, result.settled.1.now) ≡ object_of (objects_of table.now) key.now }
    ensures newest { (result.newest.0, result.newest.1.now) ≡ last_value (object_of (objects_of table.now) key.now) (values_after (take (indexed - entries.now.base) entries.now.entries) key.now) }
    ensures short_settled { length result.settled.1.now ≤ 4096 }
    ensures short_newest { length result.newest.1.now ≤ 4096 }
{
    match table.list(key) {
        None => Lookup {
            settled: (Version::new(0), &[]),
            newest: (Version::new(0), &[]),
        },
        Some(list) => Lookup {
            settled: settled_object(list),
            newest: newest_of(entries, list),
        },
    }
}

/// Returns true exactly if two keys have the same bytes. Compares words of 8 bytes, which costs
/// less than `==`.
fn are_same(key: &Key, other: &Key) -> bool
    ensures { result ≡ same_bytes key.now other.now }
{
    key.cmp(other).is_eq()
}

/// Returns the version and value of the last of these writes to an object, `None` if there is none.
fn last_written<'a>(writes: &'a [Write], key: &Key) -> Option<(Version, &'a [u8])>
    ensures object { option_map (λ found. (found.0, found.1.now)) result ≡ newest_of (values_in writes.now key.now) }
    ensures short { IfSome result (λ found. length found.1.now ≤ 4096) }
{
    for index in (0..writes.len()).rev() {
        let write = &writes[index];
        if are_same(&write.key, key) {
            return Some((write.version, write.value.as_slice()));
        }
    }
    None
}

/// Returns the newest version and value that these entries give an object, `None` if there is none.
/// Scans the newest first.
fn newest_past<'a>(entries: &'a [Entry], key: &Key) -> Option<(Version, &'a [u8])>
    ensures object { option_map (λ found. (found.0, found.1.now)) result ≡ newest_of (values_after entries.now key.now) }
    ensures short { IfSome result (λ found. length found.1.now ≤ 4096) }
{
    for index in (0..entries.len()).rev() {
        let entry = &entries[index];
        if let Some(found) = last_written(entry.writes.as_slice(), key) {
            return Some(found);
        }
    }
    None
}

/// Returns an object's settled and newest version after all entries. Scans the entries that are not
/// indexed, then looks the object up once. Allocates nothing.
pub fn seen_in<'a>(
    table: &'a ObjectTable<ValueLocation>,
    entries: &'a Suffix,
    indexed: Seq,
    key: &Key,
) -> Lookup<'a>
    requires placed { IsPlaced table.now }
    requires indexed { AreIndexed table.now entries.now indexed }
    ensures settled { (result.settled.0, result.settled.1.now) ≡ object_of (objects_of table.now) key.now }
    ensures newest { (result.newest.0, result.newest.1.now) ≡ last_value (object_of (objects_of table.now) key.now) (values_after entries.now.entries key.now) }
    ensures short_settled { length result.settled.1.now ≤ 4096 }
    ensures short_newest { length result.newest.1.now ≤ 4096 }
{
    match newest_past(entries.from(indexed), key) {
        Some(newest) => Lookup {
            settled: object_in(table, key),
            newest,
        },
        None => seen_indexed(table, entries, indexed, key),
    }
}

/// Returns the newest version that is at most the bound, with its value, from the settled one on:
/// among these versions and those in the entries that are not indexed.
fn within_list<'a>(
    list: &'a VersionList<ValueLocation>,
    entries: &'a Suffix,
    indexed: Seq,
    key: &Key,
    version: u64,
    above: u64,
) -> (Version, &'a [u8])
    requires from { entries.now.base ≤ indexed }
    requires to { indexed ≤ length_of entries.now }
    requires later { AllZip (IsGiven entries.now) (later_in list.now.versions) (values_after (take (indexed - entries.now.base) entries.now.entries) key.now) }
    ensures object { (result.0, result.1.now) ≡ newest_within (version + above) (unwrap_or (settled_in list.now.versions) (0, [])) (values_after entries.now.entries key.now) }
    ensures short { length result.1.now ≤ 4096 }
{
    let (mut last, mut bytes) = settled_object(list);
    for index in 0..list.len() {
        let at = match list.held(index) {
            ValueLocation::Settled(_) => continue,
            ValueLocation::Written(at) => at,
        };
        let (next, value) = written(entries, at);
        if next.get().saturating_sub(version) > above {
            return (last, bytes);
        }
        last = next;
        bytes = value;
    }
    object_up_to(last, bytes, entries.from(indexed), key, version, above)
}

/// Returns an object's newest version, from the settled one on, that is at most `version + above`,
/// with its value. A sum above 2^64 - 1 does not limit it. Allocates nothing.
pub fn within_in<'a>(
    table: &'a ObjectTable<ValueLocation>,
    entries: &'a Suffix,
    indexed: Seq,
    key: &Key,
    version: u64,
    above: u64,
) -> (Version, &'a [u8])
    requires placed { IsPlaced table.now }
    requires indexed { AreIndexed table.now entries.now indexed }
    ensures object { (result.0, result.1.now) ≡ newest_within (version + above) (object_of (objects_of table.now) key.now) (values_after entries.now.entries key.now) }
    ensures short { length result.1.now ≤ 4096 }
{
    match table.list(key) {
        None => object_up_to(
            Version::new(0),
            &[],
            entries.from(indexed),
            key,
            version,
            above,
        ),
        Some(list) => within_list(list, entries, indexed, key, version, above),
    }
}
