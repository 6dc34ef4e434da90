//! Indexes the entries' writes in the table. `held` and `applying` call this.
ghost use Rattle.std.specs.Prelude.{◌≡◌, ℕ, ◌+◌, ◌-◌, ◌<◌, ◌≤◌, List, [], ◌∷◌, ◌++◌, IsOk, OnOk, OnErr, if◌then◌else◌, length, drop, max, take};
ghost use Rattle.craq_names.specs.Maps.{same_bytes};
ghost use Rattle.craq_model.specs.Past.{values_in, values_after};
ghost use Rattle.craq_commands.specs.Objects.{version_of};
ghost use Rattle.craq_log.specs.Suffixed.{length_of};
ghost use Rattle.craq_versions.specs.Tables.{room_at};
ghost use Rattle.craq_versions.specs.Versions.{CanPush};
ghost use Rattle.craq_compact_state.specs.declared.value_locations.ValueLocation.TheVariants.{Written};
ghost use Rattle.craq_compact_state.specs.Followed.{AreNext};
ghost use Rattle.craq_compact_state.specs.Indexed.{most_indexed, written_in, AreIndexed};
ghost use Rattle.craq_compact_state.specs.Placed.{count_of, has_some, newest_version, objects_of, later_of, versions_of, IsPlaced, KeepsLater, LaterTakenBack};
ghost use Rattle.craq_compact_state.specs.Room.{HasRoomForVersions, HasRoomForWrites, KeepsRoomBut};

use crate::value_locations::{ValueLocation, WriteRef, has_later};
use craq_commands::Write;
use craq_log::Suffix;
use craq_names::{Key, Seq, Version};
use craq_versions::ObjectTable;
use std::alloc::AllocError;

/// Up to this many entries, none is indexed: most are applied before that pays.
pub const FEW_ENTRIES: usize = 64;

/// Of more entries, at most this many stay unindexed while memory suffices: a scan of so few costs
/// less than a look-up.
pub const MOST_UNINDEXED: u64 = 4;

/// Appends an object's next version, which is written there. Looks the object up once, or twice if
/// it is new. Fails only when out of memory, and only if no room is reserved; the versions are
/// unchanged on error.
fn push_version(
    table: &mut ObjectTable<ValueLocation>,
    key: &Key,
    version: Version,
    at: WriteRef,
) -> Result<(), AllocError>
    requires placed { IsPlaced table.old }
    requires next { CanPush (versions_of table.old key.now) version }
    ensures objects { objects_of table.new ≡ objects_of table.old }
    ensures ok { OnOk result ((q : List ℕ) → versions_of table.new q ≡ versions_of table.old q ++ (if same_bytes key.now q then (version, Written at) ∷ [] else [])) }
    ensures later { OnOk result ((q : List ℕ) → later_of table.new q ≡ later_of table.old q ++ (if same_bytes key.now q then (version, Written at) ∷ [] else [])) }
    ensures err { OnErr result (KeepsLater table.old table.new) }
    ensures placed { IsPlaced table.new }
    ensures room { (q : List ℕ) → room_at table.old q ≤ room_at table.new q + (if same_bytes key.now q then 1 else 0) }
    ensures succeeds { 0 < room_at table.old key.now → IsOk result }
{
    table.push(key, version, ValueLocation::Written(at))
}

/// Returns true exactly if an object has versions after the settled one.
fn has_later_in(table: &ObjectTable<ValueLocation>, key: &Key) -> bool
    ensures { result ≡ has_some (later_of table.now key.now) }
{
    match table.list(key) {
        None => false,
        Some(list) => has_later(list),
    }
}

/// Removes an object's newest later version.
fn pop_version(table: &mut ObjectTable<ValueLocation>, key: &Key)
    requires { IsPlaced table.old }
    ensures objects { objects_of table.new ≡ objects_of table.old }
    ensures later { (q : List ℕ) → later_of table.new q ≡ take (length (later_of table.old q) - (if same_bytes key.now q then 1 else 0)) (later_of table.old q) }
    ensures placed { IsPlaced table.new }
{
    if has_later_in(table, key) {
        table.pop(key);
    }
}

/// Removes as many of each object's later versions as these writes give it.
fn unlist(table: &mut ObjectTable<ValueLocation>, writes: &[Write])
    requires { IsPlaced table.old }
    ensures objects { objects_of table.new ≡ objects_of table.old }
    ensures later { LaterTakenBack writes.now table.old table.new }
    ensures placed { IsPlaced table.new }
{
    for write in writes {
        pop_version(table, &write.key);
    }
}

/// Indexes an entry's writes, each of its object's next version. Fails only when out of memory, and
/// only if no room is reserved for them; the versions are unchanged on error.
pub fn list_writes(
    table: &mut ObjectTable<ValueLocation>,
    position: Seq,
    writes: &[Write],
) -> Result<(), AllocError>
    requires placed { IsPlaced table.old }
    requires next { (q : List ℕ) → AreNext (newest_version (versions_of table.old q)) (values_in writes.now q) }
    ensures objects { objects_of table.new ≡ objects_of table.old }
    ensures ok { OnOk result ((q : List ℕ) → later_of table.new q ≡ later_of table.old q ++ written_in position 0 writes.now q) }
    ensures err { OnErr result (KeepsLater table.old table.new) }
    ensures placed { IsPlaced table.new }
    ensures room { OnOk result ((q : List ℕ) → room_at table.old q ≤ room_at table.new q + count_of writes.now q) }
    ensures succeeds { HasRoomForWrites table.old writes.now → IsOk result }
{
    for index in 0..writes.len() {
        let at = WriteRef { position, index };
        let write = &writes[index];
        if let Err(refused) = push_version(table, &write.key, write.version, at) {
            unlist(table, &writes[..index]);
            return Err(refused);
        }
    }
    Ok(())
}

/// Indexes the writes of the next entry, and advances the position up to which all entries are
/// indexed. Fails only when out of memory, and only if no room is reserved; the versions are
/// unchanged on error.
pub fn list_next(
    table: &mut ObjectTable<ValueLocation>,
    entries: &Suffix,
    indexed: &mut Seq,
) -> Result<(), AllocError>
    requires placed { IsPlaced table.old }
    requires indexed { AreIndexed table.old entries.now indexed.old }
    requires next { (q : List ℕ) → AreNext (version_of (objects_of table.old) q) (values_after entries.now.entries q) }
    requires more { indexed.old < length_of entries.now }
    ensures ok { OnOk result (indexed.new ≡ indexed.old + 1) }
    ensures err { OnErr result (indexed.new ≡ indexed.old) }
    ensures objects { objects_of table.new ≡ objects_of table.old }
    ensures indexed { AreIndexed table.new entries.now indexed.new }
    ensures placed { IsPlaced table.new }
    ensures room { OnOk result (KeepsRoomBut (take 1 (drop (indexed.old - entries.now.base) entries.now.entries)) table.old table.new) }
    ensures succeeds { HasRoomForVersions table.old.rooms (take 1 (drop (indexed.old - entries.now.base) entries.now.entries)) → IsOk result }
{
    let entry = &entries.from(*indexed)[0];
    list_writes(table, entry.position, entry.writes.as_slice())?;
    *indexed = entry.position;
    Ok(())
}

/// Returns the position up to which entries are to be indexed: none if there are few, else all but
/// the last few.
fn most_indexed(entries: &Suffix) -> u64
    ensures { result ≡ most_indexed FEW_ENTRIES MOST_UNINDEXED entries.now.base entries.now.entries }
{
    let base = entries.base();
    if entries.from(base).len() <= FEW_ENTRIES {
        base.get()
    } else {
        entries.len().get().saturating_sub(MOST_UNINDEXED)
    }
}

/// Indexes the entries' writes: all but the last few if there are more than few. Stops at the first
/// failed allocation: the entries before it are indexed, and the next call begins with it. Does not
/// fail if there is room for all versions. Keeps the position up to which all entries are indexed.
pub fn list_entries(
    table: &mut ObjectTable<ValueLocation>,
    entries: &Suffix,
    indexed: &mut Seq,
) -> Result<(), AllocError>
    requires placed { IsPlaced table.old }
    requires indexed { AreIndexed table.old entries.now indexed.old }
    requires next { (q : List ℕ) → AreNext (version_of (objects_of table.old) q) (values_after entries.now.entries q) }
    ensures ok { OnOk result (indexed.new ≡ max indexed.old (most_indexed FEW_ENTRIES MOST_UNINDEXED entries.now.base entries.now.entries)) }
    ensures err { OnErr result (indexed.new < most_indexed FEW_ENTRIES MOST_UNINDEXED entries.now.base entries.now.entries) }
    ensures objects { objects_of table.new ≡ objects_of table.old }
    ensures indexed { AreIndexed table.new entries.now indexed.new }
    ensures more { indexed.old ≤ indexed.new }
    ensures placed { IsPlaced table.new }
    ensures succeeds { HasRoomForVersions table.old.rooms (drop (indexed.old - entries.now.base) entries.now.entries) → IsOk result }
{
    let most = most_indexed(entries);
    while indexed.get() < most {
        list_next(table, entries, indexed)?;
    }
    Ok(())
}
