//! Applies entries to objects and kept replies. `held` calls this.
ghost use Rattle.std.specs.Prelude.{◌≡◌, ◌↔◌, ℕ, ◌+◌, ◌-◌, ◌<◌, ◌≤◌, List, [], ◌∷◌, IsOk, IsTrue, OnOk, OnErr, length, max, take};
ghost use Rattle.std.specs.List.{AllByRecursion};
ghost use Rattle.craq_commands.specs.declared.entry.Entry.{Entry};
ghost use Rattle.craq_commands.specs.declared.entry.Write.{Write};
ghost use Rattle.craq_commands.specs.Objects.{version_of};
ghost use Rattle.craq_commands.specs.SingleCopy.{after_entry, with_writes};
ghost use Rattle.craq_log.specs.Suffixed.{length_of};
ghost use Rattle.craq_model.specs.Past.{values_in, values_after};
ghost use Rattle.craq_replies.specs.Replies.{room_at, KeepsOthersRoom, KeepsRoom};
ghost use Rattle.craq_compact_state.specs.Applied.{AreApplied};
ghost use Rattle.craq_compact_state.specs.Bytes.{bytes_of_entries, bytes_of_writes, Counts};
ghost use Rattle.craq_compact_state.specs.Followed.{AreNext, CanApply};
ghost use Rattle.craq_compact_state.specs.Indexed.{AreIndexed};
ghost use Rattle.craq_compact_state.specs.Placed.{objects_of, state_at, versions_of, IsPlaced, LaterWithout};
ghost use Rattle.craq_compact_state.specs.Room.{AreAppliable, HasRoomForReplies, IsAppliable};

use crate::counted::CountedTable;
use crate::indexing::list_next;
use crate::value_locations::ValueLocation;
use craq_commands::{Entry, Write};
use craq_log::Suffix;
use craq_names::{Items, Seq};
use craq_replies::ReplyTable;
use craq_versions::ObjectTable;
use std::alloc::{AllocError, Global};

/// Settles these writes, whose versions are their objects' next, in order. Moves their values and
/// allocates nothing.
fn settle_objects(counted: &mut CountedTable, writes: Items<Write>)
    requires placed { IsPlaced counted.old.table }
    requires ready { (q : List ℕ) → CanApply (values_in writes q) (versions_of counted.old.table q) }
    ensures objects { objects_of counted.new.table ≡ with_writes (objects_of counted.old.table) writes }
    ensures later { LaterWithout writes counted.old.table counted.new.table }
    ensures placed { IsPlaced counted.new.table }
    ensures counted { (more : ℕ) → Counts counted.old.bytes (objects_of counted.old.table) (bytes_of_writes writes + more) → Counts counted.new.bytes (objects_of counted.new.table) more }
{
    for write in writes.into_vec() {
        let Write {
            key,
            version,
            value,
        } = write;
        counted.settle(&key, version, value);
    }
}

/// Applies an entry for which there is room for the versions and the reply. Moves its values and
/// allocates nothing.
fn apply_one(counted: &mut CountedTable, replies: &mut ReplyTable, entry: Entry)
    requires placed { IsPlaced counted.old.table }
    requires ready { (q : List ℕ) → CanApply (values_in entry.writes q) (versions_of counted.old.table q) }
    requires room { 0 < room_at replies.old entry.client }
    ensures state { state_at (objects_of counted.new.table) replies.new.kept ≡ after_entry (state_at (objects_of counted.old.table) replies.old.kept) entry }
    ensures later { LaterWithout entry.writes counted.old.table counted.new.table }
    ensures placed { IsPlaced counted.new.table }
    ensures rooms { KeepsOthersRoom replies.old replies.new entry.client }
    ensures counted { (more : ℕ) → Counts counted.old.bytes (objects_of counted.old.table) (bytes_of_writes entry.writes + more) → Counts counted.new.bytes (objects_of counted.new.table) more }
{
    let Entry {
        client,
        number,
        reply,
        writes,
        ..
    } = entry;
    settle_objects(counted, writes);
    replies.keep(client, number, reply).unwrap();
}

/// Returns the first of some entries.
fn first_of(entries: &Suffix) -> &Entry
    requires { 1 ≤ length entries.now.entries }
    ensures { take 1 entries.now.entries ≡ result.now ∷ [] }
{
    &entries.from(entries.base())[0]
}

/// Returns true exactly if each write is of an object that existed before: its version is not the
/// first.
fn are_rewrites(writes: &[Write]) -> bool
    ensures { IsTrue result ↔ AllByRecursion (λ (w : Write). 2 ≤ w.version) writes.now }
{
    for write in writes {
        if write.version.get() < 2 {
            return false;
        }
    }
    true
}

/// Ensures that the first entry can be applied without allocation: there is room for its reply, and
/// it is indexed or writes only objects that have versions. Fails only when out of memory, and only
/// if one of the two did not hold before; the visible content is unchanged in either case.
fn make_room(
    table: &mut ObjectTable<ValueLocation>,
    replies: &mut ReplyTable,
    entries: &Suffix,
    indexed: &mut Seq,
) -> Result<(), AllocError>
    requires placed { IsPlaced table.old }
    requires some { 1 ≤ length entries.now.entries }
    requires indexed { AreIndexed table.old entries.now indexed.old }
    requires next { (q : List ℕ) → AreNext (version_of (objects_of table.old) q) (values_after entries.now.entries q) }
    ensures ready { OnOk result ((e : Entry) → take 1 entries.now.entries ≡ e ∷ [] → (q : List ℕ) → CanApply (values_in e.writes q) (versions_of table.new q)) }
    ensures room { OnOk result ((e : Entry) → take 1 entries.now.entries ≡ e ∷ [] → 0 < room_at replies.new e.client) }
    ensures objects { objects_of table.new ≡ objects_of table.old }
    ensures kept { replies.new.kept ≡ replies.old.kept }
    ensures indexed { AreIndexed table.new entries.now indexed.new }
    ensures more { indexed.old ≤ indexed.new }
    ensures placed { IsPlaced table.new }
    ensures rooms { KeepsRoom replies.old replies.new }
    ensures succeeds { (e : Entry) → take 1 entries.now.entries ≡ e ∷ [] → 0 < room_at replies.old e.client → IsAppliable entries.now.base indexed.old e → IsOk result }
{
    let first = first_of(entries);
    replies.reserve(first.client)?;
    if indexed.get() > entries.base().get() {
        return Ok(());
    }
    if are_rewrites(first.writes.as_slice()) {
        return Ok(());
    }
    list_next(table, entries, indexed)
}

/// Returns the later of two positions.
fn later(position: Seq, other: Seq) -> Seq
    ensures { result ≡ max position other }
{
    if position.get() < other.get() {
        other
    } else {
        position
    }
}

/// Applies the first entry and removes it. Fails only when out of memory, and only if there is no
/// room for its reply, or it is not indexed and writes an object that has no versions; the entries
/// are unchanged on error.
fn apply_first(
    alloc: Global,
    counted: &mut CountedTable,
    replies: &mut ReplyTable,
    entries: &mut Suffix,
    indexed: &mut Seq,
) -> Result<(), AllocError>
    requires placed { IsPlaced counted.old.table }
    requires some { 1 ≤ length entries.old.entries }
    requires indexed { AreIndexed counted.old.table entries.old indexed.old }
    requires next { (q : List ℕ) → AreNext (version_of (objects_of counted.old.table) q) (values_after entries.old.entries q) }
    requires counted { Counts counted.old.bytes (objects_of counted.old.table) (bytes_of_entries entries.old.entries) }
    ensures ok { OnOk result (entries.new.base ≡ entries.old.base + 1) }
    ensures err { OnErr result (entries.new.base ≡ entries.old.base) }
    ensures applied { AreApplied (state_at (objects_of counted.old.table) replies.old.kept) entries.old (state_at (objects_of counted.new.table) replies.new.kept) entries.new }
    ensures indexed { AreIndexed counted.new.table entries.new indexed.new }
    ensures next { (q : List ℕ) → AreNext (version_of (objects_of counted.new.table) q) (values_after entries.new.entries q) }
    ensures more { indexed.old ≤ indexed.new }
    ensures placed { IsPlaced counted.new.table }
    ensures counted { Counts counted.new.bytes (objects_of counted.new.table) (bytes_of_entries entries.new.entries) }
    ensures rooms { OnOk result ((e : Entry) → take 1 entries.old.entries ≡ e ∷ [] → KeepsOthersRoom replies.old replies.new e.client) }
    ensures succeeds { (e : Entry) → take 1 entries.old.entries ≡ e ∷ [] → 0 < room_at replies.old e.client → IsAppliable entries.old.base indexed.old e → IsOk result }
{
    make_room(&mut counted.table, replies, entries, indexed)?;
    if let Some(entry) = entries.take_first(alloc) {
        apply_one(counted, replies, entry);
        *indexed = later(*indexed, entries.base());
    }
    Ok(())
}

/// Applies entries in order, up to a position, and removes them. Stops at the first failed
/// allocation: that entry and those after it stay, and the next call begins with it. Does not fail
/// if each client has at most one of them, with room for its reply, and each is indexed or writes
/// only objects that have versions.
pub fn apply(
    alloc: Global,
    counted: &mut CountedTable,
    replies: &mut ReplyTable,
    entries: &mut Suffix,
    indexed: &mut Seq,
    position: Seq,
) -> Result<(), AllocError>
    requires placed { IsPlaced counted.old.table }
    requires from { entries.old.base ≤ position }
    requires to { position ≤ length_of entries.old }
    requires indexed { AreIndexed counted.old.table entries.old indexed.old }
    requires next { (q : List ℕ) → AreNext (version_of (objects_of counted.old.table) q) (values_after entries.old.entries q) }
    requires counted { Counts counted.old.bytes (objects_of counted.old.table) (bytes_of_entries entries.old.entries) }
    ensures ok { OnOk result (entries.new.base ≡ position) }
    ensures err { OnErr result (entries.new.base < position) }
    ensures from { entries.old.base ≤ entries.new.base }
    ensures to { entries.new.base ≤ position }
    ensures applied { AreApplied (state_at (objects_of counted.old.table) replies.old.kept) entries.old (state_at (objects_of counted.new.table) replies.new.kept) entries.new }
    ensures indexed { AreIndexed counted.new.table entries.new indexed.new }
    ensures next { (q : List ℕ) → AreNext (version_of (objects_of counted.new.table) q) (values_after entries.new.entries q) }
    ensures placed { IsPlaced counted.new.table }
    ensures counted { Counts counted.new.bytes (objects_of counted.new.table) (bytes_of_entries entries.new.entries) }
    ensures succeeds { HasRoomForReplies replies.old (take (position - entries.old.base) entries.old.entries) → AreAppliable entries.old.base indexed.old (take (position - entries.old.base) entries.old.entries) → IsOk result }
{
    while entries.base().get() < position.get() {
        apply_first(alloc, counted, replies, entries, indexed)?;
    }
    Ok(())
}
