//! `HeldPast`: the storage behind the compacting history. `craq_compact_history` calls it, and otherwise only
//! tests do.
ghost use Rattle.std.specs.Prelude.{◌≡◌, ◌+◌, ◌-◌, ◌%◌, ◌<◌, ◌≤◌, ◌^◌, ◌++◌, T, ℕ, List, [], IfOk, OnOk, OnErr, drop, length, max, take};
ghost use Rattle.std.specs.List.{AllByRecursion};
ghost use Rattle.std.specs.Ordering.{nat_cmp};
ghost use Rattle.std.specs.FinMap.Entries.{is_sorted};
ghost use Rattle.craq_names.specs.Maps.{key_cmp};
ghost use Rattle.craq_commands.specs.Kept.{Window};
ghost use Rattle.craq_commands.specs.Objects.{object_of};
ghost use Rattle.craq_commands.specs.SingleCopy.{after_entries, opening_state, window_of};
ghost use Rattle.craq_model.specs.Past.{newest_within, values_after};
ghost use Rattle.craq_node_invariant.specs.Sound.{AreInRow};
ghost use Rattle.craq_compact_state.specs.Bytes.{bytes_of_entries, bytes_of_objects};
ghost use Rattle.craq_compact_state.specs.Followed.{AreNextVersions};
ghost use Rattle.craq_compact_state.specs.Held.{length_of};
ghost use Rattle.craq_compact_state.specs.Indexed.{most_indexed};
ghost use Rattle.craq_compact_state.specs.Room.{HasRoomForVersions};

use crate::applying::apply;
use crate::counted::{CountedTable, bytes_of_entries};
use crate::indexing::{FEW_ENTRIES, MOST_UNINDEXED, list_entries};
use crate::lookups::{Lookup, seen_in, within_in};
use crate::objects::{object_in, objects_copied};
use craq_commands::{Entry, Kept, State, Window};
use craq_log::Suffix;
use craq_names::{ClientId, Items, Key, Seq, Version, copies_of};
use craq_replies::ReplyTable;
use std::alloc::{AllocError, Global};
use std::marker::Model;

/// The storage of a compacted past: the state after its first entries, and the entries after them.
/// Objects are found by key in constant time on average, kept replies by client in logarithmic
/// time. An object's versions say which of the entries up to some position write it; the entries
/// after that position are scanned.
#[derive(Drop)]
pub struct HeldPast {
    counted: CountedTable,
    replies: ReplyTable,
    entries: Suffix,
    indexed: Seq,
    alloc: Global,
}

impl Model for HeldPast {
    ghost use Rattle.craq_compact_state.specs.Bytes.{bytes_of_entries, Counts};
    ghost use Rattle.craq_compact_state.specs.Followed.{AreNextVersions};
    ghost use Rattle.craq_compact_state.specs.Held.{Held};
    ghost use Rattle.craq_compact_state.specs.Indexed.{AreIndexed, most_indexed};
    ghost use Rattle.craq_compact_state.specs.Placed.{objects_of, state_at, IsPlaced};

    ghost Value = { Held };

    ghost view = { λ h. record { base = h.entries.base; state = state_at (objects_of h.counted.table) h.replies.kept; entries = h.entries.entries; indexed = h.indexed; rooms = h.counted.table.rooms } };

    ghost invariant = { λ h. IsPlaced h.counted.table × AreIndexed h.counted.table h.entries h.indexed × AreNextVersions (state_at (objects_of h.counted.table) h.replies.kept) h.entries.entries × Counts h.counted.bytes (objects_of h.counted.table) (bytes_of_entries h.entries.entries) };
}

/// Moves the kept replies, sorted by client, into a table. Fails only when out of memory.
fn replies_placed(alloc: Global, kept: Items<(ClientId, Window)>) -> Result<ReplyTable, AllocError>
    requires rising { T (is_sorted nat_cmp kept) }
    requires some { AllByRecursion (λ (k : ℕ × Window). 1 ≤ length k.1) kept }
    ensures { IfOk result (λ table. table.kept ≡ kept) }
{
    let mut table = ReplyTable::new(alloc);
    for (client, window) in kept.as_slice() {
        table.put(*client, copies_of(alloc, window.as_slice())?)?;
    }
    Ok(table)
}

impl HeldPast {
    /// Returns the empty past. Allocates nothing.
    pub fn new(alloc: Global) -> Self
        ensures base { result.base ≡ 0 }
        ensures state { result.state ≡ opening_state }
        ensures entries { result.entries ≡ [] }
    {
        HeldPast {
            counted: CountedTable::new(alloc),
            replies: ReplyTable::new(alloc),
            entries: Suffix::new(alloc, Seq::new(0)),
            indexed: Seq::new(0),
            alloc,
        }
    }

    /// Makes the past of a state after this many entries, without entries after it. The state's
    /// keys are strictly increasing, with versions from 1 on; its clients are strictly increasing
    /// and have replies. The state is moved into maps. Fails only when out of memory.
    pub fn of(alloc: Global, base: Seq, state: State) -> Result<Self, AllocError>
        requires keys { T (is_sorted key_cmp state.objects) }
        requires versions { AllByRecursion (λ (o : List ℕ × (ℕ × List ℕ)). 1 ≤ o.1.0) state.objects }
        requires clients { T (is_sorted nat_cmp state.kept) }
        requires windows { AllByRecursion (λ (k : ℕ × Window). 1 ≤ length k.1) state.kept }
        ensures base { IfOk result (λ h. h.base ≡ base) }
        ensures state { IfOk result (λ h. h.state ≡ state) }
        ensures entries { IfOk result (λ h. h.entries ≡ []) }
    {
        let State { objects, kept } = state;
        Ok(HeldPast {
            counted: CountedTable::of(alloc, objects)?,
            replies: replies_placed(alloc, kept)?,
            entries: Suffix::new(alloc, base),
            indexed: base,
            alloc,
        })
    }

    /// Returns the number of entries that are applied to the state.
    pub fn base(&self) -> Seq
        ensures { result ≡ self.now.base }
    {
        self.entries.base()
    }

    /// Returns the number of entries of the past.
    pub fn len(&self) -> Seq
        ensures { result ≡ length_of self.now }
    {
        self.entries.len()
    }

    /// Returns the number of bytes of the keys and values that are held, modulo 2^64: those of the
    /// state's objects, and those that the entries after it write. Takes constant time.
    pub fn bytes(&self) -> u64
        ensures { result ≡ (bytes_of_objects self.now.state.objects + bytes_of_entries self.now.entries) % 2 ^ 64 }
    {
        self.counted.bytes
    }

    /// Returns the entries after a position, in order. Allocates nothing.
    pub fn from(&self, position: Seq) -> &[Entry]
        requires held { self.now.base ≤ position }
        requires known { position ≤ length_of self.now }
        ensures entries { result.now ≡ drop (position - self.now.base) self.now.entries }
        ensures in_row { AreInRow (position + 1) result.now }
    {
        self.entries.from(position)
    }

    /// Returns an object's version and value after the applied entries; version 0 and no bytes if
    /// it is absent. Allocates nothing.
    pub fn settled(&self, key: &Key) -> (Version, &[u8])
        ensures object { (result.0, result.1.now) ≡ object_of self.now.state.objects key.now }
        ensures short { length result.1.now ≤ 4096 }
    {
        object_in(&self.counted.table, key)
    }

    /// Returns an object's newest version and value: those after all entries. Allocates nothing.
    pub fn newest(&self, key: &Key) -> (Version, &[u8])
        ensures object { (result.0, result.1.now) ≡ object_of (after_entries self.now.state self.now.entries).objects key.now }
        ensures short { length result.1.now ≤ 4096 }
    {
        self.seen(key).newest
    }

    /// Returns an object's settled version, after the applied entries, and its newest one, after
    /// all entries, with their values; version 0 and no bytes if it is absent. Looks the object up
    /// once. Allocates nothing.
    #[tactic(auto, using(craq_full_history::proofs::Scans::last_of_values))]
    pub fn seen(&self, key: &Key) -> Lookup<'_>
        ensures settled { (result.settled.0, result.settled.1.now) ≡ object_of self.now.state.objects key.now }
        ensures newest { (result.newest.0, result.newest.1.now) ≡ object_of (after_entries self.now.state self.now.entries).objects key.now }
        ensures short_settled { length result.settled.1.now ≤ 4096 }
        ensures short_newest { length result.newest.1.now ≤ 4096 }
    {
        seen_in(&self.counted.table, &self.entries, self.indexed, key)
    }

    /// Returns an object's newest version, from the settled one on, that is at most `version +
    /// above`. A sum above 2^64 - 1 does not limit it. Allocates nothing.
    pub fn within(&self, key: &Key, version: u64, above: u64) -> (Version, &[u8])
        ensures object { (result.0, result.1.now) ≡ newest_within (version + above) (object_of self.now.state.objects key.now) (values_after self.now.entries key.now) }
        ensures short { length result.1.now ≤ 4096 }
    {
        within_in(
            &self.counted.table,
            &self.entries,
            self.indexed,
            key,
            version,
            above,
        )
    }

    /// Returns the client's retained replies after the applied entries, sorted by number: at most
    /// 8. Allocates nothing.
    #[tactic(auto, unfolding(craq_commands::specs::SingleCopy::window_of))]
    pub fn window(&self, client: ClientId) -> &[Kept]
        ensures window { result.now ≡ window_of self.now.state client }
        ensures few { length result.now ≤ 8 }
    {
        self.replies.window(client)
    }

    /// Appends entries at the next positions, which write the next versions of their objects. Fails
    /// only when out of memory; the past is unchanged on error. If only the index cannot be
    /// extended, the call succeeds and the next one extends it, without any visible difference. If
    /// there is room in the index and more than 64 entries are held, all but the last 4 are
    /// indexed.
    pub fn append(&mut self, entries: Items<Entry>) -> Result<(), AllocError>
        requires fits { length_of self.old + length entries < 2 ^ 64 }
        requires in_row { AreInRow (length_of self.old + 1) entries }
        requires next { AreNextVersions (after_entries self.old.state self.old.entries) entries }
        ensures base { self.new.base ≡ self.old.base }
        ensures state { self.new.state ≡ self.old.state }
        ensures ok { OnOk result (self.new.entries ≡ self.old.entries ++ entries) }
        ensures err { OnErr result (self.new.entries ≡ self.old.entries) }
        ensures more { self.old.indexed ≤ self.new.indexed }
        ensures indexed { OnOk result (HasRoomForVersions self.old.rooms (drop (self.old.indexed - self.old.base) self.new.entries) → self.new.indexed ≡ max self.old.indexed (most_indexed FEW_ENTRIES MOST_UNINDEXED self.new.base self.new.entries)) }
    {
        let more = bytes_of_entries(entries.as_slice());
        self.entries.append_all(entries)?;
        self.counted.bytes = self.counted.bytes.wrapping_add(more);
        let _refused = list_entries(&mut self.counted.table, &self.entries, &mut self.indexed);
        Ok(())
    }

    /// Applies the entries up to a position to the state, in order, and drops them. Moves their
    /// values. Stops at the first failed allocation: the entries before it are applied, the others
    /// are held as they were, and the next call begins with it.
    pub fn apply(&mut self, position: Seq) -> Result<(), AllocError>
        requires from { self.old.base ≤ position }
        requires to { position ≤ length_of self.old }
        ensures ok { OnOk result (self.new.base ≡ position) }
        ensures err { OnErr result (self.new.base < position) }
        ensures from { self.old.base ≤ self.new.base }
        ensures to { self.new.base ≤ position }
        ensures state { self.new.state ≡ after_entries self.old.state (take (self.new.base - self.old.base) self.old.entries) }
        ensures entries { self.new.entries ≡ drop (self.new.base - self.old.base) self.old.entries }
    {
        apply(
            self.alloc,
            &mut self.counted,
            &mut self.replies,
            &mut self.entries,
            &mut self.indexed,
            position,
        )
    }

    /// Returns a copy of the state after the applied entries. Fails only when out of memory.
    pub fn copied(&self, alloc: Global) -> Result<State, AllocError>
        ensures { IfOk result (λ s. s ≡ self.now.state) }
    {
        Ok(State {
            objects: objects_copied(alloc, &self.counted.table)?,
            kept: self.replies.copied(alloc)?,
        })
    }
}
