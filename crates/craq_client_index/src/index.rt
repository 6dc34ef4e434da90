//! An index of the uncommitted entries by client. `craq_compact_history` calls it.
ghost use Rattle.std.specs.Prelude.{◌≡◌, ◌+◌, ◌-◌, ◌<◌, ◌≤◌, ◌^◌, List, drop, length, take};
ghost use Rattle.arrayvec.specs.ArrayVec.{array_vec_len};
ghost use Rattle.craq_commands.specs.declared.entry.Entry.{Entry};
ghost use Rattle.craq_model.specs.Past.{last_position};
ghost use Rattle.craq_node_invariant.specs.Sound.{AreInRow};
ghost use Rattle.craq_full_history.specs.Slots.{slots_after};
ghost use Rattle.craq_client_index.specs.Indexed.{Tells};

use crate::places::{Places, add_entries, let_entries_go, newest_position};
use crate::replies::keep_noted;
use craq_commands::Entry;
use craq_full_history::lookups::last_position_of;
use craq_full_history::slots::{self, Slots};
use craq_names::{ClientId, Seq};
use std::alloc::Global;
use std::collections::BTreeMap;
use std::marker::Model;

/// Up to this many entries, none is indexed: most are settled before that pays.
const FEW_ENTRIES: usize = 64;

/// Of more entries, at most this many stay unindexed while memory suffices: a scan of so few costs
/// less than a look-up.
const MOST_UNNOTED: usize = 8;

/// The positions of clients' entries, for the entries after one position, up to another.
#[derive(Drop)]
pub struct ClientIndex {
    places: Places,
    from: Seq,
    to: Seq,
    alloc: Global,
}

impl Model for ClientIndex {
    ghost use Rattle.std.specs.BTreeMap.{IsOrdered};
    ghost use Rattle.std.specs.Ordering.{nat_cmp};
    ghost use Rattle.craq_client_index.specs.Indexed.{Indexed};

    ghost Value = { Indexed };

    ghost view = { λ x. record { from = x.from; to = x.to; places = x.places.entries } };

    ghost invariant = { λ x. IsOrdered nat_cmp x.places };
}

/// Returns the number of later entries to index: none if there are few entries in all, else all but
/// the last few.
fn more_to_tell(noted: usize, later: usize) -> usize
    ensures { result ≤ later }
{
    if noted.saturating_add(later) <= FEW_ENTRIES {
        0
    } else {
        later.saturating_sub(MOST_UNNOTED)
    }
}

impl ClientIndex {
    /// Returns the empty index of the entries after a position. Allocates nothing.
    pub fn new(alloc: Global, from: Seq) -> Self
        ensures from { result.from ≡ from }
        ensures tells { (entries : List Entry) → Tells result entries }
    {
        ClientIndex {
            places: BTreeMap::new(alloc),
            from,
            to: from,
            alloc,
        }
    }

    /// Returns the position up to which entries are indexed.
    pub fn to(&self) -> Seq
        ensures { result ≡ self.now.to }
    {
        self.to
    }

    /// Indexes the entries after the indexed ones, except the last few, if they are more than few.
    /// Stops early when out of memory.
    pub fn add(&mut self, later: &[Entry])
        requires fits { self.old.to + length later.now < 2 ^ 64 }
        ensures from { self.new.from ≡ self.old.from }
        ensures tells { (entries : List Entry) → Tells self.old entries → later.now ≡ drop (self.old.to - self.old.from) entries → Tells self.new entries }
    {
        let noted = self.to.get().saturating_sub(self.from.get()) as usize;
        let count = more_to_tell(noted, later.len());
        let after = self.to.get();
        let added = add_entries(self.alloc, &mut self.places, &later[..count], after);
        self.to = Seq::new(after + added as u64);
    }

    /// Removes the first entries from the index. Allocates nothing.
    pub fn let_go(&mut self, first: &[Entry])
        requires fits { self.old.from + length first.now < 2 ^ 64 }
        requires noted { self.old.from ≤ self.old.to }
        ensures from { self.new.from ≡ self.old.from + length first.now }
        ensures tells { (entries : List Entry) → Tells self.old entries → length first.now ≤ length entries → first.now ≡ take (length first.now) entries → Tells self.new (drop (length first.now) entries) }
    {
        let noted = (self.to.get() - self.from.get()) as usize;
        let known = noted.min(first.len());
        let_entries_go(&mut self.places, &first[..known]);
        self.from = Seq::new(self.from.get() + first.len() as u64);
        if self.to.get() < self.from.get() {
            self.to = self.from;
        }
    }

    /// Returns the position of a client's newest entry among the entries; the position before them
    /// if it has none.
    pub fn newest_of(&self, client: ClientId, entries: &[Entry]) -> u64
        requires tells { Tells self.now entries.now }
        requires in_row { AreInRow (self.now.from + 1) entries.now }
        ensures { result ≡ last_position client self.now.from entries.now }
    {
        let from = self.from.get();
        let noted = (self.to.get() - from) as usize;
        let newest = newest_position(&self.places, client, from);
        last_position_of(&entries[noted..], client, newest)
    }

    /// Keeps the replies of a client's entries among the entries, whose replies' indexes start at
    /// `first`.
    pub fn keep_replies(&self, slots: &mut Slots, client: ClientId, entries: &[Entry], first: usize)
        requires few { array_vec_len slots.old ≤ 8 }
        requires tells { Tells self.now entries.now }
        requires fits { first + length entries.now < 2 ^ 64 }
        ensures slots { slots.new.items ≡ slots_after client first entries.now slots.old.items }
        ensures few { array_vec_len slots.new ≤ 8 }
    {
        let from = self.from.get();
        let noted = (self.to.get() - from) as usize;
        keep_noted(slots, client, &self.places, &entries[..noted], from, first);
        slots::add_entries(slots, client, &entries[noted..], first + noted);
    }
}
