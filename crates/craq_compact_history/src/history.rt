//! `CompactingHistory`: a `History` over a compacted past and an index of clients' entries. `ListCore` is
//! a node over it.
ghost use Rattle.std.specs.Prelude.{◌≡◌, ◌+◌, ◌-◌, ◌%◌, ◌≤◌, ◌^◌, T, IsTrue, true, false, length, min, take, drop};
ghost use Rattle.std.proofs.Props.{props};
ghost use Rattle.std.specs.FinMap.Entries.{is_sorted};
ghost use Rattle.std.specs.List.{list_any};
ghost use Rattle.arrayvec.specs.ArrayVec.{array_vec_len};
ghost use Rattle.craq_names.specs.Maps.{key_cmp};
ghost use Rattle.craq_commands.specs.Kept as kept;
ghost use Rattle.craq_commands.specs.Objects.{object_of, version_of};
ghost use Rattle.craq_commands.specs.SingleCopy.{after_entries, is_new_to, window_of};
ghost use Rattle.craq_model.specs.Deliveries.{is_applicable};
ghost use Rattle.craq_model.specs.Past.{clean_in, newest_in};
ghost use Rattle.craq_node_invariant.specs.Sound.{AreInRow};
ghost use Rattle.craq_node_invariant.specs.Compacted.{compacted_in};
ghost use Rattle.craq_node_invariant.proofs.CompactedPasts.{compacted_twice};
ghost use Rattle.craq_full_history.specs.Slots.{slots_after, slots_from};
ghost use Rattle.craq_compact_state.specs.Held.{length_of};
ghost use Rattle.craq_client_index.specs.Indexed.{Tells};
ghost use Rattle.craq_compact_history.specs.Counted.{AreWritten, bytes_in, first_writes, new_objects};
ghost use Rattle.craq_compact_history.specs.Others.{is_of};
ghost use Rattle.craq_compact_history.specs.Stored.{stored};

use crate::later::version_past;
use craq_client_index::ClientIndex;
use craq_commands::{Entry, Kept, RequestStatus, State, Write, look_in};
use craq_compact_state::{HeldPast, Lookup};
use craq_full_history::lookups::{follows, object_past, object_up_to};
use craq_full_history::slots::{Slots, add_entries, is_new, said_in, slots_after};
use craq_full_history::states::state_after;
use craq_history::{History, ObjectVersions};
use craq_names::{ClientId, Items, Key, RequestNo, Seq, Version};
use std::alloc::{AllocError, Global};

/// A compacting past: the state after a prefix of the entries, and the entries after it. Settled
/// entries are applied to the state at once, or later if out of memory, without any visible
/// difference.
///
/// A look-up of an object costs one or two searches and a scan of the few entries that are not
/// indexed. A look-up of a client costs one search and a scan of the unsettled entries of that
/// client.
#[derive(Drop)]
pub struct CompactingHistory {
    held: HeldPast,
    acknowledged: Seq,
    clients: ClientIndex,
    objects: u64,
    alloc: Global,
    ghost based: { held.base ≤ acknowledged },
    ghost within: { acknowledged ≤ length_of held },
    ghost reported_from: { clients.from ≡ acknowledged },
    ghost reported: { Tells clients (drop (acknowledged - held.base) held.entries) },
    ghost counted: { objects ≡ min (length (after_entries held.state held.entries).objects) (2 ^ 64 - 1) },
    ghost written: { AreWritten (after_entries held.state held.entries).objects } by { Prim.hlevel props },
    ghost rising: { T (is_sorted key_cmp (after_entries held.state held.entries).objects) } by { Prim.hlevel props },
}

/// Returns the entries after one position, up to another.
fn between(held: &HeldPast, from: Seq, to: Seq) -> &[Entry]
    requires held { held.now.base ≤ from }
    requires rising { from ≤ to }
    requires known { to ≤ length_of held.now }
    ensures entries { result.now ≡ take (to - from) (drop (from - held.now.base) held.now.entries) }
    ensures count { length result.now ≡ to - from }
{
    let count = (to.get() - from.get()) as usize;
    &held.from(from)[..count]
}

/// The most entries among which those of a client are looked for one by one.
const FEW_ENTRIES: usize = 64;

/// Returns true exactly if one of these entries is of the client.
fn has_entry_of(entries: &[Entry], client: ClientId) -> bool
    ensures { result ≡ list_any (is_of client) entries.now }
{
    entries.iter().any(|entry| entry.client == client)
}

/// Returns true exactly if a number is new to a window.
fn is_new_to_window(window: &[Kept], number: RequestNo) -> bool
    ensures { result ≡ kept.is_new window.now number }
{
    match look_in(window, number) {
        RequestStatus::New => true,
        RequestStatus::Kept(_) => false,
        RequestStatus::Stale(_) => false,
    }
}

/// Returns how many of these writes make an object: those of version 1. At most 2^64 - 1.
fn count_first(writes: &[Write]) -> u64
    ensures { result ≡ min (first_writes writes.now) (2 ^ 64 - 1) }
{
    let mut count = 0u64;
    for write in writes {
        if write.version.get() == 1 {
            count = count.saturating_add(1);
        }
    }
    count
}

/// Returns how many objects these entries make. At most 2^64 - 1.
fn count_new(entries: &[Entry]) -> u64
    ensures { result ≡ min (new_objects entries.now) (2 ^ 64 - 1) }
{
    let mut count = 0u64;
    for entry in entries {
        count = count.saturating_add(count_first(entry.writes.as_slice()));
    }
    count
}

impl CompactingHistory {
    /// Returns the number of objects after all entries, at most 2^64 - 1. Takes constant time.
    pub fn objects(&self) -> u64
        ensures { result ≡ min (length (newest_in (⟦<CompactingHistory as History>⟧.past self.now)).objects) (2 ^ 64 - 1) }
    {
        self.objects
    }

    /// Returns the number of bytes of the keys and values in memory, modulo 2^64: those of the
    /// objects of the state, and those that the entries after it write. Takes constant time.
    pub fn bytes(&self) -> u64
        ensures { result ≡ bytes_in (⟦<CompactingHistory as History>⟧.in_memory self.now) % 2 ^ 64 }
    {
        self.held.bytes()
    }

    /// Returns the number of entries that only the state represents. No entry at or below this
    /// position is in memory.
    pub fn base(&self) -> Seq
        ensures { result ≡ (⟦<CompactingHistory as History>⟧.in_memory self.now).base }
    {
        self.held.base()
    }

    /// Returns the number of entries in memory: those after the base.
    pub fn entries_held(&self) -> usize
        ensures { result ≡ length (⟦<CompactingHistory as History>⟧.in_memory self.now).entries }
    {
        self.entries().len()
    }

    /// Returns the entries after the state.
    fn entries(&self) -> &[Entry]
        ensures { result.now ≡ self.now.held.entries }
    {
        self.held.from(self.held.base())
    }

    /// Returns the entries that are settled and not yet applied to the state. Usually there are
    /// none.
    fn settled(&self) -> &[Entry]
        ensures { result.now ≡ take (self.now.acknowledged - self.now.held.base) self.now.held.entries }
    {
        let count = (self.acknowledged.get() - self.held.base().get()) as usize;
        &self.entries()[..count]
    }

    /// Returns the entries that are not settled.
    fn unsettled(&self) -> &[Entry]
        ensures entries { result.now ≡ drop (self.now.acknowledged - self.now.held.base) self.now.held.entries }
        ensures in_row { AreInRow (self.now.acknowledged + 1) result.now }
    {
        self.held.from(self.acknowledged)
    }

    /// Returns an object's clean version and value, given those found in the state. Usually these
    /// are the same, because all settled entries are applied.
    fn settled_past<'a>(
        &'a self,
        version: Version,
        value: &'a [u8],
        key: &Key,
    ) -> (Version, &'a [u8])
        requires found { (version, value.now) ≡ object_of self.now.held.state.objects key.now }
        requires short { length value.now ≤ 4096 }
        ensures object { (result.0, result.1.now) ≡ object_of (clean_in (⟦<CompactingHistory as History>⟧.past self.now)).objects key.now }
        ensures short { length result.1.now ≤ 4096 }
    {
        if self.acknowledged.get() == self.held.base().get() {
            return (version, value);
        }
        object_past(version, value, self.settled(), key)
    }

    /// Returns an object's version after all entries and these later ones.
    fn version_later(&self, later: &[Entry], key: &Key) -> Version
        ensures { result ≡ version_of (after_entries (newest_in (⟦<CompactingHistory as History>⟧.past self.now)) later.now).objects key.now }
    {
        let (newest, _) = self.newest(key);
        version_past(newest, later, key)
    }

    /// Returns true only if no entry in memory is of the client. Its window is then that of the
    /// state. Returns false if many entries are in memory, without a look at them.
    fn has_no_entry_of(&self, client: ClientId) -> bool
        ensures { IsTrue result → list_any (is_of client) self.now.held.entries ≡ false }
    {
        let entries = self.entries();
        entries.len() <= FEW_ENTRIES && !has_entry_of(entries, client)
    }

    /// Returns the slots of a client's window after all entries, given its window in the state.
    fn slots(&self, window: &[Kept], client: ClientId) -> Slots
        requires window { window.now ≡ window_of self.now.held.state client }
        requires short { length window.now ≤ 8 }
        ensures slots { result.items ≡ slots_after client (length (window_of self.now.held.state client)) self.now.held.entries (slots_from 0 (window_of self.now.held.state client)) }
        ensures few { array_vec_len result ≤ 8 }
    {
        let settled = self.settled();
        let mut slots = slots_after(window, settled, client);
        let first = window.len() + settled.len();
        self.clients
            .keep_replies(&mut slots, client, self.unsettled(), first);
        slots
    }

    /// Returns true exactly if a client's request number is new after all entries and these later
    /// ones.
    fn is_new_later(&self, later: &[Entry], client: ClientId, number: RequestNo) -> bool
        ensures { result ≡ is_new_to (after_entries (newest_in (⟦<CompactingHistory as History>⟧.past self.now)) later.now) client number }
    {
        let window = self.held.window(client);
        if self.has_no_entry_of(client) && !has_entry_of(later, client) {
            return is_new_to_window(window, number);
        }
        let mut slots = self.slots(window, client);
        let first = window.len() + self.entries().len();
        add_entries(&mut slots, client, later, first);
        is_new(slots.as_slice(), number)
    }

    /// Returns true exactly if an entry fits the state after all entries and these earlier ones.
    #[tactic(auto, unfolding(craq_model::specs::Deliveries::is_applicable))]
    fn is_next(&self, earlier: &[Entry], entry: &Entry) -> bool
        ensures { result ≡ is_applicable (after_entries (newest_in (⟦<CompactingHistory as History>⟧.past self.now)) earlier.now) entry.now }
    {
        for write in entry.writes.as_slice() {
            if !follows(write.version, self.version_later(earlier, &write.key)) {
                return false;
            }
        }
        self.is_new_later(earlier, entry.client, entry.number)
    }
}

impl History for CompactingHistory {
    ghost past = { λ h. compacted_in (stored h.held.base h.held.state h.held.entries h.acknowledged) };

    ghost in_memory = { λ h. stored h.held.base h.held.state h.held.entries h.acknowledged };

    ghost forgets = { true };

    ghost is_remembered = { λ h. compacted_twice (stored h.held.base h.held.state h.held.entries h.acknowledged) };

    fn new(alloc: Global) -> Self {
        CompactingHistory {
            held: HeldPast::new(alloc),
            acknowledged: Seq::new(0),
            clients: ClientIndex::new(alloc, Seq::new(0)),
            objects: 0,
            alloc,
        }
    }

    fn len(&self) -> u64 {
        self.held.len().get()
    }

    fn acknowledged(&self) -> u64 {
        self.acknowledged.get()
    }

    fn newest(&self, key: &Key) -> (Version, &[u8]) {
        self.held.newest(key)
    }

    fn clean(&self, key: &Key) -> (Version, &[u8]) {
        let (version, value) = self.held.settled(key);
        self.settled_past(version, value, key)
    }

    fn versions(&self, key: &Key) -> ObjectVersions<'_> {
        let Lookup { newest, settled } = self.held.seen(key);
        let (version, value) = settled;
        ObjectVersions {
            newest,
            clean: self.settled_past(version, value, key),
        }
    }

    fn within(&self, key: &Key, version: u64, above: u64) -> (Version, &[u8]) {
        if self.settled().is_empty() {
            return self.held.within(key, version, above);
        }
        let (clean, bytes) = self.clean(key);
        object_up_to(clean, bytes, self.unsettled(), key, version, above)
    }

    fn said(&self, client: ClientId, number: RequestNo) -> RequestStatus<'_> {
        let window = self.held.window(client);
        if self.has_no_entry_of(client) {
            return look_in(window, number);
        }
        let slots = self.slots(window, client);
        said_in(slots.as_slice(), window, self.entries(), number)
    }

    fn are_next(&self, entries: &[Entry]) -> bool {
        for place in 0..entries.len() {
            if !self.is_next(&entries[..place], &entries[place]) {
                return false;
            }
        }
        true
    }

    fn position_of(&self, client: ClientId) -> u64 {
        self.clients.newest_of(client, self.unsettled())
    }

    fn after(&self, position: u64) -> &[Entry] {
        if position < self.held.len().get() {
            self.held.from(Seq::new(position))
        } else {
            &[]
        }
    }

    fn append(&mut self, entries: Items<Entry>) -> Result<(), AllocError> {
        let made = count_new(entries.as_slice());
        self.held.append(entries)?;
        self.objects = self.objects.saturating_add(made);
        let later = self.held.from(self.clients.to());
        self.clients.add(later);
        Ok(())
    }

    fn acknowledge(&mut self, position: Seq) -> Result<(), AllocError> {
        let first = between(&self.held, self.acknowledged, position);
        self.clients.let_go(first);
        self.acknowledged = position;
        self.held.apply(position)
    }

    fn snapshot(&self, alloc: Global) -> Result<State, AllocError> {
        let state = self.held.copied(alloc)?;
        let settled = self.settled();
        if settled.is_empty() {
            return Ok(state);
        }
        state_after(alloc, &state, settled)
    }

    fn install(&mut self, position: Seq, state: State) -> Result<(), AllocError> {
        let objects = state.objects.len() as u64;
        self.held = HeldPast::of(self.alloc, position, state)?;
        self.acknowledged = position;
        self.objects = objects;
        self.clients = ClientIndex::new(self.alloc, position);
        Ok(())
    }
}
