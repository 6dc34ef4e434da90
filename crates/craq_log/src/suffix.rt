//! `Suffix`: the entries of a history after a base position, for compacting histories.
ghost use Rattle.std.specs.Prelude.{◌≡◌, ◌+◌, ◌-◌, ◌<◌, ◌≤◌, ◌^◌, [], ◌∷◌, ◌++◌, drop, length, vec_len, vec_capacity, IsOk, OnOk, OnErr, MatchOption};
ghost use Rattle.craq_node_invariant.specs.Sound.{AreInRow};
ghost use Rattle.craq_log.specs.Suffixed.{length_of, entries_after, IsFirstOf, IsStored, IsTrimmed};

use craq_commands::{Entry, Reply};
use craq_names::{Items, Seq};
use std::alloc::{AllocError, Global};
use std::marker::Model;
use std::mem;

/// The consecutive entries of a history after a base position.
///
/// Acknowledged entries are dropped. A node remembers what it forwarded until it is acknowledged:
/// the list of sent updates of the OSDI 2004 paper. Dropping costs amortized constant time per
/// dropped entry, however many stay: settled entries stay stored until they are all of the entries,
/// or at least half of all and at least 64.
#[derive(Drop)]
pub struct Suffix {
    start: u64,
    entries: Vec<Entry>,
    settled: usize,
}

impl Model for Suffix {
    ghost use Rattle.std.specs.Prelude.{◌+◌, ◌-◌, drop, vec_len, vec_capacity};
    ghost use Rattle.craq_log.specs.Suffixed.{Suffixed, IsStored, IsTrimmed};

    ghost Value = { Suffixed };

    ghost view = { λ s. record {
      base = s.start + s.settled;
      entries = drop s.settled s.entries.items;
      room = vec_capacity s.entries - vec_len s.entries;
    } };

    ghost invariant = { λ s. IsStored s.start s.settled s.entries.items × IsTrimmed s.settled s.entries.items };
}

impl Suffix {
    /// Returns no entries, after this position. Allocates nothing.
    pub fn new(alloc: Global, base: Seq) -> Self
        ensures base { result.base ≡ base }
        ensures entries { result.entries ≡ [] }
    {
        Suffix {
            start: base.get(),
            entries: Vec::new(alloc),
            settled: 0,
        }
    }

    /// Returns the base position: the number of entries of the history before these.
    pub fn base(&self) -> Seq
        ensures { result ≡ self.now.base }
    {
        Seq::new(self.start + self.settled as u64)
    }

    /// Returns the length of the history: the base and these entries.
    pub fn len(&self) -> Seq
        ensures { result ≡ length_of self.now }
    {
        Seq::new(self.start + self.entries.len() as u64)
    }

    /// Reserves room for this many more entries, whose `append` then allocates nothing. Fails only
    /// when out of memory; the entries are unchanged in either case.
    pub fn reserve(&mut self, additional: usize) -> Result<(), AllocError>
        ensures base { self.new.base ≡ self.old.base }
        ensures entries { self.new.entries ≡ self.old.entries }
        ensures ok { OnOk result (additional ≤ self.new.room) }
        ensures room { self.old.room ≤ self.new.room }
        ensures succeeds { additional ≤ self.old.room → IsOk result }
    {
        self.entries.reserve(additional)
    }

    /// Appends one entry, at the next position. Fails only when out of memory, and only if no room
    /// is reserved; the entries are unchanged on error.
    pub fn append(&mut self, entry: Entry) -> Result<(), AllocError>
        requires { entry.position ≡ length_of self.old + 1 }
        ensures base { self.new.base ≡ self.old.base }
        ensures ok { OnOk result (self.new.entries ≡ self.old.entries ++ entry ∷ []) }
        ensures err { OnErr result (self.new.entries ≡ self.old.entries) }
        ensures room { self.old.room ≤ self.new.room + 1 }
        ensures succeeds { 0 < self.old.room → IsOk result }
    {
        let _position = entry.position.get();
        self.entries.reserve(1)?;
        self.entries.push_reserved(entry);
        Ok(())
    }

    /// Appends the entries that come next, all of them. Fails only when out of memory; the entries
    /// are unchanged on error.
    pub fn append_all(&mut self, entries: Items<Entry>) -> Result<(), AllocError>
        requires fits { length_of self.old + length entries < 2 ^ 64 }
        requires in_row { AreInRow (length_of self.old + 1) entries }
        ensures base { self.new.base ≡ self.old.base }
        ensures ok { OnOk result (self.new.entries ≡ self.old.entries ++ entries) }
        ensures err { OnErr result (self.new.entries ≡ self.old.entries) }
    {
        let mut more = entries.into_vec();
        self.entries.append(&mut more)?;
        Ok(())
    }

    /// Removes and returns the first entry, `None` if there is none; its position becomes the base.
    /// Allocates nothing.
    pub fn take_first(&mut self, alloc: Global) -> Option<Entry>
        ensures { MatchOption result ((self.old.entries ≡ []) × (self.new ≡ self.old)) (λ e. IsFirstOf e self.old self.new) }
    {
        let first = match self.entries.get_mut(self.settled) {
            None => return None,
            Some(entry) => taken_out(alloc, entry),
        };
        self.settled += 1;
        trim(&mut self.start, &mut self.entries, &mut self.settled);
        Some(first)
    }

    /// Drops the entries up to this position, which becomes the base. Allocates nothing.
    pub fn acknowledge(&mut self, position: Seq)
        requires held { self.old.base ≤ position }
        requires known { position ≤ length_of self.old }
        ensures base { self.new.base ≡ position }
        ensures entries { self.new.entries ≡ entries_after self.old position }
        ensures room { self.old.room ≤ self.new.room }
    {
        self.settled = (position.get() - self.start) as usize;
        trim(&mut self.start, &mut self.entries, &mut self.settled);
    }

    /// Returns the entries after a position, in order. Allocates nothing.
    pub fn from(&self, position: Seq) -> &[Entry]
        requires held { self.now.base ≤ position }
        requires known { position ≤ length_of self.now }
        ensures entries { result.now ≡ entries_after self.now position }
        ensures in_row { AreInRow (position + 1) result.now }
    {
        let first = (position.get() - self.start) as usize;
        &self.entries.as_slice()[first..]
    }
}

/// Moves an entry out of its slot. A placeholder without writes stays there until it is dropped.
fn taken_out(alloc: Global, entry: &mut Entry) -> Entry
    ensures { result ≡ entry.old }
{
    let empty = Entry {
        position: entry.position,
        origin_node: entry.origin_node,
        origin_ticket: entry.origin_ticket,
        client: entry.client,
        number: entry.number,
        reply: Reply::TooLong,
        writes: Items::new(alloc),
    };
    mem::replace(entry, empty)
}

/// Fewer settled entries than this stay stored while others follow them.
const FEW_SETTLED: usize = 64;

/// Drops the settled entries if they are all, or at least half of all and not few. The visible
/// entries are unchanged.
fn trim(start: &mut u64, entries: &mut Vec<Entry>, settled: &mut usize)
    requires { IsStored start.old settled.old entries.old.items }
    ensures base { start.new + settled.new ≡ start.old + settled.old }
    ensures entries { drop settled.new entries.new.items ≡ drop settled.old entries.old.items }
    ensures room { vec_capacity entries.old - vec_len entries.old ≤ vec_capacity entries.new - vec_len entries.new }
    ensures stored { IsStored start.new settled.new entries.new.items }
    ensures few { IsTrimmed settled.new entries.new.items }
{
    let others = entries.len() - *settled;
    if others == 0 || (*settled >= FEW_SETTLED && *settled >= others) {
        let_go(entries, *settled);
        *start += *settled as u64;
        *settled = 0;
    }
}

/// Drops the first `count` entries. Where they are all, no entry is moved. The vector keeps its
/// capacity.
fn let_go(entries: &mut Vec<Entry>, count: usize)
    requires { count ≤ vec_len entries.old }
    ensures items { entries.new.items ≡ drop count entries.old.items }
    ensures capacity { vec_capacity entries.new ≡ vec_capacity entries.old }
{
    if count == entries.len() {
        entries.clear();
    } else {
        entries.drain(..count);
    }
}
