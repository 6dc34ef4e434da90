//! The trait `History`: storage of a node's past. The rules access the past only through it.
ghost use Rattle.std.specs.Prelude.{Bool, true, ◌≡◌, ◌≤◌, ◌+◌, ◌-◌, ◌<◌, ◌^◌, length, IfOk, OnOk, OnErr};
ghost use Rattle.std.specs.List.{AllByRecursion};
ghost use Rattle.craq_commands.specs.Objects.{object_of};
ghost use Rattle.craq_commands.specs.SingleCopy.{said};
ghost use Rattle.craq_commands.specs.Reported.{given_reply};
ghost use Rattle.craq_model.specs.Deliveries.{are_applicable};
ghost use Rattle.craq_model.specs.Encodable.{IsEncodableEntry};
ghost use Rattle.craq_node_invariant.specs.Sound.{AreInRow, IsSoundState};
ghost use Rattle.craq_node_invariant.specs.Compacted.{HoldsCommitted, remembered_in};
ghost use Rattle.craq_history.specs.InMemory.{ArePartlyApplied};
ghost use Rattle.craq_model.specs.Past.{Past, no_past, length_in, newest_in, clean_in, entries_in, object_within_in, last_position, with_entries_in, acknowledged_in, installed_in};

use craq_commands::{Entry, RequestStatus, State};
use craq_names::{ClientId, Items, Key, RequestNo, Seq, Version};
use std::alloc::{AllocError, Global};

/// The newest and the clean version of an object, with their values. The object is clean if they
/// are equal.
#[derive(Clone, Copy, Debug)]
pub struct ObjectVersions<'a> {
    /// The version and value after all entries.
    pub newest: (Version, &'a [u8]),
    /// The version and value after the committed entries.
    pub clean: (Version, &'a [u8]),
}

/// Storage of a node's past.
pub trait History: Drop {
    /// The past that it represents.
    ghost past: { Self → Past };

    /// The part in memory: a state, and the entries after it. A compacting history may still hold
    /// some settled entries.
    ghost in_memory: { Self → Past };

    /// True if it is compacting: it forgets settled entries, and represents a compacted past.
    ghost forgets: { Bool };

    /// Returns the empty history. Allocates nothing.
    fn new(alloc: Global) -> Self
        ensures { past result ≡ no_past };

    /// Returns the number of entries.
    fn len(&self) -> u64
        ensures { result ≡ length_in (past self.now) };

    /// Returns the commit index.
    fn acknowledged(&self) -> u64
        ensures { result ≡ (past self.now).acknowledged };

    /// Returns an object's newest version and value.
    fn newest(&self, key: &Key) -> (Version, &[u8])
        ensures object { (result.0, result.1.now) ≡ object_of (newest_in (past self.now)).objects key.now }
        ensures short { length result.1.now ≤ 4096 };

    /// Returns an object's clean version and value: those after the committed entries.
    fn clean(&self, key: &Key) -> (Version, &[u8])
        ensures object { (result.0, result.1.now) ≡ object_of (clean_in (past self.now)).objects key.now }
        ensures short { length result.1.now ≤ 4096 };

    /// Returns an object's newest and clean version, as `newest` and `clean` return them.
    fn versions(&self, key: &Key) -> ObjectVersions<'_>
        ensures newest { (result.newest.0, result.newest.1.now) ≡ object_of (newest_in (past self.now)).objects key.now }
        ensures clean { (result.clean.0, result.clean.1.now) ≡ object_of (clean_in (past self.now)).objects key.now }
        ensures short { length result.newest.1.now ≤ 4096 };

    /// Returns the newest version held, from the clean one on, that is at most `version + above`. A
    /// sum above 2^64 - 1 does not limit it.
    fn within(&self, key: &Key, version: u64, above: u64) -> (Version, &[u8])
        ensures object { (result.0, result.1.now) ≡ object_within_in (past self.now) key.now (version + above) }
        ensures short { length result.1.now ≤ 4096 };

    /// Looks up a client's request number in the newest state.
    fn said(&self, client: ClientId, number: RequestNo) -> RequestStatus<'_>
        ensures { given_reply result ≡ said (newest_in (past self.now)) client number };

    /// Returns true exactly if each entry fits the state after those before it: each write has its
    /// object's next version, and the request number is new. Allocates nothing.
    fn are_next(&self, entries: &[Entry]) -> bool
        ensures { result ≡ are_applicable (newest_in (past self.now)) entries.now };

    /// Returns the position of a client's newest entry, the base if none is known.
    fn position_of(&self, client: ClientId) -> u64
        ensures { result ≡ last_position client (past self.now).base (past self.now).entries };

    /// Returns the entries after a position, which is at least the commit index.
    fn after(&self, position: u64) -> &[Entry]
        requires from { (past self.now).acknowledged ≤ position }
        ensures { result.now ≡ entries_in (past self.now) position };

    /// Appends all of these entries at the next positions. Each is applicable after those before it
    /// and has an encoding. Fails only when out of memory; the past is unchanged on error.
    fn append(&mut self, entries: Items<Entry>) -> Result<(), AllocError>
        requires fits { length_in (past self.old) + length entries < 2 ^ 64 }
        requires in_row { AreInRow (length_in (past self.old) + 1) entries }
        requires applicable { are_applicable (newest_in (past self.old)) entries ≡ true }
        requires spelled { AllByRecursion IsEncodableEntry entries }
        ensures ok { OnOk result (past self.new ≡ with_entries_in (past self.old) entries) }
        ensures err { OnErr result (past self.new ≡ past self.old) };

    /// Commits the entries up to the position, even on error. A compacting history forgets settled
    /// entries now. After `Ok` no forgotten entry is in memory. On an error, out of memory, at
    /// least one settled entry, those after some position below this one, stays in memory; nothing
    /// else that is visible differs. The next call tries again, and after its `Ok` they are gone
    /// too.
    fn acknowledge(&mut self, position: Seq) -> Result<(), AllocError>
        requires { HoldsCommitted (acknowledged_in (past self.old) position) }
        ensures past { past self.new ≡ remembered_in forgets (acknowledged_in (past self.old) position) }
        ensures ok { OnOk result (in_memory self.new ≡ past self.new) }
        ensures err { OnErr result (ArePartlyApplied (acknowledged_in (in_memory self.old) position) (in_memory self.new)) };

    /// Returns the state after the committed entries. Fails only when out of memory.
    fn snapshot(&self, alloc: Global) -> Result<State, AllocError>
        ensures { IfOk result (λ s. s ≡ clean_in (past self.now)) };

    /// Replaces the history by the state after a position. Fails only when out of memory; the past
    /// is unchanged on error.
    fn install(&mut self, position: Seq, state: State) -> Result<(), AllocError>
        requires { IsSoundState state }
        ensures ok { OnOk result (past self.new ≡ installed_in position state) }
        ensures err { OnErr result (past self.new ≡ past self.old) };

    /// A compacting history does not remember settled entries.
    ghost is_remembered: { (h : Self) → remembered_in forgets (past h) ≡ past h };
}
