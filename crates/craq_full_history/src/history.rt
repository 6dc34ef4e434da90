//! `FullHistory`: a past that keeps every entry, the simplest `History`. Explanations are replayed
//! on it.
ghost use Rattle.std.specs.Prelude.{◌≡◌, ◌+◌, ◌-◌, ◌<◌, ◌^◌, false, length, take, drop, refl};
ghost use Rattle.craq_commands.specs.SingleCopy.{after_entries};
ghost use Rattle.craq_model.specs.Deliveries.{is_applicable};
ghost use Rattle.craq_model.specs.Past.{entries_in, newest_in};

use crate::lookups::{
    follows, is_new_after, last_position_of, object_after, object_within, said_after, version_later,
};
use crate::states::state_after;
use craq_commands::{Entry, RequestStatus, State};
use craq_history::{History, ObjectVersions};
use craq_names::{ClientId, Items, Key, RequestNo, Seq, Version};
use std::alloc::{AllocError, Global};

/// A past that keeps a state and every entry after it. Each call scans all of them, so its time is
/// linear in their number.
#[derive(Drop)]
pub struct FullHistory {
    base: Seq,
    base_state: State,
    entries: Vec<Entry>,
    acknowledged: Seq,
    ghost in_range: { base + length entries.items < 2 ^ 64 },
}

impl FullHistory {
    /// Returns true exactly if an entry fits the state after all entries and these earlier ones.
    #[tactic(auto, unfolding(craq_model::specs::Deliveries::is_applicable))]
    fn is_next(&self, earlier: &[Entry], entry: &Entry) -> bool
        ensures { result ≡ is_applicable (after_entries (newest_in (⟦<FullHistory as History>⟧.past self.now)) earlier.now) entry.now }
    {
        for write in entry.writes.as_slice() {
            let last = version_later(
                &self.base_state,
                self.entries.as_slice(),
                earlier,
                &write.key,
            );
            if !follows(write.version, last) {
                return false;
            }
        }
        is_new_after(
            &self.base_state,
            self.entries.as_slice(),
            earlier,
            entry.client,
            entry.number,
        )
    }

    /// Returns the entries after any position.
    pub fn entries_after(&self, position: u64) -> &[Entry]
        ensures { result.now ≡ entries_in (⟦<FullHistory as History>⟧.past self.now) position }
    {
        self.split(position).1
    }

    /// Returns the entries up to a position, and those after it.
    fn split(&self, position: u64) -> (&[Entry], &[Entry])
        ensures first { result.0.now ≡ take (position - self.now.base) self.now.entries.items }
        ensures later { result.1.now ≡ drop (position - self.now.base) self.now.entries.items }
    {
        let entries = self.entries.as_slice();
        let count = position.saturating_sub(self.base.get()) as usize;
        if count < entries.len() {
            entries.split_at(count)
        } else {
            (entries, &[])
        }
    }
}

impl History for FullHistory {
    ghost past = { λ h. record { base = h.base; base_state = h.base_state; entries = h.entries.items; acknowledged = h.acknowledged } };

    ghost in_memory = { λ h. record { base = h.base; base_state = h.base_state; entries = h.entries.items; acknowledged = h.acknowledged } };

    ghost forgets = { false };

    ghost is_remembered = { λ h. refl };

    fn new(alloc: Global) -> Self {
        FullHistory {
            base: Seq::new(0),
            base_state: State::new(alloc),
            entries: Vec::new(alloc),
            acknowledged: Seq::new(0),
        }
    }

    fn len(&self) -> u64 {
        self.base.get() + self.entries.len() as u64
    }

    fn acknowledged(&self) -> u64 {
        self.acknowledged.get()
    }

    fn newest(&self, key: &Key) -> (Version, &[u8]) {
        object_after(&self.base_state, self.entries.as_slice(), key)
    }

    fn clean(&self, key: &Key) -> (Version, &[u8]) {
        let (committed, _) = self.split(self.acknowledged.get());
        object_after(&self.base_state, committed, key)
    }

    fn versions(&self, key: &Key) -> ObjectVersions<'_> {
        ObjectVersions {
            newest: self.newest(key),
            clean: self.clean(key),
        }
    }

    fn within(&self, key: &Key, version: u64, above: u64) -> (Version, &[u8]) {
        let (committed, later) = self.split(self.acknowledged.get());
        object_within(&self.base_state, committed, later, key, version, above)
    }

    fn said(&self, client: ClientId, number: RequestNo) -> RequestStatus<'_> {
        said_after(&self.base_state, self.entries.as_slice(), client, number)
    }

    fn are_next(&self, entries: &[Entry]) -> bool {
        for place in 0..entries.len() {
            if !self.is_next(&entries[..place], &entries[place]) {
                return false;
            }
        }
        true
    }

    fn position_of(&self, client: ClientId) -> u64 {
        last_position_of(self.entries.as_slice(), client, self.base.get())
    }

    fn after(&self, position: u64) -> &[Entry] {
        self.entries_after(position)
    }

    fn append(&mut self, entries: Items<Entry>) -> Result<(), AllocError> {
        let mut more = entries.into_vec();
        self.entries.append(&mut more)?;
        Ok(())
    }

    fn acknowledge(&mut self, position: Seq) -> Result<(), AllocError> {
        self.acknowledged = position;
        Ok(())
    }

    fn snapshot(&self, alloc: Global) -> Result<State, AllocError> {
        let (committed, _) = self.split(self.acknowledged.get());
        state_after(alloc, &self.base_state, committed)
    }

    fn install(&mut self, position: Seq, state: State) -> Result<(), AllocError> {
        self.base = position;
        self.base_state = state;
        self.entries.clear();
        self.acknowledged = position;
        Ok(())
    }
}
