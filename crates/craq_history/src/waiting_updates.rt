//! `WaitingUpdates`: the updates that wait at a node, in the order of their requests.
ghost use Rattle.std.specs.Prelude.{◌≡◌, ◌<◌, ◌+◌, ◌-◌, ◌++◌, ◌∷◌, [], true, length, slice_index_or, IsOk, OnOk};
ghost use Rattle.craq_model.specs.Deliveries.{later_updates};
ghost use Rattle.craq_history.specs.Waiting.{rise};

use craq_model::WaitingUpdate;
use craq_names::Seq;
use std::alloc::{AllocError, Global};
use std::collections::VecDeque;
use std::marker::Model;

/// Updates that wait for a reply, in the order of their requests. A contract sees the list of them,
/// and for how many more there is room.
///
/// Their positions rise, except that a repeated request waits for its first position. While they
/// rise, an acknowledgement looks only at the updates that it answers and at one more. Otherwise it
/// looks at all of them.
#[derive(Drop)]
pub struct WaitingUpdates {
    items: VecDeque<WaitingUpdate>,
    /// True exactly if no position is below an earlier one.
    rise: bool,
}

impl Model for WaitingUpdates {
    ghost use Rattle.std.specs.Prelude.{◌≡◌, ◌-◌};
    ghost use Rattle.std.specs.VecDeque.{deque_capacity, deque_len};
    ghost use Rattle.craq_history.specs.Waiting.{Waiting, rise as does_rise};

    ghost Value = { Waiting };

    ghost view = { λ w. record { items = w.items.items; room = deque_capacity w.items - deque_len w.items } };

    ghost invariant = { λ w. w.rise ≡ does_rise w.items.items };
}

/// Returns true exactly if no position is below an earlier one. Looks at each update.
fn do_rise(items: &VecDeque<WaitingUpdate>) -> bool
    ensures { result ≡ rise items.now.items }
{
    let mut low = 0;
    for place in 0..items.len() {
        let position = items[place].position.get();
        if position < low {
            return false;
        }
        low = position;
    }
    true
}

/// Drops the first updates that wait for at most this position.
fn drop_first(items: &mut VecDeque<WaitingUpdate>, position: Seq)
    requires { rise items.old.items ≡ true }
    ensures left { items.new.items ≡ later_updates position items.old.items }
    ensures rise { rise items.new.items ≡ true }
{
    while let Some(first) = items.front() {
        if position < first.position {
            return;
        }
        drop(items.pop_front());
    }
}

impl WaitingUpdates {
    /// Makes an empty queue. Never allocates.
    pub fn new(alloc: Global) -> Self
        ensures { result.items ≡ [] }
    {
        WaitingUpdates {
            items: VecDeque::new(alloc),
            rise: true,
        }
    }

    /// Returns the number of updates.
    pub fn len(&self) -> usize
        ensures { result ≡ length self.now.items }
    {
        self.items.len()
    }

    /// Returns the update at an index.
    pub fn get(&self, place: usize) -> &WaitingUpdate
        requires { place < length self.now.items }
        ensures { result.now ≡ slice_index_or self.now.items place result.now }
    {
        &self.items[place]
    }

    /// Returns true exactly if no position is below an earlier one.
    pub fn rise(&self) -> bool
        ensures { result ≡ rise self.now.items }
    {
        self.rise
    }

    /// Reserves room for one more update. Fails only when out of memory.
    pub fn reserve(&mut self) -> Result<(), AllocError>
        ensures items { self.new.items ≡ self.old.items }
        ensures room { OnOk result (0 < self.new.room) }
    {
        self.items.reserve(1)
    }

    /// Returns true exactly if no position is below an earlier one with this update behind the
    /// others.
    fn rises_with(&self, update: &WaitingUpdate) -> bool
        ensures { result ≡ rise (self.now.items ++ update.now ∷ []) }
    {
        match self.items.back() {
            None => true,
            Some(last) => self.rise && last.position <= update.position,
        }
    }

    /// Appends an update in reserved room. Allocates nothing.
    pub fn push(&mut self, update: WaitingUpdate)
        requires { 0 < self.old.room }
        ensures { self.new.items ≡ self.old.items ++ update ∷ [] }
    {
        self.rise = self.rises_with(&update);
        self.items.push_back_reserved(update);
    }

    /// Keeps only the updates that wait for a later position.
    pub fn keep_later(&mut self, position: Seq)
        ensures { self.new.items ≡ later_updates position self.old.items }
    {
        if self.rise {
            drop_first(&mut self.items, position);
        } else {
            self.items.retain(|update| position < update.position);
            self.rise = do_rise(&self.items);
        }
    }

    /// Drops all updates.
    pub fn clear(&mut self)
        ensures { self.new.items ≡ [] }
    {
        self.items.clear();
        self.rise = true;
    }
}
