//! `KeptItems`: the items of a version list. One item stands in place and takes no memory. Called by `list`.
ghost use Rattle.std.specs.Prelude.{◌≡◌, ◌+◌, ◌-◌, ◌<◌, ◌≤◌, [], ◌∷◌, ◌++◌, drop, length, take, slice_index_or, IfOk, IfSome, IsOk, IsSome, OnOk, OnErr, ◌↔◌};
ghost use Rattle.std.specs.VecDeque.{deque_len, deque_capacity};

use std::alloc::{AllocError, Global};
use std::boxed::Box;
use std::collections::VecDeque;
use std::marker::Model;
use std::mem;

/// The items, by how many they are.
#[derive(Drop)]
enum Kept<V> {
    Nothing,
    /// One item, in place.
    One(V),
    /// Any number of items, with room for more.
    Queue(Box<VecDeque<V>>),
}

/// Items in order. Most lists have one item; so one stands in place.
#[derive(Drop)]
pub(crate) struct KeptItems<V> {
    kept: Kept<V>,
    alloc: Global,
}

impl<V> Model for KeptItems<V> {
    ghost use Rattle.craq_versions.specs.Kept.{KeptItems as Items, items_kept};

    ghost Value = { Items V };

    ghost view = { λ s. items_kept s.kept };
}

/// Makes a queue with room for this many items. Fails only when out of memory.
fn queue_of<V: Drop>(alloc: Global, room: usize) -> Result<Box<VecDeque<V>>, AllocError>
    ensures items { IfOk result (λ queue. queue.value.items ≡ []) }
    ensures len { IfOk result (λ queue. deque_len queue.value ≡ 0) }
    ensures room { IfOk result (λ queue. room ≤ deque_capacity queue.value) }
{
    let queue = VecDeque::with_capacity(alloc, room)?;
    match Box::new(alloc, queue) {
        Ok(queue) => Ok(queue),
        Err(_) => Err(AllocError),
    }
}

impl<V: Drop> KeptItems<V> {
    /// Makes a list without items. It takes no memory.
    pub(crate) fn new(alloc: Global) -> Self
        ensures { result.items ≡ [] }
    {
        KeptItems {
            kept: Kept::Nothing,
            alloc,
        }
    }

    /// Makes a list of one item. It takes no memory.
    pub(crate) fn of_one(alloc: Global, item: V) -> Self
        ensures { result.items ≡ item ∷ [] }
    {
        KeptItems {
            kept: Kept::One(item),
            alloc,
        }
    }

    /// Makes a list without items that has room for this many. Fails only when out of memory.
    pub(crate) fn with_room(alloc: Global, room: usize) -> Result<Self, AllocError>
        ensures items { IfOk result (λ kept. kept.items ≡ []) }
        ensures room { IfOk result (λ kept. room ≤ kept.room) }
    {
        Ok(KeptItems {
            kept: Kept::Queue(queue_of(alloc, room)?),
            alloc,
        })
    }

    /// Counts the items.
    pub(crate) fn len(&self) -> usize
        ensures { result ≡ length self.now.items }
    {
        match &self.kept {
            Kept::Nothing => 0,
            Kept::One(_) => 1,
            Kept::Queue(queue) => queue.len(),
        }
    }

    /// Returns the item at an index, from 0; `None` where there are fewer.
    pub(crate) fn get(&self, index: usize) -> Option<&V>
        ensures variant { IsSome result ↔ (index < length self.now.items) }
        ensures lookup { IfSome result (λ item. item.now ≡ slice_index_or self.now.items index item.now) }
    {
        match &self.kept {
            Kept::Nothing => None,
            Kept::One(item) => { if index == 0 { Some(item) } else { None } }
            Kept::Queue(queue) => queue.get(index),
        }
    }

    /// Lends the item at an index, from 0.
    pub(crate) fn at(&self, index: usize) -> &V
        requires { index < length self.now.items }
        ensures { result.now ≡ slice_index_or self.now.items index result.now }
    {
        match &self.kept {
            Kept::Nothing => unreachable!(),
            Kept::One(item) => item,
            Kept::Queue(queue) => &queue[index],
        }
    }

    /// Moves what is in place into a queue with room for this many more.
    fn spread(&mut self, additional: usize) -> Result<(), AllocError>
        ensures items { self.new.items ≡ self.old.items }
        ensures ok { OnOk result (additional ≤ self.new.room) }
        ensures room { self.old.room ≤ self.new.room }
    {
        let room = additional.checked_add(1).ok_or(AllocError)?;
        let mut queue = queue_of(self.alloc, room)?;
        match mem::replace(&mut self.kept, Kept::Nothing) {
            Kept::Nothing => {}
            Kept::One(item) => queue.push_back_reserved(item),
            Kept::Queue(full) => {
                self.kept = Kept::Queue(full);
                return Err(AllocError);
            }
        }
        self.kept = Kept::Queue(queue);
        Ok(())
    }

    /// Makes room for this many more items. The items stay in either case. Fails only when out of memory, and never where
    /// there is room.
    pub(crate) fn reserve(&mut self, additional: usize) -> Result<(), AllocError>
        ensures items { self.new.items ≡ self.old.items }
        ensures ok { OnOk result (additional ≤ self.new.room) }
        ensures room { self.old.room ≤ self.new.room }
        ensures succeeds { additional ≤ self.old.room → IsOk result }
    {
        if additional == 0 {
            return Ok(());
        }
        match &mut self.kept {
            Kept::Queue(queue) => queue.reserve(additional),
            _ => self.spread(additional),
        }
    }

    /// Adds an item at the end. It takes no memory.
    pub(crate) fn push_reserved(&mut self, item: V)
        requires { 0 < self.old.room }
        ensures items { self.new.items ≡ self.old.items ++ item ∷ [] }
        ensures room { self.old.room ≤ self.new.room + 1 }
    {
        match &mut self.kept {
            Kept::Queue(queue) => queue.push_back_reserved(item),
            _ => self.kept = Kept::One(item),
        }
    }

    /// Removes the last item, if there is one. It takes no memory.
    pub(crate) fn pop(&mut self)
        ensures items { self.new.items ≡ take (length self.old.items - 1) self.old.items }
        ensures room { self.old.room ≤ self.new.room }
    {
        match &mut self.kept {
            Kept::Queue(queue) => {
                queue.pop_back();
            }
            _ => self.kept = Kept::Nothing,
        }
    }

    /// Removes this many items from the front. It takes no memory and keeps what there is.
    pub(crate) fn remove_first(&mut self, count: usize)
        requires { count ≤ length self.old.items }
        ensures items { self.new.items ≡ drop count self.old.items }
        ensures room { self.old.room ≤ self.new.room }
    {
        match &mut self.kept {
            Kept::Queue(queue) => let_go(queue, count),
            _ => {
                if count > 0 {
                    self.kept = Kept::Nothing;
                }
            }
        }
    }

    /// Removes this many items from the front, and replaces the one after them. Where that one is left alone it stands in
    /// place from then on. It takes no memory.
    pub(crate) fn replace_first(&mut self, count: usize, first: V)
        requires { count < length self.old.items }
        ensures items { self.new.items ≡ first ∷ drop (count + 1) self.old.items }
    {
        if self.len() == count + 1 {
            self.kept = Kept::One(first);
            return;
        }
        match &mut self.kept {
            Kept::Queue(queue) => replace_oldest(queue, count, first),
            _ => self.kept = Kept::One(first),
        }
    }
}

// Drops the first of the items, this many. The queue keeps its memory.
fn let_go<V: Drop>(items: &mut VecDeque<V>, count: usize)
    requires { count ≤ deque_len items.old }
    ensures items { items.new.items ≡ drop count items.old.items }
    ensures len { deque_len items.new + count ≡ deque_len items.old }
    ensures capacity { deque_capacity items.new ≡ deque_capacity items.old }
{
    items.drain(..count);
}

// Drops the first of the items, this many, and puts another in place of the one after them.
fn replace_oldest<V: Drop>(items: &mut VecDeque<V>, count: usize, first: V)
    requires { count < deque_len items.old }
    ensures items { items.new.items ≡ first ∷ drop (count + 1) items.old.items }
{
    let_go(items, count);
    if let Some(oldest) = items.front_mut() {
        *oldest = first;
    }
}
