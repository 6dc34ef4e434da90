//! `Index`: the places of items by the hashes of their keys. `map` calls this.
ghost use Rattle.std.specs.Prelude.{◌≡◌, ◌+◌, ◌<◌, ◌≤◌, ◌^◌, [], ◌∷◌, ◌++◌, IfOk, OnOk, OnErr, length};
ghost use Rattle.craq_key_map.specs.Indexed.{slots_of, slots_going, slots_staying, Keeps, Knows};

use crate::chunks::Chunks;
use crate::layout::Layout;
use std::alloc::{AllocError, Global};
use std::marker::Model;

/// The number of buckets of an index with its first item.
const FIRST_BUCKETS: usize = 64;

/// The number of slots by which a full bucket grows.
const MORE_SLOTS: usize = 4;

/// The hash of a key, and the place of its item.
#[derive(Clone, Copy, Drop)]
pub(crate) struct Slot {
    pub(crate) hash: u32,
    pub(crate) place: u32,
}

/// The slots of the hashes of one bucket, in any order.
type Bucket = Vec<Slot>;

/// The places of items, in buckets by the hashes of their keys. An index grows by one bucket at a
/// time: `split` makes two of one.
#[derive(Drop)]
pub(crate) struct Index {
    buckets: Chunks<Bucket>,
    layout: Layout,
    alloc: Global,
}

impl Model for Index {
    ghost use Rattle.std.specs.Prelude.{◌≡◌, ◌+◌, ◌<◌, ◌^◌, length};
    ghost use Rattle.craq_key_map.specs.Indexed.{Indexed, IsIndexed, indexed};

    ghost Value = { Indexed };

    ghost view = { λ s. indexed s.buckets s.layout };

    ghost invariant = { λ s. IsIndexed (indexed s.buckets s.layout) × (s.layout.count ≡ length s.buckets) × (s.layout.half + s.layout.half < 2 ^ 64) };
}

/// Returns the first buckets, without slots. Fails only when out of memory.
fn empty_buckets(alloc: Global) -> Result<Chunks<Bucket>, AllocError>
    ensures count { IfOk result (λ buckets. length buckets ≡ FIRST_BUCKETS) }
{
    let mut buckets = Chunks::new(alloc);
    for _ in 0..FIRST_BUCKETS {
        buckets.push(Vec::new(alloc))?;
    }
    Ok(buckets)
}

/// Adds a slot to a bucket. Fails only when out of memory; the bucket is unchanged on error.
fn add_to(bucket: &mut Bucket, slot: Slot) -> Result<(), AllocError>
    ensures ok { OnOk result (bucket.new.items ≡ bucket.old.items ++ slot ∷ []) }
    ensures err { OnErr result (bucket.new.items ≡ bucket.old.items) }
{
    if bucket.len() == bucket.capacity() {
        bucket.reserve_exact(MORE_SLOTS)?;
    }
    bucket.push_reserved(slot);
    Ok(())
}

/// Copies the slots of a bucket that go to the next bucket to `next`, and the others to `rest`, in
/// order. Fails only when out of memory.
fn deal(
    layout: &Layout,
    bucket: &[Slot],
    rest: &mut Bucket,
    next: &mut Bucket,
) -> Result<(), AllocError>
    requires some { 0 < layout.now.half }
    requires from { layout.now.half ≤ layout.now.count }
    requires to { layout.now.count < layout.now.half + layout.now.half }
    requires fits { layout.now.half + layout.now.half < 2 ^ 64 }
    ensures rest { OnOk result (rest.new.items ≡ rest.old.items ++ slots_staying layout.now.half layout.now.count bucket.now) }
    ensures next { OnOk result (next.new.items ≡ next.old.items ++ slots_going layout.now.half layout.now.count bucket.now) }
{
    for index in 0..bucket.len() {
        let slot = bucket[index];
        if layout.goes(slot.hash) {
            add_to(next, slot)?;
        } else {
            add_to(rest, slot)?;
        }
    }
    Ok(())
}

impl Index {
    /// Returns the empty index. Allocates nothing.
    pub(crate) fn new(alloc: Global) -> Self {
        Index {
            buckets: Chunks::new(alloc),
            layout: Layout { half: 0, count: 0 },
            alloc,
        }
    }

    /// Returns the number of buckets.
    pub(crate) fn count(&self) -> usize {
        self.layout.count
    }

    /// Lends the slots of a hash, and others of its bucket.
    pub(crate) fn slots(&self, hash: u32) -> &[Slot]
        ensures { result.now ≡ slots_of self.now hash }
    {
        if self.layout.half == 0 {
            return &[];
        }
        self.buckets.get(self.layout.bucket(hash)).as_slice()
    }

    /// Makes the first buckets, if there are none. Fails only when out of memory.
    fn open(&mut self) -> Result<(), AllocError>
        ensures keeps { Keeps self.old self.new }
        ensures ok { OnOk result (0 < length self.new.buckets) }
    {
        if self.layout.half > 0 {
            return Ok(());
        }
        self.buckets = empty_buckets(self.alloc)?;
        self.layout.half = FIRST_BUCKETS;
        self.layout.count = FIRST_BUCKETS;
        Ok(())
    }

    /// Adds the place of an item by the hash of its key. Fails only when out of memory.
    pub(crate) fn add(&mut self, hash: u32, place: u32) -> Result<(), AllocError>
        ensures keeps { Keeps self.old self.new }
        ensures ok { OnOk result (Knows self.new hash place) }
    {
        self.open()?;
        self.add_slot(hash, place)
    }

    /// Adds a slot to its bucket. Fails only when out of memory.
    fn add_slot(&mut self, hash: u32, place: u32) -> Result<(), AllocError>
        requires { 0 < length self.old.buckets }
        ensures keeps { Keeps self.old self.new }
        ensures ok { OnOk result (Knows self.new hash place) }
    {
        let at = self.layout.bucket(hash);
        let mut bucket = self.buckets.replace(at, Vec::new(self.alloc));
        let added = add_to(&mut bucket, Slot { hash, place });
        self.buckets.replace(at, bucket);
        added
    }

    /// Splits the next bucket in turn, if there are buckets. Fails only when out of memory.
    pub(crate) fn split(&mut self) -> Result<(), AllocError>
        ensures keeps { Keeps self.old self.new }
    {
        if self.layout.half == 0 {
            return Ok(());
        }
        self.double()?;
        self.split_next()
    }

    /// Ends the round of splits, if each bucket was split since the last doubling. Fails only when
    /// there are 2^63 buckets.
    fn double(&mut self) -> Result<(), AllocError>
        requires { 0 < self.old.half }
        ensures keeps { Keeps self.old self.new }
        ensures some { 0 < self.new.half }
        ensures ok { OnOk result (length self.new.buckets < self.new.half + self.new.half) }
    {
        if self.layout.count < self.layout.half + self.layout.half {
            return Ok(());
        }
        if self.layout.count > usize::MAX / 2 {
            return Err(AllocError);
        }
        self.layout.half = self.layout.count;
        Ok(())
    }

    /// Splits the next bucket in turn, which adds a bucket. Fails only when out of memory.
    fn split_next(&mut self) -> Result<(), AllocError>
        requires some { 0 < self.old.half }
        requires to { length self.old.buckets < self.old.half + self.old.half }
        ensures keeps { Keeps self.old self.new }
    {
        let from = self.layout.count - self.layout.half;
        let mut rest = Vec::new(self.alloc);
        let mut next = Vec::new(self.alloc);
        deal(
            &self.layout,
            self.buckets.get(from).as_slice(),
            &mut rest,
            &mut next,
        )?;
        self.buckets.push(next)?;
        self.buckets.replace(from, rest);
        self.layout.count += 1;
        Ok(())
    }
}
