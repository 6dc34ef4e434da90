//! `Chunks`: a list that grows without being moved. `map` keeps its buckets in it.
ghost use Rattle.std.specs.Prelude.{◌≡◌, ◌<◌, [], ◌∷◌, ◌++◌, Some, IsTrue, ◌↔◌, OnOk, OnErr, length, slice_get, slice_set};
ghost use Rattle.craq_key_map.specs.Chunked.{joined, AreChunks, HasRoom};

use std::alloc::{AllocError, Global};
use std::marker::Model;
use std::mem;

/// The number of items of a full chunk.
const CHUNK: usize = 1024;

/// Items in order, in chunks. To grow moves the items of one chunk at most.
#[derive(Drop)]
pub(crate) struct Chunks<X> {
    chunks: Vec<Vec<X>>,
    alloc: Global,
}

impl<X> Model for Chunks<X> {
    ghost use Rattle.std.specs.Prelude.{List};
    ghost use Rattle.craq_key_map.specs.Chunked.{joined, AreChunks};

    ghost Value = { List X };

    ghost view = { λ c. joined c.chunks.items };

    ghost invariant = { λ c. AreChunks c.chunks.items };
}

impl<X: Drop> Chunks<X> {
    /// Returns no items. Allocates nothing.
    pub(crate) fn new(alloc: Global) -> Self
        ensures { result ≡ [] }
    {
        Chunks {
            chunks: Vec::new(alloc),
            alloc,
        }
    }

    /// Lends the item at an index, from 0.
    pub(crate) fn get(&self, index: usize) -> &X
        requires { index < length self.now }
        ensures { slice_get self.now index ≡ Some result.now }
    {
        &self.chunks[index / CHUNK][index % CHUNK]
    }

    /// Replaces the item at an index, and returns the one that was there. Allocates nothing.
    pub(crate) fn replace(&mut self, index: usize, item: X) -> X
        requires { index < length self.old }
        ensures old { slice_get self.old index ≡ Some result }
        ensures new { self.new ≡ slice_set self.old index item }
    {
        mem::replace(&mut self.chunks[index / CHUNK][index % CHUNK], item)
    }

    /// Makes room for one more item, so that the next `push` allocates nothing. Fails only when out
    /// of memory; the items are unchanged in either case.
    pub(crate) fn reserve(&mut self) -> Result<(), AllocError>
        ensures { self.new ≡ self.old }
    {
        make_room(self.alloc, &mut self.chunks)?;
        reserve_last(&mut self.chunks)
    }

    /// Adds an item at the end. Fails only when out of memory; the items are unchanged on error.
    pub(crate) fn push(&mut self, item: X) -> Result<(), AllocError>
        ensures ok { OnOk result (self.new ≡ self.old ++ item ∷ []) }
        ensures err { OnErr result (self.new ≡ self.old) }
    {
        make_room(self.alloc, &mut self.chunks)?;
        push_last(&mut self.chunks, item)
    }
}

/// Returns true exactly if there is a chunk, and the last one is not full.
fn has_room<X>(chunks: &[Vec<X>]) -> bool
    ensures { IsTrue result ↔ HasRoom chunks.now }
{
    let count = chunks.len();
    count > 0 && chunks[count - 1].len() < CHUNK
}

/// Adds a chunk if the last one is full. Fails only when out of memory; the items are unchanged in
/// either case.
fn make_room<X: Drop>(alloc: Global, chunks: &mut Vec<Vec<X>>) -> Result<(), AllocError>
    requires { AreChunks chunks.old.items }
    ensures items { joined chunks.new.items ≡ joined chunks.old.items }
    ensures chunks { AreChunks chunks.new.items }
    ensures ok { OnOk result (HasRoom chunks.new.items) }
{
    if has_room(chunks.as_slice()) {
        return Ok(());
    }
    chunks.push(Vec::new(alloc))?;
    Ok(())
}

/// Reserves memory for one more item of the last chunk. Fails only when out of memory; the items are
/// unchanged in either case.
fn reserve_last<X: Drop>(chunks: &mut Vec<Vec<X>>) -> Result<(), AllocError>
    requires chunks { AreChunks chunks.old.items }
    requires room { HasRoom chunks.old.items }
    ensures items { joined chunks.new.items ≡ joined chunks.old.items }
    ensures chunks { AreChunks chunks.new.items }
{
    let last = chunks.len() - 1;
    chunks[last].reserve(1)
}

/// Adds an item to the last chunk. Fails only when out of memory; the items are unchanged on error.
fn push_last<X: Drop>(chunks: &mut Vec<Vec<X>>, item: X) -> Result<(), AllocError>
    requires chunks { AreChunks chunks.old.items }
    requires room { HasRoom chunks.old.items }
    ensures ok { OnOk result (joined chunks.new.items ≡ joined chunks.old.items ++ item ∷ []) }
    ensures err { OnErr result (joined chunks.new.items ≡ joined chunks.old.items) }
    ensures chunks { AreChunks chunks.new.items }
{
    let last = chunks.len() - 1;
    chunks[last].reserve(1)?;
    chunks[last].push_reserved(item);
    Ok(())
}

impl<K: Drop, T: Drop> Chunks<(K, T)> {
    /// Replaces the second part of the pair at an index, and returns the one that was there.
    /// Allocates nothing.
    pub(crate) fn replace_second(&mut self, index: usize, item: T) -> T
        requires { index < length self.old }
        ensures { (e : K × T) → slice_get self.old index ≡ Some e → (result ≡ e.1) × (self.new ≡ slice_set self.old index (e.0, item)) }
    {
        mem::replace(&mut self.chunks[index / CHUNK][index % CHUNK].1, item)
    }
}
