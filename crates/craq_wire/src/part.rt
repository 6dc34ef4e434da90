//! `MessagePart`, the trait of a value inside a message, and its implementations for keys, values, objects
//! and pairs; used by the other modules and `craq_frames`.
ghost use Rattle.std.specs.Prelude.{◌≡◌, ◌<◌, ◌≤◌, ◌^◌, ⊤, ℕ, List, Option, ◌++◌, OnOk, OnErr};
ghost use Rattle.std.specs.Int.{w16, w32, w64};
ghost use Rattle.std.specs.Io.{StartsWith};
ghost use Rattle.craq_wire.specs.NumberReading.{Decodes, number_at};
ghost use Rattle.craq_wire.specs.PartReading.{key_at, value_at, object_at, request_at, pair_at};
ghost use Rattle.craq_wire.specs.NumberEncoding.{number};
ghost use Rattle.craq_wire.specs.PartEncoding.{key, value, object, pair, IsKey, IsValue, IsObject, IsPair};

use crate::undo::undo_if_err;
use crate::{
    DecodeError, read_bytes, read_u8, read_u16, read_u32, read_u64, write_u8, write_u16, write_u32,
    write_u64,
};
use bytes::{BufMut, BytesMut};
use craq_names::{ChainId, ClientId, Key, NodeId, ObjectId, RequestNo, Value, Version};
use std::alloc::{AllocError, Global};

/// A part of a message that occurs in lists or in other parts.
pub trait MessagePart: Drop {
    /// Gives the encoding of a value.
    ghost encoding: { Self → List ℕ };

    /// Holds if each number and length of the value fits its width.
    ghost fits: { Self → Type 0 };

    /// Holds if the value may be written.
    ghost is_writable: { Self → Type 0 };

    /// Gives the value at the front of bytes and the bytes after it.
    ghost part_at: { List ℕ → Option (Self × List ℕ) };

    /// Reads the value at the front; returns it with the bytes after it. `BadFrame` exactly if no
    /// value is at the front; `Memory` if an allocation failed. Allocates only after it has seen
    /// the bytes to be stored.
    fn read(alloc: Global, bytes: &[u8]) -> Result<(Self, &[u8]), DecodeError>
        ensures { Decodes (λ x. (x.0, x.1.now)) result (part_at bytes.now) };

    /// Appends the value's bytes. Fails only when out of memory: the old bytes are then still in
    /// front, and unspecified bytes may follow them. `write` leaves none.
    fn append(&self, out: &mut BytesMut) -> Result<(), AllocError>
        requires { is_writable self.now }
        ensures fits { OnOk result (fits self.now) }
        ensures spelled { OnOk result (out.new.items ≡ out.old.items ++ encoding self.now) }
        ensures appends { OnErr result (StartsWith out.new.items out.old.items) };

    /// Writes the value at the end. Fails only when out of memory; the bytes are then unchanged.
    final fn write(&self, out: &mut BytesMut) -> Result<(), AllocError>
        requires { is_writable self.now }
        ensures fits { OnOk result (fits self.now) }
        ensures spelled { OnOk result (out.new.items ≡ out.old.items ++ encoding self.now) }
        ensures same { OnErr result (out.new.items ≡ out.old.items) }
    {
        let len = out.len();
        let written = self.append(out);
        undo_if_err(out, len, written)
    }
}

impl MessagePart for NodeId {
    ghost encoding = { number w32 };

    ghost fits = { λ id. id < 2 ^ 32 };

    ghost is_writable = { λ _. ⊤ };

    ghost part_at = { number_at w32 };

    fn read(_alloc: Global, bytes: &[u8]) -> Result<(Self, &[u8]), DecodeError> {
        let (id, rest) = read_u32(bytes)?;
        Ok((NodeId::new(id), rest))
    }

    fn append(&self, out: &mut BytesMut) -> Result<(), AllocError> {
        write_u32(out, self.get())
    }
}

impl MessagePart for Version {
    ghost encoding = { number w64 };

    ghost fits = { λ version. version < 2 ^ 64 };

    ghost is_writable = { λ _. ⊤ };

    ghost part_at = { number_at w64 };

    fn read(_alloc: Global, bytes: &[u8]) -> Result<(Self, &[u8]), DecodeError> {
        let (version, rest) = read_u64(bytes)?;
        Ok((Version::new(version), rest))
    }

    fn append(&self, out: &mut BytesMut) -> Result<(), AllocError> {
        write_u64(out, self.get())
    }
}

impl MessagePart for ClientId {
    ghost encoding = { number w64 };

    ghost fits = { λ id. id < 2 ^ 64 };

    ghost is_writable = { λ _. ⊤ };

    ghost part_at = { number_at w64 };

    fn read(_alloc: Global, bytes: &[u8]) -> Result<(Self, &[u8]), DecodeError> {
        let (id, rest) = read_u64(bytes)?;
        Ok((ClientId::new(id), rest))
    }

    fn append(&self, out: &mut BytesMut) -> Result<(), AllocError> {
        write_u64(out, self.get())
    }
}

impl MessagePart for RequestNo {
    ghost encoding = { number w64 };

    ghost fits = { λ n. (1 ≤ n) × (n < 2 ^ 64) };

    ghost is_writable = { λ _. ⊤ };

    ghost part_at = { request_at };

    #[tactic(auto, unfolding(crate::specs::PartReading::request_at))]
    fn read(_alloc: Global, bytes: &[u8]) -> Result<(Self, &[u8]), DecodeError> {
        let (n, rest) = read_u64(bytes)?;
        match RequestNo::new(n) {
            Ok(number) => Ok((number, rest)),
            Err(_) => Err(DecodeError::BadFrame),
        }
    }

    fn append(&self, out: &mut BytesMut) -> Result<(), AllocError> {
        write_u64(out, self.get())
    }
}

impl MessagePart for Key {
    ghost encoding = { key };

    ghost fits = { IsKey };

    ghost is_writable = { λ _. ⊤ };

    ghost part_at = { key_at };

    #[tactic(auto, unfolding(crate::specs::PartReading::key_at))]
    fn read(alloc: Global, bytes: &[u8]) -> Result<(Self, &[u8]), DecodeError> {
        let (len, rest) = read_u8(bytes)?;
        let len = len as usize;
        if len == 0 {
            return Err(DecodeError::BadFrame);
        }
        if Key::MAX < len {
            return Err(DecodeError::BadFrame);
        }
        let (text, rest) = read_bytes(len, rest)?;
        match Key::new(alloc, text) {
            Ok(key) => Ok((key, rest)),
            Err(_) => Err(DecodeError::Memory),
        }
    }

    fn append(&self, out: &mut BytesMut) -> Result<(), AllocError> {
        let text = self.as_slice();
        write_u8(out, text.len() as u8)?;
        out.put_slice(text)
    }
}

impl MessagePart for Value {
    ghost encoding = { value };

    ghost fits = { IsValue };

    ghost is_writable = { λ _. ⊤ };

    ghost part_at = { value_at };

    #[tactic(auto, unfolding(crate::specs::PartReading::value_at))]
    fn read(alloc: Global, bytes: &[u8]) -> Result<(Self, &[u8]), DecodeError> {
        let (len, rest) = read_u16(bytes)?;
        let len = len as usize;
        if Value::MAX < len {
            return Err(DecodeError::BadFrame);
        }
        let (text, rest) = read_bytes(len, rest)?;
        match Value::new(alloc, text) {
            Ok(value) => Ok((value, rest)),
            Err(_) => Err(DecodeError::Memory),
        }
    }

    fn append(&self, out: &mut BytesMut) -> Result<(), AllocError> {
        let text = self.as_slice();
        write_u16(out, text.len() as u16)?;
        out.put_slice(text)
    }
}

impl MessagePart for ObjectId {
    ghost encoding = { object };

    ghost fits = { IsObject };

    ghost is_writable = { λ _. ⊤ };

    ghost part_at = { object_at };

    #[tactic(auto, unfolding(crate::specs::PartReading::object_at))]
    fn read(alloc: Global, bytes: &[u8]) -> Result<(Self, &[u8]), DecodeError> {
        let (chain, rest) = read_u16(bytes)?;
        let (key, rest) = Key::read(alloc, rest)?;
        let chain = ChainId::new(chain);
        Ok((ObjectId { chain, key }, rest))
    }

    fn append(&self, out: &mut BytesMut) -> Result<(), AllocError> {
        write_u16(out, self.chain.get())?;
        self.key.write(out)
    }
}

impl<A: MessagePart, B: MessagePart> MessagePart for (A, B) {
    ghost encoding = { pair A.encoding B.encoding };

    ghost fits = { IsPair A.fits B.fits };

    ghost is_writable = { IsPair A.is_writable B.is_writable };

    ghost part_at = { pair_at A.part_at B.part_at };

    #[tactic(auto, unfolding(crate::specs::PartReading::pair_at))]
    fn read(alloc: Global, bytes: &[u8]) -> Result<(Self, &[u8]), DecodeError> {
        let (first, rest) = A::read(alloc, bytes)?;
        let (second, rest) = B::read(alloc, rest)?;
        Ok(((first, second), rest))
    }

    fn append(&self, out: &mut BytesMut) -> Result<(), AllocError> {
        self.0.write(out)?;
        self.1.write(out)
    }
}
