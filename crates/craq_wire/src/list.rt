//! Lists of parts, with a count in front or without one; used by the readers and writers of
//! messages.
ghost use Rattle.std.specs.Prelude.{◌≡◌, ◌<◌, ◌^◌, ◌++◌, length, OnOk, OnErr};
ghost use Rattle.std.specs.List.{flat_map, AllByRecursion};
ghost use Rattle.std.specs.Int.{w8, w32};
ghost use Rattle.craq_wire.specs.NumberReading.{Decodes};
ghost use Rattle.craq_wire.specs.PartReading.{many_at, counted_at};
ghost use Rattle.craq_wire.specs.PartEncoding.{counted, AreCounted};

use crate::undo::undo_if_err;
use crate::{DecodeError, MessagePart, read_u8, read_u32, write_u8, write_u32};
use bytes::BytesMut;
use craq_names::Items;
use std::alloc::{AllocError, Global};

/// Reads `count` values from the front; returns them with the bytes after them. `BadFrame` exactly
/// if fewer values are at the front; `Memory` if an allocation failed. Allocates only for values
/// that were read.
pub fn read_parts<T: MessagePart>(
    alloc: Global,
    count: usize,
    bytes: &[u8],
) -> Result<(Items<T>, &[u8]), DecodeError>
    ensures { Decodes (λ x. (x.0, x.1.now)) result (many_at T.part_at count bytes.now) }
{
    let mut parts = Items::new(alloc);
    let mut rest = bytes;
    for _ in 0..count {
        let (part, after) = T::read(alloc, rest)?;
        parts.push(part)?;
        rest = after;
    }
    Ok((parts, rest))
}

/// Writes the values at the end, one after the other. Fails only when out of memory; the bytes are
/// then unchanged.
pub fn write_parts<T: MessagePart>(out: &mut BytesMut, parts: &[T]) -> Result<(), AllocError>
    requires { AllByRecursion T.is_writable parts.now }
    ensures fits { OnOk result (AllByRecursion T.fits parts.now) }
    ensures spelled { OnOk result (out.new.items ≡ out.old.items ++ flat_map T.encoding parts.now) }
    ensures same { OnErr result (out.new.items ≡ out.old.items) }
{
    let len = out.len();
    for part in parts {
        let written = part.write(out);
        undo_if_err(out, len, written)?;
    }
    Ok(())
}

/// Reads a count of one byte and that number of values; returns them with the bytes after them.
/// `BadFrame` exactly if no such list is at the front; `Memory` if an allocation failed.
#[tactic(auto, unfolding(crate::specs::PartReading::counted_at))]
pub fn read_short_list<T: MessagePart>(
    alloc: Global,
    bytes: &[u8],
) -> Result<(Items<T>, &[u8]), DecodeError>
    ensures { Decodes (λ x. (x.0, x.1.now)) result (counted_at w8 T.part_at bytes.now) }
{
    let (count, rest) = read_u8(bytes)?;
    read_parts(alloc, count as usize, rest)
}

/// Reads a count of 4 bytes and that number of values; returns them with the bytes after them.
/// `BadFrame` exactly if no such list is at the front; `Memory` if an allocation failed.
#[tactic(auto, unfolding(crate::specs::PartReading::counted_at))]
pub fn read_long_list<T: MessagePart>(
    alloc: Global,
    bytes: &[u8],
) -> Result<(Items<T>, &[u8]), DecodeError>
    ensures { Decodes (λ x. (x.0, x.1.now)) result (counted_at w32 T.part_at bytes.now) }
{
    let (count, rest) = read_u32(bytes)?;
    read_parts(alloc, count as usize, rest)
}

/// Writes at most 255 values at the end, after a count of one byte. Fails only when out of memory;
/// the bytes are then unchanged.
pub fn write_short_list<T: MessagePart>(out: &mut BytesMut, parts: &[T]) -> Result<(), AllocError>
    requires few { length parts.now < 2 ^ 8 }
    requires writable { AllByRecursion T.is_writable parts.now }
    ensures fits { OnOk result (AreCounted w8 T.fits parts.now) }
    ensures spelled { OnOk result (out.new.items ≡ out.old.items ++ counted w8 T.encoding parts.now) }
    ensures same { OnErr result (out.new.items ≡ out.old.items) }
{
    let len = out.len();
    write_u8(out, parts.len() as u8)?;
    let written = write_parts(out, parts);
    undo_if_err(out, len, written)
}

/// Writes fewer than 2^32 values at the end, after a count of 4 bytes. Fails only when out of
/// memory; the bytes are then unchanged.
pub fn write_long_list<T: MessagePart>(out: &mut BytesMut, parts: &[T]) -> Result<(), AllocError>
    requires few { length parts.now < 2 ^ 32 }
    requires writable { AllByRecursion T.is_writable parts.now }
    ensures fits { OnOk result (AreCounted w32 T.fits parts.now) }
    ensures spelled { OnOk result (out.new.items ≡ out.old.items ++ counted w32 T.encoding parts.now) }
    ensures same { OnErr result (out.new.items ≡ out.old.items) }
{
    let len = out.len();
    write_u32(out, parts.len() as u32)?;
    let written = write_parts(out, parts);
    undo_if_err(out, len, written)
}
