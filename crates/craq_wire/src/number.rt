//! Numbers of 1, 2, 4 and 8 bytes and runs of bytes, read from the front of bytes and written at
//! the end of a buffer; used by the other modules and `craq_frames`.
ghost use Rattle.std.specs.Prelude.{◌≡◌, ◌≢◌, ◌++◌, Err, OnOk, OnErr};
ghost use Rattle.std.specs.Int.{w8, w16, w32, w64};
ghost use Rattle.craq_wire.specs.NumberReading.{Decodes, bytes_at, number_at};
ghost use Rattle.craq_wire.specs.NumberEncoding.{number};

use crate::DecodeError;
use bytes::{BufMut, BytesMut};
use std::alloc::AllocError;

/// Reads the byte at the front; returns it with the bytes after it. `BadFrame` exactly if there is
/// none. Never allocates.
#[tactic(auto, unfolding(crate::specs::NumberReading::number_at))]
pub fn read_u8(bytes: &[u8]) -> Result<(u8, &[u8]), DecodeError>
    ensures value { Decodes (λ x. (x.0, x.1.now)) result (number_at w8 bytes.now) }
    ensures free { result ≢ Err DecodeError.Memory }
{
    if bytes.len() < 1 {
        return Err(DecodeError::BadFrame);
    }
    let (front, rest) = bytes.split_at(1);
    Ok((front[0], rest))
}

/// Reads the number of 2 bytes at the front; returns it with the bytes after it. `BadFrame` exactly
/// if there are fewer bytes. Never allocates.
#[tactic(auto, unfolding(crate::specs::NumberReading::number_at))]
pub fn read_u16(bytes: &[u8]) -> Result<(u16, &[u8]), DecodeError>
    ensures value { Decodes (λ x. (x.0, x.1.now)) result (number_at w16 bytes.now) }
    ensures free { result ≢ Err DecodeError.Memory }
{
    if bytes.len() < 2 {
        return Err(DecodeError::BadFrame);
    }
    let (front, rest) = bytes.split_at(2);
    let number = u16::from_be_bytes([front[0], front[1]]);
    Ok((number, rest))
}

/// Reads the number of 4 bytes at the front; returns it with the bytes after it. `BadFrame` exactly
/// if there are fewer bytes. Never allocates.
#[tactic(auto, unfolding(crate::specs::NumberReading::number_at))]
pub fn read_u32(bytes: &[u8]) -> Result<(u32, &[u8]), DecodeError>
    ensures value { Decodes (λ x. (x.0, x.1.now)) result (number_at w32 bytes.now) }
    ensures free { result ≢ Err DecodeError.Memory }
{
    if bytes.len() < 4 {
        return Err(DecodeError::BadFrame);
    }
    let (front, rest) = bytes.split_at(4);
    let number = u32::from_be_bytes([front[0], front[1], front[2], front[3]]);
    Ok((number, rest))
}

/// Reads the number of 8 bytes at the front; returns it with the bytes after it. `BadFrame` exactly
/// if there are fewer bytes. Never allocates.
#[tactic(auto, unfolding(crate::specs::NumberReading::number_at))]
pub fn read_u64(bytes: &[u8]) -> Result<(u64, &[u8]), DecodeError>
    ensures value { Decodes (λ x. (x.0, x.1.now)) result (number_at w64 bytes.now) }
    ensures free { result ≢ Err DecodeError.Memory }
{
    if bytes.len() < 8 {
        return Err(DecodeError::BadFrame);
    }
    let (front, rest) = bytes.split_at(8);
    let number = u64::from_be_bytes([
        front[0], front[1], front[2], front[3], front[4], front[5], front[6], front[7],
    ]);
    Ok((number, rest))
}

/// Takes `count` bytes from the front; returns them with the bytes after them. `BadFrame` exactly
/// if there are fewer bytes. Never allocates.
#[tactic(auto, unfolding(crate::specs::NumberReading::bytes_at))]
pub fn read_bytes(count: usize, bytes: &[u8]) -> Result<(&[u8], &[u8]), DecodeError>
    ensures value { Decodes (λ x. (x.0.now, x.1.now)) result (bytes_at count bytes.now) }
    ensures free { result ≢ Err DecodeError.Memory }
{
    if bytes.len() < count {
        return Err(DecodeError::BadFrame);
    }
    Ok(bytes.split_at(count))
}

/// Writes a byte at the end. Fails only when out of memory; the bytes are then unchanged.
#[tactic(auto, unfolding(crate::specs::NumberEncoding::number))]
pub fn write_u8(out: &mut BytesMut, n: u8) -> Result<(), AllocError>
    ensures spelled { OnOk result (out.new.items ≡ out.old.items ++ number w8 n) }
    ensures same { OnErr result (out.new.items ≡ out.old.items) }
{
    out.put_u8(n)
}

/// Writes a number as 2 bytes at the end. Fails only when out of memory; the bytes are then
/// unchanged.
#[tactic(auto, unfolding(crate::specs::NumberEncoding::number))]
pub fn write_u16(out: &mut BytesMut, n: u16) -> Result<(), AllocError>
    ensures spelled { OnOk result (out.new.items ≡ out.old.items ++ number w16 n) }
    ensures same { OnErr result (out.new.items ≡ out.old.items) }
{
    out.put_u16(n)
}

/// Writes a number as 4 bytes at the end. Fails only when out of memory; the bytes are then
/// unchanged.
#[tactic(auto, unfolding(crate::specs::NumberEncoding::number))]
pub fn write_u32(out: &mut BytesMut, n: u32) -> Result<(), AllocError>
    ensures spelled { OnOk result (out.new.items ≡ out.old.items ++ number w32 n) }
    ensures same { OnErr result (out.new.items ≡ out.old.items) }
{
    out.put_u32(n)
}

/// Writes a number as 8 bytes at the end. Fails only when out of memory; the bytes are then
/// unchanged.
#[tactic(auto, unfolding(crate::specs::NumberEncoding::number))]
pub fn write_u64(out: &mut BytesMut, n: u64) -> Result<(), AllocError>
    ensures spelled { OnOk result (out.new.items ≡ out.old.items ++ number w64 n) }
    ensures same { OnErr result (out.new.items ≡ out.old.items) }
{
    out.put_u64(n)
}
