//! Frames: a payload after its length, cut off the front of bytes and written at the end; used by
//! the protocol codec and `craq_front`.
ghost use Rattle.std.specs.Prelude.{◌≡◌, ◌≢◌, ◌<◌, ◌≤◌, ◌+◌, ◌^◌, ◌⊎◌, ◌↔◌, ℕ, List, ◌++◌, length, take, drop, All, Ok, Err, None, IsTrue, IfSome, IfOk, IfErr, OnOk, OnErr};
ghost use Rattle.std.specs.IoError.{error_kind};
ghost use Rattle.std.specs.declared.io.ErrorKind.TheVariants.{OutOfMemory};
ghost use Rattle.tokio_util.specs.Codec.LengthDelimited.{codec_layout, cut_frame, frame as cut_off, overflows, too_big, IsAtHead};
ghost use Rattle.craq_frames.specs.Frame.{frame, frame_layout, payload_limit, BeginsTooLong, IsPartial};
ghost use Rattle.craq_frames.specs.Reading.{is_partial};
ghost use Rattle.std.specs.Int.{w32};
ghost use Rattle.craq_wire.specs.NumberEncoding.{number};

use bytes::{Bytes, BytesMut};
use craq_names::Refusal;
use craq_wire::read_u32;
use std::io;
use tokio_util::codec::{Decoder, Encoder, LengthDelimitedCodec};

/// The most bytes of a payload.
pub const MAX_PAYLOAD: usize = 1_048_576;

/// Returns a codec of frames, at the head of a frame. A frame is a length of 4 bytes, highest
/// first, which counts the payload only, and a payload of at most 1,048,576 bytes.
pub fn frame_codec() -> LengthDelimitedCodec
    ensures layout { codec_layout result ≡ frame_layout }
    ensures state { IsAtHead result }
{
    LengthDelimitedCodec::builder()
        .max_frame_length(MAX_PAYLOAD)
        .new_codec()
}

/// Writes the payload's frame at the end. `FrameTooLong` exactly if the payload has more than
/// 1,048,576 bytes; `Memory` if an allocation failed. The bytes are unchanged on an error.
pub fn write_frame(out: &mut BytesMut, payload: Bytes) -> Result<(), Refusal>
    ensures ok { OnOk result (out.new.items ≡ out.old.items ++ frame payload) }
    ensures long { (result ≡ Err Refusal.FrameTooLong) ↔ (payload_limit < length payload) }
    ensures err { IfErr result (λ e. (e ≡ Refusal.FrameTooLong) ⊎ (e ≡ Refusal.Memory)) }
    ensures same { OnErr result (out.new.items ≡ out.old.items) }
{
    if payload.len() > MAX_PAYLOAD {
        return Err(Refusal::FrameTooLong);
    }
    let mut codec = frame_codec();
    match codec.encode(payload, out) {
        Ok(()) => Ok(()),
        Err(_) => Err(Refusal::Memory),
    }
}

/// Returns true if less than a frame is at the front.
#[tactic(auto, unfolding(crate::specs::Reading::is_partial))]
fn is_partial_frame(bytes: &[u8]) -> bool
    ensures value { result ≡ is_partial bytes.now }
    ensures bytes { All (λ b. b < 2 ^ 8) bytes.now }
{
    match read_u32(bytes) {
        Ok((len, rest)) => len as usize <= MAX_PAYLOAD && rest.len() < len as usize,
        Err(_) => true,
    }
}

/// Returns true if memory ran out.
fn is_out_of_memory(e: &io::Error) -> bool
    ensures { IsTrue result ↔ (error_kind e.now ≡ OutOfMemory) }
{
    e.kind() == io::ErrorKind::OutOfMemory
}

/// Cuts the frame off the front and returns its payload. `Ok(None)` exactly if less than a frame is
/// at the front; `FrameTooLong` exactly if a length above 1,048,576 is at the front; the bytes are
/// unchanged in both cases. `Memory` if an allocation failed; the length may then be cut off or
/// not.
pub fn cut_off_frame(buffer: &mut BytesMut) -> Result<Option<BytesMut>, Refusal>
    ensures whole { IfOk result (λ found. IfSome found (λ payload. (length payload.items ≤ payload_limit)
        × (buffer.old.items ≡ frame payload.items ++ buffer.new.items))) }
    ensures part { result ≡ Ok None → IsPartial buffer.old.items × (buffer.new.items ≡ buffer.old.items) }
    ensures long { result ≡ Err Refusal.FrameTooLong → BeginsTooLong buffer.old.items × (buffer.new.items ≡ buffer.old.items) }
    ensures err { IfErr result (λ e. (e ≡ Refusal.FrameTooLong) ⊎ (e ≡ Refusal.Memory)) }
{
    if is_partial_frame(buffer.as_slice()) {
        return Ok(None);
    }
    let mut codec = frame_codec();
    match codec.decode(buffer) {
        Ok(Some(payload)) => Ok(Some(payload)),
        Ok(None) => Ok(None),
        Err(e) => {
            if is_out_of_memory(&e) {
                Err(Refusal::Memory)
            } else {
                Err(Refusal::FrameTooLong)
            }
        }
    }
}

/// Overwrites the 4 bytes from `at` on with a number.
#[tactic(auto, unfolding(craq_wire::specs::NumberEncoding::number))]
pub(crate) fn set_u32(bytes: &mut [u8], at: usize, n: u32)
    requires { at + 4 ≤ length bytes.old }
    ensures { bytes.new ≡ take at bytes.old ++ (number w32 n ++ drop (at + 4) bytes.old) }
{
    bytes[at..at + 4].copy_from_slice(&n.to_be_bytes());
}

/// Returns the payload of the frame at the front. `Ok(None)` exactly if less than a frame is at the
/// front; `FrameTooLong` exactly if a length above 1,048,576 is at the front. Never allocates.
pub fn payload_in_front(bytes: &[u8]) -> Result<Option<&[u8]>, Refusal>
    ensures whole { IfOk result (λ found. IfSome found (λ payload. (rest : List ℕ) × (length payload.now ≤ payload_limit)
        × (bytes.now ≡ frame payload.now ++ rest))) }
    ensures part { result ≡ Ok None → IsPartial bytes.now }
    ensures long { result ≡ Err Refusal.FrameTooLong → BeginsTooLong bytes.now }
    ensures err { IfErr result (λ e. e ≡ Refusal.FrameTooLong) }
{
    match read_u32(bytes) {
        Err(_) => Ok(None),
        Ok((len, rest)) => {
            let len = len as usize;
            if len > MAX_PAYLOAD {
                return Err(Refusal::FrameTooLong);
            }
            if rest.len() < len {
                return Ok(None);
            }
            Ok(Some(&rest[..len]))
        }
    }
}

/// States that a codec of `frame_codec` at the head of a frame cuts off the frames of the grammar,
/// and refuses those whose length is above the limit. Does nothing.
pub fn cuts_frames()
    // A payload is cut off exactly if its frame is at the front.
    ensures whole { (bytes payload rest : List ℕ) → All (λ b. b < 2 ^ 8) bytes
        → (cut_frame frame_layout bytes ≡ cut_off payload rest)
        ↔ ((length payload ≤ payload_limit) × (bytes ≡ frame payload ++ rest)) }
    // A frame is refused as too long exactly if a length above the limit is at the front.
    ensures long { (bytes : List ℕ) → All (λ b. b < 2 ^ 8) bytes
        → (cut_frame frame_layout bytes ≡ too_big) ↔ BeginsTooLong bytes }
    // There is no other refusal.
    ensures never { (bytes : List ℕ) → All (λ b. b < 2 ^ 8) bytes
        → cut_frame frame_layout bytes ≢ overflows }
{}
