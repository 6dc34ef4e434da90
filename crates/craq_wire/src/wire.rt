//! `encode`, `decode` and `spelled`: whole messages, for the links between nodes.
ghost use Rattle.std.specs.Prelude.{◌≡◌, ◌⊎◌, ◌↔◌, ℕ, List, Err, IfOk, IfErr, IsTrue};
ghost use Rattle.craq_model.specs.Encodable.{IsEncodable};
ghost use Rattle.craq_wire.specs.NumberReading.{Decodes};
ghost use Rattle.craq_wire.specs.Reading.{all_of};
ghost use Rattle.craq_wire.specs.Encoding.{Encodes, renamed};

use crate::message::{read_message, write_message};
use crate::room::room_of;
use crate::rules::test_message;
use crate::{DecodeError, LinkMessage};
use bytes::{Bytes, BytesMut};
use craq_names::{NodeId, Refusal, Stamp};
use std::alloc::{AllocError, Global};

/// Returns true if the message has an encoding (`messages_with_encodings`): its sender is 0 exactly
/// for a membership; receiver, stamp and epoch are at least 1; and its body keeps its rules (this
/// project's profile).
pub fn spelled(message: &LinkMessage) -> bool
    ensures { IsTrue result ↔ IsEncodable message.now }
{
    test_message(message)
}

/// Encodes a message that has an encoding. Fails only when out of memory.
pub fn encode(alloc: Global, message: &LinkMessage) -> Result<Bytes, AllocError>
    requires { IsEncodable message.now }
    ensures { IfOk result (λ bytes. Encodes message.now bytes) }
{
    encode_as(alloc, message, message.sender, message.stamp, message.index)
}

/// Encodes a message with this sender, stamp and index instead of its own; that message must have
/// an encoding. Fails only when out of memory.
pub fn encode_as(
    alloc: Global,
    message: &LinkMessage,
    sender: NodeId,
    stamp: Stamp,
    index: u32,
) -> Result<Bytes, AllocError>
    requires { IsEncodable (renamed message.now sender stamp index) }
    ensures { IfOk result (λ bytes. Encodes (renamed message.now sender stamp index) bytes) }
{
    let mut out = BytesMut::with_capacity(alloc, room_of(&message.body))?;
    write_message(&mut out, message, sender, stamp, index)?;
    Ok(out.freeze()?)
}

/// Decodes a message without testing its rules.
#[tactic(auto, unfolding(crate::specs::Reading::all_of))]
fn decode_any(alloc: Global, bytes: &[u8]) -> Result<LinkMessage, DecodeError>
    ensures { Decodes (λ m. m) result (all_of bytes.now) }
{
    let (message, rest) = read_message(alloc, bytes)?;
    if !rest.is_empty() {
        return Err(DecodeError::BadFrame);
    }
    Ok(message)
}

/// Decodes the message that all of the bytes encode. `BadFrame` exactly if they encode none;
/// `Memory` if an allocation failed. Allocates only for bytes that were read.
pub fn decode(alloc: Global, bytes: &[u8]) -> Result<LinkMessage, Refusal>
    // The bytes encode the message that is returned.
    ensures found { IfOk result (λ m. Encodes m bytes.now) }
    // They encode no other message.
    ensures only { IfOk result (λ m. (other : LinkMessage) → Encodes other bytes.now → other ≡ m) }
    // On an error the bytes encode no message, or memory ran out.
    ensures bad { result ≡ Err Refusal.BadFrame → (m : LinkMessage) → Encodes m bytes.now → ⊥ }
    ensures err { IfErr result (λ e. (e ≡ Refusal.BadFrame) ⊎ (e ≡ Refusal.Memory)) }
{
    match decode_any(alloc, bytes) {
        Ok(message) => {
            if test_message(&message) {
                Ok(message)
            } else {
                Err(Refusal::BadFrame)
            }
        }
        Err(DecodeError::BadFrame) => Err(Refusal::BadFrame),
        Err(DecodeError::Memory) => Err(Refusal::Memory),
    }
}

/// States that no bytes encode two messages, and that no message has two encodings. Does nothing.
pub fn one_encoding()
    ensures value { (bytes : List ℕ) (m n : LinkMessage) → Encodes m bytes → Encodes n bytes → m ≡ n }
    ensures bytes { (m : LinkMessage) (a b : List ℕ) → Encodes m a → Encodes m b → a ≡ b }
{}
