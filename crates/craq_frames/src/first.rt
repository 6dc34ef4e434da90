//! One request or one reply as a payload of version 1: `encode` and `decode` of `ClientMessage` and
//! `ClientReply`; used by `exchange` in `craq_front`.
ghost use Rattle.std.specs.Prelude.{◌≡◌, ◌⊎◌, ◌↔◌, ℕ, List, Err, IfOk, IfErr, IsTrue, true};
ghost use Rattle.craq_wire.specs.NumberReading.{Decodes};
ghost use Rattle.craq_frames.specs.Payload.{IsAnswer, EncodesAsk, EncodesAnswer};
ghost use Rattle.craq_frames.specs.Reading.{ask_body_at, answer_body_at, payload_at};

use crate::answer::{read_answer_body, test_answer};
use crate::ask::read_ask_body;
use crate::{ClientMessage, ClientReply, PAYLOAD_VERSION, USUAL_PAYLOAD_SIZE};
use bytes::{Bytes, BytesMut};
use craq_names::Refusal;
use craq_wire::{DecodeError, MessagePart, read_u8, write_u8};
use std::alloc::{AllocError, Global};

/// Decodes the request that all of the bytes encode.
#[tactic(auto, unfolding(crate::specs::Reading::payload_at, craq_wire::specs::PartReading::pair_at))]
fn read_ask(alloc: Global, bytes: &[u8]) -> Result<ClientMessage, DecodeError>
    ensures { Decodes (λ m. m) result (payload_at ask_body_at bytes.now) }
{
    let (version, rest) = read_u8(bytes)?;
    let (kind, rest) = read_u8(rest)?;
    if version != PAYLOAD_VERSION {
        return Err(DecodeError::BadFrame);
    }
    let (ask, rest) = read_ask_body(alloc, kind, rest)?;
    if !rest.is_empty() {
        return Err(DecodeError::BadFrame);
    }
    Ok(ask)
}

/// Decodes the reply that all of the bytes encode, without testing its rules.
#[tactic(auto, unfolding(crate::specs::Reading::payload_at, craq_wire::specs::PartReading::pair_at))]
fn read_answer(alloc: Global, bytes: &[u8]) -> Result<ClientReply, DecodeError>
    ensures { Decodes (λ m. m) result (payload_at answer_body_at bytes.now) }
{
    let (version, rest) = read_u8(bytes)?;
    let (kind, rest) = read_u8(rest)?;
    if version != PAYLOAD_VERSION {
        return Err(DecodeError::BadFrame);
    }
    let (answer, rest) = read_answer_body(alloc, kind, rest)?;
    if !rest.is_empty() {
        return Err(DecodeError::BadFrame);
    }
    Ok(answer)
}

impl ClientMessage {
    /// Returns true: each request has an encoding (`asks_with_encodings`).
    pub fn spelled(&self) -> bool
        ensures { result ≡ true }
    {
        true
    }

    /// Encodes the request as a payload of version 1. Fails only when out of memory.
    #[tactic(auto, unfolding(crate::specs::Payload::ask_encoding))]
    pub fn encode(&self, alloc: Global) -> Result<Bytes, AllocError>
        ensures { IfOk result (λ bytes. EncodesAsk self.now bytes) }
    {
        let mut out = BytesMut::with_capacity(alloc, USUAL_PAYLOAD_SIZE)?;
        write_u8(&mut out, PAYLOAD_VERSION)?;
        self.write(&mut out)?;
        Ok(out.freeze()?)
    }

    /// Decodes the request that all bytes of a payload of version 1 encode. `BadFrame` exactly if
    /// they encode none; `Memory` if an allocation failed. Allocates only for bytes that were read.
    pub fn decode(alloc: Global, bytes: &[u8]) -> Result<Self, Refusal>
        // The bytes encode the request that is returned.
        ensures found { IfOk result (λ m. EncodesAsk m bytes.now) }
        // They encode no other request.
        ensures only { IfOk result (λ m. (other : ClientMessage) → EncodesAsk other bytes.now → other ≡ m) }
        // On an error the bytes encode no request, or memory ran out.
        ensures bad { result ≡ Err Refusal.BadFrame → (m : ClientMessage) → EncodesAsk m bytes.now → ⊥ }
        ensures err { IfErr result (λ e. (e ≡ Refusal.BadFrame) ⊎ (e ≡ Refusal.Memory)) }
    {
        match read_ask(alloc, bytes) {
            Ok(ask) => Ok(ask),
            Err(DecodeError::BadFrame) => Err(Refusal::BadFrame),
            Err(DecodeError::Memory) => Err(Refusal::Memory),
        }
    }
}

impl ClientReply {
    /// Returns true if the reply has an encoding (`replies_with_encodings`; this project's
    /// profile). A reply to an update keeps its rules, an absent object has no bytes, a refusal
    /// does not name node 0 as the head, a text has fewer than 2^32 bytes.
    pub fn spelled(&self) -> bool
        ensures { IsTrue result ↔ IsAnswer self.now }
    {
        test_answer(self)
    }

    /// Encodes a reply that has an encoding as a payload of version 1. Fails only when out of
    /// memory.
    #[tactic(auto, unfolding(crate::specs::Payload::answer_encoding))]
    pub fn encode(&self, alloc: Global) -> Result<Bytes, AllocError>
        requires { IsAnswer self.now }
        ensures { IfOk result (λ bytes. EncodesAnswer self.now bytes) }
    {
        let mut out = BytesMut::with_capacity(alloc, USUAL_PAYLOAD_SIZE)?;
        write_u8(&mut out, PAYLOAD_VERSION)?;
        self.write(&mut out)?;
        Ok(out.freeze()?)
    }

    /// Decodes the reply that all bytes of a payload of version 1 encode. `BadFrame` exactly if
    /// they encode none; `Memory` if an allocation failed. Allocates only for bytes that were read.
    pub fn decode(alloc: Global, bytes: &[u8]) -> Result<Self, Refusal>
        // The bytes encode the reply that is returned.
        ensures found { IfOk result (λ m. EncodesAnswer m bytes.now) }
        // They encode no other reply.
        ensures only { IfOk result (λ m. (other : ClientReply) → EncodesAnswer other bytes.now → other ≡ m) }
        // On an error the bytes encode no reply, or memory ran out.
        ensures bad { result ≡ Err Refusal.BadFrame → (m : ClientReply) → EncodesAnswer m bytes.now → ⊥ }
        ensures err { IfErr result (λ e. (e ≡ Refusal.BadFrame) ⊎ (e ≡ Refusal.Memory)) }
    {
        match read_answer(alloc, bytes) {
            Ok(answer) => {
                if test_answer(&answer) {
                    Ok(answer)
                } else {
                    Err(Refusal::BadFrame)
                }
            }
            Err(DecodeError::BadFrame) => Err(Refusal::BadFrame),
            Err(DecodeError::Memory) => Err(Refusal::Memory),
        }
    }
}
