//! Payloads of versions 1 and 2, also those of several requests: `Payload` and `Answered`; used by
//! the protocol codec, which accepts both versions.
ghost use Rattle.std.specs.Prelude.{◌≡◌, ◌≤◌, ◌+◌, ◌⊎◌, ℕ, List, ◌++◌, length, take, drop, Err, IfOk, IfErr, OnOk, OnErr};
ghost use Rattle.std.specs.Io.{StartsWith};
ghost use Rattle.std.specs.List.{AllByRecursion, list_all};
ghost use Rattle.craq_wire.specs.NumberReading.{Decodes};
ghost use Rattle.craq_wire.specs.PartEncoding.{counted};
ghost use Rattle.craq_frames.specs.Frame.{frame, payload_limit};
ghost use Rattle.std.specs.Int.{w8};
ghost use Rattle.craq_frames.specs.Versions.{version_number, many_limit, AreFew, payload_encoding, PayloadFits, EncodesPayload, IsPayload, answered_encoding, AnsweredFits, IsAnswered, EncodesAnswered};
ghost use Rattle.craq_frames.specs.Reading.{few_at, payload_body_at, answered_body_at, versioned_at};
ghost use Rattle.craq_frames.specs.Tests.{is_answer, is_answered};

use crate::answer::{read_answer_body, test_answer};
use crate::ask::read_ask_body;
use crate::frame::set_u32;
use crate::{ClientMessage, ClientReply, USUAL_PAYLOAD_SIZE};
use bytes::{Bytes, BytesMut};
use craq_names::{Items, Refusal};
use craq_wire::{
    DecodeError, MessagePart, read_parts, read_u8, write_short_list, write_u8, write_u32,
};
use std::alloc::{AllocError, Global};

/// The most requests in a payload.
pub const MOST_MESSAGES: usize = 8;

/// The kind of a payload of several requests.
const MANY_ASKS: u8 = 4;

/// The kind of a payload of several replies.
const MANY_ANSWERS: u8 = 5;

/// The version of a payload.
#[derive(Clone, Copy, Debug, PartialEq, Eq)]
pub enum PayloadVersion {
    /// Version 1: one request, or one reply.
    First,
    /// Version 2: like version 1, and also several requests in one payload, or their replies.
    Second,
}

impl PayloadVersion {
    /// Returns the first byte of a payload of this version.
    fn number(self) -> u8
        ensures { result ≡ version_number self }
    {
        match self {
            PayloadVersion::First => 1,
            PayloadVersion::Second => 2,
        }
    }
}

/// The content of a client's payload.
#[derive(Debug, Drop)]
pub enum Payload {
    /// One request, in a payload of this version.
    One(PayloadVersion, ClientMessage),
    /// From 1 to 8 requests, in a payload of version 2.
    Many(Items<ClientMessage>),
}

/// The content of a server's payload.
#[derive(Debug, Drop)]
pub enum Answered {
    /// One reply, in a payload of this version.
    One(PayloadVersion, ClientReply),
    /// From 1 to 8 replies, in a payload of version 2: those of the requests of one payload, in
    /// their order.
    Many(Items<ClientReply>),
}

/// Reads a count of one byte, from 1 to 8, and that number of values; returns them with the bytes
/// after them. `BadFrame` exactly if no such list is at the front; `Memory` if an allocation
/// failed.
#[tactic(auto, unfolding(crate::specs::Reading::few_at))]
fn read_few<T: MessagePart>(alloc: Global, bytes: &[u8]) -> Result<(Items<T>, &[u8]), DecodeError>
    ensures { Decodes (λ x. (x.0, x.1.now)) result (few_at T.part_at bytes.now) }
{
    let (count, rest) = read_u8(bytes)?;
    let count = count as usize;
    if count < 1 {
        return Err(DecodeError::BadFrame);
    }
    if MOST_MESSAGES < count {
        return Err(DecodeError::BadFrame);
    }
    read_parts(alloc, count, rest)
}

/// Reads what follows the version and the kind of a client's payload; returns the payload with the
/// bytes after it.
#[tactic(auto, unfolding(crate::specs::Reading::payload_body_at))]
fn read_payload_body(
    alloc: Global,
    version: u8,
    kind: u8,
    bytes: &[u8],
) -> Result<(Payload, &[u8]), DecodeError>
    ensures { Decodes (λ x. (x.0, x.1.now)) result (payload_body_at version kind bytes.now) }
{
    if version == 1 {
        let (message, rest) = read_ask_body(alloc, kind, bytes)?;
        Ok((Payload::One(PayloadVersion::First, message), rest))
    } else if version == 2 {
        if kind == MANY_ASKS {
            let (messages, rest) = read_few(alloc, bytes)?;
            Ok((Payload::Many(messages), rest))
        } else {
            let (message, rest) = read_ask_body(alloc, kind, bytes)?;
            Ok((Payload::One(PayloadVersion::Second, message), rest))
        }
    } else {
        Err(DecodeError::BadFrame)
    }
}

/// Reads what follows the version and the kind of a server's payload; returns the payload with the
/// bytes after it.
#[tactic(auto, unfolding(crate::specs::Reading::answered_body_at))]
fn read_answered_body(
    alloc: Global,
    version: u8,
    kind: u8,
    bytes: &[u8],
) -> Result<(Answered, &[u8]), DecodeError>
    ensures { Decodes (λ x. (x.0, x.1.now)) result (answered_body_at version kind bytes.now) }
{
    if version == 1 {
        let (reply, rest) = read_answer_body(alloc, kind, bytes)?;
        Ok((Answered::One(PayloadVersion::First, reply), rest))
    } else if version == 2 {
        if kind == MANY_ANSWERS {
            let (replies, rest) = read_few(alloc, bytes)?;
            Ok((Answered::Many(replies), rest))
        } else {
            let (reply, rest) = read_answer_body(alloc, kind, bytes)?;
            Ok((Answered::One(PayloadVersion::Second, reply), rest))
        }
    } else {
        Err(DecodeError::BadFrame)
    }
}

/// Decodes the client's payload that all of the bytes encode.
#[tactic(auto, unfolding(crate::specs::Reading::versioned_at, craq_wire::specs::PartReading::pair_at))]
fn read_payload(alloc: Global, bytes: &[u8]) -> Result<Payload, DecodeError>
    ensures { Decodes (λ p. p) result (versioned_at payload_body_at bytes.now) }
{
    let (version, rest) = read_u8(bytes)?;
    let (kind, rest) = read_u8(rest)?;
    let (payload, rest) = read_payload_body(alloc, version, kind, rest)?;
    if !rest.is_empty() {
        return Err(DecodeError::BadFrame);
    }
    Ok(payload)
}

/// Decodes the server's payload that all of the bytes encode, without testing the rules of replies.
#[tactic(auto, unfolding(crate::specs::Reading::versioned_at, craq_wire::specs::PartReading::pair_at))]
fn read_answered(alloc: Global, bytes: &[u8]) -> Result<Answered, DecodeError>
    ensures { Decodes (λ p. p) result (versioned_at answered_body_at bytes.now) }
{
    let (version, rest) = read_u8(bytes)?;
    let (kind, rest) = read_u8(rest)?;
    let (answered, rest) = read_answered_body(alloc, version, kind, rest)?;
    if !rest.is_empty() {
        return Err(DecodeError::BadFrame);
    }
    Ok(answered)
}

/// Writes a client's payload at the end.
#[tactic(auto, unfolding(crate::specs::Versions::payload_encoding), using(craq_wire::proofs::Free::all_of_any))]
fn write_payload(out: &mut BytesMut, payload: &Payload) -> Result<(), AllocError>
    requires { IsPayload payload.now }
    ensures fits { OnOk result (PayloadFits payload.now) }
    ensures spelled { OnOk result (out.new.items ≡ out.old.items ++ payload_encoding payload.now) }
{
    match payload {
        Payload::One(version, message) => {
            write_u8(out, version.number())?;
            message.write(out)
        }
        Payload::Many(messages) => {
            write_u8(out, 2)?;
            write_u8(out, MANY_ASKS)?;
            write_short_list(out, messages.as_slice())
        }
    }
}

/// Writes a server's payload at the end.
#[tactic(auto, unfolding(crate::specs::Versions::answered_encoding))]
fn write_answered(out: &mut BytesMut, answered: &Answered) -> Result<(), AllocError>
    requires { IsAnswered answered.now }
    ensures fits { OnOk result (AnsweredFits answered.now) }
    ensures spelled { OnOk result (out.new.items ≡ out.old.items ++ answered_encoding answered.now) }
    ensures appends { OnErr result (StartsWith out.new.items out.old.items) }
{
    match answered {
        Answered::One(version, reply) => {
            write_u8(out, version.number())?;
            reply.write(out)
        }
        Answered::Many(replies) => {
            write_u8(out, 2)?;
            write_u8(out, MANY_ANSWERS)?;
            write_short_list(out, replies.as_slice())
        }
    }
}

/// Writes the frame of a server's payload at the end; sets its length after its payload is written.
fn append_answered(out: &mut BytesMut, answered: &Answered) -> Result<(), AllocError>
    requires rules { IsAnswered answered.now }
    requires few { (payload : List ℕ) → EncodesAnswered answered.now payload → length payload ≤ payload_limit }
    ensures ok { OnOk result ((payload : List ℕ) × (out.new.items ≡ out.old.items ++ frame payload) × EncodesAnswered answered.now payload) }
    ensures appends { OnErr result (StartsWith out.new.items out.old.items) }
{
    let start = out.len();
    write_u32(out, 0)?;
    let first = out.len();
    write_answered(out, answered)?;
    let len = (out.len() - first) as u32;
    set_u32(out.as_mut_slice(), start, len);
    Ok(())
}

/// Returns true if each reply keeps the rules of replies.
fn test_answers(replies: &[ClientReply]) -> bool
    ensures { result ≡ list_all is_answer replies.now }
{
    replies.iter().all(|reply| test_answer(reply))
}

/// Tests the rules of the replies of a payload.
fn test_answered(answered: &Answered) -> bool
    ensures { result ≡ is_answered answered.now }
{
    match answered {
        Answered::One(_, reply) => test_answer(reply),
        Answered::Many(replies) => test_answers(replies.as_slice()),
    }
}

impl Payload {
    /// Encodes the payload. Several requests must be from 1 to 8. Fails only when out of memory.
    pub fn encode(&self, alloc: Global) -> Result<Bytes, AllocError>
        requires { IsPayload self.now }
        ensures { IfOk result (λ bytes. EncodesPayload self.now bytes) }
    {
        let mut out = BytesMut::with_capacity(alloc, USUAL_PAYLOAD_SIZE)?;
        write_payload(&mut out, self)?;
        Ok(out.freeze()?)
    }

    /// Decodes the client's payload of version 1 or 2 that all of the bytes encode. `BadFrame`
    /// exactly if they encode none; `Memory` if an allocation failed. Allocates only for bytes that
    /// were read.
    pub fn decode(alloc: Global, bytes: &[u8]) -> Result<Self, Refusal>
        // The bytes encode the payload that is returned.
        ensures found { IfOk result (λ p. EncodesPayload p bytes.now) }
        // They encode no other payload.
        ensures only { IfOk result (λ p. (other : Payload) → EncodesPayload other bytes.now → other ≡ p) }
        // On an error the bytes encode no payload, or memory ran out.
        ensures bad { result ≡ Err Refusal.BadFrame → (p : Payload) → EncodesPayload p bytes.now → ⊥ }
        ensures err { IfErr result (λ e. (e ≡ Refusal.BadFrame) ⊎ (e ≡ Refusal.Memory)) }
    {
        match read_payload(alloc, bytes) {
            Ok(payload) => Ok(payload),
            Err(DecodeError::BadFrame) => Err(Refusal::BadFrame),
            Err(DecodeError::Memory) => Err(Refusal::Memory),
        }
    }
}

impl Answered {
    /// Writes the frame of the payload at the end. Each reply must have an encoding, several must
    /// be from 1 to 8, and the payload must be within the limit. Fails only when out of memory; the
    /// bytes are then unchanged.
    pub fn write_frame(&self, out: &mut BytesMut) -> Result<(), AllocError>
        requires rules { IsAnswered self.now }
        requires few { (payload : List ℕ) → EncodesAnswered self.now payload → length payload ≤ payload_limit }
        ensures ok { OnOk result ((payload : List ℕ) × (out.new.items ≡ out.old.items ++ frame payload) × EncodesAnswered self.now payload) }
        ensures same { OnErr result (out.new.items ≡ out.old.items) }
    {
        out.reserve(USUAL_PAYLOAD_SIZE)?;
        let start = out.len();
        let written = append_answered(out, self);
        if written.is_err() {
            out.truncate(start);
        }
        written
    }

    /// Encodes the payload. Each reply must have an encoding, and several must be from 1 to 8.
    /// Fails only when out of memory.
    pub fn encode(&self, alloc: Global) -> Result<Bytes, AllocError>
        requires { IsAnswered self.now }
        ensures { IfOk result (λ bytes. EncodesAnswered self.now bytes) }
    {
        let mut out = BytesMut::with_capacity(alloc, USUAL_PAYLOAD_SIZE)?;
        write_answered(&mut out, self)?;
        Ok(out.freeze()?)
    }

    /// Decodes the server's payload of version 1 or 2 that all of the bytes encode. `BadFrame`
    /// exactly if they encode none; `Memory` if an allocation failed. Allocates only for bytes that
    /// were read.
    pub fn decode(alloc: Global, bytes: &[u8]) -> Result<Self, Refusal>
        // The bytes encode the payload that is returned.
        ensures found { IfOk result (λ p. EncodesAnswered p bytes.now) }
        // They encode no other payload.
        ensures only { IfOk result (λ p. (other : Answered) → EncodesAnswered other bytes.now → other ≡ p) }
        // On an error the bytes encode no payload, or memory ran out.
        ensures bad { result ≡ Err Refusal.BadFrame → (p : Answered) → EncodesAnswered p bytes.now → ⊥ }
        ensures err { IfErr result (λ e. (e ≡ Refusal.BadFrame) ⊎ (e ≡ Refusal.Memory)) }
    {
        match read_answered(alloc, bytes) {
            Ok(answered) => {
                if test_answered(&answered) {
                    Ok(answered)
                } else {
                    Err(Refusal::BadFrame)
                }
            }
            Err(DecodeError::BadFrame) => Err(Refusal::BadFrame),
            Err(DecodeError::Memory) => Err(Refusal::Memory),
        }
    }
}
