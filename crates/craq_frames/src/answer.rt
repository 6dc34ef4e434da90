//! `ClientReply`: a reply to a client, with its reading and writing; used by `first` and
//! `versions`.
ghost use Rattle.std.specs.Prelude.{◌≡◌, ◌<◌, ◌^◌, ◌++◌, length, OnOk, OnErr};
ghost use Rattle.std.specs.Io.{StartsWith};
ghost use Rattle.craq_names.specs.Refused.{detail_of};
ghost use Rattle.craq_wire.specs.NumberReading.{Decodes};
ghost use Rattle.craq_wire.specs.PartReading.{mapped};
ghost use Rattle.craq_frames.specs.declared.answer.ClientReply.TheVariants as answers;
ghost use Rattle.craq_frames.specs.Payload.{refusal as encodable_refusal, text as encodable_text, answer as encodable_answer, AnswerFits, RefusalFits, IsAnswer, IsText};
ghost use Rattle.craq_frames.specs.Reading.{bare_refusal, refusal_named, refusal_at, text_at, answer_at, answer_body_at};
ghost use Rattle.craq_frames.specs.Tests.{names_node, is_answer};

use crate::Text;
use bytes::{BufMut, BytesMut};
use craq_commands::Reply;
use craq_names::{NodeId, Pass, Refusal, Stamp, Value, Version};
use craq_wire::{
    DecodeError, MessagePart, is_encodable_reply, read_u8, read_u32, read_u64, write_u8, write_u32,
    write_u64,
};
use std::alloc::{AllocError, Global};
use std::str::from_utf8;

/// A reply of a store's server to a client.
#[derive(Debug, Drop)]
pub enum ClientReply {
    /// The reply to an update, and the pass to show from now on.
    Update {
        pass: Pass,
        reply: Reply,
    },
    /// The object that was read: version 0 and no bytes if it is absent.
    Read {
        pass: Pass,
        version: Version,
        value: Value,
    },
    /// The reason why nothing was done.
    Refused(Refusal),
    /// The chains and their members.
    Status(Text),
}

/// Returns the refusal of this number that has no detail.
#[tactic(auto, unfolding(crate::specs::Reading::bare_refusal))]
fn plain_refusal(number: u8) -> Option<Refusal>
    ensures { result ≡ bare_refusal number }
{
    match number {
        1 => Some(Refusal::BadKey),
        2 => Some(Refusal::ValueTooLong),
        3 => Some(Refusal::TooManyItems),
        4 => Some(Refusal::EmptyTransaction),
        5 => Some(Refusal::DuplicateKey),
        6 => Some(Refusal::BadNumber),
        7 => Some(Refusal::UnknownChain),
        8 => Some(Refusal::TwoChains),
        10 => Some(Refusal::NotReady),
        11 => Some(Refusal::Stopped),
        12 => Some(Refusal::PendingFull),
        13 => Some(Refusal::Exhausted),
        14 => Some(Refusal::Memory),
        15 => Some(Refusal::BadFrame),
        16 => Some(Refusal::FrameTooLong),
        17 => Some(Refusal::NotMember),
        18 => Some(Refusal::NotStopped),
        19 => Some(Refusal::UsedId),
        20 => Some(Refusal::ChainFull),
        21 => Some(Refusal::LastNode),
        22 => Some(Refusal::UnknownMessage),
        23 => Some(Refusal::WrongNode),
        24 => Some(Refusal::JournalOff),
        26 => Some(Refusal::BadConfig),
        27 => Some(Refusal::Closed),
        28 => Some(Refusal::Io),
        _ => None,
    }
}

/// Returns the refusal of this number with this detail.
#[tactic(auto, unfolding(crate::specs::Reading::refusal_named))]
fn named_refusal(number: u8, detail: u64) -> Option<Refusal>
    ensures { result ≡ refusal_named number detail }
{
    if number == 9 {
        if detail <= 0xffff_ffff {
            Some(Refusal::NotHead(NodeId::new(detail as u32)))
        } else {
            None
        }
    } else if number == 25 {
        Some(Refusal::BadScript(detail))
    } else if detail == 0 {
        plain_refusal(number)
    } else {
        None
    }
}

/// Reads the refusal at the front; returns it with the bytes after it.
#[tactic(auto, unfolding(crate::specs::Reading::refusal_at, craq_wire::specs::PartReading::pair_at))]
fn read_refused(bytes: &[u8]) -> Result<(ClientReply, &[u8]), DecodeError>
    ensures { Decodes (λ x. (x.0, x.1.now)) result (mapped answers.Refused (refusal_at bytes.now)) }
{
    let (number, rest) = read_u8(bytes)?;
    let (detail, rest) = read_u64(rest)?;
    match named_refusal(number, detail) {
        Some(refusal) => Ok((ClientReply::Refused(refusal), rest)),
        None => Err(DecodeError::BadFrame),
    }
}

/// Reads the text at the front; returns it with the bytes after it.
#[tactic(auto, using(crate::proofs::Utf8::test_of_text, crate::proofs::Utf8::test_of_no_text), unfolding(crate::specs::Reading::text_at, craq_wire::specs::NumberReading::bytes_at))]
fn read_text(alloc: Global, bytes: &[u8]) -> Result<(Text, &[u8]), DecodeError>
    ensures { Decodes (λ x. (x.0, x.1.now)) result (text_at bytes.now) }
{
    let (len, rest) = read_u32(bytes)?;
    let len = len as usize;
    if rest.len() < len {
        return Err(DecodeError::BadFrame);
    }
    let (front, rest) = rest.split_at(len);
    match from_utf8(front) {
        Ok(text) => Ok((Text::new(alloc, text)?, rest)),
        Err(_) => Err(DecodeError::BadFrame),
    }
}

/// Reads what follows the kind of a reply to a client; returns the reply with the bytes after it.
#[tactic(auto, unfolding(crate::specs::Reading::answer_body_at, craq_wire::specs::PartReading::pair_at))]
pub(crate) fn read_answer_body(
    alloc: Global,
    kind: u8,
    bytes: &[u8],
) -> Result<(ClientReply, &[u8]), DecodeError>
    ensures { Decodes (λ x. (x.0, x.1.now)) result (answer_body_at kind bytes.now) }
{
    match kind {
        1 => {
            let (pass, rest) = read_u64(bytes)?;
            let (reply, rest) = Reply::read(alloc, rest)?;
            let pass = Pass::of(Stamp::new(pass));
            Ok((ClientReply::Update { pass, reply }, rest))
        }
        2 => {
            let (pass, rest) = read_u64(bytes)?;
            let (version, rest) = read_u64(rest)?;
            let (value, rest) = Value::read(alloc, rest)?;
            let answer = ClientReply::Read {
                pass: Pass::of(Stamp::new(pass)),
                version: Version::new(version),
                value,
            };
            Ok((answer, rest))
        }
        3 => read_refused(bytes),
        4 => {
            let (text, rest) = read_text(alloc, bytes)?;
            Ok((ClientReply::Status(text), rest))
        }
        _ => Err(DecodeError::BadFrame),
    }
}

/// Returns the detail of a refusal, 0 if it has none.
fn reported(refusal: &Refusal) -> u64
    ensures value { result ≡ detail_of refusal.now }
    ensures fits { RefusalFits refusal.now }
{
    match refusal {
        Refusal::NotHead(head) => u64::from(head.get()),
        Refusal::BadScript(line) => *line,
        _ => 0,
    }
}

/// Appends a refusal. On an error the old bytes are still in front.
fn append_refusal(out: &mut BytesMut, refusal: &Refusal) -> Result<(), AllocError>
    ensures fits { OnOk result (RefusalFits refusal.now) }
    ensures spelled { OnOk result (out.new.items ≡ out.old.items ++ encodable_refusal refusal.now) }
    ensures appends { OnErr result (StartsWith out.new.items out.old.items) }
{
    write_u8(out, refusal.number())?;
    write_u64(out, reported(refusal))
}

/// Appends a text. On an error the old bytes are still in front.
fn append_text(out: &mut BytesMut, text: &Text) -> Result<(), AllocError>
    requires { length text.now < 2 ^ 32 }
    ensures fits { OnOk result (IsText text.now) }
    ensures spelled { OnOk result (out.new.items ≡ out.old.items ++ encodable_text text.now) }
    ensures appends { OnErr result (StartsWith out.new.items out.old.items) }
{
    let bytes = text.as_str().as_bytes();
    write_u32(out, bytes.len() as u32)?;
    out.put_slice(bytes)
}

impl MessagePart for ClientReply {
    ghost encoding = { encodable_answer };

    ghost fits = { AnswerFits };

    ghost is_writable = { IsAnswer };

    ghost part_at = { answer_at };

    /// Does not test the rules of replies.
    #[tactic(auto, unfolding(crate::specs::Reading::answer_at))]
    fn read(alloc: Global, bytes: &[u8]) -> Result<(Self, &[u8]), DecodeError> {
        let (kind, rest) = read_u8(bytes)?;
        read_answer_body(alloc, kind, rest)
    }

    #[tactic(auto, unfolding(crate::specs::Payload::answer))]
    fn append(&self, out: &mut BytesMut) -> Result<(), AllocError> {
        match self {
            ClientReply::Update { pass, reply } => {
                write_u8(out, 1)?;
                write_u64(out, pass.stamp().get())?;
                reply.write(out)
            }
            ClientReply::Read {
                pass,
                version,
                value,
            } => {
                write_u8(out, 2)?;
                write_u64(out, pass.stamp().get())?;
                write_u64(out, version.get())?;
                value.write(out)
            }
            ClientReply::Refused(refusal) => {
                write_u8(out, 3)?;
                append_refusal(out, refusal)
            }
            ClientReply::Status(text) => {
                write_u8(out, 4)?;
                append_text(out, text)
            }
        }
    }
}

/// Returns false if the refusal names node 0 as the head.
fn is_of_node(refusal: Refusal) -> bool
    ensures { result ≡ names_node refusal }
{
    match refusal {
        Refusal::NotHead(head) => head.get() >= 1,
        _ => true,
    }
}

/// Tests the rules of replies to clients.
pub(crate) fn test_answer(answer: &ClientReply) -> bool
    ensures { result ≡ is_answer answer.now }
{
    match answer {
        ClientReply::Update { reply, .. } => is_encodable_reply(reply),
        ClientReply::Read { version, value, .. } => {
            version.get() != 0 || value.as_slice().is_empty()
        }
        ClientReply::Refused(refusal) => is_of_node(*refusal),
        ClientReply::Status(text) => text.as_str().len() <= 0xffff_ffff,
    }
}
