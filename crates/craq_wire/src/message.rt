//! Reads a message between nodes from the front of bytes and writes one at the end, kind by kind;
//! used by `wire`.
ghost use Rattle.std.specs.Prelude.{◌≡◌, ◌++◌, OnOk};
ghost use Rattle.craq_wire.specs.NumberReading.{Decodes};
ghost use Rattle.craq_model.specs.Encodable.{IsEncodableBody, IsEncodablePart, IsEncodableState, IsEncodable};
ghost use Rattle.craq_wire.specs.Reading.{body_at, message_at, part_at, state_at};
ghost use Rattle.craq_wire.specs.Encoding.{header, renamed, body_bytes, state, state_part, message_kind, encoding_of, HeaderFits, StateFits, PartFits, BodyFits, MessageFits};

use crate::{
    DecodeError, MessagePart, read_long_list, read_short_list, read_u8, read_u16, read_u32,
    read_u64, write_long_list, write_short_list, write_u8, write_u16, write_u32, write_u64,
};
use bytes::BytesMut;
use craq_commands::{Entry, State};
use craq_model::{Body, LinkMessage, StatePart};
use craq_names::{ChainId, Epoch, Key, NodeId, Seq, Stamp, Ticket, Version};
use std::alloc::{AllocError, Global};

/// The version of the wire format.
const WIRE_VERSION: u8 = 2;

/// The bytes before a message's body.
const HEADER_SIZE: usize = 32;

/// Reads the state at the front; returns it with the bytes after it.
#[tactic(auto, unfolding(crate::specs::Reading::state_at, crate::specs::PartReading::pair_at))]
fn read_state(alloc: Global, bytes: &[u8]) -> Result<(State, &[u8]), DecodeError>
    ensures { Decodes (λ x. (x.0, x.1.now)) result (state_at bytes.now) }
{
    let (objects, rest) = read_long_list(alloc, bytes)?;
    let (kept, rest) = read_long_list(alloc, rest)?;
    Ok((State { objects, kept }, rest))
}

/// Reads the part of a state at the front; returns it with the bytes after it.
#[tactic(auto, unfolding(crate::specs::Reading::part_at, crate::specs::PartReading::pair_at))]
fn read_part(alloc: Global, bytes: &[u8]) -> Result<(StatePart, &[u8]), DecodeError>
    ensures { Decodes (λ x. (x.0, x.1.now)) result (part_at bytes.now) }
{
    let (position, rest) = read_u64(bytes)?;
    let (number, rest) = read_u32(rest)?;
    let (count, rest) = read_u32(rest)?;
    let (state, rest) = read_state(alloc, rest)?;
    let part = StatePart {
        position: Seq::new(position),
        number,
        count,
        state,
    };
    Ok((part, rest))
}

/// Reads a body of this kind; returns it with the bytes after it.
#[tactic(auto, unfolding(crate::specs::Reading::body_at, crate::specs::PartReading::pair_at))]
fn read_body(alloc: Global, kind: u8, bytes: &[u8]) -> Result<(Body, &[u8]), DecodeError>
    ensures { Decodes (λ x. (x.0, x.1.now)) result (body_at kind bytes.now) }
{
    match kind {
        1 => {
            let (members, rest) = read_short_list(alloc, bytes)?;
            Ok((Body::Config { members }, rest))
        }
        2 => {
            let (entry, rest) = Entry::read(alloc, bytes)?;
            Ok((Body::Entry(entry), rest))
        }
        3 => {
            let (position, rest) = read_u64(bytes)?;
            Ok((Body::Ack(Seq::new(position)), rest))
        }
        4 => {
            let (ticket, rest) = read_u64(bytes)?;
            let (key, rest) = Key::read(alloc, rest)?;
            let ticket = Ticket::new(ticket);
            Ok((Body::Query { ticket, key }, rest))
        }
        5 => {
            let (ticket, rest) = read_u64(bytes)?;
            let (version, rest) = read_u64(rest)?;
            let ticket = Ticket::new(ticket);
            let version = Version::new(version);
            Ok((Body::VersionIs { ticket, version }, rest))
        }
        6 => {
            let (count, rest) = read_u64(bytes)?;
            Ok((Body::Blank(Seq::new(count)), rest))
        }
        7 => {
            let (position, rest) = read_u64(bytes)?;
            let (state, rest) = read_state(alloc, rest)?;
            let position = Seq::new(position);
            Ok((Body::Copy { position, state }, rest))
        }
        8 => {
            let (count, rest) = read_u64(bytes)?;
            Ok((Body::Floor(Seq::new(count)), rest))
        }
        9 => {
            let (part, rest) = read_part(alloc, bytes)?;
            Ok((Body::Part(part), rest))
        }
        10 => {
            let (entries, rest) = read_short_list(alloc, bytes)?;
            Ok((Body::Batch(entries), rest))
        }
        _ => Err(DecodeError::BadFrame),
    }
}

/// Reads the message at the front; returns it with the bytes after it.
#[tactic(auto, unfolding(crate::specs::Reading::message_at, crate::specs::Reading::header_at, crate::specs::PartReading::pair_at))]
pub(crate) fn read_message(alloc: Global, bytes: &[u8]) -> Result<(LinkMessage, &[u8]), DecodeError>
    ensures { Decodes (λ x. (x.0, x.1.now)) result (message_at bytes.now) }
{
    let (version, rest) = read_u8(bytes)?;
    let (kind, rest) = read_u8(rest)?;
    let (chain, rest) = read_u16(rest)?;
    let (sender, rest) = read_u32(rest)?;
    let (receiver, rest) = read_u32(rest)?;
    let (stamp, rest) = read_u64(rest)?;
    let (index, rest) = read_u32(rest)?;
    let (epoch, rest) = read_u64(rest)?;
    if version != WIRE_VERSION {
        return Err(DecodeError::BadFrame);
    }
    let (body, rest) = read_body(alloc, kind, rest)?;
    let message = LinkMessage {
        chain: ChainId::new(chain),
        sender: NodeId::new(sender),
        receiver: NodeId::new(receiver),
        stamp: Stamp::new(stamp),
        index,
        epoch: Epoch::new(epoch),
        body,
    };
    Ok((message, rest))
}

/// Returns the number of the body's kind.
fn kind(body: &Body) -> u8
    ensures { result ≡ message_kind body.now }
{
    match body {
        Body::Config { .. } => 1,
        Body::Entry(_) => 2,
        Body::Ack(_) => 3,
        Body::Query { .. } => 4,
        Body::VersionIs { .. } => 5,
        Body::Blank(_) => 6,
        Body::Copy { .. } => 7,
        Body::Floor(_) => 8,
        Body::Part(_) => 9,
        Body::Batch(_) => 10,
    }
}

/// Writes the objects and the kept replies of a state at the end.
#[tactic(auto, using(crate::proofs::Free::all_of_any))]
fn write_state(out: &mut BytesMut, s: &State) -> Result<(), AllocError>
    requires { IsEncodableState s.now }
    ensures fits { OnOk result (StateFits s.now) }
    ensures spelled { OnOk result (out.new.items ≡ out.old.items ++ state s.now) }
{
    write_long_list(out, s.objects.as_slice())?;
    write_long_list(out, s.kept.as_slice())
}

/// Writes a part of a state at the end.
fn write_part(out: &mut BytesMut, part: &StatePart) -> Result<(), AllocError>
    requires { IsEncodablePart part.now }
    ensures fits { OnOk result (PartFits part.now) }
    ensures spelled { OnOk result (out.new.items ≡ out.old.items ++ state_part part.now) }
{
    write_u64(out, part.position.get())?;
    write_u32(out, part.number)?;
    write_u32(out, part.count)?;
    write_state(out, &part.state)
}

/// Writes a body at the end.
#[tactic(auto, using(crate::proofs::Free::all_of_any))]
fn write_body(out: &mut BytesMut, body: &Body) -> Result<(), AllocError>
    requires { IsEncodableBody body.now }
    ensures fits { OnOk result (BodyFits body.now) }
    ensures spelled { OnOk result (out.new.items ≡ out.old.items ++ body_bytes body.now) }
{
    match body {
        Body::Config { members } => write_short_list(out, members.as_slice()),
        Body::Entry(entry) => entry.write(out),
        Body::Ack(position) => write_u64(out, position.get()),
        Body::Query { ticket, key } => {
            write_u64(out, ticket.get())?;
            key.write(out)
        }
        Body::VersionIs { ticket, version } => {
            write_u64(out, ticket.get())?;
            version.write(out)
        }
        Body::Blank(count) => write_u64(out, count.get()),
        Body::Copy { position, state } => {
            write_u64(out, position.get())?;
            write_state(out, state)
        }
        Body::Floor(count) => write_u64(out, count.get()),
        Body::Part(part) => write_part(out, part),
        Body::Batch(entries) => write_short_list(out, entries.as_slice()),
    }
}

/// Writes a message's header at the end, with this sender, stamp and index.
#[tactic(auto, unfolding(crate::specs::NumberEncoding::number))]
fn write_header(
    out: &mut BytesMut,
    m: &LinkMessage,
    sender: NodeId,
    stamp: Stamp,
    index: u32,
) -> Result<(), AllocError>
    ensures fits { OnOk result (HeaderFits (renamed m.now sender stamp index)) }
    ensures spelled { OnOk result (out.new.items ≡ out.old.items ++ header (renamed m.now sender stamp index)) }
{
    out.reserve(HEADER_SIZE)?;
    out.extend_reserved(&WIRE_VERSION.to_be_bytes());
    out.extend_reserved(&kind(&m.body).to_be_bytes());
    out.extend_reserved(&m.chain.get().to_be_bytes());
    out.extend_reserved(&sender.get().to_be_bytes());
    out.extend_reserved(&m.receiver.get().to_be_bytes());
    out.extend_reserved(&stamp.get().to_be_bytes());
    out.extend_reserved(&index.to_be_bytes());
    out.extend_reserved(&m.epoch.get().to_be_bytes());
    Ok(())
}

/// Writes a message at the end, with this sender, stamp and index instead of its own.
#[tactic(auto, unfolding(crate::specs::Encoding::encoding_of))]
pub(crate) fn write_message(
    out: &mut BytesMut,
    m: &LinkMessage,
    sender: NodeId,
    stamp: Stamp,
    index: u32,
) -> Result<(), AllocError>
    requires { IsEncodable (renamed m.now sender stamp index) }
    ensures fits { OnOk result (MessageFits (renamed m.now sender stamp index)) }
    ensures spelled { OnOk result (out.new.items ≡ out.old.items ++ encoding_of (renamed m.now sender stamp index)) }
{
    write_header(out, m, sender, stamp, index)?;
    write_body(out, &m.body)
}
