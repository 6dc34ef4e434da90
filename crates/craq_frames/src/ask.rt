//! `ClientMessage`: a client's request, with its reading and writing; used by `first` and
//! `versions`.
ghost use Rattle.std.specs.Prelude.{◌≡◌, ⊤, ◌++◌, OnOk, OnErr};
ghost use Rattle.std.specs.Io.{StartsWith};
ghost use Rattle.craq_wire.specs.NumberReading.{Decodes};
ghost use Rattle.craq_frames.specs.Payload.{mode as encodable_mode, update as encodable_update, ask as encodable_ask, AskFits, ModeFits, UpdateFits};
ghost use Rattle.craq_frames.specs.Reading.{mode_at, mode_body_at, update_at, ask_at, ask_body_at};

use bytes::BytesMut;
use craq_commands::{ReadMode, Update};
use craq_names::{ClientId, NodeId, ObjectId, Pass, RequestNo, Stamp};
use craq_wire::{
    DecodeError, MessagePart, read_command, read_u8, read_u32, read_u64, write_command, write_u8,
    write_u32, write_u64,
};
use std::alloc::{AllocError, Global};

/// A request of a client to a store's server.
#[derive(Debug, Drop)]
pub enum ClientMessage {
    /// An update at a node of the chain that its objects name. The pass is the largest that the
    /// client has seen.
    Update {
        node: NodeId,
        pass: Pass,
        update: Update,
    },
    /// A read of an object at a node.
    Read {
        node: NodeId,
        pass: Pass,
        mode: ReadMode,
        object: ObjectId,
    },
    /// Asks for the chains and their members.
    Status,
}

/// Reads what follows the tag of a mode; returns the mode with the bytes after it.
#[tactic(auto, unfolding(crate::specs::Reading::mode_body_at))]
fn read_mode_body(tag: u8, bytes: &[u8]) -> Result<(ReadMode, &[u8]), DecodeError>
    ensures { Decodes (λ x. (x.0, x.1.now)) result (mode_body_at tag bytes.now) }
{
    match tag {
        1 => Ok((ReadMode::Strong, bytes)),
        2 => Ok((ReadMode::Eventual, bytes)),
        3 => {
            let (above, rest) = read_u32(bytes)?;
            Ok((ReadMode::Bounded(above), rest))
        }
        _ => Err(DecodeError::BadFrame),
    }
}

/// Reads the mode at the front; returns it with the bytes after it.
#[tactic(auto, unfolding(crate::specs::Reading::mode_at))]
fn read_mode(bytes: &[u8]) -> Result<(ReadMode, &[u8]), DecodeError>
    ensures { Decodes (λ x. (x.0, x.1.now)) result (mode_at bytes.now) }
{
    let (tag, rest) = read_u8(bytes)?;
    read_mode_body(tag, rest)
}

/// Reads the update at the front; returns it with the bytes after it.
#[tactic(auto, unfolding(crate::specs::Reading::update_at, craq_wire::specs::PartReading::pair_at, craq_wire::specs::PartReading::request_at))]
fn read_update(alloc: Global, bytes: &[u8]) -> Result<(Update, &[u8]), DecodeError>
    ensures { Decodes (λ x. (x.0, x.1.now)) result (update_at bytes.now) }
{
    let (client, rest) = read_u64(bytes)?;
    let (number, rest) = read_u64(rest)?;
    let Ok(number) = RequestNo::new(number) else {
        return Err(DecodeError::BadFrame);
    };
    let (command, rest) = read_command(alloc, rest)?;
    let update = Update {
        client: ClientId::new(client),
        number,
        command,
    };
    Ok((update, rest))
}

/// Reads what follows the kind of a request; returns the request with the bytes after it.
#[tactic(auto, unfolding(crate::specs::Reading::ask_body_at, craq_wire::specs::PartReading::pair_at))]
pub(crate) fn read_ask_body(
    alloc: Global,
    kind: u8,
    bytes: &[u8],
) -> Result<(ClientMessage, &[u8]), DecodeError>
    ensures { Decodes (λ x. (x.0, x.1.now)) result (ask_body_at kind bytes.now) }
{
    match kind {
        1 => {
            let (node, rest) = read_u32(bytes)?;
            let (pass, rest) = read_u64(rest)?;
            let (update, rest) = read_update(alloc, rest)?;
            let ask = ClientMessage::Update {
                node: NodeId::new(node),
                pass: Pass::of(Stamp::new(pass)),
                update,
            };
            Ok((ask, rest))
        }
        2 => {
            let (node, rest) = read_u32(bytes)?;
            let (pass, rest) = read_u64(rest)?;
            let (mode, rest) = read_mode(rest)?;
            let (object, rest) = ObjectId::read(alloc, rest)?;
            let ask = ClientMessage::Read {
                node: NodeId::new(node),
                pass: Pass::of(Stamp::new(pass)),
                mode,
                object,
            };
            Ok((ask, rest))
        }
        3 => Ok((ClientMessage::Status, bytes)),
        _ => Err(DecodeError::BadFrame),
    }
}

/// Appends a mode. On an error the old bytes are still in front.
#[tactic(auto, unfolding(crate::specs::Payload::mode))]
fn append_mode(out: &mut BytesMut, mode: &ReadMode) -> Result<(), AllocError>
    ensures fits { OnOk result (ModeFits mode.now) }
    ensures spelled { OnOk result (out.new.items ≡ out.old.items ++ encodable_mode mode.now) }
    ensures appends { OnErr result (StartsWith out.new.items out.old.items) }
{
    match mode {
        ReadMode::Strong => write_u8(out, 1),
        ReadMode::Eventual => write_u8(out, 2),
        ReadMode::Bounded(above) => {
            write_u8(out, 3)?;
            write_u32(out, *above)
        }
    }
}

/// Appends an update. On an error the old bytes are still in front.
#[tactic(auto, unfolding(crate::specs::Payload::update))]
fn append_update(out: &mut BytesMut, update: &Update) -> Result<(), AllocError>
    ensures fits { OnOk result (UpdateFits update.now) }
    ensures spelled { OnOk result (out.new.items ≡ out.old.items ++ encodable_update update.now) }
    ensures appends { OnErr result (StartsWith out.new.items out.old.items) }
{
    write_u64(out, update.client.get())?;
    write_u64(out, update.number.get())?;
    write_command(out, &update.command)
}

impl MessagePart for ClientMessage {
    ghost encoding = { encodable_ask };

    ghost fits = { AskFits };

    ghost is_writable = { λ _. ⊤ };

    ghost part_at = { ask_at };

    #[tactic(auto, unfolding(crate::specs::Reading::ask_at))]
    fn read(alloc: Global, bytes: &[u8]) -> Result<(Self, &[u8]), DecodeError> {
        let (kind, rest) = read_u8(bytes)?;
        read_ask_body(alloc, kind, rest)
    }

    #[tactic(auto, unfolding(crate::specs::Payload::ask))]
    fn append(&self, out: &mut BytesMut) -> Result<(), AllocError> {
        match self {
            ClientMessage::Update { node, pass, update } => {
                write_u8(out, 1)?;
                write_u32(out, node.get())?;
                write_u64(out, pass.stamp().get())?;
                append_update(out, update)
            }
            ClientMessage::Read {
                node,
                pass,
                mode,
                object,
            } => {
                write_u8(out, 2)?;
                write_u32(out, node.get())?;
                write_u64(out, pass.stamp().get())?;
                append_mode(out, mode)?;
                object.write(out)
            }
            ClientMessage::Status => write_u8(out, 3),
        }
    }
}
