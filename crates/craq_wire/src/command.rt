//! Reads and writes commands by the grammar of `specs/CommandEncoding`; used by `craq_frames`.
ghost use Rattle.std.specs.Prelude.{◌≡◌, ◌++◌, OnOk, OnErr};
ghost use Rattle.std.specs.Int.{w64};
ghost use Rattle.std.specs.Io.{StartsWith};
ghost use Rattle.craq_wire.specs.NumberReading.{Decodes, number_at};
ghost use Rattle.craq_wire.specs.PartReading.{object_at, pair_at};
ghost use Rattle.craq_wire.specs.CommandReading.{command_at, command_body_at, transaction_at};
ghost use Rattle.craq_wire.specs.PartEncoding.{object as object_bytes, value as value_bytes, IsObject, IsValue};
ghost use Rattle.craq_wire.specs.CommandEncoding.{command as encodable_command, transaction, CommandFits, TransactionFits};

use crate::undo::undo_if_err;
use crate::{
    DecodeError, MessagePart, read_short_list, read_u8, read_u64, write_short_list, write_u8,
    write_u64,
};
use bytes::BytesMut;
use craq_commands::{Command, Mini};
use craq_names::{ObjectId, Value, Version};
use std::alloc::{AllocError, Global};

/// Reads the transaction at the front; returns it with the bytes after it.
#[tactic(auto, unfolding(crate::specs::CommandReading::transaction_at, crate::specs::PartReading::pair_at))]
fn read_transaction(alloc: Global, bytes: &[u8]) -> Result<(Mini, &[u8]), DecodeError>
    ensures { Decodes (λ x. (x.0, x.1.now)) result (transaction_at bytes.now) }
{
    let (compares, rest) = read_short_list(alloc, bytes)?;
    let (reads, rest) = read_short_list(alloc, rest)?;
    let (writes, rest) = read_short_list(alloc, rest)?;
    match Mini::new(compares, reads, writes) {
        Ok(mini) => Ok((mini, rest)),
        Err(_) => Err(DecodeError::BadFrame),
    }
}

/// Reads an object and an amount; returns them with the bytes after them.
#[tactic(auto, unfolding(crate::specs::PartReading::pair_at))]
fn read_amount(alloc: Global, bytes: &[u8]) -> Result<(ObjectId, u64, &[u8]), DecodeError>
    ensures { Decodes (λ x. ((x.0, x.1), x.2.now)) result (pair_at object_at (number_at w64) bytes.now) }
{
    let (object, rest) = ObjectId::read(alloc, bytes)?;
    match read_u64(rest) {
        Ok((by, rest)) => Ok((object, by, rest)),
        Err(error) => {
            drop(object);
            Err(error)
        }
    }
}

/// Reads what follows the tag of a command; returns the command with the bytes after it.
#[tactic(auto, unfolding(crate::specs::CommandReading::command_body_at))]
fn read_command_body(alloc: Global, tag: u8, bytes: &[u8]) -> Result<(Command, &[u8]), DecodeError>
    ensures { Decodes (λ x. (x.0, x.1.now)) result (command_body_at tag bytes.now) }
{
    match tag {
        1 => {
            let ((object, value), rest) = <(ObjectId, Value)>::read(alloc, bytes)?;
            Ok((Command::Put { object, value }, rest))
        }
        2 => {
            let ((object, (expect, value)), rest) = <(ObjectId, (Version, Value))>::read(
                alloc, bytes,
            )?;
            let command = Command::TestAndSet {
                object,
                expect,
                value,
            };
            Ok((command, rest))
        }
        3 => {
            let ((object, value), rest) = <(ObjectId, Value)>::read(alloc, bytes)?;
            Ok((Command::Append { object, value }, rest))
        }
        4 => {
            let ((object, value), rest) = <(ObjectId, Value)>::read(alloc, bytes)?;
            Ok((Command::Prepend { object, value }, rest))
        }
        5 => {
            let (object, by, rest) = read_amount(alloc, bytes)?;
            Ok((Command::Increment { object, by }, rest))
        }
        6 => {
            let (object, by, rest) = read_amount(alloc, bytes)?;
            Ok((Command::Decrement { object, by }, rest))
        }
        7 => {
            let (mini, rest) = read_transaction(alloc, bytes)?;
            Ok((Command::Mini(mini), rest))
        }
        _ => Err(DecodeError::BadFrame),
    }
}

/// Reads the command at the front; returns it with the bytes after it. `BadFrame` exactly if no
/// command is at the front; `Memory` if an allocation failed.
#[tactic(auto, unfolding(crate::specs::CommandReading::command_at))]
pub fn read_command(alloc: Global, bytes: &[u8]) -> Result<(Command, &[u8]), DecodeError>
    ensures { Decodes (λ x. (x.0, x.1.now)) result (command_at bytes.now) }
{
    let (tag, rest) = read_u8(bytes)?;
    read_command_body(alloc, tag, rest)
}

/// Appends an object and a value. On an error the old bytes are still in front.
fn append_put(out: &mut BytesMut, object: &ObjectId, value: &Value) -> Result<(), AllocError>
    ensures fits { OnOk result (IsObject object.now × IsValue value.now) }
    ensures spelled { OnOk result (out.new.items
        ≡ out.old.items ++ (object_bytes object.now ++ value_bytes value.now)) }
    ensures appends { OnErr result (StartsWith out.new.items out.old.items) }
{
    object.write(out)?;
    value.write(out)
}

/// Appends a transaction. On an error the old bytes are still in front.
#[tactic(auto, using(crate::proofs::Free::all_of_any))]
fn append_transaction(out: &mut BytesMut, mini: &Mini) -> Result<(), AllocError>
    ensures fits { OnOk result (TransactionFits mini.now) }
    ensures spelled { OnOk result (out.new.items ≡ out.old.items ++ transaction mini.now) }
    ensures appends { OnErr result (StartsWith out.new.items out.old.items) }
{
    mini.keeps_limits();
    write_short_list(out, mini.compares())?;
    write_short_list(out, mini.reads())?;
    write_short_list(out, mini.writes())
}

/// Appends a command. On an error the old bytes are still in front.
#[tactic(auto, unfolding(crate::specs::CommandEncoding::command))]
fn append_command(out: &mut BytesMut, command: &Command) -> Result<(), AllocError>
    ensures fits { OnOk result (CommandFits command.now) }
    ensures spelled { OnOk result (out.new.items ≡ out.old.items ++ encodable_command command.now) }
    ensures appends { OnErr result (StartsWith out.new.items out.old.items) }
{
    match command {
        Command::Put { object, value } => {
            write_u8(out, 1)?;
            append_put(out, object, value)
        }
        Command::TestAndSet {
            object,
            expect,
            value,
        } => {
            write_u8(out, 2)?;
            object.write(out)?;
            expect.write(out)?;
            value.write(out)
        }
        Command::Append { object, value } => {
            write_u8(out, 3)?;
            append_put(out, object, value)
        }
        Command::Prepend { object, value } => {
            write_u8(out, 4)?;
            append_put(out, object, value)
        }
        Command::Increment { object, by } => {
            write_u8(out, 5)?;
            object.write(out)?;
            write_u64(out, *by)
        }
        Command::Decrement { object, by } => {
            write_u8(out, 6)?;
            object.write(out)?;
            write_u64(out, *by)
        }
        Command::Mini(mini) => {
            write_u8(out, 7)?;
            append_transaction(out, mini)
        }
    }
}

/// Writes a command at the end. Fails only when out of memory; the bytes are then unchanged.
pub fn write_command(out: &mut BytesMut, command: &Command) -> Result<(), AllocError>
    ensures fits { OnOk result (CommandFits command.now) }
    ensures spelled { OnOk result (out.new.items ≡ out.old.items ++ encodable_command command.now) }
    ensures same { OnErr result (out.new.items ≡ out.old.items) }
{
    let len = out.len();
    let written = append_command(out, command);
    undo_if_err(out, len, written)
}
