//! Entries and their writes as parts of messages; used by `message`.
ghost use Rattle.std.specs.Prelude.{⊤};
ghost use Rattle.craq_model.specs.Encodable.{IsEncodableEntry};
ghost use Rattle.craq_wire.specs.EntryReading.{entry_at, write_at};
ghost use Rattle.craq_wire.specs.EntryEncoding.{entry, write, EntryFits, WriteFits};

use crate::{
    DecodeError, MessagePart, read_short_list, read_u32, read_u64, write_short_list, write_u64,
};
use bytes::BytesMut;
use craq_commands::{Entry, Reply, Write};
use craq_names::{ClientId, Key, NodeId, RequestNo, Seq, Ticket, Value, Version};
use std::alloc::{AllocError, Global};

impl MessagePart for Write {
    ghost encoding = { write };

    ghost fits = { WriteFits };

    ghost is_writable = { λ _. ⊤ };

    ghost part_at = { write_at };

    #[tactic(auto, unfolding(crate::specs::EntryReading::write_at, crate::specs::PartReading::pair_at))]
    fn read(alloc: Global, bytes: &[u8]) -> Result<(Self, &[u8]), DecodeError> {
        let (key, rest) = Key::read(alloc, bytes)?;
        let (version, rest) = read_u64(rest)?;
        let (value, rest) = Value::read(alloc, rest)?;
        let write = Write {
            key,
            version: Version::new(version),
            value,
        };
        Ok((write, rest))
    }

    #[tactic(auto, unfolding(crate::specs::EntryEncoding::write))]
    fn append(&self, out: &mut BytesMut) -> Result<(), AllocError> {
        self.key.write(out)?;
        self.version.write(out)?;
        self.value.write(out)
    }
}

impl MessagePart for Entry {
    ghost encoding = { entry };

    ghost fits = { EntryFits };

    ghost is_writable = { IsEncodableEntry };

    ghost part_at = { entry_at };

    #[tactic(auto, unfolding(crate::specs::EntryReading::entry_at, crate::specs::PartReading::pair_at, crate::specs::PartReading::request_at))]
    fn read(alloc: Global, bytes: &[u8]) -> Result<(Self, &[u8]), DecodeError> {
        let (position, rest) = read_u64(bytes)?;
        let (origin_node, rest) = read_u32(rest)?;
        let (origin_ticket, rest) = read_u64(rest)?;
        let (client, rest) = read_u64(rest)?;
        let (number, rest) = read_u64(rest)?;
        let Ok(number) = RequestNo::new(number) else {
            return Err(DecodeError::BadFrame);
        };
        let (reply, rest) = Reply::read(alloc, rest)?;
        let (writes, rest) = read_short_list(alloc, rest)?;
        let entry = Entry {
            position: Seq::new(position),
            origin_node: NodeId::new(origin_node),
            origin_ticket: Ticket::new(origin_ticket),
            client: ClientId::new(client),
            number,
            reply,
            writes,
        };
        Ok((entry, rest))
    }

    #[tactic(auto, unfolding(crate::specs::EntryEncoding::entry))]
    fn append(&self, out: &mut BytesMut) -> Result<(), AllocError> {
        write_u64(out, self.position.get())?;
        self.origin_node.write(out)?;
        write_u64(out, self.origin_ticket.get())?;
        self.client.write(out)?;
        self.number.write(out)?;
        self.reply.write(out)?;
        write_short_list(out, self.writes.as_slice())
    }
}
