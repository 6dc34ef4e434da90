//! Replies to updates as parts of messages; used by `entry` and, for replies to clients, by
//! `craq_frames`.
ghost use Rattle.std.specs.Prelude.{◌≡◌};
ghost use Rattle.craq_wire.specs.NumberReading.{Decodes};
ghost use Rattle.craq_model.specs.Encodable.{IsReply};
ghost use Rattle.craq_wire.specs.EntryReading.{reply_at, reply_body_at};
ghost use Rattle.craq_wire.specs.EntryEncoding.{reply, ReplyFits};

use crate::{
    DecodeError, MessagePart, read_short_list, read_u8, read_u64, write_short_list, write_u8,
};
use bytes::BytesMut;
use craq_commands::Reply;
use craq_names::{RequestNo, Version};
use std::alloc::{AllocError, Global};

/// Reads what follows the tag of a reply; returns the reply with the bytes after it.
#[tactic(auto, unfolding(crate::specs::EntryReading::reply_body_at, crate::specs::PartReading::request_at))]
fn read_reply_body(alloc: Global, tag: u8, bytes: &[u8]) -> Result<(Reply, &[u8]), DecodeError>
    ensures { Decodes (λ x. (x.0, x.1.now)) result (reply_body_at tag bytes.now) }
{
    match tag {
        1 => {
            let (version, rest) = read_u64(bytes)?;
            Ok((Reply::Written(Version::new(version)), rest))
        }
        2 => {
            let (version, rest) = read_u64(bytes)?;
            Ok((Reply::Mismatch(Version::new(version)), rest))
        }
        3 => Ok((Reply::TooLong, bytes)),
        4 => Ok((Reply::NotANumber, bytes)),
        5 => Ok((Reply::Overflow, bytes)),
        6 => Ok((Reply::Underflow, bytes)),
        7 => {
            let (objects, rest) = read_short_list(alloc, bytes)?;
            Ok((Reply::Done(objects), rest))
        }
        8 => {
            let (place, rest) = read_u8(bytes)?;
            Ok((Reply::CompareFailed(place), rest))
        }
        9 => {
            let (last, rest) = read_u64(bytes)?;
            match RequestNo::new(last) {
                Ok(last) => Ok((Reply::Stale(last), rest)),
                Err(_) => Err(DecodeError::BadFrame),
            }
        }
        _ => Err(DecodeError::BadFrame),
    }
}

impl MessagePart for Reply {
    ghost encoding = { reply };

    ghost fits = { ReplyFits };

    ghost is_writable = { IsReply };

    ghost part_at = { reply_at };

    #[tactic(auto, unfolding(crate::specs::EntryReading::reply_at))]
    fn read(alloc: Global, bytes: &[u8]) -> Result<(Self, &[u8]), DecodeError> {
        let (tag, rest) = read_u8(bytes)?;
        read_reply_body(alloc, tag, rest)
    }

    #[tactic(auto, unfolding(crate::specs::EntryEncoding::reply))]
    fn append(&self, out: &mut BytesMut) -> Result<(), AllocError> {
        match self {
            Reply::Written(version) => {
                write_u8(out, 1)?;
                version.write(out)
            }
            Reply::Mismatch(version) => {
                write_u8(out, 2)?;
                version.write(out)
            }
            Reply::TooLong => write_u8(out, 3),
            Reply::NotANumber => write_u8(out, 4),
            Reply::Overflow => write_u8(out, 5),
            Reply::Underflow => write_u8(out, 6),
            Reply::Done(objects) => {
                write_u8(out, 7)?;
                write_short_list(out, objects.as_slice())
            }
            Reply::CompareFailed(place) => {
                write_u8(out, 8)?;
                write_u8(out, *place)
            }
            Reply::Stale(last) => {
                write_u8(out, 9)?;
                last.write(out)
            }
        }
    }
}
