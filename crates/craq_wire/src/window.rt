//! The kept replies of a client as parts of messages; used by `message`, whose `Copy` and
//! `Part` hold the state of a node.
ghost use Rattle.craq_model.specs.Encodable.{IsEncodableWindow};
ghost use Rattle.craq_wire.specs.EntryReading.{window_at};
ghost use Rattle.craq_wire.specs.EntryEncoding.{window, WindowFits};

use crate::{DecodeError, MessagePart, read_short_list, write_short_list};
use bytes::BytesMut;
use craq_commands::{Kept, WINDOW_LIMIT, Window};
use std::alloc::{AllocError, Global};

impl MessagePart for Window {
    ghost encoding = { window };

    ghost fits = { WindowFits };

    ghost is_writable = { IsEncodableWindow };

    ghost part_at = { window_at };

    #[tactic(auto, unfolding(crate::specs::EntryReading::window_at))]
    fn read(alloc: Global, bytes: &[u8]) -> Result<(Self, &[u8]), DecodeError> {
        let (replies, rest) = read_short_list::<Kept>(alloc, bytes)?;
        if replies.len() > WINDOW_LIMIT {
            return Err(DecodeError::BadFrame);
        }
        Ok((Window::of(replies.into_vec()), rest))
    }

    #[tactic(auto, using(crate::proofs::Free::writable_replies, crate::proofs::Free::few_replies))]
    fn append(&self, out: &mut BytesMut) -> Result<(), AllocError> {
        write_short_list(out, self.as_slice())
    }
}
