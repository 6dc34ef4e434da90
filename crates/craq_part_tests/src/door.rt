//! Defines the request handler of these tests; for `rows`.
ghost use Rattle.std.specs.Prelude.{⊤};
ghost use Rattle.craq_frames.specs.Allowed.{IsAllowed};

use craq_commands::Reply;
use craq_frames::{ClientMessage, ClientReply};
use craq_front::Door;
use craq_names::{Pass, Refusal, Stamp, Value, Version};
use std::alloc::Global;

/// Replies to each update that version 1 was written, and to each read version 1 and `a`, with pass
/// 9. Counts its requests.
#[derive(Drop)]
pub(crate) struct Answers {
    pub(crate) alloc: Global,
    pub(crate) asked: u64,
}

/// Returns version 1 and `a`, with pass 9.
fn value(alloc: Global) -> ClientReply
    ensures { IsAllowed result }
{
    match Value::new(alloc, &[97]) {
        Ok(value) => ClientReply::Read {
            pass: Pass::of(Stamp::new(9)),
            version: Version::new(1),
            value,
        },
        Err(_) => ClientReply::Refused(Refusal::Memory),
    }
}

impl Door for Answers {
    ghost turn = { λ old message reply new. ⊤ };

    fn ask(&mut self, message: ClientMessage) -> ClientReply {
        self.asked = self.asked.saturating_add(1);
        match message {
            ClientMessage::Update { .. } => ClientReply::Update {
                pass: Pass::of(Stamp::new(9)),
                reply: Reply::Written(Version::new(1)),
            },
            ClientMessage::Read { .. } => value(self.alloc),
            ClientMessage::Status => ClientReply::Refused(Refusal::UnknownChain),
        }
    }
}
