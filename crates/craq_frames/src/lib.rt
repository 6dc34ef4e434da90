//! Encodes the requests and replies of clients as bytes in frames. `ProtocolCodec` is the codec of
//! one connection: it cuts frames into requests, and encodes the replies to them.
//!
//! It knows no stream and no store, so a client needs no node for it. Runs in the programs: in the
//! server's crates and in `craq`.
#![tactic(auto)]

mod allowed;
mod answer;
mod ask;
mod buffers;
mod first;
mod frame;
mod laws;
mod protocol_codec;
mod replying;
mod several;
mod text;
mod versions;

pub use allowed::is_allowed;
pub use answer::ClientReply;
pub use ask::ClientMessage;
pub use buffers::Buffers;
pub use frame::{
    MAX_PAYLOAD, cut_off_frame, cuts_frames, frame_codec, payload_in_front, write_frame,
};
pub use laws::{
    allowed_replies_are_short, asks_with_encodings, codecs_answer, replies_with_encodings,
};
pub use protocol_codec::{CodecEvent, ProtocolCodec};
pub use text::Text;
pub use versions::{Answered, MOST_MESSAGES, Payload, PayloadVersion};

/// The version of payloads of one request or one reply.
const PAYLOAD_VERSION: u8 = 1;

/// The bytes that most payloads need at most.
const USUAL_PAYLOAD_SIZE: usize = 128;
