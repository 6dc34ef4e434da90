//! Encodes and decodes the messages between the nodes of a chain, and the parts of messages:
//! numbers, keys, values, replies, entries, commands. `craq_frames` builds on the parts for clients.
//! Runs in the programs: `craq_running_node` writes the messages and reads them.
#![tactic(auto)]

mod alike;
mod command;
mod decode_error;
mod entry;
mod laws;
mod list;
mod message;
mod number;
mod part;
mod reply;
mod reply_rules;
mod room;
mod rules;
mod undo;
mod window;
mod wire;

pub use command::{read_command, write_command};
pub use craq_model::{Body, LinkMessage};
pub use decode_error::DecodeError;
pub use laws::messages_with_encodings;
pub use list::{
    read_long_list, read_parts, read_short_list, write_long_list, write_parts, write_short_list,
};
pub use number::{
    read_bytes, read_u8, read_u16, read_u32, read_u64, write_u8, write_u16, write_u32, write_u64,
};
pub use part::MessagePart;
pub use reply_rules::{is_encodable_reply, is_fresh_reply};
pub use wire::{decode, encode, encode_as, one_encoding, spelled};
