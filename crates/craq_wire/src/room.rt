//! Estimates the size of a message, so that its buffer is allocated once; used by `wire`.
use craq_commands::{Entry, Write};
use craq_model::Body;

/// The bytes of a message's header, and of the count in a message with entries.
const HEADER_ROOM: usize = 33;

/// The bytes of a message whose body is at most two numbers.
const SHORT_ROOM: usize = 48;

/// The bytes that most messages with a membership or a state need.
const STATE_ROOM: usize = 128;

/// The bytes that an entry with the reply of a put needs beside its writes.
const ENTRY_ROOM: usize = 46;

/// The bytes that a write needs beside its key and its value: both lengths and the version.
const WRITE_ROOM: usize = 11;

/// Returns the size of a write in bytes.
fn room_of_write(write: &Write) -> usize {
    WRITE_ROOM + write.key.as_slice().len() + write.value.as_slice().len()
}

/// Estimates the size of an entry in bytes.
fn room_of_entry(entry: &Entry) -> usize {
    let mut room = ENTRY_ROOM;
    for write in entry.writes.as_slice() {
        room = room.saturating_add(room_of_write(write));
    }
    room
}

/// Estimates the size of a message with this body in bytes. Entries are measured one by one; the
/// buffer grows if the estimate is too small. A new buffer is filled with zeros, so each byte too
/// many costs time.
pub(crate) fn room_of(body: &Body) -> usize {
    match body {
        Body::Entry(entry) => HEADER_ROOM.saturating_add(room_of_entry(entry)),
        Body::Batch(entries) => {
            let mut room = HEADER_ROOM;
            for entry in entries.as_slice() {
                room = room.saturating_add(room_of_entry(entry));
            }
            room
        }
        Body::Query { key, .. } => SHORT_ROOM.saturating_add(key.as_slice().len()),
        Body::Config { .. } | Body::Copy { .. } | Body::Part(_) => STATE_ROOM,
        _ => SHORT_ROOM,
    }
}
