//! Serves a connection with a script's requests, by a handler that takes no memory; called by
//! `ways` and `messages`.
ghost use Rattle.std.specs.Prelude.{⊤};

use super::rows::Row;
use super::teller::{Call, TRIES, Teller};
use bytes::BytesMut;
use craq_commands::Reply;
use craq_frames::{ClientMessage, ClientReply, write_frame};
use craq_front::{Door, Stream, serve};
use craq_model::Ask;
use craq_names::{Copied, Pass, Refusal, Stamp, Version};
use craq_runs::Move;
use std::alloc::{AllocError, Global};
use std::io;
use std::io::{Read, Write};

/// The number of bytes that arrive at once.
const PIECE: usize = 97;

/// The room for replies, enough for all.
const ROOM: usize = 1_000_000;

/// A reader that returns its bytes in pieces.
#[derive(Drop)]
struct Pieces<'a> {
    rest: &'a [u8],
}

impl Read for Pieces<'_> {
    fn read(&mut self, buffer: &mut [u8]) -> io::Result<usize> {
        let count = PIECE.min(buffer.len()).min(self.rest.len());
        let (first, others) = self.rest.split_at(count);
        buffer[..count].copy_from_slice(first);
        self.rest = others;
        Ok(count)
    }
}

/// A writer with room for all replies.
#[derive(Drop)]
struct Written {
    bytes: Vec<u8>,
}

impl Write for Written {
    fn write(&mut self, bytes: &[u8]) -> io::Result<usize> {
        self.bytes.extend_from_slice(bytes)?;
        Ok(bytes.len())
    }

    fn flush(&mut self) -> io::Result<()> {
        Ok(())
    }
}

/// Replies to each update that version 1 was written, with pass 9, and refuses everything else.
#[derive(Drop)]
struct Answers;

impl Door for Answers {
    ghost turn = { λ old message reply new. ⊤ };

    fn ask(&mut self, message: ClientMessage) -> ClientReply {
        let is_update = matches!(&message, ClientMessage::Update { .. });
        drop(message);
        if is_update {
            ClientReply::Update {
                pass: Pass::of(Stamp::new(9)),
                reply: Reply::Written(Version::new(1)),
            }
        } else {
            ClientReply::Refused(Refusal::UnknownChain)
        }
    }
}

/// Returns a move's request as a client sends it; `None` if the move is not a request.
fn message_of(alloc: Global, chosen: &Move) -> Result<Option<ClientMessage>, AllocError> {
    let Move::Ask { node, ask } = chosen else {
        return Ok(None);
    };
    let (node, pass) = (*node, Pass::start());
    Ok(Some(match ask {
        Ask::Update(update) => ClientMessage::Update {
            node,
            pass,
            update: update.copied(alloc)?,
        },
        Ask::Read { mode, object } => ClientMessage::Read {
            node,
            pass,
            mode: *mode,
            object: object.copied(alloc)?,
        },
    }))
}

/// Returns the script's requests as clients send them. Leaves out one for which memory runs out.
pub fn messages_of(alloc: Global, row: &Row) -> Vec<ClientMessage> {
    let mut messages = Vec::new(alloc);
    for chosen in &row.moves {
        if let Ok(Some(message)) = message_of(alloc, chosen) {
            let _ = messages.push(message);
        }
    }
    messages
}

/// Returns the frames of these requests, one after another. Leaves out one for which memory runs
/// out.
fn frames_of(alloc: Global, messages: &[ClientMessage]) -> Result<BytesMut, AllocError> {
    let mut frames = BytesMut::with_capacity(alloc, 0)?;
    for message in messages {
        if let Ok(payload) = message.encode(alloc) {
            let _ = write_frame(&mut frames, payload);
        }
    }
    Ok(frames)
}

/// Returns the number of whole frames.
fn count_of(bytes: &[u8]) -> usize {
    let mut rest = bytes;
    let mut count = 0usize;
    for _ in 0..bytes.len() {
        let Some(([a, b, c, d], others)) = rest.split_first_chunk::<4>() else {
            return count;
        };
        let size = u32::from_be_bytes([*a, *b, *c, *d]) as usize;
        let Some(left) = others.get(size..) else {
            return count;
        };
        rest = left;
        count = count.saturating_add(1);
    }
    count
}

/// Serves a connection with these frames, and appends the replies to `written`. Returns true unless
/// serving ran out of memory.
fn serve_once(teller: Teller, frames: &[u8], written: &mut Vec<u8>) -> Result<bool, AllocError> {
    let bytes = Vec::with_capacity(teller.alloc, ROOM)?;
    let mut reader = Stream::new(Pieces { rest: frames });
    let mut writer = Stream::new(Written { bytes });
    teller.begin(Call::Serve);
    let served = serve(teller.alloc, &mut reader, &mut writer, &mut Answers);
    let is_done = teller.end(Call::Serve, served == Err(Refusal::Memory));
    let Written { bytes } = writer.into_inner();
    let _ = written.extend_from_slice(bytes.as_slice());
    Ok(is_done)
}

/// Prints the replies to all requests. If serving runs out of memory, sends the unanswered requests
/// once more on a new connection.
pub fn play(teller: Teller, row: &Row) {
    let messages = messages_of(teller.alloc, row);
    let mut written = Vec::new(teller.alloc);
    for _ in 0..TRIES {
        let left = messages.as_slice().get(count_of(written.as_slice())..);
        let is_done = match &frames_of(teller.alloc, left.unwrap_or(&[])) {
            Ok(frames) => serve_once(teller, frames.as_slice(), &mut written),
            Err(_) => Ok(true),
        };
        if is_done != Ok(false) {
            break;
        }
    }
    let _ = println!(teller.host; "{written:?}");
}
