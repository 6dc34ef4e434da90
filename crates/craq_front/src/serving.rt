//! `serve`: answers all requests of a connection, in order, by a request handler.
ghost use Rattle.std.specs.Prelude.{◌≡◌, ◌≢◌, ◌+◌, ◌-◌, ◌^◌, ◌<◌, ℕ, List, None, [], ◌++◌, false, Ok, Err, IfOk, IfErr, OnOk, OnErr};
ghost use Rattle.std.specs.Io.KnownBytes.{Appends, Consumes, IsAtEnd};
ghost use Rattle.craq_frames.specs.Frame.{frame};
ghost use Rattle.craq_frames.specs.Serving.{Replies, Begins, StreamFault, read_faults, write_faults, Conversation, Next, Batch};
ghost use Rattle.craq_frames.specs.Steps.{IsFirst, ahead};

use crate::buffers::{ended, fill, flush};
use crate::{Door, Sink, Source};
use craq_frames::{ClientMessage, CodecEvent, ProtocolCodec};
use craq_names::Refusal;
use std::alloc::Global;

/// Asks the request handler the first request of a payload and those behind it, and appends the
/// frame of their replies. `Memory` where a growth was refused; nothing was appended then.
fn answer_payload<D: Door>(
    codec: &mut ProtocolCodec,
    door: &mut D,
    first: ClientMessage,
) -> Result<(), Refusal>
    requires { ahead codec.old.asking ≡ 0 }
    ensures ok { OnOk result ((payload : List ℕ) → IsFirst codec.old.asking first payload
        → (reply : List ℕ) × (codec.new.buffers.output.items ≡ codec.old.buffers.output.items ++ frame reply)
        × Replies D.turn door.old payload reply door.new) }
    ensures err { IfErr result (λ e. e ≡ Refusal.Memory) }
    ensures begun { OnErr result ((payload : List ℕ) → IsFirst codec.old.asking first payload
        → (codec.new.buffers.output.items ≡ codec.old.buffers.output.items) × Begins D.turn door.old payload door.new) }
    ensures idle { OnOk result (codec.new.asking ≡ None) }
    ensures input { codec.new.buffers.input.items ≡ codec.old.buffers.input.items }
{
    let mut asked = Some(first);
    while let Some(message) = asked {
        let reply = door.ask(message);
        asked = codec.reply(reply)?;
    }
    Ok(())
}

/// Appends the frame of the reply to the next payload; returns false where there is less than a
/// frame.
///
/// - `FrameTooLong` at a length above the limit; that refusal's frame was appended.
/// - `Memory` where a growth was refused; nothing was appended.
fn answer_next<D: Door>(
    alloc: Global,
    codec: &mut ProtocolCodec,
    door: &mut D,
) -> Result<bool, Refusal>
    requires { codec.old.asking ≡ None }
    ensures next { (unsent : List ℕ) × (codec.new.buffers.output.items ≡ codec.old.buffers.output.items ++ unsent)
        × Next D.turn door.old codec.old.buffers.input.items codec.new.buffers.input.items unsent door.new result }
    ensures idle { OnOk result (codec.new.asking ≡ None) }
{
    match codec.next(alloc)? {
        CodecEvent::Ask(message) => {
            answer_payload(codec, door, message)?;
            Ok(true)
        }
        CodecEvent::Refused => {
            door.unasked(&Refusal::BadFrame);
            Ok(true)
        }
        CodecEvent::Nothing => Ok(false),
    }
}

/// Tells the request handler of a frame that is too long. The other refusals are not sent.
fn note<D: Door>(door: &D, refusal: &Refusal) {
    if let Refusal::FrameTooLong = refusal {
        door.unasked(refusal);
    }
}

/// Answers the next frames until less than a frame is left (true) or many bytes are unsent (false),
/// and counts them. `Exhausted` once the count is 2^64 - 1. Where nothing was unsent before, false
/// comes only after a frame was answered.
fn answer_batch<D: Door>(
    alloc: Global,
    codec: &mut ProtocolCodec,
    door: &mut D,
    frames: &mut u64,
) -> Result<bool, Refusal>
    requires { codec.old.asking ≡ None }
    ensures batch { (unsent : List ℕ) × (n : ℕ) × (codec.new.buffers.output.items ≡ codec.old.buffers.output.items ++ unsent)
        × (frames.new ≡ frames.old + n)
        × Batch D.turn door.old codec.old.buffers.input.items codec.new.buffers.input.items unsent n door.new result }
    ensures idle { OnOk result (codec.new.asking ≡ None) }
    ensures exhausted { result ≡ Err Refusal.Exhausted → frames.new ≡ 2 ^ 64 - 1 }
    ensures more { result ≡ Ok false → codec.old.buffers.output.items ≡ [] → frames.old < frames.new }
{
    while !codec.is_full() {
        if *frames == u64::MAX {
            return Err(Refusal::Exhausted);
        }
        match answer_next(alloc, codec, door) {
            Ok(true) => *frames += 1,
            Ok(false) => return Ok(true),
            Err(refusal) => {
                note(door, &refusal);
                return Err(refusal);
            }
        }
    }
    Ok(false)
}

/// Answers each frame of the reader by a frame written to the writer, in order, until the input
/// ends between two frames. Returns the number of frames. A payload of one request gets the reply
/// of the request handler, in the payload's version; a payload of several requests gets the replies
/// to each, in order; a payload that encodes nothing gets `Refused(BadFrame)`, and the handler is
/// not asked. The replies to all frames of one read are written together, or in parts where they
/// are many bytes. The reader is asked for more only after all of them are written.
///
/// - `FrameTooLong` where a length is above 1,048,576. The last frame written is
///   `Refused(FrameTooLong)`.
/// - `Closed` where the input ends inside a frame.
/// - `Io` where a read or a write failed and the stream counted it: after a read the replies to all
///   whole frames are written, after a write a prefix of the replies. No failed call is tried
///   again.
/// - `Memory` where a growth was refused: the whole replies to all earlier frames are written.
/// - `Exhausted` only after 2^64 - 1 reads and frames together: the whole replies to all earlier
///   frames are written. A stream shows its bytes and not its reads, so the contract bounds the
///   reads by their bytes (`IsUsedUp`).
///
/// After each of these the connection is over. The counts of failed calls have to be below 2^64 - 1
/// (this project's profile).
pub fn serve<R: Source, W: Sink, D: Door>(
    alloc: Global,
    reader: &mut R,
    writer: &mut W,
    door: &mut D,
) -> Result<u64, Refusal>
    requires reads { R.count reader.old < 2 ^ 64 - 1 }
    requires writes { W.count writer.old < 2 ^ 64 - 1 }
    // The bytes written answer the bytes read, as `Conversation` says for each result.
    ensures session { (read : List ℕ) × (written : List ℕ) × (fault : StreamFault)
        × Consumes (R.remaining reader.old) (R.remaining reader.new) read
        × Appends (W.contents writer.old) (W.contents writer.new) written
        × (R.count reader.new ≡ R.count reader.old + read_faults fault)
        × (W.count writer.new ≡ W.count writer.old + write_faults fault)
        × Conversation D.turn door.old read written door.new fault result }
    // A count, or an end inside a frame, is answered only at the end of the input.
    ensures end { IfOk result (λ n. IsAtEnd (R.remaining reader.new)) }
    ensures closed { result ≡ Err Refusal.Closed → IsAtEnd (R.remaining reader.new) }
{
    let mut codec = ProtocolCodec::new(alloc);
    let mut frames = 0u64;
    for _turn in 0..u64::MAX {
        let batch = answer_batch(alloc, &mut codec, door, &mut frames);
        flush(&mut codec.buffers, writer)?;
        let is_drained = batch?;
        if is_drained {
            let count = fill(&mut codec.buffers, reader)?;
            if count == 0 {
                return ended(&codec.buffers, frames);
            }
        }
    }
    Err(Refusal::Exhausted)
}
