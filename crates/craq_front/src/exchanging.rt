//! `exchange`: sends one request and receives its reply; for a client.
ghost use Rattle.std.specs.Prelude.{◌≡◌, ◌+◌, ◌-◌, ◌^◌, ◌<◌, ◌⊎◌, ℕ, List, [], ◌++◌, Err, IfOk, IfErr, OnOk};
ghost use Rattle.std.specs.Io.KnownBytes.{Appends, Consumes, IsAtEnd};
ghost use Rattle.craq_frames.specs.Frame.{frame, BeginsTooLong, IsPartial};
ghost use Rattle.craq_front.specs.Exchange.{IsFrameOf, Exchanged};

use crate::buffers::{fill, flush};
use crate::{Sink, Source};
use bytes::BytesMut;
use craq_frames::{Buffers, ClientMessage, ClientReply, cut_off_frame, write_frame};
use craq_names::Refusal;
use std::alloc::Global;

/// Writes the frame of a request into an empty buffer. Fails only when out of memory.
#[tactic(auto, using(crate::proofs::Asks::ask_few))]
fn frame_message(
    alloc: Global,
    output: &mut BytesMut,
    message: &ClientMessage,
) -> Result<(), Refusal>
    requires { output.old.items ≡ [] }
    ensures ok { OnOk result (IsFrameOf message.now output.new.items) }
    ensures err { IfErr result (λ e. e ≡ Refusal.Memory) }
{
    let Ok(payload) = message.encode(alloc) else {
        return Err(Refusal::Memory);
    };
    write_frame(output, payload)
}

/// Reads until a whole frame has come and returns its payload. Nothing was read before, and nothing
/// is unsent.
///
/// - `FrameTooLong` where a length above 1,048,576 came.
/// - `Closed` where the input ended before a whole frame.
/// - `Io` where a read failed.
/// - `Memory` where a growth was refused.
fn receive<S: Source>(buffers: &mut Buffers, stream: &mut S) -> Result<BytesMut, Refusal>
    requires input { buffers.old.input.items ≡ [] }
    requires unsent { buffers.old.output.items ≡ [] }
    requires count { S.count stream.old < 2 ^ 64 - 1 }
    ensures ok { IfOk result (λ payload. (rest : List ℕ) × (S.count stream.new ≡ S.count stream.old)
        × Consumes (S.remaining stream.old) (S.remaining stream.new) (frame payload.items ++ rest)) }
    ensures long { result ≡ Err Refusal.FrameTooLong → (read : List ℕ) × (S.count stream.new ≡ S.count stream.old)
        × Consumes (S.remaining stream.old) (S.remaining stream.new) read × BeginsTooLong read }
    ensures closed { result ≡ Err Refusal.Closed → (read : List ℕ) × (S.count stream.new ≡ S.count stream.old)
        × Consumes (S.remaining stream.old) (S.remaining stream.new) read × IsPartial read × IsAtEnd (S.remaining stream.new) }
    ensures io { result ≡ Err Refusal.Io → (read : List ℕ) × (S.count stream.new ≡ S.count stream.old + 1)
        × Consumes (S.remaining stream.old) (S.remaining stream.new) read × IsPartial read }
    ensures memory { result ≡ Err Refusal.Memory → (read : List ℕ) × (S.count stream.new ≡ S.count stream.old)
        × Consumes (S.remaining stream.old) (S.remaining stream.new) read }
    ensures err { IfErr result (λ e. (e ≡ Refusal.FrameTooLong) ⊎ (e ≡ Refusal.Closed) ⊎ (e ≡ Refusal.Io) ⊎ (e ≡ Refusal.Memory)) }
{
    loop {
        match cut_off_frame(&mut buffers.input) {
            Ok(Some(payload)) => return Ok(payload),
            Ok(None) => match fill(buffers, stream) {
                Ok(0) => return Err(Refusal::Closed),
                Ok(_) => continue,
                Err(refusal) => return Err(refusal),
            },
            Err(refusal) => return Err(refusal),
        }
    }
}

/// Sends a request as a frame of version 1, and waits for the frame of its reply.
///
/// - `BadFrame` where the frame that came is not a reply of version 1.
/// - `FrameTooLong` where a length above 1,048,576 came.
/// - `Closed` where the input ended before a whole frame.
/// - `Io` where a read or a write failed and the stream counted it. No failed call is tried again.
/// - `Memory` where a growth was refused.
///
/// After each of these the connection is over, and an update may or may not have taken effect. The
/// count of failed calls has to be below 2^64 - 1 (this project's profile).
pub fn exchange<S: Source + Sink>(
    alloc: Global,
    stream: &mut S,
    message: &ClientMessage,
) -> Result<ClientReply, Refusal>
    requires { S.count stream.old < 2 ^ 64 - 1 }
    // The bytes sent and then received, `mid` being the stream in between, as `Exchanged` says for
    // each result.
    ensures exchanged { (sent : List ℕ) × (mid : S) × (received : List ℕ) × (faults : ℕ)
        × Appends (S.contents stream.old) (S.contents mid) sent
        × Consumes (S.remaining mid) (S.remaining stream.new) received
        × (S.count stream.new ≡ S.count stream.old + faults)
        × Exchanged message.now sent received faults result }
    ensures closed { result ≡ Err Refusal.Closed → IsAtEnd (S.remaining stream.new) }
{
    let mut buffers = Buffers::new(alloc);
    frame_message(alloc, &mut buffers.output, message)?;
    flush(&mut buffers, stream)?;
    let payload = receive(&mut buffers, stream)?;
    ClientReply::decode(alloc, payload.as_slice())
}
