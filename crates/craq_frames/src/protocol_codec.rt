//! `ProtocolCodec`: the protocol codec of one connection, without a stream and without a request
//! handler. Bytes go in and requests come out; replies go in and bytes come out. Each connection of
//! `craq_event_loop` drives one; so does `serve` of `craq_front`.
ghost use Rattle.std.specs.Prelude.{◌≡◌, ◌≤◌, ◌↔◌, ℕ, List, None, Some, Ok, [], ◌++◌, drop, length, IsTrue, IfOk, IfSome, OnErr};
ghost use Rattle.craq_frames.specs.Frame.{frame, payload_limit};
ghost use Rattle.craq_frames.specs.Versions.{IsPayload, EncodesPayload};
ghost use Rattle.craq_frames.specs.declared.protocol_codec.CodecEvent.TheVariants.{Ask};
ghost use Rattle.craq_frames.specs.Allowed.{IsAllowed};
ghost use Rattle.craq_frames.specs.Steps.{Advances, Follows, IsFirst, IsTakenAhead, Receives, TakesAhead, ahead};

use crate::buffers::{Buffers, MOST_UNSENT};
use crate::replying::{make_unsent, refuse};
use crate::several::{Replied, Several};
use crate::{Answered, ClientMessage, ClientReply, Payload, PayloadVersion, payload_in_front};
use bytes::BytesMut;
use craq_names::Refusal;
use std::alloc::{AllocError, Global};

/// The least bytes of a read that are decoded in place rather than copied first. Copying fewer
/// costs less than decoding them between the reads of other connections.
const MANY_BYTES: usize = 1_024;

/// The payload whose requests are under way.
#[derive(Drop)]
pub(crate) enum Asking {
    /// A payload of one request, of this version.
    One(PayloadVersion),
    /// A payload of several requests.
    Many(Several),
}

/// The next event of a connection.
#[derive(Debug, Drop)]
pub enum CodecEvent {
    /// This request is to be asked, and its reply to be given back.
    Ask(ClientMessage),
    /// A payload that encodes nothing was answered `BadFrame`.
    Refused,
    /// Less than a whole frame has come.
    Nothing,
}

/// The protocol codec of one connection: the bytes that came and are not yet cut into frames, the
/// payload that is being answered, and the unsent bytes. Requests of one payload may be under way
/// together (`take_ahead`).
#[derive(Drop)]
pub struct ProtocolCodec {
    /// The bytes that came and are not yet cut off, and the unsent ones.
    pub buffers: Buffers,
    pub(crate) asking: Option<Asking>,
}

/// Returns the first request of a payload, and the payload while that request is under way.
fn first_of(alloc: Global, payload: Payload) -> (ClientMessage, Asking)
    requires { IsPayload payload }
    ensures { (bytes : List ℕ) → EncodesPayload payload bytes → IsFirst (Some result.1) result.0 bytes }
{
    match payload {
        Payload::One(version, message) => (message, Asking::One(version)),
        Payload::Many(messages) => {
            let (message, several) = Several::begin(alloc, messages);
            (message, Asking::Many(several))
        }
    }
}

/// Decodes a payload. Returns its first request, or appends the refusal `BadFrame` to `output`.
///
/// `Memory` where a growth was refused; `output` is unchanged then.
fn open(
    alloc: Global,
    output: &mut BytesMut,
    asking: &mut Option<Asking>,
    payload: &[u8],
) -> Result<CodecEvent, Refusal>
    requires few { length payload.now ≤ payload_limit }
    requires idle { asking.old ≡ None }
    ensures { (unsent : List ℕ) × (output.new.items ≡ output.old.items ++ unsent)
        × ((rest : List ℕ) → Advances (frame payload.now ++ rest) rest unsent asking.new result) }
{
    match Payload::decode(alloc, payload) {
        Ok(decoded) => {
            let (message, first) = first_of(alloc, decoded);
            *asking = Some(first);
            Ok(CodecEvent::Ask(message))
        }
        Err(Refusal::BadFrame) => {
            refuse(output, Refusal::BadFrame)?;
            Ok(CodecEvent::Refused)
        }
        Err(_) => Err(Refusal::Memory),
    }
}

impl ProtocolCodec {
    /// Makes the codec of a new connection. Takes no memory.
    pub fn new(alloc: Global) -> Self
        ensures input { result.buffers.input.items ≡ [] }
        ensures output { result.buffers.output.items ≡ [] }
        ensures asking { result.asking ≡ None }
    {
        ProtocolCodec {
            buffers: Buffers::new(alloc),
            asking: None,
        }
    }

    /// Takes bytes that came behind those before, while no request is under way. May return the
    /// first request of the payload in front of them at once; else all of them wait for `next`.
    /// Fails only when out of memory; unchanged then.
    pub fn receive(
        &mut self,
        alloc: Global,
        bytes: &[u8],
    ) -> Result<Option<ClientMessage>, AllocError>
        requires { self.old.asking ≡ None }
        ensures ok { IfOk result (Receives (self.old.buffers.input.items ++ bytes.now) self.new.buffers.input.items self.new.asking) }
        ensures same { OnErr result ((self.new.buffers.input.items ≡ self.old.buffers.input.items) × (self.new.asking ≡ None)) }
        ensures output { self.new.buffers.output.items ≡ self.old.buffers.output.items }
    {
        if let Some(message) = self.receive_in_place(alloc, bytes)? {
            return Ok(Some(message));
        }
        self.buffers.input.extend_from_slice(bytes)?;
        Ok(None)
    }

    /// Decodes a payload in front of these bytes in place, where they are many and none wait before
    /// them; only what is behind it waits then. Unchanged, with the result `None`, where they are
    /// few, have no whole payload, or do not decode. Fails only when out of memory.
    fn receive_in_place(
        &mut self,
        alloc: Global,
        bytes: &[u8],
    ) -> Result<Option<ClientMessage>, AllocError>
        requires { self.old.asking ≡ None }
        ensures asks { IfOk result (λ found. IfSome found (λ m. Advances (self.old.buffers.input.items ++ bytes.now) self.new.buffers.input.items [] self.new.asking (Ok (Ask m)))) }
        ensures none { result ≡ Ok None → self.new ≡ self.old }
        ensures same { OnErr result ((self.new.buffers.input.items ≡ self.old.buffers.input.items) × (self.new.asking ≡ None)) }
        ensures output { self.new.buffers.output.items ≡ self.old.buffers.output.items }
    {
        if !self.buffers.input.is_empty() || bytes.len() < MANY_BYTES {
            return Ok(None);
        }
        let Ok(Some(payload)) = payload_in_front(bytes) else {
            return Ok(None);
        };
        let Ok(decoded) = Payload::decode(alloc, payload) else {
            return Ok(None);
        };
        self.buffers
            .input
            .extend_from_slice(&bytes[payload.len() + 4..])?;
        let (message, first) = first_of(alloc, decoded);
        self.asking = Some(first);
        Ok(Some(message))
    }

    /// Returns whether unsent bytes have to be written before another request is asked: where there
    /// are 65,536 or more.
    pub fn is_full(&self) -> bool
        ensures { IsTrue result ↔ (MOST_UNSENT ≤ length self.now.buffers.output.items) }
    {
        self.buffers.is_full()
    }

    /// Lends the unsent bytes.
    pub fn unsent(&self) -> &[u8]
        ensures { result.now ≡ self.now.buffers.output.items }
    {
        self.buffers.output.as_slice()
    }

    /// Drops the first `count` unsent bytes, which were written.
    pub fn wrote(&mut self, count: usize)
        requires { count ≤ length self.old.buffers.output.items }
        ensures output { self.new.buffers.output.items ≡ drop count self.old.buffers.output.items }
        ensures input { self.new.buffers.input.items ≡ self.old.buffers.input.items }
        ensures asking { self.new.asking ≡ self.old.asking }
    {
        self.buffers.output.advance(count);
    }

    /// Cuts off the frame in front, while no request is under way. Returns its first request, or
    /// appends its refusal to the unsent bytes.
    ///
    /// - `FrameTooLong` where a length above 1,048,576 stands in front: the refusal's frame is
    ///   unsent, and the connection is over once it is written.
    /// - `Memory` where a growth was refused: nothing was appended, and the connection is over.
    pub fn next(&mut self, alloc: Global) -> Result<CodecEvent, Refusal>
        requires { self.old.asking ≡ None }
        ensures { (unsent : List ℕ) × (self.new.buffers.output.items ≡ self.old.buffers.output.items ++ unsent)
            × Advances self.old.buffers.input.items self.new.buffers.input.items unsent self.new.asking result }
    {
        let Buffers { input, output } = &mut self.buffers;
        match payload_in_front(input.as_slice()) {
            Ok(Some(payload)) => {
                let size = payload.len() + 4;
                let step = open(alloc, output, &mut self.asking, payload);
                input.advance(size);
                step
            }
            Ok(None) => Ok(CodecEvent::Nothing),
            Err(_) => {
                refuse(output, Refusal::FrameTooLong)?;
                Err(Refusal::FrameTooLong)
            }
        }
    }

    /// Takes the next request of the payload, to ask it ahead: before the reply to the request that
    /// is under way. `reply` still takes the replies in the order of the requests. `None`, and
    /// unchanged, where no request waits or when out of memory.
    pub fn take_ahead(&mut self) -> Option<ClientMessage>
        ensures takes { TakesAhead self.old.asking self.new.asking result }
        ensures buffers { self.new.buffers ≡ self.old.buffers }
    {
        match &mut self.asking {
            Some(Asking::Many(several)) => several.take_ahead(),
            _ => None,
        }
    }

    /// Puts back the request that `take_ahead` gave last: it is the next that is not asked.
    pub fn put_back(&mut self, message: ClientMessage)
        requires { 1 ≤ ahead self.old.asking }
        ensures back { IsTakenAhead self.new.asking self.old.asking message }
        ensures buffers { self.new.buffers ≡ self.old.buffers }
    {
        if let Some(Asking::Many(several)) = &mut self.asking {
            several.put_back(message);
        }
    }

    /// Takes the reply to the first request that is under way, which a request handler may give.
    /// Returns the next request of the same payload, unless it was asked ahead; after the last,
    /// appends the frame of all its replies to the unsent bytes. Unchanged where no request is under
    /// way.
    ///
    /// `Memory` where a growth was refused: nothing was appended, and the connection is over. No
    /// request was asked ahead then.
    pub fn reply(&mut self, reply: ClientReply) -> Result<Option<ClientMessage>, Refusal>
        requires { IsAllowed reply }
        ensures follows { (unsent : List ℕ) × (self.new.buffers.output.items ≡ self.old.buffers.output.items ++ unsent)
            × Follows self.old.asking reply unsent self.new.asking result }
        ensures input { self.new.buffers.input.items ≡ self.old.buffers.input.items }
    {
        match self.asking.take() {
            None => Ok(None),
            Some(Asking::One(version)) => {
                make_unsent(&mut self.buffers.output, Answered::One(version, reply))?;
                Ok(None)
            }
            Some(Asking::Many(several)) => self.reply_of_several(several, reply),
        }
    }

    /// Takes the reply to a request of a payload of several, as `reply` does.
    fn reply_of_several(
        &mut self,
        several: Several,
        reply: ClientReply,
    ) -> Result<Option<ClientMessage>, Refusal>
        requires allowed { IsAllowed reply }
        requires idle { self.old.asking ≡ None }
        ensures follows { (unsent : List ℕ) × (self.new.buffers.output.items ≡ self.old.buffers.output.items ++ unsent)
            × Follows (Some (Asking.Many several)) reply unsent self.new.asking result }
        ensures input { self.new.buffers.input.items ≡ self.old.buffers.input.items }
    {
        match several.add(reply) {
            Ok(Replied::Asks(message, several)) => {
                self.asking = Some(Asking::Many(several));
                Ok(Some(message))
            }
            Ok(Replied::Asked(several)) => {
                self.asking = Some(Asking::Many(several));
                Ok(None)
            }
            Ok(Replied::All(replies)) => {
                make_unsent(&mut self.buffers.output, Answered::Many(replies))?;
                Ok(None)
            }
            Err(_) => Err(Refusal::Memory),
        }
    }
}
