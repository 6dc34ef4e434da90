//! Tests the payloads of requests and replies, as worked bytes and with each byte changed; run by
//! `main`.
use crate::say;
use crate::worked::MANY;
use craq_frames::{Answered, ClientMessage, ClientReply, Payload};
use craq_names::Refusal;
use std::alloc::Global;
use std::io;

/// A put of `a` on `k` of chain 0 at node 1, with pass 0, of client 1 and number 1.
pub(crate) const PUT: [u8; 38] = [
    1, 1, 0, 0, 0, 1, 0, 0, 0, 0, 0, 0, 0, 0, 0, 0, 0, 0, 0, 0, 0, 1, 0, 0, 0, 0, 0, 0, 0, 1, 1, 0,
    0, 1, 107, 0, 1, 97,
];

/// Its reply, version 1, with pass 9.
pub(crate) const WRITTEN: [u8; 19] = [1, 1, 0, 0, 0, 0, 0, 0, 0, 9, 1, 0, 0, 0, 0, 0, 0, 0, 1];

/// A strong read of `k` of chain 0 at node 3, with pass 9.
pub(crate) const READ: [u8; 19] = [1, 2, 0, 0, 0, 3, 0, 0, 0, 0, 0, 0, 0, 9, 1, 0, 0, 1, 107];

/// Its reply, version 1 and `a`, with pass 9.
pub(crate) const VALUE: [u8; 21] = [
    1, 2, 0, 0, 0, 0, 0, 0, 0, 9, 0, 0, 0, 0, 0, 0, 0, 1, 0, 1, 97,
];

/// The refusal of an update at a node that is not the head, which is node 1.
pub(crate) const NOT_HEAD: [u8; 11] = [1, 3, 9, 0, 0, 0, 0, 0, 0, 0, 1];

/// The reply to the read in version 2.
const SECOND_VALUE: [u8; 21] = [
    2, 2, 0, 0, 0, 0, 0, 0, 0, 9, 0, 0, 0, 0, 0, 0, 0, 1, 0, 1, 97,
];

/// The two replies to a put and a read in one payload of version 2: version 1, then version 1 and
/// `a`, both with pass 9.
const MANY_REPLIES: [u8; 41] = [
    2, 5, 2, 1, 0, 0, 0, 0, 0, 0, 0, 9, 1, 0, 0, 0, 0, 0, 0, 0, 1, 2, 0, 0, 0, 0, 0, 0, 0, 9, 0, 0,
    0, 0, 0, 0, 0, 1, 0, 1, 97,
];

/// Payloads of replies that do not decode: one reply as several in version 1, no reply, and nine
/// replies. Each reply is an empty status.
const BAD_REPLIES: [&[u8]; 3] = [
    &[1, 5, 1, 4, 0, 0, 0, 0],
    &[2, 5, 0],
    &[
        2, 5, 9, 4, 0, 0, 0, 0, 4, 0, 0, 0, 0, 4, 0, 0, 0, 0, 4, 0, 0, 0, 0, 4, 0, 0, 0, 0, 4, 0,
        0, 0, 0, 4, 0, 0, 0, 0, 4, 0, 0, 0, 0, 4, 0, 0, 0, 0,
    ],
];

/// Returns true if the request that the payload encodes is encoded again as this payload.
fn is_written_again(alloc: Global, bytes: &[u8]) -> Result<bool, Refusal> {
    let message = ClientMessage::decode(alloc, bytes)?;
    Ok(message.encode(alloc)?.as_slice() == bytes)
}

/// Returns true if the reply that the payload encodes is encoded again as this payload.
fn is_reply_written_again(alloc: Global, bytes: &[u8]) -> Result<bool, Refusal> {
    let reply = ClientReply::decode(alloc, bytes)?;
    if !reply.spelled() {
        return Err(Refusal::Io);
    }
    Ok(reply.encode(alloc)?.as_slice() == bytes)
}

/// Returns true if the payload of requests, of either version, is encoded again as it was.
fn is_payload_written_again(alloc: Global, bytes: &[u8]) -> Result<bool, Refusal> {
    let payload = Payload::decode(alloc, bytes)?;
    Ok(payload.encode(alloc)?.as_slice() == bytes)
}

/// Returns true if the payload of replies, of either version, is encoded again as it was.
fn is_answered_written_again(alloc: Global, bytes: &[u8]) -> Result<bool, Refusal> {
    let answered = Answered::decode(alloc, bytes)?;
    Ok(answered.encode(alloc)?.as_slice() == bytes)
}

/// Returns true if the bytes are refused as `BadFrame`, or decode and are encoded again as they
/// were.
fn is_sound(alloc: Global, bytes: &[u8]) -> bool {
    match is_written_again(alloc, bytes) {
        Ok(is_same) => is_same,
        Err(refusal) => refusal == Refusal::BadFrame,
    }
}

/// Returns true if each put with one byte changed is refused as `BadFrame`, or decodes and is
/// encoded again as it was.
fn are_changes_sound(alloc: Global) -> bool {
    for place in 0..PUT.len() {
        for byte in 0..=255u8 {
            let mut bytes = PUT;
            bytes[place] = byte;
            if !is_sound(alloc, &bytes) {
                return false;
            }
        }
    }
    true
}

/// Prints payloads of either version, alone and of several requests or replies: their decoded
/// forms, and whether they are encoded again as they were. Prints the refusals of payloads that do
/// not decode.
fn run_both_versions<R: AllocGlobal + Print>(rt: &R) -> io::Result<()> {
    let alloc = rt.alloc();
    for payload in [READ.as_slice(), &MANY[4..]] {
        say(rt, "payload", Payload::decode(alloc, payload))?;
        say(
            rt,
            "written again",
            is_payload_written_again(alloc, payload),
        )?;
    }
    for payload in [
        VALUE.as_slice(),
        SECOND_VALUE.as_slice(),
        MANY_REPLIES.as_slice(),
    ] {
        say(rt, "replies", Answered::decode(alloc, payload))?;
        say(
            rt,
            "written again",
            is_answered_written_again(alloc, payload),
        )?;
    }
    for payload in BAD_REPLIES {
        say(rt, "no replies", Answered::decode(alloc, payload))?;
    }
    Ok(())
}

/// Prints the payloads of clients and servers: their decoded forms, and whether they are encoded
/// again as they were.
pub(crate) fn run<R: AllocGlobal + Print>(rt: &R) -> io::Result<()> {
    for payload in [PUT.as_slice(), READ.as_slice()] {
        say(rt, "message", ClientMessage::decode(rt.alloc(), payload))?;
        say(rt, "written again", is_written_again(rt.alloc(), payload))?;
    }
    for payload in [WRITTEN.as_slice(), VALUE.as_slice(), NOT_HEAD.as_slice()] {
        say(rt, "reply", ClientReply::decode(rt.alloc(), payload))?;
        say(
            rt,
            "written again",
            is_reply_written_again(rt.alloc(), payload),
        )?;
    }
    say(rt, "changed puts are sound", are_changes_sound(rt.alloc()))?;
    run_both_versions(rt)
}
