//! Decodes the messages between nodes, the payloads of requests and replies, and a configuration;
//! called by `ways`.
use super::payloads::{joined, of_version_2, replies_of, requests_of};
use super::rows::{Row, chain};
use super::stores::plan;
use super::teller::{Call, TRIES, Teller};
use craq_frames::{Answered, ClientMessage, ClientReply, MOST_MESSAGES, Payload};
use craq_model::{Out, Step};
use craq_names::Refusal;
use craq_node::Core;
use craq_wire::{decode, encode, spelled};
use craq_world::World;
use std::fmt::Debug;
use std::sync::Wait;

/// The kind of a payload of several requests.
const MANY_REQUESTS: u8 = 4;

/// The kind of a payload of several replies.
const MANY_REPLIES: u8 = 5;

/// Marks the end of a decoder's call and prints the result. Returns true unless the call ran out of
/// memory.
fn tell<T: Debug + Drop>(teller: Teller, call: Call, found: Result<T, Refusal>) -> bool {
    let is_done = teller.end(call, matches!(&found, Err(Refusal::Memory)));
    if is_done {
        let _ = println!(teller.host; "{found:?}");
    }
    drop(found);
    is_done
}

/// Calls a decoder: `decode` of messages between nodes, unless the call is another decoder. Returns
/// true unless the call ran out of memory.
fn read_once(teller: Teller, call: Call, bytes: &[u8]) -> bool {
    let alloc = teller.alloc;
    teller.begin(call);
    match call {
        Call::DecodeMessage => tell(teller, call, ClientMessage::decode(alloc, bytes)),
        Call::DecodeReply => tell(teller, call, ClientReply::decode(alloc, bytes)),
        Call::DecodePayload => tell(teller, call, Payload::decode(alloc, bytes)),
        Call::DecodeAnswered => tell(teller, call, Answered::decode(alloc, bytes)),
        _ => tell(teller, call, decode(alloc, bytes)),
    }
}

/// Calls a decoder, and once more if it runs out of memory.
fn read(teller: Teller, call: Call, bytes: &[u8]) {
    for _ in 0..TRIES {
        if read_once(teller, call, bytes) {
            break;
        }
    }
}

/// Decodes each message that a step sends.
fn read_sends(teller: Teller, step: &Step) {
    for out in step.outs.as_slice() {
        if let Out::Send { message, .. } = out {
            if spelled(message) {
                if let Ok(bytes) = encode(teller.alloc, message) {
                    read(teller, Call::Decode, bytes.as_slice());
                }
            }
        }
    }
}

/// Decodes all messages that nodes and the master send.
pub fn play<C: Core>(teller: Teller, row: &Row) -> Result<(), Refusal> {
    let mut world: World<C> = row.world(teller.alloc)?;
    let moves = row.listed(teller.alloc);
    let report = world.run(teller.alloc, moves.as_slice());
    drop(report);
    if let Ok(run) = world.run_of(chain()) {
        for taken in run.moves.as_slice() {
            read_sends(teller, &taken.step);
        }
    }
    Ok(())
}

/// Decodes each of these payloads of version 1 with the decoder of version 1 and with that of both
/// versions, and its content in version 2.
fn read_each(teller: Teller, first: Call, both: Call, payloads: &[Vec<u8>]) {
    for payload in payloads {
        read(teller, first, payload.as_slice());
        read(teller, both, payload.as_slice());
        if let Ok(second) = of_version_2(teller.alloc, payload.as_slice()) {
            read(teller, both, second.as_slice());
        }
    }
}

/// Decodes payloads of version 2 that hold up to 8 of these each.
fn read_joined(teller: Teller, both: Call, kind: u8, payloads: &[Vec<u8>]) {
    let mut rest = payloads;
    for _ in 0..payloads.len() {
        if rest.is_empty() {
            return;
        }
        let (few, others) = rest.split_at(MOST_MESSAGES.min(rest.len()));
        if let Ok(many) = joined(teller.alloc, kind, few) {
            read(teller, both, many.as_slice());
        }
        rest = others;
    }
}

/// Decodes all requests of clients and their replies, one by one and several in a payload.
pub fn play_payloads<C: Core, R: Wait>(rt: &R, teller: Teller, row: &Row) -> Result<(), Refusal> {
    let requests = requests_of(teller.alloc, row);
    read_each(
        teller,
        Call::DecodeMessage,
        Call::DecodePayload,
        requests.as_slice(),
    );
    read_joined(
        teller,
        Call::DecodePayload,
        MANY_REQUESTS,
        requests.as_slice(),
    );
    drop(requests);
    let replies = replies_of::<C, R>(rt, teller.alloc, row)?;
    read_each(
        teller,
        Call::DecodeReply,
        Call::DecodeAnswered,
        replies.as_slice(),
    );
    read_joined(
        teller,
        Call::DecodeAnswered,
        MANY_REPLIES,
        replies.as_slice(),
    );
    Ok(())
}

/// Reads the configuration of a chain with the row's members, and prints the chain's name and
/// nodes.
pub fn play_plan(teller: Teller, row: &Row) {
    for _ in 0..TRIES {
        teller.begin(Call::ReadPlan);
        let found = plan(teller.alloc, row);
        let is_done = teller.end(Call::ReadPlan, matches!(&found, Err(Refusal::Memory)));
        if is_done {
            let _ = match &found {
                Ok(plan) => println!(teller.host; "{:?}", plan.chain(chain())),
                Err(refusal) => println!(teller.host; "{refusal}"),
            };
        }
        drop(found);
        if is_done {
            break;
        }
    }
}
