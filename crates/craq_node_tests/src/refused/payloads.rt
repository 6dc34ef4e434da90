//! Makes the payloads of a script's requests and of their replies; called by `messages`.
use super::connections::messages_of;
use super::rows::Row;
use craq_cell_chain::CellChain;
use craq_frames::ClientReply;
use craq_model::Answer;
use craq_names::{Copied, Pass, Refusal};
use craq_node::Core;
use craq_seat::CallReceipt;
use std::alloc::{AllocError, Global};
use std::sync::Wait;

/// Replies that no script has, in version 1: the refusal that names node 1 as the head, and a
/// status of the text `a`.
const OTHERS: [&[u8]; 2] = [&[1, 3, 9, 0, 0, 0, 0, 0, 0, 0, 1], &[1, 4, 0, 0, 0, 1, 97]];

/// Copies bytes.
fn copied(alloc: Global, bytes: &[u8]) -> Result<Vec<u8>, AllocError> {
    let mut copy = Vec::new(alloc);
    copy.extend_from_slice(bytes)?;
    Ok(copy)
}

/// Appends a payload. Leaves it out if memory runs out.
fn add(alloc: Global, payloads: &mut Vec<Vec<u8>>, payload: &[u8]) {
    if let Ok(copy) = copied(alloc, payload) {
        let _ = payloads.push(copy);
    }
}

/// Returns the payloads of the script's requests, in version 1. Leaves out one for which memory
/// runs out.
pub fn requests_of(alloc: Global, row: &Row) -> Vec<Vec<u8>> {
    let mut payloads = Vec::new(alloc);
    for message in &messages_of(alloc, row) {
        if let Ok(bytes) = message.encode(alloc) {
            add(alloc, &mut payloads, bytes.as_slice());
        }
    }
    payloads
}

/// Returns the reply to a call, with the pass of the step that answered it.
fn reply_to(alloc: Global, call: &CallReceipt) -> Result<ClientReply, AllocError> {
    let pass = Pass::of(call.answered().stamp);
    Ok(match call.answer() {
        Answer::Update(reply) => ClientReply::Update {
            pass,
            reply: reply.copied(alloc)?,
        },
        Answer::Read { version, value } => ClientReply::Read {
            pass,
            version: *version,
            value: value.copied(alloc)?,
        },
    })
}

/// Returns the payloads of the replies to the script's requests, and two others, in version 1.
/// Leaves out one for which memory runs out.
pub fn replies_of<C: Core, R: Wait>(
    rt: &R,
    alloc: Global,
    row: &Row,
) -> Result<Vec<Vec<u8>>, Refusal> {
    let (cells, calls): (CellChain<C>, Vec<CallReceipt>) = row.cells(rt, alloc)?;
    drop(cells);
    let mut payloads = Vec::new(alloc);
    for call in &calls {
        if let Ok(reply) = reply_to(alloc, call) {
            if reply.spelled() {
                if let Ok(bytes) = reply.encode(alloc) {
                    add(alloc, &mut payloads, bytes.as_slice());
                }
            }
        }
    }
    for other in OTHERS {
        add(alloc, &mut payloads, other);
    }
    Ok(payloads)
}

/// Returns the payload of version 2 with the content of this one of version 1. The version is the
/// first byte.
pub fn of_version_2(alloc: Global, payload: &[u8]) -> Result<Vec<u8>, AllocError> {
    let mut bytes = Vec::new(alloc);
    bytes.push(2)?;
    bytes.extend_from_slice(payload.get(1..).unwrap_or(&[]))?;
    Ok(bytes)
}

/// Returns the payload of version 2 and this kind that holds all of these of version 1, of which
/// there are 1 to 8: their number, then the kind and body of each.
pub fn joined(alloc: Global, kind: u8, payloads: &[Vec<u8>]) -> Result<Vec<u8>, AllocError> {
    let mut bytes = Vec::new(alloc);
    bytes.push(2)?;
    bytes.push(kind)?;
    bytes.push(payloads.len().min(8) as u8)?;
    for payload in payloads {
        bytes.extend_from_slice(payload.as_slice().get(1..).unwrap_or(&[]))?;
    }
    Ok(bytes)
}
