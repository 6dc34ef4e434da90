//! Tests messages between nodes, kind by kind, and their cut and changed bytes; run by `main`.
use crate::say;
use craq_names::Refusal;
use craq_wire::{decode, encode, spelled};
use std::alloc::{AllocError, Global};
use std::io;

/// An acknowledgement of position 1, from node 3 to node 2, with stamp 5, in epoch 1.
const ACK: [u8; 40] = [
    2, 3, 0, 0, 0, 0, 0, 3, 0, 0, 0, 2, 0, 0, 0, 0, 0, 0, 0, 5, 0, 0, 0, 0, 0, 0, 0, 0, 0, 0, 0, 1,
    0, 0, 0, 0, 0, 0, 0, 1,
];

/// The entry of a put of `a` on `k`, from node 1 to node 2.
pub(crate) const ENTRY: [u8; 91] = [
    2, 2, 0, 0, 0, 0, 0, 1, 0, 0, 0, 2, 0, 0, 0, 0, 0, 0, 0, 1, 0, 0, 0, 0, 0, 0, 0, 0, 0, 0, 0, 1,
    0, 0, 0, 0, 0, 0, 0, 1, 0, 0, 0, 1, 0, 0, 0, 0, 0, 0, 0, 1, 0, 0, 0, 0, 0, 0, 0, 1, 0, 0, 0, 0,
    0, 0, 0, 1, 1, 0, 0, 0, 0, 0, 0, 0, 1, 1, 1, 107, 0, 0, 0, 0, 0, 0, 0, 1, 0, 1, 97,
];

/// A copy of the objects `a` and `b` and of one reply kept for client 7, at position 2.
const COPY: [u8; 100] = [
    2, 7, 0, 0, 0, 0, 0, 1, 0, 0, 0, 2, 0, 0, 0, 0, 0, 0, 0, 5, 0, 0, 0, 0, 0, 0, 0, 0, 0, 0, 0, 1,
    0, 0, 0, 0, 0, 0, 0, 2, 0, 0, 0, 2, 1, 97, 0, 0, 0, 0, 0, 0, 0, 1, 0, 1, 120, 1, 98, 0, 0, 0,
    0, 0, 0, 0, 1, 0, 1, 121, 0, 0, 0, 1, 0, 0, 0, 0, 0, 0, 0, 7, 1, 0, 0, 0, 0, 0, 0, 0, 2, 1, 0,
    0, 0, 0, 0, 0, 0, 1,
];

/// The start of a copy that claims 2^32 - 1 objects, and ends there.
const MANY_OBJECTS: [u8; 44] = [
    2, 7, 0, 0, 0, 0, 0, 1, 0, 0, 0, 2, 0, 0, 0, 0, 0, 0, 0, 5, 0, 0, 0, 0, 0, 0, 0, 0, 0, 0, 0, 1,
    0, 0, 0, 0, 0, 0, 0, 2, 255, 255, 255, 255,
];

/// The start of a copy of no object that claims 2^32 - 1 clients, and ends there.
const MANY_REPLIES: [u8; 48] = [
    2, 7, 0, 0, 0, 0, 0, 1, 0, 0, 0, 2, 0, 0, 0, 0, 0, 0, 0, 5, 0, 0, 0, 0, 0, 0, 0, 0, 0, 0, 0, 1,
    0, 0, 0, 0, 0, 0, 0, 2, 0, 0, 0, 0, 255, 255, 255, 255,
];

/// Returns true if the message that the bytes encode is encoded again as these bytes.
pub(crate) fn is_written_again(alloc: Global, bytes: &[u8]) -> Result<bool, Refusal> {
    let message = decode(alloc, bytes)?;
    if !spelled(&message) {
        return Err(Refusal::Io);
    }
    Ok(encode(alloc, &message)?.as_slice() == bytes)
}

/// Returns the refusal of bytes that are no message.
fn refusal_of(alloc: Global, bytes: &[u8]) -> Option<Refusal> {
    decode(alloc, bytes).err()
}

/// Prints the refusals of counts that exceed the bytes. They take no memory: a decoder that
/// reserved room for the claimed count would return `Memory` when the first allocation fails.
pub(crate) fn print_counts<R: AllocGlobal + Print>(rt: &R) -> io::Result<()> {
    say(rt, "many objects", refusal_of(rt.alloc(), &MANY_OBJECTS))?;
    say(rt, "many replies", refusal_of(rt.alloc(), &MANY_REPLIES))
}

/// Returns true if each message that is cut short is refused as `BadFrame`.
fn are_cuts_refused(alloc: Global) -> bool {
    for len in 0..ENTRY.len() {
        if refusal_of(alloc, &ENTRY[..len]) != Some(Refusal::BadFrame) {
            return false;
        }
    }
    true
}

/// Returns the refusal of the bytes followed by one more.
fn refusal_of_longer(alloc: Global, bytes: &[u8]) -> Result<Option<Refusal>, AllocError> {
    let mut longer = bytes.to_vec(alloc)?;
    longer.push(0)?;
    Ok(refusal_of(alloc, longer.as_slice()))
}

/// Returns the refusal of the bytes with one of them changed.
fn refusal_of_changed(
    alloc: Global,
    bytes: &[u8],
    place: usize,
    byte: u8,
) -> Result<Option<Refusal>, AllocError> {
    let mut changed = bytes.to_vec(alloc)?;
    if let Some(old) = changed.get_mut(place) {
        *old = byte;
    }
    Ok(refusal_of(alloc, changed.as_slice()))
}

pub(crate) fn print_changed<R>(
    rt: &R,
    name: &str,
    bytes: &[u8],
    changes: &[(usize, u8)],
) -> io::Result<()>
where
    R: AllocGlobal + Print,
{
    for (place, byte) in changes {
        let refusal = refusal_of_changed(rt.alloc(), bytes, *place, *byte);
        println!(rt; "{name} with {byte} at {place}: {refusal:?}")?;
    }
    Ok(())
}

/// Sets the version to 1, the kind to 11, the sender, receiver, stamp or epoch to 0.
static HEADER_CHANGES: [(usize, u8); 6] = [(0, 1), (1, 11), (7, 0), (11, 0), (19, 0), (31, 0)];

/// Sets the position, origin, ticket or number to 0, the reply to a stale one, the version to 0.
static ENTRY_CHANGES: [(usize, u8); 6] = [(39, 0), (43, 0), (51, 0), (67, 0), (68, 9), (87, 0)];

/// Makes the second key equal to the first, then lower. Gives the client no reply, then one more
/// than there are. Sets the number to 0, the reply to a stale one.
static COPY_CHANGES: [(usize, u8); 6] = [(58, 97), (58, 96), (82, 0), (82, 2), (90, 0), (91, 9)];

/// Prints the results for link messages: those that decode, those encoded again, and those that are
/// no message.
pub(crate) fn run<R: AllocGlobal + Print>(rt: &R) -> io::Result<()> {
    say(rt, "acknowledgement", decode(rt.alloc(), &ACK))?;
    say(rt, "entry", decode(rt.alloc(), &ENTRY))?;
    for bytes in [ACK.as_slice(), ENTRY.as_slice(), COPY.as_slice()] {
        say(rt, "written again", is_written_again(rt.alloc(), bytes))?;
    }
    say(rt, "a byte more", refusal_of_longer(rt.alloc(), &ACK))?;
    say(rt, "cuts are refused", are_cuts_refused(rt.alloc()))?;
    print_changed(rt, "acknowledgement", &ACK, &HEADER_CHANGES)?;
    print_changed(rt, "entry", &ENTRY, &ENTRY_CHANGES)?;
    print_changed(rt, "copy", &COPY, &COPY_CHANGES)
}
