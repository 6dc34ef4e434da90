//! Tests the messages that hold states, parts and batches; run by `main`.
use crate::links::{ENTRY, is_written_again, print_changed};
use crate::say;
use craq_wire::decode;
use std::alloc::{AllocError, Global};
use std::io;

/// The second of two parts of the state after position 65: the object `k`, version 3, value `a`.
const PART: [u8; 69] = [
    2, 9, 0, 0, 0, 0, 0, 1, 0, 0, 0, 2, 0, 0, 0, 0, 0, 0, 0, 5, 0, 0, 0, 0, 0, 0, 0, 0, 0, 0, 0, 1,
    0, 0, 0, 0, 0, 0, 0, 65, 0, 0, 0, 2, 0, 0, 0, 2, 0, 0, 0, 1, 1, 107, 0, 0, 0, 0, 0, 0, 0, 3, 0,
    1, 97, 0, 0, 0, 0,
];

/// The header of each message here, from node 1 to node 2, with stamp 5, in epoch 1; the kind is 0.
const HEADER: [u8; 32] = [
    2, 0, 0, 0, 0, 0, 0, 1, 0, 0, 0, 2, 0, 0, 0, 0, 0, 0, 0, 5, 0, 0, 0, 0, 0, 0, 0, 0, 0, 0, 0, 1,
];

/// Returns the start of a message of a kind.
fn start_of(alloc: Global, kind: u8) -> Result<Vec<u8>, AllocError> {
    let mut bytes = HEADER.to_vec(alloc)?;
    if let Some(place) = bytes.get_mut(1) {
        *place = kind;
    }
    Ok(bytes)
}

/// Returns the number of items as a byte, at most 255.
fn count_of(items: &[u8]) -> u8 {
    items.len().min(255) as u8
}

/// Encodes a copy of no object, at position 2, with a reply to each of these numbers of client 7.
fn copy_of(alloc: Global, numbers: &[u8]) -> Result<Vec<u8>, AllocError> {
    let mut bytes = start_of(alloc, 7)?;
    bytes.extend_from_slice(&[0, 0, 0, 0, 0, 0, 0, 2, 0, 0, 0, 0, 0, 0, 0, 1])?;
    bytes.extend_from_slice(&[0, 0, 0, 0, 0, 0, 0, 7, count_of(numbers)])?;
    for number in numbers {
        bytes.extend_from_slice(&[0, 0, 0, 0, 0, 0, 0, *number, 3])?;
    }
    Ok(bytes)
}

/// Encodes a batch of entries at these positions.
fn batch_of(alloc: Global, positions: &[u8]) -> Result<Vec<u8>, AllocError> {
    let mut bytes = start_of(alloc, 10)?;
    bytes.push(count_of(positions))?;
    for position in positions {
        bytes.extend_from_slice(&[0, 0, 0, 0, 0, 0, 0, *position])?;
        bytes.extend_from_slice(&ENTRY[40..])?;
    }
    Ok(bytes)
}

/// A part of a state without kept replies: its number, the number of parts, the number of objects,
/// and the step from each key to the next.
type PartCase = (u8, u8, u8, u8);

/// Encodes the part, of the state after position 65; keys have one byte, and values none.
fn part_of(alloc: Global, case: PartCase) -> Result<Vec<u8>, AllocError> {
    let (number, count, objects, step) = case;
    let mut bytes = start_of(alloc, 9)?;
    bytes.extend_from_slice(&[0, 0, 0, 0, 0, 0, 0, 65, 0, 0, 0, number])?;
    bytes.extend_from_slice(&[0, 0, 0, count, 0, 0, 0, objects])?;
    let mut key: u8 = 1;
    for _ in 0..objects {
        bytes.extend_from_slice(&[1, key, 0, 0, 0, 0, 0, 0, 0, 1, 0, 0])?;
        key = key.wrapping_add(step);
    }
    bytes.extend_from_slice(&[0, 0, 0, 0])?;
    Ok(bytes)
}

/// Windows of one and of eight replies; of none, of nine, with an equal number, with a falling one.
static WINDOWS: [&[u8]; 6] = [
    &[9],
    &[1, 2, 4, 8, 16, 32, 64, 128],
    &[],
    &[1, 2, 3, 4, 5, 6, 7, 8, 9],
    &[2, 2],
    &[3, 2],
];

/// Batches of 2 and 16 entries; of none, one, 17; with a skipped position, falling ones, equal
/// ones, 0.
static BATCHES: [&[u8]; 9] = [
    &[4, 5],
    &[1, 2, 3, 4, 5, 6, 7, 8, 9, 10, 11, 12, 13, 14, 15, 16],
    &[],
    &[1],
    &[1, 2, 3, 4, 5, 6, 7, 8, 9, 10, 11, 12, 13, 14, 15, 16, 17],
    &[1, 3],
    &[2, 1],
    &[1, 1],
    &[0, 1],
];

/// Parts: one that is not the last, and the last with 1 and with 64 objects; the only one; numbered
/// 0; above their count; not the last, with 63 and with 65 objects; the last, with none and with
/// 65; with equal keys; with falling keys.
static PARTS: [PartCase; 12] = [
    (1, 2, 64, 1),
    (2, 2, 1, 1),
    (3, 3, 64, 1),
    (1, 1, 64, 1),
    (0, 2, 64, 1),
    (3, 2, 1, 1),
    (1, 2, 63, 1),
    (2, 3, 65, 1),
    (2, 2, 0, 1),
    (2, 2, 65, 1),
    (2, 2, 2, 0),
    (2, 2, 2, 255),
];

fn print_windows<R: AllocGlobal + Print>(rt: &R) -> io::Result<()> {
    for numbers in &WINDOWS {
        let bytes = copy_of(rt.alloc(), numbers)?;
        let again = is_written_again(rt.alloc(), bytes.as_slice());
        println!(rt; "window {numbers:?}: {again:?}")?;
    }
    Ok(())
}

fn print_batches<R: AllocGlobal + Print>(rt: &R) -> io::Result<()> {
    for positions in &BATCHES {
        let bytes = batch_of(rt.alloc(), positions)?;
        let again = is_written_again(rt.alloc(), bytes.as_slice());
        println!(rt; "batch {positions:?}: {again:?}")?;
    }
    Ok(())
}

fn print_parts<R: AllocGlobal + Print>(rt: &R) -> io::Result<()> {
    for case in &PARTS {
        let (number, count, objects, step) = *case;
        let bytes = part_of(rt.alloc(), *case)?;
        let again = is_written_again(rt.alloc(), bytes.as_slice());
        println!(rt; "part {number}/{count}, {objects} objects, keys by {step}: {again:?}")?;
    }
    Ok(())
}

/// Sets the position to 0, and the reply of the second entry to a stale one.
static BATCH_CHANGES: [(usize, u8); 2] = [(40, 0), (128, 9)];

/// Prints the results for messages that hold states and batches: their decoded forms, whether they
/// are encoded again as they were, and the refusals.
pub(crate) fn run<R: AllocGlobal + Print>(rt: &R) -> io::Result<()> {
    say(rt, "part", decode(rt.alloc(), &PART))?;
    print_windows(rt)?;
    print_parts(rt)?;
    print_batches(rt)?;
    let batch = batch_of(rt.alloc(), &[1, 2])?;
    say(rt, "batch", decode(rt.alloc(), batch.as_slice()))?;
    print_changed(rt, "batch", batch.as_slice(), &BATCH_CHANGES)
}
