//! Tests keys, values and numbers at their bounds, and the texts of refusals; run by `main`.
use crate::say;
use craq_names::{Copied, Key, NodeId, Refusal, RequestNo, Value, Version, copies_of};
use std::alloc::Global;
use std::io;

/// Returns true if a key of these bytes and its copy hold them.
fn key_again(alloc: Global, bytes: &[u8]) -> Result<bool, Refusal> {
    let key = Key::new(alloc, bytes)?;
    let copy = key.copied(alloc)?;
    Ok(key.as_slice() == bytes && copy.as_slice() == bytes)
}

/// Returns true if a value of these bytes and its copy hold them.
fn value_again(alloc: Global, bytes: &[u8]) -> Result<bool, Refusal> {
    let value = Value::new(alloc, bytes)?;
    let copy = value.copied(alloc)?;
    Ok(value.as_slice() == bytes && copy.as_slice() == bytes)
}

/// Returns the request number after this one.
fn next_number(number: u64) -> Result<u64, Refusal> {
    Ok(RequestNo::new(number)?.next()?.get())
}

fn print_refusals<R: Print>(rt: &R) -> io::Result<()> {
    for refusal in [
        Refusal::BadKey,
        Refusal::NotHead(NodeId::new(7)),
        Refusal::Memory,
        Refusal::BadScript(12),
        Refusal::Io,
    ] {
        let number = refusal.number();
        let detail = refusal.detail();
        println!(rt; "refusal {number} {detail}: {refusal}")?;
    }
    Ok(())
}

/// Prints keys, values and request numbers at their bounds, then texts of refusals and the copy of
/// a list.
pub(crate) fn run<R: AllocGlobal + Print>(rt: &R) -> io::Result<()> {
    for count in [0, 1, 128, 129] {
        let completions = vec![in rt.alloc(); b'a'; count]?;
        let made = key_again(rt.alloc(), completions.as_slice());
        println!(rt; "key of {count} bytes: {made:?}")?;
    }
    for count in [0, 4096, 4097] {
        let completions = vec![in rt.alloc(); b'a'; count]?;
        let made = value_again(rt.alloc(), completions.as_slice());
        println!(rt; "value of {count} bytes: {made:?}")?;
    }
    for number in [0, 1, u64::MAX] {
        let next = next_number(number);
        println!(rt; "number after {number}: {next:?}")?;
    }
    print_refusals(rt)?;
    let versions = copies_of(rt.alloc(), &[Version::new(1), Version::new(2)]);
    say(rt, "copies", versions)
}
