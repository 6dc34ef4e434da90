//! Tests a compact state after a million puts: settled entries are applied and dropped; run by
//! `main`.
ghost use Rattle.std.specs.Prelude.{◌≡◌, ◌+◌, [], ◌∷◌, IfOk};
ghost use Rattle.craq_commands.specs.Objects.{version_of};
ghost use Rattle.craq_commands.specs.SingleCopy.{after_entries};
ghost use Rattle.craq_compact_state.specs.Followed.{AreNextVersions};

use craq_commands::{Entry, Reply, Write};
use craq_compact_state::HeldPast;
use craq_names::{ClientId, Items, Key, NodeId, Refusal, RequestNo, Seq, Ticket, Value, Version};
use std::alloc::Global;
use std::io;

/// The number of puts.
const PUTS: u64 = 1_000_000;

/// The number of objects, which the puts write one after another.
const OBJECTS: u64 = 1_000;

/// Returns a write of one of the objects, with its next version.
fn write(alloc: Global, held: &HeldPast, count: u64) -> Result<Write, Refusal>
    ensures { IfOk result (λ w. w.version ≡ version_of (after_entries held.now.state held.now.entries).objects w.key + 1) }
{
    let object = count % OBJECTS;
    let key = Key::new(alloc, &[(object / 100) as u8, (object % 100) as u8])?;
    let (newest, _) = held.newest(&key);
    let Some(version) = newest.get().checked_add(1) else {
        return Err(Refusal::Exhausted);
    };
    Ok(Write {
        key,
        version: Version::new(version),
        value: Value::new(alloc, b"v")?,
    })
}

/// Returns the entry of a put at a position, after `count` puts.
fn entry(alloc: Global, position: u64, count: u64, write: Write) -> Result<Entry, Refusal>
    ensures position { IfOk result (λ e. e.position ≡ position) }
    ensures writes { IfOk result (λ e. e.writes ≡ write ∷ []) }
{
    let number = RequestNo::new(count.saturating_add(1))?;
    let mut writes = Vec::new(alloc);
    let reply = Reply::Written(write.version);
    writes.push(write)?;
    Ok(Entry {
        position: Seq::new(position),
        origin_node: NodeId::new(1),
        origin_ticket: Ticket::new(1),
        client: ClientId::new(1),
        number,
        reply,
        writes: Items::of(writes),
    })
}

/// Returns the entry of one more put, at the next position.
fn next_entry(alloc: Global, held: &HeldPast, position: u64) -> Result<Entry, Refusal>
    ensures position { IfOk result (λ e. e.position ≡ position) }
    ensures next { IfOk result (λ e. AreNextVersions (after_entries held.now.state held.now.entries) (e ∷ [])) }
{
    let count = held.len().get();
    let write = write(alloc, held, count)?;
    entry(alloc, position, count, write)
}

/// Appends one more put, at the next position.
fn append(alloc: Global, held: &mut HeldPast) -> Result<(), Refusal> {
    let Some(position) = held.len().get().checked_add(1) else {
        return Err(Refusal::Exhausted);
    };
    let mut entries = Vec::new(alloc);
    entries.push(next_entry(alloc, held, position)?)?;
    Ok(held.append(Items::of(entries))?)
}

/// Appends puts, each of which is settled at once.
fn settled_puts(alloc: Global, held: &mut HeldPast) -> Result<(), Refusal> {
    for _ in 0..PUTS {
        append(alloc, held)?;
        let end = held.len();
        held.apply(end)?;
    }
    Ok(())
}

/// Appends puts that are not settled.
fn unsettled_puts(alloc: Global, held: &mut HeldPast) -> Result<(), Refusal> {
    for _ in 0..OBJECTS {
        append(alloc, held)?;
    }
    Ok(())
}

/// Prints the number of entries applied, and the number held.
fn print<R: Print>(rt: &R, held: &HeldPast) -> io::Result<()> {
    let base = held.base();
    let count = held.from(base).len();
    println!(rt; "base {base}, {count} entries held")
}

/// Prints that with enough memory, settled entries are applied and no longer held.
pub(crate) fn run<R: AllocGlobal + Print>(rt: &R) -> io::Result<()> {
    let mut held = HeldPast::new(rt.alloc());
    print(rt, &held)?;
    crate::say(rt, "settled", settled_puts(rt.alloc(), &mut held))?;
    print(rt, &held)?;
    crate::say(rt, "unsettled", unsettled_puts(rt.alloc(), &mut held))?;
    print(rt, &held)
}
