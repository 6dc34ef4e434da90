//! Tests the entries of a suffix, with and without reserved room; run by `main`.
ghost use Rattle.std.specs.Prelude.{◌≡◌, ◌≤◌, IfOk, IsTrue};
ghost use Rattle.craq_log.specs.Suffixed.{length_of};

use crate::say;
use craq_commands::{Entry, Reply};
use craq_log::Suffix;
use craq_names::{ClientId, Items, NodeId, Refusal, RequestNo, Seq, Ticket, Version};
use std::alloc::Global;
use std::io;

/// Returns an entry at a position.
fn entry(alloc: Global, position: u64) -> Result<Entry, Refusal>
    ensures { IfOk result (λ e. e.position ≡ position) }
{
    let number = RequestNo::new(1)?;
    Ok(Entry {
        position: Seq::new(position),
        origin_node: NodeId::new(1),
        origin_ticket: Ticket::new(1),
        client: ClientId::new(1),
        number,
        reply: Reply::Written(Version::new(1)),
        writes: Items::new(alloc),
    })
}

/// A call on a suffix.
#[derive(Clone, Copy)]
enum Ask {
    /// Appends an entry at the next position.
    Append,
    /// Appends entries at the next two positions.
    AppendTwo,
    TakeFirst,
    Acknowledge(u64),
    Reserve(usize),
    /// Returns the entries after a position.
    From(u64),
}

fn append(alloc: Global, suffix: &mut Suffix) -> Result<(), Refusal> {
    match suffix.len().get().checked_add(1) {
        None => Err(Refusal::Exhausted),
        Some(position) => Ok(suffix.append(entry(alloc, position)?)?),
    }
}

fn append_two(alloc: Global, suffix: &mut Suffix) -> Result<(), Refusal> {
    let length = suffix.len().get();
    if length.checked_add(2).is_none() {
        return Err(Refusal::Exhausted);
    }
    let mut two = Vec::new(alloc);
    two.push(entry(alloc, length + 1)?)?;
    two.push(entry(alloc, length + 2)?)?;
    Ok(suffix.append_all(Items::of(two))?)
}

fn take_first(alloc: Global, suffix: &mut Suffix) -> Option<Seq> {
    match suffix.take_first(alloc) {
        None => None,
        Some(entry) => Some(entry.position),
    }
}

/// Returns true if the position is the base of the suffix or a position that it holds.
fn is_known(suffix: &Suffix, position: u64) -> bool
    ensures { IsTrue result → (suffix.now.base ≤ position) × (position ≤ length_of suffix.now) }
{
    suffix.base().get() <= position && position <= suffix.len().get()
}

fn acknowledge(suffix: &mut Suffix, position: u64) -> Result<(), Refusal> {
    if !is_known(suffix, position) {
        return Err(Refusal::BadNumber);
    }
    suffix.acknowledge(Seq::new(position));
    Ok(())
}

fn print_from<R: Print>(rt: &R, suffix: &Suffix, position: u64) -> io::Result<()> {
    if !is_known(suffix, position) {
        return say(rt, "from", Refusal::BadNumber);
    }
    for entry in suffix.from(Seq::new(position)) {
        say(rt, "from", entry.position)?;
    }
    Ok(())
}

fn answer<R: AllocGlobal + Print>(rt: &R, suffix: &mut Suffix, ask: Ask) -> io::Result<()> {
    match ask {
        Ask::Append => say(rt, "append", append(rt.alloc(), suffix)),
        Ask::AppendTwo => say(rt, "append two", append_two(rt.alloc(), suffix)),
        Ask::TakeFirst => say(rt, "take first", take_first(rt.alloc(), suffix)),
        Ask::Acknowledge(position) => say(rt, "acknowledge", acknowledge(suffix, position)),
        Ask::Reserve(additional) => say(rt, "reserve", suffix.reserve(additional)),
        Ask::From(position) => print_from(rt, suffix, position),
    }
}

fn ask_all<R: AllocGlobal + Print>(rt: &R, base: u64, asks: &[Ask]) -> io::Result<()> {
    let mut suffix = Suffix::new(rt.alloc(), Seq::new(base));
    for ask in asks {
        let base = suffix.base();
        let length = suffix.len();
        println!(rt; "base {base}, length {length}")?;
        answer(rt, &mut suffix, *ask)?;
    }
    Ok(())
}

static IN_AND_OUT: [Ask; 10] = [
    Ask::Append,
    Ask::Append,
    Ask::Append,
    Ask::From(10),
    Ask::From(13),
    Ask::Acknowledge(11),
    Ask::From(12),
    Ask::Acknowledge(13),
    Ask::Append,
    Ask::From(13),
];

static RESERVED: [Ask; 4] = [Ask::Reserve(2), Ask::Append, Ask::Append, Ask::From(2)];

static TAKEN: [Ask; 9] = [
    Ask::TakeFirst,
    Ask::AppendTwo,
    Ask::AppendTwo,
    Ask::TakeFirst,
    Ask::From(5),
    Ask::TakeFirst,
    Ask::Acknowledge(6),
    Ask::TakeFirst,
    Ask::TakeFirst,
];

/// Prints the results of entries that go in and out of a suffix, with reserved room, and two in and
/// one out at a time.
pub(crate) fn run<R: AllocGlobal + Print>(rt: &R) -> io::Result<()> {
    ask_all(rt, 10, &IN_AND_OUT)?;
    ask_all(rt, 0, &RESERVED)?;
    ask_all(rt, 3, &TAKEN)
}
