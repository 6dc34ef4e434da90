//! Tests version lists whose newest version is removed, and one of whose versions is settled as
//! another value; run by `main`.
ghost use Rattle.std.specs.Prelude.{◌≡◌, IsSome, IsTrue};
ghost use Rattle.craq_names.specs.Maps.{at_number};
ghost use Rattle.craq_versions.specs.Versions.{newest_of, CanPush, CanSettleAs, IsNext};

use crate::say;
use craq_names::{Refusal, Value, Version};
use craq_versions::VersionList;
use std::alloc::Global;
use std::io;

/// A call on the versions of an object.
#[derive(Clone, Copy)]
enum Ask {
    /// Returns the oldest version, the clean one, and the values of all.
    All,
    Push(u64, u8),
    Pop,
    /// Makes this version, with this value, the clean one.
    SettleAs(u64, u8),
}

/// Returns true if the version can be added.
fn can_push(list: &VersionList<Value>, version: u64) -> bool
    ensures { IsTrue result → CanPush list.now.versions version }
{
    match list.last() {
        None => version >= 1,
        Some((newest, _)) => version >= 1 && newest.get() == version - 1,
    }
}

/// Returns true if the version is held.
fn holds(list: &VersionList<Value>, version: u64) -> bool
    ensures { IsTrue result → IsSome (at_number list.now.versions version) }
{
    list.get(Version::new(version)).is_some()
}

/// Returns true if the version comes right after the newest one.
fn is_next(list: &VersionList<Value>, version: u64) -> bool
    ensures { IsTrue result → IsNext version (newest_of list.now.versions) }
{
    match list.last() {
        None => false,
        Some((newest, _)) => version >= 1 && newest.get() == version - 1,
    }
}

/// Returns true if the version can become the first, whether or not it is held.
pub(crate) fn can_settle_as(list: &VersionList<Value>, version: u64) -> bool
    ensures { IsTrue result → CanSettleAs list.now.versions version }
{
    if holds(list, version) {
        return true;
    }
    is_next(list, version)
}

fn push(
    alloc: Global,
    list: &mut VersionList<Value>,
    version: u64,
    byte: u8,
) -> Result<(), Refusal> {
    if !can_push(list, version) {
        return Err(Refusal::BadNumber);
    }
    Ok(list.push(Version::new(version), Value::new(alloc, &[byte])?)?)
}

fn settle_as(
    alloc: Global,
    list: &mut VersionList<Value>,
    version: u64,
    byte: u8,
) -> Result<(), Refusal> {
    let value = Value::new(alloc, &[byte])?;
    if !can_settle_as(list, version) {
        return Err(Refusal::BadNumber);
    }
    list.settle_as(Version::new(version), value);
    Ok(())
}

fn print_all<R: Print>(rt: &R, list: &VersionList<Value>) -> io::Result<()> {
    let clean = list.clean();
    match list.oldest() {
        None => print!(rt; "clean {clean}, none")?,
        Some((version, _)) => print!(rt; "clean {clean}, from {version}:")?,
    }
    for index in 0..list.len() {
        let bytes = list.held(index).as_slice();
        print!(rt; " {bytes:?}")?;
    }
    println!(rt; "")
}

fn answer<R>(rt: &R, list: &mut VersionList<Value>, ask: Ask) -> io::Result<()>
where
    R: AllocGlobal + Print,
{
    match ask {
        Ask::All => print_all(rt, list),
        Ask::Push(version, byte) => say(rt, "push", push(rt.alloc(), list, version, byte)),
        Ask::Pop => {
            list.pop();
            println!(rt; "pop")
        }
        Ask::SettleAs(version, byte) => {
            say(rt, "settle as", settle_as(rt.alloc(), list, version, byte))
        }
    }
}

fn ask_all<R: AllocGlobal + Print>(rt: &R, asks: &[Ask]) -> io::Result<()> {
    let mut list = VersionList::new(rt.alloc());
    for ask in asks {
        answer(rt, &mut list, *ask)?;
    }
    Ok(())
}

static ABSENT: [Ask; 4] = [Ask::All, Ask::Pop, Ask::All, Ask::SettleAs(1, b's')];

// Removes the newest version; once none is left any version can be added.
static TAKEN_BACK: [Ask; 10] = [
    Ask::Push(1, b'a'),
    Ask::Push(2, b'b'),
    Ask::Pop,
    Ask::All,
    Ask::Push(2, b'c'),
    Ask::All,
    Ask::Pop,
    Ask::Pop,
    Ask::Push(9, b'd'),
    Ask::All,
];

// Settles a version as another value: those before it go, and it can be removed like any other.
static SETTLED: [Ask; 14] = [
    Ask::Push(4, b'a'),
    Ask::Push(5, b'b'),
    Ask::Push(6, b'c'),
    Ask::SettleAs(5, b's'),
    Ask::All,
    Ask::SettleAs(4, b't'),
    Ask::SettleAs(8, b't'),
    Ask::SettleAs(6, b'u'),
    Ask::All,
    Ask::SettleAs(7, b'v'),
    Ask::All,
    Ask::Push(8, b'd'),
    Ask::Pop,
    Ask::Pop,
];

// Settles five pending versions one by one.
static WAITING: [Ask; 14] = [
    Ask::Push(1, b'a'),
    Ask::Push(2, b'b'),
    Ask::Push(3, b'c'),
    Ask::Push(4, b'd'),
    Ask::Push(5, b'e'),
    Ask::Push(6, b'f'),
    Ask::SettleAs(1, b'1'),
    Ask::SettleAs(2, b'2'),
    Ask::All,
    Ask::SettleAs(3, b'3'),
    Ask::SettleAs(4, b'4'),
    Ask::SettleAs(5, b'5'),
    Ask::SettleAs(6, b'6'),
    Ask::All,
];

/// Prints the results of calls on the versions of one object.
pub(crate) fn run<R: AllocGlobal + Print>(rt: &R) -> io::Result<()> {
    ask_all(rt, &ABSENT)?;
    ask_all(rt, &TAKEN_BACK)?;
    ask_all(rt, &SETTLED)?;
    ask_all(rt, &WAITING)
}
