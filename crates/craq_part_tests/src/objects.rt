//! Tests the versions of one object, and a table of objects; run by `main`.
ghost use Rattle.std.specs.Prelude.{IsTrue};
ghost use Rattle.craq_versions.specs.Versions.{CanPush, CanSettle};
ghost use Rattle.craq_versions.specs.Tables.{held_at};

use crate::lists::can_settle_as;
use crate::say;
use craq_names::{Key, Refusal, Value, Version};
use craq_versions::{ObjectTable, VersionList};
use std::alloc::Global;
use std::io;

/// Returns true if the version can be added.
fn can_push(list: &VersionList<Value>, version: u64) -> bool
    ensures { IsTrue result → CanPush list.now.versions version }
{
    match list.last() {
        None => version >= 1,
        Some((newest, _)) => version >= 1 && newest.get() == version - 1,
    }
}

/// Returns true if the version is held and is not 0.
fn can_settle(list: &VersionList<Value>, version: u64) -> bool
    ensures { IsTrue result → CanSettle list.now.versions list.now.clean version }
{
    version >= 1 && list.get(Version::new(version)).is_some()
}

/// A call on the versions of an object.
#[derive(Clone, Copy)]
enum Ask {
    Ends,
    Get(u64),
    AtMost(u64),
    Reserve(usize),
    Push(u64, u8),
    Settle(u64),
}

fn push(
    alloc: Global,
    list: &mut VersionList<Value>,
    version: u64,
    byte: u8,
) -> Result<(), Refusal> {
    if !can_push(list, version) {
        return Err(Refusal::BadNumber);
    }
    Ok(list.push(Version::new(version), Value::new(alloc, &[byte])?)?)
}

fn settle(list: &mut VersionList<Value>, version: u64) -> Result<(), Refusal> {
    if !can_settle(list, version) {
        return Err(Refusal::BadNumber);
    }
    list.settle(Version::new(version));
    Ok(())
}

/// Prints the newest version with its value, and the clean one.
fn print_ends<R: Print>(rt: &R, list: &VersionList<Value>) -> io::Result<()> {
    let newest = list.newest();
    let clean = list.clean();
    let is_empty = list.is_empty();
    println!(rt; "newest {newest:?}, clean {clean}, empty {is_empty}")
}

fn print_version<R: Print>(rt: &R, list: &VersionList<Value>, version: u64) -> io::Result<()> {
    let value = list.get(Version::new(version));
    println!(rt; "get {version}: {value:?}")
}

fn print_at_most<R: Print>(rt: &R, list: &VersionList<Value>, bound: u64) -> io::Result<()> {
    let found = list.at_most(Version::new(bound));
    println!(rt; "at most {bound}: {found:?}")
}

fn answer<R>(rt: &R, list: &mut VersionList<Value>, ask: Ask) -> io::Result<()>
where
    R: AllocGlobal + Print,
{
    match ask {
        Ask::Ends => print_ends(rt, list),
        Ask::Get(version) => print_version(rt, list, version),
        Ask::AtMost(bound) => print_at_most(rt, list, bound),
        Ask::Reserve(additional) => say(rt, "reserve", list.reserve(additional)),
        Ask::Push(version, byte) => say(rt, "push", push(rt.alloc(), list, version, byte)),
        Ask::Settle(version) => say(rt, "settle", settle(list, version)),
    }
}

fn ask_all<R: AllocGlobal + Print>(rt: &R, asks: &[Ask]) -> io::Result<()> {
    let mut list = VersionList::new(rt.alloc());
    for ask in asks {
        answer(rt, &mut list, *ask)?;
    }
    Ok(())
}

static ABSENT: [Ask; 3] = [Ask::Ends, Ask::AtMost(9), Ask::Get(1)];

static SETTLED: [Ask; 12] = [
    Ask::Push(4, b'a'),
    Ask::Push(5, b'b'),
    Ask::Push(6, b'c'),
    Ask::Ends,
    Ask::Settle(5),
    Ask::Ends,
    Ask::Get(4),
    Ask::Get(5),
    Ask::Get(7),
    Ask::AtMost(4),
    Ask::AtMost(5),
    Ask::AtMost(9),
];

static RESERVED: [Ask; 4] = [
    Ask::Reserve(2),
    Ask::Push(1, b'a'),
    Ask::Push(2, b'b'),
    Ask::Ends,
];

/// Returns true if the version of the key can be added.
fn can_push_at(table: &ObjectTable<Value>, key: &Key, version: u64) -> bool
    ensures { IsTrue result → CanPush (held_at table.now key.now).versions version }
{
    match table.list(key) {
        None => version >= 1,
        Some(list) => can_push(list, version),
    }
}

/// Returns true if the version of the key is held.
fn can_settle_at(table: &ObjectTable<Value>, key: &Key, version: u64) -> bool
    ensures { IsTrue result → CanSettle (held_at table.now key.now).versions (held_at table.now key.now).clean version }
{
    match table.list(key) {
        None => false,
        Some(list) => can_settle(list, version),
    }
}

/// A call on a table, for a one-byte key.
#[derive(Clone, Copy)]
enum TableAsk {
    List,
    ReserveKey,
    /// Reserves room for the key and for `b`.
    Reserve,
    Push(u64, u8),
    Settle(u64),
    /// Makes this version, with this value, the clean one at the key's place.
    SettleAt(u64, u8),
}

fn push_at(
    alloc: Global,
    table: &mut ObjectTable<Value>,
    key: &Key,
    version: u64,
    byte: u8,
) -> Result<(), Refusal> {
    if !can_push_at(table, key, version) {
        return Err(Refusal::BadNumber);
    }
    let value = Value::new(alloc, &[byte])?;
    Ok(table.push(key, Version::new(version), value)?)
}

fn settle_at(table: &mut ObjectTable<Value>, key: &Key, version: u64) -> Result<(), Refusal> {
    if !can_settle_at(table, key, version) {
        return Err(Refusal::BadNumber);
    }
    table.settle(key, Version::new(version));
    Ok(())
}

/// Makes a version the clean one at the key's place. Returns false if the key has no place.
fn settle_at_place(
    alloc: Global,
    table: &mut ObjectTable<Value>,
    key: &Key,
    version: u64,
    byte: u8,
) -> Result<bool, Refusal> {
    let value = Value::new(alloc, &[byte])?;
    let Some(place) = table.place_of(key) else {
        return Ok(false);
    };
    if !can_settle_as(table.at(place), version) {
        return Err(Refusal::BadNumber);
    }
    let settled = Version::new(version);
    table.settle_as_at(place, settled, value);
    Ok(true)
}

fn reserve_two(alloc: Global, table: &mut ObjectTable<Value>, key: &Key) -> Result<(), Refusal> {
    let keys = [Key::new(alloc, b"b")?, Key::new(alloc, key.as_slice())?];
    Ok(table.reserve(&keys)?)
}

fn print_list<R: Print>(rt: &R, table: &ObjectTable<Value>, key: &Key) -> io::Result<()> {
    match table.list(key) {
        None => println!(rt; "none"),
        Some(list) => print_ends(rt, list),
    }
}

fn answer_at<R>(rt: &R, table: &mut ObjectTable<Value>, key: &Key, ask: TableAsk) -> io::Result<()>
where
    R: AllocGlobal + Print,
{
    match ask {
        TableAsk::List => print_list(rt, table, key),
        TableAsk::ReserveKey => say(rt, "reserve", table.reserve_key(key)),
        TableAsk::Reserve => say(rt, "reserve", reserve_two(rt.alloc(), table, key)),
        TableAsk::Push(version, byte) => {
            say(rt, "push", push_at(rt.alloc(), table, key, version, byte))
        }
        TableAsk::Settle(version) => say(rt, "settle", settle_at(table, key, version)),
        TableAsk::SettleAt(version, byte) => {
            let settled = settle_at_place(rt.alloc(), table, key, version, byte);
            say(rt, "settle at", settled)
        }
    }
}

fn print_keys<R: Print>(rt: &R, table: &ObjectTable<Value>) -> io::Result<()> {
    for key in table.keys() {
        println!(rt; "{key:?}")?;
    }
    Ok(())
}

/// Prints the versions of each key of a table.
fn print_objects<R: Print>(rt: &R, table: &ObjectTable<Value>) -> io::Result<()> {
    for key in table.keys() {
        if let Some(list) = table.list(key) {
            print_ends(rt, list)?;
        }
    }
    Ok(())
}

fn ask_table<R>(rt: &R, asks: &[(u8, TableAsk)]) -> io::Result<()>
where
    R: AllocGlobal + Print,
{
    let mut table = ObjectTable::new(rt.alloc());
    for (byte, ask) in asks {
        print!(rt; "key {byte}: ")?;
        match Key::new(rt.alloc(), &[*byte]) {
            Ok(key) => answer_at(rt, &mut table, &key, *ask)?,
            Err(refusal) => say(rt, "key", refusal)?,
        }
    }
    print_keys(rt, &table)?;
    print_objects(rt, &table)
}

static SHOWN: [(u8, TableAsk); 6] = [
    (b'k', TableAsk::List),
    (b'z', TableAsk::ReserveKey),
    (b'z', TableAsk::List),
    (b'k', TableAsk::Push(1, b'x')),
    (b'k', TableAsk::List),
    (b'a', TableAsk::List),
];

static TABLE_SETTLED: [(u8, TableAsk); 3] = [
    (b'b', TableAsk::Push(1, b'x')),
    (b'b', TableAsk::Settle(1)),
    (b'b', TableAsk::List),
];

static RISING: [(u8, TableAsk); 3] = [
    (b'c', TableAsk::ReserveKey),
    (b'b', TableAsk::Push(7, b'x')),
    (b'a', TableAsk::Push(9, b'y')),
];

static TABLE_RESERVED: [(u8, TableAsk); 1] = [(b'a', TableAsk::Reserve)];

static TABLE_PUSHED: [(u8, TableAsk); 2] = [
    (b'a', TableAsk::Reserve),
    (b'a', TableAsk::Push(1, b'x')),
];

// A key without a list has no place; one whose list only has room has no version to settle. The
// others keep theirs.
static PLACED: [(u8, TableAsk); 9] = [
    (b'c', TableAsk::SettleAt(1, b'w')),
    (b'c', TableAsk::ReserveKey),
    (b'c', TableAsk::SettleAt(1, b'w')),
    (b'b', TableAsk::Push(7, b'x')),
    (b'a', TableAsk::Push(9, b'y')),
    (b'b', TableAsk::SettleAt(8, b'z')),
    (b'b', TableAsk::SettleAt(7, b'w')),
    (b'b', TableAsk::List),
    (b'a', TableAsk::List),
];

/// Prints the results of calls on the versions of one object, and on a table of objects in
/// ascending key order.
pub(crate) fn run<R: AllocGlobal + Print>(rt: &R) -> io::Result<()> {
    ask_all(rt, &ABSENT)?;
    ask_all(rt, &SETTLED)?;
    ask_all(rt, &RESERVED)?;
    ask_table(rt, &SHOWN)?;
    ask_table(rt, &TABLE_SETTLED)?;
    ask_table(rt, &RISING)?;
    ask_table(rt, &TABLE_RESERVED)?;
    ask_table(rt, &TABLE_PUSHED)?;
    ask_table(rt, &PLACED)
}
