//! `evaluate`: the writes and the reply of a command, as on a single copy. The head of a chain
//! calls it.
ghost use Rattle.std.specs.Prelude.{◌≡◌, ◌<◌, ◌≤◌, ◌++◌, false, length, map, IfOk};
ghost use Rattle.craq_names.specs.Limits.{greatest, value_limit, item_limit};
ghost use Rattle.craq_commands.specs.Objects.{Objects, object_of};
ghost use Rattle.craq_commands.specs.Evaluation.{eval, writes_one, writes_number, tested, joined, number_in_bytes, increased, decreased, transacted, first_difference, objects_named, some_used_up};

use crate::{Command, Mini, Reply};
use craq_names::{Copied, Items, Key, ObjectId, Value, Version};
use std::alloc::{AllocError, Global};

/// The writes of a command: keys with their new values, in order.
pub type Writes = Items<(Key, Value)>;

/// Read access to the objects of one chain.
pub trait Look {
    ghost objects: { Self → Objects };

    /// Returns the newest version and value of the object at a key. An absent object has version 0
    /// and no bytes.
    fn look(&self, key: &Key) -> (Version, &[u8])
        ensures version { result.0 ≡ (object_of (objects self.now) key.now).0 }
        ensures value { result.1.now ≡ (object_of (objects self.now) key.now).1 }
        ensures short { length result.1.now ≤ 4096 };
}

/// Returns the command's writes on these objects, and its reply. A command whose condition fails
/// writes nothing. Fails only when out of memory.
///
/// The caller knows that no object that the command names has version 2^64 - 1.
#[tactic(auto, unfolding(crate::specs::Evaluation::some_used_up))]
pub fn evaluate<L: Look>(
    alloc: Global,
    look: &L,
    command: &Command,
) -> Result<(Writes, Reply), AllocError>
    requires { some_used_up (L.objects look.now) (objects_named command.now) ≡ false }
    ensures { IfOk result (λ r. (r.0, r.1) ≡ eval (L.objects look.now) command.now) }
{
    match command {
        Command::Put { object, value } => {
            let (version, _) = look.look(&object.key);
            written(alloc, &object.key, version, value.copied(alloc)?)
        }
        Command::TestAndSet {
            object,
            expect,
            value,
        } => {
            let (version, _) = look.look(&object.key);
            tested_write(alloc, &object.key, *expect, value, version)
        }
        Command::Append { object, value } => {
            let (version, old) = look.look(&object.key);
            joined_write(alloc, &object.key, version, old, value.as_slice())
        }
        Command::Prepend { object, value } => {
            let (version, old) = look.look(&object.key);
            joined_write(alloc, &object.key, version, value.as_slice(), old)
        }
        Command::Increment { object, by } => {
            let (version, old) = look.look(&object.key);
            increased_write(alloc, &object.key, *by, version, number_in(version, old))
        }
        Command::Decrement { object, by } => {
            let (version, old) = look.look(&object.key);
            decreased_write(alloc, &object.key, *by, version, number_in(version, old))
        }
        Command::Mini(mini) => transaction(alloc, look, mini),
    }
}

/// Writes the object as its next version.
fn written(
    alloc: Global,
    key: &Key,
    version: Version,
    value: Value,
) -> Result<(Writes, Reply), AllocError>
    requires { version < greatest }
    ensures { IfOk result (λ r. (r.0, r.1) ≡ writes_one key.now version value) }
{
    let mut writes = Items::new(alloc);
    writes.push((key.copied(alloc)?, value))?;
    let next = Version::new(version.get() + 1);
    Ok((writes, Reply::Written(next)))
}

/// Writes the object if it has the expected version.
#[tactic(auto, unfolding(crate::specs::Evaluation::tested))]
fn tested_write(
    alloc: Global,
    key: &Key,
    expect: Version,
    value: &Value,
    version: Version,
) -> Result<(Writes, Reply), AllocError>
    requires { version < greatest }
    ensures { IfOk result (λ r. (r.0, r.1) ≡ tested key.now expect value.now version) }
{
    if version == expect {
        written(alloc, key, version, value.copied(alloc)?)
    } else {
        Ok((Items::new(alloc), Reply::Mismatch(version)))
    }
}

/// Writes the joined bytes to the object if they are at most 4,096.
#[tactic(auto, unfolding(crate::specs::Evaluation::joined))]
fn joined_write(
    alloc: Global,
    key: &Key,
    version: Version,
    front: &[u8],
    back: &[u8],
) -> Result<(Writes, Reply), AllocError>
    requires room { version < greatest }
    requires front { length front.now ≤ value_limit }
    requires back { length back.now ≤ value_limit }
    ensures { IfOk result (λ r. (r.0, r.1) ≡ joined key.now (front.now ++ back.now) version) }
{
    if front.len() + back.len() > Value::MAX {
        return Ok((Items::new(alloc), Reply::TooLong));
    }
    let mut bytes = Vec::with_capacity(alloc, front.len() + back.len())?;
    bytes.extend_from_slice(front)?;
    bytes.extend_from_slice(back)?;
    written(alloc, key, version, Value::of(bytes)?)
}

/// Returns the number in a value, `None` if the value does not have 8 bytes. An absent object
/// counts as 0.
#[tactic(auto, unfolding(crate::specs::Evaluation::number_in_bytes))]
fn number_in(version: Version, bytes: &[u8]) -> Option<u64>
    ensures { result ≡ number_in_bytes version bytes.now }
{
    if version.get() == 0 {
        return Some(0);
    }
    match bytes.as_array::<8>() {
        None => None,
        Some(bytes) => Some(u64::from_be_bytes(*bytes)),
    }
}

/// Writes a number to the object.
fn number_written(
    alloc: Global,
    key: &Key,
    version: Version,
    number: u64,
) -> Result<(Writes, Reply), AllocError>
    requires { version < greatest }
    ensures { IfOk result (λ r. (r.0, r.1) ≡ writes_number key.now version number) }
{
    let bytes = number.to_be_bytes();
    written(
        alloc,
        key,
        version,
        Value::of(Vec::from_slice(alloc, &bytes)?)?,
    )
}

/// Adds to the object's number, if it has one and the sum is at most 2^64 - 1.
#[tactic(auto, unfolding(crate::specs::Evaluation::increased))]
fn increased_write(
    alloc: Global,
    key: &Key,
    by: u64,
    version: Version,
    number: Option<u64>,
) -> Result<(Writes, Reply), AllocError>
    requires { version < greatest }
    ensures { IfOk result (λ r. (r.0, r.1) ≡ increased key.now by version number) }
{
    let Some(number) = number else {
        return Ok((Items::new(alloc), Reply::NotANumber));
    };
    match number.checked_add(by) {
        None => Ok((Items::new(alloc), Reply::Overflow)),
        Some(sum) => number_written(alloc, key, version, sum),
    }
}

/// Subtracts from the object's number, if it has one and the difference is at least 0.
#[tactic(auto, unfolding(crate::specs::Evaluation::decreased))]
fn decreased_write(
    alloc: Global,
    key: &Key,
    by: u64,
    version: Version,
    number: Option<u64>,
) -> Result<(Writes, Reply), AllocError>
    requires { version < greatest }
    ensures { IfOk result (λ r. (r.0, r.1) ≡ decreased key.now by version number) }
{
    let Some(number) = number else {
        return Ok((Items::new(alloc), Reply::NotANumber));
    };
    match number.checked_sub(by) {
        None => Ok((Items::new(alloc), Reply::Underflow)),
        Some(rest) => number_written(alloc, key, version, rest),
    }
}

/// Evaluates a transaction: its compares first, then its reads, then its writes.
#[tactic(auto, unfolding(crate::specs::Evaluation::transacted))]
fn transaction<L: Look>(alloc: Global, look: &L, mini: &Mini) -> Result<(Writes, Reply), AllocError>
    ensures { IfOk result (λ r. (r.0, r.1) ≡ transacted (L.objects look.now) mini.now (first_difference (L.objects look.now) 0 mini.now.compares)) }
{
    match failed_compare(look, mini.compares()) {
        Some(place) => Ok((Items::new(alloc), Reply::CompareFailed(place))),
        None => {
            let found = objects_read(alloc, look, mini.reads())?;
            let writes = writes_of(alloc, mini.writes())?;
            Ok((Items::of(writes), Reply::Done(Items::of(found))))
        }
    }
}

/// Returns the index of the first compare whose object has another version.
#[tactic(auto, unfolding(crate::specs::Evaluation::first_difference))]
fn failed_compare<L: Look>(look: &L, compares: &[(ObjectId, Version)]) -> Option<u8>
    requires { length compares.now ≤ item_limit }
    ensures { result ≡ first_difference (L.objects look.now) 0 compares.now }
{
    let mut place = 0;
    for (object, expected) in compares {
        if look.look(&object.key).0 != *expected {
            return Some(place);
        }
        place += 1;
    }
    None
}

/// Returns the objects' versions and values, in order. Fails only when out of memory.
fn objects_read<L: Look>(
    alloc: Global,
    look: &L,
    objects: &[ObjectId],
) -> Result<Vec<(Version, Value)>, AllocError>
    ensures { IfOk result (λ found. found.items ≡ map (λ o. object_of (L.objects look.now) o.key) objects.now) }
{
    let mut found = Vec::new(alloc);
    for object in objects {
        let (version, bytes) = look.look(&object.key);
        let value = Value::of(Vec::from_slice(alloc, bytes)?)?;
        found.push((version, value))?;
    }
    Ok(found)
}

/// Returns keys with their new values, in order. Fails only when out of memory.
fn writes_of(alloc: Global, writes: &[(ObjectId, Value)]) -> Result<Vec<(Key, Value)>, AllocError>
    ensures { IfOk result (λ made. made.items ≡ map (λ w. (w.0.key, w.1)) writes.now) }
{
    let mut made = Vec::new(alloc);
    for (object, value) in writes {
        made.push((object.key.copied(alloc)?, value.copied(alloc)?))?;
    }
    Ok(made)
}
