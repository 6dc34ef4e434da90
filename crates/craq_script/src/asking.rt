//! Turns a script's line into an update or a read, or refuses its values; called by `craq_play` and
//! `craq`.
ghost use Rattle.std.specs.Prelude.{◌≡◌, map, IfOk};
ghost use Rattle.std.specs.List.{list_all, flat_map};
ghost use Rattle.craq_commands.specs.Transaction.{mini_of};
ghost use Rattle.craq_script.specs.Asked.{has_key, is_value, item_object, item_value, objects_named, values_given, named, item_compare, item_read, item_write, lists_of, command_of, asked_update, read_of, AskedOrRefused};

use crate::{MiniItem, ScriptCommand, ScriptObject, UpdateLine};
use craq_commands::{Command, Mini, ReadMode, Update};
use craq_model::Ask;
use craq_names::{Items, Key, ObjectId, Refusal, RequestNo, Value, Version};
use std::alloc::{AllocError, Global};

/// Returns true if the object's key has 1 to 128 bytes.
fn has_key(object: &ScriptObject) -> bool
    ensures { result ≡ has_key object.now }
{
    let length = object.key.len();
    1 <= length && length <= Key::MAX
}

/// Returns true if the value has at most 4,096 bytes.
fn is_value(value: &Items<u8>) -> bool
    ensures { result ≡ is_value value.now }
{
    value.len() <= Value::MAX
}

/// Returns true if the key of the item's object has 1 to 128 bytes.
fn item_has_key(item: &MiniItem) -> bool
    ensures { result ≡ has_key (item_object item.now) }
{
    match item {
        MiniItem::Compare { object, version: _ } => has_key(object),
        MiniItem::Read { object } => has_key(object),
        MiniItem::Write { object, value: _ } => has_key(object),
    }
}

/// Returns true if the key of each object of the transaction has 1 to 128 bytes.
fn items_have_keys(items: &[MiniItem]) -> bool
    ensures { result ≡ list_all has_key (map item_object items.now) }
{
    for item in items {
        if !item_has_key(item) {
            return false;
        }
    }
    true
}

/// Returns true if the item's value, if it has one, has at most 4,096 bytes.
fn item_has_value(item: &MiniItem) -> bool
    ensures { result ≡ list_all is_value (item_value item.now) }
{
    match item {
        MiniItem::Compare {
            object: _,
            version: _,
        } => true,
        MiniItem::Read { object: _ } => true,
        MiniItem::Write { object: _, value } => is_value(value),
    }
}

/// Returns true if each value of the transaction has at most 4,096 bytes.
fn items_have_values(items: &[MiniItem]) -> bool
    ensures { result ≡ list_all is_value (flat_map item_value items.now) }
{
    for item in items {
        if !item_has_value(item) {
            return false;
        }
    }
    true
}

/// Returns true if the key of each object that the change names has 1 to 128 bytes.
fn have_keys(change: &ScriptCommand) -> bool
    ensures { result ≡ list_all has_key (objects_named change.now) }
{
    match change {
        ScriptCommand::Put { object, value: _ } => has_key(object),
        ScriptCommand::TestAndSet {
            object,
            expect: _,
            value: _,
        } => has_key(object),
        ScriptCommand::Append { object, value: _ } => has_key(object),
        ScriptCommand::Prepend { object, value: _ } => has_key(object),
        ScriptCommand::Increment { object, by: _ } => has_key(object),
        ScriptCommand::Decrement { object, by: _ } => has_key(object),
        ScriptCommand::Mini { items } => items_have_keys(items.as_slice()),
    }
}

/// Returns true if each value of the change has at most 4,096 bytes.
fn have_values(change: &ScriptCommand) -> bool
    ensures { result ≡ list_all is_value (values_given change.now) }
{
    match change {
        ScriptCommand::Put { object: _, value } => is_value(value),
        ScriptCommand::TestAndSet {
            object: _,
            expect: _,
            value,
        } => is_value(value),
        ScriptCommand::Append { object: _, value } => is_value(value),
        ScriptCommand::Prepend { object: _, value } => is_value(value),
        ScriptCommand::Increment { object: _, by: _ } => true,
        ScriptCommand::Decrement { object: _, by: _ } => true,
        ScriptCommand::Mini { items } => items_have_values(items.as_slice()),
    }
}

/// Copies the object that a script names. The caller has checked its key. Fails only when out of
/// memory.
fn asked_object(alloc: Global, object: &ScriptObject) -> Result<ObjectId, AllocError>
    ensures { IfOk result (λ o. o ≡ named object.now) }
{
    match Key::new(alloc, object.key.as_slice()) {
        Ok(key) => Ok(ObjectId {
            chain: object.chain,
            key,
        }),
        Err(_) => Err(AllocError),
    }
}

/// Copies the bytes into a value. The caller has checked their number. Fails only when out of
/// memory.
fn asked_value(alloc: Global, value: &Items<u8>) -> Result<Value, AllocError>
    ensures { IfOk result (λ v. v ≡ value.now) }
{
    match Value::new(alloc, value.as_slice()) {
        Ok(value) => Ok(value),
        Err(_) => Err(AllocError),
    }
}

/// Returns the compares among the items, in order.
fn compares_of(alloc: Global, items: &[MiniItem]) -> Result<Items<(ObjectId, Version)>, AllocError>
    ensures { IfOk result (λ list. list ≡ flat_map item_compare items.now) }
{
    let mut compares = Items::new(alloc);
    for item in items {
        if let MiniItem::Compare { object, version } = item {
            compares.push((asked_object(alloc, object)?, *version))?;
        }
    }
    Ok(compares)
}

/// Returns the reads among the items, in order.
fn reads_of(alloc: Global, items: &[MiniItem]) -> Result<Items<ObjectId>, AllocError>
    ensures { IfOk result (λ list. list ≡ flat_map item_read items.now) }
{
    let mut reads = Items::new(alloc);
    for item in items {
        if let MiniItem::Read { object } = item {
            reads.push(asked_object(alloc, object)?)?;
        }
    }
    Ok(reads)
}

/// Returns the writes among the items, in order.
fn writes_of(alloc: Global, items: &[MiniItem]) -> Result<Items<(ObjectId, Value)>, AllocError>
    ensures { IfOk result (λ list. list ≡ flat_map item_write items.now) }
{
    let mut writes = Items::new(alloc);
    for item in items {
        if let MiniItem::Write { object, value } = item {
            writes.push((asked_object(alloc, object)?, asked_value(alloc, value)?))?;
        }
    }
    Ok(writes)
}

/// Makes a transaction of the items, whose keys and values are within their limits.
fn transaction_of(alloc: Global, items: &[MiniItem]) -> Result<Mini, Refusal>
    ensures { AskedOrRefused (λ m. m) result (mini_of (lists_of items.now)) }
{
    let compares = compares_of(alloc, items)?;
    let reads = reads_of(alloc, items)?;
    let writes = writes_of(alloc, items)?;
    Mini::new(compares, reads, writes)
}

/// Makes the command of a change whose keys and values are within their limits.
#[tactic(auto, unfolding(crate::specs::Asked::command_of))]
fn command_of(alloc: Global, change: &ScriptCommand) -> Result<Command, Refusal>
    ensures { AskedOrRefused (λ x. x) result (command_of change.now) }
{
    match change {
        ScriptCommand::Put { object, value } => {
            let object = asked_object(alloc, object)?;
            let value = asked_value(alloc, value)?;
            Ok(Command::Put { object, value })
        }
        ScriptCommand::TestAndSet {
            object,
            expect,
            value,
        } => {
            let object = asked_object(alloc, object)?;
            let value = asked_value(alloc, value)?;
            Ok(Command::TestAndSet {
                object,
                expect: *expect,
                value,
            })
        }
        ScriptCommand::Append { object, value } => {
            let object = asked_object(alloc, object)?;
            let value = asked_value(alloc, value)?;
            Ok(Command::Append { object, value })
        }
        ScriptCommand::Prepend { object, value } => {
            let object = asked_object(alloc, object)?;
            let value = asked_value(alloc, value)?;
            Ok(Command::Prepend { object, value })
        }
        ScriptCommand::Increment { object, by } => {
            let object = asked_object(alloc, object)?;
            Ok(Command::Increment { object, by: *by })
        }
        ScriptCommand::Decrement { object, by } => {
            let object = asked_object(alloc, object)?;
            Ok(Command::Decrement { object, by: *by })
        }
        ScriptCommand::Mini { items } => {
            let mini = transaction_of(alloc, items.as_slice())?;
            Ok(Command::Mini(mini))
        }
    }
}

/// Makes the update that a line requests.
///
/// Refuses with the first of these that applies: `BadKey`, `ValueTooLong`, `TooManyItems`,
/// `EmptyTransaction`, `DuplicateKey`, `BadNumber`. `Memory` when out of memory.
#[tactic(auto, unfolding(crate::specs::Asked::asked_update))]
pub fn asked_update(alloc: Global, line: &UpdateLine) -> Result<Ask, Refusal>
    ensures { AskedOrRefused (λ x. x) result (asked_update line.now) }
{
    if !have_keys(&line.change) {
        return Err(Refusal::BadKey);
    }
    if !have_values(&line.change) {
        return Err(Refusal::ValueTooLong);
    }
    let command = command_of(alloc, &line.change)?;
    let number = RequestNo::new(line.number)?;
    Ok(Ask::Update(Update {
        client: line.client,
        number,
        command,
    }))
}

/// Makes the read that a line requests. `BadKey` if the object's key is empty or longer than 128
/// bytes; `Memory` when out of memory.
#[tactic(auto, unfolding(crate::specs::Asked::read_of))]
pub fn read_of(alloc: Global, mode: ReadMode, object: &ScriptObject) -> Result<Ask, Refusal>
    ensures { AskedOrRefused (λ x. x) result (read_of mode object.now) }
{
    if !has_key(object) {
        return Err(Refusal::BadKey);
    }
    let object = asked_object(alloc, object)?;
    Ok(Ask::Read { mode, object })
}
