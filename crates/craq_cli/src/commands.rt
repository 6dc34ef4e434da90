//! Reads the words of a command: its task, or the first wrong word; for `client` and for a prompt.
ghost use Rattle.std.specs.Prelude.{◌≡◌, is_some, map, drop};
ghost use Rattle.craq_script.specs.Words.{item_of};
ghost use Rattle.craq_cli.specs.Commands.{Reads, expect, in_line, word_at, object_and_value, object_and_number, test_and_set_of, items_from, change_of, command_update, read_of, name_of, request_of, worded_load, load_of, watch_of, task_of};

use crate::words::{at_end, bad, bytes_at, is_line_word, mode_at, number_at, object_at, value_at};
use crate::{BenchLoad, Expected, Request, Task, UsageError};
use craq_names::{ClientId, Items, NodeId, Version};
use craq_script::{MiniItem, ParseError, ScriptCommand, ScriptObject, UpdateLine, item_of};
use std::alloc::Global;

/// The names of updates.
#[derive(Clone, Copy, Debug, PartialEq, Eq)]
enum UpdateName {
    Put,
    TestAndSet,
    Append,
    Prepend,
    Increment,
    Decrement,
    Mini,
}

/// The names of commands.
#[derive(Clone, Copy, Debug, PartialEq, Eq)]
enum Name {
    Update(UpdateName),
    Read,
    Status,
}

/// Reads OBJECT VALUE, behind CLIENT NUMBER.
#[tactic(auto, unfolding(crate::specs::Commands::object_and_value))]
fn object_and_value(alloc: Global, words: &[&str]) -> Result<(ScriptObject, Items<u8>), UsageError>
    ensures { Reads (λ x. x) result (object_and_value (map (λ w. w.now) words.now)) }
{
    let object = object_at(alloc, words, 3)?;
    let value = value_at(alloc, words, 4)?;
    at_end((object, value), words, 5)
}

/// Reads OBJECT BY, behind CLIENT NUMBER.
#[tactic(auto, unfolding(crate::specs::Commands::object_and_number))]
fn object_and_number(alloc: Global, words: &[&str]) -> Result<(ScriptObject, u64), UsageError>
    ensures { Reads (λ x. x) result (object_and_number (map (λ w. w.now) words.now)) }
{
    let object = object_at(alloc, words, 3)?;
    let by = number_at(words, 4, Expected::By, 0, u64::MAX)?;
    at_end((object, by), words, 5)
}

/// Reads OBJECT VERSION VALUE, behind CLIENT NUMBER.
#[tactic(auto, unfolding(crate::specs::Commands::test_and_set_of))]
fn test_and_set_of(alloc: Global, words: &[&str]) -> Result<ScriptCommand, UsageError>
    ensures { Reads (λ x. x) result (test_and_set_of (map (λ w. w.now) words.now)) }
{
    let object = object_at(alloc, words, 3)?;
    let expect = number_at(words, 4, Expected::Version, 0, u64::MAX)?;
    let value = value_at(alloc, words, 5)?;
    let expect = Version::new(expect);
    at_end(
        ScriptCommand::TestAndSet {
            object,
            expect,
            value,
        },
        words,
        6,
    )
}

/// Reads the item that the word at a place names, if the word can stand in a line of a script.
fn item_at(alloc: Global, word: &str, place: usize) -> Result<MiniItem, UsageError>
    ensures { Reads (λ x. x) result (expect place Expected.Item (in_line item_of word.now)) }
{
    if !is_line_word(word.as_bytes()) {
        return Err(bad(place, Expected::Item));
    }
    match item_of(alloc, word.as_bytes()) {
        Ok(item) => Ok(item),
        Err(ParseError::Memory) => Err(UsageError::Memory),
        Err(ParseError::OutsideGrammar) => Err(bad(place, Expected::Item)),
    }
}

/// Reads an item from each word, the first of which stands at place 3.
fn items_of(alloc: Global, words: &[&str]) -> Result<Items<MiniItem>, UsageError>
    ensures { Reads (λ x. x) result (items_from 3 (map (λ w. w.now) words.now)) }
{
    let mut items = Vec::new(alloc);
    for (index, word) in words.iter().enumerate() {
        let item = item_at(alloc, word, index + 3)?;
        items.push(item)?;
    }
    Ok(Items::of(items))
}

/// Returns the words from place 3 on.
fn after_number<'a, 'b>(words: &'b [&'a str]) -> &'b [&'a str]
    ensures { map (λ w. w.now) result.now ≡ drop 3 (map (λ w. w.now) words.now) }
{
    if words.len() <= 3 { &[] } else { &words[3..] }
}

/// Reads the change of an update, behind CLIENT NUMBER.
#[tactic(auto, unfolding(crate::specs::Commands::change_of))]
fn change_of(alloc: Global, name: UpdateName, words: &[&str]) -> Result<ScriptCommand, UsageError>
    ensures { Reads (λ x. x) result (change_of name (map (λ w. w.now) words.now)) }
{
    match name {
        UpdateName::Put => {
            let (object, value) = object_and_value(alloc, words)?;
            Ok(ScriptCommand::Put { object, value })
        }
        UpdateName::TestAndSet => test_and_set_of(alloc, words),
        UpdateName::Append => {
            let (object, value) = object_and_value(alloc, words)?;
            Ok(ScriptCommand::Append { object, value })
        }
        UpdateName::Prepend => {
            let (object, value) = object_and_value(alloc, words)?;
            Ok(ScriptCommand::Prepend { object, value })
        }
        UpdateName::Increment => {
            let (object, by) = object_and_number(alloc, words)?;
            Ok(ScriptCommand::Increment { object, by })
        }
        UpdateName::Decrement => {
            let (object, by) = object_and_number(alloc, words)?;
            Ok(ScriptCommand::Decrement { object, by })
        }
        UpdateName::Mini => {
            let items = items_of(alloc, after_number(words))?;
            Ok(ScriptCommand::Mini { items })
        }
    }
}

/// Reads CLIENT NUMBER and a change, and returns the update for this node.
#[tactic(auto, unfolding(crate::specs::Commands::command_update))]
fn command_update(
    alloc: Global,
    node: NodeId,
    name: UpdateName,
    words: &[&str],
) -> Result<Request, UsageError>
    ensures { Reads (λ x. x) result (command_update node name (map (λ w. w.now) words.now)) }
{
    let client = number_at(words, 1, Expected::Client, 0, u64::MAX)?;
    let number = number_at(words, 2, Expected::Number, 0, u64::MAX)?;
    let change = change_of(alloc, name, words)?;
    Ok(Request::Update(UpdateLine {
        node,
        client: ClientId::new(client),
        number,
        change,
    }))
}

/// Reads MODE OBJECT.
#[tactic(auto, unfolding(crate::specs::Commands::read_of))]
fn read_of(alloc: Global, words: &[&str]) -> Result<Request, UsageError>
    ensures { Reads (λ x. x) result (read_of (map (λ w. w.now) words.now)) }
{
    let mode = mode_at(words, 1)?;
    let object = object_at(alloc, words, 2)?;
    at_end(Request::Read { mode, object }, words, 3)
}

/// Returns the command of this name.
#[tactic(auto, unfolding(crate::specs::Commands::name_of))]
fn name_of(word: &[u8]) -> Option<Name>
    ensures { result ≡ name_of word.now }
{
    if word == b"put".as_slice() {
        return Some(Name::Update(UpdateName::Put));
    }
    if word == b"tas".as_slice() {
        return Some(Name::Update(UpdateName::TestAndSet));
    }
    if word == b"append".as_slice() {
        return Some(Name::Update(UpdateName::Append));
    }
    if word == b"prepend".as_slice() {
        return Some(Name::Update(UpdateName::Prepend));
    }
    if word == b"inc".as_slice() {
        return Some(Name::Update(UpdateName::Increment));
    }
    if word == b"dec".as_slice() {
        return Some(Name::Update(UpdateName::Decrement));
    }
    if word == b"mini".as_slice() {
        return Some(Name::Update(UpdateName::Mini));
    }
    if word == b"read".as_slice() {
        return Some(Name::Read);
    }
    if word == b"status".as_slice() {
        return Some(Name::Status);
    }
    None
}

/// Returns true if the word is the name of a command.
pub(crate) fn is_command(word: &str) -> bool
    ensures { result ≡ is_some (name_of word.now) }
{
    name_of(word.as_bytes()).is_some()
}

/// Returns the command whose name stands at place 0.
fn name_at(words: &[&str]) -> Result<Name, UsageError>
    ensures { Reads (λ x. x) result (word_at Expected.Command name_of (map (λ w. w.now) words.now) 0) }
{
    let Some(word) = bytes_at(words, 0) else {
        return Err(bad(0, Expected::Command));
    };
    match name_of(word) {
        Some(name) => Ok(name),
        None => Err(bad(0, Expected::Command)),
    }
}

/// Returns the request of a command to this node: its name, and what that name asks for. Numbers,
/// objects, values, modes and items are written as in scripts: in printable ASCII without blanks.
///
/// `Bad` with the first word that is not what is expected there, or is missing; `Memory` where a
/// growth was refused.
#[tactic(auto, unfolding(crate::specs::Commands::request_of))]
pub fn request_of(alloc: Global, node: NodeId, words: &[&str]) -> Result<Request, UsageError>
    ensures { Reads (λ x. x) result (request_of node (map (λ w. w.now) words.now)) }
{
    match name_at(words)? {
        Name::Update(name) => command_update(alloc, node, name, words),
        Name::Read => read_of(alloc, words),
        Name::Status => at_end(Request::Status, words, 1),
    }
}

/// Reads CONNECTIONS SECONDS READS.
#[tactic(auto, unfolding(crate::specs::Commands::worded_load))]
fn worded_load(words: &[&str]) -> Result<BenchLoad, UsageError>
    ensures { Reads (λ x. x) result (worded_load (map (λ w. w.now) words.now)) }
{
    let usual = BenchLoad::usual();
    let connections = number_at(words, 1, Expected::Connections, 1, 1000)?;
    let seconds = number_at(words, 2, Expected::Seconds, 1, 86400)?;
    let reads = number_at(words, 3, Expected::Reads, 0, 100)?;
    let load = BenchLoad {
        connections,
        seconds,
        reads,
        keys: usual.keys,
        size: usual.size,
    };
    at_end(load, words, 4)
}

/// Reads nothing, or CONNECTIONS SECONDS READS.
#[tactic(auto, unfolding(crate::specs::Commands::load_of))]
fn load_of(words: &[&str]) -> Result<BenchLoad, UsageError>
    ensures { Reads (λ x. x) result (load_of (map (λ w. w.now) words.now)) }
{
    if words.len() <= 1 {
        return Ok(BenchLoad::usual());
    }
    worded_load(words)
}

/// Reads SECONDS, or nothing.
#[tactic(auto, unfolding(crate::specs::Commands::watch_of))]
fn watch_of(words: &[&str]) -> Result<Option<u64>, UsageError>
    ensures { Reads (λ x. x) result (watch_of (map (λ w. w.now) words.now)) }
{
    if words.len() <= 1 {
        return Ok(None);
    }
    let seconds = number_at(words, 1, Expected::Seconds, 1, 86400)?;
    at_end(Some(seconds), words, 2)
}

/// Returns the task of the words behind the options, at this node: a prompt where there are none.
///
/// `Bad` with the first word that is not what is expected there, or is missing; `Memory` where a
/// growth was refused.
#[tactic(auto, unfolding(crate::specs::Commands::task_of))]
pub(crate) fn task_of<'a>(
    alloc: Global,
    node: NodeId,
    words: &[&str],
) -> Result<Task<'a>, UsageError>
    ensures { Reads (λ x. x) result (task_of node (map (λ w. w.now) words.now)) }
{
    let Some(word) = bytes_at(words, 0) else {
        return Ok(Task::Shell);
    };
    if word == b"shell".as_slice() {
        return at_end(Task::Shell, words, 1);
    }
    if word == b"watch".as_slice() {
        return Ok(Task::Watch(watch_of(words)?));
    }
    if word == b"bench".as_slice() {
        return Ok(Task::Bench(load_of(words)?));
    }
    Ok(Task::Ask(request_of(alloc, node, words)?))
}
