//! Parses the words of a verb for people, as `set KEY VALUE`; called by `craq`.
ghost use Rattle.std.specs.Prelude.{◌≡◌, ◌-◌, ◌^◌, map, drop, option_map, slice_get};
ghost use Rattle.craq_script.specs.Reading.{ParsesTo};
ghost use Rattle.craq_cli.specs.Commands.{Reads, expect, word_at, at_end};
ghost use Rattle.craq_cli.specs.Numbers.{number_between};
ghost use Rattle.craq_cli.specs.VerbItems.{value_word, verb_item};
ghost use Rattle.craq_cli.specs.Verbs.{key_word, by_of, object_and_value, compare_of, count_of, items_from, change_of, get_of, ask_of, verb_name, is_verb_name, meaningless_of, meaningless_options, verb_of};

use crate::numbers::number_between;
use crate::verb_items::{value_word, verb_item};
use crate::words::bad;
use crate::{Expected, Request, UsageError, Verb, VerbContext};
use craq_names::{Items, NodeId, Version};
use craq_script::{MiniItem, ParseError, ScriptCommand, ScriptObject, UpdateLine};
use std::alloc::Global;

/// The names of verbs that update.
#[derive(Clone, Copy, Debug, PartialEq, Eq)]
enum VerbUpdate {
    Set,
    CompareAndSet,
    Append,
    Prepend,
    Add,
    Subtract,
    Transaction,
}

/// The names of verbs.
#[derive(Clone, Copy, Debug, PartialEq, Eq)]
enum VerbName {
    Update(VerbUpdate),
    Get,
    Members,
    Health,
}

/// Returns the word at a place, if there is one.
fn word_at<'a>(words: &[&'a [u8]], place: usize) -> Option<&'a [u8]>
    ensures { option_map (λ w. w.now) result ≡ slice_get (map (λ w. w.now) words.now) place }
{
    match words.get(place) {
        Some(word) => Some(*word),
        None => None,
    }
}

/// Returns the value if no word stands at the place.
fn at_end<T: Drop>(value: T, words: &[&[u8]], place: usize) -> Result<T, UsageError>
    ensures { Reads (λ x. x) result (at_end value (map (λ w. w.now) words.now) place) }
{
    if words.len() <= place {
        Ok(value)
    } else {
        Err(bad(place, Expected::End))
    }
}

/// Parses the number at a place.
fn number_at(words: &[&[u8]], place: usize, expected: Expected) -> Result<u64, UsageError>
    ensures { Reads (λ n. n) result (word_at expected (number_between 0 (2 ^ 64 - 1)) (map (λ w. w.now) words.now) place) }
{
    let Some(word) = word_at(words, place) else {
        return Err(bad(place, expected));
    };
    match number_between(0, u64::MAX, word) {
        Ok(number) => Ok(number),
        Err(ParseError::Memory) => Err(UsageError::Memory),
        Err(ParseError::OutsideGrammar) => Err(bad(place, expected)),
    }
}

/// Returns the object whose key is the word at place 1.
fn key_at(alloc: Global, context: &VerbContext, words: &[&[u8]]) -> Result<ScriptObject, UsageError>
    ensures { Reads (λ x. x) result (word_at Expected.Key (key_word context.now.chain) (map (λ w. w.now) words.now) 1) }
{
    let Some(word) = word_at(words, 1) else {
        return Err(bad(1, Expected::Key));
    };
    Ok(ScriptObject {
        chain: context.chain,
        key: Items::of(Vec::from_slice(alloc, word)?),
    })
}

/// Parses the value at a place.
fn value_at(
    alloc: Global,
    context: &VerbContext,
    words: &[&[u8]],
    place: usize,
) -> Result<Items<u8>, UsageError>
    ensures { Reads (λ x. x) result (word_at Expected.VerbValue (value_word context.now.form) (map (λ w. w.now) words.now) place) }
{
    let Some(word) = word_at(words, place) else {
        return Err(bad(place, Expected::VerbValue));
    };
    match value_word(alloc, context.form, word) {
        Ok(value) => Ok(value),
        Err(ParseError::Memory) => Err(UsageError::Memory),
        Err(ParseError::OutsideGrammar) => Err(bad(place, Expected::VerbValue)),
    }
}

/// Parses `KEY VALUE`.
#[tactic(auto, unfolding(crate::specs::Verbs::object_and_value))]
fn object_and_value(
    alloc: Global,
    context: &VerbContext,
    words: &[&[u8]],
) -> Result<(ScriptObject, Items<u8>), UsageError>
    ensures { Reads (λ x. x) result (object_and_value context.now (map (λ w. w.now) words.now)) }
{
    let object = key_at(alloc, context, words)?;
    let value = value_at(alloc, context, words, 2)?;
    at_end((object, value), words, 3)
}

/// Parses `KEY VERSION VALUE`.
#[tactic(auto, unfolding(crate::specs::Verbs::compare_of))]
fn compare_of(
    alloc: Global,
    context: &VerbContext,
    words: &[&[u8]],
) -> Result<ScriptCommand, UsageError>
    ensures { Reads (λ x. x) result (compare_of context.now (map (λ w. w.now) words.now)) }
{
    let object = key_at(alloc, context, words)?;
    let expect = Version::new(number_at(words, 2, Expected::Version)?);
    let value = value_at(alloc, context, words, 3)?;
    at_end(
        ScriptCommand::TestAndSet {
            object,
            expect,
            value,
        },
        words,
        4,
    )
}

/// Parses `[BY]` at place 2; 1 if no word stands there.
fn by_of(words: &[&[u8]]) -> Result<u64, UsageError>
    ensures { Reads (λ n. n) result (by_of (map (λ w. w.now) words.now)) }
{
    if words.len() <= 2 {
        return Ok(1);
    }
    number_at(words, 2, Expected::By)
}

/// Parses `KEY [BY]`.
#[tactic(auto, unfolding(crate::specs::Verbs::count_of))]
fn count_of(
    alloc: Global,
    context: &VerbContext,
    words: &[&[u8]],
) -> Result<(ScriptObject, u64), UsageError>
    ensures { Reads (λ x. x) result (count_of context.now (map (λ w. w.now) words.now)) }
{
    let object = key_at(alloc, context, words)?;
    let by = by_of(words)?;
    at_end((object, by), words, 3)
}

/// Parses the item of a transaction at a place.
fn item_at(
    alloc: Global,
    context: &VerbContext,
    word: &[u8],
    place: usize,
) -> Result<MiniItem, UsageError>
    ensures { Reads (λ x. x) result (expect place Expected.VerbItem (verb_item context.now.chain context.now.form word.now)) }
{
    match verb_item(alloc, context.chain, context.form, word) {
        Ok(item) => Ok(item),
        Err(ParseError::Memory) => Err(UsageError::Memory),
        Err(ParseError::OutsideGrammar) => Err(bad(place, Expected::VerbItem)),
    }
}

/// Parses an item of each word, the first of which stands at place 1.
fn items_of(
    alloc: Global,
    context: &VerbContext,
    words: &[&[u8]],
) -> Result<Items<MiniItem>, UsageError>
    ensures { Reads (λ x. x) result (items_from context.now 1 (map (λ w. w.now) words.now)) }
{
    let mut items = Vec::new(alloc);
    for (index, word) in words.iter().enumerate() {
        let item = item_at(alloc, context, word, index + 1)?;
        items.push(item)?;
    }
    Ok(Items::of(items))
}

/// Returns the words after the verb.
fn after_verb<'a, 'b>(words: &'b [&'a [u8]]) -> &'b [&'a [u8]]
    ensures { map (λ w. w.now) result.now ≡ drop 1 (map (λ w. w.now) words.now) }
{
    if words.len() <= 1 { &[] } else { &words[1..] }
}

/// Parses the change of an update.
#[tactic(auto, unfolding(crate::specs::Verbs::change_of))]
fn change_of(
    alloc: Global,
    context: &VerbContext,
    name: VerbUpdate,
    words: &[&[u8]],
) -> Result<ScriptCommand, UsageError>
    ensures { Reads (λ x. x) result (change_of context.now name (map (λ w. w.now) words.now)) }
{
    match name {
        VerbUpdate::Set => {
            let (object, value) = object_and_value(alloc, context, words)?;
            Ok(ScriptCommand::Put { object, value })
        }
        VerbUpdate::Append => {
            let (object, value) = object_and_value(alloc, context, words)?;
            Ok(ScriptCommand::Append { object, value })
        }
        VerbUpdate::Prepend => {
            let (object, value) = object_and_value(alloc, context, words)?;
            Ok(ScriptCommand::Prepend { object, value })
        }
        VerbUpdate::CompareAndSet => compare_of(alloc, context, words),
        VerbUpdate::Add => {
            let (object, by) = count_of(alloc, context, words)?;
            Ok(ScriptCommand::Increment { object, by })
        }
        VerbUpdate::Subtract => {
            let (object, by) = count_of(alloc, context, words)?;
            Ok(ScriptCommand::Decrement { object, by })
        }
        VerbUpdate::Transaction => {
            let items = items_of(alloc, context, after_verb(words))?;
            Ok(ScriptCommand::Mini { items })
        }
    }
}

/// Parses an update. Its node is 0 until the caller chooses one.
#[tactic(auto, unfolding(crate::specs::Verbs::ask_of))]
fn ask_of(
    alloc: Global,
    context: &VerbContext,
    name: VerbUpdate,
    words: &[&[u8]],
) -> Result<Verb, UsageError>
    ensures { Reads (λ x. x) result (ask_of context.now name (map (λ w. w.now) words.now)) }
{
    let change = change_of(alloc, context, name, words)?;
    Ok(Verb::Ask(Request::Update(UpdateLine {
        node: NodeId::new(0),
        client: context.client,
        number: context.number,
        change,
    })))
}

/// Parses `KEY`, the words of a read.
#[tactic(auto, unfolding(crate::specs::Verbs::get_of))]
fn get_of(alloc: Global, context: &VerbContext, words: &[&[u8]]) -> Result<Verb, UsageError>
    ensures { Reads (λ x. x) result (get_of context.now (map (λ w. w.now) words.now)) }
{
    let object = key_at(alloc, context, words)?;
    let request = Request::Read {
        mode: context.mode,
        object,
    };
    at_end(Verb::Ask(request), words, 2)
}

/// Returns the verb of this name; `None` if there is none.
#[tactic(auto, unfolding(crate::specs::Verbs::verb_name))]
fn verb_name(word: &[u8]) -> Option<VerbName>
    ensures { result ≡ verb_name word.now }
{
    if word == b"set".as_slice() {
        return Some(VerbName::Update(VerbUpdate::Set));
    }
    if word == b"get".as_slice() {
        return Some(VerbName::Get);
    }
    if word == b"cas".as_slice() {
        return Some(VerbName::Update(VerbUpdate::CompareAndSet));
    }
    if word == b"append".as_slice() {
        return Some(VerbName::Update(VerbUpdate::Append));
    }
    if word == b"prepend".as_slice() {
        return Some(VerbName::Update(VerbUpdate::Prepend));
    }
    if word == b"add".as_slice() {
        return Some(VerbName::Update(VerbUpdate::Add));
    }
    if word == b"sub".as_slice() {
        return Some(VerbName::Update(VerbUpdate::Subtract));
    }
    if word == b"txn".as_slice() {
        return Some(VerbName::Update(VerbUpdate::Transaction));
    }
    if word == b"members".as_slice() {
        return Some(VerbName::Members);
    }
    if word == b"health".as_slice() {
        return Some(VerbName::Health);
    }
    None
}

impl VerbName {
    /// Returns the options that have no meaning for this verb.
    const fn meaningless<'a>(self) -> &'a [&'a str]
        ensures { map (λ n. n.now) result.now ≡ meaningless_of self }
    {
        match self {
            VerbName::Update(VerbUpdate::Add | VerbUpdate::Subtract) => {
                &["mode", "hex", "decimal"]
            }
            VerbName::Update(_) => &["mode"],
            VerbName::Get => &["client", "number"],
            VerbName::Members => &[
                "node",
                "chain",
                "mode",
                "client",
                "number",
                "hex",
                "decimal",
                "print-pass",
            ],
            VerbName::Health => &["node", "mode", "number", "hex", "decimal", "print-pass"],
        }
    }
}

/// Returns the options that have no meaning for the verb of this name; none if there is no such verb.
pub(crate) fn meaningless_options<'a>(verb: &str) -> &'a [&'a str]
    ensures { map (λ n. n.now) result.now ≡ meaningless_options verb.now }
{
    match verb_name(verb.as_bytes()) {
        Some(name) => name.meaningless(),
        None => &[],
    }
}

/// Returns true if the word is the name of a verb for people.
pub fn is_verb(word: &str) -> bool
    ensures { result ≡ is_verb_name word.now }
{
    verb_name(word.as_bytes()).is_some()
}

/// Parses the verb whose name stands at place 0.
fn verb_name_at(words: &[&[u8]]) -> Result<VerbName, UsageError>
    ensures { Reads (λ x. x) result (word_at Expected.Verb verb_name (map (λ w. w.now) words.now) 0) }
{
    let Some(word) = word_at(words, 0) else {
        return Err(bad(0, Expected::Verb));
    };
    match verb_name(word) {
        Some(name) => Ok(name),
        None => Err(bad(0, Expected::Verb)),
    }
}

/// Parses the words of a verb. A key has any bytes; a value is as `context.form` says. Limits of
/// keys, values and transactions are not checked here.
///
/// `Bad` with the first word that is not what is expected there, or is missing; `Memory` when out
/// of memory.
#[tactic(auto, unfolding(crate::specs::Verbs::verb_of))]
pub fn verb_of(alloc: Global, context: &VerbContext, words: &[&[u8]]) -> Result<Verb, UsageError>
    ensures { Reads (λ x. x) result (verb_of context.now (map (λ w. w.now) words.now)) }
{
    match verb_name_at(words)? {
        VerbName::Update(name) => ask_of(alloc, context, name, words),
        VerbName::Get => get_of(alloc, context, words),
        VerbName::Members => at_end(Verb::Members, words, 1),
        VerbName::Health => at_end(Verb::Health, words, 1),
    }
}
