//! Parses the words of a line into a `ScriptLine`, kind by kind; called by `script`.
ghost use Rattle.std.specs.Prelude.{◌≡◌, map};
ghost use Rattle.craq_script.specs.Reading.{ParsesTo};
ghost use Rattle.craq_script.specs.Words.{greatest_node};
ghost use Rattle.craq_script.specs.Grammar.{number_alone, test_and_set_of, items_of, change_of, line_update, read_of, line_of_kind, line_of_words};

use crate::encoding::{GREATEST_NODE, item_of, mode_of};
use crate::words::{
    at_end, last_number, last_value, next_number, next_object, next_word, object_and_number,
    object_and_value,
};
use crate::{MiniItem, ParseError, ScriptCommand, ScriptLine, UpdateLine};
use craq_names::{ClientId, Items, NodeId, Version};
use std::alloc::Global;

/// Parses OBJECT VERSION VALUE.
#[tactic(auto, unfolding(crate::specs::Grammar::test_and_set_of))]
fn test_and_set_of(alloc: Global, words: &[&[u8]]) -> Result<ScriptCommand, ParseError>
    ensures { ParsesTo (λ x. x) result (test_and_set_of (map (λ w. w.now) words.now)) }
{
    let (object, words) = next_object(alloc, words)?;
    let (expect, words) = next_number(u64::MAX, words)?;
    let value = last_value(alloc, words)?;
    Ok(ScriptCommand::TestAndSet {
        object,
        expect: Version::new(expect),
        value,
    })
}

/// Parses each word as an item of a transaction.
fn items_of(alloc: Global, words: &[&[u8]]) -> Result<Items<MiniItem>, ParseError>
    ensures { ParsesTo (λ x. x) result (items_of (map (λ w. w.now) words.now)) }
{
    let mut items = Vec::new(alloc);
    for word in words {
        let item = item_of(alloc, *word)?;
        items.push(item)?;
    }
    Ok(Items::of(items))
}

/// Parses a change from the first word of its line and the words after NUMBER.
#[tactic(auto, unfolding(crate::specs::Grammar::change_of))]
fn change_of(alloc: Global, kind: &[u8], words: &[&[u8]]) -> Result<ScriptCommand, ParseError>
    ensures { ParsesTo (λ x. x) result (change_of kind.now (map (λ w. w.now) words.now)) }
{
    if kind == b"put".as_slice() {
        let (object, value) = object_and_value(alloc, words)?;
        return Ok(ScriptCommand::Put { object, value });
    }
    if kind == b"append".as_slice() {
        let (object, value) = object_and_value(alloc, words)?;
        return Ok(ScriptCommand::Append { object, value });
    }
    if kind == b"prepend".as_slice() {
        let (object, value) = object_and_value(alloc, words)?;
        return Ok(ScriptCommand::Prepend { object, value });
    }
    if kind == b"tas".as_slice() {
        return test_and_set_of(alloc, words);
    }
    if kind == b"inc".as_slice() {
        let (object, by) = object_and_number(alloc, words)?;
        return Ok(ScriptCommand::Increment { object, by });
    }
    if kind == b"dec".as_slice() {
        let (object, by) = object_and_number(alloc, words)?;
        return Ok(ScriptCommand::Decrement { object, by });
    }
    if kind == b"mini".as_slice() {
        let items = items_of(alloc, words)?;
        return Ok(ScriptCommand::Mini { items });
    }
    Err(ParseError::OutsideGrammar)
}

/// Parses NODE CLIENT NUMBER and a change, given the first word of the line.
#[tactic(auto, unfolding(crate::specs::Grammar::line_update))]
fn line_update(alloc: Global, kind: &[u8], words: &[&[u8]]) -> Result<ScriptLine, ParseError>
    ensures { ParsesTo (λ x. x) result (line_update kind.now (map (λ w. w.now) words.now)) }
{
    let (node, words) = next_number(GREATEST_NODE, words)?;
    let (client, words) = next_number(u64::MAX, words)?;
    let (number, words) = next_number(u64::MAX, words)?;
    let change = change_of(alloc, kind, words)?;
    let update = UpdateLine {
        node: NodeId::new(node as u32),
        client: ClientId::new(client),
        number,
        change,
    };
    Ok(ScriptLine::Update { update })
}

/// Parses NODE MODE OBJECT.
#[tactic(auto, unfolding(crate::specs::Grammar::read_of))]
fn read_of(alloc: Global, words: &[&[u8]]) -> Result<ScriptLine, ParseError>
    ensures { ParsesTo (λ x. x) result (read_of (map (λ w. w.now) words.now)) }
{
    let (node, words) = next_number(GREATEST_NODE, words)?;
    let (word, words) = next_word(words)?;
    let mode = mode_of(word)?;
    let (object, words) = next_object(alloc, words)?;
    let node = NodeId::new(node as u32);
    at_end(ScriptLine::Read { node, mode, object }, words)
}

/// Parses NODE, the only word.
#[tactic(auto, unfolding(crate::specs::Grammar::number_alone))]
fn node_of(words: &[&[u8]]) -> Result<NodeId, ParseError>
    ensures { ParsesTo (λ n. n) result (number_alone greatest_node (map (λ w. w.now) words.now)) }
{
    let node = last_number(GREATEST_NODE, words)?;
    Ok(NodeId::new(node as u32))
}

/// Parses a line from its first word and the words after it.
#[tactic(auto, unfolding(crate::specs::Grammar::line_of_kind))]
fn line_of_kind(alloc: Global, kind: &[u8], words: &[&[u8]]) -> Result<ScriptLine, ParseError>
    ensures { ParsesTo (λ x. x) result (line_of_kind kind.now (map (λ w. w.now) words.now)) }
{
    if kind == b"read".as_slice() {
        return read_of(alloc, words);
    }
    if kind == b"deliver".as_slice() {
        let message = last_number(u64::MAX, words)?;
        return Ok(ScriptLine::Deliver { message });
    }
    if kind == b"tick".as_slice() {
        let node = node_of(words)?;
        return Ok(ScriptLine::Tick { node });
    }
    if kind == b"stop".as_slice() {
        let node = node_of(words)?;
        return Ok(ScriptLine::Stop { node });
    }
    if kind == b"remove".as_slice() {
        let node = node_of(words)?;
        return Ok(ScriptLine::Remove { node });
    }
    if kind == b"join".as_slice() {
        let node = node_of(words)?;
        return Ok(ScriptLine::Join { node });
    }
    if kind == b"explain".as_slice() {
        return at_end(ScriptLine::Explain, words);
    }
    line_update(alloc, kind, words)
}

/// Parses a line from its words.
#[tactic(auto, unfolding(crate::specs::Grammar::line_of_words))]
pub(crate) fn line_of_words(alloc: Global, words: &[&[u8]]) -> Result<ScriptLine, ParseError>
    ensures { ParsesTo (λ x. x) result (line_of_words (map (λ w. w.now) words.now)) }
{
    let (kind, words) = next_word(words)?;
    line_of_kind(alloc, kind, words)
}
