//! Parses values and items of transactions on the command line of people's verbs; called by
//! `verbs`.
ghost use Rattle.std.specs.Prelude.{◌≡◌, ◌==◌, Some, option_map};
ghost use Rattle.std.specs.List.{position};
ghost use Rattle.craq_script.specs.Reading.{ParsesTo};
ghost use Rattle.craq_script.specs.Words.{cut_at};
ghost use Rattle.craq_cli.specs.VerbItems.{value_word, compare_item, read_item, write_item, verb_item};

use crate::ValueForm;
use craq_names::{ChainId, Items, Version};
use craq_script::{MiniItem, ParseError, ScriptObject, number_up_to, script_value};
use std::alloc::Global;

/// Returns the index of the first colon in the text.
fn place_of_colon(text: &[u8]) -> Option<usize>
    ensures { result ≡ position (λ x. x == 58) text.now }
{
    text.iter().position(|c| *c == b':')
}

/// Splits the text at its first colon: the bytes before it and after it. `None` if there is none.
fn cut(text: &[u8]) -> Option<(&[u8], &[u8])>
    ensures { option_map (λ x. (x.0.now, x.1.now)) result ≡ cut_at 58 text.now }
{
    match place_of_colon(text) {
        Some(place) => Some((&text[..place], &text[place + 1..])),
        None => None,
    }
}

/// Parses a value: the word's bytes, pairs of hexadecimal digits in lower case, or a number in decimal
/// digits as its 8 bytes, the highest first.
#[tactic(auto, unfolding(crate::specs::VerbItems::value_word))]
pub(crate) fn value_word(
    alloc: Global,
    form: ValueForm,
    word: &[u8],
) -> Result<Items<u8>, ParseError>
    ensures { ParsesTo (λ x. x) result (value_word form word.now) }
{
    match form {
        ValueForm::Bytes => Ok(Items::of(Vec::from_slice(alloc, word)?)),
        ValueForm::Hexadecimal => {
            let mut text = Vec::from_slice(alloc, b"0x".as_slice())?;
            text.extend_from_slice(word)?;
            script_value(alloc, text.as_slice())
        }
        ValueForm::Decimal => {
            let number = number_up_to(u64::MAX, word)?;
            let bytes = number.to_be_bytes();
            Ok(Items::of(Vec::from_slice(alloc, &bytes)?))
        }
    }
}

/// Copies the key into an object of the chain.
fn object_of(alloc: Global, chain: ChainId, key: &[u8]) -> Result<ScriptObject, ParseError>
    ensures { ParsesTo (λ x. x) result (Some (record { chain = chain; key = key.now })) }
{
    Ok(ScriptObject {
        chain,
        key: Items::of(Vec::from_slice(alloc, key)?),
    })
}

/// Parses `KEY:VERSION`, the text after `c:`.
#[tactic(auto, unfolding(crate::specs::VerbItems::compare_item))]
fn compare_item(alloc: Global, chain: ChainId, text: &[u8]) -> Result<MiniItem, ParseError>
    ensures { ParsesTo (λ x. x) result (compare_item chain text.now) }
{
    let Some((key, version)) = cut(text) else {
        return Err(ParseError::OutsideGrammar);
    };
    let version = Version::new(number_up_to(u64::MAX, version)?);
    let object = object_of(alloc, chain, key)?;
    Ok(MiniItem::Compare { object, version })
}

/// Parses `KEY`, the text after `r:`, which has no colon.
#[tactic(auto, unfolding(crate::specs::VerbItems::read_item))]
fn read_item(alloc: Global, chain: ChainId, text: &[u8]) -> Result<MiniItem, ParseError>
    ensures { ParsesTo (λ x. x) result (read_item chain text.now) }
{
    if cut(text).is_some() {
        return Err(ParseError::OutsideGrammar);
    }
    let object = object_of(alloc, chain, text)?;
    Ok(MiniItem::Read { object })
}

/// Parses `KEY:VALUE`, the text after `w:`.
#[tactic(auto, unfolding(crate::specs::VerbItems::write_item))]
fn write_item(
    alloc: Global,
    chain: ChainId,
    form: ValueForm,
    text: &[u8],
) -> Result<MiniItem, ParseError>
    ensures { ParsesTo (λ x. x) result (write_item chain form text.now) }
{
    let Some((key, value)) = cut(text) else {
        return Err(ParseError::OutsideGrammar);
    };
    let value = value_word(alloc, form, value)?;
    let object = object_of(alloc, chain, key)?;
    Ok(MiniItem::Write { object, value })
}

/// Parses an item of a transaction: `c:KEY:VERSION`, `r:KEY` or `w:KEY:VALUE`, with keys of this
/// chain.
#[tactic(auto, unfolding(crate::specs::VerbItems::verb_item))]
pub(crate) fn verb_item(
    alloc: Global,
    chain: ChainId,
    form: ValueForm,
    word: &[u8],
) -> Result<MiniItem, ParseError>
    ensures { ParsesTo (λ x. x) result (verb_item chain form word.now) }
{
    let Some((kind, text)) = cut(word) else {
        return Err(ParseError::OutsideGrammar);
    };
    if kind == b"c".as_slice() {
        return compare_item(alloc, chain, text);
    }
    if kind == b"r".as_slice() {
        return read_item(alloc, chain, text);
    }
    if kind == b"w".as_slice() {
        return write_item(alloc, chain, form, text);
    }
    Err(ParseError::OutsideGrammar)
}
