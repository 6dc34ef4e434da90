//! Parses numbers, objects and values from words; called by `reading` and `words`, and by
//! `craq_cli`.
ghost use Rattle.std.specs.Prelude.{◌≡◌, ◌==◌, ◌<◌, ◌≤◌, ◌^◌, ◌+◌, ◌*◌, ◌-◌, IfOk, IfSome, SomeIff, option_map};
ghost use Rattle.std.specs.List.{list_all, position};
ghost use Rattle.craq_script.specs.Reading.{ParsesTo};
ghost use Rattle.craq_script.specs.Words.{cut_at, is_digit, is_decimal, number_behind, number_up_to, is_key_character, key_of, script_object, hexadecimal, hexadecimal_bytes, script_value, mode_of, compare_of, read_of, write_of, item_of};

use crate::{MiniItem, ParseError, ScriptObject};
use craq_commands::ReadMode;
use craq_names::{ChainId, Items, Version};
use std::alloc::Global;

/// The greatest id of a chain: the greatest number of 16 bits.
const GREATEST_CHAIN: u64 = 65535;

/// The greatest id of a node: the greatest number of 32 bits.
pub const GREATEST_NODE: u64 = 4294967295;

/// Returns the index of the first `at` in the text.
fn place_of(text: &[u8], at: u8) -> Option<usize>
    ensures { result ≡ position (λ x. x == at) text.now }
{
    text.iter().position(|c| *c == at)
}

/// Splits the text at the first `at`: the bytes before it and after it. `None` if there is no `at`.
pub fn cut(text: &[u8], at: u8) -> Option<(&[u8], &[u8])>
    ensures { option_map (λ x. (x.0.now, x.1.now)) result ≡ cut_at at text.now }
{
    match place_of(text, at) {
        Some(place) => Some((&text[..place], &text[place + 1..])),
        None => None,
    }
}

/// Returns true if each character is a digit.
fn are_digits(word: &[u8]) -> bool
    ensures { result ≡ list_all is_digit word.now }
{
    word.iter().all(|c| b'0' <= *c && *c <= b'9')
}

/// Returns true for `0` and for decimal digits without a leading zero.
fn is_decimal(word: &[u8]) -> bool
    ensures { result ≡ is_decimal word.now }
{
    if word.is_empty() || !are_digits(word) {
        return false;
    }
    word.len() == 1 || word[0] != b'0'
}

/// Parses a word of decimal digits as a number of at most `most`; `OutsideGrammar` for any other
/// word.
#[tactic(auto, unfolding(crate::specs::Words::number_up_to))]
pub fn number_up_to(most: u64, word: &[u8]) -> Result<u64, ParseError>
    ensures value { ParsesTo (λ n. n) result (number_up_to most word.now) }
    ensures bound { IfOk result (λ n. n ≤ most) }
{
    if !is_decimal(word) {
        return Err(ParseError::OutsideGrammar);
    }
    let Some(number) = decimal_value(word) else {
        return Err(ParseError::OutsideGrammar);
    };
    if number <= most {
        Ok(number)
    } else {
        Err(ParseError::OutsideGrammar)
    }
}

/// Appends a decimal digit to the number; `None` if the result does not fit in 64 bits.
fn with_digit(number: u64, digit: u8) -> Option<u64>
    ensures { SomeIff result (10 * number + (digit - 48) < 2 ^ 64) (10 * number + (digit - 48)) }
{
    let ones = u64::from(digit.saturating_sub(b'0'));
    match number.checked_mul(10) {
        Some(tens) => tens.checked_add(ones),
        None => None,
    }
}

/// Returns the number that the decimal digits stand for; `None` if it does not fit in 64 bits.
fn decimal_value(digits: &[u8]) -> Option<u64>
    ensures { SomeIff result (number_behind 0 digits.now < 2 ^ 64) (number_behind 0 digits.now) }
{
    let mut number: u64 = 0;
    for digit in digits {
        match with_digit(number, *digit) {
            Some(longer) => number = longer,
            None => return None,
        }
    }
    Some(number)
}

fn is_key_character(c: u8) -> bool
    ensures { result ≡ is_key_character c }
{
    (b'0' <= c && c <= b'9')
        || (b'A' <= c && c <= b'Z')
        || (b'a' <= c && c <= b'z')
        || c == b'_'
        || c == b'-'
}

/// Returns true if each character is allowed in keys.
fn are_key_characters(word: &[u8]) -> bool
    ensures { result ≡ list_all is_key_character word.now }
{
    word.iter().all(|c| is_key_character(*c))
}

/// Copies the word if it is one or more characters allowed in keys; `OutsideGrammar` otherwise.
#[tactic(auto, unfolding(crate::specs::Words::key_of))]
fn key_of(alloc: Global, word: &[u8]) -> Result<Items<u8>, ParseError>
    ensures { ParsesTo (λ x. x) result (key_of word.now) }
{
    if word.is_empty() || !are_key_characters(word) {
        return Err(ParseError::OutsideGrammar);
    }
    Ok(Items::of(Vec::from_slice(alloc, word)?))
}

/// Parses the word as an object: `KEY` of chain 0, or `CHAIN/KEY`.
#[tactic(auto, unfolding(crate::specs::Words::script_object))]
pub fn script_object(alloc: Global, word: &[u8]) -> Result<ScriptObject, ParseError>
    ensures { ParsesTo (λ x. x) result (script_object word.now) }
{
    match cut(word, b'/') {
        Some((chain, key)) => {
            let chain = number_up_to(GREATEST_CHAIN, chain)?;
            let key = key_of(alloc, key)?;
            Ok(ScriptObject {
                chain: ChainId::new(chain as u16),
                key,
            })
        }
        None => {
            let key = key_of(alloc, word)?;
            Ok(ScriptObject {
                chain: ChainId::new(0),
                key,
            })
        }
    }
}

/// Returns the number of a lower-case hexadecimal digit, or `None` for any other character.
fn hexadecimal(c: u8) -> Option<u8>
    ensures value { result ≡ hexadecimal c }
    ensures bound { IfSome result (λ n. n < 16) }
{
    if b'0' <= c && c <= b'9' {
        return Some(c - b'0');
    }
    if b'a' <= c && c <= b'f' {
        return Some(c - 87);
    }
    None
}

/// Decodes an even number of lower-case hexadecimal digits into bytes.
fn hexadecimal_bytes(alloc: Global, digits: &[u8]) -> Result<Items<u8>, ParseError>
    ensures { ParsesTo (λ x. x) result (hexadecimal_bytes digits.now) }
{
    let mut bytes = Vec::new(alloc);
    let mut rest = digits;
    while !rest.is_empty() {
        if rest.len() == 1 {
            return Err(ParseError::OutsideGrammar);
        }
        let Some(high) = hexadecimal(rest[0]) else {
            return Err(ParseError::OutsideGrammar);
        };
        let Some(low) = hexadecimal(rest[1]) else {
            return Err(ParseError::OutsideGrammar);
        };
        bytes.push(16 * high + low)?;
        rest = rest.split_at(2).1;
    }
    Ok(Items::of(bytes))
}

/// Parses a VALUE into its bytes.
#[tactic(auto, unfolding(crate::specs::Words::script_value))]
pub fn script_value(alloc: Global, word: &[u8]) -> Result<Items<u8>, ParseError>
    ensures { ParsesTo (λ x. x) result (script_value word.now) }
{
    if let Some(digits) = word.strip_prefix(b"0x".as_slice()) {
        return hexadecimal_bytes(alloc, digits);
    }
    if word.is_empty() {
        return Err(ParseError::OutsideGrammar);
    }
    Ok(Items::of(Vec::from_slice(alloc, word)?))
}

/// Parses the mode of a read.
#[tactic(auto, unfolding(crate::specs::Words::mode_of))]
pub fn mode_of(word: &[u8]) -> Result<ReadMode, ParseError>
    ensures { ParsesTo (λ x. x) result (mode_of word.now) }
{
    if word == b"strong".as_slice() {
        return Ok(ReadMode::Strong);
    }
    if word == b"eventual".as_slice() {
        return Ok(ReadMode::Eventual);
    }
    if let Some(bound) = word.strip_prefix(b"bounded:".as_slice()) {
        let bound = number_up_to(GREATEST_NODE, bound)?;
        return Ok(ReadMode::Bounded(bound as u32));
    }
    Err(ParseError::OutsideGrammar)
}

/// Parses `OBJECT:VERSION`, the text after `c:`.
#[tactic(auto, unfolding(crate::specs::Words::compare_of))]
fn compare_of(alloc: Global, text: &[u8]) -> Result<MiniItem, ParseError>
    ensures { ParsesTo (λ x. x) result (compare_of text.now) }
{
    let Some((object, version)) = cut(text, b':') else {
        return Err(ParseError::OutsideGrammar);
    };
    let object = script_object(alloc, object)?;
    let version = number_up_to(u64::MAX, version)?;
    Ok(MiniItem::Compare {
        object,
        version: Version::new(version),
    })
}

/// Parses `OBJECT`, the text after `r:`.
#[tactic(auto, unfolding(crate::specs::Words::read_of))]
fn read_of(alloc: Global, text: &[u8]) -> Result<MiniItem, ParseError>
    ensures { ParsesTo (λ x. x) result (read_of text.now) }
{
    let object = script_object(alloc, text)?;
    Ok(MiniItem::Read { object })
}

/// Parses `OBJECT:VALUE`, the text after `w:`.
#[tactic(auto, unfolding(crate::specs::Words::write_of))]
fn write_of(alloc: Global, text: &[u8]) -> Result<MiniItem, ParseError>
    ensures { ParsesTo (λ x. x) result (write_of text.now) }
{
    let Some((object, value)) = cut(text, b':') else {
        return Err(ParseError::OutsideGrammar);
    };
    let object = script_object(alloc, object)?;
    let value = script_value(alloc, value)?;
    Ok(MiniItem::Write { object, value })
}

/// Parses an item of a transaction.
#[tactic(auto, unfolding(crate::specs::Words::item_of))]
pub fn item_of(alloc: Global, word: &[u8]) -> Result<MiniItem, ParseError>
    ensures { ParsesTo (λ x. x) result (item_of word.now) }
{
    let Some((kind, text)) = cut(word, b':') else {
        return Err(ParseError::OutsideGrammar);
    };
    if kind == b"c".as_slice() {
        return compare_of(alloc, text);
    }
    if kind == b"r".as_slice() {
        return read_of(alloc, text);
    }
    if kind == b"w".as_slice() {
        return write_of(alloc, text);
    }
    Err(ParseError::OutsideGrammar)
}
