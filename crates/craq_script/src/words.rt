//! Parses the next word of a line as what the grammar needs there; called by `reading`.
ghost use Rattle.std.specs.Prelude.{◌≡◌, ◌≤◌, map, IfOk};
ghost use Rattle.craq_script.specs.Reading.{ParsesTo};
ghost use Rattle.craq_script.specs.Grammar.{next, at_the_end, number_at, number_alone, object_at, value_last, object_and_value, object_and_number};

use crate::encoding::{number_up_to, script_object, script_value};
use crate::{ParseError, ScriptObject};
use craq_names::Items;
use std::alloc::Global;

/// Returns the first word and the words after it.
pub(crate) fn next_word<'a, 'b>(
    words: &'b [&'a [u8]],
) -> Result<(&'a [u8], &'b [&'a [u8]]), ParseError>
    ensures { ParsesTo (λ x. (x.0.now, map (λ w. w.now) x.1.now)) result (next (map (λ w. w.now) words.now)) }
{
    match words.split_first() {
        Some((word, words)) => Ok((*word, words)),
        None => Err(ParseError::OutsideGrammar),
    }
}

/// Returns the value if no word is left.
pub(crate) fn at_end<T: Drop>(value: T, words: &[&[u8]]) -> Result<T, ParseError>
    ensures { ParsesTo (λ x. x) result (at_the_end value (map (λ w. w.now) words.now)) }
{
    if words.is_empty() {
        Ok(value)
    } else {
        Err(ParseError::OutsideGrammar)
    }
}

/// Parses the next word as a number of at most `most`. Returns it and the words after it.
#[tactic(auto, unfolding(crate::specs::Grammar::number_at))]
pub(crate) fn next_number<'a, 'b>(
    most: u64,
    words: &'b [&'a [u8]],
) -> Result<(u64, &'b [&'a [u8]]), ParseError>
    ensures value { ParsesTo (λ x. (x.0, map (λ w. w.now) x.1.now)) result (number_at most (map (λ w. w.now) words.now)) }
    ensures bound { IfOk result (λ x. x.0 ≤ most) }
{
    let (word, words) = next_word(words)?;
    let number = number_up_to(most, word)?;
    Ok((number, words))
}

/// Parses the only word as a number of at most `most`.
#[tactic(auto, unfolding(crate::specs::Grammar::number_alone))]
pub(crate) fn last_number(most: u64, words: &[&[u8]]) -> Result<u64, ParseError>
    ensures value { ParsesTo (λ n. n) result (number_alone most (map (λ w. w.now) words.now)) }
    ensures bound { IfOk result (λ n. n ≤ most) }
{
    let (number, words) = next_number(most, words)?;
    at_end(number, words)
}

/// Parses the next word as an object. Returns it and the words after it.
#[tactic(auto, unfolding(crate::specs::Grammar::object_at))]
pub(crate) fn next_object<'a, 'b>(
    alloc: Global,
    words: &'b [&'a [u8]],
) -> Result<(ScriptObject, &'b [&'a [u8]]), ParseError>
    ensures { ParsesTo (λ x. (x.0, map (λ w. w.now) x.1.now)) result (object_at (map (λ w. w.now) words.now)) }
{
    let (word, words) = next_word(words)?;
    let object = script_object(alloc, word)?;
    Ok((object, words))
}

/// Parses the only word as a VALUE. Returns its bytes.
#[tactic(auto, unfolding(crate::specs::Grammar::value_last))]
pub(crate) fn last_value(alloc: Global, words: &[&[u8]]) -> Result<Items<u8>, ParseError>
    ensures { ParsesTo (λ x. x) result (value_last (map (λ w. w.now) words.now)) }
{
    let (word, words) = next_word(words)?;
    let value = script_value(alloc, word)?;
    at_end(value, words)
}

/// Parses OBJECT VALUE.
#[tactic(auto, unfolding(crate::specs::Grammar::object_and_value))]
pub(crate) fn object_and_value(
    alloc: Global,
    words: &[&[u8]],
) -> Result<(ScriptObject, Items<u8>), ParseError>
    ensures { ParsesTo (λ x. x) result (object_and_value (map (λ w. w.now) words.now)) }
{
    let (object, words) = next_object(alloc, words)?;
    let value = last_value(alloc, words)?;
    Ok((object, value))
}

/// Parses OBJECT and a number of 64 bits.
#[tactic(auto, unfolding(crate::specs::Grammar::object_and_number))]
pub(crate) fn object_and_number(
    alloc: Global,
    words: &[&[u8]],
) -> Result<(ScriptObject, u64), ParseError>
    ensures { ParsesTo (λ x. x) result (object_and_number (map (λ w. w.now) words.now)) }
{
    let (object, words) = next_object(alloc, words)?;
    let (number, words) = next_number(u64::MAX, words)?;
    at_end((object, number), words)
}
