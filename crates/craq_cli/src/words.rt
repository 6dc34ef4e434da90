//! Reads the word at a place of a command as a number, an object or another value; for `commands`.
ghost use Rattle.std.specs.Prelude.{◌≡◌, ◌≤◌, map, option_map, slice_get, IfOk};
ghost use Rattle.std.specs.List.{list_all};
ghost use Rattle.craq_script.specs.Words.{script_object, script_value, mode_of};
ghost use Rattle.craq_cli.specs.Commands.{Reads, is_printable, in_line, word_at, at_end};
ghost use Rattle.craq_cli.specs.Numbers.{number_between};

use crate::numbers::number_between;
use crate::{BadWord, Expected, UsageError};
use craq_commands::ReadMode;
use craq_names::Items;
use craq_script::{ParseError, ScriptObject, mode_of, script_object, script_value};
use std::alloc::Global;

/// Returns the error of a word at a place where another is expected.
pub(crate) const fn bad(place: usize, expected: Expected) -> UsageError
    ensures { result ≡ UsageError.Bad (record { place = place; expected = expected }) }
{
    UsageError::Bad(BadWord { place, expected })
}

/// Returns the bytes of the word at a place, or `None` if there is no word.
pub(crate) fn bytes_at<'a>(words: &[&'a str], place: usize) -> Option<&'a [u8]>
    ensures { option_map (λ w. w.now) result ≡ slice_get (map (λ w. w.now) words.now) place }
{
    match words.get(place) {
        Some(word) => Some(word.as_bytes()),
        None => None,
    }
}

/// Returns true if a word can stand in a line of a script: its characters are printable ASCII, and
/// none is a blank.
pub(crate) fn is_line_word(word: &[u8]) -> bool
    ensures { result ≡ list_all is_printable word.now }
{
    word.iter().all(|c| b'!' <= *c && *c <= b'~')
}

/// Reads the number at a place, within these bounds.
pub(crate) fn number_at(
    words: &[&str],
    place: usize,
    expected: Expected,
    least: u64,
    most: u64,
) -> Result<u64, UsageError>
    ensures value { Reads (λ n. n) result (word_at expected (number_between least most) (map (λ w. w.now) words.now) place) }
    ensures bounds { IfOk result (λ n. (least ≤ n) × (n ≤ most)) }
{
    let Some(word) = bytes_at(words, place) else {
        return Err(bad(place, expected));
    };
    match number_between(least, most, word) {
        Ok(number) => Ok(number),
        Err(ParseError::Memory) => Err(UsageError::Memory),
        Err(ParseError::OutsideGrammar) => Err(bad(place, expected)),
    }
}

/// Reads the object at a place.
pub(crate) fn object_at(
    alloc: Global,
    words: &[&str],
    place: usize,
) -> Result<ScriptObject, UsageError>
    ensures { Reads (λ x. x) result (word_at Expected.Object script_object (map (λ w. w.now) words.now) place) }
{
    let Some(word) = bytes_at(words, place) else {
        return Err(bad(place, Expected::Object));
    };
    match script_object(alloc, word) {
        Ok(object) => Ok(object),
        Err(ParseError::Memory) => Err(UsageError::Memory),
        Err(ParseError::OutsideGrammar) => Err(bad(place, Expected::Object)),
    }
}

/// Reads the bytes of the value at a place, of a word that can stand in a line of a script.
pub(crate) fn value_at(alloc: Global, words: &[&str], place: usize) -> Result<Items<u8>, UsageError>
    ensures { Reads (λ x. x) result (word_at Expected.Value (in_line script_value) (map (λ w. w.now) words.now) place) }
{
    let Some(word) = bytes_at(words, place) else {
        return Err(bad(place, Expected::Value));
    };
    if !is_line_word(word) {
        return Err(bad(place, Expected::Value));
    }
    match script_value(alloc, word) {
        Ok(value) => Ok(value),
        Err(ParseError::Memory) => Err(UsageError::Memory),
        Err(ParseError::OutsideGrammar) => Err(bad(place, Expected::Value)),
    }
}

/// Reads the mode at a place.
pub(crate) fn mode_at(words: &[&str], place: usize) -> Result<ReadMode, UsageError>
    ensures { Reads (λ x. x) result (word_at Expected.Mode mode_of (map (λ w. w.now) words.now) place) }
{
    let Some(word) = bytes_at(words, place) else {
        return Err(bad(place, Expected::Mode));
    };
    match mode_of(word) {
        Ok(mode) => Ok(mode),
        Err(ParseError::Memory) => Err(UsageError::Memory),
        Err(ParseError::OutsideGrammar) => Err(bad(place, Expected::Mode)),
    }
}

/// Returns the value if no word stands at the place.
pub(crate) fn at_end<T: Drop>(value: T, words: &[&str], place: usize) -> Result<T, UsageError>
    ensures { Reads (λ x. x) result (at_end value (map (λ w. w.now) words.now) place) }
{
    if words.len() <= place {
        Ok(value)
    } else {
        Err(bad(place, Expected::End))
    }
}
