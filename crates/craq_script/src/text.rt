//! Splits a text into lines and words; called by `script`.
ghost use Rattle.std.specs.Prelude.{◌≡◌, ◌==◌, ◌<◌, not, length, map, IfOk};
ghost use Rattle.std.specs.List.{filter, slice_split};
ghost use Rattle.craq_script.specs.Reading.{ParsesTo};
ghost use Rattle.craq_script.specs.Texts.{words_in, is_printable, is_skipped, is_trimmed, line_of, line_or_skip, lines_from, Reads};

use crate::reading::line_of_words;
use crate::{ParseError, ScriptLine};
use craq_names::{Items, Refusal};
use std::alloc::{AllocError, Global};

/// Splits the text at each `at`.
pub(crate) fn parts_of(alloc: Global, text: &[u8], at: u8) -> Result<Vec<&[u8]>, AllocError>
    ensures { IfOk result (λ parts. map (λ x. x.now) parts.items ≡ slice_split (λ c. c == at) text.now) }
{
    text.split(|c| *c == at).collect(alloc)
}

/// Returns the parts that are not empty.
fn words_among<'a>(alloc: Global, parts: &[&'a [u8]]) -> Result<Vec<&'a [u8]>, AllocError>
    ensures { IfOk result (λ words. map (λ x. x.now) words.items ≡ filter (λ word. not (length word == 0)) (map (λ x. x.now) parts.now)) }
{
    let mut words = Vec::new(alloc);
    for part in parts {
        if !part.is_empty() {
            words.push(*part)?;
        }
    }
    Ok(words)
}

/// Returns the words of a line.
fn words_of(alloc: Global, line: &[u8]) -> Result<Vec<&[u8]>, AllocError>
    ensures { IfOk result (λ words. map (λ x. x.now) words.items ≡ words_in line.now) }
{
    let parts = parts_of(alloc, line, b' ')?;
    words_among(alloc, parts.as_slice())
}

/// Returns true if each character is printable ASCII.
fn is_printable(line: &[u8]) -> bool
    ensures { result ≡ is_printable line.now }
{
    line.iter().all(|c| b' ' <= *c && *c <= b'~')
}

/// Returns true if the line is empty or a comment.
fn is_skipped(line: &[u8]) -> bool
    ensures { result ≡ is_skipped line.now }
{
    line.is_empty() || line[0] == b'#'
}

/// Returns true if a line that is not empty neither begins nor ends with a space.
fn is_trimmed(line: &[u8]) -> bool
    requires { 0 < length line.now }
    ensures { result ≡ is_trimmed line.now }
{
    line[0] != b' ' && line[line.len() - 1] != b' '
}

/// Parses the text as a line.
#[tactic(auto, unfolding(crate::specs::Texts::line_of))]
fn line_of(alloc: Global, text: &[u8]) -> Result<ScriptLine, ParseError>
    requires { 0 < length text.now }
    ensures { ParsesTo (λ x. x) result (line_of text.now) }
{
    if !is_trimmed(text) {
        return Err(ParseError::OutsideGrammar);
    }
    let words = words_of(alloc, text)?;
    line_of_words(alloc, words.as_slice())
}

/// Parses the text as a line, or returns `None` if it is skipped.
#[tactic(auto, unfolding(crate::specs::Texts::line_or_skip))]
fn line_or_skip(alloc: Global, text: &[u8]) -> Result<Option<ScriptLine>, ParseError>
    ensures { ParsesTo (λ x. x) result (line_or_skip text.now) }
{
    if !is_printable(text) {
        return Err(ParseError::OutsideGrammar);
    }
    if is_skipped(text) {
        return Ok(None);
    }
    let line = line_of(alloc, text)?;
    Ok(Some(line))
}

/// Parses the texts as lines, and leaves out the skipped ones. Fails with the first line that does
/// not parse.
pub(crate) fn lines_of(alloc: Global, texts: &[&[u8]]) -> Result<Items<ScriptLine>, Refusal>
    ensures { Reads (λ x. x) result (lines_from 1 (map (λ x. x.now) texts.now)) }
{
    let mut lines = Vec::new(alloc);
    for (index, text) in texts.iter().enumerate() {
        match line_or_skip(alloc, *text) {
            Ok(Some(line)) => lines.push(line)?,
            Ok(None) => {}
            Err(ParseError::Memory) => return Err(Refusal::Memory),
            Err(ParseError::OutsideGrammar) => return Err(Refusal::BadScript(index as u64 + 1)),
        }
    }
    Ok(Items::of(lines))
}
