//! The words of a command line as text, whatever their bytes: a byte that is no text stands as a
//! character of a private range, from which it is read back. For `craq`.
use std::alloc::{AllocError, Global};
use std::env::{Env, FillError};
use std::io;
use std::io::ErrorKind;

/// The character of byte 0x80 + n is the n-th from this one on.
const FIRST: u32 = 0xf780;

/// The character after that of byte 0xff.
const BEHIND: u32 = 0xf800;

/// Returns true for a character that stands for a byte.
fn is_escape(c: char) -> bool {
    let code = c as u32;
    FIRST <= code && code < BEHIND
}

/// Returns true if a character of the text stands for a byte that is no text.
pub fn has_raw_bytes(text: &str) -> bool {
    text.chars().any(is_escape)
}

/// Appends the byte as a character.
fn push_byte(text: &mut String, byte: u8) -> Result<(), AllocError> {
    if byte < 0x80 {
        return text.push(char::from(byte));
    }
    match char::from_u32(FIRST.saturating_add(u32::from(byte)).saturating_sub(0x80)) {
        Some(c) => text.push(c),
        None => Ok(()),
    }
}

/// Returns the bytes as text, of which `raw_bytes` gives the bytes again: the text itself if it is
/// UTF-8 without characters of the private range. Fails only when out of memory.
fn raw_text(alloc: Global, bytes: &[u8]) -> Result<String, AllocError> {
    if let Ok(text) = str::from_utf8(bytes) {
        if !has_raw_bytes(text) {
            return String::from_str(alloc, text);
        }
    }
    let mut text = String::new(alloc);
    for byte in bytes {
        push_byte(&mut text, *byte)?;
    }
    Ok(text)
}

/// Returns the bytes of a word that `raw_words_of` made. Fails only when out of memory.
pub fn raw_bytes(alloc: Global, text: &str) -> Result<Vec<u8>, AllocError> {
    if !has_raw_bytes(text) {
        return Ok(Vec::from_slice(alloc, text.as_bytes())?);
    }
    let mut bytes = Vec::new(alloc);
    for c in text.chars() {
        let code = c as u32;
        let byte = if is_escape(c) {
            code.saturating_sub(FIRST).saturating_add(0x80)
        } else {
            code
        };
        bytes.push((byte % 256) as u8)?;
    }
    Ok(bytes)
}

/// Returns the word at a place of the command line; `None` behind the last.
fn raw_word<R: AllocGlobal + Env>(rt: &R, place: usize) -> io::Result<Option<Vec<u8>>> {
    let mut size = 256usize;
    for _ in 0..usize::BITS {
        let mut bytes = vec![in rt.alloc(); 0u8; size]?;
        match rt.arg(place, bytes.as_mut_slice()) {
            Ok(length) => {
                bytes.truncate(length);
                return Ok(Some(bytes));
            }
            Err(FillError::NotPresent) => return Ok(None),
            Err(FillError::TooLong) => size = size.saturating_add(size),
        }
    }
    Err(io::Error::from(ErrorKind::OutOfMemory))
}

/// Returns the words of the command line as text, the program's own among them. A byte that is no
/// text stands as a character of a private range. Fails only when out of memory.
pub fn raw_words_of<R: AllocGlobal + Env>(rt: &R) -> io::Result<Vec<String>> {
    let mut words = Vec::new(rt.alloc());
    for place in 0..usize::MAX {
        let Some(word) = raw_word(rt, place)? else {
            break;
        };
        words.push(raw_text(rt.alloc(), word.as_slice())?)?;
    }
    Ok(words)
}
