//! Parses numbers and choices on the command line by the grammar of scripts; called by `main`.
use craq_script::number_up_to;
use std::alloc::{AllocError, Global};

/// The greatest number of 32 bits.
const GREATEST: u64 = 0xffff_ffff;

/// Parses the word as a number of 32 bits: decimal digits without a leading zero. `None` for any
/// other word.
pub fn number_in_word(word: &[u8]) -> Option<u32> {
    match number_up_to(GREATEST, word) {
        Ok(number) => Some(number as u32),
        Err(_) => None,
    }
}

/// Parses a comma-separated list of numbers of 32 bits; `None` if one part is not a number. Fails
/// only when out of memory.
pub fn choices_of(alloc: Global, text: &str) -> Result<Option<Vec<u32>>, AllocError> {
    let mut choices = Vec::new(alloc);
    for word in text.as_bytes().split(|byte| *byte == b',') {
        match number_in_word(word) {
            Some(choice) => choices.push(choice)?,
            None => return Ok(None),
        }
    }
    Ok(Some(choices))
}
