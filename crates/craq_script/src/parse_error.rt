//! Defines the errors of parsing a line: outside the grammar, or out of memory; `craq_cli` uses
//! them too.
ghost use Rattle.std.specs.Prelude.{◌≡◌};
ghost use Rattle.craq_script.specs.declared.parse_error.ParseError.TheVariants.{Memory};

use std::alloc::{AllocError, AllocFailed};

/// The reason that a line, or a word of it, was not parsed.
#[derive(Clone, Copy, Debug, PartialEq, Eq)]
pub enum ParseError {
    /// Out of memory.
    Memory,
    /// The text fits no form of the grammar.
    OutsideGrammar,
}

impl From<AllocError> for ParseError {
    ghost from_gives = { λ _ e. e ≡ Memory };

    fn from(_e: AllocError) -> ParseError {
        ParseError::Memory
    }
}

impl<T: Drop> From<AllocFailed<T>> for ParseError {
    ghost from_gives = { λ _ e. e ≡ Memory };

    fn from(_e: AllocFailed<T>) -> ParseError {
        ParseError::Memory
    }
}
