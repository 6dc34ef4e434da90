//! Parses a text into lines: `Script::read`, the only call of the crate that programs need.
ghost use Rattle.craq_script.specs.Texts.{script_of};

use crate::ScriptLine;
use crate::text::{lines_of, parts_of};
use craq_names::{Items, Refusal};
use std::alloc::Global;

/// A script: its lines in order, without the skipped ones.
#[derive(Debug, Drop)]
pub struct Script {
    pub lines: Items<ScriptLine>,
}

impl Script {
    ghost use Rattle.craq_script.specs.Texts.{Reads};

    /// Parses the text as a script.
    ///
    /// Line feeds end lines; the last one is optional. Every line is printable ASCII. Empty lines
    /// and lines whose first character is `#` are skipped but counted. Every other line is a list
    /// of words, separated by one or more spaces:
    ///
    /// | First word | Words after it |
    /// |---|---|
    /// | `put`, `append`, `prepend` | NODE CLIENT NUMBER OBJECT VALUE |
    /// | `tas` | NODE CLIENT NUMBER OBJECT VERSION VALUE |
    /// | `inc`, `dec` | NODE CLIENT NUMBER OBJECT BY |
    /// | `mini` | NODE CLIENT NUMBER and items `c:OBJECT:VERSION`, `r:OBJECT`, `w:OBJECT:VALUE` |
    /// | `read` | NODE MODE OBJECT, MODE one of `strong`, `eventual`, `bounded:K` |
    /// | `deliver` | the number of a message |
    /// | `tick`, `stop`, `remove`, `join` | NODE |
    /// | `explain` | none |
    ///
    /// Numbers are decimal digits without a sign and without a leading zero, of 64 bits; NODE and K
    /// are of 32 bits, chains of 16. OBJECT is KEY, of chain 0, or `CHAIN/KEY`; KEY is one or more
    /// ASCII letters, digits, `_` and `-`. A VALUE that begins with `0x` goes on with an even
    /// number of lower-case hexadecimal digits and stands for those bytes. Any other VALUE stands
    /// for its own bytes.
    ///
    /// `BadScript` with the first line outside this grammar, counted from 1. `Memory` when out of
    /// memory.
    #[tactic(auto, unfolding(crate::specs::Texts::script_of))]
    pub fn read(alloc: Global, text: &[u8]) -> Result<Self, Refusal>
        ensures { Reads (λ s. s.lines) result (script_of text.now) }
    {
        let parts = parts_of(alloc, text, b'\n')?;
        let lines = lines_of(alloc, parts.as_slice())?;
        Ok(Script { lines })
    }
}
