//! Numbers on command lines, written as in scripts; called by `client`, `options` and `words`.
ghost use Rattle.std.specs.Prelude.{◌≤◌, IfOk};
ghost use Rattle.craq_script.specs.Reading.{ParsesTo};
ghost use Rattle.craq_cli.specs.Numbers.{number_between};

use craq_script::{ParseError, number_up_to};

/// Returns the number of a text, within these bounds: decimal digits without a sign and without a
/// leading zero, as in scripts.
///
/// Fails with `OutsideGrammar` if the text is no such number.
pub(crate) fn number_between(least: u64, most: u64, text: &[u8]) -> Result<u64, ParseError>
    ensures value { ParsesTo (λ n. n) result (number_between least most text.now) }
    ensures bounds { IfOk result (λ n. (least ≤ n) × (n ≤ most)) }
{
    match number_up_to(most, text) {
        Ok(number) if least <= number => Ok(number),
        Err(ParseError::Memory) => Err(ParseError::Memory),
        _ => Err(ParseError::OutsideGrammar),
    }
}
