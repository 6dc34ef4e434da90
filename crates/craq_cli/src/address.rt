//! The form of the address of a server: HOST:PORT; for `client` and the program `craq`.
ghost use Rattle.std.specs.Prelude.{◌≡◌, IfOk};
ghost use Rattle.craq_cli.specs.Address.{is_port, is_address};

use crate::numbers::number_between;
use craq_script::ParseError;
use std::alloc::AllocError;

/// The form of an address, in words.
pub const ADDRESS_FORM: &str = "an address is HOST:PORT, as 127.0.0.1:7000";

/// The greatest port.
const GREATEST_PORT: u64 = 65535;

/// Returns true for a number from 1 to 65535 in decimal digits. Fails only when out of memory.
fn is_port(text: &[u8]) -> Result<bool, AllocError>
    ensures { IfOk result (λ is. is ≡ is_port text.now) }
{
    match number_between(1, GREATEST_PORT, text) {
        Ok(_) => Ok(true),
        Err(ParseError::OutsideGrammar) => Ok(false),
        Err(ParseError::Memory) => Err(AllocError),
    }
}

/// Returns true for HOST:PORT: some text, a colon, and a number from 1 to 65535. Fails only when out
/// of memory.
pub fn is_address(text: &[u8]) -> Result<bool, AllocError>
    ensures { IfOk result (λ is. is ≡ is_address text.now) }
{
    for (place, c) in text.iter().enumerate() {
        if place > 0 && *c == b':' && is_port(&text[place + 1..])? {
            return Ok(true);
        }
    }
    Ok(false)
}
