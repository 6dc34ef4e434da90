//! Why bytes could not be read: no valid encoding, or out of memory; the error of each function
//! that reads a part.
ghost use Rattle.std.specs.Prelude.{◌≡◌};
ghost use Rattle.craq_wire.specs.NumberReading.{refusal_of};
ghost use Rattle.craq_wire.specs.declared.decode_error.DecodeError.TheVariants.{Memory};

use craq_names::Refusal;
use std::alloc::{AllocError, AllocFailed};

/// Why nothing was read from bytes.
#[derive(Clone, Copy, Debug, PartialEq, Eq)]
pub enum DecodeError {
    /// An allocation failed.
    Memory,
    /// The bytes encode nothing of this kind.
    BadFrame,
}

impl From<AllocError> for DecodeError {
    ghost from_gives = { λ _ e. e ≡ Memory };

    fn from(_e: AllocError) -> DecodeError {
        DecodeError::Memory
    }
}

impl<T: Drop> From<AllocFailed<T>> for DecodeError {
    ghost from_gives = { λ _ e. e ≡ Memory };

    fn from(_e: AllocFailed<T>) -> DecodeError {
        DecodeError::Memory
    }
}

impl From<DecodeError> for Refusal {
    ghost from_gives = { λ e r. r ≡ refusal_of e };

    fn from(e: DecodeError) -> Refusal {
        match e {
            DecodeError::Memory => Refusal::Memory,
            DecodeError::BadFrame => Refusal::BadFrame,
        }
    }
}
