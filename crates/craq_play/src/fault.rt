//! Defines the errors of `play`, which `craq_lab` reports.
ghost use Rattle.std.specs.Prelude.{◌≡◌};
ghost use Rattle.craq_names.specs.declared.refusal.Refusal.TheVariants.{Memory};
ghost use Rattle.craq_play.specs.declared.fault.PlayFault.TheVariants.{Refused};

use craq_names::Refusal;
use std::alloc::AllocError;
use thiserror::Error;

/// The reason that a script was not played to its end.
#[derive(Clone, Copy, Debug, PartialEq, Eq, Error)]
pub enum PlayFault {
    /// The script is outside the grammar (`BadScript`), or memory ran out (`Memory`).
    #[error("{0}")]
    Refused(Refusal),
    /// A locked node and the chain differ in what they did with a move.
    #[error("a cell and the chain differ")]
    Differs,
}

impl From<Refusal> for PlayFault {
    ghost from_gives = { λ r e. e ≡ Refused r };

    fn from(refusal: Refusal) -> PlayFault {
        PlayFault::Refused(refusal)
    }
}

impl From<AllocError> for PlayFault {
    ghost from_gives = { λ _ e. e ≡ Refused Memory };

    fn from(_e: AllocError) -> PlayFault {
        PlayFault::Refused(Refusal::Memory)
    }
}
