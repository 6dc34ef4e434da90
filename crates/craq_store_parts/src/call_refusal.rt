//! `CallRefusal`: the refusal of a call, on its way to the caller; for the replies of
//! `craq_running_node`, and for the crates above.
ghost use Rattle.std.specs.Prelude.{◌≡◌, Some};

use crate::made_ask::MadeAsk;
use crate::refused::Refused;
use craq_ghost_history::Named;
use craq_names::Refusal;
use std::marker::Model;

/// The refusal of a call. If no step accepted the call, it gives the call back. A contract sees the
/// refusal alone: the call itself shows that no step accepted it.
#[derive(Drop)]
pub struct CallRefusal<N: Named> {
    refused: Refused<N>,
}

impl<N: Named> Model for CallRefusal<N> {
    ghost use Rattle.craq_names.specs.declared.refusal.Refusal.{Refusal};

    ghost Value = { Refusal };

    ghost view = { λ r. r.refused.refusal };
}

impl<N: Named> CallRefusal<N> {
    /// Makes the refusal of a call from that of its step.
    pub fn new(refused: Refused<N>) -> Self
        ensures { result ≡ refused.refusal }
    {
        CallRefusal { refused }
    }

    /// Makes a refusal that gives no call back, since a step may have accepted it.
    pub fn without_call(refusal: Refusal) -> Self
        ensures { result ≡ refusal }
    {
        CallRefusal {
            refused: Refused::without_call(refusal),
        }
    }

    /// Refuses a request before its step, and gives its call back.
    pub fn before_step(made: MadeAsk<N>, refusal: Refusal) -> Self
        ensures { result ≡ refusal }
    {
        let (ask, made) = made.into_parts();
        drop(ask);
        CallRefusal {
            refused: Refused::new(refusal, Some(made)),
        }
    }

    /// Returns the refusal, with the call that it gives back.
    pub fn into_refused(self) -> Refused<N>
        ensures { result.refusal ≡ self }
    {
        let CallRefusal { refused } = self;
        refused
    }
}
