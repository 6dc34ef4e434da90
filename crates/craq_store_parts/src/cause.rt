//! `Cause` and `Origin`: what a node's event follows, a call that was made or a message that was
//! sent; for the recorded desks of `craq_running_node`.
ghost use Rattle.std.specs.Prelude.{◌≡◌, None, Some, option_map};
ghost use Rattle.craq_store_history.specs.Entries.{permit_for};
ghost use Rattle.craq_store_parts.specs.Sent.{made_in};

use crate::call_made::CallMade;
use crate::{StoreGrant, StoreToken};
use craq_ghost_history::{Grant, Named};
use craq_names::Pass;
use craq_store_history::CallId;
use std::marker::Model;

/// The origin of an event: the call that it accepts, with its permit; or a history in which its
/// message was sent.
#[derive(Drop)]
pub struct Origin<N: Named> {
    call: Option<CallId>,
    grant: StoreGrant<N>,
}

impl<N: Named> Model for Origin<N> {
    ghost use Rattle.std.specs.Prelude.{◌≡◌, option_map};
    ghost use Rattle.craq_store_history.specs.Entries.{permit_for};
    ghost use Rattle.craq_store_parts.specs.Sent.{Following};

    ghost Value = { Following };

    ghost view = { λ o. record { call = o.call; seen = o.grant.seen } };

    ghost invariant = { λ o. o.grant.permit ≡ option_map permit_for o.call };
}

/// The cause of an event: the pass that came with it, and its origin.
#[derive(Drop)]
pub struct Cause<N: Named> {
    pub pass: Pass,
    pub origin: Origin<N>,
}

impl<N: Named> Origin<N> {
    /// Makes the origin of a request: its call.
    pub fn called(made: CallMade<N>) -> Self
        ensures { result ≡ record { call = Some made.call; seen = made.seen } }
    {
        let (call, grant) = made.into_parts();
        Origin {
            call: Some(call),
            grant,
        }
    }

    /// Makes the origin of any other event: the history that the token has seen.
    pub fn sent(token: StoreToken<N>) -> Self
        ensures { result ≡ record { call = None; seen = token } }
    {
        Origin {
            call: None,
            grant: Grant::without_permit(token),
        }
    }

    /// Returns the call, if there is one, and a grant with its permit.
    pub fn into_parts(self) -> (Option<CallId>, StoreGrant<N>)
        ensures call { result.0 ≡ self.call }
        ensures seen { result.1.seen ≡ self.seen }
        ensures permit { result.1.permit ≡ option_map permit_for result.0 }
    {
        let Origin { call, grant } = self;
        (call, grant)
    }

    /// Gives the call back, if there is one.
    pub fn back(self) -> Option<CallMade<N>>
        ensures { result ≡ made_in self }
    {
        let Origin { call, grant } = self;
        match call {
            Some(call) => Some(CallMade::new(call, grant)),
            None => {
                drop(grant);
                None
            }
        }
    }
}
