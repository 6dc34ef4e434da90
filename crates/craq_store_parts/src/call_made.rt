//! `CallMade`: a call that was made, with its permit.
ghost use Rattle.std.specs.Prelude.{◌≡◌, Some};
ghost use Rattle.craq_store_history.specs.Entries.{permit_for};

use crate::{StoreGrant, StoreHistory, StoreToken};
use craq_ghost_history::Named;
use craq_store_history::CallId;
use std::marker::Model;

/// A call that a client made, with its permit, which has seen the call. No step has accepted it, and
/// none does while this value is kept: the step that accepts it takes the permit.
#[derive(Drop)]
pub struct CallMade<N: Named> {
    call: CallId,
    grant: StoreGrant<N>,
}

impl<N: Named> Model for CallMade<N> {
    ghost use Rattle.std.specs.Prelude.{◌≡◌, Some};
    ghost use Rattle.craq_store_history.specs.Entries.{permit_for};
    ghost use Rattle.craq_store_parts.specs.Sent.{MadeCall};

    ghost Value = { MadeCall };

    ghost view = { λ m. record { call = m.call; seen = m.grant.seen } };

    ghost invariant = { λ m. m.grant.permit ≡ Some (permit_for m.call) };
}

impl<N: Named> CallMade<N> {
    /// Makes the value of a call with its permit.
    pub(crate) fn new(call: CallId, grant: StoreGrant<N>) -> Self
        requires { grant.permit ≡ Some (permit_for call) }
        ensures { result ≡ record { call = call; seen = grant.seen } }
    {
        CallMade { call, grant }
    }

    /// Returns what names the call. Never allocates.
    pub fn call(&self) -> CallId
        ensures { result ≡ self.now.call }
    {
        self.call
    }

    /// Returns a token that has seen the call. The permit stays here.
    pub fn token(&mut self, history: &StoreHistory<N>) -> StoreToken<N>
        ensures token { result ≡ self.old.seen }
        ensures same { self.new ≡ self.old }
    {
        self.grant.token(history)
    }

    /// Returns what names the call, and its permit.
    pub(crate) fn into_parts(self) -> (CallId, StoreGrant<N>)
        ensures call { result.0 ≡ self.call }
        ensures seen { result.1.seen ≡ self.seen }
        ensures permit { result.1.permit ≡ Some (permit_for self.call) }
    {
        let CallMade { call, grant } = self;
        (call, grant)
    }
}
