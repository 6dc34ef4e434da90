//! `Refused`: a refusal, with the call that it gives back, and the `RefusalMoment` at which a node
//! gave it.
ghost use Rattle.std.specs.Prelude.{◌≡◌, ◌==◌, if◌then◌else◌, None, Some, IfSome};
ghost use Rattle.craq_store_parts.specs.Witnessed.{HasRefusedCall};

use crate::StoreToken;
use crate::call_made::CallMade;
use craq_ghost_history::Named;
use craq_names::{Pass, Refusal};
use std::marker::Model;

/// A moment of the history at which a node refuses a call, and the pass with which it does.
#[derive(Drop)]
pub struct RefusalMoment<N: Named> {
    pass: Pass,
    token: StoreToken<N>,
}

impl<N: Named> Model for RefusalMoment<N> {
    ghost use Rattle.craq_store_parts.specs.Sent.{Moment};

    ghost Value = { Moment };

    ghost view = { λ m. record { pass = m.pass; seen = m.token } };
}

impl<N: Named> RefusalMoment<N> {
    /// Makes the moment that the token has seen.
    pub fn new(pass: Pass, token: StoreToken<N>) -> Self
        ensures { result ≡ record { pass = pass; seen = token } }
    {
        RefusalMoment { pass, token }
    }

    /// Returns the token, if the refusal is of a request with this pass.
    pub fn of_pass(self, pass: Pass) -> Option<StoreToken<N>>
        ensures { result ≡ (if self.pass == pass then Some self.seen else None) }
    {
        let RefusalMoment { pass: of, token } = self;
        if of == pass {
            Some(token)
        } else {
            drop(token);
            None
        }
    }
}

/// A refusal. A call that it gives back is accepted by no step, and its client can take it back
/// (`Session::take_back`). If it has a moment of the history, then the call's node refuses the call
/// there by its rules, with the moment's pass.
#[derive(Drop)]
pub struct Refused<N: Named> {
    refusal: Refusal,
    back: Option<CallMade<N>>,
    moment: Option<RefusalMoment<N>>,
}

impl<N: Named> Model for Refused<N> {
    ghost use Rattle.craq_store_parts.specs.Sent.{RefusedCall};
    ghost use Rattle.craq_store_parts.specs.Witnessed.{IsShown};

    ghost Value = { RefusedCall };

    ghost view = { λ r. record { refusal = r.refusal; back = r.back; moment = r.moment } };

    ghost invariant = { λ r. IsShown (record { refusal = r.refusal; back = r.back; moment = r.moment }) };
}

impl<N: Named> Refused<N> {
    /// Makes a refusal, with the call that it gives back.
    pub fn new(refusal: Refusal, back: Option<CallMade<N>>) -> Self
        ensures { result ≡ record { refusal = refusal; back = back; moment = None } }
    {
        Refused {
            refusal,
            back,
            moment: None,
        }
    }

    /// Makes the refusal of a call by its node's rules, at this moment of the history.
    pub fn by_node(refusal: Refusal, made: CallMade<N>, moment: RefusalMoment<N>) -> Self
        requires { HasRefusedCall moment.seen made.call moment.pass refusal }
        ensures { result ≡ record { refusal = refusal; back = Some made; moment = Some moment } }
    {
        Refused {
            refusal,
            back: Some(made),
            moment: Some(moment),
        }
    }

    /// Makes a refusal that gives no call back: there is none, or a step may have accepted it.
    pub fn without_call(refusal: Refusal) -> Self
        ensures { result ≡ record { refusal = refusal; back = None; moment = None } }
    {
        Refused {
            refusal,
            back: None,
            moment: None,
        }
    }

    /// Returns the refusal. Never allocates.
    pub fn refusal(&self) -> Refusal
        ensures { result ≡ self.now.refusal }
    {
        self.refusal
    }

    /// Refuses the call with another refusal, which no moment shows.
    pub fn instead(self, refusal: Refusal) -> Self
        ensures { result ≡ record { refusal = refusal; back = self.back; moment = None } }
    {
        let Refused {
            refusal: _,
            back,
            moment,
        } = self;
        drop(moment);
        Refused::new(refusal, back)
    }

    /// Returns the refusal, the call that it gives back, and the moment at which the call's node
    /// refuses it.
    pub fn into_parts(self) -> (Refusal, Option<CallMade<N>>, Option<RefusalMoment<N>>)
        ensures parts { result ≡ (self.refusal, self.back, self.moment) }
        ensures shown { IfSome result.2 (λ moment. IfSome result.1 (λ made. HasRefusedCall moment.seen made.call moment.pass result.0)) }
    {
        let Refused {
            refusal,
            back,
            moment,
        } = self;
        (refusal, back, moment)
    }
}
