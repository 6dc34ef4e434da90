//! `Grant`: a prefix of the history that was seen, with a permit if it has one. It has no bytes.
ghost use Rattle.std.specs.Prelude.{◌≡◌, None};
ghost use Rattle.craq_ghost_history.specs.Views.{IsGrant, permit_in};

use crate::history::{GhostHistory, HistoryRule, Named, View};
use crate::token::Token;
use atomic_table::Seat;
use std::marker::{Model, PhantomData};

/// A prefix of the history that was seen, and the right to use a permit up, if there is one: no
/// entry has used it, and none can while this value is kept. It has no bytes.
#[derive(Drop)]
pub struct Grant<E, X: HistoryRule<E>, N: Named> {
    pub(crate) seat: Seat<u8, View<E>>,
    pub(crate) of: PhantomData<(X, N)>,
}

impl<E, X: HistoryRule<E>, N: Named> Model for Grant<E, X, N> {
    ghost use Rattle.craq_ghost_history.specs.Histories.{Granted};
    ghost use Rattle.craq_ghost_history.specs.Views.{IsGrant, permit_in};

    ghost Value = { Granted E };

    ghost view = { λ g. record { seen = g.seat.me.0.seen; permit = permit_in g.seat.me.0.right } };

    ghost invariant = { λ g. IsGrant X.holds N.history g.seat };
}

impl<E, X: HistoryRule<E>, N: Named> Grant<E, X, N> {
    /// Makes the grant of a seat.
    pub(crate) fn of(seat: Seat<u8, View<E>>) -> Self
        requires { IsGrant X.holds N.history seat }
        ensures { result ≡ record { seen = seat.me.0.seen; permit = permit_in seat.me.0.right } }
    {
        Grant {
            seat,
            of: PhantomData,
        }
    }

    /// Makes a grant without a permit, which has seen what the token has.
    pub fn without_permit(token: Token<E, X, N>) -> Self
        ensures { result ≡ record { seen = token; permit = None } }
    {
        let Token { seat, of: _ } = token;
        Grant {
            seat,
            of: PhantomData,
        }
    }

    /// Returns a token that has seen as much. The permit stays here.
    pub fn token(&mut self, history: &GhostHistory<E, X, N>) -> Token<E, X, N>
        ensures token { result ≡ self.old.seen }
        ensures same { self.new ≡ self.old }
    {
        Token::of(history.tell(&mut self.seat))
    }
}
