//! `Token`: a prefix of the history that was seen. It has no bytes; what crosses threads carries
//! one.
ghost use Rattle.std.specs.Prelude.{◌≡◌};
ghost use mathlib.Core.List.{IsPrefix};
ghost use Rattle.craq_ghost_history.specs.Histories.{AreComparable};
ghost use Rattle.craq_ghost_history.specs.Views.{IsWitness};

use crate::history::{GhostHistory, HistoryRule, Named, View};
use atomic_table::Seat;
use std::marker::{Model, PhantomData};

/// A prefix of the history that was seen, which keeps the rule. A contract sees it as its entries.
#[derive(Drop)]
pub struct Token<E, X: HistoryRule<E>, N: Named> {
    pub(crate) seat: Seat<u8, View<E>>,
    pub(crate) of: PhantomData<(X, N)>,
}

impl<E, X: HistoryRule<E>, N: Named> Model for Token<E, X, N> {
    ghost use Rattle.std.specs.Prelude.{List};
    ghost use Rattle.craq_ghost_history.specs.Views.{IsWitness};

    ghost Value = { List E };

    ghost view = { λ t. t.seat.me.0.seen };

    ghost invariant = { λ t. IsWitness X.holds N.history t.seat };
}

impl<E, X: HistoryRule<E>, N: Named> Token<E, X, N> {
    /// Makes the token of a seat.
    pub(crate) fn of(seat: Seat<u8, View<E>>) -> Self
        requires { IsWitness X.holds N.history seat }
        ensures { result ≡ seat.me.0.seen }
    {
        Token {
            seat,
            of: PhantomData,
        }
    }

    /// Returns a copy. What it has seen keeps the rule.
    pub fn again(&mut self, history: &GhostHistory<E, X, N>) -> Self
        ensures copy { result ≡ self.old }
        ensures same { self.new ≡ self.old }
        ensures holds { X.holds self.old }
    {
        Token {
            seat: history.tell(&mut self.seat),
            of: PhantomData,
        }
    }

    /// Sees all that there is, and so all that the other token has seen.
    pub fn learn(&mut self, history: &GhostHistory<E, X, N>, other: Self)
        ensures this { IsPrefix self.old self.new }
        ensures that { IsPrefix other self.new }
        ensures holds { X.holds self.new }
    {
        let Token { seat, of: _ } = other;
        history.hear(&mut self.seat, seat);
        history.look(&mut self.seat);
    }

    /// Shows that two tokens of one store have seen prefixes of one history: one begins with the
    /// other. Neither changes.
    pub fn compare(&mut self, history: &GhostHistory<E, X, N>, other: &mut Self)
        ensures comparable { AreComparable self.old other.old }
        ensures this { self.new ≡ self.old }
        ensures that { other.new ≡ other.old }
    {
        let mut all = self.again(history);
        let seen = other.again(history);
        all.learn(history, seen);
    }
}
