//! `Writer`: the right to one author's entries, which is given once; a node, a master or a client's
//! session has it. A session's gives permits, each of which one entry uses up.
ghost use Rattle.std.specs.Prelude.{◌≡◌, ◌+◌, ℕ, [], None, Some};
ghost use mathlib.Core.List.{IsPrefix};
ghost use Rattle.craq_ghost_history.specs.Authors.{of};
ghost use Rattle.craq_ghost_history.specs.Histories.{IsAdded, MayAdd};
ghost use Rattle.craq_ghost_history.specs.Views.{IsWriter, author_of, next_of};
ghost use Rattle.craq_ghost_history.specs.declared.author.Author.TheVariants.{Client};

use crate::grant::Grant;
use crate::history::{GhostHistory, HistoryRule, Named, View};
use crate::token::Token;
use atomic_table::Seat;
use std::marker::{Model, PhantomData};

/// The right to one author's entries: no other writer adds any, and this one knows all of them. A
/// client's has also the right to the client's permits from a number on. It has no bytes.
#[derive(Drop)]
pub struct Writer<E, X: HistoryRule<E>, N: Named> {
    seat: Seat<u8, View<E>>,
    of: PhantomData<(X, N)>,
}

impl<E, X: HistoryRule<E>, N: Named> Model for Writer<E, X, N> {
    ghost use Rattle.craq_ghost_history.specs.Histories.{Written};
    ghost use Rattle.craq_ghost_history.specs.Views.{IsWriter, author_of, next_of};

    ghost Value = { Written E };

    ghost view = { λ w. record { author = author_of w.seat.me.0.right; next = next_of w.seat.me.0.right; seen = w.seat.me.0.seen } };

    ghost invariant = { λ w. IsWriter X.holds N.history w.seat };
}

impl<E, X: HistoryRule<E>, N: Named> Writer<E, X, N> {
    /// Makes the writer of a seat.
    pub(crate) fn of(seat: Seat<u8, View<E>>) -> Self
        requires { IsWriter X.holds N.history seat }
        ensures author { result.author ≡ author_of seat.me.0.right }
        ensures next { result.next ≡ next_of seat.me.0.right }
        ensures seen { result.seen ≡ seat.me.0.seen }
    {
        Writer {
            seat,
            of: PhantomData,
        }
    }

    /// Adds an entry of the author, after all that the writer has seen. Returns a token that has
    /// seen it.
    pub fn add(&mut self, history: &GhostHistory<E, X, N>, entry: &E) -> Token<E, X, N>
        requires own { X.author entry.now ≡ self.old.author }
        requires none { X.permit entry.now ≡ None }
        requires may { MayAdd X.author X.permit X.holds self.old.seen [] entry.now }
        ensures added { IsAdded X.author self.old.seen [] entry.now self.new.seen }
        ensures author { self.new.author ≡ self.old.author }
        ensures next { self.new.next ≡ self.old.next }
        ensures token { result ≡ self.new.seen }
    {
        history.add(&mut self.seat, entry);
        Token::of(history.tell(&mut self.seat))
    }

    /// Adds an entry of the author, after all that the writer and the token have seen. Returns a
    /// token that has seen it.
    pub fn add_after(
        &mut self,
        history: &GhostHistory<E, X, N>,
        entry: &E,
        reported: Token<E, X, N>,
    ) -> Token<E, X, N>
        requires own { X.author entry.now ≡ self.old.author }
        requires none { X.permit entry.now ≡ None }
        requires may { MayAdd X.author X.permit X.holds self.old.seen reported entry.now }
        ensures added { IsAdded X.author self.old.seen reported entry.now self.new.seen }
        ensures author { self.new.author ≡ self.old.author }
        ensures next { self.new.next ≡ self.old.next }
        ensures token { result ≡ self.new.seen }
    {
        self.add_with(history, entry, Grant::without_permit(reported))
    }

    /// Adds an entry of the author, after all that the writer and the grant have seen, and uses the
    /// grant's permit up, if there is one. Returns a token that has seen it.
    pub fn add_with(
        &mut self,
        history: &GhostHistory<E, X, N>,
        entry: &E,
        grant: Grant<E, X, N>,
    ) -> Token<E, X, N>
        requires own { X.author entry.now ≡ self.old.author }
        requires permit { X.permit entry.now ≡ grant.permit }
        requires may { MayAdd X.author X.permit X.holds self.old.seen grant.seen entry.now }
        ensures added { IsAdded X.author self.old.seen grant.seen entry.now self.new.seen }
        ensures author { self.new.author ≡ self.old.author }
        ensures next { self.new.next ≡ self.old.next }
        ensures token { result ≡ self.new.seen }
        ensures holds { X.holds self.new.seen }
    {
        let Grant { seat, of: _ } = grant;
        history.hear(&mut self.seat, seat);
        history.add(&mut self.seat, entry);
        Token::of(history.tell(&mut self.seat))
    }

    /// Sees all that there is, and so all that the token has seen. The author has no more entries
    /// by it.
    pub fn learn(&mut self, history: &GhostHistory<E, X, N>, reported: Token<E, X, N>)
        ensures this { IsPrefix self.old.seen self.new.seen }
        ensures that { IsPrefix reported self.new.seen }
        ensures own { of X.author self.old.author self.new.seen ≡ of X.author self.old.author self.old.seen }
        ensures author { self.new.author ≡ self.old.author }
        ensures next { self.new.next ≡ self.old.next }
        ensures holds { X.holds self.new.seen }
    {
        let Token { seat, of: _ } = reported;
        history.hear(&mut self.seat, seat);
        history.look(&mut self.seat);
    }

    /// Returns a token that has seen as much.
    pub fn token(&mut self, history: &GhostHistory<E, X, N>) -> Token<E, X, N>
        ensures token { result ≡ self.old.seen }
        ensures same { self.new ≡ self.old }
        ensures holds { X.holds self.old.seen }
    {
        Token::of(history.tell(&mut self.seat))
    }

    /// Gives the next permit of a client, with all that its writer has seen.
    pub fn permit(&mut self, history: &GhostHistory<E, X, N>) -> Grant<E, X, N>
        ensures permit { (client : ℕ) → self.old.author ≡ Client client → result ≡ record { seen = self.old.seen; permit = Some (record { client = client; number = self.old.next }) } }
        ensures next { (client : ℕ) → self.old.author ≡ Client client → self.new.next ≡ self.old.next + 1 }
        ensures same { (self.new.author ≡ self.old.author) × (self.new.seen ≡ self.old.seen) }
    {
        Grant::of(history.permit(&mut self.seat))
    }
}
