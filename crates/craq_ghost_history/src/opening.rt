//! `Opened`: a history before its first entry; and `Registrar`, which gives each author's right
//! once.
ghost use Rattle.std.specs.Prelude.{◌≡◌, ◌+◌, ◌-◌, ◌^◌, ◌∷◌, ◌++◌, [], IfSome, IsNone, true};
ghost use Rattle.craq_ghost_history.specs.Authors.{is_used};
ghost use Rattle.craq_ghost_history.specs.declared.author.Author.TheVariants.{Client};

use crate::author::Author;
use crate::history::{GhostHistory, HistoryRule, Law, Named, View};
use crate::token::Token;
use crate::writer::Writer;
use atomic_table::{Seat, Table};
use std::alloc::{AllocError, Global};
use std::marker::{Model, PhantomData};

/// A history before its first entry. It has no name yet.
#[derive(Drop)]
pub struct Opened<E, X: HistoryRule<E>> {
    table: Table<u8, View<E>, (), Law<X>, Global>,
    seat: Seat<u8, View<E>>,
}

impl<E, X: HistoryRule<E>> Model for Opened<E, X> {
    ghost use Rattle.craq_ghost_history.specs.Histories.{HistoryId};
    ghost use Rattle.craq_ghost_history.specs.Views.{IsOpened};

    ghost Value = { HistoryId };

    ghost view = { λ o. o.table.shared.table_id };

    ghost invariant = { λ o. IsOpened X.holds o.table.shared.table_id o.seat };
}

/// Gives the right to each author's entries once.
#[derive(Drop)]
pub struct Registrar<E, X: HistoryRule<E>, N: Named> {
    used: Vec<Author>,
    next: u64,
    seat: Seat<u8, View<E>>,
    of: PhantomData<(X, N)>,
}

impl<E, X: HistoryRule<E>, N: Named> Model for Registrar<E, X, N> {
    ghost use Rattle.craq_ghost_history.specs.Views.{Given, IsRegistrar};

    ghost Value = { Given };

    ghost view = { λ r. record { used = r.used.items; next = r.next } };

    ghost invariant = { λ r. IsRegistrar X.holds N.history r.used.items r.next r.seat };
}

impl<E, X: HistoryRule<E>> Opened<E, X> {
    /// Opens a history, if there is memory. The rule has to hold of no entries.
    pub fn new(alloc: Global) -> Result<Self, AllocError>
        requires { X.holds [] }
    {
        let (table, seat) = Table::of_words(alloc, &[0], &())?;
        Ok(Opened { table, seat })
    }

    /// Returns the history under a name, and the registrar, which gives the rights to its entries.
    pub fn named<N: Named>(self, alloc: Global) -> (GhostHistory<E, X, N>, Registrar<E, X, N>)
        requires { self ≡ N.history }
    {
        let Opened { table, seat } = self;
        (
            GhostHistory {
                table,
                of: PhantomData,
            },
            Registrar {
                used: Vec::new(alloc),
                next: 0,
                seat,
                of: PhantomData,
            },
        )
    }
}

/// Tells if the right of this node was given.
fn is_given(used: &[Author], chain: u64, node: u64) -> bool
    ensures { result ≡ is_used used.now (Author.Node chain node) }
{
    used.iter().any(|k| match k {
        Author::Node {
            chain: its_chain,
            node: its_node,
        } => *its_chain == chain && *its_node == node,
        Author::Client(_) => false,
    })
}

impl<E, X: HistoryRule<E>, N: Named> Registrar<E, X, N> {
    /// Gives the right to the entries of this node, or of a chain's master as node 0. None: it was
    /// given before, or there is no memory.
    pub fn node(
        &mut self,
        history: &GhostHistory<E, X, N>,
        chain: u64,
        node: u64,
    ) -> Option<Writer<E, X, N>>
        ensures writer { IfSome result (λ w. (w.author ≡ Author.Node chain node) × (w.seen ≡ [])) }
        ensures once { is_used self.old.used (Author.Node chain node) ≡ true → IsNone result }
    {
        if is_given(self.used.as_slice(), chain, node) {
            return None;
        }
        self.used.reserve(1).ok()?;
        let author = Author::Node { chain, node };
        let seat = history.give(&mut self.seat, author);
        self.used.push_reserved(author);
        Some(Writer::of(seat))
    }

    /// Reserves room for one more right, so that the next call of `node` needs no memory.
    pub fn make_room(&mut self) -> Result<(), AllocError>
        ensures { self.new ≡ self.old }
    {
        self.used.reserve(1)
    }

    /// Returns a token that has seen nothing yet.
    pub fn token(&mut self, history: &GhostHistory<E, X, N>) -> Token<E, X, N>
        ensures token { result ≡ [] }
        ensures same { self.new ≡ self.old }
    {
        Token::of(history.tell(&mut self.seat))
    }

    /// Returns the number of the next client.
    pub fn next_client(&self) -> u64
        ensures { result ≡ self.now.next }
    {
        self.next
    }

    /// Gives the right to the entries of a new session of a client, and to all its permits. None,
    /// with nothing changed: 2^64 - 1 were given.
    pub fn client(&mut self, history: &GhostHistory<E, X, N>) -> Option<Writer<E, X, N>>
        ensures given { IfSome result (λ w. (w.author ≡ Client self.old.next) × (w.next ≡ 0) × (w.seen ≡ []) × (self.new.next ≡ self.old.next + 1)) }
        ensures none { IsNone result → (self.old.next ≡ 2 ^ 64 - 1) × (self.new ≡ self.old) }
    {
        if self.next == u64::MAX {
            return None;
        }
        let seat = history.give(&mut self.seat, Author::Client(self.next));
        self.next += 1;
        Some(Writer::of(seat))
    }
}
