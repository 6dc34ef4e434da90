//! `GhostHistory`: a list of entries that only grows, in the proofs alone; and the seats that know
//! prefixes of it.
ghost use Rattle.std.specs.Prelude.{◌≡◌, [], Some};
ghost use Rattle.craq_ghost_history.specs.Authors.{MayGive, MayUse, Owns};
ghost use Rattle.craq_ghost_history.specs.Histories.{MayAdd};
ghost use Rattle.craq_ghost_history.specs.Views.{Extends, Looks, after_giving, after_permitting, given, informed, permitted, witness};

use crate::author::{Author, Right};
use atomic_table::{Join, Play, Seat, Split, Table, TableRule};
use std::alloc::Global;
use std::collections::LinkedList;
use std::marker::{Brand, PhantomData};
use std::sync::Mutex;

/// Gives the author of each entry, the permit that it uses up, and the rule that every history
/// keeps.
pub trait HistoryRule<E> {
    ghost use Rattle.std.specs.Prelude.{List, Option};
    ghost use Rattle.craq_ghost_history.specs.declared.author.Author.{Author};
    ghost use Rattle.craq_ghost_history.specs.declared.author.Permit.{Permit};

    ghost author: { E → Author };

    ghost permit: { E → Option Permit };

    ghost holds: { List E → Type 0 };
}

/// Names a history in the types. A program picks the name once, where it passes `Brand`.
pub trait Named {
    ghost use Rattle.craq_ghost_history.specs.Histories.{HistoryId};

    ghost history: { HistoryId };
}

impl Named for Brand {
    ghost use Rattle.craq_ghost_history.specs.Views.{no_history};

    ghost history = { no_history };
}

/// The knowledge of a seat: a prefix of the history that it has seen, another that it has learned
/// from a seat, its right, and the permits that it got from that seat. No value of it is made.
pub struct View<E> {
    pub seen: LinkedList<E>,
    pub reported: LinkedList<E>,
    pub right: Right,
    pub lent: Right,
}

/// The rule of the table under a history.
pub struct Law<X> {
    of: PhantomData<X>,
}

impl<E, X: HistoryRule<E>> TableRule<u8, View<E>, ()> for Law<X> {
    ghost use Rattle.craq_ghost_history.specs.Views.{Kept, first_view};

    ghost holds = { λ key s. Kept X.author X.permit X.holds s.views };

    ghost first = { λ key. first_view };
}

/// The entry that a step adds. Each call picks it.
pub(crate) trait Saying<E> {
    ghost use Rattle.std.specs.Prelude.{Option};

    ghost entry: { Option E };
}

impl<E> Saying<E> for Brand {
    ghost use Rattle.std.specs.Prelude.{None};

    ghost entry = { None };
}

/// A step that adds this entry.
struct Adding<X, K> {
    of: PhantomData<(X, K)>,
}

impl<E, X: HistoryRule<E>, K: Saying<E>> Play<u8, View<E>> for Adding<X, K> {
    ghost use Rattle.craq_ghost_history.specs.Views.{Adds};

    ghost then = { λ s m n w. Adds X.author X.holds K.entry m w };
}

/// A step that looks.
struct Looking<X> {
    of: PhantomData<X>,
}

impl<E, X: HistoryRule<E>> Play<u8, View<E>> for Looking<X> {
    ghost use Rattle.craq_ghost_history.specs.Views.{Sees};

    ghost then = { λ s m n w. Sees X.author X.holds m w };
}

/// A seat tells what it has seen.
struct Telling;

impl<E> Split<View<E>> for Telling {
    ghost use Rattle.craq_ghost_history.specs.Views.{witness};

    ghost left = { λ v. v };

    ghost right = { λ v. witness v };
}

/// The author whose right a seat gives away. Each call picks it.
pub(crate) trait Choosing {
    ghost use Rattle.craq_ghost_history.specs.declared.author.Author.{Author};

    ghost chosen: { Author };
}

impl Choosing for Brand {
    ghost use Rattle.craq_ghost_history.specs.Views.{no_author};

    ghost chosen = { no_author };
}

/// A seat gives the right to this author's entries away.
struct Giving<K> {
    of: PhantomData<K>,
}

impl<E, K: Choosing> Split<View<E>> for Giving<K> {
    ghost use Rattle.craq_ghost_history.specs.Views.{after_giving, given};

    ghost left = { λ v. after_giving K.chosen v };

    ghost right = { λ v. given K.chosen v };
}

/// A seat gives the next of its permits away.
struct Permitting;

impl<E> Split<View<E>> for Permitting {
    ghost use Rattle.craq_ghost_history.specs.Views.{after_permitting, permitted};

    ghost left = { λ v. after_permitting v };

    ghost right = { λ v. permitted v };
}

/// A seat learns the prefix that another has seen, and gets its permits.
struct Hearing;

impl<E> Join<View<E>> for Hearing {
    ghost use Rattle.craq_ghost_history.specs.Views.{informed, spent};

    ghost both = { λ v w. informed v w };

    ghost spent = { spent };
}

/// The history that the threads of a store share. It holds one word, which nobody writes: each step
/// is a load of it.
#[derive(Drop)]
pub struct GhostHistory<E, X: HistoryRule<E>, N: Named> {
    pub(crate) table: Table<u8, View<E>, (), Law<X>, Global>,
    /// Threads share it wherever `N` may cross threads: a lock of one may be shared.
    pub(crate) of: PhantomData<Mutex<N>>,
    ghost is: { (table.shared.table_id ≡ N.history) × (N.history.words ≡ 1) },
}

impl<E, X: HistoryRule<E>, N: Named> GhostHistory<E, X, N> {
    /// Adds an entry. All that runs is a load.
    pub(crate) fn add(&self, seat: &mut Seat<u8, View<E>>, entry: &E)
        requires table { seat.old.table_id ≡ N.history }
        requires owns { Owns seat.old.me.0.right (X.author entry.now) }
        requires uses { MayUse seat.old.me.0.lent (X.permit entry.now) }
        requires may { MayAdd X.author X.permit X.holds seat.old.me.0.seen seat.old.me.0.reported entry.now }
        ensures table { (seat.new.table_id ≡ N.history) × (seat.new.me.1 ≡ seat.old.me.1) }
        ensures adds { Extends X.author X.holds seat.old.me.0 entry.now seat.new.me.0 }
    {
        self.add_as::<Brand>(seat, entry);
    }

    fn add_as<K: Saying<E>>(&self, seat: &mut Seat<u8, View<E>>, entry: &E)
        requires entry { K.entry ≡ Some entry.now }
        requires table { seat.old.table_id ≡ N.history }
        requires owns { Owns seat.old.me.0.right (X.author entry.now) }
        requires uses { MayUse seat.old.me.0.lent (X.permit entry.now) }
        requires may { MayAdd X.author X.permit X.holds seat.old.me.0.seen seat.old.me.0.reported entry.now }
        ensures table { (seat.new.table_id ≡ N.history) × (seat.new.me.1 ≡ seat.old.me.1) }
        ensures adds { Extends X.author X.holds seat.old.me.0 entry.now seat.new.me.0 }
    {
        let _ = entry;
        self.table.shared.load::<Adding<X, K>>(seat, 0);
    }

    /// Sees all that there is.
    pub(crate) fn look(&self, seat: &mut Seat<u8, View<E>>)
        requires table { seat.old.table_id ≡ N.history }
        ensures table { (seat.new.table_id ≡ N.history) × (seat.new.me.1 ≡ seat.old.me.1) }
        ensures looks { Looks X.author X.holds seat.old.me.0 seat.new.me.0 }
    {
        self.table.shared.load::<Looking<X>>(seat, 0);
    }

    /// Returns a seat without a right that has seen as much.
    pub(crate) fn tell(&self, seat: &mut Seat<u8, View<E>>) -> Seat<u8, View<E>>
        requires table { seat.old.table_id ≡ N.history }
        ensures same { (seat.new.table_id ≡ N.history) × (seat.new.me ≡ seat.old.me) }
        ensures reported { (result.table_id ≡ N.history) × (result.me ≡ (witness seat.old.me.0, [])) }
    {
        self.table.shared.split_seat::<Telling>(seat)
    }

    /// Returns a seat with the right to the entries of an author whose right this one has.
    pub(crate) fn give(&self, seat: &mut Seat<u8, View<E>>, author: Author) -> Seat<u8, View<E>>
        requires table { seat.old.table_id ≡ N.history }
        requires owns { MayGive seat.old.me.0.right author }
        ensures left { (seat.new.table_id ≡ N.history) × (seat.new.me ≡ (after_giving author seat.old.me.0, seat.old.me.1)) }
        ensures given { (result.table_id ≡ N.history) × (result.me ≡ (given author seat.old.me.0, [])) }
    {
        self.give_as::<Brand>(seat, author)
    }

    fn give_as<K: Choosing>(
        &self,
        seat: &mut Seat<u8, View<E>>,
        author: Author,
    ) -> Seat<u8, View<E>>
        requires author { author ≡ K.chosen }
        requires table { seat.old.table_id ≡ N.history }
        requires owns { MayGive seat.old.me.0.right author }
        ensures left { (seat.new.table_id ≡ N.history) × (seat.new.me ≡ (after_giving author seat.old.me.0, seat.old.me.1)) }
        ensures given { (result.table_id ≡ N.history) × (result.me ≡ (given author seat.old.me.0, [])) }
    {
        let _ = author;
        self.table.shared.split_seat::<Giving<K>>(seat)
    }

    /// Returns a seat with the next permit of this one, which has seen as much.
    pub(crate) fn permit(&self, seat: &mut Seat<u8, View<E>>) -> Seat<u8, View<E>>
        requires table { seat.old.table_id ≡ N.history }
        ensures left { (seat.new.table_id ≡ N.history) × (seat.new.me ≡ (after_permitting seat.old.me.0, seat.old.me.1)) }
        ensures given { (result.table_id ≡ N.history) × (result.me ≡ (permitted seat.old.me.0, [])) }
    {
        self.table.shared.split_seat::<Permitting>(seat)
    }

    /// Tells the seat what another has seen, and gives it the other's permits. The other is spent.
    pub(crate) fn hear(&self, seat: &mut Seat<u8, View<E>>, other: Seat<u8, View<E>>)
        requires table { (seat.old.table_id ≡ N.history) × (other.table_id ≡ N.history) × (other.me.1 ≡ []) }
        ensures { (seat.new.table_id ≡ N.history) × (seat.new.me ≡ (informed seat.old.me.0 other.me.0, seat.old.me.1)) }
    {
        self.table.shared.join_seat::<Hearing>(seat, other);
    }
}
