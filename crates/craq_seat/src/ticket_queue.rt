//! `TicketQueue`: items that wait under rising tickets; used by `desk` and `seat`.
ghost use Rattle.std.specs.Prelude.{◌≡◌, ◌==◌, ◌++◌, ◌∷◌, [], filter, find, length, not, slice_index_or, take, true, ℕ, ◌<◌, ◌≤◌, IfErr, IfSome, IsSome, OnErr, OnOk};
ghost use Rattle.std.specs.List.{remove};
ghost use Rattle.std.specs.Option.{option_copied};
ghost use Rattle.std.specs.Set.{remove_key};
ghost use Rattle.craq_seat.specs.Queues.{IsPlace, Rises};

use craq_names::Ticket;
use std::alloc::{AllocError, AllocFailed, Global};
use std::collections::VecDeque;
use std::marker::Model;

/// An item that waits under a ticket.
pub trait Ticketed {
    ghost ticket_of: { Self → ℕ };

    /// Returns the ticket.
    fn ticket(&self) -> Ticket
        ensures { result ≡ ticket_of self.now };
}

/// Items that wait under tickets, in the order of arrival. A contract sees the list of them.
///
/// While tickets rise in the order of arrival, a binary search finds an item. Finding and removing
/// the first one takes constant time; removing another moves the items of its shorter side. If a ticket does
/// not rise, each item is looked at, until the queue is empty again.
#[derive(Drop)]
pub struct TicketQueue<T: Ticketed + Drop> {
    items: VecDeque<T>,
    /// If true, each ticket is below all later ones.
    rises: bool,
}

impl<T: Ticketed + Drop> Model for TicketQueue<T> {
    ghost use Rattle.std.specs.Prelude.{◌≡◌, true};
    ghost use Rattle.craq_seat.specs.Queues.{Queued, Rises};

    ghost Value = { Queued T };

    ghost view = { λ q. record { items = q.items.items } };

    ghost invariant = { λ q. q.rises ≡ true → Rises T.ticket_of q.items.items };
}

/// Returns the index of the first item under a ticket. Looks at the items one by one.
fn scan<T: Ticketed + Drop>(items: &VecDeque<T>, ticket: Ticket) -> Option<usize>
    ensures { IsPlace T.ticket_of ticket items.now.items result }
{
    let mut place = 0;
    while place < items.len() {
        if items[place].ticket() == ticket {
            return Some(place);
        }
        place += 1;
    }
    None
}

/// Returns the index to look at next: the first one, or else the middle of those that are left.
fn probe(low: usize, high: usize) -> usize
    requires { low < high }
    ensures within { low ≤ result }
    ensures below { result < high }
{
    if low == 0 { 0 } else { low + (high - low) / 2 }
}

/// Returns the index of the item under a ticket, by binary search among rising tickets. Looks at the
/// first item first, since the next reply is most often for it.
fn search<T: Ticketed + Drop>(items: &VecDeque<T>, ticket: Ticket) -> Option<usize>
    requires { Rises T.ticket_of items.now.items }
    ensures { IsPlace T.ticket_of ticket items.now.items result }
{
    let mut low = 0;
    let mut high = items.len();
    while low < high {
        let middle = probe(low, high);
        let found = items[middle].ticket();
        if found == ticket {
            return Some(middle);
        }
        if found < ticket {
            low = middle + 1;
        } else {
            high = middle;
        }
    }
    None
}

impl<T: Ticketed + Drop> TicketQueue<T> {
    /// Makes an empty queue. Never allocates.
    pub fn new(alloc: Global) -> Self
        ensures { result.items ≡ [] }
    {
        TicketQueue {
            items: VecDeque::new(alloc),
            rises: true,
        }
    }

    /// Reserves room for one more item. Fails only when out of memory.
    pub fn reserve(&mut self) -> Result<(), AllocError>
        ensures items { self.new.items ≡ self.old.items }
    {
        self.items.reserve(1)
    }

    /// Returns true if the tickets are known to rise with this item behind the others.
    fn rises_with(&self, item: &T) -> bool
        ensures { result ≡ true → Rises T.ticket_of (self.now.items ++ item.now ∷ []) }
    {
        match self.items.back() {
            None => true,
            Some(last) => self.rises && last.ticket() < item.ticket(),
        }
    }

    /// Appends an item. When out of memory, gives it back and leaves the queue unchanged.
    pub fn push(&mut self, item: T) -> Result<(), AllocFailed<T>>
        ensures ok { OnOk result (self.new.items ≡ self.old.items ++ item ∷ []) }
        ensures err { OnErr result (self.new ≡ self.old) }
        ensures back { IfErr result (λ refused. refused.value ≡ item) }
    {
        let rises = self.rises_with(&item);
        self.items.push_back(item)?;
        self.rises = rises;
        Ok(())
    }

    /// Returns the index of the first item under a ticket.
    fn place_of(&self, ticket: Ticket) -> Option<usize>
        ensures { IsPlace T.ticket_of ticket self.now.items result }
    {
        if self.rises {
            search(&self.items, ticket)
        } else {
            scan(&self.items, ticket)
        }
    }

    /// Returns the first item under a ticket.
    pub fn get(&self, ticket: Ticket) -> Option<&T>
        ensures { option_copied result ≡ find (λ x. T.ticket_of x == ticket) self.now.items }
    {
        match self.place_of(ticket) {
            Some(place) => Some(&self.items[place]),
            None => None,
        }
    }

    /// Removes the item at an index and returns it.
    fn take_at(&mut self, place: usize) -> Option<T>
        requires { place < length self.old.items }
        ensures item { IfSome result (λ x. x ≡ slice_index_or self.old.items place x) }
        ensures some { IsSome result }
        ensures others { self.new.items ≡ remove self.old.items place }
    {
        self.items.remove(place)
    }

    /// Removes the first item under a ticket and returns it. The others stay in their order.
    pub fn take(&mut self, ticket: Ticket) -> Option<T>
        ensures item { result ≡ find (λ x. T.ticket_of x == ticket) self.old.items }
        ensures others { self.new.items ≡ remove_key (λ x. T.ticket_of x == ticket) self.old.items }
    {
        match self.place_of(ticket) {
            Some(place) => self.take_at(place),
            None => None,
        }
    }

    /// Drops all items under a ticket. The others stay in their order.
    pub fn forget(&mut self, ticket: Ticket)
        ensures { self.new.items ≡ filter (λ x. not (T.ticket_of x == ticket)) self.old.items }
    {
        while let Some(item) = self.take(ticket) {
            drop(item);
        }
    }

    /// Returns the number of items.
    pub fn len(&self) -> usize
        ensures { result ≡ length self.now.items }
    {
        self.items.len()
    }

    /// Keeps the first `count` items and drops the others.
    pub fn truncate(&mut self, count: usize)
        ensures { self.new.items ≡ take count self.old.items }
    {
        self.items.truncate(count);
    }

    /// Returns all items, in the order of arrival.
    pub fn into_vec(self) -> Vec<T>
        ensures { result.items ≡ self.items }
    {
        let TicketQueue { items, rises: _ } = self;
        items.into_vec()
    }
}
