//! Tests whether cells are those of a chain; used by `audit` before it merges them.
ghost use Rattle.std.specs.Prelude.{◌≡◌, ◌↔◌, IsTrue, IsSome, map, Contains};
ghost use Rattle.std.specs.List.{AllByRecursion};
ghost use Rattle.std.specs.Option.{option_copied};
ghost use Rattle.std.specs.Borrow.{Bor};
ghost use Rattle.craq_model.specs.declared.ask.Event.{Event};
ghost use Rattle.craq_seat.specs.declared.journal.Record.{Record};
ghost use Rattle.craq_seat.specs.declared.journal.BookEvent.{BookEvent};
ghost use Rattle.craq_seat.specs.Audits.{AreOfChain, IsOpenedFirst, IsOpenedLater, NamesItsStop, id_of};
ghost use Rattle.craq_epochs.specs.Mastered.{Mastered};
ghost use Rattle.craq_seat.specs.Books as books;
ghost use Rattle.craq_seat.specs.Cells.{Celled};
ghost use Rattle.craq_audit.specs.Chained.{HasCell, HaveIds, IsOfChain};
ghost use Rattle.craq_audit.specs.Journals.{journals_of};
ghost use Rattle.craq_audit.specs.Lookups.{BearsStop, Found, HasStop, HaveStop, HoldsStop, Rise, cells_of};

use crate::journals::{book_records, keep_book, record_at, records_of};
use craq_epochs::is_among;
use craq_model::{Config, Event};
use craq_names::{NodeId, Same, Stamp};
use craq_node::Core;
use craq_seat::{BookCell, BookEvent, Cell, Opening, Receipt, Record};

/// Returns true if one of the cells is that of this node.
fn has_cell<C: Core>(cells: &[&Cell<C>], id: NodeId) -> bool
    ensures { IsTrue result ↔ HasCell cells.now id }
{
    for cell in cells {
        if cell.opening().name.node == id {
            return true;
        }
    }
    false
}

/// Returns true if there are as many cells as ids, and one for each id.
fn have_ids<C: Core>(used: &[NodeId], cells: &[&Cell<C>]) -> bool
    ensures { IsTrue result ↔ HaveIds used.now cells.now }
{
    for id in used {
        if !has_cell(cells, *id) {
            return false;
        }
    }
    cells.len() == used.len()
}

/// Returns true if the two memberships are equal, or both absent.
fn is_same_config(one: &Option<Config>, other: &Option<Config>) -> bool
    ensures { IsTrue result ↔ (one.now ≡ other.now) }
{
    match (one, other) {
        (None, None) => true,
        (Some(one), Some(other)) => one.is_same(other),
        _ => false,
    }
}

/// Returns the members of the membership with which a cell was opened.
pub(crate) fn members_of(opening: &Opening) -> &[NodeId]
    ensures { result.now ≡ books.members_of opening.now.config }
{
    match &opening.config {
        None => &[],
        Some(config) => config.members.as_slice(),
    }
}

/// Returns true if the node is a member of the first membership.
fn is_first_member(book: &BookCell, id: NodeId) -> bool
    ensures { IsTrue result ↔ Contains (books.members_of book.now.opening.config) id }
{
    is_among(members_of(book.opening()), id)
}

/// Returns true if the cell was opened as that of a member of the first membership.
fn is_opened_first(book: &BookCell, opening: &Opening) -> bool
    ensures { IsTrue result ↔ IsOpenedFirst book.now opening.now }
{
    opening.stamp.get() == 0
        && is_same_config(&opening.config, &book.opening().config)
        && is_first_member(book, opening.name.node)
}

/// Returns true if the event is this node's join.
fn is_join(event: &BookEvent, id: NodeId) -> bool
    ensures { IsTrue result ↔ (event.now ≡ BookEvent.Join id) }
{
    match event {
        BookEvent::Join(joined) => *joined == id,
        BookEvent::Remove { .. } => false,
        BookEvent::Tick => false,
    }
}

/// Returns true if the cell was opened as that of a node that joined.
fn is_opened_later(records: &[Record<BookEvent>], opening: &Opening) -> bool
    requires { Rise records.now }
    ensures { IsTrue result ↔ IsOpenedLater records.now opening.now }
{
    if opening.config.is_some() {
        return false;
    }
    match record_at(records, opening.stamp) {
        None => false,
        Some(record) => is_join(&record.event, opening.name.node),
    }
}

/// Returns true if each cell is of the master's chain, and was opened as its node became a member.
fn are_opened<C: Core>(book: &BookCell, cells: &[&Cell<C>]) -> bool
    ensures { IsTrue result ↔ AllByRecursion (IsOfChain book.now) cells.now }
{
    for cell in cells {
        let opening = cell.opening();
        if opening.name.chain != book.opening().name.chain {
            return false;
        }
        if !is_opened_first(book, opening) && !is_opened_later(book_records(book), opening) {
            return false;
        }
    }
    true
}

/// Returns true if the records have the stop of this stamp.
fn have_stop(records: &[Record<Event>], stamp: Stamp) -> bool
    requires { Rise records.now }
    ensures { IsTrue result ↔ HaveStop records.now stamp }
{
    match record_at(records, stamp) {
        None => false,
        Some(record) => match &record.event {
            Event::Stop => true,
            _ => false,
        },
    }
}

/// Returns true if the receipt names a step in which a node stopped.
fn is_stop<C: Core>(cells: &[&Cell<C>], stop: &Receipt) -> bool
    ensures { IsTrue result ↔ Found (HasStop stop.now) cells.now }
{
    for cell in cells {
        if cell.opening().name.node == stop.node && have_stop(records_of(cell), stop.stamp) {
            return true;
        }
    }
    false
}

/// Returns true if a removal names the step in which its node stopped; always true for other
/// events.
fn names_its_stop<C: Core>(cells: &[&Cell<C>], event: &BookEvent) -> bool
    ensures { IsTrue result ↔ HoldsStop cells.now event.now }
{
    match event {
        BookEvent::Join(_) => true,
        BookEvent::Remove { stopped, stop } => {
            stop.node == stopped.name().node && is_stop(cells, stop)
        }
        BookEvent::Tick => true,
    }
}

/// Returns true if each removal names the step in which its node stopped.
fn name_their_stops<C: Core>(cells: &[&Cell<C>], records: &[Record<BookEvent>]) -> bool
    ensures { IsTrue result ↔ AllByRecursion (BearsStop cells.now) records.now }
{
    for record in records {
        if !names_its_stop(cells, &record.event) {
            return false;
        }
    }
    true
}

/// Returns true if the cells are those of the master's chain: one for each id that ever was a
/// member, opened as it became one; and if each removal had the receipt of its node's own stop.
pub(crate) fn are_of_chain<C: Core>(book: &BookCell, cells: &[&Cell<C>]) -> bool
    requires { IsSome book.now.journal }
    ensures { IsTrue result ↔ AreOfChain book.now (cells_of cells.now) (journals_of book.now (cells_of cells.now)) }
{
    keep_book(book);
    if !have_ids(book.used(), cells) {
        return false;
    }
    if !are_opened(book, cells) {
        return false;
    }
    name_their_stops(cells, book_records(book))
}
