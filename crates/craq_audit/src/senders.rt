//! The sending of each message that arrived, looked up in the journals; used by `audit`.
ghost use Rattle.std.specs.Prelude.{ℕ, List, [], ◌∷◌, ◌++◌, ◌≡◌, ◌↔◌, ⊤, ◌<◌, IsTrue, MatchOption};
ghost use Rattle.std.specs.List.{AllByRecursion};
ghost use Rattle.std.specs.Borrow.{Bor};
ghost use Rattle.craq_model.specs.declared.ask.Event.{Event};
ghost use Rattle.craq_seat.specs.declared.journal.Record.{Record};
ghost use Rattle.craq_seat.specs.Audits.{HasSender, IsFirstUnsent, IsOfSent, WasSent};
ghost use Rattle.craq_seat.specs.Cells.{Celled};
ghost use Rattle.craq_audit.specs.Journals.{AreSent, journals_of, kept_of, records_in};
ghost use Rattle.craq_audit.specs.Lookups.{Found, HasSent, HaveSent, IsBest, IsFirstNot, IsNamed, IsSend, Rise, cells_of};

use crate::journals::{book_records, record_at, records_of};
use craq_chain::message_after;
use craq_model::{Event, LinkMessage, Step};
use craq_names::{NodeId, Same, Stamp};
use craq_node::Core;
use craq_seat::{BookCell, Cell, Record};

/// Returns true if two messages are equal up to the name of the sending.
fn is_named(sent: &LinkMessage, message: &LinkMessage) -> bool
    ensures { IsTrue result ↔ IsNamed sent.now message.now }
{
    sent.chain == message.chain
        && sent.receiver == message.receiver
        && sent.epoch == message.epoch
        && sent.body.is_same(&message.body)
}

/// Returns true if the step sends the message under its index.
fn is_send(step: &Step, message: &LinkMessage) -> bool
    ensures { IsTrue result ↔ IsSend step.now message.now }
{
    match message_after(step.outs.as_slice(), message.index as usize) {
        None => false,
        Some(sent) => is_named(sent, message),
    }
}

/// Returns true if the records have the sending of the message.
fn have_sent<E>(records: &[Record<E>], message: &LinkMessage) -> bool
    requires { Rise records.now }
    ensures { IsTrue result ↔ HaveSent records.now message.now }
{
    match record_at(records, message.stamp) {
        None => false,
        Some(record) => is_send(&record.step, message),
    }
}

/// Returns true if the journal of the message's sender, a node, has its sending.
fn node_has_sent<C: Core>(cells: &[&Cell<C>], message: &LinkMessage) -> bool
    ensures { IsTrue result ↔ Found (HasSent message.now) cells.now }
{
    for cell in cells {
        if cell.opening().name.node == message.sender && have_sent(records_of(cell), message) {
            return true;
        }
    }
    false
}

/// Returns true if the message's sender is the master, and its journal has the sending.
fn book_has_sent(book: &BookCell, message: &LinkMessage) -> bool
    ensures { IsTrue result ↔ (message.now.sender ≡ 0) × HaveSent (records_in book.now.journal) message.now }
{
    message.sender.get() == 0 && have_sent(book_records(book), message)
}

/// Returns true if the message was sent, by a node or the master, in a step of a lower stamp.
fn was_sent<C: Core>(
    book: &BookCell,
    cells: &[&Cell<C>],
    stamp: Stamp,
    message: &LinkMessage,
) -> bool
    ensures { IsTrue result ↔ WasSent (journals_of book.now (cells_of cells.now)) stamp message.now }
{
    if message.stamp >= stamp {
        return false;
    }
    if book_has_sent(book, message) {
        return true;
    }
    node_has_sent(cells, message)
}

/// Returns true unless the event of this stamp is the delivery of a message that was not sent.
fn has_sender<C: Core>(book: &BookCell, cells: &[&Cell<C>], taken: &Record<Event>) -> bool
    ensures { IsTrue result ↔ HasSender (journals_of book.now (cells_of cells.now)) taken.now }
{
    match &taken.event {
        Event::Ask(_) => true,
        Event::Deliver(message) => was_sent(book, cells, taken.stamp, message),
        Event::Tick => true,
        Event::Stop => true,
    }
}

/// Returns the index, from 0, of the first record whose message was not sent.
fn first_among<C: Core>(
    book: &BookCell,
    cells: &[&Cell<C>],
    records: &[Record<Event>],
) -> Option<u64>
    ensures { let j = journals_of book.now (cells_of cells.now) in MatchOption result (AllByRecursion (HasSender j) records.now) (IsFirstNot (HasSender j) records.now) }
{
    for (index, record) in records.iter().enumerate() {
        if !has_sender(book, cells, record) {
            return Some(index as u64);
        }
    }
    None
}

/// Returns true if a node's id is below that of the finding, or there is no finding.
fn is_lower(id: NodeId, found: &Option<(NodeId, u64)>) -> bool
    ensures { IsTrue result ↔ MatchOption found.now ⊤ (λ f. id < f.0) }
{
    match found {
        None => true,
        Some((node, _)) => id < *node,
    }
}

/// Returns the finding of the lower node id: that of the other nodes, or this node's first delivery
/// whose message was not sent.
fn lower_of<C: Core>(
    book: &BookCell,
    cells: &[&Cell<C>],
    cell: &Cell<C>,
    found: Option<(NodeId, u64)>,
) -> Option<(NodeId, u64)>
    ensures { let j = journals_of book.now (cells_of cells.now) in (others : List (ℕ × List (Record Event))) → IsBest j others found → IsBest j (others ++ kept_of cell.now ∷ []) result }
{
    let id = cell.opening().name.node;
    if !is_lower(id, &found) {
        return found;
    }
    match first_among(book, cells, records_of(cell)) {
        None => found,
        Some(index) => Some((id, index)),
    }
}

/// Returns the first delivery of a message that was not sent: the node's id and the index in its
/// journal, from 0. Nodes are ordered by ascending id, then deliveries by index.
pub(crate) fn first_unsent<C: Core>(book: &BookCell, cells: &[&Cell<C>]) -> Option<(NodeId, u64)>
    ensures { let j = journals_of book.now (cells_of cells.now) in MatchOption result (AreSent j) (λ f. IsFirstUnsent j f.0 f.1) }
{
    let mut found = None;
    for cell in cells {
        found = lower_of(book, cells, cell, found);
    }
    found
}
