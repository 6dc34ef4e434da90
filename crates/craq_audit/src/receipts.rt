//! The request and the reply of each call receipt, looked up in the journals; used by `audit`.
ghost use Rattle.std.specs.Prelude.{◌≡◌, ◌↔◌, Some, IsTrue, MatchOption};
ghost use Rattle.std.specs.List.{AllByRecursion};
ghost use Rattle.craq_seat.specs.Audits.{IsAnswered, IsAsked};
ghost use Rattle.craq_audit.specs.Lookups.{Found, HasCall, HoldsCall, IsFirstNot, IsOut, Rise};

use crate::journals::{record_at, records_of};
use craq_model::{Answer, Ask, Event, Out};
use craq_names::{Same, Stamp, Ticket};
use craq_node::Core;
use craq_seat::{CallReceipt, Cell, Record};

/// Returns true if the event is this request.
fn is_ask(event: &Event, ask: &Ask) -> bool
    ensures { IsTrue result ↔ (event.now ≡ Event.Ask ask.now) }
{
    match event {
        Event::Ask(asked) => asked.is_same(ask),
        Event::Deliver(_) => false,
        Event::Tick => false,
        Event::Stop => false,
    }
}

/// Returns true if one of the outputs is this reply.
fn has_answer(outs: &[Out], ticket: Ticket, answer: &Answer) -> bool
    ensures { IsTrue result ↔ Found (IsOut (Out.Answer ticket answer.now)) outs.now }
{
    for out in outs {
        if let Out::Answer {
            ticket: own,
            answer: given,
        } = out
        {
            if *own == ticket && given.is_same(answer) {
                return true;
            }
        }
    }
    false
}

/// Returns true if this is the ticket.
fn is_ticket(own: Option<Ticket>, ticket: Ticket) -> bool
    ensures { IsTrue result ↔ (own ≡ Some ticket) }
{
    match own {
        None => false,
        Some(own) => own == ticket,
    }
}

/// Returns true if the record is of the call's request, with its ticket and its pass.
fn is_call(taken: &Record<Event>, receipt: &CallReceipt) -> bool
    ensures { IsTrue result ↔ (taken.now.event ≡ Event.Ask receipt.now.call.ask) × (taken.now.pass ≡ receipt.now.call.pass) × (taken.now.step.ticket ≡ Some receipt.now.call.ticket) }
{
    taken.pass == receipt.pass()
        && is_ticket(taken.step.ticket, receipt.ticket())
        && is_ask(&taken.event, receipt.ask())
}

/// Returns true if the records have the call's request, with its ticket and its pass.
fn is_asked(records: &[Record<Event>], receipt: &CallReceipt) -> bool
    requires { Rise records.now }
    ensures { IsTrue result ↔ IsAsked records.now receipt.now.call }
{
    match record_at(records, receipt.asked().stamp) {
        None => false,
        Some(record) => is_call(record, receipt),
    }
}

/// Returns true if the records have the call's reply.
fn is_answered(records: &[Record<Event>], receipt: &CallReceipt) -> bool
    requires { Rise records.now }
    ensures { IsTrue result ↔ IsAnswered records.now receipt.now.answered.stamp receipt.now.call.ticket receipt.now.answer }
{
    match record_at(records, receipt.answered().stamp) {
        None => false,
        Some(record) => has_answer(
            record.step.outs.as_slice(),
            receipt.ticket(),
            receipt.answer(),
        ),
    }
}

/// Returns true if the journal of the call's node has the request and the reply.
fn has_call<C: Core>(cells: &[&Cell<C>], receipt: &CallReceipt) -> bool
    ensures { IsTrue result ↔ Found (HasCall receipt.now) cells.now }
{
    for cell in cells {
        let records = records_of(cell);
        if cell.opening().name.node == receipt.asked().node
            && is_asked(records, receipt)
            && is_answered(records, receipt)
        {
            return true;
        }
    }
    false
}

/// Returns true if the call's request and reply are in the journal of one node, that of the call.
fn is_held<C: Core>(cells: &[&Cell<C>], receipt: &CallReceipt) -> bool
    ensures { IsTrue result ↔ HoldsCall cells.now receipt.now }
{
    receipt.answered().node == receipt.asked().node && has_call(cells, receipt)
}

/// Returns the index, from 0, of the first call receipt that is of no step.
pub(crate) fn first_unheld<C: Core>(cells: &[&Cell<C>], receipts: &[CallReceipt]) -> Option<u64>
    ensures { MatchOption result (AllByRecursion (HoldsCall cells.now) receipts.now) (IsFirstNot (HoldsCall cells.now) receipts.now) }
{
    for (index, receipt) in receipts.iter().enumerate() {
        if !is_held(cells, receipt) {
            return Some(index as u64);
        }
    }
    None
}
