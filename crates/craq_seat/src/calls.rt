//! Calls that wait at a desk, and their receipts once a step answers them; used by `desk`.
ghost use Rattle.std.specs.Prelude.{◌≡◌, ◌∷◌, ◌++◌, [], if◌then◌else◌, IfOk, IfSome, OnErr, OnOk, Some};
ghost use Rattle.std.specs.List.{list_any};
ghost use Rattle.std.specs.Option.{option_to_list};
ghost use Rattle.craq_node_invariant.specs.Sound.{AreEncodable, IsEncodableAnswer, IsEncodableOut};
ghost use Rattle.craq_seat.specs.Calls.{AnswersItself, Serves, ServesAsked, accepted, all_answered, answered_call, answers_to, ask_of, call_under, called_by, called_in, is_answer, left_by, waiting_after, without_call};

use crate::{Receipt, TicketQueue, Ticketed};
use craq_model::{Answer, Ask, Event, Out, Step};
use craq_names::{Copied, Pass, Ticket};
use std::alloc::{AllocError, Global};
use std::marker::Model;

/// A request that a node accepted and has not answered: the step that accepted it, its ticket
/// there, and the pass that came with it.
#[derive(Debug, Drop)]
pub struct Call {
    pub asked: Receipt,
    pub ticket: Ticket,
    pub pass: Pass,
    pub ask: Ask,
}

impl Ticketed for Call {
    ghost ticket_of = { λ call. call.ticket };

    fn ticket(&self) -> Ticket {
        self.ticket
    }
}

impl Copied for Call {
    fn copied(&self, alloc: Global) -> Result<Self, AllocError> {
        Ok(Call {
            asked: self.asked,
            ticket: self.ticket,
            pass: self.pass,
            ask: self.ask.copied(alloc)?,
        })
    }
}

/// A call with its reply, which has an encoding, and the step that gave it. Only a desk makes these.
#[derive(Debug, Drop)]
pub struct CallReceipt {
    call: Call,
    answered: Receipt,
    answer: Answer,
}

impl Model for CallReceipt {
    ghost use Rattle.craq_node_invariant.specs.Sound.{IsEncodableAnswer};
    ghost use Rattle.craq_seat.specs.Calls.{Called};

    ghost Value = { Called };

    ghost view = { λ c. record { call = c.call; answered = c.answered; answer = c.answer } };

    ghost invariant = { λ c. IsEncodableAnswer c.answer };
}

impl CallReceipt {
    /// Returns the receipt of the step that accepted the request.
    pub fn asked(&self) -> Receipt
        ensures { result ≡ self.now.call.asked }
    {
        self.call.asked
    }

    /// Returns the receipt of the step that answered it.
    pub fn answered(&self) -> Receipt
        ensures { result ≡ self.now.answered }
    {
        self.answered
    }

    /// Returns the request's ticket at its node.
    pub fn ticket(&self) -> Ticket
        ensures { result ≡ self.now.call.ticket }
    {
        self.call.ticket
    }

    /// Returns the pass that came with the request.
    pub fn pass(&self) -> Pass
        ensures { result ≡ self.now.call.pass }
    {
        self.call.pass
    }

    /// Returns the request.
    pub fn ask(&self) -> &Ask
        ensures { result.now ≡ self.now.call.ask }
    {
        &self.call.ask
    }

    /// Returns the reply, which has an encoding.
    pub fn answer(&self) -> &Answer
        ensures value { result.now ≡ self.now.answer }
        ensures encodable { IsEncodableAnswer self.now.answer }
    {
        &self.answer
    }
}

/// A step that was taken, with its receipt and the pass that came with its event.
#[derive(Clone, Copy)]
pub(crate) struct TakenStep<'a> {
    pub step: &'a Step,
    pub receipt: &'a Receipt,
    pub pass: Pass,
}

/// Copies the request of an event, if it is one. Fails only when out of memory.
pub(crate) fn ask_of(alloc: Global, event: &Event) -> Result<Option<Ask>, AllocError>
    ensures { IfOk result (λ ask. ask ≡ ask_of event.now) }
{
    match event {
        Event::Ask(ask) => Ok(Some(ask.copied(alloc)?)),
        Event::Deliver(_) => Ok(None),
        Event::Tick => Ok(None),
        Event::Stop => Ok(None),
    }
}

/// Appends a receipt. Fails only when out of memory; then drops it.
fn add_receipt(receipts: &mut Vec<CallReceipt>, receipt: CallReceipt) -> Result<(), AllocError>
    ensures ok { OnOk result (receipts.new.items ≡ receipts.old.items ++ receipt ∷ []) }
    ensures err { OnErr result (receipts.new.items ≡ receipts.old.items) }
{
    match receipts.push(receipt) {
        Ok(()) => Ok(()),
        Err(failed) => {
            drop(failed);
            Err(AllocError)
        }
    }
}

/// Makes the receipt of a call and a copy of its answer, and appends it. Fails only when out of
/// memory; then drops the call.
fn add_answered(
    receipts: &mut Vec<CallReceipt>,
    alloc: Global,
    call: Call,
    answered: &Receipt,
    answer: &Answer,
) -> Result<(), AllocError>
    requires { IsEncodableAnswer answer.now }
    ensures ok { OnOk result (receipts.new.items ≡ receipts.old.items ++ answered_call (Some call) answered.now answer.now) }
    ensures err { OnErr result (receipts.new.items ≡ receipts.old.items) }
{
    match answer.copied(alloc) {
        Ok(answer) => {
            let receipt = CallReceipt {
                call,
                answered: *answered,
                answer,
            };
            add_receipt(receipts, receipt)
        }
        Err(error) => {
            drop(call);
            Err(error)
        }
    }
}

/// Copies the call that waits under this ticket.
fn copy_of_call(
    alloc: Global,
    waiting: &TicketQueue<Call>,
    ticket: Ticket,
) -> Result<Option<Call>, AllocError>
    ensures { IfOk result (λ call. call ≡ call_under waiting.now.items ticket) }
{
    match waiting.get(ticket) {
        Some(call) => Ok(Some(call.copied(alloc)?)),
        None => Ok(None),
    }
}

/// Returns the call under this ticket. Moves it out of the waiting calls, unless a later output
/// answers it too; then copies it.
fn call_for(
    alloc: Global,
    waiting: &mut TicketQueue<Call>,
    ticket: Ticket,
    later: &[Out],
) -> Result<Option<Call>, AllocError>
    ensures call { IfOk result (λ call. call ≡ call_under waiting.old.items ticket) }
    ensures others { waiting.new.items ≡ (if list_any (answers_to ticket) later.now then waiting.old.items else without_call waiting.old.items ticket) }
{
    if is_answered(later, ticket) {
        copy_of_call(alloc, waiting, ticket)
    } else {
        Ok(waiting.take(ticket))
    }
}

/// Appends the receipt of the call that an output answers, if one waits for it. The output comes
/// with those after it.
fn answer_call(
    alloc: Global,
    waiting: &mut TicketQueue<Call>,
    next: (&Out, &[Out]),
    answered: &Receipt,
    receipts: &mut Vec<CallReceipt>,
) -> Result<(), AllocError>
    requires { IsEncodableOut next.0.now }
    ensures receipts { OnOk result (receipts.new.items ≡ receipts.old.items ++ called_by waiting.old.items answered.now next.entry.0.now) }
    ensures others { waiting.new.items ≡ left_by waiting.old.items next.entry.0.now next.entry.1.now }
{
    let (out, later) = next;
    let Out::Answer { ticket, answer } = out else {
        return Ok(());
    };
    let Some(call) = call_for(alloc, waiting, *ticket, later)? else {
        return Ok(());
    };
    add_answered(receipts, alloc, call, answered, answer)
}

/// Returns the call receipts of the outputs, in order. Moves each waiting call into the last of its
/// receipts; earlier receipts get copies.
fn take_answered(
    alloc: Global,
    waiting: &mut TicketQueue<Call>,
    outs: &[Out],
    answered: &Receipt,
) -> Result<Vec<CallReceipt>, AllocError>
    requires { AreEncodable outs.now }
    ensures receipts { IfOk result (λ receipts. receipts.items ≡ called_in waiting.old.items answered.now outs.now) }
    ensures others { waiting_after waiting.new.items outs.now ≡ waiting_after waiting.old.items outs.now }
{
    let mut receipts = Vec::new(alloc);
    if answers_any(outs) {
        receipts.reserve(outs.len())?;
    }
    let mut rest = outs;
    while let Some((out, later)) = rest.split_first() {
        answer_call(alloc, waiting, (out, later), answered, &mut receipts)?;
        rest = later;
    }
    Ok(receipts)
}

/// Returns true if one of the outputs answers the ticket.
fn is_answered(outs: &[Out], ticket: Ticket) -> bool
    ensures { result ≡ list_any (answers_to ticket) outs.now }
{
    for out in outs {
        if let Out::Answer { ticket: own, .. } = out {
            if *own == ticket {
                return true;
            }
        }
    }
    false
}

/// Returns true if one of the outputs is a reply.
fn answers_any(outs: &[Out]) -> bool
    ensures { result ≡ list_any is_answer outs.now }
{
    outs.iter().any(|out| matches!(out, Out::Answer { .. }))
}

/// Removes the calls that one output answers.
fn forget_by(waiting: &mut TicketQueue<Call>, out: &Out)
    ensures { waiting.new.items ≡ waiting_after waiting.old.items (out.now ∷ []) }
{
    match out {
        Out::Answer { ticket, .. } => waiting.forget(*ticket),
        Out::Send { .. } => (),
    }
}

/// Removes the calls that an output answers.
fn forget_answered(waiting: &mut TicketQueue<Call>, outs: &[Out])
    ensures { waiting.new.items ≡ waiting_after waiting.old.items outs.now }
{
    for out in outs {
        forget_by(waiting, out);
    }
}

/// Returns the call of a request that a step accepted, if there is one and it got a ticket.
fn new_call(asked: Option<Ask>, taken: &TakenStep<'_>) -> Option<Call>
    ensures { option_to_list result ≡ accepted asked taken.now.step.now.ticket taken.now.receipt.now taken.now.pass }
{
    let ask = asked?;
    let Some(ticket) = taken.step.ticket else {
        drop(ask);
        return None;
    };
    Some(Call {
        asked: *taken.receipt,
        ticket,
        pass: taken.pass,
        ask,
    })
}

/// Returns the reply of a step whose only output answers the request that it accepts, under a
/// ticket that no waiting call has.
fn own_answer<'a>(waiting: &TicketQueue<Call>, step: &'a Step) -> Option<&'a Answer>
    ensures { IfSome result (λ answer. AnswersItself waiting.now.items step.now.ticket step.now.outs answer.now) }
{
    let ticket = step.ticket?;
    match step.outs.as_slice() {
        [
            Out::Answer {
                ticket: own,
                answer,
            },
        ] if *own == ticket && waiting.get(ticket).is_none() => Some(answer),
        _ => None,
    }
}

/// Returns the receipt of a request that the same step accepts and answers, so that its call need
/// not wait.
fn answer_own(
    alloc: Global,
    asked: Option<Ask>,
    taken: &TakenStep<'_>,
    answer: &Answer,
) -> Result<Vec<CallReceipt>, AllocError>
    requires { IsEncodableAnswer answer.now }
    ensures { IfOk result (λ receipts. receipts.items ≡ all_answered (accepted asked taken.now.step.now.ticket taken.now.receipt.now taken.now.pass) taken.now.receipt.now answer.now) }
{
    let Some(call) = new_call(asked, taken) else {
        return Ok(Vec::new(alloc));
    };
    let mut receipts = Vec::new(alloc);
    match add_answered(&mut receipts, alloc, call, taken.receipt, answer) {
        Ok(()) => Ok(receipts),
        Err(error) => {
            drop(receipts);
            Err(error)
        }
    }
}

/// Answers the waiting calls of a step that accepts no request: each call that it answers gets its
/// receipt and waits no more. When out of memory, the calls that the step answers are dropped.
fn serve_waiting(
    alloc: Global,
    waiting: &mut TicketQueue<Call>,
    receipt: &Receipt,
    outs: &[Out],
) -> Result<Vec<CallReceipt>, AllocError>
    requires { AreEncodable outs.now }
    ensures { Serves waiting.old.items waiting.new.items [] receipt.now outs.now result }
{
    let receipts = take_answered(alloc, waiting, outs, receipt);
    forget_answered(waiting, outs);
    receipts
}

/// Answers the calls of a step that accepts this one, which waits behind the others. When out of
/// memory, it is dropped, and so are those that the step answers.
fn serve_new(
    alloc: Global,
    waiting: &mut TicketQueue<Call>,
    call: Call,
    taken: &TakenStep<'_>,
) -> Result<Vec<CallReceipt>, AllocError>
    requires { AreEncodable taken.now.step.now.outs }
    ensures { Serves waiting.old.items waiting.new.items (call ∷ []) taken.now.receipt.now taken.now.step.now.outs result }
{
    let ticket = call.ticket;
    let outs = taken.step.outs.as_slice();
    if let Err(refused) = waiting.push(call) {
        drop(refused);
        forget_answered(waiting, outs);
        return Err(AllocError);
    }
    let receipts = serve_waiting(alloc, waiting, taken.receipt, outs);
    if receipts.is_err() && !is_answered(outs, ticket) {
        let others = waiting.len().saturating_sub(1);
        waiting.truncate(others);
    }
    receipts
}

/// Answers the calls of a step that accepts a request. The request waits from now on, unless
/// answering it is the step's only output.
fn serve_accepted(
    alloc: Global,
    waiting: &mut TicketQueue<Call>,
    asked: Result<Option<Ask>, AllocError>,
    taken: &TakenStep<'_>,
) -> Result<Vec<CallReceipt>, AllocError>
    requires { AreEncodable taken.now.step.now.outs }
    ensures { ServesAsked waiting.old.items waiting.new.items asked taken.now.step.now.ticket taken.now.receipt.now taken.now.pass taken.now.step.now.outs result }
{
    match asked {
        Err(_) => {
            forget_answered(waiting, taken.step.outs.as_slice());
            Err(AllocError)
        }
        Ok(asked) => match own_answer(waiting, taken.step) {
            Some(answer) => answer_own(alloc, asked, taken, answer),
            None => match new_call(asked, taken) {
                Some(call) => serve_new(alloc, waiting, call, taken),
                None => serve_waiting(alloc, waiting, taken.receipt, taken.step.outs.as_slice()),
            },
        },
    }
}

/// Answers the calls of a step. Each waiting call that the step answers gets its receipt and waits
/// no more. The accepted request waits from now on, unless answering it is the step's only output.
/// When out of memory, the calls that the step accepts or answers are dropped.
pub(crate) fn serve_calls(
    alloc: Global,
    waiting: &mut TicketQueue<Call>,
    asked: Result<Option<Ask>, AllocError>,
    taken: &TakenStep<'_>,
) -> Result<Vec<CallReceipt>, AllocError>
    requires { AreEncodable taken.now.step.now.outs }
    ensures { ServesAsked waiting.old.items waiting.new.items asked taken.now.step.now.ticket taken.now.receipt.now taken.now.pass taken.now.step.now.outs result }
{
    match asked {
        Ok(None) => serve_waiting(alloc, waiting, taken.receipt, taken.step.outs.as_slice()),
        asked => serve_accepted(alloc, waiting, asked, taken),
    }
}
