//! Steps of a node whose seat is locked, on a request or another event. `Replies` keeps the replies
//! of these steps until the lock is free. The batches of `craq_running_chain` call them, under the
//! lock.
ghost use Rattle.std.specs.Prelude.{◌≡◌, ◌∷◌, [], None, Some, Err, IfErr, IfOk, IfSome, IsTrue, OnErr, Result, Vec, false, ◌++◌};
ghost use Rattle.std.specs.Option.{option_copied};
ghost use Rattle.std.specs.declared.alloc.AllocError.{AllocError};
ghost use Rattle.std.specs.declared.alloc.Global.{Global};
ghost use Rattle.craq_node.specs.Represented.{CanArrive};
ghost use Rattle.craq_names.specs.declared.refusal.Refusal.{Refusal};
ghost use Rattle.craq_seat.specs.Calls.{Called};
ghost use Rattle.craq_store_parts.specs.Recorded.{HaveReplied, MayHappen};
ghost use Rattle.craq_running_node.specs.Replies.{IsReplyTo, Keeps, RefusesAsked, RefusesOwn, RefusesQueued, RefusesStep, Settles, TakesOwn, TakesQueued, TellsCallers, in_hand, is_own, others_of, own_receipt, replies_to, said_by, said_to, ticket_in, ticket_of, waiting_after, without_memory, caller_under, reply_to, without_caller};

use crate::asked::{Asked, OwnAsk, QueuedAsk};
use crate::callers::{
    CallOutcome, OwnReply, PendingCaller, ReadyReply, StepOutcome, expect_completion, joined,
    wait_at,
};
use crate::recorded_desk::{RecordedDesk, StepCalls};
use craq_ghost_history::Named;
use craq_model::{Event, Out, Step};
use craq_names::{NodeName, Pass, Refusal, Ticket};
use craq_node::Core;
use craq_seat::{CallReceipt, CompletionSender, TicketQueue};
use craq_store_parts::{
    AcceptedCall, CallRefusal, Cause, MadeAsk, Origin, StepReceipt, StoreHistory, StoreToken,
};
use std::alloc::{AllocError, AllocFailed, Global};
use std::marker::Model;
use std::mem;
use std::sync::Wait;

/// The room that is made for replies at the first one.
const ROOM: usize = 16;

/// The content of a node's lock: its desk, which keeps the pending calls, and its callers, which
/// keep the completion queue of each.
///
/// A thread that takes the lock knows that the node is the replay of its entries in the store's
/// history, and that each caller's call was accepted there.
#[derive(Drop)]
pub struct SeatedNode<C: Core + Named> {
    pub desk: RecordedDesk<C>,
    pub callers: TicketQueue<PendingCaller<C>>,
}

/// A message that was sent, or a tick, that arrives at a node.
#[derive(Drop)]
pub struct ArrivedEvent<N: Named> {
    pub event: Event,
    pub token: StoreToken<N>,
}

/// The receipt of the step's own request, or `None` if it has no reply yet.
type OwnReceipt<N> = Result<Option<StepReceipt<N>>, CallRefusal<N>>;

/// The outcome of a request that a node accepted: its call, and the reply if there is one at once.
#[derive(Drop)]
struct AcceptedRequest<N: Named> {
    accepted: Option<AcceptedCall<N>>,
    reply: OwnReceipt<N>,
}

/// The source of the replies of a step: its node's name, a token that has seen it, and the ticket of
/// the request that it accepted.
#[derive(Drop)]
struct Answering<'a, N: Named> {
    history: &'a StoreHistory<N>,
    name: NodeName,
    token: StoreToken<N>,
    ticket: Option<Ticket>,
}

/// Adds a reply for each of these receipts, but returns the receipt under the step's own ticket: it
/// belongs to the caller whose step this is.
fn answer<R: Wait, N: Named>(
    rt: &R,
    callers: &mut TicketQueue<PendingCaller<N>>,
    receipts: Vec<CallReceipt>,
    answering: &mut Answering<'_, N>,
    replies: &mut Replies<N>,
) -> Option<StepReceipt<N>>
    requires { HaveReplied answering.old.token answering.old.name receipts.items }
    ensures own { result ≡ own_receipt answering.old.ticket receipts.items }
    ensures reported { Keeps replies.old (replies_to callers.old.items (others_of answering.old.ticket receipts.items)) replies.new }
    ensures others { callers.new.items ≡ waiting_after callers.old.items (others_of answering.old.ticket receipts.items) }
{
    if receipts.is_empty() {
        return None;
    }
    let mut own = None;
    for receipt in receipts {
        let token = answering.token.again(answering.history);
        let reply = StepReceipt::new(receipt, answering.name, token);
        let at = reply.ticket();
        if is_own(&answering.ticket, at) {
            drop(mem::replace(&mut own, Some(reply)));
        } else {
            replies.add_under(rt, callers, at, Ok(reply));
        }
    }
    own
}

/// Returns whether a ticket is the one of the step's own request.
fn is_own(own: &Option<Ticket>, ticket: Ticket) -> bool
    ensures { (receipt : Called) → ticket ≡ receipt.call.ticket → result ≡ is_own own.now receipt }
{
    match own {
        Some(own) => ticket == *own,
        None => false,
    }
}

/// Refuses with `Memory` the callers whose calls a step answers.
fn give_up_step<R: Wait, N: Named>(
    rt: &R,
    callers: &mut TicketQueue<PendingCaller<N>>,
    outs: &[Out],
    replies: &mut Replies<N>,
)
    ensures reported { Keeps replies.old (replies_to callers.old.items (without_memory outs.now)) replies.new }
    ensures others { callers.new.items ≡ waiting_after callers.old.items (without_memory outs.now) }
{
    for out in outs {
        match out {
            Out::Answer { ticket, .. } => {
                let refused = CallRefusal::without_call(Refusal::Memory);
                replies.add_under(rt, callers, *ticket, Err(refused));
            }
            Out::Send { .. } => (),
        }
    }
}

/// Adds the replies to the callers that a step answers. Returns the reply under the step's own
/// ticket.
fn finish<R: Wait, C: Core + Named>(
    rt: &R,
    seated: &mut SeatedNode<C>,
    calls: Result<Vec<CallReceipt>, AllocError>,
    answering: &mut Answering<'_, C>,
    replies: &mut Replies<C>,
) -> OwnReceipt<C>
    requires { IfOk calls (λ receipts. HaveReplied answering.old.token answering.old.name receipts.items) }
    ensures own { in_hand result ≡ said_to answering.old.ticket calls }
    ensures reported { Keeps replies.old (replies_to seated.old.callers.items (said_by calls seated.old.desk.cell.last answering.old.ticket)) replies.new }
    ensures others { seated.new.callers.items ≡ waiting_after seated.old.callers.items (said_by calls seated.old.desk.cell.last answering.old.ticket) }
    ensures desk { seated.new.desk ≡ seated.old.desk }
{
    match calls {
        Ok(receipts) => {
            let own = answer(rt, &mut seated.callers, receipts, answering, replies);
            Ok(own)
        }
        Err(_) => {
            if let Some(step) = seated.desk.cell().last() {
                give_up_step(rt, &mut seated.callers, step.outs.as_slice(), replies);
            }
            Err(CallRefusal::without_call(Refusal::Memory))
        }
    }
}

/// Takes a step of a node on a message or a tick. Returns whether it was taken; a refused step
/// changes nothing.
pub fn take_event<R: Wait, C: Core + Named>(
    rt: &R,
    history: &StoreHistory<C>,
    seated: &mut SeatedNode<C>,
    arrival: ArrivedEvent<C>,
    replies: &mut Replies<C>,
) -> bool
    requires arrives { CanArrive arrival.event }
    requires may { MayHappen arrival.token seated.old.desk.cell.opening.name arrival.event None }
    ensures taken { IsTrue result → (calls : Result (Vec Called Global) AllocError) × TellsCallers C.represents seated.old seated.new.desk seated.new.callers.items arrival.event 0 None calls replies.old replies.new }
    ensures same { result ≡ false → (seated.new.callers.items ≡ seated.old.callers.items) × (replies.new ≡ replies.old) }
    ensures refused { result ≡ false → (e : Refusal) × RefusesStep C.represents seated.old.desk seated.new.desk arrival.event 0 e }
    ensures opening { seated.new.desk.cell.opening ≡ seated.old.desk.cell.opening }
{
    let alloc = replies.allocator();
    let name = seated.desk.cell().opening().name;
    let ArrivedEvent { event, token } = arrival;
    let cause = Cause {
        pass: Pass::start(),
        origin: Origin::sent(token),
    };
    match seated.desk.take(alloc, history, event, cause) {
        Ok((_, done)) => {
            let StepCalls {
                calls,
                accepted: _,
                token,
            } = done;
            let mut answering = Answering {
                history,
                name,
                token,
                ticket: None,
            };
            let none = finish(rt, seated, calls, &mut answering, replies);
            drop(none);
            true
        }
        Err(_) => false,
    }
}

/// Takes the step of a request, after making room for its caller. A refused one changes nothing, and
/// gives the call back.
fn take_ask<R: Wait, C: Core + Named>(
    rt: &R,
    history: &StoreHistory<C>,
    seated: &mut SeatedNode<C>,
    asked: (MadeAsk<C>, Pass),
    replies: &mut Replies<C>,
) -> Result<AcceptedRequest<C>, CallRefusal<C>>
    ensures own { IfOk result (λ taken. IfSome (in_hand taken.reply) (λ reply. IsReplyTo (ticket_in taken.accepted) reply)) }
    ensures taken { IfOk result (λ taken. (calls : Result (Vec Called Global) AllocError) × TellsCallers C.represents seated.old seated.new.desk seated.new.callers.items (Event.Ask asked.0.ask) asked.1 (ticket_in taken.accepted) calls replies.old replies.new × (in_hand taken.reply ≡ said_to (ticket_in taken.accepted) calls)) }
    ensures ticket { IfOk result (λ taken. ticket_in taken.accepted ≡ ticket_of seated.new.desk.cell.last) }
    ensures same { OnErr result ((seated.new.callers.items ≡ seated.old.callers.items) × (replies.new ≡ replies.old)) }
    ensures refused { IfErr result (λ e. RefusesAsked C.represents seated.old.desk seated.new.desk asked.0.name asked.0.ask asked.1 e) }
{
    let (made, pass) = asked;
    if seated.callers.reserve().is_err() {
        return Err(CallRefusal::before_step(made, Refusal::Memory));
    }
    let name = seated.desk.cell().opening().name;
    if made.name() != name {
        return Err(CallRefusal::before_step(made, Refusal::WrongNode));
    }
    let alloc = replies.allocator();
    let (ask, made) = made.into_parts();
    let cause = Cause {
        pass,
        origin: Origin::called(made),
    };
    match seated.desk.take(alloc, history, Event::Ask(ask), cause) {
        Err(refused) => Err(CallRefusal::new(refused)),
        Ok((_, done)) => {
            let StepCalls {
                calls,
                accepted,
                token,
            } = done;
            let mut answering = Answering {
                history,
                name,
                token,
                ticket: last_ticket(seated.desk.cell().last()),
            };
            let reply = finish(rt, seated, calls, &mut answering, replies);
            Ok(AcceptedRequest { accepted, reply })
        }
    }
}

/// Takes the step of a queued request. Its caller waits from then on, or gets a reply at once.
/// Returns whether the step was taken.
pub fn take_queued_ask<R: Wait, C: Core + Named>(
    rt: &R,
    history: &StoreHistory<C>,
    seated: &mut SeatedNode<C>,
    asked: QueuedAsk<C>,
    replies: &mut Replies<C>,
) -> bool
    ensures taken { IsTrue result → TakesQueued C.represents seated.old seated.new asked.made.ask asked.pass asked.at replies.old replies.new }
    ensures refused { result ≡ false → RefusesQueued C.represents seated.old seated.new asked.made.name asked.made.ask asked.pass asked.at replies.old replies.new }
{
    let Asked { made, pass, at } = asked;
    match take_ask(rt, history, seated, (made, pass), replies) {
        Err(refusal) => {
            replies.add(rt, ReadyReply::refused(at, refusal));
            false
        }
        Ok(taken) => {
            settle(rt, &mut seated.callers, taken, at, replies);
            true
        }
    }
}

/// Refuses a queued request with `Closed`: the store is closed.
pub fn refuse_asked<R: Wait, N: Named>(rt: &R, asked: QueuedAsk<N>, replies: &mut Replies<N>)
    ensures { Keeps replies.old (record { to = record { ticket = None; token = asked.at }; outcome = Err Refusal.Closed } ∷ []) replies.new }
{
    let Asked { made, pass: _, at } = asked;
    let refusal = CallRefusal::before_step(made, Refusal::Closed);
    replies.add(rt, ReadyReply::refused(at, refusal));
}

/// Adds the reply to the caller of a request that was accepted, or makes the caller wait.
fn settle<R: Wait, N: Named>(
    rt: &R,
    callers: &mut TicketQueue<PendingCaller<N>>,
    taken: AcceptedRequest<N>,
    at: CompletionSender<CallOutcome<N>>,
    replies: &mut Replies<N>,
)
    requires { IfSome (in_hand taken.reply) (λ reply. IsReplyTo (ticket_in taken.accepted) reply) }
    ensures { Settles at (ticket_in taken.accepted) (in_hand taken.reply) callers.old.items callers.new.items replies.old replies.new }
{
    let AcceptedRequest { accepted, reply } = taken;
    match reply {
        Err(refusal) => replies.add(rt, ReadyReply::new(accepted, at, Err(refusal))),
        Ok(Some(receipt)) => replies.add(rt, ReadyReply::new(accepted, at, Ok(receipt))),
        Ok(None) => wait_at(rt, callers, accepted, at, replies),
    }
}

/// Takes the step of the caller's own request. The outer error says that the step was not taken. The
/// inner result is the outcome of the call, or `None` if a completion will come.
pub fn take_own_ask<R: Wait, C: Core + Named>(
    rt: &R,
    history: &StoreHistory<C>,
    seated: &mut SeatedNode<C>,
    own: OwnAsk<'_, C>,
    replies: &mut Replies<C>,
) -> Result<OwnReply<C>, CallRefusal<C>>
    ensures taken { IfOk result (λ reply. TakesOwn C.represents seated.old seated.new own.entry.made.ask own.entry.pass own.entry.at.token (in_hand reply) replies.old replies.new) }
    ensures refused { IfErr result (λ e. RefusesOwn C.represents seated.old seated.new own.entry.made.name own.entry.made.ask own.entry.pass (Some (Err e)) replies.old replies.new) }
{
    let Asked { made, pass, at } = own;
    let AcceptedRequest { accepted, reply } = take_ask(rt, history, seated, (made, pass), replies)?;
    match reply {
        Err(refusal) => {
            drop(accepted);
            Ok(Err(refusal))
        }
        Ok(Some(receipt)) => Ok(Ok(Some(joined(accepted, receipt)))),
        Ok(None) => {
            match expect_completion(rt, &mut seated.callers, accepted, at, replies) {
                Ok(()) => Ok(Ok(None)),
                Err(refusal) => Ok(Err(refusal)),
            }
        }
    }
}

/// Returns the ticket of the request that a step accepted, if it did.
fn last_ticket(step: Option<&Step>) -> Option<Ticket>
    ensures { result ≡ ticket_of (option_copied step.entry) }
{
    step?.ticket
}

/// The replies of a step, until they are sent. Neither it nor a reply has a drop, so each is sent.
/// A contract sees them in order, and whether room was ever short.
pub struct Replies<N: Named> {
    waiting: Vec<ReadyReply<N>>,
    /// There was no room for a reply, which was sent at once.
    short: bool,
}

impl<N: Named> Model for Replies<N> {
    ghost use Rattle.craq_running_node.specs.Replies.{PendingReplies};

    ghost Value = { PendingReplies };

    ghost view = { λ r. record { replies = r.waiting.items; short = r.short } };
}

impl<N: Named> Replies<N> {
    /// Makes an empty list of replies. Takes no memory.
    pub fn new(alloc: Global) -> Self
        ensures { result ≡ record { replies = []; short = false } }
    {
        Replies {
            waiting: Vec::new(alloc),
            short: false,
        }
    }

    /// Returns the allocator of the list.
    pub(crate) fn allocator(&self) -> Global {
        *self.waiting.allocator()
    }

    /// Reserves room for replies at the first one. Out of memory there is none.
    fn make_room(&mut self)
        ensures { self.new ≡ self.old }
    {
        if self.waiting.is_empty() {
            drop(self.waiting.reserve(ROOM));
        }
    }

    /// Keeps a reply behind the others. Out of memory, gives it back and marks room as short.
    fn keep(&mut self, reported: ReadyReply<N>) -> Option<ReadyReply<N>>
        ensures kept { result ≡ None → (self.new.replies ≡ self.old.replies ++ reported ∷ []) × (self.new.short ≡ self.old.short) }
        ensures back { IfSome result (λ t. (t ≡ reported) × (self.new.replies ≡ self.old.replies) × IsTrue self.new.short) }
    {
        match self.waiting.push(reported) {
            Ok(()) => None,
            Err(refused) => {
                let AllocFailed { value } = refused;
                self.short = true;
                Some(value)
            }
        }
    }

    /// Adds a reply. If there is no room for it, sends it at once.
    pub(crate) fn add<R: Wait>(&mut self, rt: &R, reply: ReadyReply<N>)
        ensures { Keeps self.old (reply ∷ []) self.new }
    {
        self.make_room();
        if let Some(reported) = self.keep(reply) {
            reported.tell(rt);
        }
    }

    /// Adds the reply for the caller that waits under this ticket; it then waits no more. Drops the
    /// outcome if no caller does.
    pub(crate) fn add_under<R: Wait>(
        &mut self,
        rt: &R,
        callers: &mut TicketQueue<PendingCaller<N>>,
        ticket: Ticket,
        outcome: StepOutcome<N>,
    )
        requires { IsReplyTo (Some ticket) outcome }
        ensures reported { Keeps self.old (reply_to (caller_under callers.old.items ticket) outcome) self.new }
        ensures others { callers.new.items ≡ without_caller callers.old.items ticket }
    {
        match callers.take(ticket) {
            Some(caller) => self.add(rt, caller.reply(outcome)),
            None => drop(outcome),
        }
    }

    /// Sends all replies, in order, each into its caller's completion queue
    /// (`CompletionSender::tell`).
    pub fn tell<R: Wait>(self, rt: &R) {
        let Replies { waiting, short: _ } = self;
        let mut left = waiting.into_iter();
        while let Some(reported) = left.next() {
            reported.tell(rt);
        }
        left.destroy_empty();
    }
}
