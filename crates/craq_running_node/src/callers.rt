//! `PendingCaller` and `ReadyReply`: a caller that waits at a node, and a reply on its way to its
//! caller. How a caller begins to wait, and how all of a node's callers are refused. For `steps` and
//! the crates above.
ghost use Rattle.std.specs.Prelude.{◌≡◌, [], Err, IfErr, None, Ok, OnOk, Some, option_map};
ghost use Rattle.craq_running_node.specs.Replies.{IsReplyTo, Waits, recipient_of, ticket_in};

use crate::asked::Destination;
use crate::steps::{Replies, SeatedNode};
use craq_ghost_history::Named;
use craq_names::{Refusal, Ticket};
use craq_node::Core;
use craq_seat::{CompletionSender, TicketQueue, Ticketed};
use craq_store_parts::{AcceptedCall, AnsweredCall, CallRefusal, StepReceipt};
use std::alloc::{AllocFailed, Global};
use std::marker::Model;
use std::mem;
use std::sync::Wait;

/// The outcome of a call: its reply with the call that its node accepted, or the refusal. A
/// contract sees the receipt of the reply.
pub type CallOutcome<N> = Result<AnsweredCall<N>, CallRefusal<N>>;

/// The reply that the caller of a step has in hand, or `None` if a completion will come.
pub type OwnReply<N> = Result<Option<AnsweredCall<N>>, CallRefusal<N>>;

/// The outcome of a step for one of its callers: the receipt of the reply, or the refusal.
pub(crate) type StepOutcome<N> = Result<StepReceipt<N>, CallRefusal<N>>;

/// A caller that waits at a node: the call that the node accepted, and the place of its completion.
/// A contract sees the ticket and the token.
#[derive(Drop)]
pub struct PendingCaller<N: Named> {
    accepted: AcceptedCall<N>,
    at: CompletionSender<CallOutcome<N>>,
}

impl<N: Named> Model for PendingCaller<N> {
    ghost use Rattle.craq_seat.specs.declared.token.CallToken.{CallToken};
    ghost use Rattle.craq_seat.specs.declared.seat.Caller.{Caller};

    ghost Value = { Caller CallToken };

    ghost view = { λ p. record { ticket = p.accepted.ticket; at = p.at } };
}

impl<N: Named> Ticketed for PendingCaller<N> {
    ghost ticket_of = { λ caller. caller.ticket };

    fn ticket(&self) -> Ticket {
        self.accepted.ticket()
    }
}

impl<N: Named> PendingCaller<N> {
    /// Makes the caller of a call that a node accepted.
    pub(crate) fn new(accepted: AcceptedCall<N>, at: CompletionSender<CallOutcome<N>>) -> Self
        ensures { result ≡ record { ticket = accepted.ticket; at = at } }
    {
        PendingCaller { accepted, at }
    }

    /// Makes the reply to this caller, which waits no more.
    pub(crate) fn reply(self, outcome: StepOutcome<N>) -> ReadyReply<N>
        requires { IsReplyTo (Some self.ticket) outcome }
        ensures { result ≡ record { to = recipient_of self; outcome = outcome } }
    {
        let PendingCaller { accepted, at } = self;
        ReadyReply::new(Some(accepted), at, outcome)
    }
}

/// Joins a receipt with the call of the caller to whom it goes.
pub(crate) fn joined<N: Named>(
    accepted: Option<AcceptedCall<N>>,
    receipt: StepReceipt<N>,
) -> AnsweredCall<N>
    requires { IsReplyTo (ticket_in accepted) (Ok receipt) }
    ensures { result ≡ receipt }
{
    match accepted {
        Some(accepted) => AnsweredCall::new(accepted, receipt),
        None => unreachable!(),
    }
}

/// Returns the outcome of a call that a node accepted.
fn outcome_of<N: Named>(
    accepted: Option<AcceptedCall<N>>,
    outcome: StepOutcome<N>,
) -> CallOutcome<N>
    requires { IsReplyTo (ticket_in accepted) outcome }
    ensures { result ≡ outcome }
{
    match outcome {
        Err(refusal) => {
            drop(accepted);
            Err(refusal)
        }
        Ok(receipt) => Ok(joined(accepted, receipt)),
    }
}

/// A reply on its way to its caller. A receipt in it is always of the call under the caller's own
/// ticket. It has no drop, so it is kept until it is sent (`tell`).
pub(crate) struct ReadyReply<N: Named> {
    ticket: Option<Ticket>,
    at: CompletionSender<CallOutcome<N>>,
    outcome: CallOutcome<N>,
}

impl<N: Named> Model for ReadyReply<N> {
    ghost use Rattle.craq_running_node.specs.Replies.{IsReplyTo, Reply};

    ghost Value = { Reply };

    ghost view = { λ t. record { to = record { ticket = t.ticket; token = t.at }; outcome = t.outcome } };

    ghost invariant = { λ t. IsReplyTo t.ticket t.outcome };
}

impl<N: Named> ReadyReply<N> {
    /// Makes the reply to a caller, with its call if a node has accepted it.
    pub(crate) fn new(
        accepted: Option<AcceptedCall<N>>,
        at: CompletionSender<CallOutcome<N>>,
        outcome: StepOutcome<N>,
    ) -> Self
        requires { IsReplyTo (ticket_in accepted) outcome }
        ensures { result ≡ record { to = record { ticket = ticket_in accepted; token = at }; outcome = outcome } }
    {
        let ticket = accepted_ticket(&accepted);
        ReadyReply {
            ticket,
            at,
            outcome: outcome_of(accepted, outcome),
        }
    }

    /// Makes the refusal of a caller whose call no node has accepted.
    pub(crate) fn refused(at: CompletionSender<CallOutcome<N>>, refusal: CallRefusal<N>) -> Self
        ensures { result ≡ record { to = record { ticket = None; token = at }; outcome = Err refusal } }
    {
        ReadyReply {
            ticket: None,
            at,
            outcome: Err(refusal),
        }
    }

    /// Sends the reply to its caller. Takes no memory.
    pub(crate) fn tell<R: Wait>(self, rt: &R) {
        let ReadyReply {
            ticket: _,
            at,
            outcome,
        } = self;
        at.tell(rt, outcome);
    }
}

/// Returns the ticket of a call, if a node has accepted it.
fn accepted_ticket<N: Named>(accepted: &Option<AcceptedCall<N>>) -> Option<Ticket>
    ensures { result ≡ ticket_in accepted.now }
{
    match accepted {
        Some(accepted) => Some(accepted.ticket()),
        None => None,
    }
}

/// Makes the caller wait under the ticket of its call. Out of memory, it is refused with `Memory`,
/// and with `Closed` if its call has no ticket.
pub(crate) fn wait_at<R: Wait, N: Named>(
    rt: &R,
    callers: &mut TicketQueue<PendingCaller<N>>,
    accepted: Option<AcceptedCall<N>>,
    at: CompletionSender<CallOutcome<N>>,
    replies: &mut Replies<N>,
)
    ensures { Waits at (ticket_in accepted) callers.old.items callers.new.items replies.old replies.new }
{
    match accepted {
        None => {
            let refusal = CallRefusal::without_call(Refusal::Closed);
            replies.add(rt, ReadyReply::refused(at, refusal));
        }
        Some(accepted) => {
            if let Err(refused) = callers.push(PendingCaller::new(accepted, at)) {
                let AllocFailed { value } = refused;
                let refusal = CallRefusal::without_call(Refusal::Memory);
                replies.add(rt, value.reply(Err(refusal)));
            }
        }
    }
}

/// Makes the caller of a call wait for a completion. Refused with `Memory` when out of memory.
pub(crate) fn expect_completion<R: Wait, N: Named>(
    rt: &R,
    callers: &mut TicketQueue<PendingCaller<N>>,
    accepted: Option<AcceptedCall<N>>,
    at: Destination<'_, N>,
    replies: &mut Replies<N>,
) -> Result<(), CallRefusal<N>>
    ensures waits { OnOk result (Waits at.entry.token (ticket_in accepted) callers.old.items callers.new.items replies.old replies.new) }
    ensures refused { IfErr result (λ e. (e ≡ Refusal.Memory) × (callers.new.items ≡ callers.old.items) × (replies.new ≡ replies.old)) }
{
    match CompletionSender::expect(rt, at.completions, at.token) {
        Err(_) => {
            drop(accepted);
            Err(CallRefusal::without_call(Refusal::Memory))
        }
        Ok(sender) => {
            wait_at(rt, callers, accepted, sender, replies);
            Ok(())
        }
    }
}

/// Takes all callers that wait.
pub fn dismiss<C: Core + Named>(alloc: Global, seated: &mut SeatedNode<C>) -> Vec<PendingCaller<C>>
    ensures all { result.items ≡ seated.old.callers.items }
    ensures none { seated.new.callers.items ≡ [] }
    ensures desk { seated.new.desk ≡ seated.old.desk }
{
    mem::replace(&mut seated.callers, TicketQueue::new(alloc)).into_vec()
}

/// Refuses these callers, in order: none of them waits any more.
pub fn refuse_callers<R: Wait, N: Named>(
    rt: &R,
    alloc: Global,
    callers: Vec<PendingCaller<N>>,
    refusal: &Refusal,
) {
    let mut replies = Replies::<N>::new(alloc);
    for caller in callers {
        replies.add(rt, caller.reply(Err(CallRefusal::without_call(*refusal))));
    }
    replies.tell(rt);
}
