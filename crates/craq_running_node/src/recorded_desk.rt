//! `RecordedDesk`: a node's desk whose steps are entries of the store's history; a running node has
//! one under its lock.
ghost use Rattle.std.specs.Prelude.{◌≡◌, ℕ, false, [], None, Some, if◌then◌else◌, IfErr, IfOk, IfSome, IsNone, IsOk, IsSome, OnErr, option_map};
ghost use Rattle.craq_model.specs.declared.ask.Event.{Event};
ghost use Rattle.craq_model.specs.Plain.{Plain};
ghost use Rattle.craq_node.specs.Represented.{CanArrive, IsFree};
ghost use Rattle.craq_seat.specs.Calls.{CallsOf};
ghost use Rattle.craq_seat.specs.Cells.{receipt_of, with_inside};
ghost use Rattle.craq_seat.specs.Kept.{IsKept};
ghost use Rattle.craq_seat.specs.Stamps.{event_stamp, next_stamp};
ghost use Rattle.craq_seat.specs.Taken.{TakesEvent};
ghost use Rattle.craq_ghost_history.specs.declared.author.Author.TheVariants as Author;
ghost use Rattle.craq_store_history.specs.Entries.{lines_in};
ghost use Rattle.craq_store_history.specs.Chains.{Accepts};
ghost use Rattle.craq_store_parts.specs.Recorded.{CanBegin, HadLinesIn, HasLinesIn, HasStep, HasTaken, HasTakenAfter, HaveReplied, IsRecorded, MayHappen, accepted_under};
ghost use Rattle.craq_store_parts.specs.Sent.{made_in, outcome_of};
ghost use Rattle.craq_store_parts.specs.Witnessed.{RefusesAt};

use crate::limits::keep_event_limits;
use craq_ghost_history::Named;
use craq_model::Event;
use craq_names::{Pass, Refusal};
use craq_node::Core;
use craq_seat::{CallReceipt, Cell, Desk, Receipt};
use craq_store_history::{CallId, HistoryEntry};
use craq_store_parts::{
    Acceptance, AcceptedCall, CallMade, Cause, Origin, RefusalMoment, Refused, StoppedNode,
    StoreHistory, StoreToken, StoreWriter,
};
use std::alloc::{AllocError, Global};
use std::marker::Model;
use std::snapshot::Snapshot;

/// The calls of a step: the receipts of those that it answered, or a failed allocation; the one
/// that it accepted, if it did; and a token that has seen the step.
#[derive(Drop)]
pub struct StepCalls<N: Named> {
    pub calls: Result<Vec<CallReceipt>, AllocError>,
    pub accepted: Option<AcceptedCall<N>>,
    pub token: StoreToken<N>,
}

/// Returns the call that a cell's last step, which came with this pass, accepted, if it accepted one
/// under a ticket.
fn accepted_call<C: Core + Named>(
    history: &StoreHistory<C>,
    cell: &Cell<C>,
    pass: Pass,
    call: &Option<CallId>,
    token: &mut StoreToken<C>,
) -> Option<AcceptedCall<C>>
    requires { (event : Event) × IfSome cell.now.last (λ step. HasTaken token.old cell.now.opening.name cell.now.stamp event pass step call.now) }
    ensures accepted { IfSome cell.now.last (λ step. result ≡ accepted_under cell.now.opening.name cell.now.stamp pass call.now step.ticket) }
    ensures same { token.new ≡ token.old }
{
    let Some(call) = call else {
        return None;
    };
    let ticket = cell.last()?.ticket?;
    let name = cell.opening().name;
    let acceptance = Acceptance {
        ticket,
        stamp: cell.stamp(),
        pass,
    };
    Some(AcceptedCall::new(*call, name, acceptance, token.again(history)))
}

/// Makes the refusal of an event by a node's rules, with the cause's pass. It gives the call of the
/// cause back, if there is one, with the moment at which the node refuses it: the node sees the call
/// first, so the moment comes after it, and has all of the node's steps.
fn refuse<C: Core + Named>(
    history: &StoreHistory<C>,
    desk: &Desk<C>,
    writer: &mut StoreWriter<C>,
    refusal: Refusal,
    cause: Cause<C>,
) -> Refused<C>
    requires recorded { IsRecorded C.represents desk.now writer.old }
    requires refuses { (event : Event) × Accepts cause.origin.seen desk.now.cell.opening.name event cause.origin.call × RefusesAt writer.old.seen desk.now.cell.opening.name desk.now.cell.stamp event cause.pass refusal }
    ensures refusal { result.refusal ≡ refusal }
    ensures back { result.back ≡ made_in cause.origin }
    ensures moment { IsSome cause.origin.call → option_map (λ moment. moment.pass) result.moment ≡ Some cause.pass }
    ensures recorded { IsRecorded C.represents desk.now writer.new }
{
    let _ = desk;
    let Cause { pass, origin } = cause;
    let Some(made) = origin.back() else {
        return Refused::new(refusal, None);
    };
    let mut made = made;
    let called = made.token(history);
    writer.learn(history, called);
    let moment = RefusalMoment::new(pass, writer.token(history));
    Refused::by_node(refusal, made, moment)
}

/// A node's desk, with the right to the node's entries in the store's history. Each step of the
/// desk is such an entry, so the node is the replay of its entries. A contract sees the desk.
#[derive(Drop)]
pub struct RecordedDesk<C: Core + Named> {
    desk: Desk<C>,
    writer: StoreWriter<C>,
}

impl<C: Core + Named> Model for RecordedDesk<C> {
    ghost use Rattle.craq_seat.specs.Calls.{Desked};
    ghost use Rattle.craq_store_parts.specs.Recorded.{IsRecorded};

    ghost Value = { Desked C };

    ghost view = { λ d. d.desk };

    ghost invariant = { λ d. IsRecorded C.represents d.desk d.writer };
}

impl<C: Core + Named> RecordedDesk<C> {
    /// Makes the desk of a node that is the replay of the entries which the writer has seen.
    pub fn new(desk: Desk<C>, writer: StoreWriter<C>) -> Self
        requires { IsRecorded C.represents desk writer }
        ensures { result ≡ desk }
    {
        RecordedDesk { desk, writer }
    }

    /// Makes the desk of a node before its first step: the writer has no entry, and the token has
    /// seen that the chain was opened, and the join of a node that is no first member.
    pub fn open(
        history: &StoreHistory<C>,
        desk: Desk<C>,
        writer: StoreWriter<C>,
        token: StoreToken<C>,
    ) -> Self
        requires author { writer.author ≡ Author.Node desk.cell.opening.name.chain desk.cell.opening.name.node }
        requires none { writer.seen ≡ [] }
        requires begins { CanBegin C.represents token desk.cell }
        ensures { result ≡ desk }
    {
        let mut writer = writer;
        writer.learn(history, token);
        RecordedDesk { desk, writer }
    }

    /// Returns the node's cell. Never allocates.
    pub fn cell(&self) -> &Cell<C>
        ensures { result.now ≡ self.now.cell }
    {
        self.desk.cell()
    }

    /// Takes one step of the desk, exactly as `Desk::take` does, and adds it to the history. It comes
    /// after all that the origin of its cause has seen. A step that accepts a call uses the call's
    /// permit up.
    ///
    /// On a refusal nothing is changed and nothing added. The call is given back then, with the
    /// moment of the history at which the node refuses it with the cause's pass.
    pub fn take(
        &mut self,
        alloc: Global,
        history: &StoreHistory<C>,
        event: Event,
        cause: Cause<C>,
    ) -> Result<(Receipt, StepCalls<C>), Refused<C>>
        requires arrives { CanArrive event }
        requires may { MayHappen cause.origin.seen self.old.cell.opening.name event cause.origin.call }
        ensures step { (p : Plain) → C.represents self.old.cell.inside p → TakesEvent C.represents self.new.cell (with_inside self.old.cell p) event cause.pass (outcome_of result) }
        ensures receipt { IfOk result (λ r. r.0 ≡ receipt_of self.new.cell) }
        ensures kept { IsKept C.represents self.new.cell }
        ensures free { (p : Plain) → C.represents self.old.cell.inside p → IsFree p event → IsNone self.old.cell.journal → IsOk (next_stamp self.old.cell.stamp cause.pass (event_stamp event)) → IsOk result }
        ensures calls { IfOk result (λ r. IfSome self.new.cell.last (λ step. CallsOf self.old.waiting self.new.waiting event r.0 cause.pass step r.1.calls)) }
        ensures same { OnErr result (self.new.waiting ≡ self.old.waiting) }
        ensures back { IfErr result (λ e. e.back ≡ made_in cause.origin) }
        ensures moment { IfErr result (λ e. IsSome cause.origin.call → option_map (λ moment. moment.pass) e.moment ≡ Some cause.pass) }
        ensures opening { self.new.cell.opening ≡ self.old.cell.opening }
        ensures moved { IfOk result (λ r. IsSome self.new.cell.last) }
        ensures accepted { IfOk result (λ r. IfSome self.new.cell.last (λ step. r.1.accepted ≡ accepted_under self.new.cell.opening.name self.new.cell.stamp cause.pass cause.origin.call step.ticket)) }
        ensures taken { IfOk result (λ r. IfSome self.new.cell.last (λ step. HasTakenAfter cause.origin.seen r.1.token self.new.cell.opening.name self.new.cell.stamp event cause.pass step cause.origin.call)) }
        ensures replied { IfOk result (λ r. IfOk r.1.calls (λ receipts. HaveReplied r.1.token self.new.cell.opening.name receipts.items)) }
    {
        let noted = Snapshot::of(&event);
        keep_event_limits(&event);
        let Cause { pass, origin } = cause;
        match self.desk.take(alloc, event, pass) {
            Err(refusal) => {
                let desk = &self.desk;
                let cause = Cause { pass, origin };
                Err(refuse(history, desk, &mut self.writer, refusal, cause))
            }
            Ok((receipt, calls)) => {
                let cell = self.desk.cell();
                let Some(step) = cell.last() else {
                    unreachable!()
                };
                let (call, grant) = origin.into_parts();
                let entry = HistoryEntry::NodeStep {
                    name: cell.opening().name,
                    stamp: cell.stamp(),
                    event: noted,
                    pass,
                    step: Snapshot::of(step),
                    call,
                };
                let mut token = self.writer.add_with(history, &entry, grant);
                let accepted = accepted_call(history, cell, pass, &call, &mut token);
                let calls = StepCalls {
                    calls,
                    accepted,
                    token,
                };
                Ok((receipt, calls))
            }
        }
    }

    /// Returns a token that has seen all steps of the node; the last one is in it. The node's journal
    /// has its lines there.
    pub fn token(&mut self, history: &StoreHistory<C>) -> StoreToken<C>
        ensures same { self.new ≡ self.old }
        ensures last { IfSome self.old.cell.last (λ step. HasStep (lines_in self.old.cell.opening.name.chain result) self.old.cell.opening.name.node self.old.cell.stamp step) }
        ensures lines { HasLinesIn result self.old.cell }
    {
        self.writer.token(history)
    }

    /// Sees all that the token has seen. If the token had seen the node's lines, its journal has them
    /// there: the node takes no step meanwhile.
    pub fn see(&mut self, history: &StoreHistory<C>, token: &mut StoreToken<C>)
        requires { HadLinesIn token.old self.old.cell }
        ensures lines { HasLinesIn token.old self.old.cell }
        ensures same { self.new ≡ self.old }
        ensures token { token.new ≡ token.old }
    {
        let seen = token.again(history);
        self.writer.learn(history, seen);
    }

    /// Returns the proof that the node has stopped and the receipt of its last step, in which it
    /// did, or `None` if it runs.
    pub fn stopped(&mut self, history: &StoreHistory<C>) -> Option<StoppedNode<C>>
        ensures stopped { (p : Plain) → C.represents self.old.cell.inside p → result ≡ (if p.running then None else Some (record { stopped = p.name; stop = receipt_of self.old.cell })) }
        ensures same { self.new ≡ self.old }
    {
        let cell = self.desk.cell();
        cell.journal();
        let stopped = cell.switch().receipt()?;
        let stop = Receipt {
            node: cell.opening().name.node,
            stamp: cell.stamp(),
        };
        Some(StoppedNode::new(stopped, stop, self.writer.token(history)))
    }
}
