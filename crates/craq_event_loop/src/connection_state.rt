//! `ConnectionState`: the state of one connection whose calls are answered later; for an event loop,
//! or for a thread of its own.
//!
//! Above it stand the two halves of a request: the call that it asks for, and its reply once the call
//! has its outcome. Then the right to submit a call, which a step makes, and the next state of a
//! connection after a step or an outcome.
ghost use Rattle.std.specs.Prelude.{◌≡◌, ◌<◌, ◌+◌, ◌++◌, ◌↔◌, [], ◌∷◌, Bool, Err, IfErr, IfOk, IsTrue, None, OnErr, OnOk, IfSome, length};
ghost use Rattle.std.specs.VecDeque.{deque_capacity, deque_len};
ghost use Rattle.craq_frames.specs.Payload.{NamesNode};
ghost use Rattle.craq_event_loop.specs.declared.connection_state.Phase.TheVariants.{Idle};
ghost use Rattle.craq_frames.specs.Steps.{IsTakenAhead, ahead};
ghost use Rattle.craq_event_loop.specs.ConnectionStates.{KeepsRoom, AnswersCall, Continues, CountsAhead, Found, HasNoMore, HasReply, Took};
ghost use Rattle.craq_frames.specs.Allowed.{IsAllowed};
ghost use Rattle.craq_event_loop.specs.Halves.{Asks, BeginsTurn, EndsTurn, GoesAlong, GrowsRoom, HasOwnReceipt, HasRoom, HasRoomFor, IsClosed, IsNamed, IsStatusReply, MakesRoom, RefusesCall, TakesRoom, asked_by};
ghost use Rattle.craq_event_loop.specs.SubmittedCalls.{IsReportable, IsRefusedAtOnce, IsSubmitted, MayHaveAny};
ghost use Rattle.craq_event_loop.specs.Turns.{IsCalled, kept, name_of};
ghost use Rattle.craq_frames.specs.declared.ask.ClientMessage.{ClientMessage};

use crate::door_calls::DoorCalls;
use crate::{AsyncBackend, Backend, ReceiptPolicy};
use craq_frames::{ClientMessage, ClientReply, CodecEvent, ProtocolCodec, is_allowed};
use craq_model::Ask;
use craq_names::{NodeId, NodeName, Pass, Refusal};
use craq_seat::{CallReceipt, CallToken, Outcome, Reach, answer_of_call};
use std::alloc::{AllocError, Global};
use std::collections::VecDeque;
use std::mem;

/// The call that a request asks for.
#[derive(Debug, Drop)]
pub struct CallRequest {
    pub node: NodeName,
    pub pass: Pass,
    pub ask: Ask,
}

/// The demand of a request: a call or the status.
#[derive(Debug, Drop)]
pub(crate) enum Demand {
    Call(CallRequest),
    Status,
}

/// The outcome of the first half of a request.
#[derive(Debug, Drop)]
pub(crate) enum Begun {
    /// The request is answered, by this reply.
    Reported(ClientReply),
    /// This call is to be made, and its outcome to be given back.
    Calls(CallRequest),
}

/// Returns the call of a node of the chain of the request's first object, with this pass.
fn call_of(node: NodeId, pass: Pass, ask: Ask) -> CallRequest
    ensures node { result.node ≡ name_of node ask }
    ensures pass { result.pass ≡ pass }
    ensures ask { result.ask ≡ ask }
{
    let node = NodeName {
        chain: ask.chain(),
        node,
    };
    CallRequest { node, pass, ask }
}

/// Returns the demand of a request.
fn demand_of(message: ClientMessage) -> Demand
    ensures { Asks message result }
{
    match message {
        ClientMessage::Update { node, pass, update } => {
            Demand::Call(call_of(node, pass, Ask::Update(update)))
        }
        ClientMessage::Read {
            node,
            pass,
            mode,
            object,
        } => Demand::Call(call_of(node, pass, Ask::Read { mode, object })),
        ClientMessage::Status => Demand::Status,
    }
}

/// Returns the reply to a request for a status: its text, or `Refused(Memory)` when out of memory.
/// Instead of a text that is too long for a reply it is `Refused(BadFrame)`.
#[tactic(auto, using(crate::proofs::Reportable::long_status, crate::proofs::Reportable::memory_allowed, crate::proofs::Reportable::frame_allowed))]
fn status_reply<C: Backend>(backend: &C) -> ClientReply
    ensures reply { IsStatusReply (C.tells backend.now) result }
    ensures allowed { IsAllowed result }
{
    let Ok(text) = backend.status() else {
        return ClientReply::Refused(Refusal::Memory);
    };
    let reply = ClientReply::Status(text);
    if is_allowed(&reply) {
        reply
    } else {
        ClientReply::Refused(Refusal::BadFrame)
    }
}

/// Begins a request. A status is answered at once. For a call it makes room for the receipt, which
/// is there when the call has its outcome. Without room the reply is `Refused(Memory)`, and the call
/// is not made.
#[tactic(auto, using(crate::proofs::Halves::status_answered, crate::proofs::Halves::memory_answered, crate::proofs::Reportable::memory_allowed))]
fn begin_turn<C: Backend>(backend: &C, calls: &mut DoorCalls, message: ClientMessage) -> Begun
    ensures begun { BeginsTurn (C.tells backend.now) calls.old.policy calls.old.receipts.items message result calls.new.receipts.items }
    ensures policy { calls.new.policy ≡ calls.old.policy }
    ensures receipts { calls.new.receipts.items ≡ kept calls.old.policy calls.old.receipts.items }
    ensures room { MakesRoom calls.old message result calls.new }
{
    calls.begin();
    match demand_of(message) {
        Demand::Status => Begun::Reported(status_reply(backend)),
        Demand::Call(request) => match calls.make_room() {
            Ok(()) => Begun::Calls(request),
            Err(_) => {
                drop(request);
                Begun::Reported(ClientReply::Refused(Refusal::Memory))
            }
        },
    }
}

/// Returns the reply to the request that asked for a call, where the receipt is that of this
/// question. The receipts are unchanged after a refusal.
///
/// - `Closed` exactly where the receipt is that of another call.
/// - `Memory` also where there was no memory for a copy of the answer.
#[tactic(auto, using(crate::proofs::Receipts::own_receipt, crate::proofs::Receipts::no_receipt))]
fn reply_of_call(
    alloc: Global,
    calls: &mut DoorCalls,
    request: &CallRequest,
    outcome: Result<CallReceipt, Refusal>,
) -> Result<ClientReply, Refusal>
    requires room { HasRoom calls.old }
    requires reportable { IsReportable outcome }
    ensures called { IfOk result (λ reply. IsCalled calls.old.receipts.items (asked_by request.now) reply calls.new.receipts.items) }
    ensures allowed { IfOk result (λ reply. IsAllowed reply) }
    ensures refused { IfErr result (λ e. RefusesCall request.now outcome e) }
    ensures encodable { IfErr result (λ e. NamesNode e) }
    ensures closed { (result ≡ Err Refusal.Closed) ↔ IsClosed request.now outcome }
    ensures same { OnErr result (calls.new.receipts.items ≡ calls.old.receipts.items) }
    ensures own { HasOwnReceipt outcome calls.old.receipts.items calls.new.receipts.items }
    ensures policy { calls.new.policy ≡ calls.old.policy }
    ensures takes { TakesRoom calls.old calls.new }
{
    let receipt = outcome?;
    let CallRequest { node, pass, ask } = request;
    match answer_of_call(alloc, &receipt, node, ask, *pass) {
        Ok(answer) => Ok(calls.reply_to(answer, receipt)),
        Err(refusal) => {
            drop(receipt);
            Err(refusal)
        }
    }
}

/// Ends the request that asked for this call, with the room that `begin_turn` made. Returns the
/// reply to the call, or its refusal; no other refusal replaces either. The receipts are unchanged
/// after a refusal. Of a call that was answered the reply is:
///
/// - `Refused(Closed)` exactly where the receipt is that of another call.
/// - `Refused(Memory)` only where there was no memory for a copy of the answer.
#[tactic(auto, using(crate::proofs::Reportable::refusal_allowed))]
fn end_turn(
    alloc: Global,
    calls: &mut DoorCalls,
    request: &CallRequest,
    outcome: Result<CallReceipt, Refusal>,
) -> ClientReply
    requires room { HasRoom calls.old }
    requires reportable { IsReportable outcome }
    ensures ends { EndsTurn request.now outcome calls.old.receipts.items result calls.new.receipts.items }
    ensures allowed { IsAllowed result }
    ensures policy { calls.new.policy ≡ calls.old.policy }
    ensures takes { TakesRoom calls.old calls.new }
{
    match reply_of_call(alloc, calls, request, outcome) {
        Ok(reply) => reply,
        Err(refusal) => ClientReply::Refused(refusal),
    }
}

/// The reason why nothing is read or asked any more.
#[derive(Debug, Clone, Copy, PartialEq, Eq)]
pub(crate) enum Ending {
    /// A length above 1,048,576 stands in front. Its refusal is the last reply.
    TooLong,
    /// Out of memory: there is no reply to the next frame.
    Memory,
}

/// The state of a connection between two steps.
#[derive(Drop)]
pub(crate) enum Phase {
    /// The next frame is looked for.
    Idle,
    /// This request is to be asked.
    Asks(ClientMessage),
    /// This call is to be made, or is under way. Those behind it, in order, were asked ahead: before
    /// the replies to those before them came.
    Waits(CallRequest, VecDeque<CallRequest>),
    /// Nothing is read or asked any more.
    Over(Ending),
}

/// Replaces a phase. The old one is dropped.
fn put(place: &mut Phase, phase: Phase)
    ensures { place.new ≡ phase }
{
    drop(mem::replace(place, phase));
}

/// A call that a step made (`Stepped::Calls`). Only a step makes one, and only
/// `ConnectionState::ask` takes one. It is neither `Copy` nor `Drop`, so each call that a step made
/// is asked exactly once.
#[derive(Debug)]
pub struct UnsentCall {
    _made: (),
}

impl UnsentCall {
    /// Makes the mark of a call that a step made.
    fn new() -> Self {
        UnsentCall { _made: () }
    }

    /// Turns the mark into the right to submit the call under this token.
    fn make(self, token: CallToken, reach: Reach) -> SubmitToken
        ensures { result.token ≡ token }
    {
        let UnsentCall { _made: () } = self;
        SubmitToken {
            token,
            reach,
            _made: (),
        }
    }
}

/// The right to submit a call, with the token of its completion. Only `ConnectionState::ask` makes
/// one, of an `UnsentCall`. It is not `Copy`, and the backend takes it. So no call is submitted
/// twice, and none that was not made, as long as the backend submits nothing without one.
#[derive(Debug, Drop)]
pub struct SubmitToken {
    pub token: CallToken,
    pub reach: Reach,
    _made: (),
}

/// The outcome of a step.
#[derive(Debug)]
pub enum Stepped {
    /// There may be another step to take.
    Goes,
    /// A call is to be made, by `ask`, and its outcome to be given back by `answer`.
    Calls(UnsentCall),
    /// Less than a frame has come: more bytes are needed.
    Starved,
    /// Nothing can be done before unsent bytes are written or a call has its outcome; or ever
    /// again.
    Stays,
}

/// Returns the state after the reply to the first request that is under way. The calls behind it
/// were asked ahead.
fn next_phase(
    codec: &mut ProtocolCodec,
    reply: ClientReply,
    mut later: VecDeque<CallRequest>,
) -> Phase
    requires allowed { IsAllowed reply }
    requires counted { ahead codec.old.asking ≡ length later.items }
    ensures more { (m : ClientMessage) → HasReply m later.items codec.old result codec.new reply }
    ensures idle { result ≡ Phase.Idle → codec.new.asking ≡ None }
    ensures continues { Continues later.items result codec.old codec.new }
    ensures counted { CountsAhead result codec.new.asking }
{
    match codec.reply(reply) {
        Ok(Some(message)) => Phase::Asks(message),
        Ok(None) => match later.pop_front() {
            Some(request) => Phase::Waits(request, later),
            None => Phase::Idle,
        },
        Err(_) => Phase::Over(Ending::Memory),
    }
}

/// Looks for the next frame. Returns the state after that, and the outcome.
fn find<C: Backend>(alloc: Global, backend: &C, codec: &mut ProtocolCodec) -> (Phase, Stepped)
    requires { codec.old.asking ≡ None }
    ensures more { HasNoMore Phase.Idle codec.old result.0 codec.new }
    ensures found { Found result.0 result.1 codec.old codec.new }
    ensures idle { result.0 ≡ Phase.Idle → codec.new.asking ≡ None }
    ensures counted { CountsAhead result.0 codec.new.asking }
{
    if codec.is_full() {
        return (Phase::Idle, Stepped::Stays);
    }
    match codec.next(alloc) {
        Ok(CodecEvent::Ask(message)) => (Phase::Asks(message), Stepped::Goes),
        Ok(CodecEvent::Refused) => {
            backend.unasked(&Refusal::BadFrame);
            (Phase::Idle, Stepped::Goes)
        }
        Ok(CodecEvent::Nothing) => (Phase::Idle, Stepped::Starved),
        Err(refusal) => match refusal {
            Refusal::FrameTooLong => {
                backend.unasked(&refusal);
                (Phase::Over(Ending::TooLong), Stepped::Stays)
            }
            _ => (Phase::Over(Ending::Memory), Stepped::Stays),
        },
    }
}

/// Begins a request. Returns the state after that, and the outcome.
fn begin<C: Backend>(
    alloc: Global,
    backend: &C,
    codec: &mut ProtocolCodec,
    calls: &mut DoorCalls,
    message: ClientMessage,
) -> (Phase, Stepped)
    requires { ahead codec.old.asking ≡ 0 }
    ensures took { Took (C.tells backend.now) (Phase.Asks message) result.1 result.0 codec.old codec.new calls.old calls.new }
    ensures policy { calls.new.policy ≡ calls.old.policy }
    ensures idle { result.0 ≡ Phase.Idle → codec.new.asking ≡ None }
    ensures room { KeepsRoom result.0 calls.new }
    ensures counted { CountsAhead result.0 codec.new.asking }
{
    let none_ahead = VecDeque::new(alloc);
    match begin_turn(backend, calls, message) {
        Begun::Reported(reply) => (next_phase(codec, reply, none_ahead), Stepped::Goes),
        Begun::Calls(request) => {
            let phase = Phase::Waits(request, none_ahead);
            (phase, Stepped::Calls(UnsentCall::new()))
        }
    }
}

/// Takes a step. Returns the state after it, and the outcome.
fn next_step<C: Backend>(
    alloc: Global,
    backend: &C,
    codec: &mut ProtocolCodec,
    calls: &mut DoorCalls,
    phase: Phase,
) -> (Phase, Stepped)
    requires idle { phase ≡ Phase.Idle → codec.old.asking ≡ None }
    requires room { KeepsRoom phase calls.old }
    requires counted { CountsAhead phase codec.old.asking }
    ensures took { Took (C.tells backend.now) phase result.1 result.0 codec.old codec.new calls.old calls.new }
    ensures policy { calls.new.policy ≡ calls.old.policy }
    ensures idle { result.0 ≡ Phase.Idle → codec.new.asking ≡ None }
    ensures room { KeepsRoom result.0 calls.new }
    ensures counted { CountsAhead result.0 codec.new.asking }
{
    match phase {
        Phase::Idle => find(alloc, backend, codec),
        Phase::Asks(message) => begin(alloc, backend, codec, calls, message),
        Phase::Waits(request, later) => (Phase::Waits(request, later), Stepped::Stays),
        Phase::Over(ending) => (Phase::Over(ending), Stepped::Stays),
    }
}

/// Returns the state after the outcome of the first call that is under way.
fn answered(
    alloc: Global,
    codec: &mut ProtocolCodec,
    calls: &mut DoorCalls,
    phase: Phase,
    outcome: Result<CallReceipt, Refusal>,
) -> Phase
    requires idle { phase ≡ Phase.Idle → codec.old.asking ≡ None }
    requires room { KeepsRoom phase calls.old }
    requires counted { CountsAhead phase codec.old.asking }
    requires reportable { IsReportable outcome }
    ensures answers { AnswersCall phase outcome result codec.old codec.new calls.old calls.new }
    ensures policy { calls.new.policy ≡ calls.old.policy }
    ensures idle { result ≡ Phase.Idle → codec.new.asking ≡ None }
    ensures room { KeepsRoom result calls.new }
    ensures counted { CountsAhead result codec.new.asking }
{
    match phase {
        Phase::Waits(request, later) => {
            let reply = end_turn(alloc, calls, &request, outcome);
            drop(request);
            next_phase(codec, reply, later)
        }
        other => {
            drop(outcome);
            other
        }
    }
}

/// Submits a call in the session. Returns its outcome if it comes at once; else `None`, and a
/// completion will come.
#[tactic(auto, using(crate::proofs::Reportable::reportable_finished))]
fn submit_call<B: AsyncBackend>(
    backend: &B,
    session: &mut B::Session,
    submit_token: SubmitToken,
    request: &CallRequest,
) -> Option<Outcome>
    ensures submitted { IsSubmitted (B.submits backend.now submit_token.token) (B.finishes backend.now) request.now session.old result session.new }
    ensures refused { IsRefusedAtOnce (B.refuses backend.now) request.now result }
    ensures reportable { IfSome result (λ outcome. IsReportable outcome) }
{
    match backend.submit(session, submit_token, request) {
        Ok(None) => None,
        Ok(Some(reply)) => Some(backend.finish(session, request, reply)),
        Err(refusal) => Some(Err(refusal)),
    }
}

/// Returns the message that asks for this call.
fn message_of(request: CallRequest) -> ClientMessage
    ensures { result ≡ asked_by request }
{
    let CallRequest { node, pass, ask } = request;
    let NodeName { chain: _, node } = node;
    match ask {
        Ask::Update(update) => ClientMessage::Update { node, pass, update },
        Ask::Read { mode, object } => ClientMessage::Read {
            node,
            pass,
            mode,
            object,
        },
    }
}

/// Returns whether a request goes along with the one that is under way: both are updates at one
/// node.
fn goes_along(first: &CallRequest, request: &CallRequest) -> bool
    ensures { IsTrue result → GoesAlong first.now request.now }
{
    match (&first.ask, &request.ask) {
        (Ask::Update(_), Ask::Update(_)) => request.node == first.node,
        _ => false,
    }
}

/// Takes the next request of the payload, if it goes along with the one that is under way. Else
/// nothing changes.
fn take_along(codec: &mut ProtocolCodec, first: &CallRequest) -> Option<CallRequest>
    ensures taken { IfSome result (λ q. IsTakenAhead codec.old.asking codec.new.asking (asked_by q)) }
    ensures along { IfSome result (λ q. GoesAlong first.now q) }
    ensures named { IfSome result (λ q. IsNamed q) }
    ensures none { result ≡ None → codec.new ≡ codec.old }
    ensures buffers { codec.new.buffers ≡ codec.old.buffers }
{
    let message = codec.take_ahead()?;
    match demand_of(message) {
        Demand::Call(request) => {
            if goes_along(first, &request) {
                return Some(request);
            }
            codec.put_back(message_of(request));
            None
        }
        Demand::Status => {
            codec.put_back(ClientMessage::Status);
            None
        }
    }
}

/// Asks the next request of the payload ahead, if it goes along with the one that is under way.
/// Returns it; a completion will come. Else nothing changes.
fn ask_next<B: AsyncBackend>(
    backend: &B,
    codec: &mut ProtocolCodec,
    session: &mut B::Session,
    first: &CallRequest,
    submit_token: SubmitToken,
) -> Option<CallRequest>
    ensures taken { IfSome result (λ q. IsTakenAhead codec.old.asking codec.new.asking (asked_by q)) }
    ensures along { IfSome result (λ q. GoesAlong first.now q) }
    ensures named { IfSome result (λ q. IsNamed q) }
    ensures submitted { IfSome result (λ q. B.submits backend.now submit_token.token session.old q None session.new) }
    ensures may { IfSome result (λ q. MayHaveAny (B.refuses backend.now) q) }
    ensures none { result ≡ None → codec.new ≡ codec.old }
    ensures unmade { result ≡ None → session.new ≡ session.old }
    ensures buffers { codec.new.buffers ≡ codec.old.buffers }
{
    let request = take_along(codec, first)?;
    match backend.submit_ahead(session, submit_token, &request) {
        Ok(()) => Some(request),
        Err(_) => {
            codec.put_back(message_of(request));
            None
        }
    }
}

/// Makes room for one more call behind those that are under way, and for the receipts of all. Fails
/// only when out of memory. Nothing but room changes in either case.
fn make_room_behind(
    calls: &mut DoorCalls,
    later: &mut VecDeque<CallRequest>,
) -> Result<(), AllocError>
    ensures grows { GrowsRoom calls.old calls.new }
    ensures room { OnOk result (HasRoomFor (length later.old.items + 1) calls.new) }
    ensures same { later.new.items ≡ later.old.items }
    ensures place { OnOk result (deque_len later.new < deque_capacity later.new) }
{
    later.reserve(1)?;
    let Some(count) = later.len().checked_add(2) else {
        return Err(AllocError);
    };
    calls.make_room_for(count)
}

/// Appends a call, for which there is room.
fn push(later: &mut VecDeque<CallRequest>, request: CallRequest)
    requires { deque_len later.old < deque_capacity later.old }
    ensures { later.new.items ≡ later.old.items ++ request ∷ [] }
{
    let _ = later.push_back(request);
}

/// The state of one connection whose calls are answered later: bytes in, calls to make, their
/// outcomes, bytes out. The unsent bytes are the frames of the replies to the frames that came, in
/// their order. Each reply is that of a turn for its request. All its calls are made and finished in
/// one session, in the order of their requests.
///
/// A call is made once all requests before it have their replies. Only updates at one node that
/// came in one payload are made together, up to 8, in their order (`ask_ahead`). So a read, a status
/// or a request to another node is asked after all requests before it were answered.
#[derive(Drop)]
pub struct ConnectionState<T> {
    codec: ProtocolCodec,
    calls: DoorCalls,
    phase: Phase,
    session: T,
    ghost idle: { phase ≡ Idle → codec.asking ≡ None },
    ghost room: { KeepsRoom phase calls },
    ghost counted: { CountsAhead phase codec.asking },
}

impl<T> ConnectionState<T> {
    ghost use Rattle.std.specs.Prelude.{◌≤◌, ◌⊎◌, ℕ, List, [], ◌++◌, false, take, drop, length, IfSome, IsTrue, OnOk};
    ghost use Rattle.std.specs.Option.{option_copied};
    ghost use Rattle.craq_frames.specs.declared.ask.ClientMessage.{ClientMessage};
    ghost use Rattle.craq_frames.specs.Talk.{Exchanges};
    ghost use Rattle.craq_event_loop.specs.SubmittedCalls.{IsAsked, IsOutcome, called_by};
    ghost use Rattle.craq_event_loop.specs.Advancing.{AsksAhead, IsAsBefore};
    ghost use Rattle.craq_event_loop.specs.ConnectionStates.{AnswersCall, Holds, IsUnderWay, Took, ending_of, later_calls};

    /// Makes the state of a new connection with its session and the policy for its receipts. Takes
    /// no memory.
    pub(crate) fn new(alloc: Global, session: T, policy: ReceiptPolicy) -> Self
        ensures holds { Holds result.phase result.codec [] [] [] }
        ensures input { result.codec.buffers.input.items ≡ [] }
        ensures policy { result.calls.policy ≡ policy }
        ensures receipts { result.calls.receipts.items ≡ [] }
        ensures phase { result.phase ≡ Phase.Idle }
        ensures session { result.session ≡ session }
    {
        ConnectionState {
            codec: ProtocolCodec::new(alloc),
            calls: DoorCalls::new(alloc, policy),
            phase: Phase::Idle,
            session,
        }
    }

    /// Returns whether bytes may be received: no request is under way, and it is not over.
    pub(crate) fn listens(&self) -> bool
        ensures { IsTrue result ↔ (self.now.phase ≡ Phase.Idle) }
    {
        matches!(&self.phase, Phase::Idle)
    }

    /// Returns the reason why nothing is read or asked any more, once it is over.
    pub(crate) fn ending(&self) -> Option<Ending>
        ensures { result ≡ ending_of self.now.phase }
    {
        match &self.phase {
            Phase::Over(ending) => Some(*ending),
            _ => None,
        }
    }

    /// Takes bytes that came. Finds the first request at once in a read of 1,024 bytes or more that
    /// begins with a whole payload, if no bytes wait before it. Leaves any other read to `step`,
    /// which looks for the next frame. Fails only when out of memory; the bytes are lost then, and
    /// it is over.
    pub(crate) fn receive(&mut self, alloc: Global, bytes: &[u8]) -> Result<(), AllocError>
        requires { self.old.phase ≡ Phase.Idle }
        ensures holds { (read written : List ℕ) (turns : Exchanges)
            → Holds self.old.phase self.old.codec read written turns → Holds self.new.phase self.new.codec (read ++ bytes.now) written turns }
        ensures ok { OnOk result ((self.new.phase ≡ Phase.Idle) ⊎ ((m : ClientMessage) × (self.new.phase ≡ Phase.Asks m))) }
        ensures err { OnErr result (self.new.phase ≡ Phase.Over Ending.Memory) }
        ensures output { self.new.codec.buffers.output.items ≡ self.old.codec.buffers.output.items }
        ensures calls { self.new.calls ≡ self.old.calls }
        ensures session { self.new.session ≡ self.old.session }
    {
        match self.codec.receive(alloc, bytes) {
            Ok(None) => Ok(()),
            Ok(Some(message)) => {
                put(&mut self.phase, Phase::Asks(message));
                Ok(())
            }
            Err(error) => {
                put(&mut self.phase, Phase::Over(Ending::Memory));
                Err(error)
            }
        }
    }

    /// Lends the unsent bytes.
    pub(crate) fn unsent(&self) -> &[u8]
        ensures { result.now ≡ self.now.codec.buffers.output.items }
    {
        self.codec.unsent()
    }

    /// Drops the first `count` unsent bytes, which were written.
    pub(crate) fn wrote(&mut self, count: usize)
        requires { count ≤ length self.old.codec.buffers.output.items }
        ensures holds { (read written : List ℕ) (turns : Exchanges)
            → Holds self.old.phase self.old.codec read written turns
            → Holds self.new.phase self.new.codec read (written ++ take count self.old.codec.buffers.output.items) turns }
        ensures output { self.new.codec.buffers.output.items ≡ drop count self.old.codec.buffers.output.items }
        ensures input { self.new.codec.buffers.input.items ≡ self.old.codec.buffers.input.items }
        ensures phase { self.new.phase ≡ self.old.phase }
        ensures calls { self.new.calls ≡ self.old.calls }
        ensures session { self.new.session ≡ self.old.session }
    {
        self.codec.wrote(count);
    }

    /// Lends the first call that is under way.
    pub(crate) fn request(&self) -> Option<&CallRequest>
        ensures { IsUnderWay self.now.phase (option_copied result) }
    {
        match &self.phase {
            Phase::Waits(request, _) => Some(request),
            _ => None,
        }
    }

    /// Returns the number of calls behind the first one that is under way.
    pub(crate) fn count_later(&self) -> usize
        ensures { result ≡ length (later_calls self.now.phase) }
    {
        match &self.phase {
            Phase::Waits(_, later) => later.len(),
            _ => 0,
        }
    }

    /// Takes a step, if there is one to take: looks for the next frame, or begins its next request.
    /// It is over (`ending`) behind a length above 1,048,576, whose refusal is then unsent, and
    /// when out of memory; nothing more is appended then.
    pub(crate) fn step<C: Backend>(&mut self, alloc: Global, backend: &C) -> Stepped
        ensures took { Took (C.tells backend.now) self.old.phase result self.new.phase self.old.codec self.new.codec self.old.calls self.new.calls }
        ensures policy { self.new.calls.policy ≡ self.old.calls.policy }
        ensures session { self.new.session ≡ self.old.session }
    {
        let phase = mem::replace(&mut self.phase, Phase::Idle);
        let (phase, stepped) = next_step(alloc, backend, &mut self.codec, &mut self.calls, phase);
        put(&mut self.phase, phase);
        stepped
    }

    /// Makes the call of the last step in the session, under this token. Returns its outcome at
    /// once, a receipt or a refusal; else `None`, and a completion with this token will come
    /// (`AsyncBackend::submit`). Where no call is under way none is made. `answer` takes the
    /// outcome.
    #[tactic(auto, using(crate::proofs::SubmittedCalls::asked))]
    pub(crate) fn ask<B: AsyncBackend<Session = T>>(
        &mut self,
        unsent: UnsentCall,
        backend: &B,
        token: CallToken,
        reach: Reach,
    ) -> Option<Outcome>
        ensures asked { IsAsked (B.refuses backend.now) (called_by (B.submits backend.now) (B.finishes backend.now) token) self.old.phase self.old.session result self.new.session }
        ensures reportable { IfSome result (λ outcome. IsReportable outcome) }
        ensures phase { self.new.phase ≡ self.old.phase }
        ensures codec { self.new.codec ≡ self.old.codec }
        ensures calls { self.new.calls ≡ self.old.calls }
    {
        let submit_token = unsent.make(token, reach);
        let Phase::Waits(request, _) = &self.phase else {
            drop(submit_token);
            return None;
        };
        submit_call(backend, &mut self.session, submit_token, request)
    }

    /// Asks the next request of the payload ahead, while a call is under way: its call is made before
    /// the replies to those before it came. It is an update, as the first call under way is, at its
    /// node. Returns whether it did; a completion with this token will come then. Else nothing
    /// changes but room.
    #[tactic(auto, using(crate::proofs::Ahead::counted_more, crate::proofs::Ahead::counted_kept, crate::proofs::Ahead::room_more, crate::proofs::Ahead::room_kept))]
    pub(crate) fn ask_ahead<B: AsyncBackend<Session = T>>(
        &mut self,
        backend: &B,
        token: CallToken,
        reach: Reach,
    ) -> bool
        ensures asked { IsTrue result → AsksAhead (B.refuses backend.now) (called_by (B.submits backend.now) (B.finishes backend.now) token) self.old self.new }
        ensures else_as_before { result ≡ false → IsAsBefore self.old self.new }
    {
        let phase = mem::replace(&mut self.phase, Phase::Idle);
        let Phase::Waits(first, mut later) = phase else {
            put(&mut self.phase, phase);
            return false;
        };
        if make_room_behind(&mut self.calls, &mut later).is_err() {
            put(&mut self.phase, Phase::Waits(first, later));
            return false;
        }
        let submit_token = UnsentCall::new().make(token, reach);
        let (codec, session) = (&mut self.codec, &mut self.session);
        let Some(request) = ask_next(backend, codec, session, &first, submit_token) else {
            put(&mut self.phase, Phase::Waits(first, later));
            return false;
        };
        push(&mut later, request);
        put(&mut self.phase, Phase::Waits(first, later));
        true
    }

    /// Keeps a reply in the session until the turn of the call under this number.
    pub(crate) fn keep<B: AsyncBackend<Session = T>>(
        &mut self,
        backend: &B,
        call: u64,
        reply: B::Reply,
    )
        ensures { self.new ≡ self.old }
    {
        backend.keep(&mut self.session, call, reply);
    }

    /// Returns the reply of the call under this number, if it was kept and a call is under way.
    pub(crate) fn take_kept<B: AsyncBackend<Session = T>>(
        &mut self,
        backend: &B,
        call: u64,
    ) -> Option<B::Reply>
        ensures { self.new ≡ self.old }
    {
        match &self.phase {
            Phase::Waits(..) => backend.take_kept(&mut self.session, call),
            _ => None,
        }
    }

    /// Returns the outcome of the first call that is under way, by the reply of its completion, for
    /// `answer`. The session finishes the call (`AsyncBackend::finish`). Nothing happens in it where
    /// no call is under way.
    #[tactic(auto, using(crate::proofs::SubmittedCalls::finished, crate::proofs::Reportable::reportable_finished))]
    pub(crate) fn finish<B: AsyncBackend<Session = T>>(
        &mut self,
        backend: &B,
        reply: B::Reply,
    ) -> Outcome
        ensures outcome { IsOutcome (B.finishes backend.now) self.old.phase reply self.old.session result self.new.session }
        ensures reportable { IsReportable result }
        ensures phase { self.new.phase ≡ self.old.phase }
        ensures codec { self.new.codec ≡ self.old.codec }
        ensures calls { self.new.calls ≡ self.old.calls }
    {
        let Phase::Waits(request, _) = &self.phase else {
            drop(reply);
            return Err(Refusal::Closed);
        };
        backend.finish(&mut self.session, request, reply)
    }

    /// Takes the outcome of the first call that is under way (`end_turn`). Appends its reply or refusal to
    /// the unsent bytes, and keeps the receipt behind the others. Out of memory for the bytes of the
    /// reply it is over, and nothing is appended. Unchanged where no call is under way.
    pub(crate) fn answer(&mut self, alloc: Global, outcome: Outcome)
        requires { IsReportable outcome }
        ensures answers { AnswersCall self.old.phase outcome self.new.phase self.old.codec self.new.codec self.old.calls self.new.calls }
        ensures policy { self.new.calls.policy ≡ self.old.calls.policy }
        ensures session { self.new.session ≡ self.old.session }
    {
        let phase = mem::replace(&mut self.phase, Phase::Idle);
        let phase = answered(alloc, &mut self.codec, &mut self.calls, phase, outcome);
        put(&mut self.phase, phase);
    }
}

impl<T: Drop> ConnectionState<T> {
    /// Returns the receipts of all calls, in order, where they are kept; else none. Takes no
    /// memory.
    pub fn into_receipts(self) -> Vec<CallReceipt>
        ensures { result.items ≡ kept self.calls.policy self.calls.receipts.items }
    {
        let ConnectionState {
            codec,
            calls,
            phase,
            session,
        } = self;
        drop(codec);
        drop(phase);
        drop(session);
        calls.into_receipts()
    }
}
