//! `Backend` and `AsyncBackend`: the backend of a server's connections; the served store is one.
//! `LoopBackend` is that of an event loop, and the source of its connections. `BlockingBackend` is
//! that of a thread that serves one.
ghost use Rattle.std.specs.Prelude.{◌≡◌, ℕ, Bool, IfErr, IfOk, IfSome, List, None, OnErr, OnOk, Option, Result};
ghost use Rattle.craq_seat.specs.declared.token.CallToken.{CallToken};
ghost use Rattle.craq_seat.specs.declared.queue_state.Completion.{Completion};
ghost use Rattle.craq_model.specs.declared.ask.Ask.{Ask};
ghost use Rattle.craq_names.specs.declared.name.NodeName.{NodeName};
ghost use Rattle.craq_names.specs.declared.refusal.Refusal.{Refusal};
ghost use Rattle.craq_seat.specs.RefusedCalls.{CanRefuse};
ghost use Rattle.craq_frames.specs.Payload.{NamesNode};
ghost use Rattle.craq_seat.specs.Calls.{Called};
ghost use Rattle.craq_event_loop.specs.SubmittedCalls.{MayHaveAny, at_once, called_by};
ghost use Rattle.craq_event_loop.specs.Reaching.{IsReachable};
ghost use Rattle.craq_event_loop.specs.declared.connection_state.CallRequest.{CallRequest};

use crate::traffic::ClientStream;
use crate::{CallRequest, ConnectionState, SubmitToken};
use craq_frames::Text;
use craq_names::Refusal;
use craq_seat::{CallReceipt, Completion};
use std::alloc::AllocError;

/// A backend that connections call, however they call it.
pub trait Backend {
    /// The texts of a status that it may give.
    ghost tells: { Self → List ℕ → Type 0 };

    /// The refusals that it may give to a call of a node with a pass.
    ghost refuses: { Self → NodeName → ℕ → Ask → Refusal → Type 0 };

    /// Returns the chains and their members as text. Fails only when out of memory.
    fn status(&self) -> Result<Text, AllocError>
        ensures { IfOk result (λ text. tells self.now text) };

    /// Notes that bytes of a client, which are no request, get this refusal.
    fn unasked(&self, refusal: &Refusal);
}

/// A backend that takes a call without waiting: its reply comes at once, or later by a completion.
/// Each connection has a session, which makes its calls and finishes them.
pub trait AsyncBackend: Backend {
    /// The session of a connection.
    type Session: Drop;

    /// The reply to a call that was made: its answer, or its refusal. Only `finish` takes the
    /// outcome out of it.
    type Reply: Drop;

    /// The calls that were submitted: the session before, the token of its completion, the request,
    /// its immediate reply, if there was one, or the refusal of a call that was not made, and the
    /// session after.
    ghost submits: { Self → CallToken → Self.Session → CallRequest → Option (Result Self.Reply Refusal) → Self.Session → Type 0 };

    /// The calls that were finished: the session before, the request, the reply, the outcome, and
    /// the session after.
    ghost finishes: { Self → Self.Session → CallRequest → Self.Reply → Result Called Refusal → Self.Session → Type 0 };

    /// Makes the call of a request in a session. Returns its reply if it comes at once; else
    /// `None`, and a completion with the token will come. No other call may have the token until
    /// then.
    ///
    /// Refused only as this backend may refuse the call, with a refusal that has an encoding: none
    /// is made then, and no completion comes. A call that was made may be refused with any refusal
    /// of its kind of request.
    fn submit(
        &self,
        session: &mut Self::Session,
        submit_token: SubmitToken,
        request: &CallRequest,
    ) -> Result<Option<Self::Reply>, Refusal>
        ensures refused { IfErr result (λ e. Self.refuses self.now request.now.node request.now.pass request.now.ask e) }
        ensures encodable { IfErr result (λ e. NamesNode e) }
        ensures asked { IfOk result (λ _. MayHaveAny (Self.refuses self.now) request.now) }
        ensures submitted { submits self.now submit_token.token session.old request.now (at_once result) session.new };

    /// Makes the call of a request in a session behind calls that are under way. A completion with
    /// the token will come.
    ///
    /// Refused as `submit` is, and where the session has no memory for a reply that comes early:
    /// none is made then, no completion comes, and the session is unchanged.
    fn submit_ahead(
        &self,
        session: &mut Self::Session,
        submit_token: SubmitToken,
        request: &CallRequest,
    ) -> Result<(), Refusal>
        ensures asked { OnOk result (MayHaveAny (Self.refuses self.now) request.now) }
        ensures submitted { OnOk result (submits self.now submit_token.token session.old request.now None session.new) }
        ensures same { OnErr result (session.new ≡ session.old) };

    /// Keeps a reply in the session until its turn: it is of the call under this number, and calls
    /// before that one are still under way.
    fn keep(&self, session: &mut Self::Session, call: u64, reply: Self::Reply)
        ensures { session.new ≡ session.old };

    /// Returns the reply of the call under this number, if it was kept.
    fn take_kept(&self, session: &mut Self::Session, call: u64) -> Option<Self::Reply>
        ensures { session.new ≡ session.old };

    /// Finishes the first call under way of the session, which is that of a request. Returns the
    /// receipt of the answer, or a refusal that such a request can have: `Closed` if the reply is of
    /// another call.
    fn finish(
        &self,
        session: &mut Self::Session,
        request: &CallRequest,
        reply: Self::Reply,
    ) -> Result<CallReceipt, Refusal>
        ensures finished { finishes self.now session.old request.now reply result session.new }
        ensures refused { IfErr result (λ e. CanRefuse request.now.ask e) };

    /// Notes that a call of the connection at this place is refused.
    fn refused(&self, slot: usize, refusal: Refusal);
}

/// A backend of one connection, which can wait for the completion of its call.
pub trait BlockingBackend: AsyncBackend {
    /// Waits until few other connections take the steps of requests that came without waiting for
    /// replies. So a client that waits for each reply finds a processor.
    fn begin_bulk(&self);

    /// Ends what `begin_bulk` began.
    fn end_bulk(&self);

    /// Waits for the next completion of a call that was submitted.
    fn wait(&self) -> Completion<Self::Reply>;
}

/// A connection that came to an event loop, or to a thread of its own.
#[derive(Drop)]
pub struct NewConnection<T> {
    pub stream: ClientStream,
    /// The session in which its calls are made.
    pub session: T,
    /// Its place among the open connections.
    pub slot: usize,
    /// The index under which the receipts of its calls are kept once it has ended.
    pub receipts: usize,
}

/// The backend of an event loop.
pub trait LoopBackend: AsyncBackend {
    /// The completions that it brought: those that were there before, and all that are there then.
    ghost brings: { Self → List (Completion Self.Reply) → List (Completion Self.Reply) → Type 0 };

    /// Its answer to the question whether the event loop may sleep.
    ghost lets_sleep: { Self → Bool → Type 0 };

    /// The sessions that are new: no call was made in them.
    ghost is_new: { Self.Session → Type 0 };

    /// Appends the completions that have come, in their order.
    fn take_completions(&self, into: &mut Vec<Completion<Self::Reply>>)
        ensures { brings self.now into.old.items into.new.items };

    /// Takes the steps of the calls that were submitted with `Reach::WholeChainLater` and wait for
    /// that.
    fn run_queued(&self);

    /// Returns the next connection that came to this event loop. Its session is new.
    fn arrival(&self) -> Option<NewConnection<Self::Session>>
        ensures { IfSome result (λ a. is_new a.session) };

    /// Returns whether no more connections will come.
    fn is_over(&self) -> bool;

    /// Returns whether nothing came since the last look, so that the event loop may sleep. The next
    /// completion or connection then wakes it.
    fn may_sleep(&self) -> bool
        ensures { lets_sleep self.now result };

    /// Returns the seconds since some fixed moment. They never go back.
    fn seconds(&self) -> u64;

    /// Takes the last state of the connection at this place, which has ended. A new connection with
    /// a new session reached it (`Reaches`). There is none if the connection was not taken in.
    fn ended(&self, slot: usize, receipts: usize, state: Option<ConnectionState<Self::Session>>)
        requires { IfSome state (λ s. IsReachable is_new (Self.tells self.now) (Self.refuses self.now) (called_by (Self.submits self.now) (Self.finishes self.now)) (Self.finishes self.now) s) };
}
