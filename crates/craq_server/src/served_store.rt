//! `ServedStore`: a running store as the connections of one thread call it; made by `accepting` and
//! `io_threads`.
ghost use Rattle.std.specs.Prelude.{◌≡◌, ◌<◌, ℕ, IfErr, IfOk, List, length};
ghost use Rattle.craq_seat.specs.RefusedCalls.{CanRefuse};
ghost use Rattle.craq_event_loop.specs.SubmittedCalls.{at_once};
ghost use Rattle.craq_event_loop.specs.Turns.{kept};
ghost use Rattle.craq_server.specs.Refusing.{RefusesServed};
ghost use Rattle.craq_server.specs.Sessions.{Connected, Finishes, IsNewSession, IsReachableAt, IsWitnessedConnection, Submits};
ghost use Rattle.craq_server.specs.Status.{TellsStatus};

use crate::bulk_limit::BulkLimit;
use crate::counters::ThreadCounts;
use crate::logging::Log;
use crate::passes::Passes;
use crate::status::status_text;
use crate::store_session::StoreSession;
use craq_event_loop::{
    AsyncBackend, Backend, BlockingBackend, CallRequest, ConnectionState, SubmitToken,
};
use craq_frames::Text;
use craq_names::Refusal;
use craq_node::Core;
use craq_seat::{CallReceipt, CallToken, Completion, CompletionQueue, pass_after, refusal_of_call};
use craq_workers::{Asked, CallRefusal, Destination, Gate, Named, Store};
use std::alloc::{AllocError, Global};
use std::sync::{Arc, Wait};

/// The outcome of a call at the store: its reply, with what shows that a node of the store gave it,
/// or the refusal.
pub(crate) type StoreOutcome<C> = craq_workers::CallOutcome<C>;

/// A running store as the connections of one thread call it. A request whose pass lies too far
/// above the largest returned (`Passes`) is refused `Exhausted` and reaches no node. Each connection
/// has a session of the store (`StoreSession`), and each reply is finished in it.
#[derive(Drop)]
pub(crate) struct ServedStore<'a, R: Wait, C: Core + Named, G: Gate> {
    pub(crate) rt: R,
    pub(crate) alloc: Global,
    pub(crate) store: &'a Store<C, G>,
    pub(crate) passes: &'a Passes,
    pub(crate) bulk_limit: &'a BulkLimit,
    pub(crate) log: Log,
    /// The completions of the calls of this thread.
    pub(crate) completions: Arc<CompletionQueue<StoreOutcome<C>>>,
    /// The counts of this thread.
    pub(crate) counts: Arc<ThreadCounts>,
}

impl<'a, R, C, G> ServedStore<'a, R, C, G>
where
    R: Wait,
    C: Core + Named,
    G: Gate,
{
    /// Submits a call in the session. Refused, and no call is made, with `Exhausted` for the pass, if
    /// the server bounds passes, and as `Store::make_ask` is. A refusal of `Store::submit` is the
    /// call's reply.
    #[tactic(auto, using(crate::proofs::Sessions::refused_by_make, crate::proofs::Sessions::refused_for_pass))]
    fn submit_made(
        &self,
        session: &mut StoreSession<C>,
        request: &CallRequest,
        submit_token: &SubmitToken,
    ) -> Result<Option<StoreOutcome<C>>, Refusal>
        ensures refused { IfErr result (λ e. RefusesServed (length self.now.store.now.names) request.now.node request.now.ask e) }
        ensures known { IfOk result (λ _. request.now.node.chain < length self.now.store.now.names) }
        ensures submitted { Submits self.now.passes.now.leap session.old request.now (at_once result) session.new }
    {
        if !self.passes.takes(request.pass) {
            return Err(Refusal::Exhausted);
        }
        let made = session.make(self.store, &request.node, &request.ask)?;
        let own = Asked {
            made,
            pass: request.pass,
            at: Destination {
                completions: &self.completions,
                token: submit_token.token,
            },
        };
        let reach = submit_token.reach;
        match self.store.submit(&self.rt, &request.ask, own, reach) {
            Ok(None) => Ok(None),
            Ok(Some(answered)) => Ok(Some(Ok(answered))),
            Err(refusal) => Ok(Some(Err(refusal))),
        }
    }

    /// Finishes a call in the session that made it, and notes the pass that its client has from
    /// then on. Returns the receipt of the answer, or a refusal that the request can have: `Closed`
    /// if the reply is of another call.
    fn finish_call(
        &self,
        session: &mut StoreSession<C>,
        request: &CallRequest,
        reply: StoreOutcome<C>,
    ) -> Result<CallReceipt, Refusal>
        ensures finished { Finishes session.old request.now.node request.now.pass reply result session.new }
        ensures refused { IfErr result (λ e. CanRefuse request.now.ask e) }
    {
        match session.finish(self.store, &request.node, request.pass, reply) {
            Ok(receipt) => {
                self.passes.tell(pass_after(receipt.pass(), &receipt));
                Ok(receipt)
            }
            Err(refusal) => Err(refusal_of_call(&request.ask, refusal)),
        }
    }

    /// Takes the receipts of a connection that has ended, where they are kept. A new connection with
    /// a new session reached its state.
    ///
    /// **Each call of its session is in one of its turns. Each reply to an update or a read is
    /// witnessed in the store's history**, after all that the connection had seen as its call was made:
    /// that is what all turns before it had seen, except that updates at one node may be under way
    /// together (`AreWitnessed`). The bytes of these turns came and went on it (`craq_event_loop`).
    #[tactic(auto, using(crate::proofs::Reached::reachable_witnessed))]
    pub(crate) fn end_connection(&self, state: ConnectionState<StoreSession<C>>) -> Vec<CallReceipt>
        requires { IsReachableAt self.now.store.now self.now.passes.now.leap state }
        ensures receipts { result.items ≡ kept state.calls.policy state.calls.receipts.items }
        ensures witnessed { (first : Connected) × IsNewSession first × (read : List ℕ) × (written : List ℕ) × IsWitnessedConnection self.now.passes.now.leap first read written state }
    {
        state.into_receipts()
    }
}

impl<'a, R, C, G> Backend for ServedStore<'a, R, C, G>
where
    R: Eprint + Wait + Drop,
    C: Core + Named,
    G: Gate,
{
    ghost tells = { λ served text. TellsStatus served.store.now text };

    ghost refuses = { λ served node pass ask refusal. RefusesServed (length served.store.now.names) node ask refusal };

    fn status(&self) -> Result<Text, AllocError> {
        self.counts.count_status();
        let chains = self.store.status(&self.rt)?;
        let text = status_text(self.alloc, chains.as_slice())?;
        Ok(Text::of(text))
    }

    fn unasked(&self, refusal: &Refusal) {
        self.counts.count_refusal(refusal);
    }
}

impl<'a, R, C, G> AsyncBackend for ServedStore<'a, R, C, G>
where
    R: Eprint + Wait + Drop,
    C: Core + Named,
    G: Gate,
{
    ghost use Rattle.craq_server.specs.Sessions.{FinishesCall, Submits};

    type Session = StoreSession<C>;

    type Reply = StoreOutcome<C>;

    ghost submits = { λ served token. Submits served.passes.now.leap };

    ghost finishes = { λ served. FinishesCall };

    /// Counts the request, and submits its call to the store (`Store::submit`).
    #[tactic(auto, using(crate::proofs::Sessions::served_encodable))]
    fn submit(
        &self,
        session: &mut StoreSession<C>,
        submit_token: SubmitToken,
        request: &CallRequest,
    ) -> Result<Option<StoreOutcome<C>>, Refusal> {
        self.counts.count_ask(&request.ask);
        self.submit_made(session, request, &submit_token)
    }

    /// Counts the request where its call is made. A reply at once is kept until its turn.
    #[tactic(auto, using(crate::proofs::Sessions::served_encodable))]
    fn submit_ahead(
        &self,
        session: &mut StoreSession<C>,
        submit_token: SubmitToken,
        request: &CallRequest,
    ) -> Result<(), Refusal> {
        session.make_room()?;
        if let Some(reply) = self.submit_made(session, request, &submit_token)? {
            session.keep(submit_token.token.call, reply);
        }
        self.counts.count_ask(&request.ask);
        Ok(())
    }

    fn keep(&self, session: &mut StoreSession<C>, call: u64, reply: StoreOutcome<C>) {
        session.keep(call, reply);
    }

    fn take_kept(&self, session: &mut StoreSession<C>, call: u64) -> Option<StoreOutcome<C>> {
        session.take_kept(call)
    }

    fn finish(
        &self,
        session: &mut StoreSession<C>,
        request: &CallRequest,
        reply: StoreOutcome<C>,
    ) -> Result<CallReceipt, Refusal> {
        self.finish_call(session, request, reply)
    }

    fn refused(&self, slot: usize, refusal: Refusal) {
        self.counts.count_refusal(&refusal);
        self.log.refused(&self.rt, slot, refusal);
    }
}

impl<'a, R, C, G> BlockingBackend for ServedStore<'a, R, C, G>
where
    R: Eprint + Wait + Drop,
    C: Core + Named,
    G: Gate,
{
    fn begin_bulk(&self) {
        self.bulk_limit.begin(&self.rt);
    }

    fn end_bulk(&self) {
        self.bulk_limit.end(&self.rt);
    }

    /// Sleeps until a completion comes into the thread's queue, and returns it.
    fn wait(&self) -> Completion<StoreOutcome<C>> {
        if let Some(completion) = self.completions.wait(&self.rt) {
            return completion;
        }
        Completion {
            token: CallToken {
                connection: 0,
                call: 0,
            },
            reply: Err(CallRefusal::without_call(Refusal::Closed)),
        }
    }
}
