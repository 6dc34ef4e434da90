//! `Store::open_session`, `Store::make_ask`, `Store::finish_ask` and `Store::give_up_ask`: calls of a
//! caller that submits its requests itself and has no `Client`; for a server.
ghost use Rattle.std.specs.Prelude.{◌≡◌, ◌≤◌, ◌+◌, ◌⊎◌, ◌↔◌, [], Err, IfErr, IfOk, OnErr, length};
ghost use mathlib.Core.List.{IsPrefix};
ghost use Rattle.craq_names.specs.Limits.{greatest};
ghost use Rattle.craq_ghost_history.specs.Histories.{AreComparable};
ghost use Rattle.craq_store_history.specs.Chains.{IsHistory};
ghost use Rattle.craq_store_parts.specs.Recorded.{HasAccepted, HasReplied};
ghost use Rattle.craq_store_parts.specs.Sent.{IsMade};
ghost use Rattle.craq_workers.specs.Untaken.{IsGivenUp, LeavesOpen};

use crate::client::{finish_call, give_up_call, make_call};
use crate::store::Store;
use craq_ghost_history::Named;
use craq_model::Ask;
use craq_names::{NodeName, Pass, Refusal};
use craq_node::Core;
use craq_seat::CallReceipt;
use craq_store_history::CallId;
use craq_store_parts::{AnsweredCall, CallRefusal, Gate, MadeAsk, Session, StoreToken};
use std::alloc::AllocError;
use std::sync::Wait;

impl<C: Core + Named, G: Gate> Store<C, G> {
    /// Opens the session of a new client, which has seen nothing of the store's history yet. Fails
    /// if 2^64 - 1 sessions were opened.
    pub fn open_session<R: Wait>(&self, rt: &R) -> Result<Session<C>, AllocError>
        ensures { IfOk result (λ s. (s.next ≡ 0) × (s.seen ≡ [])) }
    {
        let mut registrar = self.shared.registrar.lock(rt);
        let opened = Session::open(&self.shared.history, &mut registrar);
        drop(registrar);
        match opened {
            Some(session) => Ok(session),
            None => Err(AllocError),
        }
    }

    /// Makes the session's next call, of a copy of this request: adds it to the store's history,
    /// after all that the session has seen. Returns what names the call, and the request, which
    /// `submit` takes. The reply goes to `finish_ask`, a refusal to `give_up_ask`. Neither makes a
    /// call. Refused, and no call is made, with:
    /// - `UnknownChain` exactly if the store has no such chain;
    /// - `Memory` when out of memory;
    /// - `Exhausted` if the session made 2^64 - 1 calls.
    pub fn make_ask(
        &self,
        session: &mut Session<C>,
        node: &NodeName,
        ask: &Ask,
    ) -> Result<(CallId, MadeAsk<C>), Refusal>
        ensures made { IfOk result (λ r. IsMade session.old.seen r.0 node.now ask.now session.new.seen) }
        ensures ask { IfOk result (λ r. r.1 ≡ record { name = node.now; ask = ask.now; call = r.0 }) }
        ensures call { IfOk result (λ r. r.0 ≡ record { client = session.old.client; number = session.old.next }) }
        ensures next { IfOk result (λ _. session.new.next ≡ session.old.next + 1) }
        ensures client { session.new.client ≡ session.old.client }
        ensures later { IsPrefix session.old.seen session.new.seen }
        ensures unknown { (result ≡ Err Refusal.UnknownChain) ↔ (length self.now.names ≤ node.now.chain) }
        ensures refused { IfErr result (λ e. (e ≡ Refusal.UnknownChain) ⊎ (e ≡ Refusal.Memory) ⊎ ((e ≡ Refusal.Exhausted) × (session.old.next ≡ greatest))) }
        ensures same { OnErr result (session.new ≡ session.old) }
    {
        self.shared.chain(node.chain)?;
        match make_call(self.alloc, &self.shared.history, session, node, ask) {
            Ok(made) => Ok(made),
            Err(Refusal::Memory) => Err(Refusal::Memory),
            Err(_) => Err(Refusal::Exhausted),
        }
    }

    /// Sees the steps in which a node of this name accepted a call of the session and replied to
    /// it. Returns the receipt of the reply, or `Closed` if it is of another call or another node.
    pub fn finish_ask(
        &self,
        session: &mut Session<C>,
        answered: AnsweredCall<C>,
        call: CallId,
        node: &NodeName,
    ) -> Result<CallReceipt, Refusal>
        ensures receipt { IfOk result (λ r. r ≡ answered) }
        ensures accepted { IfOk result (λ r. HasAccepted session.new.seen node.now call r.call) }
        ensures replied { IfOk result (λ r. HasReplied session.new.seen node.now r) }
        ensures history { IfOk result (λ r. IsHistory session.new.seen) }
        ensures client { (session.new.client ≡ session.old.client) × (session.new.next ≡ session.old.next) }
        ensures later { IsPrefix session.old.seen session.new.seen }
        ensures closed { IfErr result (λ e. e ≡ Refusal.Closed) }
    {
        finish_call(&self.shared.history, session, answered, call, node)
    }

    /// Gives up a call of the session, submitted with this pass, that was refused. Returns its
    /// refusal, which then says that no step accepts the call, or leaves that open: `Stopped`,
    /// `Memory` or `Closed`. Another refusal that does not give this call back becomes `Closed`. The
    /// session has then seen a moment at which the call's node refuses it with this pass by its
    /// rules, unless the refusal is one of these three or `WrongNode`.
    pub fn give_up_ask(
        &self,
        session: &mut Session<C>,
        refusal: CallRefusal<C>,
        call: CallId,
        pass: Pass,
    ) -> Refusal
        requires { call.client ≡ session.old.client }
        ensures reported { (result ≡ refusal) ⊎ (result ≡ Refusal.Closed) }
        ensures kept { LeavesOpen refusal → result ≡ refusal }
        ensures given_up { LeavesOpen result ⊎ IsGivenUp session.new.seen call pass result }
        ensures client { (session.new.client ≡ session.old.client) × (session.new.next ≡ session.old.next) }
        ensures later { IsPrefix session.old.seen session.new.seen }
    {
        give_up_call(&self.shared.history, session, refusal, call, pass)
    }

    /// Returns a token that has seen as much of the store's history as the session, for `stop_after`
    /// and others.
    pub fn token_of(&self, session: &mut Session<C>) -> StoreToken<C>
        ensures token { result ≡ session.old.seen }
        ensures same { session.new ≡ session.old }
    {
        session.token(&self.shared.history)
    }

    /// Lets the session see all that the token has seen: the calls that it makes from then on come
    /// after it.
    pub fn show(&self, session: &mut Session<C>, token: StoreToken<C>)
        ensures that { IsPrefix token session.new.seen }
        ensures history { IsHistory session.new.seen }
        ensures later { IsPrefix session.old.seen session.new.seen }
        ensures client { (session.new.client ≡ session.old.client) × (session.new.next ≡ session.old.next) }
    {
        session.learn(&self.shared.history, token);
    }

    /// Shows that two sessions of this store have seen prefixes of one history: one begins with the
    /// other. Neither changes.
    pub fn compare_sessions(&self, session: &mut Session<C>, other: &mut Session<C>)
        ensures comparable { AreComparable session.old.seen other.old.seen }
        ensures this { session.new ≡ session.old }
        ensures that { other.new ≡ other.old }
    {
        session.compare(&self.shared.history, other);
    }
}
