//! `StoreSession`: the session of a connection of a served store, with its calls that are under way;
//! for `served_store`.
ghost use Rattle.std.specs.Prelude.{◌≡◌, ◌≤◌, ◌⊎◌, ◌↔◌, [], ◌∷◌, IfSome, None, Some, Err, IfErr, IfOk, OnErr, length};
ghost use mathlib.Core.List.{IsPrefix};
ghost use Rattle.craq_names.specs.Limits.{greatest};
ghost use Rattle.craq_server.specs.Sessions.{Finishes, FinishesAnswered, GivesUp, MakesCall, first_with};

use craq_model::Ask;
use craq_names::{NodeName, Pass, Refusal};
use craq_node::Core;
use craq_seat::CallReceipt;
use craq_workers::{
    AnsweredCall, CallId, CallOutcome, CallRefusal, Gate, MadeAsk, Named, Session, Store,
};
use std::alloc::{AllocError, Global};
use std::marker::Model;

/// A reply that came before its turn.
#[derive(Drop)]
struct EarlyReply<C: Named> {
    /// The number under which its connection asked the call.
    call: u64,
    reply: CallOutcome<C>,
}

/// The most replies of a session that come before their turn.
const MOST_EARLY: usize = 8;

/// Returns the number of the first call that is under way once the call under this number is.
fn first_with(first: Option<u64>, number: u64) -> u64
    ensures { result ≡ first_with first number }
{
    match first {
        Some(first) => first,
        None => number,
    }
}

/// The session of a connection. A contract sees its client's number, the number of calls that it
/// made, the history that it has seen, and the calls that are under way.
#[derive(Drop)]
pub(crate) struct StoreSession<C: Named> {
    session: Session<C>,
    /// The number of the first call that is under way, if one is.
    first: Option<u64>,
    /// The call that was made last.
    last: CallId,
    /// The replies that came before their turn.
    early: Vec<EarlyReply<C>>,
}

impl<C: Named> Model for StoreSession<C> {
    ghost use Rattle.craq_server.specs.Sessions.{Connected, IsUpTo, calls_from};

    ghost Value = { Connected };

    ghost view = { λ s. record { client = s.session.client; made = s.session.next; seen = s.session.seen; calls = calls_from s.session.client s.first s.session.next } };

    ghost invariant = { λ s. IsUpTo s.session.client s.first s.last s.session.next };
}

impl<C: Core + Named> StoreSession<C> {
    /// Makes the session of a new connection, which made no call yet. Takes no memory.
    pub(crate) fn new(alloc: Global, session: Session<C>) -> Self
        ensures { result ≡ record { client = session.client; made = session.next; seen = session.seen; calls = [] } }
    {
        StoreSession {
            session,
            first: None,
            last: CallId {
                client: 0,
                number: 0,
            },
            early: Vec::new(alloc),
        }
    }

    /// Makes room for the replies that come before their turn. Fails only when out of memory.
    pub(crate) fn make_room(&mut self) -> Result<(), AllocError>
        ensures { self.new ≡ self.old }
    {
        self.early.reserve(MOST_EARLY)?;
        Ok(())
    }

    /// Keeps the reply to the call under this number until its turn.
    pub(crate) fn keep(&mut self, call: u64, reply: CallOutcome<C>)
        ensures { self.new ≡ self.old }
    {
        // There is room, as `make_room` made it before the call.
        let _ = self.early.push(EarlyReply { call, reply });
    }

    /// Takes the reply to the call under this number, if it was kept.
    pub(crate) fn take_kept(&mut self, call: u64) -> Option<CallOutcome<C>>
        ensures { self.new ≡ self.old }
    {
        for place in 0..self.early.len() {
            if self.early[place].call == call {
                let EarlyReply { call: _, reply } = self.early.swap_remove(place);
                return Some(reply);
            }
        }
        None
    }

    /// Takes the first call that is under way, if there is one: it is no longer.
    #[tactic(auto, using(crate::proofs::Sessions::first_of_more, crate::proofs::Sessions::first_of_one, crate::proofs::Sessions::up_to_more))]
    fn take_first(&mut self) -> Option<CallId>
        ensures first { IfSome result (λ call. self.old.calls ≡ call ∷ self.new.calls) }
        ensures own { IfSome result (λ call. call.client ≡ self.old.client) }
        ensures none { result ≡ None → self.old.calls ≡ [] }
        ensures same { result ≡ None → self.new ≡ self.old }
        ensures rest { self.new ≡ record self.old { calls = self.new.calls } }
    {
        let number = self.first?;
        self.first = if number < self.last.number {
            Some(number + 1)
        } else {
            None
        };
        let client = self.last.client;
        Some(CallId { client, number })
    }

    /// Makes the next call, of this request, which is under way from then on, behind those before.
    /// Refused as `Store::make_ask` is, and then nothing changes.
    #[tactic(auto, using(crate::proofs::Sessions::makes_call, crate::proofs::Sessions::makes_first, crate::proofs::Sessions::up_to_first))]
    pub(crate) fn make<G: Gate>(
        &mut self,
        store: &Store<C, G>,
        node: &NodeName,
        ask: &Ask,
    ) -> Result<MadeAsk<C>, Refusal>
        ensures made { IfOk result (λ m. (m.name ≡ node.now) × (m.ask ≡ ask.now)) }
        ensures call { IfOk result (λ _. MakesCall self.old node.now ask.now self.new) }
        ensures unknown { (result ≡ Err Refusal.UnknownChain) ↔ (length store.now.names ≤ node.now.chain) }
        ensures refused { IfErr result (λ e. (e ≡ Refusal.UnknownChain) ⊎ (e ≡ Refusal.Memory) ⊎ ((e ≡ Refusal.Exhausted) × (self.old.made ≡ greatest))) }
        ensures same { OnErr result (self.new ≡ self.old) }
    {
        let (call, made) = store.make_ask(&mut self.session, node, ask)?;
        self.first = Some(first_with(self.first, call.number));
        self.last = call;
        Ok(made)
    }

    /// Finishes the first call under way, at a node of this name with this pass, by its reply.
    /// Returns the receipt of an answer, or `Closed` if it is of another call, or if no call is
    /// under way. A call that was refused is given up.
    pub(crate) fn finish<G: Gate>(
        &mut self,
        store: &Store<C, G>,
        node: &NodeName,
        pass: Pass,
        reply: CallOutcome<C>,
    ) -> Result<CallReceipt, Refusal>
        ensures { Finishes self.old node.now pass reply result self.new }
    {
        match reply {
            Ok(answered) => self.finish_answered(store, node, answered),
            Err(refusal) => Err(self.give_up(store, refusal, pass)),
        }
    }

    /// Gives up the first call under way with this pass, which was refused so
    /// (`Store::give_up_ask`). Returns its refusal, or `Closed` if no call is under way.
    #[tactic(auto, using(crate::proofs::Sessions::gives_up_made, crate::proofs::Sessions::gives_none_up))]
    fn give_up<G: Gate>(
        &mut self,
        store: &Store<C, G>,
        refusal: CallRefusal<C>,
        pass: Pass,
    ) -> Refusal
        ensures { GivesUp self.old pass refusal result self.new }
    {
        let Some(call) = self.take_first() else {
            drop(refusal);
            return Refusal::Closed;
        };
        store.give_up_ask(&mut self.session, refusal, call, pass)
    }

    /// Finishes the first call under way, at a node of this name, by its answer.
    #[tactic(auto, using(crate::proofs::Sessions::finishes_made, crate::proofs::Sessions::sees_as_much))]
    fn finish_answered<G: Gate>(
        &mut self,
        store: &Store<C, G>,
        node: &NodeName,
        answered: AnsweredCall<C>,
    ) -> Result<CallReceipt, Refusal>
        ensures { FinishesAnswered self.old node.now answered result self.new }
    {
        let Some(call) = self.take_first() else {
            drop(answered);
            return Err(Refusal::Closed);
        };
        store.finish_ask(&mut self.session, answered, call, node)
    }
}
