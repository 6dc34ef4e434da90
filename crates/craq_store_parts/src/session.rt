//! `Session`: a client's session, which adds each call to the history before it is asked, and takes
//! a call back that no step accepted.
ghost use Rattle.std.specs.Prelude.{◌≡◌, ◌+◌, [], None, IfSome, IsNone};
ghost use Rattle.craq_names.specs.Limits.{greatest};
ghost use mathlib.Core.List.{IsPrefix};
ghost use Rattle.craq_ghost_history.specs.Authors.{of};
ghost use Rattle.craq_ghost_history.specs.Histories.{AreComparable};
ghost use Rattle.craq_store_history.specs.Chains.{IsHistory, WasCalled};
ghost use Rattle.craq_store_history.specs.Entries.{author_of};
ghost use Rattle.craq_store_parts.specs.Recorded.{HasAccepted, HasReplied};
ghost use Rattle.craq_store_parts.specs.Witnessed.{IsNeverAccepted};
ghost use Rattle.craq_store_parts.specs.Sent.{IsMade, IsSession};

use crate::answered_call::AnsweredCall;
use crate::call_made::CallMade;
use crate::{StoreHistory, StoreToken, StoreWriter};
use craq_ghost_history::{Named, Registrar};
use craq_model::Ask;
use craq_names::NodeName;
use craq_seat::CallReceipt;
use craq_store_history::{CallId, HistoryEntry, StoreRule};
use std::marker::Model;
use std::snapshot::Snapshot;

/// A client's session: it numbers its calls, and no two have one number.
#[derive(Drop)]
pub struct Session<N: Named> {
    client: u64,
    next: u64,
    writer: StoreWriter<N>,
}

impl<N: Named> Model for Session<N> {
    ghost use Rattle.craq_store_parts.specs.Sent.{Calling, IsSession};

    ghost Value = { Calling };

    ghost view = { λ s. record { client = s.client; next = s.next; seen = s.writer.seen } };

    ghost invariant = { λ s. IsSession s.client s.next s.writer };
}

/// Sees all that there is, and so all that both tokens have seen. The author has no more entries by
/// it.
fn learn_both<N: Named>(
    writer: &mut StoreWriter<N>,
    history: &StoreHistory<N>,
    first: StoreToken<N>,
    second: StoreToken<N>,
)
    ensures this { IsPrefix writer.old.seen writer.new.seen }
    ensures first { IsPrefix first writer.new.seen }
    ensures second { IsPrefix second writer.new.seen }
    ensures own { of author_of writer.old.author writer.new.seen ≡ of author_of writer.old.author writer.old.seen }
    ensures author { writer.new.author ≡ writer.old.author }
    ensures next { writer.new.next ≡ writer.old.next }
    ensures holds { IsHistory writer.new.seen }
{
    writer.learn(history, first);
    writer.learn(history, second);
}

impl<N: Named> Session<N> {
    /// Makes a session of a client that made no call yet.
    pub fn new(client: u64, writer: StoreWriter<N>) -> Self
        requires { IsSession client 0 writer }
        ensures { result ≡ record { client = client; next = 0; seen = writer.seen } }
    {
        Session {
            client,
            next: 0,
            writer,
        }
    }

    /// Opens the session of a new client. None: 2^64 - 1 were opened.
    pub fn open(
        history: &StoreHistory<N>,
        registrar: &mut Registrar<HistoryEntry, StoreRule, N>,
    ) -> Option<Self>
        ensures opened { IfSome result (λ s. (s.client ≡ registrar.old.next) × (s.next ≡ 0) × (s.seen ≡ [])) }
        ensures next { IfSome result (λ s. registrar.new.next ≡ registrar.old.next + 1) }
        ensures none { IsNone result → registrar.old.next ≡ greatest }
    {
        let client = registrar.next_client();
        let writer = registrar.client(history)?;
        Some(Session::new(client, writer))
    }

    /// Makes a call: adds it to the history, after all that the session has seen, and gives its
    /// permit. None, with nothing changed: the session made 2^64 - 1 calls.
    pub fn call(
        &mut self,
        history: &StoreHistory<N>,
        name: NodeName,
        ask: &Ask,
    ) -> Option<CallMade<N>>
        ensures call { IfSome result (λ c. c.call ≡ record { client = self.old.client; number = self.old.next }) }
        ensures made { IfSome result (λ c. IsMade self.old.seen c.call name ask.now self.new.seen) }
        ensures seen { IfSome result (λ c. c.seen ≡ self.new.seen) }
        ensures called { IfSome result (λ c. WasCalled c.seen c.call name ask.now) }
        ensures next { IfSome result (λ c. self.new.next ≡ self.old.next + 1) }
        ensures client { self.new.client ≡ self.old.client }
        ensures none { result ≡ None → (self.old.next ≡ greatest) × (self.new ≡ self.old) }
    {
        if self.next == u64::MAX {
            return None;
        }
        let call = CallId {
            client: self.client,
            number: self.next,
        };
        let entry = HistoryEntry::ClientCall {
            call,
            name,
            ask: Snapshot::of(ask),
        };
        drop(self.writer.add(history, &entry));
        let grant = self.writer.permit(history);
        self.next += 1;
        Some(CallMade::new(call, grant))
    }

    /// Returns a token that has seen as much as the session.
    pub fn token(&mut self, history: &StoreHistory<N>) -> StoreToken<N>
        ensures token { result ≡ self.old.seen }
        ensures same { self.new ≡ self.old }
    {
        self.writer.token(history)
    }

    /// Sees all that the token has seen, and so each step in it. What the session does from then on
    /// comes after them.
    pub fn learn(&mut self, history: &StoreHistory<N>, token: StoreToken<N>)
        ensures that { IsPrefix token self.new.seen }
        ensures history { IsHistory self.new.seen }
        ensures later { IsPrefix self.old.seen self.new.seen }
        ensures client { (self.new.client ≡ self.old.client) × (self.new.next ≡ self.old.next) }
    {
        self.writer.learn(history, token);
    }

    /// Takes a call back that came back with its permit: adds to the history, after all that was
    /// there, that no step accepts it. None has, and none will.
    pub fn take_back(&mut self, history: &StoreHistory<N>, made: CallMade<N>)
        requires { made.call.client ≡ self.old.client }
        ensures never { IsNeverAccepted self.new.seen made.call }
        ensures history { IsHistory self.new.seen }
        ensures later { IsPrefix self.old.seen self.new.seen }
        ensures client { (self.new.client ≡ self.old.client) × (self.new.next ≡ self.old.next) }
    {
        let (call, grant) = made.into_parts();
        let entry = HistoryEntry::CallTakenBack { call };
        drop(self.writer.add_with(history, &entry, grant));
    }

    /// Sees the steps in which a node accepted a call and replied to it, and returns the receipt of
    /// the reply. None, with nothing changed: the reply is of another call, or of another node.
    pub fn finish(
        &mut self,
        history: &StoreHistory<N>,
        answered: AnsweredCall<N>,
        call: CallId,
        name: NodeName,
    ) -> Option<CallReceipt>
        ensures receipt { IfSome result (λ r. r ≡ answered) }
        ensures accepted { IfSome result (λ r. HasAccepted self.new.seen name call r.call) }
        ensures replied { IfSome result (λ r. HasReplied self.new.seen name r) }
        ensures history { IfSome result (λ r. IsHistory self.new.seen) }
        ensures later { IsPrefix self.old.seen self.new.seen }
        ensures client { (self.new.client ≡ self.old.client) × (self.new.next ≡ self.old.next) }
    {
        match answered.into_own(call, name) {
            None => None,
            Some((receipt, accepted, replied)) => {
                learn_both(&mut self.writer, history, accepted, replied);
                Some(receipt)
            }
        }
    }

    /// Shows that two sessions of one store have seen prefixes of one history: one begins with the
    /// other. Neither changes.
    pub fn compare(&mut self, history: &StoreHistory<N>, other: &mut Self)
        ensures comparable { AreComparable self.old.seen other.old.seen }
        ensures this { self.new ≡ self.old }
        ensures that { other.new ≡ other.old }
    {
        let mut seen = self.writer.token(history);
        let mut others = other.writer.token(history);
        seen.compare(history, &mut others);
    }
}
