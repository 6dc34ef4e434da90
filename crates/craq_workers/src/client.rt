//! `Client`: blocking calls of a store from any thread, one at a time, with the pass that they
//! raise and the history that they have seen. `make_call`, `finish_call` and `give_up_call` serve the
//! calls of sessions too (`sessions`).
ghost use Rattle.std.specs.Prelude.{◌≡◌, ◌<◌, ◌⊎◌, ◌≤◌, ◌+◌, ◌↔◌, List, Some, max, Err, IfErr, IfOk, IfSome, Ok, OnErr, length};
ghost use mathlib.Core.List.{IsPrefix};
ghost use Rattle.craq_names.specs.Limits.{greatest};
ghost use Rattle.craq_ghost_history.specs.Histories.{AreComparable};
ghost use Rattle.craq_seat.specs.CallCompletions.{IsCallOf};
ghost use Rattle.craq_seat.specs.RefusedCalls.{CanRefuse};
ghost use Rattle.craq_store_history.specs.declared.entry.HistoryEntry.{HistoryEntry};
ghost use Rattle.craq_store_history.specs.Chains.{IsHistory};
ghost use Rattle.craq_store_parts.specs.Recorded.{HasAccepted, HasReplied};
ghost use Rattle.craq_store_parts.specs.Sent.{IsMade};
ghost use Rattle.craq_store_parts.specs.Witnessed.{IsWitnessed};
ghost use Rattle.craq_workers.specs.Clients.{MakesOne, RefusesAsk};
ghost use Rattle.craq_running_chain.specs.Missed.{IsMissed};
ghost use Rattle.craq_workers.specs.Untaken.{IsGivenUp, IsUntaken, LeavesOpen};

use craq_ghost_history::Named;
use craq_model::{Answer, Ask};
use craq_names::{Copied, NodeName, Pass, Refusal};
use craq_node::Core;
use craq_running_chain::{AskedChain, Shared, possible_refusal};
use craq_running_node::{Asked, CallOutcome, Destination};
use craq_seat::{
    CallReceipt, CallToken, Completion, CompletionQueue, Reach, answer_of_call, pass_after,
};
use craq_store_history::CallId;
use craq_store_parts::{
    AnsweredCall, CallRefusal, Gate, MadeAsk, RefusalMoment, Session, StoreHistory, StoreToken,
};
use std::alloc::Global;
use std::marker::Model;
use std::sync::{Arc, Wait};

/// The token of the one call for whose completion a client makes a queue.
const ONLY: CallToken = CallToken {
    connection: 0,
    call: 0,
};

/// A client of a store, with its pass: the largest stamp that it has seen; and with its session,
/// which has seen a prefix of the store's history. A contract sees them, and how many chains the
/// store has.
#[derive(Drop)]
pub struct Client<C: Core + Named, G: Gate> {
    alloc: Global,
    shared: Arc<Shared<C, G>>,
    pass: Pass,
    session: Session<C>,
}

impl<C: Core + Named, G: Gate> Model for Client<C, G> {
    ghost use Rattle.std.specs.Prelude.{length};
    ghost use Rattle.craq_workers.specs.Clients.{Asker};

    ghost Value = { Asker };

    ghost view = { λ c. record { chains = length c.shared.value.chains.items; pass = c.pass; client = c.session.client; made = c.session.next; seen = c.session.seen } };
}

impl<C: Core + Named, G: Gate> Client<C, G> {
    /// Makes a client with this pass and session. Takes no memory.
    pub(crate) fn new(
        alloc: Global,
        shared: Arc<Shared<C, G>>,
        pass: Pass,
        session: Session<C>,
    ) -> Self
        ensures { result ≡ record { chains = length shared.value.chains.items; pass = pass; client = session.client; made = session.next; seen = session.seen } }
    {
        Client {
            alloc,
            shared,
            pass,
            session,
        }
    }

    /// Returns the client's pass. Takes no memory.
    pub fn pass(&self) -> Pass
        ensures { result ≡ self.now.pass }
    {
        self.pass
    }

    /// Sends a request to a node with the client's pass, and waits for the reply. Returns the
    /// answer and the receipt of the call, which has this request, this answer and the pass.
    ///
    /// The request's stamp is above the pass, and the answer's stamp is not below the request's.
    /// The client's pass is then raised to the answer's stamp. After a lost message the call waits
    /// until a later tick sends that message again (`Store::tick`): forever, if nobody ticks the
    /// store.
    ///
    /// The client has then made one call more. It has seen a history of the store in which its node
    /// accepted this request and gave this answer (`IsWitnessed`). The node accepted it after all that
    /// the client had seen before the call. So a single copy gives each strong reply after a prefix of
    /// the chain's updates, by the law `strong_replies_are_of_one_copy` of `craq_running_promise`.
    ///
    /// Refused, with the pass as it was, with:
    /// - `UnknownChain` exactly if the store has no such chain;
    /// - `WrongNode` if the chain never had the node;
    /// - the refusals of `Desk::take`;
    /// - `Stopped` if the node stops before it answers;
    /// - `Closed` if the store is closed, or closes before the answer, or what came is of another
    ///   call, or the client has made 2^64 - 1 calls;
    /// - `Memory` when out of memory.
    ///
    /// After `Stopped`, `Memory` or `Closed` an update may or may not have taken effect. It may be
    /// sent again with its number. After any other refusal no step was taken for the request, and
    /// none will be: the store's history shows it (`IsUntaken`). It shows also a moment after the
    /// call at which the node refuses the request with this pass by its rules, unless the refusal is
    /// `WrongNode`.
    pub fn call<R: Wait>(
        &mut self,
        rt: &R,
        node: NodeName,
        ask: Ask,
    ) -> Result<(Answer, CallReceipt), Refusal>
        ensures call { IfOk result (λ r. IsCallOf node ask self.old.pass r.0 r.1) }
        ensures unknown { (result ≡ Err Refusal.UnknownChain) ↔ (self.old.chains ≤ node.chain) }
        ensures refused { IfErr result (λ e. RefusesAsk self.old.chains node ask e) }
        ensures pass { IfOk result (λ r. self.new.pass ≡ max self.old.pass r.1.answered.stamp) }
        ensures same { OnErr result (self.new.pass ≡ self.old.pass) }
        ensures chains { self.new.chains ≡ self.old.chains }
        ensures client { self.new.client ≡ self.old.client }
        ensures once { MakesOne self.old.made result self.new.made }
        ensures later { IsPrefix self.old.seen self.new.seen }
        ensures run { IfOk result (λ r. IsWitnessed self.old.client self.old.seen node ask r.0 r.1 self.new.seen) }
        ensures untaken { IfErr result (λ e. IsUntaken self.old.client self.old.seen node ask self.old.pass self.new.seen e) }
    {
        let called = self.wait_for(rt, &node, &ask);
        drop(ask);
        let (answer, receipt) = called?;
        self.pass = pass_after(self.pass, &receipt);
        Ok((answer, receipt))
    }

    /// Returns a token that has seen as much of the store's history as the client, for
    /// `Store::stop_after` and others.
    pub fn token(&mut self) -> StoreToken<C>
        ensures token { result ≡ self.old.seen }
        ensures same { self.new ≡ self.old }
    {
        let shared = &self.shared;
        self.session.token(&shared.history)
    }

    /// Sees all that the token has seen: the calls that the client makes from then on come after it.
    pub fn learn(&mut self, token: StoreToken<C>)
        ensures that { IsPrefix token self.new.seen }
        ensures history { IsHistory self.new.seen }
        ensures later { IsPrefix self.old.seen self.new.seen }
        ensures same { self.new ≡ record self.old { seen = self.new.seen } }
    {
        let shared = &self.shared;
        self.session.learn(&shared.history, token);
    }

    /// Shows that two clients of one store have seen prefixes of one history: one begins with the
    /// other. Neither changes.
    pub fn compare(&mut self, other: &mut Self)
        ensures comparable { AreComparable self.old.seen other.old.seen }
        ensures this { self.new ≡ self.old }
        ensures that { other.new ≡ other.old }
    {
        let shared = &self.shared;
        self.session.compare(&shared.history, &mut other.session);
    }

    /// Looks for the chain, makes the call, sends the request, and waits. Returns the answer and
    /// the receipt of the call.
    fn wait_for<R: Wait>(
        &mut self,
        rt: &R,
        node: &NodeName,
        ask: &Ask,
    ) -> Result<(Answer, CallReceipt), Refusal>
        ensures call { IfOk result (λ r. IsCallOf node.now ask.now self.old.pass r.0 r.1) }
        ensures unknown { (result ≡ Err Refusal.UnknownChain) ↔ (self.old.chains ≤ node.now.chain) }
        ensures refused { IfErr result (λ e. RefusesAsk self.old.chains node.now ask.now e) }
        ensures same { self.new ≡ record self.old { made = self.new.made; seen = self.new.seen } }
        ensures once { MakesOne self.old.made result self.new.made }
        ensures later { IsPrefix self.old.seen self.new.seen }
        ensures run { IfOk result (λ r. IsWitnessed self.old.client self.old.seen node.now ask.now r.0 r.1 self.new.seen) }
        ensures untaken { IfErr result (λ e. IsUntaken self.old.client self.old.seen node.now ask.now self.old.pass self.new.seen e) }
    {
        self.shared.chain(node.chain)?;
        let (call, made) = self.make(node, ask)?;
        let answered = match self.reply(rt, ask, made) {
            Ok(answered) => answered,
            Err(refusal) => return Err(self.give_up(refusal, call)),
        };
        let receipt = self.finish(answered, call, node)?;
        let answer = match answer_of_call(self.alloc, &receipt, node, ask, self.pass) {
            Ok(answer) => answer,
            Err(refusal) => {
                drop(receipt);
                return Err(refusal);
            }
        };
        Ok((answer, receipt))
    }

    /// Makes a call of this request, as `make_call` does.
    fn make(&mut self, node: &NodeName, ask: &Ask) -> Result<(CallId, MadeAsk<C>), Refusal>
        ensures made { IfOk result (λ r. IsMade self.old.seen r.0 node.now ask.now self.new.seen) }
        ensures ask { IfOk result (λ r. r.1 ≡ record { name = node.now; ask = ask.now; call = r.0 }) }
        ensures caller { IfOk result (λ r. r.0.client ≡ self.old.client) }
        ensures next { IfOk result (λ _. self.new.made ≡ self.old.made + 1) }
        ensures same { self.new ≡ record self.old { made = self.new.made; seen = self.new.seen } }
        ensures none { OnErr result (self.new ≡ self.old) }
        ensures later { IsPrefix self.old.seen self.new.seen }
        ensures refused { IfErr result (λ e. (e ≡ Refusal.Memory) ⊎ (e ≡ Refusal.Closed)) }
    {
        let alloc = self.alloc;
        let shared = &self.shared;
        make_call(alloc, &shared.history, &mut self.session, node, ask)
    }

    /// Sees the steps of an answered call, as `finish_call` does.
    fn finish(
        &mut self,
        answered: AnsweredCall<C>,
        call: CallId,
        node: &NodeName,
    ) -> Result<CallReceipt, Refusal>
        ensures receipt { IfOk result (λ r. r ≡ answered) }
        ensures accepted { IfOk result (λ r. HasAccepted self.new.seen node.now call r.call) }
        ensures replied { IfOk result (λ r. HasReplied self.new.seen node.now r) }
        ensures history { IfOk result (λ r. IsHistory self.new.seen) }
        ensures same { self.new ≡ record self.old { seen = self.new.seen } }
        ensures later { IsPrefix self.old.seen self.new.seen }
        ensures closed { IfErr result (λ e. e ≡ Refusal.Closed) }
    {
        let shared = &self.shared;
        finish_call(&shared.history, &mut self.session, answered, call, node)
    }

    /// Gives up a call with the client's pass that was refused, as `give_up_call` does.
    fn give_up(&mut self, refusal: CallRefusal<C>, call: CallId) -> Refusal
        requires { call.client ≡ self.old.client }
        ensures reported { (result ≡ refusal) ⊎ (result ≡ Refusal.Closed) }
        ensures given_up { LeavesOpen result ⊎ IsGivenUp self.new.seen call self.old.pass result }
        ensures same { self.new ≡ record self.old { seen = self.new.seen } }
        ensures later { IsPrefix self.old.seen self.new.seen }
    {
        let shared = &self.shared;
        give_up_call(&shared.history, &mut self.session, refusal, call, self.pass)
    }

    /// Returns the reply to a request, with a new completion queue to wait at.
    fn reply<R: Wait>(&self, rt: &R, ask: &Ask, made: MadeAsk<C>) -> CallOutcome<C>
        requires ask { made.ask ≡ ask.now }
        requires there { made.name.chain < self.now.chains }
        ensures refused { IfErr result (λ e. CanRefuse ask.now e) }
    {
        match Arc::new(self.alloc, CompletionQueue::new(self.alloc, None)) {
            Ok(completions) => {
                let outcome = self.reply_into(rt, ask, made, &completions);
                drop(completions);
                outcome
            }
            Err(_) => Err(CallRefusal::before_step(made, Refusal::Memory)),
        }
    }

    /// Returns the reply to a request: at once, or the completion that comes into this queue.
    fn reply_into<R: Wait>(
        &self,
        rt: &R,
        ask: &Ask,
        made: MadeAsk<C>,
        completions: &Arc<CompletionQueue<CallOutcome<C>>>,
    ) -> CallOutcome<C>
        requires ask { made.ask ≡ ask.now }
        requires there { made.name.chain < self.now.chains }
        ensures refused { IfErr result (λ e. CanRefuse ask.now e) }
    {
        let chain = match self.shared.chain(made.name().chain) {
            Ok(chain) => chain,
            Err(refusal) => return Err(CallRefusal::before_step(made, refusal)),
        };
        let own = Asked {
            made,
            pass: self.pass,
            at: Destination {
                completions,
                token: ONLY,
            },
        };
        let reach = Reach::WholeChain;
        let found = self
            .shared
            .submit(rt, AskedChain { chain, reach }, ask, own)?;
        match found {
            Some(answered) => Ok(answered),
            None => wait_for_completion(rt, completions, ask),
        }
    }
}

/// Makes the session's next call, of this request: adds it to the store's history. Refused with
/// `Memory` when out of memory, and with `Closed` if the session made 2^64 - 1 calls.
pub(crate) fn make_call<N: Named>(
    alloc: Global,
    history: &StoreHistory<N>,
    session: &mut Session<N>,
    node: &NodeName,
    ask: &Ask,
) -> Result<(CallId, MadeAsk<N>), Refusal>
    ensures made { IfOk result (λ r. IsMade session.old.seen r.0 node.now ask.now session.new.seen) }
    ensures ask { IfOk result (λ r. r.1 ≡ record { name = node.now; ask = ask.now; call = r.0 }) }
    ensures call { IfOk result (λ r. r.0 ≡ record { client = session.old.client; number = session.old.next }) }
    ensures next { IfOk result (λ _. session.new.next ≡ session.old.next + 1) }
    ensures client { session.new.client ≡ session.old.client }
    ensures later { IsPrefix session.old.seen session.new.seen }
    ensures refused { IfErr result (λ e. (e ≡ Refusal.Memory) ⊎ ((e ≡ Refusal.Closed) × (session.old.next ≡ greatest))) }
    ensures same { OnErr result (session.new ≡ session.old) }
{
    let copy = ask.copied(alloc)?;
    match session.call(history, *node, &copy) {
        None => {
            drop(copy);
            Err(Refusal::Closed)
        }
        Some(made) => {
            let call = made.call();
            Ok((call, MadeAsk::new(made, *node, copy)))
        }
    }
}

/// Sees the steps of an answered call. Returns the receipt of the reply, or `Closed` if it is of
/// another call.
pub(crate) fn finish_call<N: Named>(
    history: &StoreHistory<N>,
    session: &mut Session<N>,
    answered: AnsweredCall<N>,
    call: CallId,
    node: &NodeName,
) -> Result<CallReceipt, Refusal>
    ensures receipt { IfOk result (λ r. r ≡ answered) }
    ensures accepted { IfOk result (λ r. HasAccepted session.new.seen node.now call r.call) }
    ensures replied { IfOk result (λ r. HasReplied session.new.seen node.now r) }
    ensures history { IfOk result (λ r. IsHistory session.new.seen) }
    ensures client { (session.new.client ≡ session.old.client) × (session.new.next ≡ session.old.next) }
    ensures later { IsPrefix session.old.seen session.new.seen }
    ensures closed { IfErr result (λ e. e ≡ Refusal.Closed) }
{
    match session.finish(history, answered, call, *node) {
        Some(receipt) => Ok(receipt),
        None => Err(Refusal::Closed),
    }
}

/// Gives up a call with this pass that was refused. If the refusal gives the call back, the history
/// says from then on that no step accepts it, and at which moment its node refused it. Else the
/// refusal has to leave open whether a step did: it becomes `Closed` unless it is `Stopped`,
/// `Memory` or `Closed`.
pub(crate) fn give_up_call<N: Named>(
    history: &StoreHistory<N>,
    session: &mut Session<N>,
    refusal: CallRefusal<N>,
    call: CallId,
    pass: Pass,
) -> Refusal
    requires { call.client ≡ session.old.client }
    ensures reported { (result ≡ refusal) ⊎ (result ≡ Refusal.Closed) }
    ensures kept { LeavesOpen refusal → result ≡ refusal }
    ensures given_up { LeavesOpen result ⊎ IsGivenUp session.new.seen call pass result }
    ensures client { (session.new.client ≡ session.old.client) × (session.new.next ≡ session.old.next) }
    ensures later { IsPrefix session.old.seen session.new.seen }
{
    let (refusal, back, moment) = refusal.into_refused().into_parts();
    let Some(made) = back else {
        drop(moment);
        return open_refusal(refusal);
    };
    if made.call() != call {
        drop(made);
        drop(moment);
        return open_refusal(refusal);
    }
    let moment = moment_of_pass(moment, pass);
    let refusal = see_moment(history, session, refusal, moment);
    session.take_back(history, made);
    refusal
}

/// Returns the moment at which a node refused a call, if the node did so with this pass.
fn moment_of_pass<N: Named>(moment: Option<RefusalMoment<N>>, pass: Pass) -> Option<StoreToken<N>>
    ensures { IfSome result (λ log. moment ≡ Some (record { pass = pass; seen = log })) }
{
    moment?.of_pass(pass)
}

/// Sees the moment at which a node refused a call. Returns the refusal. Without a moment it becomes
/// `Closed`, unless it can come before a step of a node.
fn see_moment<N: Named>(
    history: &StoreHistory<N>,
    session: &mut Session<N>,
    refusal: Refusal,
    moment: Option<StoreToken<N>>,
) -> Refusal
    ensures seen { IsMissed result ⊎ ((log : List HistoryEntry) × (moment ≡ Some log) × IsPrefix log session.new.seen × (result ≡ refusal)) }
    ensures reported { (result ≡ refusal) ⊎ (result ≡ Refusal.Closed) }
    ensures kept { LeavesOpen refusal → result ≡ refusal }
    ensures client { (session.new.client ≡ session.old.client) × (session.new.next ≡ session.old.next) }
    ensures later { IsPrefix session.old.seen session.new.seen }
{
    match moment {
        None => refusal_before_step(refusal),
        Some(moment) => {
            session.learn(history, moment);
            refusal
        }
    }
}

/// Returns a refusal that no moment of the history shows: this one if it can come before a step of
/// a node, else `Closed`.
fn refusal_before_step(refusal: Refusal) -> Refusal
    ensures missed { IsMissed result }
    ensures same { LeavesOpen refusal → result ≡ refusal }
    ensures reported { (result ≡ refusal) ⊎ (result ≡ Refusal.Closed) }
{
    match refusal {
        Refusal::WrongNode => Refusal::WrongNode,
        Refusal::Stopped => Refusal::Stopped,
        Refusal::Memory => Refusal::Memory,
        _ => Refusal::Closed,
    }
}

/// Returns a refusal that leaves open whether the call was accepted: this one, or `Closed`.
fn open_refusal(refusal: Refusal) -> Refusal
    ensures open { LeavesOpen result }
    ensures missed { IsMissed result }
    ensures same { LeavesOpen refusal → result ≡ refusal }
    ensures reported { (result ≡ refusal) ⊎ (result ≡ Refusal.Closed) }
{
    match refusal {
        Refusal::Stopped => Refusal::Stopped,
        Refusal::Memory => Refusal::Memory,
        _ => Refusal::Closed,
    }
}

/// Waits for the completion and returns its reply. A refusal that this request cannot have becomes
/// `Closed`.
fn wait_for_completion<R: Wait, N: Named>(
    rt: &R,
    completions: &CompletionQueue<CallOutcome<N>>,
    ask: &Ask,
) -> CallOutcome<N>
    ensures { IfErr result (λ e. CanRefuse ask.now e) }
{
    let Some(completion) = completions.wait(rt) else {
        return Err(CallRefusal::without_call(Refusal::Closed));
    };
    let Completion { token: _, reply } = completion;
    match reply {
        Ok(answered) => Ok(answered),
        Err(refusal) => Err(possible_refusal(ask, refusal)),
    }
}
