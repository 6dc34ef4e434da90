//! `Store`: starts and closes a store, stops, removes and joins nodes, ticks, and sends requests.
ghost use Rattle.std.specs.Prelude.{◌≡◌, [], ◌+◌, ◌<◌, ◌≤◌, ◌==◌, ◌⊎◌, ◌↔◌, Err, IfErr, IfOk, IsOk, MatchResult, Ok, OnErr, OnOk, Some, if◌then◌else◌, length, map, option_map, string_bytes};
ghost use Rattle.craq_epochs.specs.Mastered.{master_after_join, opened_master};
ghost use Rattle.craq_ghost_history.specs.declared.author.Author.TheVariants as Author;
ghost use Rattle.craq_names.specs.Limits.{greatest};
ghost use Rattle.craq_locked_chain.specs.Membered.{AreMembershipsOf, IsMembershipOf};
ghost use Rattle.craq_place.specs.Plan.{IsPlan};
ghost use Rattle.craq_model.specs.Plain.{Plain};
ghost use Rattle.craq_seat.specs.Calls.{receipt_in};
ghost use Rattle.craq_seat.specs.Cells.{with_inside};
ghost use Rattle.craq_seat.specs.Kept.{IsKept};
ghost use Rattle.craq_seat.specs.Taken.{TakesEvent, TakesTransition};
ghost use Rattle.craq_store_parts.specs.Recorded.{IsUnjoined};
ghost use Rattle.craq_store_parts.specs.Witnessed.{IsWitnessedJoin, IsWitnessedOrder, IsWitnessedRemoval, IsWitnessedStop};
ghost use Rattle.craq_running_chain.specs.Asks.{IsPut};
ghost use Rattle.craq_running_node.specs.Replies.{in_hand};
ghost use Rattle.craq_workers.specs.Clients.{RefusesAsk};
ghost use Rattle.craq_workers.specs.Moves.{CanJoin, CanRemove, CanStop, IsKeptIn};
ghost use Rattle.craq_workers.specs.Posts.{node_posts};
ghost use Rattle.craq_workers.specs.Stores.{masters_of};

use crate::client::Client;
use crate::opening::{Form, Opener, add_workers, route_to};
use craq_epochs::{MEMBER_LIMIT, is_among};
use craq_ghost_history::{Named, Opened};
use craq_locked_chain::ChainBook;
use craq_model::{Ask, Config, Event};
use craq_names::{ChainId, Copied, NodeId, NodeName, Pass, Refusal, Stamp};
use craq_node::Core;
use craq_place::Plan;
use craq_running_chain::{
    AskedChain, Chain, Shared, Wakes, Worker, master_of, refuse_queued, run_worker,
};
use craq_running_node::{
    JoinedNode, Messages, OwnAsk, OwnReply, RecordedDesk, Route, RunningNode, StepCalls, dismiss,
    open_joined, refuse_callers, refuse_own,
};
use craq_seat::{BookCell, BookEvent, Cell, Desk, Reach, Receipt};
use craq_store_history::{HistoryEntry, StoreRule};
use craq_store_parts::{
    Cause, Gate, Origin, Session, StoppedNode, StoreHistory, StoreToken, StoreWriter,
};
use crossbeam_channel::{Receiver, Sender};
use std::alloc::{AllocError, Global};
use std::marker::Model;
use std::sync::{Arc, Mutex, Wait};
use std::thread;
use std::thread::{JoinHandle, Threads};

/// The status of a chain: its name, and its membership when its master was locked. It may be an old
/// one by now, and contracts say no more.
#[derive(Debug, Drop)]
pub struct ChainStatus {
    pub name: String,
    pub config: Config,
}

/// A store that runs. It has two threads for each chain (`Gate::chain_threads`), or two for each
/// node, and one for each chain's master.
///
/// It has no drop: `close` ends it. A contract sees the names of its chains and their masters as
/// they were opened, by id, whether it keeps journals, and whether each chain has threads. It does
/// not see what is behind locks and channels.
pub struct Store<C: Core + Named, G: Gate> {
    pub(crate) alloc: Global,
    form: Form,
    pub(crate) shared: Arc<Shared<C, G>>,
    /// Disconnects once no worker is left.
    ended: Receiver<()>,
}

impl<C: Core + Named, G: Gate> Model for Store<C, G> {
    ghost use Rattle.std.specs.Prelude.{map, string_bytes};
    ghost use Rattle.craq_epochs.specs.Mastered.{opened_master};
    ghost use Rattle.craq_workers.specs.Stores.{Stored};

    ghost Value = { Stored };

    ghost view = { λ s. record { names = map (λ c. string_bytes c.name) s.shared.value.chains.items; masters = map (λ c. opened_master c.id c.first.members) s.shared.value.chains.items; journals = s.form.journal; chain_threads = s.shared.value.chain_threads } };
}

/// Returns the status of a chain. Fails when out of memory, and if the lock holds the master of
/// another chain.
fn status_of<R: Wait, C: Core + Named>(
    rt: &R,
    alloc: Global,
    chain: &Chain<C>,
) -> Result<ChainStatus, AllocError>
    ensures name { IfOk result (λ status. string_bytes status.name ≡ string_bytes chain.now.name) }
    ensures config { IfOk result (λ status. IsMembershipOf (opened_master chain.now.id chain.now.first.members) status.config) }
{
    let book = chain.book.lock(rt);
    let cell = book.cell();
    if !chain.has_opened(cell.opening()) {
        return Err(AllocError);
    }
    let config = cell.config().copied(alloc)?;
    Ok(ChainStatus {
        name: chain.name.clone()?,
        config,
    })
}

/// Returns the status of each chain. Fails as `status_of` does.
fn statuses_of<R: Wait, C: Core + Named>(
    rt: &R,
    alloc: Global,
    chains: &[Chain<C>],
) -> Result<Vec<ChainStatus>, AllocError>
    ensures names { IfOk result (λ statuses. map (λ s. string_bytes s.name) statuses.items ≡ map (λ c. string_bytes c.name) chains.now) }
    ensures members { IfOk result (λ statuses. AreMembershipsOf (map (λ c. opened_master c.id c.first.members) chains.now) (map (λ s. s.config) statuses.items)) }
{
    let mut statuses = Vec::new(alloc);
    for chain in chains {
        statuses.push(status_of(rt, alloc, chain)?)?;
    }
    Ok(statuses)
}

/// Starts a worker in a thread of its own. Fails when out of memory, and if no thread can be made.
fn hire<R, C, G>(
    rt: R,
    shared: &Arc<Shared<C, G>>,
    worker: Worker<C>,
    alive: Sender<()>,
) -> Result<JoinHandle<()>, AllocError>
where
    R: Threads + Wait + Copy + Send + 'static,
    C: Core + Named + Send + 'static,
    G: Gate + Send + Sync + 'static,
{
    let shared = Arc::try_clone(shared)?;
    let hired = thread::spawn(&rt, move || run_worker(&rt, shared, worker, alive))?;
    Ok(hired)
}

/// Returns the stamp after this one, or `Exhausted` if there is none.
fn next(stamp: Stamp) -> Result<Stamp, Refusal>
    ensures { result ≡ (if stamp == greatest then Err Refusal.Exhausted else Ok (stamp + 1)) }
{
    let stamp = stamp.get();
    if stamp == u64::MAX {
        return Err(Refusal::Exhausted);
    }
    Ok(Stamp::new(stamp + 1))
}

/// Tests whether the master would take this node in. Refused with `UsedId` if the id is 0 or ever
/// was a member, `ChainFull` if there are 8 members, and `Exhausted` in the last epoch.
#[tactic(auto, unfolding(craq_epochs::specs::Mastered::master_after_join))]
fn test_join(book: &BookCell, node: NodeId) -> Result<(), Refusal>
    ensures node { OnOk result (1 ≤ node) }
    ensures refused { IfErr result (λ e. CanJoin e) }
    ensures zero { node ≡ 0 → result ≡ Err Refusal.UsedId }
    ensures joins { MatchResult result (λ _. IsOk (master_after_join book.now.inside node)) (λ e. master_after_join book.now.inside node ≡ Err e) }
{
    if node.get() == 0 || is_among(book.used(), node) {
        return Err(Refusal::UsedId);
    }
    if book.config().members.len() >= MEMBER_LIMIT {
        return Err(Refusal::ChainFull);
    }
    if book.config().epoch.get() == u64::MAX {
        return Err(Refusal::Exhausted);
    }
    Ok(())
}

/// Shows a proof that a node's cell keeps its invariant. Does nothing.
fn keeps_desk<C: Core + Named>(desk: &RecordedDesk<C>)
    ensures { IsKept C.represents desk.now.cell }
{
    let _ = desk.cell().journal();
}

/// Takes the step of a stop at a node's cell, after all that the token has seen. Returns the receipt
/// of the step, and a token that has seen it; a refused one changes nothing.
fn stop_desk<C: Core + Named>(
    alloc: Global,
    history: &StoreHistory<C>,
    desk: &mut RecordedDesk<C>,
    seen: StoreToken<C>,
) -> Result<(Receipt, StoreToken<C>), Refusal>
    ensures step { (p : Plain) → C.represents desk.old.cell.inside p → TakesEvent C.represents desk.new.cell (with_inside desk.old.cell p) Event.Stop 0 (receipt_in result) }
    ensures stopped { IfOk result (λ r. IsWitnessedStop seen desk.old.cell.opening.name r.0 r.1) }
    ensures refused { IfErr result (λ e. CanStop e) }
    ensures same { OnErr result (desk.new.waiting ≡ desk.old.waiting) }
{
    keeps_desk(desk);
    let cause = Cause {
        pass: Pass::start(),
        origin: Origin::sent(seen),
    };
    match desk.take(alloc, history, Event::Stop, cause) {
        Ok((receipt, done)) => {
            let StepCalls {
                calls,
                accepted,
                token,
            } = done;
            drop(calls);
            drop(accepted);
            let mut token = token;
            let seen = token.again(history);
            Ok((receipt, seen))
        }
        Err(refused) => {
            let refusal = refused.refusal();
            drop(refused);
            Err(refusal)
        }
    }
}

/// Stops a node, after all that the token has seen, and refuses the callers that wait there with
/// `Stopped`. Returns the receipt of the step, and a token that has seen it. A refused stop changes
/// nothing. Refused with `WrongNode` if the lock holds the desk of another node.
fn stop_node<R: Wait, C: Core + Named>(
    rt: &R,
    alloc: Global,
    history: &StoreHistory<C>,
    node: &RunningNode<C>,
    seen: StoreToken<C>,
) -> Result<(Receipt, StoreToken<C>), Refusal>
    ensures stopped { IfOk result (λ r. IsWitnessedStop seen node.now.name r.0 r.1) }
    ensures refused { IfErr result (λ e. CanStop e) }
{
    let mut seated = node.lock(rt);
    if seated.desk.cell().opening().name != node.name {
        drop(seen);
        return Err(Refusal::WrongNode);
    }
    let stopped = stop_desk(alloc, history, &mut seated.desk, seen)?;
    let callers = dismiss(alloc, &mut seated);
    drop(seated);
    node.halt();
    refuse_callers(rt, alloc, callers, &Refusal::Stopped);
    Ok(stopped)
}

/// Takes the master's step that lets a node join, after all that the token has seen.
fn join_book<N: Named>(
    alloc: Global,
    history: &StoreHistory<N>,
    book: &mut ChainBook<N>,
    id: NodeId,
    seen: StoreToken<N>,
) -> Result<(Receipt, (JoinedNode<N>, StoreToken<N>)), Refusal>
    ensures step { TakesTransition book.old book.new (BookEvent.Join id) 0 (receipt_in result) }
    ensures joined { IfOk result (λ r. r.1.0 ≡ record { chain = book.old.opening.name.chain; node = id }) }
    ensures ordered { IfOk result (λ r. IsWitnessedOrder seen book.old.opening.name.chain (BookEvent.Join id) r.0 r.1.1) }
    ensures refused { IfErr result (λ e. CanJoin e) }
{
    book.join(alloc, history, id, seen)
}

/// Takes the master's step that removes a stopped node, after all that the token and the node's stop
/// have seen. Returns the receipt of the step, and a token that has seen it.
fn remove_from_book<N: Named>(
    alloc: Global,
    history: &StoreHistory<N>,
    book: &mut ChainBook<N>,
    node: StoppedNode<N>,
    seen: StoreToken<N>,
) -> Result<(Receipt, StoreToken<N>), Refusal>
    requires { node.stopped.chain ≡ book.old.opening.name.chain }
    ensures step { TakesTransition book.old book.new (BookEvent.Remove node.stopped node.stop) 0 (receipt_in result) }
    ensures removed { IfOk result (λ r. IsWitnessedRemoval seen node.stopped r.0 r.1) }
    ensures refused { IfErr result (λ e. IsKeptIn e) }
{
    let (stopped, stop, of_stop) = node.into_parts();
    let mut seen = seen;
    seen.learn(history, of_stop);
    book.take(alloc, history, BookEvent::Remove { stopped, stop }, seen)
}

/// A node that waits for the master's step that lets it join: the chain that it joins, its desk, its
/// routing entry, and a token of what the step follows.
#[derive(Drop)]
struct Joining<'a, C: Core + Named> {
    place: &'a Chain<C>,
    name: NodeName,
    desk: Desk<C>,
    route: Route<C>,
    seen: StoreToken<C>,
}

/// A node that its chain's master let in: the proof of it, and the right to the node's entries.
#[derive(Drop)]
struct Admitted<N: Named> {
    joined: JoinedNode<N>,
    writer: StoreWriter<N>,
}

/// The master's step that let a node in: its receipt, a token that has seen it, and the node.
type LetIn<N> = (Receipt, StoreToken<N>, Admitted<N>);

/// Makes the desk and the routing entry of a node that joins (`Cell::open`), with stamps from this
/// one on. Refused with `Memory` only.
fn prepare_node<C: Core + Named>(
    alloc: Global,
    name: NodeName,
    form: Form,
    stamp: Stamp,
) -> Result<(Desk<C>, Route<C>), Refusal>
    requires { 1 ≤ name.node }
    ensures cell { IfOk result (λ r. IsUnjoined C.represents name r.0.cell) }
    ensures err { IfErr result (λ e. e ≡ Refusal.Memory) }
{
    let cell = Cell::open(alloc, name, None, form.journal, stamp)?;
    let route = route_to(alloc, &name)?;
    let desk = Desk::new(alloc, cell);
    Ok((desk, route))
}

impl<C: Core + Named, G: Gate> Store<C, G> {
    /// Returns whether the store keeps journals, so that it can be audited.
    pub fn has_journals(&self) -> bool
        ensures { result ≡ self.now.journals }
    {
        self.form.journal
    }

    /// Makes a client of the store with this pass and a session of its own. The session has made no
    /// call, and has seen nothing of the store's history. Fails when out of memory, and if 2^64 - 1
    /// clients were made.
    pub fn client<R: Wait>(&self, rt: &R, pass: Pass) -> Result<Client<C, G>, AllocError>
        ensures chains { IfOk result (λ c. c.chains ≡ length self.now.names) }
        ensures pass { IfOk result (λ c. c.pass ≡ pass) }
        ensures fresh { IfOk result (λ c. (c.made ≡ 0) × (c.seen ≡ [])) }
    {
        let shared = Arc::try_clone(&self.shared)?;
        let mut registrar = shared.registrar.lock(rt);
        let Some(session) = Session::open(&shared.history, &mut registrar) else {
            return Err(AllocError);
        };
        drop(registrar);
        Ok(Client::new(self.alloc, shared, pass, session))
    }

    /// Sends a call to its node with a pass, and does not wait. Returns the reply to the call if it
    /// is known at once, and else `None`. `ask` is the call's request. The caller runs no more of
    /// the chain than its reach.
    ///
    /// After `None` exactly one completion with the caller's token comes into its queue. It holds
    /// the reply, or a refusal. `Stopped`, `Closed` and `Memory` can always come, and the refusals of
    /// the node if the request was queued. `finish_ask` tells of a reply whether it is of this call.
    /// `give_up_ask` tells of a refusal whether a step may have accepted the call, and when the node
    /// refused it.
    ///
    /// Refused as `Client::call` is, and then no completion comes: with `UnknownChain` exactly if
    /// the store has no such chain. A reply that comes at once is of a node's step of this request
    /// (`IsPut`).
    pub fn submit<R: Wait>(
        &self,
        rt: &R,
        ask: &Ask,
        own: OwnAsk<'_, C>,
        reach: Reach,
    ) -> OwnReply<C>
        requires { own.made.ask ≡ ask.now }
        ensures unknown { (result ≡ Err Refusal.UnknownChain) ↔ (length self.now.names ≤ own.entry.made.name.chain) }
        ensures refused { IfErr result (λ e. RefusesAsk (length self.now.names) own.entry.made.name ask.now e) }
        ensures put { (result ≡ Err Refusal.UnknownChain) ⊎ IsPut C.represents self.now.chain_threads own.entry.made.name ask.now own.entry.pass own.entry.at.token (in_hand result) }
    {
        let chain = match self.shared.chain(own.made.name().chain) {
            Ok(chain) => chain,
            Err(refusal) => return Err(refuse_own(own, refusal)),
        };
        self.shared
            .submit(rt, AskedChain { chain, reach }, ask, own)
    }

    /// Takes the steps of the updates that were submitted with `Reach::WholeChainLater` and wait for
    /// that, unless a chain's own thread takes them.
    pub fn run_queued<R: Wait>(&self, rt: &R) {
        for chain in self.shared.chains.as_slice() {
            self.shared.run_queued(rt, chain);
        }
    }

    /// Ticks all chains: each master, and each node that runs, sends again what others may lack.
    /// After a lost message the caller waits until a later tick: forever, if nobody ticks the
    /// store.
    pub fn tick<R: Wait>(&self, rt: &R) {
        for chain in self.shared.chains.as_slice() {
            chain.tick(rt);
        }
    }

    /// Ticks one chain: its master, and each of its nodes that runs, sends again what others may
    /// lack. A program with many chains can so spread their ticks over time, where `tick` makes all
    /// nodes work at once.
    ///
    /// A chain rests after 20 such ticks without a request, a node that is not ready or a change of
    /// its nodes. Of the ticks that come then it takes each 20th, so an idle store costs little.
    /// These numbers are of this project's profile.
    ///
    /// Refused with `UnknownChain` exactly if the store has no such chain; nothing is ticked then.
    pub fn tick_chain<R: Wait>(&self, rt: &R, chain: ChainId) -> Result<(), Refusal>
        ensures unknown { (result ≡ Err Refusal.UnknownChain) ↔ (length self.now.names ≤ chain) }
        ensures refused { IfErr result (λ e. e ≡ Refusal.UnknownChain) }
    {
        self.shared.chain(chain)?.tick_if_due(rt);
        Ok(())
    }

    /// Returns each chain's name and a membership that its master had, by id; it may lag. Fails
    /// when out of memory, and if a lock holds the master of another chain.
    pub fn status<R: Wait>(&self, rt: &R) -> Result<Vec<ChainStatus>, AllocError>
        ensures names { IfOk result (λ statuses. map (λ s. string_bytes s.name) statuses.items ≡ self.now.names) }
        ensures members { IfOk result (λ statuses. AreMembershipsOf self.now.masters (map (λ s. s.config) statuses.items)) }
    {
        statuses_of(rt, self.alloc, self.shared.chains.as_slice())
    }
}

impl<C: Core + Named + Send + 'static, G: Gate + Send + Sync + 'static> Store<C, G> {
    /// Starts the chains of a plan, with journals or without, and with a history that was opened
    /// under the name of the core's type. Refused with `Memory` when out of memory or if no thread
    /// can be made, and then leaves no thread.
    pub fn start<R: Threads + Wait + Copy + Send + 'static>(
        rt: R,
        alloc: Global,
        opened: Opened<HistoryEntry, StoreRule>,
        plan: &Plan,
        gate: G,
        journal: bool,
    ) -> Result<Self, Refusal>
        requires plan { IsPlan plan.now }
        requires history { opened ≡ C.history }
        ensures names { IfOk result (λ store. store.names ≡ map (λ c. c.0) plan.now) }
        ensures masters { IfOk result (λ store. store.masters ≡ masters_of 0 plan.now) }
        ensures journals { IfOk result (λ store. store.journals ≡ journal) }
        ensures err { IfErr result (λ e. e ≡ Refusal.Memory) }
    {
        let form = Form {
            journal,
            chain_threads: gate.chain_threads(),
        };
        let (history, registrar) = opened.named(alloc);
        let registrar = Mutex::new(registrar);
        let (alive, ended) = crossbeam_channel::unbounded(alloc)?;
        let mut workers = Vec::new(alloc);
        let opener = Opener {
            rt: &rt,
            alloc,
            form,
            history: &history,
            registrar: &registrar,
            alive: &alive,
        };
        let chains = opener.open_chains(plan, &mut workers)?;
        let shared = Shared {
            alloc,
            history,
            registrar,
            gate,
            chain_threads: form.chain_threads,
            chains,
        };
        let shared = Arc::new(alloc, shared)?;
        let store = Store {
            alloc,
            form,
            shared,
            ended,
        };
        match store.hire_all(rt, workers, alive) {
            Ok(()) => Ok(store),
            Err(_) => {
                store.close(&rt);
                Err(Refusal::Memory)
            }
        }
    }

    /// Starts all these workers.
    fn hire_all<R: Threads + Wait + Copy + Send + 'static>(
        &self,
        rt: R,
        workers: Vec<Worker<C>>,
        alive: Sender<()>,
    ) -> Result<(), AllocError> {
        for worker in workers {
            let alive = alive.clone()?;
            let hired = hire(rt, &self.shared, worker, alive)?;
            drop(hired);
        }
        Ok(())
    }

    /// Returns a token that has seen nothing of the store's history yet.
    fn no_token<R: Wait>(&self, rt: &R) -> StoreToken<C>
        ensures { result ≡ [] }
    {
        let mut registrar = self.shared.registrar.lock(rt);
        registrar.token(&self.shared.history)
    }

    /// Stops a node forever, in a step on this thread. The callers that wait there are refused with
    /// `Stopped`. Returns the receipt of the step, and a token that has seen it: the store's history
    /// has the step in which this node stopped, under this receipt (`IsWitnessedStop`).
    ///
    /// Refused, with nothing changed, for the first of these that applies: `UnknownChain` exactly
    /// if the store has no such chain; `WrongNode` if the chain never had the node, `Stopped` if it
    /// was removed and dropped; `Memory` when out of memory; then as `Cell::take` refuses a stop:
    /// `Exhausted` or `Memory`, `Stopped` if the node has stopped. `Closed` never comes, since
    /// `close` takes the store.
    pub fn stop<R: Wait>(
        &self,
        rt: &R,
        chain: ChainId,
        node: NodeId,
    ) -> Result<(Receipt, StoreToken<C>), Refusal>
        ensures unknown { (result ≡ Err Refusal.UnknownChain) ↔ (length self.now.names ≤ chain) }
        ensures refused { IfErr result (λ e. (e ≡ Refusal.UnknownChain) ⊎ CanStop e) }
        ensures stopped { IfOk result (λ r. IsWitnessedStop [] (record { chain = chain; node = node }) r.0 r.1) }
    {
        self.stop_after(rt, &NodeName { chain, node }, self.no_token(rt))
    }

    /// Stops a node as `stop` does, after all that the token has seen.
    pub fn stop_after<R: Wait>(
        &self,
        rt: &R,
        node: &NodeName,
        seen: StoreToken<C>,
    ) -> Result<(Receipt, StoreToken<C>), Refusal>
        ensures unknown { (result ≡ Err Refusal.UnknownChain) ↔ (length self.now.names ≤ node.now.chain) }
        ensures refused { IfErr result (λ e. (e ≡ Refusal.UnknownChain) ⊎ CanStop e) }
        ensures stopped { IfOk result (λ r. IsWitnessedStop seen node.now r.0 r.1) }
    {
        let running = self.shared.chain(node.chain)?.node(rt, node.node)?;
        if running.name != *node {
            return Err(Refusal::WrongNode);
        }
        stop_node(rt, self.alloc, &self.shared.history, &running, seen)
    }

    /// Removes a stopped node from its chain's membership, and ends the node's own threads. Returns
    /// the receipt of the master's step, and a token that has seen it: the store's history has the
    /// step in which the master removed this node, under this receipt (`IsWitnessedRemoval`). A call
    /// at the node is refused as before.
    ///
    /// Refused, with nothing changed, for the first of these that applies: `UnknownChain` exactly
    /// if the store has no such chain; `NotMember` if the node is no member; `Memory` when out of
    /// memory; `NotStopped` if it runs; then as `BookCell::take` refuses a removal: `Exhausted` or
    /// `Memory`, `LastNode` if it is the only member. `Closed` never comes, since `close` takes the
    /// store.
    pub fn remove<R: Wait>(
        &self,
        rt: &R,
        chain: ChainId,
        node: NodeId,
    ) -> Result<(Receipt, StoreToken<C>), Refusal>
        ensures unknown { (result ≡ Err Refusal.UnknownChain) ↔ (length self.now.names ≤ chain) }
        ensures refused { IfErr result (λ e. (e ≡ Refusal.UnknownChain) ⊎ CanRemove e) }
        ensures removed { IfOk result (λ r. IsWitnessedRemoval [] (record { chain = chain; node = node }) r.0 r.1) }
    {
        self.remove_after(rt, &NodeName { chain, node }, self.no_token(rt))
    }

    /// Removes a node as `remove` does, after all that the token has seen.
    pub fn remove_after<R: Wait>(
        &self,
        rt: &R,
        node: &NodeName,
        seen: StoreToken<C>,
    ) -> Result<(Receipt, StoreToken<C>), Refusal>
        ensures unknown { (result ≡ Err Refusal.UnknownChain) ↔ (length self.now.names ≤ node.now.chain) }
        ensures refused { IfErr result (λ e. (e ≡ Refusal.UnknownChain) ⊎ CanRemove e) }
        ensures removed { IfOk result (λ r. IsWitnessedRemoval seen node.now r.0 r.1) }
    {
        let place = self.shared.chain(node.chain)?;
        let mut book = place.book.lock(rt);
        if !is_among(book.cell().config().members.as_slice(), node.node) {
            return Err(Refusal::NotMember);
        }
        let member = place.node(rt, node.node)?;
        let history = &self.shared.history;
        let Some(stopped) = member.stopped(rt, history) else {
            return Err(Refusal::NotStopped);
        };
        if stopped.name() != *node || book.cell().opening().name.chain != node.chain {
            return Err(Refusal::NotMember);
        }
        let removed = remove_from_book(self.alloc, history, &mut book, stopped, seen)?;
        let sent = book.messages(self.alloc, history);
        drop(book);
        place.retire(rt, node.node, self.form.after_removal());
        place.wake_up.change();
        refuse_queued(rt, &member, &Refusal::Stopped);
        self.announce(rt, node.chain, sent);
        Ok(removed)
    }

    /// Lets a new node join behind the last member, and starts its own threads, if nodes have any.
    /// Returns the receipt of the master's step, and a token that has seen it: the store's history
    /// has the step in which the master let this node join, under this receipt (`IsWitnessedJoin`).
    ///
    /// Refused, with the membership as it was and no thread of the node left, for the first of
    /// these that applies: `UnknownChain` exactly if the store has no such chain; `UsedId` if the
    /// id is 0 or ever was a member, `ChainFull` if there are 8 members, `Exhausted` if the
    /// master's epochs or stamps are used up; `Memory` when out of memory or if no thread can be
    /// made. `Closed` never comes, since `close` takes the store.
    pub fn join<R: Threads + Wait + Copy + Send + 'static>(
        &self,
        rt: R,
        chain: ChainId,
        node: NodeId,
    ) -> Result<(Receipt, StoreToken<C>), Refusal>
        ensures unknown { (result ≡ Err Refusal.UnknownChain) ↔ (length self.now.names ≤ chain) }
        ensures refused { IfErr result (λ e. (e ≡ Refusal.UnknownChain) ⊎ CanJoin e) }
        ensures joined { IfOk result (λ r. IsWitnessedJoin [] (record { chain = chain; node = node }) r.0 r.1) }
        ensures zero { node ≡ 0 → chain < length self.now.names → result ≡ Err Refusal.UsedId }
    {
        self.join_after(rt, &NodeName { chain, node }, self.no_token(&rt))
    }

    /// Lets a node join as `join` does, after all that the token has seen. Refused with `Memory` also
    /// if the lock holds the master of another chain.
    pub fn join_after<R: Threads + Wait + Copy + Send + 'static>(
        &self,
        rt: R,
        name: &NodeName,
        seen: StoreToken<C>,
    ) -> Result<(Receipt, StoreToken<C>), Refusal>
        ensures unknown { (result ≡ Err Refusal.UnknownChain) ↔ (length self.now.names ≤ name.now.chain) }
        ensures refused { IfErr result (λ e. (e ≡ Refusal.UnknownChain) ⊎ CanJoin e) }
        ensures joined { IfOk result (λ r. IsWitnessedJoin seen name.now r.0 r.1) }
        ensures zero { name.now.node ≡ 0 → name.now.chain < length self.now.names → result ≡ Err Refusal.UsedId }
    {
        let place = self.shared.chain(name.chain)?;
        let mut book = place.book.lock(&rt);
        test_join(book.cell(), name.node)?;
        if book.cell().opening().name.chain != name.chain {
            return Err(Refusal::Memory);
        }
        let stamp = next(book.cell().stamp())?;
        let mut hired = Vec::with_capacity(self.alloc, 2)?;
        let (desk, route) = prepare_node(self.alloc, *name, self.form, stamp)?;
        let joining = Joining {
            place,
            name: *name,
            desk,
            route,
            seen,
        };
        match self.join_opened(rt, &mut book, joining, &mut hired) {
            Ok(joined) => {
                let sent = book.messages(self.alloc, &self.shared.history);
                drop(book);
                place.wake_up.change();
                self.announce(&rt, name.chain, sent);
                Ok(joined)
            }
            Err(refusal) => {
                for worker in hired {
                    worker.join(&rt);
                }
                Err(refusal)
            }
        }
    }

    /// Starts a node's own workers.
    fn hire_workers<R: Threads + Wait + Copy + Send + 'static>(
        &self,
        rt: R,
        joining: &Joining<'_, C>,
        form: Form,
        hired: &mut Vec<JoinHandle<()>>,
    ) -> Result<(), Refusal>
        ensures refused { IfErr result (λ e. (e ≡ Refusal.Closed) ⊎ (e ≡ Refusal.Memory)) }
        ensures hired { OnOk result (length hired.new.items ≡ length hired.old.items + length (node_posts form.chain_threads (option_map (λ n. n.value.name) joining.now.route.node))) }
    {
        let mut workers = Vec::new(self.alloc);
        add_workers(&joining.route, form, &mut workers)?;
        for worker in workers {
            hired.reserve(1)?;
            hired.push(hire(rt, &self.shared, worker, joining.place.alive(&rt)?)?)?;
        }
        Ok(())
    }

    /// Starts the workers of a node, reserves room for its entry, and then lets it join, under the
    /// master's lock only. If that is refused the entry is dropped, so the workers end. Nobody sees
    /// the step before the entry is there, since the master's lock is held.
    fn join_opened<R: Threads + Wait + Copy + Send + 'static>(
        &self,
        rt: R,
        book: &mut ChainBook<C>,
        joining: Joining<'_, C>,
        hired: &mut Vec<JoinHandle<()>>,
    ) -> Result<(Receipt, StoreToken<C>), Refusal>
        requires cell { IsUnjoined C.represents joining.name joining.desk.cell }
        requires chain { joining.name.chain ≡ book.old.opening.name.chain }
        ensures joined { IfOk result (λ r. IsWitnessedJoin joining.entry.seen joining.entry.name r.0 r.1) }
        ensures refused { IfErr result (λ e. CanJoin e) }
    {
        let mut joining = joining;
        match self.let_join(rt, book, &mut joining, hired) {
            Ok((receipt, token, admitted)) => {
                self.seat(&rt, joining, admitted)?;
                Ok((receipt, token))
            }
            Err(refusal) => {
                drop(joining);
                Err(refusal)
            }
        }
    }

    /// Starts the workers of a node, reserves room for its entry, and takes the master's step.
    /// Returns the receipt of the step, and the right to the node's entries.
    fn let_join<R: Threads + Wait + Copy + Send + 'static>(
        &self,
        rt: R,
        book: &mut ChainBook<C>,
        joining: &mut Joining<'_, C>,
        hired: &mut Vec<JoinHandle<()>>,
    ) -> Result<LetIn<C>, Refusal>
        requires { joining.old.name.chain ≡ book.old.opening.name.chain }
        ensures witnessed { IfOk result (λ r. IsWitnessedJoin joining.old.seen joining.old.name r.0 r.1) }
        ensures refused { IfErr result (λ e. CanJoin e) }
        ensures joined { IfOk result (λ r. r.2.joined ≡ joining.old.name) }
        ensures right { IfOk result (λ r. (r.2.writer.author ≡ Author.Node joining.old.name.chain joining.old.name.node) × (r.2.writer.seen ≡ [])) }
        ensures same { (joining.new.name ≡ joining.old.name) × (joining.new.desk ≡ joining.old.desk) }
    {
        self.hire_workers(rt, joining, self.form, hired)?;
        joining.place.make_room(&rt)?;
        let mut registrar = self.shared.registrar.lock(&rt);
        registrar.make_room()?;
        let history = &self.shared.history;
        let name = joining.name;
        let seen = joining.seen.again(history);
        let (receipt, (joined, token)) = join_book(self.alloc, history, book, name.node, seen)?;
        let writer = registrar.node(history, name.chain.get() as u64, name.node.get() as u64);
        drop(registrar);
        match writer {
            Some(writer) => Ok((receipt, token, Admitted { joined, writer })),
            None => {
                drop(joined);
                drop(token);
                Err(Refusal::Memory)
            }
        }
    }

    /// Opens a node that was let in, and adds its routing entry. Fails only when out of memory.
    fn seat<R: Wait>(
        &self,
        rt: &R,
        joining: Joining<'_, C>,
        admitted: Admitted<C>,
    ) -> Result<(), Refusal>
        requires cell { IsUnjoined C.represents joining.name joining.desk.cell }
        requires joined { admitted.joined ≡ joining.name }
        requires right { (admitted.writer.author ≡ Author.Node joining.name.chain joining.name.node) × (admitted.writer.seen ≡ []) }
        ensures { IfErr result (λ e. e ≡ Refusal.Memory) }
    {
        let Joining {
            place,
            name: _,
            desk,
            route,
            seen,
        } = joining;
        drop(seen);
        let Admitted { joined, writer } = admitted;
        let desk = open_joined(&self.shared.history, desk, writer, joined);
        if let Some(node) = &route.node {
            node.open(rt, self.alloc, desk);
        } else {
            drop(desk);
        }
        place.add(rt, route)
    }

    /// Sends the master's messages.
    fn announce<R: Wait>(&self, rt: &R, chain: ChainId, sent: Messages<C>) {
        self.shared
            .post(rt, &master_of(chain), sent, Wakes::ChainThread);
    }

    /// Ends the workers, and waits until the last one has ended; a gate that waits delays it.
    /// Callers that still wait, and all that call later, are refused with `Closed`.
    pub fn close<R: Wait>(self, rt: &R) {
        let Store {
            alloc,
            form: _,
            shared,
            ended,
        } = self;
        for chain in shared.chains.as_slice() {
            chain.close(rt);
        }
        let _ = ended.recv(rt);
        for chain in shared.chains.as_slice() {
            chain.sweep(rt, alloc);
        }
        drop(shared);
    }
}
