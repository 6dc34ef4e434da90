//! A chain that runs: its routing table, through which all requests, messages and ticks go; for
//! `shared`, and for the store of `craq_workers`.
ghost use Rattle.std.specs.Prelude.{◌≡◌, ◌==◌, ◌⊎◌, ◌↔◌, Err, IfErr, IfOk, IsNone, IsTrue, MatchResult, None, Some, map};
ghost use Rattle.std.specs.List.{filter_map, find};
ghost use Rattle.std.specs.Option.{option_map};
ghost use Rattle.craq_epochs.specs.Mastered.{opened_master};
ghost use Rattle.craq_seat.specs.Books.{first_master, members_of};
ghost use Rattle.craq_running_chain.specs.Missed.{IsMissed};
ghost use Rattle.craq_running_node.specs.Routes.{retired, shut};

use crate::help::Help;
use crate::rest::Rest;
use crate::wake_up::WakeUp;
use craq_ghost_history::Named;
use craq_locked_chain::ChainBook;
use craq_model::Config;
use craq_names::{ChainId, NodeId, Refusal, are_same};
use craq_node::Core;
use craq_running_node::{
    Asked, Delivery, Entrances, QueuedAsk, Removed, Route, RunningNode, dismiss, refuse_callers,
};
use craq_seat::Opening;
use craq_store_parts::CallRefusal;
use crossbeam_channel::{SendError, Sender};
use std::alloc::{AllocError, Global};
use std::mem;
use std::sync::{Arc, Mutex, RwLock, Wait};

/// The routing table of a chain: the entries of its nodes, and the parts of an open store.
#[derive(Drop)]
pub struct RoutingTable<C: Core + Named> {
    pub nodes: Vec<Route<C>>,
    /// `None` once the store is closed.
    pub open: Option<Open>,
}

/// The parts that only an open store has.
#[derive(Drop)]
pub struct Open {
    pub master: Sender<()>,
    /// Each worker keeps a copy. Once all are dropped no worker is left.
    pub alive: Sender<()>,
}

/// A chain that runs, as its threads and its callers share it: its master under a lock, the routes to
/// its nodes, the wake-up of its chain thread, the call of its second thread, and the ticks since it
/// last had work.
#[derive(Drop)]
pub struct Chain<C: Core + Named> {
    pub name: String,
    pub id: ChainId,
    pub first: Config,
    pub book: Mutex<ChainBook<C>>,
    pub routes: RwLock<RoutingTable<C>>,
    pub wake_up: WakeUp,
    pub help: Help,
    pub rest: Rest,
}

impl<C: Core + Named> RoutingTable<C> {
    /// Returns the parts of an open store, or `Closed` if the store is closed.
    pub(crate) fn open(&self) -> Result<&Open, Refusal>
        ensures { MatchResult result (λ o. self.now.open ≡ Some o.now) (λ e. (e ≡ Refusal.Closed) × IsNone self.now.open) }
    {
        match &self.open {
            Some(open) => Ok(open),
            None => Err(Refusal::Closed),
        }
    }

    /// Returns all nodes that the chain has. Fails only when out of memory.
    fn all(&self, alloc: Global) -> Result<Vec<Arc<RunningNode<C>>>, AllocError>
        ensures { IfOk result (λ nodes. map (λ n. n.value) nodes.items ≡ filter_map (λ route. option_map (λ n. n.value) route.node) self.now.nodes.items) }
    {
        let mut nodes = Vec::new(alloc);
        for route in self.nodes.as_slice() {
            if let Some(node) = &route.node {
                nodes.push(Arc::try_clone(node)?)?;
            }
        }
        Ok(nodes)
    }

    /// Returns the entry of the node of this id, or `WrongNode` if the chain never had it.
    pub(crate) fn to(&self, id: NodeId) -> Result<&Route<C>, Refusal>
        ensures found { IfOk result (λ route. find (λ w. w.name.node == id) self.now.nodes.items ≡ Some route.now) }
        ensures err { IfErr result (λ e. (e ≡ Refusal.WrongNode) × (find (λ w. w.name.node == id) self.now.nodes.items ≡ None)) }
    {
        for route in self.nodes.as_slice() {
            if route.name.node == id {
                return Ok(route);
            }
        }
        Err(Refusal::WrongNode)
    }

    /// Drops the senders of the node of this id, and the node too unless it is kept. The other
    /// entries and the parts of an open store stay.
    fn retire(&mut self, id: NodeId, removed: Removed)
        ensures nodes { self.new.nodes.items ≡ map (retired id removed) self.old.nodes.items }
        ensures open { self.new.open ≡ self.old.open }
    {
        for route in self.nodes.iter_mut() {
            route.retire(id, removed);
        }
    }

    /// Drops the senders of all nodes and the parts of an open store. The nodes stay.
    fn close(&mut self)
        ensures nodes { self.new.nodes.items ≡ map shut self.old.nodes.items }
        ensures open { IsNone self.new.open }
    {
        self.open = None;
        for route in self.nodes.iter_mut() {
            route.entrances = None;
        }
    }
}

/// Queues a request. Refused with `Memory` when out of memory and with `Closed` if the queue has no
/// reader; no completion comes then.
fn put_in<R: Wait, C: Core + Named>(
    rt: &R,
    entrances: &Entrances<C>,
    asked: QueuedAsk<C>,
) -> Result<(), CallRefusal<C>>
    ensures { IfErr result (λ e. (e ≡ Refusal.Memory) ⊎ (e ≡ Refusal.Closed)) }
{
    match entrances.asks.send(rt, asked) {
        Ok(()) => Ok(()),
        Err(SendError::OutOfMemory(asked)) => take_back(rt, asked, Refusal::Memory),
        Err(SendError::Disconnected(asked)) => take_back(rt, asked, Refusal::Closed),
    }
}

/// Takes back a request that was not queued, and refuses its call: no completion comes.
pub(crate) fn take_back<R: Wait, C: Core + Named>(
    rt: &R,
    asked: QueuedAsk<C>,
    refusal: Refusal,
) -> Result<(), CallRefusal<C>>
    ensures { result ≡ Err refusal }
{
    let Asked { made, pass: _, at } = asked;
    at.forgo(rt);
    Err(CallRefusal::before_step(made, refusal))
}

/// Returns the members with which a cell was opened, or none if it had no membership.
fn first_members(opening: &Opening) -> &[NodeId]
    ensures { result.now ≡ members_of opening.now.config }
{
    match &opening.config {
        Some(config) => config.members.as_slice(),
        None => &[],
    }
}

impl<C: Core + Named> Chain<C> {
    /// Returns whether a master's cell was opened as that of this chain. A proof knows nothing of
    /// what a lock holds, so this is tested.
    pub fn has_opened(&self, opening: &Opening) -> bool
        ensures { IsTrue result ↔ (first_master opening.now ≡ opened_master self.now.id self.now.first.members) }
    {
        opening.name.chain == self.id
            && are_same(first_members(opening), self.first.members.as_slice())
    }

    /// Returns the node of this id. Refused with:
    ///
    /// - `Closed` if the store is closed;
    /// - `WrongNode` if the chain never had the node;
    /// - `Stopped` if it was removed and dropped;
    /// - `Memory` when out of memory.
    pub fn node<R: Wait>(&self, rt: &R, id: NodeId) -> Result<Arc<RunningNode<C>>, Refusal>
        ensures { IfErr result (λ e. IsMissed e) }
    {
        let routes = self.routes.read(rt);
        let _ = routes.open()?;
        match &routes.to(id)?.node {
            Some(node) => Ok(Arc::try_clone(node)?),
            None => Err(Refusal::Stopped),
        }
    }

    /// Queues a request for a node, where `take_waiting` finds it (`run_chain_thread`). Refused as
    /// `node` is, with `Stopped` also for a removed node that is kept; no completion comes then.
    pub(crate) fn enqueue<R: Wait>(
        &self,
        rt: &R,
        id: NodeId,
        asked: QueuedAsk<C>,
    ) -> Result<(), CallRefusal<C>>
        ensures { IfErr result (λ e. IsMissed e) }
    {
        let routes = self.routes.read(rt);
        if routes.open.is_none() {
            return take_back(rt, asked, Refusal::Closed);
        }
        match routes.to(id) {
            Err(refusal) => take_back(rt, asked, refusal),
            Ok(route) => match &route.entrances {
                Some(entrances) => put_in(rt, entrances, asked),
                None => take_back(rt, asked, Refusal::Stopped),
            },
        }
    }

    /// Returns all nodes that the chain has. Refused with `Closed` if the store is closed, and with
    /// `Memory`.
    pub(crate) fn nodes<R: Wait>(
        &self,
        rt: &R,
        alloc: Global,
    ) -> Result<Vec<Arc<RunningNode<C>>>, Refusal> {
        let routes = self.routes.read(rt);
        let _ = routes.open()?;
        Ok(routes.all(alloc)?)
    }

    /// Returns all nodes that the chain has, of a store that is known to be open. Fails only when
    /// out of memory.
    pub fn all_nodes<R: Wait>(
        &self,
        rt: &R,
        alloc: Global,
    ) -> Result<Vec<Arc<RunningNode<C>>>, AllocError> {
        self.routes.read(rt).all(alloc)
    }

    /// Returns a sender for a worker to keep as long as it works. Refused with `Closed` if the
    /// store is closed, and with `Memory`.
    pub fn alive<R: Wait>(&self, rt: &R) -> Result<Sender<()>, Refusal>
        ensures { IfErr result (λ e. (e ≡ Refusal.Closed) ⊎ (e ≡ Refusal.Memory)) }
    {
        let routes = self.routes.read(rt);
        Ok(routes.open()?.alive.clone()?)
    }

    /// Puts something into the inbox of the node of this id, where `take_waiting` finds it. It is lost
    /// if there is no such node, and when out of memory.
    pub(crate) fn forward<R: Wait>(&self, rt: &R, id: NodeId, brought: Delivery<C>) {
        if let Delivery::Blank(_) = &brought {
            self.rest.end();
        }
        let routes = self.routes.read(rt);
        if let Ok(route) = routes.to(id) {
            route.forward(rt, brought);
        }
    }

    /// Brings a tick to the master and to each running node, unless the chain rests: see `Rest`.
    pub fn tick_if_due<R: Wait>(&self, rt: &R) {
        if self.rest.tick() {
            self.tick(rt);
        }
    }

    /// Brings a tick to the master and to each running node.
    pub fn tick<R: Wait>(&self, rt: &R) {
        let routes = self.routes.read(rt);
        let Ok(open) = routes.open() else {
            return;
        };
        let _ = open.master.try_send(rt, ());
        for route in routes.nodes.as_slice() {
            if route.node.as_ref().is_some_and(|node| !node.is_halted()) {
                route.forward(rt, Delivery::Tick);
            }
        }
        self.wake_up.wake();
    }

    /// Reserves room for the entry of one more node. The room stays while the caller has the
    /// master's lock, since only a join takes it, under that lock. Refused with `Closed` if the
    /// store is closed, and with `Memory`.
    pub fn make_room<R: Wait>(&self, rt: &R) -> Result<(), Refusal>
        ensures { IfErr result (λ e. (e ≡ Refusal.Closed) ⊎ (e ≡ Refusal.Memory)) }
    {
        let mut routes = self.routes.write(rt);
        let _ = routes.open()?;
        Ok(routes.nodes.reserve(1)?)
    }

    /// Appends the entry of a node that joined. Does not fail if room was reserved.
    pub fn add<R: Wait>(&self, rt: &R, route: Route<C>) -> Result<(), Refusal>
        ensures { IfErr result (λ e. e ≡ Refusal.Memory) }
    {
        self.rest.end();
        let mut routes = self.routes.write(rt);
        Ok(routes.nodes.push(route)?)
    }

    /// Drops the senders of the node of this id, so that its workers end once their queues are
    /// empty. Drops the node too, unless it is kept.
    pub fn retire<R: Wait>(&self, rt: &R, id: NodeId, removed: Removed) {
        self.rest.end();
        self.routes.write(rt).retire(id, removed);
    }

    /// Lets nothing in from now on. The workers end once their queues are empty. The two threads of
    /// the chain end after their batches, and `sweep` refuses the requests that are queued then.
    pub fn close<R: Wait>(&self, rt: &R) {
        self.routes.write(rt).close();
        self.wake_up.change();
        self.help.wake();
    }

    /// Refuses with `Closed` all callers that still wait, and all that ask later. Called once no
    /// worker is left.
    pub fn sweep<R: Wait>(&self, rt: &R, alloc: Global) {
        let mut routes = self.routes.write(rt);
        let nodes = mem::replace(&mut routes.nodes, Vec::new(alloc));
        drop(routes);
        for route in nodes {
            let Route {
                name: _,
                node,
                entrances,
            } = route;
            drop(entrances);
            if let Some(node) = node {
                empty(rt, alloc, &node);
            }
        }
    }
}

/// Refuses with `Closed` the callers that wait at a node, those whose requests are queued there,
/// and all that ask later.
fn empty<R: Wait, C: Core + Named>(rt: &R, alloc: Global, node: &RunningNode<C>) {
    node.close();
    let mut seated = node.lock(rt);
    let callers = dismiss(alloc, &mut seated);
    drop(seated);
    refuse_callers(rt, alloc, callers, &Refusal::Closed);
    refuse_queued(rt, node, &Refusal::Closed);
}

/// Refuses the callers whose requests are queued at a node.
pub fn refuse_queued<R: Wait, C: Core + Named>(rt: &R, node: &RunningNode<C>, refusal: &Refusal) {
    for _ in rt.forever() {
        let Some(asked) = node.inbox.next_ask(rt) else {
            break;
        };
        let Asked { made, pass: _, at } = asked;
        at.tell(rt, Err(CallRefusal::before_step(made, *refusal)));
    }
}
