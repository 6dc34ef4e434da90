//! `Shared`: the state that all threads of a store share. Sends messages and serves one request;
//! called by `batch`, `work`, and the store and clients of `craq_workers`.
ghost use Rattle.std.specs.Prelude.{◌≡◌, ◌⊎◌, ◌<◌, ◌≤◌, IfErr, IfOk, MatchResult, None, OnOk, Some, false, length, slice_get, true};
ghost use Rattle.craq_seat.specs.RefusedCalls.{CanRefuse, IsUpdate};
ghost use Rattle.craq_running_chain.specs.Missed.{IsMissed};
ghost use Rattle.craq_running_chain.specs.Asks.{IsPut, IsServed, IsRejected};
ghost use Rattle.craq_running_node.specs.Replies.{in_hand};

use crate::batch::{NodeBatch, run_inline};
use crate::chain::Chain;
use craq_ghost_history::{Named, Registrar};
use craq_model::Ask;
use craq_names::{ChainId, NodeId, NodeName, Refusal};
use craq_node::Core;
use craq_running_node::{
    Asked, Delivery, Kind, Messages, Outgoing, OwnAsk, OwnReply, QueuedAsk, RunningNode, Wire,
    refuse_own,
};
use craq_seat::{CompletionSender, Reach, is_update, refusal_of_call};
use craq_store_history::{HistoryEntry, StoreRule};
use craq_store_parts::{CallRefusal, Gate, Refused, StoreHistory, Work};
use std::alloc::Global;
use std::sync::{Mutex, Wait};

/// The state that the workers, the clients and the store itself share.
#[derive(Drop)]
pub struct Shared<C: Core + Named, G: Gate> {
    pub alloc: Global,
    /// The history of what the store does. It exists in the proofs alone, except one word.
    pub history: StoreHistory<C>,
    /// Gives the rights to the entries of nodes and clients.
    pub registrar: Mutex<Registrar<HistoryEntry, StoreRule, C>>,
    pub gate: G,
    /// Each chain has threads that run it: the gate's reply when the store started.
    pub chain_threads: bool,
    /// By id.
    pub chains: Vec<Chain<C>>,
}

/// The thread that a message wakes.
#[derive(Clone, Copy)]
pub enum Wakes {
    /// The chain thread.
    ChainThread,
    /// None: the sender runs the chain's nodes itself.
    Nobody,
}

/// The chain that a request goes to, and the part of it that the caller may run.
#[derive(Drop)]
pub struct AskedChain<'a, C: Core + Named> {
    pub chain: &'a Chain<C>,
    pub reach: Reach,
}

/// The way of a request to its node.
#[derive(Clone, Copy)]
enum RequestWay {
    /// The caller takes the step, of a read; the chain's threads go on from there.
    OwnStep,
    /// The caller takes the step, and then what waits at the nodes: it has the chain thread's place.
    Inline,
    /// The request waits in the node's queue.
    Queue,
    /// The request waits in the node's queue until its caller runs the chain.
    QueueForCaller,
}

/// Returns the name of the node of this id in the chain of another.
fn beside(other: &NodeName, id: NodeId) -> NodeName
    ensures { result ≡ record { chain = other.now.chain; node = id } }
{
    NodeName {
        chain: other.chain,
        node: id,
    }
}

/// A link between two nodes of a chain, for a message of this class.
#[derive(Drop)]
struct Link<'a, C: Core + Named> {
    history: &'a StoreHistory<C>,
    chain: &'a Chain<C>,
    to: NodeId,
    kind: Kind,
}

impl<'a, C: Core + Named> Link<'a, C> {
    /// Brings a message to a node of a chain before its sender does, if memory allows.
    fn forward_copy<R: Wait>(&self, rt: &R, wire: &mut Wire<C>) {
        if let Ok(copy) = wire.again(self.history) {
            self.forward(rt, copy);
        }
    }

    /// Brings a message to a node of a chain.
    fn forward<R: Wait>(&self, rt: &R, wire: Wire<C>) {
        self.chain
            .forward(rt, self.to, Delivery::of(self.kind, wire));
    }
}

impl<C: Core + Named, G: Gate> Shared<C, G> {
    /// Returns the chain of this id, or `UnknownChain`.
    pub fn chain(&self, id: ChainId) -> Result<&Chain<C>, Refusal>
        ensures there { OnOk result (id < length self.now.chains.items) }
        ensures found { IfOk result (λ c. slice_get self.now.chains.items id ≡ Some c.now) }
        ensures err { IfErr result (λ e. (e ≡ Refusal.UnknownChain) × (length self.now.chains.items ≤ id)) }
    {
        match self.chains.as_slice().get(id.get() as usize) {
            Some(chain) => Ok(chain),
            None => Err(Refusal::UnknownChain),
        }
    }

    /// Sends messages, in order.
    pub fn post<R: Wait>(&self, rt: &R, from: &NodeName, messages: Messages<C>, wakes: Wakes) {
        let mut messages = messages;
        while let Some(outgoing) = messages.next(&self.history) {
            self.send(rt, from, outgoing, wakes);
        }
    }

    /// Sends a message. It is lost if the gate does not carry it, and sent twice if the gate
    /// repeats it and memory allows.
    pub(crate) fn send<R: Wait>(
        &self,
        rt: &R,
        from: &NodeName,
        outgoing: Outgoing<C>,
        wakes: Wakes,
    ) {
        let Outgoing { to, kind, wire } = outgoing;
        let Ok(chain) = self.chain(from.chain) else {
            drop(wire);
            return;
        };
        if !self.gate.carries(*from, beside(from, to)) {
            drop(wire);
            return;
        }
        let link = Link {
            history: &self.history,
            chain,
            to,
            kind,
        };
        let mut wire = wire;
        if self.gate.repeats(*from, beside(from, to)) {
            link.forward_copy(rt, &mut wire);
        }
        link.forward(rt, wire);
        match wakes {
            Wakes::ChainThread => chain.wake_up.wake(),
            Wakes::Nobody => (),
        }
    }

    /// Takes the step of one queued request: a piece of a node's work on requests.
    pub(crate) fn serve_queued<R: Wait>(&self, rt: &R, node: &RunningNode<C>, asked: QueuedAsk<C>) {
        let count = node.next_piece();
        self.gate.before(node.name, Work::Asks, count);
        let mut batch = NodeBatch::begin(self, node, node.lock(rt), Wakes::ChainThread);
        self.gate.within(node.name, Work::Asks, count);
        batch.take_asked(rt, asked);
        batch.end(rt);
        self.gate.after(node.name, Work::Asks, count);
    }

    /// Sends a request to a node of this chain. Returns the reply to the call, or `None` if a
    /// completion will come. A refusal that such a request cannot have becomes `Closed`.
    pub fn submit<R: Wait>(
        &self,
        rt: &R,
        asked: AskedChain<'_, C>,
        ask: &Ask,
        own: OwnAsk<'_, C>,
    ) -> OwnReply<C>
        requires { own.made.ask ≡ ask.now }
        ensures refused { IfErr result (λ e. CanRefuse ask.now e) }
        ensures put { IsPut C.represents self.now.chain_threads own.entry.made.name ask.now own.entry.pass own.entry.at.token (in_hand result) }
    {
        asked.chain.rest.end();
        match self.submit_own(rt, asked, own) {
            Ok(found) => Ok(found),
            Err(refusal) => Err(possible_refusal(ask, refusal)),
        }
    }

    /// Chooses the way of a request. With a chain thread, the caller takes the step of a read. It also
    /// takes that of an update, if it may run the whole chain and the chain thread sleeps. Then it has
    /// that thread's place (`Inline`), and has to call `run_inline`. It may leave an update in the
    /// queue for later. Without a chain thread, every request goes into the queue of its node.
    fn choose_way(&self, chain: &Chain<C>, ask: &Ask, reach: Reach) -> RequestWay
        ensures own_step { result ≡ RequestWay.OwnStep → self.now.chain_threads ≡ true }
        ensures inline_step { result ≡ RequestWay.Inline → self.now.chain_threads ≡ true }
        ensures queue { result ≡ RequestWay.Queue → (self.now.chain_threads ≡ false) ⊎ IsUpdate ask.now }
        ensures for_caller { result ≡ RequestWay.QueueForCaller → IsUpdate ask.now }
    {
        if self.chain_threads {
            if !is_update(ask) {
                return RequestWay::OwnStep;
            }
            match reach {
                Reach::WholeChainLater => RequestWay::QueueForCaller,
                Reach::WholeChain if chain.wake_up.take_place() => RequestWay::Inline,
                Reach::WholeChain | Reach::OneNode => RequestWay::Queue,
            }
        } else {
            RequestWay::Queue
        }
    }

    /// Sends the caller's request to a node of this chain, by the way that `choose_way` chooses.
    /// Returns the reply, or `None` if a completion will come.
    fn submit_own<R: Wait>(
        &self,
        rt: &R,
        asked: AskedChain<'_, C>,
        own: OwnAsk<'_, C>,
    ) -> OwnReply<C>
        ensures { IsPut C.represents self.now.chain_threads own.entry.made.name own.entry.made.ask own.entry.pass own.entry.at.token (in_hand result) }
    {
        let AskedChain { chain, reach } = asked;
        match self.choose_way(chain, own.made.ask(), reach) {
            RequestWay::OwnStep => self.serve_at(rt, chain, own, Wakes::ChainThread),
            RequestWay::Inline => {
                let reply = self.serve_at(rt, chain, own, Wakes::Nobody);
                run_inline(rt, self, chain);
                reply
            }
            RequestWay::Queue => {
                let queued = queue(rt, chain, own);
                chain.wake_up.wake();
                queued
            }
            RequestWay::QueueForCaller => {
                let queued = queue(rt, chain, own);
                chain.wake_up.leave();
                queued
            }
        }
    }

    /// Runs the chain for the requests that were left in its queues, if the chain thread sleeps.
    /// Else that thread, or who has its place, takes them.
    pub fn run_queued<R: Wait>(&self, rt: &R, chain: &Chain<C>) {
        if chain.wake_up.take_left() && chain.wake_up.take_place() {
            run_inline(rt, self, chain);
        }
    }

    /// Takes the step of the caller's own request at the node of this name: a piece of the node's
    /// work on requests. Returns the reply, or `None` if a completion will come.
    fn serve_at<R: Wait>(
        &self,
        rt: &R,
        chain: &Chain<C>,
        own: OwnAsk<'_, C>,
        wakes: Wakes,
    ) -> OwnReply<C>
        ensures { IsServed C.represents own.entry.made.name own.entry.made.ask own.entry.pass own.entry.at.token (in_hand result) ⊎ IsRejected (in_hand result) }
    {
        let node = match chain.node(rt, own.made.name().node) {
            Ok(node) => node,
            Err(refusal) => return Err(refuse_own(own, refusal)),
        };
        let count = node.next_piece();
        self.gate.before(node.name, Work::Asks, count);
        let mut batch = NodeBatch::begin(self, &node, node.lock(rt), wakes);
        self.gate.within(node.name, Work::Asks, count);
        let reply = batch.take_own(rt, own);
        batch.end(rt);
        self.gate.after(node.name, Work::Asks, count);
        reply
    }
}

/// Returns the refusal of a call that this request can have: its own, or `Closed`. A call that it
/// gives back stays in it. So does the moment at which a node gave the refusal, if it is its own.
pub fn possible_refusal<N: Named>(ask: &Ask, refusal: CallRefusal<N>) -> CallRefusal<N>
    ensures reported { CanRefuse ask.now refusal → result ≡ refusal }
    ensures closed { ¬ (CanRefuse ask.now refusal) → result ≡ Refusal.Closed }
    ensures can { CanRefuse ask.now result }
{
    let refused = refusal.into_refused();
    let possible = refusal_of_call(ask, refused.refusal());
    if refused.refusal() == possible {
        return CallRefusal::new(refused);
    }
    CallRefusal::new(refused.instead(possible))
}

/// Queues a request for its node: a completion will come.
fn queue<R: Wait, C: Core + Named>(rt: &R, chain: &Chain<C>, own: OwnAsk<'_, C>) -> OwnReply<C>
    ensures { MatchResult result (λ found. found ≡ None) (λ e. IsMissed e) }
{
    let Asked { made, pass, at } = own;
    let node = made.name().node;
    match CompletionSender::expect(rt, at.completions, at.token) {
        Err(_) => Err(CallRefusal::before_step(made, Refusal::Memory)),
        Ok(at) => {
            chain.enqueue(rt, node, Asked { made, pass, at })?;
            Ok(None)
        }
    }
}
