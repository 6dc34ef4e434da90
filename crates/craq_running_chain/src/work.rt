//! The work of each thread of a store, from its start to its end; called in the threads that the
//! store of `craq_workers` makes.
ghost use Rattle.std.specs.Prelude.{◌≡◌};

use crate::batch::{NodeBatch, run_chain_thread, run_second_thread};
use crate::chain::Chain;
use crate::shared::{Shared, Wakes};
use craq_ghost_history::Named;
use craq_names::{ChainId, NodeId, NodeName};
use craq_node::Core;
use craq_running_node::{Messages, RunningNode, Waiting};
use craq_store_parts::{Gate, Work};
use crossbeam_channel::{Receiver, Sender};
use std::sync::{Arc, Wait};

/// The task of a thread of the store.
#[derive(Drop)]
pub enum Worker<C: Core + Named> {
    /// Takes the requests that are queued for a node.
    Asks(Arc<RunningNode<C>>),
    /// Takes what arrives at a node, and its ticks.
    Links(Arc<RunningNode<C>>),
    /// Takes what waits at the nodes of a chain, one batch after another.
    ChainThread(ChainId),
    /// Takes what waits at the nodes behind the head, while the chain thread calls it.
    SecondThread(ChainId),
    /// Takes the ticks of a chain's master.
    Master(ChainId, Receiver<()>),
}

/// Works until no sender is left, or, as a thread of a chain, until the store is closed. Drops `alive`
/// last, since `close` waits for that.
pub fn run_worker<R: Wait, C: Core + Named, G: Gate>(
    rt: &R,
    shared: Arc<Shared<C, G>>,
    worker: Worker<C>,
    alive: Sender<()>,
) {
    match worker {
        Worker::Asks(node) => take_asks(rt, &shared, &node),
        Worker::Links(node) => take_links(rt, &shared, &node),
        Worker::ChainThread(chain) => run_chain_thread(rt, &shared, chain),
        Worker::SecondThread(chain) => run_second_thread(rt, &shared, chain),
        Worker::Master(chain, ticks) => take_ticks(rt, &shared, chain, &ticks),
    }
    drop(shared);
    drop(alive);
}

fn take_asks<R: Wait, C: Core + Named, G: Gate>(
    rt: &R,
    shared: &Shared<C, G>,
    node: &RunningNode<C>,
) {
    for _ in rt.forever() {
        let Some(asked) = node.inbox.wait_for_ask(rt) else {
            break;
        };
        shared.serve_queued(rt, node, asked);
    }
}

fn take_links<R: Wait, C: Core + Named, G: Gate>(
    rt: &R,
    shared: &Shared<C, G>,
    node: &RunningNode<C>,
) {
    let mut count = 0u64;
    for _ in rt.forever() {
        let Some(waiting) = node.inbox.wait(rt) else {
            break;
        };
        shared.gate.before(node.name, Work::Deliveries, count);
        deliver(rt, shared, node, waiting, count);
        shared.gate.after(node.name, Work::Deliveries, count);
        count = count.wrapping_add(1);
    }
}

/// Takes one step of a node on a message or a tick.
fn deliver<R: Wait, C: Core + Named, G: Gate>(
    rt: &R,
    shared: &Shared<C, G>,
    node: &RunningNode<C>,
    waiting: Waiting<C>,
    count: u64,
) {
    let mut batch = NodeBatch::begin(shared, node, node.lock(rt), Wakes::ChainThread);
    shared.gate.within(node.name, Work::Deliveries, count);
    if let Some(brought) = node.inbox.take(rt, waiting) {
        batch.take_brought(rt, brought);
    }
    batch.end(rt);
}

fn take_ticks<R: Wait, C: Core + Named, G: Gate>(
    rt: &R,
    shared: &Shared<C, G>,
    id: ChainId,
    ticks: &Receiver<()>,
) {
    let name = master_of(id);
    let mut count = 0u64;
    for _ in rt.forever() {
        if ticks.recv(rt).is_err() {
            break;
        }
        announce(rt, shared, &name, count);
        count = count.wrapping_add(1);
    }
}

/// Ticks a master: one piece of its work.
fn announce<R: Wait, C: Core + Named, G: Gate>(
    rt: &R,
    shared: &Shared<C, G>,
    name: &NodeName,
    count: u64,
) {
    let Ok(chain) = shared.chain(name.chain) else {
        return;
    };
    shared.gate.before(*name, Work::Deliveries, count);
    if let Some(messages) = tick(rt, shared, chain, name, count) {
        shared.post(rt, name, messages, Wakes::ChainThread);
    }
    shared.gate.after(*name, Work::Deliveries, count);
}

/// Ticks a master under its lock, and returns what it sends, if it took the step.
fn tick<R: Wait, C: Core + Named, G: Gate>(
    rt: &R,
    shared: &Shared<C, G>,
    chain: &Chain<C>,
    name: &NodeName,
    count: u64,
) -> Option<Messages<C>> {
    let mut book = chain.book.lock(rt);
    shared.gate.within(*name, Work::Deliveries, count);
    book.tick(shared.alloc, &shared.history)
}

/// Returns the name of a chain's master.
pub fn master_of(chain: ChainId) -> NodeName
    ensures { result ≡ record { chain = chain; node = 0 } }
{
    NodeName {
        chain,
        node: NodeId::new(0),
    }
}
