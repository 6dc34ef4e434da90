//! Starts a store with a script's members, sends it the script's requests, and adds a node unless
//! the chain is full; called by `ways`.
ghost use Rattle.std.specs.Prelude.{◌≡◌, IfOk};
ghost use Rattle.craq_place.specs.Plan.{IsPlan};

use super::rows::{MOST_NODES, Row, chain};
use super::teller::{Call, TRIES, Teller};
use craq_model::{Answer, Ask};
use craq_names::{Copied, NodeId, NodeName, Pass, Refusal};
use craq_node::Core;
use craq_place::Plan;
use craq_runs::Move;
use craq_workers::{At, Client, Named, OpenGate, OpenedHistory, Store, open_history};
use std::alloc::{AllocError, Global};
use std::marker::Brand;
use std::sync::Wait;
use std::thread::Threads;
use std::time::Duration;
use std::{fs, thread};

/// The configurations of a chain of 1 to 8 nodes.
const PLANS: [&str; 8] = [
    "[[chain]]\nname = \"a\"\nnodes = [1]\n",
    "[[chain]]\nname = \"a\"\nnodes = [1, 2]\n",
    "[[chain]]\nname = \"a\"\nnodes = [1, 2, 3]\n",
    "[[chain]]\nname = \"a\"\nnodes = [1, 2, 3, 4]\n",
    "[[chain]]\nname = \"a\"\nnodes = [1, 2, 3, 4, 5]\n",
    "[[chain]]\nname = \"a\"\nnodes = [1, 2, 3, 4, 5, 6]\n",
    "[[chain]]\nname = \"a\"\nnodes = [1, 2, 3, 4, 5, 6, 7]\n",
    "[[chain]]\nname = \"a\"\nnodes = [1, 2, 3, 4, 5, 6, 7, 8]\n",
];

/// The largest number of polls of a wait.
const LIMIT: u32 = 1000;

/// Rests for one poll, 10 milliseconds.
fn rest(clock: HostRuntime) {
    thread::sleep(&clock, Duration::from_millis(10));
}

/// Returns the number of threads of this process as the system reports it, or 0 if it does not.
fn threads(host: HostRuntime) -> u64 {
    let Ok(status) = fs::read_to_string(&host, "/proc/self/status") else {
        return 0;
    };
    for line in status.as_str().lines() {
        if let Some(count) = line.strip_prefix("Threads:\t") {
            return count.parse::<u64>().unwrap_or(0);
        }
    }
    0
}

/// Polls until the process has `wanted` threads. Returns false if it never does.
fn comes_to(host: HostRuntime, wanted: u64) -> bool {
    for _ in 0..LIMIT {
        if threads(host) == wanted {
            return true;
        }
        rest(host);
    }
    false
}

/// Returns the configuration of a chain with the row's members, of which there are 1 to 8.
pub fn plan(alloc: Global, row: &Row) -> Result<Plan, Refusal>
    ensures { IfOk result IsPlan }
{
    match PLANS.get(row.ids.len().saturating_sub(1)) {
        Some(text) => Plan::read(alloc, text),
        None => Err(Refusal::BadConfig),
    }
}

/// Returns the epoch of the store's chain, which identifies its membership.
fn epoch<C, R>(rt: &R, store: &Store<C, OpenGate>) -> Result<u64, Refusal>
where
    C: Core + Named,
    R: Wait,
{
    match store.status(rt)?.as_slice() {
        [status] => Ok(status.config.epoch.get()),
        _ => Err(Refusal::UnknownChain),
    }
}

/// Adds a node, unless the chain is full. Returns true if it joined.
///
/// A join that fails leaves the membership unchanged, and no thread of the node.
fn join<C, R>(
    rt: R,
    teller: Teller,
    store: &Store<C, OpenGate>,
    node: NodeId,
) -> Result<bool, Refusal>
where
    C: Core + Named + Send + 'static,
    R: Threads + Wait + Copy + Send + 'static,
{
    let before = threads(teller.host);
    let members = epoch(&rt, store)?;
    for _ in 0..TRIES {
        teller.begin(Call::Join);
        let refused = store.join(rt, chain(), node).err();
        if teller.end(Call::Join, refused == Some(Refusal::Memory)) {
            if refused == Some(Refusal::ChainFull) {
                let _ = println!(teller.host; "the chain is full");
                return Ok(false);
            }
            return match refused {
                None => Ok(true),
                Some(refusal) => Err(refusal),
            };
        }
        if !comes_to(teller.host, before) || epoch(&rt, store)? != members {
            return Err(Refusal::NotStopped);
        }
    }
    Err(Refusal::Memory)
}

/// Sends a client's request to a node, and returns the reply.
fn answer<C, R>(
    rt: &R,
    alloc: Global,
    client: &mut Client<C, OpenGate>,
    node: NodeId,
    ask: &Ask,
) -> Result<Answer, Refusal>
where
    C: Core + Named,
    R: Wait,
{
    let name = NodeName {
        chain: chain(),
        node,
    };
    let copy = ask.copied(alloc)?;
    let (answer, receipt) = client.call(rt, name, copy)?;
    drop(receipt);
    Ok(answer)
}

/// Sends a request to the node with a new client, retries until the node is ready, and prints the
/// reply.
fn tell_when_ready<C, R>(
    rt: &R,
    teller: Teller,
    store: &Store<C, OpenGate>,
    node: NodeId,
    ask: &Ask,
) -> Result<(), AllocError>
where
    C: Core + Named,
    R: Wait,
{
    let mut client = store.client(rt, Pass::start())?;
    for _ in 0..LIMIT {
        let reported = answer(rt, teller.alloc, &mut client, node, ask);
        let is_ready = !matches!(&reported, Err(Refusal::NotReady));
        if is_ready {
            let _ = println!(teller.host; "{reported:?}");
        }
        drop(reported);
        if is_ready {
            break;
        }
        store.tick(rt);
        rest(teller.host);
    }
    Ok(())
}

/// Prints the store's replies to the script's reads at this node.
fn tell_reads<C, R>(
    rt: &R,
    teller: Teller,
    row: &Row,
    store: &Store<C, OpenGate>,
    node: NodeId,
) -> Result<(), AllocError>
where
    C: Core + Named,
    R: Wait,
{
    for chosen in &row.moves {
        if let Move::Ask { ask, .. } = chosen {
            if matches!(ask, Ask::Read { .. }) {
                tell_when_ready(rt, teller, store, node, ask)?;
            }
        }
    }
    Ok(())
}

/// Prints the store's replies to all requests of the script, and those to its reads at a node that
/// joins.
fn tell<C, R>(rt: R, teller: Teller, row: &Row, store: &Store<C, OpenGate>) -> Result<(), Refusal>
where
    C: Core + Named + Send + 'static,
    R: Threads + Wait + Copy + Send + 'static,
{
    for chosen in &row.moves {
        if let Move::Ask { node, ask } = chosen {
            tell_when_ready(&rt, teller, store, *node, ask)?;
        }
    }
    let joins = NodeId::new(MOST_NODES);
    if join(rt, teller, store, joins)? {
        tell_reads(&rt, teller, row, store, joins)?;
    }
    let members = epoch(&rt, store)?;
    let _ = println!(teller.host; "epoch {members}");
    Ok(())
}

/// Starts a store with this history and the row's members, and prints its replies while one more
/// joins. The store is run by one chain thread, or by threads of each node. `None` if it does not
/// start.
fn play_named<C, N, R>(
    rt: R,
    teller: Teller,
    row: &Row,
    chain_threads: bool,
    opened: OpenedHistory,
) -> Result<Option<()>, Refusal>
where
    C: Core + Send + 'static,
    N: Named + Send + 'static,
    R: Threads + Wait + Copy + Send + 'static,
    requires { opened ≡ N.history }
{
    let plan = plan(teller.alloc, row)?;
    let gate = OpenGate { chain_threads };
    teller.begin(Call::Start);
    let started: Result<Store<At<C, N>, OpenGate>, Refusal> = Store::start(
        rt,
        teller.alloc,
        opened,
        &plan,
        gate,
        true,
    );
    let _ = teller.end(Call::Start, started.is_err());
    match started {
        Ok(store) => {
            let reported = tell(rt, teller, row, &store);
            store.close(&rt);
            match reported {
                Ok(()) => Ok(Some(())),
                Err(refusal) => Err(refusal),
            }
        }
        Err(_) => Ok(None),
    }
}

/// Prints the replies of a store with the row's members while one more joins. The store is run by
/// one chain thread, or by threads of each node. Fails if a thread is left after a start that
/// fails, or at the end.
pub fn play<C, R>(rt: R, teller: Teller, row: &Row, chain_threads: bool) -> Result<(), Refusal>
where
    C: Core + Send + 'static,
    R: Threads + Wait + Copy + Send + 'static,
{
    let before = threads(teller.host);
    for _ in 0..TRIES {
        let opened = open_history(teller.alloc)?;
        let played = play_named::<C, Brand, R>(rt, teller, row, chain_threads, opened);
        if !comes_to(teller.host, before) {
            return Err(Refusal::NotStopped);
        }
        if played?.is_some() {
            return Ok(());
        }
    }
    Err(Refusal::Memory)
}
