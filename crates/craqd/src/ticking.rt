//! Ticks the chains of a store one after another, spread evenly over time; called by `serving`.
ghost use Rattle.std.specs.Prelude.{◌≡◌, ◌-◌, ◌+◌, ◌/◌, nat_lt, max, if◌then◌else◌};

use crate::serving::RunningStore;
use craq_names::ChainId;
use craq_place::MOST_CHAINS;
use craq_server::Connections;
use craq_workers::Named;
use std::sync::Wait;
use std::sync::atomic::{AtomicBool, Ordering};
use std::thread;
use std::time::{Clock, Duration};

/// The microseconds between two ticks of a chain, at which its nodes and its master send again what
/// others may lack.
const TICK_MICROSECONDS: u64 = 50_000;

/// Returns the microseconds between the ticks of two chains of a store that has `chains` of them.
const fn pause_of(chains: u16) -> u64
    ensures { result ≡ 50000 / max chains 1 }
{
    let chains = if chains > 1 { chains as u64 } else { 1 };
    TICK_MICROSECONDS / chains
}

/// Returns the id of the chain to tick after this one, of a store that has `chains` of them.
const fn after(chain: u16, chains: u16) -> u16
    ensures { result ≡ (if nat_lt chain (chains - 1) then chain + 1 else 0) }
{
    if chain < chains.saturating_sub(1) {
        chain + 1
    } else {
        0
    }
}

/// Ticks each chain once. Returns how many there are, at most 64.
fn tick_each<R: Wait, N: Named>(rt: &R, store: &RunningStore<N>) -> u16 {
    let mut count = 0;
    for chain in 0..MOST_CHAINS {
        if store.tick_chain(rt, ChainId::new(chain)).is_err() {
            break;
        }
        count = chain + 1;
    }
    count
}

/// Stops the members of each chain. So a request that waits behind a stopped node, and would wait
/// forever, is refused with `Stopped`. Out of memory, or where a node cannot be stopped, it goes on
/// running.
fn stop_members<R: Wait, N: Named + Send + 'static>(rt: &R, store: &RunningStore<N>) {
    let Ok(chains) = store.status(rt) else {
        return;
    };
    let mut id = 0u16;
    for chain in chains.as_slice() {
        for node in chain.config.members.as_slice() {
            let _ = store.stop(rt, ChainId::new(id), *node);
        }
        id = id.saturating_add(1);
    }
}

/// Ticks the chains until `over` is set, each about every 50 ms. At its start it ticks all of them,
/// and from then on one after another with an even pause between: with 64 chains no two work at the
/// same moment for the sake of a tick. Once an ending server has waited long enough
/// (`Connections::time_out`), it stops all members, so that no request keeps it from its end.
pub fn tick_chains<R: Clock + Wait, N: Named + Send + 'static>(
    rt: &R,
    store: &RunningStore<N>,
    connections: &Connections,
    over: &AtomicBool,
) {
    let chains = tick_each(rt, store);
    let pause = Duration::from_micros(pause_of(chains));
    let mut chain = 0;
    for _ in rt.forever() {
        if over.load(Ordering::SeqCst) {
            break;
        }
        if connections.has_timed_out(rt) {
            stop_members(rt, store);
        }
        thread::sleep(rt, pause);
        let _ = store.tick_chain(rt, ChainId::new(chain));
        chain = after(chain, chains);
    }
}
