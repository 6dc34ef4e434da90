//! The figures of a running server, as `craq_metrics` prints them; for `pages`.
ghost use Rattle.std.specs.Prelude.{◌≡◌, ◌+◌, ◌-◌, ◌^◌, min};

use crate::serving::RunningStore;
use craq_compact_history::{NodeFigures as CoreFigures, figures_of};
use craq_metrics::{ChainFigures, NodeFigures, ServerFigures};
use craq_names::{ChainId, NodeId, NodeName, Refusal};
use craq_place::MOST_CHAINS;
use craq_server::Counts;
use craq_workers::{ChainStatus, Named};
use std::alloc::AllocError;
use std::sync::Wait;

/// Returns the figures of a server that started this many seconds ago.
pub const fn server_figures(counts: &Counts, uptime: u64) -> ServerFigures
    ensures { result ≡ record { uptime = uptime; open_connections = counts.now.open_connections; accepted = counts.now.accepted; turned_away = counts.now.turned_away; updates = counts.now.updates; reads = counts.now.reads; statuses = counts.now.statuses; refused = counts.now.refused; read_bytes = counts.now.read_bytes; written_bytes = counts.now.written_bytes } }
{
    ServerFigures {
        uptime,
        open_connections: counts.open_connections,
        accepted: counts.accepted,
        turned_away: counts.turned_away,
        updates: counts.updates,
        reads: counts.reads,
        statuses: counts.statuses,
        refused: counts.refused,
        read_bytes: counts.read_bytes,
        written_bytes: counts.written_bytes,
    }
}

/// Returns the figures of a node that lost this many messages.
const fn node_figures(node: NodeId, core: &CoreFigures, lost: u64) -> NodeFigures
    ensures { result ≡ record { node = node; is_ready = core.now.is_ready; is_running = core.now.is_running; length = core.now.length; committed = core.now.committed; waiting = min (core.now.waiting_updates + core.now.waiting_reads) (2 ^ 64 - 1); objects = core.now.objects; bytes = core.now.bytes; lost = lost } }
{
    NodeFigures {
        node: node.get(),
        is_ready: core.is_ready,
        is_running: core.is_running,
        length: core.length,
        committed: core.committed,
        waiting: (core.waiting_updates as u64).saturating_add(core.waiting_reads as u64),
        objects: core.objects,
        bytes: core.bytes,
        lost,
    }
}

/// Returns the figures of a node. Refused as `Store::look` is.
fn node_of<R: AllocGlobal + Wait, N: Named>(
    rt: &R,
    store: &RunningStore<N>,
    name: &NodeName,
) -> Result<NodeFigures, Refusal> {
    let core = store.look(rt, name, |core| figures_of(core.core()))?;
    let lost = store.losses(rt, name)?;
    Ok(node_figures(name.node, &core, lost))
}

/// Returns the figures of these nodes of a chain, in this order; a node that is gone by now is left
/// out. Fails only when out of memory.
fn nodes_of<R: AllocGlobal + Wait, N: Named>(
    rt: &R,
    store: &RunningStore<N>,
    chain: ChainId,
    ids: &[NodeId],
) -> Result<Vec<NodeFigures>, AllocError> {
    let mut nodes = Vec::new(rt.alloc());
    for id in ids {
        let node = *id;
        match node_of(rt, store, &NodeName { chain, node }) {
            Ok(figures) => nodes.push(figures)?,
            Err(Refusal::Memory) => return Err(AllocError),
            Err(_) => (),
        }
    }
    Ok(nodes)
}

/// Returns the figures of a chain. Fails only when out of memory.
fn chain_of<R: AllocGlobal + Wait, N: Named>(
    rt: &R,
    store: &RunningStore<N>,
    chain: ChainId,
    status: ChainStatus,
) -> Result<ChainFigures, AllocError> {
    let ChainStatus { name, config } = status;
    let nodes = nodes_of(rt, store, chain, config.members.as_slice())?;
    Ok(ChainFigures {
        name,
        epoch: config.epoch.get(),
        nodes,
    })
}

/// Returns the figures of a store's chains, by id. Fails only when out of memory.
pub fn chain_figures<R: AllocGlobal + Wait, N: Named>(
    rt: &R,
    store: &RunningStore<N>,
) -> Result<Vec<ChainFigures>, AllocError> {
    let mut chains = Vec::new(rt.alloc());
    for (id, status) in (0..MOST_CHAINS).zip(store.status(rt)?) {
        chains.push(chain_of(rt, store, ChainId::new(id), status)?)?;
    }
    Ok(chains)
}
