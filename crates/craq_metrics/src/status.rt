//! `status_text`: the figures of a server as JSON.
ghost use Rattle.std.specs.Prelude.{◌≡◌, IfOk, map, string_bytes};
ghost use Rattle.serde_json.specs.View.{view};
ghost use Rattle.craq_metrics.specs.Status.{number_of, node_data, chain_data, connections_data, requests_data, bytes_data, status_data, status_text};

use crate::{ChainFigures, NodeFigures, ServerFigures};
use serde_json::{Value, json};
use std::alloc::{AllocError, Global};

/// Returns a node as a JSON object. Fails only when out of memory.
#[tactic(auto, unfolding(crate::specs::Status::node_data))]
fn node_value(alloc: Global, node: &NodeFigures) -> Result<Value, AllocError>
    ensures { IfOk result (λ v. view v ≡ node_data node.now) }
{
    json!(in alloc; {
        "bytes": node.bytes,
        "committed": node.committed,
        "length": node.length,
        "lost": node.lost,
        "node": u64::from(node.node),
        "objects": node.objects,
        "ready": node.is_ready,
        "running": node.is_running,
        "waiting": node.waiting
    })
}

/// Returns nodes as JSON objects. Fails only when out of memory.
fn node_values(alloc: Global, nodes: &[NodeFigures]) -> Result<Vec<Value>, AllocError>
    ensures { IfOk result (λ values. map view values.items ≡ map node_data nodes.now) }
{
    let mut items = Vec::new(alloc);
    for node in nodes {
        items.push(node_value(alloc, node)?)?;
    }
    Ok(items)
}

/// Returns a chain as a JSON object. Fails only when out of memory.
fn chain_value(alloc: Global, chain: &ChainFigures) -> Result<Value, AllocError>
    ensures { IfOk result (λ v. view v ≡ chain_data chain.now) }
{
    json!(in alloc; {
        "epoch": chain.epoch,
        "name": chain.name.as_str(),
        "nodes": Value::Array(node_values(alloc, chain.nodes.as_slice())?)
    })
}

/// Returns chains as JSON objects. Fails only when out of memory.
fn chain_values(alloc: Global, chains: &[ChainFigures]) -> Result<Vec<Value>, AllocError>
    ensures { IfOk result (λ values. map view values.items ≡ map chain_data chains.now) }
{
    let mut items = Vec::new(alloc);
    for chain in chains {
        items.push(chain_value(alloc, chain)?)?;
    }
    Ok(items)
}

/// Returns counts as JSON numbers. Fails only when out of memory.
fn count_values(alloc: Global, counts: &[u64]) -> Result<Vec<Value>, AllocError>
    ensures { IfOk result (λ values. map view values.items ≡ map number_of counts.now) }
{
    let mut items = Vec::new(alloc);
    for count in counts {
        items.push(Value::from(*count))?;
    }
    Ok(items)
}

/// Returns the counts of connections as a JSON object. Fails only when out of memory.
fn connections_value(alloc: Global, server: &ServerFigures) -> Result<Value, AllocError>
    ensures { IfOk result (λ v. view v ≡ connections_data server.now) }
{
    json!(in alloc; {
        "accepted": server.accepted,
        "open": server.open_connections,
        "turned_away": server.turned_away
    })
}

/// Returns the counts of requests as a JSON object. Fails only when out of memory.
fn requests_value(alloc: Global, server: &ServerFigures) -> Result<Value, AllocError>
    ensures { IfOk result (λ v. view v ≡ requests_data server.now) }
{
    json!(in alloc; {
        "reads": server.reads,
        "statuses": server.statuses,
        "updates": server.updates
    })
}

/// Returns the counts of bytes as a JSON object. Fails only when out of memory.
fn bytes_value(alloc: Global, server: &ServerFigures) -> Result<Value, AllocError>
    ensures { IfOk result (λ v. view v ≡ bytes_data server.now) }
{
    json!(in alloc; {"read": server.read_bytes, "written": server.written_bytes})
}

/// Returns the figures as a JSON object. Fails only when out of memory.
#[tactic(auto, unfolding(crate::specs::Status::status_data))]
fn status_value(
    alloc: Global,
    server: &ServerFigures,
    chains: &[ChainFigures],
) -> Result<Value, AllocError>
    ensures { IfOk result (λ v. view v ≡ status_data server.now chains.now) }
{
    json!(in alloc; {
        "bytes": bytes_value(alloc, server)?,
        "chains": Value::Array(chain_values(alloc, chains)?),
        "connections": connections_value(alloc, server)?,
        "refusals": Value::Array(count_values(alloc, server.refused.as_slice())?),
        "requests": requests_value(alloc, server)?,
        "uptime_seconds": server.uptime
    })
}

/// Returns the figures of a server and its chains as compact JSON. `refusals` has the count of each
/// number, from 1. Fails only when out of memory.
#[tactic(auto, using(crate::proofs::Floats::none_in), unfolding(crate::specs::Status::status_text))]
pub fn status_text(
    alloc: Global,
    server: &ServerFigures,
    chains: &[ChainFigures],
) -> Result<String, AllocError>
    ensures { IfOk result (λ text. string_bytes text ≡ status_text server.now chains.now) }
{
    let value = status_value(alloc, server, chains)?;
    value.to_string(alloc)
}
