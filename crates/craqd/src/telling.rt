//! Prints what `craqd` serves and where on standard error, once it listens; called by `serving`.
ghost use Rattle.std.specs.Prelude.{◌<◌, ◌⊎◌, ◌↔◌, IsTrue};

use crate::serving::RunningStore;
use craq_cli::{Line, VERSION};
use craq_names::NodeId;
use craq_workers::{ChainStatus, Named};
use std::alloc::{AllocError, Global};
use std::sync::Wait;

/// Adds the ids of nodes, the head first.
fn push_nodes(text: &mut String, nodes: &[NodeId]) -> Result<(), AllocError> {
    for node in nodes {
        let node = node.get();
        write!(text, " {node}")?;
    }
    Ok(())
}

/// Adds the names of chains and their nodes.
fn push_chains(text: &mut String, chains: &[ChainStatus]) -> Result<(), AllocError> {
    for chain in chains {
        let name = chain.name.as_str();
        write!(text, " chain {name} of nodes")?;
        push_nodes(text, chain.config.members.as_slice())?;
        text.push_str(",")?;
    }
    Ok(())
}

/// The text about journals of a server without an end in order.
const NO_AUDIT: &str =
    ", journals, of which no audit will be printed (--connections N or --until-input-ends ends the server in order)";

/// Returns whether the server ends in order, as far as its command line says.
const fn has_end(line: &Line<'_>) -> bool
    ensures { IsTrue result ↔ ((0 < line.now.connections) ⊎ IsTrue line.now.until_input_ends) }
{
    line.connections > 0 || line.until_input_ends
}

/// The ports that a server listens on.
#[derive(Clone, Copy, Debug)]
pub struct Ports {
    /// The port for clients.
    pub clients: u16,
    /// The port for the metrics, if they are served.
    pub metrics: Option<u16>,
}

/// Adds the port of the metrics, if they are served.
fn push_metrics(text: &mut String, port: Option<u16>) -> Result<(), AllocError> {
    match port {
        Some(port) => write!(text, ", metrics on port {port}"),
        None => Ok(()),
    }
}

/// Adds how connections are served, and whether journals are kept.
fn push_way(text: &mut String, line: &Line<'_>) -> Result<(), AllocError> {
    let (threads, most, idle) = (line.threads, line.most, line.idle);
    if threads == 0 {
        write!(text, " a thread for each connection")?;
    } else if threads == 1 {
        write!(text, " 1 thread for all connections")?;
    } else {
        write!(text, " {threads} threads for all connections")?;
    }
    if most > 0 {
        write!(text, ", at most {most}")?;
    }
    if idle > 0 {
        write!(text, ", each ended after {idle} silent seconds")?;
    }
    text.push_str(match (line.journal, has_end(line)) {
        (true, true) => ", journals",
        (true, false) => NO_AUDIT,
        (false, _) => ", no journals",
    })
}

/// Returns what a command line serves: the plan file, the address with its port, the chains and
/// their nodes, how connections are served, whether journals are kept, and the port of metrics.
/// Fails only when out of memory.
fn served_text(
    alloc: Global,
    line: &Line<'_>,
    chains: &[ChainStatus],
    ports: Ports,
) -> Result<String, AllocError> {
    let mut text = String::new(alloc);
    let (plan, address, port) = (line.plan, line.address, ports.clients);
    write!(
        text,
        "craqd {VERSION} serves {plan} at {address}, port {port}:"
    )?;
    push_chains(&mut text, chains)?;
    push_way(&mut text, line)?;
    push_metrics(&mut text, ports.metrics)?;
    Ok(text)
}

/// Prints on standard error, in one line, what is served and where. Nothing is printed where
/// standard error takes no text. Fails only when out of memory.
pub fn tell_serving<R: AllocGlobal + Eprint + Wait, N: Named>(
    rt: &R,
    store: &RunningStore<N>,
    line: &Line<'_>,
    ports: Ports,
) -> Result<(), AllocError> {
    let chains = store.status(rt)?;
    let text = served_text(rt.alloc(), line, chains.as_slice(), ports);
    drop(chains);
    let text = text?;
    let text = text.as_str();
    let _ = eprintln!(rt; "{text}");
    Ok(())
}
