//! `metrics_text`: the figures of a server as a text that Prometheus reads.
ghost use Rattle.std.specs.Prelude.{◌≡◌, ◌++◌, ◌∷◌, [], OnOk, IfOk, codes, map, string_bytes};
ghost use Rattle.std.specs.Fmt.{decimal};
ghost use Rattle.std.specs.List.{flat_map};
ghost use Rattle.craq_metrics.specs.Exposition.{heading_text, sample_text, family_text, exposition};
ghost use Rattle.craq_metrics.specs.Families.{server_family, server_families, requests_family, refusals_family, numbered_samples, chain_family, chain_families, chain_sample, node_family, node_families, node_count_families, node_samples, node_state_families, families_of};
ghost use Rattle.craq_metrics.specs.Metrics.{chain_name, node_name};

use crate::metrics::{ChainMetric, CountMetric, MetricKind, NodeMetric, ServerMetric};
use crate::{ChainFigures, NodeFigures, ServerFigures};
use std::alloc::{AllocError, Global};

/// Appends the two lines before the samples of a metric: its help and its kind.
#[tactic(auto, unfolding(crate::specs::Exposition::heading_text))]
fn push_heading(text: &mut String, name: &str, help: &str, kind: &str) -> Result<(), AllocError>
    ensures { OnOk result (string_bytes text.new ≡ string_bytes text.old ++ heading_text name.now help.now kind.now) }
{
    write!(text, "# HELP {name} {help}\n# TYPE {name} {kind}\n")
}

/// Appends a sample without labels.
#[tactic(auto, unfolding(crate::specs::Exposition::sample_text))]
fn push_sample(text: &mut String, name: &str, value: u64) -> Result<(), AllocError>
    ensures { OnOk result (string_bytes text.new ≡ string_bytes text.old ++ sample_text name.now (record { labels = []; value = value })) }
{
    write!(text, "{name} {value}\n")
}

/// Appends a sample with one label.
#[tactic(auto, unfolding(crate::specs::Exposition::sample_text))]
fn push_labelled(
    text: &mut String,
    name: &str,
    label: &str,
    mark: &str,
    value: u64,
) -> Result<(), AllocError>
    ensures { OnOk result (string_bytes text.new ≡ string_bytes text.old ++ sample_text name.now (record { labels = (label.now, mark.now) ∷ []; value = value })) }
{
    write!(text, "{name}{{{label}=\"{mark}\"}} {value}\n")
}

/// Appends a sample whose one label is a number.
#[tactic(auto, unfolding(crate::specs::Exposition::sample_text))]
fn push_numbered(text: &mut String, name: &str, number: usize, value: u64) -> Result<(), AllocError>
    ensures { OnOk result (string_bytes text.new ≡ string_bytes text.old ++ sample_text name.now (record { labels = (codes "number", decimal number) ∷ []; value = value })) }
{
    write!(text, "{name}{{number=\"{number}\"}} {value}\n")
}

/// Appends a sample of a node of this chain.
#[tactic(auto, unfolding(crate::specs::Exposition::sample_text))]
fn push_node(
    text: &mut String,
    name: &str,
    chain: &str,
    node: u32,
    value: u64,
) -> Result<(), AllocError>
    ensures { OnOk result (string_bytes text.new ≡ string_bytes text.old ++ sample_text name.now (record { labels = (codes "chain", chain.now) ∷ (codes "node", decimal node) ∷ []; value = value })) }
{
    write!(
        text,
        "{name}{{chain=\"{chain}\",node=\"{node}\"}} {value}\n"
    )
}

/// Appends a metric of the server.
#[tactic(auto, unfolding(crate::specs::Exposition::family_text, crate::specs::Families::server_family))]
fn push_server(
    text: &mut String,
    server: &ServerFigures,
    metric: ServerMetric,
) -> Result<(), AllocError>
    ensures { OnOk result (string_bytes text.new ≡ string_bytes text.old ++ family_text (server_family server.now metric)) }
{
    let name = metric.name();
    push_heading(text, name, metric.help(), metric.kind().name())?;
    push_sample(text, name, metric.value(server))
}

/// Appends the metrics of the server.
fn push_servers(text: &mut String, server: &ServerFigures) -> Result<(), AllocError>
    ensures { OnOk result (string_bytes text.new ≡ string_bytes text.old ++ exposition (server_families server.now)) }
{
    push_server(text, server, ServerMetric::Uptime)?;
    push_server(text, server, ServerMetric::Open)?;
    push_server(text, server, ServerMetric::Accepted)?;
    push_server(text, server, ServerMetric::TurnedAway)?;
    push_server(text, server, ServerMetric::ReadBytes)?;
    push_server(text, server, ServerMetric::WrittenBytes)
}

/// Appends the metric of requests by kind.
#[tactic(auto, unfolding(crate::specs::Exposition::family_text, crate::specs::Families::requests_family))]
fn push_requests(text: &mut String, server: &ServerFigures) -> Result<(), AllocError>
    ensures { OnOk result (string_bytes text.new ≡ string_bytes text.old ++ family_text (requests_family server.now)) }
{
    let metric = CountMetric::Requests;
    let name = metric.name();
    push_heading(text, name, metric.help(), MetricKind::Counter.name())?;
    push_labelled(text, name, "kind", "update", server.updates)?;
    push_labelled(text, name, "kind", "read", server.reads)?;
    push_labelled(text, name, "kind", "status", server.statuses)
}

/// Appends a sample for each of these counts, of which the first has number 1.
fn push_counts(text: &mut String, name: &str, counts: &[u64]) -> Result<(), AllocError>
    ensures { OnOk result (string_bytes text.new ≡ string_bytes text.old ++ flat_map (sample_text name.now) (numbered_samples 1 counts.now)) }
{
    for (index, count) in counts.iter().enumerate() {
        push_numbered(text, name, index + 1, *count)?;
    }
    Ok(())
}

/// Appends the metric of refusals by number.
#[tactic(auto, unfolding(crate::specs::Exposition::family_text, crate::specs::Families::refusals_family))]
fn push_refusals(text: &mut String, server: &ServerFigures) -> Result<(), AllocError>
    ensures { OnOk result (string_bytes text.new ≡ string_bytes text.old ++ family_text (refusals_family server.now)) }
{
    let metric = CountMetric::Refusals;
    let name = metric.name();
    push_heading(text, name, metric.help(), MetricKind::Counter.name())?;
    push_counts(text, name, server.refused.as_slice())
}

/// Appends a sample of this metric for each chain.
fn push_chain_samples(
    text: &mut String,
    chains: &[ChainFigures],
    metric: ChainMetric,
) -> Result<(), AllocError>
    ensures { OnOk result (string_bytes text.new ≡ string_bytes text.old ++ flat_map (sample_text (chain_name metric)) (map (chain_sample metric) chains.now)) }
{
    for chain in chains {
        let value = metric.value(chain);
        push_labelled(text, metric.name(), "chain", chain.name.as_str(), value)?;
    }
    Ok(())
}

/// Appends a metric of the chains.
#[tactic(auto, unfolding(crate::specs::Exposition::family_text, crate::specs::Families::chain_family))]
fn push_chain(
    text: &mut String,
    chains: &[ChainFigures],
    metric: ChainMetric,
) -> Result<(), AllocError>
    ensures { OnOk result (string_bytes text.new ≡ string_bytes text.old ++ family_text (chain_family chains.now metric)) }
{
    push_heading(text, metric.name(), metric.help(), MetricKind::Gauge.name())?;
    push_chain_samples(text, chains, metric)
}

/// Appends a sample of this metric for each node of a chain.
fn push_nodes_of(
    text: &mut String,
    chain: &ChainFigures,
    metric: NodeMetric,
) -> Result<(), AllocError>
    ensures { OnOk result (string_bytes text.new ≡ string_bytes text.old ++ flat_map (sample_text (node_name metric)) (node_samples metric chain.now)) }
{
    for node in chain.nodes.as_slice() {
        let value = metric.value(node);
        push_node(text, metric.name(), chain.name.as_str(), node.node, value)?;
    }
    Ok(())
}

/// Appends a sample of this metric for each node of each chain.
fn push_node_samples(
    text: &mut String,
    chains: &[ChainFigures],
    metric: NodeMetric,
) -> Result<(), AllocError>
    ensures { OnOk result (string_bytes text.new ≡ string_bytes text.old ++ flat_map (sample_text (node_name metric)) (flat_map (node_samples metric) chains.now)) }
{
    for chain in chains {
        push_nodes_of(text, chain, metric)?;
    }
    Ok(())
}

/// Appends a metric of the nodes.
#[tactic(auto, unfolding(crate::specs::Exposition::family_text, crate::specs::Families::node_family))]
fn push_nodes(
    text: &mut String,
    chains: &[ChainFigures],
    metric: NodeMetric,
) -> Result<(), AllocError>
    ensures { OnOk result (string_bytes text.new ≡ string_bytes text.old ++ family_text (node_family chains.now metric)) }
{
    push_heading(text, metric.name(), metric.help(), metric.kind().name())?;
    push_node_samples(text, chains, metric)
}

/// Appends the metrics of chains.
fn push_chains(text: &mut String, chains: &[ChainFigures]) -> Result<(), AllocError>
    ensures { OnOk result (string_bytes text.new ≡ string_bytes text.old ++ exposition (chain_families chains.now)) }
{
    push_chain(text, chains, ChainMetric::Epoch)?;
    push_chain(text, chains, ChainMetric::Members)
}

/// Appends the metrics that say if nodes can answer.
fn push_node_states(text: &mut String, chains: &[ChainFigures]) -> Result<(), AllocError>
    ensures { OnOk result (string_bytes text.new ≡ string_bytes text.old ++ exposition (node_state_families chains.now)) }
{
    push_nodes(text, chains, NodeMetric::Ready)?;
    push_nodes(text, chains, NodeMetric::Running)
}

/// Appends the metrics of what nodes hold.
fn push_node_counts(text: &mut String, chains: &[ChainFigures]) -> Result<(), AllocError>
    ensures { OnOk result (string_bytes text.new ≡ string_bytes text.old ++ exposition (node_count_families chains.now)) }
{
    push_nodes(text, chains, NodeMetric::Length)?;
    push_nodes(text, chains, NodeMetric::Committed)?;
    push_nodes(text, chains, NodeMetric::Waiting)?;
    push_nodes(text, chains, NodeMetric::Objects)?;
    push_nodes(text, chains, NodeMetric::Bytes)?;
    push_nodes(text, chains, NodeMetric::Lost)
}

/// Appends the metrics of nodes.
fn push_all_nodes(text: &mut String, chains: &[ChainFigures]) -> Result<(), AllocError>
    ensures { OnOk result (string_bytes text.new ≡ string_bytes text.old ++ exposition (node_families chains.now)) }
{
    push_node_states(text, chains)?;
    push_node_counts(text, chains)
}

/// Returns the figures of a server and its chains in the text format of Prometheus, version 0.0.4.
/// The names of the chains have no quotation mark, backslash or line feed, so that they stand in
/// labels as they are. Fails only when out of memory.
pub fn metrics_text(
    alloc: Global,
    server: &ServerFigures,
    chains: &[ChainFigures],
) -> Result<String, AllocError>
    ensures { IfOk result (λ text. string_bytes text ≡ exposition (families_of server.now chains.now)) }
{
    let mut text = String::new(alloc);
    push_servers(&mut text, server)?;
    push_requests(&mut text, server)?;
    push_refusals(&mut text, server)?;
    push_chains(&mut text, chains)?;
    push_all_nodes(&mut text, chains)?;
    Ok(text)
}
