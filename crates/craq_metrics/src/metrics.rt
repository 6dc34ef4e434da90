//! The metrics: their names, helps, kinds and values; for `exposition`.
ghost use Rattle.std.specs.Prelude.{◌≡◌};
ghost use Rattle.craq_metrics.specs.Metrics.{kind_name, server_name, server_help, server_kind, server_value, count_name, count_help, chain_name, chain_help, chain_value, node_name, node_help, node_kind, node_value, bit};

use crate::{ChainFigures, NodeFigures, ServerFigures};

/// The kind of a metric.
#[derive(Clone, Copy, Debug, PartialEq, Eq)]
pub(crate) enum MetricKind {
    /// It never falls while the server runs.
    Counter,
    /// It rises and falls.
    Gauge,
}

impl MetricKind {
    /// Returns the word for the kind.
    pub(crate) const fn name(self) -> &'static str
        ensures { result.now ≡ kind_name self }
    {
        match self {
            MetricKind::Counter => "counter",
            MetricKind::Gauge => "gauge",
        }
    }
}

/// A metric of a server that has one value.
#[derive(Clone, Copy, Debug, PartialEq, Eq)]
pub(crate) enum ServerMetric {
    Uptime,
    Open,
    Accepted,
    TurnedAway,
    ReadBytes,
    WrittenBytes,
}

impl ServerMetric {
    /// Returns its name.
    pub(crate) const fn name(self) -> &'static str
        ensures { result.now ≡ server_name self }
    {
        match self {
            ServerMetric::Uptime => "craqd_uptime_seconds",
            ServerMetric::Open => "craqd_open_connections",
            ServerMetric::Accepted => "craqd_connections_total",
            ServerMetric::TurnedAway => "craqd_turned_away_total",
            ServerMetric::ReadBytes => "craqd_read_bytes_total",
            ServerMetric::WrittenBytes => "craqd_written_bytes_total",
        }
    }

    /// Returns its help.
    pub(crate) const fn help(self) -> &'static str
        ensures { result.now ≡ server_help self }
    {
        match self {
            ServerMetric::Uptime => "Seconds since the start.",
            ServerMetric::Open => "Open connections of clients.",
            ServerMetric::Accepted => "Connections accepted.",
            ServerMetric::TurnedAway => "Connections closed because no place was free.",
            ServerMetric::ReadBytes => "Bytes read from clients.",
            ServerMetric::WrittenBytes => "Bytes written to clients.",
        }
    }

    /// Returns its kind.
    pub(crate) const fn kind(self) -> MetricKind
        ensures { result ≡ server_kind self }
    {
        match self {
            ServerMetric::Uptime | ServerMetric::Open => MetricKind::Gauge,
            ServerMetric::Accepted | ServerMetric::TurnedAway => MetricKind::Counter,
            ServerMetric::ReadBytes | ServerMetric::WrittenBytes => MetricKind::Counter,
        }
    }

    /// Returns its value.
    pub(crate) const fn value(self, server: &ServerFigures) -> u64
        ensures { result ≡ server_value server.now self }
    {
        match self {
            ServerMetric::Uptime => server.uptime,
            ServerMetric::Open => server.open_connections,
            ServerMetric::Accepted => server.accepted,
            ServerMetric::TurnedAway => server.turned_away,
            ServerMetric::ReadBytes => server.read_bytes,
            ServerMetric::WrittenBytes => server.written_bytes,
        }
    }
}

/// A metric of a server that has a value for each kind or number.
#[derive(Clone, Copy, Debug, PartialEq, Eq)]
pub(crate) enum CountMetric {
    Requests,
    Refusals,
}

impl CountMetric {
    /// Returns its name.
    pub(crate) const fn name(self) -> &'static str
        ensures { result.now ≡ count_name self }
    {
        match self {
            CountMetric::Requests => "craqd_requests_total",
            CountMetric::Refusals => "craqd_refusals_total",
        }
    }

    /// Returns its help.
    pub(crate) const fn help(self) -> &'static str
        ensures { result.now ≡ count_help self }
    {
        match self {
            CountMetric::Requests => "Requests, by kind.",
            CountMetric::Refusals =>
                "Refused requests, and frames that are none, by the refusal's number.",
        }
    }
}

/// A metric of each chain.
#[derive(Clone, Copy, Debug, PartialEq, Eq)]
pub(crate) enum ChainMetric {
    Epoch,
    Members,
}

impl ChainMetric {
    /// Returns its name.
    pub(crate) const fn name(self) -> &'static str
        ensures { result.now ≡ chain_name self }
    {
        match self {
            ChainMetric::Epoch => "craqd_chain_epoch",
            ChainMetric::Members => "craqd_chain_members",
        }
    }

    /// Returns its help.
    pub(crate) const fn help(self) -> &'static str
        ensures { result.now ≡ chain_help self }
    {
        match self {
            ChainMetric::Epoch => "The epoch of the membership.",
            ChainMetric::Members => "Members of the chain.",
        }
    }

    /// Returns its value.
    pub(crate) fn value(self, chain: &ChainFigures) -> u64
        ensures { result ≡ chain_value chain.now self }
    {
        match self {
            ChainMetric::Epoch => chain.epoch,
            ChainMetric::Members => chain.nodes.len() as u64,
        }
    }
}

/// A metric of each node.
#[derive(Clone, Copy, Debug, PartialEq, Eq)]
pub(crate) enum NodeMetric {
    Ready,
    Running,
    Length,
    Committed,
    Waiting,
    Objects,
    Bytes,
    Lost,
}

/// Returns 1 for true and 0 for false.
const fn bit(is: bool) -> u64
    ensures { result ≡ bit is }
{
    if is { 1 } else { 0 }
}

impl NodeMetric {
    /// Returns its name.
    pub(crate) const fn name(self) -> &'static str
        ensures { result.now ≡ node_name self }
    {
        match self {
            NodeMetric::Ready => "craqd_node_ready",
            NodeMetric::Running => "craqd_node_running",
            NodeMetric::Length => "craqd_node_entries",
            NodeMetric::Committed => "craqd_node_committed_entries",
            NodeMetric::Waiting => "craqd_node_waiting_requests",
            NodeMetric::Objects => "craqd_node_objects",
            NodeMetric::Bytes => "craqd_node_bytes",
            NodeMetric::Lost => "craqd_node_lost_messages_total",
        }
    }

    /// Returns its help.
    pub(crate) const fn help(self) -> &'static str
        ensures { result.now ≡ node_help self }
    {
        match self {
            NodeMetric::Ready => "1 if the node holds its chain's history.",
            NodeMetric::Running => "1 if the node is not stopped.",
            NodeMetric::Length => "Entries of the node's history.",
            NodeMetric::Committed => "Entries that the node knows to be committed.",
            NodeMetric::Waiting => "Requests that wait at the node.",
            NodeMetric::Objects => "Objects that the node holds.",
            NodeMetric::Bytes => "Bytes of the keys and values that the node holds.",
            NodeMetric::Lost => "Messages at the node that were lost because memory ended.",
        }
    }

    /// Returns its value.
    pub(crate) const fn value(self, node: &NodeFigures) -> u64
        ensures { result ≡ node_value node.now self }
    {
        match self {
            NodeMetric::Ready => bit(node.is_ready),
            NodeMetric::Running => bit(node.is_running),
            NodeMetric::Length => node.length,
            NodeMetric::Committed => node.committed,
            NodeMetric::Waiting => node.waiting,
            NodeMetric::Objects => node.objects,
            NodeMetric::Bytes => node.bytes,
            NodeMetric::Lost => node.lost,
        }
    }

    /// Returns its kind.
    pub(crate) const fn kind(self) -> MetricKind
        ensures { result ≡ node_kind self }
    {
        match self {
            NodeMetric::Lost => MetricKind::Counter,
            _ => MetricKind::Gauge,
        }
    }
}
