//! Figures of a server, of its chains and of their nodes, as values; made by `craqd`, printed by
//! this crate.

/// The number of refusals, which are numbered from 1.
pub const REFUSALS: usize = 28;

/// Figures of a server. Counts begin at 0 when it starts, and stop at 2^64 - 1.
#[derive(Clone, Copy, Debug)]
pub struct ServerFigures {
    /// The seconds since it started.
    pub uptime: u64,
    /// The number of open connections.
    pub open_connections: u64,
    /// The number of connections that it accepted, those included that have ended.
    pub accepted: u64,
    /// The number of connections that it closed at once, because no place was free.
    pub turned_away: u64,
    /// The number of updates that were sent to nodes.
    pub updates: u64,
    /// The number of reads that were sent to nodes.
    pub reads: u64,
    /// The number of requests for the status.
    pub statuses: u64,
    /// The number of refused updates and reads, and of refused frames that are none, by the
    /// refusal's number, from 1.
    pub refused: [u64; REFUSALS],
    /// The number of bytes that came from clients.
    pub read_bytes: u64,
    /// The number of bytes that were written to clients.
    pub written_bytes: u64,
}

/// Figures of a node.
#[derive(Clone, Copy, Debug)]
pub struct NodeFigures {
    /// The node's id.
    pub node: u32,
    /// True if it holds its chain's history.
    pub is_ready: bool,
    /// True if it is not stopped.
    pub is_running: bool,
    /// The number of entries of its history.
    pub length: u64,
    /// Its commit index.
    pub committed: u64,
    /// The number of requests that wait at it.
    pub waiting: u64,
    /// The number of objects that it holds.
    pub objects: u64,
    /// The number of bytes of the keys and values that it holds.
    pub bytes: u64,
    /// The number of messages to and from it that were lost because memory ended.
    pub lost: u64,
}

/// Figures of a chain.
#[derive(Debug, Drop)]
pub struct ChainFigures {
    pub name: String,
    /// The epoch of its membership.
    pub epoch: u64,
    /// Its members, the head first.
    pub nodes: Vec<NodeFigures>,
}
