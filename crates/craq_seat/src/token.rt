//! `CallToken` names the call that a completion is about; `Reach` says which nodes its caller runs.

/// Names the call that a completion is about: the key of the connection that made the call, and the
/// number of the call among that connection's calls. Of 2^64 consecutive calls of a connection no
/// two have the same number, so a completion of an earlier call is never taken for one of a later
/// call.
#[derive(Debug, Clone, Copy, PartialEq, Eq)]
pub struct CallToken {
    pub connection: usize,
    pub call: u64,
}

/// The part of a chain that a caller may run for its own call.
#[derive(Debug, Clone, Copy, PartialEq, Eq)]
pub enum Reach {
    /// The node that it asks, for a read. An update waits in the queue of its node.
    OneNode,
    /// All nodes of the chain: the caller has no other call.
    WholeChain,
    /// All nodes of the chain, once the caller has submitted its other calls too. It then has them
    /// run.
    WholeChainLater,
}
