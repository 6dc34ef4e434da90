//! The result of `audit`; used by `craq_workers`, `craqd` and `craq_embedding`.
use craq_names::NodeId;
use craq_runs::Run;

/// The finding of an audit.
#[derive(Debug, Drop)]
pub enum Audit {
    /// The steps of all cells, by stamp and, under one stamp, by node: a run of the chain.
    Merged(Run),
    /// A delivery of a message that is not in its sender's journal: the receiving node, and the
    /// delivery's index in that node's journal, from 0.
    NoSender(NodeId, u64),
    /// A call receipt whose request or reply is not in its node's journal: its index among the
    /// receipts, from 0.
    NoReceipt(u64),
}
