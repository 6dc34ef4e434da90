//! Defines `PlainCore`, the node that keeps its whole history; for `craq_lab` with `--core plain`,
//! and for tests.
use craq_full_history::FullHistory;
use craq_node::NodeCore;

/// A node that keeps its whole history as a list of entries.
pub type PlainCore = NodeCore<FullHistory>;
