//! `Gathering`: the parts of a state that a joining node has received so far. `Node` of
//! `craq_history` holds it.
use craq_commands::State;
use craq_names::{Items, Seq};

/// The received parts of the state after a position, at a node that is not ready.
#[derive(Debug, Drop)]
pub struct Gathering {
    pub position: Seq,
    /// The number of parts of the state.
    pub count: u32,
    /// The received parts, sorted by number.
    pub parts: Items<(u32, State)>,
}
