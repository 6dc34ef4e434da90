//! The requests that wait at a node: updates for the commit of their entry, reads for the tail's
//! version. `Node` holds them.
use craq_commands::Reply;
use craq_names::{Key, Seq, Ticket};

/// An update without a reply so far. It gets the reply once the history is committed up to the
/// position.
#[derive(Debug, Drop)]
pub struct WaitingUpdate {
    pub ticket: Ticket,
    pub position: Seq,
    pub reply: Reply,
}

/// A strong read that waits for the tail's version.
#[derive(Debug, Drop)]
pub struct WaitingRead {
    pub ticket: Ticket,
    pub key: Key,
}
