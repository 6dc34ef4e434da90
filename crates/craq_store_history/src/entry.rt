//! `HistoryEntry`: an event of a store, as its history has it. It exists in the proofs alone, except ids
//! and numbers.
use craq_model::{Ask, Event, Step};
use craq_names::{ChainId, Items, NodeId, NodeName, Pass, Stamp};
use craq_seat::BookEvent;
use std::snapshot::Snapshot;

/// Names a call: the session of the client, and the number of the call in it.
#[derive(Clone, Copy, Debug, PartialEq, Eq)]
pub struct CallId {
    pub client: u64,
    pub number: u64,
}

/// Something that happens in a store.
#[derive(Drop)]
pub enum HistoryEntry {
    /// A chain is opened with these first members. Its master adds the entry.
    ChainOpened {
        chain: ChainId,
        members: Snapshot<Items<NodeId>>,
    },
    /// A client asks a node.
    ClientCall {
        call: CallId,
        name: NodeName,
        ask: Snapshot<Ask>,
    },
    /// A node takes a step; it accepts the call, if there is one.
    NodeStep {
        name: NodeName,
        stamp: Stamp,
        event: Snapshot<Event>,
        pass: Pass,
        step: Snapshot<Step>,
        call: Option<CallId>,
    },
    /// The master of a chain takes a step.
    MasterStep {
        chain: ChainId,
        stamp: Stamp,
        event: BookEvent,
        pass: Pass,
        step: Snapshot<Step>,
    },
    /// A client takes a call back: no step has accepted it, and none will.
    CallTakenBack {
        call: CallId,
    },
}
