//! Defines the modes in which a script is played by calls; called by `refused`.
use super::histories::Kept;
use super::rows::Row;
use super::teller::Teller;
use super::{audits, connections, messages, steps, stores, worlds};
use craq_names::Refusal;
use craq_node::Core;
use std::sync::Wait;
use std::thread::Threads;

/// The calls that are made.
#[derive(Clone, Copy)]
pub enum Way {
    /// Makes `World::take` for each move, and `World::explain` at the end.
    Worlds,
    /// Makes `World::run` for all moves at once.
    Runs,
    /// Makes `Core::step` for every event of each node.
    Steps,
    /// Makes `Desk::take` for every event of each node.
    Desks,
    /// Makes `audit` of the nodes that took the moves.
    Audits,
    /// Makes `decode` for all messages between nodes.
    Decodes,
    /// Makes the decoders of payloads for the requests of clients and for their replies.
    Payloads,
    /// Makes `Plan::read` for the configuration of the members.
    Plans,
    /// Makes `serve` for a connection with the requests.
    Serves,
    /// Makes `Store::start` with the members, and `Store::join` of one more; each node has threads
    /// of its own.
    Stores,
    /// Makes `Store::start` with the members, and `Store::join` of one more; one chain thread runs
    /// the store.
    ChainThread,
}

/// All modes.
pub const WAYS: [Way; 11] = [
    Way::Worlds,
    Way::Runs,
    Way::Steps,
    Way::Desks,
    Way::Audits,
    Way::Decodes,
    Way::Payloads,
    Way::Plans,
    Way::Serves,
    Way::Stores,
    Way::ChainThread,
];

impl Way {
    /// Returns the word of the mode.
    pub const fn word(self) -> &'static str {
        match self {
            Way::Worlds => "worlds",
            Way::Runs => "runs",
            Way::Steps => "steps",
            Way::Desks => "desks",
            Way::Audits => "audits",
            Way::Decodes => "decodes",
            Way::Payloads => "payloads",
            Way::Plans => "plans",
            Way::Serves => "serves",
            Way::Stores => "stores",
            Way::ChainThread => "carried",
        }
    }
}

/// Plays a script in one mode, and prints the results of the calls.
pub fn play<C, R>(rt: R, teller: Teller, way: Way, row: &Row) -> Result<(), Refusal>
where
    C: Core + Kept + Send + 'static,
    R: Threads + Wait + Copy + Send + 'static,
{
    match way {
        Way::Worlds => worlds::play::<C>(teller, row),
        Way::Runs => {
            worlds::play_at_once::<C>(teller, row);
            Ok(())
        }
        Way::Steps => steps::play::<C, R>(&rt, teller, row, false),
        Way::Desks => steps::play::<C, R>(&rt, teller, row, true),
        Way::Audits => audits::play::<C, R>(&rt, teller, row),
        Way::Decodes => messages::play::<C>(teller, row),
        Way::Payloads => messages::play_payloads::<C, R>(&rt, teller, row),
        Way::Plans => {
            messages::play_plan(teller, row);
            Ok(())
        }
        Way::Serves => {
            connections::play(teller, row);
            Ok(())
        }
        Way::Stores => stores::play::<C, R>(rt, teller, row, false),
        Way::ChainThread => stores::play::<C, R>(rt, teller, row, true),
    }
}
