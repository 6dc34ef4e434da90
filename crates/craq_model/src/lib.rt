//! The types of a node's events, messages and steps; `craq_wire` and `craq_check` need no node.
//! Definitions: `specs/` defines a node's step, `node_step`; of the code only copies and tests run.
#![tactic(auto)]

mod ask;
mod config;
mod gathering;
mod message;
mod step;
mod waiting;

pub use ask::{Answer, Ask, Event};
pub use config::Config;
pub use gathering::Gathering;
pub use message::{BATCH_LIMIT, Body, GREATEST_COUNT, LinkMessage, PART_LIMIT, StatePart};
pub use step::{Out, Step, Why};
pub use waiting::{WaitingRead, WaitingUpdate};
