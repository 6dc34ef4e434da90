//! `Change`: the changes that a step makes to a node. The rules of `craq_read` and `craq_write`
//! compute it, and `Node::apply` applies it.
ghost use Rattle.std.specs.Prelude.{◌≡◌};

use craq_commands::{Entry, State};
use craq_model::{Config, StatePart, WaitingRead, WaitingUpdate};
use craq_names::{Items, Seq, Ticket};

/// A step's change of a node's history.
#[derive(Debug, Drop)]
pub enum HistoryChange {
    /// The history is unchanged.
    Stays,
    /// These entries are appended.
    Grows(Items<Entry>),
    /// The state after a position replaces the history.
    IsCopied { position: Seq, state: State },
}

/// A step's change of the parts that a node gathers.
#[derive(Debug, Drop)]
pub enum GatheringChange {
    /// The parts are unchanged.
    Stays,
    /// One more part is kept, in a new gathering if its position is later.
    Gains(StatePart),
    /// They are dropped.
    Dropped,
}

/// A step's change of the waiting requests.
#[derive(Debug, Drop)]
pub enum WaitingChange {
    /// The waiting requests are unchanged.
    Same,
    /// One more update waits.
    OneUpdate(WaitingUpdate),
    /// One more read waits.
    OneRead(WaitingRead),
    /// The updates up to the position no longer wait.
    UpdatesAnswered(Seq),
    /// The read of the ticket no longer waits.
    ReadAnswered(Ticket),
    /// No request waits any more.
    AllAnswered,
}

/// The changes that a step makes to a node. They are computed first, and applied once nothing can
/// refuse the step.
#[derive(Debug, Drop)]
pub struct Change {
    /// True if a request was accepted; it takes the next ticket.
    pub accepted: bool,
    /// The membership to adopt, if there is one; it drops the floor.
    pub membership: Option<Config>,
    /// The change of the history.
    pub history: HistoryChange,
    /// The change of the gathered parts. One is gained only if the history is unchanged.
    pub gathering: GatheringChange,
    /// The new commit index, if it changes.
    pub acknowledged: Option<Seq>,
    /// The new floor, if there is one.
    pub floor: Option<Seq>,
    /// True if the node becomes ready.
    pub becomes_ready: bool,
    /// The change of the waiting requests.
    pub waiting: WaitingChange,
}

impl Change {
    ghost use Rattle.craq_history.specs.Change.{no_change};

    /// Returns the change that changes nothing.
    pub fn none() -> Self
        ensures { result ≡ no_change }
    {
        Change {
            accepted: false,
            membership: None,
            history: HistoryChange::Stays,
            gathering: GatheringChange::Stays,
            acknowledged: None,
            floor: None,
            becomes_ready: false,
            waiting: WaitingChange::Same,
        }
    }
}
