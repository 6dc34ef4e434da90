//! `Switch`: the running state of a node, and the receipt of its stop. A `Core` has the switch,
//! `master` requires the receipt.
ghost use Rattle.std.specs.Prelude.{◌≡◌, true, false, Ok, Err, Some, None, if◌then◌else◌};

use craq_names::{NodeName, Refusal};
use std::marker::Model;

/// Evidence that a node has stopped. Only a stopped `Switch` makes one; contracts see it as the
/// name of the switch's node.
#[derive(Clone, Copy, Debug, PartialEq, Eq)]
pub struct StopReceipt {
    stopped: NodeName,
}

impl Model for StopReceipt {
    ghost use Rattle.craq_names.specs.declared.name.NodeName.{NodeName};

    ghost Value = { NodeName };

    ghost view = { λ r. r.stopped };

    ghost inverse = { λ n. record { stopped = n } };
}

impl StopReceipt {
    /// Returns the name of the stopped node.
    pub const fn name(self) -> NodeName
        ensures { result ≡ self }
    {
        self.stopped
    }
}

/// The running state of a node. A stopped switch stays stopped (fail-stop servers, as in the OSDI
/// 2004 paper).
#[derive(Debug, Drop)]
pub struct Switch {
    name: NodeName,
    running: bool,
}

impl Model for Switch {
    ghost use Rattle.craq_epochs.specs.Switched.{Switched};

    ghost Value = { Switched };

    ghost view = { λ s. record { name = s.name; running = s.running } };
}

impl Switch {
    /// Returns the switch of a running node. Allocates nothing.
    pub const fn on(name: NodeName) -> Self
        ensures { result ≡ record { name = name; running = true } }
    {
        Switch {
            name,
            running: true,
        }
    }

    /// Returns the node's name.
    pub const fn name(&self) -> NodeName
        ensures { result ≡ self.now.name }
    {
        self.name
    }

    /// Stops the node and returns the receipt. Returns `Stopped` exactly if it was stopped before.
    /// The switch is stopped after the call in either case. Allocates nothing.
    pub fn stop(&mut self) -> Result<StopReceipt, Refusal>
        ensures receipt { result ≡ (if self.old.running then Ok self.old.name else Err Refusal.Stopped) }
        ensures stopped { self.new ≡ record self.old { running = false } }
    {
        if !self.running {
            return Err(Refusal::Stopped);
        }
        self.running = false;
        Ok(StopReceipt { stopped: self.name })
    }

    /// Returns the receipt of the stop, `None` if the switch is not stopped. Allocates nothing.
    pub fn receipt(&self) -> Option<StopReceipt>
        ensures { result ≡ (if self.now.running then None else Some self.now.name) }
    {
        if self.running {
            None
        } else {
            Some(StopReceipt { stopped: self.name })
        }
    }
}
