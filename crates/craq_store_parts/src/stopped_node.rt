//! `StoppedNode`: a node that stopped, with a token of its stop; a removal needs it.
ghost use Rattle.std.specs.Prelude.{◌≡◌};
ghost use Rattle.craq_causality.specs.Causal.{HasStopped};
ghost use Rattle.craq_store_history.specs.Entries.{lines_in};

use crate::StoreToken;
use craq_epochs::StopReceipt;
use craq_ghost_history::Named;
use craq_names::NodeName;
use craq_seat::Receipt;
use std::marker::Model;

/// A node that stopped: the proof that it did, the receipt of the step in which it did, and a token
/// that has seen that step.
#[derive(Drop)]
pub struct StoppedNode<N: Named> {
    stopped: StopReceipt,
    stop: Receipt,
    token: StoreToken<N>,
}

impl<N: Named> Model for StoppedNode<N> {
    ghost use Rattle.craq_causality.specs.Causal.{HasStopped};
    ghost use Rattle.craq_store_history.specs.Entries.{lines_in};
    ghost use Rattle.craq_store_parts.specs.Recorded.{Stopping};

    ghost Value = { Stopping };

    ghost view = { λ s. record { stopped = s.stopped; stop = s.stop } };

    ghost invariant = { λ s. HasStopped (lines_in s.stopped.chain s.token) s.stopped s.stop };
}

impl<N: Named> StoppedNode<N> {
    /// Makes the value of a node that stopped in the token's history.
    pub fn new(stopped: StopReceipt, stop: Receipt, token: StoreToken<N>) -> Self
        requires { HasStopped (lines_in stopped.chain token) stopped stop }
        ensures { result ≡ record { stopped = stopped; stop = stop } }
    {
        StoppedNode {
            stopped,
            stop,
            token,
        }
    }

    /// Returns the name of the node.
    pub fn name(&self) -> NodeName
        ensures { result ≡ self.now.stopped }
    {
        self.stopped.name()
    }

    /// Returns the proof, the receipt, and the token.
    pub fn into_parts(self) -> (StopReceipt, Receipt, StoreToken<N>)
        ensures stopped { result.0 ≡ self.stopped }
        ensures stop { result.1 ≡ self.stop }
        ensures seen { HasStopped (lines_in self.stopped.chain result.2) self.stopped self.stop }
    {
        let StoppedNode {
            stopped,
            stop,
            token,
        } = self;
        (stopped, stop, token)
    }
}
