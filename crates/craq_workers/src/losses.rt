//! `Store::losses`: the number of messages that a node lost, for people who watch a store.
ghost use Rattle.std.specs.Prelude.{◌≡◌, ◌≤◌, ◌⊎◌, ◌↔◌, length, Err, IfErr};
ghost use Rattle.craq_running_chain.specs.Missed.{IsMissed};

use crate::store::Store;
use craq_ghost_history::Named;
use craq_names::{NodeName, Refusal};
use craq_node::Core;
use craq_store_parts::Gate;
use std::sync::Wait;

impl<C: Core + Named, G: Gate> Store<C, G> {
    /// Returns the number of messages to and from a node that were lost because memory ended; those
    /// of one step count once.
    ///
    /// Refused exactly as `look` is: with `UnknownChain` exactly if the store has no such chain,
    /// else only as `IsMissed` says. No contract pins the number, since it is an atomic one: a
    /// count that stays 0 meets them too.
    pub fn losses<R: Wait>(&self, rt: &R, node: &NodeName) -> Result<u64, Refusal>
        ensures unknown { (result ≡ Err Refusal.UnknownChain) ↔ (length self.now.names ≤ node.now.chain) }
        ensures refused { IfErr result (λ e. (e ≡ Refusal.UnknownChain) ⊎ IsMissed e) }
    {
        let running = self.shared.chain(node.chain)?.node(rt, node.node)?;
        Ok(running.losses.count())
    }
}
