//! `Store::look`: reads a node's core by a function, for people who watch a store.
ghost use Rattle.std.specs.Prelude.{◌≡◌, ◌≤◌, ◌⊎◌, ◌↔◌, length, Err, IfErr, IfOk};
ghost use Rattle.std.specs.Fn.{FnOnceReturnsAt};
ghost use Rattle.craq_running_chain.specs.Missed.{IsMissed};

use crate::store::Store;
use craq_ghost_history::Named;
use craq_names::{NodeName, Refusal};
use craq_node::Core;
use craq_running_node::RunningNode;
use craq_store_parts::Gate;
use std::sync::Wait;

/// Returns what a function tells of the core that a node has now.
fn look_at<R, C, T, F>(rt: &R, node: &RunningNode<C>, tell: F) -> T
where
    R: Wait,
    C: Core + Named,
    F: FnOnce(&C) -> T,
    requires { F.IsAlwaysCallable tell }
    ensures { (core : C) × FnOnceReturnsAt F.FnOnce tell core result }
{
    let seated = node.lock(rt);
    tell(seated.desk.cell().core())
}

impl<C: Core + Named, G: Gate> Store<C, G> {
    /// Returns what a function tells of a node: of a core that the node had during the call. The
    /// function is called under the node's lock, and the node waits for it.
    ///
    /// Refused with `UnknownChain` exactly if the store has no such chain; with `WrongNode` if the
    /// chain never had the node, `Stopped` if it was removed and dropped, and `Memory` when out of
    /// memory. `Closed` never comes, since `close` takes the store.
    pub fn look<R, T, F>(&self, rt: &R, node: &NodeName, tell: F) -> Result<T, Refusal>
    where
        R: Wait,
        F: FnOnce(&C) -> T + Drop,
        requires { F.IsAlwaysCallable tell }
        ensures unknown { (result ≡ Err Refusal.UnknownChain) ↔ (length self.now.names ≤ node.now.chain) }
        ensures refused { IfErr result (λ e. (e ≡ Refusal.UnknownChain) ⊎ IsMissed e) }
        ensures told { IfOk result (λ told. (core : C) × FnOnceReturnsAt F.FnOnce tell core told) }
    {
        let running = self.shared.chain(node.chain)?.node(rt, node.node)?;
        Ok(look_at(rt, &running, tell))
    }
}
