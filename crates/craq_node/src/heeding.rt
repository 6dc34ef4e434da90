//! The epoch test of a message. `NodeCore` calls it before the rules of messages.
ghost use Rattle.std.specs.Prelude.{◌≡◌, false};
ghost use Rattle.craq_history.specs.Nodes.{plain_of};
ghost use Rattle.craq_model.specs.Deliveries.{delivery_transition};
ghost use Rattle.craq_model.specs.Settle.{transition_ignoring};
ghost use Rattle.craq_node.specs.Admitted.{is_heeded};

use craq_history::{History, Node};
use craq_model::{Body, LinkMessage, Why};

/// Returns true exactly if a message for this node is current: it is a membership or has the node's
/// epoch. Any other message is ignored (`OtherEpoch`). Allocates nothing.
#[tactic(auto, using(crate::proofs::Ignored::not_heeded))]
pub fn is_heeded<H: History>(node: &Node<H>, message: &LinkMessage) -> bool
    ensures heeded { result ≡ is_heeded (plain_of H.past node.now) message.now }
    ensures ignored { result ≡ false → delivery_transition (plain_of H.past node.now) message.now ≡ transition_ignoring (plain_of H.past node.now) Why.OtherEpoch }
{
    if let Body::Config { .. } = &message.body {
        return true;
    }
    message.epoch == node.epoch
}
