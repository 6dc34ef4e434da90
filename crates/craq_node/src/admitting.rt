//! Admission of an event at a node, before any rule applies. `NodeCore` calls this first.
ghost use Rattle.std.specs.Prelude.{◌≡◌};
ghost use Rattle.craq_history.specs.Nodes.{plain_of};
ghost use Rattle.craq_node.specs.Admitted.{Admits, AdmitsAsk};

use craq_epochs::Switch;
use craq_history::members::first_member;
use craq_history::{History, Node};
use craq_model::{Ask, Event};
use craq_names::Refusal;

/// Returns the refusal of a request at a running node, if there is one.
#[tactic(auto, unfolding(craq_model::specs::Asks::ask_transition, craq_commands::specs::Evaluation::all_of_chain))]
fn admit_ask<H: History>(node: &Node<H>, ask: &Ask) -> Result<(), Refusal>
    ensures { AdmitsAsk (plain_of H.past node.now) ask.now result }
{
    if !node.ready {
        return Err(Refusal::NotReady);
    }
    match ask {
        Ask::Update(update) => {
            if !update.command.is_of_chain(node.name.chain) {
                return Err(Refusal::TwoChains);
            }
            let head = first_member(node.members.as_slice());
            if head != node.name.node {
                return Err(Refusal::NotHead(head));
            }
        }
        Ask::Read { object, .. } => {
            if object.chain != node.name.chain {
                return Err(Refusal::TwoChains);
            }
        }
    }
    if node.last_ticket.get() == u64::MAX {
        return Err(Refusal::Exhausted);
    }
    Ok(())
}

/// Admits or refuses an event. Allocates nothing.
///
/// The errors, in order: `Stopped` at a stopped node; `WrongNode` for a message to another node or
/// chain. For a request: `NotReady` at a node that is not ready; `TwoChains` if an object is of
/// another chain; for an update `NotHead` at a node that is not first in its membership;
/// `Exhausted` if there is no next ticket.
pub fn admit<H: History>(node: &Node<H>, switch: &Switch, event: &Event) -> Result<(), Refusal>
    ensures { Admits (record (plain_of H.past node.now) { running = switch.now.running }) event.now result }
{
    if switch.receipt().is_some() {
        return Err(Refusal::Stopped);
    }
    match event {
        Event::Ask(ask) => admit_ask(node, ask),
        Event::Deliver(message) => {
            if message.chain != node.name.chain || message.receiver != node.name.node {
                return Err(Refusal::WrongNode);
            }
            Ok(())
        }
        Event::Tick | Event::Stop => Ok(()),
    }
}
