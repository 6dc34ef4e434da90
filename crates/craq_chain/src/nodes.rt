//! Events at one node of a chain: requests, deliveries, ticks, stops; used by `moving`.
ghost use Rattle.std.specs.Prelude.{◌≡◌, ◌<◌, ℕ, List, Some, IfOk, IfSome, IsSome, length, vec_len};
ghost use Rattle.std.specs.List.{AllZip};
ghost use Rattle.craq_model.specs.Plain.{Plain};
ghost use Rattle.craq_model.specs.Encodable.{IsEncodable};
ghost use Rattle.craq_runs.specs.Chain.{Chain, node_at, node_progress};
ghost use Rattle.craq_epochs.specs.Mastered.{Mastered};
ghost use Rattle.craq_node.specs.Represented.{CanArrive};
ghost use Rattle.craq_node_invariant.specs.Sound.{AreEncodable};
ghost use Rattle.craq_chain.specs.Parts.{AreParts, Moves, place_from};

use craq_model::{Ask, Event, LinkMessage, Step};
use craq_names::{Copied, NodeId, Refusal};
use craq_node::Core;
use std::alloc::Global;

/// Returns the index of the node of this id among the cores. Never allocates.
pub(crate) fn place_of<C: Core>(cores: &[C], id: NodeId) -> Option<usize>
    ensures place { (ps : List Plain) → AllZip C.represents cores.now ps → result ≡ place_from 0 ps id }
    ensures within { IfSome result (λ i. i < length cores.now) }
{
    for (place, core) in cores.iter().enumerate() {
        if core.switch().name().node == id {
            return Some(place);
        }
    }
    None
}

/// Applies an event to the node in this place.
fn step_at<C: Core>(
    alloc: Global,
    cores: &mut Vec<C>,
    place: usize,
    event: Event,
) -> Result<Step, Refusal>
    requires arrives { CanArrive event }
    requires within { place < vec_len cores.old }
    ensures step { (m : Mastered) (c : Chain) (id : ℕ) → AreParts C.represents cores.old.items m c → place_from 0 c.nodes id ≡ Some place → Moves (AreParts C.represents cores.new.items m) c (IsSome (node_at c.nodes id)) result (node_progress c (node_at c.nodes id) event) }
    ensures spelled { IfOk result (λ step. AreEncodable step.outs) }
{
    cores[place].step(alloc, event)
}

/// Applies a client's request to the node of this id. `WrongNode` if there is none; else refused as
/// the node's own step.
#[tactic(auto, using(crate::proofs::Steps::unknown))]
pub(crate) fn ask<C: Core>(
    alloc: Global,
    cores: &mut Vec<C>,
    id: NodeId,
    asked: &Ask,
) -> Result<Step, Refusal>
    ensures step { (m : Mastered) (c : Chain) → AreParts C.represents cores.old.items m c → Moves (AreParts C.represents cores.new.items m) c (IsSome (node_at c.nodes id)) result (node_progress c (node_at c.nodes id) (Event.Ask asked.now)) }
    ensures spelled { IfOk result (λ step. AreEncodable step.outs) }
{
    match place_of(cores.as_slice(), id) {
        None => Err(Refusal::WrongNode),
        Some(place) => step_at(alloc, cores, place, Event::Ask(asked.copied(alloc)?)),
    }
}

/// Delivers a message to its receiver. `WrongNode` if there is no such node; else refused as the
/// node's own step.
#[tactic(auto, using(crate::proofs::Steps::unknown))]
pub(crate) fn deliver<C: Core>(
    alloc: Global,
    cores: &mut Vec<C>,
    message: &LinkMessage,
) -> Result<Step, Refusal>
    requires { IsEncodable message.now }
    ensures step { (m : Mastered) (c : Chain) → AreParts C.represents cores.old.items m c → Moves (AreParts C.represents cores.new.items m) c (IsSome (node_at c.nodes message.now.receiver)) result (node_progress c (node_at c.nodes message.now.receiver) (Event.Deliver message.now)) }
    ensures spelled { IfOk result (λ step. AreEncodable step.outs) }
{
    match place_of(cores.as_slice(), message.receiver) {
        None => Err(Refusal::WrongNode),
        Some(place) => step_at(alloc, cores, place, Event::Deliver(message.copied(alloc)?)),
    }
}

/// Ticks the node of this id: it sends its messages again. `WrongNode` if there is none; else
/// refused as its own step.
#[tactic(auto, using(crate::proofs::Steps::unknown))]
pub(crate) fn tick<C: Core>(alloc: Global, cores: &mut Vec<C>, id: NodeId) -> Result<Step, Refusal>
    ensures step { (m : Mastered) (c : Chain) → AreParts C.represents cores.old.items m c → Moves (AreParts C.represents cores.new.items m) c (IsSome (node_at c.nodes id)) result (node_progress c (node_at c.nodes id) Event.Tick) }
    ensures spelled { IfOk result (λ step. AreEncodable step.outs) }
{
    match place_of(cores.as_slice(), id) {
        None => Err(Refusal::WrongNode),
        Some(place) => step_at(alloc, cores, place, Event::Tick),
    }
}

/// Stops the node of this id. `WrongNode` if there is none; else refused as the node's own step.
#[tactic(auto, using(crate::proofs::Steps::unknown))]
pub(crate) fn stop<C: Core>(alloc: Global, cores: &mut Vec<C>, id: NodeId) -> Result<Step, Refusal>
    ensures step { (m : Mastered) (c : Chain) → AreParts C.represents cores.old.items m c → Moves (AreParts C.represents cores.new.items m) c (IsSome (node_at c.nodes id)) result (node_progress c (node_at c.nodes id) Event.Stop) }
    ensures spelled { IfOk result (λ step. AreEncodable step.outs) }
{
    match place_of(cores.as_slice(), id) {
        None => Err(Refusal::WrongNode),
        Some(place) => step_at(alloc, cores, place, Event::Stop),
    }
}
