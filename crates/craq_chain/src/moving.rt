//! A move before it is kept: finds its node and message, and takes its step at a node or at the
//! master; used by `chain`.
ghost use Rattle.std.specs.Prelude.{◌≡◌, ◌⊎◌, IfOk, IsSome};
ghost use Rattle.std.specs.List.{AllByRecursion};
ghost use Rattle.craq_model.specs.Encodable.{IsEncodable};
ghost use Rattle.craq_epochs.specs.Mastered.{Mastered};
ghost use Rattle.craq_runs.specs.Chain.{Chain, arrival_progress, message_at, move_progress, node_at, tick_progress};
ghost use Rattle.craq_node_invariant.specs.Sound.{AreEncodable};
ghost use Rattle.craq_chain.specs.Chained.{Finds, FindsReceiver, HasFound};
ghost use Rattle.craq_chain.specs.Parts.{AreParts, HasNode, Moves};
ghost use Rattle.craq_chain.specs.Sent.{counts_from, sent_by};

use crate::masters::{announce, join, remove};
use crate::messages::message_of;
use crate::nodes::{ask, deliver, place_of, stop, tick};
use craq_epochs::Master;
use craq_model::Step;
use craq_names::{NodeId, Refusal};
use craq_node::Core;
use craq_runs::{Move, Taken};
use std::alloc::Global;

/// Delivers the message of this number.
fn arrival<C: Core>(
    alloc: Global,
    cores: &mut Vec<C>,
    moves: &[Taken],
    sent: &[usize],
    number: u64,
) -> Result<Step, Refusal>
    requires counts { sent.now ≡ counts_from 0 moves.now }
    requires spelled { AllByRecursion IsEncodable (sent_by moves.now) }
    ensures step { (m : Mastered) (c : Chain) → AreParts C.represents cores.old.items m c → c.messages ≡ sent_by moves.now → Moves (AreParts C.represents cores.new.items m) c (FindsReceiver c (message_at c.messages number)) result (arrival_progress c (message_at c.messages number)) }
    ensures spelled { IfOk result (λ step. AreEncodable step.outs) }
{
    match message_of(moves, sent, number) {
        None => Err(Refusal::UnknownMessage),
        Some(message) => deliver(alloc, cores, message),
    }
}

/// Ticks a node, or the master as node 0: it sends its messages again.
fn repeat<C: Core>(
    alloc: Global,
    cores: &mut Vec<C>,
    master: &Master,
    id: NodeId,
) -> Result<Step, Refusal>
    ensures step { (c : Chain) → AreParts C.represents cores.old.items master.now c → Moves (AreParts C.represents cores.new.items master.now) c ((id ≡ 0) ⊎ IsSome (node_at c.nodes id)) result (tick_progress c id) }
    ensures spelled { IfOk result (λ step. AreEncodable step.outs) }
{
    if id.get() == 0 {
        announce(alloc, master)
    } else {
        tick(alloc, cores, id)
    }
}

/// Looks for the node of this id. `WrongNode` if the chain does not have it.
fn find_node<C: Core>(cores: &[C], id: NodeId) -> Result<(), Refusal>
    ensures { (m : Mastered) (c : Chain) → AreParts C.represents cores.now m c → HasNode c id result }
{
    match place_of(cores, id) {
        None => Err(Refusal::WrongNode),
        Some(_place) => Ok(()),
    }
}

/// Finds the node and the message of a move; never allocates. `UnknownMessage` for a delivery of a
/// number that was not sent, `WrongNode` if the chain never had the node; node 0 is the master.
pub(crate) fn find<C: Core>(
    cores: &[C],
    moves: &[Taken],
    sent: &[usize],
    chosen: &Move,
) -> Result<(), Refusal>
    requires { sent.now ≡ counts_from 0 moves.now }
    ensures { (m : Mastered) (c : Chain) → AreParts C.represents cores.now m c → c.messages ≡ sent_by moves.now → HasFound c chosen.now result }
{
    match chosen {
        Move::Ask { node, .. } => find_node(cores, *node),
        Move::Deliver(number) => match message_of(moves, sent, *number) {
            None => Err(Refusal::UnknownMessage),
            Some(message) => find_node(cores, message.receiver),
        },
        Move::Tick(node) if node.get() != 0 => find_node(cores, *node),
        Move::Stop(node) => find_node(cores, *node),
        _ => Ok(()),
    }
}

/// Takes a move of the chain that these parts stand for, before it is kept in the run. Refused as
/// `ChainCore::take` says, with nothing changed.
pub(crate) fn act<C: Core>(
    alloc: Global,
    cores: &mut Vec<C>,
    master: &mut Master,
    moves: &[Taken],
    sent: &[usize],
    chosen: &Move,
) -> Result<Step, Refusal>
    requires counts { sent.now ≡ counts_from 0 moves.now }
    requires spelled { AllByRecursion IsEncodable (sent_by moves.now) }
    ensures step { (c : Chain) → AreParts C.represents cores.old.items master.old c → c.messages ≡ sent_by moves.now → Moves (AreParts C.represents cores.new.items master.new) c (Finds c chosen.now) result (move_progress c chosen.now) }
    ensures spelled { IfOk result (λ step. AreEncodable step.outs) }
{
    match chosen {
        Move::Ask { node, ask: asked } => ask(alloc, cores, *node, asked),
        Move::Deliver(number) => arrival(alloc, cores, moves, sent, *number),
        Move::Tick(node) => repeat(alloc, cores, master, *node),
        Move::Stop(node) => stop(alloc, cores, *node),
        Move::Remove(node) => remove(alloc, cores.as_slice(), master, *node),
        Move::Join(node) => join(alloc, cores, master, *node),
    }
}
