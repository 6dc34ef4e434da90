//! Adopting a membership, and the sends that a node repeats in it. `craq_node` calls this.
ghost use Rattle.std.specs.Prelude.{◌≡◌, ◌&&◌, ◌==◌, ◌++◌, true, false, Some, OnOk, OnErr, IfOk, IsOk, IsSome};
ghost use Rattle.craq_model.specs.Deliveries.{config_transition};
ghost use Rattle.craq_model.specs.Members.{last_of};
ghost use Rattle.craq_model.specs.Sends.{tick_sends};
ghost use Rattle.craq_model.specs.Settle.{all_committed, settling_transition};
ghost use Rattle.craq_history.specs.Nodes.{plain_of};
ghost use Rattle.craq_history.specs.Effects.{IsEffectOf};
ghost use Rattle.craq_write.specs.Settling.{in_membership};

use crate::answers::answer_all;
use craq_history::members::{is_member_of, last_member};
use craq_history::outs::{PendingSends, Sender, add_ready_outs, add_unready_outs};
use craq_history::steps::{done, ignoring};
use craq_history::{Change, GatheringChange, History, Node, WaitingChange};
use craq_model::{Config, Out, Step, Why};
use craq_names::{Epoch, Items, NodeId, Seq};
use std::alloc::{AllocError, Global};

/// Adds the sends that a node repeats in this membership. The outs are unchanged on error.
#[tactic(auto, unfolding(craq_model::specs::Sends::tick_sends, craq_model::specs::Sends::ready_sends, craq_model::specs::Sends::unready_sends, craq_model::specs::Sends::catch_up, craq_model::specs::Plain::entries_after))]
fn add_outs_in<H: History>(
    outs: &mut Vec<Out>,
    alloc: Global,
    node: &Node<H>,
    epoch: Epoch,
    members: &[NodeId],
) -> Result<(), AllocError>
    ensures sent { OnOk result (outs.new.items ≡ outs.old.items ++ tick_sends (in_membership (plain_of H.past node.now) epoch members.now)) }
    ensures same { OnErr result (outs.new.items ≡ outs.old.items) }
{
    if epoch.get() == 0 {
        return Ok(());
    }
    let sender = Sender {
        name: node.name,
        epoch,
    };
    if !node.ready {
        return add_unready_outs(outs, &sender, members, node.history.len());
    }
    let acknowledged = node.history.acknowledged();
    let pending = PendingSends {
        held: node.history.after(acknowledged),
        appended: &[],
        length: Seq::new(node.history.len()),
        acknowledged: Seq::new(acknowledged),
        reads: node.waiting_reads.as_slice(),
    };
    add_ready_outs(outs, alloc, &sender, members, &pending)
}

/// Adds the sends of a tick: an unready node sends its entry count to its predecessor, a ready one
/// repeats its pending sends, and a node without a membership sends nothing. Fails only when out of
/// memory; the outs are unchanged on error.
#[tactic(auto, unfolding(craq_model::specs::Sends::tick_sends, craq_model::specs::Sends::ready_sends, craq_model::specs::Sends::unready_sends, craq_model::specs::Sends::catch_up, craq_model::specs::Plain::entries_after))]
pub fn add_tick_outs<H: History>(
    outs: &mut Vec<Out>,
    alloc: Global,
    node: &Node<H>,
) -> Result<(), AllocError>
    ensures sent { OnOk result (outs.new.items ≡ outs.old.items ++ tick_sends (plain_of H.past node.now)) }
    ensures same { OnErr result (outs.new.items ≡ outs.old.items) }
{
    add_outs_in(outs, alloc, node, node.epoch, node.members.as_slice())
}

/// Adds the sends that a tail repeats in this membership after it committed all its entries.
#[tactic(auto, using(crate::proofs::Ends::nothing_after_all), unfolding(craq_model::specs::Sends::tick_sends, craq_model::specs::Sends::ready_sends, craq_model::specs::Sends::catch_up, craq_model::specs::Plain::entries_after))]
fn add_tail_outs<H: History>(
    outs: &mut Vec<Out>,
    alloc: Global,
    node: &Node<H>,
    epoch: Epoch,
    members: &[NodeId],
) -> Result<(), AllocError>
    requires ready { node.now.ready ≡ true }
    requires last { last_of members.now ≡ node.now.name.node }
    ensures { OnOk result (outs.new.items ≡ outs.old.items ++ tick_sends (all_committed (in_membership (plain_of H.past node.now) epoch members.now))) }
{
    if epoch.get() == 0 {
        return Ok(());
    }
    let sender = Sender {
        name: node.name,
        epoch,
    };
    let length = Seq::new(node.history.len());
    let pending = PendingSends {
        held: &[],
        appended: &[],
        length,
        acknowledged: length,
        reads: &[],
    };
    add_ready_outs(outs, alloc, &sender, members, &pending)
}

/// Puts the membership into the change, and drops what was gathered in the old one.
fn take_membership(change: &mut Change, config: Config)
    ensures { change.new ≡ record change.old { membership = Some config; gathering = GatheringChange.Dropped } }
{
    change.membership = Some(config);
    change.gathering = GatheringChange::Dropped;
}

/// Computes the step of a node that adopts a membership as its tail: all entries are committed, and
/// all waiting requests get replies.
#[tactic(auto, unfolding(craq_model::specs::Settle::settling_transition, craq_model::specs::Settle::all_given, craq_model::specs::Plain::newest))]
fn settled_as_tail<H: History>(
    alloc: Global,
    node: &Node<H>,
    config: Config,
) -> Result<(Change, Step), AllocError>
    requires ready { node.now.ready ≡ true }
    requires last { last_of config.members ≡ node.now.name.node }
    ensures { IfOk result (λ r. IsEffectOf (plain_of H.past node.now) r (settling_transition (in_membership (plain_of H.past node.now) config.epoch config.members))) }
{
    let mut outs = Vec::new(alloc);
    answer_all(&mut outs, alloc, node)?;
    add_tail_outs(
        &mut outs,
        alloc,
        node,
        config.epoch,
        config.members.as_slice(),
    )?;
    let mut change = Change::none();
    change.acknowledged = Some(Seq::new(node.history.len()));
    change.waiting = WaitingChange::AllAnswered;
    take_membership(&mut change, config);
    Ok((change, done(outs)))
}

/// Computes the step of a node that adopts a membership in any other role: the node repeats its
/// pending sends.
#[tactic(auto, unfolding(craq_model::specs::Settle::settling_transition))]
fn settled_in_line<H: History>(
    alloc: Global,
    node: &Node<H>,
    config: Config,
) -> Result<(Change, Step), AllocError>
    requires { (node.now.ready && (last_of config.members == node.now.name.node)) ≡ false }
    ensures { IfOk result (λ r. IsEffectOf (plain_of H.past node.now) r (settling_transition (in_membership (plain_of H.past node.now) config.epoch config.members))) }
{
    let mut outs = Vec::new(alloc);
    add_outs_in(
        &mut outs,
        alloc,
        node,
        config.epoch,
        config.members.as_slice(),
    )?;
    let mut change = Change::none();
    take_membership(&mut change, config);
    Ok((change, done(outs)))
}

/// Computes the step of a node that adopts a membership of a later epoch. The floor and the
/// gathered parts of the old one are dropped. The tail commits all its entries and replies to all
/// waiting requests. Then the node repeats its pending sends. The master sends each new chain to
/// its servers, and neighbours resend what is not acknowledged (OSDI 2004); epochs and floors are
/// this project's profile. Ignored if the epoch is not later than the node's (`OtherEpoch`), or if
/// the node is no member (`NotNeighbour`).
#[tactic(auto, unfolding(craq_model::specs::Deliveries::config_transition, craq_model::specs::Settle::settling_transition))]
pub fn compute_config<H: History>(
    alloc: Global,
    node: &Node<H>,
    epoch: Epoch,
    members: Items<NodeId>,
) -> Result<(Change, Step), AllocError>
    ensures transition { IfOk result (λ r. IsEffectOf (plain_of H.past node.now) r (config_transition (plain_of H.past node.now) epoch members)) }
    ensures free { IsSome (config_transition (plain_of H.past node.now) epoch members).1.ignored → IsOk result }
{
    if epoch <= node.epoch {
        return Ok((Change::none(), ignoring(alloc, Why::OtherEpoch)));
    }
    if !is_member_of(members.as_slice(), node.name.node) {
        return Ok((Change::none(), ignoring(alloc, Why::NotNeighbour)));
    }
    let is_last = last_member(members.as_slice()) == node.name.node;
    let config = Config { epoch, members };
    if node.ready && is_last {
        settled_as_tail(alloc, node, config)
    } else {
        settled_in_line(alloc, node, config)
    }
}
