//! The master's part of a move: ticks, removals, joins; used by `moving`.
ghost use Rattle.std.specs.Prelude.{◌≡◌, ◌≢◌, ◌⊎◌, ◌<◌, ◌+◌, ◌++◌, ◌∷◌, [], ℕ, Ok, Err, IfOk, IfErr, IsOk, OnErr, OnOk};
ghost use Rattle.craq_names.specs.Limits.{greatest};
ghost use Rattle.craq_model.specs.Members.{without, IsMembership};
ghost use Rattle.craq_model.specs.Plain.{Plain, opening_joined};
ghost use Rattle.craq_epochs.specs.Mastered.{Mastered, IsMastered};
ghost use Rattle.craq_runs.specs.Chain.{Chain, config_progress, tick_progress, removal_progress, join_progress, next_epoch, with_node};
ghost use Rattle.craq_node_invariant.specs.Sound.{AreEncodable};
ghost use Rattle.craq_chain.specs.Parts.{AreParts, HasStopped, Moves, MasterComputes, join_step, removal_step, membership_message, membership_step};

use crate::nodes::place_of;
use craq_epochs::{MEMBER_LIMIT, Master, StopReceipt, all_but, is_among};
use craq_model::{Body, LinkMessage, Out, Step};
use craq_names::{ChainId, Copied, Epoch, Items, NodeId, NodeName, Refusal, Stamp};
use craq_node::Core;
use std::alloc::{AllocError, Global};

/// Makes the master's message to a member.
fn reported_to(
    alloc: Global,
    chain: ChainId,
    epoch: Epoch,
    members: &[NodeId],
    to: NodeId,
) -> Result<Out, AllocError>
    ensures { IfOk result (λ out. out ≡ membership_message chain epoch members.now to) }
{
    let message = LinkMessage {
        chain,
        sender: NodeId::new(0),
        receiver: to,
        stamp: Stamp::new(1),
        index: 0,
        epoch,
        body: Body::Config {
            members: Items::of(Vec::from_slice(alloc, members)?),
        },
    };
    Ok(Out::Send { to, message })
}

/// Makes the step in which the master sends the membership to each member.
pub(crate) fn telling(
    alloc: Global,
    chain: ChainId,
    epoch: Epoch,
    members: &[NodeId],
) -> Result<Step, AllocError>
    ensures { IfOk result (λ step. step ≡ membership_step chain epoch members.now) }
{
    let mut outs = Vec::new(alloc);
    for to in members {
        outs.push(reported_to(alloc, chain, epoch, members, *to)?)?;
    }
    Ok(Step {
        ticket: None,
        outs: Items::of(outs),
        ignored: None,
    })
}

/// Makes the step in which the master sends the present membership to its members. Fails only when
/// out of memory (`Memory`).
#[tactic(auto, using(crate::proofs::Reported::telling_encodable))]
pub fn announce(alloc: Global, master: &Master) -> Result<Step, Refusal>
    ensures ok { IfOk result (λ step. step ≡ membership_step master.now.chain master.now.epoch master.now.members) }
    ensures err { IfErr result (λ e. e ≡ Refusal.Memory) }
    ensures spelled { IfOk result (λ step. AreEncodable step.outs) }
{
    let config = master.config();
    let step = telling(
        alloc,
        master.chain(),
        config.epoch,
        config.members.as_slice(),
    )?;
    Ok(step)
}

/// States that the master has a membership. Does nothing.
fn keep_membership(master: &Master)
    ensures { IsMastered master.now }
{
    master.config();
}

/// Returns the receipt of a member's stop. Refused as the removal: `NotMember` if the id is no
/// member's, else `NotStopped` if the member runs. Never allocates.
fn stopped_member<C: Core>(cores: &[C], master: &Master, id: NodeId) -> Result<StopReceipt, Refusal>
    ensures { (c : Chain) → AreParts C.represents cores.now master.now c → HasStopped c id result }
{
    if !is_among(master.config().members.as_slice(), id) {
        return Err(Refusal::NotMember);
    }
    let Some(place) = place_of(cores, id) else {
        return Err(Refusal::NotMember);
    };
    match cores[place].switch().receipt() {
        None => Err(Refusal::NotStopped),
        Some(receipt) => Ok(receipt),
    }
}

/// Makes the step in which the master sends the membership without this member. Refused for the
/// first of these that applies: `LastNode` if there is one member, `Exhausted` if the epoch is 2^64
/// - 1, `Memory` if an allocation failed.
#[tactic(auto, unfolding(crate::specs::Parts::removal_step))]
pub fn compute_removal(alloc: Global, master: &Master, id: NodeId) -> Result<Step, Refusal>
    ensures step { MasterComputes result (removal_step master.now id) }
    ensures mastered { IsMastered master.now }
{
    let config = master.config();
    let members = config.members.as_slice();
    if members.len() == 1 {
        return Err(Refusal::LastNode);
    }
    let epoch = config.epoch.get();
    if epoch == u64::MAX {
        return Err(Refusal::Exhausted);
    }
    let others = all_but(alloc, members, id)?;
    let step = telling(
        alloc,
        master.chain(),
        Epoch::new(epoch + 1),
        others.as_slice(),
    )?;
    Ok(step)
}

/// Makes the step in which the master sends the membership with this node after the last. Refused
/// for the first of these that applies: `ChainFull` if there are 8 members, `Exhausted` if the
/// epoch is 2^64 - 1, `Memory` if an allocation failed.
#[tactic(auto, unfolding(crate::specs::Parts::join_step))]
pub fn compute_join(alloc: Global, master: &Master, id: NodeId) -> Result<Step, Refusal>
    ensures { MasterComputes result (join_step master.now id) }
{
    let config = master.config();
    let members = config.members.as_slice();
    if members.len() >= MEMBER_LIMIT {
        return Err(Refusal::ChainFull);
    }
    let epoch = config.epoch.get();
    if epoch == u64::MAX {
        return Err(Refusal::Exhausted);
    }
    let mut all = Vec::from_slice(alloc, members)?;
    all.push(id)?;
    let step = telling(alloc, master.chain(), Epoch::new(epoch + 1), all.as_slice())?;
    Ok(step)
}

/// Removes a stopped member from the membership and sends it to the others. Refused, with nothing
/// changed, for the first of these that applies: `NotMember` if the id is no member's, `NotStopped`
/// if the member runs, `LastNode` if it is the only one, `Exhausted` if the epoch is 2^64 - 1,
/// `Memory` if an allocation failed.
pub(crate) fn remove<C: Core>(
    alloc: Global,
    cores: &[C],
    master: &mut Master,
    id: NodeId,
) -> Result<Step, Refusal>
    ensures step { (c : Chain) → AreParts C.represents cores.now master.old c → Moves (AreParts C.represents cores.now master.new) c (IsOk (removal_progress c id)) result (removal_progress c id) }
    ensures spelled { IfOk result (λ step. AreEncodable step.outs) }
{
    let receipt = stopped_member(cores, master, id)?;
    let step = compute_removal(alloc, master, id)?;
    master.remove(receipt)?;
    Ok(step)
}

/// Adds a new node after the last member and sends the membership to all of them. Refused, with
/// nothing changed, for the first of these that applies: `UsedId` if the id is 0 or ever was a
/// member's, `ChainFull` if there are 8 members, `Exhausted` if the epoch is 2^64 - 1, `Memory` if
/// an allocation failed.
pub(crate) fn join<C: Core>(
    alloc: Global,
    cores: &mut Vec<C>,
    master: &mut Master,
    id: NodeId,
) -> Result<Step, Refusal>
    ensures step { (c : Chain) → AreParts C.represents cores.old.items master.old c → Moves (AreParts C.represents cores.new.items master.new) c (IsOk (join_progress c id)) result (join_progress c id) }
    ensures spelled { IfOk result (λ step. AreEncodable step.outs) }
{
    if id.get() == 0 {
        return Err(Refusal::UsedId);
    }
    if place_of(cores.as_slice(), id).is_some() {
        return Err(Refusal::UsedId);
    }
    let step = compute_join(alloc, master, id)?;
    let chain = master.chain();
    let core = C::open(alloc, NodeName { chain, node: id }, None)?;
    cores.reserve(1)?;
    master.join(id)?;
    cores.push_reserved(core);
    keep_membership(master);
    Ok(step)
}
