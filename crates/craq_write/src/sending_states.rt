//! Sending a state, whole or in parts. Its items are moved into the messages, not copied.
//! `deliveries` calls this.
ghost use Rattle.std.specs.Prelude.{◌≡◌, ◌<◌, ◌++◌, map, take, drop, IfOk, IfErr, OnOk, MatchOption};
ghost use Rattle.craq_names.specs.Limits.{greatest_count};
ghost use Rattle.craq_model.specs.declared.message.Body.TheVariants.{Part as part_body};
ghost use Rattle.craq_model.specs.Parts.{part_count, parts_of};
ghost use Rattle.craq_model.specs.Sends.{copy_bodies};
ghost use Rattle.craq_history.specs.Standing.{sent_from};
ghost use Rattle.craq_write.specs.Sent.{CannotSend};

use craq_commands::State;
use craq_history::outs::{Sender, message};
use craq_history::{History, Node};
use craq_model::{Body, Out, PART_LIMIT, StatePart};
use craq_names::{Items, NodeId, Refusal, Seq};
use std::alloc::{AllocError, Global};
use std::collections::VecDeque;

/// Returns the number of parts of a state, `None` if 32 bits cannot count them.
fn part_count_of(state: &State) -> Option<u32>
    ensures { MatchOption result (greatest_count < part_count state.now) (λ count. count ≡ part_count state.now) }
{
    let items = state.objects.len() as u128 + state.kept.len() as u128;
    let count = items.div_ceil(PART_LIMIT as u128);
    if count > u32::MAX as u128 {
        return None;
    }
    Some(count as u32)
}

/// Removes and returns the items from an index on; fewer may be there.
fn take_from<T: Drop>(items: &mut Vec<T>, place: usize, alloc: Global) -> Result<Vec<T>, AllocError>
    ensures taken { IfOk result (λ taken. taken.items ≡ drop place items.old.items) }
    ensures left { OnOk result (items.new.items ≡ take place items.old.items) }
{
    if place < items.len() {
        return items.split_off(place);
    }
    Ok(Vec::new(alloc))
}

/// Cuts a state into its parts, from its end; returns them in order.
#[tactic(auto, unfolding(craq_model::specs::Parts::parts_of))]
fn cut_into_parts(
    alloc: Global,
    position: Seq,
    state: State,
    count: u32,
) -> Result<VecDeque<StatePart>, AllocError>
    requires { count ≡ part_count state }
    ensures { IfOk result (λ parts. parts.items ≡ parts_of position state) }
{
    let mut objects = state.objects.into_vec();
    let mut kept = state.kept.into_vec();
    let objects_in_all = objects.len();
    let mut parts = VecDeque::new(alloc);
    for place in (0..count).rev() {
        let from = place as usize * PART_LIMIT;
        let last_objects = take_from(&mut objects, from, alloc)?;
        let last_kept = take_from(&mut kept, from.saturating_sub(objects_in_all), alloc)?;
        parts.push_front(StatePart {
            position,
            number: place + 1,
            count,
            state: State {
                objects: Items::of(last_objects),
                kept: Items::of(last_kept),
            },
        })?;
    }
    Ok(parts)
}

/// Adds the sends of these parts, in order.
fn send_parts(
    outs: &mut Vec<Out>,
    sender: &Sender,
    to: NodeId,
    mut parts: VecDeque<StatePart>,
) -> Result<(), AllocError>
    ensures { OnOk result (outs.new.items ≡ outs.old.items ++ map (sent_from sender.now.name sender.now.epoch to) (map part_body parts.items)) }
{
    while let Some(part) = parts.pop_front() {
        outs.push(message(sender, to, Body::Part(part)))?;
    }
    Ok(())
}

/// Adds the sends of the state after the node's commit index: whole if it has at most 64 items, else
/// in parts of 64 (this project's profile). Fails with `Memory` when out of memory, and with
/// `Exhausted` if it has more parts than 32 bits count.
#[tactic(auto, unfolding(craq_model::specs::Sends::copy_bodies))]
pub(crate) fn send_state<H: History>(
    outs: &mut Vec<Out>,
    alloc: Global,
    node: &Node<H>,
    to: NodeId,
    state: State,
) -> Result<(), Refusal>
    ensures ok { OnOk result (outs.new.items ≡ outs.old.items ++ map (sent_from node.now.name node.now.epoch to) (copy_bodies (H.past node.now.history).acknowledged state)) }
    ensures err { IfErr result (λ e. CannotSend state e) }
{
    let Some(count) = part_count_of(&state) else {
        return Err(Refusal::Exhausted);
    };
    let sender = node.sender();
    let position = Seq::new(node.history.acknowledged());
    if count <= 1 {
        outs.push(message(&sender, to, Body::Copy { position, state }))?;
        return Ok(());
    }
    let parts = cut_into_parts(alloc, position, state, count)?;
    send_parts(outs, &sender, to, parts)?;
    Ok(())
}
