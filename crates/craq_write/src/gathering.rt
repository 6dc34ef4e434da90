//! A joining node that gathers a state in parts. `craq_node` calls this.
ghost use Rattle.std.specs.Prelude.{◌≡◌, ◌==◌, ◌+◌, ◌++◌, length, T, true, false, is_some, List, ℕ, All, IfOk, IsOk, IsSome};
ghost use Rattle.std.specs.List.{list_all};
ghost use Rattle.std.specs.Ordering.{nat_cmp};
ghost use Rattle.std.specs.FinMap.Entries.{is_sorted};
ghost use Rattle.craq_names.specs.Maps.{at_number, put_number};
ghost use Rattle.craq_model.specs.Deliveries.{gathered_transition, gathering_transition, is_outdated, part_transition};
ghost use Rattle.craq_model.specs.Parts.{gathering_for, joined_state, precedes, with_part};
ghost use Rattle.craq_history.specs.Nodes.{plain_of};
ghost use Rattle.craq_history.specs.Effects.{IsEffectOf};
ghost use Rattle.craq_write.specs.Gathered.{AreInOrder, IsInOrder, IsOrdered, is_beside};
ghost use Rattle.craq_write.specs.Settling.{IsIdle};

use crate::readiness::state_taken;
use craq_commands::State;
use craq_history::members::predecessor_of;
use craq_history::steps::{done, ignoring};
use craq_history::{Change, GatheringChange, History, Node};
use craq_model::{Gathering, StatePart, Step, Why};
use craq_names::{Copied, Items, NodeId};
use std::alloc::{AllocError, Global};

/// Returns true exactly if the first items, sorted by key, come before the others.
fn are_before<K: Ord, V>(items: &[(K, V)], later: &[(K, V)]) -> bool
    requires items { T (is_sorted K.cmp items.now) }
    requires later { T (is_sorted K.cmp later.now) }
    ensures { result ≡ is_sorted K.cmp (items.now ++ later.now) }
{
    match (items.last(), later.first()) {
        (Some((last, _)), Some((first, _))) => last.cmp(first).is_lt(),
        _ => true,
    }
}

/// Returns true exactly if each item of `state` comes before each item of `later`.
fn comes_before(state: &State, later: &State) -> bool
    requires state { IsInOrder state.now }
    requires later { IsInOrder later.now }
    ensures { result ≡ precedes state.now later.now }
{
    are_before(state.objects.as_slice(), later.objects.as_slice())
        && are_before(state.kept.as_slice(), later.kept.as_slice())
        && (state.kept.as_slice().is_empty() || later.objects.as_slice().is_empty())
}

/// Returns true exactly if the part's items come after those of the lower parts held and before
/// those of the higher ones.
fn stands_between(parts: &[(u32, State)], part: &StatePart) -> bool
    requires held { All (λ (held : ℕ × State). IsInOrder held.1) parts.now }
    requires part { IsInOrder part.now.state }
    ensures { result ≡ list_all (is_beside part.now) parts.now }
{
    for (number, state) in parts {
        let is_beside = if *number < part.number {
            comes_before(state, &part.state)
        } else {
            comes_before(&part.state, state)
        };
        if !is_beside {
            return false;
        }
    }
    true
}

/// Returns true exactly if the part of this number is held.
#[tactic(auto, using(crate::proofs::Gathers::same_numbers))]
fn is_held(parts: &[(u32, State)], number: u32) -> bool
    ensures { result ≡ is_some (at_number parts.now number) }
{
    for (held, _) in parts {
        if number == *held {
            return true;
        }
    }
    false
}

/// Returns the held parts of the state that the part belongs to, and the state's part count.
#[tactic(auto, using(crate::proofs::Gathers::none_in_order))]
fn held_with<'a>(gathering: &'a Option<Gathering>, part: &StatePart) -> (&'a [(u32, State)], u32)
    requires { IsOrdered gathering.now }
    ensures order { AreInOrder result.0.now }
    ensures parts { result.0.now ≡ (gathering_for part.now gathering.now).parts }
    ensures count { result.1 ≡ (gathering_for part.now gathering.now).count }
{
    match gathering {
        Some(held) if held.position >= part.position => (held.parts.as_slice(), held.count),
        _ => (&[], part.count),
    }
}

/// Returns true exactly if the node's history, or the state that it gathers, is beyond the part.
fn is_outdated<H: History>(node: &Node<H>, part: &StatePart) -> bool
    ensures { result ≡ is_outdated (plain_of H.past node.now) part.now }
{
    let gathered = match &node.gathering {
        Some(gathering) => gathering.position.get(),
        None => 0,
    };
    part.position.get() <= node.history.len() || part.position.get() < gathered
}

/// Returns true exactly if only one part is missing.
fn is_last_missing(parts: &[(u32, State)], count: u32) -> bool
    ensures { result ≡ (length parts.now + 1 == count) }
{
    parts.len() + 1 == count as usize
}

/// Copies the parts held.
fn parts_copied(alloc: Global, parts: &[(u32, State)]) -> Result<Vec<(u32, State)>, AllocError>
    ensures { IfOk result (λ copies. copies.items ≡ parts.now) }
{
    let mut copies = Vec::new(alloc);
    for (number, state) in parts {
        copies.push((*number, state.copied(alloc)?))?;
    }
    Ok(copies)
}

/// Joins all parts into a state; the items are moved.
#[tactic(auto, unfolding(craq_model::specs::Parts::joined_state))]
fn gathered_state(alloc: Global, parts: Items<(u32, State)>) -> Result<State, AllocError>
    ensures { IfOk result (λ state. state ≡ joined_state parts) }
{
    let mut objects = Vec::new(alloc);
    let mut kept = Vec::new(alloc);
    for (_, state) in parts.into_vec() {
        objects.append(&mut state.objects.into_vec())?;
        kept.append(&mut state.kept.into_vec())?;
    }
    Ok(State {
        objects: Items::of(objects),
        kept: Items::of(kept),
    })
}

/// Joins copies of the held parts and one more part into a state.
fn joined_with(alloc: Global, parts: &[(u32, State)], part: StatePart) -> Result<State, AllocError>
    ensures { IfOk result (λ state. state ≡ joined_state (put_number parts.now part.number part.state)) }
{
    let mut all = Items::of(parts_copied(alloc, parts)?);
    all.put(part.number, part.state)?;
    gathered_state(alloc, all)
}

/// Computes the step for a part that fits: it is kept with the other parts of its state. If it was
/// the last missing part, the state replaces the history.
fn part_kept<H: History>(
    alloc: Global,
    node: &Node<H>,
    parts: &[(u32, State)],
    count: u32,
    part: StatePart,
) -> Result<(Change, Step), AllocError>
    requires parts { parts.now ≡ (gathering_for part node.now.gathering).parts }
    requires count { count ≡ (gathering_for part node.now.gathering).count }
    requires position { (gathering_for part node.now.gathering).position ≡ part.position }
    requires rising { T (is_sorted nat_cmp parts.now) }
    requires absent { is_some (at_number parts.now part.number) ≡ false }
    requires unready { node.now.ready ≡ false }
    requires idle { IsIdle (plain_of H.past node.now) }
    ensures { IfOk result (λ r. IsEffectOf (plain_of H.past node.now) r (gathered_transition (plain_of H.past node.now) (with_part (gathering_for part node.now.gathering) part))) }
{
    if is_last_missing(parts, count) {
        let position = part.position;
        let state = joined_with(alloc, parts, part)?;
        return state_taken(alloc, node, position, state);
    }
    let mut change = Change::none();
    change.gathering = GatheringChange::Gains(part);
    Ok((change, done(Vec::new(alloc))))
}

/// Computes the step for a part of a state that is ahead of the node's history and not behind the
/// state that it gathers. Keeps the part if it fits those held. Ignored if its part count differs
/// (`TooFar`), if it is held (`AlreadyHave`), or if its items do not stand between those of the
/// held parts (`TooFar`).
#[tactic(auto, using(crate::proofs::Gathers::is_current), unfolding(craq_model::specs::Parts::is_in_order))]
fn part_fitted<H: History>(
    alloc: Global,
    node: &Node<H>,
    part: StatePart,
) -> Result<(Change, Step), AllocError>
    requires unready { node.now.ready ≡ false }
    requires idle { IsIdle (plain_of H.past node.now) }
    requires held { IsOrdered node.now.gathering }
    requires part { IsInOrder part.state }
    requires current { is_outdated (plain_of H.past node.now) part ≡ false }
    ensures transition { IfOk result (λ r. IsEffectOf (plain_of H.past node.now) r (gathering_transition (plain_of H.past node.now) (gathering_for part node.now.gathering) part)) }
    ensures free { IsSome (gathering_transition (plain_of H.past node.now) (gathering_for part node.now.gathering) part).1.ignored → IsOk result }
{
    let (parts, count) = held_with(&node.gathering, &part);
    if part.count != count {
        return Ok((Change::none(), ignoring(alloc, Why::TooFar)));
    }
    if is_held(parts, part.number) {
        return Ok((Change::none(), ignoring(alloc, Why::AlreadyHave)));
    }
    if stands_between(parts, &part) {
        return part_kept(alloc, node, parts, count, part);
    }
    Ok((Change::none(), ignoring(alloc, Why::TooFar)))
}

/// Computes the step for a part of a state from the predecessor, at a node that is not ready. The
/// part is kept with the others of its state, or alone if its state is ahead of the gathered one.
/// Once none is missing, the state replaces the history, as a state in one message does.
///
/// Ignored if the sender is not the predecessor (`NotNeighbour`); if the node is ready, holds as
/// many entries, gathers a later state, or holds the part (`AlreadyHave`); if the part count
/// differs, or its items do not stand after those of the lower parts held and before those of the
/// higher ones (`TooFar`). This project's profile.
#[tactic(auto, unfolding(craq_model::specs::Deliveries::part_transition))]
pub fn compute_part<H: History>(
    alloc: Global,
    node: &Node<H>,
    sender: NodeId,
    part: StatePart,
) -> Result<(Change, Step), AllocError>
    requires idle { node.now.ready ≡ false → IsIdle (plain_of H.past node.now) }
    requires held { IsOrdered node.now.gathering }
    requires part { IsInOrder part.state }
    ensures transition { IfOk result (λ r. IsEffectOf (plain_of H.past node.now) r (part_transition (plain_of H.past node.now) sender part)) }
    ensures free { IsSome (part_transition (plain_of H.past node.now) sender part).1.ignored → IsOk result }
{
    if predecessor_of(node.members.as_slice(), node.name.node) != Some(sender) {
        return Ok((Change::none(), ignoring(alloc, Why::NotNeighbour)));
    }
    if node.ready || is_outdated(node, &part) {
        return Ok((Change::none(), ignoring(alloc, Why::AlreadyHave)));
    }
    part_fitted(alloc, node, part)
}
