//! A joining node: the entries, states and floors that it receives until it is ready. `craq_node`,
//! `deliveries` and `gathering` call this.
ghost use Rattle.std.specs.Prelude.{◌≡◌, ◌≤◌, ◌+◌, ◌==◌, ◌++◌, [], length, Some, true, false, if◌then◌else◌, IfOk, IsOk, IsSome};
ghost use Rattle.craq_model.specs.Deliveries.{copy_transition, floor_transition, with_copy};
ghost use Rattle.craq_model.specs.Past.{entries_in};
ghost use Rattle.craq_model.specs.Plain.{length_of, with_entries};
ghost use Rattle.craq_model.specs.Settle.{is_reached, readiness_transition};
ghost use Rattle.craq_history.specs.Change.{no_change};
ghost use Rattle.craq_history.specs.Nodes.{plain_of};
ghost use Rattle.craq_history.specs.Effects.{IsEffectOf};
ghost use Rattle.craq_history.specs.Standing.{ready_outs};
ghost use Rattle.craq_write.specs.Gathered.{gathering_at};
ghost use Rattle.craq_write.specs.Settling.{CanTakeEntries, IsIdle};

use craq_commands::{Entry, State};
use craq_history::members::{last_member, predecessor_of};
use craq_history::outs::{PendingSends, add_ready_outs};
use craq_history::steps::{done, ignoring};
use craq_history::{Change, GatheringChange, History, HistoryChange, Node};
use craq_model::{Out, Step, Why};
use craq_names::{Items, NodeId, Seq};
use std::alloc::{AllocError, Global};

/// Returns true exactly if the floor is known and reached.
fn is_floor_reached(floor: Option<Seq>, count: Seq) -> bool
    ensures { result ≡ is_reached floor count }
{
    match floor {
        None => false,
        Some(floor) => floor <= count,
    }
}

/// Returns the pending sends of a node that becomes ready; none if it has no membership.
fn outs_when_ready<H: History>(
    alloc: Global,
    node: &Node<H>,
    pending: &PendingSends<'_>,
) -> Result<Vec<Out>, AllocError>
    ensures { IfOk result (λ outs. outs.items ≡ (if node.now.epoch == 0 then [] else ready_outs node.now.name node.now.epoch node.now.members (pending.now.held.now ++ pending.now.appended.now) pending.now.length pending.now.acknowledged pending.now.reads.now)) }
{
    let mut outs = Vec::new(alloc);
    if node.epoch.get() == 0 {
        return Ok(outs);
    }
    add_ready_outs(
        &mut outs,
        alloc,
        &node.sender(),
        node.members.as_slice(),
        pending,
    )?;
    Ok(outs)
}

/// Returns the sends of a node that becomes ready and has committed a history of this length; none
/// if it has no membership.
fn outs_when_committed<H: History>(
    alloc: Global,
    node: &Node<H>,
    length: Seq,
) -> Result<Vec<Out>, AllocError>
    ensures { IfOk result (λ outs. outs.items ≡ (if node.now.epoch == 0 then [] else ready_outs node.now.name node.now.epoch node.now.members [] length length node.now.waiting_reads.items)) }
{
    let pending = PendingSends {
        held: &[],
        appended: &[],
        length,
        acknowledged: length,
        reads: node.waiting_reads.as_slice(),
    };
    outs_when_ready(alloc, node, &pending)
}

/// Returns the sends of a node that becomes ready as it appends these entries to reach this length;
/// none if it has no membership.
fn outs_when_appended<H: History>(
    alloc: Global,
    node: &Node<H>,
    appended: &[Entry],
    length: Seq,
) -> Result<Vec<Out>, AllocError>
    ensures { IfOk result (λ outs. outs.items ≡ (if node.now.epoch == 0 then [] else ready_outs node.now.name node.now.epoch node.now.members (entries_in (H.past node.now.history) (H.past node.now.history).acknowledged ++ appended.now) length (H.past node.now.history).acknowledged node.now.waiting_reads.items)) }
{
    let acknowledged = node.history.acknowledged();
    let pending = PendingSends {
        held: node.history.after(acknowledged),
        appended,
        length,
        acknowledged: Seq::new(acknowledged),
        reads: node.waiting_reads.as_slice(),
    };
    outs_when_ready(alloc, node, &pending)
}

/// Returns the change of the gathered parts when the node holds this many entries: those of a
/// reached position are dropped.
fn gathering_at<H>(node: &Node<H>, count: Seq) -> GatheringChange
    ensures { result ≡ gathering_at node.now.gathering count }
{
    match &node.gathering {
        Some(gathering) if gathering.position > count => GatheringChange::Stays,
        _ => GatheringChange::Dropped,
    }
}

/// Returns the change that appends entries.
pub(crate) fn growing(entries: Items<Entry>, acknowledged: Option<Seq>) -> Change
    ensures { result ≡ record no_change { history = HistoryChange.Grows entries; acknowledged = acknowledged } }
{
    let mut change = Change::none();
    change.history = HistoryChange::Grows(entries);
    change.acknowledged = acknowledged;
    change
}

/// Returns the change that appends entries and makes the node ready; it drops its gathered parts.
fn growing_ready(entries: Items<Entry>, acknowledged: Option<Seq>) -> Change
    ensures { result ≡ record no_change { history = HistoryChange.Grows entries; acknowledged = acknowledged; becomes_ready = true; gathering = GatheringChange.Dropped } }
{
    let mut change = growing(entries, acknowledged);
    change.becomes_ready = true;
    change.gathering = GatheringChange::Dropped;
    change
}

/// Computes the step for entries by which a node becomes ready. The last member commits all its
/// entries.
fn ready_by_entries<H: History>(
    alloc: Global,
    node: &Node<H>,
    entries: Items<Entry>,
    end: Seq,
) -> Result<(Change, Step), AllocError>
    requires end { end ≡ length_of (plain_of H.past node.now) + length entries }
    requires unready { node.now.ready ≡ false }
    requires takes { CanTakeEntries (plain_of H.past node.now) }
    requires reached { is_reached node.now.floor end ≡ true }
    ensures { IfOk result (λ r. IsEffectOf (plain_of H.past node.now) r (readiness_transition (with_entries (plain_of H.past node.now) entries))) }
{
    if last_member(node.members.as_slice()) == node.name.node {
        let outs = outs_when_committed(alloc, node, end)?;
        return Ok((growing_ready(entries, Some(end)), done(outs)));
    }
    let outs = outs_when_appended(alloc, node, entries.as_slice(), end)?;
    Ok((growing_ready(entries, None), done(outs)))
}

/// Computes the step for the predecessor's next entries, at a node that is not ready. They are
/// appended, and the node becomes ready if it then holds as many entries as its floor.
pub(crate) fn taken_unready<H: History>(
    alloc: Global,
    node: &Node<H>,
    entries: Items<Entry>,
    end: Seq,
) -> Result<(Change, Step), AllocError>
    requires end { end ≡ length_of (plain_of H.past node.now) + length entries }
    requires unready { node.now.ready ≡ false }
    requires takes { CanTakeEntries (plain_of H.past node.now) }
    ensures { IfOk result (λ r. IsEffectOf (plain_of H.past node.now) r (readiness_transition (with_entries (plain_of H.past node.now) entries))) }
{
    if is_floor_reached(node.floor, end) {
        return ready_by_entries(alloc, node, entries, end);
    }
    let mut change = growing(entries, None);
    change.gathering = gathering_at(node, end);
    Ok((change, done(Vec::new(alloc))))
}

/// Returns the change that installs a state.
fn copying(state: State, position: Seq, gathering: GatheringChange) -> Change
    ensures { result ≡ record no_change { history = HistoryChange.IsCopied position state; gathering = gathering } }
{
    let mut change = Change::none();
    change.history = HistoryChange::IsCopied { position, state };
    change.gathering = gathering;
    change
}

/// Computes the step for a state by which a node becomes ready. All of it is committed, and no
/// request waits.
fn ready_by_copy<H: History>(
    alloc: Global,
    node: &Node<H>,
    position: Seq,
    state: State,
) -> Result<(Change, Step), AllocError>
    requires unready { node.now.ready ≡ false }
    requires idle { IsIdle (plain_of H.past node.now) }
    requires reached { is_reached node.now.floor position ≡ true }
    ensures { IfOk result (λ r. IsEffectOf (plain_of H.past node.now) r (readiness_transition (with_copy (plain_of H.past node.now) position state))) }
{
    let outs = outs_when_committed(alloc, node, position)?;
    let mut change = copying(state, position, GatheringChange::Dropped);
    change.becomes_ready = true;
    Ok((change, done(outs)))
}

/// Computes the step for a state that replaces the history of a node that is not ready. The node
/// becomes ready if it then holds as many entries as its floor.
pub(crate) fn state_taken<H: History>(
    alloc: Global,
    node: &Node<H>,
    position: Seq,
    state: State,
) -> Result<(Change, Step), AllocError>
    requires unready { node.now.ready ≡ false }
    requires idle { IsIdle (plain_of H.past node.now) }
    ensures { IfOk result (λ r. IsEffectOf (plain_of H.past node.now) r (readiness_transition (with_copy (plain_of H.past node.now) position state))) }
{
    if is_floor_reached(node.floor, position) {
        return ready_by_copy(alloc, node, position, state);
    }
    let gathering = gathering_at(node, position);
    Ok((copying(state, position, gathering), done(Vec::new(alloc))))
}

/// Computes the step for a state from the predecessor, at a node that is not ready. It replaces the
/// history if it is ahead of it, and the node becomes ready if it then holds as many entries as its
/// floor. Ignored if the sender is not the predecessor (`NotNeighbour`), and if the node is ready
/// or holds as many entries (`AlreadyHave`). A new server gets its history behind the tail (OSDI
/// 2004); sending it as a state, and floors, are this project's profile.
#[tactic(auto, using(crate::proofs::Heard::readiness_heard), unfolding(craq_model::specs::Deliveries::copy_transition))]
pub fn compute_copy<H: History>(
    alloc: Global,
    node: &Node<H>,
    sender: NodeId,
    position: Seq,
    state: State,
) -> Result<(Change, Step), AllocError>
    requires idle { node.now.ready ≡ false → IsIdle (plain_of H.past node.now) }
    ensures transition { IfOk result (λ r. IsEffectOf (plain_of H.past node.now) r (copy_transition (plain_of H.past node.now) sender position state)) }
    ensures free { IsSome (copy_transition (plain_of H.past node.now) sender position state).1.ignored → IsOk result }
{
    if predecessor_of(node.members.as_slice(), node.name.node) != Some(sender) {
        return Ok((Change::none(), ignoring(alloc, Why::NotNeighbour)));
    }
    if node.ready || position.get() <= node.history.len() {
        return Ok((Change::none(), ignoring(alloc, Why::AlreadyHave)));
    }
    state_taken(alloc, node, position, state)
}

/// Computes the step for a floor that is reached already: the node becomes ready, and the last
/// member commits all its entries.
#[tactic(auto, using(crate::proofs::Ends::nothing_after_all), unfolding(craq_model::specs::Settle::readiness_transition, craq_model::specs::Settle::settling_transition, craq_model::specs::Settle::all_given, craq_model::specs::Settle::by_ticket, craq_model::specs::Sends::tick_sends, craq_model::specs::Sends::ready_sends, craq_model::specs::Sends::catch_up, craq_model::specs::Plain::entries_after))]
fn ready_by_floor<H: History>(
    alloc: Global,
    node: &Node<H>,
    count: Seq,
) -> Result<(Change, Step), AllocError>
    requires unready { node.now.ready ≡ false }
    requires idle { IsIdle (plain_of H.past node.now) }
    requires reached { count ≤ length_of (plain_of H.past node.now) }
    ensures { IfOk result (λ r. IsEffectOf (plain_of H.past node.now) r (readiness_transition (record (plain_of H.past node.now) { floor = Some count }))) }
{
    let length = Seq::new(node.history.len());
    if last_member(node.members.as_slice()) == node.name.node {
        let outs = outs_when_committed(alloc, node, length)?;
        let mut change = Change::none();
        change.floor = Some(count);
        change.becomes_ready = true;
        change.gathering = GatheringChange::Dropped;
        change.acknowledged = Some(length);
        return Ok((change, done(outs)));
    }
    let outs = outs_when_appended(alloc, node, &[], length)?;
    let mut change = Change::none();
    change.floor = Some(count);
    change.becomes_ready = true;
    change.gathering = GatheringChange::Dropped;
    Ok((change, done(outs)))
}

/// Computes the step for a floor at a node that is not ready. The node becomes ready at once if it
/// holds as many entries.
fn floor_taken<H: History>(
    alloc: Global,
    node: &Node<H>,
    count: Seq,
) -> Result<(Change, Step), AllocError>
    requires unready { node.now.ready ≡ false }
    requires idle { IsIdle (plain_of H.past node.now) }
    ensures { IfOk result (λ r. IsEffectOf (plain_of H.past node.now) r (readiness_transition (record (plain_of H.past node.now) { floor = Some count }))) }
{
    let length = Seq::new(node.history.len());
    if count.get() <= length.get() {
        return ready_by_floor(alloc, node, count);
    }
    let mut change = Change::none();
    change.floor = Some(count);
    change.gathering = gathering_at(node, length);
    Ok((change, done(Vec::new(alloc))))
}

/// Computes the step for a floor from the ready predecessor, at a node that is not ready: the
/// number of entries that the node must hold to become ready. It becomes ready at once if it holds
/// as many. Ignored if the sender is not the predecessor (`NotNeighbour`) or the node is ready
/// (`AlreadyHave`). This project's profile.
#[tactic(auto, using(crate::proofs::Heard::readiness_heard), unfolding(craq_model::specs::Deliveries::floor_transition))]
pub fn compute_floor<H: History>(
    alloc: Global,
    node: &Node<H>,
    sender: NodeId,
    count: Seq,
) -> Result<(Change, Step), AllocError>
    requires idle { node.now.ready ≡ false → IsIdle (plain_of H.past node.now) }
    ensures transition { IfOk result (λ r. IsEffectOf (plain_of H.past node.now) r (floor_transition (plain_of H.past node.now) sender count)) }
    ensures free { IsSome (floor_transition (plain_of H.past node.now) sender count).1.ignored → IsOk result }
{
    if predecessor_of(node.members.as_slice(), node.name.node) != Some(sender) {
        return Ok((Change::none(), ignoring(alloc, Why::NotNeighbour)));
    }
    if node.ready {
        return Ok((Change::none(), ignoring(alloc, Why::AlreadyHave)));
    }
    floor_taken(alloc, node, count)
}
