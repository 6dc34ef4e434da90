//! The rules of entries, batches, acknowledgements and blanks that arrive. `craq_node` calls them.
ghost use Rattle.std.specs.Prelude.{◌≡◌, ◌≤◌, ◌<◌, ◌+◌, ◌++◌, ◌∷◌, [], length, true, nat_lt, if◌then◌else◌, Some, None, Ok, IfOk, IfErr, OnOk, IsOk, IsSome, map};
ghost use Rattle.craq_model.specs.Deliveries.{ack_transition, blank_transition, pending_updates, entries_above, entries_transition, fill_bodies, final_position, first_position, forwarding_transition, taken_entries_transition};
ghost use Rattle.craq_model.specs.Past.{length_in, entries_in, clean_in};
ghost use Rattle.craq_model.specs.Plain.{length_of, with_entries};
ghost use Rattle.craq_model.specs.Sends.{copy_bodies, send_all};
ghost use Rattle.craq_model.specs.Settle.{answer_outs, update_given};
ghost use Rattle.craq_model.specs.Encodable.{IsConsecutive};
ghost use Rattle.craq_history.specs.Change.{no_change};
ghost use Rattle.craq_history.specs.Nodes.{plain_of};
ghost use Rattle.craq_history.specs.Effects.{IsEffectOf};
ghost use Rattle.craq_history.specs.Standing.{sent_from, caught_up};
ghost use Rattle.craq_write.specs.Rows.{why_ignored};
ghost use Rattle.craq_write.specs.Sent.{CannotFill, CannotSend, LacksOrOutgrows};
ghost use Rattle.craq_write.specs.Settling.{CanTakeEntries};

use crate::making_entries::{forward, only};
use crate::readiness::{growing, taken_unready};
use crate::sending_states::send_state;
use craq_commands::Entry;
use craq_history::members::{last_member, predecessor_of, successor_of};
use craq_history::outs::{message, send_entries, tell_predecessor};
use craq_history::steps::{done, ignoring};
use craq_history::{Change, History, Node, WaitingChange, WaitingUpdates};
use craq_model::{Answer, Body, Out, Step, Why};
use craq_names::{Copied, Items, NodeId, Refusal, Seq};
use std::alloc::{AllocError, Global};
use std::slice;

/// Returns a step that ignores its message.
fn ignored(alloc: Global, why: Why) -> Result<(Change, Step), AllocError>
    ensures { result ≡ Ok (no_change, record { ticket = None; outs = []; ignored = Some why }) }
{
    Ok((Change::none(), ignoring(alloc, why)))
}

/// Adds the replies to the updates that wait for at most this position, in order of their requests.
/// Stops at the first one that waits for a later position, if positions rise.
#[tactic(auto, unfolding(craq_model::specs::Deliveries::pending_updates))]
fn answer_pending(
    outs: &mut Vec<Out>,
    alloc: Global,
    position: Seq,
    updates: &WaitingUpdates,
) -> Result<(), AllocError>
    ensures { OnOk result (outs.new.items ≡ outs.old.items ++ answer_outs (map update_given (pending_updates position updates.now.items))) }
{
    for place in 0..updates.len() {
        let update = updates.get(place);
        if update.position <= position {
            outs.push(Out::Answer {
                ticket: update.ticket,
                answer: Answer::Update(update.reply.copied(alloc)?),
            })?;
        } else if updates.rise() {
            return Ok(());
        }
    }
    Ok(())
}

/// Computes the step for an acknowledgement: the history is committed up to a position. Updates
/// that waited for it get their replies, and the acknowledgement goes to the predecessor (OSDI
/// 2004). Ignored, in this order:
///
/// - `NotNeighbour` if the sender is not the successor.
/// - `NotReadyHere` if the node is not ready.
/// - `AlreadyHave` if its commit index is as high.
/// - `TooFar` if it holds fewer entries.
#[tactic(auto, unfolding(craq_model::specs::Deliveries::ack_transition, craq_model::specs::Deliveries::acknowledgement_transition))]
pub fn compute_ack<H: History>(
    alloc: Global,
    node: &Node<H>,
    sender: NodeId,
    position: Seq,
) -> Result<(Change, Step), AllocError>
    ensures transition { IfOk result (λ r. IsEffectOf (plain_of H.past node.now) r (ack_transition (plain_of H.past node.now) sender position)) }
    ensures free { IsSome (ack_transition (plain_of H.past node.now) sender position).1.ignored → IsOk result }
{
    if successor_of(node.members.as_slice(), node.name.node) != Some(sender) {
        return ignored(alloc, Why::NotNeighbour);
    }
    if !node.ready {
        return ignored(alloc, Why::NotReadyHere);
    }
    if position.get() <= node.history.acknowledged() {
        return ignored(alloc, Why::AlreadyHave);
    }
    if node.history.len() < position.get() {
        return ignored(alloc, Why::TooFar);
    }
    let mut outs = Vec::new(alloc);
    answer_pending(&mut outs, alloc, position, &node.waiting_updates)?;
    tell_predecessor(
        &mut outs,
        &node.sender(),
        node.members.as_slice(),
        Body::Ack(position),
    )?;
    let mut change = Change::none();
    change.acknowledged = Some(position);
    change.waiting = WaitingChange::UpdatesAnswered(position);
    Ok((change, done(outs)))
}

/// Adds the clean state to the sends, if it is ahead of this many entries.
fn state_ahead<H: History>(
    outs: &mut Vec<Out>,
    alloc: Global,
    node: &Node<H>,
    to: NodeId,
    count: u64,
) -> Result<(), Refusal>
    ensures ok { OnOk result (outs.new.items ≡ outs.old.items ++ map (sent_from node.now.name node.now.epoch to) (if nat_lt count (H.past node.now.history).acknowledged then copy_bodies (H.past node.now.history).acknowledged (clean_in (H.past node.now.history)) else [])) }
    ensures err { IfErr result (λ e. (count < (H.past node.now.history).acknowledged) × CannotSend (clean_in (H.past node.now.history)) e) }
{
    if count >= node.history.acknowledged() {
        return Ok(());
    }
    let state = node.history.snapshot(alloc)?;
    send_state(outs, alloc, node, to, state)
}

/// Adds the entries after a position, which is at least the commit index, and then their count.
fn entries_ahead<H: History>(
    outs: &mut Vec<Out>,
    alloc: Global,
    node: &Node<H>,
    to: NodeId,
    position: u64,
) -> Result<(), AllocError>
    requires { (H.past node.now.history).acknowledged ≤ position }
    ensures { OnOk result (outs.new.items ≡ outs.old.items ++ caught_up node.now.name node.now.epoch (entries_in (H.past node.now.history) position) (length_in (H.past node.now.history)) to) }
{
    let sender = node.sender();
    send_entries(outs, alloc, &sender, to, node.history.after(position))?;
    let length = Seq::new(node.history.len());
    outs.push(message(&sender, to, Body::Floor(length)))?;
    Ok(())
}

/// Returns what an unready successor with this many entries still needs: the clean state if that is
/// ahead of it, then the entries after it, then the count of entries. Fails with `Memory` when out
/// of memory, and with `Exhausted` if the state has more parts than 32 bits count.
#[tactic(auto, unfolding(craq_model::specs::Deliveries::fill_bodies, craq_model::specs::Sends::catch_up, craq_model::specs::Plain::clean, craq_model::specs::Plain::entries_after))]
fn filling<H: History>(
    alloc: Global,
    node: &Node<H>,
    to: NodeId,
    count: Seq,
) -> Result<Vec<Out>, Refusal>
    ensures ok { IfOk result (λ outs. outs.items ≡ send_all (plain_of H.past node.now) to (fill_bodies (plain_of H.past node.now) count)) }
    ensures err { IfErr result (λ e. CannotFill (plain_of H.past node.now) to count e) }
{
    let mut outs = Vec::new(alloc);
    state_ahead(&mut outs, alloc, node, to, count.get())?;
    let position = count.get().max(node.history.acknowledged());
    entries_ahead(&mut outs, alloc, node, to, position)?;
    Ok(outs)
}

/// Computes the reply to an unready successor with this many entries: the clean state if that is
/// ahead of it, the entries after it, and the count of entries. Ignored if the sender is not the
/// successor (`NotNeighbour`) or this node is not ready (`NotReadyHere`). Fails with `Memory` when
/// out of memory, and with `Exhausted` if the state has more parts than 32 bits count. This
/// project's profile.
#[tactic(auto, unfolding(craq_model::specs::Deliveries::blank_transition))]
pub fn compute_blank<H: History>(
    alloc: Global,
    node: &Node<H>,
    sender: NodeId,
    count: Seq,
) -> Result<(Change, Step), Refusal>
    ensures transition { IfOk result (λ r. IsEffectOf (plain_of H.past node.now) r (blank_transition (plain_of H.past node.now) sender count)) }
    ensures err { IfErr result (λ e. LacksOrOutgrows (blank_transition (plain_of H.past node.now) sender count) e) }
    ensures free { IsSome (blank_transition (plain_of H.past node.now) sender count).1.ignored → IsOk result }
{
    if successor_of(node.members.as_slice(), node.name.node) != Some(sender) {
        return Ok((Change::none(), ignoring(alloc, Why::NotNeighbour)));
    }
    if !node.ready {
        return Ok((Change::none(), ignoring(alloc, Why::NotReadyHere)));
    }
    let outs = filling(alloc, node, sender, count)?;
    Ok((Change::none(), done(outs)))
}

/// Computes the step for new entries at a ready node. The tail commits them and sends one
/// acknowledgement for all to its predecessor; any other node forwards them.
#[tactic(auto, unfolding(craq_model::specs::Deliveries::forwarding_transition))]
fn passed_on<H: History>(
    alloc: Global,
    node: &Node<H>,
    entries: Items<Entry>,
    end: Seq,
) -> Result<(Change, Step), AllocError>
    requires end { end ≡ length_of (plain_of H.past node.now) + length entries }
    requires ready { node.now.ready ≡ true }
    ensures { IfOk result (λ r. IsEffectOf (plain_of H.past node.now) r (forwarding_transition (with_entries (plain_of H.past node.now) entries) entries)) }
{
    let members = node.members.as_slice();
    let is_tail = last_member(members) == node.name.node;
    let mut outs = Vec::new(alloc);
    if is_tail {
        tell_predecessor(&mut outs, &node.sender(), members, Body::Ack(end))?;
    } else {
        forward(
            &mut outs,
            alloc,
            &node.sender(),
            members,
            entries.as_slice(),
        )?;
    }
    let acknowledged = if is_tail { Some(end) } else { None };
    Ok((growing(entries, acknowledged), done(outs)))
}

/// Returns the position of the first entry, 0 if there is none.
fn start_of(entries: &[Entry]) -> Seq
    ensures { result ≡ first_position entries.now }
{
    match entries {
        [] => Seq::new(0),
        [first, ..] => first.position,
    }
}

/// Returns the position of the last entry, 0 if there is none.
#[tactic(auto, using(craq_model::proofs::Batches::final_last))]
fn end_of(entries: &[Entry]) -> Seq
    ensures { result ≡ final_position entries.now }
{
    match entries.last() {
        Some(last) => last.position,
        None => Seq::new(0),
    }
}

/// Returns the entries above a position; drops the others.
fn entries_above(entries: Items<Entry>, position: u64) -> Items<Entry>
    ensures { result ≡ entries_above position entries }
{
    let mut above = entries.into_vec();
    above.retain(|entry| position < entry.position.get());
    Items::of(above)
}

/// Returns why entries with these first and last positions are ignored, whatever they write; `None`
/// if they are not.
fn why_ignored<H: History>(node: &Node<H>, sender: NodeId, start: Seq, end: Seq) -> Option<Why>
    ensures { result ≡ why_ignored (plain_of H.past node.now) sender start end }
{
    if predecessor_of(node.members.as_slice(), node.name.node) != Some(sender) {
        return Some(Why::NotNeighbour);
    }
    let length = node.history.len();
    if end.get() <= length {
        return Some(Why::AlreadyHave);
    }
    if start.get().saturating_sub(1) > length {
        return Some(Why::OutOfOrder);
    }
    None
}

/// Computes the step for entries that follow the node's own and are all taken.
fn taken<H: History>(
    alloc: Global,
    node: &Node<H>,
    entries: Items<Entry>,
    end: Seq,
) -> Result<(Change, Step), AllocError>
    requires end { end ≡ length_of (plain_of H.past node.now) + length entries }
    requires takes { CanTakeEntries (plain_of H.past node.now) }
    ensures { IfOk result (λ r. IsEffectOf (plain_of H.past node.now) r (taken_entries_transition (with_entries (plain_of H.past node.now) entries) entries)) }
{
    if node.ready {
        return passed_on(alloc, node, entries, end);
    }
    taken_unready(alloc, node, entries, end)
}

/// Computes the step for one entry from the predecessor, as `compute_entries` does for a batch of
/// one: it is ignored, or appended and forwarded. The entry is moved into the history, and copied
/// only for the successor. Ignoring it allocates nothing.
#[tactic(auto, using(crate::proofs::Rows::one_above, crate::proofs::Heard::taken_heard), unfolding(craq_model::specs::Deliveries::entries_transition, craq_model::specs::Plain::newest))]
pub fn compute_entry<H: History>(
    alloc: Global,
    node: &Node<H>,
    sender: NodeId,
    entry: Entry,
) -> Result<(Change, Step), AllocError>
    requires takes { CanTakeEntries (plain_of H.past node.now) }
    ensures transition { IfOk result (λ r. IsEffectOf (plain_of H.past node.now) r (entries_transition (plain_of H.past node.now) sender (entry ∷ []))) }
    ensures free { IsSome (entries_transition (plain_of H.past node.now) sender (entry ∷ [])).1.ignored → IsOk result }
{
    let position = entry.position;
    if let Some(why) = why_ignored(node, sender, position, position) {
        return ignored(alloc, why);
    }
    if !node.history.are_next(slice::from_ref(&entry)) {
        return ignored(alloc, Why::TooFar);
    }
    let next = only(alloc, entry)?;
    taken(alloc, node, next, position)
}

/// Computes the step for consecutive entries from the predecessor. Those that the node already
/// holds are left out; of the others all are appended, or none. The tail commits them, any other
/// ready node forwards them (OSDI 2004), and a node that is not ready may become ready.
///
/// Ignored, in this order (batches are this project's profile):
///
/// - `NotNeighbour` if the sender is not the predecessor.
/// - `AlreadyHave` if the node holds all of them.
/// - `OutOfOrder` if the first is beyond the next position.
/// - `TooFar` if one does not fit after those before it: a write whose version is not its object's
///   next, or a request number that is not new.
///
/// The entries are moved into the history, and copied only for the successor. Ignoring them
/// allocates nothing.
#[tactic(auto, using(crate::proofs::Rows::row_end, crate::proofs::Heard::taken_heard), unfolding(craq_model::specs::Deliveries::entries_transition, craq_model::specs::Plain::newest))]
pub fn compute_entries<H: History>(
    alloc: Global,
    node: &Node<H>,
    sender: NodeId,
    entries: Items<Entry>,
) -> Result<(Change, Step), AllocError>
    requires row { IsConsecutive entries }
    requires takes { CanTakeEntries (plain_of H.past node.now) }
    ensures transition { IfOk result (λ r. IsEffectOf (plain_of H.past node.now) r (entries_transition (plain_of H.past node.now) sender entries)) }
    ensures free { IsSome (entries_transition (plain_of H.past node.now) sender entries).1.ignored → IsOk result }
{
    let start = start_of(entries.as_slice());
    let end = end_of(entries.as_slice());
    if let Some(why) = why_ignored(node, sender, start, end) {
        return ignored(alloc, why);
    }
    let next = entries_above(entries, node.history.len());
    if !node.history.are_next(next.as_slice()) {
        return ignored(alloc, Why::TooFar);
    }
    taken(alloc, node, next, end)
}
