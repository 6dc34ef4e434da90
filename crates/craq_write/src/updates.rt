//! `compute_update`: the rule of an update at the head. `craq_node` calls it.
ghost use Rattle.std.specs.Prelude.{◌≡◌, ◌<◌, ◌+◌, ◌-◌, ◌^◌, ◌∷◌, [], true, false, Some, None, ◌||◌, if◌then◌else◌, not, nat_le, IfOk};
ghost use Rattle.craq_commands.specs.SingleCopy.{said};
ghost use Rattle.craq_model.specs.Asks.{reply_transition, update_transition, new_update_transition, committed_if_last, is_full};
ghost use Rattle.craq_model.specs.Plain.{newest, length_of, is_last, position_of};
ghost use Rattle.craq_history.specs.declared.change.GatheringChange.TheVariants.{Stays};
ghost use Rattle.craq_history.specs.Change.{changed};
ghost use Rattle.craq_history.specs.Nodes.{plain_of};
ghost use Rattle.craq_model.specs.Past.{newest_in};
ghost use Rattle.craq_history.specs.Effects.{CanGrow, IsComputed, Computes};
ghost use Rattle.craq_write.specs.Forward.{entry_with};
ghost use Rattle.craq_write.specs.Outcomes.{HaveNext, outcome_in};
ghost use Rattle.craq_write.specs.Places.{committed_then, has_place};

use crate::making_entries::{Checked, check, forward, only, outcome};
use craq_commands::{Entry, Reply, RequestStatus, Update};
use craq_history::members::last_member;
use craq_history::steps::accepted;
use craq_history::{Change, History, HistoryChange, Node, WaitingChange};
use craq_model::{Answer, Out, Step, WaitingUpdate};
use craq_names::{ClientId, Copied, Refusal, RequestNo, Seq, Ticket};
use std::alloc::{AllocError, Global};

/// A change, and the commit index after it.
#[derive(Drop)]
struct CommittingChange {
    change: Change,
    acknowledged: u64,
}

/// Returns the change with an accepted request and its effect on the waiting requests.
fn accepting(change: Change, waiting: WaitingChange) -> Change
    ensures { result ≡ record change { accepted = true; waiting = waiting } }
{
    Change {
        accepted: true,
        membership: change.membership,
        history: change.history,
        gathering: change.gathering,
        acknowledged: change.acknowledged,
        floor: change.floor,
        becomes_ready: change.becomes_ready,
        waiting,
    }
}

/// Returns the outs with the reply under its ticket in front.
fn answer_first(mut outs: Vec<Out>, ticket: Ticket, reply: Reply) -> Result<Vec<Out>, AllocError>
    ensures { IfOk result (λ all. all.items ≡ Out.Answer ticket (Answer.Update reply) ∷ outs.items) }
{
    let answer = Answer::Update(reply);
    outs.insert(0, Out::Answer { ticket, answer })?;
    Ok(outs)
}

/// Returns the commit index once the history has this length: the length itself if the node is last
/// in its membership.
fn committed_then<H: History>(node: &Node<H>, length: u64) -> u64
    ensures { result ≡ committed_then (plain_of H.past node.now) length }
{
    if last_member(node.members.as_slice()) == node.name.node {
        length
    } else {
        node.history.acknowledged()
    }
}

/// Returns true exactly if an update that waits for a position gets its reply at this history
/// length, or can wait. Allocates nothing.
#[tactic(auto, unfolding(craq_model::specs::Asks::is_full))]
fn has_place<H: History>(node: &Node<H>, length: u64, position: u64) -> bool
    ensures { result ≡ has_place (plain_of H.past node.now) length position }
{
    position <= committed_then(node, length) || !node.is_full()
}

/// Computes the reply to an update that can be taken. It is sent once the history is committed up
/// to a position: in this step if that is so after the change, else the update waits.
#[tactic(auto, unfolding(craq_model::specs::Asks::reply_transition, craq_model::specs::Asks::is_full))]
fn replied<H: History>(
    node: &Node<H>,
    committed: CommittingChange,
    position: u64,
    reply: Reply,
    sends: Vec<Out>,
) -> Result<(Change, Step), AllocError>
    requires room { node.now.last_ticket < 2 ^ 64 - 1 }
    requires grows { CanGrow (length_of (plain_of H.past node.now)) committed.change.history }
    requires alone { committed.change.gathering ≡ Stays }
    requires not_yet { committed.change.accepted ≡ false }
    requires same { committed.change.waiting ≡ WaitingChange.Same }
    requires committed { committed.acknowledged ≡ (changed (plain_of H.past node.now) committed.change).past.acknowledged }
    requires place { (nat_le position committed.acknowledged || not (is_full (plain_of H.past node.now))) ≡ true }
    ensures { IfOk result (λ r. IsComputed (plain_of H.past node.now) r (reply_transition (changed (plain_of H.past node.now) committed.change) position reply sends.items)) }
{
    let CommittingChange {
        change,
        acknowledged,
    } = committed;
    let ticket = Ticket::new(node.last_ticket.get() + 1);
    if position <= acknowledged {
        let outs = answer_first(sends, ticket, reply)?;
        let change = accepting(change, WaitingChange::Same);
        return Ok((change, accepted(ticket, outs)));
    }
    let waiting = WaitingUpdate {
        ticket,
        position: Seq::new(position),
        reply,
    };
    let change = accepting(change, WaitingChange::OneUpdate(waiting));
    Ok((change, accepted(ticket, sends)))
}

/// Returns the change that also commits the whole history if the node is last in its membership,
/// and the commit index after it.
fn committing<H: History>(node: &Node<H>, change: Change, length: u64) -> CommittingChange
    requires { change.acknowledged ≡ None }
    ensures change { result.change ≡ (if is_last (plain_of H.past node.now) then record change { acknowledged = Some length } else change) }
    ensures committed { result.acknowledged ≡ committed_then (plain_of H.past node.now) length }
{
    if last_member(node.members.as_slice()) != node.name.node {
        return CommittingChange {
            change,
            acknowledged: node.history.acknowledged(),
        };
    }
    let change = Change {
        accepted: change.accepted,
        membership: change.membership,
        history: change.history,
        gathering: change.gathering,
        acknowledged: Some(Seq::new(length)),
        floor: change.floor,
        becomes_ready: change.becomes_ready,
        waiting: change.waiting,
    };
    CommittingChange {
        change,
        acknowledged: length,
    }
}

/// Computes the step for an update whose number is not new and that can be taken: its reply waits
/// for a position of the history.
fn reported_again<H: History>(
    alloc: Global,
    node: &Node<H>,
    position: u64,
    reply: &Reply,
) -> Result<(Change, Step), AllocError>
    requires room { node.now.last_ticket < 2 ^ 64 - 1 }
    requires place { has_place (plain_of H.past node.now) (length_of (plain_of H.past node.now)) position ≡ true }
    ensures { IfOk result (λ r. IsComputed (plain_of H.past node.now) r (reply_transition (committed_if_last (plain_of H.past node.now)) position reply.now [])) }
{
    let reply = reply.copied(alloc)?;
    let committed = committing(node, Change::none(), node.history.len());
    let sends = Vec::new(alloc);
    replied(node, committed, position, reply, sends)
}

/// Computes the step for an update whose number is not new: its reply waits for its client's newest
/// entry.
fn asked_before<H: History>(
    alloc: Global,
    node: &Node<H>,
    client: ClientId,
    reply: &Reply,
) -> Result<(Change, Step), Refusal>
    requires { node.now.last_ticket < 2 ^ 64 - 1 }
    ensures { Computes (plain_of H.past node.now) result (reply_transition (committed_if_last (plain_of H.past node.now)) (position_of (plain_of H.past node.now) client) reply.now []) }
{
    let position = node.history.position_of(client);
    if !has_place(node, node.history.len(), position) {
        return Err(Refusal::PendingFull);
    }
    let computed = reported_again(alloc, node, position, reply)?;
    Ok(computed)
}

/// Computes the step for a new update that can be taken: its outcome becomes an entry, which goes
/// to the successor.
fn entered<H: History>(
    alloc: Global,
    node: &Node<H>,
    entry: Entry,
) -> Result<(Change, Step), AllocError>
    requires room { node.now.last_ticket < 2 ^ 64 - 1 }
    requires next { entry.position ≡ length_of (plain_of H.past node.now) + 1 }
    requires place { has_place (plain_of H.past node.now) entry.position entry.position ≡ true }
    ensures { IfOk result (λ r. IsComputed (plain_of H.past node.now) r (new_update_transition (plain_of H.past node.now) entry)) }
{
    let length = entry.position.get();
    let reply = entry.reply.copied(alloc)?;
    let mut sends = Vec::new(alloc);
    let sender = node.sender();
    let entries = only(alloc, entry)?;
    forward(
        &mut sends,
        alloc,
        &sender,
        node.members.as_slice(),
        entries.as_slice(),
    )?;
    let mut change = Change::none();
    change.history = HistoryChange::Grows(entries);
    let committed = committing(node, change, length);
    replied(node, committed, length, reply, sends)
}

/// Returns the outcome of a new update as the next entry.
fn entry_made<H: History>(
    alloc: Global,
    node: &Node<H>,
    client: ClientId,
    number: RequestNo,
    command: Checked,
) -> Result<Entry, AllocError>
    requires room { node.now.last_ticket < 2 ^ 64 - 1 }
    requires next { length_of (plain_of H.past node.now) < 2 ^ 64 - 1 }
    requires versions { HaveNext (newest_in (H.past node.now.history)).objects command }
    ensures { IfOk result (λ e. e ≡ entry_with (plain_of H.past node.now) client number (outcome_in (newest_in (H.past node.now.history)).objects command)) }
{
    let (writes, reply) = outcome(alloc, &node.history, command)?;
    Ok(Entry {
        position: Seq::new(node.history.len() + 1),
        origin_node: node.name.node,
        origin_ticket: Ticket::new(node.last_ticket.get() + 1),
        client,
        number,
        reply,
        writes,
    })
}

/// Computes the step for a new update at the head: it is evaluated on the newest state and becomes
/// the next entry. The errors `Exhausted` and `PendingFull` are found before anything is made; then
/// comes `Memory`.
#[tactic(auto, unfolding(craq_model::specs::Asks::update_transition, craq_model::specs::Plain::newest))]
fn compute_new<H: History>(
    alloc: Global,
    node: &Node<H>,
    update: Update,
) -> Result<(Change, Step), Refusal>
    requires { node.now.last_ticket < 2 ^ 64 - 1 }
    ensures { Computes (plain_of H.past node.now) result (update_transition (plain_of H.past node.now) update None) }
{
    let length = node.history.len();
    if length == u64::MAX {
        drop(update);
        return Err(Refusal::Exhausted);
    }
    let Some(command) = check(&node.history, update.command) else {
        return Err(Refusal::Exhausted);
    };
    if !has_place(node, length + 1, length + 1) {
        drop(command);
        return Err(Refusal::PendingFull);
    }
    let entry = entry_made(alloc, node, update.client, update.number, command)?;
    let computed = entered(alloc, node, entry)?;
    Ok(computed)
}

/// Computes the step for an update at a ready head that has a ticket left. A new number makes an
/// entry, at the next position. An earlier number gets the kept reply, or `Stale`, at the position
/// of its client's newest entry. If that position is committed, this step sends the reply; else the
/// update waits. The head decides an update and sends the resulting values (USENIX ATC 2009).
/// Entries for updates that write nothing, and at most 8 kept replies for a client, are this
/// project's profile.
///
/// The errors, in order, found before anything is evaluated or copied:
///
/// - `Exhausted` if a new one finds no next position, or names an object without a next version.
/// - `PendingFull` if it would have to wait and 1,024 requests wait.
/// - `Memory` only if none of these applies.
///
/// The value of a put is moved into the entry, and copied only for the successor.
#[tactic(auto, unfolding(craq_model::specs::Asks::update_transition, craq_model::specs::Plain::newest))]
pub fn compute_update<H: History>(
    alloc: Global,
    node: &Node<H>,
    update: Update,
) -> Result<(Change, Step), Refusal>
    requires { node.now.last_ticket < 2 ^ 64 - 1 }
    ensures { Computes (plain_of H.past node.now) result (update_transition (plain_of H.past node.now) update (said (newest (plain_of H.past node.now)) update.client update.number)) }
{
    let client = update.client;
    match node.history.said(client, update.number) {
        RequestStatus::New => compute_new(alloc, node, update),
        RequestStatus::Kept(reply) => {
            drop(update);
            asked_before(alloc, node, client, reply)
        }
        RequestStatus::Stale(last) => {
            drop(update);
            asked_before(alloc, node, client, &Reply::Stale(last))
        }
    }
}
