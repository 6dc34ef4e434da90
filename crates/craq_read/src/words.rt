//! The rules of a version query to the tail and of its reply, for strong reads of dirty objects.
//! `craq_node` calls them.
ghost use Rattle.std.specs.Prelude.{◌≡◌, IfOk, IsOk, IsSome};
ghost use Rattle.std.specs.Option.{option_copied};
ghost use Rattle.craq_model.specs.Deliveries.{query_transition, version_transition, reported_version_transition, read_with};
ghost use Rattle.craq_history.specs.Nodes.{plain_of};
ghost use Rattle.craq_history.specs.Effects.{IsEffectOf};

use craq_history::members::{is_member_of, last_member};
use craq_history::outs::message;
use craq_history::steps::{done, ignoring};
use craq_history::{Change, History, Node, ObjectVersions, WaitingChange};
use craq_model::{Answer, Body, Out, Step, WaitingRead, Why};
use craq_names::{Key, NodeId, Ticket, Value, Version};
use std::alloc::{AllocError, Global};

/// Computes the reply to another member's query which version of an object is committed. The tail
/// replies with its newest version, which is committed there (USENIX ATC 2009). Ignored if the
/// sender is no other member (`NotNeighbour`) or this node is not the tail (`NotReadyHere`).
#[tactic(auto, unfolding(craq_model::specs::Deliveries::query_transition, craq_model::specs::Plain::newest))]
pub fn compute_query<H: History>(
    alloc: Global,
    node: &Node<H>,
    sender: NodeId,
    ticket: Ticket,
    key: &Key,
) -> Result<(Change, Step), AllocError>
    ensures transition { IfOk result (λ r. IsEffectOf (plain_of H.past node.now) r (query_transition (plain_of H.past node.now) sender ticket key.now)) }
    ensures free { IsSome (query_transition (plain_of H.past node.now) sender ticket key.now).1.ignored → IsOk result }
{
    let own = node.name.node;
    let members = node.members.as_slice();
    if sender == own || !is_member_of(members, sender) {
        return Ok((Change::none(), ignoring(alloc, Why::NotNeighbour)));
    }
    if !(node.ready && last_member(members) == own) {
        return Ok((Change::none(), ignoring(alloc, Why::NotReadyHere)));
    }
    let (version, _) = node.history.newest(key);
    let body = Body::VersionIs { ticket, version };
    let mut outs = Vec::new(alloc);
    outs.push(message(&node.sender(), sender, body))?;
    Ok((Change::none(), done(outs)))
}

/// Returns the waiting read of a ticket, `None` if no read waits under it.
#[tactic(auto, unfolding(craq_model::specs::Deliveries::read_with))]
fn waiting_read(reads: &[WaitingRead], ticket: Ticket) -> Option<&WaitingRead>
    ensures { option_copied result ≡ read_with ticket reads.now }
{
    for read in reads {
        if read.ticket == ticket {
            return Some(read);
        }
    }
    None
}

/// Computes the delivery of a committed version from the tail. The read that waits for it gets that
/// version, or the clean one if that is later. Ignored if the sender is not the last member
/// (`NotNeighbour`), if no read waits under the ticket (`UnknownTicket`), or if the version is
/// above the newest held (`TooFar`).
#[tactic(auto, unfolding(craq_model::specs::Deliveries::version_transition, craq_model::specs::Deliveries::reported_version_transition))]
pub fn compute_version<H: History>(
    alloc: Global,
    node: &Node<H>,
    sender: NodeId,
    ticket: Ticket,
    version: Version,
) -> Result<(Change, Step), AllocError>
    ensures transition { IfOk result (λ r. IsEffectOf (plain_of H.past node.now) r (version_transition (plain_of H.past node.now) sender ticket version)) }
    ensures free { IsSome (version_transition (plain_of H.past node.now) sender ticket version).1.ignored → IsOk result }
{
    if sender != last_member(node.members.as_slice()) {
        return Ok((Change::none(), ignoring(alloc, Why::NotNeighbour)));
    }
    let Some(read) = waiting_read(node.waiting_reads.as_slice(), ticket) else {
        return Ok((Change::none(), ignoring(alloc, Why::UnknownTicket)));
    };
    reported(alloc, node, version, read)
}

/// Computes the reply to a waiting read, given a committed version.
#[tactic(auto, unfolding(craq_model::specs::Deliveries::reported_version_transition, craq_model::specs::Plain::newest, craq_model::specs::Plain::clean, craq_model::specs::Plain::entries_after))]
fn reported<H: History>(
    alloc: Global,
    node: &Node<H>,
    version: Version,
    read: &WaitingRead,
) -> Result<(Change, Step), AllocError>
    ensures transition { IfOk result (λ r. IsEffectOf (plain_of H.past node.now) r (reported_version_transition (plain_of H.past node.now) version (Some read.now))) }
    ensures free { IsSome (reported_version_transition (plain_of H.past node.now) version (Some read.now)).1.ignored → IsOk result }
{
    let ObjectVersions { newest, clean } = node.history.versions(&read.key);
    if newest.0 < version {
        return Ok((Change::none(), ignoring(alloc, Why::TooFar)));
    }
    let known = version.get().max(clean.0.get());
    let (version, bytes) = node.history.within(&read.key, known, 0);
    let value = Value::of(Vec::from_slice(alloc, bytes)?)?;
    let mut outs = Vec::new(alloc);
    outs.push(Out::Answer {
        ticket: read.ticket,
        answer: Answer::Read { version, value },
    })?;
    let mut change = Change::none();
    change.waiting = WaitingChange::ReadAnswered(read.ticket);
    Ok((change, done(outs)))
}
