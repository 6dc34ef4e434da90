//! Tests the rules of a message that has an encoding, before it is written and after it is read;
//! used by `wire`.
ghost use Rattle.std.specs.Prelude.{◌≡◌};
ghost use Rattle.craq_model.specs.Parts.{item_count};
ghost use Rattle.std.specs.List.{list_all};
ghost use Rattle.craq_wire.specs.Tests.{are_consecutive, has_version, is_batch, is_body, is_client, is_entry, is_filled, is_from_its_sender, is_kept, is_membership, is_node, is_part, is_encodable, is_state, is_stored, is_window};

use crate::alike::{has_twice, rises};
use crate::{is_encodable_reply, is_fresh_reply};
use craq_commands::{Entry, Kept, Mini, State, WINDOW_LIMIT, Window, Write};
use craq_epochs::MEMBER_LIMIT;
use craq_model::{BATCH_LIMIT, Body, GREATEST_COUNT, LinkMessage, PART_LIMIT, StatePart};
use craq_names::{ClientId, Key, NodeId, Value, Version};

/// Returns true if each write has a version (at least 1).
fn have_versions(writes: &[Write]) -> bool
    ensures { result ≡ list_all has_version writes.now }
{
    writes.iter().all(|write| write.version.get() >= 1)
}

/// Tests the rules of entries.
#[tactic(auto, unfolding(crate::specs::Tests::is_entry))]
fn test_entry(entry: &Entry) -> bool
    ensures { result ≡ is_entry entry.now }
{
    entry.position.get() >= 1
        && entry.origin_node.get() >= 1
        && entry.origin_ticket.get() >= 1
        && is_encodable_reply(&entry.reply)
        && is_fresh_reply(&entry.reply)
        && entry.writes.len() <= Mini::MOST_ITEMS
        && have_versions(entry.writes.as_slice())
        && !has_twice(entry.writes.as_slice())
}

/// Returns true if each object has a version (at least 1).
fn are_stored(objects: &[(Key, (Version, Value))]) -> bool
    ensures { result ≡ list_all is_stored objects.now }
{
    objects.iter().all(|object| object.1.0.get() >= 1)
}

/// Returns true if each reply may be kept.
fn are_kept(replies: &[Kept]) -> bool
    ensures { result ≡ list_all is_kept replies.now }
{
    replies.iter().all(|kept| is_encodable_reply(&kept.1) && is_fresh_reply(&kept.1))
}

/// Tests the rules of a client's kept replies.
#[tactic(auto, unfolding(crate::specs::Tests::is_window))]
fn test_window(window: &Window) -> bool
    ensures { result ≡ is_window window.now }
{
    let replies = window.as_slice();
    !replies.is_empty() && replies.len() <= WINDOW_LIMIT && are_kept(replies) && rises(replies)
}

/// Returns true if the kept replies of each client keep their rules.
fn are_clients(kept: &[(ClientId, Window)]) -> bool
    ensures { result ≡ list_all is_client kept.now }
{
    kept.iter().all(|client| test_window(&client.1))
}

/// Tests the rules of states.
#[tactic(auto, unfolding(crate::specs::Tests::is_state))]
fn test_state(state: &State) -> bool
    ensures { result ≡ is_state state.now }
{
    let objects = state.objects.as_slice();
    let kept = state.kept.as_slice();
    objects.len() <= GREATEST_COUNT
        && kept.len() <= GREATEST_COUNT
        && are_stored(objects)
        && are_clients(kept)
        && rises(objects)
        && rises(kept)
}

/// Returns the number of items in a state.
fn items_in(state: &State) -> u128
    ensures { result ≡ item_count state.now }
{
    state.objects.len() as u128 + state.kept.len() as u128
}

/// Returns true if the part has 64 items or is the last.
fn is_filled_part(part: &StatePart) -> bool
    ensures { result ≡ is_filled part.now }
{
    part.number >= part.count || items_in(&part.state) == PART_LIMIT as u128
}

/// Tests the rules of parts of a state.
#[tactic(auto, unfolding(crate::specs::Tests::is_part))]
fn test_part(part: &StatePart) -> bool
    ensures { result ≡ is_part part.now }
{
    part.position.get() >= 1
        && part.number >= 1
        && part.number <= part.count
        && part.count >= 2
        && items_in(&part.state) >= 1
        && items_in(&part.state) <= PART_LIMIT as u128
        && is_filled_part(part)
        && test_state(&part.state)
}

/// Returns true if each entry keeps the rules of entries.
fn are_entries(entries: &[Entry]) -> bool
    ensures { result ≡ list_all is_entry entries.now }
{
    entries.iter().all(|entry| test_entry(entry))
}

/// Returns true if the positions are consecutive.
fn in_row(entries: &[Entry]) -> bool
    ensures { result ≡ are_consecutive entries.now }
{
    let mut rest = entries;
    while let [first, tail @ ..] = rest {
        if let [second, ..] = tail {
            if first.position.get().checked_add(1) != Some(second.position.get()) {
                return false;
            }
        }
        rest = tail;
    }
    true
}

/// Tests the rules of batches.
#[tactic(auto, unfolding(crate::specs::Tests::is_batch))]
fn test_batch(entries: &[Entry]) -> bool
    ensures { result ≡ is_batch entries.now }
{
    entries.len() >= 2 && entries.len() <= BATCH_LIMIT && are_entries(entries) && in_row(entries)
}

/// Returns true if each id is that of a node (at least 1).
fn are_nodes(members: &[NodeId]) -> bool
    ensures { result ≡ list_all is_node members.now }
{
    members.iter().all(|id| id.get() >= 1)
}

/// Tests the rules of memberships.
#[tactic(auto, unfolding(crate::specs::Tests::is_membership))]
fn test_membership(members: &[NodeId]) -> bool
    ensures { result ≡ is_membership members.now }
{
    !members.is_empty()
        && members.len() <= MEMBER_LIMIT
        && are_nodes(members)
        && !has_twice(members)
}

/// Tests the rules of bodies.
#[tactic(auto, unfolding(crate::specs::Tests::is_body))]
fn test_body(body: &Body) -> bool
    ensures { result ≡ is_body body.now }
{
    match body {
        Body::Config { members } => test_membership(members.as_slice()),
        Body::Entry(entry) => test_entry(entry),
        Body::Query { ticket, .. } => ticket.get() >= 1,
        Body::VersionIs { ticket, .. } => ticket.get() >= 1,
        Body::Copy { position, state } => position.get() >= 1 && test_state(state),
        Body::Part(part) => test_part(part),
        Body::Batch(entries) => test_batch(entries.as_slice()),
        Body::Ack(_) | Body::Blank(_) | Body::Floor(_) => true,
    }
}

/// Returns true if the sender is the master (0) exactly for a membership.
fn test_sender(sender: NodeId, body: &Body) -> bool
    ensures { result ≡ is_from_its_sender sender body.now }
{
    match body {
        Body::Config { .. } => sender.get() == 0,
        _ => sender.get() >= 1,
    }
}

/// Tests the rules of messages.
#[tactic(auto, unfolding(crate::specs::Tests::is_encodable))]
pub(crate) fn test_message(m: &LinkMessage) -> bool
    ensures { result ≡ is_encodable m.now }
{
    test_sender(m.sender, &m.body)
        && m.receiver.get() >= 1
        && m.stamp.get() >= 1
        && m.epoch.get() >= 1
        && test_body(&m.body)
}
