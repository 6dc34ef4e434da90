//! `compute_read`: the rule of a read, eventual, bounded or strong. `craq_node` calls it.
ghost use Rattle.std.specs.Prelude.{◌≡◌, ◌==◌, ◌<◌, ◌≤◌, ◌+◌, ◌-◌, ◌^◌, [], false, is_some, length, IfOk, IfErr, IfSome};
ghost use Rattle.craq_commands.specs.Objects.{object_of};
ghost use Rattle.craq_model.specs.Asks.{read_transition, waiting_read_transition};
ghost use Rattle.craq_model.specs.Past.{clean_in, newest_in, values_after};
ghost use Rattle.craq_history.specs.Change.{accepted_change};
ghost use Rattle.craq_history.specs.Nodes.{plain_of};
ghost use Rattle.craq_history.specs.Effects.{Computes};
ghost use Rattle.craq_read.specs.Answers.{read_step};

use craq_commands::ReadMode;
use craq_history::members::last_member;
use craq_history::outs::message;
use craq_history::steps::accepted;
use craq_history::{Change, History, Node, ObjectVersions, WaitingChange};
use craq_model::{Answer, Body, Out, Step, WaitingRead};
use craq_names::{Copied, Key, Refusal, Ticket, Value, Version};
use std::alloc::Global;

/// Computes a read at a ready node that has a ticket left. Eventual: replies with the newest
/// version held. Bounded: replies with the newest version held that is at most the bound above the
/// clean one. Strong: replies at once if the object is clean; if it is dirty, the read waits and
/// the last member is asked which version is committed (USENIX ATC 2009). Returns `PendingFull` if
/// the read would have to wait and 1,024 requests wait. Otherwise fails only when out of memory.
#[tactic(auto, unfolding(craq_model::specs::Asks::read_transition, craq_model::specs::Plain::newest, craq_model::specs::Plain::clean, craq_model::specs::Plain::entries_after))]
pub fn compute_read<H: History>(
    alloc: Global,
    node: &Node<H>,
    mode: ReadMode,
    key: &Key,
) -> Result<(Change, Step), Refusal>
    requires { node.now.last_ticket < 2 ^ 64 - 1 }
    ensures { Computes (plain_of H.past node.now) result (read_transition (plain_of H.past node.now) mode key.now) }
{
    match mode {
        ReadMode::Eventual => {
            let (version, value) = node.history.newest(key);
            answered(alloc, node.last_ticket, version, value)
        }
        ReadMode::Bounded(above) => {
            let (clean, _) = node.history.clean(key);
            let (version, value) = node.history.within(key, clean.get(), u64::from(above));
            answered(alloc, node.last_ticket, version, value)
        }
        ReadMode::Strong => match newest_if_clean(&node.history, key) {
            Some((version, value)) => answered(alloc, node.last_ticket, version, value),
            None => waits(alloc, node, key),
        },
    }
}

/// Returns an object's newest version and value if that version is the clean one.
fn newest_if_clean<'a, H: History>(history: &'a H, key: &Key) -> Option<(Version, &'a [u8])>
    ensures object { IfSome result (λ r. (r.0, r.1.now) ≡ object_of (newest_in (H.past history.now)).objects key.now) }
    ensures short { IfSome result (λ r. length r.1.now ≤ 4096) }
    ensures clean { is_some result ≡ ((object_of (newest_in (H.past history.now)).objects key.now).0 == (object_of (clean_in (H.past history.now)).objects key.now).0) }
{
    let ObjectVersions { newest, clean } = history.versions(key);
    if newest.0 == clean.0 {
        Some(newest)
    } else {
        None
    }
}

/// Computes the reply to a read in the step of its request.
fn answered(
    alloc: Global,
    last: Ticket,
    version: Version,
    value: &[u8],
) -> Result<(Change, Step), Refusal>
    requires room { last < 2 ^ 64 - 1 }
    requires short { length value.now ≤ 4096 }
    ensures ok { IfOk result (λ r. (r.0 ≡ accepted_change WaitingChange.Same) × (r.1 ≡ read_step (last + 1) version value.now)) }
    ensures err { IfErr result (λ e. e ≡ Refusal.Memory) }
{
    let ticket = Ticket::new(last.get() + 1);
    let value = Value::of(Vec::from_slice(alloc, value)?)?;
    let mut outs = Vec::new(alloc);
    outs.push(Out::Answer {
        ticket,
        answer: Answer::Read { version, value },
    })?;
    let mut change = Change::none();
    change.accepted = true;
    Ok((change, accepted(ticket, outs)))
}

/// Computes a read that waits for the last member's version.
#[tactic(auto, unfolding(craq_model::specs::Asks::waiting_read_transition, craq_model::specs::Asks::is_full))]
fn waits<H: History>(alloc: Global, node: &Node<H>, key: &Key) -> Result<(Change, Step), Refusal>
    requires { node.now.last_ticket < 2 ^ 64 - 1 }
    ensures { Computes (plain_of H.past node.now) result (waiting_read_transition (plain_of H.past node.now) key.now) }
{
    if node.is_full() {
        return Err(Refusal::PendingFull);
    }
    let ticket = Ticket::new(node.last_ticket.get() + 1);
    let last = last_member(node.members.as_slice());
    let body = Body::Query {
        ticket,
        key: key.copied(alloc)?,
    };
    let mut outs = Vec::new(alloc);
    outs.push(message(&node.sender(), last, body))?;
    let mut change = Change::none();
    change.accepted = true;
    change.waiting = WaitingChange::OneRead(WaitingRead {
        ticket,
        key: key.copied(alloc)?,
    });
    Ok((change, accepted(ticket, outs)))
}
