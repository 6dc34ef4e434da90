//! A node's sends. The rules of `craq_read` and `craq_write` call this.
ghost use Rattle.std.specs.Prelude.{◌≡◌, ◌<◌, ◌≤◌, ◌++◌, ◌∷◌, [], List, OnOk, OnErr, IfOk, map, take, length, option_to_list};
ghost use Rattle.craq_commands.specs.declared.entry.Entry.{Entry};
ghost use Rattle.craq_model.specs.declared.waiting.WaitingRead.{WaitingRead};
ghost use Rattle.craq_model.specs.Members.{successor_in, predecessor_in};
ghost use Rattle.craq_model.specs.Sends.{to_neighbour, entry_bodies};
ghost use Rattle.craq_history.specs.Standing.{sent_from, caught_up, ready_outs, unready_outs};

use crate::members::{last_member, predecessor_of, successor_of};
use craq_commands::Entry;
use craq_model::{BATCH_LIMIT, Body, LinkMessage, Out, WaitingRead};
use craq_names::{Copied, Epoch, Items, NodeId, NodeName, Seq, Stamp};
use std::alloc::{AllocError, Global};
use std::mem;

/// The sender of a message, and its epoch.
#[derive(Clone, Copy, Debug, PartialEq, Eq)]
pub struct Sender {
    pub name: NodeName,
    pub epoch: Epoch,
}

impl Sender {
    /// Returns the sender's id.
    pub fn id(&self) -> NodeId
        ensures { result ≡ self.now.name.node }
    {
        self.name.node
    }
}

/// The pending sends of a ready node: its entries without an acknowledgement, in two parts, and its
/// reads without a version.
#[derive(Clone, Copy)]
pub struct PendingSends<'a> {
    /// The entries of the history after the commit index.
    pub held: &'a [Entry],
    /// The entries that follow them and are not in the history yet.
    pub appended: &'a [Entry],
    /// The length of the history with both.
    pub length: Seq,
    /// The commit index.
    pub acknowledged: Seq,
    /// The reads that wait for a version.
    pub reads: &'a [WaitingRead],
}

/// Returns a message of the node in its epoch. `craq_seat` numbers the messages of a step: it sets
/// the stamp and the index (`numbered`).
pub fn message(sender: &Sender, to: NodeId, body: Body) -> Out
    ensures { result ≡ sent_from sender.now.name sender.now.epoch to body }
{
    Out::Send {
        to,
        message: LinkMessage {
            chain: sender.name.chain,
            sender: sender.name.node,
            receiver: to,
            stamp: Stamp::new(1),
            index: 0,
            epoch: sender.epoch,
            body,
        },
    }
}

/// Returns `added`; if that is an error, first truncates `outs` to `len` items.
fn undo_if_err(
    outs: &mut Vec<Out>,
    len: usize,
    added: Result<(), AllocError>,
) -> Result<(), AllocError>
    ensures value { result ≡ added }
    ensures all { OnOk result (outs.new.items ≡ outs.old.items) }
    ensures undone { OnErr result (outs.new.items ≡ take len outs.old.items) }
{
    if added.is_err() {
        outs.truncate(len);
    }
    added
}

/// Adds one message. The outs are unchanged on error.
fn send(outs: &mut Vec<Out>, sender: &Sender, to: NodeId, body: Body) -> Result<(), AllocError>
    ensures sent { OnOk result (outs.new.items ≡ outs.old.items ++ sent_from sender.now.name sender.now.epoch to body ∷ []) }
    ensures same { OnErr result (outs.new.items ≡ outs.old.items) }
{
    outs.push(message(sender, to, body))?;
    Ok(())
}

/// Returns a run of entries as one message, `None` if it is empty.
fn message_of(mut run: Vec<Entry>) -> Option<Body>
    requires { length run.items ≤ 16 }
    ensures { option_to_list result ≡ entry_bodies run.items }
{
    if run.as_slice().len() > 1 {
        return Some(Body::Batch(Items::of(run)));
    }
    match run.pop() {
        Some(entry) => Some(Body::Entry(entry)),
        None => None,
    }
}

/// Adds an entry to a run. A full run is added to the messages.
fn add_to_run(
    bodies: &mut Vec<Body>,
    alloc: Global,
    run: &mut Vec<Entry>,
    entry: Entry,
) -> Result<(), AllocError>
    requires { length run.old.items < 16 }
    ensures room { OnOk result (length run.new.items < 16) }
    ensures made { OnOk result ((rest : List Entry)
        → bodies.new.items ++ entry_bodies (run.new.items ++ rest) ≡ bodies.old.items ++ entry_bodies (run.old.items ++ entry ∷ rest)) }
{
    run.push(entry)?;
    if run.as_slice().len() < BATCH_LIMIT {
        return Ok(());
    }
    let full = mem::replace(run, Vec::new(alloc));
    bodies.push(Body::Batch(Items::of(full)))?;
    Ok(())
}

/// Adds entries to a run. Each full run is added to the messages.
fn add_to_runs(
    bodies: &mut Vec<Body>,
    alloc: Global,
    run: &mut Vec<Entry>,
    entries: &[Entry],
) -> Result<(), AllocError>
    requires { length run.old.items < 16 }
    ensures room { OnOk result (length run.new.items < 16) }
    ensures made { OnOk result ((rest : List Entry)
        → bodies.new.items ++ entry_bodies (run.new.items ++ rest) ≡ bodies.old.items ++ entry_bodies (run.old.items ++ (entries.now ++ rest))) }
{
    for entry in entries {
        add_to_run(bodies, alloc, run, entry.copied(alloc)?)?;
    }
    Ok(())
}

/// Returns the messages that send consecutive entries, given in two parts.
fn bodies_of(alloc: Global, entries: &[Entry], later: &[Entry]) -> Result<Vec<Body>, AllocError>
    ensures { IfOk result λ bodies. bodies.items ≡ entry_bodies (entries.now ++ later.now) }
{
    let mut bodies = Vec::new(alloc);
    let mut run = Vec::new(alloc);
    add_to_runs(&mut bodies, alloc, &mut run, entries)?;
    add_to_runs(&mut bodies, alloc, &mut run, later)?;
    match message_of(run) {
        Some(body) => {
            bodies.push(body)?;
            Ok(bodies)
        }
        None => Ok(bodies),
    }
}

/// Adds each of these messages. The outs are unchanged on error.
fn send_all(
    outs: &mut Vec<Out>,
    sender: &Sender,
    to: NodeId,
    bodies: Vec<Body>,
) -> Result<(), AllocError>
    ensures sent { OnOk result (outs.new.items ≡ outs.old.items ++ map (sent_from sender.now.name sender.now.epoch to) bodies.items) }
    ensures same { OnErr result (outs.new.items ≡ outs.old.items) }
{
    let len = outs.len();
    for body in bodies {
        let sent = send(outs, sender, to, body);
        undo_if_err(outs, len, sent)?;
    }
    Ok(())
}

/// Adds the sends of consecutive entries. They go in runs of 16: a run of one as an entry, a longer
/// one as a batch (this project's profile). Fails only when out of memory; the outs are unchanged
/// on error.
pub fn send_entries(
    outs: &mut Vec<Out>,
    alloc: Global,
    sender: &Sender,
    to: NodeId,
    entries: &[Entry],
) -> Result<(), AllocError>
    ensures sent { OnOk result (outs.new.items ≡ outs.old.items ++ map (sent_from sender.now.name sender.now.epoch to) (entry_bodies entries.now)) }
    ensures same { OnErr result (outs.new.items ≡ outs.old.items) }
{
    let bodies = bodies_of(alloc, entries, &[])?;
    send_all(outs, sender, to, bodies)
}

/// Adds a version query for this read to the last member. The outs are unchanged on error.
fn send_query(
    outs: &mut Vec<Out>,
    alloc: Global,
    sender: &Sender,
    to: NodeId,
    read: &WaitingRead,
) -> Result<(), AllocError>
    ensures sent { OnOk result (outs.new.items ≡ outs.old.items ++ sent_from sender.now.name sender.now.epoch to (Body.Query read.now.ticket read.now.key) ∷ []) }
    ensures same { OnErr result (outs.new.items ≡ outs.old.items) }
{
    let body = Body::Query {
        ticket: read.ticket,
        key: read.key.copied(alloc)?,
    };
    send(outs, sender, to, body)
}

/// Adds version queries for these reads to the last member. The outs are unchanged on error.
fn send_queries(
    outs: &mut Vec<Out>,
    alloc: Global,
    sender: &Sender,
    to: NodeId,
    reads: &[WaitingRead],
) -> Result<(), AllocError>
    ensures sent { OnOk result (outs.new.items ≡ outs.old.items ++ map (λ (r : WaitingRead). sent_from sender.now.name sender.now.epoch to (Body.Query r.ticket r.key)) reads.now) }
    ensures same { OnErr result (outs.new.items ≡ outs.old.items) }
{
    let len = outs.len();
    for read in reads {
        let sent = send_query(outs, alloc, sender, to, read);
        undo_if_err(outs, len, sent)?;
    }
    Ok(())
}

/// Adds the pending entries, and the length of the history, to the successor. The outs are
/// unchanged on error.
fn catch_up(
    outs: &mut Vec<Out>,
    alloc: Global,
    sender: &Sender,
    members: &[NodeId],
    pending: &PendingSends<'_>,
) -> Result<(), AllocError>
    ensures sent { OnOk result (outs.new.items ≡ outs.old.items ++ to_neighbour (successor_in members.now sender.now.name.node) (caught_up sender.now.name sender.now.epoch (pending.now.held.now ++ pending.now.appended.now) pending.now.length)) }
    ensures same { OnErr result (outs.new.items ≡ outs.old.items) }
{
    let own = sender.id();
    let Some(to) = successor_of(members, own) else {
        return Ok(());
    };
    let len = outs.len();
    let bodies = bodies_of(alloc, pending.held, pending.appended)?;
    send_all(outs, sender, to, bodies)?;
    let sent = send(outs, sender, to, Body::Floor(pending.length));
    undo_if_err(outs, len, sent)
}

/// Adds a message to the predecessor, if there is one. Fails only when out of memory; the outs are
/// unchanged on error.
pub fn tell_predecessor(
    outs: &mut Vec<Out>,
    sender: &Sender,
    members: &[NodeId],
    body: Body,
) -> Result<(), AllocError>
    ensures sent { OnOk result (outs.new.items ≡ outs.old.items ++ to_neighbour (predecessor_in members.now sender.now.name.node) (λ to. sent_from sender.now.name sender.now.epoch to body ∷ [])) }
    ensures same { OnErr result (outs.new.items ≡ outs.old.items) }
{
    let own = sender.id();
    match predecessor_of(members, own) {
        Some(to) => send(outs, sender, to, body),
        None => Ok(()),
    }
}

/// Adds the sends that a ready node repeats. To its successor: the entries after the commit index
/// and the length of its history. To its predecessor: the commit index. To the last member, if that
/// is another: a query for each waiting read. Fails only when out of memory; the outs are unchanged
/// on error.
pub fn add_ready_outs(
    outs: &mut Vec<Out>,
    alloc: Global,
    sender: &Sender,
    members: &[NodeId],
    pending: &PendingSends<'_>,
) -> Result<(), AllocError>
    ensures sent { OnOk result (outs.new.items ≡ outs.old.items ++ ready_outs sender.now.name sender.now.epoch members.now (pending.now.held.now ++ pending.now.appended.now) pending.now.length pending.now.acknowledged pending.now.reads.now) }
    ensures same { OnErr result (outs.new.items ≡ outs.old.items) }
{
    let len = outs.len();
    catch_up(outs, alloc, sender, members, pending)?;
    let reported = tell_predecessor(outs, sender, members, Body::Ack(pending.acknowledged));
    undo_if_err(outs, len, reported)?;
    let last = last_member(members);
    if last == sender.id() {
        return Ok(());
    }
    let asked = send_queries(outs, alloc, sender, last, pending.reads);
    undo_if_err(outs, len, asked)
}

/// Adds the send that an unready node repeats: its entry count, to its predecessor. Fails only when
/// out of memory; the outs are unchanged on error.
pub fn add_unready_outs(
    outs: &mut Vec<Out>,
    sender: &Sender,
    members: &[NodeId],
    length: u64,
) -> Result<(), AllocError>
    ensures sent { OnOk result (outs.new.items ≡ outs.old.items ++ unready_outs sender.now.name sender.now.epoch members.now length) }
    ensures same { OnErr result (outs.new.items ≡ outs.old.items) }
{
    tell_predecessor(outs, sender, members, Body::Blank(Seq::new(length)))
}
