//! Encodes the messages of a step, and tells the steps whose messages can wait: one that only sends
//! an entry, and one that only acknowledges (`LoneAck`). For `messages`.
ghost use Rattle.std.specs.Prelude.{◌≡◌, ◌≤◌, ◌^◌, ◌==◌, ◌∷◌, [], length, nat_le, IfOk, IfSome, IsNone, None, OnOk};
ghost use Rattle.std.specs.List.{AllByRecursion, list_any};
ghost use Rattle.craq_runs.specs.Chain.{sent_in};
ghost use Rattle.craq_seat.specs.Numbered.{CanBeSent, named, numbered_from};
ghost use Rattle.craq_model.specs.Encodable.{IsEncodable};
ghost use Rattle.craq_running_node.specs.declared.encoding.Kind.TheVariants as kinds;
ghost use Rattle.craq_running_node.specs.Encoded.{Adds, AreSentAs, CanAdd, IsSentAs, MakesNeedless, OnlySends, Sends, brings_from, entries_from, link_class, lone_position};

use bytes::Bytes;
use craq_commands::Entry;
use craq_model::{Body, LinkMessage, Out, Step};
use craq_names::{ChainId, Epoch, NodeId, Seq, Stamp};
use craq_seat::Receipt;
use craq_wire::{encode, encode_as};
use std::alloc::{AllocError, Global};
use std::marker::Model;

/// Message classes that links and batches treat differently.
#[derive(Clone, Copy, Debug, PartialEq, Eq)]
pub enum Kind {
    /// One entry. A tick of its sender brings it too.
    Entry,
    /// An acknowledgement. A later one makes it needless.
    Ack,
    /// The word of a node that is not ready. The node repeats it at each tick.
    Blank,
    /// Any other message.
    Other,
}

/// An encoded message, its class, and the node that it goes to.
#[derive(Drop)]
pub struct Sent {
    pub to: NodeId,
    pub kind: Kind,
    pub bytes: Bytes,
}

/// Returns the class of a message.
fn kind_of(body: &Body) -> Kind
    ensures { result ≡ link_class body.now }
{
    match body {
        Body::Entry(_) => Kind::Entry,
        Body::Ack(_) => Kind::Ack,
        Body::Blank(_) => Kind::Blank,
        _ => Kind::Other,
    }
}

/// Returns the position of the entry that a step sends, if the step sends nothing else and answers
/// nobody. Takes no memory.
pub fn lone_entry(step: &Step) -> Option<Seq>
    ensures some { IfSome result (λ position. OnlySends kinds.Entry step.now.outs × (position ≡ lone_position step.now.outs)) }
    ensures none { IsNone result → ¬ (OnlySends kinds.Entry step.now.outs) }
{
    match step.outs.as_slice() {
        [Out::Send { message, .. }] => match &message.body {
            Body::Entry(entry) => Some(entry.position),
            _ => None,
        },
        _ => None,
    }
}

/// Returns whether one of some entries has this position or a later one.
fn any_from(entries: &[Entry], first: Seq) -> bool
    ensures { result ≡ list_any (λ e. nat_le first e.position) entries.now }
{
    for entry in entries {
        if first.get() <= entry.position.get() {
            return true;
        }
    }
    false
}

/// Returns whether a message brings an entry of this position or a later one.
fn brings_from(body: &Body, first: Seq) -> bool
    ensures { result ≡ brings_from first body.now }
{
    match body {
        Body::Entry(entry) => first.get() <= entry.position.get(),
        Body::Batch(entries) => any_from(entries.as_slice(), first),
        _ => false,
    }
}

/// Encodes a message under the step's receipt and this index. Fails only when out of memory.
fn encode_one(
    alloc: Global,
    message: &LinkMessage,
    receipt: Receipt,
    index: u32,
) -> Result<Sent, AllocError>
    requires { IsEncodable (named receipt index message.now) }
    ensures { IfOk result (λ sent. IsSentAs sent (named receipt index message.now)) }
{
    Ok(Sent {
        to: message.receiver,
        kind: kind_of(&message.body),
        bytes: encode_as(alloc, message, receipt.node, receipt.stamp, index)?,
    })
}

/// Encodes the message of an out, if it is one, behind those that are there, under the step's
/// receipt and the next index.
fn add_out(
    alloc: Global,
    sent: &mut Vec<Sent>,
    out: &Out,
    receipt: Receipt,
) -> Result<(), AllocError>
    requires { CanAdd receipt (length sent.old.items) out.now }
    ensures { OnOk result (Adds receipt sent.old.items sent.new.items out.now) }
{
    match out {
        Out::Send { message, .. } => {
            let index = sent.len() as u32;
            sent.push(encode_one(alloc, message, receipt, index)?)?;
            Ok(())
        }
        Out::Answer { .. } => Ok(()),
    }
}

/// Encodes the messages among outs, in order.
pub(crate) fn encode_outs(
    alloc: Global,
    outs: &[Out],
    receipt: &Receipt,
) -> Result<Vec<Sent>, AllocError>
    requires few { length (sent_in outs.now) ≤ 2 ^ 32 }
    requires spelled { AllByRecursion IsEncodable (numbered_from 0 receipt.now (sent_in outs.now)) }
    ensures { IfOk result (λ sent. AreSentAs sent.items (numbered_from 0 receipt.now (sent_in outs.now))) }
{
    let mut sent = Vec::new(alloc);
    for out in outs {
        add_out(alloc, &mut sent, out, *receipt)?;
    }
    Ok(sent)
}

/// Encodes those messages among outs that bring an entry of this position or a later one, in order.
pub(crate) fn encode_bringing(
    alloc: Global,
    outs: &[Out],
    receipt: &Receipt,
    first: Seq,
) -> Result<Vec<Sent>, AllocError>
    requires few { length (sent_in outs.now) ≤ 2 ^ 32 }
    requires spelled { AllByRecursion IsEncodable (numbered_from 0 receipt.now (sent_in outs.now)) }
    ensures { IfOk result (λ sent. AreSentAs sent.items (entries_from first (numbered_from 0 receipt.now (sent_in outs.now)))) }
{
    let mut sent = Vec::new(alloc);
    let mut index = 0u64;
    for out in outs {
        match out {
            Out::Send { message, .. } => {
                if brings_from(&message.body, first) {
                    sent.push(encode_one(alloc, message, *receipt, index as u32)?)?;
                }
                index += 1;
            }
            Out::Answer { .. } => (),
        }
    }
    Ok(sent)
}

/// The acknowledgement of a step that has no other output, under the step's receipt. A contract sees
/// the message. It has no drop: its holder encodes it, or lets it give way to one that makes it
/// needless.
pub struct LoneAck {
    chain: ChainId,
    sender: NodeId,
    receiver: NodeId,
    stamp: Stamp,
    epoch: Epoch,
    position: Seq,
}

impl Model for LoneAck {
    ghost use Rattle.craq_model.specs.declared.message.Body.TheVariants as bodies;
    ghost use Rattle.craq_model.specs.declared.message.LinkMessage.{LinkMessage};
    ghost use Rattle.craq_model.specs.Encodable.{IsEncodable};

    ghost Value = { LinkMessage };

    ghost view = { λ a. record { chain = a.chain; sender = a.sender; receiver = a.receiver; stamp = a.stamp; index = 0; epoch = a.epoch; body = bodies.Ack a.position } };

    ghost invariant = { λ a. IsEncodable (record { chain = a.chain; sender = a.sender; receiver = a.receiver; stamp = a.stamp; index = 0; epoch = a.epoch; body = bodies.Ack a.position }) };
}

/// Returns a message as the first of the step with this receipt, if it is an acknowledgement.
fn ack_under(message: &LinkMessage, receipt: Receipt) -> Option<LoneAck>
    requires { IsEncodable (named receipt 0 message.now) }
    ensures some { IfSome result (λ ack. (link_class message.now.body ≡ kinds.Ack) × (ack ≡ named receipt 0 message.now)) }
    ensures none { IsNone result → ¬ (link_class message.now.body ≡ kinds.Ack) }
{
    match &message.body {
        Body::Ack(position) => Some(LoneAck {
            chain: message.chain,
            sender: receipt.node,
            receiver: message.receiver,
            stamp: receipt.stamp,
            epoch: message.epoch,
            position: *position,
        }),
        _ => None,
    }
}

/// Returns the acknowledgement that an out sends, if it does.
#[tactic(auto, unfolding(craq_runs::specs::Chain::sent_in))]
fn ack_in(out: &Out, receipt: Receipt) -> Option<LoneAck>
    requires { CanAdd receipt 0 out.now }
    ensures some { IfSome result (λ ack. Sends kinds.Ack out.now × (numbered_from 0 receipt (sent_in (out.now ∷ [])) ≡ ack ∷ [])) }
    ensures none { IsNone result → ¬ (Sends kinds.Ack out.now) }
{
    match out {
        Out::Send { message, .. } => ack_under(message, receipt),
        Out::Answer { .. } => None,
    }
}

impl LoneAck {
    /// Returns the acknowledgement of a step that has no other output, under this receipt, and `None`
    /// for any other step. Takes no memory.
    pub fn of(step: &Step, receipt: Receipt) -> Option<Self>
        requires { CanBeSent receipt step.now.outs }
        ensures some { IfSome result (λ ack. OnlySends kinds.Ack step.now.outs × (numbered_from 0 receipt (sent_in step.now.outs) ≡ ack ∷ [])) }
        ensures none { IsNone result → ¬ (OnlySends kinds.Ack step.now.outs) }
    {
        match step.outs.as_slice() {
            [out] => ack_in(out, receipt),
            _ => None,
        }
    }

    /// Drops this acknowledgement if `later` makes it needless, and else gives it back. Takes no
    /// memory.
    pub fn give_way(self, later: &LoneAck) -> Option<Self>
        ensures gone { IsNone result → MakesNeedless later.now self }
        ensures stays { IfSome result (λ ack. (ack ≡ self) × ¬ (MakesNeedless later.now self)) }
    {
        let between_same = later.sender == self.sender && later.receiver == self.receiver;
        let under_same = later.chain == self.chain && later.epoch == self.epoch;
        if between_same && under_same && self.position <= later.position {
            let LoneAck {
                chain: _,
                sender: _,
                receiver: _,
                stamp: _,
                epoch: _,
                position: _,
            } = self;
            return None;
        }
        Some(self)
    }

    /// Encodes the acknowledgement. Fails only when out of memory.
    pub fn encode(self, alloc: Global) -> Result<Sent, AllocError>
        ensures { IfOk result (λ sent. IsSentAs sent self) }
    {
        let LoneAck {
            chain,
            sender,
            receiver,
            stamp,
            epoch,
            position,
        } = self;
        let message = LinkMessage {
            chain,
            sender,
            receiver,
            stamp,
            index: 0,
            epoch,
            body: Body::Ack(position),
        };
        Ok(Sent {
            to: receiver,
            kind: Kind::Ack,
            bytes: encode(alloc, &message)?,
        })
    }
}
