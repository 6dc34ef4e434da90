//! The messages of a step on their way to other nodes. `Wire`, `Messages` and `OwedAck` hold bytes
//! with a token that has seen the step.
//!
//! Encodes what the last step of a node, or of a master, sends: all messages, those alone that bring
//! entries, or the one that can wait. The batches of `craq_running_chain` call this under the node's
//! lock; `craq_locked_chain` calls it for the master.
ghost use Rattle.std.specs.Prelude.{◌≡◌, IfOk, ◌==◌, ◌∷◌, [], length, IfSome, IsNone, None, ◌⊎◌};
ghost use Rattle.craq_causality.specs.Causal.{WasSent};
ghost use Rattle.craq_store_history.specs.Entries.{lines_in};
ghost use Rattle.craq_running_node.specs.Encoded.{AreSentBytes, AreSentAs, AreWired, IsOutgoing, IsSentAs, MakesNeedless, OnlySends, entries_from, lone_position};
ghost use Rattle.craq_wire.specs.Encoding.{Encodes};
ghost use Rattle.craq_runs.specs.Chain.{sent_in};
ghost use Rattle.craq_seat.specs.Numbered.{CanBeSent, numbered_from};
ghost use Rattle.craq_running_node.specs.declared.encoding.Kind.TheVariants as kinds;
ghost use Rattle.std.specs.Option.{option_copied};
ghost use Rattle.craq_seat.specs.Cells.{receipt_of};

use crate::encoding::{Kind, LoneAck, Sent, encode_bringing, encode_outs, lone_entry};
use crate::recorded_book::RecordedBook;
use crate::steps::SeatedNode;
use bytes::Bytes;
use craq_ghost_history::Named;
use craq_model::{LinkMessage, Step};
use craq_names::{ChainId, NodeId, Refusal, Seq};
use craq_node::Core;
use craq_seat::{BookCell, Cell, Receipt};
use craq_store_parts::{Losses, StoreHistory, StoreToken};
use craq_wire::decode;
use std::alloc::{AllocError, Global};
use std::marker::Model;
use std::vec::IntoIter;

/// The bytes of a message on their way: in the token's history a node of the chain, or its master,
/// sent the message.
#[derive(Drop)]
pub struct Wire<N: Named> {
    chain: ChainId,
    bytes: Bytes,
    token: StoreToken<N>,
}

impl<N: Named> Model for Wire<N> {
    ghost use Rattle.craq_running_node.specs.Encoded.{AreSentBytes, Wired};

    ghost Value = { Wired };

    ghost view = { λ w. record { chain = w.chain; bytes = w.bytes } };

    ghost invariant = { λ w. AreSentBytes w.chain w.bytes w.token };
}

impl<N: Named> Wire<N> {
    /// Puts bytes on their way that encode a message which was sent in the token's history.
    pub fn new(chain: ChainId, bytes: Bytes, token: StoreToken<N>) -> Self
        requires { AreSentBytes chain bytes token }
        ensures chain { result.chain ≡ chain }
        ensures bytes { result.bytes ≡ bytes }
    {
        Wire {
            chain,
            bytes,
            token,
        }
    }

    /// Returns the chain of the node, or the master, that sent the message. Never allocates.
    pub fn chain(&self) -> ChainId
        ensures { result ≡ self.now.chain }
    {
        self.chain
    }

    /// Returns a copy, as a link that repeats a message makes it. Fails only when out of memory.
    pub fn again(&mut self, history: &StoreHistory<N>) -> Result<Self, AllocError>
        ensures copy { IfOk result (λ w. w ≡ self.old) }
        ensures same { self.new ≡ self.old }
    {
        let bytes = self.bytes.clone()?;
        Ok(Wire {
            chain: self.chain,
            bytes,
            token: self.token.again(history),
        })
    }

    /// Reads the message, which was sent in the returned token's history. The one refusal is
    /// `Memory`, since the bytes encode a message.
    pub fn read(self, alloc: Global) -> Result<(LinkMessage, StoreToken<N>), Refusal>
        ensures sent { IfOk result (λ r. WasSent (lines_in self.chain r.1) r.0) }
        ensures spelled { IfOk result (λ r. Encodes r.0 self.bytes) }
    {
        let Wire {
            chain: _,
            bytes,
            token,
        } = self;
        match decode(alloc, bytes.as_slice()) {
            Ok(message) => Ok((message, token)),
            Err(refusal) => {
                drop(token);
                Err(refusal)
            }
        }
    }
}

/// A message on its way to a node, and its class.
#[derive(Drop)]
pub struct Outgoing<N: Named> {
    pub to: NodeId,
    pub kind: Kind,
    pub wire: Wire<N>,
}

/// Encoded messages, in order, each of which was sent in the token's history. A contract sees those
/// that are left.
#[derive(Drop)]
pub struct Messages<N: Named> {
    chain: ChainId,
    left: IntoIter<Sent>,
    token: StoreToken<N>,
}

impl<N: Named> Model for Messages<N> {
    ghost use Rattle.craq_running_node.specs.Encoded.{AreWired, Leaving};

    ghost Value = { Leaving };

    ghost view = { λ m. record { chain = m.chain; sent = m.left.rest.items } };

    ghost invariant = { λ m. AreWired m.chain m.token m.left.rest.items };
}

impl<N: Named> Messages<N> {
    /// Takes messages that were sent in the token's history.
    pub fn new(chain: ChainId, sent: Vec<Sent>, token: StoreToken<N>) -> Self
        requires { AreWired chain token sent.items }
        ensures { result ≡ record { chain = chain; sent = sent.items } }
    {
        Messages {
            chain,
            left: sent.into_iter(),
            token,
        }
    }

    /// Returns whether no message is left. Never allocates.
    pub fn is_empty(&self) -> bool
        ensures { result ≡ (length self.now.sent == 0) }
    {
        self.left.len() == 0
    }

    /// Takes the next message, if one is left.
    pub fn next(&mut self, history: &StoreHistory<N>) -> Option<Outgoing<N>>
        ensures next { IfSome result (λ o. IsOutgoing self.old o.to o.kind o.wire self.new) }
        ensures none { result ≡ None → self.old.sent ≡ [] }
    {
        match self.left.next() {
            None => None,
            Some(message) => {
                let Sent { to, kind, bytes } = message;
                let token = self.token.again(history);
                Some(Outgoing {
                    to,
                    kind,
                    wire: Wire::new(self.chain, bytes, token),
                })
            }
        }
    }
}

/// The acknowledgement of a step that has no other output, sent in the token's history. It
/// has no drop: its holder encodes it, or lets it give way. A contract sees the message.
pub struct OwedAck<N: Named> {
    chain: ChainId,
    ack: LoneAck,
    token: StoreToken<N>,
}

impl<N: Named> Model for OwedAck<N> {
    ghost use Rattle.craq_model.specs.declared.message.LinkMessage.{LinkMessage};
    ghost use Rattle.craq_causality.specs.Causal.{WasSent};
    ghost use Rattle.craq_store_history.specs.Entries.{lines_in};

    ghost Value = { LinkMessage };

    ghost view = { λ o. o.ack };

    ghost invariant = { λ o. WasSent (lines_in o.chain o.token) o.ack };
}

impl<N: Named> OwedAck<N> {
    /// Owes an acknowledgement that was sent in the token's history.
    pub fn new(chain: ChainId, ack: LoneAck, token: StoreToken<N>) -> Self
        requires { WasSent (lines_in chain token) ack }
        ensures { result ≡ ack }
    {
        OwedAck { chain, ack, token }
    }

    /// Drops this acknowledgement if `later` makes it needless, and else gives it back. Takes no
    /// memory.
    pub fn give_way(self, later: &Self) -> Option<Self>
        ensures gone { IsNone result → MakesNeedless later.now self }
        ensures stays { IfSome result (λ ack. (ack ≡ self) × ¬ (MakesNeedless later.now self)) }
    {
        let OwedAck { chain, ack, token } = self;
        match ack.give_way(&later.ack) {
            None => {
                drop(token);
                None
            }
            Some(ack) => Some(OwedAck { chain, ack, token }),
        }
    }

    /// Encodes the acknowledgement. Fails only when out of memory.
    pub fn encode(self, alloc: Global) -> Result<Outgoing<N>, AllocError>
        ensures { IfOk result (λ o. IsSentAs (record { to = o.to; kind = o.kind; bytes = o.wire.bytes }) self) }
    {
        let OwedAck { chain, ack, token } = self;
        match ack.encode(alloc) {
            Err(failed) => {
                drop(token);
                Err(failed)
            }
            Ok(sent) => {
                let Sent { to, kind, bytes } = sent;
                Ok(Outgoing {
                    to,
                    kind,
                    wire: Wire::new(chain, bytes, token),
                })
            }
        }
    }
}

/// Encodes the messages that a step sends, in order.
///
/// Each has the receipt's node as its sender, the receipt's stamp, and its index among them, from 0
/// (`craq_seat::numbered`). Fails only when out of memory.
#[tactic(auto, using(craq_seat::proofs::Sending::sent_encodable))]
pub fn encode_sent(alloc: Global, step: &Step, receipt: Receipt) -> Result<Vec<Sent>, AllocError>
    requires { CanBeSent receipt step.now.outs }
    ensures { IfOk result (λ sent. AreSentAs sent.items (numbered_from 0 receipt (sent_in step.now.outs))) }
{
    encode_outs(alloc, step.outs.as_slice(), &receipt)
}

/// Encodes those messages of a step that bring an entry of this position or a later one, in order.
///
/// Each has the receipt's node as its sender, the receipt's stamp, and its index among all messages
/// of the step, from 0. Fails only when out of memory.
#[tactic(auto, using(craq_seat::proofs::Sending::sent_encodable))]
pub fn encode_entries(
    alloc: Global,
    step: &Step,
    receipt: Receipt,
    first: Seq,
) -> Result<Vec<Sent>, AllocError>
    requires { CanBeSent receipt step.now.outs }
    ensures { IfOk result (λ sent. AreSentAs sent.items (entries_from first (numbered_from 0 receipt (sent_in step.now.outs)))) }
{
    encode_bringing(alloc, step.outs.as_slice(), &receipt, first)
}

/// Encodes what a step sends, under its receipt. Out of memory, it is lost and counted.
fn sent_by(alloc: Global, losses: &Losses, step: Option<&Step>, receipt: Receipt) -> Vec<Sent>
    requires { IfSome (option_copied step) (λ s. CanBeSent receipt s.outs) }
    ensures sent { IfSome (option_copied step.entry) (λ s. (result.items ≡ []) ⊎ AreSentAs result.items (numbered_from 0 receipt (sent_in s.outs))) }
    ensures none { option_copied step.entry ≡ None → result.items ≡ [] }
{
    match step {
        None => Vec::new(alloc),
        Some(step) => match encode_sent(alloc, step, receipt) {
            Ok(sent) => sent,
            Err(_) => {
                losses.add();
                Vec::new(alloc)
            }
        },
    }
}

/// Encodes those messages of a step that bring an entry of this position or a later one, under its
/// receipt. Out of memory, they are lost and counted.
fn entries_by(
    alloc: Global,
    losses: &Losses,
    step: Option<&Step>,
    receipt: Receipt,
    first: Seq,
) -> Vec<Sent>
    requires { IfSome (option_copied step) (λ s. CanBeSent receipt s.outs) }
    ensures sent { IfSome (option_copied step.entry) (λ s. (result.items ≡ []) ⊎ AreSentAs result.items (entries_from first (numbered_from 0 receipt (sent_in s.outs)))) }
    ensures none { option_copied step.entry ≡ None → result.items ≡ [] }
{
    match step {
        None => Vec::new(alloc),
        Some(step) => match encode_entries(alloc, step, receipt, first) {
            Ok(sent) => sent,
            Err(_) => {
                losses.add();
                Vec::new(alloc)
            }
        },
    }
}

/// Returns the receipt of the last step of a cell.
fn last_receipt<C: Core>(cell: &Cell<C>) -> Receipt
    ensures { result ≡ receipt_of cell.now }
{
    Receipt {
        node: cell.opening().name.node,
        stamp: cell.stamp(),
    }
}

/// Encodes what a cell's last step sends. Out of memory, it is lost and counted.
fn sent_by_cell<C: Core>(alloc: Global, losses: &Losses, cell: &Cell<C>) -> Vec<Sent>
    ensures sent { IfSome cell.now.last (λ s. (result.items ≡ []) ⊎ AreSentAs result.items (numbered_from 0 (receipt_of cell.now) (sent_in s.outs))) }
    ensures none { cell.now.last ≡ None → result.items ≡ [] }
{
    sent_by(alloc, losses, cell.last(), last_receipt(cell))
}

/// Encodes what a node's last step sends. Out of memory, it is lost and counted.
pub fn messages_of<C: Core + Named>(
    alloc: Global,
    losses: &Losses,
    history: &StoreHistory<C>,
    seated: &mut SeatedNode<C>,
) -> Messages<C>
    ensures sent { IfSome seated.old.desk.cell.last (λ s. (result.sent ≡ []) ⊎ AreSentAs result.sent (numbered_from 0 (receipt_of seated.old.desk.cell) (sent_in s.outs))) }
    ensures none { seated.old.desk.cell.last ≡ None → result.sent ≡ [] }
    ensures same { seated.new ≡ seated.old }
{
    let chain = seated.desk.cell().opening().name.chain;
    let sent = sent_by_cell(alloc, losses, seated.desk.cell());
    Messages::new(chain, sent, seated.desk.token(history))
}

/// Returns the acknowledgement of a node's last step, if the step has no other output.
pub fn owed_by<C: Core + Named>(
    history: &StoreHistory<C>,
    seated: &mut SeatedNode<C>,
) -> Option<OwedAck<C>>
    ensures only { IfSome result (λ ack. IfSome seated.old.desk.cell.last (λ s. OnlySends kinds.Ack s.outs × (numbered_from 0 (receipt_of seated.old.desk.cell) (sent_in s.outs) ≡ ack ∷ []))) }
    ensures other { IsNone result → IfSome seated.old.desk.cell.last (λ s. ¬ (OnlySends kinds.Ack s.outs)) }
    ensures none { seated.old.desk.cell.last ≡ None → IsNone result }
    ensures same { seated.new ≡ seated.old }
{
    let chain = seated.desk.cell().opening().name.chain;
    match lone_ack_of(seated.desk.cell()) {
        None => None,
        Some(ack) => Some(OwedAck::new(chain, ack, seated.desk.token(history))),
    }
}

/// Returns the acknowledgement of a cell's last step, if the step has no other output.
fn lone_ack_of<C: Core>(cell: &Cell<C>) -> Option<LoneAck>
    ensures only { IfSome result (λ ack. IfSome cell.now.last (λ s. OnlySends kinds.Ack s.outs × (numbered_from 0 (receipt_of cell.now) (sent_in s.outs) ≡ ack ∷ []))) }
    ensures other { IsNone result → IfSome cell.now.last (λ s. ¬ (OnlySends kinds.Ack s.outs)) }
    ensures none { cell.now.last ≡ None → IsNone result }
{
    LoneAck::of(cell.last()?, last_receipt(cell))
}

/// Returns the position of the entry that a node's last step sends, if the step has no other output.
pub fn lone_entry_of<C: Core>(cell: &Cell<C>) -> Option<Seq>
    ensures some { IfSome result (λ position. IfSome cell.now.last (λ s. OnlySends kinds.Entry s.outs × (position ≡ lone_position s.outs))) }
    ensures none { IsNone result → IfSome cell.now.last (λ s. ¬ (OnlySends kinds.Entry s.outs)) }
{
    lone_entry(cell.last()?)
}

/// Encodes those messages of a node's last step that bring an entry of this position or a later
/// one, in order. Out of memory, they are lost and counted.
pub fn entries_of<C: Core + Named>(
    alloc: Global,
    losses: &Losses,
    history: &StoreHistory<C>,
    seated: &mut SeatedNode<C>,
    first: Seq,
) -> Messages<C>
    ensures sent { IfSome seated.old.desk.cell.last (λ s. (result.sent ≡ []) ⊎ AreSentAs result.sent (entries_from first (numbered_from 0 (receipt_of seated.old.desk.cell) (sent_in s.outs)))) }
    ensures none { seated.old.desk.cell.last ≡ None → result.sent ≡ [] }
    ensures same { seated.new ≡ seated.old }
{
    let cell = seated.desk.cell();
    let chain = cell.opening().name.chain;
    let sent = entries_by(alloc, losses, cell.last(), last_receipt(cell), first);
    Messages::new(chain, sent, seated.desk.token(history))
}

/// Encodes what a master's last step sends. Out of memory, it is lost, and no node counts it.
pub fn messages_of_book<N: Named>(
    alloc: Global,
    history: &StoreHistory<N>,
    book: &mut RecordedBook<N>,
) -> Messages<N>
    ensures sent { IfSome book.old.last (λ s. (result.sent ≡ []) ⊎ AreSentAs result.sent (numbered_from 0 (receipt_of book.old) (sent_in s.outs))) }
    ensures none { book.old.last ≡ None → result.sent ≡ [] }
    ensures same { book.new ≡ book.old }
{
    let chain = book.cell().opening().name.chain;
    let sent = sent_by_book(alloc, book.cell());
    Messages::new(chain, sent, book.token(history))
}

/// Encodes what a master's last step sends. Out of memory, it is lost, and no node counts it.
fn sent_by_book(alloc: Global, book: &BookCell) -> Vec<Sent>
    ensures sent { IfSome book.now.last (λ s. (result.items ≡ []) ⊎ AreSentAs result.items (numbered_from 0 (receipt_of book.now) (sent_in s.outs))) }
    ensures none { book.now.last ≡ None → result.items ≡ [] }
{
    let receipt = Receipt {
        node: book.opening().name.node,
        stamp: book.stamp(),
    };
    sent_by(alloc, &Losses::new(), book.last(), receipt)
}
