//! `DoorCalls`: the receipts of a connection's calls, and the reply to a call; for
//! `connection_state`.
ghost use Rattle.std.specs.Prelude.{◌≡◌, ◌≤◌, ◌+◌, [], ◌∷◌, ◌++◌, length, vec_capacity, vec_len, OnOk, OnErr};
ghost use Rattle.craq_frames.specs.Allowed.{IsAllowed};
ghost use Rattle.craq_node_invariant.specs.Sound.{IsEncodableAnswer};
ghost use Rattle.craq_event_loop.specs.Halves.{GrowsRoom, HasNoRoom, HasRoom, TakesRoom};
ghost use Rattle.craq_event_loop.specs.Turns.{IsReplyOf, kept, message_of, reply_of};

use craq_frames::ClientReply;
use craq_model::Answer;
use craq_names::Pass;
use craq_seat::{CallReceipt, pass_after};
use std::alloc::{AllocError, Global};

/// The receipts that a connection keeps of its earlier requests.
#[derive(Debug, Clone, Copy, PartialEq, Eq)]
pub enum ReceiptPolicy {
    /// All are kept, in order, and handed over at the end.
    KeepAll,
    /// Each is dropped as the next request begins that was not asked ahead, and at the end.
    KeepNone,
}

/// The calls of one connection.
#[derive(Drop)]
pub(crate) struct DoorCalls {
    /// The fate of the receipts of earlier requests.
    pub(crate) policy: ReceiptPolicy,
    /// The receipts of the calls, in order: of all requests where they are kept, else of the last
    /// one in its turn and those asked ahead behind it. Only a desk makes receipts, and they are not
    /// copied, so one more receipt is that of one more call.
    pub(crate) receipts: Vec<CallReceipt>,
}

/// Returns the reply with the answer of a call and the pass that the client has after it. It may be
/// sent, since the answer has an encoding.
#[tactic(auto, using(crate::proofs::Reportable::update_allowed, crate::proofs::Reportable::read_allowed))]
fn reply_of(answer: Answer, pass: Pass) -> ClientReply
    requires { IsEncodableAnswer answer }
    ensures reply { result ≡ reply_of pass answer }
    ensures allowed { IsAllowed result }
{
    match answer {
        Answer::Update(reply) => ClientReply::Update { pass, reply },
        Answer::Read { version, value } => ClientReply::Read {
            pass,
            version,
            value,
        },
    }
}

impl DoorCalls {
    /// Makes an empty list of calls. Takes no memory.
    pub(crate) fn new(alloc: Global, policy: ReceiptPolicy) -> Self
        ensures policy { result.policy ≡ policy }
        ensures receipts { result.receipts.items ≡ [] }
    {
        DoorCalls {
            policy,
            receipts: Vec::new(alloc),
        }
    }

    /// Begins a request: drops the receipts of earlier ones unless they are kept. Takes no memory.
    pub(crate) fn begin(&mut self)
        ensures policy { self.new.policy ≡ self.old.policy }
        ensures receipts { self.new.receipts.items ≡ kept self.old.policy self.old.receipts.items }
        ensures capacity { vec_capacity self.new.receipts ≡ vec_capacity self.old.receipts }
    {
        match self.policy {
            ReceiptPolicy::KeepAll => {}
            ReceiptPolicy::KeepNone => self.receipts.clear(),
        }
    }

    /// Makes room for the receipt of one more call. Fails only when out of memory. The receipts are
    /// unchanged in either case.
    pub(crate) fn make_room(&mut self) -> Result<(), AllocError>
        ensures policy { self.new.policy ≡ self.old.policy }
        ensures receipts { self.new.receipts.items ≡ self.old.receipts.items }
        ensures room { OnOk result (HasRoom self.new) }
        ensures full { OnErr result (HasNoRoom self.old) }
    {
        self.receipts.reserve(1)?;
        Ok(())
    }

    /// Makes room for the receipts of this number of calls more. Fails only when out of memory. The
    /// receipts are unchanged in either case.
    pub(crate) fn make_room_for(&mut self, count: usize) -> Result<(), AllocError>
        ensures grows { GrowsRoom self.old self.new }
        ensures room { OnOk result (vec_len self.new.receipts + count ≤ vec_capacity self.new.receipts) }
    {
        self.receipts.reserve(count)?;
        Ok(())
    }

    /// Keeps the receipt of a call behind the others and returns the reply: the answer, and the
    /// pass that the client has after it, the larger of the pass that it showed and the stamp of
    /// the answer. Takes no memory.
    pub(crate) fn reply_to(&mut self, answer: Answer, receipt: CallReceipt) -> ClientReply
        requires answered { answer ≡ receipt.answer }
        requires encodable { IsEncodableAnswer answer }
        requires room { HasRoom self.old }
        ensures policy { self.new.policy ≡ self.old.policy }
        ensures reply { IsReplyOf (message_of receipt.call.asked.node receipt.call.pass receipt.call.ask) result receipt }
        ensures allowed { IsAllowed result }
        ensures receipts { self.new.receipts.items ≡ self.old.receipts.items ++ receipt ∷ [] }
        ensures takes { TakesRoom self.old self.new }
    {
        let pass = pass_after(receipt.pass(), &receipt);
        self.receipts.push_reserved(receipt);
        reply_of(answer, pass)
    }

    /// Returns the receipts of all calls, in order, where they are kept; else none. Takes no
    /// memory.
    pub fn into_receipts(self) -> Vec<CallReceipt>
        ensures { result.items ≡ kept self.policy self.receipts.items }
    {
        let DoorCalls {
            policy,
            mut receipts,
        } = self;
        match policy {
            ReceiptPolicy::KeepAll => receipts,
            ReceiptPolicy::KeepNone => {
                receipts.clear();
                receipts
            }
        }
    }
}
