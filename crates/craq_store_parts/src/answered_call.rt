//! `AcceptedCall`, `StepReceipt` and `AnsweredCall`: a call that a node accepted, and its reply,
//! with tokens of the steps in which the node did so. `Acceptance` names the first of them.
ghost use Rattle.std.specs.Prelude.{◌≡◌, IfSome};
ghost use Rattle.craq_store_parts.specs.Recorded.{HasAccepted, HasReplied, WasAccepted};

use crate::StoreToken;
use craq_ghost_history::Named;
use craq_names::{NodeName, Pass, Stamp, Ticket};
use craq_seat::CallReceipt;
use craq_store_history::CallId;
use std::marker::Model;

/// Names the step in which a node accepted a call: the ticket that the call got, the step's stamp,
/// and the pass that came with the request.
#[derive(Clone, Copy, Debug, PartialEq, Eq)]
pub struct Acceptance {
    pub ticket: Ticket,
    pub stamp: Stamp,
    pub pass: Pass,
}

impl Acceptance {
    /// Returns the acceptance of which a receipt tells.
    fn of(receipt: &CallReceipt) -> Self
        ensures { result ≡ record { ticket = receipt.now.call.ticket; stamp = receipt.now.call.asked.stamp; pass = receipt.now.call.pass } }
    {
        Acceptance {
            ticket: receipt.ticket(),
            stamp: receipt.asked().stamp,
            pass: receipt.pass(),
        }
    }
}

/// A call that a node accepted, in the token's history.
#[derive(Drop)]
pub struct AcceptedCall<N: Named> {
    call: CallId,
    name: NodeName,
    acceptance: Acceptance,
    token: StoreToken<N>,
}

impl<N: Named> Model for AcceptedCall<N> {
    ghost use Rattle.craq_store_parts.specs.Recorded.{Accepted, WasAccepted};

    ghost Value = { Accepted };

    ghost view = { λ a. record { call = a.call; name = a.name; ticket = a.acceptance.ticket; stamp = a.acceptance.stamp; pass = a.acceptance.pass } };

    ghost invariant = { λ a. WasAccepted a.token a.name a.call a.acceptance.ticket a.acceptance.stamp a.acceptance.pass };
}

impl<N: Named> AcceptedCall<N> {
    /// Makes the value of a call that the node accepted in the token's history.
    pub fn new(call: CallId, name: NodeName, acceptance: Acceptance, token: StoreToken<N>) -> Self
        requires { WasAccepted token name call acceptance.ticket acceptance.stamp acceptance.pass }
        ensures { result ≡ record { call = call; name = name; ticket = acceptance.ticket; stamp = acceptance.stamp; pass = acceptance.pass } }
    {
        AcceptedCall {
            call,
            name,
            acceptance,
            token,
        }
    }

    /// Returns the ticket under which the node accepted the call. Never allocates.
    pub fn ticket(&self) -> Ticket
        ensures { result ≡ self.now.ticket }
    {
        self.acceptance.ticket
    }
}

/// A receipt whose reply a node gave in the token's history. A contract sees the receipt.
#[derive(Drop)]
pub struct StepReceipt<N: Named> {
    receipt: CallReceipt,
    name: NodeName,
    token: StoreToken<N>,
}

impl<N: Named> Model for StepReceipt<N> {
    ghost use Rattle.craq_seat.specs.Calls.{Called};
    ghost use Rattle.craq_store_parts.specs.Recorded.{HasReplied};

    ghost Value = { Called };

    ghost view = { λ r. r.receipt };

    ghost invariant = { λ r. HasReplied r.token r.name r.receipt };
}

impl<N: Named> StepReceipt<N> {
    /// Makes the receipt of a reply that the node gave in the token's history.
    pub fn new(receipt: CallReceipt, name: NodeName, token: StoreToken<N>) -> Self
        requires { HasReplied token name receipt }
        ensures { result ≡ receipt }
    {
        StepReceipt {
            receipt,
            name,
            token,
        }
    }

    /// Returns the request's ticket at its node.
    pub fn ticket(&self) -> Ticket
        ensures { result ≡ self.now.call.ticket }
    {
        self.receipt.ticket()
    }
}

/// A reply with the call of the caller to whom it goes. A contract sees the receipt of the reply.
/// The caller tests that both are of one call (`into_own`).
#[derive(Drop)]
pub struct AnsweredCall<N: Named> {
    accepted: AcceptedCall<N>,
    reply: StepReceipt<N>,
}

impl<N: Named> Model for AnsweredCall<N> {
    ghost use Rattle.craq_seat.specs.Calls.{Called};

    ghost Value = { Called };

    ghost view = { λ a. a.reply };
}

impl<N: Named> AnsweredCall<N> {
    /// Joins a reply with the call of the caller to whom it goes.
    pub fn new(accepted: AcceptedCall<N>, reply: StepReceipt<N>) -> Self
        ensures { result ≡ reply }
    {
        AnsweredCall { accepted, reply }
    }

    /// Returns the receipt of the reply. Never allocates.
    pub fn receipt(&self) -> &CallReceipt
        ensures { result.now ≡ self.now }
    {
        &self.reply.receipt
    }

    /// Returns the receipt of the reply, without the tokens. Never allocates.
    pub fn into_receipt(self) -> CallReceipt
        ensures { result ≡ self }
    {
        let AnsweredCall { accepted, reply } = self;
        let StepReceipt {
            receipt,
            name: _,
            token,
        } = reply;
        drop(accepted);
        drop(token);
        receipt
    }

    /// Returns the receipt, with tokens that have seen the steps in which the node of this name
    /// accepted this call and gave the reply. None: the reply is of another call or node.
    pub fn into_own(
        self,
        call: CallId,
        name: NodeName,
    ) -> Option<(CallReceipt, StoreToken<N>, StoreToken<N>)>
        ensures receipt { IfSome result (λ r. r.0 ≡ self) }
        ensures accepted { IfSome result (λ r. HasAccepted r.1 name call self.call) }
        ensures replied { IfSome result (λ r. HasReplied r.2 name self) }
    {
        let AnsweredCall { accepted, reply } = self;
        let AcceptedCall {
            call: made,
            name: at,
            acceptance,
            token: accepted,
        } = accepted;
        let StepReceipt {
            receipt,
            name: there,
            token: replied,
        } = reply;
        let told = Acceptance::of(&receipt);
        if made == call && at == name && there == name && acceptance == told {
            Some((receipt, accepted, replied))
        } else {
            drop(receipt);
            drop(accepted);
            drop(replied);
            None
        }
    }
}
