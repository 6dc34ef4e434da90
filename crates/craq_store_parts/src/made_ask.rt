//! `MadeAsk`: a request whose call is in the store's history; it waits in a node's queue, or its
//! caller takes its step.
ghost use Rattle.std.specs.Prelude.{◌≡◌};
ghost use Rattle.craq_store_history.specs.Chains.{WasCalled};

use crate::call_made::CallMade;
use craq_ghost_history::Named;
use craq_model::Ask;
use craq_names::NodeName;
use std::marker::Model;

/// A request to a node, with the call that a client made of it. No step has accepted the call.
#[derive(Drop)]
pub struct MadeAsk<N: Named> {
    name: NodeName,
    ask: Ask,
    made: CallMade<N>,
}

impl<N: Named> Model for MadeAsk<N> {
    ghost use Rattle.craq_store_parts.specs.Sent.{Made};
    ghost use Rattle.craq_store_history.specs.Chains.{WasCalled};

    ghost Value = { Made };

    ghost view = { λ m. record { name = m.name; ask = m.ask; call = m.made.call } };

    ghost invariant = { λ m. WasCalled m.made.seen m.made.call m.name m.ask };
}

impl<N: Named> MadeAsk<N> {
    /// Makes the request of a call that was made of it.
    pub fn new(made: CallMade<N>, name: NodeName, ask: Ask) -> Self
        requires { WasCalled made.seen made.call name ask }
        ensures { result ≡ record { name = name; ask = ask; call = made.call } }
    {
        MadeAsk { name, ask, made }
    }

    /// Returns the name of the node that is asked. Never allocates.
    pub fn name(&self) -> NodeName
        ensures { result ≡ self.now.name }
    {
        self.name
    }

    /// Returns the request. Never allocates.
    pub fn ask(&self) -> &Ask
        ensures { result.now ≡ self.now.ask }
    {
        &self.ask
    }

    /// Returns the request and its call.
    pub fn into_parts(self) -> (Ask, CallMade<N>)
        ensures ask { result.0 ≡ self.ask }
        ensures call { result.1.call ≡ self.call }
        ensures made { WasCalled result.1.seen self.call self.name self.ask }
    {
        let MadeAsk { name: _, ask, made } = self;
        (ask, made)
    }
}
