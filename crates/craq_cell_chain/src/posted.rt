//! The messages that the cells of a chain sent, all encodable; kept by `CellChain`.
ghost use Rattle.std.specs.Prelude.{◌≡◌, ◌++◌, [], IfSome, OnErr, OnOk};
ghost use Rattle.std.specs.List.{AllByRecursion};
ghost use Rattle.std.specs.Option.{option_copied};
ghost use Rattle.craq_model.specs.Encodable.{IsEncodable};
ghost use Rattle.craq_runs.specs.Chain.{message_at};

use craq_model::LinkMessage;
use std::alloc::{AllocError, Global};
use std::marker::Model;

/// The messages that were sent, in the order of sending; each has an encoding. A contract sees
/// their list.
#[derive(Drop)]
pub struct Posted {
    messages: Vec<LinkMessage>,
}

impl Model for Posted {
    ghost use Rattle.std.specs.Prelude.{List};
    ghost use Rattle.std.specs.List.{AllByRecursion};
    ghost use Rattle.craq_model.specs.declared.message.LinkMessage.{LinkMessage};
    ghost use Rattle.craq_model.specs.Encodable.{IsEncodable};

    ghost Value = { List LinkMessage };

    ghost view = { λ p. p.messages.items };

    ghost invariant = { λ p. AllByRecursion IsEncodable p.messages.items };
}

impl Posted {
    /// Makes an empty list. Never allocates.
    pub fn new(alloc: Global) -> Self
        ensures { result ≡ [] }
    {
        Posted {
            messages: Vec::new(alloc),
        }
    }

    /// Appends messages. Fails only when out of memory; the list is then unchanged.
    pub fn add(&mut self, messages: Vec<LinkMessage>) -> Result<(), AllocError>
        requires { AllByRecursion IsEncodable messages.items }
        ensures ok { OnOk result (self.new ≡ self.old ++ messages.items) }
        ensures err { OnErr result (self.new ≡ self.old) }
    {
        let mut messages = messages;
        self.messages.append(&mut messages)
    }

    /// Returns the message of this number, counted from 1; `None` if it was not sent. Never
    /// allocates.
    pub fn message(&self, number: u64) -> Option<&LinkMessage>
        ensures value { option_copied result ≡ message_at self.now number }
        ensures spelled { IfSome (option_copied result) IsEncodable }
    {
        if number == 0 {
            return None;
        }
        self.messages.as_slice().get((number - 1) as usize)
    }
}
