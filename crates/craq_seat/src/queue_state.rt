//! `QueueState`: the completions in a queue, with room for each that is expected; called by
//! `completion_queue`, under its lock.
ghost use Rattle.std.specs.Prelude.{◌≡◌, ◌≤◌, ◌↔◌, ◌+◌, ◌-◌, ◌++◌, [], ◌∷◌, None, false, true, IfSome, IsTrue, OnErr, OnOk};

use crate::CallReceipt;
use crate::token::CallToken;
use craq_names::Refusal;
use std::alloc::{AllocError, Global};
use std::marker::Model;

/// The reply to a call: the receipt of the answered call, or the refusal.
pub type Outcome = Result<CallReceipt, Refusal>;

/// A completion: a reply, and the token by which its reader knows the call. The reply is an
/// `Outcome`, unless the queue's owner needs more of it.
#[derive(Drop)]
pub struct Completion<T: Drop = Outcome> {
    pub token: CallToken,
    pub reply: T,
}

/// The completions that have come and are not yet taken. There is room for each that is expected.
#[derive(Drop)]
pub(crate) struct QueueState<T: Drop> {
    completions: Vec<Completion<T>>,
    expected: usize,
    /// The owner has to look before it sleeps.
    reported: bool,
    /// The owner sleeps, or is about to.
    sleeps: bool,
}

impl<T: Drop> Model for QueueState<T> {
    ghost use Rattle.std.specs.Prelude.{◌≤◌, ◌+◌, vec_capacity, vec_len};
    ghost use Rattle.craq_seat.specs.CompletionQueues.{QueueView};

    ghost Value = { QueueView T };

    ghost view = { λ p. record { completions = p.completions.items; expected = p.expected; reported = p.reported; sleeps = p.sleeps } };

    ghost invariant = { λ p. vec_len p.completions + p.expected ≤ vec_capacity p.completions };
}

impl<T: Drop> QueueState<T> {
    /// Makes an empty queue that expects nothing. Takes no memory.
    pub(crate) fn new(alloc: Global) -> Self
        ensures { result ≡ record { completions = []; expected = 0; reported = false; sleeps = false } }
    {
        QueueState {
            completions: Vec::new(alloc),
            expected: 0,
            reported: false,
            sleeps: false,
        }
    }

    /// Reserves room for one more completion, which is expected from now on. Fails only when out of
    /// memory, and then nothing changes.
    pub(crate) fn expect(&mut self) -> Result<(), AllocError>
        ensures ok { OnOk result (self.new ≡ record self.old { expected = self.old.expected + 1 }) }
        ensures err { OnErr result (self.new ≡ self.old) }
    {
        if self.expected == usize::MAX {
            return Err(AllocError);
        }
        self.completions.reserve(self.expected + 1)?;
        self.expected += 1;
        Ok(())
    }

    /// Expects one completion less.
    pub(crate) fn forgo(&mut self)
        ensures { self.new ≡ record self.old { expected = self.old.expected - 1 } }
    {
        if self.expected > 0 {
            self.expected -= 1;
        }
    }

    /// Puts in an expected completion. The owner has to look before it sleeps. Returns whether it
    /// sleeps now, and so has to be woken. Takes no memory.
    pub(crate) fn put(&mut self, completion: Completion<T>) -> bool
        requires { 1 ≤ self.old.expected }
        ensures comes { self.new ≡ record { completions = self.old.completions ++ completion ∷ []; expected = self.old.expected - 1; reported = true; sleeps = false } }
        ensures wakes { result ≡ self.old.sleeps }
    {
        self.expected -= 1;
        self.completions.push_reserved(completion);
        self.tell()
    }

    /// Returns whether a completion is expected.
    pub(crate) fn expects(&self) -> bool
        ensures { IsTrue result ↔ (1 ≤ self.now.expected) }
    {
        self.expected >= 1
    }

    /// Makes the owner look before it sleeps. Returns whether it sleeps now, and so has to be
    /// woken.
    pub(crate) fn tell(&mut self) -> bool
        ensures reported { self.new ≡ record self.old { reported = true; sleeps = false } }
        ensures wakes { result ≡ self.old.sleeps }
    {
        let sleeps = self.sleeps;
        self.sleeps = false;
        self.reported = true;
        sleeps
    }

    /// Moves all completions to the end of `into`, or none when out of memory. Only later
    /// completions are news then. Marks the owner as awake.
    pub(crate) fn take(&mut self, into: &mut Vec<Completion<T>>)
        ensures none_lost { into.new.items ++ self.new.completions ≡ into.old.items ++ self.old.completions }
        ensures news { self.new.reported ≡ false → self.new.completions ≡ [] }
        ensures others { self.new ≡ record self.old { completions = self.new.completions; reported = self.new.reported; sleeps = false } }
    {
        self.sleeps = false;
        self.reported = into.append(&mut self.completions).is_err();
    }

    /// Takes the completion that came last, if there is one.
    pub(crate) fn pop(&mut self) -> Option<Completion<T>>
        ensures some { IfSome result (λ completion. self.old.completions ≡ self.new.completions ++ completion ∷ []) }
        ensures none { result ≡ None → self.old.completions ≡ [] }
        ensures others { self.new ≡ record self.old { completions = self.new.completions } }
    {
        self.completions.pop()
    }

    /// Returns whether there is neither news nor a completion, so that the owner may sleep. It then
    /// counts as asleep, and the next completion or `tell` wakes it.
    pub(crate) fn may_sleep(&mut self) -> bool
        ensures sleeps { IsTrue result ↔ ((self.old.reported ≡ false) × (self.old.completions ≡ [])) }
        ensures asleep { self.new ≡ record self.old { reported = false; sleeps = result } }
    {
        self.sleeps = !self.reported && self.completions.is_empty();
        self.reported = false;
        self.sleeps
    }
}
