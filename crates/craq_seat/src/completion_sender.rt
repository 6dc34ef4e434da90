//! `CompletionSender`: the right to put one completion into a queue that has room for it; made and
//! used by `craq_running_node` and `craq_running_chain`.
ghost use Rattle.std.specs.Prelude.{◌≡◌, IfOk};

use crate::completion_queue::CompletionQueue;
use crate::queue_state::Outcome;
use crate::token::CallToken;
use std::alloc::AllocError;
use std::marker::Model;
use std::sync::{Arc, Wait};

/// The place of one expected completion: its queue and its token. Its holder has to `tell` it a
/// reply or `forgo` it; else the queue's owner waits forever. A contract sees the token.
#[derive(Drop)]
pub struct CompletionSender<T: Drop = Outcome> {
    completions: Arc<CompletionQueue<T>>,
    token: CallToken,
}

impl<T: Drop> Model for CompletionSender<T> {
    ghost use Rattle.craq_seat.specs.declared.token.CallToken.{CallToken};

    ghost Value = { CallToken };

    ghost view = { λ a. a.token };
}

impl<T: Drop> CompletionSender<T> {
    /// Reserves room for a completion under this token. Fails only when out of memory, and then
    /// nothing changes.
    pub fn expect<R: Wait>(
        rt: &R,
        completions: &Arc<CompletionQueue<T>>,
        token: CallToken,
    ) -> Result<Self, AllocError>
        ensures { IfOk result (λ a. a ≡ token) }
    {
        let completions = Arc::try_clone(completions)?;
        completions.expect(rt)?;
        Ok(CompletionSender { completions, token })
    }

    /// Puts the completion into the queue, and wakes the owner if it sleeps. Takes no memory.
    pub fn tell<R: Wait>(self, rt: &R, reply: T) {
        self.completions.put(rt, self.token, reply);
    }

    /// Gives the room back: the reply was returned directly, and no completion will come. Takes no
    /// memory.
    pub fn forgo<R: Wait>(self, rt: &R) {
        self.completions.forgo(rt);
    }
}
