//! `Asked`: a request with its caller, before its step; for `steps`, `inbox`, and the
//! crates above.
ghost use Rattle.std.specs.Prelude.{◌≡◌};

use crate::callers::CallOutcome;
use craq_ghost_history::Named;
use craq_names::{Pass, Refusal};
use craq_seat::{CallToken, CompletionQueue, CompletionSender};
use craq_store_parts::{CallRefusal, MadeAsk};
use std::sync::Arc;

/// A request with its caller, before its step: the pass that the caller shows, and where its
/// completion goes.
#[derive(Drop)]
pub struct Asked<N: Named, P: Drop> {
    pub made: MadeAsk<N>,
    pub pass: Pass,
    pub at: P,
}

/// The destination of a completion for which no room is reserved yet: the queue, and the token.
#[derive(Drop)]
pub struct Destination<'a, N: Named> {
    pub completions: &'a Arc<CompletionQueue<CallOutcome<N>>>,
    pub token: CallToken,
}

/// A request whose caller may take its step. It needs a completion only if it waits then.
pub type OwnAsk<'a, N> = Asked<N, Destination<'a, N>>;

/// A request in a node's queue: its caller waits for a completion.
pub type QueuedAsk<N> = Asked<N, CompletionSender<CallOutcome<N>>>;

/// Refuses a caller's own request before its step, and gives its call back.
pub fn refuse_own<N: Named>(own: OwnAsk<'_, N>, refusal: Refusal) -> CallRefusal<N>
    ensures { result ≡ refusal }
{
    let Asked { made, pass: _, at } = own;
    drop(at);
    CallRefusal::before_step(made, refusal)
}
