//! The kept replies of one client. `places` holds one for each client.
ghost use Rattle.std.specs.Prelude.{◌≡◌, ◌<◌, ◌≤◌, ◌↔◌, ◌++◌, ◌∷◌, ℕ, [], drop, length, slice_index_or, slice_set, IsOk, OnOk, OnErr, IsTrue};
ghost use Rattle.std.specs.List.{AllByRecursion};
ghost use Rattle.craq_commands.specs.declared.reply.Reply.{Reply};
ghost use Rattle.craq_commands.specs.Kept.{keep};

use craq_commands::{Kept, Reply, WINDOW_LIMIT, keep_in};
use craq_names::RequestNo;
use std::alloc::{AllocError, Global};
use std::marker::Model;
use std::mem;

/// The replies kept for one client.
#[derive(Drop)]
pub struct HeldReplies {
    replies: Vec<Kept>,
}

impl Model for HeldReplies {
    ghost use Rattle.std.specs.Prelude.{◌-◌, ◌≤◌, length, vec_len, vec_capacity};
    ghost use Rattle.craq_replies.specs.Held.{Held};

    ghost Value = { Held };

    ghost view = { λ h. record { replies = h.replies.items; room = vec_capacity h.replies - vec_len h.replies } };

    ghost invariant = { λ h. length h.replies.items ≤ 8 };
}

/// Returns true exactly if all replies are to smaller numbers than this one.
fn are_before(replies: &[Kept], number: RequestNo) -> bool
    ensures { IsTrue result ↔ AllByRecursion (λ (k : ℕ × Reply). k.0 < number) replies.now }
{
    for kept in replies {
        if kept.0 >= number {
            return false;
        }
    }
    true
}

/// Puts a reply at an index, and returns the one that was there.
fn exchange(replies: &mut Vec<Kept>, index: usize, kept: Kept) -> Kept
    requires { index < length replies.old.items }
    ensures old { result ≡ slice_index_or replies.old.items index result }
    ensures new { replies.new.items ≡ slice_set replies.old.items index kept }
{
    mem::replace(&mut replies[index], kept)
}

/// Appends a reply, and drops the first one then. Each reply moves by one place, so the vector's
/// memory stays as it is.
fn shift_in(replies: &mut Vec<Kept>, newest: Kept)
    ensures { replies.new.items ≡ drop 1 (replies.old.items ++ newest ∷ []) }
{
    let mut kept = newest;
    for index in (0..replies.len()).rev() {
        kept = exchange(replies, index, kept);
    }
}

impl HeldReplies {
    /// Returns an empty list of replies. Allocates nothing.
    pub fn new(alloc: Global) -> Self
        ensures { result.replies ≡ [] }
    {
        HeldReplies {
            replies: Vec::new(alloc),
        }
    }

    /// Makes a list of at most 8 replies, sorted by number.
    pub fn of(replies: Vec<Kept>) -> Self
        requires { length replies.items ≤ 8 }
        ensures { result.replies ≡ replies.items }
    {
        HeldReplies { replies }
    }

    /// Returns true exactly if no reply is kept.
    pub fn is_empty(&self) -> bool
        ensures { IsTrue result ↔ (self.now.replies ≡ []) }
    {
        self.replies.is_empty()
    }

    /// Returns the replies with their numbers, sorted by number: at most 8.
    pub fn as_slice(&self) -> &[Kept]
        ensures value { result.now ≡ self.now.replies }
        ensures few { length self.now.replies ≤ 8 }
    {
        self.replies.as_slice()
    }

    /// Reserves room for one more reply, and for no more: many clients have one alone. Fails only
    /// when out of memory; the replies are unchanged in either case.
    pub fn reserve(&mut self) -> Result<(), AllocError>
        ensures replies { self.new.replies ≡ self.old.replies }
        ensures room { self.old.room ≤ self.new.room }
        ensures ok { OnOk result (0 < self.new.room) }
        ensures succeeds { 0 < self.old.room → IsOk result }
    {
        self.replies.reserve_exact(1)
    }

    /// Keeps the reply to a new number; a ninth drops the reply to the smallest number. Fails only
    /// when out of memory, and only if no room is reserved; the replies are unchanged on error. A
    /// client's newest number behind 8 others, as most are, costs one move of each reply.
    #[tactic(auto, using(crate::proofs::Shifted::kept_newest))]
    pub fn keep(&mut self, number: RequestNo, reply: Reply) -> Result<(), AllocError>
        ensures ok { OnOk result (self.new.replies ≡ keep self.old.replies number reply) }
        ensures err { OnErr result (self.new.replies ≡ self.old.replies) }
        ensures succeeds { 0 < self.old.room → IsOk result }
    {
        if self.replies.len() == WINDOW_LIMIT && are_before(self.replies.as_slice(), number) {
            shift_in(&mut self.replies, (number, reply));
            return Ok(());
        }
        keep_in(&mut self.replies, number, reply)
    }
}
