//! The replies kept for a client: lookup of a request number, and keeping a new reply. A `State`
//! holds windows, and `craq_replies` keeps replies by the same calls.
ghost use Rattle.std.specs.Prelude.{◌≡◌, ◌≤◌, [], length, OnOk, OnErr, vec_len, vec_capacity};
ghost use Rattle.std.specs.Option.{option_copied};
ghost use Rattle.craq_names.specs.Maps.{at_number};
ghost use Rattle.craq_commands.specs.Kept.{is_stale, keep, said_of};
ghost use Rattle.craq_commands.specs.Known.{known_by, known_of};
ghost use Rattle.craq_commands.specs.Reported.{given_reply};

use crate::Reply;
use craq_names::{Copied, RequestNo, Same, are_same, copies_of, put_at};
use std::alloc::{AllocError, Global};
use std::marker::Model;

/// The maximum number of replies kept for a client.
pub const WINDOW_LIMIT: usize = 8;

/// A client's request number and the reply kept for it.
pub type Kept = (RequestNo, Reply);

/// The status of a client's request number.
#[derive(Debug, Drop)]
pub enum RequestStatus<'a> {
    /// The number is new: it has no reply yet.
    New,
    /// The number's reply is kept; this is it.
    Kept(&'a Reply),
    /// The number is below all numbers of a full window; this is the largest in it.
    Stale(RequestNo),
}

/// The replies to a client's newest request numbers, sorted by number: at most 8 (this project's
/// profile).
#[derive(Debug, Drop)]
pub struct Window {
    replies: Vec<Kept>,
}

impl Model for Window {
    ghost use Rattle.std.specs.Prelude.{◌≤◌, length};
    ghost use Rattle.craq_commands.specs.Kept.{Window as Replies};

    ghost Value = { Replies };

    ghost view = { λ w. w.replies.items };

    ghost invariant = { λ w. length w.replies.items ≤ 8 };
}

impl Window {
    /// Returns the empty window. Allocates nothing.
    pub fn new(alloc: Global) -> Self
        ensures { result ≡ [] }
    {
        Window {
            replies: Vec::new(alloc),
        }
    }

    /// Makes a window of at most 8 replies, sorted by number.
    pub fn of(replies: Vec<Kept>) -> Self
        requires { length replies.items ≤ 8 }
        ensures { result ≡ replies.items }
    {
        Window { replies }
    }

    /// Returns the replies with their numbers, sorted by number: at most 8.
    pub fn as_slice(&self) -> &[Kept]
        ensures value { result.now ≡ self.now }
        ensures few { length self.now ≤ 8 }
    {
        self.replies.as_slice()
    }

    /// Looks up a request number. Allocates nothing.
    pub fn look(&self, number: RequestNo) -> RequestStatus<'_>
        ensures reply { given_reply result ≡ said_of self.now number }
        ensures known { known_by result ≡ known_of self.now number }
    {
        look_in(self.replies.as_slice(), number)
    }

    /// Keeps the reply to a new number; a ninth drops the reply to the smallest number. Fails only
    /// when out of memory; the window is unchanged on error.
    pub fn keep(&mut self, number: RequestNo, reply: Reply) -> Result<(), AllocError>
        ensures ok { OnOk result (self.new ≡ keep self.old number reply) }
        ensures err { OnErr result (self.new ≡ self.old) }
    {
        keep_in(&mut self.replies, number, reply)
    }
}

impl Copied for Window {
    fn copied(&self, alloc: Global) -> Result<Self, AllocError> {
        Ok(Window::of(copies_of(alloc, self.as_slice())?))
    }
}

impl Same for Window {
    fn is_same(&self, other: &Self) -> bool {
        are_same(self.as_slice(), other.as_slice())
    }
}

/// Returns true exactly if the number is below all numbers of a full window.
#[tactic(auto, unfolding(crate::specs::Kept::is_stale))]
fn is_stale_in(replies: &[Kept], number: RequestNo) -> bool
    ensures { result ≡ is_stale replies.now number }
{
    match replies.first() {
        Some((smallest, _)) => replies.len() >= WINDOW_LIMIT && number < *smallest,
        None => false,
    }
}

/// Returns the reply kept for a number.
#[tactic(auto, using(crate::proofs::Windows::same_numbers))]
fn reply_in(replies: &[Kept], number: RequestNo) -> Option<&Reply>
    ensures { option_copied result ≡ at_number replies.now number }
{
    for (kept, reply) in replies {
        if number == *kept {
            return Some(reply);
        }
    }
    None
}

/// Looks up a request number among the replies of a window. Allocates nothing.
#[tactic(auto, using(crate::proofs::Windows::largest_last), unfolding(crate::specs::Kept::said_of, crate::specs::Kept::is_stale))]
pub fn look_in(replies: &[Kept], number: RequestNo) -> RequestStatus<'_>
    ensures reply { given_reply result ≡ said_of replies.now number }
    ensures known { known_by result ≡ known_of replies.now number }
{
    if let Some((largest, _)) = replies.last() {
        if is_stale_in(replies, number) {
            return RequestStatus::Stale(*largest);
        }
    }
    match reply_in(replies, number) {
        Some(reply) => RequestStatus::Kept(reply),
        None => RequestStatus::New,
    }
}

/// Keeps the reply to a new number among those of a window; a ninth drops the reply to the smallest
/// number. Fails only when out of memory, and only if the vector is at capacity; the window is
/// unchanged on error.
#[tactic(auto, unfolding(crate::specs::Kept::keep))]
pub fn keep_in(replies: &mut Vec<Kept>, number: RequestNo, reply: Reply) -> Result<(), AllocError>
    ensures ok { OnOk result (replies.new.items ≡ keep replies.old.items number reply) }
    ensures err { OnErr result (replies.new.items ≡ replies.old.items) }
    ensures full { OnErr result (vec_capacity replies.old ≤ vec_len replies.old) }
    ensures few { length replies.old.items ≤ 8 → length replies.new.items ≤ 8 }
{
    put_at(replies, number, reply)?;
    if replies.len() > WINDOW_LIMIT {
        replies.remove(0);
    }
    Ok(())
}
