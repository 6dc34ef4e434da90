//! `Several`: a payload of several requests while it is answered; for `protocol_codec`.
use crate::{ClientMessage, ClientReply};
use craq_names::Items;
use std::alloc::{AllocError, Global};
use std::marker::Model;

/// A payload of several requests, one or more of which are under way. A contract sees it as the
/// requests that wait, the replies that came, and the number of requests asked ahead.
#[derive(Drop)]
pub(crate) struct Several {
    waiting: Vec<ClientMessage>,
    replies: Vec<ClientReply>,
    /// The number of requests that were asked before the reply to the one before them came.
    ahead: usize,
}

impl Model for Several {
    ghost use Rattle.std.specs.Prelude.{◌≡◌, ◌+◌, ℕ, List, length, vec_capacity, vec_len};
    ghost use Rattle.craq_frames.specs.declared.ask.ClientMessage.{ClientMessage};
    ghost use Rattle.craq_frames.specs.declared.answer.ClientReply.{ClientReply};
    ghost use Rattle.craq_frames.specs.Several.{AreAnswered, HasRoom, KeepsPlaces};

    ghost Value = { List ClientMessage × List ClientReply × ℕ };

    ghost view = { λ s. (s.waiting.items, s.replies.items, s.ahead) };

    ghost invariant = { λ s. AreAnswered (length s.waiting.items + s.ahead) s.replies.items × HasRoom s.ahead s.replies × KeepsPlaces s.ahead s.waiting };
}

/// The continuation once a request has its reply.
#[derive(Drop)]
pub(crate) enum Replied {
    /// The next request is asked.
    Asks(ClientMessage, Several),
    /// The next request was asked ahead.
    Asked(Several),
    /// Each request has its reply.
    All(Items<ClientReply>),
}

impl Several {
    ghost use Rattle.std.specs.Prelude.{◌≡◌, ◌≤◌, ◌+◌, None, Some, [], ◌∷◌, length, IfOk, IfSome, OnErr};
    ghost use Rattle.craq_frames.specs.Versions.{many_limit};
    ghost use Rattle.craq_frames.specs.Allowed.{IsAllowed};
    ghost use Rattle.craq_frames.specs.Steps.{AfterReply};

    /// Begins to answer 1 to 8 requests. Returns the first one, which is to be asked.
    pub(crate) fn begin(alloc: Global, messages: Items<ClientMessage>) -> (ClientMessage, Several)
        requires some { 1 ≤ length messages }
        requires few { length messages ≤ many_limit }
        ensures waiting { messages ≡ result.0 ∷ result.1.0 }
        ensures replies { result.1.1 ≡ [] }
        ensures ahead { result.1.2 ≡ 0 }
    {
        let mut waiting = messages.into_vec();
        let first = waiting.remove(0);
        let several = Several {
            waiting,
            replies: Vec::new(alloc),
            ahead: 0,
        };
        (first, several)
    }

    /// Takes the next request that is not asked, to ask it ahead, and makes room for the replies of
    /// those under way. `None`, and unchanged, where no request waits or when out of memory.
    pub(crate) fn take_ahead(&mut self) -> Option<ClientMessage>
        ensures taken { IfSome result (λ m. self.old.0 ≡ m ∷ self.new.0) }
        ensures more { IfSome result (λ _. self.new.2 ≡ self.old.2 + 1) }
        ensures none { result ≡ None → self.new ≡ self.old }
        ensures replies { self.new.1 ≡ self.old.1 }
    {
        if self.waiting.is_empty() {
            return None;
        }
        if self.replies.reserve(self.ahead + 2).is_err() {
            return None;
        }
        self.ahead += 1;
        Some(self.waiting.remove(0))
    }

    /// Puts the request back that was taken ahead last: it is the next that is not asked.
    pub(crate) fn put_back(&mut self, message: ClientMessage)
        requires { 1 ≤ self.old.2 }
        ensures waiting { self.new.0 ≡ message ∷ self.old.0 }
        ensures replies { self.new.1 ≡ self.old.1 }
        ensures fewer { self.old.2 ≡ self.new.2 + 1 }
    {
        // The place that it left is still there.
        let _ = self.waiting.insert(0, message);
        self.ahead -= 1;
    }

    /// Takes the reply to the first request under way. Fails only when out of memory, and only where
    /// no request was asked ahead.
    pub(crate) fn add(self, reply: ClientReply) -> Result<Replied, AllocError>
        requires { IsAllowed reply }
        ensures after { IfOk result (AfterReply self reply) }
        ensures alone { OnErr result (self.2 ≡ 0) }
    {
        let Several {
            mut waiting,
            mut replies,
            ahead,
        } = self;
        if ahead > 0 {
            replies.push_reserved(reply);
            return Ok(Replied::Asked(Several {
                waiting,
                replies,
                ahead: ahead - 1,
            }));
        }
        replies.push(reply)?;
        if waiting.is_empty() {
            return Ok(Replied::All(Items::of(replies)));
        }
        let message = waiting.remove(0);
        Ok(Replied::Asks(
            message,
            Several {
                waiting,
                replies,
                ahead,
            },
        ))
    }
}
