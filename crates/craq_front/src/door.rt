//! `Door`: the request handler of one client; implemented by those that have a store.
ghost use Rattle.craq_frames.specs.declared.answer.ClientReply.{ClientReply};
ghost use Rattle.craq_frames.specs.declared.ask.ClientMessage.{ClientMessage};
ghost use Rattle.craq_frames.specs.Allowed.{IsAllowed};

use craq_frames::{ClientMessage, ClientReply};
use craq_names::Refusal;

/// The request handler of one client.
pub trait Door {
    /// A turn: the handler before, its request, its reply, and the handler after.
    ghost turn: { Self → ClientMessage → ClientReply → Self → Type 0 };

    /// Answers a request. The reply has an encoding in a payload of at most 100,000 bytes. A
    /// refusal is the reply `ClientReply::Refused`.
    fn ask(&mut self, message: ClientMessage) -> ClientReply
        ensures turn { turn self.old message result self.new }
        ensures allowed { IsAllowed result };

    /// Notes that bytes of the client, which are no request, get this refusal.
    fn unasked(&self, refusal: &Refusal) {
        let _refusal = refusal;
    }
}
