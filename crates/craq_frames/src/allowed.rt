//! `is_allowed`: the test of the replies that a request handler may give.
ghost use Rattle.std.specs.Prelude.{◌↔◌, IsTrue};
ghost use Rattle.craq_frames.specs.Allowed.{IsShort, IsAllowed};

use crate::ClientReply;

/// The most bytes of a reply's payload. This project's profile.
const MOST_OF_A_REPLY: usize = 100_000;

/// Returns whether the reply fits a payload of at most 100,000 bytes. Only a status text can be
/// longer.
fn is_short(reply: &ClientReply) -> bool
    ensures { IsTrue result ↔ IsShort reply.now }
{
    match reply {
        ClientReply::Status(text) => text.as_str().len() <= MOST_OF_A_REPLY - 6,
        _ => true,
    }
}

/// Returns whether a request handler may give the reply: it has an encoding, in a payload of at
/// most 100,000 bytes.
pub fn is_allowed(reply: &ClientReply) -> bool
    ensures { IsTrue result ↔ IsAllowed reply.now }
{
    reply.spelled() && is_short(reply)
}
