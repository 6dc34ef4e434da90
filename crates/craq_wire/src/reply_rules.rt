//! Tests which replies have an encoding and which may occur in an entry; used by `rules`
//! and `craq_frames`.
ghost use Rattle.std.specs.Prelude.{◌≡◌, ◌↔◌, IsTrue};
ghost use Rattle.craq_wire.specs.ReplyTests.{is_object_read, is_reply, is_not_stale};
ghost use Rattle.std.specs.List.{list_all};
ghost use Rattle.craq_model.specs.Encodable.{IsReply, IsNotStale};

use craq_commands::{Mini, Reply};
use craq_names::{Value, Version};

/// Returns true unless the object is absent (version 0) and has bytes.
fn may_be_read(object: &(Version, Value)) -> bool
    ensures { result ≡ is_object_read object.now }
{
    object.0.get() != 0 || object.1.as_slice().is_empty()
}

/// Returns true if each object may be part of a reply.
fn may_all_be_read(objects: &[(Version, Value)]) -> bool
    ensures { result ≡ list_all is_object_read objects.now }
{
    objects.iter().all(|object| may_be_read(object))
}

/// Tests the rules of replies.
fn test_reply(reply: &Reply) -> bool
    ensures { result ≡ is_reply reply.now }
{
    match reply {
        Reply::Written(version) => version.get() >= 1,
        Reply::Done(objects) => {
            objects.len() <= Mini::MOST_ITEMS && may_all_be_read(objects.as_slice())
        }
        Reply::CompareFailed(place) => (*place as usize) < Mini::MOST_ITEMS,
        _ => true,
    }
}

/// Returns true if the reply keeps the rules of replies: a written version is at least 1, at most
/// 16 objects are returned, an absent object has no bytes, and the failed compare is one of 16.
#[tactic(auto, using(crate::proofs::ReplyTests::decides_reply))]
pub fn is_encodable_reply(reply: &Reply) -> bool
    ensures value { result ≡ is_reply reply.now }
    ensures rules { IsTrue result ↔ IsReply reply.now }
{
    test_reply(reply)
}

/// Returns true if the reply is that of a new update, and does not say that the update's number is
/// stale.
#[tactic(auto, using(crate::proofs::ReplyTests::decides_not_stale))]
pub fn is_fresh_reply(reply: &Reply) -> bool
    ensures value { result ≡ is_not_stale reply.now }
    ensures rules { IsTrue result ↔ IsNotStale reply.now }
{
    match reply {
        Reply::Stale(_) => false,
        _ => true,
    }
}
