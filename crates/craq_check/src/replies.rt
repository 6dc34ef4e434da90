//! Compares replies; used by `single`.
ghost use Rattle.std.specs.Prelude.{◌≡◌};
ghost use Rattle.craq_check.specs.Tests.{reply_kind, reply_number, found_of, same_found, same_reply, all_pairs};

use craq_commands::Reply;
use craq_names::{Value, Version};

/// Returns the kind of the reply.
fn reply_kind(reply: &Reply) -> u8
    ensures { result ≡ reply_kind reply.now }
{
    match reply {
        Reply::Written(_) => 0,
        Reply::Mismatch(_) => 1,
        Reply::TooLong => 2,
        Reply::NotANumber => 3,
        Reply::Overflow => 4,
        Reply::Underflow => 5,
        Reply::Done(_) => 6,
        Reply::CompareFailed(_) => 7,
        Reply::Stale(_) => 8,
    }
}

/// Returns the number in a reply, 0 if it has none.
fn reply_number(reply: &Reply) -> u64
    ensures { result ≡ reply_number reply.now }
{
    match reply {
        Reply::Written(version) | Reply::Mismatch(version) => version.get(),
        Reply::CompareFailed(place) => *place as u64,
        Reply::Stale(last) => last.get(),
        Reply::TooLong | Reply::NotANumber | Reply::Overflow | Reply::Underflow | Reply::Done(_) =>
            0,
    }
}

/// Returns the objects in a reply, none if it has none.
fn found_of(reply: &Reply) -> &[(Version, Value)]
    ensures { result.now ≡ found_of reply.now }
{
    match reply {
        Reply::Done(found) => found.as_slice(),
        _ => &[],
    }
}

/// Returns true if the lists have the same versions and values.
#[tactic(auto, unfolding(crate::specs::Tests::all_pairs))]
fn are_same_found(found: &[(Version, Value)], others: &[(Version, Value)]) -> bool
    ensures { result ≡ all_pairs same_found found.now others.now }
{
    let mut rest = others;
    for (version, value) in found {
        let [other, later @ ..] = rest else {
            return false;
        };
        if *version != other.0 || *value != other.1 {
            return false;
        }
        rest = later;
    }
    rest.is_empty()
}

/// Returns true if the replies are equal.
#[tactic(auto, unfolding(crate::specs::Tests::same_reply))]
pub fn are_same_replies(reply: &Reply, other: &Reply) -> bool
    ensures { result ≡ same_reply reply.now other.now }
{
    reply_kind(reply) == reply_kind(other)
        && reply_number(reply) == reply_number(other)
        && are_same_found(found_of(reply), found_of(other))
}
