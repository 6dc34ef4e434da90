//! Look-ups of a key or a client in a state and the entries after it. Each scans all of them.
//! `history`, `craq_compact_history`, `craq_compact_state` and `craq_client_index` call them.
ghost use Rattle.std.specs.Prelude.{◌≡◌, ◌==◌, ◌+◌, ◌≤◌, [], length, unwrap_or};
ghost use Rattle.craq_names.specs.Maps.{at_number};
ghost use Rattle.craq_commands.specs.Objects.{object_of, version_of};
ghost use Rattle.craq_commands.specs.SingleCopy.{after_entries, said, is_new_to, window_of};
ghost use Rattle.craq_commands.specs.Reported.{given_reply};
ghost use Rattle.craq_model.specs.Past.{last_position, newest_within, values_after};
ghost use Rattle.craq_full_history.specs.Scans.{last_value};
ghost use Rattle.craq_full_history.specs.Slots.{is_new_in, reply_at, said_in, slots_after, slots_from};

use crate::slots::{is_new, said_in, slots_after, slots_later};
use craq_commands::{Entry, Kept, RequestStatus, State, Window};
use craq_names::{ClientId, Key, RequestNo, Value, Version};

/// Returns the version and value of an object of a state; version 0 and no bytes if it is absent.
#[tactic(auto, unfolding(craq_commands::specs::Objects::object_of))]
fn object_in<'a>(objects: &'a [(Key, (Version, Value))], key: &Key) -> (Version, &'a [u8])
    ensures object { (result.0, result.1.now) ≡ object_of objects.now key.now }
    ensures short { length result.1.now ≤ 4096 }
{
    for (name, (version, value)) in objects {
        if key == name {
            return (*version, value.as_slice());
        }
    }
    (Version::new(0), &[])
}

/// Returns an object's version and value after these entries, given those before them.
#[tactic(auto, unfolding(craq_model::specs::Past::values_in, craq_model::specs::Past::values_after, crate::specs::Scans::last_value))]
pub fn object_past<'a>(
    version: Version,
    value: &'a [u8],
    entries: &'a [Entry],
    key: &Key,
) -> (Version, &'a [u8])
    requires { length value.now ≤ 4096 }
    ensures object { (result.0, result.1.now) ≡ last_value (version, value.now) (values_after entries.now key.now) }
    ensures short { length result.1.now ≤ 4096 }
{
    let (mut last, mut bytes) = (version, value);
    for entry in entries {
        for write in entry.writes.as_slice() {
            if write.key == *key {
                last = write.version;
                bytes = write.value.as_slice();
            }
        }
    }
    (last, bytes)
}

/// Returns an object's version and value after these entries.
#[tactic(auto, using(crate::proofs::Scans::last_of_values))]
pub fn object_after<'a>(state: &'a State, entries: &'a [Entry], key: &Key) -> (Version, &'a [u8])
    ensures object { (result.0, result.1.now) ≡ object_of (after_entries state.now entries.now).objects key.now }
    ensures short { length result.1.now ≤ 4096 }
{
    let (version, value) = object_in(state.objects.as_slice(), key);
    object_past(version, value, entries, key)
}

/// Returns an object's version after these entries and the later ones.
#[tactic(auto, using(crate::proofs::Scans::last_of_values))]
pub fn version_later(state: &State, entries: &[Entry], later: &[Entry], key: &Key) -> Version
    ensures { result ≡ version_of (after_entries (after_entries state.now entries.now) later.now).objects key.now }
{
    let (version, value) = object_after(state, entries, key);
    object_past(version, value, later, key).0
}

/// Returns true exactly if a version is the next after another.
pub fn follows(version: Version, last: Version) -> bool
    ensures { result ≡ (version == last + 1) }
{
    last.get().checked_add(1) == Some(version.get())
}

/// Returns an object's last version that is at most `bound` above a version, with its value, from
/// the one before these entries on.
#[tactic(auto, unfolding(craq_model::specs::Past::values_in, craq_model::specs::Past::values_after, craq_model::specs::Past::newest_within))]
pub fn object_up_to<'a>(
    version: Version,
    value: &'a [u8],
    later: &'a [Entry],
    key: &Key,
    base: u64,
    above: u64,
) -> (Version, &'a [u8])
    requires { length value.now ≤ 4096 }
    ensures object { (result.0, result.1.now) ≡ newest_within (base + above) (version, value.now) (values_after later.now key.now) }
    ensures short { length result.1.now ≤ 4096 }
{
    let (mut last, mut bytes) = (version, value);
    for entry in later {
        for write in entry.writes.as_slice() {
            if write.key == *key {
                if write.version.get().saturating_sub(base) > above {
                    return (last, bytes);
                }
                last = write.version;
                bytes = write.value.as_slice();
            }
        }
    }
    (last, bytes)
}

/// Returns an object's last version that is at most the bound above a version, with its value, from
/// the one after the first entries on.
pub fn object_within<'a>(
    state: &'a State,
    first: &'a [Entry],
    later: &'a [Entry],
    key: &Key,
    base: u64,
    above: u64,
) -> (Version, &'a [u8])
    ensures object { (result.0, result.1.now) ≡ newest_within (base + above) (object_of (after_entries state.now first.now).objects key.now) (values_after later.now key.now) }
    ensures short { length result.1.now ≤ 4096 }
{
    let (version, value) = object_after(state, first, key);
    object_up_to(version, value, later, key, base, above)
}

/// Returns the position of a client's last entry, `base` if there is none.
#[tactic(auto, unfolding(craq_model::specs::Past::last_position))]
pub fn last_position_of(entries: &[Entry], client: ClientId, base: u64) -> u64
    ensures { result ≡ last_position client base entries.now }
{
    let mut position = base;
    for entry in entries {
        if entry.client == client {
            position = entry.position.get();
        }
    }
    position
}

/// Returns the replies that a state keeps for a client.
#[tactic(auto, using(crate::proofs::Scans::same_numbers), unfolding(craq_commands::specs::SingleCopy::window_of))]
fn window_in(state: &State, client: ClientId) -> &[Kept]
    ensures window { result.now ≡ window_of state.now client }
    ensures few { length result.now ≤ 8 }
{
    for (name, window) in state.kept.as_slice() {
        if client == *name {
            return window.as_slice();
        }
    }
    &[]
}

/// Looks up a client's request number after these entries, given the client's window before them.
pub fn said_past<'a>(
    window: &'a [Kept],
    entries: &'a [Entry],
    client: ClientId,
    number: RequestNo,
) -> RequestStatus<'a>
    requires { length window.now ≤ 8 }
    ensures { given_reply result ≡ said_in (reply_at window.now entries.now) (slots_after client (length window.now) entries.now (slots_from 0 window.now)) number }
{
    let slots = slots_after(window, entries, client);
    said_in(slots.as_slice(), window, entries, number)
}

/// Looks up a client's request number after these entries.
#[tactic(auto, using(crate::proofs::Windows::said_after))]
pub fn said_after<'a>(
    state: &'a State,
    entries: &'a [Entry],
    client: ClientId,
    number: RequestNo,
) -> RequestStatus<'a>
    ensures { given_reply result ≡ said (after_entries state.now entries.now) client number }
{
    said_past(window_in(state, client), entries, client, number)
}

/// Returns true exactly if a client's request number is new after both lists of entries, given the
/// client's window before them.
pub fn is_new_past(
    window: &[Kept],
    entries: &[Entry],
    later: &[Entry],
    client: ClientId,
    number: RequestNo,
) -> bool
    requires { length window.now ≤ 8 }
    ensures { result ≡ is_new_in (slots_after client (length window.now + length entries.now) later.now (slots_after client (length window.now) entries.now (slots_from 0 window.now))) number }
{
    let slots = slots_later(window, entries, later, client);
    is_new(slots.as_slice(), number)
}

/// Returns true exactly if a client's request number is new after both lists of entries.
#[tactic(auto, using(crate::proofs::Windows::new_later))]
pub fn is_new_after(
    state: &State,
    entries: &[Entry],
    later: &[Entry],
    client: ClientId,
    number: RequestNo,
) -> bool
    ensures { result ≡ is_new_to (after_entries (after_entries state.now entries.now) later.now) client number }
{
    is_new_past(window_in(state, client), entries, later, client, number)
}
