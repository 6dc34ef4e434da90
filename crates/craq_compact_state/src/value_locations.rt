//! The location of a version's value. `lookups`, `indexing` and `objects` call this.
ghost use Rattle.std.specs.Prelude.{◌≡◌, ◌≤◌, [], length, unwrap_or, if◌then◌else◌};
ghost use Rattle.std.specs.Option.{option_map};
ghost use Rattle.craq_compact_state.specs.Placed.{has_some, later_in, settled_in};

use craq_names::{Seq, Value, Version};
use craq_versions::VersionList;

/// A reference to a write: the position of its entry, and its index among the entry's writes, from
/// 0.
#[derive(Clone, Copy, Debug, Drop)]
pub struct WriteRef {
    pub position: Seq,
    pub index: usize,
}

/// The location of a version's value. The settled version has it here; a later version has it in
/// the entry that writes it, and nowhere else. A later version is dirty until its entry is known to
/// be committed (clean and dirty versions as in the USENIX ATC 2009 paper).
#[derive(Drop)]
pub enum ValueLocation {
    Settled(Value),
    Written(WriteRef),
}

/// Returns the settled version and its value, `None` if there is none.
pub fn settled_of(list: &VersionList<ValueLocation>) -> Option<(Version, &Value)>
    ensures { option_map (λ found. (found.0, found.1.now)) result ≡ settled_in list.now.versions }
{
    match list.oldest() {
        None => None,
        Some((version, place)) => match place {
            ValueLocation::Settled(value) => Some((version, value)),
            ValueLocation::Written(_) => None,
        },
    }
}

/// Returns the settled version and its value; version 0 and no bytes if there is none.
pub fn settled_object(list: &VersionList<ValueLocation>) -> (Version, &[u8])
    ensures object { (result.0, result.1.now) ≡ unwrap_or (settled_in list.now.versions) (0, []) }
    ensures short { length result.1.now ≤ 4096 }
{
    match settled_of(list) {
        None => (Version::new(0), &[]),
        Some((version, value)) => (version, value.as_slice()),
    }
}

/// Returns true exactly if there are versions after the settled one.
pub fn has_later(list: &VersionList<ValueLocation>) -> bool
    ensures { result ≡ has_some (later_in list.now.versions) }
{
    match list.oldest() {
        None => false,
        Some((_, place)) => match place {
            ValueLocation::Settled(_) => list.len() > 1,
            ValueLocation::Written(_) => true,
        },
    }
}
