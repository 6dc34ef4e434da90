//! The version of an object after some entries. `history` asks for it for each write of a batch.
ghost use Rattle.std.specs.Prelude.{◌≡◌, ◌==◌};
ghost use Rattle.craq_names.specs.Maps.{same_bytes};
ghost use Rattle.craq_model.specs.Past.{values_after};
ghost use Rattle.craq_compact_history.specs.Later.{last_byte, last_version};

use craq_commands::Entry;
use craq_names::{Key, Version};

/// Returns true exactly if two keys have the same last byte.
fn end_alike(key: &Key, other: &Key) -> bool
    ensures { result ≡ (last_byte key.now == last_byte other.now) }
{
    let bytes = key.as_slice();
    let others = other.as_slice();
    bytes[bytes.len() - 1] == others[others.len() - 1]
}

/// Returns true exactly if two keys have the same bytes. Compares their last bytes first, since most
/// keys differ there, and then words of 8 bytes.
#[tactic(auto, using(crate::proofs::Keys::unlike_ends))]
fn are_same(key: &Key, other: &Key) -> bool
    ensures { result ≡ same_bytes key.now other.now }
{
    end_alike(key, other) && key.cmp(other).is_eq()
}

/// Returns an object's version after these entries, given the one before them.
#[tactic(auto, unfolding(craq_model::specs::Past::values_in, craq_model::specs::Past::values_after, crate::specs::Later::last_version))]
pub fn version_past(version: Version, entries: &[Entry], key: &Key) -> Version
    ensures { result ≡ last_version version (values_after entries.now key.now) }
{
    let mut last = version;
    for entry in entries {
        for write in entry.writes.as_slice() {
            if are_same(&write.key, key) {
                last = write.version;
            }
        }
    }
    last
}
