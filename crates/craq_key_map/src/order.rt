//! The order of entries. Callers that copy a map's entries sort the copies.
ghost use Rattle.std.specs.Prelude.{T};
ghost use Rattle.std.specs.FinMap.Entries.{is_sorted};
ghost use Rattle.craq_names.specs.Maps.{key_cmp};
ghost use Rattle.craq_key_map.specs.Mapped.{AreDistinct, AreEntries};

use craq_names::Key;

/// Sorts entries by key; each key is there once. Allocates nothing.
pub fn sort_by_key<X>(entries: &mut Vec<(Key, X)>)
    requires { AreDistinct entries.old.items }
    ensures sorted { T (is_sorted key_cmp entries.new.items) }
    ensures same { AreEntries entries.new.items entries.old.items }
{
    entries.sort_unstable_by(|left, right| left.0.cmp(&right.0));
}
