//! Insertion into a list of pairs sorted by key, used as a map. `list`, `craq_commands` and
//! `craq_full_history` call it.
ghost use Rattle.std.specs.Prelude.{◌≡◌, ◌≤◌, OnOk, OnErr, vec_len, vec_capacity};
ghost use Rattle.std.specs.FinMap.Entries.{put};

use std::alloc::AllocError;
use std::cmp::Ordering;

/// Inserts a value at its key into a list sorted by key, or replaces the value that is there. Fails
/// only when out of memory, and only if the list is at capacity; the list is unchanged on error.
pub fn put_at<K: Ord + Drop, V: Drop>(
    items: &mut Vec<(K, V)>,
    key: K,
    value: V,
) -> Result<(), AllocError>
    ensures ok { OnOk result (items.new.items ≡ put K.cmp key value items.old.items) }
    ensures err { OnErr result (items.new.items ≡ items.old.items) }
    ensures full { OnErr result (vec_capacity items.old ≤ vec_len items.old) }
{
    for place in 0..items.len() {
        match key.cmp(&items[place].0) {
            Ordering::Less => {
                items.insert(place, (key, value))?;
                return Ok(());
            }
            Ordering::Equal => {
                items[place].1 = value;
                return Ok(());
            }
            Ordering::Greater => {}
        }
    }
    items.push((key, value))?;
    Ok(())
}
