//! A client's kept replies, found by the positions of its entries. `index` calls this.
ghost use Rattle.std.specs.Prelude.{◌≡◌, ◌+◌, ◌<◌, ◌≤◌, ◌^◌, length, slice_index_or};
ghost use Rattle.std.specs.BTreeMap.{IsOrdered};
ghost use Rattle.std.specs.Ordering.{nat_cmp};
ghost use Rattle.arrayvec.specs.ArrayVec.{array_vec_len};
ghost use Rattle.craq_full_history.specs.Slots.{slots_after};
ghost use Rattle.craq_client_index.specs.Indexed.{positions_of, noted_of};

use crate::places::Places;
use craq_commands::Entry;
use craq_full_history::slots::{Slot, Slots, keep_slot};
use craq_names::ClientId;

/// Returns the entry at an index, from 0.
fn entry_at(entries: &[Entry], index: usize) -> &Entry
    requires { index < length entries.now }
    ensures { result.now ≡ slice_index_or entries.now index result.now }
{
    &entries[index]
}

/// Keeps the replies of a client's entries, all of whose positions are in its list. The replies'
/// indexes start at `first`.
pub fn keep_noted(
    slots: &mut Slots,
    client: ClientId,
    places: &Places,
    entries: &[Entry],
    after: u64,
    first: usize,
)
    requires ordered { IsOrdered nat_cmp places.now }
    requires few { array_vec_len slots.old ≤ 8 }
    requires fits { first + length entries.now < 2 ^ 64 }
    requires noted { noted_of places.now.entries client ≡ positions_of client after entries.now }
    ensures slots { slots.new.items ≡ slots_after client first entries.now slots.old.items }
    ensures few { array_vec_len slots.new ≤ 8 }
{
    let positions = match places.get(&client.get()) {
        Some(positions) => positions,
        None => return,
    };
    for place in 0..positions.len() {
        let index = (positions.at(place) - after) as usize - 1;
        let entry = entry_at(entries, index);
        keep_slot(slots, Slot::new(entry.number, first + index));
    }
}
