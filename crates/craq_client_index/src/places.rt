//! The positions of clients' entries, by client. A client without remaining entries keeps an empty
//! list, which no call returns. `index` calls this.
ghost use Rattle.std.specs.Prelude.{◌≡◌, ℕ, ◌+◌, ◌<◌, ◌≤◌, ◌^◌, ◌==◌, [], ◌∷◌, ◌++◌, List, None, OnOk, OnErr, if◌then◌else◌, drop, length, take, unwrap_or};
ghost use Rattle.std.specs.BTreeMap.{get, IsOrdered};
ghost use Rattle.std.specs.List.{last_or};
ghost use Rattle.std.specs.Ordering.{nat_cmp};
ghost use Rattle.craq_commands.specs.declared.entry.Entry.{Entry};
ghost use Rattle.craq_client_index.specs.Indexed.{positions_of, noted_of};

use crate::positions::Positions;
use craq_commands::Entry;
use craq_names::ClientId;
use std::alloc::{AllocError, Global};
use std::collections::BTreeMap;

/// The lists of positions, by client.
pub type Places = BTreeMap<u64, Positions>;

/// Appends one position of a client. Fails only when out of memory; the positions are unchanged on
/// error.
fn add_position(
    alloc: Global,
    places: &mut Places,
    client: u64,
    position: u64,
) -> Result<(), AllocError>
    requires { IsOrdered nat_cmp places.old }
    ensures ok { OnOk result ((q : ℕ) → noted_of places.new.entries q ≡ noted_of places.old.entries q ++ (if client == q then position ∷ [] else [])) }
    ensures err { OnErr result ((q : ℕ) → noted_of places.new.entries q ≡ noted_of places.old.entries q) }
    ensures ordered { IsOrdered nat_cmp places.new }
{
    match places.get_mut(&client) {
        Some(positions) => positions.push(position),
        None => put_first(places, client, Positions::new(alloc), position),
    }
}

// Inserts a list with one position for a client that has none.
fn put_first(
    places: &mut Places,
    client: u64,
    mut positions: Positions,
    position: u64,
) -> Result<(), AllocError>
    requires ordered { IsOrdered nat_cmp places.old }
    requires absent { get nat_cmp places.old client ≡ None }
    requires empty { positions ≡ [] }
    ensures ok { OnOk result ((q : ℕ) → noted_of places.new.entries q ≡ noted_of places.old.entries q ++ (if client == q then position ∷ [] else [])) }
    ensures err { OnErr result ((q : ℕ) → noted_of places.new.entries q ≡ noted_of places.old.entries q) }
    ensures ordered { IsOrdered nat_cmp places.new }
{
    positions.push(position)?;
    places.insert(client, positions)?;
    Ok(())
}

/// Adds the positions of these entries, which follow the position `after`, until out of memory.
/// Returns the number of entries added.
pub fn add_entries(alloc: Global, places: &mut Places, entries: &[Entry], after: u64) -> usize
    requires ordered { IsOrdered nat_cmp places.old }
    requires fits { after + length entries.now < 2 ^ 64 }
    ensures count { result ≤ length entries.now }
    ensures noted { (q : ℕ) → noted_of places.new.entries q ≡ noted_of places.old.entries q ++ positions_of q after (take result entries.now) }
    ensures ordered { IsOrdered nat_cmp places.new }
{
    for index in 0..entries.len() {
        let position = after + index as u64 + 1;
        if add_position(alloc, places, entries[index].client.get(), position).is_err() {
            return index;
        }
    }
    entries.len()
}

/// Removes a client's oldest position.
fn let_first_go(places: &mut Places, client: u64)
    requires { IsOrdered nat_cmp places.old }
    ensures noted { (q : ℕ) → noted_of places.new.entries q ≡ drop (if client == q then 1 else 0) (noted_of places.old.entries q) }
    ensures ordered { IsOrdered nat_cmp places.new }
{
    if let Some(positions) = places.get_mut(&client) {
        positions.let_first_go();
    }
}

/// Removes the positions of these entries, which are the oldest ones.
pub fn let_entries_go(places: &mut Places, entries: &[Entry])
    requires { IsOrdered nat_cmp places.old }
    ensures noted { (after : ℕ) (later : List Entry) (q : ℕ) → noted_of places.old.entries q ≡ positions_of q after (entries.now ++ later)
        → noted_of places.new.entries q ≡ positions_of q (after + length entries.now) later }
    ensures ordered { IsOrdered nat_cmp places.new }
{
    for entry in entries {
        let_first_go(places, entry.client.get());
    }
}

/// Returns a client's newest position, `none` if it has no position.
pub fn newest_position(places: &Places, client: ClientId, none: u64) -> u64
    requires { IsOrdered nat_cmp places.now }
    ensures { result ≡ unwrap_or (last_or None (noted_of places.now.entries client)) none }
{
    match places.get(&client.get()) {
        Some(positions) => positions.newest_or(none),
        None => none,
    }
}
