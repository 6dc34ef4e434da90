//! The lists of a table, by key. A list without versions only reserves room. `table` calls this.
ghost use Rattle.std.specs.Prelude.{◌≡◌, ◌≢◌, ℕ, ◌+◌, ◌<◌, ◌≤◌, List, [], ◌∷◌, None, Some, IfOk, IsSome, IsOk, OnOk, OnErr, if◌then◌else◌};
ghost use Rattle.craq_key_map.specs.Mapped.{entries_of};
ghost use Rattle.craq_names.specs.Maps.{at_key, put_key, same_bytes};
ghost use Rattle.craq_versions.specs.Versions.{AreVersions, CanPush, CanSettle, CanSettleAs};
ghost use Rattle.craq_versions.specs.Tables.{table_in, table_of, held_at, held_in, key_at, only_clean, popped, room_at, pushed, settled, settled_as, KeepsRoom, KeepsOthersRoom};

use crate::VersionList;
use craq_key_map::KeyMap;
use craq_names::{Copied, Key, Version};
use std::alloc::{AllocError, Global};

/// The version lists, by key.
pub type Lists<V> = KeyMap<VersionList<V>>;

/// Ensures that the key has a list. Fails only when out of memory, and only if the key has no list
/// yet; allocates nothing otherwise.
pub fn place<V: Drop>(alloc: Global, lists: &mut Lists<V>, key: &Key) -> Result<(), AllocError>
    ensures objects { (table_of (entries_of lists.new)).objects ≡ (table_of (entries_of lists.old)).objects }
    ensures room { KeepsRoom (table_of (entries_of lists.old)) (table_of (entries_of lists.new)) }
    ensures placed { OnOk result (IsSome (at_key (entries_of lists.new) key.now)) }
    ensures succeeds { 0 < room_at (table_of (entries_of lists.old)) key.now → IsOk result }
{
    match lists.get(key) {
        Some(_) => Ok(()),
        None => put_empty(alloc, lists, key.copied(alloc)?),
    }
}

// Inserts a list without versions for a key that has no list. Fails only when out of memory.
fn put_empty<V: Drop>(alloc: Global, lists: &mut Lists<V>, key: Key) -> Result<(), AllocError>
    requires { at_key (entries_of lists.old) key ≡ None }
    ensures objects { (table_of (entries_of lists.new)).objects ≡ (table_of (entries_of lists.old)).objects }
    ensures room { KeepsRoom (table_of (entries_of lists.old)) (table_of (entries_of lists.new)) }
    ensures placed { OnOk result (IsSome (at_key (entries_of lists.new) key)) }
{
    lists.insert(key, VersionList::new(alloc))
}

/// Reserves room for one more version of a key that has a list. Fails only when out of memory.
pub fn reserve_in<V: Drop>(alloc: Global, lists: &mut Lists<V>, key: &Key) -> Result<(), AllocError>
    requires placed { IsSome (at_key (entries_of lists.old) key.now) }
    ensures objects { (table_of (entries_of lists.new)).objects ≡ (table_of (entries_of lists.old)).objects }
    ensures room { KeepsRoom (table_of (entries_of lists.old)) (table_of (entries_of lists.new)) }
    ensures ok { OnOk result (0 < room_at (table_of (entries_of lists.new)) key.now) }
    ensures succeeds { 0 < room_at (table_of (entries_of lists.old)) key.now → IsOk result }
{
    match lists.find(key) {
        None => Ok(()),
        Some(place) => {
            let mut list = lists.replace(place, VersionList::new(alloc));
            let reserved = list.reserve(1);
            lists.replace(place, list);
            reserved
        }
    }
}

/// Makes a version of a key the clean one and drops the older ones.
pub fn settle_in<V: Drop>(alloc: Global, lists: &mut Lists<V>, key: &Key, version: Version)
    requires { CanSettle (held_at (table_of (entries_of lists.old)) key.now).versions (held_at (table_of (entries_of lists.old)) key.now).clean version }
    ensures objects { (table_of (entries_of lists.new)).objects ≡ put_key (table_of (entries_of lists.old)).objects key.now (settled (held_at (table_of (entries_of lists.old)) key.now) version) }
    ensures room { KeepsRoom (table_of (entries_of lists.old)) (table_of (entries_of lists.new)) }
{
    if let Some(place) = lists.find(key) {
        let mut list = lists.replace(place, VersionList::new(alloc));
        list.settle(version);
        lists.replace(place, list);
    }
}

/// Makes a version of the key at a place the clean one with this held item, and drops the older
/// ones.
pub fn settle_as_at_in<V: Drop>(
    alloc: Global,
    lists: &mut Lists<V>,
    place: usize,
    version: Version,
    held: V,
)
    requires placed { IsSome (key_at (table_in lists.old) place) }
    requires next { (key : List ℕ) → key_at (table_in lists.old) place ≡ Some key → CanSettleAs (held_at (table_in lists.old) key).versions version }
    ensures objects { (key : List ℕ) → key_at (table_in lists.old) place ≡ Some key → (table_in lists.new).objects ≡ put_key (table_in lists.old).objects key (settled_as (held_at (table_in lists.old) key) version held) }
    ensures were_versions { (key : List ℕ) → key_at (table_in lists.old) place ≡ Some key → AreVersions (held_at (table_in lists.old) key).versions (held_at (table_in lists.old) key).clean }
    ensures rooms { (key : List ℕ) → key_at (table_in lists.old) place ≡ Some key → KeepsOthersRoom (table_in lists.old) (table_in lists.new) key }
    ensures place { key_at (table_in lists.new) place ≡ key_at (table_in lists.old) place }
{
    let mut list = lists.replace(place, VersionList::new(alloc));
    list.settle_as(version, held);
    lists.replace(place, list);
}

/// Makes a version of a key the clean one with this held item, and drops the older ones.
pub fn settle_as_in<V: Drop>(
    alloc: Global,
    lists: &mut Lists<V>,
    key: &Key,
    version: Version,
    held: V,
)
    requires { CanSettleAs (held_at (table_of (entries_of lists.old)) key.now).versions version }
    ensures objects { (table_of (entries_of lists.new)).objects ≡ put_key (table_of (entries_of lists.old)).objects key.now (settled_as (held_at (table_of (entries_of lists.old)) key.now) version held) }
    ensures rooms { KeepsOthersRoom (table_of (entries_of lists.old)) (table_of (entries_of lists.new)) key.now }
    ensures were_versions { AreVersions (held_at (table_of (entries_of lists.old)) key.now).versions (held_at (table_of (entries_of lists.old)) key.now).clean }
{
    if let Some(place) = lists.find(key) {
        settle_as_at_in(alloc, lists, place, version, held);
    }
}

/// Removes the newest version of a key, if there is one.
pub fn pop_in<V: Drop>(alloc: Global, lists: &mut Lists<V>, key: &Key)
    ensures held { (q : List ℕ) → held_at (table_of (entries_of lists.new)) q ≡ (if same_bytes key.now q then popped (held_at (table_of (entries_of lists.old)) q) else held_at (table_of (entries_of lists.old)) q) }
    ensures room { KeepsRoom (table_of (entries_of lists.old)) (table_of (entries_of lists.new)) }
{
    if let Some(place) = lists.find(key) {
        let mut list = lists.replace(place, VersionList::new(alloc));
        list.pop();
        lists.replace(place, list);
    }
}

// Returns a list of one version, without room for more.
fn list_of_one<V: Drop>(
    alloc: Global,
    version: Version,
    held: V,
) -> Result<VersionList<V>, AllocError>
    requires { 1 ≤ version }
    ensures versions { IfOk result (λ list. list.versions ≡ (version, held) ∷ []) }
    ensures clean { IfOk result (λ list. list.clean ≡ 0) }
{
    let mut list = VersionList::with_room(alloc, 1)?;
    list.push(version, held)?;
    Ok(list)
}

// Inserts a list with versions, replacing the key's list. Fails only when out of memory; the lists
// are unchanged on error.
fn put_list<V: Drop>(lists: &mut Lists<V>, key: Key, list: VersionList<V>) -> Result<(), AllocError>
    requires some { list.versions ≢ [] }
    ensures ok { OnOk result ((table_of (entries_of lists.new)).objects ≡ put_key (table_of (entries_of lists.old)).objects key (held_in list)) }
    ensures err { OnErr result ((table_of (entries_of lists.new)).objects ≡ (table_of (entries_of lists.old)).objects) }
    ensures rooms { KeepsOthersRoom (table_of (entries_of lists.old)) (table_of (entries_of lists.new)) key }
{
    match lists.find(&key) {
        Some(place) => {
            lists.replace(place, list);
            Ok(())
        }
        None => lists.insert(key, list),
    }
}

/// Inserts one clean version of a key, replacing the key's versions. Looks the key up once. Fails
/// only when out of memory; the lists are unchanged on error.
pub fn put_clean_in<V: Drop>(
    alloc: Global,
    lists: &mut Lists<V>,
    key: Key,
    version: Version,
    held: V,
) -> Result<(), AllocError>
    requires written { 1 ≤ version }
    ensures ok { OnOk result ((table_of (entries_of lists.new)).objects ≡ put_key (table_of (entries_of lists.old)).objects key (only_clean version held)) }
    ensures err { OnErr result ((table_of (entries_of lists.new)).objects ≡ (table_of (entries_of lists.old)).objects) }
    ensures rooms { KeepsOthersRoom (table_of (entries_of lists.old)) (table_of (entries_of lists.new)) key }
{
    let list = VersionList::of_clean(alloc, version, held);
    put_list(lists, key, list)
}

/// Appends one more version of a key. Looks the key up once.
pub fn push_in<V: Drop>(
    alloc: Global,
    lists: &mut Lists<V>,
    key: &Key,
    version: Version,
    held: V,
) -> Result<(), AllocError>
    requires next { CanPush (held_at (table_of (entries_of lists.old)) key.now).versions version }
    ensures ok { OnOk result ((table_of (entries_of lists.new)).objects ≡ put_key (table_of (entries_of lists.old)).objects key.now (pushed (held_at (table_of (entries_of lists.old)) key.now) version held)) }
    ensures err { OnErr result ((table_of (entries_of lists.new)).objects ≡ (table_of (entries_of lists.old)).objects) }
    ensures room { room_at (table_of (entries_of lists.old)) key.now ≤ room_at (table_of (entries_of lists.new)) key.now + 1 }
    ensures rooms { KeepsOthersRoom (table_of (entries_of lists.old)) (table_of (entries_of lists.new)) key.now }
    ensures succeeds { 0 < room_at (table_of (entries_of lists.old)) key.now → IsOk result }
{
    match lists.find(key) {
        Some(place) => {
            let mut list = lists.replace(place, VersionList::new(alloc));
            let pushed = list.push(version, held);
            lists.replace(place, list);
            pushed
        }
        None => {
            let list = list_of_one(alloc, version, held)?;
            let key = key.copied(alloc)?;
            put_list(lists, key, list)
        }
    }
}
