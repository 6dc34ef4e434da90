//! The slots of a table, by client. A slot without replies only reserves room. `table` calls this.
ghost use Rattle.std.specs.Prelude.{◌≡◌, ◌<◌, ◌≤◌, [], None, IsOk, IfOk, OnOk, OnErr, length};
ghost use Rattle.std.specs.BTreeMap.{get, IsOrdered};
ghost use Rattle.std.specs.Ordering.{nat_cmp};
ghost use Rattle.craq_names.specs.Maps.{put_number};
ghost use Rattle.craq_commands.specs.Kept.{keep};
ghost use Rattle.craq_replies.specs.Replies.{table_of, window_of, room_at, KeepsRoom, KeepsOthersRoom};

use crate::held::HeldReplies;
use craq_commands::{Kept, Reply, Window};
use craq_names::{ClientId, RequestNo, copies_of};
use std::alloc::{AllocError, Global};
use std::collections::BTreeMap;

/// The slots, by client.
pub type Places = BTreeMap<u64, HeldReplies>;

/// Inserts these 1 to 8 replies as a client's slot. Fails only when out of memory; the slots are
/// unchanged on error.
pub fn put_place(places: &mut Places, client: u64, replies: Vec<Kept>) -> Result<(), AllocError>
    requires few { length replies.items ≤ 8 }
    requires some { 1 ≤ length replies.items }
    ensures ok { OnOk result ((table_of places.new.entries).kept ≡ put_number (table_of places.old.entries).kept client replies.items) }
    ensures err { OnErr result (places.new.entries ≡ places.old.entries) }
    ensures ordered { IsOrdered nat_cmp places.new }
{
    places.insert(client, HeldReplies::of(replies))?;
    Ok(())
}

/// Copies the kept replies, sorted by client. Fails only when out of memory.
pub fn copies(alloc: Global, places: &Places) -> Result<Vec<(ClientId, Window)>, AllocError>
    ensures { IfOk result (λ kept. kept.items ≡ (table_of places.now.entries).kept) }
{
    let mut kept = Vec::new(alloc);
    for (client, held) in places.iter() {
        if !held.is_empty() {
            let window = Window::of(copies_of(alloc, held.as_slice())?);
            kept.push((ClientId::new(*client), window))?;
        }
    }
    Ok(kept)
}

/// Reserves room for one more reply to a client. Fails only when out of memory; the kept replies
/// are unchanged in either case.
pub fn reserve_in(alloc: Global, places: &mut Places, client: u64) -> Result<(), AllocError>
    requires { IsOrdered nat_cmp places.old }
    ensures kept { (table_of places.new.entries).kept ≡ (table_of places.old.entries).kept }
    ensures room { KeepsRoom (table_of places.old.entries) (table_of places.new.entries) }
    ensures ok { OnOk result (0 < room_at (table_of places.new.entries) client) }
    ensures succeeds { 0 < room_at (table_of places.old.entries) client → IsOk result }
    ensures ordered { IsOrdered nat_cmp places.new }
{
    match places.get_mut(&client) {
        Some(held) => held.reserve(),
        None => put_room(places, client, HeldReplies::new(alloc)),
    }
}

// Inserts a slot with room for a reply, for a client that has none.
fn put_room(places: &mut Places, client: u64, mut held: HeldReplies) -> Result<(), AllocError>
    requires ordered { IsOrdered nat_cmp places.old }
    requires absent { get nat_cmp places.old client ≡ None }
    requires empty { held.replies ≡ [] }
    ensures kept { (table_of places.new.entries).kept ≡ (table_of places.old.entries).kept }
    ensures room { KeepsRoom (table_of places.old.entries) (table_of places.new.entries) }
    ensures ok { OnOk result (0 < room_at (table_of places.new.entries) client) }
    ensures ordered { IsOrdered nat_cmp places.new }
{
    held.reserve()?;
    places.insert(client, held)?;
    Ok(())
}

/// Keeps the reply to a client's new number.
pub fn keep_in_place(
    alloc: Global,
    places: &mut Places,
    client: u64,
    number: RequestNo,
    reply: Reply,
) -> Result<(), AllocError>
    requires { IsOrdered nat_cmp places.old }
    ensures ok { OnOk result ((table_of places.new.entries).kept ≡ put_number (table_of places.old.entries).kept client (keep (window_of (table_of places.old.entries) client) number reply)) }
    ensures err { OnErr result ((table_of places.new.entries).kept ≡ (table_of places.old.entries).kept) }
    ensures rooms { KeepsOthersRoom (table_of places.old.entries) (table_of places.new.entries) client }
    ensures succeeds { 0 < room_at (table_of places.old.entries) client → IsOk result }
    ensures ordered { IsOrdered nat_cmp places.new }
{
    match places.get_mut(&client) {
        Some(held) => held.keep(number, reply),
        None => put_reply(places, client, HeldReplies::new(alloc), number, reply),
    }
}

// Inserts a slot with this reply, for a client that has none.
fn put_reply(
    places: &mut Places,
    client: u64,
    mut held: HeldReplies,
    number: RequestNo,
    reply: Reply,
) -> Result<(), AllocError>
    requires ordered { IsOrdered nat_cmp places.old }
    requires absent { get nat_cmp places.old client ≡ None }
    requires empty { held.replies ≡ [] }
    ensures ok { OnOk result ((table_of places.new.entries).kept ≡ put_number (table_of places.old.entries).kept client (keep (window_of (table_of places.old.entries) client) number reply)) }
    ensures err { OnErr result ((table_of places.new.entries).kept ≡ (table_of places.old.entries).kept) }
    ensures rooms { KeepsOthersRoom (table_of places.old.entries) (table_of places.new.entries) client }
    ensures ordered { IsOrdered nat_cmp places.new }
{
    held.keep(number, reply)?;
    places.insert(client, held)?;
    Ok(())
}
