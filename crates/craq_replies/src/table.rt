//! `ReplyTable`: the kept replies by client. A node's past holds one.
ghost use Rattle.std.specs.Prelude.{◌≡◌, ◌<◌, ◌≤◌, [], IsOk, IfOk, OnOk, OnErr, length, map};
ghost use Rattle.std.specs.List.Sorted.{IsStrictlySortedBy};
ghost use Rattle.std.specs.Ordering.{nat_cmp};
ghost use Rattle.craq_names.specs.Maps.{put_number};
ghost use Rattle.craq_commands.specs.Kept.{keep, said_of};
ghost use Rattle.craq_commands.specs.Reported.{given_reply};
ghost use Rattle.craq_commands.specs.Known.{known_by, known_of};
ghost use Rattle.craq_replies.specs.Replies.{window_of, room_at, KeepsRoom, KeepsOthersRoom};

use crate::KeptReplies;
use crate::places::{Places, copies, keep_in_place, put_place, reserve_in};
use craq_commands::{Kept, Reply, RequestStatus, Window, look_in};
use craq_names::{ClientId, Items, RequestNo};
use std::alloc::{AllocError, Global};
use std::collections::BTreeMap;
use std::marker::Model;

/// The replies kept for clients: at most 8 for each, those to its largest request numbers (this
/// project's profile). A client for which only room was reserved has an empty slot, which no call
/// returns.
#[derive(Drop)]
pub struct ReplyTable {
    places: Places,
    alloc: Global,
}

impl Model for ReplyTable {
    ghost use Rattle.std.specs.Ordering.{nat_cmp};
    ghost use Rattle.std.specs.BTreeMap.{IsOrdered};
    ghost use Rattle.craq_commands.specs.Known.{known_by, known_of};
    ghost use Rattle.craq_replies.specs.Replies.{Replies, table_of};

    ghost Value = { Replies };

    ghost view = { λ t. table_of t.places.entries };

    ghost invariant = { λ t. IsOrdered nat_cmp t.places };
}

impl ReplyTable {
    /// Returns the empty table. Allocates nothing.
    pub fn new(alloc: Global) -> Self
        ensures { result.kept ≡ [] }
    {
        ReplyTable {
            places: BTreeMap::new(alloc),
            alloc,
        }
    }

    /// Looks up a client's request number: its kept reply, `Stale` if it is below all of a full
    /// window, or `New`. A number whose kept reply is itself `Stale` is `Kept`. Allocates nothing.
    pub fn look(&self, client: ClientId, number: RequestNo) -> RequestStatus<'_>
        ensures reply { given_reply result ≡ said_of (window_of self.now client) number }
        ensures known { known_by result ≡ known_of (window_of self.now client) number }
    {
        match self.places.get(&client.get()) {
            Some(held) => look_in(held.as_slice(), number),
            None => RequestStatus::New,
        }
    }

    /// Returns the client's kept replies, sorted by number: at most 8. Allocates nothing.
    pub fn window(&self, client: ClientId) -> &[Kept]
        ensures window { result.now ≡ window_of self.now client }
        ensures few { length result.now ≤ 8 }
    {
        match self.places.get(&client.get()) {
            Some(held) => held.as_slice(),
            None => &[],
        }
    }

    /// Sets the client's kept replies to these 1 to 8, sorted by number. Fails only when out of
    /// memory; the table is unchanged on error.
    pub fn put(&mut self, client: ClientId, replies: Vec<Kept>) -> Result<(), AllocError>
        requires few { length replies.items ≤ 8 }
        requires some { 1 ≤ length replies.items }
        ensures err { OnErr result (self.new ≡ self.old) }
        ensures ok { OnOk result (self.new.kept ≡ put_number self.old.kept client replies.items) }
    {
        put_place(&mut self.places, client.get(), replies)
    }

    /// Copies the kept replies, sorted by client. Fails only when out of memory.
    pub fn copied(&self, alloc: Global) -> Result<Items<(ClientId, Window)>, AllocError>
        ensures { IfOk result (λ kept. kept ≡ self.now.kept) }
    {
        Ok(Items::of(copies(alloc, &self.places)?))
    }

    /// Reserves room for the next reply to a client, whose `keep` then allocates nothing. Fails
    /// only when out of memory; the kept replies are unchanged in either case.
    pub fn reserve(&mut self, client: ClientId) -> Result<(), AllocError>
        ensures kept { self.new.kept ≡ self.old.kept }
        ensures room { KeepsRoom self.old self.new }
        ensures ok { OnOk result (0 < room_at self.new client) }
        ensures succeeds { 0 < room_at self.old client → IsOk result }
    {
        reserve_in(self.alloc, &mut self.places, client.get())
    }

    /// Keeps the reply to a client's new number; a ninth drops the reply to its smallest number.
    /// Fails only when out of memory, and only if no room is reserved for the client; the kept
    /// replies are unchanged on error.
    pub fn keep(
        &mut self,
        client: ClientId,
        number: RequestNo,
        reply: Reply,
    ) -> Result<(), AllocError>
        ensures ok { OnOk result (self.new.kept ≡ put_number self.old.kept client (keep (window_of self.old client) number reply)) }
        ensures err { OnErr result (self.new.kept ≡ self.old.kept) }
        ensures rooms { KeepsOthersRoom self.old self.new client }
        ensures succeeds { 0 < room_at self.old client → IsOk result }
    {
        keep_in_place(self.alloc, &mut self.places, client.get(), number, reply)
    }

    /// Iterates over the kept replies, sorted by client. Allocates nothing.
    pub fn items(&self) -> KeptReplies<'_>
        ensures kept { result ≡ self.now.kept }
        ensures rising { IsStrictlySortedBy nat_cmp (map (λ k. k.0) result) }
    {
        KeptReplies::of(self.places.iter())
    }
}
