//! An iterator over the clients that have replies, ascending, each with its window.
//! `ReplyTable::items` returns it.
ghost use Rattle.std.specs.Prelude.{◌≡◌};
ghost use Rattle.craq_names.specs.Places.{filled};
ghost use Rattle.craq_replies.specs.Replies.{shown, shown_pair};
ghost use Rattle.std.specs.Iterator.{YieldsFirstBy, item_count};

use crate::held::HeldReplies;
use craq_commands::Kept;
use craq_names::ClientId;
use std::collections::btree_map::Iter;
use std::marker::Model;

/// The kept replies by client, ascending. A client's window holds its newest request numbers with
/// their replies, sorted by number.
#[derive(Drop)]
pub struct KeptReplies<'a> {
    places: Iter<'a, u64, HeldReplies>,
}

impl<'a> Model for KeptReplies<'a> {
    ghost use Rattle.std.specs.Prelude.{ℕ, List};
    ghost use Rattle.craq_commands.specs.Kept.{Window};
    ghost use Rattle.craq_names.specs.Places.{filled};
    ghost use Rattle.craq_replies.specs.Replies.{shown};

    ghost Value = { List (ℕ × Window) };

    ghost view = { λ s. filled shown s.places };
}

impl<'a> KeptReplies<'a> {
    /// Makes the iterator over these slots, without the empty ones.
    pub(crate) fn of(places: Iter<'a, u64, HeldReplies>) -> Self
        ensures { result ≡ filled shown places.entry }
    {
        KeptReplies { places }
    }
}

impl<'a> Iterator for KeptReplies<'a> {
    type Item = (ClientId, &'a [Kept]);

    ghost next_gives = { YieldsFirstBy shown_pair (λ s. s) };

    ghost remaining = { item_count (λ s. s) };

    fn next(&mut self) -> Option<(ClientId, &'a [Kept])> {
        while let Some((client, place)) = self.places.next() {
            if !place.is_empty() {
                return Some((ClientId::new(*client), place.as_slice()));
            }
        }
        None
    }
}
