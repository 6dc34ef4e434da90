//! Windows of kept replies without allocation: each number with the index of its reply. `lookups`,
//! `craq_compact_history` and `craq_client_index` call this.
ghost use Rattle.std.specs.Prelude.{◌≡◌, ◌+◌, ◌<◌, ◌≤◌, ◌^◌, length};
ghost use Rattle.std.specs.Option.{option_copied};
ghost use Rattle.arrayvec.specs.ArrayVec.{array_vec_len};
ghost use Rattle.craq_names.specs.Maps.{at_number, put_number};
ghost use Rattle.craq_commands.specs.Reported.{given_reply};
ghost use Rattle.craq_full_history.specs.Slots.{window_with, slots_from, slots_after, reply_at, is_stale_in, is_new_in, said_in};

use arrayvec::ArrayVec;
use craq_commands::{Entry, Kept, Reply, RequestStatus, WINDOW_LIMIT};
use craq_names::{ClientId, RequestNo};
use std::cmp::Ordering;
use std::marker::Model;

/// A kept request number with the index of its reply among those of a window and of the entries
/// after it.
#[derive(Clone, Copy)]
pub struct Slot {
    number: RequestNo,
    index: usize,
}

impl Model for Slot {
    ghost use Rattle.std.specs.Prelude.{ℕ};

    ghost Value = { ℕ × ℕ };

    ghost view = { λ s. (s.number, s.index) };

    ghost inverse = { λ s. record { number = s.0; index = s.1 } };
}

impl Slot {
    /// Makes the slot of this number with this index.
    pub fn new(number: RequestNo, index: usize) -> Self
        ensures { result ≡ (number, index) }
    {
        Slot { number, index }
    }

    /// Returns the number.
    fn number(&self) -> RequestNo
        ensures { result ≡ self.now.0 }
    {
        self.number
    }

    /// Returns the index of the reply.
    fn index(&self) -> usize
        ensures { result ≡ self.now.1 }
    {
        self.index
    }
}

impl Default for Slot {
    fn default() -> Self {
        Slot {
            number: RequestNo::new(1).unwrap(),
            index: 0,
        }
    }
}

/// The slots of a window, with room for a ninth.
pub type Slots = ArrayVec<Slot, 9>;

/// Inserts a slot sorted by number, or replaces the slot with its number.
fn put_slot(slots: &mut Slots, slot: Slot)
    requires { array_vec_len slots.old ≤ 8 }
    ensures { slots.new.items ≡ put_number slots.old.items slot.0 slot.1 }
{
    for place in 0..slots.len() {
        match slot.number().cmp(&slots[place].number()) {
            Ordering::Less => {
                slots.insert(place, slot);
                return;
            }
            Ordering::Equal => {
                slots[place] = slot;
                return;
            }
            Ordering::Greater => {}
        }
    }
    slots.push(slot);
}

/// Keeps the slot of a number; a ninth drops the first.
pub fn keep_slot(slots: &mut Slots, slot: Slot)
    requires { array_vec_len slots.old ≤ 8 }
    ensures slots { slots.new.items ≡ window_with slots.old.items slot.0 slot.1 }
    ensures few { array_vec_len slots.new ≤ 8 }
{
    put_slot(slots, slot);
    if slots.len() > WINDOW_LIMIT {
        slots.remove(0);
    }
}

/// Returns the slots of a window.
fn slots_of(window: &[Kept]) -> Slots
    requires { length window.now ≤ 8 }
    ensures slots { result.items ≡ slots_from 0 window.now }
    ensures few { array_vec_len result ≤ 8 }
{
    let mut slots = Slots::new();
    for (number, _) in window {
        let index = slots.len();
        slots.push(Slot::new(*number, index));
    }
    slots
}

/// Keeps the replies of a client's entries, whose indexes start at `first`.
#[tactic(auto, unfolding(crate::specs::Slots::slots_after))]
pub fn add_entries(slots: &mut Slots, client: ClientId, entries: &[Entry], first: usize)
    requires few { array_vec_len slots.old ≤ 8 }
    requires fits { first + length entries.now < 2 ^ 64 }
    ensures slots { slots.new.items ≡ slots_after client first entries.now slots.old.items }
    ensures few { array_vec_len slots.new ≤ 8 }
{
    let mut index = first;
    for entry in entries {
        if entry.client == client {
            keep_slot(slots, Slot::new(entry.number, index));
        }
        index += 1;
    }
}

/// Returns the slots of a client's window after some entries.
pub fn slots_after(window: &[Kept], entries: &[Entry], client: ClientId) -> Slots
    requires { length window.now ≤ 8 }
    ensures slots { result.items ≡ slots_after client (length window.now) entries.now (slots_from 0 window.now) }
    ensures few { array_vec_len result ≤ 8 }
{
    let mut slots = slots_of(window);
    add_entries(&mut slots, client, entries, window.len());
    slots
}

/// Returns the slots of a client's window after both lists of entries.
pub fn slots_later(window: &[Kept], entries: &[Entry], later: &[Entry], client: ClientId) -> Slots
    requires { length window.now ≤ 8 }
    ensures { result.items ≡ slots_after client (length window.now + length entries.now) later.now (slots_after client (length window.now) entries.now (slots_from 0 window.now)) }
{
    let mut slots = slots_after(window, entries, client);
    add_entries(&mut slots, client, later, window.len() + entries.len());
    slots
}

/// Returns the index of the reply to a number, `None` if there is none.
fn index_of(slots: &[Slot], number: RequestNo) -> Option<usize>
    ensures { result ≡ at_number slots.now number }
{
    for slot in slots {
        if number == slot.number() {
            return Some(slot.index());
        }
    }
    None
}

/// Returns true exactly if the number is below all of a full window.
#[tactic(auto, unfolding(crate::specs::Slots::is_stale_in))]
fn is_stale(slots: &[Slot], number: RequestNo) -> bool
    ensures { result ≡ is_stale_in slots.now number }
{
    match slots.first() {
        Some(slot) => slots.len() >= WINDOW_LIMIT && number < slot.number(),
        None => false,
    }
}

/// Returns true exactly if the number is new to a window.
#[tactic(auto, unfolding(crate::specs::Slots::is_new_in))]
pub fn is_new(slots: &[Slot], number: RequestNo) -> bool
    ensures { result ≡ is_new_in slots.now number }
{
    index_of(slots, number).is_none() && !is_stale(slots, number)
}

/// Returns the reply at an index among those of a window and of the entries after it.
#[tactic(auto, unfolding(crate::specs::Slots::reply_at))]
fn reply_at<'a>(window: &'a [Kept], entries: &'a [Entry], index: usize) -> Option<&'a Reply>
    ensures { option_copied result ≡ reply_at window.now entries.now index }
{
    if index < window.len() {
        return match window.get(index) {
            Some((_, reply)) => Some(reply),
            None => None,
        };
    }
    match entries.get(index - window.len()) {
        Some(entry) => Some(&entry.reply),
        None => None,
    }
}

/// Looks up a number in the slots, whose replies are those of a window and of the entries after it.
#[tactic(auto, unfolding(crate::specs::Slots::said_in))]
pub fn said_in<'a>(
    slots: &[Slot],
    window: &'a [Kept],
    entries: &'a [Entry],
    number: RequestNo,
) -> RequestStatus<'a>
    ensures { given_reply result ≡ said_in (reply_at window.now entries.now) slots.now number }
{
    let last = match slots.last() {
        None => return RequestStatus::New,
        Some(last) => last,
    };
    if is_stale(slots, number) {
        return RequestStatus::Stale(last.number());
    }
    match index_of(slots, number) {
        None => RequestStatus::New,
        Some(index) => match reply_at(window, entries, index) {
            None => RequestStatus::New,
            Some(reply) => RequestStatus::Kept(reply),
        },
    }
}
