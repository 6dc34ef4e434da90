//! The linearization points of the strong replies of a step; used by `account` and `replay`.
ghost use Rattle.std.specs.Prelude.{◌≡◌, ◌∷◌, ◌-◌, ◌++◌, ℕ, List, IfOk, OnOk, slice_index};
ghost use Rattle.std.specs.Option.{option_copied};
ghost use Rattle.craq_commands.specs.declared.entry.Entry.{Entry};
ghost use Rattle.craq_model.specs.declared.ask.Answer.{Answer};
ghost use Rattle.craq_model.specs.declared.step.Out.{Out};
ghost use Rattle.craq_runs.specs.declared.explanation.Place.{Place};
ghost use Rattle.craq_runs.specs.Explain.{clean_at, place_by, places_of, read_place, word_in};
ghost use Rattle.craq_runs.specs.Seen.{Asked, answers_in, asks_from};
ghost use Rattle.craq_explain.specs.Shown.{places_in, plain_in};
ghost use Rattle.craq_explain.specs.Tables.{AreTables, IsCommitted};

use crate::asks::ask_of;
use crate::firsts::number_of_ask;
use crate::tables::{Replayed, Tables};
use craq_commands::ReadMode;
use craq_full_history::FullHistory;
use craq_history::{History, Node};
use craq_model::{Ask, Body, LinkMessage, Out};
use craq_names::{Key, Seq, Ticket, Version};
use craq_runs::{Place, Taken};
use std::alloc::{AllocError, Global};

/// Returns the number committed after the step that sent the message of this number, from 1.
fn sent_with(sent_at: &[u64], number: u64) -> u64
    ensures { result ≡ slice_index sent_at.now (number - 1) }
{
    match sent_at.get(number.saturating_sub(1) as usize) {
        None => 0,
        Some(count) => *count,
    }
}

/// Returns the committed version that a message reports, with the number committed after the step
/// that sent it.
pub(crate) fn word_in(
    sent_at: &[u64],
    message: Option<&LinkMessage>,
    number: u64,
) -> Option<(Version, u64)>
    ensures { result ≡ word_in (slice_index sent_at.now (number - 1)) (option_copied message.entry) }
{
    match message {
        None => None,
        Some(message) => match &message.body {
            Body::VersionIs { version, .. } => Some((*version, sent_with(sent_at, number))),
            _ => None,
        },
    }
}

/// Returns the clean version of a key, 0 if there is no node.
#[tactic(auto, unfolding(craq_model::specs::Plain::clean))]
fn clean_at(node: Option<&Node<FullHistory>>, key: &Key) -> Version
    ensures { result ≡ clean_at (plain_in ⟦<FullHistory as History>⟧.past node.entry) key.now }
{
    match node {
        None => Version::new(0),
        Some(node) => node.history.clean(key).0,
    }
}

/// Returns the position of a strong read of the key: by the tail's report if there is one, else
/// after this step.
fn read_place(
    alloc: Global,
    tables: &Tables,
    replayed: &Replayed<'_>,
    stands: Option<&Node<FullHistory>>,
    key: &Key,
) -> Result<u64, AllocError>
    ensures { (entries : List Entry) → IsCommitted entries tables.now.committed → IfOk result (λ position. position ≡ read_place entries (plain_in ⟦<FullHistory as History>⟧.past stands.entry) replayed.now.word key.now) }
{
    let Some((reported, sent)) = replayed.word else {
        return Ok(tables.committed.count());
    };
    let clean = clean_at(stands, key);
    if clean <= reported {
        return Ok(sent);
    }
    tables.committed.written_at(alloc, key, clean)
}

/// Returns the linearization point of the reply to a request, if the reply is strong.
#[tactic(auto, unfolding(craq_runs::specs::Explain::pending_place, crate::specs::Tables::pending_of))]
fn place_by(
    alloc: Global,
    tables: &Tables,
    replayed: &Replayed<'_>,
    stands: Option<&Node<FullHistory>>,
    ticket: Ticket,
    ask: &Ask,
) -> Result<Option<Place>, AllocError>
    ensures { (number : ℕ) (answer : Answer) (asks : List Asked) (pending : List Place) (entries : List Entry) → AreTables asks pending entries tables.now → IfOk result (λ place. places_in place ≡ place_by pending entries (plain_in ⟦<FullHistory as History>⟧.past stands.entry) replayed.now.word (record { move = number; node = replayed.now.node; ticket = ticket; answer = answer }) ask.now) }
{
    let node = replayed.node;
    let position = match ask {
        Ask::Update(_) => number_of_ask(&tables.pending, node, ticket).unwrap_or(0),
        Ask::Read { mode, object } => match mode {
            ReadMode::Strong => read_place(alloc, tables, replayed, stands, &object.key)?,
            ReadMode::Eventual => return Ok(None),
            ReadMode::Bounded(_) => return Ok(None),
        },
    };
    Ok(Some(Place {
        node,
        ticket,
        position: Seq::new(position),
    }))
}

/// Returns the linearization point of an output, if it replies to a strong request of these moves.
#[tactic(auto, unfolding(craq_runs::specs::Seen::answers_in, craq_runs::specs::Explain::places_of))]
fn place_in(
    alloc: Global,
    tables: &Tables,
    moves: &[Taken],
    replayed: &Replayed<'_>,
    stands: Option<&Node<FullHistory>>,
    out: &Out,
) -> Result<Option<Place>, AllocError>
    ensures { (number : ℕ) (later : List Out) (pending : List Place) (entries : List Entry) → AreTables (asks_from 1 moves.now) pending entries tables.now → IfOk result (λ place. places_of (asks_from 1 moves.now) pending entries (plain_in ⟦<FullHistory as History>⟧.past stands.entry) replayed.now.word (answers_in number replayed.now.node (out.now ∷ later)) ≡ places_in place ++ places_of (asks_from 1 moves.now) pending entries (plain_in ⟦<FullHistory as History>⟧.past stands.entry) replayed.now.word (answers_in number replayed.now.node later)) }
{
    let Out::Answer { ticket, .. } = out else {
        return Ok(None);
    };
    match ask_of(&tables.asked, moves, replayed.node, *ticket) {
        None => Ok(None),
        Some(ask) => place_by(alloc, tables, replayed, stands, *ticket, ask),
    }
}

/// Appends a place, if there is one.
fn put_place(places: &mut Vec<Place>, place: Option<Place>) -> Result<(), AllocError>
    ensures { OnOk result (places.new.items ≡ places.old.items ++ places_in place) }
{
    match place {
        None => Ok(()),
        Some(place) => {
            places.push(place)?;
            Ok(())
        }
    }
}

/// Appends the places of the strong replies of the last of these moves.
pub(crate) fn add_places(
    alloc: Global,
    tables: &Tables,
    moves: &[Taken],
    replayed: &Replayed<'_>,
    stands: Option<&Node<FullHistory>>,
    places: &mut Vec<Place>,
) -> Result<(), AllocError>
    ensures { (number : ℕ) (pending : List Place) (entries : List Entry) → AreTables (asks_from 1 moves.now) pending entries tables.now → OnOk result (places.new.items ≡ places.old.items ++ places_of (asks_from 1 moves.now) pending entries (plain_in ⟦<FullHistory as History>⟧.past stands.entry) replayed.now.word (answers_in number replayed.now.node replayed.now.taken.now.step.outs)) }
{
    for out in replayed.taken.step.outs.as_slice() {
        let place = place_in(alloc, tables, moves, replayed, stands, out)?;
        put_place(places, place)?;
    }
    Ok(())
}
