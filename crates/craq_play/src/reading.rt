//! Reads a linearization witness from JSON: `explanation_of`, for `craq_lab`, which checks it
//! against a run.
ghost use Rattle.std.specs.Prelude.{◌≡◌, map, Some, IfOk, IfSome};
ghost use Rattle.serde_json.specs.View.{items_view, view};
ghost use Rattle.serde_json.specs.Data.{Data, array};
ghost use Rattle.serde_json.specs.Find.{get};
ghost use Rattle.serde_json.specs.Read.{read};
ghost use Rattle.craq_play.specs.Explained.{count_data, place_data};
ghost use Rattle.craq_play.specs.Reported.{IsReported};

use crate::{JsonError, Member};
use craq_names::{Items, NodeId, Seq, Ticket};
use craq_runs::{Explanation, Place};
use serde_json::{Error, Value};
use std::alloc::Global;
use std::str;

/// Returns the array in a member. `NoArray` if the member is missing or is not an array.
fn array_of<'a>(value: &'a Value, name: &str, member: Member) -> Result<&'a [Value], JsonError>
    ensures { IfOk result (λ items. get name.now (view value.now) ≡ Some (array (items_view items.now))) }
{
    match value.get(name) {
        Some(Value::Array(items)) => Ok(items.as_slice()),
        _ => Err(JsonError::NoArray(member)),
    }
}

/// Returns the items of a member as counts. `BadItem` with the first that is not a whole number of
/// 64 bits.
#[tactic(auto, using(crate::proofs::Numbers::is_count))]
fn counts_of(alloc: Global, items: &[Value], member: Member) -> Result<Items<u64>, JsonError>
    ensures { IfOk result (λ counts. map view items.now ≡ map count_data counts) }
{
    let mut counts = Items::new(alloc);
    for (index, item) in items.iter().enumerate() {
        match item.as_u64() {
            Some(count) => counts.push(count)?,
            None => return Err(JsonError::BadItem(member, index)),
        }
    }
    Ok(counts)
}

/// Returns the linearization point of a node, a ticket and a position; `None` if one of them is out
/// of range.
#[tactic(auto, using(crate::proofs::Numbers::is_count))]
fn place_of(node: &Value, ticket: &Value, position: &Value) -> Option<Place>
    ensures node { IfSome result (λ p. view node.now ≡ count_data p.node) }
    ensures ticket { IfSome result (λ p. view ticket.now ≡ count_data p.ticket) }
    ensures position { IfSome result (λ p. view position.now ≡ count_data p.position) }
{
    let node = node.as_u64()?;
    let ticket = ticket.as_u64()?;
    let position = position.as_u64()?;
    if node > u64::from(u32::MAX) {
        return None;
    }
    Some(Place {
        node: NodeId::new(node as u32),
        ticket: Ticket::new(ticket),
        position: Seq::new(position),
    })
}

/// Returns the linearization point that an item encodes: an array of its node, ticket and position.
fn place_in(item: &Value) -> Option<Place>
    ensures { IfSome result (λ p. view item.now ≡ place_data p) }
{
    let Value::Array(items) = item else {
        return None;
    };
    match items.as_slice() {
        [node, ticket, position] => place_of(node, ticket, position),
        _ => None,
    }
}

/// Returns the items of `places` as linearization points. `BadItem` with the first that is not one.
fn places_of(alloc: Global, items: &[Value]) -> Result<Items<Place>, JsonError>
    ensures { IfOk result (λ places. map view items.now ≡ map place_data places) }
{
    let mut places = Items::new(alloc);
    for (index, item) in items.iter().enumerate() {
        match place_in(item) {
            Some(place) => places.push(place)?,
            None => return Err(JsonError::BadItem(Member::Places, index)),
        }
    }
    Ok(places)
}

/// Returns the linearization witness that a JSON value encodes.
fn explanation_in(alloc: Global, value: &Value) -> Result<Explanation, JsonError>
    ensures { IfOk result (λ e. IsReported (view value.now) e) }
{
    let asks = array_of(value, "asks", Member::Asks)?;
    let lens = array_of(value, "lens", Member::Lens)?;
    let places = array_of(value, "places", Member::Places)?;
    Ok(Explanation {
        asks: counts_of(alloc, asks, Member::Asks)?,
        lens: counts_of(alloc, lens, Member::Lens)?,
        places: places_of(alloc, places)?,
    })
}

/// Returns the reason that a text was not read as JSON, and its line and column.
fn misread_by(error: &Error) -> JsonError {
    if error.is_memory() {
        return JsonError::Memory;
    }
    JsonError::NotJson {
        line: error.line(),
        column: error.column(),
    }
}

/// Decodes a linearization witness from JSON, in the form that `explain` prints: an object with the
/// arrays of numbers `asks` and `lens`, and the array `places` of arrays of a node, a ticket and a
/// position.
///
/// White space follows JSON. Other members are ignored. If a name occurs twice, the last one
/// counts. The witness is not checked against any run.
///
/// Refused with the first of these that applies:
/// - `NotText`: the bytes are not UTF-8.
/// - `NotJson`, with line and column: the text is not JSON.
/// - `NoArray`, with the first of `asks`, `lens` and `places` that is missing or not an array.
/// - `BadItem`, with the first bad item in that order of members. A count must be a whole number
///   from 0 to 2^64 - 1. A linearization point must be an array of three such numbers, the first of
///   which, a node's id, is below 2^32.
///
/// `Memory` when out of memory. (This project's profile.)
pub fn explanation_of(alloc: Global, bytes: &[u8]) -> Result<Explanation, JsonError>
    ensures { IfOk result (λ e. (d : Data) × (read bytes.now ≡ Some d) × IsReported d e) }
{
    let text = match str::from_utf8(bytes) {
        Ok(text) => text,
        Err(error) => return Err(JsonError::NotText(error.valid_up_to())),
    };
    match Value::from_str(alloc, text) {
        Ok(value) => explanation_in(alloc, &value),
        Err(error) => Err(misread_by(&error)),
    }
}
