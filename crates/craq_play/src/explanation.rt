//! Encodes a linearization witness as compact JSON; `playing` calls it for an `explain` line.
ghost use Rattle.std.specs.Prelude.{◌≡◌, IfOk, map, string_bytes};
ghost use Rattle.serde_json.specs.View.{items_view, view};
ghost use Rattle.craq_play.specs.Explained.{
  count_data,
  counts_data,
  explanation_data,
  explanation_text,
  place_data,
  places_data,
};

use craq_runs::{Explanation, Place};
use serde_json::{Value, json};
use std::alloc::{AllocError, Global};

/// Returns the counts as a JSON array.
fn counts_value(alloc: Global, counts: &[u64]) -> Result<Value, AllocError>
    ensures { IfOk result (λ v. view v ≡ counts_data counts.now) }
{
    let mut items = Vec::new(alloc);
    for count in counts {
        items.push(Value::from(*count))?;
    }
    Ok(Value::Array(items))
}

/// Returns a linearization point as the JSON array of its node, ticket and position.
fn place_value(alloc: Global, place: &Place) -> Result<Value, AllocError>
    ensures { IfOk result (λ v. view v ≡ place_data place.now) }
{
    let node = place.node.get();
    let ticket = place.ticket.get();
    let position = place.position.get();
    json!(in alloc; [node, ticket, position])
}

/// Returns the linearization points as a JSON array.
fn places_value(alloc: Global, places: &[Place]) -> Result<Value, AllocError>
    ensures { IfOk result (λ v. view v ≡ places_data places.now) }
{
    let mut items = Vec::new(alloc);
    for place in places {
        items.push(place_value(alloc, place)?)?;
    }
    Ok(Value::Array(items))
}

/// Returns the linearization witness as a JSON object.
#[tactic(auto, unfolding(crate::specs::Explained::explanation_data))]
fn explanation_value(alloc: Global, explanation: &Explanation) -> Result<Value, AllocError>
    ensures { IfOk result (λ v. view v ≡ explanation_data explanation.now) }
{
    let asks = counts_value(alloc, explanation.asks.as_slice())?;
    let lens = counts_value(alloc, explanation.lens.as_slice())?;
    let places = places_value(alloc, explanation.places.as_slice())?;
    json!(in alloc; {"asks": asks, "lens": lens, "places": places})
}

/// Encodes a linearization witness as compact JSON: an object with the members `asks`, `lens` and
/// `places`, in this order.
///
/// `asks` and `lens` are arrays of numbers. `places` holds each linearization point as the array of
/// its node, ticket and position. Fails only when out of memory.
#[tactic(auto, using(crate::proofs::Floats::none_in), unfolding(crate::specs::Explained::explanation_text))]
pub fn explanation_text(alloc: Global, explanation: &Explanation) -> Result<String, AllocError>
    ensures { IfOk result (λ text. string_bytes text ≡ explanation_text explanation.now) }
{
    let value = explanation_value(alloc, explanation)?;
    value.to_string(alloc)
}
