//! `status_text`: the chains of a store and their members as JSON; public, and for `served_store`.
ghost use Rattle.std.specs.Prelude.{◌≡◌, IfOk, map, string_bytes};
ghost use Rattle.serde_json.specs.View.{view};
ghost use Rattle.craq_server.specs.Status.{members_data, chain_data, status_data, status_text};

use craq_names::NodeId;
use craq_workers::ChainStatus;
use serde_json::{Value, json};
use std::alloc::{AllocError, Global};

/// Returns the ids of members as a JSON array. Fails only when out of memory.
fn members_value(alloc: Global, members: &[NodeId]) -> Result<Value, AllocError>
    ensures { IfOk result (λ v. view v ≡ members_data members.now) }
{
    let mut items = Vec::new(alloc);
    for member in members {
        let id = u64::from(member.get());
        items.push(Value::from(id))?;
    }
    Ok(Value::Array(items))
}

/// Returns a chain as a JSON object of its epoch, its members and its name. Fails only when out of
/// memory.
fn chain_value(alloc: Global, chain: &ChainStatus) -> Result<Value, AllocError>
    ensures { IfOk result (λ v. view v ≡ chain_data chain.now) }
{
    let epoch = chain.config.epoch.get();
    let members = members_value(alloc, chain.config.members.as_slice())?;
    let name = chain.name.as_str();
    json!(in alloc; {"epoch": epoch, "members": members, "name": name})
}

/// Returns the chains as JSON objects. Fails only when out of memory.
fn chain_values(alloc: Global, chains: &[ChainStatus]) -> Result<Vec<Value>, AllocError>
    ensures { IfOk result (λ values. map view values.items ≡ map chain_data chains.now) }
{
    let mut items = Vec::new(alloc);
    for chain in chains {
        items.push(chain_value(alloc, chain)?)?;
    }
    Ok(items)
}

/// Returns the chains as one JSON object. Fails only when out of memory.
#[tactic(auto, unfolding(crate::specs::Status::status_data))]
fn status_value(alloc: Global, chains: &[ChainStatus]) -> Result<Value, AllocError>
    ensures { IfOk result (λ v. view v ≡ status_data chains.now) }
{
    let chains = Value::Array(chain_values(alloc, chains)?);
    json!(in alloc; {"chains": chains})
}

/// Returns the status of a store as compact JSON: an object with the one member `chains`, an array
/// of objects with the members `epoch`, `members` and `name`, one for each chain, in the order
/// given.
///
/// `AllocError` (refusal 14) where a growth was refused; nothing else fails.
#[tactic(auto, using(crate::proofs::Floats::none_in), unfolding(crate::specs::Status::status_text))]
pub fn status_text(alloc: Global, chains: &[ChainStatus]) -> Result<String, AllocError>
    ensures { IfOk result (λ text. string_bytes text ≡ status_text chains.now) }
{
    let value = status_value(alloc, chains)?;
    value.to_string(alloc)
}
