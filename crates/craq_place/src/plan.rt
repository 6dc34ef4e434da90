//! `Plan`: the chains of a store by name, and the chain of an object or of a transaction; `craqd`
//! and `craq_embedding` read one, and `craq_workers` opens a store from it.
ghost use Rattle.std.specs.Prelude.{◌≡◌, ◌⊎◌, ◌++◌, ◌∷◌, ℕ, List, [], false, nat_le, length, map, string_bytes, Ok, Err, MatchResult, OnOk, IfOk, IfErr};
ghost use Rattle.toml.specs.View.{items_of, table_view, view};
ghost use Rattle.std.specs.List.{list_any};
ghost use Rattle.craq_names.specs.declared.name.ObjectId.{ObjectId};
ghost use Rattle.craq_place.specs.Chains.{chains_of};
ghost use Rattle.craq_place.specs.Plan.{Chain, IsPlanText};
ghost use Rattle.craq_place.specs.Place.{chain_at, chain_of_all, first_chain_of, goes_elsewhere, is_of_another, objects_of};
ghost use Rattle.craq_place.specs.Reading.{Reads, chains_from, has_name, plan_in};

use crate::reading::{field, read_chain};
use craq_commands::Mini;
use craq_epochs::MOST_CHAINS;
use craq_names::{ChainId, Items, NodeId, ObjectId, Refusal, Value, Version};
use indexmap::IndexMap;
use std::alloc::{AllocError, Global};
use std::marker::Model;
use toml::Table;

/// The chains of a store by name, in the order of the plan. A chain's id is its index, from 0.
#[derive(Drop)]
pub struct Plan {
    chains: IndexMap<String, Items<NodeId>>,
}

impl Model for Plan {
    ghost use Rattle.std.specs.Prelude.{List};
    ghost use Rattle.craq_place.specs.Plan.{Chain};
    ghost use Rattle.craq_place.specs.Chains.{chains_of};

    ghost Value = { List Chain };

    ghost view = { λ p. chains_of p.chains.entries };
}

/// Returns the chain of the transaction's first object, in the order compares, reads, writes.
fn first_chain(mini: &Mini) -> Option<ChainId>
    ensures { result ≡ first_chain_of (objects_of mini.now) }
{
    match mini.compares() {
        [(object, _), ..] => Some(object.chain),
        [] => match mini.reads() {
            [object, ..] => Some(object.chain),
            [] => match mini.writes() {
                [(object, _), ..] => Some(object.chain),
                [] => None,
            },
        },
    }
}

/// Returns true if a compare is on another chain.
fn compares_elsewhere(compares: &[(ObjectId, Version)], chain: ChainId) -> bool
    ensures { result ≡ list_any (λ (c : ObjectId × ℕ). is_of_another chain c.0) compares.now }
{
    compares.iter().any(|compare| compare.0.chain != chain)
}

/// Returns true if a read is on another chain.
fn reads_elsewhere(reads: &[ObjectId], chain: ChainId) -> bool
    ensures { result ≡ list_any (is_of_another chain) reads.now }
{
    reads.iter().any(|object| object.chain != chain)
}

/// Returns true if a write is on another chain.
fn writes_elsewhere(writes: &[(ObjectId, Value)], chain: ChainId) -> bool
    ensures { result ≡ list_any (λ (w : ObjectId × List ℕ). is_of_another chain w.0) writes.now }
{
    writes.iter().any(|write| write.0.chain != chain)
}

/// Returns true if an object of the transaction is on another chain.
#[tactic(auto, using(crate::proofs::Places::elsewhere_parts))]
fn is_elsewhere(mini: &Mini, chain: ChainId) -> bool
    ensures { result ≡ goes_elsewhere (objects_of mini.now) chain }
{
    if compares_elsewhere(mini.compares(), chain) {
        return true;
    }
    if reads_elsewhere(mini.reads(), chain) {
        return true;
    }
    writes_elsewhere(mini.writes(), chain)
}

/// Returns true if there is a chain of this name.
fn has_chain(chains: &IndexMap<String, Items<NodeId>>, name: &str) -> bool
    ensures { result ≡ has_name name.now (chains_of chains.now.entries) }
{
    chains.contains_key(name)
}

/// Returns true if the plan has its maximum of 64 chains.
fn is_full(chains: &IndexMap<String, Items<NodeId>>) -> bool
    ensures { result ≡ nat_le 64 (length (chains_of chains.now.entries)) }
{
    chains.len() >= MOST_CHAINS as usize
}

/// Adds a chain at the end, whose name must be new. Fails only when out of memory; the chains are
/// then unchanged.
fn put_chain(
    chains: &mut IndexMap<String, Items<NodeId>>,
    name: String,
    nodes: Items<NodeId>,
) -> Result<(), AllocError>
    requires { has_name (string_bytes name) (chains_of chains.old.entries) ≡ false }
    ensures { OnOk result (chains_of chains.new.entries
        ≡ chains_of chains.old.entries ++ (string_bytes name, nodes) ∷ []) }
{
    chains.insert(name, nodes)?;
    Ok(())
}

/// Reads the chains from these values.
fn read_chains(alloc: Global, items: &[toml::Value]) -> Result<Plan, Refusal>
    ensures { Reads (λ p. p) result (chains_from [] (items_of (map view items.now))) }
{
    let mut chains = IndexMap::new(alloc);
    for value in items {
        let (name, nodes) = read_chain(alloc, value)?;
        if has_chain(&chains, name.as_str()) {
            return Err(Refusal::BadConfig);
        }
        if is_full(&chains) {
            return Err(Refusal::BadConfig);
        }
        put_chain(&mut chains, name, nodes)?;
    }
    Ok(Plan { chains })
}

/// Reads the plan from a table.
#[tactic(auto, unfolding(crate::specs::Reading::plan_in))]
fn read_plan(alloc: Global, table: &Table) -> Result<Plan, Refusal>
    ensures { Reads (λ p. p) result (plan_in (table_view table.now)) }
{
    let Some(chains) = field(table) else {
        return Err(Refusal::BadConfig);
    };
    let Some(items) = chains.as_array() else {
        return Err(Refusal::BadConfig);
    };
    let plan = read_chains(alloc, items.as_slice())?;
    if plan.chains.is_empty() {
        return Err(Refusal::BadConfig);
    }
    Ok(plan)
}

impl Plan {
    /// Reads the plan from TOML text. The text has the one key `chain`, an array of 1 to 64 tables.
    /// Each table has exactly two keys (this project's profile):
    /// - `name`: 1 to 32 letters, digits, `_` or `-`, no name twice;
    /// - `nodes`: an array of 1 to 8 ids from 1 to 2^32 - 1, none twice, head first.
    ///
    /// `BadConfig` exactly if the text is no such plan; `Memory` if an allocation failed.
    pub fn read(alloc: Global, text: &str) -> Result<Self, Refusal>
        // The text stands for the plan that is returned.
        ensures found { IfOk result (λ p. IsPlanText text.now p) }
        // It stands for no other plan.
        ensures only { IfOk result (λ p. (other : List Chain) → IsPlanText text.now other → other ≡ p) }
        // On an error the text stands for no plan, or memory ran out.
        ensures bad { result ≡ Err Refusal.BadConfig → (p : List Chain) → IsPlanText text.now p → ⊥ }
        ensures err { IfErr result (λ e. (e ≡ Refusal.BadConfig) ⊎ (e ≡ Refusal.Memory)) }
    {
        match toml::table_from_str(alloc, text) {
            Ok(table) => read_plan(alloc, &table),
            Err(error) => {
                if error.is_memory() {
                    Err(Refusal::Memory)
                } else {
                    Err(Refusal::BadConfig)
                }
            }
        }
    }

    /// Returns the name and the nodes of the chain of this id, head first. `UnknownChain` exactly
    /// if the plan has no such chain.
    pub fn chain(&self, id: ChainId) -> Result<(&str, &[NodeId]), Refusal>
        ensures { MatchResult result (λ x. chain_at self.now id ≡ Ok (x.0.now, x.1.now)) (λ e. chain_at self.now id ≡ Err e) }
    {
        match self.chains.get_index(id.get() as usize) {
            Some((name, nodes)) => Ok((name.as_str(), nodes.as_slice())),
            None => Err(Refusal::UnknownChain),
        }
    }

    /// Returns the name and the nodes of the object's chain, head first. `UnknownChain` exactly if
    /// the plan has no such chain.
    pub fn chain_of(&self, object: &ObjectId) -> Result<(&str, &[NodeId]), Refusal>
        ensures { MatchResult result (λ x. chain_at self.now object.now.chain ≡ Ok (x.0.now, x.1.now)) (λ e. chain_at self.now object.now.chain ≡ Err e) }
    {
        self.chain(object.chain)
    }

    /// Returns the chain of all objects of the transaction: that of the first one, in the order
    /// compares, reads, writes. `UnknownChain` exactly if the plan has no chain of its id; else
    /// `TwoChains` exactly if another object is on another chain.
    #[tactic(auto, using(crate::proofs::Places::place_of, crate::proofs::Places::no_objects))]
    pub fn one_chain(&self, mini: &Mini) -> Result<ChainId, Refusal>
        ensures { result ≡ chain_of_all self.now (objects_of mini.now) }
    {
        let Some(chain) = first_chain(mini) else {
            return Err(Refusal::UnknownChain);
        };
        if chain.get() as usize >= self.chains.len() {
            return Err(Refusal::UnknownChain);
        }
        if is_elsewhere(mini, chain) {
            return Err(Refusal::TwoChains);
        }
        Ok(chain)
    }
}
