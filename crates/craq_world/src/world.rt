//! `World`, the primary object of the crate: 1 to 64 chains, with the promise in the contracts of
//! its functions; used by `craq_play`.
ghost use Rattle.std.specs.Prelude.{◌≡◌, ◌≢◌, ◌≤◌, ◌<◌, ◌+◌, ◌⊎◌, ◌↔◌, ℕ, Some, None, Err, IfOk, IfErr, IsTrue, OnOk, OnErr, length, slice_get};
ghost use Rattle.std.specs.List.{AllByRecursion};
ghost use Rattle.craq_model.specs.Members.{IsMembership};
ghost use Rattle.craq_runs.specs.Explain.{explain};
ghost use Rattle.craq_runs.specs.Typed.{IsTypedRunOf};
ghost use Rattle.craq_runs.specs.Valid.{IsValid};
ghost use Rattle.craq_chain.specs.Chained.{Chained};
ghost use Rattle.craq_chain_invariants.specs.Invariants.{HasInvariants};
ghost use Rattle.craq_world.specs.Apart.{running_chain_after, taken_of};
ghost use Rattle.craq_world.specs.Promise.{AreExplained, NothingIsTakenBack};
ghost use Rattle.craq_world.specs.Worlds.{AreChains, GivesWorld, HasFoundIn, RunsTo, opened_from};

use craq_chain::ChainCore;
use craq_epochs::{MOST_CHAINS, is_membership};
use craq_explain::explain_run_of;
use craq_names::{ChainId, Copied, Items, NodeId, Refusal};
use craq_node::Core;
use craq_runs::{Explanation, Move, Run};
use std::alloc::{AllocError, Global};
use std::marker::Model;

/// Chains with the ids from 0 on, which take moves one after another. A contract sees the chains in
/// order, each as its id and its run.
#[derive(Drop)]
pub struct World<C: Core> {
    chains: Vec<ChainCore<C>>,
}

impl<C: Core> Model for World<C> {
    ghost use Rattle.std.specs.Prelude.{List};
    ghost use Rattle.craq_chain.specs.Chained.{Chained};
    ghost use Rattle.craq_world.specs.Worlds.{AreRunning};

    ghost Value = { List Chained };

    ghost view = { λ s. s.chains.items };

    ghost invariant = { λ s. AreRunning 0 s.chains.items };
}

/// The result of each move of a list, in order: its number in its chain, or its refusal.
#[derive(Debug, Drop)]
pub struct Report {
    pub results: Items<Result<u64, Refusal>>,
}

/// Returns true if each list is a membership.
fn are_memberships(lists: &[Items<NodeId>]) -> bool
    ensures { IsTrue result ↔ AllByRecursion IsMembership lists.now }
{
    for list in lists {
        if !is_membership(list.as_slice()) {
            return false;
        }
    }
    true
}

/// Opens the chains of these members, before any move, with the ids from 0 on. Fails only when out
/// of memory.
fn opened_chains<C: Core>(
    alloc: Global,
    lists: &[Items<NodeId>],
) -> Result<Vec<ChainCore<C>>, Refusal>
    requires few { length lists.now ≤ 64 }
    requires memberships { AllByRecursion IsMembership lists.now }
    ensures ok { IfOk result (λ chains. chains.items ≡ opened_from 0 lists.now) }
    ensures err { IfErr result (λ e. e ≡ Refusal.Memory) }
{
    let mut chains = Vec::new(alloc);
    for (id, list) in lists.iter().enumerate() {
        let chain = ChainCore::open(alloc, ChainId::new(id as u16), list.as_slice())?;
        chains.push(chain)?;
    }
    Ok(chains)
}

impl<C: Core> World<C> {
    /// Opens chains of these members, each list head first, with the ids from 0 on, before any
    /// move.
    ///
    /// `BadConfig` exactly if they are not 1 to 64 lists of 1 to 8 ids from 1, none twice in a
    /// list. `Memory` if they are and an allocation failed.
    pub fn open(alloc: Global, lists: &[Items<NodeId>]) -> Result<Self, Refusal>
        ensures ok { IfOk result (λ w. w ≡ opened_from 0 lists.now) }
        ensures chains { OnOk result (AreChains lists.now) }
        ensures bad { IfErr result (λ e. (e ≡ Refusal.BadConfig) ↔ ¬ (AreChains lists.now)) }
        ensures err { IfErr result (λ e. (e ≡ Refusal.BadConfig) ⊎ (e ≡ Refusal.Memory)) }
        ensures explained { IfOk result (λ w. AreExplained 0 w) }
    {
        let count = lists.len();
        if count == 0 {
            return Err(Refusal::BadConfig);
        }
        if count > MOST_CHAINS as usize {
            return Err(Refusal::BadConfig);
        }
        if !are_memberships(lists) {
            return Err(Refusal::BadConfig);
        }
        let chains = opened_chains(alloc, lists)?;
        Ok(World { chains })
    }

    /// Takes one move of the chain of this id and returns its number in the chain, from 1. Every
    /// other chain is unchanged. Each chain's run is explained and each chain has its invariants
    /// (`AreExplained`); the earlier explanation is kept.
    ///
    /// Refused, with nothing changed: first `UnknownChain` if the world has no such chain; then as
    /// `ChainCore::take`, so `Memory` comes only once the chain, the node and the message were
    /// found.
    pub fn take(&mut self, alloc: Global, chain: ChainId, chosen: Move) -> Result<u64, Refusal>
        ensures gives { GivesWorld self.old self.new chain chosen result }
        ensures others { (other : ℕ) → other ≢ chain → slice_get self.new other ≡ slice_get self.old other }
        ensures explained { AreExplained 0 self.new }
        ensures grows { NothingIsTakenBack self.old self.new }
    {
        let place = usize::from(chain.get());
        if place >= self.chains.len() {
            drop(chosen);
            return Err(Refusal::UnknownChain);
        }
        self.chains[place].take(alloc, chosen)
    }

    /// Finds the chain, the node and the message of a move. Never allocates.
    fn find(&self, chain: ChainId, chosen: &Move) -> Result<(), Refusal>
        ensures { HasFoundIn self.now chain chosen.now result }
    {
        let place = usize::from(chain.get());
        let Some(core) = self.chains.get(place) else {
            return Err(Refusal::UnknownChain);
        };
        core.find(chosen)
    }

    /// Takes a copy of the move as `take` does; copies it once the chain, the node and the message
    /// were found.
    fn take_copy(&mut self, alloc: Global, chain: ChainId, chosen: &Move) -> Result<u64, Refusal>
        ensures gives { GivesWorld self.old self.new chain chosen.now result }
        ensures explained { AreExplained 0 self.new }
        ensures grows { NothingIsTakenBack self.old self.new }
    {
        self.keep_explained();
        self.find(chain, chosen)?;
        let chosen = chosen.copied(alloc)?;
        self.take(alloc, chain, chosen)
    }

    /// States that each chain's run is explained. Does nothing.
    fn keep_explained(&self)
        ensures explained { AreExplained 0 self.now }
        ensures stays { NothingIsTakenBack self.now self.now }
    {
        let _ = &self.chains;
    }

    /// Takes each of these moves in order, or refuses it as `take` does; a refused move changes
    /// nothing, and the next follows. So each chain takes its own moves in order, whatever other
    /// chains take between. Each chain's run is explained afterwards, and the earlier explanation
    /// is kept. Allocates the report first: if that fails, no move is taken.
    pub fn run(&mut self, alloc: Global, moves: &[(ChainId, Move)]) -> Result<Report, AllocError>
        ensures runs { IfOk result (λ report. RunsTo self.old moves.now report.results self.new) }
        ensures each { IfOk result (λ report. (id : ℕ) (w : Chained) → slice_get self.old id ≡ Some w
            → slice_get self.new id ≡ Some (running_chain_after w (taken_of id moves.now report.results))) }
        ensures same { OnErr result (self.new ≡ self.old) }
        ensures explained { AreExplained 0 self.new }
        ensures grows { NothingIsTakenBack self.old self.new }
    {
        self.keep_explained();
        let mut results = Vec::new(alloc);
        results.reserve(moves.len())?;
        for (chain, chosen) in moves {
            let result = self.take_copy(alloc, *chain, chosen);
            results.push_reserved(result);
        }
        Ok(Report {
            results: Items::of(results),
        })
    }

    /// Lends the chain of this id. Returns `UnknownChain` exactly if the world has no such chain.
    /// Never allocates.
    pub fn chain(&self, chain: ChainId) -> Result<&ChainCore<C>, Refusal>
        ensures ok { IfOk result (λ core. slice_get self.now chain ≡ Some core.now) }
        ensures err { IfErr result (λ e. e ≡ Refusal.UnknownChain) }
        ensures unknown { OnErr result (slice_get self.now chain ≡ None) }
    {
        let place = usize::from(chain.get());
        match self.chains.get(place) {
            None => Err(Refusal::UnknownChain),
            Some(core) => Ok(core),
        }
    }

    /// Returns the run of the chain of this id: its opening members and its moves, each with its
    /// step. The explanation that the definitions choose holds of it, and its chain has the
    /// invariants of chains. `UnknownChain` exactly if the world has no such chain. Never
    /// allocates.
    pub fn run_of(&self, chain: ChainId) -> Result<&Run, Refusal>
        ensures ok { IfOk result (λ run. (w : Chained) → slice_get self.now chain ≡ Some w → run.now ≡ w.run) }
        ensures run { IfOk result (λ run. IsTypedRunOf chain run.now) }
        ensures explained { IfOk result (λ run. IsValid run.now (explain chain run.now)) }
        ensures invariants { IfOk result (λ run. HasInvariants chain run.now) }
        ensures known { OnOk result (chain < length self.now) }
        ensures err { IfErr result (λ e. e ≡ Refusal.UnknownChain) }
        ensures unknown { OnErr result (slice_get self.now chain ≡ None) }
    {
        let place = usize::from(chain.get());
        match self.chains.get(place) {
            None => Err(Refusal::UnknownChain),
            Some(core) => Ok(core.run()),
        }
    }

    /// Returns the explanation of the run of the chain of this id: the requests of the committed
    /// updates, the number committed after each move, and the linearization point of each strong
    /// reply. It is the one that the definitions choose, and it holds.
    ///
    /// `UnknownChain` exactly if the world has no such chain. `Memory` if it has one and an
    /// allocation failed.
    pub fn explain(&self, alloc: Global, chain: ChainId) -> Result<Explanation, Refusal>
        ensures ok { IfOk result (λ e. (w : Chained) → slice_get self.now chain ≡ Some w → e ≡ explain chain w.run) }
        ensures valid { IfOk result (λ e. (w : Chained) → slice_get self.now chain ≡ Some w → IsValid w.run e) }
        ensures known { OnOk result (chain < length self.now) }
        ensures unknown { IfErr result (λ e. (e ≡ Refusal.UnknownChain) ↔ (slice_get self.now chain ≡ None)) }
        ensures err { IfErr result (λ e. (e ≡ Refusal.UnknownChain) ⊎ (e ≡ Refusal.Memory)) }
    {
        let run = self.run_of(chain)?;
        let explanation = explain_run_of(alloc, chain, run)?;
        Ok(explanation)
    }
}
