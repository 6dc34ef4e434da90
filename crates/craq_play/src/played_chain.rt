//! `PlayedChain`: the world of one chain on which a script is played; also used by
//! `craq_schedules` and `craq_lab`.
ghost use Rattle.std.specs.Prelude.{◌≡◌, ◌≤◌, ◌⊎◌, ◌↔◌, Err, IfOk, IfErr, OnOk, length};
ghost use Rattle.std.specs.List.{AllZip};
ghost use Rattle.craq_model.specs.Members.{IsMembership};
ghost use Rattle.craq_runs.specs.Explain.{explain};
ghost use Rattle.craq_runs.specs.Typed.{IsTypedRunOf};
ghost use Rattle.craq_runs.specs.Valid.{IsValid};
ghost use Rattle.craq_chain.specs.Chained.{GivesMove, chain_of_run, mover, opened_chain};
ghost use Rattle.craq_world.specs.Promise.{BeginsAs, ChainIsExplained};

use craq_chain::ChainCore;
use craq_epochs::is_membership;
use craq_names::{ChainId, Items, NodeId, Refusal};
use craq_node::Core;
use craq_runs::{Explanation, Move, Run};
use craq_world::World;
use std::alloc::{AllocError, Global};
use std::marker::Model;

/// The id of the one chain.
const CHAIN: u16 = 0;

/// A world of one chain, with id 0. A contract sees it as that chain: its id and its run.
#[derive(Drop)]
pub struct PlayedChain<C: Core> {
    world: World<C>,
}

impl<C: Core> Model for PlayedChain<C> {
    ghost use Rattle.craq_chain.specs.Chained.{Chained};
    ghost use Rattle.craq_play.specs.Alone.{IsAlone, only_chain};

    ghost Value = { Chained };

    ghost view = { λ s. only_chain s.world };

    ghost invariant = { λ s. IsAlone s.world };
}

impl<C: Core> PlayedChain<C> {
    /// Opens chain 0 with these members, head first, before any move. Its empty run is explained.
    ///
    /// `BadConfig` exactly if they are no membership: 1 to 8 ids from 1, none twice. `Memory` if an
    /// allocation failed.
    #[tactic(auto, using(crate::proofs::Alone::one_chain))]
    pub fn open(alloc: Global, members: &[NodeId]) -> Result<Self, Refusal>
        ensures ok { IfOk result (λ w. w ≡ opened_chain 0 members.now) }
        ensures explained { IfOk result (λ w. ChainIsExplained 0 w) }
        ensures bad { (result ≡ Err Refusal.BadConfig) ↔ ¬ (IsMembership members.now) }
        ensures err { IfErr result (λ e. (e ≡ Refusal.BadConfig) ⊎ (e ≡ Refusal.Memory)) }
    {
        if !is_membership(members) {
            return Err(Refusal::BadConfig);
        }
        let members = Items::of(Vec::from_slice(alloc, members)?);
        let world = World::open(alloc, &[members])?;
        Ok(PlayedChain { world })
    }

    /// Takes one move and returns its number, from 1. The longer run is explained, and the
    /// explanation of the run before is a prefix of it.
    ///
    /// Refused, with nothing changed, as `World::take` refuses a move of chain 0.
    pub fn take(&mut self, alloc: Global, chosen: Move) -> Result<u64, Refusal>
        ensures gives { GivesMove self.old self.new chosen result }
        ensures explained { ChainIsExplained 0 self.new }
        ensures grows { BeginsAs self.old self.new }
    {
        self.world.take(alloc, ChainId::new(CHAIN), chosen)
    }

    /// Lends the chain. Allocates nothing.
    pub fn as_chain(&self) -> &ChainCore<C>
        ensures { result.now ≡ self.now }
    {
        match self.world.chain(ChainId::new(CHAIN)) {
            Ok(chain) => chain,
            Err(_) => unreachable!(),
        }
    }

    /// Returns the opening members and the moves that were taken, each with its step: a run by the
    /// definitions. Never allocates.
    pub fn run(&self) -> &Run
        ensures value { result.now ≡ self.now.run }
        ensures run { IsTypedRunOf self.now.chain result.now }
    {
        self.as_chain().run()
    }

    /// Returns the number of messages sent so far. Never allocates.
    pub fn sent(&self) -> u64
        ensures { result ≡ length (chain_of_run self.now).messages }
    {
        self.as_chain().sent()
    }

    /// Returns the core of each node that ever was a member, in the order of joining. Never
    /// allocates.
    pub fn cores(&self) -> &[C]
        ensures { AllZip C.represents result.now (chain_of_run self.now).nodes }
    {
        self.as_chain().cores()
    }

    /// Returns the id of the node at which a move happens: for a delivery the message's receiver; 0
    /// for a move of the master, and for the delivery of a message that was not sent. Never
    /// allocates.
    pub fn mover(&self, chosen: &Move) -> NodeId
        ensures { result ≡ mover (chain_of_run self.now) chosen.now }
    {
        self.as_chain().mover(chosen)
    }

    /// Explains the run so far by the explanation that the definitions choose; it holds of the run.
    /// Fails only when out of memory.
    pub fn explain(&self, alloc: Global) -> Result<Explanation, AllocError>
        ensures ok { IfOk result (λ e. e ≡ explain self.now.chain self.now.run) }
        ensures valid { IfOk result (λ e. IsValid self.now.run e) }
    {
        match self.world.explain(alloc, ChainId::new(CHAIN)) {
            Ok(explanation) => Ok(explanation),
            Err(_) => Err(AllocError),
        }
    }
}
