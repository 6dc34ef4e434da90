//! `ChainCore`, the primary object of the crate: a chain that takes moves, with its run; used by
//! `craq_world`, `craq_play`, `craq_schedules`, `craq_explain` and `craq_lab`.
ghost use Rattle.std.specs.Prelude.{◌≡◌, ◌<◌, ◌≤◌, ◌+◌, ◌∷◌, ◌++◌, [], ◌⊎◌, ◌↔◌, ℕ, length, Ok, Err, Some, None, IfOk, IfErr, MatchOption, OnOk, slice_index, vec_capacity, vec_len, ◌^◌};
ghost use Rattle.std.specs.List.{AllByRecursion, AllZip};
ghost use Rattle.std.specs.Option.{option_copied};
ghost use Rattle.craq_names.specs.Limits.{greatest};
ghost use Rattle.craq_model.specs.Members.{IsMembership};
ghost use Rattle.craq_model.specs.Plain.{Plain};
ghost use Rattle.craq_model.specs.Encodable.{IsEncodable};
ghost use Rattle.craq_runs.specs.Chain.{Chain, message_at, move_progress, node_at, sent_in};
ghost use Rattle.craq_runs.specs.Typed.{IsMoveOfType, IsTypedRunOf};
ghost use Rattle.craq_node_invariant.specs.Sound.{AreEncodable};
ghost use Rattle.craq_chain.specs.Chained.{Finds, GivesMove, HasFound, chain_of_run, mover, opened_chain, openings};
ghost use Rattle.craq_chain.specs.Parts.{AreParts, Moves};
ghost use Rattle.craq_chain.specs.Sent.{counts_from, sent_by};

use crate::limits::keep_limits;
use crate::messages::{counted_before, message_of, sends_in};
use crate::moving::{act, find};
use crate::nodes::place_of;
use craq_epochs::Master;
use craq_model::{LinkMessage, Step};
use craq_names::{ChainId, Items, NodeId, NodeName, Refusal};
use craq_node::Core;
use craq_runs::{Move, Run, Taken};
use std::alloc::Global;
use std::marker::Model;
use std::mem;

/// More messages than fit in any memory.
const BEYOND_MEMORY: usize = 1 << 63;

/// A running chain: its master, each node that ever was a member, and the run so far. A contract
/// sees the chain's id and its run, whose moves lead to the chain that this object stands for.
#[derive(Drop)]
pub struct ChainCore<C: Core> {
    chain: ChainId,
    master: Master,
    cores: Vec<C>,
    run: Run,
    sent: Vec<usize>,
}

impl<C: Core> Model for ChainCore<C> {
    ghost use Rattle.craq_chain.specs.Chained.{Chained};
    ghost use Rattle.craq_chain.specs.Standing.{IsStanding};

    ghost Value = { Chained };

    ghost view = { λ s. record { chain = s.chain; run = s.run } };

    ghost invariant = { λ s. IsStanding C.represents s.cores.items s.master s.sent.items (record { chain = s.chain; run = s.run }) };
}

/// Takes a move of the chain that these parts stand for. Finds the node and the message, then makes
/// room for the move and its count in the two vectors, and then takes the step of the node or the
/// master.
fn step_of<C: Core>(
    alloc: Global,
    cores: &mut Vec<C>,
    master: &mut Master,
    moves: &mut Vec<Taken>,
    sent: &mut Vec<usize>,
    chosen: &Move,
) -> Result<Step, Refusal>
    requires counts { sent.old.items ≡ counts_from 0 moves.old.items }
    requires spelled { AllByRecursion IsEncodable (sent_by moves.old.items) }
    ensures step { (c : Chain) → AreParts C.represents cores.old.items master.old c → c.messages ≡ sent_by moves.old.items → Moves (AreParts C.represents cores.new.items master.new) c (Finds c chosen.now) result (move_progress c chosen.now) }
    ensures spelled { IfOk result (λ step. AreEncodable step.outs) }
    ensures same_moves { moves.new.items ≡ moves.old.items }
    ensures same_counts { sent.new.items ≡ sent.old.items }
    ensures room { OnOk result (vec_len moves.new < vec_capacity moves.new) }
    ensures counted { OnOk result (vec_len sent.new < vec_capacity sent.new) }
    ensures few { OnOk result (slice_index (0 ∷ sent.old.items) (length sent.old.items) ≤ 2 ^ 63) }
    ensures typed { IsMoveOfType chosen.now }
{
    keep_limits(chosen);
    find(cores.as_slice(), moves.as_slice(), sent.as_slice(), chosen)?;
    if counted_before(sent.as_slice(), sent.len()) > BEYOND_MEMORY {
        return Err(Refusal::Memory);
    }
    moves.reserve(1)?;
    sent.reserve(1)?;
    act(
        alloc,
        cores,
        master,
        moves.as_slice(),
        sent.as_slice(),
        chosen,
    )
}

/// Makes the cores of the members of a first membership, before any step. Fails only when out of
/// memory.
fn opening_cores<C: Core>(alloc: Global, master: &Master) -> Result<Vec<C>, Refusal>
    requires { master.now.epoch ≡ 1 }
    ensures ok { IfOk result (λ cores. AllZip C.represents cores.items (openings master.now.chain master.now.members master.now.members)) }
    ensures err { IfErr result (λ e. e ≡ Refusal.Memory) }
{
    let config = master.config();
    let chain = master.chain();
    let members = config.members.as_slice();
    let mut cores = Vec::new(alloc);
    for id in members {
        let core = C::open(alloc, NodeName { chain, node: *id }, Some(config))?;
        cores.push(core)?;
    }
    Ok(cores)
}

impl<C: Core> ChainCore<C> {
    /// Opens a chain of these members, head first, before any move: each is ready and has an empty
    /// history.
    ///
    /// `BadConfig` exactly if they are no membership (1 to 8 ids from 1, none twice). `Memory` if
    /// they are one and an allocation failed.
    pub fn open(alloc: Global, chain: ChainId, members: &[NodeId]) -> Result<Self, Refusal>
        ensures ok { IfOk result (λ w. w ≡ opened_chain chain members.now) }
        ensures membership { OnOk result (IsMembership members.now) }
        ensures bad { IfErr result (λ e. (e ≡ Refusal.BadConfig) ↔ ¬ (IsMembership members.now)) }
        ensures err { IfErr result (λ e. (e ≡ Refusal.BadConfig) ⊎ (e ≡ Refusal.Memory)) }
    {
        let master = Master::open(alloc, chain, members)?;
        let cores = opening_cores(alloc, &master)?;
        let run = Run {
            members: Items::of(Vec::from_slice(alloc, members)?),
            moves: Items::new(alloc),
        };
        Ok(ChainCore {
            chain,
            master,
            cores,
            run,
            sent: Vec::new(alloc),
        })
    }

    /// Finds the node and the message of a move. Changes nothing and never allocates.
    ///
    /// `UnknownMessage` for a delivery of a number that was not sent; `WrongNode` for a request,
    /// tick or stop of a node that the chain never had (a tick of node 0 is the master's).
    pub fn find(&self, chosen: &Move) -> Result<(), Refusal>
        ensures { HasFound (chain_of_run self.now) chosen.now result }
    {
        find(
            self.cores.as_slice(),
            self.run.moves.as_slice(),
            self.sent.as_slice(),
            chosen,
        )
    }

    /// Takes one move of the chain and returns its number, from 1. The run keeps the move with its
    /// step.
    ///
    /// Refused, with nothing changed, in this order: as `find` refuses it; `Memory` if there is no
    /// room to keep the move, or more messages were sent than fit in any memory; a move of a node
    /// as the node's own step is refused; a removal as `NotMember`, `NotStopped` or `LastNode`, a
    /// join as `UsedId` or `ChainFull`, both then as `Exhausted` in the last epoch; and `Memory` if
    /// an allocation failed.
    pub fn take(&mut self, alloc: Global, chosen: Move) -> Result<u64, Refusal>
        ensures gives { GivesMove self.old self.new chosen result }
        ensures typed { IsTypedRunOf self.new.chain self.new.run }
    {
        let mut moves = mem::replace(&mut self.run.moves, Items::new(alloc)).into_vec();
        match step_of(
            alloc,
            &mut self.cores,
            &mut self.master,
            &mut moves,
            &mut self.sent,
            &chosen,
        ) {
            Err(refusal) => {
                self.run.moves = Items::of(moves);
                drop(chosen);
                Err(refusal)
            }
            Ok(step) => {
                let before = counted_before(self.sent.as_slice(), self.sent.len());
                self.sent
                    .push_reserved(before + sends_in(step.outs.as_slice()));
                moves.push_reserved(Taken { chosen, step });
                let number = moves.len() as u64;
                self.run.moves = Items::of(moves);
                Ok(number)
            }
        }
    }

    /// Returns the opening members and the moves that were taken, each with its step: a run by the
    /// definitions, whose transactions are within the limits of their type. Never allocates.
    pub fn run(&self) -> &Run
        ensures value { result.now ≡ self.now.run }
        ensures run { IsTypedRunOf self.now.chain result.now }
    {
        &self.run
    }

    /// Returns the chain's id. Never allocates.
    pub fn chain(&self) -> ChainId
        ensures { result ≡ self.now.chain }
    {
        self.chain
    }

    /// Returns the number of messages sent so far. Never allocates.
    pub fn sent(&self) -> u64
        ensures { result ≡ length (chain_of_run self.now).messages }
    {
        counted_before(self.sent.as_slice(), self.sent.len()) as u64
    }

    /// Returns the core of each node that ever was a member, in the order of joining. Never
    /// allocates.
    pub fn cores(&self) -> &[C]
        ensures { AllZip C.represents result.now (chain_of_run self.now).nodes }
    {
        self.cores.as_slice()
    }

    /// Returns the core of the node of this id, if the chain ever had one. Never allocates.
    pub fn core(&self, id: NodeId) -> Option<&C>
        ensures { MatchOption result (node_at (chain_of_run self.now).nodes id ≡ None) (λ core. (p : Plain) × (node_at (chain_of_run self.now).nodes id ≡ Some p) × C.represents core.now p) }
    {
        match place_of(self.cores.as_slice(), id) {
            None => None,
            Some(place) => Some(&self.cores[place]),
        }
    }

    /// Returns the message of this number, counted from 1; `None` if it was not sent. Never
    /// allocates.
    pub fn message(&self, number: u64) -> Option<&LinkMessage>
        ensures { option_copied result ≡ message_at (chain_of_run self.now).messages number }
    {
        message_of(self.run.moves.as_slice(), self.sent.as_slice(), number)
    }

    /// Returns the id of the node at which a move happens: for a delivery the message's receiver; 0
    /// for a move of the master, and for the delivery of a message that was not sent. Never
    /// allocates.
    pub fn mover(&self, chosen: &Move) -> NodeId
        ensures { result ≡ mover (chain_of_run self.now) chosen.now }
    {
        match chosen {
            Move::Ask { node, .. } => *node,
            Move::Deliver(number) => match self.message(*number) {
                None => NodeId::new(0),
                Some(message) => message.receiver,
            },
            Move::Tick(node) => *node,
            Move::Stop(node) => *node,
            Move::Remove(_) => NodeId::new(0),
            Move::Join(_) => NodeId::new(0),
        }
    }
}
