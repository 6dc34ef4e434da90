//! The replay of a run: `explain_run_of`, the function of the crate.
ghost use Rattle.std.specs.Prelude.{◌≡◌, ◌+◌, ◌++◌, Ok, IfOk, OnOk, length};
ghost use Rattle.craq_runs.specs.Chain.{chain_step, node_at};
ghost use Rattle.craq_runs.specs.Runs.{IsRunOf, Takes};
ghost use Rattle.craq_runs.specs.Explain.{Account, account_after, account_of, explain, opening_account, tail_word};
ghost use Rattle.craq_runs.specs.Seen.{ask_in, asks_from};
ghost use Rattle.craq_chain.specs.Chained.{after_taking, chain_of_run, opened_chain, with_move};
ghost use Rattle.craq_explain.specs.Noted.{IsNoted};
ghost use Rattle.craq_explain.specs.Shown.{as_running, plain_in};

use crate::account::Notes;
use crate::answers::word_in;
use crate::tables::Replayed;
use craq_chain::ChainCore;
use craq_full_history::FullHistory;
use craq_history::{History, Node};
use craq_names::{ChainId, Copied, NodeId, Version};
use craq_node::NodeCore;
use craq_runs::{Explanation, Move, Run, Taken};
use std::alloc::{AllocError, Global};

/// Replays a move of a run in a chain. Fails only when out of memory.
fn take_again(
    alloc: Global,
    core: &mut ChainCore<NodeCore<FullHistory>>,
    chosen: &Move,
) -> Result<(), AllocError>
    ensures { OnOk result (after_taking core.old chosen.now ≡ Ok core.new) }
{
    let chosen = chosen.copied(alloc)?;
    match core.take(alloc, chosen) {
        Ok(_) => Ok(()),
        Err(_) => Err(AllocError),
    }
}

/// Returns the tail's report that a move delivers, with the number committed after the step that
/// sent it.
fn tail_word(
    core: &ChainCore<NodeCore<FullHistory>>,
    sent_at: &[u64],
    chosen: &Move,
) -> Option<(Version, u64)>
    ensures { (w : Account) → w.chain ≡ chain_of_run core.now → w.sent_at ≡ sent_at.now → result ≡ tail_word w chosen.now }
{
    match chosen {
        Move::Deliver(number) => word_in(sent_at, core.message(*number), *number),
        _ => None,
    }
}

/// Returns the node of this id, if the chain ever had one.
fn node_in(core: &ChainCore<NodeCore<FullHistory>>, id: NodeId) -> Option<&Node<FullHistory>>
    ensures { plain_in ⟦<FullHistory as History>⟧.past result ≡ as_running (node_at (chain_of_run core.now).nodes id) }
{
    match core.core(id) {
        None => None,
        Some(core) => Some(core.node()),
    }
}

/// Opens a chain of these members, head first, before any move. They are those of a run, so it
/// fails only when out of memory.
fn opened_core(
    alloc: Global,
    chain: ChainId,
    members: &[NodeId],
) -> Result<ChainCore<NodeCore<FullHistory>>, AllocError>
    ensures { IfOk result (λ w. w ≡ opened_chain chain members.now) }
{
    match ChainCore::open(alloc, chain, members) {
        Ok(core) => Ok(core),
        Err(_) => Err(AllocError),
    }
}

/// Replays the last of these moves in the chain to which the run leads, and notes it.
fn replay_move(
    alloc: Global,
    core: &mut ChainCore<NodeCore<FullHistory>>,
    notes: &mut Notes,
    moves: &[Taken],
    taken: &Taken,
) -> Result<(), AllocError>
    ensures { (w : Account) → IsNoted w notes.old → w.chain ≡ chain_of_run core.old → length moves.now ≡ w.chain.moves + 1 → asks_from 1 moves.now ≡ w.asks ++ ask_in (w.chain.moves + 1) taken.now.step.ticket taken.now.chosen → Takes (chain_step (chain_of_run core.old) taken.now.chosen) taken.now.step → OnOk result (IsNoted (account_after w taken.now) notes.new × (core.new ≡ with_move core.old taken.now)) }
{
    let node = core.mover(&taken.chosen);
    let word = tail_word(core, notes.sent_at(), &taken.chosen);
    take_again(alloc, core, &taken.chosen)?;
    let replayed = Replayed { taken, node, word };
    notes.add(alloc, moves, &replayed, node_in(core, node))?;
    Ok(())
}

/// Returns the notes of a whole run.
fn replay_all(alloc: Global, chain: ChainId, run: &Run) -> Result<Notes, AllocError>
    requires { IsRunOf chain run.now }
    ensures { IfOk result (λ notes. IsNoted (account_of (opening_account chain run.now.members) run.now.moves) notes) }
{
    let moves = run.moves.as_slice();
    let mut core = opened_core(alloc, chain, run.members.as_slice())?;
    let mut notes = Notes::new(alloc);
    for (place, taken) in moves.iter().enumerate() {
        replay_move(alloc, &mut core, &mut notes, &moves[..place + 1], taken)?;
    }
    Ok(notes)
}

/// Returns the explanation, by the definitions, of a run of the chain of this id (which the run
/// does not hold): the requests of the committed updates, the number committed after each move, and
/// the linearization point of each strong reply. Every run has one, from whatever source. Fails
/// only when out of memory.
pub fn explain_run_of(alloc: Global, chain: ChainId, run: &Run) -> Result<Explanation, AllocError>
    requires { IsRunOf chain run.now }
    ensures { IfOk result (λ e. e ≡ explain chain run.now) }
{
    let notes = replay_all(alloc, chain, run)?;
    notes.explained(alloc)
}
