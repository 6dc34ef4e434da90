//! Plays a script on locked nodes and on the chain beside them, and prints what both did;
//! `craq_lab` calls it.
ghost use Rattle.std.specs.Prelude.{◌≡◌, ◌++◌, ◌∷◌, [], ◌≤◌, List, IfErr, IfOk, OnOk, string_bytes};
ghost use Rattle.craq_runs.specs.declared.run.Taken.{Taken};
ghost use Rattle.craq_play.specs.Moves.{move_of};
ghost use Rattle.craq_script.specs.Printed.{refusal_text};
ghost use Rattle.craq_play.specs.Printed.{step_text};
ghost use Rattle.craq_play.specs.Played.{after_line, after_one, line_text, move_text, played, played_text};
ghost use Rattle.craq_play.specs.OnCells.{EndsPlay, PlaysOnCells};

use crate::PlayFault;
use crate::moving::move_of;
use crate::played_chain::PlayedChain;
use crate::playing::{first_ids, opened_core, print_explanation};
use crate::printing::print_step;
use craq_cell_chain::{CellChain, CellStep};
use craq_model::Step;
use craq_names::{ChainId, NodeId, Pass, Refusal, Same};
use craq_node::Core;
use craq_runs::{Move, Run};
use craq_script::{Script, ScriptLine, print_refusal};
use std::alloc::{AllocError, Global};
use std::sync::Wait;

/// The outcome of a move on the locked nodes: a step and its receipt, `None` if no node can take
/// the move, or a refusal.
type OnCells = Result<Option<CellStep>, Refusal>;

/// Prints a locked node's step if it equals the wanted step. `sent` messages were sent before it.
/// `Differs` if the steps are not equal.
fn print_same(
    text: &mut String,
    node: NodeId,
    sent: u64,
    step: &Step,
    wanted: &Step,
) -> Result<(), PlayFault>
    ensures text { OnOk result (string_bytes text.new ≡ string_bytes text.old ++ step_text node sent wanted.now) }
    ensures err { IfErr result EndsPlay }
{
    if !step.is_same(wanted) {
        return Err(PlayFault::Differs);
    }
    print_step(text, node, sent, step)?;
    Ok(())
}

/// Prints the locked nodes' outcome for the last move of the chain's run. `sent` messages were sent
/// before it. `Differs` if the outcomes are not equal.
fn print_taken(
    text: &mut String,
    node: NodeId,
    sent: u64,
    done: &OnCells,
    run: &Run,
) -> Result<(), PlayFault>
    ensures text { (before : List Taken) (t : Taken) → run.now.moves ≡ before ++ t ∷ [] → OnOk result (string_bytes text.new ≡ string_bytes text.old ++ step_text node sent t.step) }
    ensures err { IfErr result EndsPlay }
{
    let Some(taken) = run.moves.as_slice().last() else {
        return Err(PlayFault::Differs);
    };
    match done {
        Ok(Some(done)) if done.receipt.node == node => {
            print_same(text, node, sent, &done.step, &taken.step)
        }
        _ => Err(PlayFault::Differs),
    }
}

/// Prints the chain's refusal of a move if the locked nodes refused it likewise or none of them
/// could take it. `Differs` otherwise.
fn print_refused(text: &mut String, done: &OnCells, refusal: Refusal) -> Result<(), PlayFault>
    ensures text { OnOk result (string_bytes text.new ≡ string_bytes text.old ++ refusal_text refusal) }
    ensures err { IfErr result EndsPlay }
{
    match done {
        Ok(Some(_)) => Err(PlayFault::Differs),
        Err(other) if !other.is_same(&refusal) => Err(PlayFault::Differs),
        _ => Ok(print_refusal(text, &refusal)?),
    }
}

/// Takes a move on its locked node, with pass 0 as the caller's pass. Replies to pending calls are
/// dropped.
fn take_on_cells<C: Core, R: Wait>(
    rt: &R,
    alloc: Global,
    cells: &mut CellChain<C>,
    chosen: &Move,
) -> OnCells {
    let mut calls = Vec::new(alloc);
    cells.take(rt, alloc, chosen, Pass::start(), &mut calls)
}

/// Takes a move on its locked node and then on the chain, and prints the locked node's step or
/// refusal.
///
/// `Memory` when out of memory. `Differs` if the locked node and the chain did not do the same.
fn play_move<C: Core, R: Wait>(
    rt: &R,
    alloc: Global,
    cells: &mut CellChain<C>,
    chain: &mut PlayedChain<C>,
    text: &mut String,
    chosen: Move,
) -> Result<(), PlayFault>
    ensures chain { OnOk result (chain.new ≡ after_one chain.old chosen) }
    ensures text { OnOk result (string_bytes text.new ≡ string_bytes text.old ++ move_text chain.old chosen) }
    ensures err { IfErr result EndsPlay }
{
    let node = chain.mover(&chosen);
    let sent = chain.sent();
    let done = take_on_cells(rt, alloc, cells, &chosen);
    if let Err(Refusal::Memory) = done {
        drop(chosen);
        return Err(PlayFault::Refused(Refusal::Memory));
    }
    match chain.take(alloc, chosen) {
        Ok(_) => print_taken(text, node, sent, &done, chain.run()),
        Err(Refusal::Memory) => Err(PlayFault::Refused(Refusal::Memory)),
        Err(refusal) => print_refused(text, &done, refusal),
    }
}

/// Plays a line on the locked nodes and the chain, and prints what it did. Fails as `play_move`
/// does.
fn play_line<C: Core, R: Wait>(
    rt: &R,
    alloc: Global,
    cells: &mut CellChain<C>,
    chain: &mut PlayedChain<C>,
    text: &mut String,
    line: &ScriptLine,
) -> Result<(), PlayFault>
    ensures chain { OnOk result (chain.new ≡ after_line chain.old (move_of line.now)) }
    ensures text { OnOk result (string_bytes text.new ≡ string_bytes text.old ++ line_text chain.old (move_of line.now)) }
    ensures err { IfErr result EndsPlay }
{
    match move_of(alloc, line) {
        Ok(Some(chosen)) => play_move(rt, alloc, cells, chain, text, chosen),
        Ok(None) => Ok(print_explanation(alloc, chain, text)?),
        Err(Refusal::Memory) => Err(PlayFault::Refused(Refusal::Memory)),
        Err(refusal) => Ok(print_refusal(text, &refusal)?),
    }
}

/// Creates the locked nodes 1 to `nodes` of chain 0, without journals. Fails only when out of
/// memory.
fn cells_of<C: Core>(alloc: Global, nodes: u32) -> Result<CellChain<C>, AllocError> {
    let members = first_ids(alloc, nodes)?;
    match CellChain::open(alloc, ChainId::new(0), members.as_slice(), false) {
        Ok(cells) => Ok(cells),
        Err(_) => Err(AllocError),
    }
}

/// Plays the lines in order on new locked nodes and a new chain of `nodes` nodes. Fails as
/// `play_move` does.
fn play_lines<C: Core, R: Wait>(
    rt: &R,
    alloc: Global,
    nodes: u32,
    lines: &[ScriptLine],
) -> Result<String, PlayFault>
    requires { (1 ≤ nodes) × (nodes ≤ 8) }
    ensures text { IfOk result (λ text. string_bytes text ≡ played_text nodes lines.now) }
    ensures err { IfErr result EndsPlay }
{
    let mut cells: CellChain<C> = cells_of(alloc, nodes)?;
    let mut chain: PlayedChain<C> = opened_core(alloc, nodes)?;
    let mut text = String::new(alloc);
    for line in lines {
        play_line(rt, alloc, &mut cells, &mut chain, &mut text, line)?;
    }
    Ok(text)
}

/// Plays a script on one chain of the nodes 1 to `nodes`, with 1 as the head, and returns the
/// printed lines. The whole script is parsed before the first move.
///
/// Each move is first taken on the locked node, or the master, that it concerns, and then on the
/// chain. The locked node's outcome is printed. A move that no locked node can take goes to the
/// chain alone: it names a message or node that does not exist, or removes a node that runs.
///
/// `Refused` with `BadScript` and the first line outside the grammar, or with `Memory` when out of
/// memory. `Differs` if a locked node and the chain did not do the same; nothing is printed then.
/// No script is known to cause it, and no printed text depends on it.
pub fn play<C: Core, R: Wait>(
    rt: &R,
    alloc: Global,
    nodes: u32,
    script: &[u8],
) -> Result<String, PlayFault>
    requires { (1 ≤ nodes) × (nodes ≤ 8) }
    ensures { PlaysOnCells (λ t. string_bytes t) result (played nodes script.now) }
{
    let script = Script::read(alloc, script)?;
    play_lines::<C, R>(rt, alloc, nodes, script.lines.as_slice())
}
