//! Plays a script's lines on one chain: takes each move and prints it. `craq_schedules` calls it
//! too.
ghost use Rattle.std.specs.Prelude.{◌≡◌, ◌⊎◌, ◌++◌, ◌∷◌, [], ◌≤◌, List, IfOk, OnOk, OnErr, string_bytes};
ghost use Rattle.craq_runs.specs.Explain.{explain};
ghost use Rattle.craq_runs.specs.declared.run.Taken.{Taken};
ghost use Rattle.craq_play.specs.Moves.{move_of};
ghost use Rattle.craq_play.specs.Printed.{step_text};
ghost use Rattle.craq_play.specs.Played.{
  after_line,
  after_one,
  explanation_line,
  first_ids,
  line_text,
  move_text,
  script_opening,
};

use crate::explanation::explanation_text;
use crate::moving::move_of;
use crate::played_chain::PlayedChain;
use crate::printing::print_step;
use craq_names::{NodeId, Refusal};
use craq_node::Core;
use craq_runs::{Move, Run};
use craq_script::{ScriptLine, print_refusal};
use std::alloc::{AllocError, Global};

/// Returns the ids from 1 to `count`.
pub(crate) fn first_ids(alloc: Global, count: u32) -> Result<Vec<NodeId>, AllocError>
    ensures { IfOk result (λ ids. ids.items ≡ first_ids count) }
{
    let mut ids = Vec::new(alloc);
    for id in 0..count {
        ids.push(NodeId::new(id + 1))?;
    }
    Ok(ids)
}

/// Opens chain 0 of the nodes 1 to `nodes`, with 1 as the head, before any move. `nodes` is from 1
/// to 8. Fails only when out of memory.
pub fn opened_core<C: Core>(alloc: Global, nodes: u32) -> Result<PlayedChain<C>, AllocError>
    requires { (1 ≤ nodes) × (nodes ≤ 8) }
    ensures { IfOk result (λ w. w ≡ script_opening nodes) }
{
    let members = first_ids(alloc, nodes)?;
    match PlayedChain::open(alloc, members.as_slice()) {
        Ok(chain) => Ok(chain),
        Err(_) => Err(AllocError),
    }
}

/// Prints the step of a run's last move, taken at `node` after `sent` messages were sent.
fn print_last(text: &mut String, node: NodeId, sent: u64, run: &Run) -> Result<(), AllocError>
    ensures { (before : List Taken) (t : Taken) → run.now.moves ≡ before ++ t ∷ [] → OnOk result (string_bytes text.new ≡ string_bytes text.old ++ step_text node sent t.step) }
{
    match run.moves.as_slice().last() {
        None => Ok(()),
        Some(taken) => print_step(text, node, sent, &taken.step),
    }
}

/// Takes a move and prints its step or its refusal.
///
/// Fails only when out of memory. The chain is then unchanged or has taken the move, and the text
/// is unspecified.
pub fn play_move<C: Core>(
    alloc: Global,
    chain: &mut PlayedChain<C>,
    text: &mut String,
    chosen: Move,
) -> Result<(), AllocError>
    ensures chain { OnOk result (chain.new ≡ after_one chain.old chosen) }
    ensures kept { OnErr result ((chain.new ≡ chain.old) ⊎ (chain.new ≡ after_one chain.old chosen)) }
    ensures text { OnOk result (string_bytes text.new ≡ string_bytes text.old ++ move_text chain.old chosen) }
{
    let node = chain.mover(&chosen);
    let sent = chain.sent();
    match chain.take(alloc, chosen) {
        Ok(_) => print_last(text, node, sent, chain.run()),
        Err(Refusal::Memory) => Err(AllocError),
        Err(refusal) => print_refusal(text, &refusal),
    }
}

/// Prints the linearization witness of the run so far as a line of JSON. Fails only when out of
/// memory.
pub(crate) fn print_explanation<C: Core>(
    alloc: Global,
    chain: &PlayedChain<C>,
    text: &mut String,
) -> Result<(), AllocError>
    ensures { OnOk result (string_bytes text.new ≡ string_bytes text.old ++ explanation_line (explain chain.now.chain chain.now.run)) }
{
    let explanation = chain.explain(alloc)?;
    let line = explanation_text(alloc, &explanation)?;
    text.push_str(line.as_str())?;
    text.push_str("\n")
}

/// Plays a line and prints what it did.
///
/// Fails only when out of memory. The chain is then unchanged or has taken the line's move, and the
/// text is unspecified.
pub fn play_line<C: Core>(
    alloc: Global,
    chain: &mut PlayedChain<C>,
    text: &mut String,
    line: &ScriptLine,
) -> Result<(), AllocError>
    ensures chain { OnOk result (chain.new ≡ after_line chain.old (move_of line.now)) }
    ensures kept { OnErr result ((chain.new ≡ chain.old) ⊎ (chain.new ≡ after_line chain.old (move_of line.now))) }
    ensures text { OnOk result (string_bytes text.new ≡ string_bytes text.old ++ line_text chain.old (move_of line.now)) }
{
    match move_of(alloc, line) {
        Ok(Some(chosen)) => play_move(alloc, chain, text, chosen),
        Ok(None) => print_explanation(alloc, chain, text),
        Err(Refusal::Memory) => Err(AllocError),
        Err(refusal) => print_refusal(text, &refusal),
    }
}
