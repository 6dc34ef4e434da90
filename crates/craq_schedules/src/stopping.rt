//! Plays a script with a node that stops after each of its moves: `stops`, called by `craq_lab`.
ghost use Rattle.std.specs.Prelude.{◌≡◌, ◌≤◌, ◌+◌, ◌++◌, Bool, length, IfOk, OnOk, string_bytes};
ghost use Rattle.craq_runs.specs.declared.explanation.Explanation.{Explanation};
ghost use Rattle.craq_runs.specs.declared.run.Run.{Run};
ghost use Rattle.craq_script.specs.Asked.{AskedOrRefused};
ghost use Rattle.craq_play.specs.Moves.{move_of};
ghost use Rattle.craq_play.specs.Played.{Plays, after_line, after_one};
ghost use Rattle.craq_schedules.specs.Stopped.{after_lines, replayed_chain, cut_line, cut_text, delivered, stopped, stops_text, up_to, without_node};
ghost use Rattle.craq_schedules.specs.Verdicts.{AnswersAsCheck};

use crate::verdict::{Verdict, print_verdict, verdict_of};
use craq_names::{NodeId, Refusal};
use craq_node::Core;
use craq_play::{PlayedChain, move_of, opened_core};
use craq_runs::Move;
use craq_script::{Script, ScriptLine};
use std::alloc::{AllocError, Global};

/// The largest number of messages that arrive after a removal.
const MOST_DELIVERIES: u64 = 10_000;

/// Takes a move; a refused move changes nothing. Fails only when out of memory.
fn take_move<C: Core>(
    alloc: Global,
    chain: &mut PlayedChain<C>,
    chosen: Move,
) -> Result<(), AllocError>
    ensures { OnOk result (chain.new ≡ after_one chain.old chosen) }
{
    match chain.take(alloc, chosen) {
        Ok(_) => Ok(()),
        Err(Refusal::Memory) => Err(AllocError),
        Err(_) => Ok(()),
    }
}

/// Takes the move of a line, if it has one; a refused line changes nothing. Fails only when out of
/// memory.
fn take_line<C: Core>(
    alloc: Global,
    chain: &mut PlayedChain<C>,
    line: &ScriptLine,
) -> Result<(), AllocError>
    ensures { OnOk result (chain.new ≡ after_line chain.old (move_of line.now)) }
{
    match move_of(alloc, line) {
        Ok(Some(chosen)) => take_move(alloc, chain, chosen),
        Ok(None) => Ok(()),
        Err(Refusal::Memory) => Err(AllocError),
        Err(_) => Ok(()),
    }
}

/// Takes the moves of the lines in order. Fails only when out of memory.
fn take_lines<C: Core>(
    alloc: Global,
    chain: &mut PlayedChain<C>,
    lines: &[ScriptLine],
) -> Result<(), AllocError>
    ensures { OnOk result (chain.new ≡ after_lines chain.old lines.now) }
{
    for line in lines {
        take_line(alloc, chain, line)?;
    }
    Ok(())
}

/// Returns the chain after a script, on one chain of the nodes 1 to `nodes`, with 1 as the head. A
/// refused line changes nothing, and `explain` is not a move.
///
/// `BadScript` with the first line outside the grammar; `Memory` when out of memory. (This
/// project's profile.)
pub fn replayed_chain<C: Core>(
    alloc: Global,
    nodes: u32,
    script: &[u8],
) -> Result<PlayedChain<C>, Refusal>
    requires { (1 ≤ nodes) × (nodes ≤ 8) }
    ensures { AskedOrRefused (λ w. w) result (replayed_chain nodes script.now) }
{
    let script = Script::read(alloc, script)?;
    let mut chain: PlayedChain<C> = opened_core(alloc, nodes)?;
    take_lines(alloc, &mut chain, script.lines.as_slice())?;
    Ok(chain)
}

/// Takes the moves of the lines in order, until the run has `cut` moves. Fails only when out of
/// memory.
fn take_up_to<C: Core>(
    alloc: Global,
    chain: &mut PlayedChain<C>,
    lines: &[ScriptLine],
    cut: usize,
) -> Result<(), AllocError>
    ensures { OnOk result (chain.new ≡ up_to cut chain.old lines.now) }
{
    for line in lines {
        if chain.run().moves.len() == cut {
            return Ok(());
        }
        take_line(alloc, chain, line)?;
    }
    Ok(())
}

/// Delivers the messages after the first `earlier`, in the order sent, each once: until none is
/// left or `most` have arrived. Fails only when out of memory.
fn deliver_after<C: Core>(
    alloc: Global,
    chain: &mut PlayedChain<C>,
    earlier: u64,
    most: u64,
) -> Result<(), AllocError>
    ensures { OnOk result (chain.new ≡ delivered most earlier chain.old) }
{
    let mut arrived = earlier;
    for _ in 0..most {
        if chain.sent() <= arrived {
            return Ok(());
        }
        arrived += 1;
        take_move(alloc, chain, Move::Deliver(arrived))?;
    }
    Ok(())
}

/// Stops a node, removes it, and delivers the messages sent from the removal on. If the removal is
/// refused, delivers none. Fails only when out of memory.
fn stop_and_remove<C: Core>(
    alloc: Global,
    chain: &mut PlayedChain<C>,
    node: NodeId,
) -> Result<(), AllocError>
    ensures { OnOk result (chain.new ≡ without_node chain.old node) }
{
    take_move(alloc, chain, Move::Stop(node))?;
    let earlier = chain.sent();
    match chain.take(alloc, Move::Remove(node)) {
        Ok(_) => deliver_after(alloc, chain, earlier, MOST_DELIVERIES),
        Err(Refusal::Memory) => Err(AllocError),
        Err(_) => Ok(()),
    }
}

/// Prints the line of a cut. Fails only when out of memory.
fn print_line(text: &mut String, cut: usize, verdict: Verdict) -> Result<(), AllocError>
    ensures { OnOk result (string_bytes text.new ≡ string_bytes text.old ++ cut_line cut verdict.committed verdict.is_valid) }
{
    let committed = verdict.committed;
    write!(text, "cut {cut} committed {committed} ")?;
    print_verdict(text, verdict)
}

/// Plays a script up to a cut on a new chain of `nodes` nodes, stops and removes the node, and
/// prints the line of the cut. Fails only when out of memory.
fn print_cut<C: Core>(
    alloc: Global,
    text: &mut String,
    nodes: u32,
    lines: &[ScriptLine],
    cut: usize,
    node: NodeId,
) -> Result<(), AllocError>
    requires { (1 ≤ nodes) × (nodes ≤ 8) }
    ensures { (holds : Run → Explanation → Bool) → AnswersAsCheck holds → OnOk result (string_bytes text.new ≡ string_bytes text.old ++ cut_text holds nodes node lines.now cut) }
{
    let mut chain: PlayedChain<C> = opened_core(alloc, nodes)?;
    take_up_to(alloc, &mut chain, lines, cut)?;
    stop_and_remove(alloc, &mut chain, node)?;
    print_line(text, cut, verdict_of(alloc, &chain)?)
}

/// Plays each cut of a script on a new chain of `nodes` nodes. Fails only when out of memory.
fn stop_lines<C: Core>(
    alloc: Global,
    nodes: u32,
    lines: &[ScriptLine],
    node: NodeId,
) -> Result<String, AllocError>
    requires { (1 ≤ nodes) × (nodes ≤ 8) }
    ensures { IfOk result (λ text. (holds : Run → Explanation → Bool) → AnswersAsCheck holds → string_bytes text ≡ stops_text holds nodes node lines.now) }
{
    let mut whole: PlayedChain<C> = opened_core(alloc, nodes)?;
    take_lines(alloc, &mut whole, lines)?;
    let mut text = String::new(alloc);
    for cut in 0..whole.run().moves.as_slice().len() + 1 {
        print_cut::<C>(alloc, &mut text, nodes, lines, cut, node)?;
    }
    Ok(text)
}

/// Plays a script once for each cut, a number from 0 to the number of moves that the script takes.
///
/// For each cut it plays the script up to that many taken moves, on a new chain of the nodes 1 to
/// `nodes`. Then the node stops and is removed. Each message sent from the removal on arrives once,
/// by ascending number, until none is left or 10,000 have arrived. If the removal is refused
/// nothing is delivered. `explain` prints nothing.
///
/// Prints a line for each cut: `cut I committed L valid true` or `cut I committed L valid false`,
/// with the cut, the number of updates committed at the end, and the verdict of `check` on the
/// linearization witness. The verdict is always `valid true`, by the law `every_verdict_is_valid`
/// of `craq_verdicts`.
///
/// `BadScript` with the first line outside the grammar; `Memory` when out of memory. (This
/// project's profile.)
pub fn stops<C: Core>(
    alloc: Global,
    nodes: u32,
    script: &[u8],
    node: NodeId,
) -> Result<String, Refusal>
    requires { (1 ≤ nodes) × (nodes ≤ 8) }
    ensures { (holds : Run → Explanation → Bool) → AnswersAsCheck holds → Plays (λ t. string_bytes t) result (stopped holds nodes node script.now) }
{
    let script = Script::read(alloc, script)?;
    Ok(stop_lines::<C>(alloc, nodes, script.lines.as_slice(), node)?)
}
