//! Prints a whole run: its picture, or the verdict on a linearization witness; called by `main`.
ghost use Rattle.std.specs.Prelude.{◌≤◌};

use craq_check::check;
use craq_names::Refusal;
use craq_node::Core;
use craq_picture::picture_of;
use craq_play::PlayedChain;
use craq_runs::Explanation;
use craq_schedules::replayed_chain;
use std::alloc::Global;

/// Draws the run of a script on a chain of `nodes` nodes. Refused as `replayed_chain` is.
pub fn picture<C: Core>(alloc: Global, nodes: u32, script: &[u8]) -> Result<String, Refusal>
    requires { (1 ≤ nodes) × (nodes ≤ 8) }
{
    let chain: PlayedChain<C> = replayed_chain(alloc, nodes, script)?;
    let explanation = chain.explain(alloc)?;
    Ok(picture_of(alloc, chain.run(), &explanation)?)
}

/// Prints `true` if the linearization witness passes `check` for the run of a script on a chain of
/// `nodes` nodes, else `false`, as one line. Refused as `replayed_chain` is.
pub fn verdict<C: Core>(
    alloc: Global,
    nodes: u32,
    script: &[u8],
    explanation: &Explanation,
) -> Result<String, Refusal>
    requires { (1 ≤ nodes) × (nodes ≤ 8) }
{
    let chain: PlayedChain<C> = replayed_chain(alloc, nodes, script)?;
    let holds = check(alloc, chain.run(), explanation)?;
    Ok(format!(in alloc; "{holds}\n")?)
}
