//! Turns a script line into a move, or refuses it before the chain sees it.
ghost use Rattle.std.specs.Prelude.{◌≡◌, Ok};
ghost use Rattle.craq_script.specs.Asked.{AskedOrRefused};
ghost use Rattle.craq_play.specs.Moves.{asked_move, move_of};

use craq_model::Ask;
use craq_names::{NodeId, Refusal};
use craq_runs::Move;
use craq_script::{ScriptLine, asked_update, read_of};
use std::alloc::Global;

/// Returns the move that sends a request to a node of chain 0. `UnknownChain` if the request is for
/// another chain.
fn asked(node: NodeId, ask: Ask) -> Result<Option<Move>, Refusal>
    ensures { result ≡ asked_move node (Ok ask) }
{
    if ask.chain().get() != 0 {
        return Err(Refusal::UnknownChain);
    }
    Ok(Some(Move::Ask { node, ask }))
}

/// Returns the move that a line stands for, or `None` for `explain`.
///
/// A line can be refused before the chain sees it, with the first of these that applies: `BadKey`,
/// `ValueTooLong`, a transaction's refusal, `BadNumber`; then `UnknownChain` if the first object is
/// not of chain 0. `Memory` when out of memory.
#[tactic(auto, unfolding(crate::specs::Moves::move_of))]
pub fn move_of(alloc: Global, line: &ScriptLine) -> Result<Option<Move>, Refusal>
    ensures { AskedOrRefused (λ m. m) result (move_of line.now) }
{
    match line {
        ScriptLine::Update { update } => {
            let ask = asked_update(alloc, update)?;
            asked(update.node, ask)
        }
        ScriptLine::Read { node, mode, object } => {
            let ask = read_of(alloc, *mode, object)?;
            asked(*node, ask)
        }
        ScriptLine::Deliver { message } => Ok(Some(Move::Deliver(*message))),
        ScriptLine::Tick { node } => Ok(Some(Move::Tick(*node))),
        ScriptLine::Stop { node } => Ok(Some(Move::Stop(*node))),
        ScriptLine::Remove { node } => Ok(Some(Move::Remove(*node))),
        ScriptLine::Join { node } => Ok(Some(Move::Join(*node))),
        ScriptLine::Explain => Ok(None),
    }
}
