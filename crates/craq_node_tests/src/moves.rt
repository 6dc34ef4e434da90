//! Reads moves from script lines, and prints linearization witnesses; for all other modules except
//! `main` and `refused`.
use craq_names::{ChainId, Items, NodeId, Refusal};
use craq_play::{Script, asked_update, explanation_text, move_of, read_of};
use craq_runs::{Explanation, Move};
use craq_script::ScriptLine;
use std::alloc::{AllocError, Global};

/// Returns a list of members.
pub fn members(alloc: Global, ids: &[u32]) -> Result<Items<NodeId>, AllocError> {
    let mut list = Vec::new(alloc);
    for id in ids {
        list.push(NodeId::new(*id))?;
    }
    Ok(Items::of(list))
}

/// Returns the move of a line, for an object of any chain; `None` for `explain`.
fn chosen_by(alloc: Global, line: &ScriptLine) -> Result<Option<Move>, Refusal> {
    match line {
        ScriptLine::Update { update } => {
            let node = update.node;
            let ask = asked_update(alloc, update)?;
            Ok(Some(Move::Ask { node, ask }))
        }
        ScriptLine::Read { node, mode, object } => {
            let ask = read_of(alloc, *mode, object)?;
            Ok(Some(Move::Ask { node: *node, ask }))
        }
        _ => move_of(alloc, line),
    }
}

/// Returns the moves of a script.
pub fn moves_of(alloc: Global, text: &str) -> Result<Vec<Move>, Refusal> {
    let script = Script::read(alloc, text.as_bytes())?;
    let mut moves = Vec::new(alloc);
    for line in script.lines.as_slice() {
        if let Some(chosen) = chosen_by(alloc, line)? {
            moves.push(chosen)?;
        }
    }
    Ok(moves)
}

/// Prints a linearization witness as one line.
pub fn print_explanation(
    alloc: Global,
    explanation: &Explanation,
    text: &mut String,
) -> Result<(), AllocError> {
    let line = explanation_text(alloc, explanation)?;
    writeln!(text, "{line}")
}
