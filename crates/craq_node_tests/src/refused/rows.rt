//! Holds a script and its nodes, for one chain; read by `refused`, and played in each mode.
use crate::{cells, worlds};
use craq_cell_chain::CellChain;
use craq_names::{ChainId, Copied, Pass, Refusal};
use craq_node::Core;
use craq_play::{Script, move_of};
use craq_runs::Move;
use craq_seat::CallReceipt;
use craq_world::World;
use std::alloc::{AllocError, Global};
use std::sync::Wait;

/// Returns the chain of every script.
pub fn chain() -> ChainId {
    ChainId::new(0)
}

/// The greatest node id that a script may have.
pub const MOST_NODES: u32 = 32;

/// The moves of a script, and the ids of its chain's opening members: from 1 on, with 1 as the
/// head.
#[derive(Drop)]
pub struct Row {
    pub ids: Vec<u32>,
    pub moves: Vec<Move>,
}

/// Returns the ids from 1 to `count`.
fn first_ids(alloc: Global, count: u32) -> Result<Vec<u32>, AllocError> {
    let mut ids = Vec::new(alloc);
    for id in 1..=count {
        ids.push(id)?;
    }
    Ok(ids)
}

/// Returns the moves of the script's lines. Leaves out lines without a move, lines refused before
/// the chain sees them, and a line for which memory runs out; the output then lacks it.
fn moves_in(alloc: Global, script: &Script) -> Vec<Move> {
    let mut moves = Vec::new(alloc);
    for line in script.lines.as_slice() {
        if let Ok(Some(chosen)) = move_of(alloc, line) {
            let _ = moves.push(chosen);
        }
    }
    moves
}

impl Row {
    /// Parses a script for `nodes` nodes.
    pub fn read(alloc: Global, nodes: u32, script: &[u8]) -> Result<Row, Refusal> {
        let script = Script::read(alloc, script)?;
        let moves = moves_in(alloc, &script);
        drop(script);
        match first_ids(alloc, nodes) {
            Ok(ids) => Ok(Row { ids, moves }),
            Err(_) => {
                drop(moves);
                Err(Refusal::Memory)
            }
        }
    }

    /// Returns the moves, each with the chain's id.
    pub fn listed(&self, alloc: Global) -> Vec<(ChainId, Move)> {
        let mut list = Vec::new(alloc);
        for chosen in &self.moves {
            if let Ok(copy) = chosen.copied(alloc) {
                let _ = list.push((chain(), copy));
            }
        }
        list
    }

    /// Opens a world of the row's chain, before any move.
    pub fn world<C: Core>(&self, alloc: Global) -> Result<World<C>, Refusal> {
        worlds::opened(alloc, 1, self.ids.as_slice())
    }

    /// Returns journaled nodes after the moves, each of which has the pass of the step before, and
    /// the receipts of the answered calls.
    pub fn cells<C: Core, R: Wait>(
        &self,
        rt: &R,
        alloc: Global,
    ) -> Result<(CellChain<C>, Vec<CallReceipt>), Refusal> {
        let mut cells = cells::opened(alloc, self.ids.as_slice(), true)?;
        let mut calls = Vec::new(alloc);
        let mut pass = Pass::start();
        for chosen in &self.moves {
            if let Ok(Some(taken)) = cells.take(rt, alloc, chosen, pass, &mut calls) {
                pass = Pass::of(taken.receipt.stamp);
            }
        }
        Ok((cells, calls))
    }
}
