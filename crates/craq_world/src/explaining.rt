//! `explain_run`: the explanation of any run, valid by the theorem; used by tests, which explain
//! audited runs with it.
ghost use Rattle.std.specs.Prelude.{◌≡◌, ℕ, IfOk};
ghost use Rattle.craq_runs.specs.Explain.{explain};
ghost use Rattle.craq_runs.specs.Runs.{IsRun, IsRunOf};
ghost use Rattle.craq_runs.specs.Typed.{AreOfType};
ghost use Rattle.craq_runs.specs.Valid.{IsValid};
ghost use Rattle.craq_world.specs.Named.{named_in, unasked};

use craq_chain::keep_limits;
use craq_explain::explain_run_of;
use craq_names::{ChainId, Items};
use craq_promise::every_run_is_explained;
use craq_runs::{Explanation, Move, Run, Taken};
use std::alloc::{AllocError, Global};

/// States that each transaction that the moves requested is within the limits that its type keeps.
/// Does nothing.
fn keep_all_limits(moves: &[Taken])
    ensures { AreOfType moves.now }
{
    for taken in moves {
        keep_limits(&taken.chosen);
    }
}

/// Returns the chain that the first request names, if there is a request.
fn named_chain(moves: &[Taken]) -> Option<ChainId>
    ensures { result ≡ named_in moves.now }
{
    for taken in moves {
        if let Move::Ask { ask, .. } = &taken.chosen {
            return Some(ask.chain());
        }
    }
    None
}

/// Returns the explanation of `count` moves without a request. Fails only when out of memory.
fn explain_unasked(alloc: Global, count: usize) -> Result<Explanation, AllocError>
    ensures { IfOk result (λ e. e ≡ unasked count) }
{
    let lens = vec![in alloc; 0u64; count]?;
    Ok(Explanation {
        asks: Items::new(alloc),
        lens: Items::of(lens),
        places: Items::new(alloc),
    })
}

/// Returns the explanation of a run from any source. It is the one that the definitions choose in
/// each chain in which the run can happen, and it holds of the run. The run's first request names
/// its chain; without a request the explanation depends on no chain. Fails only when out of memory.
pub fn explain_run(alloc: Global, run: &Run) -> Result<Explanation, AllocError>
    requires { IsRun run.now }
    ensures chosen { IfOk result (λ e. (chain : ℕ) → IsRunOf chain run.now → e ≡ explain chain run.now) }
    ensures valid { IfOk result (λ e. IsValid run.now e) }
{
    let moves = run.moves.as_slice();
    keep_all_limits(moves);
    every_run_is_explained();
    match named_chain(moves) {
        Some(chain) => explain_run_of(alloc, chain, run),
        None => explain_unasked(alloc, moves.len()),
    }
}
