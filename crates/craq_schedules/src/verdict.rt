//! Prints the end of a run: the number of committed updates, and the verdict of `check`; called by
//! `draw` and `stops`.
ghost use Rattle.std.specs.Prelude.{◌≡◌, ◌++◌, Bool, length, IfOk, OnOk, string_bytes};
ghost use Rattle.craq_runs.specs.declared.explanation.Explanation.{Explanation};
ghost use Rattle.craq_runs.specs.declared.run.Run.{Run};
ghost use Rattle.craq_runs.specs.Explain.{explain};
ghost use Rattle.craq_schedules.specs.Verdicts.{AnswersAsCheck, answer_on, verdict_text};

use craq_check::check;
use craq_node::Core;
use craq_play::PlayedChain;
use std::alloc::{AllocError, Global};

/// The verdict on a run: the number of committed updates, and whether its linearization witness
/// passes `check`.
#[derive(Clone, Copy, Debug)]
pub(crate) struct Verdict {
    pub(crate) committed: u64,
    pub(crate) is_valid: bool,
}

/// Computes the verdict on the run of a chain. Fails only when out of memory.
pub(crate) fn verdict_of<C: Core>(
    alloc: Global,
    chain: &PlayedChain<C>,
) -> Result<Verdict, AllocError>
    ensures committed { IfOk result (λ v. v.committed ≡ length (explain chain.now.chain chain.now.run).asks) }
    ensures valid { IfOk result (λ v. (holds : Run → Explanation → Bool) → AnswersAsCheck holds → v.is_valid ≡ answer_on holds chain.now) }
{
    let explanation = chain.explain(alloc)?;
    Ok(Verdict {
        committed: explanation.asks.as_slice().len() as u64,
        is_valid: check(alloc, chain.run(), &explanation)?,
    })
}

/// Prints the verdict of `check` on the linearization witness. Fails only when out of memory.
pub(crate) fn print_verdict(text: &mut String, verdict: Verdict) -> Result<(), AllocError>
    ensures { OnOk result (string_bytes text.new ≡ string_bytes text.old ++ verdict_text verdict.is_valid) }
{
    let valid = verdict.is_valid;
    writeln!(text, "valid {valid}")
}
