//! Copies of steps; used by `merging`, whose run owns its steps while the journals keep theirs.
ghost use Rattle.std.specs.Prelude.{◌≡◌, IfOk};

use craq_model::{Out, Step};
use craq_names::{Copied, Items};
use std::alloc::{AllocError, Global};

/// Copies an output of a step.
fn copied_out(alloc: Global, out: &Out) -> Result<Out, AllocError>
    ensures { IfOk result (λ copy. copy ≡ out.now) }
{
    match out {
        Out::Send { to, message } => Ok(Out::Send {
            to: *to,
            message: message.copied(alloc)?,
        }),
        Out::Answer { ticket, answer } => Ok(Out::Answer {
            ticket: *ticket,
            answer: answer.copied(alloc)?,
        }),
    }
}

/// Copies all outputs of a step.
fn copied_outs(alloc: Global, outs: &[Out]) -> Result<Vec<Out>, AllocError>
    ensures { IfOk result (λ copy. copy.items ≡ outs.now) }
{
    let mut copy = Vec::new(alloc);
    for out in outs {
        copy.push(copied_out(alloc, out)?)?;
    }
    Ok(copy)
}

/// Copies a step.
pub(crate) fn copied_step(alloc: Global, step: &Step) -> Result<Step, AllocError>
    ensures { IfOk result (λ copy. copy ≡ step.now) }
{
    let outs = copied_outs(alloc, step.outs.as_slice())?;
    Ok(Step {
        ticket: step.ticket,
        outs: Items::of(outs),
        ignored: step.ignored,
    })
}
