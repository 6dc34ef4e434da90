//! Copies of steps, since the content of a lock cannot be borrowed once the lock is free; used by
//! `stepping`.
ghost use Rattle.std.specs.Prelude.{◌≡◌, IfOk};

use craq_model::{Out, Step};
use craq_names::{Copied, Items};
use std::alloc::{AllocError, Global};

/// Copies an output.
fn out_copy(alloc: Global, out: &Out) -> Result<Out, AllocError>
    ensures { IfOk result (λ copy. copy ≡ out.now) }
{
    Ok(match out {
        Out::Send { to, message } => Out::Send {
            to: *to,
            message: message.copied(alloc)?,
        },
        Out::Answer { ticket, answer } => Out::Answer {
            ticket: *ticket,
            answer: answer.copied(alloc)?,
        },
    })
}

/// Copies the outputs, in order.
fn outs_copy(alloc: Global, outs: &[Out]) -> Result<Vec<Out>, AllocError>
    ensures { IfOk result (λ copies. copies.items ≡ outs.now) }
{
    let mut copies = Vec::new(alloc);
    for out in outs {
        copies.push(out_copy(alloc, out)?)?;
    }
    Ok(copies)
}

/// Copies a step. Fails only when out of memory.
pub fn copy_of(alloc: Global, step: &Step) -> Result<Step, AllocError>
    ensures { IfOk result (λ copy. copy ≡ step.now) }
{
    let outs = outs_copy(alloc, step.outs.as_slice())?;
    Ok(Step {
        ticket: step.ticket,
        outs: Items::of(outs),
        ignored: step.ignored,
    })
}
