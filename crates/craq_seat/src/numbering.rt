//! `numbered`: the messages of a step, each under the step's receipt and its index; used by
//! `craq_cell_chain`.
ghost use Rattle.std.specs.Prelude.{◌≡◌, ◌≤◌, ◌^◌, length, IfOk};
ghost use Rattle.std.specs.List.{AllByRecursion};
ghost use Rattle.craq_model.specs.Encodable.{IsEncodable};
ghost use Rattle.craq_runs.specs.Chain.{sent_in};
ghost use Rattle.craq_seat.specs.Numbered.{CanBeSent, named, numbered_from};

use crate::Receipt;
use craq_model::{LinkMessage, Out, Step};
use craq_names::Copied;
use std::alloc::{AllocError, Global};

/// Copies the message and names the copy by its sender, stamp and index.
fn named(
    alloc: Global,
    message: &LinkMessage,
    receipt: Receipt,
    index: u32,
) -> Result<LinkMessage, AllocError>
    ensures { IfOk result (λ m. m ≡ named receipt index message.now) }
{
    Ok(LinkMessage {
        chain: message.chain,
        sender: receipt.node,
        receiver: message.receiver,
        stamp: receipt.stamp,
        index,
        epoch: message.epoch,
        body: message.body.copied(alloc)?,
    })
}

/// Copies the messages among the outputs, in order, each named by its sender, stamp and index.
#[tactic(auto, unfolding(craq_runs::specs::Chain::sent_in))]
fn named_in(alloc: Global, outs: &[Out], receipt: Receipt) -> Result<Vec<LinkMessage>, AllocError>
    requires { length (sent_in outs.now) ≤ 2 ^ 32 }
    ensures { IfOk result (λ messages. messages.items ≡ numbered_from 0 receipt (sent_in outs.now)) }
{
    let mut messages = Vec::new(alloc);
    for out in outs {
        if let Out::Send { message, .. } = out {
            let index = messages.len() as u32;
            messages.push(named(alloc, message, receipt, index)?)?;
        }
    }
    Ok(messages)
}

/// Copies the messages that a step sends, in order. Each has the receipt's node as its sender, the
/// receipt's stamp, and its index among them, from 0. If the receipt is that of a cell's last step,
/// each has an encoding. Fails only when out of memory.
#[tactic(auto, using(crate::proofs::Sending::sent_encodable))]
pub fn numbered(
    alloc: Global,
    step: &Step,
    receipt: Receipt,
) -> Result<Vec<LinkMessage>, AllocError>
    requires { length (sent_in step.now.outs) ≤ 2 ^ 32 }
    ensures messages { IfOk result (λ messages. messages.items ≡ numbered_from 0 receipt (sent_in step.now.outs)) }
    ensures spelled { CanBeSent receipt step.now.outs → IfOk result (λ messages. AllByRecursion IsEncodable messages.items) }
{
    named_in(alloc, step.outs.as_slice(), receipt)
}
