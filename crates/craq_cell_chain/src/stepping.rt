//! One step of a cell whose lock is held, and its messages; used by `CellChain::take`.
ghost use Rattle.std.specs.Prelude.{◌≡◌, ◌++◌, ◌⊎◌, Err, IfOk, OnErr, OnOk, Some};
ghost use Rattle.craq_model.specs.Plain.{Plain};
ghost use Rattle.craq_node.specs.Represented.{CanArrive};
ghost use Rattle.craq_runs.specs.Chain.{sent_in};
ghost use Rattle.craq_seat.specs.Cells.{with_inside};
ghost use Rattle.craq_seat.specs.Kept.{IsKept};
ghost use Rattle.craq_seat.specs.Numbered.{CanBeSent, numbered_from};
ghost use Rattle.craq_seat.specs.Taken.{TakesEvent, TakesTransition};
ghost use Rattle.craq_cell_chain.specs.Sending.{NamesNode, receipt_in, sent_of};

use crate::copying::copy_of;
use crate::posted::Posted;
use craq_model::{Event, Step};
use craq_names::{Pass, Refusal};
use craq_node::Core;
use craq_seat::{BookCell, BookEvent, CallReceipt, Desk, Receipt, numbered};
use std::alloc::{AllocError, Global};

/// A step that a cell took, and the receipt that names it.
#[derive(Debug, Drop)]
pub struct CellStep {
    pub receipt: Receipt,
    pub step: Step,
}

/// States that a cell keeps the invariants of its type. Does nothing.
fn keeps_type<C: Core>(desk: &Desk<C>)
    ensures { IsKept C.represents desk.now.cell }
{
    let _ = desk.cell().journal();
}

/// Appends the messages of a step, each named by the step's receipt, to those that were sent. Adds
/// nothing when out of memory.
fn post_messages(
    alloc: Global,
    step: &Step,
    receipt: &Receipt,
    posted: &mut Posted,
) -> Result<(), AllocError>
    requires { CanBeSent receipt.now step.now.outs }
    ensures ok { OnOk result (posted.new ≡ posted.old ++ numbered_from 0 receipt.now (sent_in step.now.outs)) }
    ensures err { OnErr result (posted.new ≡ posted.old) }
{
    let messages = numbered(alloc, step, *receipt)?;
    posted.add(messages)
}

/// Appends the messages of a step, each named by the step's receipt, to those that were sent, and
/// returns a copy of the step. Adds nothing when out of memory.
fn post(
    alloc: Global,
    step: &Step,
    receipt: &Receipt,
    posted: &mut Posted,
) -> Result<CellStep, AllocError>
    requires { CanBeSent receipt.now step.now.outs }
    ensures receipt { IfOk result (λ taken. taken.receipt ≡ receipt.now) }
    ensures step { IfOk result (λ taken. taken.step ≡ step.now) }
    ensures sent { IfOk result (λ taken. posted.new ≡ posted.old ++ sent_of taken) }
    ensures err { OnErr result (posted.new ≡ posted.old) }
{
    let copy = copy_of(alloc, step)?;
    match post_messages(alloc, step, receipt, posted) {
        Err(error) => {
            drop(copy);
            Err(error)
        }
        Ok(()) => Ok(CellStep {
            receipt: *receipt,
            step: copy,
        }),
    }
}

/// Takes one step of a node at its desk. Appends its messages to those that were sent, and the
/// receipts of the calls that it answers to `calls`.
///
/// Refused as the desk refuses it, with nothing changed, or when out of memory: then the step may
/// have been taken, and its messages and call receipts may be lost.
pub fn step_node<C: Core>(
    alloc: Global,
    desk: &mut Desk<C>,
    event: Event,
    pass: Pass,
    posted: &mut Posted,
    calls: &mut Vec<CallReceipt>,
) -> Result<CellStep, Refusal>
    requires { CanArrive event }
    ensures step { (p : Plain) → C.represents desk.old.cell.inside p → (result ≡ Err Refusal.Memory) ⊎ TakesEvent C.represents desk.new.cell (with_inside desk.old.cell p) event pass (receipt_in result) }
    ensures last { IfOk result (λ taken. desk.new.cell.last ≡ Some taken.step) }
    ensures sent { IfOk result (λ taken. posted.new ≡ posted.old ++ sent_of taken) }
    ensures same { OnErr result (posted.new ≡ posted.old) }
    ensures named { IfOk result (λ taken. taken.receipt.node ≡ desk.old.cell.opening.name.node) }
{
    keeps_type(desk);
    let (receipt, made) = desk.take(alloc, event, pass)?;
    match made {
        Err(_) => Err(Refusal::Memory),
        Ok(mut made) => {
            calls.append(&mut made)?;
            let step = desk.cell().last().unwrap();
            let taken = post(alloc, step, &receipt, posted)?;
            Ok(taken)
        }
    }
}

/// Takes one step of the master at its cell, and appends its messages to those that were sent.
/// Refused as the cell refuses it, with nothing changed, or when out of memory: then the step may
/// have been taken, and its messages may be lost.
pub fn step_book(
    alloc: Global,
    book: &mut BookCell,
    event: BookEvent,
    pass: Pass,
    posted: &mut Posted,
) -> Result<CellStep, Refusal>
    ensures step { (result ≡ Err Refusal.Memory) ⊎ TakesTransition book.old book.new event pass (receipt_in result) }
    ensures last { IfOk result (λ taken. book.new.last ≡ Some taken.step) }
    ensures sent { IfOk result (λ taken. posted.new ≡ posted.old ++ sent_of taken) }
    ensures same { OnErr result (posted.new ≡ posted.old) }
    ensures joins { OnOk result (NamesNode event) }
    ensures named { IfOk result (λ taken. taken.receipt.node ≡ book.old.opening.name.node) }
{
    let receipt = book.take(alloc, event, pass)?;
    let step = book.last().unwrap();
    let taken = post(alloc, step, &receipt, posted)?;
    Ok(taken)
}
