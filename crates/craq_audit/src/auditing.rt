//! `audit`, the function of the crate: its tests in order, and the merge that it returns; used by
//! `craq_locked_chain`.
ghost use Rattle.std.specs.Prelude.{◌≡◌};
ghost use Rattle.craq_audit.specs.Audited.{Audits};
ghost use Rattle.craq_audit.specs.Lookups.{cells_of};

use crate::Audit;
use crate::belonging::are_of_chain;
use crate::journals::all_keep;
use crate::merging::merged;
use crate::receipts::first_unheld;
use crate::senders::first_unsent;
use craq_names::Refusal;
use craq_node::Core;
use craq_seat::{BookCell, CallReceipt, Cell};
use std::alloc::Global;

/// Audits a chain: its master's cell, the cells of all nodes that ever were members, in any order,
/// and call receipts of its desks. Tests what the journals hold, and changes nothing (the merge and
/// its tests are this project's profile).
///
/// Returns the first of these that applies:
/// 1. `JournalOff` if one of the cells keeps no journal.
/// 2. `WrongNode` if the cells are not those of the master's chain, one for each id that ever was a
///   member: a first member's opened with the first membership at stamp 0, a later one's without a
///   membership at the stamp of its join; or if a removal had another receipt than that of the step
///   in which its node stopped.
/// 3. `NoSender` for the first delivery (node ids ascending, then index) of a message that is not,
///   with its stamp, its index and its content, in a step of its sender's journal of a lower stamp.
/// 4. `NoReceipt` for the first call receipt whose request, under its ticket and its pass, or whose
///   reply is not in its node's journal at the receipt's stamps.
/// 5. `Memory` if an allocation failed, or if more messages were sent than fit in any memory.
///
/// Otherwise `Merged`: the steps of all cells by stamp and, under one stamp, by node. That is a run
/// of the chain, and `explain_run` gives a valid explanation of it. Each call receipt is a request
/// and its reply in the run; the request follows each step whose stamp its pass covers.
///
/// Only the merge allocates. It makes about n log n comparisons for n steps; a message's sender is
/// looked for in one cell after another.
pub fn audit<C: Core>(
    alloc: Global,
    book: &BookCell,
    cells: &[&Cell<C>],
    receipts: &[CallReceipt],
) -> Result<Audit, Refusal>
    ensures { Audits book.now (cells_of cells.now) receipts.now result }
{
    if !all_keep(book, cells) {
        return Err(Refusal::JournalOff);
    }
    if !are_of_chain(book, cells) {
        return Err(Refusal::WrongNode);
    }
    if let Some((node, index)) = first_unsent(book, cells) {
        return Ok(Audit::NoSender(node, index));
    }
    if let Some(index) = first_unheld(cells, receipts) {
        return Ok(Audit::NoReceipt(index));
    }
    let run = merged(alloc, book, cells)?;
    Ok(Audit::Merged(run))
}
