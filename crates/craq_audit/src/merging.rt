//! The journals of a chain as one run; used by `audit` once its tests have passed.
ghost use Rattle.std.specs.Prelude.{◌≡◌, ◌≤◌, ℕ, List, flat_map, length, map, IfOk, IfErr, OnOk};
ghost use Rattle.std.specs.List.{AllByRecursion};
ghost use Rattle.craq_names.specs.Limits.{greatest};
ghost use Rattle.craq_model.specs.declared.message.LinkMessage.{LinkMessage};
ghost use Rattle.craq_runs.specs.Chain.{sent_in};
ghost use Rattle.craq_runs.specs.Typed.{AreOfType, IsMoveOfType};
ghost use Rattle.craq_seat.specs.Merge.{AreInOrder, AtMaster, AtNode, MergedStep, move_among};
ghost use Rattle.craq_seat.specs.Audits.{IsHeld};
ghost use Rattle.craq_seat.specs.Calls.{Called};
ghost use Rattle.craq_seat.specs.Merge as merge;
ghost use Rattle.craq_merge.specs.Merged.{CanBeNumbered};
ghost use Rattle.craq_audit.specs.Audited.{IsAudited, CanBeAudited};
ghost use Rattle.craq_audit.specs.Journals.{AreSent, journals_of};
ghost use Rattle.craq_audit.specs.Lines.{IsArrivalIn, IsSentIn, sums_from, taken_among};
ghost use Rattle.craq_audit.specs.Lookups.{cells_of};

use crate::belonging::members_of;
use crate::copies::copied_step;
use crate::journals::{keep_book, keep_cells};
use crate::lines::{Happened, LentLine, lines_of};
use crate::numbers::{message_number, sums_of};
use craq_chain::keep_limits;
use craq_model::{Event, Step};
use craq_names::{Copied, Items, NodeId, Refusal};
use craq_node::Core;
use craq_runs::{Move, Run, Taken};
use craq_seat::{BookCell, BookEvent, Cell};
use std::alloc::{AllocError, Global};

/// Returns the move of an event at a node.
fn node_move(
    alloc: Global,
    lines: &[LentLine],
    sums: &[u64],
    node: NodeId,
    event: &Event,
) -> Result<Move, AllocError>
    requires order { AreInOrder lines.now }
    requires sums { sums.now ≡ sums_from 0 lines.now }
    requires fits { length (flat_map (λ (l : MergedStep). sent_in l.step.outs) lines.now) ≤ greatest }
    requires sent { (m : LinkMessage) → event.now ≡ Event.Deliver m → IsSentIn lines.now m }
    ensures { IfOk result (λ m. m ≡ move_among lines.now node (AtNode event.now)) }
{
    match event {
        Event::Ask(ask) => Ok(Move::Ask {
            node,
            ask: ask.copied(alloc)?,
        }),
        Event::Deliver(message) => Ok(Move::Deliver(message_number(lines, sums, message))),
        Event::Tick => Ok(Move::Tick(node)),
        Event::Stop => Ok(Move::Stop(node)),
    }
}

/// Returns the move of an event at the master.
fn book_move(event: &BookEvent) -> Move
    ensures { (lines : List MergedStep) (node : ℕ) → result ≡ move_among lines node (AtMaster event.now) }
{
    match event {
        BookEvent::Join(id) => Move::Join(*id),
        BookEvent::Remove { stopped, .. } => Move::Remove(stopped.name().node),
        BookEvent::Tick => Move::Tick(NodeId::new(0)),
    }
}

/// Returns the move of a line.
fn move_of(
    alloc: Global,
    lines: &[LentLine],
    sums: &[u64],
    line: &LentLine,
) -> Result<Move, AllocError>
    requires order { AreInOrder lines.now }
    requires sums { sums.now ≡ sums_from 0 lines.now }
    requires fits { length (flat_map (λ (l : MergedStep). sent_in l.step.outs) lines.now) ≤ greatest }
    requires sent { IsArrivalIn lines.now line.now }
    ensures { IfOk result (λ m. m ≡ move_among lines.now line.now.node line.now.event) }
{
    match line.event() {
        Happened::AtNode(event) => node_move(alloc, lines, sums, line.node(), event),
        Happened::AtMaster(event) => Ok(book_move(event)),
    }
}

/// Returns the move of a line with its step.
fn taken_of(
    alloc: Global,
    lines: &[LentLine],
    sums: &[u64],
    line: &LentLine,
) -> Result<Taken, AllocError>
    requires order { AreInOrder lines.now }
    requires sums { sums.now ≡ sums_from 0 lines.now }
    requires fits { length (flat_map (λ (l : MergedStep). sent_in l.step.outs) lines.now) ≤ greatest }
    requires sent { IsArrivalIn lines.now line.now }
    ensures taken { IfOk result (λ t. t ≡ taken_among lines.now line.now) }
    ensures typed { IfOk result (λ t. IsMoveOfType t.chosen) }
{
    let chosen = move_of(alloc, lines, sums, line)?;
    keep_limits(&chosen);
    Ok(Taken {
        chosen,
        step: copied_step(alloc, line.step())?,
    })
}

/// Returns the moves of the lines with their steps.
fn moves_of(alloc: Global, lines: &[LentLine], sums: &[u64]) -> Result<Vec<Taken>, AllocError>
    requires order { AreInOrder lines.now }
    requires sums { sums.now ≡ sums_from 0 lines.now }
    requires fits { length (flat_map (λ (l : MergedStep). sent_in l.step.outs) lines.now) ≤ greatest }
    requires sent { AllByRecursion (IsArrivalIn lines.now) lines.now }
    ensures moves { IfOk result (λ moves. moves.items ≡ map (taken_among lines.now) lines.now) }
    ensures typed { IfOk result (λ moves. AreOfType moves.items) }
{
    let mut moves = Vec::new(alloc);
    for line in lines {
        moves.push(taken_of(alloc, lines, sums, line)?)?;
    }
    Ok(moves)
}

/// Returns the run of these lines, from the first members. `Memory` if an allocation failed, or if
/// more messages were sent than fit in any memory.
fn run_of(alloc: Global, members: &[NodeId], lines: &[LentLine]) -> Result<Run, Refusal>
    requires order { AreInOrder lines.now }
    requires sent { AllByRecursion (IsArrivalIn lines.now) lines.now }
    ensures run { IfOk result (λ run. run ≡ merge.run_of members.now lines.now) }
    ensures numbered { OnOk result (CanBeNumbered lines.now) }
    ensures typed { IfOk result (λ run. AreOfType run.moves) }
    ensures err { IfErr result (λ e. e ≡ Refusal.Memory) }
{
    let sums = sums_of(alloc, lines)?;
    let moves = moves_of(alloc, lines, sums.as_slice())?;
    let members = Vec::from_slice(alloc, members)?;
    Ok(Run {
        members: Items::of(members),
        moves: Items::of(moves),
    })
}

/// Returns the journals of a chain's cells as one run, if each message that arrived was sent. Fails
/// only when out of memory (`Memory`).
pub(crate) fn merged<C: Core>(
    alloc: Global,
    book: &BookCell,
    cells: &[&Cell<C>],
) -> Result<Run, Refusal>
    requires audited { CanBeAudited book.now (cells_of cells.now) }
    requires sent { AreSent (journals_of book.now (cells_of cells.now)) }
    ensures run { (receipts : List Called) → IfOk result (λ run. AllByRecursion (IsHeld (journals_of book.now (cells_of cells.now))) receipts → IsAudited book.now.opening.name.chain (journals_of book.now (cells_of cells.now)) receipts run) }
    ensures err { IfErr result (λ e. e ≡ Refusal.Memory) }
{
    keep_book(book);
    keep_cells(cells);
    let lines = lines_of(alloc, book, cells)?;
    let run = run_of(alloc, members_of(book.opening()), lines.as_slice())?;
    Ok(run)
}
