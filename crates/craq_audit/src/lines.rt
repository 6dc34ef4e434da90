//! All steps of a chain, borrowed from its journals; used by `merging` and `numbers`.
ghost use Rattle.std.specs.Prelude.{◌≡◌, ◌++◌, map, IfOk, OnOk, IsPermutation};
ghost use Rattle.craq_seat.specs.Merge.{all_lines, book_line, node_line};
ghost use Rattle.craq_merge.specs.Sorted.{AreSorted};
ghost use Rattle.craq_audit.specs.Journals.{journals_of, records_in};
ghost use Rattle.craq_audit.specs.Lookups.{cells_of};

use crate::journals::{book_records, records_of};
use craq_model::{Event, Step};
use craq_names::{NodeId, Stamp};
use craq_node::Core;
use craq_seat::{BookCell, BookEvent, Cell, Record};
use std::alloc::{AllocError, Global};
use std::marker::Model;

/// An event at a node, or at the master.
#[derive(Clone, Copy)]
pub(crate) enum Happened<'a> {
    AtNode(&'a Event),
    AtMaster(&'a BookEvent),
}

/// A step of the chain, borrowed from the journal of its node; node 0 is the master.
#[derive(Drop)]
pub(crate) struct LentLine<'a> {
    node: NodeId,
    stamp: Stamp,
    event: Happened<'a>,
    step: &'a Step,
}

impl<'a> Model for LentLine<'a> {
    ghost use Rattle.craq_seat.specs.Merge.{MergedStep};
    ghost use Rattle.craq_audit.specs.Lines.{happening};

    ghost Value = { MergedStep };

    ghost view = { λ l. record { node = l.node; stamp = l.stamp; event = happening l.event; step = l.step.now } };
}

impl<'a> LentLine<'a> {
    ghost use Rattle.craq_audit.specs.Lines.{happening};

    /// Returns the node that took the step.
    pub(crate) fn node(&self) -> NodeId
        ensures { result ≡ self.now.node }
    {
        self.node
    }

    /// Returns the step's stamp.
    pub(crate) fn stamp(&self) -> Stamp
        ensures { result ≡ self.now.stamp }
    {
        self.stamp
    }

    /// Returns the event.
    pub(crate) fn event(&self) -> Happened<'a>
        ensures { happening result ≡ self.now.event }
    {
        self.event
    }

    /// Returns the step.
    pub(crate) fn step(&self) -> &'a Step
        ensures { result.now ≡ self.now.step }
    {
        self.step
    }
}

/// Adds the steps of the master's journal.
fn add_book<'a>(
    lines: &mut Vec<LentLine<'a>>,
    records: &'a [Record<BookEvent>],
) -> Result<(), AllocError>
    ensures { OnOk result (lines.new.items ≡ lines.old.items ++ map book_line records.now) }
{
    for record in records {
        lines.push(LentLine {
            node: NodeId::new(0),
            stamp: record.stamp,
            event: Happened::AtMaster(&record.event),
            step: &record.step,
        })?;
    }
    Ok(())
}

/// Adds the steps of a node's journal.
fn add_node<'a>(
    lines: &mut Vec<LentLine<'a>>,
    node: NodeId,
    records: &'a [Record<Event>],
) -> Result<(), AllocError>
    ensures { OnOk result (lines.new.items ≡ lines.old.items ++ map (node_line node) records.now) }
{
    for record in records {
        lines.push(LentLine {
            node,
            stamp: record.stamp,
            event: Happened::AtNode(&record.event),
            step: &record.step,
        })?;
    }
    Ok(())
}

/// Returns all steps of the journals.
fn all_lent<'a, C: Core>(
    alloc: Global,
    book: &'a BookCell,
    cells: &'a [&'a Cell<C>],
) -> Result<Vec<LentLine<'a>>, AllocError>
    ensures { IfOk result (λ lines. lines.items ≡ all_lines (journals_of book.now (cells_of cells.now))) }
{
    let mut lines = Vec::new(alloc);
    add_book(&mut lines, book_records(book))?;
    for cell in cells {
        add_node(&mut lines, cell.opening().name.node, records_of(cell))?;
    }
    Ok(lines)
}

/// Sorts the steps by stamp and, under one stamp, by node.
fn in_order<'a>(mut lines: Vec<LentLine<'a>>) -> Vec<LentLine<'a>>
    ensures same { IsPermutation lines.entry.items result.items }
    ensures sorted { AreSorted result.items }
{
    lines.sort_unstable_by_key(|line| (line.stamp.get(), line.node.get()));
    lines
}

/// Returns all steps of the journals, by stamp and, under one stamp, by node. Fails only when out
/// of memory.
pub(crate) fn lines_of<'a, C: Core>(
    alloc: Global,
    book: &'a BookCell,
    cells: &'a [&'a Cell<C>],
) -> Result<Vec<LentLine<'a>>, AllocError>
    ensures all { IfOk result (λ lines. IsPermutation (all_lines (journals_of book.now (cells_of cells.now))) lines.items) }
    ensures sorted { IfOk result (λ lines. AreSorted lines.items) }
{
    let lines = all_lent(alloc, book, cells)?;
    Ok(in_order(lines))
}
