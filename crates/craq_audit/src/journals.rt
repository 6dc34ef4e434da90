//! The records of cells; used by the modules that test and merge them.
ghost use Rattle.std.specs.Prelude.{◌≡◌, ◌↔◌, Some, IfSome, IsSome, IsTrue, Contains};
ghost use Rattle.std.specs.List.{AllByRecursion};
ghost use Rattle.std.specs.Option.{option_copied};
ghost use Rattle.std.specs.Borrow.{Bor};
ghost use Rattle.craq_model.specs.declared.ask.Event.{Event};
ghost use Rattle.craq_seat.specs.declared.journal.Record.{Record};
ghost use Rattle.craq_seat.specs.Books.{IsBook};
ghost use Rattle.craq_seat.specs.Cells.{Celled};
ghost use Rattle.craq_seat.specs.Kept.{IsKept};
ghost use Rattle.craq_audit.specs.Audited.{AllKeep};
ghost use Rattle.craq_audit.specs.Journals.{records_in};
ghost use Rattle.craq_audit.specs.Lookups.{KeepsJournal, KeepsType, Rise, cells_of};

use craq_model::Event;
use craq_names::Stamp;
use craq_node::Core;
use craq_seat::{BookCell, BookEvent, Cell, Record};

/// Returns the records of a node's journal, none if its cell keeps no journal.
pub(crate) fn records_of<C: Core>(cell: &Cell<C>) -> &[Record<Event>]
    ensures records { result.now ≡ records_in cell.now.journal }
    ensures rising { Rise result.now }
{
    match cell.journal() {
        None => &[],
        Some(records) => records,
    }
}

/// Returns the records of the master's journal, none if its cell keeps no journal.
pub(crate) fn book_records(book: &BookCell) -> &[Record<BookEvent>]
    ensures records { result.now ≡ records_in book.now.journal }
    ensures rising { Rise result.now }
{
    match book.journal() {
        None => &[],
        Some(records) => records,
    }
}

/// Returns the record of this stamp, if there is one. Looks at few of the records, whose stamps
/// ascend.
pub(crate) fn record_at<E>(records: &[Record<E>], stamp: Stamp) -> Option<&Record<E>>
    requires { Rise records.now }
    ensures found { IfSome result (λ r. Contains records.now r.now × (r.now.stamp ≡ stamp)) }
    ensures only { (r : Record E) → Contains records.now r → r.stamp ≡ stamp → option_copied result ≡ Some r }
{
    let place = records.partition_point(|record| record.stamp < stamp);
    if place >= records.len() {
        return None;
    }
    let record = &records[place];
    if record.stamp == stamp {
        Some(record)
    } else {
        None
    }
}

/// Returns true if each of the cells keeps a journal.
fn are_kept<C: Core>(cells: &[&Cell<C>]) -> bool
    ensures { IsTrue result ↔ AllByRecursion KeepsJournal cells.now }
{
    for cell in cells {
        if cell.journal().is_none() {
            return false;
        }
    }
    true
}

/// Returns true if the master's cell and all of the cells keep journals.
pub(crate) fn all_keep<C: Core>(book: &BookCell, cells: &[&Cell<C>]) -> bool
    ensures { IsTrue result ↔ AllKeep book.now (cells_of cells.now) }
{
    book.journal().is_some() && are_kept(cells)
}

/// States that the cells keep the invariants of their type. Does nothing.
pub(crate) fn keep_cells<C: Core>(cells: &[&Cell<C>])
    ensures { AllByRecursion (KeepsType C.represents) cells.now }
{
    for cell in cells {
        cell.journal();
    }
}

/// States that the master's cell keeps the invariants of its type. Does nothing.
pub(crate) fn keep_book(book: &BookCell)
    ensures { IsBook book.now }
{
    book.journal();
}
