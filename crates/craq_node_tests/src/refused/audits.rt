//! Audits the nodes that took a script's moves; called by `ways`.
use super::rows::{MOST_NODES, Row};
use super::teller::{Call, TRIES, Teller};
use crate::audits::cells_in;
use craq_audit::audit;
use craq_cell_chain::CellChain;
use craq_names::{NodeId, Refusal};
use craq_node::Core;
use craq_seat::{BookCell, CallReceipt, Cell, Seated};
use std::alloc::Global;
use std::sync::{MutexGuard, Wait};

/// Locks all nodes. A lock for which memory runs out is left out; the audit then lacks its node.
fn held_in<'a, C: Core, R: Wait>(
    rt: &R,
    alloc: Global,
    cells: &'a CellChain<C>,
) -> Vec<MutexGuard<'a, Seated<C>>> {
    let mut held = Vec::new(alloc);
    for id in 1..=MOST_NODES {
        if let Some((_, seat)) = cells.seat(NodeId::new(id)) {
            let _ = held.push(seat.lock(rt));
        }
    }
    held
}

/// Audits these nodes and prints the result.
fn tell<C: Core>(teller: Teller, book: &BookCell, cells: &[&Cell<C>], calls: &[CallReceipt]) {
    for _ in 0..TRIES {
        teller.begin(Call::Audit);
        let found = audit(teller.alloc, book, cells, calls);
        let is_done = teller.end(Call::Audit, matches!(&found, Err(Refusal::Memory)));
        if is_done {
            let _ = println!(teller.host; "{found:?}");
        }
        drop(found);
        if is_done {
            break;
        }
    }
}

/// Audits the nodes after the script, under the locks of all of them.
pub fn play<C: Core, R: Wait>(rt: &R, teller: Teller, row: &Row) -> Result<(), Refusal> {
    let (cells, calls): (CellChain<C>, Vec<CallReceipt>) = row.cells(rt, teller.alloc)?;
    let book = cells.book().lock(rt);
    let held = held_in(rt, teller.alloc, &cells);
    match &cells_in(teller.alloc, held.as_slice()) {
        Ok(seen) => {
            tell(teller, &book, seen.as_slice(), calls.as_slice());
            Ok(())
        }
        Err(_) => Err(Refusal::Memory),
    }
}
