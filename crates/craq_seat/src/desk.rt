//! `Desk`: a cell and its pending calls, whose replies it returns; used by `craq_running_node`,
//! `craq_workers` and `craq_cell_chain`.
ghost use Rattle.std.specs.Prelude.{◌≡◌, [], IfOk, IfSome, IsNone, IsOk, OnErr};
ghost use Rattle.craq_model.specs.Plain.{Plain};
ghost use Rattle.craq_node.specs.Represented.{CanArrive, IsFree};
ghost use Rattle.craq_seat.specs.Calls.{CallsOf, receipt_in};
ghost use Rattle.craq_seat.specs.Cells.{receipt_of, with_inside};
ghost use Rattle.craq_seat.specs.Kept.{IsKept};
ghost use Rattle.craq_seat.specs.Stamps.{event_stamp, next_stamp};
ghost use Rattle.craq_seat.specs.Taken.{TakesEvent};

use crate::calls::{TakenStep, ask_of, serve_calls};
use crate::{Call, CallReceipt, Cell, Receipt, TicketQueue};
use craq_model::Event;
use craq_names::{Pass, Refusal};
use craq_node::Core;
use std::alloc::{AllocError, Global};
use std::marker::Model;

/// A node's cell and the calls that wait at it. Only a desk makes call receipts.
#[derive(Drop)]
pub struct Desk<C: Core> {
    cell: Cell<C>,
    waiting: TicketQueue<Call>,
}

impl<C: Core> Model for Desk<C> {
    ghost use Rattle.craq_seat.specs.Calls.{Desked};

    ghost Value = { Desked C };

    ghost view = { λ d. record { cell = d.cell; waiting = d.waiting.items } };
}

impl<C: Core> Desk<C> {
    /// Makes the desk of a cell, without waiting calls. Never allocates.
    pub fn new(alloc: Global, cell: Cell<C>) -> Self
        ensures { result ≡ record { cell = cell; waiting = [] } }
    {
        Desk {
            cell,
            waiting: TicketQueue::new(alloc),
        }
    }

    /// Returns the cell. Never allocates.
    pub fn cell(&self) -> &Cell<C>
        ensures { result.now ≡ self.now.cell }
    {
        &self.cell
    }

    /// Takes one step of the cell, with the result of `Cell::take`; on its refusals nothing is
    /// changed. A request that the node accepts becomes a waiting call. Returns the receipts of the
    /// step's replies to waiting calls, in the step's order; an answered call waits no more. If
    /// memory runs out after the step, the inner result is an error, and the calls that the step
    /// accepted or answered are dropped.
    pub fn take(
        &mut self,
        alloc: Global,
        event: Event,
        pass: Pass,
    ) -> Result<(Receipt, Result<Vec<CallReceipt>, AllocError>), Refusal>
        requires { CanArrive event }
        ensures step { (p : Plain) → C.represents self.old.cell.inside p → TakesEvent C.represents self.new.cell (with_inside self.old.cell p) event pass (receipt_in result) }
        ensures receipt { IfOk result (λ r. r.0 ≡ receipt_of self.new.cell) }
        ensures kept { IsKept C.represents self.new.cell }
        ensures free { (p : Plain) → C.represents self.old.cell.inside p → IsFree p event → IsNone self.old.cell.journal → IsOk (next_stamp self.old.cell.stamp pass (event_stamp event)) → IsOk result }
        ensures calls { IfOk result (λ r. IfSome self.new.cell.last (λ step. CallsOf self.old.waiting self.new.waiting event r.0 pass step r.1)) }
        ensures same { OnErr result (self.new.waiting ≡ self.old.waiting) }
    {
        let asked = ask_of(alloc, &event);
        match self.cell.take(alloc, event, pass) {
            Err(refusal) => {
                drop(asked);
                Err(refusal)
            }
            Ok(receipt) => match self.cell.last() {
                None => {
                    drop(asked);
                    Ok((receipt, Ok(Vec::new(alloc))))
                }
                Some(step) => {
                    let taken = TakenStep {
                        step,
                        receipt: &receipt,
                        pass,
                    };
                    let calls = serve_calls(alloc, &mut self.waiting, asked, &taken);
                    Ok((receipt, calls))
                }
            },
        }
    }
}
