//! `LockedChain`: a chain's cells whose locks are held, as one value that lends them; used to audit
//! a running store.
ghost use Rattle.std.specs.Prelude.{◌≡◌, ◌≢◌, ◌≤◌, ℕ, [], IfOk, length, map, vec_capacity, vec_len};
ghost use Rattle.std.specs.List.{AllByRecursion};
ghost use mathlib.Core.List.{IsPrefix};
ghost use Rattle.craq_audit.specs.Audited.{Audits};
ghost use Rattle.craq_audit.specs.Lookups.{cells_of};
ghost use Rattle.craq_locked_chain.specs.Held.{AreOwn, HaveHistory, cell_in};
ghost use Rattle.craq_seat.specs.Kept.{IsKept};
ghost use Rattle.craq_store_parts.specs.Recorded.{HadLinesIn, HasLinesIn};

use crate::chain_book::ChainBook;
use craq_audit::{Audit, audit};
use craq_ghost_history::Named;
use craq_names::Refusal;
use craq_node::Core;
use craq_running_node::SeatedNode;
use craq_seat::{BookCell, CallReceipt, Cell};
use craq_store_parts::{StoreHistory, StoreToken};
use std::alloc::{AllocError, Global};
use std::marker::Model;
use std::sync::MutexGuard;

/// The cells of a chain: its master's, lent by the holder of its lock, and its nodes', each under
/// its lock. While this value exists, they take no step. A contract sees these cells, that each of
/// their steps is their own, and that one history has them all. No contract can say which cell is
/// behind a free lock.
#[derive(Drop)]
pub struct LockedChain<'b, 's, C: Core + Named> {
    alloc: Global,
    book: &'b BookCell,
    seats: Vec<MutexGuard<'s, SeatedNode<C>>>,
    /// Room for the list of the cells, for an audit.
    room: Vec<&'s Cell<C>>,
}

impl<'b, 's, C: Core + Named> Model for LockedChain<'b, 's, C> {
    ghost use Rattle.std.specs.Prelude.{◌≡◌, ◌≤◌, [], length, map, vec_capacity};
    ghost use Rattle.craq_locked_chain.specs.Held.{AreOwn, Held, cell_in};

    ghost Value = { Held C };

    ghost view = { λ h. record { book = h.book.now; cells = map cell_in h.seats.items } };

    ghost invariant = { λ h. AreOwn C.represents (record { book = h.book.now; cells = map cell_in h.seats.items }) × (h.room.items ≡ []) × (length h.seats.items ≤ vec_capacity h.room) };
}

/// States that the cells behind held locks keep the invariants of their type. Does nothing.
fn keep_seats<C: Core + Named>(seats: &[MutexGuard<'_, SeatedNode<C>>])
    ensures { AllByRecursion (IsKept C.represents) (map cell_in seats.now) }
{
    for seat in seats {
        seat.desk.cell().journal();
    }
}

/// Lists the cells behind these held locks, in the order of their seats. The list has room for
/// them, so it never allocates.
fn cells_in<'a, 's, C: Core + Named>(
    room: Vec<&'a Cell<C>>,
    seats: &'a [MutexGuard<'s, SeatedNode<C>>],
) -> Vec<&'a Cell<C>>
    requires empty { room.items ≡ [] }
    requires room { length seats.now ≤ vec_capacity room }
    ensures { cells_of result.items ≡ map cell_in seats.now }
{
    let mut cells = room;
    for seat in seats {
        cells.push_reserved(seat.desk.cell());
    }
    cells
}

/// Lets the token see all steps of the nodes behind these held locks.
fn learn_from<C: Core + Named>(
    history: &StoreHistory<C>,
    token: &mut StoreToken<C>,
    seats: &mut [MutexGuard<'_, SeatedNode<C>>],
)
    ensures later { IsPrefix token.old token.new }
    ensures seen { AllByRecursion (HadLinesIn token.new) (map cell_in seats.new) }
    ensures same { map cell_in seats.new ≡ map cell_in seats.old }
{
    for seat in seats.iter_mut() {
        let own = seat.desk.token(history);
        token.learn(history, own);
    }
}

/// Lets the nodes behind these held locks see all that the token has seen, their own steps among it.
/// So each journal has its node's lines there.
fn show_to<C: Core + Named>(
    history: &StoreHistory<C>,
    token: &mut StoreToken<C>,
    seats: &mut [MutexGuard<'_, SeatedNode<C>>],
)
    requires { AllByRecursion (HadLinesIn token.old) (map cell_in seats.old) }
    ensures lines { AllByRecursion (HasLinesIn token.old) (map cell_in seats.new) }
    ensures same { map cell_in seats.new ≡ map cell_in seats.old }
    ensures token { token.new ≡ token.old }
{
    for seat in seats.iter_mut() {
        seat.desk.see(history, token);
    }
}

/// Shows that one history has the steps of a master, whose lock is held, and of the nodes behind
/// these held locks. Changes none of them.
fn show_history<C: Core + Named>(
    history: &StoreHistory<C>,
    book: &mut ChainBook<C>,
    seats: &mut [MutexGuard<'_, SeatedNode<C>>],
)
    ensures shown { HaveHistory (record { book = book.old; cells = map cell_in seats.old }) }
    ensures book { book.new ≡ book.old }
    ensures cells { map cell_in seats.new ≡ map cell_in seats.old }
{
    let mut token = book.token(history);
    learn_from(history, &mut token, seats);
    book.see(history, &mut token);
    show_to(history, &mut token, seats);
}

impl<'b, 's, C: Core + Named> LockedChain<'b, 's, C> {
    /// Makes the value of a master's cell, whose lock is held, and those behind these locks, in the
    /// order of their seats, with room for their audit. Fails only when out of memory; the locks of
    /// the nodes are then released.
    #[tactic(auto, using(crate::proofs::Guards::same_history))]
    pub fn new(
        alloc: Global,
        history: &StoreHistory<C>,
        book: &'b mut ChainBook<C>,
        seats: Vec<MutexGuard<'s, SeatedNode<C>>>,
    ) -> Result<Self, AllocError>
        ensures book { IfOk result (λ held. held.book ≡ book.old) }
        ensures cells { IfOk result (λ held. held.cells ≡ map cell_in seats.entry.items) }
    {
        let mut seats = seats;
        show_history(history, book, seats.as_mut_slice());
        let room = Vec::with_capacity(alloc, seats.len())?;
        let book = book.cell();
        book.journal();
        keep_seats(seats.as_slice());
        Ok(LockedChain {
            alloc,
            book,
            seats,
            room,
        })
    }

    /// Returns the master's cell. Never allocates.
    pub fn book(&self) -> &BookCell
        ensures { result.now ≡ self.now.book }
    {
        self.book
    }

    /// Returns the nodes' cells, in the order of their seats. Fails only when out of memory.
    pub fn cells(&self) -> Result<Vec<&Cell<C>>, AllocError>
        ensures { IfOk result (λ cells. cells_of cells.items ≡ self.now.cells) }
    {
        let room = Vec::with_capacity(self.alloc, self.seats.len())?;
        Ok(cells_in(room, self.seats.as_slice()))
    }

    /// Audits these cells with call receipts, exactly as `craq_audit::audit` does: returns their
    /// journals as one run, or the first fault. Releases the locks of the nodes, and leaves the
    /// cells unchanged. With `Merged` the run is the merge of the journals and a run of the chain,
    /// which `explain_run` explains, and each receipt is a request and its reply in that run.
    ///
    /// Refused as `craq_audit::audit` is. Never answers `NoSender`: the store's history has each
    /// step of these cells after the sending of the message that it brought.
    #[tactic(auto, using(crate::proofs::Sent::never_unsent))]
    pub fn audit(self, receipts: &[CallReceipt]) -> Result<Audit, Refusal>
        ensures audited { Audits self.entry.book self.entry.cells receipts.now result }
        ensures own { AreOwn C.represents self.entry }
        ensures sent { (node index : ℕ) → result ≢ Ok (Audit.NoSender node index) }
    {
        let LockedChain {
            alloc,
            book,
            seats,
            room,
        } = self;
        let cells = cells_in(room, seats.as_slice());
        audit(alloc, book, cells.as_slice(), receipts)
    }
}
