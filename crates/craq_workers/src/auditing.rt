//! `Store::audit`: audits a chain of a running store while all its nodes are locked; for a caller
//! that has receipts.
ghost use Rattle.std.specs.Prelude.{◌≡◌, ◌≢◌, ℕ, IfOk, length};
ghost use Rattle.craq_workers.specs.Stores.{AuditAnswers};

use crate::store::Store;
use craq_audit::Audit;
use craq_ghost_history::Named;
use craq_locked_chain::{ChainBook, LockedChain};
use craq_names::{ChainId, Refusal};
use craq_node::Core;
use craq_running_node::{RunningNode, SeatedNode};
use craq_seat::CallReceipt;
use craq_store_parts::{Gate, StoreHistory};
use std::alloc::{AllocError, Global};
use std::sync::{Arc, MutexGuard, Wait};

/// Locks all nodes, in order. Fails only when out of memory, and then holds no lock.
fn lock_all<'a, R: Wait, C: Core + Named>(
    rt: &R,
    alloc: Global,
    nodes: &'a [Arc<RunningNode<C>>],
) -> Result<Vec<MutexGuard<'a, SeatedNode<C>>>, AllocError>
    ensures { IfOk result (λ seats. length seats.items ≡ length nodes.now) }
{
    let mut seats = Vec::new(alloc);
    for node in nodes {
        seats.push(node.lock(rt))?;
    }
    Ok(seats)
}

/// Returns the cells of a chain: its master's, whose lock is held, and those of these nodes, which
/// are locked here. Fails only when out of memory. An audit locks nodes nowhere else.
fn lock_chain<'b, 's, R: Wait, C: Core + Named>(
    rt: &R,
    alloc: Global,
    history: &StoreHistory<C>,
    book: &'b mut ChainBook<C>,
    nodes: &'s [Arc<RunningNode<C>>],
) -> Result<LockedChain<'b, 's, C>, AllocError>
    ensures book { IfOk result (λ held. held.book ≡ book.old) }
    ensures cells { IfOk result (λ held. length held.cells ≡ length nodes.now) }
{
    let seats = lock_all(rt, alloc, nodes)?;
    LockedChain::new(alloc, history, book, seats)
}

impl<C: Core + Named + Send + 'static, G: Gate + Send + Sync + 'static> Store<C, G> {
    /// Audits a chain: merges the journals of its cells, and looks for the calls of these receipts
    /// in them (`LockedChain::audit`). Its master and all nodes that it ever had are locked
    /// meanwhile. Changes nothing.
    ///
    /// Refused for the first of these that applies: `UnknownChain`; `JournalOff` if the store keeps
    /// no journals; `WrongNode` if the lock holds the master of another chain; `Memory` if there is
    /// no room for the list of the nodes; then as `LockedChain::audit` refuses. Never answers
    /// `NoSender`.
    pub fn audit<R: Wait>(
        &self,
        rt: &R,
        chain: ChainId,
        receipts: &[CallReceipt],
    ) -> Result<Audit, Refusal>
        ensures answers { AuditAnswers C.represents self.now chain receipts.now result }
        ensures sent { IfOk result (λ found. (node index : ℕ) → found ≢ Audit.NoSender node index) }
    {
        let place = self.shared.chain(chain)?;
        if !self.has_journals() {
            return Err(Refusal::JournalOff);
        }
        let mut book = place.book.lock(rt);
        if !place.has_opened(book.cell().opening()) {
            book.cell().journal();
            return Err(Refusal::WrongNode);
        }
        let nodes = place.all_nodes(rt, self.alloc)?;
        let history = &self.shared.history;
        lock_chain(rt, self.alloc, history, &mut book, nodes.as_slice())?.audit(receipts)
    }
}
