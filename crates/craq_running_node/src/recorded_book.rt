//! `RecordedBook`: the cell of a chain's master whose steps are entries of the store's history; a
//! running chain has one under its lock.
ghost use Rattle.std.specs.Prelude.{◌≡◌, [], Some, IfOk, IfSome};
ghost use Rattle.craq_seat.specs.Books.{IsBook, members_of};
ghost use Rattle.craq_seat.specs.declared.journal.BookEvent.TheVariants as BookEvent;
ghost use Rattle.craq_seat.specs.Calls.{receipt_in};
ghost use Rattle.craq_seat.specs.Taken.{TakesTransition};
ghost use Rattle.craq_causality.specs.Causal.{IsOfStopped};
ghost use Rattle.craq_ghost_history.specs.declared.author.Author.TheVariants as Author;
ghost use Rattle.craq_store_history.specs.Chains.{IsHistory};
ghost use Rattle.craq_store_history.specs.Entries.{lines_in, members_in};
ghost use Rattle.craq_store_history.specs.Steps.{IsMasterAt};
ghost use Rattle.craq_store_parts.specs.Recorded.{BookHadLinesIn, BookHasLinesIn, HasStep, IsRecordedBook, IsUnmoved};
ghost use Rattle.craq_store_parts.specs.Witnessed.{IsWitnessedOrder};

use crate::joined_node::JoinedNode;
use craq_ghost_history::{Grant, Named};
use craq_names::{NodeId, NodeName, Pass, Refusal};
use craq_seat::{BookCell, BookEvent, Receipt};
use craq_store_history::HistoryEntry;
use craq_store_parts::{StoreHistory, StoreToken, StoreWriter};
use std::alloc::Global;
use std::marker::Model;
use std::snapshot::Snapshot;

/// The cell of a chain's master, with the right to the master's entries in the store's history.
/// Each step of the cell is such an entry, so the master is the replay of its entries. A contract
/// sees the cell.
#[derive(Drop)]
pub struct RecordedBook<N: Named> {
    cell: BookCell,
    writer: StoreWriter<N>,
}

impl<N: Named> Model for RecordedBook<N> {
    ghost use Rattle.craq_epochs.specs.Mastered.{Mastered};
    ghost use Rattle.craq_seat.specs.declared.journal.BookEvent.{BookEvent};
    ghost use Rattle.craq_seat.specs.Cells.{Celled};
    ghost use Rattle.craq_store_parts.specs.Recorded.{IsRecordedBook};

    ghost Value = { Celled Mastered BookEvent };

    ghost view = { λ b. b.cell };

    ghost invariant = { λ b. IsRecordedBook b.cell b.writer };
}

/// Copies an event of a master.
fn copy_of(event: &BookEvent) -> BookEvent
    ensures { result ≡ event.now }
{
    *event
}

impl<N: Named> RecordedBook<N> {
    /// Makes the cell of a master that is the replay of the entries which the writer has seen.
    pub fn new(cell: BookCell, writer: StoreWriter<N>) -> Self
        requires { IsRecordedBook cell writer }
        ensures { result ≡ cell }
    {
        RecordedBook { cell, writer }
    }

    /// Opens a chain in the history: adds the entry that it has the first members of this cell, which
    /// took no step yet.
    pub fn open(history: &StoreHistory<N>, cell: BookCell, writer: StoreWriter<N>) -> Self
        requires opened { IsUnmoved cell }
        requires author { writer.author ≡ Author.Node cell.opening.name.chain 0 }
        requires none { writer.seen ≡ [] }
        ensures { result ≡ cell }
    {
        cell.journal();
        let mut writer = writer;
        let entry = HistoryEntry::ChainOpened {
            chain: cell.opening().name.chain,
            members: Snapshot::of(&cell.config().members),
        };
        drop(writer.add(history, &entry));
        RecordedBook { cell, writer }
    }

    /// Returns the master's cell. Never allocates.
    pub fn cell(&self) -> &BookCell
        ensures { result.now ≡ self.now }
    {
        &self.cell
    }

    /// Takes one step of the master, exactly as `BookCell::take` does with the first pass, and adds it
    /// to the history, after all that the token has seen. Returns also a token that has seen the step.
    /// On a refusal nothing is changed and nothing added.
    pub fn take(
        &mut self,
        alloc: Global,
        history: &StoreHistory<N>,
        event: BookEvent,
        token: StoreToken<N>,
    ) -> Result<(Receipt, StoreToken<N>), Refusal>
        requires { IsOfStopped (lines_in self.old.opening.name.chain token) event }
        ensures step { TakesTransition self.old self.new event 0 (receipt_in result) }
        ensures kept { IsBook self.new }
        ensures opening { self.new.opening ≡ self.old.opening }
        ensures ordered { IfOk result (λ r. IsWitnessedOrder token self.old.opening.name.chain event r.0 r.1) }
    {
        let pass = Pass::start();
        match self.cell.take(alloc, copy_of(&event), pass) {
            Err(refusal) => {
                drop(token);
                Err(refusal)
            }
            Ok(receipt) => {
                let Some(step) = self.cell.last() else {
                    unreachable!()
                };
                let entry = HistoryEntry::MasterStep {
                    chain: self.cell.opening().name.chain,
                    stamp: self.cell.stamp(),
                    event,
                    pass,
                    step: Snapshot::of(step),
                };
                let reported = Grant::without_permit(token);
                let token = self.writer.add_with(history, &entry, reported);
                Ok((receipt, token))
            }
        }
    }

    /// Lets a node join, exactly as `BookCell::take` does, and adds the step to the history, after
    /// all that the token has seen. Returns also the node, and a token that has seen the step. On a
    /// refusal nothing is changed and nothing added.
    pub fn join(
        &mut self,
        alloc: Global,
        history: &StoreHistory<N>,
        node: NodeId,
        token: StoreToken<N>,
    ) -> Result<(Receipt, (JoinedNode<N>, StoreToken<N>)), Refusal>
        ensures step { TakesTransition self.old self.new (BookEvent.Join node) 0 (receipt_in result) }
        ensures kept { IsBook self.new }
        ensures opening { self.new.opening ≡ self.old.opening }
        ensures joined { IfOk result (λ r. r.1.0 ≡ record { chain = self.old.opening.name.chain; node = node }) }
        ensures ordered { IfOk result (λ r. IsWitnessedOrder token self.old.opening.name.chain (BookEvent.Join node) r.0 r.1.1) }
    {
        let chain = self.cell.opening().name.chain;
        match self.take(alloc, history, BookEvent::Join(node), token) {
            Ok((receipt, seen)) => {
                let mut seen = seen;
                let joined = JoinedNode::new(NodeName { chain, node }, seen.again(history));
                Ok((receipt, (joined, seen)))
            }
            Err(refusal) => Err(refusal),
        }
    }

    /// Returns a token that has seen all steps of the master, which is the replay of them; the last
    /// one is in it. The master's journal has its lines there, and the chain has the members of the
    /// master's opening.
    pub fn token(&mut self, history: &StoreHistory<N>) -> StoreToken<N>
        ensures same { self.new ≡ self.old }
        ensures at { IsMasterAt self.old.opening.name.chain result self.old.inside self.old.stamp }
        ensures last { IfSome self.old.last (λ step. HasStep (lines_in self.old.opening.name.chain result) self.old.opening.name.node self.old.stamp step) }
        ensures lines { BookHasLinesIn result self.old }
        ensures first { members_in self.old.opening.name.chain result ≡ Some (members_of self.old.opening.config) }
    {
        self.writer.token(history)
    }

    /// Sees all that the token has seen, which keeps the rule. If the token had seen the master's
    /// lines, its journal has them there: the master takes no step meanwhile.
    pub fn see(&mut self, history: &StoreHistory<N>, token: &mut StoreToken<N>)
        requires { BookHadLinesIn token.old self.old }
        ensures lines { BookHasLinesIn token.old self.old }
        ensures rule { IsHistory token.old }
        ensures same { self.new ≡ self.old }
        ensures token { token.new ≡ token.old }
    {
        let seen = token.again(history);
        self.writer.learn(history, seen);
    }
}
