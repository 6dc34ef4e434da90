//! `ChainBook`: a master's recorded cell that a running store keeps behind a lock; used by
//! `craq_running_chain` and `craq_workers`.
ghost use Rattle.std.specs.Prelude.{◌≡◌, ◌⊎◌, [], None, Some, IfOk, IfSome};
ghost use Rattle.craq_causality.specs.Causal.{IsOfStopped};
ghost use Rattle.craq_ghost_history.specs.declared.author.Author.TheVariants as Author;
ghost use Rattle.craq_locked_chain.specs.Membered.{CanBecome};
ghost use Rattle.craq_runs.specs.Chain.{sent_in};
ghost use Rattle.craq_seat.specs.Books.{IsBook, first_master, members_of};
ghost use Rattle.craq_seat.specs.Calls.{receipt_in};
ghost use Rattle.craq_seat.specs.Cells.{receipt_of};
ghost use Rattle.craq_seat.specs.Numbered.{numbered_from};
ghost use Rattle.craq_seat.specs.Taken.{TakesTransition};
ghost use Rattle.craq_running_node.specs.Encoded.{AreSentAs};
ghost use Rattle.craq_store_history.specs.Chains.{IsHistory};
ghost use Rattle.craq_store_history.specs.Entries.{lines_in, members_in};
ghost use Rattle.craq_store_parts.specs.Recorded.{BookHadLinesIn, BookHasLinesIn, IsUnmoved};
ghost use Rattle.craq_store_parts.specs.Witnessed.{IsWitnessedOrder};

use craq_ghost_history::Named;
use craq_names::{NodeId, Refusal};
use craq_running_node::{JoinedNode, Messages, RecordedBook, messages_of_book};
use craq_seat::{BookCell, BookEvent, Receipt};
use craq_store_parts::{StoreHistory, StoreToken, StoreWriter};
use std::alloc::Global;
use std::marker::Model;

/// A master's cell, with or without a journal, whose steps are in the store's history. Its master
/// came from the opened one by steps of a master only. So a thread that takes its lock finds a
/// membership of the chain and the members of the cell's opening.
#[derive(Drop)]
pub struct ChainBook<N: Named> {
    book: RecordedBook<N>,
}

impl<N: Named> Model for ChainBook<N> {
    ghost use Rattle.craq_epochs.specs.Mastered.{Mastered};
    ghost use Rattle.craq_locked_chain.specs.Membered.{CanBecome};
    ghost use Rattle.craq_seat.specs.declared.journal.BookEvent.{BookEvent};
    ghost use Rattle.craq_seat.specs.Books.{first_master};
    ghost use Rattle.craq_seat.specs.Cells.{Celled};

    ghost Value = { Celled Mastered BookEvent };

    ghost view = { λ b. b.book };

    ghost invariant = { λ b. CanBecome (first_master b.book.opening) b.book.inside };
}

impl<N: Named> ChainBook<N> {
    /// Opens a chain in the store's history, with the cell of its master before any step. Returns a
    /// token that has seen the opening.
    pub fn open(
        history: &StoreHistory<N>,
        cell: BookCell,
        writer: StoreWriter<N>,
    ) -> (Self, StoreToken<N>)
        requires opened { IsUnmoved cell }
        requires author { writer.author ≡ Author.Node cell.opening.name.chain 0 }
        requires none { writer.seen ≡ [] }
        ensures cell { result.0 ≡ cell }
        ensures token { members_in cell.opening.name.chain result.1 ≡ Some cell.inside.members }
    {
        let mut book = RecordedBook::open(history, cell, writer);
        let token = book.token(history);
        (ChainBook { book }, token)
    }

    /// Takes one step of the master, exactly as `BookCell::take` does, and adds it to the history,
    /// after all that the token has seen. Returns also a token that has seen the step.
    pub fn take(
        &mut self,
        alloc: Global,
        history: &StoreHistory<N>,
        event: BookEvent,
        token: StoreToken<N>,
    ) -> Result<(Receipt, StoreToken<N>), Refusal>
        requires { IsOfStopped (lines_in self.old.opening.name.chain token) event }
        ensures step { TakesTransition self.old self.new event 0 (receipt_in result) }
        ensures kept { IsBook self.new }
        ensures opening { self.new.opening ≡ self.old.opening }
        ensures ordered { IfOk result (λ r. IsWitnessedOrder token self.old.opening.name.chain event r.0 r.1) }
    {
        self.book.take(alloc, history, event, token)
    }

    /// Lets a node join, exactly as `BookCell::take` does, after all that the token has seen. Returns
    /// also the node, and a token that has seen the step.
    pub fn join(
        &mut self,
        alloc: Global,
        history: &StoreHistory<N>,
        node: NodeId,
        token: StoreToken<N>,
    ) -> Result<(Receipt, (JoinedNode<N>, StoreToken<N>)), Refusal>
        ensures step { TakesTransition self.old self.new (BookEvent.Join node) 0 (receipt_in result) }
        ensures kept { IsBook self.new }
        ensures opening { self.new.opening ≡ self.old.opening }
        ensures joined { IfOk result (λ r. r.1.0 ≡ record { chain = self.old.opening.name.chain; node = node }) }
        ensures ordered { IfOk result (λ r. IsWitnessedOrder token self.old.opening.name.chain (BookEvent.Join node) r.0 r.1.1) }
    {
        self.book.join(alloc, history, node, token)
    }

    /// Takes the step of a tick, and returns what it sends, or `None` if the step is refused.
    pub fn tick(&mut self, alloc: Global, history: &StoreHistory<N>) -> Option<Messages<N>> {
        let token = self.book.token(history);
        match self.take(alloc, history, BookEvent::Tick, token) {
            Ok(_) => Some(self.messages(alloc, history)),
            Err(_) => None,
        }
    }

    /// Encodes what the master's last step sends. Out of memory, it is lost.
    pub fn messages(&mut self, alloc: Global, history: &StoreHistory<N>) -> Messages<N>
        ensures sent { IfSome self.old.last (λ s. (result.sent ≡ []) ⊎ AreSentAs result.sent (numbered_from 0 (receipt_of self.old) (sent_in s.outs))) }
        ensures none { self.old.last ≡ None → result.sent ≡ [] }
        ensures same { self.new ≡ self.old }
    {
        messages_of_book(alloc, history, &mut self.book)
    }

    /// Returns a token that has seen all steps of the master. The master's journal has its lines
    /// there, and the chain has the members of the master's opening.
    pub fn token(&mut self, history: &StoreHistory<N>) -> StoreToken<N>
        ensures same { self.new ≡ self.old }
        ensures lines { BookHasLinesIn result self.old }
        ensures first { members_in self.old.opening.name.chain result ≡ Some (members_of self.old.opening.config) }
    {
        self.book.token(history)
    }

    /// Sees all that the token has seen, which keeps the rule. If the token had seen the master's
    /// lines, its journal has them there: the master takes no step meanwhile.
    pub fn see(&mut self, history: &StoreHistory<N>, token: &mut StoreToken<N>)
        requires { BookHadLinesIn token.old self.old }
        ensures lines { BookHasLinesIn token.old self.old }
        ensures rule { IsHistory token.old }
        ensures same { self.new ≡ self.old }
        ensures token { token.new ≡ token.old }
    {
        self.book.see(history, token);
    }

    /// Returns the master's cell. Never allocates.
    pub fn cell(&self) -> &BookCell
        ensures cell { result.now ≡ self.now }
        ensures becomes { CanBecome (first_master self.now.opening) self.now.inside }
    {
        self.book.cell()
    }
}
