//! Notes of a run, taken move by move; used by `replay`.
ghost use Rattle.std.specs.Prelude.{◌≡◌, ◌+◌, ◌++◌, ℕ, List, IfOk, OnOk, length, map};
ghost use Rattle.craq_commands.specs.declared.entry.Entry.{Entry};
ghost use Rattle.craq_runs.specs.declared.explanation.Place.{Place};
ghost use Rattle.craq_runs.specs.Chain.{Chain};
ghost use Rattle.craq_runs.specs.Explain.{Account, account_with, ask_number, explanation_in, opening_account, tail_word};
ghost use Rattle.craq_runs.specs.Seen.{Asked, ask_in, asks_from};
ghost use Rattle.craq_explain.specs.Shown.{plain_in};
ghost use Rattle.craq_explain.specs.Tables.{AreTables};

use crate::answers::add_places;
use crate::firsts::number_of_ask;
use crate::notes::add_sends;
use crate::tables::{Replayed, Tables};
use craq_full_history::FullHistory;
use craq_history::{History, Node};
use craq_names::Items;
use craq_runs::{Explanation, Place, Taken};
use std::alloc::{AllocError, Global};

/// The account of a run, without its chain.
#[derive(Drop)]
pub(crate) struct Notes {
    tables: Tables,
    lens: Vec<u64>,
    sent_at: Vec<u64>,
    places: Vec<Place>,
}

impl Notes {
    ghost use Rattle.craq_explain.specs.Noted.{IsNoted};

    /// Makes empty notes. Never allocates.
    pub(crate) fn new(alloc: Global) -> Self
        ensures { (chain : ℕ) (members : List ℕ) → IsNoted (opening_account chain members) result }
    {
        Notes {
            tables: Tables::new(alloc),
            lens: Vec::new(alloc),
            sent_at: Vec::new(alloc),
            places: Vec::new(alloc),
        }
    }

    /// Returns the number committed after the step that sent each message.
    pub(crate) fn sent_at(&self) -> &[u64]
        ensures { result.now ≡ self.now.sent_at.items }
    {
        self.sent_at.as_slice()
    }

    /// Adds the last of these moves to the notes; `stands` is its node after the move.
    pub(crate) fn add(
        &mut self,
        alloc: Global,
        moves: &[Taken],
        replayed: &Replayed<'_>,
        stands: Option<&Node<FullHistory>>,
    ) -> Result<(), AllocError>
        ensures { (w : Account) (next : Chain) → IsNoted w self.old → length moves.now ≡ w.chain.moves + 1 → asks_from 1 moves.now ≡ w.asks ++ ask_in (w.chain.moves + 1) replayed.now.taken.now.step.ticket replayed.now.taken.now.chosen → replayed.now.word ≡ tail_word w replayed.now.taken.now.chosen → OnOk result (IsNoted (account_with w replayed.now.taken.now replayed.now.node next (plain_in ⟦<FullHistory as History>⟧.past stands.entry) (plain_in ⟦<FullHistory as History>⟧.past stands.entry)) self.new) }
    {
        self.tables
            .add(alloc, moves.len() as u64, replayed.taken, stands)?;
        let count = self.tables.committed.count();
        self.lens.push(count)?;
        add_sends(
            &mut self.sent_at,
            count,
            replayed.taken.step.outs.as_slice(),
        )?;
        add_places(
            alloc,
            &self.tables,
            moves,
            replayed,
            stands,
            &mut self.places,
        )?;
        Ok(())
    }

    /// Returns the explanation from the notes of all moves.
    pub(crate) fn explained(self, alloc: Global) -> Result<Explanation, AllocError>
        ensures { (w : Account) → IsNoted w self → IfOk result (λ e. e ≡ explanation_in w) }
    {
        let asks = ask_numbers(alloc, &self.tables)?;
        Ok(Explanation {
            asks: Items::of(asks),
            lens: Items::of(self.lens),
            places: Items::of(self.places),
        })
    }
}

/// Returns the numbers of the requests that made the committed entries, 0 for an entry without a
/// request.
fn ask_numbers(alloc: Global, tables: &Tables) -> Result<Vec<u64>, AllocError>
    ensures { (asks : List Asked) (pending : List Place) (entries : List Entry) → AreTables asks pending entries tables.now → IfOk result (λ numbers. numbers.items ≡ map (ask_number asks) entries) }
{
    let mut numbers = Vec::new(alloc);
    for (node, ticket) in tables.committed.origins() {
        let number = number_of_ask(&tables.asked, *node, *ticket);
        numbers.push(number.unwrap_or(0))?;
    }
    Ok(numbers)
}
