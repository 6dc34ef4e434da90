//! Tables for the linearization points of a run; filled by `account`, and read by `answers`.
ghost use Rattle.std.specs.Prelude.{◌≡◌, ◌++◌, [], List, OnOk, length};
ghost use Rattle.craq_commands.specs.declared.entry.Entry.{Entry};
ghost use Rattle.craq_runs.specs.declared.explanation.Place.{Place};
ghost use Rattle.craq_runs.specs.Explain.{committed_by, pending_in};
ghost use Rattle.craq_runs.specs.Seen.{Asked, ask_in};
ghost use Rattle.craq_explain.specs.Shown.{plain_in};

use crate::asks::{note_ask, note_pending};
use crate::committed::Committed;
use crate::firsts::TicketNumbers;
use crate::notes::pending_in;
use craq_full_history::FullHistory;
use craq_history::{History, Node};
use craq_names::{NodeId, Version};
use craq_runs::Taken;
use std::alloc::{AllocError, Global};
use std::collections::BTreeMap;

/// A replayed move.
#[derive(Drop)]
pub(crate) struct Replayed<'a> {
    pub taken: &'a Taken,
    /// The node of the move, 0 for the master.
    pub node: NodeId,
    /// The tail's report that the move delivered, with the number committed after the step that
    /// sent it.
    pub word: Option<(Version, u64)>,
}

/// The requests so far, the positions of the replies to updates, and the committed entries.
#[derive(Drop)]
pub(crate) struct Tables {
    pub asked: TicketNumbers,
    pub pending: TicketNumbers,
    pub committed: Committed,
}

impl Tables {
    ghost use Rattle.craq_explain.specs.Tables.{AreTables};

    /// Makes empty tables. Never allocates.
    pub(crate) fn new(alloc: Global) -> Self
        ensures { AreTables [] [] [] result }
    {
        Tables {
            asked: BTreeMap::new(alloc),
            pending: BTreeMap::new(alloc),
            committed: Committed::new(alloc),
        }
    }

    /// Adds the move of this number; `stands` is its node after the move.
    pub(crate) fn add(
        &mut self,
        alloc: Global,
        number: u64,
        taken: &Taken,
        stands: Option<&Node<FullHistory>>,
    ) -> Result<(), AllocError>
        ensures { (asks : List Asked) (pending : List Place) (entries : List Entry) → AreTables asks pending entries self.old → OnOk result (AreTables (asks ++ ask_in number taken.now.step.ticket taken.now.chosen) (pending ++ pending_in (length entries) taken.now.step.ticket (plain_in ⟦<FullHistory as History>⟧.past stands.entry) taken.now.chosen) (committed_by entries (plain_in ⟦<FullHistory as History>⟧.past stands.entry)) self.new) }
    {
        let count = self.committed.count();
        let pending = pending_in(count, taken.step.ticket, stands, &taken.chosen);
        note_ask(&mut self.asked, number, taken)?;
        note_pending(&mut self.pending, pending)?;
        self.committed.commit(alloc, stands)
    }
}
