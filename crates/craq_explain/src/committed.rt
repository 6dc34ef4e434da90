//! Tables of the committed entries; used by `tables`.
ghost use Rattle.std.specs.Prelude.{◌≡◌, ◌++◌, ◌∷◌, [], ℕ, List, OnOk, IfOk, length};
ghost use Rattle.std.specs.Option.{option_or};
ghost use Rattle.std.specs.BTreeMap.{get};
ghost use Rattle.craq_commands.specs.declared.entry.Entry.{Entry};
ghost use Rattle.craq_model.specs.Plain.{is_tail};
ghost use Rattle.craq_history.specs.Nodes.{plain_of};
ghost use Rattle.craq_runs.specs.Explain.{committed_by, wrote, written_at};
ghost use Rattle.craq_explain.specs.Firsts.{number_if, write_cmp};
ghost use Rattle.craq_explain.specs.Shown.{plain_in};

use crate::firsts::put_first;
use craq_commands::Entry;
use craq_full_history::FullHistory;
use craq_history::members::last_member;
use craq_history::{History, Node};
use craq_names::{Copied, Key, NodeId, Ticket, Version};
use std::alloc::{AllocError, Global};
use std::collections::BTreeMap;

/// A position for each known version of a key.
type Positions = BTreeMap<(Key, Version), u64>;

/// The committed entries, in order: the origin of each, and the position of the first entry that
/// wrote each version of a key.
#[derive(Drop)]
pub(crate) struct Committed {
    origins: Vec<(NodeId, Ticket)>,
    written: Positions,
}

/// Returns true if a node is a tail: ready, and the last of the members that it knows.
fn is_tail(node: &Node<FullHistory>) -> bool
    ensures { result ≡ is_tail (plain_of ⟦<FullHistory as History>⟧.past node.now) }
{
    node.ready && last_member(node.members.as_slice()) == node.name.node
}

/// Notes the position of each version that an entry wrote, unless the version has one.
#[tactic(auto, unfolding(craq_runs::specs::Explain::wrote))]
fn note_writes(alloc: Global, written: &mut Positions, entry: &Entry) -> Result<(), AllocError>
    ensures { OnOk result ((q : List ℕ × ℕ) → get write_cmp written.new q ≡ option_or (get write_cmp written.old q) (number_if (wrote q.0 q.1 entry.now) entry.now.position)) }
{
    for write in entry.writes.as_slice() {
        let key = write.key.copied(alloc)?;
        put_first(written, (key, write.version), entry.position.get())?;
    }
    Ok(())
}

impl Committed {
    ghost use Rattle.craq_explain.specs.Tables.{IsCommitted};

    /// Makes an empty table. Never allocates.
    pub(crate) fn new(alloc: Global) -> Self
        ensures { IsCommitted [] result }
    {
        Committed {
            origins: Vec::new(alloc),
            written: BTreeMap::new(alloc),
        }
    }

    /// Returns the number of entries.
    pub(crate) fn count(&self) -> u64
        ensures { (entries : List Entry) → IsCommitted entries self.now → result ≡ length entries }
    {
        self.origins.len() as u64
    }

    /// Returns the origin of each entry.
    pub(crate) fn origins(&self) -> &[(NodeId, Ticket)]
        ensures { result.now ≡ self.now.origins.items }
    {
        self.origins.as_slice()
    }

    /// Returns the position of the first entry that wrote this version of the key, 0 if there is
    /// none.
    #[tactic(auto, unfolding(craq_runs::specs::Explain::written_at, crate::specs::Tables::first_written))]
    pub(crate) fn written_at(
        &self,
        alloc: Global,
        key: &Key,
        version: Version,
    ) -> Result<u64, AllocError>
        ensures { (entries : List Entry) → IsCommitted entries self.now → IfOk result (λ position. position ≡ written_at entries key.now version) }
    {
        let write = (key.copied(alloc)?, version);
        Ok(self.written.get(&write).copied().unwrap_or(0))
    }

    /// Appends an entry.
    fn push(&mut self, alloc: Global, entry: &Entry) -> Result<(), AllocError>
        ensures { (entries : List Entry) → IsCommitted entries self.old → OnOk result (IsCommitted (entries ++ entry.now ∷ []) self.new) }
    {
        note_writes(alloc, &mut self.written, entry)?;
        self.origins.push((entry.origin_node, entry.origin_ticket))?;
        Ok(())
    }

    /// Appends entries.
    fn add(&mut self, alloc: Global, more: &[Entry]) -> Result<(), AllocError>
        ensures { (entries : List Entry) → IsCommitted entries self.old → OnOk result (IsCommitted (entries ++ more.now) self.new) }
    {
        for entry in more {
            self.push(alloc, entry)?;
        }
        Ok(())
    }

    /// Appends the entries that are committed after a step of this node: a tail commits all its
    /// entries.
    #[tactic(auto, unfolding(craq_model::specs::Plain::entries_after))]
    pub(crate) fn commit(
        &mut self,
        alloc: Global,
        node: Option<&Node<FullHistory>>,
    ) -> Result<(), AllocError>
        ensures { (entries : List Entry) → IsCommitted entries self.old → OnOk result (IsCommitted (committed_by entries (plain_in ⟦<FullHistory as History>⟧.past node.entry)) self.new) }
    {
        let Some(node) = node else {
            return Ok(());
        };
        if !is_tail(node) {
            return Ok(());
        }
        let count = self.count();
        self.add(alloc, node.history.entries_after(count))
    }
}
