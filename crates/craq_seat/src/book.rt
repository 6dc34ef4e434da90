//! `BookCell`: a chain's master as node 0, whose steps have stamps and are recorded in a journal;
//! used by `craq_workers`, `craq_cell_chain` and the audit.
ghost use Rattle.std.specs.Prelude.{◌≡◌, ◌⊎◌, ◌↔◌, Err, IfOk, IfErr, IfSome, OnOk};
ghost use Rattle.std.specs.Option.{option_copied};
ghost use Rattle.craq_epochs.specs.Mastered as masters;
ghost use Rattle.craq_model.specs.Members.{IsMembership};
ghost use Rattle.craq_seat.specs.Books.{IsBook, book_opening};
ghost use Rattle.craq_seat.specs.Cells.{opened, receipt_of};
ghost use Rattle.craq_seat.specs.Numbered.{CanBeSent};
ghost use Rattle.craq_seat.specs.Taken.{TakesTransition};

use crate::mastering::transition;
use crate::stamps::{book_stamp, next_stamp};
use crate::{BookEvent, Opening, Receipt, Record};
use craq_epochs::Master;
use craq_model::{Config, Step};
use craq_names::{ChainId, Copied, NodeId, NodeName, Pass, Refusal, Stamp};
use std::alloc::Global;
use std::marker::Model;

/// A chain's master as node 0, with a stamp for each of its steps and, if one is kept, a journal of
/// them. Replaying the journal from the opening gives the master.
#[derive(Drop)]
pub struct BookCell {
    opening: Opening,
    master: Master,
    stamp: Stamp,
    journal: Option<Vec<Record<BookEvent>>>,
    last: Option<Step>,
}

impl Model for BookCell {
    ghost use Rattle.craq_epochs.specs.Mastered.{Mastered};
    ghost use Rattle.craq_seat.specs.declared.journal.BookEvent.{BookEvent};
    ghost use Rattle.craq_seat.specs.Cells.{Celled};
    ghost use Rattle.craq_seat.specs.Books.{IsBook};
    ghost use Rattle.craq_seat.specs.Kept.{last_of, records_of};

    ghost Value = { Celled Mastered BookEvent };

    ghost view = { λ c. record { opening = c.opening; inside = c.master; stamp = c.stamp; journal = records_of c.journal; last = last_of c.journal c.last } };

    ghost invariant = { λ c. IsBook (record { opening = c.opening; inside = c.master; stamp = c.stamp; journal = records_of c.journal; last = last_of c.journal c.last }) };
}

impl BookCell {
    /// Opens the master of a chain at stamp 0, in a cell with or without a journal. Its first
    /// membership, of epoch 1, has these members, head first.
    ///
    /// `BadConfig` exactly if they are no membership (1 to 8 ids from 1, none twice). `Memory` if
    /// they are one and an allocation failed.
    pub fn open(
        alloc: Global,
        chain: ChainId,
        members: &[NodeId],
        journal: bool,
    ) -> Result<Self, Refusal>
        ensures ok { IfOk result (λ c. c ≡ opened (book_opening chain members.now) journal (masters.opened_master chain members.now)) }
        ensures membership { OnOk result (IsMembership members.now) }
        ensures bad { (result ≡ Err Refusal.BadConfig) ↔ ¬ (IsMembership members.now) }
        ensures err { IfErr result (λ e. (e ≡ Refusal.BadConfig) ⊎ (e ≡ Refusal.Memory)) }
    {
        let master = Master::open(alloc, chain, members)?;
        let config = master.config().copied(alloc)?;
        Ok(BookCell {
            opening: Opening {
                name: NodeName {
                    chain,
                    node: NodeId::new(0),
                },
                config: Some(config),
                stamp: Stamp::new(0),
            },
            master,
            stamp: Stamp::new(0),
            journal: if journal { Some(Vec::new(alloc)) } else { None },
            last: None,
        })
    }

    /// Takes one step of the master under the next stamp: 1 above the largest of the cell's stamp,
    /// the pass and, for a removal, the stamp of the stop (this project's profile). The master
    /// makes the next membership, or on a tick keeps the present one, and sends it to each member.
    /// `last` then lends the step, and the journal has exactly that step in addition.
    ///
    /// Refused, with nothing changed, for the first of these that applies: `Exhausted` if that
    /// largest stamp is 2^64 - 1; `Memory` if a journal is kept and has no room for the step; a
    /// join as `UsedId` if the id is 0 or ever was a member, or `ChainFull` if there are 8 members;
    /// a removal as `NotMember` if the stopped node is no member of this chain, or `LastNode` if it
    /// is the only one; a join or a removal as `Exhausted` in the last epoch; `Memory` if an
    /// allocation failed.
    pub fn take(&mut self, alloc: Global, event: BookEvent, pass: Pass) -> Result<Receipt, Refusal>
        ensures step { TakesTransition self.old self.new event pass result }
        ensures kept { IsBook self.new }
    {
        let stamp = next_stamp(self.stamp, pass, book_stamp(&event))?;
        let receipt = Receipt {
            node: self.opening.name.node,
            stamp,
        };
        match &mut self.journal {
            Some(journal) => {
                journal.reserve(1)?;
                let step = transition(alloc, &mut self.master, event)?;
                journal.push_reserved(Record {
                    stamp,
                    event,
                    pass,
                    step,
                });
                self.stamp = stamp;
                Ok(receipt)
            }
            None => {
                self.last = Some(transition(alloc, &mut self.master, event)?);
                self.stamp = stamp;
                Ok(receipt)
            }
        }
    }

    /// Returns the last step, if there was one. Each message that it sends has an encoding under
    /// the step's receipt (`numbered`). Never allocates.
    pub fn last(&self) -> Option<&Step>
        ensures value { option_copied result ≡ self.now.last }
        ensures sends { IfSome self.now.last (λ step. CanBeSent (receipt_of self.now) step.outs) }
    {
        match &self.journal {
            Some(journal) => match journal.last() {
                Some(record) => Some(&record.step),
                None => None,
            },
            None => self.last.as_ref(),
        }
    }

    /// Returns the journal, if one is kept. Never allocates.
    pub fn journal(&self) -> Option<&[Record<BookEvent>]>
        ensures value { option_copied result ≡ self.now.journal }
        ensures kept { IsBook self.now }
    {
        match &self.journal {
            Some(journal) => Some(journal.as_slice()),
            None => None,
        }
    }

    /// Returns the stamp of the last step, 0 if there is none. Never allocates.
    pub fn stamp(&self) -> Stamp
        ensures { result ≡ self.now.stamp }
    {
        self.stamp
    }

    /// Returns the cell's opening. Never allocates.
    pub fn opening(&self) -> &Opening
        ensures { result.now ≡ self.now.opening }
    {
        &self.opening
    }

    /// Returns the present membership. Never allocates.
    pub fn config(&self) -> &Config
        ensures { result.now ≡ record { epoch = self.now.inside.epoch; members = self.now.inside.members } }
    {
        self.master.config()
    }

    /// Returns the ids that ever were members, in the order of joining. Never allocates.
    pub fn used(&self) -> &[NodeId]
        ensures { result.now ≡ self.now.inside.used }
    {
        self.master.used()
    }
}
