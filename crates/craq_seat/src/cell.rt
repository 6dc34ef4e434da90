//! `Cell`: a node whose steps have stamps and, if a journal is kept, are recorded in it. A desk has
//! one; the audit reads its journal.
ghost use Rattle.std.specs.Prelude.{◌≡◌, ◌<◌, IfOk, IfErr, IfSome, IsNone, IsOk, OnOk, vec_capacity, vec_len};
ghost use Rattle.std.specs.Option.{option_copied};
ghost use Rattle.craq_model.specs.Plain.{Plain};
ghost use Rattle.craq_node.specs.Represented.{CanArrive, CanOpen, IsFree, opening_of};
ghost use Rattle.craq_node_invariant.specs.Sound.{AreEncodable};
ghost use Rattle.craq_seat.specs.Cells.{opened, receipt_of, with_inside};
ghost use Rattle.craq_seat.specs.Kept.{IsKept};
ghost use Rattle.craq_seat.specs.Numbered.{CanBeSent};
ghost use Rattle.craq_seat.specs.Stamps.{event_stamp, next_stamp};
ghost use Rattle.craq_seat.specs.Taken.{AnswersAfter, TakesEvent};

use crate::stamps::{event_stamp, next_stamp};
use crate::{Opening, Receipt, Record};
use craq_epochs::Switch;
use craq_model::{Config, Event, Step};
use craq_names::{Copied, Items, NodeName, Pass, Refusal, Stamp};
use craq_node::Core;
use std::alloc::{AllocError, Global};
use std::marker::Model;
use std::mem;

/// A node with a stamp for each of its steps and, if one is kept, a journal of them. Replaying the
/// journal from the opening gives the node that the core stands for.
#[derive(Drop)]
pub struct Cell<C: Core> {
    opening: Opening,
    core: C,
    stamp: Stamp,
    journal: Option<Vec<Record<Event>>>,
    last: Option<Step>,
}

impl<C: Core> Model for Cell<C> {
    ghost use Rattle.craq_model.specs.declared.ask.Event.{Event};
    ghost use Rattle.craq_seat.specs.Cells.{Celled};
    ghost use Rattle.craq_seat.specs.Kept.{IsKept, last_of, records_of};

    ghost Value = { Celled C Event };

    ghost view = { λ c. record { opening = c.opening; inside = c.core; stamp = c.stamp; journal = records_of c.journal; last = last_of c.journal c.last } };

    ghost invariant = { λ c. IsKept C.represents (record { opening = c.opening; inside = c.core; stamp = c.stamp; journal = records_of c.journal; last = last_of c.journal c.last }) };
}

/// Copies the membership, if there is one. Fails only when out of memory.
fn copy_of(alloc: Global, config: Option<&Config>) -> Result<Option<Config>, AllocError>
    ensures { IfOk result (λ copy. copy ≡ option_copied config.entry) }
{
    match config {
        None => Ok(None),
        Some(config) => Ok(Some(config.copied(alloc)?)),
    }
}

/// Returns the step, and gives back the memory in which its messages do not stand.
fn fitted(step: Step) -> Step
    ensures { result ≡ step }
{
    let Step {
        ticket,
        outs,
        ignored,
    } = step;
    let mut outs = outs.into_vec();
    outs.shrink_to_fit();
    Step {
        ticket,
        outs: Items::of(outs),
        ignored,
    }
}

/// Takes a step of the core after making room for its record in the journal. The journal keeps its
/// records. The event that stays is a copy, which has no room to spare.
fn noted_step<C: Core>(
    alloc: Global,
    core: &mut C,
    journal: &mut Vec<Record<Event>>,
    event: &mut Event,
) -> Result<Step, Refusal>
    requires { CanArrive event.old }
    ensures step { (p : Plain) → C.represents core.old p → AnswersAfter (C.represents core.new) p event.old result }
    ensures spelled { IfOk result (λ step. AreEncodable step.outs) }
    ensures event { event.new ≡ event.old }
    ensures same { journal.new.items ≡ journal.old.items }
    ensures room { OnOk result (vec_len journal.new < vec_capacity journal.new) }
{
    journal.reserve(1)?;
    let copy = event.copied(alloc)?;
    let step = core.step(alloc, mem::replace(event, copy))?;
    Ok(fitted(step))
}

impl<C: Core> Cell<C> {
    /// Opens a node before its first step, in a cell with or without a journal whose stamps exceed
    /// this one. With a membership, which has epoch 1 and contains the node: a ready member with an
    /// empty history. Without one: a node that joins later and is not ready. Fails only when out of
    /// memory (`Memory`).
    pub fn open(
        alloc: Global,
        name: NodeName,
        config: Option<&Config>,
        journal: bool,
        stamp: Stamp,
    ) -> Result<Self, Refusal>
        requires { CanOpen name (option_copied config) }
        ensures cell { IfOk result (λ c. c ≡ opened (record { name = name; config = option_copied config.entry; stamp = stamp }) journal c.inside) }
        ensures core { IfOk result (λ c. C.represents c.inside (opening_of name (option_copied config.entry))) }
        ensures err { IfErr result (λ e. e ≡ Refusal.Memory) }
    {
        let core = C::open(alloc, name, config)?;
        let config = copy_of(alloc, config)?;
        Ok(Cell {
            opening: Opening {
                name,
                config,
                stamp,
            },
            core,
            stamp,
            journal: if journal { Some(Vec::new(alloc)) } else { None },
            last: None,
        })
    }

    /// Takes one step of the node under the next stamp: 1 above the largest of the cell's stamp,
    /// the pass and, for a delivery, the message's stamp (this project's profile). The step is the
    /// node's own, for each plain node that the core stands for. `last` then lends it, and the
    /// journal has exactly that step in addition. A delivered message must have an encoding.
    ///
    /// The errors, in order; after each nothing is changed:
    ///
    /// - `Exhausted` if that largest stamp is 2^64 - 1.
    /// - `Memory` if a journal is kept and has no room for the step.
    /// - Each refusal of the node's own step (`Core::step`), its `Memory` last.
    ///
    /// Without a journal, a stop of a running node and an ignored message never allocate.
    pub fn take(&mut self, alloc: Global, mut event: Event, pass: Pass) -> Result<Receipt, Refusal>
        requires { CanArrive event }
        ensures step { (p : Plain) → C.represents self.old.inside p → TakesEvent C.represents self.new (with_inside self.old p) event pass result }
        ensures receipt { IfOk result (λ receipt. receipt ≡ receipt_of self.new) }
        ensures kept { IsKept C.represents self.new }
        ensures free { (p : Plain) → C.represents self.old.inside p → IsFree p event → IsNone self.old.journal → IsOk (next_stamp self.old.stamp pass (event_stamp event)) → IsOk result }
    {
        let stamp = match next_stamp(self.stamp, pass, event_stamp(&event)) {
            Err(refusal) => {
                drop(event);
                return Err(refusal);
            }
            Ok(stamp) => stamp,
        };
        let receipt = Receipt {
            node: self.opening.name.node,
            stamp,
        };
        match &mut self.journal {
            Some(journal) => match noted_step(alloc, &mut self.core, journal, &mut event) {
                Err(refusal) => {
                    drop(event);
                    Err(refusal)
                }
                Ok(step) => {
                    journal.push_reserved(Record {
                        stamp,
                        event,
                        pass,
                        step,
                    });
                    self.stamp = stamp;
                    Ok(receipt)
                }
            },
            None => match self.core.step(alloc, event) {
                Err(refusal) => Err(refusal),
                Ok(step) => {
                    self.last = Some(step);
                    self.stamp = stamp;
                    Ok(receipt)
                }
            },
        }
    }

    /// Returns the last step, if there was one. Each message that it sends has an encoding under
    /// the step's receipt (`numbered`). Never allocates.
    pub fn last(&self) -> Option<&Step>
        ensures value { option_copied result ≡ self.now.last }
        ensures sends { IfSome self.now.last (λ step. CanBeSent (receipt_of self.now) step.outs) }
    {
        match &self.journal {
            Some(journal) => match journal.last() {
                Some(record) => Some(&record.step),
                None => None,
            },
            None => self.last.as_ref(),
        }
    }

    /// Returns the journal, if one is kept. Never allocates.
    pub fn journal(&self) -> Option<&[Record<Event>]>
        ensures value { option_copied result ≡ self.now.journal }
        ensures kept { IsKept C.represents self.now }
    {
        match &self.journal {
            Some(journal) => Some(journal.as_slice()),
            None => None,
        }
    }

    /// Returns the stamp of the last step, or the opening's if there is none. Never allocates.
    pub fn stamp(&self) -> Stamp
        ensures { result ≡ self.now.stamp }
    {
        self.stamp
    }

    /// Returns the cell's opening. Never allocates.
    pub fn opening(&self) -> &Opening
        ensures { result.now ≡ self.now.opening }
    {
        &self.opening
    }

    /// Returns the node's core. Never allocates.
    pub fn core(&self) -> &C
        ensures { result.now ≡ self.now.inside }
    {
        &self.core
    }

    /// Returns the node's switch, stopped exactly if the node does not run. Never allocates.
    pub fn switch(&self) -> &Switch
        ensures { (p : Plain) → C.represents self.now.inside p → result.now ≡ record { name = p.name; running = p.running } }
    {
        self.core.switch()
    }
}
