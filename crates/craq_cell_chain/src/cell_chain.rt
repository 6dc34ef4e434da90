//! `CellChain`: the cells of a chain, each under its lock; used by `craq_play`.
ghost use Rattle.std.specs.Prelude.{◌≡◌, ◌≤◌, ◌⊎◌, ◌↔◌, ◌++◌, ◌∷◌, [], Err, IfErr, IfOk, IfSome, None, Ok, OnErr, OnOk};
ghost use Rattle.std.specs.Option.{option_copied};
ghost use Rattle.craq_model.specs.Members.{IsMembership};
ghost use Rattle.craq_node.specs.Represented.{CanArrive, CanOpen};
ghost use Rattle.craq_cell_chain.specs.Named.{HasNoCell, HasNoNode, cell_of, ids_after, ids_in, ids_of, seated_at};
ghost use Rattle.craq_cell_chain.specs.Sending.{HasSent, NamesNode, sent_of};

use crate::posted::Posted;
use crate::stepping::{CellStep, step_book, step_node};
use craq_model::{Config, Event};
use craq_names::{ChainId, Copied, NodeId, NodeName, Pass, Refusal, Stamp};
use craq_node::Core;
use craq_runs::Move;
use craq_seat::{BookCell, BookEvent, CallReceipt, Cell, Desk, Receipt, Seat};
use std::alloc::{AllocError, Global};
use std::marker::Model;
use std::sync::{Mutex, Wait};

/// A chain whose nodes and master are cells, each under its own lock: a step is taken under the
/// lock of its one cell. Keeps the messages that its cells sent, by number, and the receipts of its
/// nodes' stops.
///
/// A contract sees the ids of its nodes with their seats, and the messages that were sent. A lock
/// tells a proof nothing of its content, so no contract here says which cell took a step. A caller
/// that needs to know compares the step with a known one.
#[derive(Drop)]
pub struct CellChain<C: Core> {
    chain: ChainId,
    journal: bool,
    book: Mutex<BookCell>,
    /// The nodes that the chain ever had, in the order of joining, each with its seat.
    seats: Vec<(NodeId, Seat<C>)>,
    posted: Posted,
    stops: Vec<Receipt>,
}

impl<C: Core> Model for CellChain<C> {
    ghost use Rattle.craq_seat.specs.declared.seat.Seat.{Seat};
    ghost use Rattle.craq_cell_chain.specs.Named.{Locked};

    ghost Value = { Locked (Seat C (Unit {0})) };

    ghost view = { λ c. record { chain = c.chain; seats = c.seats.items; sent = c.posted } };
}

/// Makes a node before its first step, in a cell opened as `Cell::open` does. Fails only when out
/// of memory (`Memory`).
fn seat_of<C: Core>(
    alloc: Global,
    name: NodeName,
    config: Option<&Config>,
    journal: bool,
    stamp: Stamp,
) -> Result<Seat<C>, Refusal>
    requires { CanOpen name (option_copied config) }
    ensures { IfErr result (λ e. e ≡ Refusal.Memory) }
{
    let cell = Cell::open(alloc, name, config, journal, stamp)?;
    Ok(Seat::new(alloc, Desk::new(alloc, cell)))
}

/// Makes the members of a first membership, at stamp 0, each with its seat. Fails only when out of
/// memory (`Memory`).
fn opening_seats<C: Core>(
    alloc: Global,
    chain: ChainId,
    config: &Config,
    journal: bool,
) -> Result<Vec<(NodeId, Seat<C>)>, Refusal>
    requires { (config.now.epoch ≡ 1) × IsMembership config.now.members }
    ensures ids { IfOk result (λ seats. ids_in seats.items ≡ config.now.members) }
    ensures err { IfErr result (λ e. e ≡ Refusal.Memory) }
{
    let mut seats = Vec::new(alloc);
    for node in config.members.as_slice() {
        let name = NodeName { chain, node: *node };
        let seat = seat_of(alloc, name, Some(config), journal, Stamp::new(0))?;
        seats.push((*node, seat))?;
    }
    Ok(seats)
}

/// Returns the node of this id with its seat, if there is one. Never allocates.
fn seat_among<C: Core>(seats: &[(NodeId, Seat<C>)], id: NodeId) -> Option<&(NodeId, Seat<C>)>
    ensures { option_copied result ≡ seated_at seats.now id }
{
    seats.iter().find(|place| place.0 == id)
}

impl<C: Core> CellChain<C> {
    /// Opens a chain of these members, head first, before any move: the master's cell and theirs,
    /// at stamp 0, with or without journals.
    ///
    /// `BadConfig` exactly if they are no membership (1 to 8 ids from 1, none twice). `Memory` if
    /// they are one and an allocation failed.
    pub fn open(
        alloc: Global,
        chain: ChainId,
        members: &[NodeId],
        journal: bool,
    ) -> Result<Self, Refusal>
        ensures ids { IfOk result (λ c. (c.chain ≡ chain) × (ids_of c ≡ members.now) × (c.sent ≡ [])) }
        ensures membership { OnOk result (IsMembership members.now) }
        ensures bad { IfErr result (λ e. (e ≡ Refusal.BadConfig) ↔ ¬ (IsMembership members.now)) }
        ensures err { IfErr result (λ e. (e ≡ Refusal.BadConfig) ⊎ (e ≡ Refusal.Memory)) }
    {
        let book = BookCell::open(alloc, chain, members, journal)?;
        let seats = opening_seats(alloc, chain, book.config(), journal)?;
        Ok(CellChain {
            chain,
            journal,
            book: Mutex::new(book),
            seats,
            posted: Posted::new(alloc),
            stops: Vec::new(alloc),
        })
    }

    /// Returns the master's cell, under its lock: the only lock of a master in the chain. Never
    /// allocates.
    pub fn book(&self) -> &Mutex<BookCell> {
        &self.book
    }

    /// Returns the node of this id with its seat, if the chain ever had one. Never allocates.
    pub fn seat(&self, id: NodeId) -> Option<&(NodeId, Seat<C>)>
        ensures { option_copied result ≡ seated_at self.now.seats id }
    {
        seat_among(self.seats.as_slice(), id)
    }

    /// Takes one move on the cell of its node or of the master, under that one lock, with this
    /// pass. Returns the step and its receipt, or `None` if no cell can take the move: its message
    /// was not sent, the chain never had its node, or it removes a running node. Sends exactly the
    /// messages of the step.
    ///
    /// A delivered message is the one that `numbered` gave for the sending cell. A removal shows
    /// the receipt of the node's switch and that of the step in which it stopped. A node that joins
    /// has a cell from then on, opened at the stamp of the join. The receipts of the calls that the
    /// step answers are added to `calls`.
    ///
    /// Refused as the cell refuses it, with nothing changed; as `WrongNode`, with nothing changed,
    /// if another node's cell is behind the lock; or as `Memory`. After `Memory` the step may have
    /// been taken: the numbers of later messages are then not those of a chain that took it, and no
    /// further move may be taken. Messages that were sent stay sent in any case.
    pub fn take<R: Wait>(
        &mut self,
        rt: &R,
        alloc: Global,
        chosen: &Move,
        pass: Pass,
        calls: &mut Vec<CallReceipt>,
    ) -> Result<Option<CellStep>, Refusal>
        ensures cell { IfOk result (λ r. IfSome r (λ taken. cell_of self.old.sent chosen.now ≡ Some taken.receipt.node)) }
        ensures none { result ≡ Ok None → HasNoCell self.old chosen.now }
        ensures sent { HasSent self.old.sent self.new.sent result }
        ensures ids { OnOk result (ids_of self.new ≡ ids_after (ids_of self.old) chosen.now) }
        ensures same { OnErr result (ids_of self.new ≡ ids_of self.old) }
        ensures chain { self.new.chain ≡ self.old.chain }
    {
        match chosen {
            Move::Ask { node, ask } => {
                let event = Event::Ask(ask.copied(alloc)?);
                self.at_node(rt, alloc, *node, event, pass, calls)
            }
            Move::Deliver(number) => self.deliver(rt, alloc, *number, pass, calls),
            Move::Tick(node) if node.get() == 0 => {
                let taken = self.at_book(rt, alloc, BookEvent::Tick, pass)?;
                Ok(Some(taken))
            }
            Move::Tick(node) => self.at_node(rt, alloc, *node, Event::Tick, pass, calls),
            Move::Stop(node) => self.stop(rt, alloc, *node, pass, calls),
            Move::Remove(node) => self.remove(rt, alloc, *node, pass),
            Move::Join(node) => self.join(rt, alloc, *node, pass),
        }
    }

    /// Takes a step of the node of this id, under its lock. `None` if the chain never had it.
    fn at_node<R: Wait>(
        &mut self,
        rt: &R,
        alloc: Global,
        id: NodeId,
        event: Event,
        pass: Pass,
        calls: &mut Vec<CallReceipt>,
    ) -> Result<Option<CellStep>, Refusal>
        requires { CanArrive event }
        ensures cell { IfOk result (λ r. IfSome r (λ taken. taken.receipt.node ≡ id)) }
        ensures none { result ≡ Ok None → HasNoNode self.old.seats id }
        ensures sent { HasSent self.old.sent self.new.sent result }
        ensures seats { self.new.seats ≡ self.old.seats }
        ensures chain { self.new.chain ≡ self.old.chain }
    {
        let Some((_, seat)) = seat_among(self.seats.as_slice(), id) else {
            drop(event);
            return Ok(None);
        };
        let mut seated = seat.lock(rt);
        let desk = &mut seated.desk;
        if desk.cell().opening().name.node != id {
            drop(event);
            return Err(Refusal::WrongNode);
        }
        let taken = step_node(alloc, desk, event, pass, &mut self.posted, calls)?;
        Ok(Some(taken))
    }

    /// Takes a step of the master, under its lock.
    fn at_book<R: Wait>(
        &mut self,
        rt: &R,
        alloc: Global,
        event: BookEvent,
        pass: Pass,
    ) -> Result<CellStep, Refusal>
        ensures joins { OnOk result (NamesNode event) }
        ensures cell { IfOk result (λ taken. taken.receipt.node ≡ 0) }
        ensures ok { IfOk result (λ taken. self.new.sent ≡ self.old.sent ++ sent_of taken) }
        ensures err { OnErr result (self.new.sent ≡ self.old.sent) }
        ensures seats { self.new.seats ≡ self.old.seats }
        ensures chain { self.new.chain ≡ self.old.chain }
    {
        let mut book = self.book.lock(rt);
        if book.opening().name.node.get() != 0 {
            return Err(Refusal::WrongNode);
        }
        let taken = step_book(alloc, &mut book, event, pass, &mut self.posted)?;
        Ok(taken)
    }

    /// Delivers the message of this number to its receiver. `None` if it was not sent.
    fn deliver<R: Wait>(
        &mut self,
        rt: &R,
        alloc: Global,
        number: u64,
        pass: Pass,
        calls: &mut Vec<CallReceipt>,
    ) -> Result<Option<CellStep>, Refusal>
        ensures cell { IfOk result (λ r. IfSome r (λ taken. cell_of self.old.sent (Move.Deliver number) ≡ Some taken.receipt.node)) }
        ensures none { result ≡ Ok None → HasNoCell self.old (Move.Deliver number) }
        ensures sent { HasSent self.old.sent self.new.sent result }
        ensures seats { self.new.seats ≡ self.old.seats }
        ensures chain { self.new.chain ≡ self.old.chain }
    {
        let Some(message) = self.posted.message(number) else {
            return Ok(None);
        };
        let receiver = message.receiver;
        let event = Event::Deliver(message.copied(alloc)?);
        self.at_node(rt, alloc, receiver, event, pass, calls)
    }

    /// Keeps the receipt of a stop.
    fn keep_stop(&mut self, stop: &Receipt) -> Result<(), AllocError>
        ensures sent { self.new.sent ≡ self.old.sent }
        ensures seats { self.new.seats ≡ self.old.seats }
        ensures chain { self.new.chain ≡ self.old.chain }
    {
        self.stops.push(*stop)?;
        Ok(())
    }

    /// Stops the node of this id and keeps the receipt of the step. `None` if the chain never had
    /// it.
    fn stop<R: Wait>(
        &mut self,
        rt: &R,
        alloc: Global,
        id: NodeId,
        pass: Pass,
        calls: &mut Vec<CallReceipt>,
    ) -> Result<Option<CellStep>, Refusal>
        ensures cell { IfOk result (λ r. IfSome r (λ taken. taken.receipt.node ≡ id)) }
        ensures none { result ≡ Ok None → HasNoNode self.old.seats id }
        ensures sent { HasSent self.old.sent self.new.sent result }
        ensures seats { self.new.seats ≡ self.old.seats }
        ensures chain { self.new.chain ≡ self.old.chain }
    {
        match self.at_node(rt, alloc, id, Event::Stop, pass, calls)? {
            None => Ok(None),
            Some(taken) => match self.keep_stop(&taken.receipt) {
                Err(_) => {
                    drop(taken);
                    Err(Refusal::Memory)
                }
                Ok(()) => Ok(Some(taken)),
            },
        }
    }

    /// Returns the removal of a stopped node, with the receipt of its switch and that of its stop.
    /// `None` if the node runs, or the chain never had it.
    fn removal_of<R: Wait>(&self, rt: &R, id: NodeId) -> Option<BookEvent> {
        let (_, seat) = self.seat(id)?;
        let stopped = seat.lock(rt).desk.cell().switch().receipt()?;
        let stop = self.stops.iter().find(|stop| stop.node == id)?;
        Some(BookEvent::Remove {
            stopped,
            stop: *stop,
        })
    }

    /// Removes a stopped node from the membership. `None` if the node runs, or the chain never had
    /// it.
    fn remove<R: Wait>(
        &mut self,
        rt: &R,
        alloc: Global,
        id: NodeId,
        pass: Pass,
    ) -> Result<Option<CellStep>, Refusal>
        ensures cell { IfOk result (λ r. IfSome r (λ taken. taken.receipt.node ≡ 0)) }
        ensures sent { HasSent self.old.sent self.new.sent result }
        ensures seats { self.new.seats ≡ self.old.seats }
        ensures chain { self.new.chain ≡ self.old.chain }
    {
        match self.removal_of(rt, id) {
            None => Ok(None),
            Some(event) => {
                let taken = self.at_book(rt, alloc, event, pass)?;
                Ok(Some(taken))
            }
        }
    }

    /// Adds the seat of a node that the master's step of this receipt joined, as the last; opens
    /// its cell at the stamp of the step. Fails only when out of memory (`Memory`).
    fn add_seat(&mut self, alloc: Global, id: NodeId, joined: &Receipt) -> Result<(), Refusal>
        requires { 1 ≤ id }
        ensures ids { OnOk result (ids_of self.new ≡ ids_of self.old ++ id ∷ []) }
        ensures same { OnErr result (ids_of self.new ≡ ids_of self.old) }
        ensures err { IfErr result (λ e. e ≡ Refusal.Memory) }
        ensures sent { self.new.sent ≡ self.old.sent }
        ensures chain { self.new.chain ≡ self.old.chain }
    {
        let name = NodeName {
            chain: self.chain,
            node: id,
        };
        let seat = seat_of(alloc, name, None, self.journal, joined.stamp)?;
        self.seats.push((id, seat))?;
        Ok(())
    }

    /// Adds a node to the membership, and opens its cell at the stamp of the join.
    fn join<R: Wait>(
        &mut self,
        rt: &R,
        alloc: Global,
        id: NodeId,
        pass: Pass,
    ) -> Result<Option<CellStep>, Refusal>
        ensures cell { IfOk result (λ r. IfSome r (λ taken. taken.receipt.node ≡ 0)) }
        ensures some { result ≡ Ok None → ⊥ }
        ensures sent { HasSent self.old.sent self.new.sent result }
        ensures ids { OnOk result (ids_of self.new ≡ ids_of self.old ++ id ∷ []) }
        ensures same { OnErr result (ids_of self.new ≡ ids_of self.old) }
        ensures chain { self.new.chain ≡ self.old.chain }
    {
        let taken = self.at_book(rt, alloc, BookEvent::Join(id), pass)?;
        match self.add_seat(alloc, id, &taken.receipt) {
            Err(refusal) => {
                drop(taken);
                Err(refusal)
            }
            Ok(()) => Ok(Some(taken)),
        }
    }
}
