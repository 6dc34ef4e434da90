//! Replays the events of each node on a new node, and on a new pending-call table; called by
//! `ways`.
ghost use Rattle.std.specs.Prelude.{IfOk, IsTrue};
ghost use Rattle.craq_node.specs.Represented.{CanArrive, CanOpen};

use super::histories::{Kept, entries_of, tell_entries};
use super::rows::{MOST_NODES, Row};
use super::teller::{Call, TRIES, Teller};
use craq_cell_chain::CellChain;
use craq_epochs::{is_among, is_membership};
use craq_model::{Event, Step};
use craq_names::{Copied, NodeId, Refusal, Same};
use craq_node::Core;
use craq_seat::{CallReceipt, Cell, Desk, Opening, Receipt, Record};
use craq_wire::spelled;
use std::alloc::{AllocError, Global};
use std::sync::Wait;

/// Returns true if a node may be given the event: a message that arrives can be encoded.
fn arrives(event: &Event) -> bool
    ensures { IsTrue result → CanArrive event.now }
{
    match event {
        Event::Deliver(message) => spelled(message),
        _ => true,
    }
}

/// Copies an event that a node may be given.
fn arriving(alloc: Global, event: &Event) -> Result<Event, Refusal>
    ensures { IfOk result CanArrive }
{
    if !arrives(event) {
        return Err(Refusal::BadFrame);
    }
    Ok(event.copied(alloc)?)
}

/// Returns true if a node may be opened so: it has an id, and is a member of the first membership
/// it is given.
fn can_open(opening: &Opening) -> bool
    ensures { IsTrue result → CanOpen opening.now.name opening.now.config }
{
    let id = opening.name.node;
    id.get() >= 1
        && match &opening.config {
            None => true,
            Some(config) => {
                config.epoch.get() == 1
                    && is_membership(config.members.as_slice())
                    && is_among(config.members.as_slice(), id)
            }
        }
}

/// Returns the kind of call that the event's step is: a stop and an ignored message take no memory.
fn call_of(record: &Record<Event>) -> Call {
    match &record.event {
        Event::Stop => Call::QuietStep,
        _ if record.step.ignored.is_some() => Call::QuietStep,
        _ => Call::Step,
    }
}

/// Prints a step, and whether it equals the wanted one.
fn tell_step(teller: Teller, step: &Result<Step, Refusal>, wanted: &Step) {
    let is_same = match step {
        Ok(step) => step.is_same(wanted),
        Err(_) => false,
    };
    let _ = println!(teller.host; "same: {is_same} {step:?}");
}

/// Takes the step of an event on a node. Prints what it did to the node's history, unless the step
/// takes no memory.
fn step<C: Core + Kept>(teller: Teller, node: &mut C, record: &Record<Event>) {
    let call = call_of(record);
    for _ in 0..TRIES {
        if let Ok(event) = arriving(teller.alloc, &record.event) {
            let before = entries_of(node);
            teller.begin(call);
            let stepped = node.step(teller.alloc, event);
            let is_done = teller.end(call, matches!(&stepped, Err(Refusal::Memory)));
            if is_done {
                tell_step(teller, &stepped, &record.step);
                if matches!(call, Call::Step) {
                    tell_entries(teller, before, entries_of(node));
                }
            }
            drop(stepped);
            if is_done {
                break;
            }
        }
    }
}

/// Takes the steps of this journaled node on a new node; each must equal the recorded step.
fn step_again<C: Core + Kept>(teller: Teller, cell: &Cell<C>) -> Result<(), Refusal> {
    let opening = cell.opening();
    if !can_open(opening) {
        return Err(Refusal::UsedId);
    }
    let mut node = C::open(teller.alloc, opening.name, opening.config.as_ref())?;
    for record in cell.journal().unwrap_or(&[]) {
        step(teller, &mut node, record);
    }
    Ok(())
}

/// Prints the receipt of a step, and those of the calls that it answers, in lines that begin with
/// `call`.
fn tell_taken(teller: Teller, receipt: &Receipt, calls: &Result<Vec<CallReceipt>, AllocError>) {
    let _ = println!(teller.host; "{receipt:?}");
    match calls {
        Ok(calls) => {
            for call in calls {
                let _ = println!(teller.host; "call {call:?}");
            }
        }
        Err(_) => teller.took_step(Call::DeskTake),
    }
}

/// Takes the step of an event on a pending-call table.
fn take<C: Core>(teller: Teller, desk: &mut Desk<C>, record: &Record<Event>) {
    for _ in 0..TRIES {
        if let Ok(event) = arriving(teller.alloc, &record.event) {
            teller.begin(Call::DeskTake);
            let taken = desk.take(teller.alloc, event, record.pass);
            let is_done = teller.end(Call::DeskTake, matches!(&taken, Err(Refusal::Memory)));
            if is_done {
                if let Ok((receipt, calls)) = &taken {
                    tell_taken(teller, receipt, calls);
                }
            }
            drop(taken);
            if is_done {
                break;
            }
        }
    }
}

/// Takes the steps of this journaled node on a new pending-call table; each must equal the recorded
/// step.
fn take_again<C: Core>(teller: Teller, cell: &Cell<C>) -> Result<(), Refusal> {
    let opening = cell.opening();
    if !can_open(opening) {
        return Err(Refusal::UsedId);
    }
    let opened: Cell<C> = Cell::open(
        teller.alloc,
        opening.name,
        opening.config.as_ref(),
        true,
        opening.stamp,
    )?;
    let mut desk = Desk::new(teller.alloc, opened);
    for record in cell.journal().unwrap_or(&[]) {
        take(teller, &mut desk, record);
        let is_same = match desk.cell().last() {
            Some(step) => step.is_same(&record.step),
            None => false,
        };
        let _ = println!(teller.host; "same: {is_same}");
    }
    Ok(())
}

/// Replays the steps of each node on a new node, or on a new pending-call table.
pub fn play<C: Core + Kept, R: Wait>(
    rt: &R,
    teller: Teller,
    row: &Row,
    desks: bool,
) -> Result<(), Refusal> {
    let (cells, calls): (CellChain<C>, Vec<CallReceipt>) = row.cells(rt, teller.alloc)?;
    drop(calls);
    for id in 1..=MOST_NODES {
        if let Some((_, seat)) = cells.seat(NodeId::new(id)) {
            let seated = seat.lock(rt);
            let cell = seated.desk.cell();
            let reported = if desks {
                take_again(teller, cell)
            } else {
                step_again(teller, cell)
            };
            if reported.is_err() {
                let _ = println!(teller.host; "node {id} is not opened");
            }
        }
    }
    Ok(())
}
