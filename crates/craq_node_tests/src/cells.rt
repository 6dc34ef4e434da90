//! Tests the locked nodes of a chain beyond scripts: at the last stamp, and in two threads. Run by
//! `main`, and used by `audits`, `spoiled` and `refused`.
ghost use Rattle.craq_model.specs.Encodable.{IsEncodable};

use crate::moves::{members, moves_of};
use craq_cell_chain::CellChain;
use craq_compact_history::ListCore;
use craq_model::{Event, LinkMessage};
use craq_names::{ChainId, NodeId, NodeName, Pass, Refusal, Stamp};
use craq_node::Core;
use craq_play::print_refusal;
use craq_seat::{CallReceipt, Cell, Receipt, Seat};
use std::alloc::{AllocError, Global};
use std::sync::Wait;
use std::thread;
use std::thread::Threads;

/// Opens locked nodes of chain 0, with or without journals.
pub fn opened<C: Core>(alloc: Global, ids: &[u32], journal: bool) -> Result<CellChain<C>, Refusal> {
    let members = members(alloc, ids)?;
    CellChain::open(alloc, ChainId::new(0), members.as_slice(), journal)
}

/// Prints the node and the stamp of a receipt.
fn print_receipt(text: &mut String, receipt: Receipt) -> Result<(), AllocError> {
    let node = receipt.node.get();
    let stamp = receipt.stamp.get();
    writeln!(text, "{node}@{stamp}")
}

/// Takes the moves of scripts, each with the stamp of its moves' pass, and prints the receipts of
/// the steps. Adds the receipts of answered calls to `calls`.
pub fn take_all<C: Core, R: AllocGlobal + Wait>(
    rt: &R,
    cells: &mut CellChain<C>,
    moves: &[(u64, &str)],
    calls: &mut Vec<CallReceipt>,
    text: &mut String,
) -> Result<(), Refusal> {
    let alloc = rt.alloc();
    for (shown, script) in moves {
        let pass = Pass::of(Stamp::new(*shown));
        for chosen in &moves_of(alloc, script)? {
            if let Some(taken) = cells.take(rt, alloc, chosen, pass, calls)? {
                print_receipt(text, taken.receipt)?;
            }
        }
    }
    Ok(())
}

/// Delivers a message that no node sent, and returns the receipt of the step.
pub fn deliver_at<C: Core, R: AllocGlobal + Wait>(
    rt: &R,
    seat: &Seat<C>,
    message: LinkMessage,
) -> Result<Receipt, Refusal>
    requires { IsEncodable message }
{
    let event = Event::Deliver(message);
    let (receipt, calls) = seat.lock(rt).desk.take(rt.alloc(), event, Pass::start())?;
    drop(calls?);
    Ok(receipt)
}

/// Stops a node, lets it tick, and prints the receipts, or the refusal.
fn stop_and_tick<C: Core>(
    alloc: Global,
    cell: &mut Cell<C>,
    text: &mut String,
) -> Result<(), Refusal> {
    let stopped = cell.take(alloc, Event::Stop, Pass::start())?;
    print_receipt(text, stopped)?;
    match cell.take(alloc, Event::Tick, Pass::start()) {
        Ok(receipt) => print_receipt(text, receipt)?,
        Err(refusal) => print_refusal(text, &refusal)?,
    }
    Ok(())
}

/// Returns the output of a node one below the last stamp: once stopped, it is refused because
/// stamps are used up, not as stopped.
pub fn reported_of_last_stamp<C: Core>(alloc: Global) -> Result<String, Refusal> {
    let mut text = String::new(alloc);
    let name = NodeName {
        chain: ChainId::new(0),
        node: NodeId::new(1),
    };
    let mut cell: Cell<C> = Cell::open(alloc, name, None, true, Stamp::new(u64::MAX - 1))?;
    stop_and_tick(alloc, &mut cell, &mut text)?;
    Ok(text)
}

/// The number of steps that each thread takes.
const STEPS: u64 = 100;

/// Ticks a node repeatedly, each time under its lock, and returns the stamp of the last tick.
fn tick<R: Wait>(rt: &R, alloc: Global, seat: &Seat<ListCore>) -> Result<u64, Refusal> {
    let mut last = 0;
    for _ in 0..STEPS {
        let (receipt, made) = seat.lock(rt).desk.take(alloc, Event::Tick, Pass::start())?;
        drop(made);
        last = receipt.stamp.get();
    }
    Ok(last)
}

/// Prints the stamps of the last ticks of two threads, each of which ticks a node of its own.
fn tick_in_threads<R: AllocGlobal + Threads + Wait + Sync>(
    rt: &R,
    cells: &CellChain<ListCore>,
    text: &mut String,
) -> Result<(), Refusal> {
    let alloc = rt.alloc();
    if let (Some((_, first)), Some((_, second))) = (
        cells.seat(NodeId::new(1)),
        cells.seat(NodeId::new(2)),
    ) {
        let (one, two) = thread::join(rt, || tick(rt, alloc, first), || tick(rt, alloc, second));
        let (one, two) = (one?, two?);
        writeln!(text, "{one} and {two}")?;
    }
    Ok(())
}

/// Returns the output of two threads on new nodes.
pub fn reported_of_threads<R: AllocGlobal + Threads + Wait + Sync>(
    rt: &R,
) -> Result<String, Refusal> {
    let mut text = String::new(rt.alloc());
    let cells = opened(rt.alloc(), &[1, 2], true)?;
    tick_in_threads(rt, &cells, &mut text)?;
    Ok(text)
}
