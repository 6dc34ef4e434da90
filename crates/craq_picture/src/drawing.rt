//! Computes the drawing of a run as a value, without text or coordinates; `painting` turns it into
//! a picture.
ghost use Rattle.std.specs.Prelude.{◌≡◌, ◌++◌, List, length, map, IfOk, OnOk};
ghost use Rattle.std.specs.List.{sum_by};
ghost use Rattle.craq_runs.specs.Chain.{sent_in};
ghost use Rattle.craq_runs.specs.declared.run.Taken.{Taken};
ghost use Rattle.craq_picture.specs.Drawn.{arrivals_from, arrow_of, arrows_of, columns_of, is_at_master, joined_in, master_in, receivers_of, rows_from, sends_from, sends_in};

use craq_model::{Out, Why};
use craq_names::{Items, NodeId};
use craq_runs::{Explanation, Move, Run, Taken};
use std::alloc::{AllocError, Global};

/// A message that was sent.
#[derive(Clone, Copy)]
pub struct SentMessage {
    /// Its number, from 1 in the order of sending.
    pub number: u64,
    /// The number of the move that sent it, from 1.
    pub row: u64,
    /// Its index among the outputs of that move's step, from 0.
    pub place: u64,
    pub from: NodeId,
    pub to: NodeId,
}

/// An arrival of a message.
#[derive(Clone, Copy)]
pub struct MessageArrival {
    /// The number of the move that delivered it, from 1.
    pub row: u64,
    /// The reason that it was ignored, if it was.
    pub ignored: Option<Why>,
}

/// A message and its arrivals: none, one or several.
#[derive(Drop)]
pub struct Arrow {
    pub sent: SentMessage,
    pub arrivals: Items<MessageArrival>,
}

/// A move.
#[derive(Clone, Copy)]
pub struct Row {
    /// The node at which it happened; 0 is the master.
    pub node: NodeId,
    /// The number of updates committed after it.
    pub committed: u64,
}

/// A run as columns, rows and arrows.
#[derive(Drop)]
pub struct Drawing {
    /// The master if a move is at it, the members before the first move, and each node that joined.
    pub columns: Items<NodeId>,
    /// A row for each move.
    pub rows: Items<Row>,
    /// An arrow for each message, in the order of sending.
    pub arrows: Items<Arrow>,
}

/// Adds the messages among the outputs of a row's step.
fn add_sends(sends: &mut Vec<SentMessage>, row: u64, outs: &[Out]) -> Result<(), AllocError>
    ensures { OnOk result (sends.new.items ≡ sends.old.items ++ sends_in (length sends.old.items) row 0 outs.now) }
{
    for (place, out) in outs.iter().enumerate() {
        if let Out::Send { to: _, message } = out {
            let sent = SentMessage {
                number: sends.len() as u64 + 1,
                row,
                place: place as u64,
                from: message.sender,
                to: message.receiver,
            };
            sends.push(sent)?;
        }
    }
    Ok(())
}

/// Returns the messages that the moves send, in order.
fn sends_of(alloc: Global, moves: &[Taken]) -> Result<Vec<SentMessage>, AllocError>
    ensures { IfOk result (λ sends. sends.items ≡ sends_from 0 1 moves.now) }
{
    let mut sends = Vec::new(alloc);
    for (index, taken) in moves.iter().enumerate() {
        add_sends(&mut sends, index as u64 + 1, taken.step.outs.as_slice())?;
    }
    Ok(sends)
}

/// Returns the arrivals of the message of this number.
fn arrivals_of(
    alloc: Global,
    moves: &[Taken],
    number: u64,
) -> Result<Items<MessageArrival>, AllocError>
    ensures { IfOk result (λ arrivals. arrivals ≡ arrivals_from number 1 moves.now) }
{
    let mut arrivals = Items::new(alloc);
    for (index, taken) in moves.iter().enumerate() {
        if let Move::Deliver(delivered) = &taken.chosen
            && *delivered == number
        {
            arrivals.push(MessageArrival {
                row: index as u64 + 1,
                ignored: taken.step.ignored,
            })?;
        }
    }
    Ok(arrivals)
}

/// Returns an arrow for each message that was sent.
fn arrows_of(
    alloc: Global,
    moves: &[Taken],
    sends: &[SentMessage],
) -> Result<Items<Arrow>, AllocError>
    ensures { IfOk result (λ arrows. arrows ≡ map (arrow_of moves.now) sends.now) }
{
    let mut arrows = Items::new(alloc);
    for sent in sends {
        let arrivals = arrivals_of(alloc, moves, sent.number)?;
        arrows.push(Arrow {
            sent: *sent,
            arrivals,
        })?;
    }
    Ok(arrows)
}

/// Returns the receiver of each message, in the order of sending.
fn receivers_of(alloc: Global, sends: &[SentMessage]) -> Result<Vec<NodeId>, AllocError>
    ensures { IfOk result (λ receivers. receivers.items ≡ receivers_of sends.now) }
{
    sends.iter().map(|sent| sent.to).collect(alloc)
}

/// Returns a row for each move.
fn rows_of(
    alloc: Global,
    moves: &[Taken],
    receivers: &[NodeId],
    lens: &[u64],
) -> Result<Items<Row>, AllocError>
    ensures { IfOk result (λ rows. rows ≡ rows_from receivers.now lens.now 0 moves.now) }
{
    let mut rows = Items::new(alloc);
    for (index, taken) in moves.iter().enumerate() {
        let committed = lens.get(index).copied().unwrap_or(0);
        rows.push(Row {
            node: taken.chosen.node(receivers),
            committed,
        })?;
    }
    Ok(rows)
}

/// Returns the master if a move is at it, the opening members, and each node that joined.
fn columns_of(alloc: Global, run: &Run) -> Result<Items<NodeId>, AllocError>
    ensures { IfOk result (λ columns. columns ≡ columns_of run.now) }
{
    let mut columns = Items::new(alloc);
    add_master(&mut columns, run.moves.as_slice())?;
    add_members(&mut columns, run.members.as_slice())?;
    add_joined(&mut columns, run.moves.as_slice())?;
    Ok(columns)
}

/// Reports whether a move is at the master.
fn is_at_master(chosen: &Move) -> bool
    ensures { result ≡ is_at_master chosen.now }
{
    match chosen {
        Move::Tick(node) => node.get() == 0,
        Move::Remove(_) | Move::Join(_) => true,
        Move::Ask { node: _, ask: _ } | Move::Deliver(_) | Move::Stop(_) => false,
    }
}

/// Adds the master if a move is at it.
fn add_master(columns: &mut Items<NodeId>, moves: &[Taken]) -> Result<(), AllocError>
    ensures { OnOk result (columns.new ≡ columns.old ++ master_in moves.now) }
{
    for taken in moves {
        if is_at_master(&taken.chosen) {
            return columns.push(NodeId::new(0));
        }
    }
    Ok(())
}

/// Adds these nodes.
fn add_members(columns: &mut Items<NodeId>, members: &[NodeId]) -> Result<(), AllocError>
    ensures { OnOk result (columns.new ≡ columns.old ++ members.now) }
{
    for member in members {
        columns.push(*member)?;
    }
    Ok(())
}

/// Adds each node that joins.
fn add_joined(columns: &mut Items<NodeId>, moves: &[Taken]) -> Result<(), AllocError>
    ensures { OnOk result (columns.new ≡ columns.old ++ joined_in moves.now) }
{
    for taken in moves {
        if let Move::Join(node) = &taken.chosen {
            columns.push(*node)?;
        }
    }
    Ok(())
}

/// Computes the drawing of a run: a column for each node, and for the master if a move is at it, a
/// row for each move, and an arrow for each message. An arrow goes from the row that sent the
/// message to the rows that received it. Each row has the number of updates committed after it, by
/// the linearization witness.
///
/// Fails only when out of memory. Takes time proportional to moves times messages.
#[tactic(auto, using(crate::proofs::Counts::each_message, crate::proofs::Counts::each_move))]
pub fn drawing_of(
    alloc: Global,
    run: &Run,
    explanation: &Explanation,
) -> Result<Drawing, AllocError>
    ensures columns { IfOk result (λ d. d.columns ≡ columns_of run.now) }
    ensures arrows { IfOk result (λ d. d.arrows ≡ arrows_of run.now.moves) }
    ensures rows { IfOk result (λ d. d.rows ≡ rows_from (receivers_of (sends_from 0 1 run.now.moves)) explanation.now.lens 0 run.now.moves) }
    ensures each_message { IfOk result (λ d. length d.arrows ≡ sum_by (λ (t : Taken). length (sent_in t.step.outs)) run.now.moves) }
    ensures each_move { IfOk result (λ d. length d.rows ≡ length run.now.moves) }
{
    let moves = run.moves.as_slice();
    let sends = sends_of(alloc, moves)?;
    let sends = sends.as_slice();
    let receivers = receivers_of(alloc, sends)?;
    Ok(Drawing {
        columns: columns_of(alloc, run)?,
        rows: rows_of(
            alloc,
            moves,
            receivers.as_slice(),
            explanation.lens.as_slice(),
        )?,
        arrows: arrows_of(alloc, moves, sends)?,
    })
}
