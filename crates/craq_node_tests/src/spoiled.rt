//! Tests that both cores take the same steps if corrupted messages arrive after each move of a
//! script; run by `main`.
ghost use Rattle.std.specs.Prelude.{◌<◌, ◌≤◌};
ghost use Rattle.craq_model.specs.Encodable.{IsEncodable};

use crate::cells::{deliver_at, opened};
use crate::moves::moves_of;
use craq_cell_chain::{CellChain, CellStep};
use craq_compact_history::ListCore;
use craq_model::{LinkMessage, Out, Why};
use craq_names::{NodeId, Pass, Refusal, Same};
use craq_node::Core;
use craq_play::{PlainCore, word_of};
use craq_runs::Move;
use craq_seat::{Receipt, Record};
use craq_wire::{decode, encode, spelled};
use rand_core::utils::NextWord;
use rand_pcg::Pcg32;
use std::alloc::{AllocError, Global};
use std::fs;
use std::rt::Files;
use std::sync::Wait;

/// A script of `data/`, and the members of its chain.
#[derive(Clone, Copy)]
pub struct Case {
    pub file: &'static str,
    members: &'static [u32],
}

/// Randomly generated scripts. Those of one node write more objects than one part of a state has,
/// so it is sent in parts.
pub static CASES: [Case; 4] = [
    Case {
        file: "random-1.script",
        members: &[1, 2, 3],
    },
    Case {
        file: "random-2.script",
        members: &[1],
    },
    Case {
        file: "random-3.script",
        members: &[1, 2, 3],
    },
    Case {
        file: "random-4.script",
        members: &[1],
    },
];

/// The greatest id of a node.
const MOST_NODES: u32 = 8;

/// The number of times after a move that a message of each node arrives corrupted.
const TIMES: u32 = 2;

/// The number of a node's last steps from which a message is chosen.
const LATELY: usize = 12;

/// The outcome of a move or a corrupted message: the receipt of the step, `None` if no node could
/// take it, or the refusal.
type Taken = Result<Option<Receipt>, Refusal>;

/// Returns the outcome of a move, without the step itself.
fn receipt_in(done: Result<Option<CellStep>, Refusal>) -> Taken {
    Ok(done?.map(|taken| taken.receipt))
}

/// Draws a random number below the bound.
fn below(dice: &mut Pcg32, bound: u32) -> u32
    ensures { 1 ≤ bound → result < bound }
{
    let word = dice.next_word();
    if bound == 0 { 0 } else { word % bound }
}

/// Draws a random index into a list of `count` items.
fn place_in(dice: &mut Pcg32, count: usize) -> usize {
    let word = dice.next_word() as usize;
    if count == 0 { 0 } else { word % count }
}

/// Returns a random message sent in one of the last steps, if there is one.
fn sent_lately<'a, E>(dice: &mut Pcg32, steps: &'a [Record<E>]) -> Option<&'a LinkMessage> {
    let back = place_in(dice, LATELY).saturating_add(1);
    let record = steps.get(steps.len().checked_sub(back)?)?;
    let outs = record.step.outs.as_slice();
    match outs.get(place_in(dice, outs.len()))? {
        Out::Send { message, .. } => Some(message),
        Out::Answer { .. } => None,
    }
}

/// Returns the index of the first nonzero byte from `from` on, or 0 if there is none.
fn next_filled(bytes: &[u8], from: usize) -> usize {
    for (at, byte) in bytes.iter().enumerate() {
        if at >= from && *byte != 0 {
            return at;
        }
    }
    0
}

/// Changes the first nonzero byte from a random index on.
fn spoil(dice: &mut Pcg32, bytes: &mut [u8]) {
    let from = place_in(dice, bytes.len());
    let by = match below(dice, 4) {
        0 => 1,
        1 => u8::MAX,
        2 => 2,
        _ => below(dice, 256) as u8,
    };
    let at = next_filled(bytes, from);
    if let Some(byte) = bytes.get_mut(at) {
        *byte = byte.wrapping_add(by);
    }
}

/// Returns the bytes of a message that was sent lately, with one byte changed; no bytes if there is
/// no such message.
fn spoiled<E>(alloc: Global, dice: &mut Pcg32, steps: &[Record<E>]) -> Result<Vec<u8>, AllocError> {
    let mut bytes = Vec::new(alloc);
    if let Some(message) = sent_lately(dice, steps) {
        if spelled(message) {
            bytes.extend_from_slice(encode(alloc, message)?.as_slice())?;
            spoil(dice, bytes.as_mut_slice());
        }
    }
    Ok(bytes)
}

/// Returns the corrupted bytes of a message sent lately by the node of this id, or by the master
/// for 0.
fn spoiled_of<C: Core, R: AllocGlobal + Wait>(
    rt: &R,
    cells: &CellChain<C>,
    id: u32,
    dice: &mut Pcg32,
) -> Result<Vec<u8>, AllocError> {
    let alloc = rt.alloc();
    if id == 0 {
        let book = cells.book().lock(rt);
        return spoiled(alloc, dice, book.journal().unwrap_or(&[]));
    }
    match cells.seat(NodeId::new(id)) {
        None => Ok(Vec::new(alloc)),
        Some((_, seat)) => {
            let seated = seat.lock(rt);
            spoiled(alloc, dice, seated.desk.cell().journal().unwrap_or(&[]))
        }
    }
}

/// Delivers a corrupted message to its receiver, or at random to another node, and returns the
/// outcome.
fn deliver<C: Core, R: AllocGlobal + Wait>(
    rt: &R,
    cells: &CellChain<C>,
    dice: &mut Pcg32,
    message: LinkMessage,
) -> Taken
    requires { IsEncodable message }
{
    let to = match below(dice, 10) {
        0 => NodeId::new(below(dice, MOST_NODES) + 1),
        _ => message.receiver,
    };
    let Some((_, seat)) = cells.seat(to) else {
        drop(message);
        return Ok(None);
    };
    let receipt = deliver_at(rt, seat, message)?;
    Ok(Some(receipt))
}

/// Delivers corrupted messages of each node that still decode, and keeps the outcomes.
fn deliver_spoiled<C: Core, R: AllocGlobal + Wait>(
    rt: &R,
    cells: &CellChain<C>,
    dice: &mut Pcg32,
    taken: &mut Vec<Taken>,
) -> Result<(), AllocError> {
    for transition in 0..TIMES * (MOST_NODES + 1) {
        let bytes = spoiled_of(rt, cells, transition % (MOST_NODES + 1), dice)?;
        if let Ok(message) = decode(rt.alloc(), bytes.as_slice()) {
            taken.push(deliver(rt, cells, dice, message))?;
        }
    }
    Ok(())
}

/// Takes the moves, delivers corrupted messages after each, and keeps the outcomes. Returns the
/// number of answered calls.
fn play<C: Core, R: AllocGlobal + Wait>(
    rt: &R,
    cells: &mut CellChain<C>,
    moves: &[Move],
    taken: &mut Vec<Taken>,
) -> Result<usize, AllocError> {
    let mut dice = Pcg32::new(1, 1);
    let mut calls = Vec::new(rt.alloc());
    for chosen in moves {
        let done = cells.take(rt, rt.alloc(), chosen, Pass::start(), &mut calls);
        taken.push(receipt_in(done))?;
        deliver_spoiled(rt, cells, &mut dice, taken)?;
    }
    Ok(calls.len())
}

/// Returns true if the two journals hold the same steps with the same stamps.
fn are_same<E>(one: &[Record<E>], other: &[Record<E>]) -> bool {
    for (mine, theirs) in one.iter().zip(other) {
        if mine.stamp != theirs.stamp || !mine.step.is_same(&theirs.step) {
            return false;
        }
    }
    one.len() == other.len()
}

/// Returns true if the nodes of this id took the same steps, or neither chain has one.
fn agree_at<P: Core, L: Core, R: Wait>(
    rt: &R,
    plain: &CellChain<P>,
    list: &CellChain<L>,
    id: NodeId,
) -> bool {
    match (plain.seat(id), list.seat(id)) {
        (None, None) => true,
        (Some((_, one)), Some((_, other))) => are_same(
            one.lock(rt).desk.cell().journal().unwrap_or(&[]),
            other.lock(rt).desk.cell().journal().unwrap_or(&[]),
        ),
        _ => false,
    }
}

/// Returns true if the nodes of the two chains took the same steps.
fn agree<P: Core, L: Core, R: Wait>(rt: &R, plain: &CellChain<P>, list: &CellChain<L>) -> bool {
    for id in 1..MOST_NODES + 1 {
        if !agree_at(rt, plain, list, NodeId::new(id)) {
            return false;
        }
    }
    are_same(
        plain.book().lock(rt).journal().unwrap_or(&[]),
        list.book().lock(rt).journal().unwrap_or(&[]),
    )
}

/// Adds the reasons for which nodes ignored messages in these steps, without duplicates.
fn add_reasons<E>(steps: &[Record<E>], reasons: &mut Vec<Why>) -> Result<(), AllocError> {
    for record in steps {
        if let Some(why) = record.step.ignored {
            if !reasons.iter().any(|known| *known == why) {
                reasons.push(why)?;
            }
        }
    }
    Ok(())
}

/// Prints the reasons for which the nodes of a chain ignored messages, each once.
fn print_reasons<C: Core, R: AllocGlobal + Wait>(
    rt: &R,
    cells: &CellChain<C>,
    text: &mut String,
) -> Result<(), AllocError> {
    let mut reasons = Vec::new(rt.alloc());
    for id in 1..MOST_NODES + 1 {
        if let Some((_, seat)) = cells.seat(NodeId::new(id)) {
            let seated = seat.lock(rt);
            add_reasons(seated.desk.cell().journal().unwrap_or(&[]), &mut reasons)?;
        }
    }
    for why in reasons.as_slice() {
        let word = word_of(*why);
        writeln!(text, "{word}")?;
    }
    Ok(())
}

/// Prints whether both chains do the same with these moves; the number of moves, alone and with
/// corrupted messages; and the reasons for which messages were ignored.
fn play_both<P: Core, L: Core, R: AllocGlobal + Wait>(
    rt: &R,
    plain: &mut CellChain<P>,
    list: &mut CellChain<L>,
    moves: &[Move],
    text: &mut String,
) -> Result<(), AllocError> {
    let (mut one, mut other) = (Vec::new(rt.alloc()), Vec::new(rt.alloc()));
    let calls = play(rt, plain, moves, &mut one)?;
    let others = play(rt, list, moves, &mut other)?;
    let is_same = calls == others && one.as_slice() == other.as_slice() && agree(rt, plain, list);
    let (asked, came) = (moves.len(), other.len());
    writeln!(text, "{is_same}\n{asked} moves\n{came} with messages")?;
    print_reasons(rt, list, text)
}

/// Plays a script's moves on two new chains, and prints what `play_both` does.
fn play_new<P: Core, L: Core, R: AllocGlobal + Wait>(
    rt: &R,
    members: &[u32],
    script: &str,
    text: &mut String,
) -> Result<(), Refusal> {
    let moves = moves_of(rt.alloc(), script)?;
    let mut plain: CellChain<P> = opened(rt.alloc(), members, true)?;
    let mut list: CellChain<L> = opened(rt.alloc(), members, true)?;
    play_both(rt, &mut plain, &mut list, moves.as_slice(), text)?;
    Ok(())
}

/// Returns the output of a case.
pub fn reported<R: AllocGlobal + Files + Wait>(rt: &R, case: &Case) -> Result<String, Refusal> {
    let mut text = String::new(rt.alloc());
    let script = fs::read_to_string(rt, case.file).map_err(|_| Refusal::Memory)?;
    play_new::<PlainCore, ListCore, R>(rt, case.members, script.as_str(), &mut text)?;
    Ok(text)
}
