//! Finds requests, and the updates of request numbers, in a run; used by `verdict`.
ghost use Rattle.std.specs.Prelude.{◌≡◌, filter_map, IfOk};
ghost use Rattle.std.specs.Option.{option_map};
ghost use Rattle.std.specs.Borrow.{Bor};
ghost use Rattle.craq_commands.specs.declared.command.Update.{Update};
ghost use Rattle.craq_check.specs.Tests.{found_in, update_in, strong_by};
ghost use Rattle.craq_runs.specs.Seen.{asks_from, update_at, is_strong_ask, is_strong_answer};

use crate::index::{AskIndex, ask_at};
use crate::seen::AnswerSeen;
use craq_commands::{ReadMode, Update};
use craq_model::{Answer, Ask};
use craq_runs::{Move, Taken};
use std::alloc::{AllocError, Global};
use std::marker::Model;

/// An update that was requested, borrowed from the run.
#[derive(Drop)]
pub struct UpdateSeen<'a> {
    update: &'a Update,
}

impl<'a> Model for UpdateSeen<'a> {
    ghost Value = { Update };

    ghost view = { λ u. u.update.now };
}

impl<'a> UpdateSeen<'a> {
    /// Returns the update.
    pub fn update(&self) -> &'a Update
        ensures { result.now ≡ self.now }
    {
        self.update
    }
}

/// Returns the update that a move requests.
fn update_in(chosen: &Move) -> Option<&Update>
    ensures { option_map (λ (u : Bor Update). u.now) result ≡ update_in chosen.now }
{
    match chosen {
        Move::Ask { ask, .. } => match ask {
            Ask::Update(update) => Some(update),
            Ask::Read { .. } => None,
        },
        Move::Deliver(_) | Move::Tick(_) | Move::Stop(_) | Move::Remove(_) | Move::Join(_) => None,
    }
}

/// Returns the update that the move of this number requests.
fn update_at(moves: &[Taken], number: u64) -> Option<&Update>
    ensures { option_map (λ (u : Bor Update). u.now) result ≡ update_at (asks_from 1 moves.now) number }
{
    if number == 0 {
        return None;
    }
    match moves.get((number - 1) as usize) {
        Some(taken) => update_in(&taken.chosen),
        None => None,
    }
}

/// Returns the updates of these numbers; skips a number that has none.
pub fn committed<'a>(
    alloc: Global,
    moves: &'a [Taken],
    numbers: &[u64],
) -> Result<Vec<UpdateSeen<'a>>, AllocError>
    ensures { IfOk result (λ updates. updates.items ≡ filter_map (update_at (asks_from 1 moves.now)) numbers.now) }
{
    let mut updates = Vec::new(alloc);
    for number in numbers {
        if let Some(update) = update_at(moves, *number) {
            updates.push(UpdateSeen { update })?;
        }
    }
    Ok(updates)
}

/// Returns true for an update or a strong read.
fn is_strong_ask(ask: &Ask) -> bool
    ensures { result ≡ is_strong_ask ask.now }
{
    match ask {
        Ask::Update(_) => true,
        Ask::Read { mode, .. } => match mode {
            ReadMode::Strong => true,
            ReadMode::Eventual | ReadMode::Bounded(_) => false,
        },
    }
}

/// Returns true if the reply is to a strong request, or to none.
fn is_strong_answer(asks: &AskIndex, answer: &AnswerSeen) -> bool
    ensures { result ≡ is_strong_answer (found_in asks.now answer.now.node answer.now.ticket) answer.now.answer }
{
    match answer.answer() {
        Answer::Update(_) => true,
        Answer::Read { .. } => match ask_at(asks, answer.node(), answer.ticket()) {
            None => true,
            Some(ask) => is_strong_ask(ask.ask()),
        },
    }
}

/// Returns the strong replies among these, in order.
#[tactic(auto, unfolding(crate::specs::Tests::strong_by))]
pub fn strong_answers<'a>(
    alloc: Global,
    asks: &AskIndex,
    answers: Vec<AnswerSeen<'a>>,
) -> Result<Vec<AnswerSeen<'a>>, AllocError>
    ensures { IfOk result (λ strong. strong.items ≡ strong_by (found_in asks.now) answers.entry.items) }
{
    let mut strong = Vec::new(alloc);
    for answer in answers {
        if is_strong_answer(asks, &answer) {
            strong.push(answer)?;
        }
    }
    Ok(strong)
}
