//! The whole test of an explanation: `check`, the function of the crate.
ghost use Rattle.std.specs.Prelude.{◌≡◌, ◌↔◌, true, IfOk, length};
ghost use Rattle.craq_commands.specs.SingleCopy.{opening_state};
ghost use Rattle.craq_runs.specs.Seen.{seen};
ghost use Rattle.craq_runs.specs.Valid.{IsChecked};
ghost use Rattle.craq_check.specs.Tests.{found_in, has_form, only_grows, strong_hold, is_checked_by, is_checked};

use crate::form::{are_asked_in_time, are_named, committed_after, never_fall};
use crate::index::{AskIndex, index_of};
use crate::lookups::{UpdateSeen, committed, strong_answers};
use crate::once::{are_names_once, are_requests_once};
use crate::seen::{AnswerSeen, answers_of, asks_of};
use crate::strong::{are_in_time, are_said};
use craq_runs::{Explanation, Run};
use std::alloc::{AllocError, Global};

/// Returns true if each number names an update, each move has a length and each strong reply a
/// place.
#[tactic(auto, unfolding(crate::specs::Tests::has_form))]
fn has_form(
    moves: u64,
    answers: &[AnswerSeen],
    updates: &[UpdateSeen],
    explanation: &Explanation,
) -> bool
    ensures { result ≡ has_form moves answers.now updates.now explanation.now }
{
    updates.len() == explanation.asks.len()
        && explanation.lens.len() as u64 == moves
        && are_named(answers, explanation.places.as_slice())
}

/// Returns true if the list of committed updates only grows, by updates that were requested, no
/// request twice.
#[tactic(auto, unfolding(crate::specs::Tests::only_grows))]
fn only_grows(
    alloc: Global,
    moves: u64,
    updates: &[UpdateSeen],
    explanation: &Explanation,
) -> Result<bool, AllocError>
    ensures { IfOk result (λ b. b ≡ only_grows moves updates.now explanation.now) }
{
    let lens = explanation.lens.as_slice();
    if !never_fall(lens) {
        return Ok(false);
    }
    if committed_after(lens, moves) != updates.len() as u64 {
        return Ok(false);
    }
    if !are_asked_in_time(explanation.asks.as_slice(), lens) {
        return Ok(false);
    }
    are_requests_once(alloc, updates)
}

/// Returns true if no request has two strong replies, each strong reply was reached in time, and is
/// the single copy's at its place.
#[tactic(auto, unfolding(crate::specs::Tests::strong_hold))]
fn strong_hold(
    alloc: Global,
    asks: &AskIndex,
    answers: &[AnswerSeen],
    updates: &[UpdateSeen],
    explanation: &Explanation,
) -> Result<bool, AllocError>
    ensures { IfOk result (λ b. b ≡ strong_hold (found_in asks.now) answers.now updates.now explanation.now) }
{
    let places = explanation.places.as_slice();
    if !are_names_once(alloc, answers)? {
        return Ok(false);
    }
    if !are_in_time(asks, explanation.lens.as_slice(), answers, places) {
        return Ok(false);
    }
    are_said(alloc, asks, answers, places, updates)
}

/// Returns true if all tests pass, with this index of the requests.
#[tactic(auto, unfolding(crate::specs::Tests::is_checked_by))]
fn is_checked_by(
    alloc: Global,
    asks: &AskIndex,
    run: &Run,
    explanation: &Explanation,
) -> Result<bool, AllocError>
    ensures { IfOk result (λ b. b ≡ is_checked_by (found_in asks.now) (seen run.now) explanation.now) }
{
    let moves = run.moves.as_slice();
    let count = moves.len() as u64;
    let given = answers_of(alloc, moves)?;
    let answers = strong_answers(alloc, asks, given)?;
    let updates = committed(alloc, moves, explanation.asks.as_slice())?;
    if !has_form(count, answers.as_slice(), updates.as_slice(), explanation) {
        return Ok(false);
    }
    if !only_grows(alloc, count, updates.as_slice(), explanation)? {
        return Ok(false);
    }
    strong_hold(
        alloc,
        asks,
        answers.as_slice(),
        updates.as_slice(),
        explanation,
    )
}

/// Returns true if all tests pass.
fn is_checked(alloc: Global, run: &Run, explanation: &Explanation) -> Result<bool, AllocError>
    ensures { IfOk result (λ b. b ≡ is_checked (seen run.now) explanation.now) }
{
    let moves = run.moves.as_slice();
    let asks = asks_of(alloc, moves)?;
    let lent = asks.as_slice();
    let index = index_of(alloc, lent)?;
    let met = is_checked_by(alloc, &index, run, explanation)?;
    Ok(met)
}

/// Returns true if the explanation holds of the run, as far as requests, committed updates and
/// strong replies show. It has its form: each number names an update that was requested, each move
/// has a length, each strong reply a place in order. The list of committed updates only grows, by
/// updates that were requested by then, no client's number twice. Each strong reply is the single
/// copy's at its place, which was reached between the request and the reply; no request has two
/// replies. That the strong replies of a chain are those of one copy, each at a moment between
/// request and reply, is CRAQ's promise (USENIX ATC 2009 paper).
///
/// Reads only the run and the explanation. Each move, request, committed update and reply is looked
/// at a few times, found by hash or by key, and the strong replies are sorted. Fails only when out
/// of memory.
pub fn check(alloc: Global, run: &Run, explanation: &Explanation) -> Result<bool, AllocError>
    ensures { IfOk result (λ b. (b ≡ true) ↔ IsChecked (seen run.now) explanation.now) }
{
    let holds = is_checked(alloc, run, explanation)?;
    Ok(holds)
}
