//! Tests of the strong replies: each place was reached in time, and each reply is the single copy's
//! at its place; used by `verdict`.
ghost use Rattle.std.specs.Prelude.{◌≡◌, ◌≤◌, length, drop, IfOk, IfSome};
ghost use Rattle.std.specs.Option.{option_map};
ghost use Rattle.std.specs.List.Sorted.{IsNonDecreasingBy, IsPermutation};
ghost use Rattle.craq_commands.specs.SingleCopy.{opening_state};
ghost use Rattle.craq_check.specs.Tests.{Placed, found_in, all_pairs, is_in_time, are_in_time, is_said_to, said_first, placed, are_said};

use crate::form::committed_after;
use crate::index::{AskIndex, ask_at};
use crate::lookups::UpdateSeen;
use crate::seen::AnswerSeen;
use crate::single::Single;
use craq_commands::Mini;
use craq_runs::Place;
use std::alloc::{AllocError, Global};
use std::marker::Model;

/// Returns true if the reply's place was reached between its request and the reply.
fn is_in_time(asks: &AskIndex, lens: &[u64], answer: &AnswerSeen, place: &Place) -> bool
    ensures { result ≡ is_in_time lens.now answer.now place.now (found_in asks.now answer.now.node answer.now.ticket) }
{
    match ask_at(asks, answer.node(), answer.ticket()) {
        None => false,
        Some(ask) => {
            ask.number() <= answer.number()
                && committed_after(lens, ask.number().saturating_sub(1)) <= place.position.get()
                && place.position.get() <= committed_after(lens, answer.number())
        }
    }
}

/// Returns true if the places match the replies one to one, each reached between the request and
/// the reply.
#[tactic(auto, unfolding(crate::specs::Tests::all_pairs, crate::specs::Tests::are_in_time))]
pub fn are_in_time(asks: &AskIndex, lens: &[u64], answers: &[AnswerSeen], places: &[Place]) -> bool
    ensures { result ≡ are_in_time (found_in asks.now) lens.now answers.now places.now }
{
    let mut rest = places;
    for answer in answers {
        let [place, later @ ..] = rest else {
            return false;
        };
        if !is_in_time(asks, lens, answer, place) {
            return false;
        }
        rest = later;
    }
    rest.is_empty()
}

/// A reply with the place claimed for it: the number of updates after which the single copy gave
/// it.
#[derive(Drop)]
pub struct Claim<'s, 'a> {
    answer: &'s AnswerSeen<'a>,
    position: u64,
}

impl<'s, 'a> Model for Claim<'s, 'a> {
    ghost Value = { Placed };

    ghost view = { λ p. (p.answer.now, p.position) };
}

/// Pairs the replies with their places, in order.
#[tactic(auto, unfolding(crate::specs::Tests::placed))]
fn claims_of<'s, 'a>(
    alloc: Global,
    answers: &'s [AnswerSeen<'a>],
    places: &[Place],
) -> Result<Vec<Claim<'s, 'a>>, AllocError>
    ensures { IfOk result (λ claims. claims.items ≡ placed answers.now places.now) }
{
    let mut claims = Vec::new(alloc);
    let mut rest = places;
    for answer in answers {
        let [place, later @ ..] = rest else {
            return Ok(claims);
        };
        claims.push(Claim {
            answer,
            position: place.position.get(),
        })?;
        rest = later;
    }
    Ok(claims)
}

/// Sorts the claims by place.
fn in_order<'s, 'a>(mut claims: Vec<Claim<'s, 'a>>) -> Vec<Claim<'s, 'a>>
    ensures same { IsPermutation claims.entry.items result.items }
    ensures rising { IsNonDecreasingBy (λ (x : Placed). x.1) result.items }
{
    claims.sort_unstable_by_key(|claim| claim.position);
    claims
}

/// Returns true if the reply is the single copy's.
fn is_said_to(asks: &AskIndex, single: &Single, answer: &AnswerSeen) -> bool
    ensures { result ≡ is_said_to single.now answer.now (found_in asks.now answer.now.node answer.now.ticket) }
{
    match ask_at(asks, answer.node(), answer.ticket()) {
        None => false,
        Some(ask) => single.answers(ask.ask(), answer.answer()),
    }
}

/// Returns the index, at least `from`, of the first claim that is not placed after `count` updates;
/// `None` if a claim before it is not the single copy's.
#[tactic(auto, unfolding(crate::specs::Tests::said_first))]
fn said_from(
    asks: &AskIndex,
    single: &Single,
    count: u64,
    claims: &[Claim],
    from: usize,
) -> Option<usize>
    requires { from ≤ length claims.now }
    ensures first { option_map (λ i. drop i claims.now) result ≡ said_first (found_in asks.now) single.now count (drop from claims.now) }
    ensures within { IfSome result (λ i. i ≤ length claims.now) }
{
    for i in from..claims.len() {
        let claim = &claims[i];
        if claim.position != count {
            return Some(i);
        }
        if !is_said_to(asks, single, claim.answer) {
            return None;
        }
    }
    Some(claims.len())
}

/// Returns true if each reply is the single copy's at its place. The copy applies each update once,
/// and each reply is tested once, in the order of places.
fn are_said_in_order(
    alloc: Global,
    asks: &AskIndex,
    claims: &[Claim],
    updates: &[UpdateSeen],
) -> Result<bool, AllocError>
    requires { IsNonDecreasingBy (λ (x : Placed). x.1) claims.now }
    ensures { IfOk result (λ b. b ≡ are_said (found_in asks.now) claims.now opening_state 0 updates.now) }
{
    let mut single = Single::new(alloc);
    let mut count = 0;
    let mut highest = 0;
    let mut from = 0;
    for update in updates {
        match said_from(asks, &single, count, claims, from) {
            Some(next) => from = next,
            None => return Ok(false),
        }
        single.apply(alloc, update.update(), highest)?;
        highest += Mini::MOST_ITEMS as u64;
        count += 1;
    }
    let last = said_from(asks, &single, count, claims, from);
    Ok(last.is_some())
}

/// Returns true if each reply is the single copy's at its place.
pub fn are_said(
    alloc: Global,
    asks: &AskIndex,
    answers: &[AnswerSeen],
    places: &[Place],
    updates: &[UpdateSeen],
) -> Result<bool, AllocError>
    ensures { IfOk result (λ b. b ≡ are_said (found_in asks.now) (placed answers.now places.now) opening_state 0 updates.now) }
{
    let claims = claims_of(alloc, answers, places)?;
    let sorted = in_order(claims);
    let said = are_said_in_order(alloc, asks, sorted.as_slice(), updates)?;
    Ok(said)
}
