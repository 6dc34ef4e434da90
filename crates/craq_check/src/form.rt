//! Tests of an explanation's form and of its list of committed updates; used by `verdict` and
//! `strong`.
ghost use Rattle.std.specs.Prelude.{◌≡◌, ◌∷◌, true, nat_le, slice_index, take, drop};
ghost use Rattle.std.specs.List.{list_all};
ghost use Rattle.craq_check.specs.Tests.{all_pairs, is_named, never_fall, asked_in_time};

use crate::seen::AnswerSeen;
use craq_runs::Place;

/// Returns true if the places match the replies one to one, each with its reply's node and ticket.
#[tactic(auto, unfolding(crate::specs::Tests::all_pairs))]
pub fn are_named(answers: &[AnswerSeen], places: &[Place]) -> bool
    ensures { result ≡ all_pairs is_named answers.now places.now }
{
    let mut rest = places;
    for answer in answers {
        let [place, later @ ..] = rest else {
            return false;
        };
        if answer.node() != place.node || answer.ticket() != place.ticket {
            return false;
        }
        rest = later;
    }
    rest.is_empty()
}

/// Returns true if no length is below the one before it.
#[tactic(auto, unfolding(crate::specs::Tests::never_fall))]
pub fn never_fall(lens: &[u64]) -> bool
    ensures { result ≡ never_fall 0 lens.now }
{
    let mut before = 0;
    for count in lens {
        if *count < before {
            return false;
        }
        before = *count;
    }
    true
}

/// Returns true if each of these request numbers is at most `number`.
fn are_at_most(asks: &[u64], number: u64) -> bool
    ensures { result ≡ list_all (λ a. nat_le a number) asks.now }
{
    for ask in asks {
        if *ask > number {
            return false;
        }
    }
    true
}

/// Returns the first `count` items, or all if there are fewer.
fn first_of(asks: &[u64], count: u64) -> &[u64]
    ensures { result.now ≡ take count asks.now }
{
    if count >= asks.len() as u64 {
        return asks;
    }
    &asks[..count as usize]
}

/// Returns all but the first `count` items, none if there are no more.
fn all_but(asks: &[u64], count: u64) -> &[u64]
    ensures { result.now ≡ drop count asks.now }
{
    if count >= asks.len() as u64 {
        return &[];
    }
    &asks[count as usize..]
}

/// Returns true if the first `count` requests have at most this number. The caller knows it of the
/// first `looked`, which are not tested again.
fn are_first_at_most(asks: &[u64], looked: u64, count: u64, number: u64) -> bool
    requires { list_all (λ a. nat_le a number) (take looked asks.now) ≡ true }
    ensures { result ≡ list_all (λ a. nat_le a number) (take count asks.now) }
{
    if count <= looked {
        return true;
    }
    are_at_most(all_but(first_of(asks, count), looked), number)
}

/// Returns true if the updates committed after each move were requested by then. Looks at each
/// request once.
#[tactic(auto, unfolding(crate::specs::Tests::asked_in_time))]
pub fn are_asked_in_time(asks: &[u64], lens: &[u64]) -> bool
    ensures { result ≡ asked_in_time asks.now 1 lens.now }
{
    let mut looked = 0;
    let mut number = 0;
    for count in lens {
        number += 1;
        if !are_first_at_most(asks, looked, *count, number) {
            return false;
        }
        looked = looked.max(*count);
    }
    true
}

/// Returns the number committed after the move of this number; 0 before the first move and beyond
/// the last.
pub fn committed_after(lens: &[u64], number: u64) -> u64
    ensures { result ≡ slice_index (0 ∷ lens.now) number }
{
    if number == 0 {
        return 0;
    }
    match lens.get((number - 1) as usize) {
        Some(count) => *count,
        None => 0,
    }
}
