//! The messages that were sent, counted over the steps of a run; used by `chain`, `moving` and
//! other crates that look for a message among outputs.
ghost use Rattle.std.specs.Prelude.{◌≡◌, ◌<◌, ◌≤◌, ◌-◌, ◌∷◌, length, slice_get, slice_index};
ghost use Rattle.std.specs.Option.{option_copied};
ghost use Rattle.craq_runs.specs.Chain.{message_at, sent_in};
ghost use Rattle.craq_chain.specs.Sent.{counts_from, sent_by};

use craq_model::{LinkMessage, Out};
use craq_runs::Taken;

/// Returns the number of messages among the outputs.
#[tactic(auto, unfolding(craq_runs::specs::Chain::sent_in))]
pub fn sends_in(outs: &[Out]) -> usize
    ensures count { result ≡ length (sent_in outs.now) }
    ensures few { result ≤ length outs.now }
{
    let mut sends = 0usize;
    for out in outs {
        if let Out::Send { .. } = out {
            sends += 1;
        }
    }
    sends
}

/// Returns the message of this index, from 0, among the outputs.
#[tactic(auto, unfolding(craq_runs::specs::Chain::sent_in))]
pub fn message_after(outs: &[Out], others: usize) -> Option<&LinkMessage>
    ensures { option_copied result ≡ slice_get (sent_in outs.now) others }
{
    let mut left = others;
    for out in outs {
        if let Out::Send { message, .. } = out {
            if left == 0 {
                return Some(message);
            }
            left -= 1;
        }
    }
    None
}

/// Returns the first place whose count is above `index`.
fn first_above(counts: &[usize], index: usize) -> usize
    ensures within { result ≤ length counts.now }
    ensures before { 0 < result → slice_index counts.now (result - 1) ≤ index }
    ensures here { result < length counts.now → index < slice_index counts.now result }
{
    let mut low = 0usize;
    let mut high = counts.len();
    while low < high {
        let middle = low + (high - low) / 2;
        if counts[middle] <= index {
            low = middle + 1;
        } else {
            high = middle;
        }
    }
    low
}

/// Returns the count before this place.
#[tactic(auto, using(crate::proofs::Sendings::count_before))]
pub(crate) fn counted_before(counts: &[usize], place: usize) -> usize
    requires { place ≤ length counts.now }
    ensures { result ≡ slice_index (0 ∷ counts.now) place }
{
    if place == 0 {
        return 0;
    }
    counts[place - 1]
}

/// Returns the message of this number, counted from 1, among those that the moves sent; `sent` has
/// the count up to each move. Never allocates, and looks at few of the moves.
pub(crate) fn message_of<'a>(
    moves: &'a [Taken],
    sent: &[usize],
    number: u64,
) -> Option<&'a LinkMessage>
    requires { sent.now ≡ counts_from 0 moves.now }
    ensures { option_copied result ≡ message_at (sent_by moves.now) number }
{
    if number == 0 {
        return None;
    }
    let index = (number - 1) as usize;
    let place = first_above(sent, index);
    if place >= moves.len() {
        return None;
    }
    let others = index - counted_before(sent, place);
    message_after(moves[place].step.outs.as_slice(), others)
}
