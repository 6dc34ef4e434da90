//! The numbers of messages in a run; used by `merging`, since journals name messages by stamp and
//! index.
ghost use Rattle.std.specs.Prelude.{◌≡◌, ◌≤◌, ◌<◌, flat_map, length, IfOk, IfErr, OnOk};
ghost use Rattle.craq_names.specs.Limits.{greatest};
ghost use Rattle.craq_runs.specs.Chain.{sent_in};
ghost use Rattle.craq_seat.specs.Merge.{AreInOrder, MergedStep, number_among};
ghost use Rattle.craq_audit.specs.Lines.{IsSentIn, sums_from};

use crate::lines::LentLine;
use craq_chain::sends_in;
use craq_model::LinkMessage;
use craq_names::Refusal;
use std::alloc::Global;

/// Returns the number of messages sent before each line. `Memory` if an allocation failed, or if
/// more messages were sent than fit in any memory.
pub(crate) fn sums_of(alloc: Global, lines: &[LentLine]) -> Result<Vec<u64>, Refusal>
    ensures sums { IfOk result (λ sums. sums.items ≡ sums_from 0 lines.now) }
    ensures count { OnOk result (length lines.now ≤ greatest) }
    ensures fits { OnOk result (length (flat_map (λ (l : MergedStep). sent_in l.step.outs) lines.now) ≤ greatest) }
    ensures err { IfErr result (λ e. e ≡ Refusal.Memory) }
{
    let mut sums = Vec::with_capacity(alloc, lines.len())?;
    let mut sum = 0u64;
    for line in lines {
        sums.push(sum)?;
        let sends = sends_in(line.step().outs.as_slice()) as u64;
        match sum.checked_add(sends) {
            None => return Err(Refusal::Memory),
            Some(next) => sum = next,
        }
    }
    Ok(sums)
}

/// Returns the number of a message, from 1, among all that were sent. Looks at few of the lines.
pub(crate) fn message_number(lines: &[LentLine], sums: &[u64], message: &LinkMessage) -> u64
    requires order { AreInOrder lines.now }
    requires sums { sums.now ≡ sums_from 0 lines.now }
    requires fits { length (flat_map (λ (l : MergedStep). sent_in l.step.outs) lines.now) ≤ greatest }
    requires sent { IsSentIn lines.now message.now }
    ensures { result ≡ number_among lines.now message.now }
{
    let place = lines.partition_point(|line| {
        line.stamp() < message.stamp
            || (line.stamp() == message.stamp && line.node() < message.sender)
    });
    sums[place] + message.index as u64 + 1
}
