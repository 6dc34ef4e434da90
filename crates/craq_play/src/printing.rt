//! Prints messages and steps as `specs/Printed` defines; called by `playing`, `on_cells` and
//! `craq_picture`.
ghost use Rattle.std.specs.Prelude.{◌≡◌, ◌+◌, ◌<◌, ◌^◌, ◌++◌, length, OnOk, string_bytes};
ghost use Rattle.craq_model.specs.Deliveries.{final_position, first_position};
ghost use Rattle.craq_play.specs.Printed.{batch_text, part_text, message_text, out_text, sent_after, outs_text, why_text, step_text};

use craq_commands::Entry;
use craq_model::{Body, LinkMessage, Out, StatePart, Step, Why};
use craq_names::NodeId;
use craq_script::print_answer;
use std::alloc::AllocError;

/// Returns the position of the first entry, or 0 if there are no entries.
fn first_position(entries: &[Entry]) -> u64
    ensures { result ≡ first_position entries.now }
{
    match entries.first() {
        Some(entry) => entry.position.get(),
        None => 0,
    }
}

/// Returns the position of the last entry, or 0 if there are no entries.
#[tactic(auto, using(craq_model::proofs::Batches::final_last))]
fn final_position(entries: &[Entry]) -> u64
    ensures { result ≡ final_position entries.now }
{
    match entries.last() {
        Some(entry) => entry.position.get(),
        None => 0,
    }
}

/// Prints `batch` and the positions of the first and the last entry.
#[tactic(auto, unfolding(crate::specs::Printed::batch_text))]
fn print_batch(text: &mut String, entries: &[Entry]) -> Result<(), AllocError>
    ensures { OnOk result (string_bytes text.new ≡ string_bytes text.old ++ batch_text entries.now) }
{
    let first = first_position(entries);
    let last = final_position(entries);
    write!(text, "batch {first}-{last}")
}

/// Prints `part`, the state's position, the part's number and the number of parts.
#[tactic(auto, unfolding(crate::specs::Printed::part_text))]
fn print_part(text: &mut String, part: &StatePart) -> Result<(), AllocError>
    ensures { OnOk result (string_bytes text.new ≡ string_bytes text.old ++ part_text part.now) }
{
    let position = part.position.get();
    let number = part.number;
    let count = part.count;
    write!(text, "part {position} {number}/{count}")
}

/// Prints a message in short: its kind and its numbers. Fails only when out of memory; the text is
/// then unspecified.
#[tactic(auto, unfolding(crate::specs::Printed::message_text))]
pub fn print_message(text: &mut String, message: &LinkMessage) -> Result<(), AllocError>
    ensures { OnOk result (string_bytes text.new ≡ string_bytes text.old ++ message_text message.now.epoch message.now.body) }
{
    match &message.body {
        Body::Config { members: _ } => {
            let epoch = message.epoch.get();
            write!(text, "config {epoch}")
        }
        Body::Entry(entry) => {
            let position = entry.position.get();
            write!(text, "entry {position}")
        }
        Body::Batch(entries) => print_batch(text, entries.as_slice()),
        Body::Ack(position) => {
            let position = position.get();
            write!(text, "ack {position}")
        }
        Body::Query { ticket, key: _ } => {
            let ticket = ticket.get();
            write!(text, "query {ticket}")
        }
        Body::VersionIs { ticket, version } => {
            let ticket = ticket.get();
            let version = version.get();
            write!(text, "version {ticket} {version}")
        }
        Body::Blank(count) => {
            let count = count.get();
            write!(text, "blank {count}")
        }
        Body::Copy { position, state: _ } => {
            let position = position.get();
            write!(text, "copy {position}")
        }
        Body::Part(part) => print_part(text, part),
        Body::Floor(count) => {
            let count = count.get();
            write!(text, "floor {count}")
        }
    }
}

/// Prints one output of a step of `node`. If it sends a message, the message has this number.
#[tactic(auto, unfolding(crate::specs::Printed::out_text))]
fn print_out(text: &mut String, node: NodeId, number: u64, out: &Out) -> Result<(), AllocError>
    ensures { OnOk result (string_bytes text.new ≡ string_bytes text.old ++ out_text node number out.now) }
{
    match out {
        Out::Send { to, message } => {
            let sender = message.sender.get();
            let receiver = to.get();
            write!(text, "m{number} {sender}>{receiver} ")?;
            print_message(text, message)
        }
        Out::Answer { ticket, answer } => {
            let node = node.get();
            let ticket = ticket.get();
            write!(text, "answer {node} {ticket} ")?;
            print_answer(text, answer)
        }
    }
}

/// Returns the number of messages sent after this output, given the number sent before it.
fn sent_after(sent: u64, out: &Out) -> u64
    requires { sent + 1 < 2 ^ 64 }
    ensures { result ≡ sent_after sent out.now }
{
    match out {
        Out::Send { to: _, message: _ } => sent + 1,
        Out::Answer {
            ticket: _,
            answer: _,
        } => sent,
    }
}

/// Prints a line for each output of a step of `node`, after `sent` messages were sent.
fn print_outs(text: &mut String, node: NodeId, sent: u64, outs: &[Out]) -> Result<(), AllocError>
    requires { sent + length outs.now < 2 ^ 64 }
    ensures { OnOk result (string_bytes text.new ≡ string_bytes text.old ++ outs_text node sent outs.now) }
{
    let mut number = sent;
    for out in outs {
        number = sent_after(number, out);
        print_out(text, node, number, out)?;
        text.push_str("\n")?;
    }
    Ok(())
}

/// Returns the word for the reason that a message was ignored.
pub const fn word_of(why: Why) -> &'static str
    ensures { result.now ≡ why_text why }
{
    match why {
        Why::OtherEpoch => "OtherEpoch",
        Why::NotNeighbour => "NotNeighbour",
        Why::OutOfOrder => "OutOfOrder",
        Why::AlreadyHave => "AlreadyHave",
        Why::NotReadyHere => "NotReadyHere",
        Why::UnknownTicket => "UnknownTicket",
        Why::TooFar => "TooFar",
    }
}

/// Prints what a taken move did: a line for each output in order, or `ignored` and the reason, or
/// `ok` if there is neither. Messages are numbered from 1 in the order sent; `sent` were sent
/// before.
///
/// Fails when out of memory, or if the numbers of messages would reach 2^64. The text is then
/// unspecified.
#[tactic(auto, unfolding(crate::specs::Printed::step_text))]
pub fn print_step(text: &mut String, node: NodeId, sent: u64, step: &Step) -> Result<(), AllocError>
    ensures { OnOk result (string_bytes text.new ≡ string_bytes text.old ++ step_text node sent step.now) }
{
    if let Some(why) = step.ignored {
        let word = word_of(why);
        return writeln!(text, "ignored {word}");
    }
    let outs = step.outs.as_slice();
    if outs.is_empty() {
        return text.push_str("ok\n");
    }
    if u64::MAX - sent < outs.len() as u64 {
        return Err(AllocError);
    }
    print_outs(text, node, sent, outs)
}
