//! Plays one schedule of a script, drawn by numbers: `draw`, called by `craq_lab`.
ghost use Rattle.std.specs.Prelude.{◌≡◌, ◌≤◌, ◌++◌, Bool, List, insert, length, slice_get, option_copied, IfOk, OnOk, string_bytes};
ghost use Rattle.std.specs.List.{AllZip};
ghost use Rattle.craq_model.specs.Plain.{Plain};
ghost use Rattle.craq_runs.specs.declared.explanation.Explanation.{Explanation};
ghost use Rattle.craq_runs.specs.declared.run.Run.{Run};
ghost use Rattle.craq_play.specs.Moves.{move_of};
ghost use Rattle.craq_play.specs.Played.{Plays, after_line, line_text};
ghost use Rattle.craq_chain.specs.Chained.{chain_of_run};
ghost use Rattle.craq_schedules.specs.Drawn.{IsPlayed, after_choices, choices_text, drawn, drawn_text, events, next_of, running_ids, with_id};
ghost use Rattle.craq_schedules.specs.Verdicts.{AnswersAsCheck};

use crate::verdict::{print_verdict, verdict_of};
use craq_names::{NodeId, Refusal};
use craq_node::Core;
use craq_play::{PlayedChain, opened_core, play_line};
use craq_script::{Script, ScriptLine};
use std::alloc::{AllocError, Global};

/// Returns the index at which an id goes into ascending ids: before the first that is greater.
fn place_among(ids: &[NodeId], id: NodeId) -> usize
    ensures within { result ≤ length ids.now }
    ensures place { insert ids.now result id ≡ with_id id ids.now }
{
    for (place, other) in ids.iter().enumerate() {
        if id.get() < other.get() {
            return place;
        }
    }
    ids.len()
}

/// Inserts an id into ascending ids. Fails only when out of memory.
fn put_id(ids: &mut Vec<NodeId>, id: NodeId) -> Result<(), AllocError>
    ensures { OnOk result (ids.new.items ≡ with_id id ids.old.items) }
{
    let place = place_among(ids.as_slice(), id);
    ids.insert(place, id)?;
    Ok(())
}

/// Returns the ids of the running nodes in ascending order.
fn running_of<C: Core>(alloc: Global, cores: &[C]) -> Result<Vec<NodeId>, AllocError>
    ensures { IfOk result (λ ids. (ps : List Plain) → AllZip C.represents cores.now ps → ids.items ≡ running_ids ps) }
{
    let mut ids = Vec::new(alloc);
    for core in cores {
        let switch = core.switch();
        if switch.receipt().is_none() {
            put_id(&mut ids, switch.name().node)?;
        }
    }
    Ok(ids)
}

/// Returns the event at this index, counted from 0: the arrival of each sent message, then a tick
/// of each running node. `None` past the last one.
fn event_at(sent: u64, running: &[NodeId], place: u64) -> Option<ScriptLine>
    ensures { result ≡ slice_get (events sent running.now) place }
{
    if place < sent {
        return Some(ScriptLine::Deliver { message: place + 1 });
    }
    match running.get((place - sent) as usize) {
        None => None,
        Some(id) => Some(ScriptLine::Tick { node: *id }),
    }
}

/// Plays an event as a line of a script, and prints what it did. Fails only when out of memory.
fn play_event<C: Core>(
    alloc: Global,
    chain: &mut PlayedChain<C>,
    text: &mut String,
    event: ScriptLine,
) -> Result<(), AllocError>
    ensures chain { OnOk result (chain.new ≡ after_line chain.old (move_of event)) }
    ensures text { OnOk result (string_bytes text.new ≡ string_bytes text.old ++ line_text chain.old (move_of event)) }
{
    play_line(alloc, chain, text, &event)
}

/// Plays the event or line that a choice selects among all that are enabled, and prints what it
/// did: the next line, if one is left, then each event.
///
/// Returns the lines left after it, or `None` if nothing is enabled. Fails only when out of memory.
fn play_choice<'a, C: Core>(
    alloc: Global,
    chain: &mut PlayedChain<C>,
    text: &mut String,
    lines: &'a [ScriptLine],
    choice: u32,
) -> Result<Option<&'a [ScriptLine]>, AllocError>
    ensures { IfOk result (λ left. IsPlayed chain.old chain.new (string_bytes text.old) (string_bytes text.new) (next_of (chain_of_run chain.old) lines.now choice) (option_copied left)) }
{
    let running = running_of(alloc, chain.cores())?;
    let running = running.as_slice();
    let sent = chain.sent();
    let events = sent.saturating_add(running.len() as u64);
    match lines.split_first() {
        None => {
            if events == 0 {
                return Ok(None);
            }
            let Some(event) = event_at(sent, running, u64::from(choice) % events) else {
                return Ok(None);
            };
            play_event(alloc, chain, text, event)?;
            Ok(Some(lines))
        }
        Some((line, rest)) => {
            let place = u64::from(choice) % events.saturating_add(1);
            if place == 0 {
                play_line(alloc, chain, text, line)?;
                return Ok(Some(rest));
            }
            let Some(event) = event_at(sent, running, place - 1) else {
                return Ok(None);
            };
            play_event(alloc, chain, text, event)?;
            Ok(Some(lines))
        }
    }
}

/// Plays what the choices select, one after another, until they are used up or nothing is enabled.
/// Prints what each did. Fails only when out of memory.
fn play_choices<C: Core>(
    alloc: Global,
    chain: &mut PlayedChain<C>,
    text: &mut String,
    lines: &[ScriptLine],
    choices: &[u32],
) -> Result<(), AllocError>
    ensures chain { OnOk result (chain.new ≡ after_choices choices.now chain.old lines.now) }
    ensures text { OnOk result (string_bytes text.new ≡ string_bytes text.old ++ choices_text choices.now chain.old lines.now) }
{
    let mut left = lines;
    for choice in choices {
        match play_choice(alloc, chain, text, left, *choice)? {
            None => return Ok(()),
            Some(rest) => left = rest,
        }
    }
    Ok(())
}

/// Plays the schedule that the choices draw, on a new chain of `nodes` nodes. Fails only when out
/// of memory.
fn draw_lines<C: Core>(
    alloc: Global,
    nodes: u32,
    lines: &[ScriptLine],
    choices: &[u32],
) -> Result<String, AllocError>
    requires { (1 ≤ nodes) × (nodes ≤ 8) }
    ensures { IfOk result (λ text. (holds : Run → Explanation → Bool) → AnswersAsCheck holds → string_bytes text ≡ drawn_text holds nodes choices.now lines.now) }
{
    let mut chain: PlayedChain<C> = opened_core(alloc, nodes)?;
    let mut text = String::new(alloc);
    play_choices(alloc, &mut chain, &mut text, lines, choices)?;
    print_verdict(&mut text, verdict_of(alloc, &chain)?)?;
    Ok(text)
}

/// Plays one schedule of a script on one chain of the nodes 1 to `nodes`, with 1 as the head, and
/// prints it as `play` does.
///
/// Each choice selects one of the enabled elements: the next line of the script, if one is left
/// (`explain` is one, and a refused line is used up); the arrival of each message that was sent,
/// from the first to the last; a tick of each running node, by ascending id. It selects the element
/// at the choice modulo the number of elements, counted from 0. If nothing is enabled the schedule
/// ends.
///
/// The last line is the verdict of `check` on the run's linearization witness: `valid true` or
/// `valid false`. It is always `valid true`, by the law `every_verdict_is_valid` of
/// `craq_verdicts`.
///
/// `BadScript` with the first line outside the grammar; `Memory` when out of memory. (This
/// project's profile.)
pub fn draw<C: Core>(
    alloc: Global,
    nodes: u32,
    script: &[u8],
    choices: &[u32],
) -> Result<String, Refusal>
    requires { (1 ≤ nodes) × (nodes ≤ 8) }
    ensures { (holds : Run → Explanation → Bool) → AnswersAsCheck holds → Plays (λ t. string_bytes t) result (drawn holds nodes choices.now script.now) }
{
    let script = Script::read(alloc, script)?;
    Ok(draw_lines::<C>(alloc, nodes, script.lines.as_slice(), choices)?)
}
