//! `NodeCore`: the `Core` of this crate, over any `History`. It admits an event, lets a rule
//! compute a change, and applies the change. `craq_compact_history`, `craq_play` and `craq_explain`
//! instantiate it with their pasts.
//!
//! Each rule has its own function here, because a function pays at entry for all the space that it
//! may need.
ghost use Rattle.std.specs.Prelude.{◌≡◌, ◌≢◌, ◌==◌, true, not, IfOk, IsOk, IsSome, ◌<◌, ◌-◌, ◌^◌, ◌∷◌, [], false, Ok};
ghost use Rattle.craq_model.specs.Deliveries.{delivery_transition, ack_transition, blank_transition, config_transition, copy_transition, entries_transition, floor_transition, part_transition, query_transition, version_transition};
ghost use Rattle.craq_model.specs.Plain.{Plain, opening_member, newest};
ghost use Rattle.craq_model.specs.Node.{event_transition, is_for, outs_fit};
ghost use Rattle.craq_model.specs.Encodable.{IsEncodable, IsConsecutive};
ghost use Rattle.craq_node_invariant.specs.Sound.{AreEncodable, IsSound, IsEncodableAsk, IsEncodableEvent};
ghost use Rattle.craq_node_invariant.proofs.Props.{IsSound-prop};
ghost use Rattle.craq_node_invariant.specs.Compacted.{remembered};
ghost use Rattle.craq_history.specs.Nodes.{plain_of};
ghost use Rattle.craq_node.specs.Admitted.{IsAdmitted, IsAdmittedAsk, is_heeded};
ghost use Rattle.craq_node.specs.Represented.{StepAnswers, CanArrive, StepGives, IsFree, IsRemembered, plain_at, LeadsToSound};
ghost use Rattle.craq_commands.specs.SingleCopy.{said};
ghost use Rattle.craq_model.specs.Asks.{ask_transition, read_transition, update_transition};
ghost use Rattle.craq_history.specs.Change.{changed, no_change};
ghost use Rattle.craq_history.specs.Effects.{CanMake};
ghost use Rattle.craq_write.specs.Gathered.{IsInOrder, IsOrdered};
ghost use Rattle.craq_write.specs.Settling.{CanTakeEntries, IsIdle};

use crate::Core;
use crate::admitting::admit;
use crate::fitting::are_fitting;
use crate::heeding::is_heeded;
use craq_commands::{Command, Entry, ReadMode, State, Update};
use craq_epochs::{Config, Switch};
use craq_history::steps::{done, ignoring};
use craq_history::{Change, History, Node, WaitingUpdates};
use craq_model::{Ask, Body, Event, LinkMessage, StatePart, Step, Why};
use craq_names::{Copied, Epoch, Items, Key, NodeId, NodeName, Refusal, Seq, Ticket, Version};
use craq_read::{compute_query, compute_read, compute_version};
use craq_write::{
    add_tick_outs, compute_ack, compute_blank, compute_config, compute_copy, compute_entries,
    compute_entry, compute_floor, compute_part, compute_update,
};
use std::alloc::Global;

/// A node over some representation of its past.
#[derive(Drop)]
pub struct NodeCore<H: History> {
    node: Node<H>,
    switch: Switch,
    ghost sound: { IsSound (plain_of H.past node) } by { IsSound-prop (plain_of H.past node) },
    ghost own_switch: { switch.name ≡ node.name },
}

/// Does nothing. It tells the prover that the requested event has an encoding, since a transaction
/// is within its limits.
fn keep_limits(event: &Event)
    requires { CanArrive event.now }
    ensures { IsEncodableEvent event.now }
{
    if let Event::Ask(Ask::Update(update)) = event {
        if let Command::Mini(mini) = &update.command {
            mini.keeps_limits();
        }
    }
}

/// Applies a computed change, unless its sends do not fit into messages (`Exhausted`).
#[tactic(auto, using(crate::proofs::Stops::nothing_fits, crate::proofs::Remembered::made_given))]
fn apply_change<H: History>(
    alloc: Global,
    node: &mut Node<H>,
    change: Change,
    step: Step,
) -> Result<Step, Refusal>
    requires can { CanMake (plain_of H.past node.old) change }
    requires sound { outs_fit step.outs ≡ true → IsSound (changed (plain_of H.past node.old) change) }
    ensures gives { StepGives H.forgets (plain_of H.past node.old) (plain_of H.past node.new) result (Ok (changed (plain_of H.past node.old) change, step)) }
    ensures name { (plain_of H.past node.new).name ≡ (plain_of H.past node.old).name }
    ensures free { change ≡ no_change → step.outs ≡ [] → IsOk result }
{
    if !are_fitting(step.outs.as_slice()) {
        return Err(Refusal::Exhausted);
    }
    node.apply(alloc, change)?;
    Ok(step)
}

/// Handles an admitted update.
fn take_update<H: History>(
    alloc: Global,
    node: &mut Node<H>,
    update: Update,
) -> Result<Step, Refusal>
    requires ticket { node.old.last_ticket < 2 ^ 64 - 1 }
    requires sound { LeadsToSound (update_transition (plain_of H.past node.old) update (said (newest (plain_of H.past node.old)) update.client update.number)) }
    ensures gives { StepGives H.forgets (plain_of H.past node.old) (plain_of H.past node.new) result (update_transition (plain_of H.past node.old) update (said (newest (plain_of H.past node.old)) update.client update.number)) }
    ensures name { (plain_of H.past node.new).name ≡ (plain_of H.past node.old).name }
{
    match compute_update(alloc, node, update) {
        Ok((change, step)) => apply_change(alloc, node, change, step),
        Err(refusal) => Err(refusal),
    }
}

/// Handles an admitted read.
fn take_read<H: History>(
    alloc: Global,
    node: &mut Node<H>,
    mode: ReadMode,
    key: &Key,
) -> Result<Step, Refusal>
    requires ticket { node.old.last_ticket < 2 ^ 64 - 1 }
    requires sound { LeadsToSound (read_transition (plain_of H.past node.old) mode key.now) }
    ensures gives { StepGives H.forgets (plain_of H.past node.old) (plain_of H.past node.new) result (read_transition (plain_of H.past node.old) mode key.now) }
    ensures name { (plain_of H.past node.new).name ≡ (plain_of H.past node.old).name }
{
    match compute_read(alloc, node, mode, key) {
        Ok((change, step)) => apply_change(alloc, node, change, step),
        Err(refusal) => Err(refusal),
    }
}

/// Handles an admitted request. The remaining errors are those of the update or of the read.
fn take_request<H: History>(alloc: Global, node: &mut Node<H>, ask: Ask) -> Result<Step, Refusal>
    requires admitted { IsAdmittedAsk (plain_of H.past node.old) ask }
    requires sound { IsSound (plain_of H.past node.old) }
    requires spelled { IsEncodableAsk ask }
    ensures gives { StepGives H.forgets (plain_of H.past node.old) (plain_of H.past node.new) result (ask_transition (plain_of H.past node.old) ask) }
    ensures name { (plain_of H.past node.new).name ≡ (plain_of H.past node.old).name }
{
    match ask {
        Ask::Update(update) => take_update(alloc, node, update),
        Ask::Read { mode, object } => take_read(alloc, node, mode, &object.key),
    }
}

/// Handles a membership of a later epoch.
fn take_membership<H: History>(
    alloc: Global,
    node: &mut Node<H>,
    epoch: Epoch,
    members: Items<NodeId>,
) -> Result<Step, Refusal>
    requires sound { LeadsToSound (Ok (config_transition (plain_of H.past node.old) epoch members)) }
    ensures gives { StepGives H.forgets (plain_of H.past node.old) (plain_of H.past node.new) result (Ok (config_transition (plain_of H.past node.old) epoch members)) }
    ensures name { (plain_of H.past node.new).name ≡ (plain_of H.past node.old).name }
    ensures free { IsSome (config_transition (plain_of H.past node.old) epoch members).1.ignored → IsOk result }
{
    match compute_config(alloc, node, epoch, members) {
        Ok((change, step)) => apply_change(alloc, node, change, step),
        Err(_) => Err(Refusal::Memory),
    }
}

/// Handles an entry from the predecessor.
fn take_entry<H: History>(
    alloc: Global,
    node: &mut Node<H>,
    sender: NodeId,
    entry: Entry,
) -> Result<Step, Refusal>
    requires takes { CanTakeEntries (plain_of H.past node.old) }
    requires sound { LeadsToSound (Ok (entries_transition (plain_of H.past node.old) sender (entry ∷ []))) }
    ensures gives { StepGives H.forgets (plain_of H.past node.old) (plain_of H.past node.new) result (Ok (entries_transition (plain_of H.past node.old) sender (entry ∷ []))) }
    ensures name { (plain_of H.past node.new).name ≡ (plain_of H.past node.old).name }
    ensures free { IsSome (entries_transition (plain_of H.past node.old) sender (entry ∷ [])).1.ignored → IsOk result }
{
    match compute_entry(alloc, node, sender, entry) {
        Ok((change, step)) => apply_change(alloc, node, change, step),
        Err(_) => Err(Refusal::Memory),
    }
}

/// Handles consecutive entries from the predecessor.
fn take_entries<H: History>(
    alloc: Global,
    node: &mut Node<H>,
    sender: NodeId,
    entries: Items<Entry>,
) -> Result<Step, Refusal>
    requires row { IsConsecutive entries }
    requires takes { CanTakeEntries (plain_of H.past node.old) }
    requires sound { LeadsToSound (Ok (entries_transition (plain_of H.past node.old) sender entries)) }
    ensures gives { StepGives H.forgets (plain_of H.past node.old) (plain_of H.past node.new) result (Ok (entries_transition (plain_of H.past node.old) sender entries)) }
    ensures name { (plain_of H.past node.new).name ≡ (plain_of H.past node.old).name }
    ensures free { IsSome (entries_transition (plain_of H.past node.old) sender entries).1.ignored → IsOk result }
{
    match compute_entries(alloc, node, sender, entries) {
        Ok((change, step)) => apply_change(alloc, node, change, step),
        Err(_) => Err(Refusal::Memory),
    }
}

/// Handles an acknowledgement from the successor.
fn take_ack<H: History>(
    alloc: Global,
    node: &mut Node<H>,
    sender: NodeId,
    position: Seq,
) -> Result<Step, Refusal>
    requires sound { LeadsToSound (Ok (ack_transition (plain_of H.past node.old) sender position)) }
    ensures gives { StepGives H.forgets (plain_of H.past node.old) (plain_of H.past node.new) result (Ok (ack_transition (plain_of H.past node.old) sender position)) }
    ensures name { (plain_of H.past node.new).name ≡ (plain_of H.past node.old).name }
    ensures free { IsSome (ack_transition (plain_of H.past node.old) sender position).1.ignored → IsOk result }
{
    match compute_ack(alloc, node, sender, position) {
        Ok((change, step)) => apply_change(alloc, node, change, step),
        Err(_) => Err(Refusal::Memory),
    }
}

/// Handles a version query from another member.
fn take_query<H: History>(
    alloc: Global,
    node: &mut Node<H>,
    sender: NodeId,
    ticket: Ticket,
    key: &Key,
) -> Result<Step, Refusal>
    requires sound { LeadsToSound (Ok (query_transition (plain_of H.past node.old) sender ticket key.now)) }
    ensures gives { StepGives H.forgets (plain_of H.past node.old) (plain_of H.past node.new) result (Ok (query_transition (plain_of H.past node.old) sender ticket key.now)) }
    ensures name { (plain_of H.past node.new).name ≡ (plain_of H.past node.old).name }
    ensures free { IsSome (query_transition (plain_of H.past node.old) sender ticket key.now).1.ignored → IsOk result }
{
    match compute_query(alloc, node, sender, ticket, key) {
        Ok((change, step)) => apply_change(alloc, node, change, step),
        Err(_) => Err(Refusal::Memory),
    }
}

/// Handles a committed version from the last member.
fn take_version<H: History>(
    alloc: Global,
    node: &mut Node<H>,
    sender: NodeId,
    ticket: Ticket,
    version: Version,
) -> Result<Step, Refusal>
    requires sound { LeadsToSound (Ok (version_transition (plain_of H.past node.old) sender ticket version)) }
    ensures gives { StepGives H.forgets (plain_of H.past node.old) (plain_of H.past node.new) result (Ok (version_transition (plain_of H.past node.old) sender ticket version)) }
    ensures name { (plain_of H.past node.new).name ≡ (plain_of H.past node.old).name }
    ensures free { IsSome (version_transition (plain_of H.past node.old) sender ticket version).1.ignored → IsOk result }
{
    match compute_version(alloc, node, sender, ticket, version) {
        Ok((change, step)) => apply_change(alloc, node, change, step),
        Err(_) => Err(Refusal::Memory),
    }
}

/// Handles a state from the predecessor.
fn take_copy<H: History>(
    alloc: Global,
    node: &mut Node<H>,
    sender: NodeId,
    position: Seq,
    state: State,
) -> Result<Step, Refusal>
    requires idle { node.old.ready ≡ false → IsIdle (plain_of H.past node.old) }
    requires sound { LeadsToSound (Ok (copy_transition (plain_of H.past node.old) sender position state)) }
    ensures gives { StepGives H.forgets (plain_of H.past node.old) (plain_of H.past node.new) result (Ok (copy_transition (plain_of H.past node.old) sender position state)) }
    ensures name { (plain_of H.past node.new).name ≡ (plain_of H.past node.old).name }
    ensures free { IsSome (copy_transition (plain_of H.past node.old) sender position state).1.ignored → IsOk result }
{
    match compute_copy(alloc, node, sender, position, state) {
        Ok((change, step)) => apply_change(alloc, node, change, step),
        Err(_) => Err(Refusal::Memory),
    }
}

/// Handles a part of a state from the predecessor.
fn take_part<H: History>(
    alloc: Global,
    node: &mut Node<H>,
    sender: NodeId,
    part: StatePart,
) -> Result<Step, Refusal>
    requires idle { node.old.ready ≡ false → IsIdle (plain_of H.past node.old) }
    requires held { IsOrdered node.old.gathering }
    requires part { IsInOrder part.state }
    requires sound { LeadsToSound (Ok (part_transition (plain_of H.past node.old) sender part)) }
    ensures gives { StepGives H.forgets (plain_of H.past node.old) (plain_of H.past node.new) result (Ok (part_transition (plain_of H.past node.old) sender part)) }
    ensures name { (plain_of H.past node.new).name ≡ (plain_of H.past node.old).name }
    ensures free { IsSome (part_transition (plain_of H.past node.old) sender part).1.ignored → IsOk result }
{
    match compute_part(alloc, node, sender, part) {
        Ok((change, step)) => apply_change(alloc, node, change, step),
        Err(_) => Err(Refusal::Memory),
    }
}

/// Handles a floor from the predecessor.
fn take_floor<H: History>(
    alloc: Global,
    node: &mut Node<H>,
    sender: NodeId,
    count: Seq,
) -> Result<Step, Refusal>
    requires idle { node.old.ready ≡ false → IsIdle (plain_of H.past node.old) }
    requires sound { LeadsToSound (Ok (floor_transition (plain_of H.past node.old) sender count)) }
    ensures gives { StepGives H.forgets (plain_of H.past node.old) (plain_of H.past node.new) result (Ok (floor_transition (plain_of H.past node.old) sender count)) }
    ensures name { (plain_of H.past node.new).name ≡ (plain_of H.past node.old).name }
    ensures free { IsSome (floor_transition (plain_of H.past node.old) sender count).1.ignored → IsOk result }
{
    match compute_floor(alloc, node, sender, count) {
        Ok((change, step)) => apply_change(alloc, node, change, step),
        Err(_) => Err(Refusal::Memory),
    }
}

/// Handles the entry count of an unready successor. Fails with `Memory` when out of memory, and
/// with `Exhausted` if a sent state has more parts than 32 bits count.
#[tactic(auto, using(crate::proofs::Stops::transition_refused))]
fn take_blank<H: History>(
    alloc: Global,
    node: &mut Node<H>,
    sender: NodeId,
    count: Seq,
) -> Result<Step, Refusal>
    requires sound { LeadsToSound (Ok (blank_transition (plain_of H.past node.old) sender count)) }
    ensures gives { StepGives H.forgets (plain_of H.past node.old) (plain_of H.past node.new) result (Ok (blank_transition (plain_of H.past node.old) sender count)) }
    ensures name { (plain_of H.past node.new).name ≡ (plain_of H.past node.old).name }
    ensures free { IsSome (blank_transition (plain_of H.past node.old) sender count).1.ignored → IsOk result }
{
    match compute_blank(alloc, node, sender, count) {
        Ok((change, step)) => apply_change(alloc, node, change, step),
        Err(refusal) => Err(refusal),
    }
}

/// Handles a current message for this node: one of the node's epoch, or a membership.
#[tactic(auto, using(crate::proofs::Orders::ordered, crate::proofs::Orders::part_ordered, crate::proofs::Orders::batch_in_row))]
fn deliver_current<H: History>(
    alloc: Global,
    node: &mut Node<H>,
    message: LinkMessage,
) -> Result<Step, Refusal>
    requires sound { IsSound (plain_of H.past node.old) }
    requires spelled { IsEncodable message }
    requires here { is_for (plain_of H.past node.old) message ≡ true }
    requires heeded { is_heeded (plain_of H.past node.old) message ≡ true }
    ensures gives { StepGives H.forgets (plain_of H.past node.old) (plain_of H.past node.new) result (Ok (delivery_transition (plain_of H.past node.old) message)) }
    ensures name { (plain_of H.past node.new).name ≡ (plain_of H.past node.old).name }
    ensures free { IsSome (delivery_transition (plain_of H.past node.old) message).1.ignored → IsOk result }
{
    let sender = message.sender;
    let epoch = message.epoch;
    let body = message.body;
    match body {
        Body::Config { members } => take_membership(alloc, node, epoch, members),
        Body::Entry(entry) => take_entry(alloc, node, sender, entry),
        Body::Batch(entries) => take_entries(alloc, node, sender, entries),
        Body::Ack(position) => take_ack(alloc, node, sender, position),
        Body::Query { ticket, key } => take_query(alloc, node, sender, ticket, &key),
        Body::VersionIs { ticket, version } => {
            take_version(alloc, node, sender, ticket, version)
        }
        Body::Blank(count) => take_blank(alloc, node, sender, count),
        Body::Copy { position, state } => take_copy(alloc, node, sender, position, state),
        Body::Part(part) => take_part(alloc, node, sender, part),
        Body::Floor(count) => take_floor(alloc, node, sender, count),
    }
}

/// Delivers a message for this node, at a running node. A message other than a membership must have
/// the node's epoch; otherwise it is ignored (`OtherEpoch`). Fails with `Memory` when out of
/// memory, and with `Exhausted` if a sent state has more parts than 32 bits count.
fn deliver<H: History>(
    alloc: Global,
    node: &mut Node<H>,
    message: LinkMessage,
) -> Result<Step, Refusal>
    requires sound { IsSound (plain_of H.past node.old) }
    requires spelled { IsEncodable message }
    requires here { is_for (plain_of H.past node.old) message ≡ true }
    ensures gives { StepGives H.forgets (plain_of H.past node.old) (plain_of H.past node.new) result (event_transition (plain_of H.past node.old) (Event.Deliver message)) }
    ensures name { (plain_of H.past node.new).name ≡ (plain_of H.past node.old).name }
    ensures free { IsSome (delivery_transition (plain_of H.past node.old) message).1.ignored → IsOk result }
{
    if !is_heeded(node, &message) {
        return Ok(ignoring(alloc, Why::OtherEpoch));
    }
    deliver_current(alloc, node, message)
}

/// Handles a tick: sends what the node repeats.
#[tactic(auto, using(crate::proofs::Kept::still_sound), unfolding(craq_model::specs::Sends::tick_sends))]
fn tick<H: History>(alloc: Global, node: &mut Node<H>) -> Result<Step, Refusal>
    requires sound { IsSound (plain_of H.past node.old) }
    ensures gives { StepGives H.forgets (plain_of H.past node.old) (plain_of H.past node.new) result (event_transition (plain_of H.past node.old) Event.Tick) }
    ensures name { (plain_of H.past node.new).name ≡ (plain_of H.past node.old).name }
{
    let mut outs = Vec::new(alloc);
    add_tick_outs(&mut outs, alloc, node)?;
    apply_change(alloc, node, Change::none(), done(outs))
}

/// Dispatches an admitted event, other than a stop, at a running node: its rule computes the
/// change, which is then applied.
fn dispatch<H: History>(alloc: Global, node: &mut Node<H>, event: Event) -> Result<Step, Refusal>
    requires sound { IsSound (plain_of H.past node.old) }
    requires arrives { CanArrive event }
    requires spelled { IsEncodableEvent event }
    requires goes_on { event ≢ Event.Stop }
    requires admitted { IsAdmitted (plain_of H.past node.old) event }
    ensures gives { StepGives H.forgets (plain_of H.past node.old) (plain_of H.past node.new) result (event_transition (plain_of H.past node.old) event) }
    ensures name { (plain_of H.past node.new).name ≡ (plain_of H.past node.old).name }
    ensures free { IsFree (plain_of H.past node.old) event → IsOk result }
{
    match event {
        Event::Ask(ask) => take_request(alloc, node, ask),
        Event::Deliver(message) => deliver(alloc, node, message),
        Event::Tick => tick(alloc, node),
        Event::Stop => Ok(done(Vec::new(alloc))),
    }
}

/// Handles an event as `dispatch` does. The node's invariant holds afterwards, and each out of the
/// step has an encoding.
#[tactic(auto, using(crate::proofs::Kept::sound_after, crate::proofs::Kept::said_encodable))]
fn apply_event<H: History>(alloc: Global, node: &mut Node<H>, event: Event) -> Result<Step, Refusal>
    requires sound { IsSound (plain_of H.past node.old) }
    requires arrives { CanArrive event }
    requires encodable_event { IsEncodableEvent event }
    requires goes_on { event ≢ Event.Stop }
    requires admitted { IsAdmitted (plain_of H.past node.old) event }
    ensures gives { StepGives H.forgets (plain_of H.past node.old) (plain_of H.past node.new) result (event_transition (plain_of H.past node.old) event) }
    ensures free { IsFree (plain_of H.past node.old) event → IsOk result }
    ensures sound { IsSound (plain_of H.past node.new) }
    ensures spelled { IfOk result (λ step. AreEncodable step.outs) }
    ensures name { (plain_of H.past node.new).name ≡ (plain_of H.past node.old).name }
{
    dispatch(alloc, node, event)
}

impl<H: History> NodeCore<H> {
    /// Returns the node's state, except whether it runs: the part of the represented node that it
    /// remembers. Allocates nothing.
    #[tactic(auto, using(crate::proofs::Remembered::seen_node))]
    pub fn node(&self) -> &Node<H>
        ensures { (p : Plain) → ⟦<NodeCore<H> as Core>⟧.represents self.now p → plain_of H.past result.now ≡ remembered H.forgets (record p { running = true }) }
    {
        &self.node
    }

    /// Makes the node before its first step. It begins ready if it has a membership, so if its
    /// epoch is not 0.
    #[tactic(auto, using(crate::proofs::Remembered::opening_seen))]
    fn unmoved(alloc: Global, name: NodeName, epoch: Epoch, members: Items<NodeId>) -> Self
        requires { IsSound (record (opening_member name members) { epoch = epoch; ready = not (epoch == 0) }) }
        ensures { IsRemembered H.forgets (record (opening_member name members) { epoch = epoch; ready = not (epoch == 0) }) (plain_at H.past result.node result.switch.running) }
    {
        let switch = Switch::on(name);
        NodeCore {
            node: Node {
                name: switch.name(),
                epoch,
                members,
                ready: epoch.get() != 0,
                history: H::new(alloc),
                floor: None,
                gathering: None,
                last_ticket: Ticket::new(0),
                waiting_updates: WaitingUpdates::new(alloc),
                waiting_reads: Vec::new(alloc),
            },
            switch,
        }
    }

    /// Handles an admitted event, a stop or another.
    #[tactic(auto, unfolding(craq_model::specs::Node::node_step))]
    fn take_admitted(&mut self, alloc: Global, event: Event) -> Result<Step, Refusal>
        requires runs { self.old.switch.running ≡ true }
        requires admitted { IsAdmitted (plain_of H.past self.old.node) event }
        requires arrives { CanArrive event }
        requires encodable_event { IsEncodableEvent event }
        ensures gives { StepAnswers (λ p. remembered H.forgets p ≡ plain_at H.past self.new.node self.new.switch.running) (plain_of H.past self.old.node) event result }
        ensures spelled { IfOk result (λ step. AreEncodable step.outs) }
        ensures free { IsFree (plain_of H.past self.old.node) event → IsOk result }
    {
        if let Event::Stop = &event {
            drop(event);
            self.switch.stop()?;
            return Ok(done(Vec::new(alloc)));
        }
        apply_event(alloc, &mut self.node, event)
    }

    /// Handles one event. An event that is not admitted is dropped before the refusal is returned;
    /// a drop on the way out would need a proof for each kind of event.
    #[tactic(auto, unfolding(craq_model::specs::Node::node_step), using(crate::proofs::Stops::free_is_admitted))]
    fn take(&mut self, alloc: Global, event: Event) -> Result<Step, Refusal>
        requires arrives { CanArrive event }
        requires encodable_event { IsEncodableEvent event }
        ensures gives { StepAnswers (λ p. remembered H.forgets p ≡ plain_at H.past self.new.node self.new.switch.running) (plain_at H.past self.old.node self.old.switch.running) event result }
        ensures spelled { IfOk result (λ step. AreEncodable step.outs) }
        ensures free { IsFree (plain_at H.past self.old.node self.old.switch.running) event → IsOk result }
    {
        match admit(&self.node, &self.switch, &event) {
            Err(refusal) => {
                drop(event);
                Err(refusal)
            }
            Ok(()) => self.take_admitted(alloc, event),
        }
    }
}

impl<H: History> Core for NodeCore<H> {
    ghost represents = { λ c p. IsRemembered H.forgets p (plain_at H.past c.node c.switch.running) };

    #[tactic(auto, using(crate::proofs::Kept::sound_member, crate::proofs::Kept::sound_joined))]
    fn open(alloc: Global, name: NodeName, config: Option<&Config>) -> Result<Self, Refusal> {
        match config {
            None => Ok(NodeCore::unmoved(alloc, name, Epoch::new(0), Items::new(alloc))),
            Some(config) => {
                let members = config.members.copied(alloc)?;
                Ok(NodeCore::unmoved(alloc, name, config.epoch, members))
            }
        }
    }

    #[tactic(auto, using(crate::proofs::Remembered::seen_free))]
    fn step(&mut self, alloc: Global, event: Event) -> Result<Step, Refusal> {
        keep_limits(&event);
        self.take(alloc, event)
    }

    #[tactic(auto, using(crate::proofs::Remembered::seen_name, crate::proofs::Remembered::seen_running))]
    fn switch(&self) -> &Switch {
        &self.switch
    }
}
