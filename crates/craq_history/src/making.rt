//! `Node::apply` applies a change to a node. `craq_node` calls it with the changes that rules
//! compute.
ghost use Rattle.std.specs.Prelude.{◌≡◌, ◌<◌, ◌-◌, ◌^◌, ◌++◌, ◌∷◌, [], true, IsOk, OnOk, OnErr, vec_len, vec_capacity};
ghost use Rattle.craq_model.specs.Deliveries.{reads_without};
ghost use Rattle.craq_history.specs.Change.{changed, no_change, past_by, gathering_by, IsGain, commits_by, updates_by, reads_by, epoch_by, members_by, floor_by, ticket_by};
ghost use Rattle.craq_history.specs.Nodes.{plain_of};
ghost use Rattle.craq_node_invariant.specs.Sound.{IsSound};
ghost use Rattle.craq_node_invariant.specs.Compacted.{HoldsCommitted, remembered, remembered_in};
ghost use Rattle.craq_model.specs.Past.{length_in, newest_in};
ghost use Rattle.craq_model.specs.Parts.{gathering_for, with_part};
ghost use Rattle.craq_history.specs.Effects.{CanGrow, CanMake, FollowsInRow, IsApart, IsApplicable, IsSoundCopy, IsEncodableGrowth};
ghost use Rattle.craq_history.specs.Room.{HasRoomFor};

use crate::{Change, GatheringChange, History, HistoryChange, Node, WaitingChange, WaitingUpdates};
use craq_model::{Config, Gathering, StatePart, WaitingRead};
use craq_names::{Epoch, Items, NodeId, Seq, Ticket};
use std::alloc::{AllocError, Global};

/// Appends an item within the capacity. Allocates nothing.
fn push_within<T: Drop>(items: &mut Vec<T>, item: T)
    requires { vec_len items.old < vec_capacity items.old }
    ensures { items.new.items ≡ items.old.items ++ item ∷ [] }
{
    items.push(item).unwrap();
}

/// Reserves room for one more waiting request if the change adds one. Fails only when out of
/// memory.
fn make_room(
    updates: &mut WaitingUpdates,
    reads: &mut Vec<WaitingRead>,
    change: &WaitingChange,
) -> Result<(), AllocError>
    ensures updates { updates.new.items ≡ updates.old.items }
    ensures reads { reads.new.items ≡ reads.old.items }
    ensures room { OnOk result (HasRoomFor change.now updates.new reads.new) }
    ensures free { change.now ≡ WaitingChange.Same → IsOk result }
{
    match change {
        WaitingChange::OneUpdate(_) => updates.reserve(),
        WaitingChange::OneRead(_) => reads.reserve(1),
        _ => Ok(()),
    }
}

/// Drops the reads of a ticket.
fn drop_read(reads: &mut Vec<WaitingRead>, ticket: Ticket)
    ensures { reads.new.items ≡ reads_without ticket reads.old.items }
{
    reads.retain(|read| read.ticket != ticket);
}

/// Applies the change of the waiting requests.
fn change_waiting(updates: &mut WaitingUpdates, reads: &mut Vec<WaitingRead>, change: WaitingChange)
    requires { HasRoomFor change updates.old reads.old }
    ensures updates { updates.new.items ≡ updates_by change updates.old.items }
    ensures reads { reads.new.items ≡ reads_by change reads.old.items }
{
    match change {
        WaitingChange::Same => {}
        WaitingChange::OneUpdate(update) => updates.push(update),
        WaitingChange::OneRead(read) => push_within(reads, read),
        WaitingChange::UpdatesAnswered(position) => updates.keep_later(position),
        WaitingChange::ReadAnswered(ticket) => drop_read(reads, ticket),
        WaitingChange::AllAnswered => {
            updates.clear();
            reads.clear();
        }
    }
}

/// Applies the change of the history, except the commit. Fails only when out of memory.
fn change_history<H: History>(history: &mut H, change: HistoryChange) -> Result<(), AllocError>
    requires grows { CanGrow (length_in (H.past history.old)) change }
    requires in_row { FollowsInRow (length_in (H.past history.old)) change }
    requires applicable { IsApplicable (newest_in (H.past history.old)) change }
    requires spelled { IsEncodableGrowth change }
    requires copy { IsSoundCopy change }
    ensures ok { OnOk result (H.past history.new ≡ past_by change (H.past history.old)) }
    ensures err { OnErr result (H.past history.new ≡ H.past history.old) }
    ensures free { change ≡ HistoryChange.Stays → IsOk result }
{
    match change {
        HistoryChange::Stays => Ok(()),
        HistoryChange::Grows(entries) => history.append(entries),
        HistoryChange::IsCopied { position, state } => history.install(position, state),
    }
}

/// Adds a part to the gathering, or to a new one if there is none, or only one of a lower position.
/// Fails only when out of memory.
fn gather(
    alloc: Global,
    gathering: &mut Option<Gathering>,
    part: StatePart,
) -> Result<(), AllocError>
    ensures ok { OnOk result (gathering.new ≡ Some (with_part (gathering_for part gathering.old) part)) }
    ensures err { OnErr result (gathering.new ≡ gathering.old) }
{
    if let Some(held) = gathering {
        if held.position >= part.position {
            return held.parts.put(part.number, part.state);
        }
    }
    let mut parts = Items::new(alloc);
    parts.put(part.number, part.state)?;
    *gathering = Some(Gathering {
        position: part.position,
        count: part.count,
        parts,
    });
    Ok(())
}

/// Applies the change of the gathering. Fails only when out of memory.
fn change_gathering(
    alloc: Global,
    gathering: &mut Option<Gathering>,
    change: GatheringChange,
) -> Result<(), AllocError>
    ensures ok { OnOk result (gathering.new ≡ gathering_by change gathering.old) }
    ensures err { OnErr result (gathering.new ≡ gathering.old) }
    ensures gain { OnErr result (IsGain change) }
{
    match change {
        GatheringChange::Stays => Ok(()),
        GatheringChange::Gains(part) => gather(alloc, gathering, part),
        GatheringChange::Dropped => {
            *gathering = None;
            Ok(())
        }
    }
}

/// Commits the entries up to a position, if there is one. If out of memory, settled entries only
/// stay in memory for longer, which no output of the node shows; so the error is dropped.
fn commit<H: History>(history: &mut H, acknowledged: Option<Seq>)
    requires { HoldsCommitted (commits_by acknowledged (H.past history.old)) }
    ensures { H.past history.new ≡ remembered_in H.forgets (commits_by acknowledged (H.past history.old)) }
{
    if let Some(position) = acknowledged {
        let _ = history.acknowledge(position);
    }
}

/// Adopts a membership, if there is one, and a floor.
fn take_membership(
    epoch: &mut Epoch,
    members: &mut Items<NodeId>,
    floor: &mut Option<Seq>,
    membership: Option<Config>,
    reported: Option<Seq>,
)
    ensures epoch { epoch.new ≡ epoch_by membership epoch.old }
    ensures members { members.new ≡ members_by membership members.old }
    ensures floor { floor.new ≡ floor_by membership reported floor.old }
{
    match membership {
        None => {
            if reported.is_some() {
                *floor = reported;
            }
        }
        Some(config) => {
            *epoch = config.epoch;
            *members = config.members;
            *floor = None;
        }
    }
}

impl<H: History> Node<H> {
    /// Applies a change after which the node satisfies the invariant. Over a compacting history the
    /// node then represents one that forgot the settled entries. Fails only when out of memory; the
    /// represented node is unchanged on error. A change of nothing allocates nothing.
    #[tactic(auto, using(crate::proofs::Apart::past_stays, crate::proofs::Sound::holds_after, crate::proofs::Sound::copy_is_sound))]
    pub fn apply(&mut self, alloc: Global, change: Change) -> Result<(), AllocError>
        requires can { CanMake (plain_of H.past self.old) change }
        requires sound { IsSound (changed (plain_of H.past self.old) change) }
        ensures ok { OnOk result (plain_of H.past self.new ≡ remembered H.forgets (changed (plain_of H.past self.old) change)) }
        ensures err { OnErr result (plain_of H.past self.new ≡ plain_of H.past self.old) }
        ensures free { change ≡ no_change → IsOk result }
    {
        make_room(
            &mut self.waiting_updates,
            &mut self.waiting_reads,
            &change.waiting,
        )?;
        change_history(&mut self.history, change.history)?;
        change_gathering(alloc, &mut self.gathering, change.gathering)?;
        commit(&mut self.history, change.acknowledged);
        take_membership(
            &mut self.epoch,
            &mut self.members,
            &mut self.floor,
            change.membership,
            change.floor,
        );
        change_waiting(
            &mut self.waiting_updates,
            &mut self.waiting_reads,
            change.waiting,
        );
        self.ready = self.ready || change.becomes_ready;
        if change.accepted {
            self.last_ticket = Ticket::new(self.last_ticket.get() + 1);
        }
        Ok(())
    }
}
