//! The steps of a master, with the messages of each; used by `book`.
ghost use Rattle.std.specs.Prelude.{◌≡◌, Ok};
ghost use Rattle.craq_epochs.specs.Mastered.{IsMastered, master_after_join, removed};
ghost use Rattle.craq_seat.specs.Books.{Transitions, book_step, tells};

use crate::BookEvent;
use craq_chain::{announce, compute_join, compute_removal};
use craq_epochs::{Master, StopReceipt, is_among};
use craq_model::Step;
use craq_names::{NodeId, Refusal};
use std::alloc::Global;

/// Adds a new node after the last member and sends the membership to all of them. Makes the
/// messages first, so that a failed allocation changes nothing.
#[tactic(auto, unfolding(craq_epochs::specs::Mastered::master_after_join))]
fn join(alloc: Global, master: &mut Master, id: NodeId) -> Result<Step, Refusal>
    ensures { Transitions master.old master.new result (tells (master_after_join master.old id)) }
{
    if id.get() == 0 || is_among(master.used(), id) {
        return Err(Refusal::UsedId);
    }
    let step = compute_join(alloc, master, id)?;
    master.join(id)?;
    Ok(step)
}

/// Removes a stopped member and sends the membership to the others. Makes the messages first, so
/// that a failed allocation changes nothing.
#[tactic(auto, unfolding(craq_epochs::specs::Mastered::removed))]
fn remove(alloc: Global, master: &mut Master, stopped: StopReceipt) -> Result<Step, Refusal>
    ensures { Transitions master.old master.new result (tells (removed master.old stopped)) }
{
    let name = stopped.name();
    let members = master.config().members.as_slice();
    if name.chain != master.chain() || !is_among(members, name.node) {
        return Err(Refusal::NotMember);
    }
    let step = compute_removal(alloc, master, name.node)?;
    master.remove(stopped)?;
    Ok(step)
}

/// Applies an event to a master.
fn act(alloc: Global, master: &mut Master, event: BookEvent) -> Result<Step, Refusal>
    ensures { Transitions master.old master.new result (book_step master.old event) }
{
    match event {
        BookEvent::Join(id) => join(alloc, master, id),
        BookEvent::Remove { stopped, .. } => remove(alloc, master, stopped),
        BookEvent::Tick => announce(alloc, master),
    }
}

/// Applies an event as `act` does; `config` then shows that the master has a membership. Refused as
/// `BookCell::take` says, with nothing changed.
pub(crate) fn transition(
    alloc: Global,
    master: &mut Master,
    event: BookEvent,
) -> Result<Step, Refusal>
    ensures step { Transitions master.old master.new result (book_step master.old event) }
    ensures mastered { IsMastered master.new }
{
    let turned = act(alloc, master, event);
    master.config();
    turned
}
