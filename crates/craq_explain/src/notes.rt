//! Notes of one move: its pending reply, and the messages that it sent; used by `account` and
//! `tables`.
ghost use Rattle.std.specs.Prelude.{◌≡◌, ◌++◌, OnOk, map};
ghost use Rattle.craq_model.specs.declared.message.LinkMessage.{LinkMessage};
ghost use Rattle.craq_runs.specs.Chain.{sent_in};
ghost use Rattle.craq_runs.specs.Explain.{pending_in};
ghost use Rattle.craq_explain.specs.Shown.{places_in, plain_in};

use craq_full_history::FullHistory;
use craq_history::{History, Node};
use craq_model::{Ask, Out};
use craq_names::{Seq, Ticket};
use craq_runs::{Move, Place};
use std::alloc::AllocError;

/// Returns the linearization point of the reply to a move's request, if that is an update and got a
/// ticket: the larger of its client's newest position and the number committed before.
pub(crate) fn pending_in(
    before: u64,
    ticket: Option<Ticket>,
    node: Option<&Node<FullHistory>>,
    chosen: &Move,
) -> Option<Place>
    ensures { places_in result ≡ pending_in before ticket (plain_in ⟦<FullHistory as History>⟧.past node.entry) chosen.now }
{
    let Move::Ask { node: asked, ask } = chosen else {
        return None;
    };
    let Some(ticket) = ticket else {
        return None;
    };
    let Some(node) = node else {
        return None;
    };
    match ask {
        Ask::Update(update) => Some(Place {
            node: *asked,
            ticket,
            position: Seq::new(node.history.position_of(update.client).max(before)),
        }),
        Ask::Read { .. } => None,
    }
}

/// Appends the count, once for each message among the outputs.
#[tactic(auto, unfolding(craq_runs::specs::Chain::sent_in))]
pub(crate) fn add_sends(sent_at: &mut Vec<u64>, count: u64, outs: &[Out]) -> Result<(), AllocError>
    ensures { OnOk result (sent_at.new.items ≡ sent_at.old.items ++ map (λ (m : LinkMessage). count) (sent_in outs.now)) }
{
    for out in outs {
        if let Out::Send { .. } = out {
            sent_at.push(count)?;
        }
    }
    Ok(())
}
