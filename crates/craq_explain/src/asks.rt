//! The requests of a run by node and ticket, and the places of the replies to updates; used by
//! `tables` and `answers`.
ghost use Rattle.std.specs.Prelude.{◌≡◌, ◌++◌, ◌-◌, ℕ, List, OnOk, option_map, slice_get};
ghost use Rattle.std.specs.Option.{option_copied};
ghost use Rattle.craq_runs.specs.declared.explanation.Place.{Place};
ghost use Rattle.craq_runs.specs.Seen.{Asked, ask_in, ask_with, asks_from};
ghost use Rattle.craq_explain.specs.Firsts.{Tells, name_cmp};
ghost use Rattle.craq_explain.specs.Shown.{asked_as, places_in};
ghost use Rattle.craq_explain.specs.Tables.{asked_at, pending_of};

use crate::firsts::{TicketNumbers, number_of_ask, put_first};
use craq_model::Ask;
use craq_names::{NodeId, Ticket};
use craq_runs::{Move, Place, Taken};
use std::alloc::AllocError;

/// Notes the number of a move at the ticket that it got, if it is a request.
pub(crate) fn note_ask(
    asked: &mut TicketNumbers,
    number: u64,
    taken: &Taken,
) -> Result<(), AllocError>
    ensures { (asks : List Asked) → Tells name_cmp asked.old (asked_at asks) → OnOk result (Tells name_cmp asked.new (asked_at (asks ++ ask_in number taken.now.step.ticket taken.now.chosen))) }
{
    let Move::Ask { node, .. } = &taken.chosen else {
        return Ok(());
    };
    match taken.step.ticket {
        None => Ok(()),
        Some(ticket) => {
            put_first(asked, (*node, ticket), number)?;
            Ok(())
        }
    }
}

/// Notes the place of a pending reply, if there is one.
pub(crate) fn note_pending(
    pending: &mut TicketNumbers,
    place: Option<Place>,
) -> Result<(), AllocError>
    ensures { (places : List Place) → Tells name_cmp pending.old (pending_of places) → OnOk result (Tells name_cmp pending.new (pending_of (places ++ places_in place))) }
{
    match place {
        None => Ok(()),
        Some(place) => {
            put_first(pending, (place.node, place.ticket), place.position.get())?;
            Ok(())
        }
    }
}

/// Returns the request of a move at this node, if it got this ticket.
#[tactic(auto, unfolding(craq_runs::specs::Seen::ask_with))]
fn asked_in(taken: &Taken, node: NodeId, ticket: Ticket) -> Option<&Ask>
    ensures { (number : ℕ) → ask_with (ask_in number taken.now.step.ticket taken.now.chosen) node ticket ≡ asked_as number node ticket (option_copied result) }
{
    let Move::Ask { node: asked, ask } = &taken.chosen else {
        return None;
    };
    if *asked != node {
        return None;
    }
    match taken.step.ticket {
        None => None,
        Some(given) => { if given == ticket { Some(ask) } else { None } }
    }
}

/// Returns the move of this number, from 1.
fn move_at(moves: &[Taken], number: u64) -> Option<&Taken>
    ensures { option_copied result ≡ slice_get moves.now (number - 1) }
{
    moves.get(number.saturating_sub(1) as usize)
}

/// Returns the first request at a node under a ticket; `asked` has the numbers of the moves that
/// made requests.
pub(crate) fn ask_of<'a>(
    asked: &TicketNumbers,
    moves: &'a [Taken],
    node: NodeId,
    ticket: Ticket,
) -> Option<&'a Ask>
    ensures { Tells name_cmp asked.now (asked_at (asks_from 1 moves.now)) → option_copied result ≡ option_map (λ (a : Asked). a.ask) (ask_with (asks_from 1 moves.now) node ticket) }
{
    let number = number_of_ask(asked, node, ticket)?;
    match move_at(moves, number) {
        None => None,
        Some(taken) => asked_in(taken, node, ticket),
    }
}
