//! Finds requests by node and ticket; made by `verdict`, and used by `lookups` and `strong`.
ghost use Rattle.std.specs.Prelude.{◌≡◌, ℕ, [], ◌∷◌, IfOk, OnOk};
ghost use Rattle.std.specs.Option.{option_map, option_or};
ghost use Rattle.std.specs.Borrow.{Bor};
ghost use Rattle.craq_runs.specs.Seen.{Asked, ask_with};
ghost use Rattle.craq_check.specs.Tests.{found_in};

use crate::seen::AskSeen;
use craq_names::{NodeId, Ticket};
use std::alloc::{AllocError, Global};
use std::collections::HashMap;

/// Requests by node and ticket, borrowed from those seen: the first of each node and ticket.
pub type AskIndex<'s, 'a> = HashMap<(u32, u64), &'s AskSeen<'a>>;

/// Keeps the request under its node and ticket, if it has one and none is kept there yet.
#[tactic(auto, unfolding(craq_runs::specs::Seen::ask_with))]
fn keep_first<'s, 'a>(asks: &mut AskIndex<'s, 'a>, ask: &'s AskSeen<'a>) -> Result<(), AllocError>
    ensures { OnOk result ((node ticket : ℕ) → found_in asks.new node ticket ≡ option_or (found_in asks.old node ticket) (ask_with (ask.now ∷ []) node ticket)) }
{
    let Some(ticket) = ask.ticket() else {
        return Ok(());
    };
    let name = (ask.node().get(), ticket.get());
    if asks.contains_key(&name) {
        return Ok(());
    }
    asks.insert(name, ask)?;
    Ok(())
}

/// Makes an index of these requests.
pub fn index_of<'s, 'a>(
    alloc: Global,
    asks: &'s [AskSeen<'a>],
) -> Result<AskIndex<'s, 'a>, AllocError>
    ensures { IfOk result (λ index. (node ticket : ℕ) → found_in index node ticket ≡ ask_with asks.now node ticket) }
{
    let mut index = HashMap::new(alloc);
    for ask in asks {
        keep_first(&mut index, ask)?;
    }
    Ok(index)
}

/// Returns the first request at a node that got this ticket.
pub fn ask_at<'s, 'a>(
    asks: &AskIndex<'s, 'a>,
    node: NodeId,
    ticket: Ticket,
) -> Option<&'s AskSeen<'a>>
    ensures { option_map (λ (a : Bor Asked). a.now) result ≡ found_in asks.now node ticket }
{
    match asks.get(&(node.get(), ticket.get())) {
        Some(ask) => Some(*ask),
        None => None,
    }
}
