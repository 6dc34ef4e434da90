//! Numbers by key; the first number put at a key stays. Used by `asks`, `committed`, `answers` and
//! `account`.
ghost use Rattle.std.specs.Prelude.{◌≡◌, OnOk};
ghost use Rattle.std.specs.Option.{option_or};
ghost use Rattle.std.specs.BTreeMap.{get, is_at};
ghost use Rattle.craq_explain.specs.Firsts.{name_cmp, number_if};

use craq_names::{NodeId, Ticket};
use std::alloc::AllocError;
use std::collections::BTreeMap;

/// A number for each known ticket of a node.
pub(crate) type TicketNumbers = BTreeMap<(NodeId, Ticket), u64>;

/// Puts a number at a key, unless the key has one.
pub(crate) fn put_first<K: Ord + Drop>(
    numbers: &mut BTreeMap<K, u64>,
    key: K,
    number: u64,
) -> Result<(), AllocError>
    ensures { OnOk result ((q : K) → get K.cmp numbers.new q ≡ option_or (get K.cmp numbers.old q) (number_if (is_at (K.cmp key) q) number)) }
{
    if numbers.contains_key(&key) {
        return Ok(());
    }
    numbers.insert(key, number)?;
    Ok(())
}

/// Returns the number of a ticket of a node.
pub(crate) fn number_of_ask(numbers: &TicketNumbers, node: NodeId, ticket: Ticket) -> Option<u64>
    ensures { result ≡ get name_cmp numbers.now (node, ticket) }
{
    numbers.get(&(node, ticket)).copied()
}
