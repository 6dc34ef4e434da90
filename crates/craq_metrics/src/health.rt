//! The health of a server: whether each chain has a node that can answer.
ghost use Rattle.std.specs.Prelude.{◌≡◌, IfOk, string_bytes};
ghost use Rattle.std.specs.List.{find, list_any};
ghost use Rattle.std.specs.Option.{option_copied};
ghost use Rattle.craq_metrics.specs.Health.{can_answer, is_served, is_unserved, health_text};

use crate::{ChainFigures, NodeFigures};
use std::alloc::{AllocError, Global};

/// Returns whether a node can answer reads: it runs and holds its chain's history.
const fn can_answer(node: &NodeFigures) -> bool
    ensures { result ≡ can_answer node.now }
{
    node.is_ready && node.is_running
}

/// Returns whether some node of a chain can answer reads.
fn is_served(chain: &ChainFigures) -> bool
    ensures { result ≡ is_served chain.now }
{
    chain.nodes.as_slice().iter().any(|node| can_answer(node))
}

/// Returns the first chain none of whose nodes can answer reads. `None` if each chain has one.
pub fn first_unserved(chains: &[ChainFigures]) -> Option<&ChainFigures>
    ensures { option_copied result ≡ find is_unserved chains.now }
{
    for chain in chains {
        if !is_served(chain) {
            return Some(chain);
        }
    }
    None
}

/// Returns the health as a line: `ok`, or the chain that no node can answer for. Fails only when
/// out of memory.
pub fn health_text(alloc: Global, unserved: Option<&ChainFigures>) -> Result<String, AllocError>
    ensures { IfOk result (λ text. string_bytes text ≡ health_text (option_copied unserved.entry)) }
{
    match unserved {
        None => String::from_str(alloc, "ok\n"),
        Some(chain) => {
            let name = chain.name.as_str();
            format!(in alloc; "chain {name} has no ready node\n")
        }
    }
}
