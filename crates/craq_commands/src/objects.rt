//! Tests of the objects that a command names: their chain, for `craq_node`, and exhausted
//! versions, for `craq_write`.
ghost use Rattle.std.specs.Prelude.{◌≡◌, ◌==◌, map};
ghost use Rattle.std.specs.List.{list_all, list_any};
ghost use Rattle.craq_names.specs.Limits.{greatest};
ghost use Rattle.craq_names.specs.declared.name.ObjectId.{ObjectId};
ghost use Rattle.craq_commands.specs.Objects.{version_of};
ghost use Rattle.craq_commands.specs.Evaluation.{all_of_chain, some_used_up, objects_named};

use crate::transaction::Named;
use crate::{Command, Look};
use craq_names::ChainId;

/// Returns true exactly if each item's object is of the chain.
fn are_of_chain<T: Named>(items: &[T], chain: ChainId) -> bool
    ensures { result ≡ list_all (λ (o : ObjectId). o.chain == chain) (map T.object_named items.now) }
{
    for item in items {
        if item.object().chain != chain {
            return false;
        }
    }
    true
}

/// Returns true exactly if some item's object has version 2^64 - 1, and so no next one.
fn is_some_used_up<L: Look, T: Named>(look: &L, items: &[T]) -> bool
    ensures { result ≡ list_any (λ (o : ObjectId). version_of (L.objects look.now) o.key == greatest) (map T.object_named items.now) }
{
    for item in items {
        if look.look(&item.object().key).0.get() == u64::MAX {
            return true;
        }
    }
    false
}

impl Command {
    /// Returns true exactly if each object that the command names is of the chain.
    #[tactic(auto, using(crate::proofs::Lists::of_three), unfolding(crate::specs::Evaluation::all_of_chain))]
    pub fn is_of_chain(&self, chain: ChainId) -> bool
        ensures { result ≡ all_of_chain chain (objects_named self.now) }
    {
        match self {
            Command::Put { object, .. }
            | Command::TestAndSet { object, .. }
            | Command::Append { object, .. }
            | Command::Prepend { object, .. }
            | Command::Increment { object, .. }
            | Command::Decrement { object, .. } => object.chain == chain,
            Command::Mini(mini) => {
                are_of_chain(mini.compares(), chain)
                    && are_of_chain(mini.reads(), chain)
                    && are_of_chain(mini.writes(), chain)
            }
        }
    }

    /// Returns true exactly if some object that the command names has version 2^64 - 1, and so no
    /// next one.
    #[tactic(auto, using(crate::proofs::Lists::some_of_three), unfolding(crate::specs::Evaluation::some_used_up))]
    pub fn names_used_up<L: Look>(&self, look: &L) -> bool
        ensures { result ≡ some_used_up (L.objects look.now) (objects_named self.now) }
    {
        match self {
            Command::Put { object, .. }
            | Command::TestAndSet { object, .. }
            | Command::Append { object, .. }
            | Command::Prepend { object, .. }
            | Command::Increment { object, .. }
            | Command::Decrement { object, .. } => look.look(&object.key).0.get() == u64::MAX,
            Command::Mini(mini) => {
                is_some_used_up(look, mini.compares())
                    || is_some_used_up(look, mini.reads())
                    || is_some_used_up(look, mini.writes())
            }
        }
    }
}
