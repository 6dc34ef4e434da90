//! Tests of id lists: which can be the members of a chain. Limits on members and chains. `master`
//! and higher crates that make or read member lists call this.
ghost use Rattle.std.specs.Prelude.{◌≡◌, ◌≤◌, ◌↔◌, ℕ, IsTrue, IfOk};
ghost use Rattle.std.specs.List.{AllByRecursion};
ghost use Rattle.craq_names.specs.Limits.{greatest_count};
ghost use Rattle.craq_model.specs.Members.{IsMembership, is_member, without};
ghost use Rattle.craq_epochs.specs.Doubles.{stands_twice};

use craq_names::NodeId;
use std::alloc::{AllocError, Global};

/// The maximum number of members of a chain.
pub const MEMBER_LIMIT: usize = 8;

/// The maximum number of chains of a store, and of a world.
pub const MOST_CHAINS: u16 = 64;

/// Returns true exactly if the id is one of these.
#[tactic(auto, unfolding(craq_model::specs::Members::is_member))]
pub fn is_among(ids: &[NodeId], id: NodeId) -> bool
    ensures { result ≡ is_member ids.now id }
{
    for member in ids {
        if *member == id {
            return true;
        }
    }
    false
}

/// Returns the ids without this one, in order. Fails only when out of memory.
#[tactic(auto, unfolding(craq_model::specs::Members::without))]
pub fn all_but(alloc: Global, ids: &[NodeId], id: NodeId) -> Result<Vec<NodeId>, AllocError>
    ensures { IfOk result (λ others. others.items ≡ without ids.now id) }
{
    let mut others = Vec::new(alloc);
    for member in ids {
        if *member != id {
            others.push(*member)?;
        }
    }
    Ok(others)
}

/// Returns true exactly if some id occurs twice.
fn has_double(ids: &[NodeId]) -> bool
    ensures { result ≡ stands_twice ids.now }
{
    for i in 0..ids.len() {
        if is_among(&ids[i + 1..], ids[i]) {
            return true;
        }
    }
    false
}

/// Returns true exactly if none of the ids is 0, which is the master's.
fn all_are_nodes(ids: &[NodeId]) -> bool
    ensures { IsTrue result ↔ AllByRecursion (λ id. (1 ≤ id) × (id ≤ greatest_count)) ids.now }
{
    for id in ids {
        if id.get() == 0 {
            return false;
        }
    }
    true
}

/// Returns true exactly if a chain can have these members: 1 to 8 ids from 1, none twice (this
/// project's profile).
#[tactic(auto, using(crate::proofs::Doubles::distinct_unless_twice, crate::proofs::Doubles::once_where_distinct))]
pub fn is_membership(members: &[NodeId]) -> bool
    ensures { IsTrue result ↔ IsMembership members.now }
{
    let count = members.len();
    1 <= count && count <= MEMBER_LIMIT && all_are_nodes(members) && !has_double(members)
}
