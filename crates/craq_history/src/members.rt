//! Members of a chain, head first: the first, the last and the neighbours. `outs`, the rules and
//! `craq_explain` call this.
ghost use Rattle.std.specs.Prelude.{◌≡◌};
ghost use Rattle.craq_model.specs.Members.{is_member, first_of, last_of, successor_in, predecessor_in};

use craq_names::NodeId;

/// Returns true exactly if the id is a member.
#[tactic(auto, unfolding(craq_model::specs::Members::is_member))]
pub fn is_member_of(members: &[NodeId], id: NodeId) -> bool
    ensures { result ≡ is_member members.now id }
{
    for member in members {
        if *member == id {
            return true;
        }
    }
    false
}

/// Returns the first member, 0 if there is none.
pub fn first_member(members: &[NodeId]) -> NodeId
    ensures { result ≡ first_of members.now }
{
    match members {
        [] => NodeId::new(0),
        [first, ..] => *first,
    }
}

/// Returns the last member, 0 if there is none.
#[tactic(auto, unfolding(craq_model::specs::Members::last_of))]
pub fn last_member(members: &[NodeId]) -> NodeId
    ensures { result ≡ last_of members.now }
{
    let [first, rest @ ..] = members else {
        return NodeId::new(0);
    };
    let mut last = *first;
    for member in rest {
        last = *member;
    }
    last
}

/// Returns the member right after this one, `None` if there is none.
#[tactic(auto, unfolding(craq_model::specs::Members::successor_in))]
pub fn successor_of(members: &[NodeId], id: NodeId) -> Option<NodeId>
    ensures { result ≡ successor_in members.now id }
{
    for i in 0..members.len() {
        if members[i] == id {
            return members.get(i + 1).copied();
        }
    }
    None
}

/// Returns the member right before this one, `None` if there is none.
#[tactic(auto, unfolding(craq_model::specs::Members::predecessor_in))]
pub fn predecessor_of(members: &[NodeId], id: NodeId) -> Option<NodeId>
    ensures { result ≡ predecessor_in members.now id }
{
    let [first, rest @ ..] = members else {
        return None;
    };
    let mut before = *first;
    for member in rest {
        if *member == id {
            return Some(before);
        }
        before = *member;
    }
    None
}
