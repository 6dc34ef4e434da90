//! The condition of a node, as a read at it tells: ready, not ready yet, or stopped; for
//! `controlling`.
ghost use Rattle.std.specs.Prelude.{◌≡◌, map, IfOk};
ghost use Rattle.std.specs.List.{list_any};
ghost use Rattle.craqd.specs.Ready.{is_ready, is_ready_as, is_ready_beside, is_last_ready};

use crate::serving::RunningStore;
use craq_commands::ReadMode;
use craq_model::Ask;
use craq_names::{ChainId, Key, NodeId, NodeName, ObjectId, Pass, Refusal};
use craq_workers::Named;
use std::alloc::{AllocError, Global};
use std::sync::Wait;

/// The condition of a node.
#[derive(Clone, Copy, Debug, PartialEq, Eq)]
pub enum Condition {
    /// It answers reads.
    Ready,
    /// It joined, and does not hold its chain's history yet.
    NotReady,
    /// It is stopped.
    Stopped,
    /// It refused the read for another reason.
    Unknown,
}

/// A member of a chain, and its condition.
#[derive(Clone, Copy, Debug)]
pub struct MemberCondition {
    pub node: NodeId,
    pub condition: Condition,
}

impl Condition {
    /// Returns whether the node is ready.
    const fn is_ready(self) -> bool
        ensures { result ≡ is_ready self }
    {
        matches!(self, Condition::Ready)
    }

    /// Returns the condition of a node that refused a read so.
    const fn of_refusal(refusal: Refusal) -> Self
        ensures not_ready { refusal ≡ Refusal.NotReady → result ≡ Condition.NotReady }
        ensures stopped { refusal ≡ Refusal.Stopped → result ≡ Condition.Stopped }
    {
        match refusal {
            Refusal::NotReady => Condition::NotReady,
            Refusal::Stopped => Condition::Stopped,
            _ => Condition::Unknown,
        }
    }

    /// Returns the condition in words.
    pub const fn in_words(self) -> &'static str {
        match self {
            Condition::Ready => "ready",
            Condition::NotReady => "not ready yet",
            Condition::Stopped => "stopped",
            Condition::Unknown => "of unknown condition",
        }
    }
}

/// Makes the eventual read by which a node is tried. A node answers it at once from what it holds.
fn trial_of(alloc: Global, node: &NodeName) -> Result<Ask, AllocError> {
    match Key::new(alloc, b"k") {
        Ok(key) => Ok(Ask::Read {
            mode: ReadMode::Eventual,
            object: ObjectId {
                chain: node.chain,
                key,
            },
        }),
        Err(_) => Err(AllocError),
    }
}

/// Returns the condition of a node of a store. The read that tells it changes no object and raises
/// the node's stamp. Fails only when out of memory.
fn condition_of<R: AllocGlobal + Wait, N: Named>(
    rt: &R,
    store: &RunningStore<N>,
    node: NodeName,
) -> Result<Condition, AllocError> {
    let trial = trial_of(rt.alloc(), &node)?;
    let mut client = store.client(rt, Pass::start())?;
    match client.call(rt, node, trial) {
        Ok(answered) => {
            drop(answered);
            Ok(Condition::Ready)
        }
        Err(Refusal::Memory) => Err(AllocError),
        Err(refusal) => Ok(Condition::of_refusal(refusal)),
    }
}

/// Returns the members of a chain with their conditions, in this order. Fails only when out of
/// memory.
pub fn members_of<R: AllocGlobal + Wait, N: Named>(
    rt: &R,
    store: &RunningStore<N>,
    chain: ChainId,
    ids: &[NodeId],
) -> Result<Vec<MemberCondition>, AllocError>
    ensures { IfOk result (λ members. map (λ m. m.node) members.items ≡ ids.now) }
{
    let mut members = Vec::new(rt.alloc());
    for id in ids {
        let node = *id;
        let condition = condition_of(rt, store, NodeName { chain, node })?;
        members.push(MemberCondition { node, condition })?;
    }
    Ok(members)
}

/// Returns whether this member is ready.
fn is_ready(members: &[MemberCondition], node: NodeId) -> bool
    ensures { result ≡ list_any (is_ready_as node) members.now }
{
    members.iter().any(|member| member.node == node && member.condition.is_ready())
}

/// Returns whether a member other than this one is ready.
fn is_other_ready(members: &[MemberCondition], node: NodeId) -> bool
    ensures { result ≡ list_any (is_ready_beside node) members.now }
{
    members.iter().any(|member| member.node != node && member.condition.is_ready())
}

/// Returns whether this member is ready and no other is.
///
/// Only control lines stop nodes, and one runs at a time, so a node that is ready stays so until
/// the next line.
pub fn is_last_ready(members: &[MemberCondition], node: NodeId) -> bool
    ensures { result ≡ is_last_ready members.now node }
{
    is_ready(members, node) && !is_other_ready(members, node)
}
