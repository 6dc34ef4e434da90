//! `Master`: the only maker of a chain's memberships, one after another. `craq_chain`, `craq_seat`
//! and `craq_workers` call it.
ghost use Rattle.std.specs.Prelude.{◌≡◌, ◌⊎◌, ◌↔◌, Ok, Err, IfOk, IfErr, OnOk, OnErr};
ghost use Rattle.craq_names.specs.Order.{Refuses};
ghost use Rattle.craq_model.specs.Members.{IsMembership};
ghost use Rattle.craq_epochs.specs.Mastered.{IsMastered, opened_master, removed, master_after_join};

use crate::membership::{MEMBER_LIMIT, all_but, is_among, is_membership};
use crate::{Config, StopReceipt};
use craq_names::{ChainId, Epoch, Items, NodeId, Refusal};
use std::alloc::Global;
use std::marker::Model;

/// The master of a chain, which alone makes memberships, one after another. Each is the last one
/// without one member or with one more at the end, and has the next epoch. The master is from the
/// OSDI 2004 paper; epochs and single use of ids are this project's profile.
#[derive(Debug, Drop)]
pub struct Master {
    chain: ChainId,
    config: Config,
    used: Vec<NodeId>,
    alloc: Global,
}

impl Model for Master {
    ghost use Rattle.craq_epochs.specs.Mastered.{Mastered, IsMastered};

    ghost Value = { Mastered };

    ghost view = { λ m. record {
      chain = m.chain;
      epoch = m.config.epoch;
      members = m.config.members;
      used = m.used.items;
    } };

    ghost invariant = { λ m. IsMastered (record { chain = m.chain; epoch = m.config.epoch; members = m.config.members; used = m.used.items }) };
}

impl Master {
    /// Makes the master of a chain whose first membership, of epoch 1, has these members, head
    /// first.
    ///
    /// Returns `BadConfig` exactly if they are no membership: 1 to 8 ids from 1, none twice.
    /// Otherwise fails only when out of memory (`Memory`).
    pub fn open(alloc: Global, chain: ChainId, members: &[NodeId]) -> Result<Self, Refusal>
        ensures ok { IfOk result (λ m. m ≡ opened_master chain members.now) }
        ensures membership { OnOk result (IsMembership members.now) }
        ensures bad { (result ≡ Err Refusal.BadConfig) ↔ ¬ (IsMembership members.now) }
        ensures err { IfErr result (λ e. (e ≡ Refusal.BadConfig) ⊎ (e ≡ Refusal.Memory)) }
    {
        if !is_membership(members) {
            return Err(Refusal::BadConfig);
        }
        let used = Vec::from_slice(alloc, members)?;
        let members = Items::of(Vec::from_slice(alloc, members)?);
        Ok(Master {
            chain,
            config: Config {
                epoch: Epoch::new(1),
                members,
            },
            used,
            alloc,
        })
    }

    /// Returns the chain's id.
    pub fn chain(&self) -> ChainId
        ensures { result ≡ self.now.chain }
    {
        self.chain
    }

    /// Returns the current membership. Allocates nothing.
    pub fn config(&self) -> &Config
        ensures config { result.now ≡ record { epoch = self.now.epoch; members = self.now.members } }
        ensures mastered { IsMastered self.now }
    {
        &self.config
    }

    /// Returns all ids that were ever members, in the order of joining. Allocates nothing.
    pub fn used(&self) -> &[NodeId]
        ensures { result.now ≡ self.now.used }
    {
        self.used.as_slice()
    }

    /// Appends a node after the last member. The master is unchanged on error. The first error that
    /// applies is returned: `UsedId` if the id is 0 or was ever a member, `ChainFull` if there are
    /// 8 members, `Exhausted` if the epoch is 2^64 - 1, `Memory` if out of memory.
    #[tactic(auto, unfolding(crate::specs::Mastered::master_after_join))]
    pub fn join(&mut self, id: NodeId) -> Result<(), Refusal>
        ensures ok { OnOk result (master_after_join self.old id ≡ Ok self.new) }
        ensures err { IfErr result (λ e. Refuses e (master_after_join self.old id)) }
        ensures same { OnErr result (self.new ≡ self.old) }
    {
        if id.get() == 0 || is_among(self.used.as_slice(), id) {
            return Err(Refusal::UsedId);
        }
        if self.config.members.len() >= MEMBER_LIMIT {
            return Err(Refusal::ChainFull);
        }
        let epoch = self.config.epoch.get();
        if epoch == u64::MAX {
            return Err(Refusal::Exhausted);
        }
        self.used.reserve(1)?;
        self.config.members.push(id)?;
        self.used.push_reserved(id);
        self.config.epoch = Epoch::new(epoch + 1);
        Ok(())
    }

    /// Removes a stopped node. The master is unchanged on error. The first error that applies is
    /// returned: `NotMember` if the receipt's node is no member of this chain, `LastNode` if it is
    /// the only member, `Exhausted` if the epoch is 2^64 - 1, `Memory` if out of memory.
    #[tactic(auto, unfolding(crate::specs::Mastered::removed))]
    pub fn remove(&mut self, receipt: StopReceipt) -> Result<(), Refusal>
        ensures ok { OnOk result (removed self.old receipt ≡ Ok self.new) }
        ensures err { IfErr result (λ e. Refuses e (removed self.old receipt)) }
        ensures same { OnErr result (self.new ≡ self.old) }
    {
        let stopped = receipt.name();
        let members = self.config.members.as_slice();
        if stopped.chain != self.chain || !is_among(members, stopped.node) {
            return Err(Refusal::NotMember);
        }
        if members.len() == 1 {
            return Err(Refusal::LastNode);
        }
        let epoch = self.config.epoch.get();
        if epoch == u64::MAX {
            return Err(Refusal::Exhausted);
        }
        self.config.members = Items::of(all_but(self.alloc, members, stopped.node)?);
        self.config.epoch = Epoch::new(epoch + 1);
        Ok(())
    }
}
