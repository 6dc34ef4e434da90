//! The invariants of a chain's nodes, messages and waiting updates, after every run.
//! States laws for `craq_world` and `craq_recovery`: functions whose contracts are the theorems.
#![tactic(auto)]

ghost use Rattle.std.specs.Prelude.{ℕ};
ghost use Rattle.craq_runs.specs.Typed.{IsTypedRunOf};
ghost use Rattle.craq_runs.specs.declared.run.Run.{Run};
ghost use Rattle.craq_chain_invariants.specs.Invariants.{AcknowledgedIsCommitted, CopiesAreCommitted, HasInvariants, HistoriesAreWhole, MembersAreNodes, MessagesAgreeWithSenders, OneTailHoldsTheList, PartsAreShares, PredecessorsAreReady, PredecessorsHoldMore, ReadyMembersHoldTheList, ReportedVersionsWereCommitted, WaitingUpdatesAreOwed};

/// States that a node's base state is the state after the first committed entries, as many as its
/// base. The entries of its whole history are at their positions, from 1 on: `history_of` is what
/// the node's state and entries represent. Replaying that history is applying, on the single copy,
/// the updates from which its entries were made.
pub fn histories_are_whole()
    ensures { (chain : ℕ) (run : Run) → IsTypedRunOf chain run → HistoriesAreWhole chain run }
{}

/// States that each member of the master's membership is a node of the chain.
pub fn members_are_nodes()
    ensures { (chain : ℕ) (run : Run) → IsTypedRunOf chain run → MembersAreNodes chain run }
{}

/// States that in the master's membership the history of a later member is a prefix of that of each
/// earlier one (the invariant of chain replication's updates: van Renesse and Schneider, OSDI
/// 2004); and in the membership that the later one knows.
pub fn predecessors_hold_more()
    ensures { (chain : ℕ) (run : Run) → IsTypedRunOf chain run → PredecessorsHoldMore chain run }
{}

/// States that the members before a ready one are ready.
pub fn predecessors_are_ready()
    ensures { (chain : ℕ) (run : Run) → IsTypedRunOf chain run → PredecessorsAreReady chain run }
{}

/// States that at most one running node is ready and last in the membership that it knows, even
/// while nodes know memberships of different epochs. Its history is the committed entries, and it
/// knows that all of them are committed.
pub fn one_tail_holds_the_list()
    ensures { (chain : ℕ) (run : Run) → IsTypedRunOf chain run → OneTailHoldsTheList chain run }
{}

/// States that the committed entries are a prefix of the history of each ready member of the
/// master's membership.
pub fn ready_members_hold_the_list()
    ensures { (chain : ℕ) (run : Run) → IsTypedRunOf chain run → ReadyMembersHoldTheList chain run }
{}

/// States that the entries that a node knows to be committed are in its history, and are the first
/// committed ones.
pub fn acknowledged_is_committed()
    ensures { (chain : ℕ) (run : Run) → IsTypedRunOf chain run → AcknowledgedIsCommitted chain run }
{}

/// States that each state that was ever sent is that of the single copy after as many committed
/// updates as it says.
pub fn copies_are_committed()
    ensures { (chain : ℕ) (run : Run) → IsTypedRunOf chain run → CopiesAreCommitted chain run }
{}

/// States that each part of a state that was ever sent is its share of the single copy's state
/// after as many committed updates as it says: of the objects by ascending key and then the kept
/// replies by ascending client, 64 items a part.
pub fn parts_are_shares()
    ensures { (chain : ℕ) (run : Run) → IsTypedRunOf chain run → PartsAreShares chain run }
{}

/// States that each message that was ever sent agrees with its sender, then and at all later times.
/// The sender is a node of the chain. An entry, alone or in a batch, is at its position in the
/// sender's history. For an acknowledgement, a state or a part of one, the sender knows that this
/// number is committed. For a floor, the sender is ready and holds this number of entries. A sender
/// that reports its length holds that number of entries.
pub fn messages_agree_with_senders()
    ensures { (chain : ℕ) (run : Run) → IsTypedRunOf chain run → MessagesAgreeWithSenders chain run }
{}

/// States that each version that was ever reported names a strong read of its receiver. It is the
/// version of the read's object on the single copy after the updates that were committed when it
/// was sent.
pub fn reported_versions_were_committed()
    ensures { (chain : ℕ) (run : Run) → IsTypedRunOf chain run → ReportedVersionsWereCommitted chain run }
{}

/// States that each update that waits at a node waits for more entries than the node knows to be
/// committed. It was requested there, and its reply is the single copy's for its client and number
/// after the updates of the node's history that it waits for.
pub fn waiting_updates_are_owed()
    ensures { (chain : ℕ) (run : Run) → IsTypedRunOf chain run → WaitingUpdatesAreOwed chain run }
{}

/// States that all of these hold after every run. A world's runs are such runs: the contracts of
/// `MachineState::take`, `MachineState::run` and `MachineState::run_of` of `craq_world` say so.
pub fn runs_keep_invariants()
    ensures { (chain : ℕ) (run : Run) → IsTypedRunOf chain run → HasInvariants chain run }
{}
