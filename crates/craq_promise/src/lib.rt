//! The main theorem: every run of a chain has a valid explanation, the one of `explain`.
//! States laws for `craq_world`: functions without bodies, whose contracts are the theorems.
//!
//! Whatever is requested, delivered, lost, repeated, stopped, removed or joined, in any order, each
//! chain has one growing list of updates, with no request number twice. Every strong reply is the
//! answer of a single copy after a prefix of that list that was the whole list at some moment from
//! its request to its reply. Every eventual reply is a version written by updates that were
//! requested.
#![tactic(auto)]

ghost use Rattle.std.specs.Prelude.{◌++◌, ◌∷◌, ℕ, List, []};
ghost use Rattle.craq_updates.specs.ValidEntries.{IsBeginning};
ghost use Rattle.craq_runs.specs.Typed.{IsTypedRunOf};
ghost use Rattle.craq_promise.specs.Fixed.{HasFixedMembership};
ghost use Rattle.craq_runs.specs.Explain.{explain};
ghost use Rattle.craq_runs.specs.Seen.{seen};
ghost use Rattle.craq_runs.specs.Valid.{IsValid, LooksHold};
ghost use Rattle.craq_runs.specs.declared.run.Run.{Run};
ghost use Rattle.craq_runs.specs.declared.run.Taken.{Taken};

/// States that each eventual reply is its object after some line: updates that were requested by
/// then, no request twice, that begin with the committed ones. It is no older than what the node
/// replied of the object before. A bounded reply is its object after a prefix of such a line, at
/// most its bound above the committed version. It is no older than what the node replied of the
/// object before as written, or to a read of the same bound or less.
pub fn looks_hold()
    ensures { (chain : ℕ) (run : Run) → IsTypedRunOf chain run → LooksHold (seen run) (explain chain run) }
{}

/// States that every run of a chain has a valid explanation: the one that `explain` chooses.
/// Whatever is requested, delivered, lost, repeated, stopped, removed or joined, in any order, the
/// chain has one growing list of updates, with no request number twice. Every strong reply is the
/// answer of a single copy after a prefix of that list that was the whole list at some moment from
/// its request to its reply. Every eventual reply is a version written by updates that were
/// requested. The run's transactions are within the limits that their type keeps.
pub fn every_run_is_explained()
    ensures { (chain : ℕ) (run : Run) → IsTypedRunOf chain run → IsValid run (explain chain run) }
{}

/// States the same for runs in which no node stops, is removed or joins: the promise for a store
/// whose membership never changes.
pub fn every_run_of_a_fixed_membership_is_explained()
    ensures { (chain : ℕ) (run : Run) → IsTypedRunOf chain run → HasFixedMembership run.moves → IsValid run (explain chain run) }
{}

/// States that each list of the explanation before a move is a prefix of the list after it, and
/// that both are valid. So no reply is ever explained in another way later.
pub fn explanations_are_never_taken_back()
    ensures grows { (chain : ℕ) (members : List ℕ) (moves : List Taken) (next : Taken) → IsTypedRunOf chain (record { members = members; moves = moves ++ next ∷ [] })
        → IsBeginning (explain chain (record { members = members; moves = moves })) (explain chain (record { members = members; moves = moves ++ next ∷ [] })) }
    ensures before { (chain : ℕ) (members : List ℕ) (moves : List Taken) (next : Taken) → IsTypedRunOf chain (record { members = members; moves = moves ++ next ∷ [] })
        → IsValid (record { members = members; moves = moves }) (explain chain (record { members = members; moves = moves })) }
{}
