//! Proves that each entry of a run was requested, and is its update's result on one copy.
//! States laws for the later crates: functions without bodies, whose contracts are the theorems.
#![tactic(auto)]

ghost use Rattle.std.specs.Prelude.{◌≡◌, ◌∷◌, ◌++◌, ℕ, IsSome, List, Some, [], length, take};
ghost use Rattle.std.specs.List.{AllByRecursion};
ghost use Rattle.craq_commands.specs.SingleCopy.{after_entries, opening_state};
ghost use Rattle.craq_model.specs.Plain.{Plain};
ghost use Rattle.craq_runs.specs.Chain.{node_at, opening_chain};
ghost use Rattle.craq_runs.specs.Explain.{account_of, explain, opening_account};
ghost use Rattle.craq_runs.specs.Runs.{after_moves};
ghost use Rattle.craq_runs.specs.Seen.{asks_from, seen, update_at};
ghost use Rattle.craq_runs.specs.Valid.{OnlyGrows, committed, state_at};
ghost use Rattle.craq_runs.specs.declared.run.Run.{Run};
ghost use Rattle.craq_runs.specs.declared.run.Taken.{Taken};
ghost use Rattle.craq_updates.specs.ValidEntries.{AllValid, HasValidHistory, IsBeginning};
ghost use Rattle.craq_updates.specs.Updates.{updates_in};
ghost use Rattle.craq_runs.specs.Typed.{IsTypedRunOf};

/// States that each committed entry was requested and that its number was new. Its writes and reply
/// are those of its command on one copy of the objects that applied the updates before it.
pub fn committed_entries_are_valid()
    ensures { (chain : ℕ) (run : Run) → IsTypedRunOf chain run
        → AllValid (asks_from 1 run.moves) opening_state (account_of (opening_account chain run.members) run.moves).committed }
{}

/// States that replaying the committed entries is applying the committed updates: the state after
/// the first `count` entries is that of the single copy after the first `count` updates of the
/// explanation. These updates are those of the entries, one for each.
pub fn replay_is_the_single_copy()
    ensures state { (chain : ℕ) (run : Run) (count : ℕ) → IsTypedRunOf chain run
        → after_entries opening_state (take count (account_of (opening_account chain run.members) run.moves).committed) ≡ state_at (seen run) (explain chain run) count }
    ensures updates { (chain : ℕ) (run : Run) → IsTypedRunOf chain run
        → updates_in (seen run) (account_of (opening_account chain run.members) run.moves).committed ≡ committed (seen run) (explain chain run) }
    ensures count { (chain : ℕ) (run : Run) → IsTypedRunOf chain run
        → length (committed (seen run) (explain chain run)) ≡ length (account_of (opening_account chain run.members) run.moves).committed }
{}

/// States the same of each entry that a node of the chain holds, or knows only by a state.
pub fn held_entries_are_valid()
    ensures { (chain : ℕ) (run : Run) (id : ℕ) (p : Plain) → IsTypedRunOf chain run
        → node_at (after_moves (opening_chain chain run.members) run.moves).nodes id ≡ Some p
        → HasValidHistory (asks_from 1 run.moves) p }
{}

/// States that each number of the explanation names an update that was requested, and that each
/// move has a length.
pub fn explanations_have_form()
    ensures asks { (chain : ℕ) (run : Run) → IsTypedRunOf chain run
        → AllByRecursion (λ number. IsSome (update_at (seen run).asks number)) (explain chain run).asks }
    ensures lens { (chain : ℕ) (run : Run) → IsTypedRunOf chain run
        → length (explain chain run).lens ≡ (seen run).moves }
{}

/// States that the list of committed updates only grows, by updates that were requested, no request
/// twice.
pub fn list_only_grows()
    ensures { (chain : ℕ) (run : Run) → IsTypedRunOf chain run → OnlyGrows (seen run) (explain chain run) }
{}

/// States that each list of the explanation before a move is a prefix of the list after it.
pub fn explanations_only_grow()
    ensures { (chain : ℕ) (members : List ℕ) (moves : List Taken) (next : Taken) → IsTypedRunOf chain (record { members = members; moves = moves ++ next ∷ [] })
        → IsBeginning (explain chain (record { members = members; moves = moves })) (explain chain (record { members = members; moves = moves ++ next ∷ [] })) }
{}
