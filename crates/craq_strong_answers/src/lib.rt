//! Proves that each strong reply is one copy's at a moment between its request and the reply.
//! States laws for the later crates: functions without bodies, whose contracts are the theorems.
#![tactic(auto)]

ghost use Rattle.std.specs.Prelude.{◌≡◌, ℕ, [], map};
ghost use Rattle.craq_runs.specs.Typed.{IsTypedRunOf};
ghost use Rattle.craq_runs.specs.Explain.{explain};
ghost use Rattle.craq_runs.specs.Seen.{seen, strong_answers};
ghost use Rattle.craq_runs.specs.Valid.{IsChecked, StrongHold, answer_name, place_name};
ghost use Rattle.craq_runs.specs.declared.run.Run.{Run};

/// States that there is exactly one place for each strong reply, in the order of the replies.
pub fn strong_answers_have_places()
    ensures { (chain : ℕ) (run : Run) → IsTypedRunOf chain run
        → map place_name (explain chain run).places ≡ map answer_name (strong_answers (seen run)) }
{}

/// States that each reply to an update, and each strong read, follows its request. It is the answer
/// of one copy of the objects after as many committed updates as its place says: at least those
/// committed before the request, at most those committed after the reply. No update and no strong
/// read is answered twice.
pub fn strong_answers_hold()
    ensures { (chain : ℕ) (run : Run) → IsTypedRunOf chain run → StrongHold (seen run) (explain chain run) }
{}

/// States that all tests of an explanation hold of the one that `explain` chooses: its form, its
/// list and the strong replies.
pub fn explanations_are_checked()
    ensures { (chain : ℕ) (run : Run) → IsTypedRunOf chain run → IsChecked (seen run) (explain chain run) }
{}
