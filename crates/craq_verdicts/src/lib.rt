//! Proves that `draw` and `stops` always print `valid true`, for every script. No crate depends on
//! it.
//! States laws: functions without bodies, whose contracts are the theorems.
#![tactic(auto)]

ghost use Rattle.std.specs.Prelude.{◌≡◌, ◌≤◌, ◌++◌, ℕ, Bool, true, List, codes};
ghost use Rattle.std.specs.Fmt.{decimal};
ghost use Rattle.craq_runs.specs.Typed.{IsTypedRunOf};
ghost use Rattle.craq_runs.specs.declared.explanation.Explanation.{Explanation};
ghost use Rattle.craq_runs.specs.declared.run.Run.{Run};
ghost use Rattle.craq_chain.specs.Chained.{Chained};
ghost use Rattle.craq_script.specs.declared.line.ScriptLine.{ScriptLine};
ghost use Rattle.craq_play.specs.Played.{script_opening};
ghost use Rattle.craq_schedules.specs.Drawn.{choices_text, drawn_text};
ghost use Rattle.craq_schedules.specs.Stopped.{count_committed, cut_text, up_to, without_node};
ghost use Rattle.craq_schedules.specs.Verdicts.{AnswersAsCheck, answer_on};

/// States that some test answers of every run and every linearization witness as `check` does. So
/// the contracts of `draw` and `stops`, which speak of every such test, are not vacuous.
pub fn some_test_answers_as_check()
    ensures { (holds : Run → Explanation → Bool) × AnswersAsCheck holds }
{}

/// States that `check` accepts the linearization witness of every run of a chain. So on 1 to 8
/// nodes the last line of a drawn schedule is `valid true`, and so is the verdict on each line that
/// `stops` prints.
pub fn every_verdict_is_valid()
    ensures run { (holds : Run → Explanation → Bool) (w : Chained) → AnswersAsCheck holds
        → IsTypedRunOf w.chain w.run
        → answer_on holds w ≡ true }
    ensures drawn { (holds : Run → Explanation → Bool) (nodes : ℕ) (choices : List ℕ) (lines : List ScriptLine) → AnswersAsCheck holds
        → 1 ≤ nodes
        → nodes ≤ 8
        → drawn_text holds nodes choices lines ≡ choices_text choices (script_opening nodes) lines ++ codes "valid true\n" }
    ensures stopped { (holds : Run → Explanation → Bool) (nodes node : ℕ) (lines : List ScriptLine) (cut : ℕ) → AnswersAsCheck holds
        → 1 ≤ nodes
        → nodes ≤ 8
        → cut_text holds nodes node lines cut ≡ codes "cut " ++ decimal cut ++ codes " committed " ++ decimal (count_committed (without_node (up_to cut (script_opening nodes) lines) node)) ++ codes " " ++ codes "valid true\n" }
{}
