//! States two laws of an audited run, for users of the result `Merged`: its strong replies have
//! linearization points, and their order follows the passes.
ghost use Rattle.std.specs.Prelude.{◌≡◌, ◌≤◌, ℕ, List, Contains, IsTrue};
ghost use Rattle.craq_runs.specs.Seen.{is_strong_ask};
ghost use Rattle.craq_runs.specs.Valid.{IsValid};
ghost use Rattle.craq_runs.specs.declared.explanation.Explanation.{Explanation};
ghost use Rattle.craq_runs.specs.declared.explanation.Place.{Place};
ghost use Rattle.craq_runs.specs.declared.run.Run.{Run};
ghost use Rattle.craq_seat.specs.Calls.{Called};
ghost use Rattle.craq_seat.specs.Merge.{Journals};
ghost use Rattle.craq_audit.specs.Audited.{IsAudited};
ghost use Rattle.craq_audit.specs.Places.{IsPlaceOf};

/// States that a valid explanation of an audited run has a place for the reply to each strong call,
/// an update or a strong read. The receipt of the call must have been given to the audit.
pub fn answers_have_places()
    ensures { (chain : ℕ) (j : Journals) (receipts : List Called) (run : Run) (e : Explanation) (call : Called)
        → IsAudited chain j receipts run → IsValid run e → Contains receipts call → IsTrue (is_strong_ask call.call.ask)
        → (p : Place) × IsPlaceOf e call p }
{}

/// States that a strong call with a pass that covers the reply to an earlier strong call is
/// answered no lower: in a valid explanation of an audited run its position is not below that of
/// the earlier one.
pub fn later_answers_stand_no_lower()
    ensures { (chain : ℕ) (j : Journals) (receipts : List Called) (run : Run) (e : Explanation) (earlier later : Called) (p q : Place)
        → IsAudited chain j receipts run → IsValid run e → Contains receipts earlier → Contains receipts later
        → IsTrue (is_strong_ask earlier.call.ask) → IsTrue (is_strong_ask later.call.ask)
        → IsPlaceOf e earlier p → IsPlaceOf e later q
        → earlier.answered.stamp ≤ later.call.pass → p.position ≤ q.position }
{}
