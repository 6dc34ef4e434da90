//! Proves that lines of a chain in causal order are a run of it, whatever their stamps.
//! States laws: functions without bodies, whose contracts are the theorems. Merged journals
//! (`craq_merge`) and the history of a running store (`craq_store_history`) are such lines.
#![tactic(auto)]

ghost use Rattle.std.specs.Prelude.{◌≡◌, ◌≢◌, ◌<◌, ◌++◌, ◌∷◌, ℕ, List, [], Ok};
ghost use mathlib.Core.List.{IsPrefix};
ghost use Rattle.craq_model.specs.declared.ask.Event.{Event};
ghost use Rattle.craq_model.specs.Members.{IsMembership};
ghost use Rattle.craq_model.specs.Node.{node_step};
ghost use Rattle.craq_model.specs.Plain.{Plain};
ghost use Rattle.craq_epochs.specs.Mastered.{Mastered};
ghost use Rattle.craq_runs.specs.Runs.{IsRunOf};
ghost use Rattle.craq_runs.specs.Typed.{IsTypedRunOf};
ghost use Rattle.craq_seat.specs.declared.journal.BookEvent.{BookEvent};
ghost use Rattle.craq_seat.specs.declared.journal.Record.{Record};
ghost use Rattle.craq_seat.specs.Books.{book_step};
ghost use Rattle.craq_seat.specs.Merge.{AtNode, AtMaster, Happening, MergedStep, book_line, node_line, run_of};
ghost use Rattle.craq_causality.specs.Authors.{IsMasterAfter, IsNodeAfter};
ghost use Rattle.craq_causality.specs.Causal.{AreCausal, AreFew, AreTyped, IsOfType, MayFollow};

/// States that lines in causal order are a run of their chain: each delivery after its sending,
/// each removal after the stop that it names, each step of a node after its join, each author's
/// lines a journal. A stamp only names a step. There are at most 2^64 - 1 lines, and as many
/// messages, since a run numbers both by 64 bits. The run is of values that the types allow if the
/// requests of the lines are.
pub fn causal_lines_are_a_run()
    ensures run { (chain : ℕ) (members : List ℕ) (lines : List MergedStep) → AreCausal chain members lines → AreFew lines
        → IsRunOf chain (run_of members lines) }
    ensures typed { (chain : ℕ) (members : List ℕ) (lines : List MergedStep) → AreCausal chain members lines → AreTyped lines → AreFew lines
        → IsTypedRunOf chain (run_of members lines) }
{}

/// States that one more line keeps causal order: a step of a node once its causes are among the
/// lines, and a step of the master. So each author keeps the order by what it knows, whatever the
/// others add. One more request of its type keeps the types.
pub fn causal_lines_grow()
    ensures none { (chain : ℕ) (members : List ℕ) → IsMembership members → AreCausal chain members [] }
    ensures node { (chain : ℕ) (members : List ℕ) (lines : List MergedStep) (id : ℕ) (p q : Plain) (stamp : ℕ) (r : Record Event)
        → AreCausal chain members lines → id ≢ 0 → IsNodeAfter chain members id lines p stamp → node_step p r.event ≡ Ok (q, r.step) → stamp < r.stamp
        → MayFollow members lines id (AtNode r.event) → AreCausal chain members (lines ++ node_line id r ∷ []) }
    ensures master { (chain : ℕ) (members : List ℕ) (lines : List MergedStep) (m n : Mastered) (stamp : ℕ) (r : Record BookEvent)
        → AreCausal chain members lines → IsMasterAfter chain members lines m stamp → book_step m r.event ≡ Ok (n, r.step) → stamp < r.stamp
        → MayFollow members lines 0 (AtMaster r.event) → AreCausal chain members (lines ++ book_line r ∷ []) }
    ensures later { (members : List ℕ) (xs ys : List MergedStep) (id : ℕ) (h : Happening) → IsPrefix xs ys → MayFollow members xs id h → MayFollow members ys id h }
    ensures typed { (lines : List MergedStep) (l : MergedStep) → AreTyped lines → IsOfType l.event → AreTyped (lines ++ l ∷ []) }
{}
