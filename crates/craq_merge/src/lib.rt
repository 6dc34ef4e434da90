//! Proves that the journals of a chain's cells are a run: their steps by stamp, then by node.
//! States laws for `craq_audit`: functions without bodies, whose contracts are the theorems.
//!
//! Each contract is a law of journals, or of the cells that keep them (`AreSeated`): a chain's
//! master and one node for each id that ever was a member, opened as it became one. Each removal
//! names the step in which its node stopped, and each message that arrived was sent.
#![tactic(auto)]

ghost use Rattle.std.specs.Prelude.{◌≡◌, ◌<◌, ◌≤◌, ℕ, ◌==◌, List, map, filter, Contains, IsPermutation};
ghost use Rattle.std.specs.List.{AllByRecursion};
ghost use Rattle.craq_model.specs.declared.ask.Event.{Event};
ghost use Rattle.craq_epochs.specs.Mastered.{Mastered};
ghost use Rattle.craq_runs.specs.Runs.{IsRunOf};
ghost use Rattle.craq_runs.specs.Typed.{IsTypedRunOf};
ghost use Rattle.craq_runs.specs.Seen.{seen};
ghost use Rattle.craq_runs.specs.Valid.{IsExplained, OnlyGrows};
ghost use Rattle.craq_runs.specs.declared.explanation.Explanation.{Explanation};
ghost use Rattle.craq_runs.specs.declared.explanation.Place.{Place};
ghost use Rattle.craq_runs.specs.declared.run.Run.{Run};
ghost use Rattle.craq_seat.specs.declared.journal.BookEvent.{BookEvent};
ghost use Rattle.craq_seat.specs.declared.journal.Record.{Record};
ghost use Rattle.craq_seat.specs.Audits.{AreKept, AreOfChain, HasSender, IsHeld, IsMergedRun};
ghost use Rattle.craq_seat.specs.Books.{IsBook};
ghost use Rattle.craq_seat.specs.Calls.{Called};
ghost use Rattle.craq_seat.specs.Cells.{Celled};
ghost use Rattle.craq_seat.specs.Journal.{AreStamped};
ghost use Rattle.craq_seat.specs.Kept.{IsKept};
ghost use Rattle.craq_seat.specs.Merge.{IsMerge, Journals, MergedStep, all_lines, book_line, node_line, run_of};
ghost use Rattle.craq_seat.specs.Stamps.{book_stamp, event_stamp};
ghost use Rattle.craq_causality.specs.Causal.{AreCausal};
ghost use Rattle.craq_merge.specs.Merged.{AreOfLines, AreSeated, CanBeNumbered};
ghost use Rattle.craq_merge.specs.Sorted.{AreSorted};
ghost use Rattle.craq_merge.specs.Within.{AreAsksOfType, IsWithin, run_answer_of_call};

use craq_node::Core;

/// States that a step's stamp is above the pass of its event and above the event's stamp: that of
/// the sending for a message, that of the stop for a removal.
pub fn stamps_exceed_causes()
    ensures nodes { (first last : ℕ) (rs : List (Record Event)) (r : Record Event) → AreStamped event_stamp first rs last → Contains rs r
        → (r.pass < r.stamp) × (event_stamp r.event < r.stamp) }
    ensures masters { (first last : ℕ) (rs : List (Record BookEvent)) (r : Record BookEvent) → AreStamped book_stamp first rs last → Contains rs r
        → (r.pass < r.stamp) × (book_stamp r.event < r.stamp) }
{}

/// States that journals have at most one merge.
pub fn one_merge()
    ensures { (j : Journals) (xs ys : List MergedStep) → IsMerge j xs → IsMerge j ys → xs ≡ ys }
{}

/// States that all lines of these journals, sorted by stamp and then by node, are their merge: no
/// two have the same stamp and node.
pub fn sorted_lines_are_the_merge<C: Core>()
    ensures { (book : Celled Mastered BookEvent) (cells : List (Celled C Event)) (j : Journals) (lines : List MergedStep)
        → AreSeated C.represents book cells j → IsPermutation (all_lines j) lines → AreSorted lines → IsMerge j lines }
{}

/// States that the lines of a node in a merge are its journal, and those of node 0 are the
/// master's.
pub fn merge_keeps_journals<C: Core>()
    ensures nodes { (book : Celled Mastered BookEvent) (cells : List (Celled C Event)) (j : Journals) (lines : List MergedStep) (id : ℕ) (rs : List (Record Event))
        → AreSeated C.represents book cells j → IsMerge j lines → Contains j.nodes (id, rs)
        → filter (λ (l : MergedStep). l.node == id) lines ≡ map (node_line id) rs }
    ensures master { (book : Celled Mastered BookEvent) (cells : List (Celled C Event)) (j : Journals) (lines : List MergedStep)
        → AreSeated C.represents book cells j → IsMerge j lines
        → filter (λ (l : MergedStep). l.node == 0) lines ≡ map book_line j.book }
{}

/// States that the merge of a chain's journals is in causal order. It is a run of that chain, if
/// there are numbers for its moves and messages; and a run of values that the types allow, if its
/// requests are.
pub fn merge_is_a_run<C: Core>()
    ensures causal { (book : Celled Mastered BookEvent) (cells : List (Celled C Event)) (j : Journals) (lines : List MergedStep)
        → AreSeated C.represents book cells j → IsMerge j lines → AreCausal book.opening.name.chain j.members lines }
    ensures run { (book : Celled Mastered BookEvent) (cells : List (Celled C Event)) (j : Journals) (lines : List MergedStep)
        → AreSeated C.represents book cells j → IsMerge j lines → CanBeNumbered lines
        → IsRunOf book.opening.name.chain (run_of j.members lines) }
    ensures typed { (book : Celled Mastered BookEvent) (cells : List (Celled C Event)) (j : Journals) (lines : List MergedStep)
        → AreSeated C.represents book cells j → IsMerge j lines → CanBeNumbered lines → AreAsksOfType j
        → IsTypedRunOf book.opening.name.chain (run_of j.members lines) }
{}

/// States that each message that arrived was sent, by journals whose lines are in causal order: a
/// store's history has the lines of its cells in such an order.
pub fn causal_journals_have_senders<C: Core>()
    ensures { (book : Celled Mastered BookEvent) (cells : List (Celled C Event)) (j : Journals) (lines : List MergedStep)
        → IsBook book → AllByRecursion (λ (c : Celled C Event). IsKept C.represents c) cells → AreKept book cells j → AreOfChain book cells j
        → AreCausal book.opening.name.chain j.members lines → AreOfLines j lines
        → AllByRecursion (λ (n : ℕ × List (Record Event)). AllByRecursion (HasSender j) n.1) j.nodes }
{}

/// States that each call whose request and reply are in its node's journal is a request and its
/// reply in that run. The request follows each step that the call's pass covers.
pub fn calls_are_in_the_run<C: Core>()
    ensures { (book : Celled Mastered BookEvent) (cells : List (Celled C Event)) (j : Journals) (lines : List MergedStep) (call : Called)
        → AreSeated C.represents book cells j → IsMerge j lines → CanBeNumbered lines → IsHeld j call
        → IsWithin lines (run_of j.members lines) call }
{}

/// States that the run of kept cells that an audit may return (`IsMergedRun`) is a run of their
/// chain, and has each call receipt that the audit was given.
pub fn audited_runs_hold<C: Core>()
    ensures { (book : Celled Mastered BookEvent) (cells : List (Celled C Event)) (j : Journals) (receipts : List Called) (run : Run)
        → IsBook book → AllByRecursion (λ (c : Celled C Event). IsKept C.represents c) cells → AreKept book cells j → AreOfChain book cells j
        → (m : IsMergedRun j receipts run) → CanBeNumbered m.merge.0
        → IsRunOf book.opening.name.chain run × AllByRecursion (λ (c : Called). IsWithin m.merge.0 run c) receipts }
{}

/// States that a call whose pass covers an earlier reply is requested after that reply.
pub fn passes_order_calls()
    ensures { (lines : List MergedStep) (run : Run) (earlier later : Called) (first : IsWithin lines run earlier) (second : IsWithin lines run later)
        → earlier.answered.stamp ≤ later.call.pass → first.answered < second.asked }
{}

/// States that in an explanation whose list only grows, the place of a reply is not below that of
/// an earlier reply which the call's pass covers.
pub fn later_answers_are_no_older()
    ensures { (members : List ℕ) (lines : List MergedStep) (e : Explanation) (earlier later : Called) (p q : Place)
        (first : IsWithin lines (run_of members lines) earlier) (second : IsWithin lines (run_of members lines) later)
        → OnlyGrows (seen (run_of members lines)) e
        → IsExplained (seen (run_of members lines)) e (run_answer_of_call earlier first.answered) p
        → IsExplained (seen (run_of members lines)) e (run_answer_of_call later second.answered) q
        → earlier.answered.stamp ≤ later.call.pass → p.position ≤ q.position }
{}
