//! The promise for the running store: each call stands in a run of its chain, and each such run has
//! a valid explanation. A crate of its own, so that `craq_causality` needs no part of the main
//! theorem.
//! States laws: functions without bodies, whose contracts are the theorems.
#![tactic(auto)]

ghost use Rattle.std.specs.Prelude.{◌≡◌, ◌<◌, ◌≤◌, ℕ, suc, false, true, List, Some, Contains};
ghost use Rattle.std.specs.List.{IsDistinct};
ghost use mathlib.Core.List.{IsPrefix};
ghost use Rattle.craq_commands.specs.declared.command.Update.{Update};
ghost use Rattle.craq_names.specs.declared.name.NodeName.{NodeName};
ghost use Rattle.craq_model.specs.declared.ask.Answer.{Answer};
ghost use Rattle.craq_model.specs.declared.ask.Ask.{Ask};
ghost use Rattle.craq_runs.specs.Explain.{explain};
ghost use Rattle.craq_runs.specs.Seen.{is_strong_ask, strong_answers};
ghost use Rattle.craq_runs.specs.Typed.{IsTypedRunOf};
ghost use Rattle.craq_runs.specs.Valid.{IsValid, OnlyGrows, same_name};
ghost use Rattle.craq_seat.specs.Calls.{Called};
ghost use Rattle.craq_seat.specs.Merge.{MergedStep, run_of};
ghost use Rattle.craq_causality.specs.Causal.{AreCausal, AreFew, AreTyped};
ghost use Rattle.craq_ghost_history.specs.Histories.{AreComparable};
ghost use Rattle.craq_store_history.specs.declared.entry.HistoryEntry.{HistoryEntry};
ghost use Rattle.craq_store_history.specs.Chains.{IsHistory};
ghost use Rattle.craq_store_history.specs.Entries.{lines_in, members_in};
ghost use Rattle.craq_store_parts.specs.Witnessed.{IsWitnessed};
ghost use Rattle.craq_running_promise.specs.Standing.{AnswersAsOneCopy, AnswersByMode, HasChain, IsAcceptedIn, IsCallInRun, IsOperationOf, ListGrows, Operation, IsCallInHistory, WasAsked, explanation_of_chain, run_in, updates_of_chain, view_of_chain};

/// States that lines in causal order, with each request of its type, have a valid explanation: the
/// one of `explain`, with one growing list of updates and no request number twice. Each strong
/// reply is that of a single copy after a prefix of the list, which was the whole list at some
/// moment from its request to its reply. Each eventual reply is a version that requested updates
/// wrote.
pub fn causal_lines_are_explained()
    ensures { (chain : ℕ) (members : List ℕ) (lines : List MergedStep) → AreCausal chain members lines → AreTyped lines → AreFew lines
        → IsValid (run_of members lines) (explain chain (run_of members lines)) }
{}

/// States where the calls of a running store's clients stand. `new` is the history that a client has
/// seen after its call, and `old` the one that it had seen before.
///
/// - `stands`: in each later history of the store, the request stands in the lines of its chain
///   after all that the client had seen before, and the reply stands in what it has seen since.
/// - `together`: two calls of one store's clients stand in one history, since one of the histories
///   that they have seen begins with the other (`Client::compare`).
/// - `called`: the lines of a chain, at most 2^64 - 1 with as many messages, are a run. Clients see
///   the request of a call that stands there, and its reply, as moves of that run.
/// - `explained`: that run has a valid explanation: one growing list of updates, no request number
///   twice, and a guarantee for each reply.
pub fn witnessed_calls_are_explained()
    ensures stands { (client : ℕ) (old new log : List HistoryEntry) (node : NodeName) (ask : Ask) (answer : Answer) (receipt : Called)
        → IsWitnessed client old node ask answer receipt new → IsPrefix new log → IsHistory log → IsCallInHistory old new node ask receipt log × (receipt.answer ≡ answer) }
    ensures together { (client other : ℕ) (old new before after : List HistoryEntry) (node at : NodeName) (ask request : Ask) (answer reply : Answer) (receipt its : Called)
        → IsWitnessed client old node ask answer receipt new → IsWitnessed other before at request reply its after → AreComparable new after
        → (log : List HistoryEntry) × IsHistory log × IsPrefix new log × IsPrefix after log × IsCallInHistory old new node ask receipt log × IsCallInHistory before after at request its log }
    ensures called { (old new log : List HistoryEntry) (node : NodeName) (ask : Ask) (receipt : Called) (s : IsCallInHistory old new node ask receipt log) → IsHistory log → AreFew (lines_in node.chain log)
        → IsCallInRun node ask receipt (suc s.asked_place) (suc s.answered_place) (run_in node.chain s.members log) }
    ensures explained { (log : List HistoryEntry) (chain : ℕ) (members : List ℕ) → IsHistory log → members_in chain log ≡ Some members → AreFew (lines_in chain log)
        → IsTypedRunOf chain (run_in chain members log) × IsValid (run_in chain members log) (explain chain (run_in chain members log)) }
{}

/// The promise for a running store: states that one growing list of updates explains all replies of
/// its chain. Each strong reply, to an update or to a strong read, is that of a single copy after a
/// prefix of the list. An operation is a call with its reply, as `Client::call` ensures it.
///
/// - `one_copy`: take each history that goes on from what the client has seen. There a single copy
///   that has taken a prefix of the chain's list gives this strong reply; to an update, the reply
///   that it keeps for the update's client and number. The prefix has all updates that were
///   committed before the request, and none that was not committed when the reply was given. Its
///   length is the linearization point of this reply. The request follows all that the client had
///   seen before its call.
/// - `in_run_order`: a strong reply that comes before a request in the run has no longer a prefix
///   than the request's strong reply, of whatever clients they are.
/// - `in_order`: a strong operation has no shorter a prefix than each one that its client had seen
///   before its call. So the strong operations of one client are in order, and so are those of two
///   clients of which one has seen what the other saw.
/// - `accepted`: in each history that goes on from what the client has seen, the node accepted the
///   client's call with the pass of the receipt, in the step that the receipt names.
/// - `together`: the histories that two clients have seen begin one history, if one of them begins
///   the other (`Client::compare`).
/// - `eventual`: each other reply is to an eventual or a bounded read, and meets the guarantee of its
///   mode. An eventual reply is the object after a list of requested updates that begins with the
///   committed ones. A bounded reply is the object after a prefix of such a list, at most its bound
///   above the committed version. `IsEventual` and `IsBounded` say how old a reply may be beside
///   earlier ones of its node.
/// - `asked`: a client made a call of each update of the list, at a node of the chain.
/// - `once`: no request number stands in the list twice. Each update was requested before it was
///   committed; the commit index never falls, and ends at the length of the list.
/// - `one_reply`: no request has two strong replies.
/// - `grows`: the list in a history is a prefix of the list in each later one. So are the commit
///   indexes and the linearization points: nothing is explained in another way later.
pub fn strong_replies_are_of_one_copy()
    ensures one_copy { (client : ℕ) (o : Operation) (members : List ℕ) (log : List HistoryEntry) → IsOperationOf client o → IsPrefix o.new log → HasChain o.node.chain members log → is_strong_ask o.ask ≡ true
        → AnswersAsOneCopy o members log }
    ensures in_run_order { (o next : Operation) (members : List ℕ) (log : List HistoryEntry) → HasChain o.node.chain members log → next.node.chain ≡ o.node.chain
        → (first : AnswersAsOneCopy o members log) (second : AnswersAsOneCopy next members log) → IsPrefix next.new log → first.moves.answered < second.moves.asked → first.position ≤ second.position }
    ensures in_order { (o next : Operation) (members : List ℕ) (log : List HistoryEntry) → HasChain o.node.chain members log → next.node.chain ≡ o.node.chain
        → (first : AnswersAsOneCopy o members log) (second : AnswersAsOneCopy next members log) → IsPrefix o.new next.old → IsPrefix next.new log → first.position ≤ second.position }
    ensures accepted { (client : ℕ) (o : Operation) (log : List HistoryEntry) → IsOperationOf client o → IsPrefix o.new log → IsAcceptedIn client o log }
    ensures together { (client other : ℕ) (o next : Operation) → IsOperationOf client o → IsOperationOf other next → AreComparable o.new next.new
        → (log : List HistoryEntry) × IsHistory log × IsPrefix o.new log × IsPrefix next.new log }
    ensures eventual { (client : ℕ) (o : Operation) (members : List ℕ) (log : List HistoryEntry) → IsOperationOf client o → IsPrefix o.new log → HasChain o.node.chain members log → is_strong_ask o.ask ≡ false
        → AnswersByMode o members log }
    ensures asked { (chain : ℕ) (members : List ℕ) (log : List HistoryEntry) (update : Update) → HasChain chain members log → Contains (updates_of_chain chain members log) update → WasAsked chain log update }
    ensures once { (chain : ℕ) (members : List ℕ) (log : List HistoryEntry) → HasChain chain members log → OnlyGrows (view_of_chain chain members log) (explanation_of_chain chain members log) }
    ensures one_reply { (chain : ℕ) (members : List ℕ) (log : List HistoryEntry) → HasChain chain members log → IsDistinct same_name (strong_answers (view_of_chain chain members log)) }
    ensures grows { (chain : ℕ) (members : List ℕ) (log more : List HistoryEntry) → HasChain chain members log → HasChain chain members more → IsPrefix log more → ListGrows chain members log more }
{}
