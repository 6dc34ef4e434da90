//! Laws: functions without bodies, whose contracts are the theorems.
ghost use Rattle.std.specs.Prelude.{◌≡◌, ◌++◌, ◌∷◌, ℕ, List, [], Contains, Option, Some};
ghost use mathlib.Core.List.{IsPrefix};
ghost use Rattle.std.specs.declared.snapshot.Snapshot.{Snapshot};
ghost use Rattle.craq_names.specs.declared.name.NodeName.{NodeName};
ghost use Rattle.craq_model.specs.declared.ask.Ask.{Ask};
ghost use Rattle.craq_model.specs.declared.ask.Event.{Event};
ghost use Rattle.craq_model.specs.declared.ask.Event.TheVariants as events;
ghost use Rattle.craq_model.specs.declared.step.Step.{Step};
ghost use Rattle.craq_model.specs.Plain.{Plain};
ghost use Rattle.craq_epochs.specs.Mastered.{Mastered};
ghost use Rattle.craq_runs.specs.Typed.{IsTypedRunOf};
ghost use Rattle.craq_seat.specs.declared.journal.BookEvent.{BookEvent};
ghost use Rattle.craq_seat.specs.Merge.{run_of};
ghost use Rattle.craq_causality.specs.Causal.{AreFew};
ghost use Rattle.craq_ghost_history.specs.Histories.{IsAdded, MayAdd};
ghost use Rattle.craq_store_history.specs.declared.entry.CallId.{CallId};
ghost use Rattle.craq_store_history.specs.declared.entry.HistoryEntry.{HistoryEntry};
ghost use Rattle.craq_store_history.specs.declared.entry.HistoryEntry.TheVariants.{ChainOpened, ClientCall, NodeStep, MasterStep, CallTakenBack};
ghost use Rattle.craq_store_history.specs.Chains.{Accepts, IsHistory, WasCalled};
ghost use Rattle.craq_store_history.specs.Entries.{author_of, lines_in, master_record, members_in, node_record, permit_of};
ghost use Rattle.craq_store_history.specs.Steps.{IsMasterAt, IsNodeAt, MayMake, MayOpen, MayOrder, MayStep};

/// The lines of each chain that was opened are a run of it, in every history that keeps the rule.
pub fn each_chain_is_a_run()
    ensures { (log : List HistoryEntry) (chain : ℕ) (members : List ℕ) → IsHistory log → members_in chain log ≡ Some members → AreFew (lines_in chain log)
        → IsTypedRunOf chain (run_of members (lines_in chain log)) }
{}

/// Each author knows enough to add its entry, whatever the others have added. A history without
/// entries keeps the rule.
pub fn authors_keep_the_rule()
    ensures empty { IsHistory [] }
    ensures opened { (chain : ℕ) (seen reported : List HistoryEntry) (members : Snapshot (List ℕ)) → MayOpen chain seen members.value
        → MayAdd author_of permit_of IsHistory seen reported (ChainOpened chain members) }
    ensures called { (seen reported : List HistoryEntry) (call : CallId) (name : NodeName) (ask : Snapshot Ask) → MayMake seen call
        → MayAdd author_of permit_of IsHistory seen reported (ClientCall call name ask) }
    ensures node { (name : NodeName) (seen reported : List HistoryEntry) (stamp : ℕ) (event : Snapshot Event) (pass : ℕ) (step : Snapshot Step) (call : Option CallId) (next : Plain)
        → MayStep name seen reported (node_record stamp event pass step) call next → MayAdd author_of permit_of IsHistory seen reported (NodeStep name stamp event pass step call) }
    ensures master { (chain : ℕ) (seen reported : List HistoryEntry) (stamp : ℕ) (event : BookEvent) (pass : ℕ) (step : Snapshot Step) (next : Mastered)
        → MayOrder chain seen reported (master_record stamp event pass step) next → MayAdd author_of permit_of IsHistory seen reported (MasterStep chain stamp event pass step) }
    ensures withdrawn { (seen reported : List HistoryEntry) (call : CallId) → MayAdd author_of permit_of IsHistory seen reported (CallTakenBack call) }
{}

/// After a step was added, the author's own entries replay to the node, or the master, after it.
pub fn authors_are_replayed()
    ensures node { (name : NodeName) (seen reported new : List HistoryEntry) (stamp : ℕ) (event : Snapshot Event) (pass : ℕ) (step : Snapshot Step) (call : Option CallId) (next : Plain)
        → MayStep name seen reported (node_record stamp event pass step) call next → IsAdded author_of seen reported (NodeStep name stamp event pass step call) new → IsNodeAt name new next stamp }
    ensures master { (chain : ℕ) (seen reported new : List HistoryEntry) (stamp : ℕ) (event : BookEvent) (pass : ℕ) (step : Snapshot Step) (next : Mastered)
        → MayOrder chain seen reported (master_record stamp event pass step) next → IsAdded author_of seen reported (MasterStep chain stamp event pass step) new → IsMasterAt chain new next stamp }
{}

/// A step on a request accepts a call. The call was made before, with this request, at this node;
/// and the step stands after all that the client had seen before the call.
pub fn accepted_calls_follow()
    ensures asked { (log done rest : List HistoryEntry) (name : NodeName) (stamp : ℕ) (event : Snapshot Event) (pass : ℕ) (step : Snapshot Step) (call : Option CallId) (ask : Ask)
        → IsHistory log → log ≡ done ++ NodeStep name stamp event pass step call ∷ rest → event.value ≡ events.Ask ask → (its : CallId) × (call ≡ Some its) × WasCalled done its name ask }
    ensures made { (log done rest : List HistoryEntry) (name : NodeName) (stamp : ℕ) (event : Snapshot Event) (pass : ℕ) (step : Snapshot Step) (call : CallId)
        → IsHistory log → log ≡ done ++ NodeStep name stamp event pass step (Some call) ∷ rest → Accepts done name event.value (Some call) }
    ensures later { (log seen reported mid done rest : List HistoryEntry) (call : CallId) (name at : NodeName) (ask : Snapshot Ask) (stamp : ℕ) (event : Snapshot Event) (pass : ℕ) (step : Snapshot Step)
        → IsHistory log → IsAdded author_of seen reported (ClientCall call name ask) mid → IsPrefix mid log
        → log ≡ done ++ NodeStep at stamp event pass step (Some call) ∷ rest → IsPrefix mid done }
{}

/// At most one step accepts a call. If its client took the call back, then no step accepts it, in
/// any history that keeps the rule.
pub fn calls_are_accepted_once()
    ensures once { (log : List HistoryEntry) (name at : NodeName) (stamp its_stamp : ℕ) (event its_event : Snapshot Event) (pass its_pass : ℕ) (step its_step : Snapshot Step) (call : CallId) → IsHistory log
        → Contains log (NodeStep name stamp event pass step (Some call)) → Contains log (NodeStep at its_stamp its_event its_pass its_step (Some call)) → (name ≡ at) × (stamp ≡ its_stamp) }
    ensures withdrawn { (log : List HistoryEntry) (name : NodeName) (stamp : ℕ) (event : Snapshot Event) (pass : ℕ) (step : Snapshot Step) (call : CallId) → IsHistory log
        → Contains log (CallTakenBack call) → ¬ (Contains log (NodeStep name stamp event pass step (Some call))) }
{}
