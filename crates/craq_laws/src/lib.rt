//! Basic laws of the single copy, the node and the chain, as the definitions give them.
//! States laws: functions without bodies whose contracts are the theorems.
#![tactic(auto)]

ghost use Rattle.std.specs.Prelude.{◌≡◌, ◌≢◌, ◌≤◌, ◌↔◌, ℕ, true, false, Err, List, [], ◌∷◌, ◌++◌, length, map, None, Some, Ok, Option};
ghost use Rattle.std.specs.List.{IsDistinct};
ghost use Rattle.std.specs.Prelude.{T, ◌&&◌};
ghost use Rattle.std.specs.FinMap.Entries.{is_sorted};
ghost use Rattle.craq_names.specs.Maps.{same_bytes, key_cmp, at_key, put_key};
ghost use Rattle.craq_commands.specs.Objects.{Objects, object_of, version_of, all_written};
ghost use Rattle.craq_runs.specs.Chain.{Chain, node_at, set_node, chain_step};
ghost use Rattle.craq_runs.specs.Runs.{AreTaken, Takes, after_moves};
ghost use Rattle.craq_runs.specs.declared.run.Taken.{Taken};
ghost use Rattle.craq_model.specs.Asks.{versioned_write, asked_objects};
ghost use Rattle.craq_commands.specs.Evaluation.{all_of_chain};
ghost use Rattle.craq_model.specs.Members.{first_of};
ghost use Rattle.craq_names.specs.Limits.{greatest};
ghost use Rattle.craq_model.specs.declared.ask.Ask.{Ask};
ghost use Rattle.craq_model.specs.declared.message.LinkMessage.{LinkMessage};
ghost use Rattle.craq_names.specs.declared.name.ObjectId.{ObjectId};
ghost use Rattle.craq_names.specs.declared.refusal.Refusal.{Refusal};
ghost use Rattle.craq_commands.specs.declared.read_mode.ReadMode.{ReadMode};
ghost use Rattle.craq_commands.specs.Kept.{Window, is_new, said_of};
ghost use Rattle.craq_commands.specs.declared.state.State.{State};
ghost use Rattle.craq_commands.specs.SingleCopy.{apply, said, is_new_to, after, after_from, after_entry, with_writes};
ghost use Rattle.craq_commands.specs.declared.command.Update.{Update};
ghost use Rattle.craq_commands.specs.declared.entry.Entry.{Entry};
ghost use Rattle.craq_model.specs.Asks.{with_entry};
ghost use Rattle.craq_model.specs.declared.ask.Event.{Event};
ghost use Rattle.craq_model.specs.declared.step.Step.{Step};
ghost use Rattle.craq_model.specs.Node.{node_step, is_for};
ghost use Rattle.std.specs.List.{flat_map};
ghost use Rattle.craq_model.specs.declared.message.StatePart.{StatePart};
ghost use Rattle.craq_model.specs.Parts.{item_count, joined_state, parts_of};
ghost use Rattle.craq_model.specs.Sends.{runs_of};
ghost use Rattle.craq_model.specs.Plain.{Plain, newest, id_of, is_first};
ghost use Rattle.craq_laws.specs.Pieces.{AreFullButLast};

/// A request number is new exactly if it has no reply.
pub fn new_numbers()
    ensures { (w : Window) (number : ℕ) → (is_new w number ≡ true) ↔ (said_of w number ≡ None) }
{}

/// Applying a concatenation of updates applies one list after the other.
pub fn after_more()
    ensures { (us vs : List Update) → after (us ++ vs) ≡ after_from (after us) vs }
{}

/// The newest state after one more entry.
pub fn newest_with_entry()
    ensures { (p : Plain) (e : Entry) → newest (with_entry p e) ≡ after_entry (newest p) e }
{}

/// The parts in which a state is sent, joined in order, are the state.
pub fn parts_are_the_state()
    ensures { (position : ℕ) (s : State) → joined_state (map (λ (p : StatePart). (p.number, p.state)) (parts_of position s)) ≡ s }
{}

/// The runs in which entries are sent, concatenated, are the entries.
pub fn runs_are_the_entries()
    ensures { (es : List Entry) → flat_map (λ (run : List Entry). run) (runs_of es) ≡ es }
{}

/// Each run of entries has 16 of them, except the last, which has 1 to 16.
pub fn runs_but_the_last_are_full()
    ensures { (es : List Entry) → AreFullButLast length 16 (runs_of es) }
{}

/// Each part of a state has 64 items, except the last, which has 1 to 64.
pub fn parts_but_the_last_are_full()
    ensures { (position : ℕ) (s : State) → AreFullButLast (λ (p : StatePart). item_count p.state) 64 (parts_of position s) }
{}

/// A step keeps a node's name.
pub fn step_keeps_name()
    ensures { (p q : Plain) (e : Event) (s : Step) → node_step p e ≡ Ok (q, s) → q.name ≡ p.name }
{}

/// A chain's node with an id is the last one that was stored under it.
pub fn nodes_by_id()
    ensures here { (nodes : List Plain) (p q : Plain) → node_at nodes (id_of p) ≡ Some q → node_at (set_node nodes p) (id_of p) ≡ Some p }
    ensures elsewhere { (nodes : List Plain) (p : Plain) (id : ℕ) → id ≢ id_of p → node_at (set_node nodes p) id ≡ node_at nodes id }
{}

/// A run extends by an accepted move.
pub fn run_goes_on()
    ensures { (c : Chain) (ts : List Taken) (t : Taken) → AreTaken c ts → Takes (chain_step (after_moves c ts) t.chosen) t.step → AreTaken c (ts ++ t ∷ []) }
{}

/// The writes of an entry, with their versions, have the effect of the command's writes.
pub fn entry_writes()
    ensures { (m : Objects) (ws : List (List ℕ × List ℕ)) → IsDistinct same_bytes (map (λ w. w.0) ws) → with_writes m (map (versioned_write m) ws) ≡ all_written m ws }
{}

/// A request is refused in a fixed order: `Stopped`, `NotReady`, `TwoChains`, `NotHead`, then
/// `Exhausted` for the ticket. A message for another node is refused with `WrongNode`.
pub fn refusals_in_order()
    ensures stopped { (p : Plain) (e : Event) → p.running ≡ false → node_step p e ≡ Err Refusal.Stopped }
    ensures not_ready { (p : Plain) (a : Ask) → p.running ≡ true → p.ready ≡ false → node_step p (Event.Ask a) ≡ Err Refusal.NotReady }
    ensures two_chains { (p : Plain) (a : Ask) → p.running ≡ true → p.ready ≡ true → all_of_chain p.name.chain (asked_objects a) ≡ false → node_step p (Event.Ask a) ≡ Err Refusal.TwoChains }
    ensures not_head { (p : Plain) (u : Update) → p.running ≡ true → p.ready ≡ true → all_of_chain p.name.chain (asked_objects (Ask.Update u)) ≡ true → is_first p ≡ false → node_step p (Event.Ask (Ask.Update u)) ≡ Err (Refusal.NotHead (first_of p.members)) }
    ensures no_ticket { (p : Plain) (u : Update) → p.running ≡ true → p.ready ≡ true → all_of_chain p.name.chain (asked_objects (Ask.Update u)) ≡ true → is_first p ≡ true → p.last_ticket ≡ greatest → node_step p (Event.Ask (Ask.Update u)) ≡ Err Refusal.Exhausted }
    ensures no_ticket_to_read { (p : Plain) (mode : ReadMode) (o : ObjectId) → p.running ≡ true → p.ready ≡ true → all_of_chain p.name.chain (asked_objects (Ask.Read mode o)) ≡ true → p.last_ticket ≡ greatest → node_step p (Event.Ask (Ask.Read mode o)) ≡ Err Refusal.Exhausted }
    ensures wrong_node { (p : Plain) (m : LinkMessage) → p.running ≡ true → is_for p m ≡ false → node_step p (Event.Deliver m) ≡ Err Refusal.WrongNode }
{}

/// Maps by key: an inserted value is found, the order is kept, and maps with equal look-ups are
/// equal.
pub fn maps_of_keys()
    ensures here { (m : Objects) (key : List ℕ) (x : ℕ × List ℕ) → at_key (put_key m key x) key ≡ Some x }
    ensures elsewhere { (m : Objects) (key other : List ℕ) (x : ℕ × List ℕ) → same_bytes key other ≡ false → at_key (put_key m key x) other ≡ at_key m other }
    ensures order { (m : Objects) (key : List ℕ) (x : ℕ × List ℕ) → T (is_sorted key_cmp m) → T (is_sorted key_cmp (put_key m key x)) }
    ensures same { (m n : Objects) → T (is_sorted key_cmp m) → T (is_sorted key_cmp n) → ((key : List ℕ) → at_key m key ≡ at_key n key) → m ≡ n }
{}

/// Versions never fall along a list of updates.
pub fn versions_never_fall()
    ensures { (us vs : List Update) (key : List ℕ) → version_of (after us).objects key ≤ version_of (after (us ++ vs)).objects key }
{}

/// Equal versions of an object at two prefixes of one list mean equal values.
pub fn versions_tell_values()
    ensures { (us vs : List Update) (key : List ℕ) → version_of (after us).objects key ≡ version_of (after (us ++ vs)).objects key → object_of (after us).objects key ≡ object_of (after (us ++ vs)).objects key }
{}

/// The reply to a client's request number changes only when an update of that client is applied.
pub fn said_until_asked_again()
    ensures others { (s : State) (u : Update) (client number : ℕ) → client ≢ u.client → said (apply s u) client number ≡ said s client number }
    ensures old { (s : State) (u : Update) → is_new_to s u.client u.number ≡ false → apply s u ≡ s }
{}

/// A request number that is not new never becomes new.
pub fn never_new_again()
    ensures { (us vs : List Update) (client number : ℕ) → is_new_to (after us) client number ≡ false → is_new_to (after (us ++ vs)) client number ≡ false }
{}

/// A request number that was applied is not new.
pub fn applied_once()
    ensures { (s : State) (u : Update) → is_new_to (apply s u) u.client u.number ≡ false }
{}
