//! The invariant of a node, `IsSound`; with it, all that a node sends has an encoding. What is
//! remembered of a node that forgets settled entries decides its steps.
//! States laws: functions without bodies whose contracts are the theorems.
#![tactic(auto)]

ghost use Rattle.std.specs.Prelude.{◌≡◌, ◌≤◌, ℕ, Bool, List, Ok};
ghost use Rattle.craq_names.specs.declared.name.NodeName.{NodeName};
ghost use Rattle.craq_model.specs.declared.ask.Event.{Event};
ghost use Rattle.craq_model.specs.declared.message.LinkMessage.{LinkMessage};
ghost use Rattle.craq_model.specs.declared.step.Step.{Step};
ghost use Rattle.craq_model.specs.Members.{IsMembership};
ghost use Rattle.craq_model.specs.Node.{event_transition, node_step, within_counts};
ghost use Rattle.craq_model.specs.Past.{Past};
ghost use Rattle.craq_model.specs.Plain.{Plain, opening_joined, opening_member};
ghost use Rattle.craq_model.specs.Encodable.{IsEncodable};
ghost use Rattle.craq_node_invariant.specs.Sound.{AreEncodable, IsSound, IsEncodableEvent};
ghost use Rattle.craq_node_invariant.specs.Compacted.{compacted_in, remembered, remembered_transition};

/// A node satisfies the invariant before its first step: an opening member, and one that joins
/// later.
pub fn opening_is_sound()
    ensures member { (name : NodeName) (members : List ℕ) → 1 ≤ name.node → IsMembership members → IsSound (opening_member name members) }
    ensures joined { (name : NodeName) → 1 ≤ name.node → IsSound (opening_joined name) }
{}

/// A step keeps the invariant if its event has an encoding. Then all sends and replies of the step
/// have one.
pub fn steps_are_sound()
    ensures { (p q : Plain) (e : Event) (s : Step) → IsSound p → IsEncodableEvent e → node_step p e ≡ Ok (q, s) → IsSound q × AreEncodable s.outs }
{}

/// A step of a running node keeps the invariant if its event has an encoding. Then all sends and
/// replies of the step have one.
pub fn transitions_are_sound()
    ensures { (p q : Plain) (e : Event) (s : Step) → IsSound p → IsEncodableEvent e → within_counts (event_transition p e) ≡ Ok (q, s) → IsSound q × AreEncodable s.outs }
{}

/// A message with an encoding has one under any stamp from 1 and any index. Both are set after the
/// step that sends it.
pub fn stamps_are_free()
    ensures { (m : LinkMessage) (stamp index : ℕ) → IsEncodable m → 1 ≤ stamp → IsEncodable (record m { stamp = stamp; index = index }) }
{}

/// Compacting a past twice is compacting it once.
pub fn compaction_is_done_once()
    ensures { (h : Past) → compacted_in (compacted_in h) ≡ compacted_in h }
{}

/// The remembered part of a sound node is a sound node.
pub fn remembered_nodes_are_sound()
    ensures { (forgets : Bool) (p : Plain) → IsSound p → IsSound (remembered forgets p) }
{}

/// The remembered part of a sound node takes the node's step at each event, or is refused as the
/// node is. The two nodes after it have the same remembered part.
pub fn memory_decides_steps()
    ensures transition { (forgets : Bool) (p : Plain) (e : Event) → IsSound p → remembered_transition forgets (event_transition (remembered forgets p) e) ≡ remembered_transition forgets (event_transition p e) }
    ensures step { (forgets : Bool) (p : Plain) (e : Event) → IsSound p → remembered_transition forgets (node_step (remembered forgets p) e) ≡ remembered_transition forgets (node_step p e) }
{}

/// Sound nodes with the same remembered part take the same step, or get the same refusal. The nodes
/// after it have the same remembered part.
pub fn alike_nodes_step_alike()
    ensures { (forgets : Bool) (p q : Plain) (e : Event) → IsSound p → IsSound q → remembered forgets p ≡ remembered forgets q → remembered_transition forgets (node_step p e) ≡ remembered_transition forgets (node_step q e) }
{}
