//! States what is never taken back; unlike `safety`, these laws compare two moments of a run.

ghost use Rattle.std.specs.Prelude.{◌≡◌, ◌≤◌, ℕ, List, length, true, false};
ghost use Rattle.craq_protocol.specs.Machine.{Message, MachineMove, MachineState, after_move, after_moves};
ghost use Rattle.craq_protocol.specs.Members.{is_member, membership_of};
ghost use Rattle.craq_protocol.specs.Promises.{IsPrefix, IsReached, Sent};

/// States that committed entries are never taken back or changed: the log grows only at its end, at
/// each move and over each list of moves (chain replication's safety: van Renesse and Schneider,
/// OSDI 2004).
pub fn log_only_grows<T>()
    ensures move_by_move { (w : MachineState T) (next : MachineMove T) → IsReached w
        → IsPrefix w.log (after_move w next).log }
    ensures over_a_run { (w : MachineState T) (moves : List (MachineMove T)) → IsReached w
        → IsPrefix w.log (after_moves w moves).log }
{}

/// States that a node's history is never taken back or changed, and that its committed length, its
/// epoch and its readiness never fall; a stopped node stays stopped.
pub fn nodes_only_gain<T>()
    ensures history { (w : MachineState T) (moves : List (MachineMove T)) (node : ℕ) → IsReached w
        → IsPrefix (w.history node) ((after_moves w moves).history node) }
    ensures acknowledged { (w : MachineState T) (moves : List (MachineMove T)) (node : ℕ) → IsReached w
        → w.acknowledged node ≤ (after_moves w moves).acknowledged node }
    ensures epoch { (w : MachineState T) (moves : List (MachineMove T)) (node : ℕ) → IsReached w
        → w.epoch node ≤ (after_moves w moves).epoch node }
    ensures ready { (w : MachineState T) (moves : List (MachineMove T)) (node : ℕ) → IsReached w
        → w.ready node ≡ true → (after_moves w moves).ready node ≡ true }
    ensures stopped { (w : MachineState T) (moves : List (MachineMove T)) (node : ℕ) → IsReached w
        → is_member w.joined node ≡ true → w.running node ≡ false
        → (after_moves w moves).running node ≡ false }
{}

/// States that sent messages stay sent, and that memberships that were made are unchanged.
pub fn past_stays<T>()
    ensures sent { (w : MachineState T) (moves : List (MachineMove T)) (message : Message T) → IsReached w
        → Sent w.messages message → Sent (after_moves w moves).messages message }
    ensures joined { (w : MachineState T) (moves : List (MachineMove T)) (node : ℕ) → IsReached w
        → is_member w.joined node ≡ true → is_member (after_moves w moves).joined node ≡ true }
    ensures epochs { (w : MachineState T) (moves : List (MachineMove T)) → IsReached w
        → length w.memberships ≤ length (after_moves w moves).memberships }
    ensures memberships { (w : MachineState T) (moves : List (MachineMove T)) (epoch : ℕ) → IsReached w
        → epoch ≤ length w.memberships
        → membership_of (after_moves w moves).memberships epoch ≡ membership_of w.memberships epoch }
{}
