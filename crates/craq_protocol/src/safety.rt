//! States what holds at all times, for every list of moves, whatever messages are lost, repeated or
//! late; the main laws of the crate.

ghost use Rattle.std.specs.Prelude.{◌≡◌, ◌<◌, ◌≤◌, ℕ, List, length, take, true};
ghost use Rattle.craq_protocol.specs.Machine.{Ack, Copy, Message, MachineState, current_membership, is_tail, known_membership};
ghost use Rattle.craq_protocol.specs.Members.{IsDistinct, is_member, membership_of};
ghost use Rattle.craq_protocol.specs.Promises.{Before, IsPrefix, IsReached, Sent};

/// States that the log is a prefix of the history of each ready member.
pub fn ready_members_hold_the_log<T>()
    ensures { (w : MachineState T) (node : ℕ) → IsReached w
        → w.ready node ≡ true → is_member (current_membership w) node ≡ true
        → IsPrefix w.log (w.history node) }
{}

/// States that the entries that a node knows to be committed are committed: they are the first of
/// the log, and the node holds them.
pub fn machine_acknowledged_is_committed<T>()
    ensures held { (w : MachineState T) (node : ℕ) → IsReached w
        → w.acknowledged node ≤ length (w.history node) }
    ensures committed { (w : MachineState T) (node : ℕ) → IsReached w
        → w.acknowledged node ≤ length w.log }
    ensures same { (w : MachineState T) (node : ℕ) → IsReached w
        → take (w.acknowledged node) (w.history node) ≡ take (w.acknowledged node) w.log }
{}

/// States that there is at most one tail, even while nodes know different memberships. Its history
/// is the log, and it knows that all of it is committed.
pub fn one_tail_holds_the_log<T>()
    ensures one { (w : MachineState T) (node other : ℕ) → IsReached w
        → is_tail w node ≡ true → is_tail w other ≡ true → node ≡ other }
    ensures log { (w : MachineState T) (node : ℕ) → IsReached w
        → is_tail w node ≡ true → w.history node ≡ w.log }
    ensures known { (w : MachineState T) (node : ℕ) → IsReached w
        → is_tail w node ≡ true → w.acknowledged node ≡ length (w.history node) }
{}

/// States that each acknowledgement and each copy that was ever sent is of a prefix of the log.
pub fn messages_are_of_the_log<T>()
    ensures ack { (w : MachineState T) (message : Message T) (count : ℕ) → IsReached w
        → Sent w.messages message → message.body ≡ Ack count → count ≤ length w.log }
    ensures copy { (w : MachineState T) (message : Message T) (entries : List T) → IsReached w
        → Sent w.messages message → message.body ≡ Copy entries → IsPrefix entries w.log }
{}

/// States that a node's history is a prefix of that of each node before it: in the membership that
/// the node knows, and in the newest one. This is the invariant of chain replication's updates (van
/// Renesse and Schneider, OSDI 2004).
pub fn machine_predecessors_hold_more<T>()
    ensures known { (w : MachineState T) (node other : ℕ) → IsReached w
        → Before (known_membership w node) other node → IsPrefix (w.history node) (w.history other) }
    ensures current { (w : MachineState T) (node other : ℕ) → IsReached w
        → Before (current_membership w) other node → IsPrefix (w.history node) (w.history other) }
{}

/// States that the members before a ready one are ready.
pub fn machine_predecessors_are_ready<T>()
    ensures { (w : MachineState T) (node other : ℕ) → IsReached w
        → Before (current_membership w) other node → w.ready node ≡ true → w.ready other ≡ true }
{}

/// States that no membership has an id twice; that a node knows only memberships that were made and
/// contain it; and that a running node is a member of the newest one.
pub fn memberships_are_sound<T>()
    ensures distinct { (w : MachineState T) (epoch : ℕ) → IsReached w
        → IsDistinct (membership_of w.memberships epoch) }
    ensures made { (w : MachineState T) (node : ℕ) → IsReached w → w.epoch node ≤ length w.memberships }
    ensures member { (w : MachineState T) (node : ℕ) → IsReached w
        → 0 < w.epoch node → is_member (known_membership w node) node ≡ true }
    ensures running { (w : MachineState T) (node : ℕ) → IsReached w
        → w.running node ≡ true → is_member (current_membership w) node ≡ true }
{}
