//! States that each guard of the machine is needed: without it, a list of moves breaks a promise
//! that the machine keeps.

ghost use Rattle.std.specs.Prelude.{◌≡◌, ℕ, List, [], ◌∷◌, ◌++◌, true, false};
ghost use Rattle.craq_protocol.specs.Machine.{Append, after_move, after_moves, is_tail, known_membership, initial_state};
ghost use Rattle.craq_protocol.specs.Wrong.{commits_at_two, commits_unready, copy_at_ready, entry_of_any_epoch, first_goes_alone, floor_of_unready, joins_again, led_by, ready_without_floor, removes_running, second_comes_back, second_commits, second_goes_on, second_is_last, second_is_ready, second_was_there, third_is_ready, third_lags};

/// States that a node which became ready without a floor could hold less than what is committed: an
/// entry would be lost, and there would be two tails.
pub fn readiness_needs_a_floor()
    ensures committed { (led_by ready_without_floor (1 ∷ []) (Append 1 7 ∷ [])).log ≡ 7 ∷ [] }
    ensures lost { (led_by ready_without_floor (1 ∷ []) (Append 1 7 ∷ second_is_ready)).log ≡ [] }
    ensures first_tail { is_tail (led_by ready_without_floor (1 ∷ []) (Append 1 7 ∷ second_is_ready)) 1
        ≡ true }
    ensures second_tail { is_tail (led_by ready_without_floor (1 ∷ []) (Append 1 7 ∷ second_is_ready)) 2
        ≡ true }
    ensures kept { (after_moves (initial_state (1 ∷ [])) (Append 1 7 ∷ second_is_ready)).log ≡ 7 ∷ [] }
{}

/// States that a floor from a node that is not ready itself could be too low: an entry would be
/// lost, and there would be two tails.
pub fn floors_come_from_ready_nodes()
    ensures committed { (led_by floor_of_unready (1 ∷ []) (Append 1 7 ∷ [])).log ≡ 7 ∷ [] }
    ensures lost { (led_by floor_of_unready (1 ∷ []) (Append 1 7 ∷ third_is_ready)).log ≡ [] }
    ensures first_tail { is_tail (led_by floor_of_unready (1 ∷ []) (Append 1 7 ∷ third_is_ready)) 1
        ≡ true }
    ensures second_tail { is_tail (led_by floor_of_unready (1 ∷ []) (Append 1 7 ∷ third_is_ready)) 3
        ≡ true }
    ensures kept { (after_moves (initial_state (1 ∷ [])) (Append 1 7 ∷ third_is_ready)).log ≡ 7 ∷ [] }
{}

/// States that a copy that replaced a ready node's history could hold less than the node had
/// committed: an entry would be lost.
pub fn ready_nodes_take_no_copy()
    ensures committed { (led_by copy_at_ready (1 ∷ 2 ∷ []) commits_at_two).log ≡ 7 ∷ [] }
    ensures lost { (led_by copy_at_ready (1 ∷ 2 ∷ []) (commits_at_two ++ second_goes_on)).log ≡ [] }
    ensures kept { (after_moves (initial_state (1 ∷ 2 ∷ [])) (commits_at_two ++ second_goes_on)).log
        ≡ 7 ∷ [] }
{}

/// States that an entry of another epoch may come from a head that replaced a member which the node
/// still knows. The node would hold, and commit, more than a member before it in the membership
/// that it knows.
pub fn entries_are_of_the_own_epoch()
    ensures membership { known_membership (led_by entry_of_any_epoch (1 ∷ 2 ∷ 3 ∷ []) third_lags) 3
        ≡ 1 ∷ 2 ∷ 3 ∷ [] }
    ensures more { (led_by entry_of_any_epoch (1 ∷ 2 ∷ 3 ∷ []) third_lags).history 3 ≡ 7 ∷ [] }
    ensures less { (led_by entry_of_any_epoch (1 ∷ 2 ∷ 3 ∷ []) third_lags).history 1 ≡ [] }
    ensures kept { (after_moves (initial_state (1 ∷ 2 ∷ 3 ∷ [])) third_lags).history 3 ≡ [] }
{}

/// States that a member that was removed while it runs would go on as a tail: there would be two,
/// and an entry would be lost.
pub fn running_members_are_not_removed()
    ensures committed { (led_by removes_running (1 ∷ 2 ∷ []) first_goes_alone).log ≡ 7 ∷ 8 ∷ [] }
    ensures first_tail { is_tail (led_by removes_running (1 ∷ 2 ∷ []) first_goes_alone) 1 ≡ true }
    ensures second_tail { is_tail (led_by removes_running (1 ∷ 2 ∷ []) first_goes_alone) 2 ≡ true }
    ensures lost { (led_by removes_running (1 ∷ 2 ∷ []) (first_goes_alone ++ second_commits)).log
        ≡ 7 ∷ [] }
    ensures kept { (after_moves (initial_state (1 ∷ 2 ∷ [])) (first_goes_alone ++ second_commits)).log
        ≡ 7 ∷ [] }
{}

/// States that an id that joined again could receive messages sent to it before: an entry would be
/// lost, and there would be two tails.
pub fn ids_join_once()
    ensures committed { (led_by joins_again (1 ∷ []) second_was_there).log ≡ 7 ∷ [] }
    ensures lost { (led_by joins_again (1 ∷ []) (second_was_there ++ second_comes_back)).log ≡ [] }
    ensures first_tail { is_tail (led_by joins_again (1 ∷ []) (second_was_there ++ second_comes_back)) 1
        ≡ true }
    ensures second_tail { is_tail (led_by joins_again (1 ∷ []) (second_was_there ++ second_comes_back)) 2
        ≡ true }
    ensures kept { (after_moves (initial_state (1 ∷ [])) (second_was_there ++ second_comes_back)).log
        ≡ 7 ∷ [] }
{}

/// States that a last member that is not ready holds less than what is committed: if it committed,
/// an entry would be lost.
pub fn tails_commit_once_ready()
    ensures committed { (led_by commits_unready (1 ∷ []) (Append 1 7 ∷ [])).log ≡ 7 ∷ [] }
    ensures lost { (led_by commits_unready (1 ∷ []) (Append 1 7 ∷ second_is_last)).log ≡ [] }
    ensures kept { (after_moves (initial_state (1 ∷ [])) (Append 1 7 ∷ second_is_last)).log ≡ 7 ∷ [] }
{}
