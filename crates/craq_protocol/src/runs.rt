//! States that the machine does move: runs that commit entries. A machine that never moves would be
//! safe too.

ghost use Rattle.std.specs.Prelude.{◌≡◌, ◌∷◌, ◌++◌, ℕ, List, Some, []};
ghost use Rattle.craq_protocol.specs.Machine.{MachineMove, after_moves, entry_at};
ghost use Rattle.craq_protocol.specs.Schedules.{
  commits_at_three,
  fourth_joins,
  from_three,
  head_fails,
  next_head_goes_on,
  second_fails,
};

/// States that three entries are committed, and that the head knows it, while a node joins and
/// another fails.
pub fn commits_through_a_join_and_a_failure()
    ensures first { (from_three commits_at_three).log ≡ 7 ∷ [] }
    ensures joined { (from_three (commits_at_three ++ fourth_joins)).log ≡ 7 ∷ 8 ∷ [] }
    ensures failed { (from_three (commits_at_three ++ fourth_joins ++ second_fails)).log ≡ 7 ∷ 8 ∷ 9 ∷ [] }
    ensures acknowledged { (from_three (commits_at_three ++ fourth_joins ++ second_fails)).acknowledged 1 ≡ 3 }
{}

/// States that entries which only a failed head held are not committed. The next head's log goes on
/// from the committed entries, and in each later world another entry is in their place.
pub fn entries_of_a_lost_head_are_not_committed()
    ensures held { (from_three (commits_at_three ++ head_fails)).history 1 ≡ 7 ∷ 8 ∷ 9 ∷ [] }
    ensures goes_on { (from_three (commits_at_three ++ head_fails ++ next_head_goes_on)).log ≡ 7 ∷ 10 ∷ [] }
    ensures replaced { (later : List (MachineMove ℕ)) →
        entry_at (after_moves (from_three (commits_at_three ++ head_fails ++ next_head_goes_on)) later).log 2 ≡ Some 10 }
{}
