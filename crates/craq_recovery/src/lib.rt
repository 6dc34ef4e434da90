//! Recovery: rounds of ticks and deliveries, and their effect on a chain after any losses.
//! States laws, on which no crate builds: functions without bodies, whose contracts are theorems.
#![tactic(auto)]

ghost use Rattle.std.specs.Prelude.{◌≡◌, ◌≢◌, ℕ, length, suc, true};
ghost use Rattle.std.specs.List.{AllByRecursion};
ghost use Rattle.craq_model.specs.Members.{first_of, is_member, last_of};
ghost use Rattle.craq_model.specs.Plain.{Plain, id_of, length_of};
ghost use Rattle.craq_runs.specs.Chain.{Chain};
ghost use Rattle.craq_runs.specs.Runs.{IsRunOf, after_move};
ghost use Rattle.craq_runs.specs.Typed.{IsTypedRunOf};
ghost use Rattle.craq_runs.specs.declared.run.Run.{Run};
ghost use Rattle.craq_recovery.specs.Answers.{AnsweredInRounds, AskWaits};
ghost use Rattle.craq_recovery.specs.Recovered.{AllReady, AllRun, AllRunReady, AreNeighbours, HasRecovered, HaveHeard, HaveNumbersForAll, HaveNumbersForAsMany, HoldsEntries, IsReadyAt, KnowsCommitted, NoReadWaits, NoUpdateWaits, SomeReady, after_all_rounds, after_as_many, after_round, chain_after_moves, has_recovered, rounds_to_recover};
ghost use Rattle.craq_recovery.specs.Room.{HasRoom};
ghost use Rattle.craq_recovery.specs.Rounds.{after_rounds, round};
ghost use Rattle.craq_recovery.specs.Taken.{AreTakenInOrder, HaveNumbers, HaveNumbersFor};

/// States that each move of a round is taken, or refused only because counters are exhausted.
/// Whatever happened in the run before, all running members can tick, and each message can arrive
/// at its receiver if that runs.
pub fn rounds_are_taken()
    ensures { (chain : ℕ) (run : Run) (count : ℕ) → IsRunOf chain run
        → AreTakenInOrder (chain_after_moves chain run) (round after_move count (chain_after_moves chain run)) }
{}

/// States that after a round of at least one hop each member knows the master's membership, if all
/// members run.
pub fn membership_reaches_everybody()
    ensures { (chain : ℕ) (run : Run) (count : ℕ) → IsRunOf chain run → AllRun (chain_after_moves chain run)
        → HaveNumbers (chain_after_moves chain run) (round after_move (suc count) (chain_after_moves chain run))
        → HaveHeard (after_round (suc count) (chain_after_moves chain run)) }
{}

/// States that an acknowledgement advances by at least one member in a round of at least one hop: a
/// ready member then knows as many entries to be committed as its ready successor did before.
pub fn acknowledgements_flow()
    ensures { (chain : ℕ) (run : Run) (count : ℕ) (p q : Plain) → IsRunOf chain run
        → AreNeighbours (chain_after_moves chain run) p q → p.ready ≡ true → q.ready ≡ true
        → HaveNumbers (chain_after_moves chain run) (round after_move (suc count) (chain_after_moves chain run))
        → KnowsCommitted (after_round (suc count) (chain_after_moves chain run)) (id_of p) q.past.acknowledged }
{}

/// States that entries advance by at least one member in a round of at least one hop: a ready
/// successor then holds as many entries as its ready predecessor did before.
pub fn entries_flow()
    ensures { (chain : ℕ) (run : Run) (count : ℕ) (p q : Plain) → IsTypedRunOf chain run
        → AreNeighbours (chain_after_moves chain run) p q → p.ready ≡ true → q.ready ≡ true
        → HaveNumbers (chain_after_moves chain run) (round after_move (suc count) (chain_after_moves chain run))
        → HoldsEntries (after_round (suc count) (chain_after_moves chain run)) (id_of q) (length_of p) }
{}

/// States that the last member's committed length reaches each member within as many rounds as
/// there are members, if each member is ready and knows the membership.
pub fn acknowledgements_reach_the_head()
    ensures { (chain : ℕ) (run : Run) (count least : ℕ) → IsRunOf chain run → AllReady (chain_after_moves chain run)
        → KnowsCommitted (chain_after_moves chain run) (last_of (chain_after_moves chain run).members) least
        → HaveNumbersFor (suc count) (length (chain_after_moves chain run).members) (chain_after_moves chain run)
        → AllByRecursion (λ id. KnowsCommitted (after_rounds after_move (suc count) (length (chain_after_moves chain run).members) (chain_after_moves chain run)) id least) (chain_after_moves chain run).members }
{}

/// States that if each member is ready and knows the membership, the entries of the first member
/// reach each member in as many rounds as there are members.
pub fn entries_reach_the_tail()
    ensures { (chain : ℕ) (run : Run) (count least : ℕ) → IsTypedRunOf chain run → AllReady (chain_after_moves chain run)
        → HoldsEntries (chain_after_moves chain run) (first_of (chain_after_moves chain run).members) least
        → HaveNumbersFor (suc count) (length (chain_after_moves chain run).members) (chain_after_moves chain run)
        → AllByRecursion (λ id. HoldsEntries (after_rounds after_move (suc count) (length (chain_after_moves chain run).members) (chain_after_moves chain run)) id least) (chain_after_moves chain run).members }
{}

/// States that if each member is ready and knows the membership, no update waits any more after
/// twice as many rounds as there are members: in the first half the entries reach the last member,
/// and in the second all learn that they are committed.
pub fn updates_wait_no_longer()
    ensures { (chain : ℕ) (run : Run) (count : ℕ) → IsTypedRunOf chain run → AllReady (chain_after_moves chain run)
        → HaveNumbersForAsMany (suc count) (chain_after_moves chain run)
        → HaveNumbersForAsMany (suc count) (after_as_many (suc count) (chain_after_moves chain run))
        → AllByRecursion (NoUpdateWaits (after_as_many (suc count) (after_as_many (suc count) (chain_after_moves chain run)))) (chain_after_moves chain run).members }
{}

/// States that in a round of at least two hops each read that waits at a ready member is answered:
/// no read waits there then. The last member must be ready too, and both must know the membership.
/// Says nothing of reads at the last member itself.
pub fn reads_wait_no_longer()
    ensures { (chain : ℕ) (run : Run) (count id : ℕ) → IsTypedRunOf chain run → IsReadyAt (chain_after_moves chain run) id
        → IsReadyAt (chain_after_moves chain run) (last_of (chain_after_moves chain run).members) → id ≢ last_of (chain_after_moves chain run).members
        → HaveNumbers (chain_after_moves chain run) (round after_move (suc (suc count)) (chain_after_moves chain run))
        → NoReadWaits (after_round (suc (suc count)) (chain_after_moves chain run)) id }
{}

/// States that a chain of n members that are all ready and know the membership recovers within 2n +
/// 1 rounds of at least two hops. It does not matter what waited at its nodes and what was lost
/// before.
pub fn ready_chains_recover()
    ensures { (chain : ℕ) (run : Run) (count : ℕ) → IsTypedRunOf chain run → AllReady (chain_after_moves chain run)
        → HaveNumbersForAll (suc (suc count)) (chain_after_moves chain run)
        → HasRecovered (after_all_rounds (suc (suc count)) (chain_after_moves chain run)) }
{}

/// States that a chain whose members all run and are ready recovers in one more round, whatever
/// memberships they know: after the first round each knows the master's.
pub fn running_ready_chains_recover()
    ensures { (chain : ℕ) (run : Run) (count : ℕ) → IsTypedRunOf chain run → AllRunReady (chain_after_moves chain run)
        → HaveNumbers (chain_after_moves chain run) (round after_move (suc (suc count)) (chain_after_moves chain run))
        → HaveNumbersForAll (suc (suc count)) (after_round (suc (suc count)) (chain_after_moves chain run))
        → HasRecovered (after_all_rounds (suc (suc count)) (after_round (suc (suc count)) (chain_after_moves chain run))) }
{}

/// States that in a round of at least two hops a ready member's successor becomes ready, if it is
/// not yet. It then holds at least as many entries as that member did before. An unready successor
/// asks and is sent the committed state, whole or in parts, and the entries after it.
pub fn joined_members_become_ready()
    ensures { (chain : ℕ) (run : Run) (count : ℕ) (p q : Plain) → IsTypedRunOf chain run
        → AreNeighbours (chain_after_moves chain run) p q → p.ready ≡ true
        → HaveNumbers (chain_after_moves chain run) (round after_move (suc (suc count)) (chain_after_moves chain run))
        → IsReadyAt (after_round (suc (suc count)) (chain_after_moves chain run)) (id_of q)
        × HoldsEntries (after_round (suc (suc count)) (chain_after_moves chain run)) (id_of q) (length_of p) }
{}

/// States that if each member knows the membership and the first one is ready, each is ready after
/// as many rounds of at least two hops as there are members.
pub fn all_members_become_ready()
    ensures { (chain : ℕ) (run : Run) (count : ℕ) → IsTypedRunOf chain run → HaveHeard (chain_after_moves chain run)
        → IsReadyAt (chain_after_moves chain run) (first_of (chain_after_moves chain run).members)
        → HaveNumbersForAsMany (suc (suc count)) (chain_after_moves chain run)
        → AllReady (after_as_many (suc (suc count)) (chain_after_moves chain run)) }
{}

/// States that a chain with room for `rounds` rounds of `count` hops has numbers for them: no move
/// of theirs is refused.
pub fn rounds_have_numbers()
    ensures { (chain : ℕ) (run : Run) (count rounds : ℕ) → IsRunOf chain run → HasRoom count rounds (chain_after_moves chain run)
        → HaveNumbersFor count rounds (chain_after_moves chain run) }
{}

/// States recovery: after every run, a chain of n members recovers within 2n + 2 rounds of at least
/// two hops. No member may have stopped, at least one must be ready, and the chain's counters must
/// have room for these rounds. It does not matter what was lost, stopped, removed or joined before.
pub fn chains_recover()
    ensures { (chain : ℕ) (run : Run) (count : ℕ) → IsTypedRunOf chain run → AllRun (chain_after_moves chain run) → SomeReady (chain_after_moves chain run)
        → HasRoom (suc (suc count)) (rounds_to_recover (chain_after_moves chain run)) (chain_after_moves chain run)
        → HasRecovered (after_rounds after_move (suc (suc count)) (rounds_to_recover (chain_after_moves chain run)) (chain_after_moves chain run)) }
{}

/// States that it also recovers with less room, unless a move of the rounds is refused because
/// counters are exhausted.
pub fn chains_recover_while_numbers_last()
    ensures { (chain : ℕ) (run : Run) (count : ℕ) → IsTypedRunOf chain run → AllRun (chain_after_moves chain run) → SomeReady (chain_after_moves chain run)
        → HaveNumbersFor (suc (suc count)) (rounds_to_recover (chain_after_moves chain run)) (chain_after_moves chain run)
        → HasRecovered (after_rounds after_move (suc (suc count)) (rounds_to_recover (chain_after_moves chain run)) (chain_after_moves chain run)) }
{}

/// States that during these rounds each request that waited at a member is answered there: a move
/// at this member answers the request's ticket. The content of the reply is as the promise says,
/// like that of every reply.
pub fn waiting_asks_are_answered()
    ensures { (chain : ℕ) (run : Run) (count id ticket : ℕ) → IsTypedRunOf chain run → AllRun (chain_after_moves chain run) → SomeReady (chain_after_moves chain run)
        → HasRoom (suc (suc count)) (rounds_to_recover (chain_after_moves chain run)) (chain_after_moves chain run)
        → is_member (chain_after_moves chain run).members id ≡ true → AskWaits (chain_after_moves chain run) id ticket
        → AnsweredInRounds (suc (suc count)) (rounds_to_recover (chain_after_moves chain run)) (chain_after_moves chain run) id ticket }
{}

/// States that they are also answered with less room, unless a move of the rounds is refused
/// because counters are exhausted.
pub fn waiting_asks_are_answered_while_numbers_last()
    ensures { (chain : ℕ) (run : Run) (count id ticket : ℕ) → IsTypedRunOf chain run → AllRun (chain_after_moves chain run) → SomeReady (chain_after_moves chain run)
        → HaveNumbersFor (suc (suc count)) (rounds_to_recover (chain_after_moves chain run)) (chain_after_moves chain run)
        → is_member (chain_after_moves chain run).members id ≡ true → AskWaits (chain_after_moves chain run) id ticket
        → AnsweredInRounds (suc (suc count)) (rounds_to_recover (chain_after_moves chain run)) (chain_after_moves chain run) id ticket }
{}

/// States that a recovered chain stays recovered by rounds of any number of hops.
pub fn recovered_chains_stay()
    ensures { (chain : ℕ) (run : Run) (count : ℕ) → IsRunOf chain run → HasRecovered (chain_after_moves chain run)
        → HasRecovered (after_round count (chain_after_moves chain run)) }
{}

/// States that a chain that passes the test has recovered.
pub fn recovery_is_tested()
    ensures { (c : Chain) → has_recovered c ≡ true → HasRecovered c }
{}
