//! States that the chains of a world are independent; no code calls these laws, they are stated for
//! readers.
ghost use Rattle.std.specs.Prelude.{◌≡◌, ℕ, List, Some, slice_get};
ghost use Rattle.craq_chain.specs.Chained.{Chained, opened_chain};
ghost use Rattle.craq_world.specs.Apart.{Execution, HadMemory, running_chain_after, chosen_in, given_to, taken_by};

/// States that a chain of a world is its opening members after its own moves: its run has exactly
/// the taken moves in order. So two worlds in which a chain has the same members and takes the same
/// moves have equal runs of it. Other chains and their moves make no difference. The body is empty:
/// the contract is the law.
pub fn runs_depend_on_their_own_moves_alone()
    ensures run { (e : Execution) (id : ℕ) (members : List ℕ)
        → slice_get e.lists id ≡ Some members
        → slice_get e.chains id ≡ Some (running_chain_after (opened_chain id members) (taken_by e id)) }
    ensures just { (e : Execution) (id : ℕ) (members : List ℕ) (w : Chained)
        → slice_get e.lists id ≡ Some members
        → slice_get e.chains id ≡ Some w
        → chosen_in w.run ≡ taken_by e id }

    // two worlds in which the chain takes the same moves, and two in which it is given the same and
    // memory never runs out
    ensures taken { (e f : Execution) (id : ℕ) (members : List ℕ)
        → slice_get e.lists id ≡ Some members
        → slice_get f.lists id ≡ Some members
        → taken_by e id ≡ taken_by f id
        → slice_get e.chains id ≡ slice_get f.chains id }
    ensures given { (e f : Execution) (id : ℕ) (members : List ℕ)
        → slice_get e.lists id ≡ Some members
        → slice_get f.lists id ≡ Some members
        → HadMemory e
        → HadMemory f
        → given_to e id ≡ given_to f id
        → slice_get e.chains id ≡ slice_get f.chains id }
{}
