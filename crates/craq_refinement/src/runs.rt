//! States that a chain's runs are runs of the protocol; follows from the laws of `lines`, move
//! after move.

ghost use Rattle.std.specs.Prelude.{◌≡◌, ℕ, List, Ok};
ghost use Rattle.craq_commands.specs.declared.entry.Entry.{Entry};
ghost use Rattle.craq_protocol.specs.Machine.{MachineState, initial_state};
ghost use Rattle.craq_protocol.specs.Promises.{IsReached};
ghost use Rattle.craq_runs.specs.Chain.{Chain, Progress, chain_step, opening_chain};
ghost use Rattle.craq_runs.specs.Runs.{AreTaken, IsRunOf, after_moves};
ghost use Rattle.craq_runs.specs.declared.run.Move.{Move};
ghost use Rattle.craq_runs.specs.declared.run.Run.{Run};
ghost use Rattle.craq_runs.specs.declared.run.Taken.{Taken};
ghost use Rattle.craq_refinement.specs.Follows.{Follows};
ghost use Rattle.craq_refinement.specs.Lines.{CanFollow, IsFollowed};

/// States that the protocol's opening stands for a chain before any move.
pub fn opening_follows()
    ensures { (chain : ℕ) (members : List ℕ) → Follows (opening_chain chain members) (initial_state members) }
{}

/// States that for each move of a chain some moves of the protocol lead to a world that stands for
/// it again.
pub fn every_move_follows()
    ensures { (c : Chain) (w : MachineState Entry) (chosen : Move) (x : Progress) → Follows c w → IsReached w
        → chain_step c chosen ≡ Ok x → CanFollow w x.0 }
{}

/// States the same for a list of moves that a chain takes one after the other.
pub fn all_moves_follow()
    ensures { (moves : List Taken) (c : Chain) (w : MachineState Entry) → Follows c w → IsReached w
        → AreTaken c moves → CanFollow w (after_moves c moves) }
{}

/// States that each run of a chain leads to a chain for which some reached world of the protocol
/// stands. So each property that holds of the protocol at all times holds of the chain after each
/// run.
pub fn every_run_follows()
    ensures { (chain : ℕ) (run : Run) → IsRunOf chain run
        → IsFollowed (after_moves (opening_chain chain run.members) run.moves) }
{}
