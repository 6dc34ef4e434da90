//! The trait `Core`: a node as code, whatever its representation. Higher crates are generic in it.
ghost use Rattle.std.specs.Prelude.{◌≡◌, IfOk, IfErr, IsOk};
ghost use Rattle.std.specs.Option.{option_copied};
ghost use Rattle.craq_model.specs.Plain.{Plain};
ghost use Rattle.craq_node_invariant.specs.Sound.{AreEncodable};
ghost use Rattle.craq_node.specs.Represented.{StepAnswers, CanArrive, CanOpen, IsFree, opening_of};

use craq_epochs::{Config, Switch};
use craq_model::{Event, Step};
use craq_names::{NodeName, Refusal};
use std::alloc::Global;

/// A node of a chain, whatever its representation.
pub trait Core: Drop {
    /// The plain nodes (`Plain`) that the core represents.
    ghost represents: { Self → Plain → Type 0 };

    /// Makes a node before its first step. With a membership, which has epoch 1 and contains the
    /// node: a ready member with an empty history. Without one: a node that joins later, of epoch 0
    /// and not ready. Fails only when out of memory (`Memory`).
    fn open(alloc: Global, name: NodeName, config: Option<&Config>) -> Result<Self, Refusal>
        requires { CanOpen name (option_copied config) }
        ensures ok { IfOk result (λ c. represents c (opening_of name (option_copied config.entry))) }
        ensures err { IfErr result (λ e. e ≡ Refusal.Memory) };

    /// Takes one step: for each plain node that the core represents, exactly that node's step or
    /// refusal. The represented nodes are unchanged on error. A delivered message must have an
    /// encoding; each out of the step has one. Stopping a running node and ignoring a message
    /// allocate nothing.
    ///
    /// The errors: `Stopped` at a stopped node; `WrongNode` for a message to another node or chain;
    /// for a request, in this order, `NotReady`, `TwoChains`, `NotHead`, `Exhausted`,
    /// `PendingFull`. `Memory` comes only if none of these applies. After it comes only `Exhausted`
    /// for a step with more sends, or a message with more items, than 32 bits count, which no
    /// memory holds.
    fn step(&mut self, alloc: Global, event: Event) -> Result<Step, Refusal>
        requires { CanArrive event }
        ensures step { (p : Plain) → represents self.old p → StepAnswers (represents self.new) p event result }
        ensures spelled { IfOk result (λ step. AreEncodable step.outs) }
        ensures free { (p : Plain) → represents self.old p → IsFree p event → IsOk result };

    /// Returns the node's switch. It is stopped exactly if the node does not run. Allocates
    /// nothing.
    fn switch(&self) -> &Switch
        ensures { (p : Plain) → represents self.now p → result.now ≡ record { name = p.name; running = p.running } };
}
