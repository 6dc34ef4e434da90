//! `At`: a core in a store whose history has a name; the types of a running store name its core
//! alone.
ghost use Rattle.std.specs.Prelude.{◌≡◌};

use craq_epochs::Switch;
use craq_ghost_history::Named;
use craq_model::{Config, Event, Step};
use craq_names::{NodeName, Refusal};
use craq_node::Core;
use std::alloc::Global;
use std::marker::PhantomData;

/// A core in the store whose history has this name. It runs as the core does.
#[derive(Drop)]
pub struct At<C: Core, N: Named> {
    core: C,
    of: PhantomData<N>,
}

impl<C: Core, N: Named> At<C, N> {
    /// Lends the core. Never allocates.
    pub fn core(&self) -> &C
        ensures { result.now ≡ self.now.core }
    {
        &self.core
    }
}

impl<C: Core, N: Named> Named for At<C, N> {
    ghost history = { N.history };
}

impl<C: Core, N: Named> Core for At<C, N> {
    ghost represents = { λ a p. C.represents a.core p };

    fn open(alloc: Global, name: NodeName, config: Option<&Config>) -> Result<Self, Refusal> {
        match C::open(alloc, name, config) {
            Ok(core) => Ok(At {
                core,
                of: PhantomData,
            }),
            Err(refusal) => Err(refusal),
        }
    }

    fn step(&mut self, alloc: Global, event: Event) -> Result<Step, Refusal> {
        self.core.step(alloc, event)
    }

    fn switch(&self) -> &Switch {
        self.core.switch()
    }
}
