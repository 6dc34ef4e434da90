//! Makers of steps. The rules of `craq_read` and `craq_write`, and `craq_node`, call them.
ghost use Rattle.std.specs.Prelude.{◌≡◌, [], Some, None};

use craq_model::{Out, Step, Why};
use craq_names::{Items, Ticket};
use std::alloc::Global;

/// Returns the step of an accepted request.
pub fn accepted(ticket: Ticket, outs: Vec<Out>) -> Step
    ensures { result ≡ record { ticket = Some ticket; outs = outs.items; ignored = None } }
{
    Step {
        ticket: Some(ticket),
        outs: Items::of(outs),
        ignored: None,
    }
}

/// Returns a step without a request.
pub fn done(outs: Vec<Out>) -> Step
    ensures { result ≡ record { ticket = None; outs = outs.items; ignored = None } }
{
    Step {
        ticket: None,
        outs: Items::of(outs),
        ignored: None,
    }
}

/// Returns the step that ignores a message. Allocates nothing.
pub fn ignoring(alloc: Global, why: Why) -> Step
    ensures { result ≡ record { ticket = None; outs = []; ignored = Some why } }
{
    Step {
        ticket: None,
        outs: Items::new(alloc),
        ignored: Some(why),
    }
}
