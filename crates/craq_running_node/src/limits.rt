//! The limits that the type of a transaction keeps, stated of events; for `recorded_desk`.
ghost use Rattle.craq_causality.specs.Causal.{IsOfType};
ghost use Rattle.craq_seat.specs.Merge.{AtNode};

use craq_chain::keep_ask_limits;
use craq_model::Event;

/// States that the transaction of an event's request is within the limits that its type keeps. Does
/// nothing.
pub(crate) fn keep_event_limits(event: &Event)
    ensures { IsOfType (AtNode event.now) }
{
    if let Event::Ask(ask) = event {
        keep_ask_limits(ask);
    }
}
