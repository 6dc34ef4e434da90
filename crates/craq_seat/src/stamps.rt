//! The stamp of the next step; used by `cell` and `book`.
ghost use Rattle.std.specs.Prelude.{◌≡◌};
ghost use Rattle.craq_seat.specs.Stamps.{book_stamp, event_stamp, next_stamp};

use crate::BookEvent;
use craq_model::Event;
use craq_names::{Pass, Refusal, Stamp};

/// Returns the stamp of an event: a message's own, else 0.
pub(crate) fn event_stamp(event: &Event) -> Stamp
    ensures { result ≡ event_stamp event.now }
{
    match event {
        Event::Ask(_) => Stamp::new(0),
        Event::Deliver(message) => message.stamp,
        Event::Tick => Stamp::new(0),
        Event::Stop => Stamp::new(0),
    }
}

/// Returns the stamp of an event of a master: for a removal that of the stop, else 0.
pub(crate) fn book_stamp(event: &BookEvent) -> Stamp
    ensures { result ≡ book_stamp event.now }
{
    match event {
        BookEvent::Join(_) => Stamp::new(0),
        BookEvent::Remove { stop, .. } => stop.stamp,
        BookEvent::Tick => Stamp::new(0),
    }
}

/// Returns the stamp of a cell's next step: 1 above the largest of the cell's own, the pass and the
/// event's (this project's profile). `Exhausted` exactly if that largest is 2^64 - 1.
#[tactic(auto, unfolding(crate::specs::Stamps::next_stamp))]
pub(crate) fn next_stamp(own: Stamp, pass: Pass, borne: Stamp) -> Result<Stamp, Refusal>
    ensures { result ≡ next_stamp own pass borne }
{
    let largest = Pass::of(own).join(pass).join(Pass::of(borne)).stamp().get();
    if largest == u64::MAX {
        return Err(Refusal::Exhausted);
    }
    Ok(Stamp::new(largest + 1))
}
