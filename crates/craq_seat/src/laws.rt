//! States that stamps ascend in a journal; no code calls this law, it is stated for readers.
ghost use Rattle.std.specs.Prelude.{ℕ, List};
ghost use Rattle.craq_model.specs.declared.ask.Event.{Event};
ghost use Rattle.craq_seat.specs.declared.journal.BookEvent.{BookEvent};
ghost use Rattle.craq_seat.specs.declared.journal.Record.{Record};
ghost use Rattle.craq_seat.specs.Journal.{AreStamped, RisesTo};
ghost use Rattle.craq_seat.specs.Stamps.{book_stamp, event_stamp};

/// States that the stamps of a journal ascend: each is above the one before, and the first is above
/// that of the opening. Does nothing: the contract is the law.
pub fn stamps_rise()
    ensures nodes { (first last : ℕ) (rs : List (Record Event)) → AreStamped event_stamp first rs last → RisesTo first rs last }
    ensures masters { (first last : ℕ) (rs : List (Record BookEvent)) → AreStamped book_stamp first rs last → RisesTo first rs last }
{}
