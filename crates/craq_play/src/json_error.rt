//! Defines the errors of reading a linearization witness; returned by `reading`, and reported by
//! `craq_lab`.
ghost use Rattle.std.specs.Prelude.{◌≡◌};
ghost use Rattle.craq_play.specs.declared.json_error.JsonError.TheVariants.{Memory};

use std::alloc::AllocError;
use std::fmt;

/// A member of the JSON object.
#[derive(Clone, Copy, Debug, PartialEq, Eq)]
pub enum Member {
    Asks,
    Lens,
    Places,
}

impl fmt::Display for Member {
    fn fmt<W: fmt::Write>(&self, f: &mut fmt::Formatter<W>) -> fmt::Result {
        f.write_str(match self {
            Member::Asks => "asks",
            Member::Lens => "lens",
            Member::Places => "places",
        })
    }
}

/// The reason that bytes were not read as a linearization witness.
#[derive(Clone, Copy, Debug, PartialEq, Eq)]
pub enum JsonError {
    /// Out of memory.
    Memory,
    /// The bytes from this index on, counted from 0, are not UTF-8.
    NotText(usize),
    /// The text is not JSON at this line and column, each counted from 1.
    NotJson { line: usize, column: usize },
    /// The member is missing or is not an array.
    NoArray(Member),
    /// The item at this index of the member, counted from 0, is not of the form that the member
    /// needs.
    BadItem(Member, usize),
}

impl From<AllocError> for JsonError {
    ghost from_gives = { λ _ e. e ≡ Memory };

    fn from(_e: AllocError) -> JsonError {
        JsonError::Memory
    }
}

impl fmt::Display for JsonError {
    fn fmt<W: fmt::Write>(&self, f: &mut fmt::Formatter<W>) -> fmt::Result {
        match self {
            JsonError::Memory => f.write_str("no memory"),
            JsonError::NotText(place) => {
                let place = *place;
                write!(f, "not UTF-8 at byte {place}")
            }
            JsonError::NotJson { line, column } => {
                let line = *line;
                let column = *column;
                write!(f, "not JSON at line {line} column {column}")
            }
            JsonError::NoArray(member) => {
                let member = *member;
                write!(f, "no array: {member}")
            }
            JsonError::BadItem(member, place) => {
                let member = *member;
                let place = *place;
                write!(f, "bad item: {member}[{place}]")
            }
        }
    }
}
