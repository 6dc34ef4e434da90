//! The storage of a compacting past: a state in maps, the entries after it, an index of writes.
//! Runs in the program; `craq_compact_history` calls it.
#![tactic(auto)]

mod applying;
mod counted;
mod held;
mod indexing;
mod lookups;
mod objects;
mod value_locations;

pub use held::HeldPast;
pub use lookups::Lookup;
pub use value_locations::{ValueLocation, WriteRef};
