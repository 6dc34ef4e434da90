//! A node's versions of objects: a list for each object, and a table of lists, for `craq_compact_state`.
//! Runs in the program.
#![tactic(auto)]

mod iterators;
mod kept;
mod list;
mod lists;
mod table;

pub use iterators::{Keys, Objects};
pub use list::VersionList;
pub use table::ObjectTable;
