//! Commands, replies and their effects on objects; usable without the node (`craq_check` does).
//! Runs in the program; `specs/` defines the single copy.
#![tactic(auto)]

mod command;
mod entry;
mod evaluation;
mod objects;
mod read_mode;
mod reply;
mod state;
mod transaction;
mod window;

pub use command::{Command, Update};
pub use entry::{Entry, Write};
pub use evaluation::{Look, Writes, evaluate};
pub use read_mode::ReadMode;
pub use reply::Reply;
pub use state::State;
pub use transaction::Mini;
pub use window::{Kept, RequestStatus, WINDOW_LIMIT, Window, keep_in, look_in};
