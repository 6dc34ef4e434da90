//! Worlds of 1 to 64 chains that take moves; their contracts are the promise of the store.
//! Runs in the program: `craq_play` plays scripts on them.
#![tactic(auto)]

mod explaining;
mod laws;
mod world;

pub use explaining::explain_run;
pub use laws::runs_depend_on_their_own_moves_alone;
pub use world::{Report, World};
