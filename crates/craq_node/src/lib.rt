//! A node's whole step: the trait `Core`, and `NodeCore`, which implements it over any `History`.
//! Runs in the program: chains, seats and workers run nodes by it.
#![tactic(auto)]

mod admitting;
mod core_trait;
mod fitting;
mod heeding;
mod node_core;

pub use core_trait::Core;
pub use node_core::NodeCore;
