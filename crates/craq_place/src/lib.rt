//! Reads a store's plan (chain configuration) from TOML: each object's chain, each chain's nodes.
//! Runs in the programs that open a store and in `craq_workers`.
#![tactic(auto)]

mod plan;
mod reading;

pub use craq_epochs::MOST_CHAINS;
pub use plan::Plan;
pub use reading::is_chain_name;
