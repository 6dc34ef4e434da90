//! The master, which alone makes a chain's memberships, and the switch that stops a node.
//! Runs in the program; usable without the node, as `craq_place` and `craq_wire` use it.
#![tactic(auto)]

mod master;
mod membership;
mod switch;

pub use craq_model::Config;
pub use master::Master;
pub use membership::{MEMBER_LIMIT, MOST_CHAINS, all_but, is_among, is_membership};
pub use switch::{StopReceipt, Switch};
