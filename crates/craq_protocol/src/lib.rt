//! Chain replication with changing memberships, as a pure machine without commands or clients.
//! States laws for `craq_refinement`: functions without bodies, whose contracts are the theorems.
#![tactic(auto)]

pub mod growth;
pub mod runs;
pub mod safety;
pub mod wrong_machines;
