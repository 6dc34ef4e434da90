//! The cells of a chain whose locks are held, and their audit; and a master's cell for a lock.
//! Runs in the program, in `craq_workers`; the audit itself, in `craq_audit`, knows no locks.
#![tactic(auto)]

mod chain_book;
mod locked_chain;

pub use chain_book::ChainBook;
pub use locked_chain::LockedChain;
