//! Audits a chain: merges its cells' journals into one run; tests each message and each call.
//! Runs in the program, on cells that `craq_locked_chain` lends, without locks; states two laws.
#![tactic(auto)]

mod auditing;
mod belonging;
mod copies;
mod finding;
mod journals;
mod laws;
mod lines;
mod merging;
mod numbers;
mod receipts;
mod senders;

pub use auditing::audit;
pub use finding::Audit;
pub use laws::{answers_have_places, later_answers_stand_no_lower};
