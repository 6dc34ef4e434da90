//! A store's server: the connections of a listener, the store as they call it, and the text of a
//! store's status. Code that runs in the programs.
#![tactic(auto)]

mod accepting;
mod bulk_limit;
mod connection_slots;
mod connections;
mod counters;
mod incoming;
mod io_threads;
mod laws;
mod listening;
mod logging;
mod passes;
mod runtime;
mod served_store;
mod socket_options;
mod status;
mod store_session;

pub use accepting::{ServeReport, Serving, accept, accept_with};
pub use connections::Connections;
pub use counters::{Counts, REFUSALS};
pub use craq_event_loop::ReceiptPolicy;
pub use io_threads::EventLoops;
pub use listening::{Attempt, try_accept, wait_for_connection};
pub use logging::Log;
pub use runtime::ServerRuntime;
pub use status::status_text;
