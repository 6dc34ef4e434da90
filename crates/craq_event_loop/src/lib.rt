//! The state of a connection, and the loops that serve connections.
//!
//! `ConnectionState` drives a codec of `craq_frames`: it makes a call of each request, and a reply
//! of the call's outcome, which may come later. An event loop (`EventLoop`) serves many connections
//! by readiness and takes the steps of those whose bytes came. A thread of its own serves one
//! (`serve_one`).
//!
//! The store is behind the traits `Backend`, `AsyncBackend`, `LoopBackend` and `BlockingBackend`.
//! Code that runs in the programs.
#![tactic(auto)]

mod backend;
mod connection;
mod connection_state;
mod door_calls;
mod event_loop;
mod laws;
mod own_thread;
mod socket;
mod traffic;

pub use backend::{AsyncBackend, Backend, BlockingBackend, LoopBackend, NewConnection};
pub use connection_state::{CallRequest, ConnectionState, Stepped, SubmitToken, UnsentCall};
pub use door_calls::ReceiptPolicy;
pub use event_loop::{EventLoop, LoopSettings};
pub use laws::each_call_has_its_number;
pub use own_thread::serve_one;
pub use traffic::{ClientStream, Traffic};
