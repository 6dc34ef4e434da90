//! A connection over a stream: a client asks by `exchange`, and `serve` answers by a request handler
//! (`Door`).
//!
//! `serve` drives a codec of `craq_frames`, and waits for each reply. No store is known here. Code
//! that runs in the programs: the client `craq` uses `exchange`. Only tests use `serve`. The server's
//! connections are those of `craq_event_loop`.
#![tactic(auto)]

mod buffers;
mod door;
mod exchanging;
mod serving;
mod stream;

pub use door::Door;
pub use exchanging::exchange;
pub use serving::serve;
pub use stream::{Counted, Failed, Sink, Source, Stream};
