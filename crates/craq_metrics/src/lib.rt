//! The pages that `craqd --metrics` serves, as pure functions: the figures of a server and of its
//! chains, their texts, and the requests for these. Code that runs in the programs.
#![tactic(auto)]

mod exposition;
mod figures;
mod health;
mod http;
mod metrics;
mod status;

pub use exposition::metrics_text;
pub use figures::{ChainFigures, NodeFigures, REFUSALS, ServerFigures};
pub use health::{first_unserved, health_text};
pub use http::{HttpRequest, HttpStatus, MOST_FIELDS, MediaType, Page, request_in, response};
pub use status::status_text;
