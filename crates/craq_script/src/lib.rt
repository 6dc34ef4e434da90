//! Parses the language of scripts, for `craq_play` and `craq_schedules`, and words of command
//! lines, for `craq_cli`. Turns the values of a script or a command line into requests, and prints
//! replies and refusals as text, for scripts and for `craq`. It depends on no node and no chain.
//! Runs in the programs.
#![tactic(auto)]

mod asking;
mod encoding;
mod line;
mod parse_error;
mod printing;
mod reading;
mod script;
mod text;
mod words;

pub use asking::{asked_update, read_of};
pub use encoding::{
    GREATEST_NODE, cut, item_of, mode_of, number_up_to, script_object, script_value,
};
pub use line::{MiniItem, ScriptCommand, ScriptLine, ScriptObject, UpdateLine};
pub use parse_error::ParseError;
pub use printing::{print_answer, print_refusal, print_reply};
pub use script::Script;
