//! The command lines of the programs `craqd` and `craq`, the words of a command, and what each
//! program does around its work. For these two and `craq_lab`; a crate apart, since programs cannot
//! share modules. Code that runs in the programs.
#![tactic(auto)]

mod address;
mod client;
mod commands;
mod control;
mod expected;
mod flags;
mod numbers;
mod options;
mod program;
mod raw;
mod server;
mod streams;
mod task;
mod verb_items;
mod verb_options;
mod verbs;
mod words;

pub use address::{ADDRESS_FORM, is_address};
pub use client::{CallLine, CommandFault};
pub use commands::request_of;
pub use control::{ControlLine, control_line};
pub use expected::{BadWord, Expected, UsageError};
pub use program::{
    BAD_INPUT, CANNOT_PRINT, NO_MEMORY, report_failure, report_memory, report_no_text,
    report_words, words_of,
};
pub use raw::{has_raw_bytes, raw_bytes, raw_words_of};
pub use server::Line;
pub use streams::{Placeholders, open_placeholders};
pub use task::{BenchLoad, Request, Task, ValueForm, Verb, VerbContext, VerbLine, VerbOptions};
pub use verbs::{is_verb, verb_of};

/// The version that `--version` prints behind the name of each program.
pub const VERSION: &str = "0.1.0";
