//! Options without a value, for `client` and `server`.
use clap::{Arg, ArgAction};
use std::alloc::Global;

/// Makes an option without a value.
pub(crate) fn flag_arg<'a>(alloc: Global, name: &'a str, help: &'a str) -> Arg<'a> {
    Arg::new(alloc, name)
        .long(name)
        .action(ArgAction::SetTrue)
        .help(help)
}
