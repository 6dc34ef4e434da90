//! The command line of `craqd`: its options and its help; called by the main of `craqd`.
ghost use Rattle.std.specs.Prelude.{IfOk};
ghost use Rattle.craq_cli.specs.Lines.{IsServable};

use crate::VERSION;
use crate::flags::flag_arg;
use crate::options::{NumberOption, Unfit, numbers_of};
use clap::error::ErrorKind;
use clap::{Arg, ArgAction, ArgMatches, Command, Error};
use std::alloc::{AllocError, Global};

/// The command line of `craqd`, read.
#[derive(Clone, Copy, Debug)]
pub struct Line<'a> {
    /// The plan file.
    pub plan: &'a str,
    /// The address to listen on: a host and a port.
    pub address: &'a str,
    /// The number of connections after which the server ends; 0 for no end.
    pub connections: u32,
    /// The number of threads that serve all connections, at most 64; 0 for a thread for each
    /// connection.
    pub threads: u32,
    /// The most connections at once; 0 for as many as descriptors allow.
    pub most: u32,
    /// The seconds without a byte after which a connection ends; 0 for never.
    pub idle: u32,
    /// The most that a pass may lie above the largest pass that was returned; 0 for no such bound.
    pub most_leap: u32,
    /// True where the server ends once its standard input ends, as it does where that has control
    /// lines.
    pub until_input_ends: bool,
    /// True where the lines of standard input stop, remove and join nodes.
    pub control: bool,
    /// True where journals are kept, and audited if the server ends in order.
    pub journal: bool,
    /// True where connections and refusals are logged on standard error.
    pub log: bool,
    /// The address at which metrics are served: a host and a port; `None` where they are not.
    pub metrics: Option<&'a str>,
}

const ABOUT: &str = "Runs a replicated object store, and serves it to clients over TCP";

const LONG_ABOUT: &str = "Runs a replicated object store, and serves it to clients over TCP.

Objects lie on chains of nodes. An update enters at the first node of its chain, and is
answered once the last one has it; every node answers reads. All nodes run in this process,
in threads, and everything is kept in memory: it is gone when the server ends.";

const JOURNAL: &str =
    "Keep a journal of each node, and audit them once the server ends in order (--connections, --until-input-ends)";

const LOG: &str = "Print connections and refusals on standard error";

const UNTIL_INPUT_ENDS: &str = "End in order once standard input ends";

const CONTROL: &str =
    "Take lines of standard input that stop, remove and join nodes; implies --until-input-ends";

const METRICS: &str =
    "Serve /metrics for Prometheus, /healthz and /status.json over HTTP at ADDRESS, as 127.0.0.1:7001";

const HELP: &str = "PLAN is a TOML file that names each chain and its nodes, the head first:

  [[chain]]
  name = \"a\"
  nodes = [1, 2, 3]

Once clients can connect, `listening PORT` is printed. With --journal the server prints in
the end, for each chain, what its audit found:

  audit merged R          one run of the chain, with all R calls that were answered
  audit nosender N I      step I (from 0) of node N took a message that no node sent
  audit noreceipt I       call I (from 0) is in no journal

With --control the server takes lines of standard input, answers each on standard error, and
ends in order once they end:

  stop CHAIN/NODE         stop a node forever; refused for the last ready member of its chain,
                          unless --force stands behind it
  remove CHAIN/NODE       remove a stopped node from its chain
  join CHAIN/NODE         let a new node join its chain, behind the last one
  status                  each chain with its epoch, and its members, the head first
  help                    these lines
CHAIN is the name of a chain or its index, from 0. A node that joins has a number that its
chain never had.

Status: 0 once the server has ended in order; 1 with `cannot print` where the output takes no
text; 2 with `cannot read PLAN`, `plan refused`, or after a bad command line; 3 with `no
memory`; 4 with `cannot listen`; 5 with `audit refused N`.

Example:
  craqd plan.toml 127.0.0.1:7000
  craqd --journal --connections 3 plan.toml 127.0.0.1:0";

/// Makes an option with a number, 0 by default.
fn number_arg<'a>(alloc: Global, option: NumberOption) -> Arg<'a> {
    Arg::new(alloc, option.name())
        .long(option.name())
        .value_name(option.value_name())
        .action(ArgAction::Set)
        .default_value("0")
        .help(option.help())
}

/// Makes an argument that must be given.
fn needed_arg<'a>(alloc: Global, name: &'a str, help: &'a str) -> Arg<'a> {
    Arg::new(alloc, name).required(true).help(help)
}

/// Makes the command with its texts and no argument.
fn named_command<'a>(alloc: Global) -> Command<'a> {
    Command::new(alloc, "craqd")
        .about(ABOUT)
        .version(VERSION)
        .long_about(LONG_ABOUT)
        .after_help(HELP)
}

/// Adds `[--journal] [--connections N] [--until-input-ends] [--control]`: how long the server runs,
/// and what it keeps. Fails only when out of memory.
fn command_with_ends<'a>(alloc: Global) -> Result<Command<'a>, AllocError> {
    let journal = flag_arg(alloc, "journal", JOURNAL);
    let command = named_command(alloc).arg(journal)?;
    let command = command.arg(number_arg(alloc, NumberOption::Connections))?;
    let command = command.arg(flag_arg(alloc, "until-input-ends", UNTIL_INPUT_ENDS))?;
    command.arg(flag_arg(alloc, "control", CONTROL))
}

/// Adds `[--threads N] [--most N] [--idle SECONDS]`: how connections are served. Fails only when
/// out of memory.
fn command_with_options<'a>(alloc: Global) -> Result<Command<'a>, AllocError> {
    let command = command_with_ends(alloc)?;
    let command = command.arg(number_arg(alloc, NumberOption::Threads))?;
    let command = command.arg(number_arg(alloc, NumberOption::Most))?;
    command.arg(number_arg(alloc, NumberOption::Idle))
}

/// Makes an option with a text.
fn text_arg<'a>(alloc: Global, name: &'a str, value: &'a str, help: &'a str) -> Arg<'a> {
    Arg::new(alloc, name)
        .long(name)
        .value_name(value)
        .action(ArgAction::Set)
        .help(help)
}

/// Adds `[--most-leap N] [--log] [--metrics ADDRESS]`. Fails only when out of memory.
fn command_with_log<'a>(alloc: Global) -> Result<Command<'a>, AllocError> {
    let command = command_with_options(alloc)?;
    let command = command.arg(number_arg(alloc, NumberOption::MostLeap))?;
    let command = command.arg(flag_arg(alloc, "log", LOG))?;
    command.arg(text_arg(alloc, "metrics", "ADDRESS", METRICS))
}

/// Makes the command `craqd [OPTION ..] PLAN ADDRESS`. Fails only when out of memory.
fn whole_command<'a>(alloc: Global) -> Result<Command<'a>, AllocError> {
    let command = command_with_log(alloc)?;
    let command = command.arg(needed_arg(alloc, "PLAN", "The plan file"))?;
    command.arg(needed_arg(
        alloc,
        "ADDRESS",
        "Where to listen, as 127.0.0.1:7000; port 0 takes any that is free",
    ))
}

/// Returns the text about an option without a number.
const fn reported(unfit: Unfit) -> &'static str {
    match unfit {
        Unfit::Memory => "no memory",
        Unfit::Option(option) => option.reported(),
    }
}

/// Returns the command line that was matched, or the text about what is wrong with it.
fn line_of<'a>(matches: &ArgMatches<'a>) -> Result<Line<'a>, &'static str>
    ensures { IfOk result IsServable }
{
    let (Some(plan), Some(address)) = (matches.get_str("PLAN"), matches.get_str("ADDRESS")) else {
        return Err("PLAN and ADDRESS are needed");
    };
    let numbers = match numbers_of(matches) {
        Ok(numbers) => numbers,
        Err(unfit) => return Err(reported(unfit)),
    };
    let control = matches.get_flag("control");
    Ok(Line {
        plan,
        address,
        connections: numbers.connections,
        threads: numbers.threads,
        most: numbers.most,
        idle: numbers.idle,
        most_leap: numbers.most_leap,
        until_input_ends: control || matches.get_flag("until-input-ends"),
        control,
        journal: matches.get_flag("journal"),
        log: matches.get_flag("log"),
        metrics: matches.get_str("metrics"),
    })
}

/// Returns the command line that these words are, or clap's error about them.
fn matched<'a>(command: &mut Command<'a>, words: &'a [&'a str]) -> Result<Line<'a>, Error>
    ensures { IfOk result IsServable }
{
    let matches = command.try_get_matches_from_mut(words)?;
    let found = line_of(&matches);
    drop(matches);
    match found {
        Ok(line) => Ok(line),
        Err(reported) => Err(command.error(ErrorKind::ValueValidation, reported)?),
    }
}

impl<'a> Line<'a> {
    /// Reads a command line, the program's own name first. Numbers are encoded as in scripts; an
    /// option that is not given has 0 or false.
    ///
    /// clap's error where the words are wrong, naming the first option whose number is out of
    /// bounds, or where they ask for help or the version. Its kind is `OutOfMemory` where a growth
    /// was refused.
    pub fn read(alloc: Global, words: &'a [&'a str]) -> Result<Self, Error>
        ensures { IfOk result IsServable }
    {
        let mut command = whole_command(alloc)?;
        let line = matched(&mut command, words);
        drop(command);
        line
    }
}
