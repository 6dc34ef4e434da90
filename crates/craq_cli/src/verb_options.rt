//! The options of people's verbs: their names, bounds and helps, and their values on a command
//! line; for `client`.
ghost use Rattle.std.specs.Prelude.{◌≡◌, ◌≤◌, IfOk, IfSome};
ghost use Rattle.clap.specs.Words.{found_of};
ghost use Rattle.craq_cli.specs.VerbOptions.{name_of, least_of, greatest_of, number_in, load_in, mode_in, Has};

use crate::BenchLoad;
use crate::numbers::number_between;
use clap::ArgMatches;
use craq_commands::ReadMode;
use craq_script::{ParseError, mode_of};

/// An option whose value is checked.
#[derive(Clone, Copy, Debug, PartialEq, Eq)]
pub(crate) enum CheckedOption {
    Node,
    Pass,
    Client,
    Number,
    Mode,
    Connections,
    Seconds,
    Mix,
    Keys,
    Size,
}

/// The reason that an option has no value.
#[derive(Clone, Copy, Debug, PartialEq, Eq)]
pub(crate) enum BadOption {
    /// Out of memory.
    Memory,
    /// The value of this option is outside its bounds.
    Value(CheckedOption),
}

/// The options with a value: name, name of the value, help.
pub(crate) const VALUED: [(&str, &str, &str); 7] = [
    (
        "connect",
        "ADDRESS",
        "Where the server listens; of verbs for people else CRAQ_CONNECT, else 127.0.0.1:7000",
    ),
    (
        "node",
        "N",
        "The node that is asked; of verbs for people else the head, or any member for a get",
    ),
    (
        "pass",
        "P",
        "The largest pass that was printed so far; 0 if there is none",
    ),
    (
        "chain",
        "NAME",
        "A chain by its name or its number; chain 0 if there is none",
    ),
    (
        "mode",
        "MODE",
        "Of get: strong, eventual or bounded:K; strong if there is none",
    ),
    (
        "client",
        "ID",
        "The client's id; else CRAQ_CLIENT, else an id drawn once and kept",
    ),
    (
        "number",
        "N",
        "Ask an update again that may have been done under this number",
    ),
];

/// The options without a value: name, help.
pub(crate) const FLAGS: [(&str, &str); 4] = [
    ("hex", "Take and print values as hexadecimal digits"),
    (
        "decimal",
        "Take and print values of 8 bytes as numbers in decimal digits",
    ),
    ("json", "Print a JSON object"),
    ("print-pass", "Print the pass of the reply too"),
];

/// The options of `bench`: name, name of the value, help.
pub(crate) const LOAD: [(&str, &str, &str); 5] = [
    (
        "connections",
        "N",
        "Of bench: the number of connections, 1 to 1000, each with one request under way; 50",
    ),
    (
        "seconds",
        "N",
        "Of bench: for how many seconds, 1 to 86400; 10",
    ),
    (
        "mix",
        "READS",
        "Of bench: how many of 100 requests are strong reads, the others being puts; 50",
    ),
    (
        "keys",
        "N",
        "Of bench: the number of objects, 1 to 1000000, of which each request picks one; 1000",
    ),
    (
        "size",
        "BYTES",
        "Of bench: the size of each put's value, 0 to 4096; 16",
    ),
];

impl CheckedOption {
    /// Returns its name.
    const fn name<'a>(self) -> &'a str
        ensures { result.now ≡ name_of self }
    {
        match self {
            CheckedOption::Node => "node",
            CheckedOption::Pass => "pass",
            CheckedOption::Client => "client",
            CheckedOption::Number => "number",
            CheckedOption::Mode => "mode",
            CheckedOption::Connections => "connections",
            CheckedOption::Seconds => "seconds",
            CheckedOption::Mix => "mix",
            CheckedOption::Keys => "keys",
            CheckedOption::Size => "size",
        }
    }

    /// Returns the least number that it takes.
    const fn least(self) -> u64
        ensures { result ≡ least_of self }
    {
        match self {
            CheckedOption::Number => 1,
            CheckedOption::Connections | CheckedOption::Seconds | CheckedOption::Keys => 1,
            _ => 0,
        }
    }

    /// Returns the greatest number that it takes.
    const fn greatest(self) -> u64
        ensures { result ≡ greatest_of self }
    {
        match self {
            CheckedOption::Node => 0xffff_ffff,
            CheckedOption::Connections => 1_000,
            CheckedOption::Seconds => 86_400,
            CheckedOption::Mix => 100,
            CheckedOption::Keys => 1_000_000,
            CheckedOption::Size => 4_096,
            _ => 0xffff_ffff_ffff_ffff,
        }
    }

    /// Returns what it takes, in words.
    pub(crate) const fn reported(self) -> &'static str {
        match self {
            CheckedOption::Node =>
                "--node takes a number of 32 bits in decimal digits without leading zeros",
            CheckedOption::Pass =>
                "--pass takes a number of 64 bits in decimal digits without leading zeros",
            CheckedOption::Client =>
                "--client takes a number of 64 bits in decimal digits without leading zeros",
            CheckedOption::Number => {
                "--number takes a number of 64 bits in decimal digits without leading zeros, and not 0"
            }
            CheckedOption::Mode => "--mode takes strong, eventual, or bounded:K with K of 32 bits",
            CheckedOption::Connections => "--connections takes a number from 1 to 1000",
            CheckedOption::Seconds => "--seconds takes a number from 1 to 86400",
            CheckedOption::Mix => "--mix takes a number from 0 to 100",
            CheckedOption::Keys => "--keys takes a number from 1 to 1000000",
            CheckedOption::Size => "--size takes a number from 0 to 4096",
        }
    }
}

/// Parses the number of an option; `None` if the option was not given.
pub(crate) fn number_in(
    matches: &ArgMatches<'_>,
    option: CheckedOption,
) -> Result<Option<u64>, BadOption>
    ensures value { Has result (number_in option (found_of matches.now)) }
    ensures bound { IfOk result (λ o. IfSome o (λ n. n ≤ greatest_of option)) }
{
    let Some(text) = matches.get_str(option.name()) else {
        return Ok(None);
    };
    match number_between(option.least(), option.greatest(), text.as_bytes()) {
        Ok(number) => Ok(Some(number)),
        Err(ParseError::Memory) => Err(BadOption::Memory),
        Err(ParseError::OutsideGrammar) => Err(BadOption::Value(option)),
    }
}

/// Returns a load with the numbers of the options that were given.
#[tactic(auto, unfolding(crate::specs::VerbOptions::load_in))]
pub(crate) fn load_in(matches: &ArgMatches<'_>, load: BenchLoad) -> Result<BenchLoad, BadOption>
    ensures { Has result (load_in load (found_of matches.now)) }
{
    let connections = number_in(matches, CheckedOption::Connections)?;
    let seconds = number_in(matches, CheckedOption::Seconds)?;
    let reads = number_in(matches, CheckedOption::Mix)?;
    let keys = number_in(matches, CheckedOption::Keys)?;
    let size = number_in(matches, CheckedOption::Size)?;
    Ok(BenchLoad {
        connections: connections.unwrap_or(load.connections),
        seconds: seconds.unwrap_or(load.seconds),
        reads: reads.unwrap_or(load.reads),
        keys: keys.unwrap_or(load.keys),
        size: size.unwrap_or(load.size),
    })
}

/// Parses the mode of reads; strong if the option was not given.
pub(crate) fn mode_in(matches: &ArgMatches<'_>) -> Result<ReadMode, BadOption>
    ensures { Has result (mode_in (found_of matches.now)) }
{
    let Some(text) = matches.get_str(CheckedOption::Mode.name()) else {
        return Ok(ReadMode::Strong);
    };
    match mode_of(text.as_bytes()) {
        Ok(mode) => Ok(mode),
        Err(ParseError::Memory) => Err(BadOption::Memory),
        Err(ParseError::OutsideGrammar) => Err(BadOption::Value(CheckedOption::Mode)),
    }
}
