//! The options of `craqd` that have numbers: their names, bounds, defaults and helps, and their
//! values on a command line; for `server`.
ghost use Rattle.std.specs.Prelude.{◌≡◌, ◌≤◌, IfOk};
ghost use Rattle.clap.specs.Words.{found_of};
ghost use Rattle.craq_cli.specs.Options.{name_of, greatest_of, option_number, numbers_of, Has};

use crate::numbers::number_between;
use clap::ArgMatches;
use craq_script::ParseError;

/// An option of `craqd` that has a number.
#[derive(Clone, Copy, Debug, PartialEq, Eq)]
pub(crate) enum NumberOption {
    /// The number of connections after which the server ends.
    Connections,
    /// The number of threads that serve all connections.
    Threads,
    /// The most connections at once.
    Most,
    /// The seconds without a byte after which a connection ends.
    Idle,
    /// The most that a pass may lie above the largest pass that was returned.
    MostLeap,
}

/// The numbers of all options.
#[derive(Clone, Copy, Debug, PartialEq, Eq)]
pub(crate) struct Numbers {
    pub connections: u32,
    pub threads: u32,
    pub most: u32,
    pub idle: u32,
    pub most_leap: u32,
}

/// Reasons why an option gives no number.
#[derive(Clone, Copy, Debug, PartialEq, Eq)]
pub(crate) enum Unfit {
    /// A growth was refused.
    Memory,
    /// The option's value is not a number within its bounds.
    Option(NumberOption),
}

impl NumberOption {
    /// Returns its name.
    pub(crate) const fn name<'a>(self) -> &'a str
        ensures { result.now ≡ name_of self }
    {
        match self {
            NumberOption::Connections => "connections",
            NumberOption::Threads => "threads",
            NumberOption::Most => "most",
            NumberOption::Idle => "idle",
            NumberOption::MostLeap => "most-leap",
        }
    }

    /// Returns the greatest number that it takes; the least is 0.
    const fn greatest(self) -> u64
        ensures { result ≡ greatest_of self }
    {
        match self {
            NumberOption::Threads => 64,
            _ => 0xffff_ffff,
        }
    }

    /// Returns the name of its value in helps.
    pub(crate) const fn value_name<'a>(self) -> &'a str {
        match self {
            NumberOption::Idle => "SECONDS",
            _ => "N",
        }
    }

    /// Returns its help.
    pub(crate) const fn help<'a>(self) -> &'a str {
        match self {
            NumberOption::Connections => "End after N connections; 0 does not end",
            NumberOption::Threads => {
                "Serve all connections by N threads, at most 64; 0 serves each by a thread of its own"
            }
            NumberOption::Most => {
                "Serve at most N connections at once; 0 serves as many as descriptors allow"
            }
            NumberOption::Idle => {
                "End a connection that sends or takes nothing for N seconds; 0 ends none"
            }
            NumberOption::MostLeap => {
                "Refuse a pass more than N above the largest that was printed or sent; 0 takes any"
            }
        }
    }

    /// Returns what it takes, in words.
    pub(crate) const fn reported(self) -> &'static str {
        match self {
            NumberOption::Connections =>
                "--connections takes a number of 32 bits in decimal digits without leading zeros",
            NumberOption::Threads =>
                "--threads takes a number from 0 to 64 in decimal digits without leading zeros",
            NumberOption::Most =>
                "--most takes a number of 32 bits in decimal digits without leading zeros",
            NumberOption::Idle =>
                "--idle takes a number of 32 bits in decimal digits without leading zeros",
            NumberOption::MostLeap =>
                "--most-leap takes a number of 32 bits in decimal digits without leading zeros",
        }
    }
}

/// Returns the number of an option.
///
/// `Option` with it where its value is not a number within its bounds, or is missing; `Memory`
/// where a growth was refused.
fn option_number(matches: &ArgMatches<'_>, option: NumberOption) -> Result<u32, Unfit>
    ensures value { Has result (option_number option (found_of matches.now)) }
    ensures bound { IfOk result (λ n. n ≤ greatest_of option) }
{
    let Some(text) = matches.get_str(option.name()) else {
        return Err(Unfit::Option(option));
    };
    match number_between(0, option.greatest(), text.as_bytes()) {
        Ok(number) => Ok(number as u32),
        Err(ParseError::Memory) => Err(Unfit::Memory),
        Err(ParseError::OutsideGrammar) => Err(Unfit::Option(option)),
    }
}

/// Returns the numbers of all options.
///
/// `Option` with the first whose value is not a number within its bounds; `Memory` where a growth
/// was refused.
#[tactic(auto, unfolding(crate::specs::Options::numbers_of))]
pub(crate) fn numbers_of(matches: &ArgMatches<'_>) -> Result<Numbers, Unfit>
    ensures value { Has result (numbers_of (found_of matches.now)) }
    ensures bound { IfOk result (λ n. n.threads ≤ 64) }
{
    let connections = option_number(matches, NumberOption::Connections)?;
    let threads = option_number(matches, NumberOption::Threads)?;
    let most = option_number(matches, NumberOption::Most)?;
    let idle = option_number(matches, NumberOption::Idle)?;
    let most_leap = option_number(matches, NumberOption::MostLeap)?;
    Ok(Numbers {
        connections,
        threads,
        most,
        idle,
        most_leap,
    })
}
