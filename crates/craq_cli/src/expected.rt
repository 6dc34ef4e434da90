//! The expected words of a command, and the text about a wrong one; for `words` and `commands`.
ghost use Rattle.std.specs.Prelude.{◌≡◌};
ghost use Rattle.craq_cli.specs.declared.expected.UsageError.TheVariants.{Memory};

use std::alloc::{AllocError, AllocFailed, Global};

/// The kind of word that is expected.
#[derive(Clone, Copy, Debug, PartialEq, Eq)]
pub enum Expected {
    /// The name of a command.
    Command,
    /// A client's id.
    Client,
    /// The number of an update.
    Number,
    /// The version of an object.
    Version,
    /// The number by which a counter rises or falls.
    By,
    /// An object.
    Object,
    /// A value.
    Value,
    /// The mode of a read.
    Mode,
    /// An item of a transaction.
    Item,
    /// The number of connections.
    Connections,
    /// For how many seconds.
    Seconds,
    /// The number of reads in 100 requests.
    Reads,
    /// The id of a node.
    Node,
    /// The verb of a line of `craqd --control`.
    ControlVerb,
    /// A chain and the id of a node.
    ChainNode,
    /// The word that has a node stopped in any case.
    Force,
    /// The name of a verb for people.
    Verb,
    /// A key of any bytes.
    Key,
    /// A value of a verb for people.
    VerbValue,
    /// An item of a transaction with a key of any bytes.
    VerbItem,
    /// No word.
    End,
}

/// The first word of a command that is not what is expected there, or is missing there.
#[derive(Clone, Copy, Debug, PartialEq, Eq)]
pub struct BadWord {
    /// Its place: the command's name stands at 0.
    pub place: usize,
    /// The word that is expected at that place.
    pub expected: Expected,
}

/// Reasons why words are no command.
#[derive(Clone, Copy, Debug, PartialEq, Eq)]
pub enum UsageError {
    /// A growth was refused.
    Memory,
    /// A word is not what is expected.
    Bad(BadWord),
}

impl From<AllocError> for UsageError {
    ghost from_gives = { λ _ e. e ≡ Memory };

    fn from(_error: AllocError) -> UsageError {
        UsageError::Memory
    }
}

impl<T: Drop> From<AllocFailed<T>> for UsageError {
    ghost from_gives = { λ _ e. e ≡ Memory };

    fn from(_error: AllocFailed<T>) -> UsageError {
        UsageError::Memory
    }
}

impl Expected {
    /// Returns the expected word, described.
    const fn reported(self) -> &'static str {
        match self {
            Expected::Command => "a command, as put, read, status or help",
            Expected::Client =>
                "CLIENT, a number of 64 bits in decimal digits without leading zeros",
            Expected::Number =>
                "NUMBER, a number of 64 bits in decimal digits without leading zeros",
            Expected::Version =>
                "VERSION, a number of 64 bits in decimal digits without leading zeros",
            Expected::By => "BY, a number of 64 bits in decimal digits without leading zeros",
            Expected::Object => {
                "OBJECT, a key of letters, digits, _ and -, or CHAIN/KEY with a chain of 16 bits"
            }
            Expected::Value => {
                "VALUE, printable ASCII without blanks, or 0x and pairs of hexadecimal digits in lower case"
            }
            Expected::Mode => "MODE, one of strong, eventual and bounded:K with K of 32 bits",
            Expected::Item => "ITEM, one of c:OBJECT:VERSION, r:OBJECT and w:OBJECT:VALUE",
            Expected::Connections => "CONNECTIONS, a number from 1 to 1000",
            Expected::Seconds => "SECONDS, a number from 1 to 86400",
            Expected::Reads => "READS, how many of 100 requests are reads, from 0 to 100",
            Expected::Node => "NODE, a number of 32 bits in decimal digits without leading zeros",
            Expected::ControlVerb => "one of stop, remove, join, status and help",
            Expected::ChainNode => {
                "CHAIN/NODE, the name or the index of a chain and a number from 1 to 4294967295"
            }
            Expected::Force => "--force or the end of the line",
            Expected::Verb =>
                "a verb, as set, get, cas, append, prepend, add, sub, txn, members or health",
            Expected::Key => "KEY, of 1 to 128 bytes",
            Expected::VerbValue => {
                "VALUE, a text; with --hex pairs of hexadecimal digits in lower case, with --decimal a number"
            }
            Expected::VerbItem => {
                "ITEM, one of c:KEY:VERSION, r:KEY and w:KEY:VALUE, with a KEY without a colon"
            }
            Expected::End => "no more words",
        }
    }
}

impl BadWord {
    /// Returns the text about the wrong word: the expected one, and the one that stands there.
    /// Fails only when out of memory.
    pub fn reported(&self, alloc: Global, words: &[&str]) -> Result<String, AllocError> {
        let expected = self.expected.reported();
        match words.get(self.place) {
            Some(word) => format!(in alloc; "expected {expected}, and found '{word}'"),
            None => format!(in alloc; "expected {expected}, and found the end of the words"),
        }
    }
}
