//! The command line of `craq`: its options, its help, and what its command is to do; called by the
//! main of `craq`.
use crate::address::{ADDRESS_FORM, is_address};
use crate::commands::{is_command, task_of};
use crate::flags::flag_arg;
use crate::numbers::number_between;
use crate::verb_options::{
    BadOption, CheckedOption, FLAGS, LOAD, VALUED, load_in, mode_in, number_in,
};
use crate::verbs::meaningless_options;
use crate::{Task, UsageError, VERSION, ValueForm, VerbLine, VerbOptions, is_verb};
use clap::error::ErrorKind;
use clap::{Arg, ArgAction, ArgMatches, Command, Error};
use craq_names::{NodeId, Pass, Stamp};
use craq_script::GREATEST_NODE;
use std::alloc::{AllocError, Global};

/// The command line of `craq`, read.
#[derive(Debug, Drop)]
pub struct CallLine<'a> {
    /// The address of the server, a host and a port; `None` if `--connect` was not given.
    pub address: Option<&'a str>,
    /// The node that is asked; `None` if `--node` was not given. A task `Ask` always has one.
    pub node: Option<NodeId>,
    /// The pass that is shown: the largest stamp that the client has seen.
    pub pass: Pass,
    /// The address of the server's metrics, for a watch; `None` if `--metrics` was not given.
    pub metrics: Option<&'a str>,
    /// The task.
    pub task: Task<'a>,
}

/// Reasons why a command line of `craq` has no task.
#[derive(Debug, Drop)]
pub enum CommandFault {
    /// clap's error: the options are wrong, or ask for help or the version. Its kind is
    /// `OutOfMemory` where a growth was refused.
    Words(Error),
    /// clap's error with what was expected: the words of the command fit no script line.
    Command(Error),
    /// A growth was refused.
    Memory,
}

impl From<Error> for CommandFault {
    fn from(error: Error) -> CommandFault {
        CommandFault::Words(error)
    }
}

impl From<AllocError> for CommandFault {
    fn from(_error: AllocError) -> CommandFault {
        CommandFault::Memory
    }
}

const ABOUT: &str = "Asks a server of a replicated object store, and prints its answer";

const LONG_ABOUT: &str = "Asks a server of a replicated object store (craqd), and prints its answer.

The verbs set to health need no option: they find the head, number each update, retry, and print
what a person wants to see. The commands put to status ask one node exactly one request.
With --connect and no command there is a prompt, which shows the largest pass by itself.";

const HELP: &str = "VERB and its words:
  set KEY VALUE              write the value; VALUE - is read from standard input
  get KEY                    print the value as it is
  cas KEY VERSION VALUE      write the value if the object has this version; 0 is never written
  append, prepend KEY VALUE  put the value behind, or before, the present one
  add, sub KEY [BY]          add BY, or 1, to the number in the object's 8 bytes, or subtract it
  txn ITEM ..                compare, read and write at one moment: an ITEM is c:KEY:VERSION, r:KEY
                             or w:KEY:VALUE, with a KEY without a colon
  members                    print each chain with its members, head first
  health                     time a strong read at each member, and an update through the whole
                             chain, which writes nothing
KEY is any 1 to 128 bytes, VALUE any 0 to 4096. Options stand before or after these words; -- ends
them. An update goes to the head, and a get to any member, unless --node names one. After a lost
connection or a passing refusal the request is retried, an update under its number, so that it is
done once. If it may have been done all the same, standard error has the command that asks it again.

COMMAND and its words:
  put CLIENT NUMBER OBJECT VALUE           give the object a value
  tas CLIENT NUMBER OBJECT VERSION VALUE   the same, if the object has the version
  append, prepend CLIENT NUMBER OBJECT VALUE   join the value to the end or the front
  inc, dec CLIENT NUMBER OBJECT BY         count an object of 8 bytes up or down
  mini CLIENT NUMBER ITEM ..               a transaction: c:OBJECT:VERSION compares, r:OBJECT
                                           reads, w:OBJECT:VALUE writes
  read MODE OBJECT                         MODE is strong, eventual, or bounded:K versions ahead
  status                                   the chains, their epochs and members, as JSON
A command needs --connect and --node, and all words after it are its own. OBJECT is KEY of letters,
digits, _ and -, on chain 0, or CHAIN/KEY. NUMBER counts the updates of a client on a chain from 1:
asked again under one of its 8 largest numbers, an update is not made again but answered again. A
VALUE is printable ASCII without blanks, or 0x and hexadecimal digits. Updates are asked at the
first node of a chain, its head. After the answer comes a line `pass P` with the pass to show from
now on. A strong read that shows the pass of an earlier strong answer (the reply to an update, or a
strong read) is not older than it. With --connect and --node, append and prepend are commands.

TOOL and its words:
  shell                      a prompt that takes verbs and commands, and `help`
  watch [SECONDS]            the chains, printed again whenever they change; with --metrics ADDRESS
                             also each node's entries, committed ones first
  bench [CONNECTIONS SECONDS READS]   a load of puts and strong reads, READS of 100 requests being
                             reads; prints counts and latencies; see --connections to --size

Printed:
  written V          the update wrote version V
  mismatch V         the object has version V, and nothing was written
  toolong, notanumber, overflow, underflow    nothing was written
  done V:VALUE ..    the transaction was made; what it read (of txn: a line `V VALUE` for each read)
  comparefailed I    compare I (from 0) failed, and nothing was written
  stale N            nothing was done now: NUMBER is below the 8 largest that were done, and N is
                     the largest; whether it was done before is not known any more
  read V VALUE       the object's version, 0 where it is absent, and its value
  refused N          nothing was done; but after 11, 14 and 27 an update may have been done: ask it
                     again under its NUMBER. Standard error has the refusal in words. 1 a key of
                     more than 128 bytes, 2 a value of more than 4096, 3 more than 16 items in a
                     list, 4 no item, 5 an object twice in a list, 6 number 0, 7 no such chain, 8
                     two chains, 9 not the head, which follows, 10 not ready, 11 stopped, 12 too
                     many requests wait, 13 a counter at its greatest number (with --most-leap also
                     a pass far above any that the server sent), 14 the server is out of memory, 15
                     bytes that are no request, 16 a request that is too long, 23 no such node, 27
                     the server closes

Status: 0 after an answer; 1 with `cannot print` where the output takes no text, or `cannot read`
where the input gives none; 2 after a bad command line, and with `script line 1` and the word that
was expected after a bad command; 3 with `refused N`, or with `no memory`; 4 with `connection` where
there is none, or it broke. A verb ends with 5 after mismatch, comparefailed, toolong, notanumber,
overflow, underflow and stale, since nothing was written, and with 6 after a get of an object that
was never written.

Examples:
  craq set colour blue
  craq get colour --node 3 --json
  craq bench --connections 20 --mix 90 --size 1000
  craq --connect 127.0.0.1:7000 --node 1 put 1 1 colour blue
  craq --connect 127.0.0.1:7000 --node 1 tas 1 2 colour 1 green
  craq --connect 127.0.0.1:7000 --node 1 append 1 3 colour ish
  craq --connect 127.0.0.1:7000 --node 1 prepend 1 4 colour dark
  craq --connect 127.0.0.1:7000 --node 1 inc 1 5 visits 1
  craq --connect 127.0.0.1:7000 --node 1 dec 1 6 visits 1
  craq --connect 127.0.0.1:7000 --node 1 mini 1 7 c:visits:2 r:colour w:seen:yes
  craq --connect 127.0.0.1:7000 --node 3 --pass 9 read strong colour
  craq --connect 127.0.0.1:7000 --node 3 status";

/// The form of a command line, by its first word that is no option.
#[derive(Clone, Copy, Debug, PartialEq, Eq)]
enum LineForm {
    /// A command of the specification, which needs `--connect` and `--node`.
    Command,
    /// A verb for people, or a word that is neither a command nor a tool.
    Verb,
    /// A prompt, a watch or a load.
    Tool,
}

/// Makes an option with a value.
fn option_arg<'a>(alloc: Global, name: &'a str, value: &'a str, help: &'a str) -> Arg<'a> {
    Arg::new(alloc, name)
        .long(name)
        .value_name(value)
        .action(ArgAction::Set)
        .help(help)
}

/// Makes the command with its texts and no argument.
fn named_command<'a>(alloc: Global) -> Command<'a> {
    Command::new(alloc, "craq")
        .about(ABOUT)
        .version(VERSION)
        .long_about(LONG_ABOUT)
        .after_help(HELP)
}

/// Makes the argument of all words that are no option.
fn words_arg<'a>(alloc: Global) -> Arg<'a> {
    Arg::new(alloc, "COMMAND")
        .num_args(0..)
        .help("What is asked, and its words")
}

/// Makes the command `craq [OPTION ..]` with the options of verbs for people, help and version.
fn open_options<'a>(alloc: Global) -> Result<Command<'a>, AllocError> {
    let mut command = named_command(alloc);
    for option in VALUED.iter() {
        let (name, value, help) = *option;
        command = command.arg(option_arg(alloc, name, value, help))?;
    }
    for option in FLAGS.iter() {
        let (name, help) = *option;
        command = command.arg(flag_arg(alloc, name, help))?;
    }
    Ok(command)
}

/// The help of `--metrics`.
const METRICS: &str = "Of watch: where the server serves its metrics (craqd --metrics ADDRESS)";

/// Makes the command with the options of tools too.
fn tool_options<'a>(alloc: Global) -> Result<Command<'a>, AllocError> {
    let mut command = open_options(alloc)?;
    for option in LOAD.iter() {
        let (name, value, help) = *option;
        command = command.arg(option_arg(alloc, name, value, help))?;
    }
    command.arg(option_arg(alloc, "metrics", "ADDRESS", METRICS))
}

/// Makes the command of a tool, whose options stand anywhere.
fn tool_command<'a>(alloc: Global) -> Result<Command<'a>, AllocError> {
    tool_options(alloc)?.arg(words_arg(alloc))
}

/// Makes the command whose options stand anywhere: `craq [OPTION ..] [COMMAND ..] [OPTION ..]`.
fn open_command<'a>(alloc: Global) -> Result<Command<'a>, AllocError> {
    open_options(alloc)?.arg(words_arg(alloc))
}

/// Makes the command whose words are all behind its options: `craq [OPTION ..] [COMMAND ..]`.
fn first_command<'a>(alloc: Global) -> Result<Command<'a>, AllocError> {
    let command = tool_options(alloc)?;
    let words = words_arg(alloc)
        .trailing_var_arg(true)
        .allow_hyphen_values(true);
    command.arg(words)
}

/// Makes the command with `--connect ADDRESS --node N [--pass P]`, help and version.
fn command_with_options<'a>(alloc: Global) -> Result<Command<'a>, AllocError> {
    let connect = option_arg(alloc, "connect", "ADDRESS", "Where the server listens");
    let command = named_command(alloc).arg(connect.required(true))?;
    let node = option_arg(alloc, "node", "N", "The node that is asked");
    let command = command.arg(node.required(true))?;
    let pass = option_arg(
        alloc,
        "pass",
        "P",
        "The largest pass that was printed so far",
    );
    command.arg(pass.default_value("0"))
}

/// Makes the command `craq --connect ADDRESS --node N [--pass P] [COMMAND ..]`. Without any word its
/// error is the help.
fn whole_command<'a>(alloc: Global) -> Result<Command<'a>, AllocError> {
    let command = command_with_options(alloc)?;
    let words = Arg::new(alloc, "COMMAND")
        .num_args(0..)
        .trailing_var_arg(true)
        .allow_hyphen_values(true)
        .help("What is asked, and its words");
    command.arg_required_else_help(true).arg(words)
}

/// Returns the node and the pass of a command line; `None` where a number is outside the grammar.
fn numbers_in(matches: &ArgMatches<'_>) -> Option<(NodeId, Pass)> {
    let node = number_between(0, GREATEST_NODE, matches.get_str("node")?.as_bytes()).ok()?;
    let pass = number_between(0, u64::MAX, matches.get_str("pass")?.as_bytes()).ok()?;
    Some((NodeId::new(node as u32), Pass::of(Stamp::new(pass))))
}

/// Returns clap's error about the options, with this text. Fails only when out of memory.
fn wrong_words(command: &mut Command<'_>, reported: &str) -> Result<CommandFault, CommandFault> {
    Ok(CommandFault::Words(command.error(ErrorKind::ValueValidation, reported)?))
}

/// Returns the task of a command's words: a prompt where there are none.
fn task_in<'a>(
    alloc: Global,
    command: &mut Command<'_>,
    node: NodeId,
    words: Option<&[&str]>,
) -> Result<Task<'a>, CommandFault> {
    let Some(words) = words else {
        return Ok(Task::Shell);
    };
    match task_of(alloc, node, words) {
        Ok(task) => Ok(task),
        Err(UsageError::Memory) => Err(CommandFault::Memory),
        Err(UsageError::Bad(bad)) => {
            let reported = bad.reported(alloc, words)?;
            let error = command.error(ErrorKind::ValueValidation, reported.as_str())?;
            Err(CommandFault::Command(error))
        }
    }
}

/// The options that neither commands nor a prompt take: those of verbs without `--connect`, `--node`
/// and `--pass`.
const VERB_OPTIONS: [&str; 8] = [
    "chain",
    "mode",
    "client",
    "number",
    "hex",
    "decimal",
    "json",
    "print-pass",
];

/// Returns true if an option was given, with a value or without one.
fn is_given(matches: &ArgMatches<'_>, option: &str) -> bool {
    if FLAGS.iter().any(|flag| flag.0 == option) {
        matches.get_flag(option)
    } else {
        matches.contains_id(option)
    }
}

/// Returns true if an option of verbs was given that commands do not take.
fn has_verb_option(matches: &ArgMatches<'_>) -> bool {
    VERB_OPTIONS.iter().any(|option| is_given(matches, option))
}

/// Returns the form of a command line by its first word that is no option. Without one it is a
/// prompt, which needs `--connect`. The names that a command and a verb share are the command's if
/// the line names a server and a node. An unknown word is taken for a verb unless the line has the
/// options of a command.
fn form_of(matches: &ArgMatches<'_>) -> LineForm {
    let first = match matches.get_strs("COMMAND") {
        Some(words) => words.first().copied(),
        None => None,
    };
    let has_place = matches.contains_id("connect") && matches.contains_id("node");
    match first {
        Some("shell" | "watch" | "bench") => LineForm::Tool,
        Some(word) if has_place && is_command(word) => LineForm::Command,
        Some(word) if is_verb(word) => LineForm::Verb,
        Some(word) if is_command(word) => LineForm::Command,
        Some(_) if !has_place || has_verb_option(matches) => LineForm::Verb,
        None if matches.contains_id("connect") => LineForm::Tool,
        _ => LineForm::Command,
    }
}

/// Returns the form of these words. `Words` if the line of a command has options of verbs.
fn form_of_words(alloc: Global, words: &[&str]) -> Result<LineForm, CommandFault> {
    let mut command = first_command(alloc)?;
    let found = command.try_get_matches_from_mut(words);
    drop(command);
    let matches = found?;
    let form = form_of(&matches);
    let is_mixed = form == LineForm::Command && has_verb_option(&matches);
    drop(matches);
    if is_mixed {
        let mut command = whole_command(alloc)?;
        return Err(wrong_words(&mut command, "options of verbs do not go with commands")?);
    }
    Ok(form)
}

/// Returns the first option that was given and has no meaning for the verb, if there is one.
fn meaningless<'a>(matches: &ArgMatches<'_>, verb: &str) -> Option<&'a str> {
    for option in meaningless_options(verb) {
        if is_given(matches, option) {
            return Some(*option);
        }
    }
    None
}

/// Fails with `Words` if the options of a verb's line do not go together, or have no meaning for its
/// verb.
fn check_options(
    alloc: Global,
    command: &mut Command<'_>,
    matches: &ArgMatches<'_>,
) -> Result<(), CommandFault> {
    if matches.get_flag("hex") && matches.get_flag("decimal") {
        return Err(wrong_words(command, "--hex and --decimal do not go together")?);
    }
    let Some([verb, ..]) = matches.get_strs("COMMAND") else {
        return Ok(());
    };
    let Some(option) = meaningless(matches, verb) else {
        return Ok(());
    };
    let reported = format!(in alloc; "--{option} has no meaning for {verb}")?;
    Err(wrong_words(command, reported.as_str())?)
}

/// Fails with `Words` if an address of the line is not HOST:PORT.
fn check_address(
    command: &mut Command<'_>,
    matches: &ArgMatches<'_>,
    option: &str,
) -> Result<(), CommandFault> {
    match matches.get_str(option) {
        Some(address) if !is_address(address.as_bytes())? => {
            Err(wrong_words(command, ADDRESS_FORM)?)
        }
        _ => Ok(()),
    }
}

/// Returns the form of values that the options name.
fn form_in(matches: &ArgMatches<'_>) -> ValueForm {
    if matches.get_flag("hex") {
        ValueForm::Hexadecimal
    } else if matches.get_flag("decimal") {
        ValueForm::Decimal
    } else {
        ValueForm::Bytes
    }
}

/// Returns the options of a verb for people.
fn verb_options<'a>(matches: &ArgMatches<'a>) -> Result<VerbOptions<'a>, BadOption> {
    let mode = mode_in(matches)?;
    let client = number_in(matches, CheckedOption::Client)?;
    let number = number_in(matches, CheckedOption::Number)?;
    Ok(VerbOptions {
        chain: matches.get_str("chain"),
        mode,
        client,
        number,
        form: form_in(matches),
        is_json: matches.get_flag("json"),
        prints_pass: matches.get_flag("print-pass"),
    })
}

/// Returns the node and the pass of a command line.
fn place_of(matches: &ArgMatches<'_>) -> Result<(Option<NodeId>, Pass), BadOption> {
    let node = match number_in(matches, CheckedOption::Node)? {
        Some(node) => Some(NodeId::new(node as u32)),
        None => None,
    };
    let pass = number_in(matches, CheckedOption::Pass)?.unwrap_or(0);
    Ok((node, Pass::of(Stamp::new(pass))))
}

/// Returns the fault of an option, with clap's error about it.
fn option_fault(command: &mut Command<'_>, bad: BadOption) -> CommandFault {
    let BadOption::Value(option) = bad else {
        return CommandFault::Memory;
    };
    match command.error(ErrorKind::ValueValidation, option.reported()) {
        Ok(error) => CommandFault::Words(error),
        Err(AllocError) => CommandFault::Memory,
    }
}

/// Returns a copy of the words. Fails only when out of memory.
fn copied_words<'a>(alloc: Global, words: Option<&[&'a str]>) -> Result<Vec<&'a str>, AllocError> {
    match words {
        Some(words) => Ok(Vec::from_slice(alloc, words)?),
        None => Ok(Vec::new(alloc)),
    }
}

/// Returns the line of a command of the specification.
fn command_line<'a>(
    alloc: Global,
    command: &mut Command<'_>,
    matches: &ArgMatches<'a>,
) -> Result<CallLine<'a>, CommandFault> {
    let (Some(address), Some((node, pass))) = (matches.get_str("connect"), numbers_in(matches))
    else {
        let reported =
            "N and P are numbers of 32 and of 64 bits in decimal digits without leading zeros";
        return Err(wrong_words(command, reported)?);
    };
    Ok(CallLine {
        address: Some(address),
        node: Some(node),
        pass,
        metrics: None,
        task: task_in(alloc, command, node, matches.get_strs("COMMAND"))?,
    })
}

/// Returns the text about an option that this task does not take, if there is one.
fn misplaced(matches: &ArgMatches<'_>, task: &Task<'_>) -> Option<&'static str> {
    let has_load = LOAD.iter().any(|option| matches.contains_id(option.0));
    match task {
        Task::Bench(_) if matches.contains_id("metrics") => Some("--metrics is an option of watch"),
        Task::Bench(_) => None,
        _ if has_load => {
            Some("--connections, --seconds, --mix, --keys and --size are options of bench")
        }
        Task::Watch(_) => None,
        _ if matches.contains_id("metrics") => Some("--metrics is an option of watch"),
        _ => None,
    }
}

/// Returns the task of a tool with its options.
fn task_with_options<'a>(
    command: &mut Command<'_>,
    matches: &ArgMatches<'_>,
    task: Task<'a>,
) -> Result<Task<'a>, CommandFault> {
    if let Some(reported) = misplaced(matches, &task) {
        drop(task);
        return Err(wrong_words(command, reported)?);
    }
    let Task::Bench(load) = &task else {
        return Ok(task);
    };
    let load = *load;
    drop(task);
    match load_in(matches, load) {
        Ok(load) => Ok(Task::Bench(load)),
        Err(bad) => Err(option_fault(command, bad)),
    }
}

/// Returns the line of a tool.
fn tool_line<'a>(
    alloc: Global,
    command: &mut Command<'_>,
    matches: &ArgMatches<'a>,
) -> Result<CallLine<'a>, CommandFault> {
    let (node, pass) = match place_of(matches) {
        Ok(place) => place,
        Err(bad) => return Err(option_fault(command, bad)),
    };
    let task = task_in(alloc, command, NodeId::new(0), matches.get_strs("COMMAND"))?;
    let task = task_with_options(command, matches, task)?;
    check_address(command, matches, "metrics")?;
    Ok(CallLine {
        address: matches.get_str("connect"),
        node,
        pass,
        metrics: matches.get_str("metrics"),
        task,
    })
}

/// Returns the line of a verb for people.
fn verb_line<'a>(alloc: Global, matches: &ArgMatches<'a>) -> Result<CallLine<'a>, BadOption> {
    let (node, pass) = place_of(matches)?;
    let options = verb_options(matches)?;
    let Ok(words) = copied_words(alloc, matches.get_strs("COMMAND")) else {
        return Err(BadOption::Memory);
    };
    Ok(CallLine {
        address: matches.get_str("connect"),
        node,
        pass,
        metrics: None,
        task: Task::Verb(VerbLine { words, options }),
    })
}

/// Makes the command of a line of this form.
fn command_of<'a>(alloc: Global, form: LineForm) -> Result<Command<'a>, AllocError> {
    match form {
        LineForm::Command => whole_command(alloc),
        LineForm::Verb => open_command(alloc),
        LineForm::Tool => tool_command(alloc),
    }
}

/// Returns the line of this form that the options and words make.
fn line_of<'a>(
    alloc: Global,
    form: LineForm,
    command: &mut Command<'_>,
    matches: &ArgMatches<'a>,
) -> Result<CallLine<'a>, CommandFault> {
    check_address(command, matches, "connect")?;
    match form {
        LineForm::Command => command_line(alloc, command, matches),
        LineForm::Verb => {
            check_options(alloc, command, matches)?;
            match verb_line(alloc, matches) {
                Ok(line) => Ok(line),
                Err(bad) => Err(option_fault(command, bad)),
            }
        }
        LineForm::Tool => tool_line(alloc, command, matches),
    }
}

/// Returns the line of this form that these words match.
fn matched<'a>(
    alloc: Global,
    form: LineForm,
    command: &mut Command<'a>,
    words: &'a [&'a str],
) -> Result<CallLine<'a>, CommandFault> {
    let matches = command.try_get_matches_from_mut(words)?;
    let line = line_of(alloc, form, command, &matches);
    drop(matches);
    line
}

/// Parses a command line of this form.
fn read_as<'a>(
    alloc: Global,
    form: LineForm,
    words: &'a [&'a str],
) -> Result<CallLine<'a>, CommandFault> {
    let mut command = command_of(alloc, form)?;
    let line = matched(alloc, form, &mut command, words);
    drop(command);
    line
}

impl<'a> CallLine<'a> {
    /// Parses a command line with the words of a verb for people, the program's own name first. The
    /// words of the verb are not checked yet: `verb_of` parses them.
    ///
    /// `Words` where clap finds a fault in the options, where the value of one is outside its bounds,
    /// where one has no meaning for the verb, or where the words ask for help or the version;
    /// `Memory` when out of memory.
    pub fn read_verb(alloc: Global, words: &'a [&'a str]) -> Result<Self, CommandFault> {
        read_as(alloc, LineForm::Verb, words)
    }

    /// Parses a command line, the program's own name first. Numbers are encoded as in scripts.
    ///
    /// `Words` where clap finds a fault in the options, where they do not go with the words, or where
    /// the words ask for help or the version; `Command` where the words of the command fit no script
    /// line; `Memory` where a growth was refused.
    pub fn read(alloc: Global, words: &'a [&'a str]) -> Result<Self, CommandFault> {
        let form = form_of_words(alloc, words)?;
        read_as(alloc, form, words)
    }
}
