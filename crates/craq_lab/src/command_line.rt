//! Defines the command line of `craq_lab`: its commands, help texts and parsed form; called by
//! `main`.
use clap::builder::ValueParser;
use clap::{Arg, ArgAction, ArgMatches, Command, Error};
use craq_cli::VERSION;
use craq_script::GREATEST_NODE;
use std::alloc::{AllocError, Global};

/// The history that the nodes of a chain keep.
#[derive(Clone, Copy)]
pub enum CoreKind {
    /// Every entry.
    Plain,
    /// The state after the entries known to be committed, and the other entries.
    List,
}

/// The nodes of the chain that a script is played on.
#[derive(Clone, Copy)]
pub struct Nodes {
    pub count: u32,
    pub core: CoreKind,
}

/// The parsed form of a command line.
#[derive(Clone, Copy)]
pub enum Wanted<'a> {
    /// Plays the script of this file, or of standard input, on a chain of these nodes.
    Play {
        nodes: Nodes,
        file: Option<&'a str>,
    },
    /// Plays one schedule of the script of this file, drawn by these choices.
    Draw {
        nodes: Nodes,
        file: &'a str,
        choices: &'a str,
    },
    /// Stops and removes the node of this id after each move of the script of this file.
    Stops {
        nodes: Nodes,
        file: &'a str,
        node: &'a str,
    },
    /// Draws the run of the script of this file.
    Picture {
        nodes: Nodes,
        file: &'a str,
    },
    /// Plays the script of this file, and checks the linearization witness in another file against
    /// the run.
    Check {
        nodes: Nodes,
        file: &'a str,
        explanation: &'a str,
    },
    /// The command line names no command.
    Nothing,
}

static NODE_COUNTS: [&str; 8] = ["1", "2", "3", "4", "5", "6", "7", "8"];

static CORES: [&str; 2] = ["plain", "list"];

const ABOUT: &str =
    "Plays scripts on a small replicated object store, and prints what each step does";

const LONG_ABOUT: &str =
    "Plays scripts on a small replicated object store, and prints what each step does.

The store keeps a copy of every object on each node of a chain. Updates enter at the
first node, the head, and pass from node to node; an update is committed once the last
node, the tail, has it (chain replication). Every node answers reads: where it knows of
a newer version that may not be committed yet, it asks the tail first (CRAQ).

Nothing happens by itself here: a script says what clients ask, which message arrives
when, and which node stops. So each order of events can be played, and played again.";

const PLAY_ABOUT: &str = "Play a script, and print what each of its lines does";

const PLAY_HELP: &str = "Lines of a script:
  put NODE CLIENT NUMBER OBJECT VALUE    a client asks the node to give the object a value
  append, prepend                        the same, to join the value to the object's
  tas NODE CLIENT NUMBER OBJECT VERSION VALUE    the same as put, if the object has the version
  inc, dec NODE CLIENT NUMBER OBJECT BY  to count an object of 8 bytes up or down
  mini NODE CLIENT NUMBER ITEM ..        a transaction: c:OBJECT:VERSION compares, r:OBJECT
                                         reads, w:OBJECT:VALUE writes
  read NODE MODE OBJECT                  a read: strong, eventual, or bounded:K versions ahead
  deliver M                              message M arrives
  tick NODE                              the node sends again what it has to; 0 is the master
  stop NODE, remove NODE, join NODE      a node halts; the master takes it out; a new one joins
  explain                                print the explanation of what has happened
  # ..                                   a comment
NUMBER counts a client's updates from 1. A VALUE is text, or 0x and hexadecimal digits.

Printed for each line:
  m1 1>2 entry 1         message 1 goes from node 1 to node 2: the entry at position 1
  answer 1 2 written 3   node 1 answers the ask that had ticket 2: version 3 was written
  ignored WHY            the message changed nothing
  ok                     nothing was sent or answered
  refused N              the line was refused, with nothing changed
  {\"asks\":[1],\"lens\":[0,1],\"places\":[[1,2,1]]}
                         the explanation: the moves (lines that were not refused, from 1) that
                         asked the committed updates; how many were committed after each move;
                         and for each strong answer its node, its ticket, and after how many
                         updates it stands

Refusals: 1 a key of more than 128 bytes, 2 a value of more than 4096, 3 more than 16 items
in a list of a transaction, 4 no item, 5 an object twice in a list, 6 number 0, 7 another
chain than 0, 8 two chains, 9 not the head (it follows), 10 a node that is not ready yet,
11 a stopped node, 12 more than 1024 asks would wait, 13 a counter at its greatest number,
17 not a member, 18 not stopped, 19 an id that was used, 20 a chain of 8 members, 21 the only
member, 22 no such message, 23 no such node.

Status: 0 once the script was played, whatever was refused in it; 1 with `cannot print` where
the output takes no text; 2 if nothing was played: `cannot read FILE` (`cannot read -` for
standard input), `script line N` (the first that is no line of a script), or a bad command line;
3 with `no memory` where memory was refused; 5 where a node under its lock did otherwise than the
chain, which is not known to happen: then nothing is printed. These words go to standard error.

Example:
  printf 'put 1 1 1 colour blue\\nread 1 eventual colour\\n' | craq_lab play --nodes 2";

const DRAW_ABOUT: &str = "Play one schedule of a script, and print what each step does";

const DRAW_HELP: &str =
    "At each choice one of these is played: the next line of the script, if one is left; the
arrival of each message that was sent, from the first on; a tick of each running node, by
rising id. They are counted from 0, and the choice is taken modulo their number. The schedule
ends after the last choice, or where there is nothing to play.

The last line is `valid true`, or `valid false` where the check of the explanation fails.

Status: as of play; 2 with `choices refused` for bad CHOICES.

Example:
  printf 'put 1 1 1 k a\\n' > script; craq_lab draw --nodes 2 script 0,0,1,1,6";

const STOPS_ABOUT: &str = "Stop a node after each move of a script, and print what is committed";

const STOPS_HELP: &str =
    "For each number I from 0 to that of the moves that the script takes: the script is played up to
I taken moves; then the node stops and is removed, and each message that is sent from the
removal on arrives once, in the order sent, until none is left or 10000 arrived. Printed is

  cut I committed L valid true

where L updates are committed then, and `valid false` says that the check of the explanation
fails. Status: as of play.";

const PICTURE_ABOUT: &str = "Play a script, and print a picture of what it does";

const PICTURE_HELP: &str =
    "Printed is an SVG picture, for a browser or a page: a column for the master and for each node, a row
for each move (each line that was not refused), an arrow for each message from where it was sent to where
it was taken. A message that was ignored is dotted, with the reason; one that was never delivered ends in
the air. `answer T @P` answers the ask of ticket T: a single copy answers so after the first P updates of
the list. Right of the columns stands how many updates are committed after the move.

Status: as of play.

Example:
  printf 'put 1 1 1 k a\\ndeliver 1\\ndeliver 2\\n' > script; craq_lab picture --nodes 2 script > run.svg";

const CHECK_ABOUT: &str = "Play a script, and check an explanation of what it does";

const CHECK_HELP: &str =
    "EXPLANATION is a file with an explanation as `explain` of a script prints it: an object of JSON with the
members asks, lens and places. Printed is `true` where it holds of what the script does, and `false` where
it does not: each committed update was asked, the list only grows, no request comes twice, and each strong
answer is what a single copy answers after as many updates as lens says, at some moment from its ask to
its answer.

Status: as of play; 2 where EXPLANATION is none, with the place: `not UTF-8 at byte B`, `not JSON at line L
column C`, `no array: MEMBER`, or `bad item: MEMBER[I]`, with I counted from 0.

Example:
  craq_lab play script | tail -n 1 > explanation; craq_lab check script explanation";

/// Declares `[--nodes N]`, the number of nodes of the chain.
fn nodes_arg<'a>(alloc: Global) -> Arg<'a> {
    Arg::new(alloc, "nodes")
        .long("nodes")
        .value_name("N")
        .action(ArgAction::Set)
        .value_parser(NODE_COUNTS.as_slice())
        .default_value("3")
        .help("How many nodes the chain has; they are numbered from 1, the head")
}

/// Declares `[--core CORE]`, the history that the nodes keep.
fn core_arg<'a>(alloc: Global) -> Arg<'a> {
    Arg::new(alloc, "core")
        .long("core")
        .value_name("CORE")
        .action(ArgAction::Set)
        .value_parser(CORES.as_slice())
        .default_value("list")
        .help(
            "What a node keeps: every entry (plain), or a state and the entries after it (list); both print the same",
        )
}

/// Declares a command with its texts and its first arguments, `[--nodes N] [--core CORE]`.
fn command_with_nodes<'a>(
    alloc: Global,
    name: &'a str,
    about: &'a str,
    help: &'a str,
) -> Result<Command<'a>, AllocError> {
    let command = Command::new(alloc, name)
        .about(about)
        .after_help(help)
        .arg(nodes_arg(alloc))?;
    command.arg(core_arg(alloc))
}

/// Declares the required argument `FILE`.
fn script_arg<'a>(alloc: Global) -> Arg<'a> {
    Arg::new(alloc, "FILE").required(true).help("The script")
}

/// Declares `play [--nodes N] [--core CORE] [FILE]`.
fn play_command<'a>(alloc: Global) -> Result<Command<'a>, AllocError> {
    let command = command_with_nodes(alloc, "play", PLAY_ABOUT, PLAY_HELP)?;
    let file = Arg::new(alloc, "FILE").help("The script; without it, standard input is played");
    command.arg(file)
}

/// Declares `draw [--nodes N] [--core CORE] FILE CHOICES`.
fn draw_command<'a>(alloc: Global) -> Result<Command<'a>, AllocError> {
    let command = command_with_nodes(alloc, "draw", DRAW_ABOUT, DRAW_HELP)?;
    let command = command.arg(script_arg(alloc))?;
    let choices = Arg::new(alloc, "CHOICES")
        .required(true)
        .help("Numbers of 32 bits, parted by commas");
    command.arg(choices)
}

/// Declares `stops [--nodes N] [--core CORE] FILE NODE`.
fn stops_command<'a>(alloc: Global) -> Result<Command<'a>, AllocError> {
    let command = command_with_nodes(alloc, "stops", STOPS_ABOUT, STOPS_HELP)?;
    let command = command.arg(script_arg(alloc))?;
    let node = Arg::new(alloc, "NODE")
        .required(true)
        .value_parser(ValueParser::unsigned(0, GREATEST_NODE))
        .help("The id of the node that stops");
    command.arg(node)
}

/// Declares `picture [--nodes N] [--core CORE] FILE`.
fn picture_command<'a>(alloc: Global) -> Result<Command<'a>, AllocError> {
    let command = command_with_nodes(alloc, "picture", PICTURE_ABOUT, PICTURE_HELP)?;
    command.arg(script_arg(alloc))
}

/// Declares `check [--nodes N] [--core CORE] FILE EXPLANATION`.
fn check_command<'a>(alloc: Global) -> Result<Command<'a>, AllocError> {
    let command = command_with_nodes(alloc, "check", CHECK_ABOUT, CHECK_HELP)?;
    let command = command.arg(script_arg(alloc))?;
    let explanation = Arg::new(alloc, "EXPLANATION")
        .required(true)
        .help("The explanation, as JSON");
    command.arg(explanation)
}

/// Declares `craq_lab COMMAND ..` without its commands.
fn bare_command<'a>(alloc: Global) -> Command<'a> {
    Command::new(alloc, "craq_lab")
        .version(VERSION)
        .about(ABOUT)
        .long_about(LONG_ABOUT)
        .subcommand_required(true)
        .arg_required_else_help(true)
}

/// Declares `craq_lab COMMAND ..`.
fn whole_command<'a>(alloc: Global) -> Result<Command<'a>, AllocError> {
    let play = play_command(alloc)?;
    let command = bare_command(alloc).subcommand(play)?;
    with_schedules(alloc, command)
}

/// Adds all commands except `play`.
fn with_schedules<'a>(alloc: Global, command: Command<'a>) -> Result<Command<'a>, AllocError> {
    let draw = draw_command(alloc)?;
    let command = command.subcommand(draw)?;
    with_stops(alloc, command)
}

/// Adds `stops`, and the commands for a whole run.
fn with_stops<'a>(alloc: Global, command: Command<'a>) -> Result<Command<'a>, AllocError> {
    let stops = stops_command(alloc)?;
    let command = command.subcommand(stops)?;
    with_picture(alloc, command)
}

/// Adds `picture` and `check`.
fn with_picture<'a>(alloc: Global, command: Command<'a>) -> Result<Command<'a>, AllocError> {
    let picture = picture_command(alloc)?;
    let command = command.subcommand(picture)?;
    with_check(alloc, command)
}

/// Adds `check`.
fn with_check<'a>(alloc: Global, command: Command<'a>) -> Result<Command<'a>, AllocError> {
    let check = check_command(alloc)?;
    command.subcommand(check)
}

/// Returns the nodes that the words after a command's name give: 3 nodes and the core `list` by
/// default.
fn nodes_of(given: &ArgMatches<'_>) -> Nodes {
    let core = match given.get_str("core") {
        Some("plain") => CoreKind::Plain,
        _ => CoreKind::List,
    };
    Nodes {
        count: given.get_one::<u32>("nodes").unwrap_or(3),
        core,
    }
}

/// Returns the parsed form of a command and the words after its name.
fn wanted_of<'a>(name: &str, given: &ArgMatches<'a>) -> Wanted<'a> {
    let nodes = nodes_of(given);
    let file = given.get_str("FILE");
    match name {
        "draw" => Wanted::Draw {
            nodes,
            file: file.unwrap_or(""),
            choices: given.get_str("CHOICES").unwrap_or(""),
        },
        "stops" => Wanted::Stops {
            nodes,
            file: file.unwrap_or(""),
            node: given.get_str("NODE").unwrap_or(""),
        },
        "picture" => Wanted::Picture {
            nodes,
            file: file.unwrap_or(""),
        },
        "check" => Wanted::Check {
            nodes,
            file: file.unwrap_or(""),
            explanation: given.get_str("EXPLANATION").unwrap_or(""),
        },
        _ => Wanted::Play { nodes, file },
    }
}

/// Parses the words of a command line, the program's own name included. Otherwise returns clap's
/// error, which may be the help or version that was requested.
pub fn wanted_by<'a>(alloc: Global, words: &'a [&'a str]) -> Result<Wanted<'a>, Error> {
    let command = whole_command(alloc)?;
    let matches = command.try_get_matches_from(words)?;
    match matches.subcommand() {
        Some((name, given)) => Ok(wanted_of(name, given)),
        None => Ok(Wanted::Nothing),
    }
}
