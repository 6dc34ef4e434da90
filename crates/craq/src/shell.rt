//! `craq shell`: a prompt that asks one command after another, and shows each the passes of those
//! before; called by `main`.
use crate::calling::{Asker, Shown, explain, shown_over};
use crate::fault::{Fault, IdSource, REFUSED};
use crate::link::ServerLink;
use crate::output::ValueEnd;
use crate::people::{Setting, run_verb};
use crate::session::PromptState;
use craq_cli::{
    BadWord, CallLine, CommandFault, Expected, Request, Task, UsageError, VERSION, is_verb,
    report_words, request_of,
};
use craq_names::NodeId;
use craq_script::{GREATEST_NODE, number_up_to};
use std::alloc::{AllocError, Global};
use std::env::Env;
use std::io::ErrorKind;
use std::net::{Net, TcpListener, TcpStream};
use std::random::RandomSource;
use std::rt::Files;
use std::sync::Wait;
use std::time::Clock;

/// The text of `help`.
const HELP: &str = "set KEY VALUE                              give the object a value
get KEY                                    its value; with --json, --hex, --decimal
cas KEY VERSION VALUE                      write, if the object has the version
append, prepend KEY VALUE                  join the value to the end or the front
add, sub KEY [BY]                          count the number in the object's 8 bytes up or down
txn ITEM ..                                a transaction: c:KEY:VERSION, r:KEY, w:KEY:VALUE
members, health                            the chains; the times of one, --chain NAME
put CLIENT NUMBER OBJECT VALUE             give the object a value
tas CLIENT NUMBER OBJECT VERSION VALUE     the same, if the object has the version
append, prepend CLIENT NUMBER OBJECT VALUE join the value to the end or the front
inc, dec CLIENT NUMBER OBJECT BY           count an object of 8 bytes up or down
mini CLIENT NUMBER ITEM ..                 a transaction: c:OBJECT:VERSION, r:OBJECT, w:OBJECT:VALUE
read MODE OBJECT                           MODE is strong, eventual, or bounded:K
status                                     the chains, their epochs and members
node N                                     ask node N from now on
pass                                       the largest pass so far, which each request shows
history                                    the lines so far, by number
!K                                         line K again
help, quit                                 this text; the end
";

/// The standard streams that are terminals.
#[derive(Clone, Copy)]
pub struct Terminals {
    pub input: bool,
    pub output: bool,
    pub errors: bool,
}

/// An open prompt.
#[derive(Drop)]
struct OpenPrompt<'a> {
    /// The node that is asked, the pass, and the lines so far.
    session: PromptState<'a>,
    /// The connection.
    link: ServerLink<'a>,
}

/// The way in which lines are entered.
#[derive(Clone, Copy, Debug, PartialEq, Eq)]
enum InputMode {
    /// At a terminal, behind a prompt.
    Prompted,
    /// From a file or a pipe.
    Piped,
}

/// A line of the prompt, read.
#[derive(Clone, Copy, Debug, PartialEq, Eq)]
enum Said {
    Nothing,
    Help,
    Quit,
    History,
    Pass,
    Node,
    /// A word of the prompt with further words, of which it takes none.
    TooLong,
    Command,
    Verb,
}

/// Returns true for a number of 64 bits in decimal digits.
fn is_number(word: &str) -> bool {
    number_up_to(u64::MAX, word.as_bytes()).is_ok()
}

/// Returns true for a command whose name a verb has too: `append` or `prepend`, with CLIENT NUMBER
/// OBJECT VALUE behind it.
fn is_shared_command(words: &[&str]) -> bool {
    let ["append" | "prepend", client, number, _, _] = *words else {
        return false;
    };
    is_number(client) && is_number(number)
}

/// Returns the meaning of a word of the prompt that stands alone; `None` for any other word.
fn own_meaning(word: &str) -> Option<Said> {
    match word {
        "help" => Some(Said::Help),
        "quit" | "exit" => Some(Said::Quit),
        "history" => Some(Said::History),
        "pass" => Some(Said::Pass),
        _ => None,
    }
}

/// Reads a line by its words.
fn meaning_of(words: &[&str]) -> Said {
    let Some(first) = words.first() else {
        return Said::Nothing;
    };
    if *first == "node" {
        return Said::Node;
    }
    if is_verb(first) && !is_shared_command(words) {
        return Said::Verb;
    }
    match own_meaning(first) {
        Some(_) if words.len() > 1 => Said::TooLong,
        Some(own) => own,
        None => Said::Command,
    }
}

/// Prints a text.
fn print_text<R: Print>(rt: &R, text: &str) -> Result<(), Fault> {
    match print!(rt; "{text}") {
        Ok(()) => Ok(()),
        Err(error) => Err(Fault::CannotPrint(error)),
    }
}

/// Prints what was wrong with a line.
fn print_wrong<R: Eprint>(rt: &R, reported: &str) -> Result<(), Fault> {
    match eprintln!(rt; "error: {reported}") {
        Ok(()) => Ok(()),
        Err(error) => Err(Fault::CannotPrint(error)),
    }
}

/// Prints what is wrong with the options of a verb, or the help that they ask for.
fn print_unread<R: Print + Eprint>(rt: &R, fault: &CommandFault) -> Result<(), Fault> {
    let (CommandFault::Words(error) | CommandFault::Command(error)) = fault else {
        return Err(Fault::Memory);
    };
    match report_words(rt, error, REFUSED) {
        Ok(_) => Ok(()),
        Err(error) => Err(Fault::CannotPrint(error)),
    }
}

/// Runs a verb for people that was parsed, and shows its pass from now on.
fn run_call<R>(rt: &R, open: &mut OpenPrompt<'_>, line: &CallLine<'_>) -> Result<(), Fault>
where
    R: AllocGlobal + Env + Files + RandomSource + Input + Print + Eprint + Clock + Wait,
    R: Net<Listener = TcpListener, Stream = TcpStream>,
{
    let Task::Verb(verb) = &line.task else {
        return Ok(());
    };
    if line.address.is_some() {
        return print_wrong(
            rt,
            "the prompt stays at its server: --connect stands before it",
        );
    }
    let mut setting = Setting {
        node: line.node,
        pass: open.session.asker().pass.join(line.pass),
        value_end: ValueEnd::LineFeed,
        reads_input: false,
    };
    let ran = run_verb(rt, &mut open.link, &mut setting, verb);
    open.session.note_pass(setting.pass);
    match ran {
        Ok(_status) => Ok(()),
        Err(Fault::BadId(source)) => print_bad_id(rt, source),
        Err(fault) => Err(fault),
    }
}

/// Prints that what should be a client's id is none.
fn print_bad_id<R: Eprint>(rt: &R, source: IdSource) -> Result<(), Fault> {
    match Fault::BadId(source).report(rt) {
        Ok(_status) => Ok(()),
        Err(error) => Err(Fault::CannotPrint(error)),
    }
}

/// Runs a verb for people.
fn run_verb_line<R>(rt: &R, open: &mut OpenPrompt<'_>, words: &[&str]) -> Result<(), Fault>
where
    R: AllocGlobal + Env + Files + RandomSource + Input + Print + Eprint + Clock + Wait,
    R: Net<Listener = TcpListener, Stream = TcpStream>,
{
    let mut whole = Vec::new(rt.alloc());
    whole.push("craq")?;
    for word in words {
        whole.push(*word)?;
    }
    match CallLine::read_verb(rt.alloc(), whole.as_slice()) {
        Ok(line) => run_call(rt, open, &line),
        Err(fault) => print_unread(rt, &fault),
    }
}

/// Sends the request of a command's words, and prints the answer or the fault. Fails, and ends the
/// prompt, only if the output takes no text or when out of memory.
fn ask<R>(rt: &R, open: &mut OpenPrompt<'_>, words: &[&str]) -> Result<(), Fault>
where
    R: AllocGlobal + Print + Eprint + Clock + Net<Listener = TcpListener, Stream = TcpStream>,
{
    match request_of(rt.alloc(), open.session.asker().node, words) {
        Ok(request) => ask_for(rt, open, &request),
        Err(UsageError::Memory) => Err(Fault::Memory),
        Err(UsageError::Bad(bad)) => print_bad(rt, &bad, words),
    }
}

/// Sends a request, and prints the answer, or that there is no connection.
fn ask_for<R>(rt: &R, open: &mut OpenPrompt<'_>, request: &Request) -> Result<(), Fault>
where
    R: AllocGlobal + Print + Eprint + Clock + Net<Listener = TcpListener, Stream = TcpStream>,
{
    let asker = open.session.asker();
    match shown_over(rt, &mut open.link, &asker, request) {
        Ok(shown) => print_shown(rt, &mut open.session, &shown),
        Err(Fault::Connection) => print_wrong(rt, "connection"),
        Err(fault) => Err(fault),
    }
}

/// Prints an answer, and shows its pass from now on.
fn print_shown<R: Print + Eprint>(
    rt: &R,
    session: &mut PromptState<'_>,
    shown: &Shown,
) -> Result<(), Fault> {
    if let Some(pass) = shown.pass {
        session.note_pass(pass);
    }
    print_text(rt, shown.text.as_str())?;
    explain(rt, shown)
}

/// The error for a word behind a prompt command that takes none.
const NO_MORE_WORDS: BadWord = BadWord {
    place: 1,
    expected: Expected::End,
};

/// Prints the word of a line that is not the one expected there.
fn print_bad<R: AllocGlobal + Eprint>(rt: &R, bad: &BadWord, words: &[&str]) -> Result<(), Fault> {
    let reported = bad.reported(rt.alloc(), words)?;
    print_wrong(rt, reported.as_str())
}

/// Sets the node that is asked from now on to the one that the words name.
fn ask_node<R: Eprint>(rt: &R, session: &mut PromptState<'_>, words: &[&str]) -> Result<(), Fault> {
    let [_, word] = *words else {
        return print_wrong(rt, "expected node N");
    };
    match number_up_to(GREATEST_NODE, word.as_bytes()) {
        Ok(node) => {
            session.ask_node(NodeId::new(node as u32));
            Ok(())
        }
        Err(_) => print_wrong(rt, "expected node N with a number of 32 bits"),
    }
}

/// Prints the lines so far.
fn print_history<R: Print>(rt: &R, session: &PromptState<'_>) -> Result<(), Fault> {
    for (index, line) in session.lines().iter().enumerate() {
        let number = index as u64 + 1;
        let line = line.as_str();
        if let Err(error) = println!(rt; "{number:>5}  {line}") {
            return Err(Fault::CannotPrint(error));
        }
    }
    Ok(())
}

/// Prints the pass that is shown.
fn print_pass<R: Print>(rt: &R, session: &PromptState<'_>) -> Result<(), Fault> {
    let pass = session.asker().pass.stamp().get();
    match println!(rt; "pass {pass}") {
        Ok(()) => Ok(()),
        Err(error) => Err(Fault::CannotPrint(error)),
    }
}

/// Returns the line that `!K` names, or `None` if there is no such line.
fn line_of_number<'b>(session: &'b PromptState<'_>, number: &str) -> Option<&'b String> {
    let Ok(number) = number_up_to(u64::MAX, number.as_bytes()) else {
        return None;
    };
    if number == 0 {
        return None;
    }
    session.lines().get((number - 1) as usize)
}

/// Returns the line that an entered one means, without blanks at its ends, or `None` if it names a
/// line that there is not.
fn meant(
    alloc: Global,
    session: &PromptState<'_>,
    entered: &str,
) -> Result<Option<String>, AllocError> {
    let line = entered.trim();
    let Some(number) = line.strip_prefix("!") else {
        return Ok(Some(String::from_str(alloc, line)?));
    };
    match line_of_number(session, number) {
        Some(line) => Ok(Some(String::from_str(alloc, line.as_str())?)),
        None => Ok(None),
    }
}

/// Runs the words of a line. Returns whether the prompt is over.
fn run_words<R>(rt: &R, open: &mut OpenPrompt<'_>, words: &[&str]) -> Result<bool, Fault>
where
    R: AllocGlobal + Env + Files + RandomSource + Input + Print + Eprint + Clock + Wait,
    R: Net<Listener = TcpListener, Stream = TcpStream>,
{
    match meaning_of(words) {
        Said::Nothing => {}
        Said::Help => print_text(rt, HELP)?,
        Said::Quit => return Ok(true),
        Said::History => print_history(rt, &open.session)?,
        Said::Pass => print_pass(rt, &open.session)?,
        Said::Node => ask_node(rt, &mut open.session, words)?,
        Said::TooLong => print_bad(rt, &NO_MORE_WORDS, words)?,
        Said::Command => ask(rt, open, words)?,
        Said::Verb => run_verb_line(rt, open, words)?,
    }
    Ok(false)
}

/// Runs a line. Returns whether the prompt is over.
fn run_line<R>(rt: &R, open: &mut OpenPrompt<'_>, line: &str) -> Result<bool, Fault>
where
    R: AllocGlobal + Env + Files + RandomSource + Input + Print + Eprint + Clock + Wait,
    R: Net<Listener = TcpListener, Stream = TcpStream>,
{
    let words: Vec<&str> = line.split_whitespace().collect(rt.alloc())?;
    run_words(rt, open, words.as_slice())
}

/// Runs the line that an entered one means, and keeps it. Returns whether the prompt is over.
fn run_entered<R>(rt: &R, open: &mut OpenPrompt<'_>, entered: &str) -> Result<bool, Fault>
where
    R: AllocGlobal + Env + Files + RandomSource + Input + Print + Eprint + Clock + Wait,
    R: Net<Listener = TcpListener, Stream = TcpStream>,
{
    let Some(line) = meant(rt.alloc(), &open.session, entered)? else {
        print_wrong(rt, "there is no such line in the history")?;
        return Ok(false);
    };
    let is_over = run_line(rt, open, line.as_str())?;
    if !line.is_empty() {
        open.session.keep(line)?;
    }
    Ok(is_over)
}

/// The outcome of a read of one line.
#[derive(Drop)]
enum Entered {
    /// A line.
    Line(String),
    /// A line that is not UTF-8. The next read takes the line behind it.
    NotText,
    /// The end of the input.
    End,
}

/// Reads the next line of the input.
fn next_line<R: AllocGlobal + Input>(rt: &R) -> Result<Entered, Fault> {
    let mut entered = String::new(rt.alloc());
    match rt.read_line(&mut entered) {
        Ok(0) => Ok(Entered::End),
        Ok(_) => Ok(Entered::Line(entered)),
        Err(error) => match error.kind() {
            ErrorKind::OutOfMemory => Err(Fault::Memory),
            ErrorKind::InvalidData => Ok(Entered::NotText),
            _ => Err(Fault::System),
        },
    }
}

/// Prints the node that is asked, and how to get help.
fn greet<R: Print>(rt: &R, asker: &Asker<'_>) -> Result<(), Fault> {
    let (address, node) = (asker.address, asker.node.get());
    match println!(rt; "craq {VERSION} asks node {node} at {address}; help tells the commands") {
        Ok(()) => Ok(()),
        Err(error) => Err(Fault::CannotPrint(error)),
    }
}

/// Returns the way in which lines are entered.
fn entry_at(terminals: Terminals) -> InputMode {
    if terminals.input {
        InputMode::Prompted
    } else {
        InputMode::Piped
    }
}

/// Takes lines until one ends the prompt or there are no more. All requests go over one connection,
/// which is made again after a fault. The prompt itself, and what stands around it, is printed for a
/// terminal alone.
pub fn shell<R>(
    rt: &R,
    link: ServerLink<'_>,
    asker: &Asker<'_>,
    terminals: Terminals,
) -> Result<u8, Fault>
where
    R: AllocGlobal + Env + Files + RandomSource + Input + Print + Eprint + Clock + Wait,
    R: Net<Listener = TcpListener, Stream = TcpStream>,
{
    if terminals.input {
        greet(rt, asker)?;
    }
    let mut open = OpenPrompt {
        session: PromptState::new(rt.alloc(), asker),
        link,
    };
    let taken = take_lines(rt, &mut open, entry_at(terminals));
    drop(open);
    taken?;
    Ok(0)
}

/// Takes lines until one ends the prompt or there are no more.
fn take_lines<R>(rt: &R, open: &mut OpenPrompt<'_>, entry: InputMode) -> Result<(), Fault>
where
    R: AllocGlobal + Env + Files + RandomSource + Input + Print + Eprint + Clock + Wait,
    R: Net<Listener = TcpListener, Stream = TcpStream>,
{
    for _ in 0..u64::MAX {
        if entry == InputMode::Prompted {
            print_text(rt, "craq> ")?;
        }
        match next_line(rt)? {
            Entered::Line(entered) => {
                let run = run_entered(rt, open, entered.as_str());
                drop(entered);
                if run? {
                    break;
                }
            }
            Entered::NotText => print_wrong(rt, "the line is not text in UTF-8")?,
            Entered::End => {
                return print_text(
                    rt,
                    if entry == InputMode::Prompted {
                        "\n"
                    } else {
                        ""
                    },
                );
            }
        }
    }
    Ok(())
}
