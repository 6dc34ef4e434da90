//! Runs a verb for people: parses its words, asks, and prints the reply or the fault in words;
//! called by `main` and `shell`.
use crate::asking::{Target, Unanswered, answered, known_chains};
use crate::calling::message_in;
use crate::chains::id_of_word;
use crate::deadline::Deadline;
use crate::fault::Fault;
use crate::health::{OutputForm, examine};
use crate::identity::{client_id, nanoseconds};
use crate::link::{Failure, ServerLink};
use crate::output::{ValueEnd, chains_json, chains_text, reply_json, reply_text};
use crate::quoting::{push_shown, push_word};
use crate::reporting::{print_json, report_failure, tell, write_out};
use craq_cli::{
    BAD_INPUT, BadWord, Request, UsageError, ValueForm, Verb, VerbContext, VerbLine, raw_bytes,
    verb_of,
};
use craq_commands::Reply;
use craq_frames::ClientReply;
use craq_names::{ChainId, ClientId, NodeId, Pass, Refusal};
use std::alloc::{AllocError, Global};
use std::env::Env;
use std::io::Read;
use std::net::{Net, TcpListener, TcpStream};
use std::random::RandomSource;
use std::rt::Files;
use std::sync::Wait;
use std::time::Clock;

/// The status if an update was answered and wrote nothing.
const NOT_WRITTEN: u8 = 5;

/// The status if an object was never written.
const ABSENT: u8 = 6;

/// The most bytes that are read from standard input: a value of 4,096 bytes in hexadecimal digits,
/// and one more by which a longer one shows.
const MOST_INPUT: u64 = 8193;

/// The most numbers that are tried for an update whose number was not given.
const MOST_NUMBERS: u32 = 8;

/// The setting of a verb.
#[derive(Clone, Copy, Debug)]
pub struct Setting {
    /// The node that the options name.
    pub node: Option<NodeId>,
    /// The largest pass that was received so far.
    pub pass: Pass,
    /// The end of a value that is printed as it is.
    pub value_end: ValueEnd,
    /// True if a value `-` is read from standard input.
    pub reads_input: bool,
}

/// A verb: its line, the bytes of its words, and the time at which it is given up.
#[derive(Clone, Copy)]
struct Words<'b> {
    line: &'b VerbLine<'b>,
    bytes: &'b [&'b [u8]],
    deadline: Deadline,
}

/// The reason that nothing is asked.
#[derive(Clone, Copy, Debug, PartialEq, Eq)]
enum Wrong {
    Memory,
    /// A word is not what is expected.
    Word(BadWord),
    /// A key, a value or a transaction is outside its limits.
    Limit(Refusal),
}

/// The client of an update, and its number.
#[derive(Clone, Copy, Debug)]
struct UpdateId {
    client: u64,
    number: u64,
}

/// The state of an update after one number was tried.
#[derive(Clone, Copy, Debug)]
enum NumberOutcome {
    /// The update is over; this is the status.
    Over(u8),
    /// The number was never used for it; the next one lies above this number.
    Above(u64),
}

/// The kind of a verb.
#[derive(Clone, Copy, Debug, PartialEq, Eq)]
enum VerbKind {
    Update,
    Read,
    Members,
    Health,
}

/// Returns the place of the word that is a value: `None` for verbs without one.
fn value_place(verb: &str) -> Option<usize> {
    match verb {
        "set" | "append" | "prepend" => Some(2),
        "cas" => Some(3),
        _ => None,
    }
}

/// Reads a value from standard input. A last line feed belongs to it.
fn input_bytes<R: AllocGlobal + Input>(rt: &R) -> Result<Vec<u8>, Fault> {
    let mut bytes = Vec::new(rt.alloc());
    match rt.reader().take(MOST_INPUT).read_to_end(&mut bytes) {
        Ok(_) => Ok(bytes),
        Err(error) if error.kind() == std::io::ErrorKind::OutOfMemory => Err(Fault::Memory),
        Err(_) => Err(Fault::System),
    }
}

/// Returns the place of the value that is read from standard input; `None` if there is none.
fn input_place(setting: &Setting, words: &[&str]) -> Option<usize> {
    if !setting.reads_input {
        return None;
    }
    let place = value_place(words.first()?)?;
    if *words.get(place)? == "-" {
        Some(place)
    } else {
        None
    }
}

/// Returns the bytes of the words, a value `-` read from standard input.
fn bytes_of_words<R: AllocGlobal + Input>(
    rt: &R,
    setting: &Setting,
    words: &[&str],
) -> Result<Vec<Vec<u8>>, Fault> {
    let input = input_place(setting, words);
    let mut all = Vec::new(rt.alloc());
    for (place, word) in words.iter().enumerate() {
        let bytes = if input == Some(place) {
            input_bytes(rt)?
        } else {
            raw_bytes(rt.alloc(), word)?
        };
        all.push(bytes)?;
    }
    Ok(all)
}

/// Returns the kind of a verb.
fn kind_of(verb: &Verb) -> VerbKind {
    match verb {
        Verb::Ask(Request::Read { .. }) => VerbKind::Read,
        Verb::Ask(_) => VerbKind::Update,
        Verb::Members => VerbKind::Members,
        Verb::Health => VerbKind::Health,
    }
}

/// Returns the text about a wrong value that was read from standard input. Fails only when out of
/// memory.
fn input_reported(alloc: Global, bad: &BadWord, bytes: &[u8]) -> Result<String, AllocError> {
    let mut input = String::new(alloc);
    push_shown(&mut input, bytes)?;
    let alone = BadWord {
        place: 0,
        expected: bad.expected,
    };
    alone.reported(alloc, &[input.as_str()])
}

/// Prints which word of a verb is not what is expected; instead of a word `-` what was read from
/// standard input. Returns the status.
fn report_bad<R: AllocGlobal + Eprint>(
    rt: &R,
    setting: &Setting,
    words: Words<'_>,
    bad: &BadWord,
) -> Result<u8, Fault> {
    let given = words.line.words.as_slice();
    let is_input = input_place(setting, given) == Some(bad.place);
    let reported = match words.bytes.get(bad.place) {
        Some(bytes) if is_input => input_reported(rt.alloc(), bad, bytes)?,
        _ => bad.reported(rt.alloc(), given)?,
    };
    tell(rt, reported.as_str())?;
    Ok(BAD_INPUT)
}

/// Prints which limit a key, a value or a transaction exceeds. Returns the status.
fn report_limit<R: Eprint>(rt: &R, refusal: Refusal) -> Result<u8, Fault> {
    match eprintln!(rt; "craq: {refusal}") {
        Ok(()) => Ok(BAD_INPUT),
        Err(error) => Err(Fault::CannotPrint(error)),
    }
}

/// Returns the command that asks an update again under its number.
fn again_command(
    alloc: Global,
    link: &ServerLink<'_>,
    setting: &Setting,
    words: Words<'_>,
    named: UpdateId,
) -> Result<String, AllocError> {
    let (client, number) = (named.client, named.number);
    let mut text = format!(in alloc; "craq --client {client} --number {number} --connect")?;
    push_word(&mut text, alloc, link.address())?;
    if let Some(chain) = words.line.options.chain {
        text.push_str(" --chain")?;
        push_word(&mut text, alloc, chain)?;
    }
    if let Some(node) = setting.node {
        let node = node.get();
        write!(text, " --node {node}")?;
    }
    match words.line.options.form {
        ValueForm::Bytes => {}
        ValueForm::Hexadecimal => text.push_str(" --hex")?,
        ValueForm::Decimal => text.push_str(" --decimal")?,
    }
    text.push_str(" --")?;
    for word in &words.line.words {
        push_word(&mut text, alloc, word)?;
    }
    Ok(text)
}

/// Prints the command that asks an update again, which may have been done.
fn report_open<R: AllocGlobal + Eprint>(
    rt: &R,
    link: &ServerLink<'_>,
    setting: &Setting,
    words: Words<'_>,
    named: UpdateId,
) -> Result<(), Fault> {
    let again = again_command(rt.alloc(), link, setting, words, named)?;
    let again = again.as_str();
    match eprintln!(rt;
        "craq: it may have been done. This asks it again, and it is done once:\n  {again}"
    ) {
        Ok(()) => Ok(()),
        Err(error) => Err(Fault::CannotPrint(error)),
    }
}

/// Returns what the words of a verb do not name.
fn context_of(line: &VerbLine<'_>, chain: ChainId, named: UpdateId) -> VerbContext {
    VerbContext {
        chain,
        client: ClientId::new(named.client),
        number: named.number,
        mode: line.options.mode,
        form: line.options.form,
    }
}

/// Checks the words, and returns the kind of the verb.
fn check(alloc: Global, words: Words<'_>) -> Result<VerbKind, Wrong> {
    let named = UpdateId {
        client: 0,
        number: words.line.options.number.unwrap_or(1),
    };
    let context = context_of(words.line, ChainId::new(0), named);
    let verb = match verb_of(alloc, &context, words.bytes) {
        Ok(verb) => verb,
        Err(UsageError::Memory) => return Err(Wrong::Memory),
        Err(UsageError::Bad(bad)) => return Err(Wrong::Word(bad)),
    };
    check_limits(alloc, &verb)?;
    Ok(kind_of(&verb))
}

/// Checks the limits of the verb's keys, values and items.
fn check_limits(alloc: Global, verb: &Verb) -> Result<(), Wrong> {
    let Verb::Ask(request) = verb else {
        return Ok(());
    };
    match message_in(alloc, NodeId::new(0), Pass::start(), request) {
        Ok(_message) => Ok(()),
        Err(Refusal::Memory) => Err(Wrong::Memory),
        Err(refusal) => Err(Wrong::Limit(refusal)),
    }
}

/// Returns the request of a verb whose words were checked.
fn request_of(
    alloc: Global,
    words: Words<'_>,
    chain: ChainId,
    named: UpdateId,
) -> Result<Request, Fault> {
    let context = context_of(words.line, chain, named);
    match verb_of(alloc, &context, words.bytes) {
        Ok(Verb::Ask(request)) => Ok(request),
        Err(UsageError::Memory) => Err(Fault::Memory),
        _ => Err(Fault::System),
    }
}

/// Returns the pass of a reply, if it has one.
fn pass_of(reply: &ClientReply) -> Option<Pass> {
    match reply {
        ClientReply::Update { pass, reply: _ } => Some(*pass),
        ClientReply::Read {
            pass,
            version: _,
            value: _,
        } => Some(*pass),
        _ => None,
    }
}

/// Returns the largest number that is kept, if the reply says that the number was too small.
fn stale_of(reply: &ClientReply) -> Option<u64> {
    match reply {
        ClientReply::Update {
            pass: _,
            reply: Reply::Stale(last),
        } => Some(last.get()),
        _ => None,
    }
}

/// Returns the status of a reply.
fn status_of(reply: &ClientReply) -> u8 {
    match reply {
        ClientReply::Update { pass: _, reply } => match reply {
            Reply::Written(_) | Reply::Done(_) => 0,
            _ => NOT_WRITTEN,
        },
        ClientReply::Read {
            pass: _,
            version,
            value: _,
        } => { if version.get() == 0 { ABSENT } else { 0 } }
        _ => 0,
    }
}

/// Prints a reply. Returns the status.
fn print_reply<R: AllocGlobal + Print + Eprint>(
    rt: &R,
    setting: &Setting,
    line: &VerbLine<'_>,
    reply: &ClientReply,
) -> Result<u8, Fault> {
    let status = status_of(reply);
    if line.options.is_json {
        let members = reply_json(rt.alloc(), reply, line.options.form)?;
        print_json(rt, members.as_str(), setting.pass)?;
        return Ok(status);
    }
    let text = reply_text(rt.alloc(), reply, &line.options, setting.value_end)?;
    write_out(rt, text.as_slice())?;
    if line.options.prints_pass {
        let pass = setting.pass.stamp().get();
        let text = format!(in rt.alloc(); "pass {pass}\n")?;
        write_out(rt, text.as_str().as_bytes())?;
    }
    if status == ABSENT {
        tell(rt, "absent: the object was never written")?;
    }
    Ok(status)
}

/// Raises the pass to that of the reply, and prints the reply. Returns the status.
fn show<R: AllocGlobal + Print + Eprint>(
    rt: &R,
    setting: &mut Setting,
    line: &VerbLine<'_>,
    reply: &ClientReply,
) -> Result<u8, Fault> {
    if let Some(pass) = pass_of(reply) {
        setting.pass = setting.pass.join(pass);
    }
    print_reply(rt, setting, line, reply)
}

/// Returns the target of a verb's requests.
fn target_of<R: Clock>(
    rt: &R,
    setting: &Setting,
    words: Words<'_>,
    chain: ChainId,
) -> Result<Target, Fault> {
    Ok(Target {
        deadline: words.deadline,
        pass: setting.pass,
        chain,
        pinned: setting.node,
        head: None,
        seed: nanoseconds(rt)?,
    })
}

/// Asks a read, and prints the reply. Returns the status.
fn read<R>(
    rt: &R,
    link: &mut ServerLink<'_>,
    setting: &mut Setting,
    words: Words<'_>,
    chain: ChainId,
) -> Result<u8, Fault>
where
    R: AllocGlobal + Print + Eprint + Clock + Wait,
    R: Net<Listener = TcpListener, Stream = TcpStream>,
{
    let named = UpdateId {
        client: 0,
        number: 1,
    };
    let mut target = target_of(rt, setting, words, chain)?;
    let request = request_of(rt.alloc(), words, chain, named)?;
    let asked = answered(rt, link, &mut target, &request);
    drop(request);
    match asked {
        Ok((reply, _)) => show(rt, setting, words.line, &reply),
        Err(unanswered) => report_failure(rt, link, unanswered.failure),
    }
}

/// Prints why an update was not answered, and how it is asked again if it may have been done.
/// Returns the status.
fn report_unanswered<R: AllocGlobal + Eprint>(
    rt: &R,
    link: &ServerLink<'_>,
    setting: &Setting,
    words: Words<'_>,
    update: (UpdateId, Unanswered),
) -> Result<u8, Fault> {
    let (named, unanswered) = update;
    let status = report_failure(rt, link, unanswered.failure)?;
    if unanswered.is_open {
        report_open(rt, link, setting, words, named)?;
    }
    Ok(status)
}

/// Asks an update under a number, and prints the reply or the fault.
fn update_as<R>(
    rt: &R,
    link: &mut ServerLink<'_>,
    setting: &mut Setting,
    words: Words<'_>,
    update: (ChainId, UpdateId),
) -> Result<NumberOutcome, Fault>
where
    R: AllocGlobal + Print + Eprint + Clock + Wait,
    R: Net<Listener = TcpListener, Stream = TcpStream>,
{
    let (chain, named) = update;
    let mut target = target_of(rt, setting, words, chain)?;
    let request = request_of(rt.alloc(), words, chain, named)?;
    let asked = answered(rt, link, &mut target, &request);
    drop(request);
    match asked {
        Ok((reply, is_open)) => judge(rt, link, setting, words, (named, &reply, is_open)),
        Err(unanswered) => {
            let update = (named, unanswered);
            Ok(NumberOutcome::Over(report_unanswered(rt, link, setting, words, update)?))
        }
    }
}

/// Prints the reply to an update, unless its fresh number was too small. `is_open` is true if an
/// earlier try may have done the update.
fn judge<R>(
    rt: &R,
    link: &ServerLink<'_>,
    setting: &mut Setting,
    words: Words<'_>,
    replied: (UpdateId, &ClientReply, bool),
) -> Result<NumberOutcome, Fault>
where
    R: AllocGlobal + Print + Eprint,
{
    let (named, reply, is_open) = replied;
    let stale = stale_of(reply);
    if let (Some(last), None, false) = (stale, words.line.options.number, is_open) {
        return Ok(NumberOutcome::Above(last));
    }
    if stale.is_some() && is_open {
        report_open(rt, link, setting, words, named)?;
    }
    Ok(NumberOutcome::Over(show(rt, setting, words.line, reply)?))
}

/// Returns the client's id: the one that the options name, else the default.
fn client_of<R>(rt: &R, words: Words<'_>) -> Result<u64, Fault>
where
    R: AllocGlobal + Env + Files + Clock + RandomSource,
{
    match words.line.options.client {
        Some(client) => Ok(client),
        None => client_id(rt),
    }
}

/// Asks an update, and prints the reply. A fresh number that is too small was never used for it,
/// and is exchanged for a larger one. Returns the status.
fn update<R>(
    rt: &R,
    link: &mut ServerLink<'_>,
    setting: &mut Setting,
    words: Words<'_>,
    chain: ChainId,
) -> Result<u8, Fault>
where
    R: AllocGlobal + Env + Files + RandomSource + Print + Eprint + Clock + Wait,
    R: Net<Listener = TcpListener, Stream = TcpStream>,
{
    let client = client_of(rt, words)?;
    let mut above = 0u64;
    for _ in 0..MOST_NUMBERS {
        let number = match words.line.options.number {
            Some(number) => number,
            None => nanoseconds(rt)?.max(above.saturating_add(1)),
        };
        let named = UpdateId { client, number };
        match update_as(rt, link, setting, words, (chain, named))? {
            NumberOutcome::Over(status) => return Ok(status),
            NumberOutcome::Above(last) => above = last,
        }
    }
    tell(
        rt,
        "other programs use this client's id all the time: choose another --client",
    )?;
    Ok(NOT_WRITTEN)
}

/// Prints the chains and their members. Returns the status.
fn members<R>(
    rt: &R,
    link: &mut ServerLink<'_>,
    setting: &Setting,
    words: Words<'_>,
) -> Result<u8, Fault>
where
    R: AllocGlobal + Print + Eprint + Clock + Wait,
    R: Net<Listener = TcpListener, Stream = TcpStream>,
{
    let chains = match known_chains(rt, link, words.deadline) {
        Ok(chains) => chains,
        Err(failure) => return report_failure(rt, link, failure),
    };
    if words.line.options.is_json {
        let members = chains_json(rt.alloc(), chains.as_slice())?;
        print_json(rt, members.as_str(), setting.pass)?;
    } else {
        let text = chains_text(rt.alloc(), chains.as_slice())?;
        write_out(rt, text.as_str().as_bytes())?;
    }
    Ok(0)
}

/// Examines a chain. Returns the status.
fn health<R>(
    rt: &R,
    link: &mut ServerLink<'_>,
    setting: &mut Setting,
    words: Words<'_>,
    chain: ChainId,
) -> Result<u8, Fault>
where
    R: AllocGlobal + Env + Files + RandomSource + Print + Eprint + Clock + Wait,
    R: Net<Listener = TcpListener, Stream = TcpStream>,
{
    let client = client_of(rt, words)?;
    let mut target = target_of(rt, setting, words, chain)?;
    let form = if words.line.options.is_json {
        OutputForm::Json
    } else {
        OutputForm::Text
    };
    let examined = examine(rt, link, &mut target, client, form);
    setting.pass = target.pass;
    examined
}

/// Returns the chain that the options name, by name or by number; chain 0 if they name none.
fn chain_of<R>(rt: &R, link: &mut ServerLink<'_>, words: Words<'_>) -> Result<ChainId, Failure>
where
    R: AllocGlobal + Clock + Wait + Net<Listener = TcpListener, Stream = TcpStream>,
{
    let Some(name) = words.line.options.chain else {
        return Ok(ChainId::new(0));
    };
    let chains = known_chains(rt, link, words.deadline)?;
    id_of_word(chains.as_slice(), name)
}

/// Runs a verb whose words were checked. Returns the status.
fn run_kind<R>(
    rt: &R,
    link: &mut ServerLink<'_>,
    setting: &mut Setting,
    words: Words<'_>,
    kind: VerbKind,
) -> Result<u8, Fault>
where
    R: AllocGlobal + Env + Files + RandomSource + Print + Eprint + Clock + Wait,
    R: Net<Listener = TcpListener, Stream = TcpStream>,
{
    if kind == VerbKind::Members {
        return members(rt, link, setting, words);
    }
    let chain = match chain_of(rt, link, words) {
        Ok(chain) => chain,
        Err(failure) => return report_failure(rt, link, failure),
    };
    match kind {
        VerbKind::Update => update(rt, link, setting, words, chain),
        VerbKind::Read => read(rt, link, setting, words, chain),
        _ => health(rt, link, setting, words, chain),
    }
}

/// Checks the words of a verb, and runs it. Returns the status.
fn run_words<R>(
    rt: &R,
    link: &mut ServerLink<'_>,
    setting: &mut Setting,
    words: Words<'_>,
) -> Result<u8, Fault>
where
    R: AllocGlobal + Env + Files + RandomSource + Print + Eprint + Clock + Wait,
    R: Net<Listener = TcpListener, Stream = TcpStream>,
{
    match check(rt.alloc(), words) {
        Ok(kind) => run_kind(rt, link, setting, words, kind),
        Err(Wrong::Memory) => Err(Fault::Memory),
        Err(Wrong::Word(bad)) => report_bad(rt, setting, words, &bad),
        Err(Wrong::Limit(refusal)) => report_limit(rt, refusal),
    }
}

/// Runs a verb for people, which may take 20 seconds from the moment that its words are read, and
/// raises the pass of the setting to those of the replies. Nothing is sent before the words are
/// checked. Returns the status: 0, or 2 for wrong words, 3 after a refusal, 4 if no server answered, 5
/// if nothing was written, 6 if the object was never written.
pub fn run_verb<R>(
    rt: &R,
    link: &mut ServerLink<'_>,
    setting: &mut Setting,
    line: &VerbLine<'_>,
) -> Result<u8, Fault>
where
    R: AllocGlobal + Env + Files + RandomSource + Input + Print + Eprint + Clock + Wait,
    R: Net<Listener = TcpListener, Stream = TcpStream>,
{
    let owned = bytes_of_words(rt, setting, line.words.as_slice())?;
    let mut bytes = Vec::new(rt.alloc());
    for word in &owned {
        bytes.push(word.as_slice())?;
    }
    let words = Words {
        line,
        bytes: bytes.as_slice(),
        deadline: Deadline::begin(rt)?,
    };
    run_words(rt, link, setting, words)
}
