//! Examines a chain: a strong read at each member, and an update through all of its nodes; for
//! `people`.
use crate::asking::{Target, answered, known_chains};
use crate::bench::microseconds;
use crate::chains::{ServedChain, chain_of_id};
use crate::fault::{Fault, NO_CONNECTION, REFUSED};
use crate::link::{Failure, ServerLink};
use crate::output::{health_json, member_line, update_line};
use crate::reporting::{print_json, report_failure, tell, write_out};
use craq_cli::Request;
use craq_commands::{ReadMode, Reply};
use craq_frames::ClientReply;
use craq_names::{ClientId, Items, NodeId, Refusal, Version};
use craq_script::{ScriptCommand, ScriptObject, UpdateLine};
use std::alloc::{AllocError, Global};
use std::net::{Net, TcpListener, TcpStream};
use std::sync::Wait;
use std::time::{Clock, Duration};

/// The key of the object that is asked.
const HEALTH_KEY: &str = "health";

/// The seconds that the read at a member may take.
pub const READ_SECONDS: u64 = 2;

/// The result of a read at a member.
#[derive(Clone, Copy, Debug)]
pub enum Seen {
    /// It was answered after this many microseconds.
    Read(u64),
    /// The member is stopped.
    Stopped,
    /// No reply came in time.
    Silent,
    /// The member refused it.
    Refused(Refusal),
}

/// The form of the output.
#[derive(Clone, Copy, Debug, PartialEq, Eq)]
pub enum OutputForm {
    /// A line for each member, at once, and one for the update.
    Text,
    /// A JSON object in the end.
    Json,
}

/// Returns the object that is asked.
fn health_object(alloc: Global, target: &Target) -> Result<ScriptObject, AllocError> {
    Ok(ScriptObject {
        chain: target.chain,
        key: Items::of(Vec::from_slice(alloc, HEALTH_KEY.as_bytes())?),
    })
}

/// Returns an update that writes nothing: it expects a version that no object has.
fn health_update(
    alloc: Global,
    target: &Target,
    client: u64,
    number: u64,
) -> Result<Request, AllocError> {
    let change = ScriptCommand::TestAndSet {
        object: health_object(alloc, target)?,
        expect: Version::new(u64::MAX),
        value: Items::new(alloc),
    };
    Ok(Request::Update(UpdateLine {
        node: NodeId::new(0),
        client: ClientId::new(client),
        number,
        change,
    }))
}

/// Returns a strong read of the object.
fn health_read(alloc: Global, target: &Target) -> Result<Request, AllocError> {
    Ok(Request::Read {
        mode: ReadMode::Strong,
        object: health_object(alloc, target)?,
    })
}

/// Raises the pass to that of the reply, and returns a number above which the next one lies if this
/// one was too small. `NoReply` if it is another reply than such an update has.
fn note_update(target: &mut Target, reply: &ClientReply) -> Result<Option<u64>, Failure> {
    match reply {
        ClientReply::Update { pass, reply } => {
            target.pass = target.pass.join(*pass);
            match reply {
                Reply::Mismatch(_) => Ok(None),
                Reply::Stale(last) => Ok(Some(last.get())),
                _ => Err(Failure::NoReply),
            }
        }
        _ => Err(Failure::NoReply),
    }
}

/// Asks the update under a number. Returns a number above which the next one lies if this one was
/// too small.
fn ask_update<R>(
    rt: &R,
    link: &mut ServerLink<'_>,
    target: &mut Target,
    client: u64,
    number: u64,
) -> Result<Option<u64>, Failure>
where
    R: AllocGlobal + Clock + Wait + Net<Listener = TcpListener, Stream = TcpStream>,
{
    let request = health_update(rt.alloc(), target, client, number)?;
    let asked = answered(rt, link, target, &request);
    drop(request);
    match asked {
        Ok((reply, _)) => note_update(target, &reply),
        Err(unanswered) => Err(unanswered.failure),
    }
}

/// Asks the update, and returns its microseconds.
fn update_time<R>(
    rt: &R,
    link: &mut ServerLink<'_>,
    target: &mut Target,
    client: u64,
) -> Result<u64, Failure>
where
    R: AllocGlobal + Clock + Wait + Net<Listener = TcpListener, Stream = TcpStream>,
{
    let mut number = target.seed;
    for _ in 0..2u32 {
        let began = time(rt)?;
        match ask_update(rt, link, target, client, number)? {
            None => return Ok(microseconds(began, time(rt)?)),
            Some(last) => number = last.saturating_add(1),
        }
    }
    Err(Failure::NoReply)
}

/// Raises the pass to that of the reply to a read; `NoReply` if it is another reply.
fn note_read(target: &mut Target, reply: &ClientReply) -> Result<(), Failure> {
    match reply {
        ClientReply::Read {
            pass,
            version: _,
            value: _,
        } => {
            target.pass = target.pass.join(*pass);
            Ok(())
        }
        _ => Err(Failure::NoReply),
    }
}

/// Asks a strong read of this node, which may take 2 seconds.
fn ask_read<R>(
    rt: &R,
    link: &mut ServerLink<'_>,
    target: &mut Target,
    node: NodeId,
) -> Result<(), Failure>
where
    R: AllocGlobal + Clock + Wait + Net<Listener = TcpListener, Stream = TcpStream>,
{
    let request = health_read(rt.alloc(), target)?;
    let mut there = *target;
    there.pinned = Some(node);
    there.deadline = target.deadline.within(rt, READ_SECONDS);
    let asked = answered(rt, link, &mut there, &request);
    drop(request);
    match asked {
        Ok((reply, _)) => note_read(target, &reply),
        Err(unanswered) => Err(unanswered.failure),
    }
}

/// Returns the target's chain. Asks for the chains until they come or the target's deadline.
fn known_chain<R>(
    rt: &R,
    link: &mut ServerLink<'_>,
    target: &Target,
) -> Result<ServedChain, Failure>
where
    R: AllocGlobal + Clock + Wait + Net<Listener = TcpListener, Stream = TcpStream>,
{
    let chains = known_chains(rt, link, target.deadline)?;
    chain_of_id(chains, target.chain)
}

/// Returns the time by the clock of the system.
fn time<R: Clock>(rt: &R) -> Result<Duration, Failure> {
    match rt.monotonic() {
        Ok(now) => Ok(now),
        Err(_) => Err(Failure::NoClock),
    }
}

/// Asks a strong read of a member, and returns its outcome. Fails if the server or this program
/// fails, and not a single member.
fn look<R>(
    rt: &R,
    link: &mut ServerLink<'_>,
    target: &mut Target,
    node: NodeId,
) -> Result<Seen, Failure>
where
    R: AllocGlobal + Clock + Wait + Net<Listener = TcpListener, Stream = TcpStream>,
{
    let began = time(rt)?;
    match ask_read(rt, link, target, node) {
        Ok(()) => Ok(Seen::Read(microseconds(began, time(rt)?))),
        Err(Failure::Late) => Ok(Seen::Silent),
        Err(Failure::Refused(Refusal::Stopped)) => Ok(Seen::Stopped),
        Err(Failure::Refused(refusal)) => Ok(Seen::Refused(refusal)),
        Err(failure) => Err(failure),
    }
}

/// Prints the line of a member.
fn print_member<R: AllocGlobal + Print>(rt: &R, node: NodeId, seen: &Seen) -> Result<(), Fault> {
    let line = member_line(rt.alloc(), node, seen)?;
    write_out(rt, line.as_str().as_bytes())
}

/// Looks at each member in turn, and prints its line at once if the output is text.
fn look_at_all<R>(
    rt: &R,
    link: &mut ServerLink<'_>,
    target: &mut Target,
    members: &[NodeId],
    form: OutputForm,
) -> Result<Result<Vec<(NodeId, Seen)>, Failure>, Fault>
where
    R: AllocGlobal + Print + Clock + Wait + Net<Listener = TcpListener, Stream = TcpStream>,
{
    let mut all = Vec::new(rt.alloc());
    for node in members {
        let seen = match look(rt, link, target, *node) {
            Ok(seen) => seen,
            Err(failure) => return Ok(Err(failure)),
        };
        if form == OutputForm::Text {
            print_member(rt, *node, &seen)?;
        }
        all.push((*node, seen))?;
    }
    Ok(Ok(all))
}

/// Prints the time of the update, or that none was asked; as JSON with the outcomes of the members.
fn print_update<R: AllocGlobal + Print>(
    rt: &R,
    target: &Target,
    members: &[(NodeId, Seen)],
    update: Option<u64>,
    form: OutputForm,
) -> Result<(), Fault> {
    if form == OutputForm::Json {
        let text = health_json(rt.alloc(), update, members)?;
        return print_json(rt, text.as_str(), target.pass);
    }
    match update {
        Some(microseconds) => {
            let line = update_line(rt.alloc(), microseconds)?;
            write_out(rt, line.as_str().as_bytes())
        }
        None if has_stopped(members) => write_out(rt, b"update not tried\n".as_slice()),
        None => Ok(()),
    }
}

/// Returns true if a member is stopped.
fn has_stopped(members: &[(NodeId, Seen)]) -> bool {
    members
        .iter()
        .any(|member| matches!(member.1, Seen::Stopped))
}

/// Returns true if the member is stopped or not ready.
fn is_unready(member: &(NodeId, Seen)) -> bool {
    matches!(member.1, Seen::Stopped | Seen::Refused(Refusal::NotReady))
}

/// Says which members of the chain of this name are to be removed.
fn advise_removals<R>(rt: &R, name: &str, members: &[(NodeId, Seen)]) -> Result<(), Fault>
where
    R: AllocGlobal + Eprint,
{
    for (node, seen) in members {
        if matches!(seen, Seen::Stopped) {
            let node = node.get();
            let text = format!(in rt.alloc();
                "remove the stopped node {name}/{node}: updates wait until then"
            )?;
            tell(rt, text.as_str())?;
        }
    }
    Ok(())
}

/// Says what to do about stopped members of the chain of this name.
fn advise<R>(rt: &R, name: &str, members: &[(NodeId, Seen)]) -> Result<(), Fault>
where
    R: AllocGlobal + Eprint,
{
    if !members.iter().all(is_unready) {
        return advise_removals(rt, name, members);
    }
    let text = format!(in rt.alloc();
        "no ready member of chain {name} runs, and its data is lost: start the server again"
    )?;
    tell(rt, text.as_str())
}

/// Returns the status by the outcomes of the members.
fn status_of(members: &[(NodeId, Seen)]) -> u8 {
    if members
        .iter()
        .any(|member| matches!(member.1, Seen::Silent))
    {
        return NO_CONNECTION;
    }
    if members
        .iter()
        .all(|member| matches!(member.1, Seen::Read(_)))
    {
        0
    } else {
        REFUSED
    }
}

/// Times the update, unless a stopped member would hold it up. Then prints the other outcomes of the
/// members of the chain of this name. Returns the status.
fn finish<R>(
    rt: &R,
    link: &mut ServerLink<'_>,
    target: &mut Target,
    client: u64,
    seen: (&str, &[(NodeId, Seen)], OutputForm),
) -> Result<u8, Fault>
where
    R: AllocGlobal + Print + Eprint + Clock + Wait,
    R: Net<Listener = TcpListener, Stream = TcpStream>,
{
    let (name, members, form) = seen;
    if has_stopped(members) {
        print_update(rt, target, members, None, form)?;
        advise(rt, name, members)?;
        return Ok(status_of(members));
    }
    match update_time(rt, link, target, client) {
        Ok(update) => {
            print_update(rt, target, members, Some(update), form)?;
            Ok(status_of(members))
        }
        Err(failure) => {
            print_update(rt, target, members, None, form)?;
            report_failure(rt, link, failure)
        }
    }
}

/// Examines the target's chain: reads at each member in turn, which may take 2 seconds each, and then
/// times an update through the whole chain. Prints what it sees, and what to do about stopped members.
/// Raises the target's pass to those of the replies. The seed of the target is the number of the
/// update. Returns the status.
pub fn examine<R>(
    rt: &R,
    link: &mut ServerLink<'_>,
    target: &mut Target,
    client: u64,
    form: OutputForm,
) -> Result<u8, Fault>
where
    R: AllocGlobal + Print + Eprint + Clock + Wait,
    R: Net<Listener = TcpListener, Stream = TcpStream>,
{
    let chain = match known_chain(rt, link, target) {
        Ok(chain) => chain,
        Err(failure) => return report_failure(rt, link, failure),
    };
    match look_at_all(rt, link, target, chain.members.as_slice(), form)? {
        Ok(seen) => {
            let seen = (chain.name.as_str(), seen.as_slice(), form);
            finish(rt, link, target, client, seen)
        }
        Err(failure) => report_failure(rt, link, failure),
    }
}
