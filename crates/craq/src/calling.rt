//! One request to the server, and the text of its answer; for `main`, `shell`, `bench` and `link`.
ghost use Rattle.std.specs.Prelude.{◌≡◌};

use crate::deadline::Deadline;
use crate::fault::Fault;
use crate::link::ServerLink;
use craq_cli::Request;
use craq_frames::{ClientMessage, ClientReply};
use craq_front::{Stream, exchange};
use craq_model::{Answer, Ask};
use craq_names::{NodeId, Pass, Refusal};
use craq_script::{asked_update, print_answer, print_refusal, read_of};
use std::alloc::{AllocError, Global};
use std::io::ErrorKind;
use std::net::{Net, TcpListener, TcpStream, ToSocketAddrs};
use std::time::Clock;

/// The node that is asked, and the pass that is shown.
#[derive(Clone, Copy, Debug)]
pub struct Asker<'a> {
    /// The address of the server: a host and a port.
    pub address: &'a str,
    /// The node that is asked.
    pub node: NodeId,
    /// The largest pass that was given so far.
    pub pass: Pass,
}

impl<'a> Asker<'a> {
    /// Returns a copy.
    pub fn same(&self) -> Asker<'a>
        ensures { result ≡ self.now }
    {
        Asker {
            address: self.address,
            node: self.node,
            pass: self.pass,
        }
    }
}

/// The text that is printed of a reply.
#[derive(Drop)]
pub struct Shown {
    /// The answer, or the refusal, on a line of its own.
    pub text: String,
    /// The pass that the reply came with; none of a refusal.
    pub pass: Option<Pass>,
    /// The refusal, if it is one.
    pub refusal: Option<Refusal>,
}

/// Makes the message of a request to a node, with this pass.
fn message_of(node: NodeId, pass: Pass, ask: Ask) -> ClientMessage {
    match ask {
        Ask::Update(update) => ClientMessage::Update { node, pass, update },
        Ask::Read { mode, object } => ClientMessage::Read {
            node,
            pass,
            mode,
            object,
        },
    }
}

/// Makes the message that a command line asks for, or returns its refusal before it is sent.
pub fn message_in(
    alloc: Global,
    node: NodeId,
    pass: Pass,
    request: &Request,
) -> Result<ClientMessage, Refusal> {
    match request {
        Request::Status => Ok(ClientMessage::Status),
        Request::Update(update) => Ok(message_of(node, pass, asked_update(alloc, update)?)),
        Request::Read { mode, object } => {
            Ok(message_of(node, pass, read_of(alloc, *mode, object)?))
        }
    }
}

/// Makes the text of a refusal. Fails only when out of memory.
fn refused(alloc: Global, refusal: &Refusal) -> Result<Shown, AllocError> {
    let mut text = String::new(alloc);
    print_refusal(&mut text, refusal)?;
    Ok(Shown {
        text,
        pass: None,
        refusal: Some(*refusal),
    })
}

/// Makes the text of an answer that came with a pass. Fails only when out of memory.
fn answered(alloc: Global, answer: &Answer, pass: Pass) -> Result<Shown, AllocError> {
    let mut text = String::new(alloc);
    print_answer(&mut text, answer)?;
    text.push_str("\n")?;
    Ok(Shown {
        text,
        pass: Some(pass),
        refusal: None,
    })
}

/// Makes the text of a status. It has no pass, so the pass that was shown stays.
fn reported(alloc: Global, status: &str, pass: Pass) -> Result<Shown, AllocError> {
    let mut text = String::from_str(alloc, status)?;
    text.push_str("\n")?;
    Ok(Shown {
        text,
        pass: Some(pass),
        refusal: None,
    })
}

/// Makes the text of a reply to a message that showed this pass. Fails only when out of memory.
fn shown_of(alloc: Global, reply: ClientReply, pass: Pass) -> Result<Shown, AllocError> {
    match reply {
        ClientReply::Update { pass, reply } => answered(alloc, &Answer::Update(reply), pass),
        ClientReply::Read {
            pass,
            version,
            value,
        } => answered(alloc, &Answer::Read { version, value }, pass),
        ClientReply::Refused(refusal) => refused(alloc, &refusal),
        ClientReply::Status(status) => reported(alloc, status.as_str(), pass),
    }
}

/// Returns the fault of a connection that was not made.
fn fault_of_error(kind: ErrorKind) -> Fault {
    match kind {
        ErrorKind::OutOfMemory => Fault::Memory,
        _ => Fault::Connection,
    }
}

/// Connects to the server: tries each of its addresses in turn, until the deadline.
pub fn connection<R>(rt: &R, address: &str, deadline: Deadline) -> Result<TcpStream, Fault>
where
    R: Clock + Net<Listener = TcpListener, Stream = TcpStream>,
{
    let places = match address.to_socket_addrs(rt) {
        Ok(places) => places,
        Err(error) => return Err(fault_of_error(error.kind())),
    };
    let mut fault = Fault::Connection;
    for place in places {
        let Some(left) = deadline.left(rt) else {
            return Err(Fault::Connection);
        };
        match TcpStream::connect_timeout(rt, &place, left) {
            Ok(stream) => return Ok(stream),
            Err(error) => fault = fault_of_error(error.kind()),
        }
    }
    Err(fault)
}

/// Returns the fault of an exchange that gave no reply.
fn fault_of(refusal: Refusal) -> Fault {
    match refusal {
        Refusal::Memory => Fault::Memory,
        _ => Fault::Connection,
    }
}

/// Sends a message over a connection, and returns the reply with the connection.
pub fn exchange_over(
    alloc: Global,
    stream: TcpStream,
    message: &ClientMessage,
) -> Result<(ClientReply, TcpStream), Fault> {
    let mut stream = Stream::new(stream);
    match exchange(alloc, &mut stream, message) {
        Ok(reply) => Ok((reply, stream.into_inner())),
        Err(refusal) => {
            drop(stream);
            Err(fault_of(refusal))
        }
    }
}

/// Prints a refusal in words on standard error, if it is one.
pub fn explain<R: Eprint>(rt: &R, shown: &Shown) -> Result<(), Fault> {
    let Some(refusal) = shown.refusal else {
        return Ok(());
    };
    match eprintln!(rt; "craq: {refusal}") {
        Ok(()) => Ok(()),
        Err(error) => Err(Fault::CannotPrint(error)),
    }
}

/// Asks once, over the connection that is kept if there is one, and gives what is to be printed of
/// the answer, which may take 20 seconds. What is refused whatever the server says is not sent.
pub fn shown_over<R>(
    rt: &R,
    link: &mut ServerLink<'_>,
    asker: &Asker<'_>,
    request: &Request,
) -> Result<Shown, Fault>
where
    R: AllocGlobal + Clock + Net<Listener = TcpListener, Stream = TcpStream>,
{
    let deadline = Deadline::begin(rt)?;
    match message_in(rt.alloc(), asker.node, asker.pass, request) {
        Ok(message) => {
            let replied = link.ask(rt, &message, deadline);
            drop(message);
            Ok(shown_of(rt.alloc(), replied?, asker.pass)?)
        }
        Err(Refusal::Memory) => Err(Fault::Memory),
        Err(refusal) => Ok(refused(rt.alloc(), &refusal)?),
    }
}
