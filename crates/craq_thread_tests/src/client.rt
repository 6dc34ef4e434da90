//! Runs the clients: each sends a request over a connection of its own and prints the reply; called
//! by `server`.
use crate::requests::{put, read};
use craq_commands::Reply;
use craq_frames::{ClientMessage, ClientReply};
use craq_front::{Stream, exchange};
use craq_names::{Pass, Refusal};
use std::io;
use std::net::{Net, SocketAddr, TcpListener, TcpStream};

/// Sends one request over a new connection, which is then closed.
fn ask<R>(rt: &R, address: SocketAddr, message: &ClientMessage) -> Result<ClientReply, Refusal>
where
    R: AllocGlobal + Net<Listener = TcpListener, Stream = TcpStream>,
{
    let Ok(stream) = TcpStream::connect(rt, address) else {
        return Err(Refusal::Io);
    };
    let mut stream = Stream::new(stream);
    exchange(rt.alloc(), &mut stream, message)
}

/// Prints the result of a client's put.
fn print_put<R: Print>(rt: &R, reply: &Reply) -> io::Result<()> {
    match reply {
        Reply::Written(version) => println!(rt; "put: written {}", version.get()),
        _ => println!(rt; "put: not written"),
    }
}

/// Prints a client's reply.
fn print_reply<R: Print>(rt: &R, reply: &ClientReply) -> io::Result<()> {
    match reply {
        ClientReply::Update { reply, .. } => print_put(rt, reply),
        ClientReply::Read { version, value, .. } => {
            println!(rt; "read: version {} {:?}", version.get(), value.as_slice())
        }
        ClientReply::Status(text) => println!(rt; "status: {}", text.as_str()),
        ClientReply::Refused(refusal) => println!(rt; "refused {}", refusal.number()),
    }
}

/// Returns the pass to send after a reply.
fn pass_after(reply: &ClientReply) -> Pass {
    match reply {
        ClientReply::Update { pass, .. } | ClientReply::Read { pass, .. } => *pass,
        _ => Pass::start(),
    }
}

/// Prints a client's reply. Returns the pass to send from then on.
fn print_and_pass<R: Print>(rt: &R, reply: &ClientReply) -> Result<Pass, Refusal> {
    match print_reply(rt, reply) {
        Ok(()) => Ok(pass_after(reply)),
        Err(_) => Err(Refusal::Io),
    }
}

/// Sends one request, and prints its reply. Returns the pass to send from then on.
fn ask_and_print<R>(rt: &R, address: SocketAddr, message: &ClientMessage) -> Result<Pass, Refusal>
where
    R: AllocGlobal + Print + Net<Listener = TcpListener, Stream = TcpStream>,
{
    let reply = ask(rt, address, message)?;
    print_and_pass(rt, &reply)
}

/// Sends the put of the first client. Returns its pass.
fn ask_put<R>(rt: &R, address: SocketAddr) -> Result<Pass, Refusal>
where
    R: AllocGlobal + Print + Net<Listener = TcpListener, Stream = TcpStream>,
{
    let put = put(rt.alloc())?;
    ask_and_print(rt, address, &put)
}

/// Sends the read of the second client, with this pass. Returns its pass.
fn ask_read<R>(rt: &R, address: SocketAddr, pass: Pass) -> Result<Pass, Refusal>
where
    R: AllocGlobal + Print + Net<Listener = TcpListener, Stream = TcpStream>,
{
    let read = read(rt.alloc(), pass)?;
    ask_and_print(rt, address, &read)
}

/// Runs the three clients, one after another: a put at node 1, a strong read at node 3 with the
/// put's pass, and a status.
pub fn ask_all<R>(rt: &R, address: SocketAddr) -> Result<(), Refusal>
where
    R: AllocGlobal + Print + Net<Listener = TcpListener, Stream = TcpStream>,
{
    let pass = ask_put(rt, address)?;
    ask_read(rt, address, pass)?;
    ask_and_print(rt, address, &ClientMessage::Status)?;
    Ok(())
}
