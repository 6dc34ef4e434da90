//! The positions of a server's nodes, as its page `/status.json` gives them (`craqd --metrics`); for
//! `watch`.
use crate::calling::connection;
use crate::deadline::Deadline;
use crate::fault::Fault;
use crate::link::Failure;
use crate::timed::TimedStream;
use serde_json::Value;
use std::alloc::{AllocError, Global};
use std::io;
use std::io::{ErrorKind, Write};
use std::net::{Net, TcpListener, TcpStream};
use std::time::Clock;

/// The request for the page.
const REQUEST: &str = "GET /status.json HTTP/1.1\r\nHost: craqd\r\nConnection: close\r\n\r\n";

/// The beginning of a response with the page.
const FOUND: &str = "HTTP/1.1 200 ";

/// The positions of a node.
#[derive(Clone, Copy, Debug)]
struct NodePositions {
    node: u64,
    is_ready: bool,
    is_running: bool,
    committed: u64,
    length: u64,
}

impl NodePositions {
    /// Returns the positions that an object gives, if it gives them.
    fn of(value: &Value) -> Option<Self> {
        Some(NodePositions {
            node: value.get("node")?.as_u64()?,
            is_ready: value.get("ready")?.as_bool()?,
            is_running: value.get("running")?.as_bool()?,
            committed: value.get("committed")?.as_u64()?,
            length: value.get("length")?.as_u64()?,
        })
    }

    /// Returns the node's condition, in words behind its positions.
    const fn condition(&self) -> &'static str {
        match (self.is_running, self.is_ready) {
            (false, _) => " stopped",
            (true, false) => " not ready yet",
            (true, true) => "",
        }
    }
}

/// Returns the failure of a connection whose read or write failed so.
fn failure_of(kind: ErrorKind) -> Failure {
    match kind {
        ErrorKind::OutOfMemory => Failure::Memory,
        ErrorKind::WouldBlock | ErrorKind::TimedOut => Failure::Late,
        _ => Failure::Broken,
    }
}

/// Returns the response to a request for the page, and waits for it until the deadline. `Unsent` if
/// no connection was made, `Broken` if it was closed without a byte.
fn response<R>(rt: &R, address: &str, deadline: Deadline) -> Result<String, Failure>
where
    R: AllocGlobal + Clock + Net<Listener = TcpListener, Stream = TcpStream>,
{
    let stream = match connection(rt, address, deadline) {
        Ok(stream) => stream,
        Err(Fault::Memory) => return Err(Failure::Memory),
        Err(_) => return Err(Failure::Unsent),
    };
    let mut stream = TimedStream::new(rt, stream, deadline);
    if let Err(error) = stream.write_all(REQUEST.as_bytes()) {
        return Err(failure_of(error.kind()));
    }
    match io::read_to_string(rt.alloc(), stream) {
        Ok(text) if text.is_empty() => Err(Failure::Broken),
        Ok(text) => Ok(text),
        Err(error) => Err(failure_of(error.kind())),
    }
}

/// Returns the body of a response; `None` if it is not the page.
fn body_of(response: &str) -> Option<&str> {
    if !response.starts_with(FOUND) {
        return None;
    }
    let (_head, body) = response.split_once("\r\n\r\n")?;
    Some(body)
}

/// Adds the positions of nodes. Returns false if a value is no node.
fn push_nodes(text: &mut String, nodes: &[Value]) -> Result<bool, AllocError> {
    let mut mark = ':';
    for value in nodes {
        let Some(found) = NodePositions::of(value) else {
            return Ok(false);
        };
        let (node, condition) = (found.node, found.condition());
        let (committed, length) = (found.committed, found.length);
        write!(text, "{mark} node {node} {committed}/{length}{condition}")?;
        mark = ',';
    }
    Ok(true)
}

/// Adds the line of a chain. Returns false if the value is no chain.
fn push_chain(text: &mut String, value: &Value) -> Result<bool, AllocError> {
    let (Some(name), Some(epoch), Some(nodes)) = (
        value.get("name").and_then(Value::as_str),
        value.get("epoch").and_then(Value::as_u64),
        value.get("nodes").and_then(Value::as_array),
    ) else {
        return Ok(false);
    };
    write!(text, "chain {name}, epoch {epoch}")?;
    if !push_nodes(text, nodes.as_slice())? {
        return Ok(false);
    }
    text.push_str("\n")?;
    Ok(true)
}

/// Returns a line for each chain of a page; `NoReply` if the page has no chains.
fn lines_of(alloc: Global, page: &Value) -> Result<String, Failure> {
    let Some(chains) = page.get("chains").and_then(Value::as_array) else {
        return Err(Failure::NoReply);
    };
    let mut text = String::new(alloc);
    for chain in chains {
        if !push_chain(&mut text, chain)? {
            return Err(Failure::NoReply);
        }
    }
    Ok(text)
}

/// Asks a server for its page, and returns a line for each chain: its epoch, and of each member the
/// number of entries that it knows to be committed, and that of all its entries.
pub fn read_positions<R>(rt: &R, address: &str, deadline: Deadline) -> Result<String, Failure>
where
    R: AllocGlobal + Clock + Net<Listener = TcpListener, Stream = TcpStream>,
{
    let response = response(rt, address, deadline)?;
    let Some(body) = body_of(response.as_str()) else {
        return Err(Failure::NoReply);
    };
    match Value::from_str(rt.alloc(), body) {
        Ok(page) => lines_of(rt.alloc(), &page),
        Err(error) if error.is_memory() => Err(Failure::Memory),
        Err(_) => Err(Failure::NoReply),
    }
}
