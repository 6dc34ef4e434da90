//! Tests single nodes: each case is a node, its events, and what it then sends, replies, ignores or
//! refuses. Run by `main`.
ghost use Rattle.std.specs.Prelude.{◌≤◌, IfOk};
ghost use Rattle.craq_node.specs.Represented.{CanArrive};

use crate::moves::{members, moves_of};
use craq_commands::{Command, Update};
use craq_compact_history::ListCore;
use craq_epochs::{Master, is_among};
use craq_model::{Ask, Event};
use craq_names::{
    ChainId, ClientId, Key, NodeId, NodeName, ObjectId, Refusal, RequestNo, Seq, Value,
};
use craq_node::Core;
use craq_play::{print_refusal, print_step};
use craq_runs::Move;
use craq_wire::decode;
use std::alloc::{AllocError, Global};

/// A node of a chain with these members, or a joining node if there are none; the script of its
/// requests, ticks and stops; and the encoded messages that arrive then.
#[derive(Clone, Copy)]
pub struct Case {
    pub fact: &'static str,
    members: &'static [u32],
    id: u32,
    script: &'static str,
    arrivals: &'static [&'static [u8]],
}

const ONE_PUT: &str = "put 1 1 1 k a";

/// An acknowledgement of position 1 from node 2 to node 1.
const ACK: &[u8] = &[
    2, 3, 0, 0, 0, 0, 0, 2, 0, 0, 0, 1, 0, 0, 0, 0, 0, 0, 0, 1, 0, 0, 0, 0, 0, 0, 0, 0, 0, 0, 0, 1,
    0, 0, 0, 0, 0, 0, 0, 1,
];

/// The acknowledgement `ACK` in epoch 2.
const ACK_OF_EPOCH_2: &[u8] = &[
    2, 3, 0, 0, 0, 0, 0, 2, 0, 0, 0, 1, 0, 0, 0, 0, 0, 0, 0, 1, 0, 0, 0, 0, 0, 0, 0, 0, 0, 0, 0, 2,
    0, 0, 0, 0, 0, 0, 0, 1,
];

/// The acknowledgement `ACK` from node 3.
const ACK_OF_NODE_3: &[u8] = &[
    2, 3, 0, 0, 0, 0, 0, 3, 0, 0, 0, 1, 0, 0, 0, 0, 0, 0, 0, 1, 0, 0, 0, 0, 0, 0, 0, 0, 0, 0, 0, 1,
    0, 0, 0, 0, 0, 0, 0, 1,
];

/// The acknowledgement `ACK` of position 2.
const ACK_OF_POSITION_2: &[u8] = &[
    2, 3, 0, 0, 0, 0, 0, 2, 0, 0, 0, 1, 0, 0, 0, 0, 0, 0, 0, 1, 0, 0, 0, 0, 0, 0, 0, 0, 0, 0, 0, 1,
    0, 0, 0, 0, 0, 0, 0, 2,
];

/// The acknowledgement `ACK` from node 3 to node 2.
const ACK_TO_NODE_2: &[u8] = &[
    2, 3, 0, 0, 0, 0, 0, 3, 0, 0, 0, 2, 0, 0, 0, 0, 0, 0, 0, 1, 0, 0, 0, 0, 0, 0, 0, 0, 0, 0, 0, 1,
    0, 0, 0, 0, 0, 0, 0, 1,
];

/// The entry of a put of `a` on `k` from node 1 to node 2, with version 2 instead of 1.
const ENTRY_OF_VERSION_2: &[u8] = &[
    2, 2, 0, 0, 0, 0, 0, 1, 0, 0, 0, 2, 0, 0, 0, 0, 0, 0, 0, 1, 0, 0, 0, 0, 0, 0, 0, 0, 0, 0, 0, 1,
    0, 0, 0, 0, 0, 0, 0, 1, 0, 0, 0, 1, 0, 0, 0, 0, 0, 0, 0, 1, 0, 0, 0, 0, 0, 0, 0, 1, 0, 0, 0, 0,
    0, 0, 0, 1, 1, 0, 0, 0, 0, 0, 0, 0, 1, 1, 1, 107, 0, 0, 0, 0, 0, 0, 0, 2, 0, 1, 97,
];

pub static CASES: [Case; 8] = [
    Case {
        fact: "a lone node answers a put at once",
        members: &[1],
        id: 1,
        script: ONE_PUT,
        arrivals: &[],
    },
    Case {
        fact: "a head sends the entry on and waits",
        members: &[1, 2, 3],
        id: 1,
        script: ONE_PUT,
        arrivals: &[ACK],
    },
    Case {
        fact: "a node that joins is not ready",
        members: &[],
        id: 1,
        script: ONE_PUT,
        arrivals: &[],
    },
    Case {
        fact: "another node than the head takes no update",
        members: &[1, 2, 3],
        id: 2,
        script: ONE_PUT,
        arrivals: &[],
    },
    Case {
        fact: "a stopped node takes no step",
        members: &[1, 2, 3],
        id: 1,
        script: "stop 1\ntick 1\nstop 1\nput 1 1 1 k a",
        arrivals: &[ACK],
    },
    Case {
        fact: "a message to another node is refused",
        members: &[1, 2, 3],
        id: 1,
        script: "",
        arrivals: &[ACK_TO_NODE_2],
    },
    Case {
        fact: "messages that do not fit are ignored",
        members: &[1, 2, 3],
        id: 1,
        script: ONE_PUT,
        arrivals: &[ACK_OF_EPOCH_2, ACK_OF_NODE_3, ACK_OF_POSITION_2, ACK, ACK],
    },
    Case {
        fact: "an entry that writes version 2 of an object that has none is ignored",
        members: &[1, 2, 3],
        id: 2,
        script: "",
        arrivals: &[ENTRY_OF_VERSION_2],
    },
];

/// Opens the node of this name in a chain of these members.
fn member<C: Core>(alloc: Global, members: &[NodeId], name: NodeName) -> Result<C, Refusal>
    requires { 1 ≤ name.node }
{
    let master = Master::open(alloc, name.chain, members)?;
    let config = master.config();
    if !is_among(config.members.as_slice(), name.node) {
        return Err(Refusal::NotMember);
    }
    C::open(alloc, name, Some(config))
}

/// Opens the node of a case.
fn node_of<C: Core>(alloc: Global, case: &Case) -> Result<C, Refusal> {
    let name = NodeName {
        chain: ChainId::new(0),
        node: NodeId::new(case.id.max(1)),
    };
    if case.members.is_empty() {
        return C::open(alloc, name, None);
    }
    let members = members(alloc, case.members)?;
    member(alloc, members.as_slice(), name)
}

/// Returns the event of a move at a node: a request, a stop, or otherwise a tick.
fn event_of(chosen: Move) -> Event
    ensures { CanArrive result }
{
    match chosen {
        Move::Ask { ask, .. } => Event::Ask(ask),
        Move::Stop(_) => Event::Stop,
        _ => Event::Tick,
    }
}

/// Returns the arrival of the message that these bytes encode.
fn arrival(alloc: Global, bytes: &[u8]) -> Result<Event, Refusal>
    ensures { IfOk result CanArrive }
{
    let message = decode(alloc, bytes)?;
    Ok(Event::Deliver(message))
}

/// Takes a step and prints its output, or its refusal.
fn take<C: Core>(
    alloc: Global,
    node: &mut C,
    id: u32,
    event: Event,
    text: &mut String,
) -> Result<(), AllocError>
    requires { CanArrive event }
{
    match node.step(alloc, event) {
        Ok(step) => print_step(text, NodeId::new(id), 0, &step),
        Err(refusal) => print_refusal(text, &refusal),
    }
}

/// Takes the steps of a case.
fn take_all<C: Core>(
    alloc: Global,
    node: &mut C,
    case: &Case,
    text: &mut String,
) -> Result<(), Refusal> {
    for chosen in moves_of(alloc, case.script)? {
        take(alloc, node, case.id, event_of(chosen), text)?;
    }
    for bytes in case.arrivals {
        let event = arrival(alloc, bytes)?;
        take(alloc, node, case.id, event, text)?;
    }
    Ok(())
}

/// Returns the output of the steps of a case.
pub fn reported<C: Core>(alloc: Global, case: &Case) -> Result<String, Refusal> {
    let mut text = String::new(alloc);
    let mut node: C = node_of(alloc, case)?;
    take_all(alloc, &mut node, case, &mut text)?;
    Ok(text)
}

/// The number of puts that a node with a compacting history takes here.
pub const PUTS: u64 = 10_000;

/// Returns a put of `a` on `k` by client 1 with this request number.
fn put(alloc: Global, number: u64) -> Result<Event, Refusal>
    ensures { IfOk result CanArrive }
{
    let object = ObjectId {
        chain: ChainId::new(0),
        key: Key::new(alloc, b"k")?,
    };
    let value = Value::new(alloc, b"a")?;
    Ok(Event::Ask(Ask::Update(Update {
        client: ClientId::new(1),
        number: RequestNo::new(number)?,
        command: Command::Put { object, value },
    })))
}

/// Returns what a lone node with a compacting history holds in memory after its puts: its base, and
/// the number of entries.
pub fn after_puts(alloc: Global) -> Result<(Seq, usize), Refusal> {
    let name = NodeName {
        chain: ChainId::new(0),
        node: NodeId::new(1),
    };
    let ids = members(alloc, &[1])?;
    let mut core: ListCore = member(alloc, ids.as_slice(), name)?;
    for number in 1..=PUTS {
        let event = put(alloc, number)?;
        let step = core.step(alloc, event)?;
        drop(step);
    }
    let history = &core.node().history;
    Ok((history.base(), history.entries_held()))
}
