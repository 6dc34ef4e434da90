//! `ServedChain`: a chain as the status of the server describes it; for `asking` and `people`.
use crate::deadline::Deadline;
use crate::link::{Failure, ServerLink};
use craq_frames::{ClientMessage, ClientReply};
use craq_names::{ChainId, NodeId, Refusal};
use craq_script::number_up_to;
use serde_json::Value;
use std::alloc::Global;
use std::net::{Net, TcpListener, TcpStream};
use std::time::Clock;

/// The greatest id of a chain.
const GREATEST_CHAIN: u64 = 65535;

/// A chain.
#[derive(Debug, Drop)]
pub struct ServedChain {
    pub id: ChainId,
    pub name: String,
    /// The number of its membership.
    pub epoch: u64,
    /// The ids of its members, head first.
    pub members: Vec<NodeId>,
}

/// Returns the node with this id; `NoReply` if the value is no number of 32 bits.
fn node_of(value: &Value) -> Result<NodeId, Failure> {
    match value.as_u64() {
        Some(id) if id <= 0xffff_ffff => Ok(NodeId::new(id as u32)),
        _ => Err(Failure::NoReply),
    }
}

/// Returns the nodes of an array.
fn nodes_of(alloc: Global, value: Option<&Value>) -> Result<Vec<NodeId>, Failure> {
    let Some(items) = value.and_then(Value::as_array) else {
        return Err(Failure::NoReply);
    };
    let mut nodes = Vec::new(alloc);
    for item in items {
        let node = node_of(item)?;
        nodes.push(node)?;
    }
    Ok(nodes)
}

/// Returns the chain of this id that an object describes.
fn chain_of(alloc: Global, id: ChainId, value: &Value) -> Result<ServedChain, Failure> {
    let members = nodes_of(alloc, value.get("members"))?;
    let (Some(name), Some(epoch)) = (
        value.get("name").and_then(Value::as_str),
        value.get("epoch").and_then(Value::as_u64),
    ) else {
        return Err(Failure::NoReply);
    };
    Ok(ServedChain {
        id,
        name: String::from_str(alloc, name)?,
        epoch,
        members,
    })
}

/// Returns the chains that a value describes, by id.
fn chains_in(alloc: Global, value: &Value) -> Result<Vec<ServedChain>, Failure> {
    let Some(items) = value.get("chains").and_then(Value::as_array) else {
        return Err(Failure::NoReply);
    };
    let mut chains = Vec::new(alloc);
    for (id, item) in items.iter().enumerate() {
        let chain = chain_of(alloc, ChainId::new((id % 65536) as u16), item)?;
        chains.push(chain)?;
    }
    Ok(chains)
}

/// Returns the chains of a status text, by id. `NoReply` if the text does not describe chains.
fn chains_of(alloc: Global, status: &str) -> Result<Vec<ServedChain>, Failure> {
    match Value::from_str(alloc, status) {
        Ok(value) => chains_in(alloc, &value),
        Err(error) if error.is_memory() => Err(Failure::Memory),
        Err(_) => Err(Failure::NoReply),
    }
}

/// Asks the server once for its chains, and waits until the deadline.
pub fn chains<R>(
    rt: &R,
    link: &mut ServerLink<'_>,
    deadline: Deadline,
) -> Result<Vec<ServedChain>, Failure>
where
    R: AllocGlobal + Clock + Net<Listener = TcpListener, Stream = TcpStream>,
{
    match link.ask(rt, &ClientMessage::Status, deadline)? {
        ClientReply::Status(status) => chains_of(rt.alloc(), status.as_str()),
        ClientReply::Refused(refusal) => Err(Failure::Refused(refusal)),
        _ => Err(Failure::NoReply),
    }
}

/// Returns the id of the chain of this name or, if none has that name, the id that the word is;
/// `Refused` with `UnknownChain` if it is neither.
pub fn id_of_word(chains: &[ServedChain], word: &str) -> Result<ChainId, Failure> {
    for chain in chains {
        if chain.name.as_str() == word {
            return Ok(chain.id);
        }
    }
    match number_up_to(GREATEST_CHAIN, word.as_bytes()) {
        Ok(id) => Ok(ChainId::new(id as u16)),
        Err(_) => Err(Failure::Refused(Refusal::UnknownChain)),
    }
}

/// Returns the chain with this id; `Refused` with `UnknownChain` if there is none.
pub fn chain_of_id(chains: Vec<ServedChain>, id: ChainId) -> Result<ServedChain, Failure> {
    for chain in chains {
        if chain.id == id {
            return Ok(chain);
        }
    }
    Err(Failure::Refused(Refusal::UnknownChain))
}

/// Returns the members of the chain with this id, head first; `Refused` with `UnknownChain` if
/// there is none.
pub fn members_of(chains: &[ServedChain], id: ChainId) -> Result<&[NodeId], Failure> {
    for chain in chains {
        if chain.id == id {
            return Ok(chain.members.as_slice());
        }
    }
    Err(Failure::Refused(Refusal::UnknownChain))
}
