//! Defines the only chain of each store under test, and the requests of clients; for every module
//! that starts a store or calls it.
ghost use Rattle.std.specs.Prelude.{IfOk};
ghost use Rattle.craq_place.specs.Plan.{IsPlan};

use craq_commands::{Command, ReadMode, Reply, Update};
use craq_model::{Answer, Ask};
use craq_names::{ChainId, ClientId, Key, NodeId, NodeName, ObjectId, Refusal, RequestNo, Value};
use craq_place::Plan;
use std::alloc::Global;

/// The text of each store's chain configuration.
const PLAN: &str = "[[chain]]\nname = \"a\"\nnodes = [1, 2, 3]\n";

/// Returns the chain configuration of each store.
pub fn plan(alloc: Global) -> Result<Plan, Refusal>
    ensures { IfOk result IsPlan }
{
    Plan::read(alloc, PLAN)
}

/// Returns its chain.
pub fn chain() -> ChainId {
    ChainId::new(0)
}

/// Returns the name of a node of this chain.
pub fn name_of(node: u32) -> NodeName {
    NodeName {
        chain: chain(),
        node: NodeId::new(node),
    }
}

/// Returns an object of this chain.
fn object(alloc: Global, key: &[u8]) -> Result<ObjectId, Refusal> {
    Ok(ObjectId {
        chain: chain(),
        key: Key::new(alloc, key)?,
    })
}

/// The value that each put writes.
const WRITTEN: &[u8] = b"a";

/// Makes a put of `a`, by the client of this id with this request number.
pub fn put_of(alloc: Global, id: u64, number: u64, key: &[u8]) -> Result<Ask, Refusal> {
    let number = RequestNo::new(number)?;
    let object = object(alloc, key)?;
    let value = Value::new(alloc, WRITTEN)?;
    Ok(Ask::Update(Update {
        client: ClientId::new(id),
        number,
        command: Command::Put { object, value },
    }))
}

/// Makes a read.
pub fn read_of(alloc: Global, mode: ReadMode, key: &[u8]) -> Result<Ask, Refusal> {
    Ok(Ask::Read {
        mode,
        object: object(alloc, key)?,
    })
}

/// The reply that is expected.
#[derive(Clone, Copy)]
pub enum Reported {
    /// The put wrote this version.
    Written(u64),
    /// The read finds this version and the written value; for version 0, no value.
    Found(u64),
}

/// Returns true if a reply is the expected one.
pub fn tells(answer: &Answer, reported: Reported) -> bool {
    match (answer, reported) {
        (Answer::Update(Reply::Written(version)), Reported::Written(number)) => version.get()
            == number,
        (Answer::Read { version, value }, Reported::Found(number)) => {
            let found: &[u8] = if number == 0 { &[] } else { WRITTEN };
            version.get() == number && value.as_slice() == found
        }
        _ => false,
    }
}

/// Returns the version in a reply, or 0.
pub fn version_of(answer: &Answer) -> u64 {
    match answer {
        Answer::Update(Reply::Written(version)) => version.get(),
        Answer::Read { version, .. } => version.get(),
        _ => 0,
    }
}
