//! Makes the requests of the three connections; for `client`.
use craq_commands::{Command, ReadMode, Update};
use craq_frames::ClientMessage;
use craq_names::{ChainId, ClientId, Key, NodeId, ObjectId, Pass, Refusal, RequestNo, Value};
use std::alloc::Global;

/// Returns the object that is written and read.
fn object(alloc: Global) -> Result<ObjectId, Refusal> {
    Ok(ObjectId {
        chain: ChainId::new(0),
        key: Key::new(alloc, b"k")?,
    })
}

/// Makes a put of `a` by client 1, its first update, at node 1, without a pass.
pub fn put(alloc: Global) -> Result<ClientMessage, Refusal> {
    Ok(ClientMessage::Update {
        node: NodeId::new(1),
        pass: Pass::start(),
        update: Update {
            client: ClientId::new(1),
            number: RequestNo::new(1)?,
            command: Command::Put {
                object: object(alloc)?,
                value: Value::new(alloc, b"a")?,
            },
        },
    })
}

/// Makes a strong read at node 3, with this pass.
pub fn read(alloc: Global, pass: Pass) -> Result<ClientMessage, Refusal> {
    Ok(ClientMessage::Read {
        node: NodeId::new(3),
        pass,
        mode: ReadMode::Strong,
        object: object(alloc)?,
    })
}
