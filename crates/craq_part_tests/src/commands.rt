//! Tests commands against their table, transactions and copies; run by `main`.
ghost use Rattle.std.specs.Prelude.{[]};

use crate::say;
use craq_commands::{Command, Entry, Look, Mini, Reply, Update, Write, Writes, evaluate};
use craq_names::{
    ChainId, ClientId, Copied, Items, Key, NodeId, ObjectId, Refusal, RequestNo, Seq, Ticket,
    Value, Version,
};
use std::alloc::Global;
use std::io;

/// A chain in which no object was ever written.
#[derive(Drop)]
struct Unwritten;

impl Look for Unwritten {
    ghost objects = { λ _. [] };

    #[tactic(auto, unfolding(craq_commands::specs::Objects::object_of))]
    fn look(&self, _key: &Key) -> (Version, &[u8]) {
        (Version::new(0), &[])
    }
}

fn object(alloc: Global, key: &[u8]) -> Result<ObjectId, Refusal> {
    Ok(ObjectId {
        chain: ChainId::new(0),
        key: Key::new(alloc, key)?,
    })
}

static COMMANDS: [&str; 7] = [
    "put",
    "set where absent",
    "set at version 1",
    "append",
    "prepend",
    "increment",
    "decrement",
];

/// Returns a command on the object `n`, by its name.
fn command(alloc: Global, name: &str) -> Result<Command, Refusal> {
    let object = object(alloc, b"n")?;
    let value = Value::new(alloc, b"a")?;
    Ok(match name {
        "put" => Command::Put { object, value },
        "set where absent" => Command::TestAndSet {
            object,
            expect: Version::new(0),
            value,
        },
        "set at version 1" => Command::TestAndSet {
            object,
            expect: Version::new(1),
            value,
        },
        "append" => Command::Append { object, value },
        "prepend" => Command::Prepend { object, value },
        "increment" => Command::Increment { object, by: 7 },
        _ => Command::Decrement { object, by: 1 },
    })
}

/// Evaluates a command on the empty chain: its writes and its reply.
#[tactic(auto, using(crate::proofs::Absent::none_used_up))]
fn outcome(alloc: Global, command: &Command) -> Result<(Writes, Reply), Refusal> {
    Ok(evaluate(alloc, &Unwritten, command)?)
}

/// Evaluates the command of this name on the empty chain: its writes and its reply.
fn outcome_of(alloc: Global, name: &str) -> Result<(Writes, Reply), Refusal> {
    outcome(alloc, &command(alloc, name)?)
}

/// Returns a list of one item.
fn list_of<T: Drop>(alloc: Global, item: T) -> Result<Items<T>, Refusal> {
    let mut items = Items::new(alloc);
    items.push(item)?;
    Ok(items)
}

/// Returns a transaction that writes `a` if it is absent, and reads it.
fn mini(alloc: Global) -> Result<Mini, Refusal> {
    let compares = list_of(alloc, (object(alloc, b"a")?, Version::new(0)))?;
    let reads = list_of(alloc, object(alloc, b"a")?)?;
    let writes = list_of(alloc, (object(alloc, b"a")?, Value::new(alloc, b"2")?))?;
    Mini::new(compares, reads, writes)
}

/// Copies a value, or passes on its refusal.
fn copy_of<T: Copied>(alloc: Global, made: Result<T, Refusal>) -> Result<T, Refusal> {
    Ok(made?.copied(alloc)?)
}

/// Evaluates a copy of the transaction on the empty chain: its writes and its reply.
fn outcome_of_mini(alloc: Global) -> Result<(Writes, Reply), Refusal> {
    let mini = copy_of(alloc, mini(alloc))?;
    outcome(alloc, &Command::Mini(mini))
}

/// Returns the objects of these one-byte keys.
fn objects(alloc: Global, keys: &[u8]) -> Result<Items<ObjectId>, Refusal> {
    let mut objects = Items::new(alloc);
    for key in keys {
        objects.push(object(alloc, &[*key])?)?;
    }
    Ok(objects)
}

/// Returns the number of reads in a transaction that is asked to read these keys.
fn count_of_reads(alloc: Global, keys: &[u8]) -> Result<usize, Refusal> {
    let reads = objects(alloc, keys)?;
    let mini = Mini::new(Items::new(alloc), reads, Items::new(alloc))?;
    Ok(mini.reads().len())
}

/// The keys of transactions: none, 16, one twice in 16, 17, one twice in 17.
static READS: [&[u8]; 5] = [
    b"",
    b"abcdefghijklmnop",
    b"aaaaaaaaaaaaaaaa",
    b"abcdefghijklmnopq",
    b"aaaaaaaaaaaaaaaaa",
];

/// Returns an entry that writes `k`.
fn entry(alloc: Global) -> Result<Entry, Refusal> {
    let number = RequestNo::new(6)?;
    let write = Write {
        key: Key::new(alloc, b"k")?,
        version: Version::new(3),
        value: Value::new(alloc, b"v")?,
    };
    Ok(Entry {
        position: Seq::new(4),
        origin_node: NodeId::new(1),
        origin_ticket: Ticket::new(2),
        client: ClientId::new(5),
        number,
        reply: Reply::Written(Version::new(3)),
        writes: list_of(alloc, write)?,
    })
}

/// Returns an update that appends.
fn update(alloc: Global) -> Result<Update, Refusal> {
    let number = RequestNo::new(6)?;
    Ok(Update {
        client: ClientId::new(5),
        number,
        command: command(alloc, "append")?,
    })
}

/// Prints the results of commands by their table, of transactions, and of copies of an entry and an
/// update.
pub(crate) fn run<R: AllocGlobal + Print>(rt: &R) -> io::Result<()> {
    for name in &COMMANDS {
        say(rt, *name, outcome_of(rt.alloc(), *name))?;
    }
    say(rt, "transaction", outcome_of_mini(rt.alloc()))?;
    for keys in &READS {
        say(
            rt,
            "transaction of reads",
            count_of_reads(rt.alloc(), *keys),
        )?;
    }
    say(rt, "entry", copy_of(rt.alloc(), entry(rt.alloc())))?;
    say(rt, "update", copy_of(rt.alloc(), update(rt.alloc())))
}
