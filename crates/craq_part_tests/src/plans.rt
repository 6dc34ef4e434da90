//! Tests texts that are chain configurations and texts that are not, and the chain of an object;
//! run by `main`.
use crate::say;
use craq_commands::Mini;
use craq_names::{ChainId, Items, Key, ObjectId, Refusal};
use craq_place::Plan;
use std::alloc::{AllocError, Global};
use std::fmt::Write;
use std::io;

/// A configuration of two chains.
const TWO_CHAINS: &str =
    "[[chain]]\nname = \"a\"\nnodes = [1, 2, 3]\n[[chain]]\nnodes = [4]\nname = \"b-2\"\n";

/// Returns the object of this chain and key.
fn plan_object(alloc: Global, chain: u16, key: &[u8]) -> Result<ObjectId, Refusal> {
    Ok(ObjectId {
        chain: ChainId::new(chain),
        key: Key::new(alloc, key)?,
    })
}

/// Prints the chain of an object.
fn print_place<R: Print>(rt: &R, plan: &Plan, object: &ObjectId) -> io::Result<()> {
    let place = plan.chain_of(object);
    println!(rt; "place: {place:?}")
}

/// Returns the configuration of two chains, and an object of this chain.
fn plan_and_object(alloc: Global, chain: u16) -> Result<(Plan, ObjectId), Refusal> {
    let plan = Plan::read(alloc, TWO_CHAINS)?;
    Ok((plan, plan_object(alloc, chain, b"k")?))
}

fn print_place_in<R: AllocGlobal + Print>(rt: &R, chain: u16) -> io::Result<()> {
    match plan_and_object(rt.alloc(), chain) {
        Ok((plan, object)) => print_place(rt, &plan, &object),
        Err(refusal) => say(rt, "plan", refusal),
    }
}

/// Returns a transaction that reads an object of each of these chains.
fn mini_of(alloc: Global, first: u16, second: u16) -> Result<Mini, Refusal> {
    let mut reads = Items::new(alloc);
    reads.push(plan_object(alloc, first, b"a")?)?;
    reads.push(plan_object(alloc, second, b"b")?)?;
    Mini::new(Items::new(alloc), reads, Items::new(alloc))
}

/// Returns the chain that a configuration of two chains finds for reads of an object of each of
/// these chains.
fn chain_of_reads(alloc: Global, first: u16, second: u16) -> Result<ChainId, Refusal> {
    let mini = mini_of(alloc, first, second)?;
    Plan::read(alloc, TWO_CHAINS)?.one_chain(&mini)
}

/// Returns the refusal of a text that is no configuration.
fn refusal_of(alloc: Global, text: &str) -> Option<Refusal> {
    Plan::read(alloc, text).err()
}

static TEXTS: [&str; 18] = [
    "",
    "chain = 1",
    "chain = []",
    "[[chain]]\nname = \"a\"\nnodes = [-1]\n",
    "[[chain]",
    "[[chain]]\nname = \"a\"\nnodes = [1]\n[[chain]]\nname = \"a\"\nnodes = [2]\n",
    "[[chain]]\nname = \"a\"\nnodes = [1]\nextra = 1\n",
    "[[chain]]\nname = \"a\"\nnodes = [1]\n[other]\n",
    "[[chain]]\nname = \"a\"\nnodes = [0]\n",
    "[[chain]]\nname = \"a\"\nnodes = [1, 2, 3, 4, 5, 6, 7, 8, 9]\n",
    "[[chain]]\nname = \"a\"\nnodes = [1, 1]\n",
    "[[chain]]\nname = \"a\"\nnodes = []\n",
    "[[chain]]\nname = \"a\"\nnodes = [4294967296]\n",
    "[[chain]]\nname = \"a\"\nnodes = [\"1\"]\n",
    "[[chain]]\nname = \"\"\nnodes = [1]\n",
    "[[chain]]\nname = \"a b\"\nnodes = [1]\n",
    "[[chain]]\nname = 1\nnodes = [1]\n",
    "[[chain]]\nname = \"a\"\n",
];

/// Returns the text of a configuration of `count` chains.
fn chains(alloc: Global, count: u32) -> Result<String, AllocError> {
    let mut text = String::new(alloc);
    for chain in 0..count {
        write!(text, "[[chain]]\nname = \"c{chain}\"\nnodes = [1]\n")?;
    }
    Ok(text)
}

/// Prints the results for configurations: the chain of an object, the chain of a transaction, and
/// bad texts.
pub(crate) fn run<R: AllocGlobal + Print>(rt: &R) -> io::Result<()> {
    print_place_in(rt, 1)?;
    print_place_in(rt, 2)?;
    for (first, second) in [(1, 1), (1, 0), (2, 0)] {
        say(rt, "reads", chain_of_reads(rt.alloc(), first, second))?;
    }
    for text in &TEXTS {
        say(rt, "no plan", refusal_of(rt.alloc(), *text))?;
    }
    for count in [64, 65] {
        let text = chains(rt.alloc(), count)?;
        say(rt, "many chains", refusal_of(rt.alloc(), text.as_str()))?;
    }
    Ok(())
}
