//! Tests a switch, memberships, and masters whose members come and go; run by `main`.
use crate::say;
use craq_epochs::{Master, Switch, is_membership};
use craq_names::{ChainId, NodeId, NodeName, Refusal};
use std::io;

fn name(chain: u16, node: u32) -> NodeName {
    NodeName {
        chain: ChainId::new(chain),
        node: NodeId::new(node),
    }
}

/// Prints the results of stopping a switch twice.
fn print_switch<R: Print>(rt: &R) -> io::Result<()> {
    let mut switch = Switch::on(name(7, 3));
    say(rt, "switch of", switch.name())?;
    say(rt, "receipt", switch.receipt())?;
    say(rt, "stop", switch.stop())?;
    say(rt, "receipt", switch.receipt())?;
    say(rt, "stop", switch.stop())?;
    say(rt, "receipt", switch.receipt())
}

/// A call on a master.
#[derive(Clone, Copy, Debug)]
enum Ask {
    Join(u32),
    /// Removes the stopped node of a chain.
    Remove(u16, u32),
}

fn answer(master: &mut Master, ask: Ask) -> Result<(), Refusal> {
    match ask {
        Ask::Join(node) => master.join(NodeId::new(node)),
        Ask::Remove(chain, node) => master.remove(Switch::on(name(chain, node)).stop()?),
    }
}

fn ask_all<R: Print>(rt: &R, mut master: Master, asks: &[Ask]) -> io::Result<()> {
    say(rt, "open", master.chain())?;
    say(rt, "opened", master.config())?;
    for ask in asks {
        let answer = answer(&mut master, *ask);
        let config = master.config();
        println!(rt; "{ask:?}: {answer:?}, {config:?}")?;
    }
    Ok(())
}

/// Opens a chain with these members, makes these calls, and prints the results.
fn print_chain<R>(rt: &R, chain: u16, members: &[NodeId], asks: &[Ask]) -> io::Result<()>
where
    R: AllocGlobal + Print,
{
    match Master::open(rt.alloc(), ChainId::new(chain), members) {
        Ok(master) => ask_all(rt, master, asks),
        Err(refusal) => say(rt, "open", refusal),
    }
}

/// Prints whether lists of ids are memberships.
fn print_memberships<R: Print>(rt: &R) -> io::Result<()> {
    let eight = [1, 2, 3, 4, 5, 6, 7, 4_294_967_295].map(NodeId::new);
    let nine = [1, 2, 3, 4, 5, 6, 7, 8, 9].map(NodeId::new);
    say(rt, "eight", is_membership(&eight))?;
    say(rt, "none", is_membership(&[]))?;
    say(rt, "nine", is_membership(&nine))?;
    say(
        rt,
        "the id 0",
        is_membership(&[NodeId::new(1), NodeId::new(0)]),
    )?;
    say(
        rt,
        "an id twice",
        is_membership(&[2, 1, 2].map(NodeId::new)),
    )
}

static FOLLOWING: [Ask; 2] = [Ask::Join(9), Ask::Remove(7, 2)];

static REMOVALS: [Ask; 3] = [Ask::Remove(8, 1), Ask::Remove(7, 2), Ask::Remove(7, 1)];

static JOINS: [Ask; 13] = [
    Ask::Remove(0, 2),
    Ask::Join(0),
    Ask::Join(1),
    Ask::Join(2),
    Ask::Join(3),
    Ask::Join(4),
    Ask::Join(5),
    Ask::Join(6),
    Ask::Join(7),
    Ask::Join(8),
    Ask::Join(9),
    Ask::Join(9),
    Ask::Join(10),
];

/// Prints the results for a switch, for lists that are memberships or not, and for chains whose
/// memberships change.
pub(crate) fn run<R: AllocGlobal + Print>(rt: &R) -> io::Result<()> {
    let one = [NodeId::new(1)];
    let two = [NodeId::new(1), NodeId::new(2)];
    print_switch(rt)?;
    print_memberships(rt)?;
    print_chain(rt, 0, &[NodeId::new(5), NodeId::new(5)], &[])?;
    print_chain(rt, 7, &two, &FOLLOWING)?;
    print_chain(rt, 7, &one, &REMOVALS)?;
    print_chain(rt, 0, &two, &JOINS)
}
