//! Tests worlds of two chains, over any core; run by `main`, and used by `refused`.
use crate::moves::{members, moves_of, print_explanation};
use craq_names::{ChainId, Refusal};
use craq_node::Core;
use craq_play::print_refusal;
use craq_runs::Move;
use craq_world::World;
use std::alloc::{AllocError, Global};

/// A move: its chain, and its line of a script.
type Line = (u16, &'static str);

/// Moves of two chains of two nodes; the chain to observe; and other moves that must lead to the
/// same observation.
#[derive(Clone, Copy)]
pub struct Scene {
    pub fact: &'static str,
    moves: &'static [Line],
    alone: &'static [Line],
    chain: u16,
}

/// Moves of chain 0: a put that reaches the tail twice and is acknowledged, a read, ticks; then
/// node 2 stops and is removed, and node 3 joins.
const IN_CHAIN_0: &[Line] = &[
    (0, "put 1 1 1 k a"),
    (0, "deliver 1"),
    (0, "deliver 2"),
    (0, "deliver 1"),
    (0, "read 2 strong k"),
    (0, "tick 1"),
    (0, "stop 2"),
    (0, "remove 2"),
    (0, "join 3"),
    (0, "tick 0"),
    (0, "deliver 5"),
    (0, "deliver 6"),
];

/// The moves of `IN_CHAIN_0`, for chain 1.
const IN_CHAIN_1: &[Line] = &[
    (1, "put 1 1 1 1/k a"),
    (1, "deliver 1"),
    (1, "deliver 2"),
    (1, "deliver 1"),
    (1, "read 2 strong 1/k"),
    (1, "tick 1"),
    (1, "stop 2"),
    (1, "remove 2"),
    (1, "join 3"),
    (1, "tick 0"),
    (1, "deliver 5"),
    (1, "deliver 6"),
];

/// The moves of both chains, interleaved.
const IN_BOTH: &[Line] = &[
    (0, "put 1 1 1 k a"),
    (1, "put 1 1 1 1/k a"),
    (0, "deliver 1"),
    (1, "deliver 1"),
    (0, "deliver 2"),
    (1, "deliver 2"),
    (0, "deliver 1"),
    (1, "deliver 1"),
    (0, "read 2 strong k"),
    (1, "read 2 strong 1/k"),
    (0, "tick 1"),
    (1, "tick 1"),
    (0, "stop 2"),
    (1, "stop 2"),
    (0, "remove 2"),
    (1, "remove 2"),
    (0, "join 3"),
    (1, "join 3"),
    (0, "tick 0"),
    (1, "tick 0"),
    (0, "deliver 5"),
    (1, "deliver 5"),
    (0, "deliver 6"),
    (1, "deliver 6"),
];

/// The put, its entry and its acknowledgement, the entry again, and the read.
const PUT_AND_READ: &[Line] = &[
    (0, "put 1 1 1 k a"),
    (0, "deliver 1"),
    (0, "deliver 2"),
    (0, "deliver 1"),
    (0, "read 2 strong k"),
];

pub static SCENES: [Scene; 6] = [
    Scene {
        fact: "chains do not meet: the first of two that take moves in turn",
        moves: IN_BOTH,
        alone: IN_CHAIN_0,
        chain: 0,
    },
    Scene {
        fact: "chains do not meet: the second of them",
        moves: IN_BOTH,
        alone: IN_CHAIN_1,
        chain: 1,
    },
    Scene {
        fact: "chains do not meet: one that takes no move beside one that does",
        moves: IN_CHAIN_0,
        alone: &[],
        chain: 1,
    },
    Scene {
        fact: "a put is explained",
        moves: PUT_AND_READ,
        alone: PUT_AND_READ,
        chain: 0,
    },
    Scene {
        fact: "refused moves change nothing",
        moves: &[
            (0, "put 1 1 1 k a"),
            (0, "deliver 2"),
            (0, "stop 3"),
            (0, "remove 1"),
            (0, "remove 3"),
            (0, "join 1"),
            (2, "tick 0"),
        ],
        alone: &[(0, "put 1 1 1 k a")],
        chain: 0,
    },
    Scene {
        fact: "a world of two chains has no chain 2",
        moves: &[],
        alone: &[],
        chain: 2,
    },
];

/// Opens a world of `count` chains with equal lists of members.
pub fn opened<C: Core>(alloc: Global, count: usize, ids: &[u32]) -> Result<World<C>, Refusal> {
    let mut lists = Vec::new(alloc);
    for _ in 0..count {
        lists.push(members(alloc, ids)?)?;
    }
    World::open(alloc, lists.as_slice())
}

/// Returns the move of each line, with its chain.
fn listed(alloc: Global, lines: &[Line]) -> Result<Vec<(ChainId, Move)>, Refusal> {
    let mut list = Vec::new(alloc);
    for (chain, line) in lines {
        for chosen in moves_of(alloc, line)? {
            list.push((ChainId::new(*chain), chosen))?;
        }
    }
    Ok(list)
}

/// Prints the number that a move was given, or its refusal.
fn print_result(text: &mut String, taken: &Result<u64, Refusal>) -> Result<(), AllocError> {
    match taken {
        Ok(number) => writeln!(text, "{number}"),
        Err(refusal) => print_refusal(text, refusal),
    }
}

/// Takes moves, one after another, and prints each outcome.
fn take_all<C: Core>(
    alloc: Global,
    world: &mut World<C>,
    lines: &[Line],
    text: &mut String,
) -> Result<(), Refusal> {
    for (chain, chosen) in listed(alloc, lines)? {
        print_result(text, &world.take(alloc, chain, chosen))?;
    }
    Ok(())
}

/// The observation of a chain: the outcomes of the moves, the chain's run, and its linearization
/// witness.
#[derive(Drop)]
struct WorldView {
    results: String,
    run: String,
    explanation: String,
}

/// Observes the run of a chain and its linearization witness, or the refusal if the world has no
/// such chain.
fn look<C: Core>(
    alloc: Global,
    world: &World<C>,
    chain: ChainId,
    seen: &mut WorldView,
) -> Result<(), AllocError> {
    let text = &mut seen.run;
    match world.run_of(chain) {
        Ok(run) => write!(text, "{run:?}")?,
        Err(refusal) => print_refusal(&mut seen.results, &refusal)?,
    }
    match &world.explain(alloc, chain) {
        Ok(explanation) => print_explanation(alloc, explanation, &mut seen.explanation),
        Err(refusal) => print_refusal(&mut seen.explanation, refusal),
    }
}

/// Takes these moves in a new world, and observes a chain.
fn come_to<C: Core>(
    alloc: Global,
    lines: &[Line],
    chain: ChainId,
    seen: &mut WorldView,
) -> Result<(), Refusal> {
    let mut world: World<C> = opened(alloc, 2, &[1, 2])?;
    take_all(alloc, &mut world, lines, &mut seen.results)?;
    look(alloc, &world, chain, seen)?;
    Ok(())
}

/// Returns the observation of a chain after these moves in a new world.
fn come_to_by<C: Core>(
    alloc: Global,
    lines: &[Line],
    chain: ChainId,
) -> Result<WorldView, Refusal> {
    let mut seen = WorldView {
        results: String::new(alloc),
        run: String::new(alloc),
        explanation: String::new(alloc),
    };
    come_to::<C>(alloc, lines, chain, &mut seen)?;
    Ok(seen)
}

/// Prints the observation of a chain, and whether it equals another.
fn print_seen(text: &mut String, one: &WorldView, other: &WorldView) -> Result<(), AllocError> {
    let is_same = one.run == other.run && one.explanation == other.explanation;
    text.push_str(one.results.as_str())?;
    text.push_str(one.explanation.as_str())?;
    writeln!(text, "the same {is_same}")
}

/// Returns the output of a scene, and whether the other moves lead to the same observation.
pub fn reported<C: Core>(alloc: Global, scene: &Scene) -> Result<String, Refusal> {
    let mut text = String::new(alloc);
    let chain = ChainId::new(scene.chain);
    let one = come_to_by::<C>(alloc, scene.moves, chain)?;
    let other = come_to_by::<C>(alloc, scene.alone, chain)?;
    print_seen(&mut text, &one, &other)?;
    Ok(text)
}

/// Moves of a list, two of which are refused.
const LISTED: &[Line] = &[
    (0, "tick 0"),
    (0, "deliver 9"),
    (1, "stop 2"),
    (7, "deliver 1"),
    (0, "deliver 1"),
];

/// Takes the moves of `LISTED` by one call, and prints each outcome.
fn run_listed<C: Core>(
    alloc: Global,
    world: &mut World<C>,
    text: &mut String,
) -> Result<(), Refusal> {
    let moves = listed(alloc, LISTED)?;
    let report = world.run(alloc, moves.as_slice())?;
    for result in report.results.as_slice() {
        print_result(text, result)?;
    }
    Ok(())
}

/// Returns the outcomes of the moves of `LISTED`.
pub fn reported_of_list<C: Core>(alloc: Global) -> Result<String, Refusal> {
    let mut text = String::new(alloc);
    let mut world: World<C> = opened(alloc, 2, &[1, 2])?;
    run_listed(alloc, &mut world, &mut text)?;
    Ok(text)
}

/// Counts of equal lists of members.
static MEMBERSHIPS: [(usize, &[u32]); 9] = [
    (0, &[1]),
    (1, &[1]),
    (64, &[1]),
    (65, &[1]),
    (2, &[]),
    (2, &[0, 1]),
    (2, &[2, 1, 2]),
    (2, &[8, 7, 6, 5, 4, 3, 2, 1]),
    (2, &[9, 8, 7, 6, 5, 4, 3, 2, 1]),
];

/// Returns for each of these counts of lists that a world was opened, or the refusal.
pub fn reported_of_counts<C: Core>(alloc: Global) -> Result<String, Refusal> {
    let mut text = String::new(alloc);
    for (count, ids) in &MEMBERSHIPS {
        match &opened::<C>(alloc, *count, ids) {
            Ok(_) => text.push_str("opened\n")?,
            Err(refusal) => print_refusal(&mut text, refusal)?,
        }
    }
    Ok(text)
}
