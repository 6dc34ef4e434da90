//! Plays the moves in a world, one by one or all at once, and explains the run; called by `ways`.
use super::histories::{Entries, Kept, entries_in, tell_entries};
use super::rows::{Row, chain};
use super::teller::{Call, TRIES, Teller};
use craq_check::check;
use craq_names::{ChainId, Copied, Refusal};
use craq_node::Core;
use craq_runs::Move;
use craq_world::{Report, World};
use std::alloc::AllocError;

/// Returns the entries of the chain's nodes.
fn entries_of<C: Core + Kept>(world: &World<C>) -> Entries {
    match world.chain(chain()) {
        Ok(seen) => entries_in(seen.cores()),
        Err(_) => entries_in::<C>(&[]),
    }
}

/// Takes a move of the chain. Prints what it did to the histories of the nodes.
fn take<C: Core + Kept>(teller: Teller, world: &mut World<C>, chosen: &Move) {
    for _ in 0..TRIES {
        if let Ok(copy) = chosen.copied(teller.alloc) {
            let before = entries_of(world);
            teller.begin(Call::WorldTake);
            let taken = world.take(teller.alloc, chain(), copy);
            if teller.end(Call::WorldTake, taken == Err(Refusal::Memory)) {
                let _ = println!(teller.host; "{taken:?}");
                tell_entries(teller, before, entries_of(world));
                break;
            }
        }
    }
}

/// Prints the run of the chain, and its linearization witness.
fn tell<C: Core>(teller: Teller, world: &World<C>) {
    let _ = println!(teller.host; "{:?}", world.run_of(chain()));
    for _ in 0..TRIES {
        teller.begin(Call::WorldExplain);
        let reported = world.explain(teller.alloc, chain());
        let is_done = teller.end(
            Call::WorldExplain,
            matches!(&reported, Err(Refusal::Memory)),
        );
        if is_done {
            let _ = println!(teller.host; "{reported:?}");
        }
        drop(reported);
        if is_done {
            break;
        }
    }
}

/// Plays the moves one by one.
pub fn play<C: Core + Kept>(teller: Teller, row: &Row) -> Result<(), Refusal> {
    let mut world: World<C> = row.world(teller.alloc)?;
    for chosen in &row.moves {
        take(teller, &mut world, chosen);
    }
    tell(teller, &world);
    Ok(())
}

/// Returns how many moves of a list were taken, and how many ran out of memory.
fn counts(report: &Report) -> (usize, usize) {
    let (mut taken, mut refused) = (0usize, 0usize);
    for each in report.results.as_slice() {
        match each {
            Ok(_) => taken = taken.saturating_add(1),
            Err(Refusal::Memory) => refused = refused.saturating_add(1),
            Err(_) => (),
        }
    }
    (taken, refused)
}

/// Returns how many moves of a list were taken, and how many ran out of memory. Without a report
/// none was taken.
fn taken_of(reported: &Result<Report, AllocError>) -> (usize, usize) {
    match reported {
        Ok(report) => counts(report),
        Err(_) => (0, 1),
    }
}

/// Returns true if the world's run has exactly `taken` moves, with a linearization witness that
/// holds.
fn stands<C: Core>(teller: Teller, world: &World<C>, taken: usize) -> bool {
    let Ok(run) = world.run_of(chain()) else {
        return false;
    };
    match &world.explain(teller.alloc, chain()) {
        Ok(explanation) => {
            run.moves.len() == taken && matches!(check(teller.alloc, run, explanation), Ok(true))
        }
        Err(_) => false,
    }
}

/// Plays all moves at once in a new world. Returns true if none ran out of memory.
fn run_once<C: Core>(
    teller: Teller,
    row: &Row,
    moves: &[(ChainId, Move)],
) -> Result<bool, Refusal> {
    let mut world: World<C> = row.world(teller.alloc)?;
    teller.begin(Call::WorldRun);
    let reported = world.run(teller.alloc, moves);
    let (taken, refused) = taken_of(&reported);
    let is_whole = teller.end(Call::WorldRun, refused > 0);
    if is_whole {
        let _ = println!(teller.host; "{reported:?}");
        tell(teller, &world);
    } else if refused != 1 || !stands(teller, &world, taken) {
        let _ = println!(teller.host; "what was refused memory was taken otherwise");
    }
    Ok(is_whole)
}

/// Plays all moves at once; a second time, in a new world, if one ran out of memory.
pub fn play_at_once<C: Core>(teller: Teller, row: &Row) {
    let moves = row.listed(teller.alloc);
    for _ in 0..TRIES {
        if !matches!(run_once::<C>(teller, row, moves.as_slice()), Ok(false)) {
            break;
        }
    }
}
