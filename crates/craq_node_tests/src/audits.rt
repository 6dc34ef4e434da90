//! Tests audits of journaled nodes: journals that merge into one run, with its linearization
//! witness, and journals that fit no run. Run by `main`, and used by `refused`.
use crate::cells::{deliver_at, opened, take_all};
use crate::moves::print_explanation;
use craq_audit::{Audit, audit};
use craq_cell_chain::CellChain;
use craq_epochs::StopReceipt;
use craq_names::{NodeId, Pass, Refusal, Stamp};
use craq_node::Core;
use craq_play::print_refusal;
use craq_seat::{BookCell, BookEvent, CallReceipt, Cell, Receipt, Seat, Seated};
use craq_wire::decode;
use craq_world::explain_run;
use std::alloc::{AllocError, Global};
use std::sync::{MutexGuard, Wait};

/// The nodes of a chain of these members, with or without journals, and scripts that are played on
/// them, each with the stamp of its moves' pass.
#[derive(Clone, Copy)]
struct Played {
    members: &'static [u32],
    journal: bool,
    moves: &'static [(u64, &'static str)],
}

/// An extra event on the last chain.
#[derive(Clone, Copy)]
enum Besides {
    Nothing,
    /// Removes node 2, with a receipt of this stamp as the receipt of its stop.
    Removal(u64),
    /// Delivers the message that these bytes encode to its receiver.
    Arrival(&'static [u8]),
}

/// Chains, whose call receipts are presented together, and the nodes to audit with the last chain's
/// book. A node is given by the index of its chain and its id.
#[derive(Clone, Copy)]
pub struct Case {
    pub fact: &'static str,
    chains: &'static [Played],
    besides: Besides,
    cells: &'static [(usize, u32)],
}

/// A put on three nodes, delivered until its reply, and a read at node 2; each move has the pass of
/// the move before.
const PUT_AND_READ: Played = Played {
    members: &[1, 2, 3],
    journal: true,
    moves: &[
        (0, "put 1 1 1 k a"),
        (1, "deliver 1"),
        (2, "deliver 2"),
        (3, "deliver 3"),
        (4, "deliver 4"),
        (5, "read 2 strong k"),
    ],
};

/// A chain of the same members that does nothing.
const QUIET: Played = Played {
    members: &[1, 2, 3],
    journal: true,
    moves: &[],
};

/// A put that has reached the tail, node 3, which sent its acknowledgement to node 2 at stamp 3.
const REACHED: Played = Played {
    members: &[1, 2, 3],
    journal: true,
    moves: &[(0, "put 1 1 1 k a\ndeliver 1\ndeliver 2")],
};

/// A node that ticks and then stops, at stamp 2.
const STOPPED: Played = Played {
    members: &[1, 2],
    journal: true,
    moves: &[(0, "tick 2\nstop 2")],
};

/// The acknowledgement of position 1 from node 3 to node 2, of stamp 3, index 0 and epoch 1.
const ACK: &[u8] = &[
    2, 3, 0, 0, 0, 0, 0, 3, 0, 0, 0, 2, 0, 0, 0, 0, 0, 0, 0, 3, 0, 0, 0, 0, 0, 0, 0, 0, 0, 0, 0, 1,
    0, 0, 0, 0, 0, 0, 0, 1,
];

/// The acknowledgement `ACK` with stamp 2.
const ACK_OF_STAMP_2: &[u8] = &[
    2, 3, 0, 0, 0, 0, 0, 3, 0, 0, 0, 2, 0, 0, 0, 0, 0, 0, 0, 2, 0, 0, 0, 0, 0, 0, 0, 0, 0, 0, 0, 1,
    0, 0, 0, 0, 0, 0, 0, 1,
];

/// The acknowledgement `ACK` with stamp 4.
const ACK_OF_STAMP_4: &[u8] = &[
    2, 3, 0, 0, 0, 0, 0, 3, 0, 0, 0, 2, 0, 0, 0, 0, 0, 0, 0, 4, 0, 0, 0, 0, 0, 0, 0, 0, 0, 0, 0, 1,
    0, 0, 0, 0, 0, 0, 0, 1,
];

/// The acknowledgement `ACK` with index 1.
const ACK_OF_INDEX_1: &[u8] = &[
    2, 3, 0, 0, 0, 0, 0, 3, 0, 0, 0, 2, 0, 0, 0, 0, 0, 0, 0, 3, 0, 0, 0, 1, 0, 0, 0, 0, 0, 0, 0, 1,
    0, 0, 0, 0, 0, 0, 0, 1,
];

/// The acknowledgement `ACK` of position 2.
const ACK_OF_POSITION_2: &[u8] = &[
    2, 3, 0, 0, 0, 0, 0, 3, 0, 0, 0, 2, 0, 0, 0, 0, 0, 0, 0, 3, 0, 0, 0, 0, 0, 0, 0, 0, 0, 0, 0, 1,
    0, 0, 0, 0, 0, 0, 0, 2,
];

/// The three nodes of the only chain, and those of the second of two chains.
const THREE: &[(usize, u32)] = &[(0, 1), (0, 2), (0, 3)];

const THREE_OF_LAST: &[(usize, u32)] = &[(1, 1), (1, 2), (1, 3)];

pub static CASES: [Case; 20] = [
    Case {
        fact: "stamps exceed those of causes: a put, and a read that shows the pass of its answer",
        chains: &[Played {
            members: &[1, 2, 3],
            journal: true,
            moves: &[
                (
                    0,
                    "put 1 1 1 k a
deliver 1
deliver 2
deliver 3
deliver 4",
                ),
                (5, "read 2 strong k"),
            ],
        }],
        besides: Besides::Nothing,
        cells: THREE,
    },
    Case {
        fact: "stamps exceed those of causes: a removal that of the stop, a joined node's that of the join",
        chains: &[Played {
            members: &[1, 2],
            journal: true,
            moves: &[(
                0,
                "tick 2
stop 2
remove 2
join 3
tick 3",
            )],
        }],
        besides: Besides::Nothing,
        cells: THREE,
    },
    Case {
        fact: "a put, and a read that shows its pass, merge",
        chains: &[PUT_AND_READ],
        besides: Besides::Nothing,
        cells: THREE,
    },
    Case {
        fact: "a put merges",
        chains: &[Played {
            members: &[1, 2, 3],
            journal: true,
            moves: &[(
                0,
                "put 1 1 1 k a
deliver 1
deliver 2
deliver 3
deliver 4",
            )],
        }],
        besides: Besides::Nothing,
        cells: &[(0, 3), (0, 1), (0, 2)],
    },
    Case {
        fact: "a lost head and a put that is asked again merge",
        chains: &[Played {
            members: &[1, 2, 3],
            journal: true,
            moves: &[(
                0,
                "put 1 1 1 k a
deliver 1
stop 1
remove 1
deliver 3
put 2 1 1 k a
deliver 4
deliver 2
deliver 5
deliver 8",
            )],
        }],
        besides: Besides::Nothing,
        cells: THREE,
    },
    Case {
        fact: "a join merges, before the put at the same stamp",
        chains: &[Played {
            members: &[1],
            journal: true,
            moves: &[(
                0,
                "put 1 1 1 k a
join 2
deliver 1
deliver 2
deliver 3
deliver 4
deliver 5
read 2 strong k
deliver 6
deliver 7
put 1 1 2 k b
deliver 8
deliver 9",
            )],
        }],
        besides: Besides::Nothing,
        cells: &[(0, 1), (0, 2)],
    },
    Case {
        fact: "a join merges, after the put that it shows",
        chains: &[Played {
            members: &[1],
            journal: true,
            moves: &[
                (0, "put 1 1 1 k a"),
                (1, "join 2"),
                (2, "deliver 1"),
                (3, "deliver 2"),
                (4, "deliver 3"),
                (5, "deliver 4"),
                (6, "deliver 5"),
                (7, "read 2 strong k"),
                (8, "deliver 6"),
                (9, "deliver 7"),
                (10, "put 1 1 2 k b"),
                (11, "deliver 8"),
                (12, "deliver 9"),
            ],
        }],
        besides: Besides::Nothing,
        cells: &[(0, 1), (0, 2)],
    },
    Case {
        fact: "a new cell in a sender's place sent nothing",
        chains: &[QUIET, PUT_AND_READ],
        besides: Besides::Nothing,
        cells: &[(0, 1), (1, 2), (1, 3)],
    },
    Case {
        fact: "there is no audit without journals",
        chains: &[Played {
            journal: false,
            ..PUT_AND_READ
        }],
        besides: Besides::Nothing,
        cells: THREE,
    },
    Case {
        fact: "there is no audit without a node's cell",
        chains: &[PUT_AND_READ],
        besides: Besides::Nothing,
        cells: &[(0, 1), (0, 2)],
    },
    Case {
        fact: "a node's cell is opened at the stamp of its join",
        chains: &[
            Played {
                members: &[1],
                journal: true,
                moves: &[(0, "tick 0\njoin 2")],
            },
            Played {
                members: &[1],
                journal: true,
                moves: &[(0, "join 2")],
            },
        ],
        besides: Besides::Nothing,
        cells: &[(1, 1), (0, 2)],
    },
    Case {
        fact: "a call receipt may come twice",
        chains: &[PUT_AND_READ, PUT_AND_READ],
        besides: Besides::Nothing,
        cells: THREE_OF_LAST,
    },
    Case {
        fact: "a call receipt of another chain is found",
        chains: &[
            Played {
                members: &[1],
                journal: true,
                moves: &[(0, "put 1 1 1 k a")],
            },
            PUT_AND_READ,
        ],
        besides: Besides::Nothing,
        cells: THREE_OF_LAST,
    },
    Case {
        fact: "a removal names the step in which its node stopped",
        chains: &[STOPPED],
        besides: Besides::Removal(2),
        cells: &[(0, 1), (0, 2)],
    },
    Case {
        fact: "a removal that names another step is found",
        chains: &[STOPPED],
        besides: Besides::Removal(1),
        cells: &[(0, 1), (0, 2)],
    },
    Case {
        fact: "a message that arrives is the one that was sent",
        chains: &[REACHED],
        besides: Besides::Arrival(ACK),
        cells: THREE,
    },
    Case {
        fact: "a message of a stamp before it is not",
        chains: &[REACHED],
        besides: Besides::Arrival(ACK_OF_STAMP_2),
        cells: THREE,
    },
    Case {
        fact: "a message of a stamp after it is not",
        chains: &[REACHED],
        besides: Besides::Arrival(ACK_OF_STAMP_4),
        cells: THREE,
    },
    Case {
        fact: "a message of another index is not",
        chains: &[REACHED],
        besides: Besides::Arrival(ACK_OF_INDEX_1),
        cells: THREE,
    },
    Case {
        fact: "a message of another body is not",
        chains: &[REACHED],
        besides: Besides::Arrival(ACK_OF_POSITION_2),
        cells: THREE,
    },
];

/// Opens the nodes of a chain and plays on them.
fn play<C: Core, R: AllocGlobal + Wait>(
    rt: &R,
    played: &Played,
    chains: &mut Vec<CellChain<C>>,
    calls: &mut Vec<CallReceipt>,
    text: &mut String,
) -> Result<(), Refusal> {
    chains.push(opened(rt.alloc(), played.members, played.journal)?)?;
    match chains.last_mut() {
        Some(cells) => take_all(rt, cells, played.moves, calls, text),
        None => Ok(()),
    }
}

/// Returns the stop receipt of a stopped node.
fn stopped_at<C: Core, R: Wait>(rt: &R, seat: &Seat<C>) -> Option<StopReceipt> {
    seat.lock(rt).desk.cell().switch().receipt()
}

/// Removes node 2, with a receipt of this stamp as the receipt of its stop. Does nothing if the
/// node runs.
fn remove<C: Core, R: AllocGlobal + Wait>(
    rt: &R,
    cells: &CellChain<C>,
    seat: &Seat<C>,
    stamp: u64,
) -> Result<(), Refusal> {
    let Some(stopped) = stopped_at(rt, seat) else {
        return Ok(());
    };
    let stop = Receipt {
        node: stopped.name().node,
        stamp: Stamp::new(stamp),
    };
    let removal = BookEvent::Remove { stopped, stop };
    match cells
        .book()
        .lock(rt)
        .take(rt.alloc(), removal, Pass::start())
    {
        Ok(_) => Ok(()),
        Err(refusal) => Err(refusal),
    }
}

/// Applies the extra event to the chain of this node.
fn happen<C: Core, R: AllocGlobal + Wait>(
    rt: &R,
    cells: &CellChain<C>,
    seat: &Seat<C>,
    besides: Besides,
) -> Result<(), Refusal> {
    match besides {
        Besides::Nothing => Ok(()),
        Besides::Removal(stamp) => remove(rt, cells, seat, stamp),
        Besides::Arrival(bytes) => {
            deliver_at(rt, seat, decode(rt.alloc(), bytes)?)?;
            Ok(())
        }
    }
}

/// Returns the journaled nodes whose locks are held.
pub fn cells_in<'a, 'b, C: Core>(
    alloc: Global,
    held: &'a [MutexGuard<'b, Seated<C>>],
) -> Result<Vec<&'a Cell<C>>, AllocError> {
    let mut cells = Vec::new(alloc);
    for seated in held {
        let cell: &'a Cell<C> = seated.desk.cell();
        cells.push(cell)?;
    }
    Ok(cells)
}

/// Prints the result of the audit of these nodes and call receipts.
fn print_audit<C: Core>(
    alloc: Global,
    book: &BookCell,
    cells: &[&Cell<C>],
    calls: &[CallReceipt],
    text: &mut String,
) -> Result<(), AllocError> {
    match &audit(alloc, book, cells, calls) {
        Err(refusal) => print_refusal(text, refusal),
        Ok(Audit::NoSender(node, index)) => {
            let node = node.get();
            writeln!(text, "no sender of what came to {node} as {index}")
        }
        Ok(Audit::NoReceipt(index)) => writeln!(text, "no call of receipt {index}"),
        Ok(Audit::Merged(run)) => {
            let explanation = explain_run(alloc, run)?;
            print_explanation(alloc, &explanation, text)
        }
    }
}

/// Audits nodes of these chains with the last chain's book, while all their locks are held.
fn audit_all<C: Core, R: AllocGlobal + Wait>(
    rt: &R,
    chains: &[CellChain<C>],
    last: &CellChain<C>,
    cells: &[(usize, u32)],
    calls: &[CallReceipt],
    text: &mut String,
) -> Result<(), AllocError> {
    let alloc = rt.alloc();
    let mut held = Vec::new(alloc);
    for (place, id) in cells {
        if let Some(chain) = chains.get(*place) {
            if let Some((_, seat)) = chain.seat(NodeId::new(*id)) {
                held.push(seat.lock(rt))?;
            }
        }
    }
    let audited = cells_in(alloc, held.as_slice())?;
    let book = last.book().lock(rt);
    print_audit(alloc, &book, audited.as_slice(), calls, text)
}

/// Plays a case, and audits its nodes.
fn tell<C: Core, R: AllocGlobal + Wait>(
    rt: &R,
    case: &Case,
    chains: &mut Vec<CellChain<C>>,
    calls: &mut Vec<CallReceipt>,
    text: &mut String,
) -> Result<(), Refusal> {
    for played in case.chains {
        play(rt, played, chains, calls, text)?;
    }
    let Some(last) = chains.last() else {
        return Ok(());
    };
    if let Some((_, seat)) = last.seat(NodeId::new(2)) {
        happen(rt, last, seat, case.besides)?;
    }
    audit_all(
        rt,
        chains.as_slice(),
        last,
        case.cells,
        calls.as_slice(),
        text,
    )?;
    Ok(())
}

/// Returns the output of a case: the receipts of its steps, and the result of the audit.
pub fn reported<C: Core, R: AllocGlobal + Wait>(rt: &R, case: &Case) -> Result<String, Refusal> {
    let alloc = rt.alloc();
    let mut text = String::new(alloc);
    let mut chains: Vec<CellChain<C>> = Vec::new(alloc);
    let mut calls = Vec::new(alloc);
    tell(rt, case, &mut chains, &mut calls, &mut text)?;
    Ok(text)
}
