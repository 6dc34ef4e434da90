//! Tests scripts on a chain with linearization witnesses of their runs: the computed ones, other
//! valid ones, and corrupted ones that `check` rejects. Run by `main`.
use crate::moves::members;
use craq_chain::ChainCore;
use craq_check::check;
use craq_commands::ReadMode;
use craq_explain::explain_run_of;
use craq_model::{Answer, Ask, Out, Step};
use craq_names::{ChainId, Items, Key, NodeId, ObjectId, Refusal, Ticket, Value, Version};
use craq_node::Core;
use craq_play::{PlayedChain, explanation_of, explanation_text};
use craq_runs::{Explanation, Move, Run, Taken};
use craq_schedules::replayed_chain;
use craq_world::explain_run;
use std::alloc::{AllocError, Global};

/// A script on a chain of `nodes` nodes, and a linearization witness of its run, as JSON.
#[derive(Clone, Copy)]
pub struct Case {
    pub fact: &'static str,
    nodes: u32,
    script: &'static str,
    explained: &'static str,
}

/// On one node: a put, a test-and-set that is refused, the same again, and a strong read.
const FOUR_ASKS: &str = "put 1 1 1 k a
tas 1 1 2 k 0 b
tas 1 1 2 k 0 b
read 1 strong k
";

/// On two nodes: a put, its entry, and its acknowledgement, which yields the reply.
const ONE_PUT: &str = "put 1 1 1 k a
deliver 1
deliver 2
";

pub static CASES: [Case; 21] = [
    Case {
        fact: "a put and clean reads",
        nodes: 3,
        script: "put 1 1 1 k a
deliver 1
deliver 2
deliver 3
deliver 4
read 1 strong k
read 2 strong k
read 3 strong k
",
        explained: r#"{"asks":[1],"lens":[0,0,1,1,1,1,1,1],"places":[[1,1,1],[1,2,1],[2,1,1],[3,1,1]]}"#,
    },
    Case {
        fact: "weak reads have no place",
        nodes: 2,
        script: "read 1 eventual k
read 2 bounded:3 k
",
        explained: r#"{"asks":[],"lens":[0,0],"places":[]}"#,
    },
    Case {
        fact: "nothing is asked",
        nodes: 2,
        script: "tick 1
tick 0
",
        explained: r#"{"asks":[],"lens":[0,0],"places":[]}"#,
    },
    Case {
        fact: "dirty reads stand where the tail spoke: before the entry reaches it, and after",
        nodes: 3,
        script: "put 1 1 1 k a
deliver 1
read 2 strong k
deliver 3
deliver 2
deliver 4
read 2 strong k
deliver 6
deliver 7
",
        explained: r#"{"asks":[1],"lens":[0,0,0,0,1,1,1,1,1],"places":[[2,1,0],[2,2,1]]}"#,
    },
    Case {
        fact: "a late word gives way to a clean version",
        nodes: 3,
        script: "put 1 1 1 k a
deliver 1
read 2 strong k
deliver 3
deliver 2
deliver 5
put 1 1 2 k a
deliver 7
deliver 8
deliver 4
",
        explained: r#"{"asks":[1,7],"lens":[0,0,0,0,1,1,1,1,2,2],"places":[[2,1,1]]}"#,
    },
    Case {
        fact: "a retry stands after what is committed",
        nodes: 2,
        script: "put 1 1 1 k a
deliver 1
deliver 2
put 1 2 1 k a
deliver 3
deliver 4
put 1 1 1 k a
",
        explained: r#"{"asks":[1,4],"lens":[0,1,1,1,2,2,2],"places":[[1,1,1],[1,2,2],[1,3,2]]}"#,
    },
    Case {
        fact: "a node that joined commits",
        nodes: 2,
        script: "put 1 1 1 k a
deliver 1
deliver 2
join 3
deliver 3
deliver 4
deliver 5
deliver 6
deliver 7
deliver 8
deliver 9
deliver 10
deliver 11
deliver 12
put 1 1 2 k a
deliver 13
deliver 14
deliver 15
deliver 16
read 3 strong k
",
        explained: r#"{"asks":[1,15],"lens":[0,1,1,1,1,1,1,1,1,1,1,1,1,1,1,1,2,2,2,2],"places":[[1,1,1],[1,2,2],[3,1,2]]}"#,
    },
    Case {
        fact: "a tail that is removed leaves the commit to the next",
        nodes: 3,
        script: "put 1 1 1 k a
deliver 1
stop 3
remove 3
deliver 3
deliver 4
",
        explained: r#"{"asks":[1],"lens":[0,0,0,0,0,1],"places":[]}"#,
    },
    Case {
        fact: "the next node is read",
        nodes: 3,
        script: "put 1 1 1 k a
deliver 1
stop 3
remove 3
deliver 3
deliver 4
deliver 5
deliver 6
deliver 7
read 2 strong k
",
        explained: r#"{"asks":[1],"lens":[0,0,0,0,0,1,1,1,1,1],"places":[[1,1,1],[2,1,1]]}"#,
    },
    Case {
        fact: "four asks",
        nodes: 1,
        script: FOUR_ASKS,
        explained: r#"{"asks":[1,2],"lens":[1,2,2,2],"places":[[1,1,1],[1,2,2],[1,3,2],[1,4,2]]}"#,
    },
    Case {
        fact: "spoiled: updates in another order",
        nodes: 1,
        script: FOUR_ASKS,
        explained: r#"{"asks":[2,1],"lens":[1,2,2,2],"places":[[1,1,1],[1,2,2],[1,3,2],[1,4,2]]}"#,
    },
    Case {
        fact: "spoiled: a request twice",
        nodes: 1,
        script: FOUR_ASKS,
        explained: r#"{"asks":[1,2,3],"lens":[1,2,3,3],"places":[[1,1,1],[1,2,2],[1,3,3],[1,4,3]]}"#,
    },
    Case {
        fact: "spoiled: a length too few",
        nodes: 1,
        script: FOUR_ASKS,
        explained: r#"{"asks":[1,2],"lens":[1,2,2],"places":[[1,1,1],[1,2,2],[1,3,2],[1,4,2]]}"#,
    },
    Case {
        fact: "spoiled: a length that falls",
        nodes: 1,
        script: FOUR_ASKS,
        explained: r#"{"asks":[1,2],"lens":[1,2,1,2],"places":[[1,1,1],[1,2,2],[1,3,2],[1,4,2]]}"#,
    },
    Case {
        fact: "spoiled: a read as an update",
        nodes: 1,
        script: FOUR_ASKS,
        explained: r#"{"asks":[1,4],"lens":[1,1,1,2],"places":[[1,1,1],[1,2,1],[1,3,1],[1,4,2]]}"#,
    },
    Case {
        fact: "spoiled: a place too few",
        nodes: 1,
        script: FOUR_ASKS,
        explained: r#"{"asks":[1,2],"lens":[1,2,2,2],"places":[[1,1,1],[1,2,2],[1,3,2]]}"#,
    },
    Case {
        fact: "spoiled: a read before an update that was committed",
        nodes: 1,
        script: FOUR_ASKS,
        explained: r#"{"asks":[1,2],"lens":[1,2,2,2],"places":[[1,1,1],[1,2,2],[1,3,2],[1,4,1]]}"#,
    },
    Case {
        fact: "spoiled: an update before itself",
        nodes: 1,
        script: FOUR_ASKS,
        explained: r#"{"asks":[1,2],"lens":[1,2,2,2],"places":[[1,1,1],[1,2,1],[1,3,2],[1,4,2]]}"#,
    },
    Case {
        fact: "spoiled: an answer before its update was committed",
        nodes: 1,
        script: FOUR_ASKS,
        explained: r#"{"asks":[1,2],"lens":[0,2,2,2],"places":[[1,1,0],[1,2,2],[1,3,2],[1,4,2]]}"#,
    },
    Case {
        fact: "an answer after a message",
        nodes: 2,
        script: ONE_PUT,
        explained: r#"{"asks":[1],"lens":[0,1,1],"places":[[1,1,1]]}"#,
    },
    Case {
        fact: "spoiled: an answer to what was never committed",
        nodes: 2,
        script: ONE_PUT,
        explained: r#"{"asks":[1],"lens":[0,0,0],"places":[[1,1,0]]}"#,
    },
];

/// Reads the linearization witness from this text. `BadFrame` if the text is not one.
fn explanation(alloc: Global, text: &str) -> Result<Explanation, Refusal> {
    match explanation_of(alloc, text.as_bytes()) {
        Ok(given) => Ok(given),
        Err(_) => Err(Refusal::BadFrame),
    }
}

/// Returns true if `check` accepts the linearization witness in this text for a run.
fn holds(alloc: Global, run: &Run, text: &str) -> Result<bool, Refusal> {
    let given = explanation(alloc, text)?;
    Ok(check(alloc, run, &given)?)
}

/// Returns true if a linearization witness is encoded as this text.
fn is_encodable(alloc: Global, explanation: &Explanation, text: &str) -> Result<bool, AllocError> {
    Ok(explanation_text(alloc, explanation)?.as_str() == text)
}

/// Prints whether a linearization witness holds for a chain; whether it is the computed one, with
/// and without the run's chain given; and how many messages the chain sent.
fn print_verdict<C: Core>(
    alloc: Global,
    chain: &ChainCore<C>,
    explained: &str,
    text: &mut String,
) -> Result<(), Refusal> {
    let holds = holds(alloc, chain.run(), explained)?;
    let known = explain_run_of(alloc, chain.chain(), chain.run())?;
    let known = is_encodable(alloc, &known, explained)?;
    let anywhere = explain_run(alloc, chain.run())?;
    let anywhere = is_encodable(alloc, &anywhere, explained)?;
    let sent = chain.sent();
    writeln!(text, "{holds}, chosen {known} {anywhere}, {sent} sent")?;
    Ok(())
}

/// Plays the script of a case, and returns the verdict on its linearization witness.
pub fn reported<C: Core>(alloc: Global, case: &Case) -> Result<String, Refusal> {
    let mut text = String::new(alloc);
    let nodes = case.nodes.max(1).min(8);
    let chain: PlayedChain<C> = replayed_chain(alloc, nodes, case.script.as_bytes())?;
    print_verdict(alloc, chain.as_chain(), case.explained, &mut text)?;
    Ok(text)
}

/// Returns the step of a read that returns this value of an object that was never put.
fn reading(alloc: Global, value: &[u8]) -> Result<Step, Refusal> {
    let value = Value::new(alloc, value)?;
    let version = Version::new(0);
    let ticket = Ticket::new(1);
    let answer = Answer::Read { version, value };
    let mut outs = Items::new(alloc);
    outs.push(Out::Answer { ticket, answer })?;
    Ok(Step {
        ticket: Some(ticket),
        outs,
        ignored: None,
    })
}

/// Returns a strong read at node 1.
fn strong_read(alloc: Global) -> Result<Move, Refusal> {
    let key = Key::new(alloc, b"k")?;
    let chain = ChainId::new(0);
    let ask = Ask::Read {
        mode: ReadMode::Strong,
        object: ObjectId { chain, key },
    };
    Ok(Move::Ask {
        node: NodeId::new(1),
        ask,
    })
}

/// Returns that read as a taken move that returns this value of an object that was never put.
fn read_giving(alloc: Global, value: &[u8]) -> Result<Taken, Refusal> {
    let step = reading(alloc, value)?;
    match strong_read(alloc) {
        Ok(chosen) => Ok(Taken { chosen, step }),
        Err(refusal) => {
            drop(step);
            Err(refusal)
        }
    }
}

/// Returns the run of this single move.
fn one_read(alloc: Global, value: &[u8]) -> Result<Run, Refusal> {
    let mut moves = Items::new(alloc);
    moves.push(read_giving(alloc, value)?)?;
    let members = members(alloc, &[1])?;
    Ok(Run { members, moves })
}

/// A linearization witness of one strong read.
const ONE_READ: &str = r#"{"asks":[],"lens":[0],"places":[[1,1,0]]}"#;

/// Prints whether that witness holds for a read that returns this value.
fn print_read(alloc: Global, value: &[u8], text: &mut String) -> Result<(), Refusal> {
    let run = one_read(alloc, value)?;
    let holds = holds(alloc, &run, ONE_READ)?;
    writeln!(text, "{holds}")?;
    Ok(())
}

/// Returns the output for two reads of an object that was never put: with its value, and with
/// another value.
pub fn reported_of_values(alloc: Global) -> Result<String, Refusal> {
    let mut text = String::new(alloc);
    print_read(alloc, b"", &mut text)?;
    print_read(alloc, b"b", &mut text)?;
    Ok(text)
}
