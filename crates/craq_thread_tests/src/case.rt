//! Defines the table of cases and their texts; `main` goes through it, and `cases` runs each.

/// The property of a running store that is tested.
#[derive(Clone, Copy)]
pub enum Case {
    /// A call is answered while another node is held under its lock.
    Overlap,
    /// A chain is audited while a work item is held before its node's lock is taken.
    Before,
    /// A chain is audited while a work item is held after its node's lock is released.
    After,
    /// The step of a read is run by its node's request worker; with a chain thread by its caller.
    Taking,
    /// A store without journals reads its own write at another node.
    ReadBack,
    /// A stop answers the callers that wait.
    Stop,
    /// Moves of the master are refused, and threads go and come with nodes.
    Members,
    /// Nodes stop, are removed and join, and messages are lost, while clients keep sending
    /// requests.
    Changes,
}

/// All cases, each in a sentence.
pub const CASES: [(Case, &str); 8] = [
    (
        Case::Overlap,
        "node 3 answers while node 1 is held under its lock, and then node 1 does",
    ),
    (
        Case::Before,
        "the chain is audited while a put is held before its step",
    ),
    (
        Case::After,
        "the chain is audited while a put is held after its step",
    ),
    (
        Case::Taking,
        "who takes the step of a read is its node's worker, or with a chain thread its caller",
    ),
    (
        Case::ReadBack,
        "a store without journals reads its own write at another node",
    ),
    (Case::Stop, "a stop answers the caller that waits"),
    (
        Case::Members,
        "refused moves change nothing, and the threads of a node go and come with it",
    ),
    (
        Case::Changes,
        "nodes stop, go and join, and messages are lost, while clients go on asking",
    ),
];

impl Case {
    /// Returns true if the store keeps journals.
    pub fn has_journals(self) -> bool {
        !matches!(self, Case::ReadBack)
    }
}
