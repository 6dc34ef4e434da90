//! Defines the two forms of a store; every test is run in each. The program goes through them, and
//! the hooks pass the form to the store.

/// The threads that run the steps of a store.
#[derive(Clone, Copy)]
pub enum Form {
    /// Two threads for each node.
    Workers,
    /// One chain thread, and callers run the steps of their reads.
    ChainThread,
}

/// All forms, in words.
pub const FORMS: [(Form, &str); 2] = [
    (Form::Workers, "two threads a node"),
    (Form::ChainThread, "two threads a chain"),
];

impl Form {
    /// Returns true if the chain's own threads run its steps.
    pub fn is_chain_thread(self) -> bool {
        matches!(self, Form::ChainThread)
    }
}
