//! Defines the trials and their texts as data; chosen by `main`, run by `trials`, `driving` and
//! `trial_gate`.

/// The point of a work item at which the hook holds it.
#[derive(Clone, Copy, PartialEq, Eq)]
pub enum Place {
    Before,
    Within,
    After,
}

/// The master counts as node 0 of its chain.
const MASTER: u64 = 0;

/// The fault that a trial injects.
#[derive(Clone, Copy)]
pub enum Trial {
    /// Node 2 stops and is removed before this work item, while a put is pending that is sent again
    /// afterwards.
    Stop(u64),
    /// Node 2 is held before its first work item, and no lock is held.
    Before,
    /// Node 2 is held within its first work item, under its own lock alone.
    Within,
    /// Node 2 is held after its first work item, and no lock is held.
    After,
    /// The master is held within its first tick, under its own lock alone.
    Master,
    /// This node, the head or the tail, is held before its first work item while the store ticks.
    Filling(u64),
    /// A third of all messages is lost and a tenth of the others sent twice, for this many polls;
    /// then none.
    Losses(u64),
    /// A node joins after this many calls, and messages to it take longer than a tick.
    SlowJoin(u64),
    /// Members stop, are removed and join until this many calls are answered; one message in a
    /// hundred is lost, and one in ten sent twice.
    Changes(u64),
    /// A store is closed while clients send requests, this many times.
    Closes(u64),
}

impl Trial {
    /// Returns the trial's number.
    pub fn number(self) -> u64 {
        match self {
            Trial::Stop(number)
            | Trial::Filling(number)
            | Trial::Losses(number)
            | Trial::SlowJoin(number)
            | Trial::Changes(number)
            | Trial::Closes(number) => number,
            Trial::Before | Trial::Within | Trial::After | Trial::Master => 1,
        }
    }

    /// Returns the number of times that the trial is run.
    pub fn times(self) -> u64 {
        match self {
            Trial::Closes(times) => times,
            _ => 1,
        }
    }

    /// Returns the node that is held, if any is, or the master's 0.
    pub fn held(self) -> u64 {
        match self {
            Trial::Filling(node) => node,
            Trial::Master => MASTER,
            _ => 2,
        }
    }

    /// Returns true if the trial looks at the pending work of this node.
    pub fn fills(self, node: u64) -> bool {
        match self {
            Trial::Filling(held) => node == held,
            _ => false,
        }
    }

    /// Returns true if the trial is about the pending work of a node's worker; there is none with a
    /// chain thread.
    pub fn wants_workers(self) -> bool {
        matches!(self, Trial::Filling(_))
    }

    /// Returns true if the held work is a node's. With a chain thread it is a batch, counted among
    /// its request work.
    pub fn holds_node(self) -> bool {
        self.held() != MASTER
    }

    /// Returns true if the node is held at this point of its work item of this number.
    pub fn holds(self, place: Place, count: u64) -> bool {
        match self {
            Trial::Stop(piece) => place == Place::Before && count == piece,
            Trial::Before | Trial::Filling(_) => place == Place::Before && count == 0,
            Trial::Within | Trial::Master => place == Place::Within && count == 0,
            Trial::After => place == Place::After && count == 0,
            _ => false,
        }
    }
}

/// The trial of a held node's pending work, in words.
const REPEATS: &str =
    "of what is said again and again to a node that is held one of each kind waits, node";

/// The sizes of the trials that can be made larger.
#[derive(Clone, Copy)]
pub struct Sizes {
    /// The number of polls for which messages are lost.
    pub turns: u64,
    /// The number of times that a store is closed.
    pub closes: u64,
    /// The number of calls answered while members change.
    pub calls: u64,
}

impl Sizes {
    /// Returns the sizes of the usual trials.
    pub fn usual() -> Sizes {
        Sizes {
            turns: 100,
            closes: 20,
            calls: 2000,
        }
    }

    /// Sets the size of the command line's word at this place, if it is a number.
    pub fn take(&mut self, place: u64, word: &str) {
        let Ok(size) = word.parse::<u64>() else {
            return;
        };
        match place {
            1 => self.turns = size,
            2 => self.closes = size,
            3 => self.calls = size,
            _ => (),
        }
    }

    /// Returns the trials after those in which node 2 stops, each in words.
    pub fn others(self) -> [(Trial, &'static str); 10] {
        [
            (
                Trial::Before,
                "before a piece of work no lock is held, times",
            ),
            (
                Trial::Within,
                "within it the lock of its node alone is held, times",
            ),
            (Trial::After, "after it no lock is held, times"),
            (
                Trial::Master,
                "within a tick of the master its lock alone is held, times",
            ),
            (Trial::Filling(1), REPEATS),
            (Trial::Filling(3), REPEATS),
            (
                Trial::Losses(self.turns),
                "a third of all messages is lost, then none, and all calls are answered, turns",
            ),
            (
                Trial::SlowJoin(600),
                "a node joins whose state takes longer to send than a tick, calls before",
            ),
            (
                Trial::Changes(self.calls),
                "nodes stop, go and join while clients ask, calls answered at least",
            ),
            (
                Trial::Closes(self.closes),
                "a store is closed while clients ask, times",
            ),
        ]
    }
}
