//! Defines how a test fails and how that is printed; every test calls it for its expectations.
use craq_names::Refusal;
use std::alloc::{AllocError, AllocFailed};
use std::io;

/// The property that a test expects.
#[derive(Clone, Copy)]
pub enum Fact {
    AnswersMeanwhile,
    IsFree,
    IsLocked,
    FindsNothing,
    Writes,
    Finds,
    TakesItsStep,
    IsStopped,
    PutsWait,
    ComesBack,
    NineOfTen,
    IsCounted,
    IsMerged,
    IsClosed,
    IsRefused,
    HasItsMembers,
    HasItsThreads,
    IsHeld,
    WaitsOnce,
    IsReady,
    IsAnswered,
    IsInTime,
    HasItsVersion,
    LeavesNone,
}

impl Fact {
    /// Returns the property in words.
    fn text(self) -> &'static str {
        match self {
            Fact::AnswersMeanwhile => "a node answers while another is held",
            Fact::IsFree => "the locks are free meanwhile",
            Fact::IsLocked => "the lock of its node or master is held meanwhile",
            Fact::FindsNothing => "the first read finds nothing",
            Fact::Writes => "the put writes version 1",
            Fact::Finds => "the read finds version 1",
            Fact::TakesItsStep => "the step is taken by whom it is to be",
            Fact::IsStopped => "the caller is refused as stopped",
            Fact::PutsWait => "puts wait while a node joins and while one is removed",
            Fact::ComesBack => "every call comes back",
            Fact::NineOfTen => "nine of ten calls are answered and not refused",
            Fact::IsCounted => "a node counts the pieces of its ask work without gaps",
            Fact::IsMerged => "the audit finds a run with every receipt",
            Fact::IsClosed => "a store that was closed answers that it is",
            Fact::IsRefused => "a move that is not allowed is refused",
            Fact::HasItsMembers => "the chain has its epoch and its members",
            Fact::HasItsThreads =>
                "the threads of the nodes and one for the master, and none once it is closed",
            Fact::IsHeld => "the gate holds whom it is to hold",
            Fact::WaitsOnce => "of what is said again and again one waits",
            Fact::IsReady => "the node that joined answers a strong read",
            Fact::IsAnswered => "every call is answered",
            Fact::IsInTime => "every call is answered within the ticks that it is given",
            Fact::HasItsVersion => "each answer has the version that it should",
            Fact::LeavesNone => "no thread is left of a closed store",
        }
    }
}

/// The reason that a test fails.
#[derive(Clone, Copy)]
pub enum Fault {
    /// A call of the store was refused.
    Refused(Refusal),
    /// This property was expected, and does not hold.
    Unmet(Fact),
    /// The test did not end in its time.
    Late,
}

impl From<Refusal> for Fault {
    fn from(refusal: Refusal) -> Fault {
        Fault::Refused(refusal)
    }
}

impl From<AllocError> for Fault {
    fn from(_: AllocError) -> Fault {
        Fault::Refused(Refusal::Memory)
    }
}

impl<T: Drop> From<AllocFailed<T>> for Fault {
    fn from(_: AllocFailed<T>) -> Fault {
        Fault::Refused(Refusal::Memory)
    }
}

/// Returns `Unmet` with the expected property if `is_so` is false.
pub fn expect(is_so: bool, expected: Fact) -> Result<(), Fault> {
    if is_so {
        Ok(())
    } else {
        Err(Fault::Unmet(expected))
    }
}

/// Returns `Unmet` with the expected property unless this refusal came.
pub fn expect_refusal(
    came: Option<Refusal>,
    refusal: Refusal,
    expected: Fact,
) -> Result<(), Fault> {
    match came {
        Some(came) => expect(came == refusal, expected),
        None => Err(Fault::Unmet(expected)),
    }
}

/// Prints how a test ended, and ends the line that the test's own words begin.
pub fn tell(host: HostRuntime, ended: &Result<(), Fault>) -> io::Result<()> {
    match ended {
        Ok(()) => println!(host; "holds"),
        Err(Fault::Refused(refusal)) => println!(host; "fails, refused: {refusal}"),
        Err(Fault::Unmet(fact)) => {
            let fact = fact.text();
            println!(host; "fails, not so: {fact}")
        }
        Err(Fault::Late) => println!(host; "fails, does not end"),
    }
}
