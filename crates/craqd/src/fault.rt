//! Why `craqd` ends or serves nothing, with the text and the status of each reason; for `main`,
//! `serving`, `plans`, `audits` and `closing`.
ghost use Rattle.std.specs.Prelude.{◌≡◌, Some, IfOk};
ghost use Rattle.craqd.specs.Statuses.{status_of};

use crate::lines::FaultLine;
use craq_cli::{BAD_INPUT, NO_MEMORY};
use craq_names::Refusal;
use std::alloc::{AllocError, AllocFailed};
use std::io;

/// The status where nothing can be listened to.
const CANNOT_LISTEN: u8 = 4;

/// The status where an audit was refused.
const AUDIT_REFUSED: u8 = 5;

/// Reasons why the server serves nothing, or no more.
#[derive(Clone, Copy)]
pub enum Fault {
    /// The plan file is not read.
    CannotRead,
    /// The text stands for no plan.
    BadPlan,
    /// A growth was refused, or no thread can be made.
    Memory,
    /// The address cannot be listened to.
    CannotListen,
    /// An audit was refused.
    AuditRefused(Refusal),
    /// The output takes no text.
    CannotPrint(io::Error),
}

impl From<AllocError> for Fault {
    fn from(_error: AllocError) -> Self {
        Fault::Memory
    }
}

impl From<io::Error> for Fault {
    fn from(error: io::Error) -> Self {
        Fault::CannotPrint(error)
    }
}

impl<T: Drop> From<AllocFailed<T>> for Fault {
    fn from(_error: AllocFailed<T>) -> Self {
        Fault::Memory
    }
}

impl Fault {
    /// Returns the fault of a refused audit: `Memory` when out of memory, else `AuditRefused` with
    /// the refusal.
    pub fn of_audit(refusal: Refusal) -> Self
        ensures memory { refusal ≡ Refusal.Memory → result ≡ Fault.Memory }
        ensures other { ¬ (refusal ≡ Refusal.Memory) → result ≡ Fault.AuditRefused refusal }
    {
        match refusal {
            Refusal::Memory => Fault::Memory,
            _ => Fault::AuditRefused(refusal),
        }
    }

    /// Prints what was wrong with a server whose plan file has this name, as `FaultLine` writes it.
    /// Returns the status. A fault of the output is not printed; its error is returned.
    pub fn report<R: Eprint>(self, rt: &R, plan: &str) -> io::Result<u8>
        ensures { IfOk result (λ status. status_of self ≡ Some status) }
    {
        let status = match self {
            Fault::CannotRead | Fault::BadPlan => BAD_INPUT,
            Fault::Memory => NO_MEMORY,
            Fault::CannotListen => CANNOT_LISTEN,
            Fault::AuditRefused(_) => AUDIT_REFUSED,
            Fault::CannotPrint(error) => return Err(error),
        };
        let line = FaultLine { fault: self, plan };
        eprintln!(rt; "{line}")?;
        Ok(status)
    }
}
