//! A fault with its reason, which is printed on a further line; for `main`, `serving` and `plans`.
ghost use Rattle.std.specs.Prelude.{◌≡◌, Some, IfOk};
ghost use Rattle.craqd.specs.Statuses.{status_of};

use crate::fault::Fault;
use std::alloc::{AllocError, AllocFailed};
use std::io;

/// A fault of the start, and its reason if one is known.
#[derive(Drop)]
pub struct StartFailure {
    pub fault: Fault,
    pub reason: Option<String>,
}

impl From<Fault> for StartFailure {
    fn from(fault: Fault) -> Self {
        StartFailure {
            fault,
            reason: None,
        }
    }
}

impl From<AllocError> for StartFailure {
    fn from(_error: AllocError) -> Self {
        StartFailure {
            fault: Fault::Memory,
            reason: None,
        }
    }
}

impl<T: Drop> From<AllocFailed<T>> for StartFailure {
    fn from(_error: AllocFailed<T>) -> Self {
        StartFailure {
            fault: Fault::Memory,
            reason: None,
        }
    }
}

impl StartFailure {
    /// Makes the failure of a fault with this reason; without a reason when out of memory.
    pub fn new(fault: Fault, reason: Result<String, AllocError>) -> Self
        ensures { result.fault ≡ fault }
    {
        StartFailure {
            fault,
            reason: reason.ok(),
        }
    }

    /// Prints the fault of a server whose plan file has this name, and its reason on a further line.
    /// Returns the status. A fault of the output is not printed; its error is returned.
    pub fn report<R: Eprint>(&self, rt: &R, plan: &str) -> io::Result<u8>
        ensures { IfOk result (λ status. status_of self.now.fault ≡ Some status) }
    {
        let status = self.fault.report(rt, plan)?;
        if let Some(reason) = &self.reason {
            let _ = eprintln!(rt; "craqd: {reason}");
        }
        Ok(status)
    }
}
