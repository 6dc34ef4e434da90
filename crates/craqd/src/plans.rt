//! Reads the plan of a file; called by `serving`.
ghost use Rattle.std.specs.Prelude.{◌≡◌, ◌⊎◌, List, IfErr, IfOk, IsUtf8};
ghost use Rattle.craq_place.specs.Plan.{Chain, IsPlan, IsPlanText};

use crate::failure::StartFailure;
use crate::fault::Fault;
use crate::plan_faults::broken_rule;
use craq_names::Refusal;
use craq_place::Plan;
use std::alloc::Global;
use std::fs;
use std::io::ErrorKind;
use std::rt::Files;
use std::str::from_utf8;

/// Reads the bytes of a file.
fn bytes_of<R: AllocGlobal + Files>(rt: &R, path: &str) -> Result<Vec<u8>, StartFailure> {
    match fs::read(rt, path) {
        Ok(bytes) => Ok(bytes),
        Err(error) if error.kind() == ErrorKind::OutOfMemory => Err(StartFailure::from(
            Fault::Memory,
        )),
        Err(error) => {
            let reason = format!(in rt.alloc(); "{error}");
            Err(StartFailure::new(Fault::CannotRead, reason))
        }
    }
}

/// Returns the plan in the bytes of a file. Fails with `BadPlan` exactly if they are no text or no
/// plan, and with `Memory` when out of memory.
fn plan_of_bytes(alloc: Global, bytes: &[u8]) -> Result<Plan, Fault>
    ensures found { IfOk result (λ p. IsUtf8 bytes.now × IsPlanText bytes.now p) }
    ensures only { IfOk result (λ p. (other : List Chain) → IsPlanText bytes.now other → other ≡ p) }
    ensures bad { result ≡ Err Fault.BadPlan → IsUtf8 bytes.now → (p : List Chain) → IsPlanText bytes.now p → ⊥ }
    ensures err { IfErr result (λ e. (e ≡ Fault.BadPlan) ⊎ (e ≡ Fault.Memory)) }
{
    let Ok(text) = from_utf8(bytes) else {
        return Err(Fault::BadPlan);
    };
    match Plan::read(alloc, text) {
        Ok(plan) => Ok(plan),
        Err(Refusal::Memory) => Err(Fault::Memory),
        Err(_) => Err(Fault::BadPlan),
    }
}

/// Reads the plan of a file. The reason behind `BadPlan` is the first rule that the file breaks.
pub fn plan_of<R: AllocGlobal + Files>(rt: &R, path: &str) -> Result<Plan, StartFailure>
    ensures { IfOk result IsPlan }
{
    let bytes = bytes_of(rt, path)?;
    let bytes = bytes.as_slice();
    match plan_of_bytes(rt.alloc(), bytes) {
        Err(Fault::BadPlan) => {
            let reason = broken_rule(rt.alloc(), bytes);
            Err(StartFailure::new(Fault::BadPlan, reason))
        }
        Err(fault) => Err(StartFailure::from(fault)),
        Ok(read) => Ok(read),
    }
}
