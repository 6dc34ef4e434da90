//! Prints what `craq` tells people: lines on standard error, and output of verbs; for `people` and
//! `health`.
use crate::fault::{Fault, MAYBE_FULL, NO_CONNECTION, REFUSED};
use crate::link::{Failure, ServerLink};
use craq_names::{Pass, Refusal};

/// Prints a line on standard error.
pub fn tell<R: Eprint>(rt: &R, text: &str) -> Result<(), Fault> {
    match eprintln!(rt; "craq: {text}") {
        Ok(()) => Ok(()),
        Err(error) => Err(Fault::CannotPrint(error)),
    }
}

/// Writes bytes to standard output.
pub fn write_out<R: Print>(rt: &R, bytes: &[u8]) -> Result<(), Fault> {
    match rt.write_all(bytes) {
        Ok(()) => Ok(()),
        Err(error) => Err(Fault::CannotPrint(error)),
    }
}

/// Prints a refusal with its number and in words. Returns the status.
fn report_refused<R: AllocGlobal + Eprint>(rt: &R, refusal: Refusal) -> Result<u8, Fault> {
    let (number, detail) = (refusal.number(), refusal.detail());
    let detail = if detail > 0 {
        format!(in rt.alloc(); " {detail}")?
    } else {
        String::new(rt.alloc())
    };
    match eprintln!(rt; "craq: refused {number}{detail}: {refusal}") {
        Ok(()) => Ok(REFUSED),
        Err(error) => Err(Fault::CannotPrint(error)),
    }
}

/// Prints why a request was not answered. Returns the status.
pub fn report_failure<R: AllocGlobal + Eprint>(
    rt: &R,
    link: &ServerLink<'_>,
    failure: Failure,
) -> Result<u8, Fault> {
    let address = link.address();
    let text = match failure {
        Failure::Memory => return Err(Fault::Memory),
        Failure::NoClock => return Err(Fault::System),
        Failure::Refused(refusal) => return report_refused(rt, refusal),
        Failure::Unsent => format!(in rt.alloc(); "no server answers at {address}")?,
        Failure::Broken => {
            format!(in rt.alloc(); "the connection to {address} broke{MAYBE_FULL}")?
        }
        Failure::Late => format!(in rt.alloc(); "no reply came from {address} in time")?,
        Failure::NoReply => format!(in rt.alloc(); "what came from {address} is no reply")?,
    };
    tell(rt, text.as_str())?;
    Ok(NO_CONNECTION)
}

/// Prints the members of a JSON object with the pass.
pub fn print_json<R: AllocGlobal + Print>(rt: &R, members: &str, pass: Pass) -> Result<(), Fault> {
    let pass = pass.stamp().get();
    let text = format!(in rt.alloc(); "{{{members},\"pass\":{pass}}}\n")?;
    write_out(rt, text.as_str().as_bytes())
}
