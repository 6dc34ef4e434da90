//! The defaults of verbs for people: the address of the server, and the client's id, which is drawn
//! once and kept; for `main`, `people` and `shell`.
use crate::fault::{Fault, IdSource};
use craq_cli::is_address;
use craq_script::number_up_to;
use std::alloc::Global;
use std::env::{Env, VarError};
use std::io::ErrorKind;
use std::random::RandomSource;
use std::rt::{Clock, Files};
use std::{env, fs};

/// The address where `CRAQ_CONNECT` names none.
const ADDRESS: &str = "127.0.0.1:7000";

/// Returns a variable of the environment; `None` if it is missing, empty or no text.
fn variable<R: AllocGlobal + Env>(rt: &R, name: &str) -> Result<Option<String>, Fault> {
    match env::var(rt, name) {
        Ok(text) => Ok(if text.is_empty() { None } else { Some(text) }),
        Err(VarError::OutOfMemory) => Err(Fault::Memory),
        Err(_) => Ok(None),
    }
}

/// Returns the variable `CRAQ_CONNECT`, or 127.0.0.1:7000 if it is missing or empty. `BadAddress` if
/// it is not HOST:PORT.
pub fn default_address<R: AllocGlobal + Env>(rt: &R) -> Result<String, Fault> {
    match variable(rt, "CRAQ_CONNECT")? {
        Some(address) if !is_address(address.as_str().as_bytes())? => Err(Fault::BadAddress),
        Some(address) => Ok(address),
        None => Ok(String::from_str(rt.alloc(), ADDRESS)?),
    }
}

/// The folder of the client's id.
#[derive(Drop)]
struct StateFolder {
    path: String,
    /// The place of the id, by the variable that names the folder.
    source: IdSource,
}

/// Returns the folder of the client's id, in the state folder of the XDG standard; `None` if the
/// environment names no such folder.
fn state_folder<R: AllocGlobal + Env>(rt: &R) -> Result<Option<StateFolder>, Fault> {
    if let Some(folder) = variable(rt, "XDG_STATE_HOME")? {
        if folder.starts_with("/") {
            return Ok(Some(StateFolder {
                path: format!(in rt.alloc(); "{folder}/jilsdau")?,
                source: IdSource::StateFolder,
            }));
        }
    }
    match variable(rt, "HOME")? {
        Some(home) => Ok(Some(StateFolder {
            path: format!(in rt.alloc(); "{home}/.local/state/jilsdau")?,
            source: IdSource::Home,
        })),
        None => Ok(None),
    }
}

/// Parses a client's id.
fn id_in(text: &str, source: IdSource) -> Result<u64, Fault> {
    match number_up_to(u64::MAX, text.trim().as_bytes()) {
        Ok(id) => Ok(id),
        Err(_) => Err(Fault::BadId(source)),
    }
}

/// Returns the nanoseconds since 1970.
pub fn nanoseconds<R: Clock>(rt: &R) -> Result<u64, Fault> {
    match rt.since_1970() {
        Ok(time) => Ok(
            time.as_secs()
                .wrapping_mul(1_000_000_000)
                .wrapping_add(u64::from(time.subsec_nanos())),
        ),
        Err(_) => Err(Fault::System),
    }
}

/// Draws an id: a random number of 64 bits, or the nanoseconds since 1970 if the system gives no
/// random bytes.
fn drawn_id<R: Clock + RandomSource>(rt: &R) -> Result<u64, Fault> {
    let mut bytes = [0u8; 8];
    match rt.fill_bytes(&mut bytes) {
        Ok(()) => Ok(u64::from_be_bytes(bytes)),
        Err(_) => nanoseconds(rt),
    }
}

/// Returns the id that a file keeps; `None` if there is no file that can be read.
fn kept_id<R: AllocGlobal + Files>(
    rt: &R,
    file: &str,
    source: IdSource,
) -> Result<Option<u64>, Fault> {
    match fs::read_to_string(rt, file) {
        Ok(text) => Ok(Some(id_in(text.as_str(), source)?)),
        Err(error) if error.kind() == ErrorKind::OutOfMemory => Err(Fault::Memory),
        Err(error) if error.kind() == ErrorKind::InvalidData => Err(Fault::BadId(source)),
        Err(_) => Ok(None),
    }
}

/// Writes the id into the file, whole or not at all. An id that is there already stays. Nothing is
/// reported if the folder cannot be written.
fn keep_id<R: AllocGlobal + Files>(rt: &R, folder: &str, file: &str, id: u64) -> Result<(), Fault> {
    let fresh = format!(in rt.alloc(); "{file}.{id}")?;
    let text = format!(in rt.alloc(); "{id}\n")?;
    let _ = fs::create_dir_all(rt, folder);
    if fs::write(rt, fresh.as_str(), text).is_ok() {
        let _ = fs::hard_link(rt, fresh.as_str(), file);
    }
    let _ = fs::remove_file(rt, fresh.as_str());
    Ok(())
}

/// Returns the id that is kept in the folder, or a new one, which is kept for the next call if the
/// folder can be written.
fn id_of_folder<R>(rt: &R, folder: &StateFolder) -> Result<u64, Fault>
where
    R: AllocGlobal + Files + Clock + RandomSource,
{
    let path = folder.path.as_str();
    let file = format!(in rt.alloc(); "{path}/client")?;
    if let Some(id) = kept_id(rt, file.as_str(), folder.source)? {
        return Ok(id);
    }
    let drawn = drawn_id(rt)?;
    keep_id(rt, path, file.as_str(), drawn)?;
    Ok(kept_id(rt, file.as_str(), folder.source)?.unwrap_or(drawn))
}

/// Returns the client's id: the variable `CRAQ_CLIENT`, else the id that is kept, else a new one.
///
/// `BadId` if the variable or the file holds no number of 64 bits; `Memory` when out of memory;
/// `System` if the system gives neither random bytes nor the time.
pub fn client_id<R>(rt: &R) -> Result<u64, Fault>
where
    R: AllocGlobal + Env + Files + Clock + RandomSource,
{
    if let Some(text) = variable(rt, "CRAQ_CLIENT")? {
        return id_in(text.as_str(), IdSource::Variable);
    }
    match state_folder(rt)? {
        Some(folder) => id_of_folder(rt, &folder),
        None => drawn_id(rt),
    }
}
