//! Undoes a failed write on a buffer, so that each write adds all or nothing; used by `part`,
//! `list` and `command`.
ghost use Rattle.std.specs.Prelude.{◌≡◌, take, OnOk, OnErr};

use bytes::BytesMut;
use std::alloc::AllocError;

/// Returns `written`; if that is an error, first cuts `out` back to its first `len` bytes.
pub(crate) fn undo_if_err(
    out: &mut BytesMut,
    len: usize,
    written: Result<(), AllocError>,
) -> Result<(), AllocError>
    ensures value { result ≡ written }
    ensures all { OnOk result (out.new.items ≡ out.old.items) }
    ensures undone { OnErr result (out.new.items ≡ take len out.old.items) }
{
    if written.is_err() {
        out.truncate(len);
    }
    written
}
