//! Fills the buffers of a connection from a stream and flushes them to one; for `serve` and
//! `exchange`.
ghost use Rattle.std.specs.Prelude.{◌≡◌, ◌+◌, ◌-◌, ◌^◌, ◌<◌, ◌⊎◌, ℕ, List, [], ◌++◌, length, take, Ok, Err, IfOk, IfErr, OnOk, OnErr};
ghost use Rattle.std.specs.Io.KnownBytes.{Appends, Consumes, IsAtEnd, Keeps};

use crate::{Failed, Sink, Source};
use craq_frames::Buffers;
use craq_names::Refusal;

/// The most bytes that are read at once.
const MOST_AT_ONCE: usize = 8_192;

/// Writes all of the bytes. `Io` where a write failed; a prefix of them is written then.
fn write_all<W: Sink>(writer: &mut W, bytes: &[u8]) -> Result<(), Refusal>
    requires { W.count writer.old < 2 ^ 64 - 1 }
    ensures ok { OnOk result (Appends (W.contents writer.old) (W.contents writer.new) bytes.now
        × (W.count writer.new ≡ W.count writer.old)) }
    ensures failed { OnErr result ((n : ℕ) × Appends (W.contents writer.old) (W.contents writer.new) (take n bytes.now)
        × (W.count writer.new ≡ W.count writer.old + 1)) }
    ensures err { IfErr result (λ e. e ≡ Refusal.Io) }
{
    let mut at = 0;
    while at < bytes.len() {
        match writer.write(&bytes[at..]) {
            Ok(n) => at += n,
            Err(Failed) => return Err(Refusal::Io),
        }
    }
    Ok(())
}

/// Reads once and returns how many bytes came: 0 exactly at the end of the input. Nothing may be
/// unsent: no reply waits for a read. `Memory` where a growth was refused, and nothing was read;
/// `Io` where the read failed.
pub(crate) fn fill<R: Source>(buffers: &mut Buffers, reader: &mut R) -> Result<usize, Refusal>
    requires unsent { buffers.old.output.items ≡ [] }
    requires count { R.count reader.old < 2 ^ 64 - 1 }
    ensures ok { IfOk result (λ n. (more : List ℕ) × (length more ≡ n)
        × (buffers.new.input.items ≡ buffers.old.input.items ++ more)
        × Consumes (R.remaining reader.old) (R.remaining reader.new) more
        × (R.count reader.new ≡ R.count reader.old)) }
    ensures end { result ≡ Ok 0 → IsAtEnd (R.remaining reader.new) }
    ensures failed { OnErr result (Keeps (R.remaining reader.old) (R.remaining reader.new)
        × (buffers.new.input.items ≡ buffers.old.input.items)) }
    ensures io { result ≡ Err Refusal.Io → R.count reader.new ≡ R.count reader.old + 1 }
    ensures memory { result ≡ Err Refusal.Memory → R.count reader.new ≡ R.count reader.old }
    ensures err { IfErr result (λ e. (e ≡ Refusal.Io) ⊎ (e ≡ Refusal.Memory)) }
    ensures output { buffers.new.output.items ≡ [] }
{
    let length = buffers.input.len();
    buffers.input.reserve(MOST_AT_ONCE)?;
    buffers.input.advance_mut(MOST_AT_ONCE);
    match reader.read(&mut buffers.input.as_mut_slice()[length..]) {
        Ok(n) => {
            buffers.input.truncate(length + n);
            Ok(n)
        }
        Err(Failed) => {
            buffers.input.truncate(length);
            Err(Refusal::Io)
        }
    }
}

/// Writes all unsent bytes. `Io` where a write failed; a prefix of them is written then.
pub(crate) fn flush<W: Sink>(buffers: &mut Buffers, writer: &mut W) -> Result<(), Refusal>
    requires { W.count writer.old < 2 ^ 64 - 1 }
    ensures ok { OnOk result (Appends (W.contents writer.old) (W.contents writer.new) buffers.old.output.items
        × (W.count writer.new ≡ W.count writer.old) × (buffers.new.output.items ≡ [])) }
    ensures failed { OnErr result ((n : ℕ) × Appends (W.contents writer.old) (W.contents writer.new) (take n buffers.old.output.items)
        × (W.count writer.new ≡ W.count writer.old + 1)) }
    ensures err { IfErr result (λ e. e ≡ Refusal.Io) }
    ensures input { buffers.new.input.items ≡ buffers.old.input.items }
{
    write_all(writer, buffers.output.as_slice())?;
    buffers.output.clear();
    Ok(())
}

/// Returns the result of serving at the end of the input, after `frames` frames: `Closed` where a
/// part of a frame is left.
pub(crate) fn ended(buffers: &Buffers, frames: u64) -> Result<u64, Refusal>
    ensures ok { IfOk result (λ n. (n ≡ frames) × (buffers.now.input.items ≡ [])) }
    ensures err { IfErr result (λ e. (e ≡ Refusal.Closed) × (0 < length buffers.now.input.items)) }
{
    if buffers.input.is_empty() {
        Ok(frames)
    } else {
        Err(Refusal::Closed)
    }
}
