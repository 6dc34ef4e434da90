//! Tests frames: their bytes, decoding from parts, lengths above the limit; run by `main`.
use crate::payloads::{NOT_HEAD, PUT, READ, VALUE, WRITTEN};
use crate::say;
use bytes::{Bytes, BytesMut};
use craq_frames::{frame_codec, write_frame};
use craq_names::Refusal;
use std::alloc::Global;
use std::io;
use tokio_util::codec::{Decoder, LengthDelimitedCodec};

/// Returns the frame of the payload.
fn frame_of(alloc: Global, payload: &[u8]) -> Result<Bytes, Refusal> {
    let mut buffer = BytesMut::new(alloc);
    buffer.extend_from_slice(payload)?;
    let mut out = BytesMut::new(alloc);
    write_frame(&mut out, buffer.freeze()?)?;
    Ok(out.freeze()?)
}

/// Prints the frame of the payload, and the payload decoded from it.
fn print_frame<R: AllocGlobal + Print>(rt: &R, payload: &[u8]) -> io::Result<()> {
    match frame_of(rt.alloc(), payload) {
        Ok(frame) => {
            let bytes = frame.as_slice();
            println!(rt; "frame: {bytes:?}")?;
            print_cuts(rt, &[bytes])
        }
        Err(refusal) => say(rt, "frame", refusal),
    }
}

/// Prints the next frame decoded from the buffer.
fn print_cut<R>(rt: &R, codec: &mut LengthDelimitedCodec, buffer: &mut BytesMut) -> io::Result<()>
where
    R: Print,
{
    match codec.decode(buffer) {
        Ok(Some(payload)) => {
            let bytes = payload.as_slice();
            println!(rt; "cut off: {bytes:?}")
        }
        Ok(None) => println!(rt; "cut off: nothing"),
        Err(_) => println!(rt; "cut off: an error"),
    }
}

/// Prints the frames decoded after each part has arrived, and the bytes left.
fn print_cuts<R: AllocGlobal + Print>(rt: &R, parts: &[&[u8]]) -> io::Result<()> {
    let mut codec = frame_codec();
    let mut buffer = BytesMut::new(rt.alloc());
    for part in parts {
        buffer.extend_from_slice(*part)?;
        print_cut(rt, &mut codec, &mut buffer)?;
        let rest = buffer.as_slice();
        println!(rt; "left: {rest:?}")?;
    }
    Ok(())
}

/// Prints the bytes of frames, the payloads decoded from them, and the refusals of lengths above
/// the limit.
pub(crate) fn run<R: AllocGlobal + Print>(rt: &R) -> io::Result<()> {
    for payload in [
        PUT.as_slice(),
        WRITTEN.as_slice(),
        READ.as_slice(),
        VALUE.as_slice(),
        NOT_HEAD.as_slice(),
    ] {
        print_frame(rt, payload)?;
    }
    let long = vec![in rt.alloc(); 0; 1_048_577]?;
    print_frame(rt, long.as_slice())?;
    print_cuts(rt, &[&[0, 0, 0, 2, 1], &[3, 7]])?;
    print_cuts(rt, &[&[0, 16, 0, 1]])
}
