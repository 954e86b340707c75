//! Writes all of some bytes.

ghost use Rattle.std.specs.Prelude.{◌<◌, length};
ghost use Rattle.std.specs.List.{flat_map};
ghost use Rattle.host.specs.Private.StreamSteps.{PutsSome};
ghost use Rattle.host.specs.Streams.Writing.{Flushed, PrintsBytes, Puts, error_line};

use crate::streams::sink::{Sink, WriteFault};

/// A writer failed.
#[derive(Clone, Copy, Debug, PartialEq, Eq)]
pub struct WriteFailed;

/// Writes some of the bytes, and answers how many. A write that a signal interrupts is tried again.
fn put_some<S: Sink>(sink: &mut S, bytes: &[u8]) -> Result<usize, WriteFailed>
    requires some { 0 < length bytes.now }
    ensures { PutsSome (S.stream sink.old) (S.stream sink.new) bytes.now result }
{
    loop {
        match sink.write(bytes) {
            Ok(count) => return Ok(count),
            Err(WriteFault::Interrupted) => {}
            Err(WriteFault::Failed) => return Err(WriteFailed),
        }
    }
}

/// Writes out the bytes that a buffer holds back. A call that a signal interrupts is tried again.
pub fn flush<S: Sink>(sink: &mut S) -> Result<(), WriteFailed>
    ensures { Flushed (S.stream sink.old) (S.stream sink.new) result }
{
    loop {
        match sink.flush() {
            Ok(()) => return Ok(()),
            Err(WriteFault::Interrupted) => {}
            Err(WriteFault::Failed) => return Err(WriteFailed),
        }
    }
}

/// Writes all the bytes.
///
/// # Errors
///
/// If the writer fails. Then only the first of the bytes may be written.
pub fn put<S: Sink>(sink: &mut S, bytes: &[u8]) -> Result<(), WriteFailed>
    ensures { Puts (S.stream sink.old) (S.stream sink.new) bytes.now result }
{
    let mut rest = bytes;
    while !rest.is_empty() {
        let count = put_some(sink, rest)?;
        rest = &rest[count..];
    }
    Ok(())
}

/// Writes all these byte strings, one after the other.
///
/// # Errors
///
/// If the writer fails. Then only the first of the bytes may be written.
pub fn put_all<S: Sink>(sink: &mut S, pieces: &[&[u8]]) -> Result<(), WriteFailed>
    ensures { Puts (S.stream sink.old) (S.stream sink.new) (flat_map (λ piece. piece.now) pieces.now) result }
{
    for piece in pieces {
        put(sink, piece)?;
    }
    Ok(())
}

/// Writes all the bytes, and writes out those that a buffer holds back.
///
/// # Errors
///
/// If the writer fails. Then only the first of the bytes may be written.
pub fn print<S: Sink>(sink: &mut S, bytes: &[u8]) -> Result<(), WriteFailed>
    ensures { PrintsBytes (S.stream sink.old) (S.stream sink.new) bytes.now result }
{
    put(sink, bytes)?;
    flush(sink)
}

/// Writes the line of an error: `error: `, the text and a line feed.
///
/// # Errors
///
/// If the writer fails. Then only the beginning of the line may be written.
pub fn tell<S: Sink>(sink: &mut S, text: &[u8]) -> Result<(), WriteFailed>
    ensures { Puts (S.stream sink.old) (S.stream sink.new) (error_line text.now) result }
{
    put_all(sink, &[b"error: ", text, b"\n"])
}
