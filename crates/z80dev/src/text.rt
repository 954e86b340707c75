//! Reads an input, with a bound on how much and how often.

ghost use Rattle.std.specs.Prelude.{◌≡◌, ◌≤◌, false, IfErr, IfOk, OnOk, length};
ghost use Rattle.std.specs.Io.KnownBytes.{Consumes, IsAtEnd};
ghost use Rattle.z80dev.specs.Reading.{IsUnread, IsWithinLimit};
ghost use Rattle.z80dev.specs.declared.text.TheConstants.{MOST_READS};

use crate::fault::Fault;
use common::LONGEST_TEXT;
use host::{Input, ReadFault};
use std::alloc::Global;

/// The most reads of an input: one for each byte of the longest file that is read, and one for its end.
pub const MOST_READS: usize = LONGEST_TEXT + 1;

/// How many bytes are asked for at once: few, since the buffer is zeroed for each file and most object files are small.
const CHUNK: usize = 2048;

/// Reads an input of at most [`LONGEST_TEXT`] bytes to its end, by at most [`MOST_READS`] reads.
///
/// A read that a signal interrupts is tried again; one that fails is not.
///
/// # Errors
///
/// [`Fault::File`] if a read fails, the input is longer, or its end is not reached by then; [`Fault::Build`] if memory
/// ran out.
pub fn read_text<I: Input>(alloc: Global, input: &mut I) -> Result<Vec<u8>, Fault>
    requires sound { I.failed input.old ≡ false }
    requires unread { I.reads input.old ≡ 0 }
    requires calm { I.interruptions input.old ≡ 0 }
    ensures limit { IfOk result (λ text. IsWithinLimit text.items) }
    ensures text { IfOk result (λ text. Consumes (I.remaining input.old) (I.remaining input.new) text.items) }
    ensures end { OnOk result (IsAtEnd (I.remaining input.new)) }
    ensures whole { OnOk result (I.failed input.new ≡ false) }
    ensures err { IfErr result (IsUnread (I.remaining input.old) (I.failed input.new) (I.reads input.new) (I.interruptions input.new)) }
    ensures reads { I.reads input.new ≤ MOST_READS }
{
    let mut text = Vec::new(alloc);
    let mut chunk = [0; CHUNK];
    for turn in 0..MOST_READS {
        match input.read(&mut chunk) {
            Ok(0) => return Ok(text),
            Ok(count) if count > LONGEST_TEXT - text.len() => return Err(Fault::File),
            Ok(count) => text.extend_from_slice(&chunk[..count])?,
            Err(ReadFault::Interrupted) => {}
            Err(ReadFault::Failed) => return Err(Fault::File),
        }
    }
    Err(Fault::File)
}
