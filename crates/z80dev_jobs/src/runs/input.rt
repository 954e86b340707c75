//! Reads standard input.

ghost use Rattle.std.specs.Prelude.{◌≡◌, ◌≤◌, false};
ghost use Rattle.z80dev.specs.declared.text.TheConstants.{MOST_READS};
ghost use Rattle.z80dev_jobs.specs.Runs.Input.{ReadsInput};
ghost use Rattle.host.specs.Reading.{reader_of};

use host::{End, Input};
use std::alloc::Global;
use z80dev::{Fault, read_text};

/// The bytes of standard input, read to its end.
pub(crate) fn read_input<I: Input>(alloc: Global, input: &mut I) -> Result<Vec<u8>, End<'static>>
    requires sound { I.failed input.old ≡ false }
    requires unread { I.reads input.old ≡ 0 }
    requires calm { I.interruptions input.old ≡ 0 }
    ensures text { ReadsInput (reader_of (I.remaining input.old) (I.failed input.old) (I.reads input.old) (I.interruptions input.old)) (reader_of (I.remaining input.new) (I.failed input.new) (I.reads input.new) (I.interruptions input.new)) result }
    ensures reads { I.reads input.new ≤ MOST_READS }
{
    match read_text(alloc, input) {
        Ok(text) => Ok(text),
        Err(Fault::File) => Err(End::Stream),
        Err(Fault::Build(_)) => Err(End::NoMemory),
    }
}
