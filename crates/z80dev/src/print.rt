//! Builds a source and prints its file in hexadecimal.

ghost use Rattle.std.specs.Prelude.{◌≡◌, ◌≤◌, ◌⊎◌, false, true, Result, Err};
ghost use Rattle.z80dev.specs.Pipe.{PrintingEnds, said_at, status_at};
ghost use Rattle.z80dev.specs.Reading.{IsCutShort, OfText};
ghost use Rattle.z80dev.specs.Private.Steps.{Reports, Writes};
ghost use Rattle.z80dev.specs.declared.fault.Fault.{Fault};
ghost use Rattle.z80dev.specs.declared.text.TheConstants.{MOST_READS};
ghost use Rattle.host.specs.End.{TellsOf};

use crate::fault::{Fault, SOURCE_NAME};
use crate::text::read_text;
use host::{DONE, End, Input, Sink, print, report};
use std::alloc::Global;
use zlink::{Source, build};

/// Writes the bytes in lower-case hexadecimal, and a line feed.
fn write_file<W: Sink>(alloc: Global, file: &[u8], output: &mut W) -> Result<(), Fault>
    ensures { Writes file.now (W.stream output.old) (W.stream output.new) result }
{
    let mut digits = hex::encode(alloc, file)?;
    digits.push('\n')?;
    match print(output, digits.as_bytes()) {
        Ok(()) => Ok(()),
        Err(_) => Err(Fault::File),
    }
}

/// Reads a source, builds it as the only one, with the name `MAIN`, and writes its file in lower-case hexadecimal, and
/// a line feed.
///
/// # Errors
///
/// [`Fault::Build`] if `build` refuses the source, or memory ran out; nothing is written then. [`Fault::File`] if the
/// source has more than 16,777,216 bytes, reading fails or takes more than 16,777,217 reads, or writing fails.
pub fn print_file<I: Input, W: Sink>(
    alloc: Global,
    input: &mut I,
    output: &mut W,
) -> Result<(), Fault>
    requires sound { I.failed input.old ≡ false }
    requires unread { I.reads input.old ≡ 0 }
    requires calm { I.interruptions input.old ≡ 0 }
    ensures ends { OfText (I.remaining input.old) (λ text.
        PrintingEnds text (IsCutShort (I.failed input.new) (I.reads input.new) (I.interruptions input.new)) (W.stream output.old) (W.stream output.new) result) }
    ensures failed { I.failed input.new ≡ true → result ≡ Err Fault.File }
    ensures reads { I.reads input.new ≤ MOST_READS }
{
    let text = read_text(alloc, input)?;
    let source = Source {
        name: SOURCE_NAME.as_bytes(),
        text: &text,
    };
    let built = build(alloc, &[source])?;
    write_file(alloc, &built.com, output)
}

/// Answers the end of a command with this error. The text of a refusal is made in memory before any of it is written,
/// so its line is cut short only if the writer fails. If there is no memory for the text, memory ran out, and that line
/// needs none.
fn end_of(alloc: Global, fault: &Fault) -> End<'static>
    ensures { Reports fault.now result }
{
    match fault {
        Fault::File => End::File {
            path: SOURCE_NAME,
            ending: "",
        },
        Fault::Build(_) => match format!(in alloc; "{fault}") {
            Ok(text) => End::Refused(text),
            Err(_) => End::NoMemory,
        },
    }
}

/// Prints the file of a source, as [`print_file`] does, and reports on `errors` what goes wrong. The input must not
/// have been read or failed yet.
///
/// The result is an exit status: 0 if the file is written, and nothing on `errors`; 1 if the source is refused or
/// memory ran out, with one line on `errors` and nothing on `output`; 3 if the source has more than 16,777,216 bytes,
/// reading fails or takes more than 16,777,217 reads, or writing fails, with `error: file MAIN` on `errors`. If
/// `errors` fails, the status is the same.
pub fn pipe<I: Input, W: Sink, E: Sink>(
    alloc: Global,
    input: &mut I,
    output: &mut W,
    errors: &mut E,
) -> u8
    requires sound { I.failed input.old ≡ false }
    requires unread { I.reads input.old ≡ 0 }
    requires calm { I.interruptions input.old ≡ 0 }

    ensures status { (result ≡ 0) ⊎ ((result ≡ 1) ⊎ (result ≡ 3)) }

    // The status, the file that is written and the line on `errors` belong to one and the same end.
    ensures ends { OfText (I.remaining input.old) (λ text.
        (end : Result Unit Fault) × (result ≡ status_at end)
        × PrintingEnds text (IsCutShort (I.failed input.new) (I.reads input.new) (I.interruptions input.new)) (W.stream output.old) (W.stream output.new) end
        × TellsOf (said_at end) (E.stream errors.old) (E.stream errors.new)) }

    // If the input failed, this is what is reported, and not that memory ran out.
    ensures failed { I.failed input.new ≡ true → result ≡ 3 }

    // Whatever the input, it is read a bounded number of times.
    ensures reads { I.reads input.new ≤ MOST_READS }
{
    match print_file(alloc, input, output) {
        Ok(()) => DONE,
        Err(fault) => report(&end_of(alloc, &fault), errors),
    }
}
