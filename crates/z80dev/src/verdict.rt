//! Prints what `check` finds about a sizes file and its certificate.

ghost use Rattle.std.specs.Prelude.{◌≡◌, IfOk, string_bytes};
ghost use Rattle.z80dev.specs.Private.Steps.{IsTextOf, Judges, end_of};
ghost use Rattle.z80dev.specs.Verdict.{VerdictEnds, judged_line};

use cert_check::{CheckFault, Verdict, check};
use host::{End, Sink, print};
use std::alloc::{AllocError, Global};

/// Answers the line of a verdict.
fn line_of(alloc: Global, verdict: Verdict) -> Result<String, AllocError>
    ensures { IfOk result (λ line. string_bytes line ≡ judged_line verdict) }
{
    match verdict {
        Verdict::Best(total) => format!(in alloc; "best {total}\n"),
        Verdict::Range(statement) => format!(in alloc; "range {statement}\n"),
        Verdict::TooLarge(total) => format!(in alloc; "size {total}\n"),
    }
}

/// Answers what is printed after `error: `: the name of the error, with its number in parentheses.
fn text_of(alloc: Global, fault: CheckFault) -> Result<String, AllocError>
    ensures { IfOk result (λ text. IsTextOf fault (string_bytes text)) }
{
    match fault {
        CheckFault::BadSizes(line) => format!(in alloc; "BadSizes({line})"),
        CheckFault::BadCertificate(line) => format!(in alloc; "BadCertificate({line})"),
        CheckFault::NotForced(line) => format!(in alloc; "NotForced({line})"),
        CheckFault::NotAJump(line) => format!(in alloc; "NotAJump({line})"),
        CheckFault::Repeated(line) => format!(in alloc; "Repeated({line})"),
        CheckFault::StillShort(statement) => format!(in alloc; "StillShort({statement})"),
        CheckFault::WrongTotal => String::from_str(alloc, "WrongTotal"),
        CheckFault::NotOutOfRange(statement) => format!(in alloc; "NotOutOfRange({statement})"),
        CheckFault::NoMemory => Err(AllocError),
    }
}

/// Answers what the files prove, or how the command ends because they prove nothing.
fn judge(alloc: Global, sizes: &[u8], cert: &[u8]) -> Result<Verdict, End<'static>>
    ensures { Judges sizes.now cert.now result }
{
    match check(alloc, sizes, cert) {
        Ok(verdict) => Ok(verdict),
        Err(fault) => Err(End::Refused(text_of(alloc, fault)?)),
    }
}

/// Checks the files and writes the line of what they prove.
fn print_verdict<W: Sink>(
    alloc: Global,
    sizes: &[u8],
    cert: &[u8],
    output: &mut W,
) -> Result<(), End<'static>>
    ensures { VerdictEnds sizes.now cert.now (W.stream output.old) (W.stream output.new) (end_of result) }
{
    let verdict = judge(alloc, sizes, cert)?;
    let line = line_of(alloc, verdict)?;
    match print(output, line.as_bytes()) {
        Ok(()) => Ok(()),
        Err(_) => Err(End::Stream),
    }
}

/// Checks a sizes file and its certificate, and writes what they prove to `output`: `best N`, `range K` or `size N`.
/// The result says how that ended: [`End::Done`] if the line is written; [`End::Refused`] with the name of the error if
/// the files prove nothing; [`End::Stream`] if writing fails.
pub fn check_texts<W: Sink>(
    alloc: Global,
    sizes: &[u8],
    cert: &[u8],
    output: &mut W,
) -> End<'static>
    ensures { VerdictEnds sizes.now cert.now (W.stream output.old) (W.stream output.new) result }
{
    match print_verdict(alloc, sizes, cert, output) {
        Ok(()) => End::Done,
        Err(end) => end,
    }
}
