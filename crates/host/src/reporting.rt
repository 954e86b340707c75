//! Reports how a command ended, and that a value of an option is wrong.

ghost use Rattle.std.specs.Prelude.{◌≡◌};
ghost use Rattle.host.specs.End.{Tells, end_status};
ghost use Rattle.host.specs.Reporting.{TellsAtEnd, TellsWith, JudgesBad, PutsLines};
ghost use Rattle.host.specs.Ending.{ended, end_with_lines, end_in, line_put, lines_after};

use crate::{DONE, End, Sink, USAGE, put, report, tell};
use std::alloc::AllocError;

/// Reports an end, however a function passed it on, and gives the exit status.
pub fn report_any<E: Sink>(end: Result<End<'_>, End<'_>>, errors: &mut E) -> u8
    ensures status { result ≡ end_status (ended end.entry) }
    ensures told { Tells (ended end.entry) (E.stream errors.old) (E.stream errors.new) }
{
    match end {
        Ok(end) | Err(end) => report(&end, errors),
    }
}

/// Reports how a command ended; if all is done, writes its line on standard error, if it has one. Gives the exit status.
pub fn report_line<E: Sink>(ended: Result<Option<String>, End<'_>>, errors: &mut E) -> u8
    ensures status { result ≡ end_status (end_in ended.entry) }
    ensures told { TellsWith (line_put ended.entry) (end_in ended.entry) (E.stream errors.old) (E.stream errors.new) }
{
    match ended {
        Ok(Some(line)) => {
            let _ = put(errors, line.as_bytes());
            DONE
        }
        Ok(None) => DONE,
        Err(end) => report(&end, errors),
    }
}

/// Reports how a command ended; if all is done, writes its lines on standard error, if there are some. Gives the exit status.
pub fn report_lines<E: Sink>(ended: Result<Vec<u8>, End<'_>>, errors: &mut E) -> u8
    ensures status { result ≡ end_status (end_with_lines ended.entry) }
    ensures told { TellsAtEnd (lines_after ended.entry) (end_with_lines ended.entry) (E.stream errors.old) (E.stream errors.new) }
{
    match ended {
        Ok(lines) => {
            put_lines(&lines, errors);
            DONE
        }
        Err(end) => report(&end, errors),
    }
}

/// Reports why a value is wrong, and gives the exit status; or None if none is.
pub fn refuse_value<E: Sink>(bad: Result<Option<String>, AllocError>, errors: &mut E) -> Option<u8>
    ensures { JudgesBad bad (E.stream errors.old) (E.stream errors.new) result }
{
    match bad {
        Ok(None) => None,
        Ok(Some(why)) => {
            let _ = tell(errors, why.as_bytes());
            Some(USAGE)
        }
        Err(_) => Some(report(&End::NoMemory, errors)),
    }
}

/// Puts lines, if there are some.
pub fn put_lines<E: Sink>(lines: &[u8], errors: &mut E)
    ensures { PutsLines lines.now (E.stream errors.old) (E.stream errors.new) }
{
    if !lines.is_empty() {
        let _ = put(errors, lines);
    }
}
