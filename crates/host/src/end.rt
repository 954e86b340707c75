//! How a command ends: its exit status, and its line on standard error.

ghost use Rattle.std.specs.Prelude.{◌≡◌, ◌++◌, codes};
ghost use Rattle.host.specs.Streams.Writing.{Puts, error_line};
ghost use Rattle.host.specs.End.{Tells, end_status, end_text};
ghost use Rattle.host.specs.Private.Steps.{PutsLine};
ghost use Rattle.host.specs.declared.end.End.{End};
ghost use Rattle.host.specs.declared.end.End.TheVariants as end;

use crate::{Sink, WriteFailed, put_all, tell};
use std::alloc::AllocError;

/// The exit status if all is done.
pub const DONE: u8 = 0;

/// The exit status if what was read is refused, or memory ran out.
pub const REFUSED: u8 = 1;

/// The exit status if the words of the command are wrong.
pub const USAGE: u8 = 2;

/// The exit status if reading or writing fails.
pub const FILE_FAULT: u8 = 3;

/// How a command ends.
#[derive(Debug, Drop)]
pub enum End<'a> {
    /// All is done.
    Done,
    /// What was read is refused, for this reason.
    Refused(String),
    /// A file cannot be read or written. Its path is in two parts, so that no memory is needed to name it.
    File { path: &'a str, ending: &'static str },
    /// A file of this path, which the command made up, cannot be written.
    Path(String),
    /// Standard input or output failed, or standard input is too long.
    Stream,
    /// Memory ran out.
    NoMemory,
}

impl<'a> From<AllocError> for End<'a> {
    ghost from_gives = { λ _ e. e ≡ end.NoMemory };

    fn from(_: AllocError) -> End<'a> {
        End::NoMemory
    }
}

impl End<'_> {
    /// The exit status.
    pub fn status(&self) -> u8
        ensures { result ≡ end_status self.now }
    {
        match self {
            End::Done => DONE,
            End::Refused(_) | End::NoMemory => REFUSED,
            End::File { .. } | End::Path(_) | End::Stream => FILE_FAULT,
        }
    }
}

/// Writes the line of a file that cannot be read or written.
fn tell_file<'a, E: Sink>(
    errors: &mut E,
    path: &'a [u8],
    ending: &'a [u8],
) -> Result<(), WriteFailed>
    ensures { Puts (E.stream errors.old) (E.stream errors.new) (error_line (codes "file " ++ path.now ++ ending.now)) result }
{
    put_all(errors, &[b"error: file ", path, ending, b"\n"])
}

/// Writes the line of an end, unless all is done.
fn tell_end<E: Sink>(end: &End<'_>, errors: &mut E) -> Result<(), WriteFailed>
    ensures { PutsLine (end_text end.now) (E.stream errors.old) (E.stream errors.new) result }
{
    match end {
        End::Done => Ok(()),
        End::Refused(text) => tell(errors, text.as_bytes()),
        End::File { path, ending } => tell_file(errors, path.as_bytes(), ending.as_bytes()),
        End::Path(path) => tell_file(errors, path.as_bytes(), b""),
        End::Stream => tell(errors, b"file -"),
        End::NoMemory => tell(errors, b"NoMemory"),
    }
}

/// Writes the line of an end on `errors`, unless all is done, and gives its exit status. That writing fails changes nothing.
pub fn report<E: Sink>(end: &End<'_>, errors: &mut E) -> u8
    ensures status { result ≡ end_status end.now }
    ensures told { Tells end.now (E.stream errors.old) (E.stream errors.new) }
{
    let _ = tell_end(end, errors);
    end.status()
}
