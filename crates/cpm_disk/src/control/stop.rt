//! Why a system call stops the run.

ghost use Rattle.std.specs.Prelude.{◌≡◌};
ghost use Rattle.cpm_disk.specs.Control.Stops.{stop_of};

use crate::DiskFault;
use std::fmt;

/// Why a call of the BDOS or the BIOS stops the run instead of answering.
#[derive(Clone, Copy, Debug, PartialEq, Eq)]
pub enum Stop {
    UnsupportedFunction(u8),
    FileReadOnly,
    BadFcb,
    DiskFault,
    EndOfInput,
    UnknownDrive,
    ConsoleFault,
    UnsupportedBios(u8),
}

/// The reason in words, as a person reads it. It is not derived, since a derived text has no contract.
impl fmt::Display for Stop {
    ghost use Rattle.std.specs.Prelude.{Some};
    ghost use Rattle.cpm_disk.specs.Control.Stops.{stop_text};

    ghost output = { λ stop. Some (stop_text stop) };

    fn fmt<W: fmt::Write>(&self, f: &mut fmt::Formatter<W>) -> fmt::Result {
        match self {
            Stop::UnsupportedFunction(number) => write!(f, "there is no function {number}"),
            Stop::FileReadOnly => f.write_str("the file is read-only"),
            Stop::BadFcb => f.write_str("the file control block is bad"),
            Stop::DiskFault => f.write_str("the disk failed"),
            Stop::EndOfInput => f.write_str("no input is left"),
            Stop::UnknownDrive => f.write_str("there is no such drive"),
            Stop::ConsoleFault => f.write_str("the console failed"),
            Stop::UnsupportedBios(number) => write!(f, "there is no BIOS entry {number}"),
        }
    }
}

/// The stop for a fault of the disk for which a call has no answer.
pub fn stop_of(fault: DiskFault) -> Stop
    ensures { result ≡ stop_of fault }
{
    match fault {
        DiskFault::ReadOnly => Stop::FileReadOnly,
        DiskFault::Fault | DiskFault::Failed => Stop::DiskFault,
        _ => Stop::BadFcb,
    }
}
