//! The line that says why a run has not finished.

ghost use Rattle.std.specs.Prelude.{◌≡◌, ◌++◌, ◌∷◌, [], IfOk, codes, string_bytes};
ghost use Rattle.hex.specs.Hex.{encode_upper};
ghost use Rattle.z80dev_run.specs.Stopped.{stopped_line};

use cpm_run::{Stop, Why};
use std::alloc::{AllocError, Global};
use std::fmt;

/// The reason for the end of a run, as it is printed. A stop of a system call has its own name.
#[derive(Clone, Copy)]
struct Reason {
    why: Why,
}

impl fmt::Display for Reason {
    ghost use Rattle.std.specs.Prelude.{Some};
    ghost use Rattle.z80dev_run.specs.Stopped.{end_name};

    ghost output = { λ reason. Some (end_name reason.why) };

    fn fmt<W: fmt::Write>(&self, f: &mut fmt::Formatter<W>) -> fmt::Result {
        match self.why {
            Why::Finished => f.write_str("Finished"),
            Why::Halted => f.write_str("Halted"),
            Why::Undocumented => f.write_str("Undocumented"),
            Why::TurnLimit => f.write_str("TurnLimit"),
            Why::Stopped(stop) => write!(f, "{}", StopName { stop }),
            Why::ComTooLong => f.write_str("ComTooLong"),
            Why::TailTooLong => f.write_str("TailTooLong"),
            Why::NoMemory => f.write_str("NoMemory"),
        }
    }
}

/// A stop of a system call, printed as its name.
#[derive(Clone, Copy)]
struct StopName {
    stop: Stop,
}

impl fmt::Display for StopName {
    ghost use Rattle.std.specs.Prelude.{Some};
    ghost use Rattle.z80dev_run.specs.Stopped.{stop_name};

    ghost output = { λ name. Some (stop_name name.stop) };

    fn fmt<W: fmt::Write>(&self, f: &mut fmt::Formatter<W>) -> fmt::Result {
        match self.stop {
            Stop::UnsupportedFunction(number) => write!(f, "UnsupportedFunction({number})"),
            Stop::FileReadOnly => f.write_str("FileReadOnly"),
            Stop::BadFcb => f.write_str("BadFcb"),
            Stop::DiskFault => f.write_str("DiskFault"),
            Stop::EndOfInput => f.write_str("EndOfInput"),
            Stop::UnknownDrive => f.write_str("UnknownDrive"),
            Stop::ConsoleFault => f.write_str("ConsoleFault"),
            Stop::UnsupportedBios(number) => write!(f, "UnsupportedBios({number})"),
        }
    }
}

/// The line that says why a run has not finished: `stopped: WHY at PPPP`, with the address in four hexadecimal digits.
pub fn stopped_line(alloc: Global, why: Why, pc: u16) -> Result<Vec<u8>, AllocError>
    ensures { IfOk result (λ line. line.items ≡ stopped_line why pc) }
{
    let reason = Reason { why };
    let mut line = format!(in alloc; "stopped: {reason} at ")?.into_bytes();
    let place = hex::encode_upper(alloc, &pc.to_be_bytes()[..])?;
    line.extend_from_slice(place.as_bytes())?;
    line.push(b'\n')?;
    Ok(line)
}
