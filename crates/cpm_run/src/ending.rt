//! How a run ends.

ghost use Rattle.std.specs.Prelude.{◌≡◌};
ghost use Rattle.cpm_run.specs.Run.{unstarted};

use crate::fault::StartFault;
use cpm_bdos::Stop;
use cpm_console::Console;
use cpm_disk::Disk;
use cpm_image::Sectors;
use std::fmt;

/// Why a run ended.
#[derive(Clone, Copy, Debug, PartialEq, Eq)]
pub enum Why {
    /// The program reached the cold or the warm start of the BIOS, or a system call asked for a warm boot.
    Finished,
    /// HALT is at PC.
    Halted,
    /// No documented instruction is at PC.
    Undocumented,
    /// The allowed number of steps was made.
    TurnLimit,
    /// A system call stopped the run.
    Stopped(Stop),
    /// The program has more than 64,512 bytes.
    ComTooLong,
    /// The command tail, the words with a space before each, has more than 127 bytes.
    TailTooLong,
    /// Memory ran out.
    NoMemory,
}

/// The reason in words, as a person reads it. It is not derived, since a derived text has no contract.
impl fmt::Display for Why {
    ghost use Rattle.std.specs.Prelude.{Some};
    ghost use Rattle.cpm_run.specs.Run.{why_text};

    ghost output = { λ why. Some (why_text why) };

    fn fmt<W: fmt::Write>(&self, f: &mut fmt::Formatter<W>) -> fmt::Result {
        match self {
            Why::Finished => f.write_str("the program finished"),
            Why::Halted => f.write_str("the program halted"),
            Why::Undocumented => f.write_str("no documented instruction"),
            Why::TurnLimit => f.write_str("the limit of turns was reached"),
            Why::Stopped(stop) => write!(f, "{stop}"),
            Why::ComTooLong => f.write_str("the program is too long"),
            Why::TailTooLong => f.write_str("the words are too long"),
            Why::NoMemory => f.write_str("out of memory"),
        }
    }
}

/// Why a run ends whose program cannot be started.
pub(crate) fn unstarted(fault: StartFault) -> Why
    ensures { result ≡ unstarted fault }
{
    match fault {
        StartFault::ComTooLong => Why::ComTooLong,
        StartFault::TailTooLong => Why::TailTooLong,
        StartFault::NoMemory => Why::NoMemory,
    }
}

/// How a run ended, and the disk and the console as it leaves them.
#[derive(Drop)]
pub struct RunEnd<S: Sectors, C: Console> {
    pub why: Why,
    /// The number of steps: system calls and steps of the machine, with the last one.
    pub turns: u64,
    /// PC at the end: the address of the next instruction.
    pub pc: u16,
    pub disk: Disk<S>,
    pub console: C,
}
