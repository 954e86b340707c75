//! Many steps in one call.
ghost use Rattle.std.specs.Prelude.{◌≡◌, ◌<◌, ℕ, false};
ghost use Rattle.z80_cpu.specs.State.{machine};
ghost use Rattle.z80_machine.specs.Run.{is_watched, Ran};

use crate::turn::turn_by_table;
use z80_cpu::{Cpu, Memory};
use z80_turns::outcome::Step;

/// The addresses at which a run stops: all from `from` on, and `at`.
#[derive(Clone, Copy, Debug, PartialEq, Eq)]
pub struct Watch {
    pub from: u16,
    pub at: u16,
}

impl Watch {
    fn has(self, address: u16) -> bool
        ensures { result ≡ is_watched self address }
    {
        address >= self.from || address == self.at
    }

    /// An address below which none is watched: the lower one of `from` and `at`.
    fn first(self) -> u16
        ensures { (address : ℕ) → address < result → is_watched self address ≡ false }
    {
        if self.at < self.from {
            self.at
        } else {
            self.from
        }
    }

    /// The same as `has`, but faster if no address below `first` is watched: most addresses are below it.
    fn has_beyond(self, first: u16, address: u16) -> bool
        requires { (address : ℕ) → address < first → is_watched self address ≡ false }
        ensures { result ≡ is_watched self address }
    {
        address >= first && self.has(address)
    }
}

/// Why a run stopped.
#[derive(Clone, Copy, Debug, PartialEq, Eq)]
pub enum Stop {
    /// PC is at an address that is watched.
    Watched,
    /// HALT is at PC.
    Halted,
    /// No documented instruction is at PC.
    Undocumented,
    /// The allowed number of steps was made.
    Limit,
}

/// Makes steps until `limit` of them are made, PC is watched, or HALT or no documented instruction is at PC. Answers how many steps it
/// made, and why it stopped. If it reached the limit, that says nothing about what is at PC.
pub fn run(cpu: &mut Cpu, memory: &mut Memory, watch: Watch, limit: u64) -> (u64, Stop)
    ensures { Ran watch limit result.0 result.1 (machine cpu.old memory.old) (machine cpu.new memory.new) }
{
    let first = watch.first();
    for turns in 0..limit {
        if watch.has_beyond(first, cpu.pc) {
            return (turns, Stop::Watched);
        }
        match turn_by_table::<true>(cpu, memory) {
            Step::Done => {}
            Step::Halted => return (turns, Stop::Halted),
            Step::Undocumented => return (turns, Stop::Undocumented),
        }
    }
    (limit, Stop::Limit)
}
