//! One step of a run.

ghost use Rattle.std.specs.Prelude.{◌≡◌};
ghost use Rattle.z80_cpu.specs.State.{machine};
ghost use Rattle.z80_machine.specs.Turn.{IsStep};
ghost use Rattle.z80_machine.specs.Types.{Step};
ghost use Rattle.cpm_run.specs.Turns.{Comes, IsTurn, TurnAt, Call, Entry, Program, RunState, step_end};

use crate::ending::Why;
use crate::places::{BDOS, bios_entry};
use cpm_bdos::{After, Bdos, Stop};
use cpm_console::Console;
use cpm_image::Sectors;
use z80_machine::outcome::Step;
use z80_machine::{Cpu, Memory, step};

/// Ends a system call: it returns to the program through the stack, or answers why the run ends.
fn comes(answer: Result<After, Stop>, cpu: &mut Cpu, memory: &Memory) -> Option<Why>
    ensures { Comes answer cpu.old memory.now result (machine cpu.new memory.now) }
{
    match answer {
        Ok(After::Return) => {
            cpu.ret(memory);
            None
        }
        Ok(After::WarmBoot) => Some(Why::Finished),
        Err(stop) => Some(Why::Stopped(stop)),
    }
}

/// Makes a call of the BDOS.
fn call<S: Sectors, C: Console>(
    cpu: &mut Cpu,
    memory: &mut Memory,
    bdos: &mut Bdos<S, C>,
) -> Option<Why>
    ensures { TurnAt S.sectors S.faults C.dialog Call (record { machine = machine cpu.old memory.old; system = bdos.old }) result (record { machine = machine cpu.new memory.new; system = bdos.new }) }
{
    let answer = bdos.call(cpu, memory);
    comes(answer, cpu, memory)
}

/// Makes a call of an entry of the BIOS.
fn enter<S: Sectors, C: Console>(
    entry: u8,
    cpu: &mut Cpu,
    memory: &Memory,
    bdos: &mut Bdos<S, C>,
) -> Option<Why>
    ensures { TurnAt S.sectors S.faults C.dialog (Entry entry) (record { machine = machine cpu.old memory.now; system = bdos.old }) result (record { machine = machine cpu.new memory.now; system = bdos.new }) }
{
    let answer = bdos.bios(entry, cpu);
    comes(answer, cpu, memory)
}

/// Makes a step of the machine.
fn stepped(cpu: &mut Cpu, memory: &mut Memory) -> Option<Why>
    ensures { (outcome : Step) × IsStep outcome (machine cpu.old memory.old) (machine cpu.new memory.new) × (result ≡ step_end outcome) }
{
    match step(cpu, memory) {
        Step::Done => None,
        Step::Halted => Some(Why::Halted),
        Step::Undocumented => Some(Why::Undocumented),
    }
}

/// Makes one step of a run: a system call if PC is at the BDOS or at an entry of the BIOS, or else a step of the machine. Answers why the
/// run ends, if it does. Whether the program has finished, [`crate::is_finished`], is to be asked before.
pub fn turn<S: Sectors, C: Console>(
    cpu: &mut Cpu,
    memory: &mut Memory,
    bdos: &mut Bdos<S, C>,
) -> Option<Why>
    ensures { IsTurn S.sectors S.faults C.dialog (record { machine = machine cpu.old memory.old; system = bdos.old }) result (record { machine = machine cpu.new memory.new; system = bdos.new }) }
{
    if cpu.pc == BDOS {
        return call(cpu, memory, bdos);
    }
    match bios_entry(cpu.pc) {
        Some(entry) => enter(entry, cpu, memory, bdos),
        None => stepped(cpu, memory),
    }
}
