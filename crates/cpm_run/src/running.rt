//! Runs a program from its start to its end.

ghost use Rattle.std.specs.Prelude.{◌≡◌, map};
ghost use Rattle.z80_cpu.specs.State.{machine};
ghost use Rattle.cpm_run.specs.Run.{TurnsEnd, IsRun};

use crate::ending::{RunEnd, Why, unstarted};
use crate::places::{BDOS, BIOS, is_finished};
use crate::starting::start;
use crate::turning::turn;
use cpm_bdos::Bdos;
use cpm_console::Console;
use cpm_disk::Disk;
use cpm_image::Sectors;
use std::alloc::Global;
use z80_machine::{Cpu, Memory, Stop, Watch};

/// The addresses at which a step is not one of the machine, so the machine stops there.
const SYSTEM: Watch = Watch {
    from: BIOS,
    at: BDOS,
};

/// Makes steps until one ends the run, the program has finished, or the limit is reached. The machine makes all steps between two
/// addresses of the system in one call.
fn turns_of<S: Sectors, C: Console>(
    cpu: &mut Cpu,
    memory: &mut Memory,
    bdos: &mut Bdos<S, C>,
    limit: u64,
) -> (Why, u64)
    ensures { TurnsEnd S.sectors S.faults C.dialog limit (record { machine = machine cpu.old memory.old; system = bdos.old }) result.0 result.1 (record { machine = machine cpu.new memory.new; system = bdos.new }) }
{
    let mut turns = 0;
    loop {
        let (made, stop) = z80_machine::run(cpu, memory, SYSTEM, limit - turns);
        turns += made;
        match stop {
            Stop::Halted => return (Why::Halted, turns + 1),
            Stop::Undocumented => return (Why::Undocumented, turns + 1),
            _ => {}
        }
        if is_finished(cpu.pc) {
            return (Why::Finished, turns);
        }
        if turns == limit {
            return (Why::TurnLimit, turns);
        }
        if let Some(why) = turn(cpu, memory, bdos) {
            return (why, turns + 1);
        }
        turns += 1;
    }
}

/// Runs a program from 0100H with its words, on a disk, which is drive A, and a console, for at most `limit` steps. A step is a system
/// call or a step of the machine.
///
/// The program has finished when it reaches the cold or the warm start of the BIOS, which is tested before the limit, or when a call asks
/// for a warm boot. If the program or its command tail is too long, or memory runs out, the run ends before the first step. The disk and
/// the console come back as the run leaves them.
pub fn run<S: Sectors, C: Console>(
    alloc: Global,
    com: &[u8],
    words: &[&[u8]],
    disk: Disk<S>,
    console: C,
    limit: u64,
) -> RunEnd<S, C>
    ensures { IsRun S.sectors S.faults C.dialog «com».now (map (λ w. w.now) words.now) disk console limit result.why result.turns result.pc result.disk result.console }
{
    let (mut cpu, mut memory) = match start(alloc, com, words) {
        Ok(state) => state,
        Err(fault) => {
            return RunEnd {
                why: unstarted(fault),
                turns: 0,
                pc: 0x0100,
                disk,
                console,
            };
        }
    };
    let mut bdos = Bdos::new(disk, console);
    let (why, turns) = turns_of(&mut cpu, &mut memory, &mut bdos, limit);
    let (disk, console) = bdos.into_parts();
    RunEnd {
        why,
        turns,
        pc: cpu.pc,
        disk,
        console,
    }
}
