//! Runs a program and keeps its steps.

ghost use Rattle.std.specs.Prelude.{◌≡◌, [], map};
ghost use Rattle.z80_cpu.specs.State.{machine};
ghost use Rattle.cpm_run.specs.Records.{Keeps};
ghost use Rattle.cpm_run.specs.Run.{IsRun};
ghost use Rattle.cpm_run.specs.Walks.{IsTraced, KeepsWalk};

use crate::ending::{RunEnd, Why, unstarted};
use crate::places::is_finished;
use crate::recording::{Record, TraceStep, Wish, blank, bytes_at_pc, noted};
use crate::starting::start;
use crate::turning::turn;
use cpm_bdos::Bdos;
use cpm_console::Console;
use cpm_disk::Disk;
use cpm_image::Sectors;
use std::alloc::Global;
use z80_machine::{Cpu, Memory};

/// The machine at the end of a run, and what the system calls have set: the address of the DMA buffer, and the user.
#[derive(Drop)]
pub struct Left {
    pub cpu: Cpu,
    pub memory: Memory,
    pub dma: u16,
    pub user: u8,
}

/// How a traced run ended, and what it has kept.
#[derive(Drop)]
pub struct Traced<S: Sectors, C: Console> {
    pub end: RunEnd<S, C>,
    /// What the run has left; `None` if the program was not started.
    pub state: Option<Left>,
    /// What was kept of the steps; `None` if the program was not started, or if memory ran out for it.
    pub kept: Option<Record>,
}

/// Makes steps, one by one, until one ends the run, the program has finished, or the limit is reached.
fn traced_turns<S: Sectors, C: Console>(
    cpu: &mut Cpu,
    memory: &mut Memory,
    bdos: &mut Bdos<S, C>,
    limit: u64,
    wish: Wish,
    blank: Option<Record>,
) -> (Why, u64, Option<Record>)
    requires { Keeps wish [] blank }
    ensures { KeepsWalk S.sectors S.faults C.dialog limit wish (record { machine = machine cpu.old memory.old; system = bdos.old }) result.0 result.1 (record { machine = machine cpu.new memory.new; system = bdos.new }) result.2 }
{
    let mut kept = blank;
    let mut turns = 0;
    while !is_finished(cpu.pc) {
        if turns == limit {
            return (Why::TurnLimit, turns, kept);
        }
        let before = *cpu;
        let bytes = bytes_at_pc(cpu, memory);
        let end = turn(cpu, memory, bdos);
        turns += 1;
        let step = TraceStep {
            number: turns,
            before,
            bytes,
            after: *cpu,
        };
        kept = noted(wish, kept, step);
        if let Some(why) = end {
            return (why, turns, kept);
        }
    }
    (Why::Finished, turns, kept)
}

/// Runs a program as [`crate::run`] does, step by step, and keeps what `wish` asks for.
///
/// If memory runs out for what is kept, nothing of the steps is kept, and the run goes on.
pub fn run_traced<S: Sectors, C: Console>(
    alloc: Global,
    com: &[u8],
    words: &[&[u8]],
    disk: Disk<S>,
    console: C,
    limit: u64,
    wish: Wish,
) -> Traced<S, C>
    ensures run { IsRun S.sectors S.faults C.dialog «com».now (map (λ w. w.now) words.now) disk console limit result.end.why result.end.turns result.end.pc result.end.disk result.end.console }
    ensures trace { IsTraced S.sectors S.faults C.dialog «com».now (map (λ w. w.now) words.now) disk console limit wish result.end.why result.end.turns result.state result.kept }
{
    let (mut cpu, mut memory) = match start(alloc, com, words) {
        Ok(state) => state,
        Err(fault) => {
            return Traced {
                end: RunEnd {
                    why: unstarted(fault),
                    turns: 0,
                    pc: 0x0100,
                    disk,
                    console,
                },
                state: None,
                kept: None,
            };
        }
    };
    let mut bdos = Bdos::new(disk, console);
    let blank = blank(alloc, wish);
    let (why, turns, kept) = traced_turns(&mut cpu, &mut memory, &mut bdos, limit, wish, blank);
    let dma = bdos.dma();
    let user = bdos.user();
    let (disk, console) = bdos.into_parts();
    let end = RunEnd {
        why,
        turns,
        pc: cpu.pc,
        disk,
        console,
    };
    let left = Left {
        cpu,
        memory,
        dma,
        user,
    };
    Traced {
        end,
        state: Some(left),
        kept,
    }
}
