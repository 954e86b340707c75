//! What a traced run keeps of its steps.

ghost use Rattle.std.specs.Prelude.{◌≡◌, ◌<◌, ◌+◌, ◌^◌, ◌++◌, ◌∷◌, [], ℕ, IfOk, List, OnOk, length, take};
ghost use Rattle.z80_cpu.specs.State.{machine};
ghost use Rattle.z80_machine.specs.Turn.{bytes_at_pc};
ghost use Rattle.cpm_run.specs.Records.{CountsAre, last_items, Keeps, KeepsWished};
ghost use Rattle.cpm_run.specs.declared.recording.TraceStep.{TraceStep};

use std::alloc::{AllocError, Global};
use std::collections::VecDeque;
use z80_machine::{Cpu, Memory};

/// How many addresses there are.
pub const ADDRESSES: usize = 65_536;

/// One step of a run, as a trace shows it.
#[derive(Clone, Copy, PartialEq, Eq)]
pub struct TraceStep {
    /// The number of the step in its run, from 1.
    pub number: u64,
    /// The registers before the step. PC is the address of the step.
    pub before: Cpu,
    /// The four bytes from PC on before the step.
    pub bytes: [u8; 4],
    /// The registers after the step.
    pub after: Cpu,
}

/// What a run is asked to keep of its steps.
#[derive(Clone, Copy, PartialEq, Eq)]
pub struct Wish {
    /// How many of the first steps.
    pub first: usize,
    /// How many of the last steps.
    pub last: usize,
    /// Whether to count the steps of each address.
    pub counts: bool,
}

/// What a run has kept of its steps.
#[derive(Drop)]
pub struct Record {
    /// The first steps.
    pub first: Vec<TraceStep>,
    /// The last steps.
    pub last: VecDeque<TraceStep>,
    /// The number of steps at each address, or nothing if they were not to be counted.
    pub counts: Vec<u64>,
}

/// The four bytes from PC on; after FFFFH comes address 0.
pub(crate) fn bytes_at_pc(cpu: &Cpu, memory: &Memory) -> [u8; 4]
    ensures { result ≡ bytes_at_pc (machine cpu.now memory.now) }
{
    let pc = cpu.pc;
    [
        memory.get(pc),
        memory.get(pc.wrapping_add(1)),
        memory.get(pc.wrapping_add(2)),
        memory.get(pc.wrapping_add(3)),
    ]
}

/// Counts of zero for each address, or none if the steps are not to be counted.
fn no_counts(alloc: Global, wanted: bool) -> Result<Vec<u64>, AllocError>
    ensures { IfOk result (λ counts. CountsAre wanted [] counts.items) }
{
    if wanted {
        vec![in alloc; 0; ADDRESSES]
    } else {
        Ok(Vec::new(alloc))
    }
}

/// What a run has kept before its first step. `None` if there is no memory for it.
pub(crate) fn blank(alloc: Global, wish: Wish) -> Option<Record>
    ensures { Keeps wish [] result }
{
    let first = Vec::new(alloc);
    let last = VecDeque::new(alloc);
    let counts = no_counts(alloc, wish.counts).ok()?;
    Some(Record {
        first,
        last,
        counts,
    })
}

/// Keeps one of the first steps, if there are not enough yet.
fn keep_first(first: &mut Vec<TraceStep>, most: usize, step: TraceStep) -> Result<(), AllocError>
    ensures { OnOk result ((steps : List TraceStep) → first.old.items ≡ take most steps → first.new.items ≡ take most (steps ++ step ∷ [])) }
{
    if first.len() < most {
        first.push(step)?;
    }
    Ok(())
}

/// Keeps a step as the last one, and lets the oldest go if there are too many.
fn keep_last(last: &mut VecDeque<TraceStep>, most: usize, step: TraceStep) -> Result<(), AllocError>
    ensures { OnOk result ((steps : List TraceStep) → last.old.items ≡ last_items most steps → last.new.items ≡ last_items most (steps ++ step ∷ [])) }
{
    last.push_back(step)?;
    if last.len() <= most {
        return Ok(());
    }
    let _oldest = last.pop_front();
    Ok(())
}

/// Keeps a step among the first and among the last ones.
fn keep(
    first: &mut Vec<TraceStep>,
    last: &mut VecDeque<TraceStep>,
    wish: Wish,
    step: TraceStep,
) -> Result<(), AllocError>
    ensures first { OnOk result ((steps : List TraceStep) → first.old.items ≡ take wish.first steps → first.new.items ≡ take wish.first (steps ++ step ∷ [])) }
    ensures last { OnOk result ((steps : List TraceStep) → last.old.items ≡ last_items wish.last steps → last.new.items ≡ last_items wish.last (steps ++ step ∷ [])) }
{
    keep_first(first, wish.first, step)?;
    keep_last(last, wish.last, step)
}

/// Counts a step, if steps are to be counted.
fn count(counts: &mut Vec<u64>, step: TraceStep)
    ensures { (wanted : _) (steps : List TraceStep) → length steps + 1 < 2 ^ 64 → CountsAre wanted steps counts.old.items → CountsAre wanted (steps ++ step ∷ []) counts.new.items }
{
    let address = step.before.pc as usize;
    if address < counts.len() {
        counts[address] = counts[address].saturating_add(1);
    }
}

/// Keeps a step. `None` if memory has run out for it, or had before.
pub(crate) fn noted(wish: Wish, kept: Option<Record>, step: TraceStep) -> Option<Record>
    ensures { (steps : List TraceStep) → length steps + 1 < 2 ^ 64 → Keeps wish steps kept → Keeps wish (steps ++ step ∷ []) result }
{
    let Record {
        mut first,
        mut last,
        mut counts,
    } = kept?;
    match keep(&mut first, &mut last, wish, step) {
        Ok(()) => {
            count(&mut counts, step);
            Some(Record {
                first,
                last,
                counts,
            })
        }
        Err(_) => None,
    }
}
