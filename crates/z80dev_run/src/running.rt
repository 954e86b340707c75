//! Runs a program.

ghost use Rattle.std.specs.Prelude.{◌≡◌, ℕ, List};
ghost use Rattle.std.specs.List.{concat};
ghost use Rattle.z80dev_run.specs.Program.{IsRan, IsReadyToRun, IsTracedRan};

use cpm_console::StreamConsole;
use cpm_disk::Disk;
use cpm_image::MemoryImage;
use cpm_run::{Left, Record, Why, Wish};
use host::Sink;
use std::alloc::Global;

/// How a run ended, and what it leaves.
#[derive(Drop)]
pub struct Ran<S> {
    pub why: Why,
    /// The number of steps.
    pub turns: u64,
    /// PC at the end: the address of the next instruction.
    pub pc: u16,
    /// The image of the disk.
    pub image: MemoryImage,
    /// The stream with the output.
    pub output: S,
}

impl<S> Ran<S> {
    /// The bytes of the image as its file has them: the sectors, one after the other. Nothing is copied, so this cannot run out of
    /// memory.
    pub fn image_bytes(&self) -> &[u8]
        ensures { result.now ≡ concat self.now.image }
    {
        self.image.sectors().as_flattened()
    }
}

/// How a traced run ended, what it leaves, and what was kept of its steps.
#[derive(Drop)]
pub struct TracedRan<S> {
    pub ran: Ran<S>,
    /// The machine and the system at the end; `None` if the program was not started.
    pub state: Option<Left>,
    /// What was kept of the steps; `None` if the program was not started, or if memory ran out for it.
    pub kept: Option<Record>,
}

/// A program that is ready to run: its disk is mounted, and all its input is known.
#[derive(Drop)]
pub struct Ready<'p, 'w> {
    pub(crate) program: &'p [u8],
    pub(crate) words: Vec<&'w [u8]>,
    pub(crate) disk: Disk<MemoryImage>,
    pub(crate) typed: Vec<u8>,
}

impl Ready<'_, '_> {
    /// Runs the program for at most `steps` steps. Its output goes to `output`.
    pub fn run<S: Sink + Drop>(self, alloc: Global, output: S, steps: u64) -> Ran<S>
        ensures { (program : List ℕ) (words : List (List ℕ)) (image input : List ℕ) → IsReadyToRun program words image input self.entry
            → IsRan program words image input (S.stream output) steps result.why result.turns result.pc (concat result.image) (S.stream result.output) }
    {
        let Ready {
            program,
            words,
            disk,
            typed,
        } = self;
        let console = StreamConsole::new(typed, output);
        let end = cpm_run::run(alloc, program, &words, disk, console, steps);
        Ran {
            why: end.why,
            turns: end.turns,
            pc: end.pc,
            image: end.disk.unmount(),
            output: end.console.into_writer(),
        }
    }
    /// Runs the program as [`Ready::run`] does, step by step, and keeps what `wish` asks for. If memory runs out for that, the run goes
    /// on without it.
    pub fn run_traced<S: Sink + Drop>(
        self,
        alloc: Global,
        output: S,
        steps: u64,
        wish: Wish,
    ) -> TracedRan<S>
        ensures ran { (program : List ℕ) (words : List (List ℕ)) (image input : List ℕ) → IsReadyToRun program words image input self.entry
            → IsRan program words image input (S.stream output) steps result.ran.why result.ran.turns result.ran.pc (concat result.ran.image) (S.stream result.ran.output) }
        ensures traced { (program : List ℕ) (words : List (List ℕ)) (image input : List ℕ) → IsReadyToRun program words image input self.entry
            → IsTracedRan program words image input (S.stream output) steps wish result.ran.why result.ran.turns result.state result.kept }
    {
        let Ready {
            program,
            words,
            disk,
            typed,
        } = self;
        let console = StreamConsole::new(typed, output);
        let traced = cpm_run::run_traced(alloc, program, &words, disk, console, steps, wish);
        let end = traced.end;
        let ran = Ran {
            why: end.why,
            turns: end.turns,
            pc: end.pc,
            image: end.disk.unmount(),
            output: end.console.into_writer(),
        };
        TracedRan {
            ran,
            state: traced.state,
            kept: traced.kept,
        }
    }
}
