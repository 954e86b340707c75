//! What `run` tells about a run, besides what the program prints.

ghost use Rattle.std.specs.Prelude.{◌≡◌, IfOk, IfSome, List, option_map, ℕ};
ghost use Rattle.std.specs.List.{concat};
ghost use Rattle.z80dev_jobs.specs.Private.RunSteps.{MayTell};
ghost use Rattle.z80dev_jobs.specs.Private.Telling.{IsLabelled};
ghost use Rattle.z80dev_jobs.specs.Runs.Telling.{AreLastLines, IsFileIfGiven, IsNothingTold, IsProfileOf, IsToldOf, IsToldRun, WritesFile, WritesTold, is_given, is_kept, is_silent, is_wrong, last_count, profile_over, reads_file, registers_lines, trace_over, unused, why_not_told, wish_of};
ghost use Rattle.z80dev_run.specs.Program.{IsRan, IsReadyToRun};
ghost use Rattle.z80dev_run.specs.Reports.{IsTraceFile};

use disassembler::{DisassemblyFault, fault_text, read_labels};
use host::{End, Files, Sink, is_same_path, names_work};
use std::alloc::{AllocError, Global};
use z80_cpu::Cpu;
use z80dev_commands::{Run, Telling};
use z80dev_run::{
    Labels, Left, Ran, Ready, Record, TRACE_STEPS, TracedRan, Why, Wish, coverage_file, is_lost,
    last_lines, machine_text, profile_file, trace_file,
};

/// What a run tells: the bytes of the files to write, and lines for standard error.
#[derive(Drop)]
pub(crate) struct Told {
    pub(crate) trace: Option<Vec<u8>>,
    pub(crate) profile: Option<Vec<u8>>,
    /// The last steps, and the registers.
    pub(crate) lines: Vec<u8>,
}

impl Told {
    fn nothing(alloc: Global) -> Told
        ensures { IsNothingTold result }
    {
        Told {
            trace: None,
            profile: None,
            lines: Vec::new(alloc),
        }
    }
}

/// How many of the last steps are printed if the run is stopped.
fn last_count(telling: Telling<'_>) -> u32
    ensures { result ≡ last_count telling.entry }
{
    telling.last.unwrap_or(0)
}

/// Whether nothing is to be told.
fn is_silent(telling: Telling<'_>) -> bool
    ensures { result ≡ is_silent telling.entry }
{
    !telling.registers
        && last_count(telling) == 0
        && telling.trace.is_none()
        && telling.profile.is_none()
}

/// What a run is to keep of its steps.
fn wish_of(telling: Telling<'_>) -> Wish
    ensures { result ≡ wish_of telling.entry }
{
    let last = last_count(telling) as usize;
    Wish {
        first: if telling.trace.is_some() {
            TRACE_STEPS
        } else {
            0
        },
        // The last three steps say from where the program came to its end, also if it did so by a call of the system.
        last: if telling.registers || last != 0 {
            last + 3
        } else {
            0
        },
        counts: telling.profile.is_some(),
    }
}

/// Whether a path names the same file as this one, if one is given.
fn is_given(path: &str, other: Option<&str>) -> bool
    ensures { result ≡ is_given path.now other.entry }
{
    match other {
        Some(other) => is_same_path(path, other),
        None => false,
    }
}

/// Whether a run reads a file of this path.
fn reads_file(run: &Run<'_>, path: &str) -> bool
    ensures { result ≡ reads_file run.now path.now }
{
    is_given(path, run.disk)
        || is_same_path(path, run.program)
        || is_given(path, run.telling.labels)
        || is_given(path, run.telling.list)
}

/// Whether a run writes no file of this path: it reads it, or it ends as that of a program, a source or an image does.
fn is_kept(run: &Run<'_>, path: &str) -> bool
    ensures { result ≡ is_kept run.now path.now }
{
    reads_file(run, path) || names_work(path)
}

/// The path of the trace, if it may not be written there.
fn trace_over<'a>(run: &Run<'a>) -> Option<&'a str>
    ensures { option_map (λ path. path.now) result ≡ trace_over run.now run.now.telling.trace }
{
    match run.telling.trace {
        Some(path) if is_kept(run, path) => Some(path),
        _ => None,
    }
}

/// The path of the profile, if it may not be written there, or if the run writes its trace there.
fn profile_over<'a>(run: &Run<'a>) -> Option<&'a str>
    ensures { option_map (λ path. path.now) result ≡ profile_over run.now run.now.telling.profile }
{
    match run.telling.profile {
        Some(path) if is_kept(run, path) || is_given(path, run.telling.trace) => Some(path),
        _ => None,
    }
}

/// The option that would do nothing: labels if no address is printed, or a listing if there is no profile.
fn unused(telling: Telling<'_>) -> Option<&'static str>
    ensures { option_map (λ option. option.now) result ≡ unused telling.entry }
{
    if telling.labels.is_some() && is_silent(telling) {
        Some("--labels")
    } else if telling.list.is_some() && telling.profile.is_none() {
        Some("--list")
    } else {
        None
    }
}

/// Refuses a run that would write its trace or its profile over a file that it reads, or both to one path; or one with an option that would
/// do nothing.
pub(crate) fn refuse_telling(alloc: Global, run: &Run<'_>) -> Result<(), End<'static>>
    ensures { MayTell (why_not_told run.now) result }
{
    match trace_over(run).or(profile_over(run)) {
        Some(path) => Err(End::Refused(format!(in alloc; "Overwrites({path})")?)),
        None => match unused(run.telling) {
            Some(option) => Err(End::Refused(format!(in alloc; "Unused({option})")?)),
            None => Ok(()),
        },
    }
}

/// The labels of a program of `size` bytes by the bytes of a file of labels, if there is one, or how the command ends because they are
/// refused.
pub(crate) fn labels_of(
    alloc: Global,
    text: Option<&[u8]>,
    size: usize,
) -> Result<Labels, End<'static>>
    ensures { IsLabelled (option_map (λ bytes. bytes.now) text.entry) size result }
{
    let Some(text) = text else {
        return Ok(Labels::new(alloc, &[], size)?);
    };
    match read_labels(alloc, text) {
        Ok(labels) => Ok(Labels::new(alloc, &labels, size)?),
        Err(DisassemblyFault::NoMemory) => Err(End::NoMemory),
        Err(why) => Err(End::Refused(fault_text(alloc, why)?)),
    }
}

/// The bytes of the trace, if its path is given.
fn trace_of(
    alloc: Global,
    telling: Telling<'_>,
    kept: &Record,
    turns: u64,
    labels: &Labels,
) -> Result<Option<Vec<u8>>, AllocError>
    ensures { IfOk result (IsFileIfGiven (IsTraceFile labels.now kept.now.first.items turns) telling.entry.trace) }
{
    match telling.trace {
        Some(_) => Ok(Some(trace_file(alloc, kept, turns, labels)?)),
        None => Ok(None),
    }
}

/// The bytes of the profile, if its path is given.
fn profile_of(
    alloc: Global,
    telling: Telling<'_>,
    listing: Option<&[u8]>,
    kept: &Record,
    turns: u64,
    labels: &Labels,
) -> Result<Option<Vec<u8>>, AllocError>
    ensures { IfOk result (IsFileIfGiven (IsProfileOf (option_map (λ text. text.now) listing.entry) labels.now kept.now.counts.items turns) telling.entry.profile) }
{
    match (telling.profile, listing) {
        (Some(_), Some(text)) => Ok(Some(coverage_file(alloc, kept, text)?)),
        (Some(_), None) => Ok(Some(profile_file(alloc, kept, turns, labels)?)),
        (None, _) => Ok(None),
    }
}

/// Whether a run has gone wrong, so that its last steps are printed: it was stopped, or its program is lost.
fn is_wrong(why: Why, cpu: &Cpu, kept: &Record, labels: &Labels) -> bool
    ensures { result ≡ is_wrong labels.now why cpu.now kept.now }
{
    match why {
        Why::Finished => is_lost(cpu, &kept.last, labels),
        _ => true,
    }
}

/// The lines of the last steps, if the run has gone wrong.
fn last_of(
    alloc: Global,
    telling: Telling<'_>,
    is_wrong: bool,
    kept: &Record,
    labels: &Labels,
) -> Result<Vec<u8>, AllocError>
    ensures { IfOk result (λ lines. AreLastLines telling.entry labels.now is_wrong kept.now lines.items) }
{
    if is_wrong {
        last_lines(alloc, kept, last_count(telling) as usize, labels)
    } else {
        Ok(Vec::new(alloc))
    }
}

/// The lines of the registers, if they are asked for.
fn registers_of(
    alloc: Global,
    telling: Telling<'_>,
    left: &Left,
    kept: &Record,
    labels: &Labels,
) -> Result<Vec<u8>, AllocError>
    ensures { IfOk result (λ lines. lines.items ≡ registers_lines telling.entry labels.now left.now kept.now) }
{
    if telling.registers {
        machine_text(alloc, left, &kept.last, labels)
    } else {
        Ok(Vec::new(alloc))
    }
}

/// What a run tells that has kept its steps.
fn told_of<S>(
    alloc: Global,
    telling: Telling<'_>,
    labels: &Labels,
    listing: Option<&[u8]>,
    traced: &TracedRan<S>,
) -> Result<Told, AllocError>
    ensures { IfOk result (IsToldOf telling.entry labels.now (option_map (λ text. text.now) listing.entry) traced.now.ran.why traced.now.ran.turns traced.now.state traced.now.kept) }
{
    let Some(left) = &traced.state else {
        return Ok(Told::nothing(alloc));
    };
    let Some(kept) = &traced.kept else {
        return Err(AllocError);
    };
    let Ran { why, turns, .. } = &traced.ran;
    let trace = trace_of(alloc, telling, kept, *turns, labels)?;
    let profile = profile_of(alloc, telling, listing, kept, *turns, labels)?;
    let is_wrong = is_wrong(*why, &left.cpu, kept, labels);
    let mut lines = last_of(alloc, telling, is_wrong, kept, labels)?;
    let registers = registers_of(alloc, telling, left, kept, labels)?;
    lines.extend_from_slice(&registers)?;
    Ok(Told {
        trace,
        profile,
        lines,
    })
}

/// Runs a program, and answers how it ended and what it tells; `None` if memory ran out for that. Steps are kept only if something is to be
/// told, since that takes time.
pub(crate) fn run_telling<S: Sink + Drop>(
    alloc: Global,
    ready: Ready<'_, '_>,
    output: S,
    steps: u64,
    telling: Telling<'_>,
    labels: &Labels,
    listing: Option<&[u8]>,
) -> (Ran<S>, Option<Told>)
    ensures ran { (program : List ℕ) (words : List (List ℕ)) (image input : List ℕ) → IsReadyToRun program words image input ready.entry
        → IsRan program words image input (S.stream output) steps result.0.why result.0.turns result.0.pc (concat result.0.image) (S.stream result.0.output) }
    ensures told { (program : List ℕ) (words : List (List ℕ)) (image input : List ℕ) → IsReadyToRun program words image input ready.entry
        → IfSome result.1 (IsToldRun telling.entry labels.now (option_map (λ text. text.now) listing.entry) program words image input (S.stream output) steps result.0.why result.0.turns) }
{
    if is_silent(telling) {
        return (ready.run(alloc, output, steps), Some(Told::nothing(alloc)));
    }
    let traced = ready.run_traced(alloc, output, steps, wish_of(telling));
    let told = told_of(alloc, telling, labels, listing, &traced).ok();
    (traced.ran, told)
}

/// Writes a file, if there are bytes for it.
fn write_file<'a, F: Files>(
    path: Option<&'a str>,
    bytes: &Option<Vec<u8>>,
    files: &mut F,
) -> Result<(), End<'a>>
    ensures { WritesFile path.entry bytes.now (F.folder files.old) (F.folder files.new) result }
{
    let (Some(path), Some(bytes)) = (path, bytes) else {
        return Ok(());
    };
    match files.write(path, bytes) {
        Ok(()) => Ok(()),
        Err(_) => Err(End::File { path, ending: "" }),
    }
}

/// Writes the trace and the profile.
pub(crate) fn write_told<'a, F: Files>(
    telling: Telling<'a>,
    told: &Told,
    files: &mut F,
) -> Result<(), End<'a>>
    ensures { WritesTold telling.entry told.now (F.folder files.old) (F.folder files.new) result }
{
    write_file(telling.trace, &told.trace, files)?;
    write_file(telling.profile, &told.profile, files)
}
