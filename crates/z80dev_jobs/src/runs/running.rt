//! The command `run`.

ghost use Rattle.std.specs.Prelude.{◌≡◌, ◌≤◌, false, map, option_map, string_bytes};
ghost use Rattle.std.specs.List.{concat};
ghost use Rattle.z80dev.specs.declared.text.TheConstants.{MOST_READS};
ghost use Rattle.z80dev_jobs.specs.Private.RunSteps.{MakesReady, Prepares};
ghost use Rattle.host.specs.Reading.{reader_of};
ghost use Rattle.z80dev_jobs.specs.Private.Images.{ClaimsDiskImage, IsFreeOf};
ghost use Rattle.host.specs.Reporting.{PutsLines};
ghost use Rattle.z80dev_jobs.specs.Runs.Running.{EndsRun, IsKept, KeepsAll, ReadsInputs, ReportsRun, ReportsWritten, WarnsAfter, WritesIfTold, told_lines, why_at};

use crate::runs::input::read_input;
use crate::runs::telling::{Told, labels_of, write_told};
use host::{
    DONE, End, Files, Image, Input, Sink, WriteFailed, claim, flush, keep, put, put_lines, read,
    read_if_given, report,
};
use std::alloc::Global;
use z80dev_commands::{Run, Telling};
use z80dev_disk::Refusal;
use z80dev_run::{Labels, Ran, Ready, Stop, Why, conclude, ready};

/// The most steps of a run whose command names no number.
pub(crate) const STEPS: u64 = 100_000_000;

/// What `run` reads: the image of the disk, nothing if no disk is named, and the lines that warn of it; the program; the file of its labels
/// and its listing, if they are named; and standard input.
#[derive(Drop)]
pub(crate) struct Inputs {
    pub(crate) image: Vec<u8>,
    pub(crate) warnings: Option<String>,
    pub(crate) program: Vec<u8>,
    pub(crate) labels: Option<Vec<u8>>,
    pub(crate) list: Option<Vec<u8>>,
    pub(crate) typed: Vec<u8>,
}

/// Claims the image of a disk; without a disk, the image is empty.
pub(crate) fn claim_disk<'a, F: Files>(
    alloc: Global,
    disk: Option<&'a str>,
    lock: bool,
    files: &mut F,
) -> Result<Image, End<'a>>
    ensures { ClaimsDiskImage disk.entry lock (F.folder files.old) (F.folder files.new) result }
{
    match disk {
        Some(path) => claim(alloc, path, lock, files),
        None => Ok(Image {
            bytes: Vec::new(alloc),
            warnings: None,
        }),
    }
}

/// Claims the image and reads what else `run` needs, in this order.
pub(crate) fn inputs_of<'a, F: Files, I: Input>(
    alloc: Global,
    job: &Run<'a>,
    files: &mut F,
    input: &mut I,
) -> Result<Inputs, End<'a>>
    requires sound { I.failed input.old ≡ false }
    requires unread { I.reads input.old ≡ 0 }
    requires calm { I.interruptions input.old ≡ 0 }
    ensures inputs { ReadsInputs job.now (F.folder files.old) (F.folder files.new) (reader_of (I.remaining input.old) (I.failed input.old) (I.reads input.old) (I.interruptions input.old)) (reader_of (I.remaining input.new) (I.failed input.new) (I.reads input.new) (I.interruptions input.new)) result }
    ensures reads { I.reads input.new ≤ MOST_READS }
{
    let Image { bytes, warnings } = claim_disk(alloc, job.disk, job.lock, files)?;
    let program = read(alloc, job.program, files)?;
    let labels = read_if_given(alloc, job.telling.labels, files)?;
    let list = read_if_given(alloc, job.telling.list, files)?;
    let typed = read_input(alloc, input)?;
    Ok(Inputs {
        image: bytes,
        warnings,
        program,
        labels,
        list,
        typed,
    })
}

/// A program that is ready to run, or how the command ends because it is refused.
pub(crate) fn ready_of<'p, 'w>(
    alloc: Global,
    inputs: &'p Inputs,
    words: &[&'w str],
) -> Result<Ready<'p, 'w>, End<'static>>
    ensures { MakesReady inputs.now (map (λ word. word.now) words.now) result }
{
    match ready(alloc, &inputs.program, words, &inputs.image, &inputs.typed) {
        Ok(ready) => Ok(ready),
        Err(Refusal::NoMemory) => Err(End::NoMemory),
        Err(refusal) => Err(End::Refused(format!(in alloc; "{refusal}")?)),
    }
}

/// A program that is ready to run, with its labels, or how the command ends because it or its labels are refused.
pub(crate) fn prepare<'p, 'w>(
    alloc: Global,
    inputs: &'p Inputs,
    words: &[&'w str],
) -> Result<(Ready<'p, 'w>, Labels), End<'static>>
    ensures { Prepares inputs.now (map (λ word. word.now) words.now) result }
{
    let ready = ready_of(alloc, inputs, words)?;
    let labels = labels_of(alloc, inputs.labels.as_deref(), inputs.program.len())?;
    Ok((ready, labels))
}

/// Keeps the image that a run leaves, if it has a disk of its own. This needs no memory, so that no change of the disk is lost for want of it.
pub(crate) fn keep_disk<'a, F: Files>(
    disk: Option<&'a str>,
    bytes: &[u8],
    made: &[u8],
    files: &mut F,
) -> Result<(), End<'a>>
    requires free { IsFreeOf disk (F.folder files.old) }
    ensures { IsKept disk.entry bytes.now made.now (F.folder files.old) (F.folder files.new) result }
{
    match disk {
        Some(path) => keep(path, bytes, made, files),
        None => Ok(()),
    }
}

/// Why a run ends: output that cannot be flushed is a fault of the console.
fn why_at(why: Why, flushed: Result<(), WriteFailed>) -> Why
    ensures { result ≡ why_at why flushed }
{
    match flushed {
        Ok(()) => why,
        Err(_) => Why::Stopped(Stop::ConsoleFault),
    }
}

/// Writes lines that warn, if there are some, after a run whose program ended by itself.
pub(crate) fn warn_after<E: Sink>(lines: &Option<String>, status: u8, errors: &mut E)
    ensures { WarnsAfter (option_map string_bytes lines.now) (E.stream errors.old) (E.stream errors.new) status }
{
    if status != DONE {
        return;
    }
    if let Some(lines) = lines {
        let _ = put(errors, lines.as_bytes());
    }
}

/// Writes what a run tells, if memory has not run out for it.
fn write_if_told<'a, F: Files>(
    telling: Telling<'a>,
    told: &Option<Told>,
    files: &mut F,
) -> Result<(), End<'a>>
    ensures { WritesIfTold telling.entry told.now (F.folder files.old) (F.folder files.new) result }
{
    match told {
        Some(told) => write_told(telling, told, files),
        None => Err(End::NoMemory),
    }
}

/// Keeps the image that a run leaves, then writes what the run tells. Answers how the second ended, if the first is done.
fn keep_all<'a, F: Files, W>(
    job: &Run<'a>,
    bytes: &[u8],
    ran: &Ran<W>,
    told: &Option<Told>,
    files: &mut F,
) -> Result<Result<(), End<'a>>, End<'a>>
    requires free { IsFreeOf job.now.disk (F.folder files.old) }
    ensures { KeepsAll job.now bytes.now (concat ran.now.image) told.now (F.folder files.old) (F.folder files.new) result }
{
    keep_disk(job.disk, bytes, ran.image_bytes(), files)?;
    Ok(write_if_told(job.telling, told, files))
}

/// Puts the lines that a run tells, if there are some.
fn put_told<E: Sink>(told: &Option<Told>, errors: &mut E)
    ensures { PutsLines (told_lines told.now) (E.stream errors.old) (E.stream errors.new) }
{
    if let Some(told) = told {
        put_lines(&told.lines, errors);
    }
}

/// Reports the end of what comes after the lines of a run: nothing more, with the status of the run and the lines that warn; or that a file
/// could not be written. Gives the exit status.
pub(crate) fn report_written<E: Sink>(
    lines: &Option<String>,
    written: Result<(), End<'_>>,
    status: u8,
    errors: &mut E,
) -> u8
    ensures { ReportsWritten (option_map string_bytes lines.now) written.entry status (E.stream errors.old) (E.stream errors.new) result }
{
    match written {
        Ok(()) => {
            warn_after(lines, status, errors);
            status
        }
        Err(end) => report(&end, errors),
    }
}

/// Reports that the image could not be written; or why the run ended, with what it tells, and then whether what it tells could be written.
/// Gives the exit status.
fn report_run<E: Sink>(
    alloc: Global,
    lines: &Option<String>,
    told: &Option<Told>,
    kept: Result<Result<(), End<'_>>, End<'_>>,
    why: Why,
    pc: u16,
    errors: &mut E,
) -> u8
    ensures { ReportsRun (option_map string_bytes lines.now) (told_lines told.now) kept.entry why pc (E.stream errors.old) (E.stream errors.new) result }
{
    match kept {
        Ok(written) => {
            let status = conclude(alloc, why, pc, errors);
            put_told(told, errors);
            report_written(lines, written, status, errors)
        }
        Err(end) => report(&end, errors),
    }
}

/// Hands on what the program printed, keeps the image, writes what the run tells, reports why it ended, and gives the exit status.
pub(crate) fn end_run<F: Files, W: Sink, E: Sink>(
    alloc: Global,
    job: &Run<'_>,
    inputs: &Inputs,
    ran: &mut Ran<W>,
    told: &Option<Told>,
    files: &mut F,
    errors: &mut E,
) -> u8
    requires free { IsFreeOf job.now.disk (F.folder files.old) }
    ensures { EndsRun job.now inputs.now ran.old.why ran.old.pc (concat ran.old.image) told.now (W.stream ran.old.output) (W.stream ran.new.output) (F.folder files.old) (F.folder files.new) (E.stream errors.old) (E.stream errors.new) result }
{
    let flushed = flush(&mut ran.output);
    let kept = keep_all(job, &inputs.image, ran, told, files);
    let why = why_at(ran.why, flushed);
    report_run(alloc, &inputs.warnings, told, kept, why, ran.pc, errors)
}
