//! The commands `asm`, `link` and `build`, which judge their values before they read a file.

ghost use Rattle.host.specs.Reporting.{Judging, Reports, ReportsLines};
ghost use Rattle.z80dev.specs.Making.{AsmEnds, BuildEnds, LinkEnds};
ghost use Rattle.host.specs.Reading.{Reader};
ghost use Rattle.z80dev.specs.Values.{bad_define, bad_in_build, bad_symbols};
ghost use Rattle.host.specs.World.{world_of};

use crate::programs::making::{asm_file, build_files, link_files};
use crate::programs::values::{bad_define, bad_in_build, bad_symbols};
use crate::{Files, Sink};
use host::{refuse_value, report_any, report_lines};
use std::alloc::Global;
use z80dev_commands::{Asm, Build, Link};

/// Assembles a source, unless a definition is refused, and gives the exit status.
pub fn asm_job<F: Files, W: Sink, E: Sink>(
    alloc: Global,
    job: &Asm<'_>,
    files: &mut F,
    output: &mut W,
    errors: &mut E,
) -> u8
    ensures { (input : Reader) → Judging (bad_define job.now.shared) (ReportsLines (AsmEnds job.now)) (world_of (F.folder files.old) input (W.stream output.old) (E.stream errors.old)) (world_of (F.folder files.new) input (W.stream output.new) (E.stream errors.new)) result }
{
    if let Some(status) = refuse_value(bad_define(alloc, &job.shared), errors) {
        return status;
    }
    report_lines(asm_file(alloc, job, files, output), errors)
}

/// Links a program, unless a value is refused, and gives the exit status.
pub fn link_job<F: Files, W: Sink, E: Sink>(
    alloc: Global,
    job: &Link<'_>,
    files: &mut F,
    output: &mut W,
    errors: &mut E,
) -> u8
    ensures { (input : Reader) → Judging (bad_symbols job.now.symbols) (Reports (LinkEnds job.now)) (world_of (F.folder files.old) input (W.stream output.old) (E.stream errors.old)) (world_of (F.folder files.new) input (W.stream output.new) (E.stream errors.new)) result }
{
    if let Some(status) = refuse_value(bad_symbols(alloc, job.symbols), errors) {
        return status;
    }
    report_any(link_files(alloc, job, files, output), errors)
}

/// Builds a program, unless a value is refused, and gives the exit status.
pub fn build_job<F: Files, W: Sink, E: Sink>(
    alloc: Global,
    job: &Build<'_>,
    files: &mut F,
    output: &mut W,
    errors: &mut E,
) -> u8
    ensures { (input : Reader) → Judging (bad_in_build job.now) (ReportsLines (BuildEnds job.now)) (world_of (F.folder files.old) input (W.stream output.old) (E.stream errors.old)) (world_of (F.folder files.new) input (W.stream output.new) (E.stream errors.new)) result }
{
    if let Some(status) = refuse_value(bad_in_build(alloc, job), errors) {
        return status;
    }
    report_lines(build_files(alloc, job, files, output), errors)
}
