//! Prints what a run has kept of its steps.

ghost use Rattle.std.specs.Prelude.{◌≡◌, ◌++◌, IfOk, OnOk};
ghost use Rattle.cpm_run.specs.Records.{last_items};
ghost use Rattle.z80dev_run.specs.Lines.{IsTrace};
ghost use Rattle.z80dev_run.specs.Reports.{IsTraceFile, more_steps_text};

use crate::labels::Labels;
use crate::lines::trace_lines;
use cpm_run::{Record, TraceStep};
use std::alloc::{AllocError, Global};
use std::collections::VecDeque;

/// How many of the first steps of a run a trace file has.
pub const TRACE_STEPS: usize = 1_000_000;

/// Appends the line that says how many more steps there were, if there were any.
fn put_more_steps(alloc: Global, left: u64, text: &mut Vec<u8>) -> Result<(), AllocError>
    ensures { OnOk result (text.new.items ≡ text.old.items ++ more_steps_text left) }
{
    if left == 0 {
        return Ok(());
    }
    if left == 1 {
        return text.extend_from_slice(b"1 more step\n");
    }
    text.extend_from_slice(format!(in alloc; "{left} more steps\n")?.as_bytes())
}

/// Answers the bytes of a trace file: a line for each of the first steps that were kept, and if there were more, how many.
pub fn trace_file(
    alloc: Global,
    kept: &Record,
    turns: u64,
    labels: &Labels,
) -> Result<Vec<u8>, AllocError>
    ensures { IfOk result (λ text. IsTraceFile labels.now kept.now.first.items turns text.items) }
{
    let mut text = trace_lines(alloc, &kept.first, labels)?;
    let left = turns.saturating_sub(kept.first.len() as u64);
    put_more_steps(alloc, left, &mut text)?;
    Ok(text)
}

/// Copies steps.
fn copied(alloc: Global, steps: &VecDeque<TraceStep>) -> Result<Vec<TraceStep>, AllocError>
    ensures { IfOk result (λ all. all.items ≡ steps.now.items) }
{
    let (front, back) = steps.as_slices();
    let mut all = Vec::with_capacity(alloc, steps.len())?;
    all.extend_from_slice(front)?;
    all.extend_from_slice(back)?;
    Ok(all)
}

/// Answers the lines of the last steps, at most `most` of them.
pub fn last_lines(
    alloc: Global,
    kept: &Record,
    most: usize,
    labels: &Labels,
) -> Result<Vec<u8>, AllocError>
    ensures { IfOk result (λ text. IsTrace labels.now (last_items most kept.now.last.items) text.items) }
{
    let steps = copied(alloc, &kept.last)?;
    let from = steps.len().saturating_sub(most);
    trace_lines(alloc, &steps[from..], labels)
}
