//! Runs a program, from the words of the command to its end.

ghost use Rattle.std.specs.Prelude.{◌≡◌, ◌≤◌, false};
ghost use Rattle.debugger.specs.declared.conversation.TheConstants.{MOST_READS};
ghost use Rattle.z80dev_jobs.specs.Runs.Running.{RunEnds};
ghost use Rattle.host.specs.Reading.{reader_of};
ghost use Rattle.host.specs.World.{world_of};

use crate::runs::running::{STEPS, end_run, inputs_of, prepare};
use crate::runs::telling::{refuse_telling, run_telling};
use host::{Ended, Files, Host, Input, Sink, report};
use std::alloc::Global;
use z80dev_commands::Run;
use z80dev_run::Ran;

/// Runs a program, and gives the exit status with what the command worked on.
pub fn run_job<F: Files, I: Input, W: Sink + Drop, E: Sink>(
    alloc: Global,
    job: &Run<'_>,
    mut host: Host<F, I, W, E>,
) -> Ended<F, I, W, E>
    requires sound { I.failed host.input ≡ false }
    requires unread { I.reads host.input ≡ 0 }
    requires calm { I.interruptions host.input ≡ 0 }
    ensures ends { RunEnds job.now (world_of (F.folder host.files) (reader_of (I.remaining host.input) (I.failed host.input) (I.reads host.input) (I.interruptions host.input)) (W.stream host.output) (E.stream host.errors)) (world_of (F.folder result.host.files) (reader_of (I.remaining result.host.input) (I.failed result.host.input) (I.reads result.host.input) (I.interruptions result.host.input)) (W.stream result.host.output) (E.stream result.host.errors)) result.status }
    ensures reads { I.reads result.host.input ≤ MOST_READS }
    ensures terminal { result.host.is_terminal ≡ host.is_terminal }
{
    if let Err(end) = refuse_telling(alloc, job) {
        let status = report(&end, &mut host.errors);
        return Ended { status, host };
    }
    let inputs = match inputs_of(alloc, job, &mut host.files, &mut host.input) {
        Ok(inputs) => inputs,
        Err(end) => {
            let status = report(&end, &mut host.errors);
            return Ended { status, host };
        }
    };
    let (ready, labels) = match prepare(alloc, &inputs, &job.words) {
        Ok(prepared) => prepared,
        Err(end) => {
            let status = report(&end, &mut host.errors);
            return Ended { status, host };
        }
    };
    let Host {
        mut files,
        input,
        output,
        mut errors,
        is_terminal,
    } = host;
    let steps = job.steps.unwrap_or(STEPS);
    let listing = inputs.list.as_deref();
    let (mut ran, told) = run_telling(alloc, ready, output, steps, job.telling, &labels, listing);
    let status = end_run(
        alloc,
        job,
        &inputs,
        &mut ran,
        &told,
        &mut files,
        &mut errors,
    );
    let Ran { output, .. } = ran;
    let host = Host {
        files,
        input,
        output,
        errors,
        is_terminal,
    };
    Ended { status, host }
}
