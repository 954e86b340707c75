//! The command.

ghost use Rattle.std.specs.Prelude.{◌≡◌, ◌≢◌, ◌≤◌, [], false, map};
ghost use Rattle.debugger.specs.declared.conversation.TheConstants.{MOST_READS};
ghost use Rattle.clap.specs.Words.{kind_of};
ghost use Rattle.z80dev_jobs.specs.Command.{CommandEnds, JobEnds};
ghost use Rattle.host.specs.Reporting.{Judging, Reports};
ghost use Rattle.z80dev_jobs.specs.Explaining.{ExplainEnds};
ghost use Rattle.host.specs.Ending.{ended};
ghost use Rattle.z80dev_jobs.specs.Private.Steps.{HasJobUser, RefusesError, RefusesFault};
ghost use Rattle.host.specs.Reading.{Reader, reader_of};
ghost use Rattle.z80dev_jobs.specs.Values.{bad_in_explain};
ghost use Rattle.host.specs.World.{world_of};

use crate::explaining::explain_files;
use crate::tips::tip;
use crate::values::bad_in_explain;
use crate::words::{WordsFault, texts_of};
use crate::{debug_job, play_job, run_job};
use clap::Error;
use clap::error::ErrorKind;
use host::{Ended, Host, print, refuse_value, report_any, report_line, tell};
use std::alloc::{AllocError, Global};
use z80dev::{
    DONE, End, Files, Input, Job, Sink, USAGE, asm_job, build_job, check_files, commands, dis_file,
    do_on_disk, link_job, pipe, report,
};
use z80dev_commands::Explain;

/// Reports why the words are not known, and gives the exit status.
fn refuse_fault<E: Sink>(alloc: Global, fault: WordsFault, errors: &mut E) -> u8
    ensures { RefusesFault fault (E.stream errors.old) (E.stream errors.new) result }
{
    let WordsFault::NotText(number) = fault else {
        return report(&End::NoMemory, errors);
    };
    match format!(in alloc; "word {number} is not UTF-8") {
        Ok(text) => {
            let _ = tell(errors, text.as_bytes());
            USAGE
        }
        Err(_) => report(&End::NoMemory, errors),
    }
}

/// The text of `clap` for words that are wrong, without the beginning and the line feed that `tell` puts.
fn reason_of(text: &str) -> &str
    ensures { result.now ≢ [] }
{
    let text = text.strip_prefix("error: ").unwrap_or(text);
    let text = text.strip_suffix('\n').unwrap_or(text);
    if text.is_empty() {
        return "wrong words";
    }
    text
}

/// What to print for words that ask for no job.
fn usage_text(alloc: Global, words: &[String], error: &Error) -> Result<String, AllocError> {
    match tip(alloc, error.kind(), words)? {
        Some(text) => Ok(text),
        None => format!(in alloc; "{error}"),
    }
}

/// Prints the help or the version that the words ask for, or writes what is wrong with them on standard error, and gives the exit status.
fn refuse_words<W: Sink, E: Sink>(
    alloc: Global,
    words: &[String],
    error: &Error,
    output: &mut W,
    errors: &mut E,
) -> u8
    ensures { RefusesError (kind_of error.now) (W.stream output.old) (W.stream output.new) (E.stream errors.old) (E.stream errors.new) result }
{
    let Ok(text) = usage_text(alloc, words, error) else {
        return report(&End::NoMemory, errors);
    };
    match error.kind() {
        ErrorKind::OutOfMemory => report(&End::NoMemory, errors),
        ErrorKind::DisplayHelp | ErrorKind::DisplayVersion => {
            match print(output, text.as_bytes()) {
                Ok(()) => DONE,
                Err(_) => report(&End::Stream, errors),
            }
        }
        _ => {
            let _ = tell(errors, reason_of(&text).as_bytes());
            USAGE
        }
    }
}

/// Explains sources, unless a value is refused, and gives the exit status.
fn explain_job<F: Files, W: Sink, E: Sink>(
    alloc: Global,
    job: &Explain<'_>,
    is_terminal: bool,
    files: &mut F,
    output: &mut W,
    errors: &mut E,
) -> u8
    ensures { (input : Reader) → Judging (bad_in_explain job.now) (Reports (ExplainEnds job.now is_terminal)) (world_of (F.folder files.old) input (W.stream output.old) (E.stream errors.old)) (world_of (F.folder files.new) input (W.stream output.new) (E.stream errors.new)) result }
{
    if let Some(status) = refuse_value(bad_in_explain(alloc, job), errors) {
        return status;
    }
    report_any(
        explain_files(alloc, job, is_terminal, files, output),
        errors,
    )
}

/// Does a job, and gives the exit status with what the command worked on.
fn work<F: Files, I: Input, W: Sink + Drop, E: Sink>(
    alloc: Global,
    job: Job<'_>,
    mut host: Host<F, I, W, E>,
) -> Ended<F, I, W, E>
    requires sound { I.failed host.input ≡ false }
    requires unread { I.reads host.input ≡ 0 }
    requires calm { I.interruptions host.input ≡ 0 }
    requires user { HasJobUser job }
    ensures ends { JobEnds job.entry host.is_terminal (world_of (F.folder host.files) (reader_of (I.remaining host.input) (I.failed host.input) (I.reads host.input) (I.interruptions host.input)) (W.stream host.output) (E.stream host.errors)) (world_of (F.folder result.host.files) (reader_of (I.remaining result.host.input) (I.failed result.host.input) (I.reads result.host.input) (I.interruptions result.host.input)) (W.stream result.host.output) (E.stream result.host.errors)) result.status }
    ensures reads { I.reads result.host.input ≤ MOST_READS }
    ensures terminal { result.host.is_terminal ≡ host.is_terminal }
{
    let status = match job {
        Job::Pipe => pipe(alloc, &mut host.input, &mut host.output, &mut host.errors),
        Job::Asm(asm) => asm_job(
            alloc,
            &asm,
            &mut host.files,
            &mut host.output,
            &mut host.errors,
        ),
        Job::Link(link) => link_job(
            alloc,
            &link,
            &mut host.files,
            &mut host.output,
            &mut host.errors,
        ),
        Job::Build(build) => build_job(
            alloc,
            &build,
            &mut host.files,
            &mut host.output,
            &mut host.errors,
        ),
        Job::Explain(explain) => explain_job(
            alloc,
            &explain,
            host.is_terminal,
            &mut host.files,
            &mut host.output,
            &mut host.errors,
        ),
        Job::Check(check) => {
            let end = check_files(
                alloc,
                check.sizes,
                check.cert,
                &mut host.files,
                &mut host.output,
            );
            report_any(end, &mut host.errors)
        }
        Job::Dis(dis) => {
            let end = dis_file(alloc, &dis, &mut host.files, &mut host.output);
            report_any(end, &mut host.errors)
        }
        Job::Disk(job) => {
            let ended = do_on_disk(alloc, job, &mut host.files, &mut host.output);
            report_line(ended, &mut host.errors)
        }
        Job::Debug(job) => debug_job(
            alloc,
            &job,
            &mut host.files,
            &mut host.input,
            &mut host.output,
            &mut host.errors,
        ),
        Job::Run(run) => return run_job(alloc, &run, host),
        Job::Play(play) => return play_job(alloc, &play, host),
    };
    Ended { status, host }
}

/// The command `z80dev`: does what its words ask for, the program's name first, and gives the exit status with what it worked on. Standard
/// input must not have been read.
///
/// The status is 0 if all is done; 1 if what was read is refused, a run was stopped (also by output that failed) or memory ran out; 2 if the
/// words are wrong; and 3 if a file, standard input, or the output of any other command failed. If it is not 0, a line on standard error says
/// why. A failure of standard error changes no status.
pub fn command<F: Files, I: Input, W: Sink + Drop, E: Sink>(
    alloc: Global,
    words: &[Vec<u8>],
    mut host: Host<F, I, W, E>,
) -> Ended<F, I, W, E>
    requires sound { I.failed host.input ≡ false }
    requires unread { I.reads host.input ≡ 0 }
    requires calm { I.interruptions host.input ≡ 0 }
    ensures ends { CommandEnds (map (λ word. word.items) words.now) host.is_terminal (world_of (F.folder host.files) (reader_of (I.remaining host.input) (I.failed host.input) (I.reads host.input) (I.interruptions host.input)) (W.stream host.output) (E.stream host.errors)) (world_of (F.folder result.host.files) (reader_of (I.remaining result.host.input) (I.failed result.host.input) (I.reads result.host.input) (I.interruptions result.host.input)) (W.stream result.host.output) (E.stream result.host.errors)) result.status }
    ensures reads { I.reads result.host.input ≤ MOST_READS }
    ensures terminal { result.host.is_terminal ≡ host.is_terminal }
{
    let texts = match texts_of(alloc, words) {
        Ok(texts) => texts,
        Err(fault) => {
            let status = refuse_fault(alloc, fault, &mut host.errors);
            return Ended { status, host };
        }
    };
    match commands(alloc, &texts) {
        Ok(job) => work(alloc, job, host),
        Err(error) => {
            let status = refuse_words(alloc, &texts, &error, &mut host.output, &mut host.errors);
            Ended { status, host }
        }
    }
}
