//! The command `play`.

ghost use Rattle.std.specs.Prelude.{◌≡◌, ◌≤◌, ℕ, IfOk, List, Vec, false, map, option_map, string_bytes, unwrap_or};
ghost use Rattle.std.specs.List.{concat};
ghost use Rattle.host.specs.Reporting.{Judging};
ghost use Rattle.z80dev_jobs.specs.Runs.Playing.{ConcludesPlay, EndsPlay, IsSession, KeepsPlayed, PlayEndsWith, ReadsPlayed, ReadsRecord, ReadsSession, Records, ReportsPlay, bad_in_play, bad_record, bad_terminal, codes_named, codes_of, flushed_end, keys_of};
ghost use Rattle.z80dev_run.specs.Program.{IsReadyToRun};
ghost use Rattle.z80dev_jobs.specs.Private.Images.{IsFreeOf};
ghost use Rattle.host.specs.Reading.{reader_of};
ghost use Rattle.host.specs.World.{world_of};

use crate::runs::running::{Inputs, claim_disk, keep_disk, ready_of, report_written};
use cpm_console::Codes;
use host::{
    DONE, End, Ended, Files, Host, Image, Input, Sink, WriteFailed, flush, is_same_path,
    names_work, read, refuse_value, report,
};
use std::alloc::{AllocError, Global};
use z80dev_commands::Play;
use z80dev_run::{
    Arrival, Desk, Keys, PlayEnd, PlayedRan, Ready, Recorded, Station, conclude, read_record,
    record_file,
};

/// Whose screen codes a word of `--terminal` names.
fn codes_named(word: &str) -> Option<Codes>
    ensures { result ≡ codes_named word.now }
{
    if word == "adm3a" {
        return Some(Codes::Adm3a);
    }
    if word == "vt52" {
        return Some(Codes::Vt52);
    }
    if word == "none" {
        return Some(Codes::Plain);
    }
    None
}

/// Whose screen codes a program prints: those of the ADM-3A, if none are named.
fn codes_of(word: Option<&str>) -> Codes
    ensures { result ≡ codes_of word.entry }
{
    match word {
        Some(word) => codes_named(word).unwrap_or(Codes::Adm3a),
        None => Codes::Adm3a,
    }
}

/// Answers with which text a value of `--terminal` is refused that names no screen codes.
fn bad_terminal(alloc: Global, word: Option<&str>) -> Result<Option<String>, AllocError>
    ensures { IfOk result (λ why. option_map string_bytes why ≡ bad_terminal word.entry) }
{
    match word {
        Some(word) if codes_named(word).is_none() => {
            Ok(Some(format!(in alloc; "BadTerminal({word})")?))
        }
        _ => Ok(None),
    }
}

/// Answers with which text a record is refused that has the path of a file that is read, or ends as that of a program, a source or an image does.
fn bad_record(
    alloc: Global,
    job: &Play<'_>,
    given: Option<&str>,
) -> Result<Option<String>, AllocError>
    ensures { IfOk result (λ why. option_map string_bytes why ≡ bad_record job.now given.entry) }
{
    let Some(path) = given else {
        return Ok(None);
    };
    let is_image = match job.disk {
        Some(disk) => is_same_path(path, disk),
        None => false,
    };
    let is_replayed = match job.replay {
        Some(replayed) => is_same_path(path, replayed),
        None => false,
    };
    if is_same_path(path, job.program) || is_image || is_replayed || names_work(path) {
        return Ok(Some(format!(in alloc; "Overwrites({path})")?));
    }
    Ok(None)
}

/// Answers with which text the first value of `play` is refused that is wrong.
fn bad_in_play(alloc: Global, job: &Play<'_>) -> Result<Option<String>, AllocError>
    ensures { IfOk result (λ why. option_map string_bytes why ≡ bad_in_play job.now) }
{
    match bad_terminal(alloc, job.terminal)? {
        Some(why) => Ok(Some(why)),
        None => bad_record(alloc, job, job.record),
    }
}

/// Claims the image and reads the program.
fn played_of<'a, F: Files>(alloc: Global, job: &Play<'a>, files: &mut F) -> Result<Inputs, End<'a>>
    ensures { ReadsPlayed job.now (F.folder files.old) (F.folder files.new) result }
{
    let Image { bytes, warnings } = claim_disk(alloc, job.disk, job.lock, files)?;
    let program = read(alloc, job.program, files)?;
    Ok(Inputs {
        image: bytes,
        warnings,
        program,
        labels: None,
        list: None,
        typed: Vec::new(alloc),
    })
}

/// Reads the record of an earlier session, if there is a path for one.
pub(crate) fn recorded_of<'a, F: Files>(
    alloc: Global,
    path: Option<&'a str>,
    files: &mut F,
) -> Result<Option<Recorded>, End<'a>>
    ensures { ReadsRecord path.entry (F.folder files.old) (F.folder files.new) result }
{
    let Some(path) = path else {
        return Ok(None);
    };
    let text = read(alloc, path, files)?;
    match read_record(alloc, &text)? {
        Some(recorded) => Ok(Some(recorded)),
        None => Err(End::Refused(format!(in alloc; "BadRecord({path})")?)),
    }
}

/// Claims the image and reads the program and the record.
fn session_of<'a, F: Files>(
    alloc: Global,
    job: &Play<'a>,
    files: &mut F,
) -> Result<(Inputs, Option<Recorded>), End<'a>>
    ensures { ReadsSession job.now (F.folder files.old) (F.folder files.new) result }
{
    let inputs = played_of(alloc, job, files)?;
    match recorded_of(alloc, job.replay, files) {
        Ok(recorded) => Ok((inputs, recorded)),
        Err(end) => Err(end),
    }
}

/// Plays a program, or plays it again if there is a record.
fn run_session<K: Station>(
    alloc: Global,
    ready: Ready<'_, '_>,
    recorded: &Option<Recorded>,
    station: &mut K,
    steps: u64,
) -> PlayedRan
    ensures { (program : List ℕ) (words : List (List ℕ)) (image input : List ℕ) → IsReadyToRun program words image input ready.entry
        → IsSession program words image steps recorded.now (K.seat station.old) result.end result.turns result.pc (concat result.image) result.arrivals.items (K.seat station.new) }
{
    match recorded {
        Some(recorded) => ready.replay(alloc, recorded, station, steps),
        None => ready.play(alloc, station, steps),
    }
}

/// Writes a session, if there is a path for it.
fn record<'a, F: Files>(
    alloc: Global,
    path: Option<&'a str>,
    arrivals: &[Arrival],
    turns: u64,
    files: &mut F,
) -> Result<(), End<'a>>
    ensures { Records path.entry arrivals.now turns (F.folder files.old) (F.folder files.new) result }
{
    let Some(path) = path else {
        return Ok(());
    };
    let Ok(text) = record_file(alloc, arrivals, turns) else {
        return Err(End::NoMemory);
    };
    match files.write(path, &text) {
        Ok(()) => Ok(()),
        Err(_) => Err(End::File { path, ending: "" }),
    }
}

/// Keeps the image that a session leaves, then writes the session. Answers how the second ended, if the first is done.
fn keep_played<'a, F: Files>(
    alloc: Global,
    job: &Play<'a>,
    bytes: &[u8],
    played: &PlayedRan,
    files: &mut F,
) -> Result<Result<(), End<'a>>, End<'a>>
    requires free { IsFreeOf job.now.disk (F.folder files.old) }
    ensures { KeepsPlayed job.now bytes.now (concat played.now.image) played.now.arrivals.items played.now.turns (F.folder files.old) (F.folder files.new) result }
{
    keep_disk(job.disk, bytes, played.image_bytes(), files)?;
    Ok(record(alloc, job.record, &played.arrivals, played.turns, files))
}

/// Reports why a session ended, and gives the exit status.
fn conclude_play<E: Sink>(alloc: Global, end: PlayEnd, pc: u16, errors: &mut E) -> u8
    ensures { ConcludesPlay end pc (E.stream errors.old) (E.stream errors.new) result }
{
    match end {
        PlayEnd::Run(why) => conclude(alloc, why, pc, errors),
        PlayEnd::Left => DONE,
        PlayEnd::Failed => report(&End::Stream, errors),
        PlayEnd::NoMemory => report(&End::NoMemory, errors),
    }
}

/// Reports that the image could not be written; or why the session ended, and then whether the session could be written. Gives the exit
/// status.
fn report_play<E: Sink>(
    alloc: Global,
    lines: &Option<String>,
    kept: Result<Result<(), End<'_>>, End<'_>>,
    end: PlayEnd,
    pc: u16,
    errors: &mut E,
) -> u8
    ensures { ReportsPlay (option_map string_bytes lines.now) kept.entry end pc (E.stream errors.old) (E.stream errors.new) result }
{
    match kept {
        Ok(written) => {
            let status = conclude_play(alloc, end, pc, errors);
            report_written(lines, written, status, errors)
        }
        Err(end) => report(&end, errors),
    }
}

/// How a session ended, once what a buffer held back is written out, or that failed.
fn flushed_end(end: PlayEnd, flushed: Result<(), WriteFailed>) -> PlayEnd
    ensures { result ≡ flushed_end end flushed }
{
    match flushed {
        Ok(()) => end,
        Err(_) => PlayEnd::Failed,
    }
}

/// Keeps the image, writes the bytes that came, reports why the session ended, and gives the exit status.
fn end_play<F: Files, E: Sink>(
    alloc: Global,
    job: &Play<'_>,
    inputs: &Inputs,
    played: &PlayedRan,
    end: PlayEnd,
    files: &mut F,
    errors: &mut E,
) -> u8
    requires free { IsFreeOf job.now.disk (F.folder files.old) }
    ensures { EndsPlay job.now inputs.now end played.now.turns played.now.pc (concat played.now.image) played.now.arrivals.items (F.folder files.old) (F.folder files.new) (E.stream errors.old) (E.stream errors.new) result }
{
    let kept = keep_played(alloc, job, &inputs.image, played, files);
    report_play(alloc, &inputs.warnings, kept, end, played.pc, errors)
}

/// How keys come.
fn keys_of(raw: bool) -> Keys
    ensures { result ≡ keys_of raw }
{
    if raw { Keys::Raw } else { Keys::Lines }
}

/// Runs a program for somebody at standard input and standard output, and gives the exit status with what the command worked on.
fn play<F: Files, I: Input, W: Sink + Drop, E: Sink>(
    alloc: Global,
    job: &Play<'_>,
    mut host: Host<F, I, W, E>,
) -> Ended<F, I, W, E>
    requires sound { I.failed host.input ≡ false }
    requires unread { I.reads host.input ≡ 0 }
    ensures ends { PlayEndsWith job.now (world_of (F.folder host.files) (reader_of (I.remaining host.input) (I.failed host.input) (I.reads host.input) (I.interruptions host.input)) (W.stream host.output) (E.stream host.errors)) (world_of (F.folder result.host.files) (reader_of (I.remaining result.host.input) (I.failed result.host.input) (I.reads result.host.input) (I.interruptions result.host.input)) (W.stream result.host.output) (E.stream result.host.errors)) result.status }
    ensures reads { I.reads result.host.input ≤ 4294967296 }
    ensures terminal { result.host.is_terminal ≡ host.is_terminal }
{
    let (inputs, recorded) = match session_of(alloc, job, &mut host.files) {
        Ok(read) => read,
        Err(end) => {
            let status = report(&end, &mut host.errors);
            return Ended { status, host };
        }
    };
    let ready = match ready_of(alloc, &inputs, &job.words) {
        Ok(ready) => ready,
        Err(end) => {
            let status = report(&end, &mut host.errors);
            return Ended { status, host };
        }
    };
    let Host {
        mut files,
        input,
        output,
        mut errors,
        is_terminal,
    } = host;
    let mut desk = Desk::new(
        alloc,
        input,
        output,
        codes_of(job.terminal),
        keys_of(job.raw),
    );
    let steps = job.steps.unwrap_or(u64::MAX);
    let played = run_session(alloc, ready, &recorded, &mut desk, steps);
    let (input, mut output) = desk.into_streams();
    let end = flushed_end(played.end, flush(&mut output));
    let status = end_play(alloc, job, &inputs, &played, end, &mut files, &mut errors);
    let host = Host {
        files,
        input,
        output,
        errors,
        is_terminal,
    };
    Ended { status, host }
}

/// Does `play`, unless a value is refused, and gives the exit status with what the command worked on.
pub fn play_job<F: Files, I: Input, W: Sink + Drop, E: Sink>(
    alloc: Global,
    job: &Play<'_>,
    mut host: Host<F, I, W, E>,
) -> Ended<F, I, W, E>
    requires sound { I.failed host.input ≡ false }
    requires unread { I.reads host.input ≡ 0 }
    ensures ends { Judging (bad_in_play job.now) (PlayEndsWith job.now) (world_of (F.folder host.files) (reader_of (I.remaining host.input) (I.failed host.input) (I.reads host.input) (I.interruptions host.input)) (W.stream host.output) (E.stream host.errors)) (world_of (F.folder result.host.files) (reader_of (I.remaining result.host.input) (I.failed result.host.input) (I.reads result.host.input) (I.interruptions result.host.input)) (W.stream result.host.output) (E.stream result.host.errors)) result.status }
    ensures reads { I.reads result.host.input ≤ 4294967296 }
    ensures terminal { result.host.is_terminal ≡ host.is_terminal }
{
    if let Some(status) = refuse_value(bad_in_play(alloc, job), &mut host.errors) {
        return Ended { status, host };
    }
    play(alloc, job, host)
}
