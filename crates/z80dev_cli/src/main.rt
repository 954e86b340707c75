//! The program `z80dev`.
#![tactic(auto)]

mod files;
mod keyboard;
mod notes;
mod words;

use files::HostFiles;
use host::{FILE_FAULT, put_all};
use keyboard::Keyboard;
use notes::{explain_note, keyboard_note, program_note, program_path, terminal_note};
use std::alloc::AllocError;
use std::fs::{self, File};
use std::io::{self, IsTerminal, LineWriter};
use std::os::fd::AsRawFd;
use std::process::ExitCode;
use words::words_of;
use z80dev::{End, Watched, WatchedSink, report};
use z80dev_jobs::{Host, command};

/// How many standard streams there are, and the number of the last, which is standard error.
const STREAMS: usize = 3;

const LAST_STREAM: i32 = 2;

/// Runs the command on the files and streams of the system. Its output is written a line at a time.
fn run(rt: &HostRuntime) -> Result<u8, AllocError> {
    let words = words_of(rt)?;
    let stdout = rt.stdout();
    let is_terminal = stdout.is_terminal();
    let Ok(output) = LineWriter::new(rt.alloc(), stdout) else {
        return Err(AllocError);
    };
    let host = Host {
        files: HostFiles::new(rt),
        input: Watched::new(Keyboard::new(rt.stdin())),
        output: WatchedSink::new(output),
        errors: WatchedSink::new(rt.stderr()),
        is_terminal,
    };
    prepare(rt, &words);
    let ended = command(rt.alloc(), &words, host);
    if rt.stderr().is_terminal() {
        advise(rt, &words, ended.status, &ended.host.files);
    }
    Ok(ended.status)
}

/// Whether the program that these words run is there, if they run one.
fn has_program(rt: &HostRuntime, words: &[Vec<u8>]) -> bool {
    match program_path(rt.alloc(), words) {
        Some(path) => fs::metadata(rt, path.as_str()).is_ok(),
        None => true,
    }
}

/// Says to somebody at a terminal what the command waits for. Scripts rely on the lines of the command alone.
fn prepare(rt: &HostRuntime, words: &[Vec<u8>]) {
    if !rt.stdin().is_terminal() || !rt.stderr().is_terminal() || !has_program(rt, words) {
        return;
    }
    if let Some(text) = keyboard_note(rt.alloc(), words) {
        note(rt, text);
    }
}

/// Says to somebody at a terminal why a file could not be used, which command says more of an error, which values an option takes, or that a
/// source or an image was run as a program.
fn advise(rt: &HostRuntime, words: &[Vec<u8>], status: u8, files: &HostFiles<'_>) {
    if status == FILE_FAULT {
        explain(rt, files);
    } else if let Some(text) = explain_note(rt.alloc(), words, status) {
        note(rt, text.as_str());
    } else if let Some(text) = terminal_note(rt.alloc(), words, status) {
        note(rt, text);
    } else if let Some(text) = program_note(rt.alloc(), words) {
        note(rt, text.as_str());
    }
}

/// Prints why a file could not be used, after the line that names it.
fn explain(rt: &HostRuntime, files: &HostFiles<'_>) {
    let Some(reason) = files.reason() else {
        return;
    };
    note(rt, reason);
}

/// Prints a line that begins with `note: `.
fn note(rt: &HostRuntime, text: &str) {
    let mut errors = WatchedSink::new(rt.stderr());
    let _ = put_all(&mut errors, &[b"note: ", text.as_bytes(), b"\n"]);
}

/// Opens a folder, or if this program may open none, a device that is there on nearly every system.
fn open_any(rt: &HostRuntime) -> io::Result<File> {
    fs::open(rt, "/")
        .or_else(|_| fs::open(rt, "."))
        .or_else(|_| fs::open(rt, "/dev/null"))
}

/// Folders that are open under the numbers of those standard streams that were closed. Without them the next file would get such a number, and
/// what is printed would be written into that file. A folder can be neither read nor written as a file, so a closed stream still fails; only
/// from `/dev/null` a closed standard input reads as empty.
fn placeholders(rt: &HostRuntime) -> [Option<File>; STREAMS] {
    let mut held = [None, None, None];
    for slot in &mut held {
        // A file gets the lowest number that is free.
        match open_any(rt) {
            Ok(folder) if folder.as_raw_fd() <= LAST_STREAM => *slot = Some(folder),
            _ => break,
        }
    }
    held
}

fn main(rt: HostRuntime) -> ExitCode {
    let _placeholders = placeholders(&rt);
    ExitCode::from(match run(&rt) {
        Ok(status) => status,
        Err(_) => report(&End::NoMemory, &mut WatchedSink::new(rt.stderr())),
    })
}
