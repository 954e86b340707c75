//! Lines for somebody at a terminal, beside what a command prints: what it waits for, which command says more about an error, which values an
//! option takes, and that a source or an image was run as a program. If the words are not those of a job, or memory ran out, there is no such line.

use host::{REFUSED, USAGE};
use std::alloc::{AllocError, Global};
use z80dev::{Job, commands};
use z80dev_commands::Shared;
use z80dev_jobs::texts_of;

/// Answers what these words wait for on standard input, if they read it. If somebody types there, nothing else shows that they do.
pub(crate) fn keyboard_note(alloc: Global, words: &[Vec<u8>]) -> Option<&'static str> {
    let texts = texts_of(alloc, words).ok()?;
    match commands(alloc, &texts).ok()? {
        Job::Pipe => Some("type a source, then Ctrl-D; z80dev --help lists the commands"),
        Job::Run(_) => Some(
            "all input is read before the program begins: type it, then Ctrl-D; z80dev-play runs a program at the keyboard",
        ),
        Job::Debug(_) => Some("type a command, such as `help` or `quit`"),
        _ => None,
    }
}

/// Whether a shell takes a word as it is printed, and the command takes it for no option.
fn is_plain(word: &str) -> bool {
    !word.starts_with('-')
        && word.bytes().all(|byte| byte.is_ascii_alphanumeric() || b"._/=+,:@%".contains(&byte))
}

/// Appends words, each after the same text.
fn put_each(text: &mut String, before: &str, words: &[&str]) -> Result<(), AllocError> {
    for word in words {
        text.push_str(before)?;
        text.push_str(word)?;
    }
    Ok(())
}

/// Whether all of these words can be printed as a command.
fn are_plain(shared: &Shared<'_>, sources: &[&str]) -> bool {
    let mut words = shared
        .defines
        .iter()
        .chain(shared.files.iter())
        .chain(sources.iter());
    words.all(|word| is_plain(word))
}

/// The command that says more about an error in these sources.
fn explaining(
    alloc: Global,
    grow: bool,
    shared: &Shared<'_>,
    sources: &[&str],
) -> Result<String, AllocError> {
    let mut text = String::from_str(alloc, "for more about an error in a source: z80dev explain")?;
    if !are_plain(shared, sources) {
        text.push_str(", with the same sources and definitions")?;
        return Ok(text);
    }
    if grow {
        text.push_str(" --grow")?;
    }
    put_each(&mut text, " --define ", &shared.defines)?;
    put_each(&mut text, " --with ", &shared.files)?;
    put_each(&mut text, " ", sources)?;
    Ok(text)
}

/// Answers which command says more about what `asm` or `build` refused, if these words are one of them and it ended with this status. Some
/// refusals are about other things than a source.
pub(crate) fn explain_note(alloc: Global, words: &[Vec<u8>], status: u8) -> Option<String> {
    if status != REFUSED {
        return None;
    }
    let texts = texts_of(alloc, words).ok()?;
    match commands(alloc, &texts).ok()? {
        Job::Asm(asm) => explaining(alloc, asm.grow, &asm.shared, &[asm.source]).ok(),
        Job::Build(build) => explaining(alloc, build.grow, &build.shared, &build.sources).ok(),
        _ => None,
    }
}

/// The path of the program that a job runs, if it runs one.
fn program_of<'a>(job: &Job<'a>) -> Option<&'a str> {
    match job {
        Job::Run(run) => Some(run.program),
        Job::Debug(debugging) => Some(debugging.program),
        Job::Play(play) => Some(play.program),
        _ => None,
    }
}

/// The path of the program that these words run, if they run one.
pub(crate) fn program_path(alloc: Global, words: &[Vec<u8>]) -> Option<String> {
    let texts = texts_of(alloc, words).ok()?;
    let job = commands(alloc, &texts).ok()?;
    String::from_str(alloc, program_of(&job)?).ok()
}

/// Whether a path ends in one of these ways, in upper or lower case.
fn ends_in(path: &str, endings: &[&str]) -> bool {
    match path.rsplit_once('.') {
        Some((_, ending)) => endings.iter().any(|one| ending.eq_ignore_ascii_case(one)),
        None => false,
    }
}

/// Whether a path ends as those of source files do.
fn is_source(path: &str) -> bool {
    ends_in(path, &["asm", "mac", "z80"])
}

/// Whether a path ends as those of images of disks do.
fn is_image(path: &str) -> bool {
    ends_in(path, &["img", "dsk"])
}

/// Answers which values `--terminal` takes if these words give it another one and ended with this status.
pub(crate) fn terminal_note(alloc: Global, words: &[Vec<u8>], status: u8) -> Option<&'static str> {
    if status != USAGE {
        return None;
    }
    let texts = texts_of(alloc, words).ok()?;
    match commands(alloc, &texts).ok()? {
        Job::Play(play) => match play.terminal? {
            "adm3a" | "vt52" | "none" => None,
            _ => Some("--terminal takes adm3a, vt52 or none; for a program made for a VT100, none"),
        },
        _ => None,
    }
}

/// Answers what to do first if these words run a file as a program that looks like a source file or an image. Any file counts as a program, so
/// the command itself refuses none.
pub(crate) fn program_note(alloc: Global, words: &[Vec<u8>]) -> Option<String> {
    let texts = texts_of(alloc, words).ok()?;
    let job = commands(alloc, &texts).ok()?;
    match program_of(&job) {
        Some(path) if is_source(path) && is_plain(path) => format!(in alloc;
            "{path} looks like a source file: build it first (z80dev build {path})"
        ).ok(),
        Some(path) if is_source(path) => format!(in alloc;
            "{path} looks like a source file: build it first"
        ).ok(),
        Some(path) if is_image(path) => format!(in alloc;
            "{path} looks like an image of a disk: give it with --disk, and then a program"
        ).ok(),
        _ => None,
    }
}
