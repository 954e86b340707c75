//! What to type instead of a word that stands where a command should and is none.

use clap::error::ErrorKind;
use std::alloc::{AllocError, Global};

/// A command that takes a file, and what it does with that.
#[derive(Clone, Copy)]
struct Advice {
    command: &'static str,
    purpose: &'static str,
}

/// Answers the command for a file with this ending, if one is known.
fn tip_for(ending: &str) -> Option<Advice> {
    if ending.eq_ignore_ascii_case("asm") {
        Some(Advice {
            command: "build",
            purpose: "build it",
        })
    } else if ending.eq_ignore_ascii_case("com") {
        Some(Advice {
            command: "run",
            purpose: "run it",
        })
    } else if ending.eq_ignore_ascii_case("img") {
        Some(Advice {
            command: "dir",
            purpose: "list the files of this disk",
        })
    } else {
        None
    }
}

/// Answers what is wrong with a word that stands where a command should, if it is the name of a file or `help`.
fn said_of(alloc: Global, word: &str) -> Result<Option<String>, AllocError> {
    if word == "help" {
        let text =
            "there is no command 'help'\n\n  tip: z80dev --help lists the commands, and z80dev COMMAND --help explains one";
        return Ok(Some(String::from_str(alloc, text)?));
    }
    let Some((_, ending)) = word.rsplit_once('.') else {
        return Ok(None);
    };
    let Some(Advice { command, purpose }) = tip_for(ending) else {
        return Ok(None);
    };
    let text = format!(in alloc;
        "'{word}' is a file and no command\n\n  tip: to {purpose}: z80dev {command} {word}"
    )?;
    Ok(Some(text))
}

/// Answers what is wrong with these words of a command line, if the first after the program's name was taken for a command, is none, and it is
/// known what it is.
///
/// # Errors
///
/// Memory ran out.
pub(crate) fn tip(
    alloc: Global,
    kind: ErrorKind,
    words: &[String],
) -> Result<Option<String>, AllocError> {
    match words.get(1) {
        Some(word) if kind == ErrorKind::InvalidSubcommand => said_of(alloc, word.as_str()),
        _ => Ok(None),
    }
}
