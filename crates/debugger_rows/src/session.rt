//! Answers the commands of a session.

use crate::input::{Debugged, begin, record_of, symbols_of};
use crate::walk::walk;
use debugger::{Labels, Session};
use row_text::Row;
use std::alloc::Global;

/// Prints a command and its answer.
fn answer_command(row: &mut Row, session: &mut Session, program: Debugged<'_>, command: &str) {
    write!(row, "> {command}\n");
    if command.starts_with("listing ") {
        return;
    }
    if let Some(turns) = command.strip_prefix("walk ") {
        walk(row, program, turns);
        return;
    }
    match session.answer(command.as_bytes()) {
        Ok(text) => row.write_bytes(&text),
        Err(_) => row.refuse("no memory"),
    }
}

/// The listing whose lines the commands give.
fn listing_of(alloc: Global, commands: &[String]) -> Option<Vec<u8>> {
    let mut listing = Vec::new(alloc);
    for command in commands {
        if let Some(line) = command.as_str().strip_prefix("listing ") {
            listing.extend_from_slice(line.as_bytes()).ok()?;
            listing.push(b'\n').ok()?;
        }
    }
    Some(listing)
}

/// Prints the commands and their answers.
fn answer_commands(
    row: &mut Row,
    program: Debugged<'_>,
    labels: &str,
    listing: &[u8],
    commands: &[String],
) {
    let alloc = row.alloc();
    let Some(symbols) = symbols_of(alloc, labels) else {
        row.refuse("labels");
        return;
    };
    let Some(history) = begin(alloc, program) else {
        row.refuse("the program does not start");
        return;
    };
    let Ok(labels) = Labels::new(alloc, &symbols, program.file.len()) else {
        row.refuse("no memory");
        return;
    };
    let mut session = Session::new(alloc, history, labels).with_listing(listing);
    for command in commands {
        answer_command(row, &mut session, program, command.as_str());
    }
}

/// Prints the lines of a program and of its commands, each with its answer.
pub(crate) fn answer(row: &mut Row, lines: &[String]) {
    let [file, typed, labels, commands @ ..] = lines else {
        row.refuse("a program has three lines: its bytes, what is typed, its labels");
        return;
    };
    write!(row, "{file}\n{typed}\n{labels}\n");
    let Ok(bytes) = hex::decode(row.alloc(), file.as_str()) else {
        row.refuse("hexadecimal digits");
        return;
    };
    let (typed, record) = match typed.as_str().strip_prefix("record ") {
        Some(record) => ("", record),
        None => (typed.as_str(), ""),
    };
    let Some(recorded) = record_of(row.alloc(), record) else {
        row.refuse("a record");
        return;
    };
    let program = Debugged {
        file: &bytes,
        typed,
        recorded: &recorded,
    };
    let Some(listing) = listing_of(row.alloc(), commands) else {
        row.refuse("no memory");
        return;
    };
    answer_commands(row, program, labels.as_str(), &listing, commands);
}
