//! Compares messages with what they have to say.

use bstr::ByteSlice;
use error_messages::{Before, Message, Note, SourceLines, message};
use row_text::Row;
use source_errors::{Finding, Findings, find_errors};

/// The source of a row: its lines, with ` / ` between them.
fn source_of(row: &mut Row<'_>) -> Vec<u8> {
    let text = row.bytes();
    let mut source = Vec::new(row.alloc());
    for line in text.as_slice().split_str(b" / ") {
        if source.extend_from_slice(line).is_err() || source.push(b'\n').is_err() {
            row.refuse("memory");
        }
    }
    source
}

/// Appends a text and a blank.
fn put(row: &mut Row<'_>, all: &mut Vec<u8>, text: &str) {
    if all.extend_from_slice(text.as_bytes()).is_err() || all.push(b' ').is_err() {
        row.refuse("memory");
    }
}

/// All that a message says, one text after the other.
fn said(row: &mut Row<'_>, message: &Message) -> Vec<u8> {
    let mut all = Vec::new(row.alloc());
    put(row, &mut all, &message.text);
    for note in &message.notes {
        match note {
            Note::Help(text) => put(row, &mut all, text),
            Note::Note(text) => put(row, &mut all, text),
        }
    }
    all
}

/// A message, and the number of its line.
#[derive(Drop)]
struct Told {
    number: u32,
    message: Message,
}

/// Prints where a message is: the line and the column.
fn print_place(row: &mut Row<'_>, told: &Told) {
    let number = told.number;
    let column = told.message.place.at.saturating_add(1);
    write!(row, " {number}:{column}");
}

/// Prints a message.
fn print(row: &mut Row<'_>, told: &Told) {
    print_place(row, told);
    let text = &told.message.text;
    write!(row, ": {text}");
    for note in &told.message.notes {
        match note {
            Note::Help(text) => write!(row, "; help: {text}"),
            Note::Note(text) => write!(row, "; note: {text}"),
        }
    }
}

/// Whether a message is at this place, and has each of these words.
fn has_all(row: &mut Row<'_>, told: &Told, place: &str, words: &str) -> bool {
    let all = said(row, &told.message);
    let mut own = Row::new(row.alloc(), "");
    print_place(&mut own, told);
    own.answer() == place.as_bytes() && crate::printed::has_all(&all, words.as_bytes())
}

/// The errors of a source.
fn findings_of(row: &mut Row<'_>, source: &[u8]) -> Option<Findings> {
    match find_errors(row.alloc(), source, false) {
        Ok(found) => Some(found),
        Err(_) => {
            row.refuse("memory");
            None
        }
    }
}

/// Nothing comes before the lines of the source.
const ALONE: Before = Before {
    defines: 0,
    lines: 0,
};

/// The message about an error.
fn told_of(
    row: &mut Row<'_>,
    source: &[u8],
    before: Before,
    found: &Findings,
    finding: &Finding,
) -> Option<Told> {
    let Ok(lines) = SourceLines::of(row.alloc(), source, before) else {
        row.refuse("memory");
        return None;
    };
    match message(row.alloc(), &lines, finding, found.known.as_ref()) {
        Ok(message) => Some(Told {
            number: finding.number,
            message,
        }),
        Err(_) => {
            row.refuse("memory");
            None
        }
    }
}

/// Says whether the message about the first error of a source is at the place of the row and has its words; prints the message if not.
pub(crate) fn answer_first(row: &mut Row<'_>) {
    compare_first(row, ALONE);
}

/// The same for a source whose first lines come from `--define` and from shared files.
pub(crate) fn answer_after(row: &mut Row<'_>) {
    let defines = row.decimal();
    let lines = row.decimal();
    compare_first(row, Before { defines, lines });
}

/// Compares the message about the first error of a source with the rest of a row.
fn compare_first(row: &mut Row<'_>, before: Before) {
    let place = row.until(':');
    let column = row.word();
    let words = row.until('|');
    let source = source_of(row);
    let Some(found) = findings_of(row, &source) else {
        return;
    };
    let Some(finding) = found.findings.first() else {
        write!(row, " no error");
        return;
    };
    let Some(told) = told_of(row, &source, before, &found, finding) else {
        return;
    };
    let mut wanted = Row::new(row.alloc(), "");
    write!(wanted, " {place}:{column}");
    let is_there = match std::str::from_utf8(wanted.answer()) {
        Ok(place) => has_all(row, &told, place, words.trim()),
        Err(_) => false,
    };
    if is_there {
        write!(row, " yes");
    } else {
        print(row, &told);
    }
}

/// Prints where each error of a source is.
pub(crate) fn answer_all(row: &mut Row<'_>) {
    let _remark = row.until('|');
    let source = source_of(row);
    let Some(found) = findings_of(row, &source) else {
        return;
    };
    for finding in &found.findings {
        if let Some(told) = told_of(row, &source, ALONE, &found, finding) {
            print_place(row, &told);
        }
    }
}
