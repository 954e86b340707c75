//! Prints a report as one line of JSON, for editors and scripts.

ghost use Rattle.std.specs.Prelude.{◌≡◌, ◌++◌, IfOk, OnOk, map, string_bytes};
ghost use Rattle.serde_json.specs.Data.{array};
ghost use Rattle.serde_json.specs.Written.{compact_text};
ghost use Rattle.serde_json.specs.View.{items_of, view};
ghost use Rattle.report_texts.specs.Json.{json_note, json_report, json_report_line};

use crate::printing::{located, severity_word};
use crate::report::{Files, Report};
use message_texts::Note;
use serde_json::{Value, json};
use std::alloc::{AllocError, Global};

/// Answers a note as an object with its kind and its text.
fn note_value(alloc: Global, note: &Note) -> Result<Value, AllocError>
    ensures { IfOk result (λ v. view v ≡ json_note note.now) }
{
    match note {
        Note::Help(text) => json!(in alloc; {"kind": "help", "text": text}),
        Note::Note(text) => json!(in alloc; {"kind": "note", "text": text}),
    }
}

/// Answers notes as an array.
fn notes_value(alloc: Global, notes: &[Note]) -> Result<Value, AllocError>
    ensures { IfOk result (λ v. view v ≡ array (items_of (map json_note notes.now))) }
{
    let mut values = Vec::with_capacity(alloc, notes.len())?;
    for note in notes {
        let value = note_value(alloc, note)?;
        values.push(value)?;
    }
    Ok(Value::Array(values))
}

/// Answers a report as an object. One about the program as a whole has no path, line and column.
fn report_value(alloc: Global, files: Files<'_, '_>, report: &Report) -> Result<Value, AllocError>
    ensures { IfOk result (λ v. view v ≡ json_report files.entry report.now) }
{
    let severity = severity_word(report.severity);
    let text = &report.text;
    let name = &report.name;
    let notes = notes_value(alloc, &report.notes)?;
    match &report.at {
        Some(at) => {
            let own = located(files, at);
            json!(in alloc; {
                "path": own.path,
                "line": own.line,
                "column": at.column as u64,
                "severity": severity,
                "name": name,
                "text": text,
                "notes": notes
            })
        }
        None => json!(in alloc; {
            "path": null,
            "line": null,
            "column": null,
            "severity": severity,
            "name": name,
            "text": text,
            "notes": notes
        }),
    }
}

/// Answers the text of a report as an object.
fn object_text(alloc: Global, files: Files<'_, '_>, report: &Report) -> Result<String, AllocError>
    ensures { IfOk result (λ text. string_bytes text ≡ compact_text (json_report files.entry report.now)) }
{
    let value = report_value(alloc, files, report)?;
    value.to_string(alloc)
}

/// Appends a report as one line of JSON.
pub(crate) fn put_json(
    alloc: Global,
    files: Files<'_, '_>,
    out: &mut Vec<u8>,
    report: &Report,
) -> Result<(), AllocError>
    ensures { OnOk result (out.new.items ≡ out.old.items ++ json_report_line files.entry report.now) }
{
    let line = object_text(alloc, files, report)?;
    out.extend_from_slice(line.as_bytes())?;
    out.push(b'\n')?;
    Ok(())
}
