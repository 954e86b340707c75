//! Prints reports.

ghost use Rattle.std.specs.Prelude.{◌≡◌, ◌++◌, ℕ, IfOk, OnOk, List, decimal, length, map, option_map, replicate, string_bytes, take};
ghost use Rattle.std.specs.Option.{option_copied};
ghost use Rattle.std.specs.List.{flat_map};
ghost use Rattle.report_texts.specs.declared.printing.TheConstants.{MOST_REPORTS};
ghost use Rattle.report_texts.specs.Json.{IsPrinted, json_report_line};
ghost use Rattle.report_texts.specs.Printed.{below, colored, caret_line, line_after_number, reports_text, heading_text, report_line, report_lines, left_out_text, bracketed_name, note_text, line_of_place, path_of_place, report_place, report_text, severity_color, severity_word, shown_byte, shown_line, location_text};

use crate::json::put_json;
use crate::report::{Files, Report, Severity, Where};
use crate::{Located, locate, path_at};
use message_texts::Note;
use std::alloc::{AllocError, Global};

/// The most reports that are printed, except as JSON.
pub const MOST_REPORTS: usize = 100;

/// How reports are printed.
#[derive(Clone, Copy, Debug, PartialEq, Eq)]
pub enum Form {
    /// As text.
    Plain,
    /// As text with the colours of a terminal.
    Colored,
    /// Each report as one line of JSON.
    Json,
}

/// The colour of what a place says.
const BOLD: &str = "1";

/// The colour of carets.
const GREEN: &str = "1;32";

/// The word for how grave a report is.
pub(crate) fn severity_word(severity: Severity) -> &'static str
    ensures { result.now ≡ severity_word severity }
{
    match severity {
        Severity::Error => "error",
        Severity::Warning => "warning",
        Severity::Note => "note",
    }
}

/// The colour of that word: red, magenta or cyan.
fn severity_color(severity: Severity) -> &'static str
    ensures { result.now ≡ severity_color severity }
{
    match severity {
        Severity::Error => "1;31",
        Severity::Warning => "1;35",
        Severity::Note => "1;36",
    }
}

/// Appends a text, in a colour if the form has colours.
fn put_colored(out: &mut Vec<u8>, form: Form, color: &str, text: &[u8]) -> Result<(), AllocError>
    ensures { OnOk result (out.new.items ≡ out.old.items ++ colored form color.now text.now) }
{
    if form != Form::Colored {
        return out.extend_from_slice(text);
    }
    out.extend_from_slice(b"\x1b[")?;
    out.extend_from_slice(color.as_bytes())?;
    out.extend_from_slice(b"m")?;
    out.extend_from_slice(text)?;
    out.extend_from_slice(b"\x1b[0m")
}

/// The file of a place, and the number that its line has there.
pub(crate) fn located<'f>(files: Files<'_, 'f>, at: &Where) -> Located<'f>
    ensures path { result.path.now ≡ path_of_place files.entry at.now }
    ensures line { result.line ≡ line_of_place files.entry at.now }
{
    locate(files.front, path_at(files.sources, at.source), at.written)
}

/// `PATH:LINE:COLUMN: `. Columns are counted in bytes from 1.
fn where_text(alloc: Global, files: Files<'_, '_>, at: &Where) -> Result<Vec<u8>, AllocError>
    ensures { IfOk result (λ text. text.items ≡ location_text files.entry at.now) }
{
    let Located { path, line } = located(files, at);
    let column = at.column;
    let line = format!(in alloc; "{line}")?;
    let column = format!(in alloc; "{column}")?;
    let mut text = path.as_bytes().to_vec(alloc)?;
    text.push(b':')?;
    text.extend_from_slice(line.as_bytes())?;
    text.push(b':')?;
    text.extend_from_slice(column.as_bytes())?;
    text.extend_from_slice(b": ")?;
    Ok(text)
}

/// Appends the place of a report, if it has one.
fn put_place(
    alloc: Global,
    files: Files<'_, '_>,
    out: &mut Vec<u8>,
    form: Form,
    at: Option<&Where>,
) -> Result<(), AllocError>
    ensures { OnOk result (out.new.items ≡ out.old.items ++ report_place files.entry form (option_copied at.entry)) }
{
    match at {
        Some(at) => {
            let text = where_text(alloc, files, at)?;
            put_colored(out, form, BOLD, &text)
        }
        None => Ok(()),
    }
}

/// Appends ` [NAME]`, if there is a name.
fn put_name(out: &mut Vec<u8>, name: &str) -> Result<(), AllocError>
    ensures { OnOk result (out.new.items ≡ out.old.items ++ bracketed_name name.now) }
{
    if name.is_empty() {
        return Ok(());
    }
    out.extend_from_slice(b" [")?;
    out.extend_from_slice(name.as_bytes())?;
    out.extend_from_slice(b"]")
}

/// Appends what the report says.
fn put_heading(
    alloc: Global,
    files: Files<'_, '_>,
    out: &mut Vec<u8>,
    form: Form,
    report: &Report,
) -> Result<(), AllocError>
    ensures { OnOk result (out.new.items ≡ out.old.items ++ heading_text files.entry form report.now) }
{
    put_place(alloc, files, out, form, report.at.as_ref())?;
    let word = format!(in alloc; "{}: ", severity_word(report.severity))?;
    put_colored(out, form, severity_color(report.severity), word.as_bytes())?;
    out.extend_from_slice(report.text.as_bytes())?;
    put_name(out, &report.name)?;
    out.extend_from_slice(b"\n")
}

/// This many bytes.
fn times(alloc: Global, byte: u8, count: usize) -> Result<Vec<u8>, AllocError>
    ensures { IfOk result (λ text. text.items ≡ replicate count byte) }
{
    let mut text = Vec::new(alloc);
    text.resize(count, byte)?;
    Ok(text)
}

/// The byte that is shown for a byte of a line: itself if it is printable ASCII or a tab.
fn shown(byte: u8) -> u8
    ensures { result ≡ shown_byte byte }
{
    if byte == b'\t' || matches!(byte, b' '..=b'~') {
        byte
    } else {
        b'?'
    }
}

/// The byte below a byte of a line, before the caret: a tab below a tab, so that the caret stands where the part begins.
fn below(byte: u8) -> u8
    ensures { result ≡ below byte }
{
    if byte == b'\t' { b'\t' } else { b' ' }
}

/// Appends what is shown of a line.
fn put_shown(out: &mut Vec<u8>, text: &[u8]) -> Result<(), AllocError>
    ensures { OnOk result (out.new.items ≡ out.old.items ++ map shown_byte text.now) }
{
    for byte in text {
        out.push(shown(*byte))?;
    }
    Ok(())
}

/// Appends what is below the first bytes of a line.
fn put_below(out: &mut Vec<u8>, text: &[u8]) -> Result<(), AllocError>
    ensures { OnOk result (out.new.items ≡ out.old.items ++ map below text.now) }
{
    for byte in text {
        out.push(below(*byte))?;
    }
    Ok(())
}

/// The first bytes of a text, at most this many.
fn front(text: &[u8], count: usize) -> &[u8]
    ensures { result.now ≡ take count text.now }
{
    text.get(..count).unwrap_or(text)
}

/// Appends the line of a place after this number.
fn put_numbered(alloc: Global, out: &mut Vec<u8>, line: u32, at: &Where) -> Result<(), AllocError>
    ensures { OnOk result (out.new.items ≡ out.old.items ++ line_after_number line at.now) }
{
    let number = format!(in alloc; "  {} | ", line)?;
    out.extend_from_slice(number.as_bytes())?;
    put_shown(out, &at.text)?;
    out.extend_from_slice(b"\n")
}

/// How many digits a number has.
fn digits(alloc: Global, number: u32) -> Result<usize, AllocError>
    ensures { IfOk result (λ count. count ≡ length (decimal number)) }
{
    Ok(format!(in alloc; "{number}")?.len())
}

/// Appends carets under the part that a report is about, below the line with this number.
fn put_marked(
    alloc: Global,
    out: &mut Vec<u8>,
    form: Form,
    line: u32,
    at: &Where,
) -> Result<(), AllocError>
    ensures { OnOk result (out.new.items ≡ out.old.items ++ caret_line form line at.now) }
{
    let blanks = times(alloc, b' ', digits(alloc, line)?)?;
    let carets = times(alloc, b'^', at.place.len.max(1))?;
    out.extend_from_slice(b"  ")?;
    out.extend_from_slice(&blanks)?;
    out.extend_from_slice(b" | ")?;
    put_below(out, front(&at.text, at.place.at))?;
    put_colored(out, form, GREEN, &carets)?;
    out.extend_from_slice(b"\n")
}

/// Appends the line with its number, and below it carets under the part that the report is about.
fn put_line(
    alloc: Global,
    files: Files<'_, '_>,
    out: &mut Vec<u8>,
    form: Form,
    at: &Where,
) -> Result<(), AllocError>
    ensures { OnOk result (out.new.items ≡ out.old.items ++ report_line files.entry form at.now) }
{
    let line = located(files, at).line;
    put_numbered(alloc, out, line, at)?;
    put_marked(alloc, out, form, line, at)
}

/// Appends the line of a report, if it has one that is not empty.
fn put_lines(
    alloc: Global,
    files: Files<'_, '_>,
    out: &mut Vec<u8>,
    form: Form,
    at: Option<&Where>,
) -> Result<(), AllocError>
    ensures { OnOk result (out.new.items ≡ out.old.items ++ report_lines files.entry form (option_copied at.entry)) }
{
    match at {
        Some(at) if !at.text.is_empty() => put_line(alloc, files, out, form, at),
        _ => Ok(()),
    }
}

/// Appends a note.
fn put_note(out: &mut Vec<u8>, note: &Note) -> Result<(), AllocError>
    ensures { OnOk result (out.new.items ≡ out.old.items ++ note_text note.now) }
{
    let (word, text) = match note {
        Note::Help(text) => ("  help: ", text),
        Note::Note(text) => ("  note: ", text),
    };
    out.extend_from_slice(word.as_bytes())?;
    out.extend_from_slice(text.as_bytes())?;
    out.extend_from_slice(b"\n")
}

/// Appends notes.
fn put_notes(out: &mut Vec<u8>, notes: &[Note]) -> Result<(), AllocError>
    ensures { OnOk result (out.new.items ≡ out.old.items ++ flat_map note_text notes.now) }
{
    for note in notes {
        put_note(out, note)?;
    }
    Ok(())
}

/// Appends a report.
fn put_report(
    alloc: Global,
    files: Files<'_, '_>,
    out: &mut Vec<u8>,
    form: Form,
    report: &Report,
) -> Result<(), AllocError>
    ensures { OnOk result (out.new.items ≡ out.old.items ++ report_text files.entry form report.now) }
{
    put_heading(alloc, files, out, form, report)?;
    put_lines(alloc, files, out, form, report.at.as_ref())?;
    put_notes(out, &report.notes)
}

/// Appends reports.
fn put_reports(
    alloc: Global,
    files: Files<'_, '_>,
    out: &mut Vec<u8>,
    form: Form,
    reports: &[Report],
) -> Result<(), AllocError>
    ensures { OnOk result (out.new.items ≡ out.old.items ++ flat_map (report_text files.entry form) reports.now) }
{
    for report in reports {
        put_report(alloc, files, out, form, report)?;
    }
    Ok(())
}

/// Appends how many reports there are after those that are printed.
fn put_more(alloc: Global, out: &mut Vec<u8>, count: usize) -> Result<(), AllocError>
    ensures { OnOk result (out.new.items ≡ out.old.items ++ left_out_text count) }
{
    if count <= MOST_REPORTS {
        return Ok(());
    }
    let text = format!(in alloc; "{} more\n", count - MOST_REPORTS)?;
    out.extend_from_slice(text.as_bytes())
}

/// The first reports, at most this many.
fn first_of(reports: &[Report], count: usize) -> &[Report]
    ensures { result.now ≡ take count reports.now }
{
    reports.get(..count).unwrap_or(reports)
}

/// Answers the text of reports, not as JSON.
fn printed(
    alloc: Global,
    files: Files<'_, '_>,
    form: Form,
    reports: &[Report],
) -> Result<Vec<u8>, AllocError>
    ensures { IfOk result (λ text. text.items ≡ reports_text files.entry form reports.now) }
{
    let mut out = Vec::new(alloc);
    put_reports(
        alloc,
        files,
        &mut out,
        form,
        first_of(reports, MOST_REPORTS),
    )?;
    put_more(alloc, &mut out, reports.len())?;
    Ok(out)
}

/// Answers each report as one line of JSON.
fn json(alloc: Global, files: Files<'_, '_>, reports: &[Report]) -> Result<Vec<u8>, AllocError>
    ensures { IfOk result (λ text. text.items ≡ flat_map (json_report_line files.entry) reports.now) }
{
    let mut out = Vec::new(alloc);
    for report in reports {
        put_json(alloc, files, &mut out, report)?;
    }
    Ok(out)
}

/// Answers the text of reports about these files: the first hundred, and how many there are more; as JSON, all of them.
pub fn print_reports(
    alloc: Global,
    files: Files<'_, '_>,
    form: Form,
    reports: &[Report],
) -> Result<Vec<u8>, AllocError>
    ensures { IfOk result (λ text. IsPrinted files.entry form reports.now text.items) }
{
    match form {
        Form::Json => json(alloc, files, reports),
        Form::Plain => printed(alloc, files, Form::Plain, reports),
        Form::Colored => printed(alloc, files, Form::Colored, reports),
    }
}
