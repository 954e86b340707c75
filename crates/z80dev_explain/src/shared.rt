//! Reports the errors of shared files.

use asm_module::{SourceLine, read_source};
use error_messages::Note;
use report_texts::{Report, Severity, is_shared};
use std::alloc::{AllocError, Global};
use written_lines::Sources;

/// Answers the report of a line that a shared file may not have.
fn unshared(alloc: Global, sources: &Sources<'_, '_>, line: u32) -> Result<Report, AllocError> {
    let mut notes = Vec::new(alloc);
    notes.push(Note::Help(String::from_str(
        alloc,
        "it may have EQU and EXTRN lines, macros, and IF and REPT around these; the rest goes into a source",
    )?))?;
    Ok(Report {
        severity: Severity::Error,
        at: Some(sources.named(alloc, 0, line, b"")?),
        text: String::from_str(alloc, "a shared file may not have this line")?,
        name: String::from_str(alloc, "NotShared")?,
        notes,
    })
}

/// Appends the reports of all lines of shared files that these may not have.
pub(crate) fn put_unshared(
    alloc: Global,
    sources: &Sources<'_, '_>,
    reports: &mut Vec<Report>,
) -> Result<(), AllocError> {
    let words = sources.front.defines.len();
    let lines: Vec<SourceLine> = match read_source(alloc, sources.text(0)) {
        Ok(read) => read.lines,
        Err(_) => return Ok(()),
    };
    for line in &lines {
        if words < line.number as usize && !is_shared(&line.line) {
            reports.push(unshared(alloc, sources, line.number)?)?;
        }
    }
    Ok(())
}
