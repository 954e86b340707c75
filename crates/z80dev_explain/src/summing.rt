//! Says in one line how many errors or warnings there are.

ghost use Rattle.std.specs.Prelude.{◌≡◌, IfOk, None, string_bytes};
ghost use Rattle.std.specs.Option.{option_map};
ghost use Rattle.z80dev_explain.specs.Explanation.{count_text, IsExplanation, IsFine, summary_of};

use crate::explaining::{Asked, Explained, explain};
use report_texts::{Files, Front, Report, SourceFile, print_reports};
use std::alloc::{AllocError, Global};

/// What is said of sources.
#[derive(Debug, Drop)]
pub struct Explanation {
    /// What is printed on standard output.
    pub text: Vec<u8>,
    /// How many errors or warnings there are, as `3 errors` or `1 warning, no error`; None if there is a program and no warning.
    pub summary: Option<String>,
}

/// Answers how many there are of something.
fn counted(alloc: Global, count: usize, what: &str) -> Result<String, AllocError>
    ensures { IfOk result (λ text. string_bytes text ≡ count_text count what.now) }
{
    if count == 1 {
        format!(in alloc; "1 {what}")
    } else {
        format!(in alloc; "{count} {what}s")
    }
}

/// Answers how many errors or warnings there are; None if there is a program and no warning.
fn summary(
    alloc: Global,
    has_program: bool,
    reports: &[Report],
) -> Result<Option<String>, AllocError>
    ensures sum { IfOk result (λ summary. option_map (λ s. string_bytes s) summary ≡ summary_of has_program reports.now) }
    ensures fine { IfOk result (λ summary. summary ≡ None → IsFine has_program reports.now) }
    ensures wrong { IfOk result (λ summary. IsFine has_program reports.now → summary ≡ None) }
{
    if !has_program {
        return Ok(Some(counted(alloc, reports.len(), "error")?));
    }
    if reports.is_empty() {
        return Ok(None);
    }
    let warnings = counted(alloc, reports.len(), "warning")?;
    Ok(Some(format!(in alloc; "{warnings}, no error")?))
}

/// Builds sources after a front, writes nothing, and answers what the command `explain` prints of them, and how it sums that up.
///
/// # Errors
///
/// [`AllocError`] if memory ran out.
pub fn explain_sources(
    alloc: Global,
    front: Front<'_>,
    files: &[SourceFile<'_>],
    asked: Asked,
) -> Result<Explanation, AllocError>
    ensures { IfOk result (λ e. IsExplanation front.entry asked files.now e.text.items (option_map (λ s. string_bytes s) e.summary)) }
{
    let Explained {
        has_program,
        reports,
        longs,
    } = explain(alloc, front, files, asked)?;
    let summary = summary(alloc, has_program, &reports)?;
    let paths = Files {
        front,
        sources: files,
    };
    let mut text = print_reports(alloc, paths, asked.form, &reports)?;
    text.extend_from_slice(&print_reports(alloc, paths, asked.form, &longs)?)?;
    Ok(Explanation { text, summary })
}
