//! Reports what looks like a mistake in sources that have no error.

ghost use Rattle.std.specs.Prelude.{◌≡◌, ◌+◌, ℕ, List, OnOk, length, map};
ghost use Rattle.std.specs.List.{AllZip, sum_by};
ghost use Rattle.source_warnings.specs.Warnings.{warning_of};
ghost use Rattle.link_errors.specs.Counts.{HasWarnings, is_behind, one_if, own_count};

use message_texts::Note;
use report_texts::{Report, Severity};
use source_warnings::{Kind, SourceWarning, find_call_warnings, find_warnings};
use std::alloc::{AllocError, Global};
use written_lines::Sources;
use zlink::Source;

/// Whether the line of a warning is one of the source itself.
fn is_behind(before: usize, warning: &SourceWarning) -> bool
    ensures { result ≡ is_behind before (warning_of warning.now) }
{
    before < warning.number as usize
}

/// Answers what to do about a warning. An earlier line is named with its file, which may be a shared one.
fn help_of(
    alloc: Global,
    sources: &Sources<'_, '_>,
    source: usize,
    warning: &SourceWarning,
) -> Result<String, AllocError> {
    match warning.kind {
        Kind::PublicAgain(first) | Kind::ExternalAgain(first) => {
            let own = sources.located(source, first);
            let (path, line) = (own.path, own.line);
            format!(in alloc; "{path}:{line} has it already: leave out one of the two")
        }
        _ => warning.help(alloc),
    }
}

/// Answers the report of a warning about a source.
fn report_of(
    alloc: Global,
    sources: &Sources<'_, '_>,
    source: usize,
    warning: &SourceWarning,
) -> Result<Report, AllocError> {
    let mut notes = Vec::new(alloc);
    notes.push(Note::Help(help_of(alloc, sources, source, warning)?))?;
    Ok(Report {
        severity: Severity::Warning,
        at: Some(sources.named(alloc, source, warning.number, &warning.name)?),
        text: warning.message(alloc)?,
        name: String::new(alloc),
        notes,
    })
}

/// Appends the report of a warning about a source, if its line is one of the source itself.
fn put_warning(
    alloc: Global,
    sources: &Sources<'_, '_>,
    source: usize,
    warning: &SourceWarning,
    reports: &mut Vec<Report>,
) -> Result<(), AllocError>
    ensures { OnOk result (length reports.new.items ≡ length reports.old.items + one_if (is_behind sources.now.before (warning_of warning.now))) }
{
    if is_behind(sources.before, warning) {
        reports.push(report_of(alloc, sources, source, warning)?)?;
    }
    Ok(())
}

/// Appends the reports of warnings about a source.
fn put_each(
    alloc: Global,
    sources: &Sources<'_, '_>,
    source: usize,
    found: &[SourceWarning],
    reports: &mut Vec<Report>,
) -> Result<(), AllocError>
    ensures { OnOk result (length reports.new.items ≡ length reports.old.items + own_count sources.now.before (map warning_of found.now)) }
{
    for warning in found {
        put_warning(alloc, sources, source, warning, reports)?;
    }
    Ok(())
}

/// Appends the reports of all warnings about a source, given its text after that of the front.
fn put_source(
    alloc: Global,
    sources: &Sources<'_, '_>,
    source: usize,
    text: &[u8],
    reports: &mut Vec<Report>,
) -> Result<(), AllocError>
    ensures { OnOk result ((count : ℕ) × HasWarnings sources.now.before text.now count × (length reports.new.items ≡ length reports.old.items + count)) }
{
    let found = find_warnings(alloc, text)?;
    let calls = find_call_warnings(alloc, text)?;
    put_each(alloc, sources, source, &found, reports)?;
    put_each(alloc, sources, source, &calls, reports)?;
    Ok(())
}

/// Appends the reports of the warnings about sources after a front.
///
/// # Errors
///
/// [`AllocError`] if memory ran out.
pub fn put_mistakes(
    alloc: Global,
    sources: &Sources<'_, '_>,
    behind: &[Source<'_>],
    reports: &mut Vec<Report>,
) -> Result<(), AllocError>
    ensures { OnOk result ((counts : List ℕ) × AllZip (λ s n. HasWarnings sources.now.before s.text.now n) behind.now counts
        × (length reports.new.items ≡ length reports.old.items + sum_by (λ n. n) counts)) }
{
    for (number, source) in behind.iter().enumerate() {
        put_source(alloc, sources, number, source.text, reports)?;
    }
    Ok(())
}
