//! Reports the errors of a front by itself.

ghost use Rattle.std.specs.Prelude.{◌≡◌, ℕ, IfOk, None, option_copied, true};
ghost use Rattle.std.specs.List.{list_any};
ghost use Rattle.report_texts.specs.Repeats.{HasNoRepeats};
ghost use Rattle.z80dev_explain.specs.Fronts.{AreFrontErrors, HasTold, is_placed_at, is_refusal, is_told, is_whole};

use crate::errors::put_errors;
use crate::explaining::{key_of, most_of, sorted};
use crate::gathering::Gathered;
use crate::shared::put_unshared;
use report_texts::{
    Form, Front, Refusal, Report, Severity, Told, Where, front_lines, locate, why_name,
    without_repeats,
};
use std::alloc::{AllocError, Global};
use written_lines::{Sources, lines_of};

/// Whether a place is in this line of the file with this path, as the file counts its lines. A definition counts as line 1 of its word.
fn is_placed_at(front: Front<'_>, path: &str, line: u32, at: Option<&Where>) -> bool
    ensures { result ≡ is_placed_at front.entry path.now line (option_copied at.entry) }
{
    match at {
        Some(at) => {
            let own = locate(front, "", at.reported);
            own.path.as_bytes() == path.as_bytes() && own.line == line
        }
        None => false,
    }
}

/// Whether a report has the place and the name of a refusal.
fn is_refusal(front: Front<'_>, told: Told<'_>, report: &Report) -> bool
    ensures { result ≡ is_refusal front.entry told.entry.path.now told.entry.refusal report.now }
{
    let at = report.at.as_ref();
    let name = report.name.as_bytes();
    match told.refusal {
        Refusal::Source(fault) => {
            is_placed_at(front, told.path, fault.line, at) && name == why_name(fault.why).as_bytes()
        }
        Refusal::NotShared(line) => is_placed_at(front, told.path, line, at)
            && name == b"NotShared".as_slice(),
        Refusal::Define(why) => {
            is_placed_at(front, told.path, 1, at) && name == why_name(why).as_bytes()
        }
        _ => false,
    }
}

/// Whether a report is of the error for which a front is refused.
fn is_told(front: Front<'_>, told: Told<'_>, report: &Report) -> bool
    ensures { result ≡ is_told front.entry told.entry report.now }
{
    report.severity == Severity::Error && is_refusal(front, told, report)
}

/// Whether one of the reports is.
fn has_told(front: Front<'_>, told: Told<'_>, reports: &[Report]) -> bool
    ensures { result ≡ list_any (is_told front.entry told.entry) reports.now }
{
    reports.iter().any(|report| is_told(front, told, report))
}

/// Answers the report of a refusal about which nothing else is known.
fn plain_report(alloc: Global, told: Told<'_>) -> Result<Report, AllocError>
    ensures placeless { IfOk result (λ r. r.at ≡ None) }
    ensures whole { IfOk result (λ r. is_whole told.entry r ≡ true) }
{
    Ok(Report {
        severity: Severity::Error,
        at: None,
        text: String::from_str(alloc, "the shared files have an error")?,
        name: format!(in alloc; "{told}")?,
        notes: Vec::new(alloc),
    })
}

/// Answers reports, and after them that of the error for which a front is refused, if they lack it. No clause says that they have it, so it
/// is looked for.
fn with_told(
    alloc: Global,
    front: Front<'_>,
    told: Told<'_>,
    reports: Vec<Report>,
) -> Result<Vec<Report>, AllocError>
    ensures told { IfOk result (λ all. HasTold front.entry told.entry all.items) }
    ensures distinct { IfOk result (λ all. (before : ℕ) → HasNoRepeats before reports.items → HasNoRepeats before all.items) }
{
    if has_told(front, told, &reports) {
        return Ok(reports);
    }
    let mut reports = reports;
    reports.push(plain_report(alloc, told)?)?;
    Ok(reports)
}

/// Answers all errors that are found in a front.
fn all_of_front(
    alloc: Global,
    sources: &Sources<'_, '_>,
    form: Form,
) -> Result<Vec<Report>, AllocError> {
    let before = front_lines(sources.front);
    let mut gathered = Gathered::new(alloc, key_of(sources), before, most_of(form));
    put_errors(alloc, sources, 0, false, &mut gathered)?;
    let mut reports = gathered.into_reports();
    put_unshared(alloc, sources, &mut reports)?;
    sorted(reports)
}

/// Answers the errors of a front, each once, given its text and the error for which it is refused.
pub(crate) fn front_errors<'a>(
    alloc: Global,
    front: Front<'a>,
    before: Vec<u8>,
    told: Told<'a>,
    form: Form,
) -> Result<Vec<Report>, AllocError>
    ensures { IfOk result (λ reports. AreFrontErrors front.entry told.entry reports.items) }
{
    let mut texts = Vec::new(alloc);
    texts.push(before)?;
    let lines = lines_of(alloc, &texts)?;
    let sources = Sources {
        front,
        before: 0,
        files: &[],
        texts: &texts,
        lines: &lines,
    };
    let all = all_of_front(alloc, &sources, form)?;
    let once = without_repeats(alloc, key_of(&sources), front_lines(front), all)?;
    let reports = with_told(alloc, front, told, once)?;
    Ok(reports)
}
