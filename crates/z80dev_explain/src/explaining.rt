//! Explains why sources have no program, or what to look at in the one that they have.

ghost use Rattle.std.specs.Prelude.{◌≡◌, ◌<◌, ◌+◌, ℕ, All, IfOk, List, Ok, length, map, option_copied, true};
ghost use Rattle.std.specs.List.{AllZip, list_any, sum_by};
ghost use Rattle.report_texts.specs.Front.{CountsLines, front_lines};
ghost use Rattle.zmo_object.specs.Modules.{module_of};
ghost use Rattle.zmo_object.specs.Rules.{IsModule};
ghost use Rattle.report_texts.specs.Behind.{IsBehind};
ghost use Rattle.report_texts.specs.Reports.{bears_name, is_in_line};
ghost use Rattle.link_errors.specs.Names.{link_name};
ghost use Rattle.link_errors.specs.Counts.{HasWarnings, warning_count};
ghost use Rattle.z80dev_explain.specs.Explained.{AreLongs, HasErrorOnce, IsExplained, IsExplainedBehind};
ghost use Rattle.z80dev_explain.specs.Reports.{is_report_of};

use crate::errors::{put_errors, report_of};
use crate::front::front_errors;
use crate::gathering::Gathered;
use asm_module::{AsmFault, Lines, Module, assemble_with};
use common::{KeyMixer, NameKey};
use link_errors::{
    long_jump_notes, name_of, put_link_errors, put_mistakes, put_plain, warnings_of,
};
use report_texts::{
    Form, Front, MOST_REPORTS, Refusal, Report, Severity, SourceFile, Where, fault_of_front,
    front_lines, front_text, sources_behind, texts_behind, why_name, without_repeats,
};
use std::alloc::{AllocError, Global};
use written_lines::{Sources, lines_of};
use zlink::{BuildFault, Built, LinkFault, Source, build_with};

/// What is asked about sources.
#[derive(Clone, Copy)]
pub struct Asked {
    /// Whether a written `JR` may become a `JP`.
    pub grow: bool,
    /// Whether it is said of each long jump why it is long.
    pub jumps: bool,
    /// How the answer is printed.
    pub form: Form,
}

/// What is said of sources.
#[derive(Debug, Drop)]
pub struct Explained {
    /// Whether the sources have a program.
    pub has_program: bool,
    /// Their errors or warnings, in the order of the sources and their lines.
    pub reports: Vec<Report>,
    /// Notes about its long jumps, if they are wanted. Those come first that are the fewest bytes too long.
    pub longs: Vec<Report>,
}

/// Whether a place is in this line of the source with this number.
fn is_in_line(at: Option<&Where>, source: usize, line: u32) -> bool
    ensures { result ≡ is_in_line source line (option_copied at.entry) }
{
    match at {
        Some(at) => at.source == source && at.reported == line,
        None => false,
    }
}

/// Whether a report is of this error.
fn is_report_of(report: &Report, source: usize, fault: AsmFault) -> bool
    ensures { result ≡ is_report_of source fault report.now }
{
    report.severity == Severity::Error
        && is_in_line(report.at.as_ref(), source, fault.line)
        && report.name.as_bytes() == why_name(fault.why).as_bytes()
}

/// Whether one of the reports is of this error.
fn has(reports: &[Report], source: usize, fault: AsmFault) -> bool
    ensures { result ≡ list_any (is_report_of source fault) reports.now }
{
    reports
        .iter()
        .any(|report| is_report_of(report, source, fault))
}

/// Whether a report is of an error with this name.
fn bears_name(report: &Report, name: &str) -> bool
    ensures { result ≡ bears_name name.now report.now }
{
    report.severity == Severity::Error && report.name.as_bytes() == name.as_bytes()
}

/// Whether one of the reports is of an error with this name.
fn has_named(reports: &[Report], name: &str) -> bool
    ensures { result ≡ list_any (bears_name name.now) reports.now }
{
    reports.iter().any(|report| bears_name(report, name))
}

/// By what reports are sorted: the source and the line.
fn order_of(report: &Report) -> (usize, u32) {
    match &report.at {
        Some(at) => (at.source, at.reported),
        None => (usize::MAX, 0),
    }
}

/// Answers the reports in the order of the sources and their lines.
pub(crate) fn sorted(reports: Vec<Report>) -> Result<Vec<Report>, AllocError>
    ensures { IfOk result (λ sorted. length sorted.items ≡ length reports.items) }
{
    let mut reports = reports;
    reports.sort_by_key(|report| order_of(report))?;
    Ok(reports)
}

/// How many reports say all that is known: those that are printed.
pub(crate) fn most_of(form: Form) -> usize {
    match form {
        Form::Plain | Form::Colored => MOST_REPORTS,
        Form::Json => usize::MAX,
    }
}

/// Answers the report of this error alone.
fn only_error(
    alloc: Global,
    sources: &Sources<'_, '_>,
    source: usize,
    fault: AsmFault,
) -> Result<Vec<Report>, AllocError>
    ensures { IfOk result (λ reports. HasErrorOnce sources.now.before source fault reports.items) }
{
    let report = report_of(alloc, sources, source, fault)?;
    let mut reports = Vec::new(alloc);
    reports.push(report)?;
    Ok(reports)
}

/// The key for a table of what sources have in them.
pub(crate) fn key_of(sources: &Sources<'_, '_>) -> NameKey {
    let mut mixer = KeyMixer::new();
    mixer.mix_all(sources.texts);
    mixer.key()
}

/// Answers the errors of all sources, given the first of them; one of a shared file once.
fn errors_of(
    alloc: Global,
    sources: &Sources<'_, '_>,
    asked: Asked,
    source: usize,
    fault: AsmFault,
) -> Result<Vec<Report>, AllocError>
    ensures { IfOk result (λ reports. HasErrorOnce sources.now.before source fault reports.items) }
{
    let key = key_of(sources);
    let mut gathered = Gathered::new(alloc, key, sources.before, most_of(asked.form));
    for number in 0..sources.files.len() {
        put_errors(alloc, sources, number, asked.grow, &mut gathered)?;
    }
    let all = sorted(gathered.into_reports())?;
    let once = without_repeats(alloc, key, sources.before, all)?;
    // It is there, since no source before has an error that could take its place. No clause says that, so it is looked for.
    if has(&once, source, fault) {
        return Ok(once);
    }
    only_error(alloc, sources, source, fault)
}

/// The modules of sources, and the lines of their statements.
#[derive(Drop)]
struct Assembled {
    modules: Vec<Module>,
    lines: Vec<Lines>,
}

/// Assembles sources that have no errors by themselves.
fn assemble_all(alloc: Global, sources: &[Source<'_>], grow: bool) -> Result<Assembled, AllocError>
    ensures { IfOk result (λ a. All IsModule (map module_of a.modules.items)) }
{
    let mut modules = Vec::new(alloc);
    let mut lines = Vec::new(alloc);
    for source in sources {
        match assemble_with(alloc, source.name, source.text, grow) {
            Ok((module, own)) => {
                modules.push(module)?;
                lines.push(own)?;
            }
            Err(_) => return Err(AllocError),
        }
    }
    Ok(Assembled { modules, lines })
}

/// Answers the errors of the modules of sources together, given the first of them.
fn link_errors_of(
    alloc: Global,
    sources: &Sources<'_, '_>,
    behind: &[Source<'_>],
    grow: bool,
    fault: &LinkFault,
) -> Result<Vec<Report>, AllocError>
    ensures { IfOk result (λ reports. list_any (bears_name (link_name fault.now)) reports.items ≡ true) }
{
    let Assembled { modules, lines } = assemble_all(alloc, behind, grow)?;
    let mut reports = Vec::new(alloc);
    put_link_errors(alloc, sources, &modules, &lines, fault, &mut reports)?;
    let mut reports = sorted(reports)?;
    let name = name_of(alloc, Refusal::of_link(fault))?;
    if !has_named(&reports, &name) {
        put_plain(alloc, fault, &mut reports)?;
    }
    Ok(reports)
}

/// Answers all warnings about a program that was built of sources, and about these.
fn all_warnings(
    alloc: Global,
    sources: &Sources<'_, '_>,
    behind: &[Source<'_>],
    built: &Built,
) -> Result<Vec<Report>, AllocError>
    requires { All IsModule (map module_of built.now.modules.items) }
    ensures { IfOk result (λ reports. (counts : List ℕ) × AllZip (λ s n. HasWarnings sources.now.before s.text.now n) behind.now counts
        × (length reports.items ≡ warning_count built.now + sum_by (λ n. n) counts)) }
{
    let mut reports = warnings_of(alloc, sources, built)?;
    put_mistakes(alloc, sources, behind, &mut reports)?;
    sorted(reports)
}

/// Answers the notes about the long jumps of a program, if they are wanted.
fn longs_of(
    alloc: Global,
    wanted: bool,
    sources: &Sources<'_, '_>,
    built: &Built,
) -> Result<Vec<Report>, AllocError>
    requires { All IsModule (map module_of built.now.modules.items) }
    ensures { IfOk result (λ longs. AreLongs (Ok built.now) wanted longs.items) }
{
    if wanted {
        long_jump_notes(alloc, sources, built)
    } else {
        Ok(Vec::new(alloc))
    }
}

/// Answers what is said of sources after a front.
fn explain_behind(
    alloc: Global,
    sources: &Sources<'_, '_>,
    behind: &[Source<'_>],
    asked: Asked,
) -> Result<Explained, AllocError>
    requires are { AllZip (IsBehind sources.now.front) sources.now.files.now behind.now }
    requires before { CountsLines sources.now.before (front_lines sources.now.front) }
    ensures { IfOk result (λ e. IsExplainedBehind sources.now.front asked.grow asked.jumps sources.now.files.now e.has_program e.reports.items e.longs.items) }
{
    let grow = asked.grow;
    match build_with(alloc, behind, grow) {
        Ok(built) => Ok(Explained {
            has_program: true,
            reports: all_warnings(alloc, sources, behind, &built)?,
            longs: longs_of(alloc, asked.jumps, sources, &built)?,
        }),
        Err(BuildFault::Asm { source, fault }) => Ok(Explained {
            has_program: false,
            reports: errors_of(alloc, sources, asked, source, fault)?,
            longs: Vec::new(alloc),
        }),
        Err(BuildFault::Link(fault)) => Ok(Explained {
            has_program: false,
            reports: link_errors_of(alloc, sources, behind, grow, &fault)?,
            longs: Vec::new(alloc),
        }),
    }
}

/// Builds sources after a front, writes nothing, and answers their errors, in the order of the sources and their lines; or if there are none,
/// the warnings about jumps. If the front has errors by itself, it answers only these.
///
/// # Errors
///
/// [`AllocError`] if memory ran out.
pub fn explain<'a>(
    alloc: Global,
    front: Front<'a>,
    files: &[SourceFile<'a>],
    asked: Asked,
) -> Result<Explained, AllocError>
    ensures { IfOk result (λ e. IsExplained front.entry asked.grow asked.jumps files.now e.has_program e.reports.items e.longs.items) }
{
    let before = front_text(alloc, front)?;
    if let Some(told) = fault_of_front(alloc, front, &before)? {
        return Ok(Explained {
            has_program: false,
            reports: front_errors(alloc, front, before, told, asked.form)?,
            longs: Vec::new(alloc),
        });
    }
    let texts = texts_behind(alloc, &before, files)?;
    let lines = lines_of(alloc, &texts)?;
    let sources = Sources {
        front,
        before: front_lines(front),
        files,
        texts: &texts,
        lines: &lines,
    };
    let behind = sources_behind(alloc, front, files, &texts)?;
    explain_behind(alloc, &sources, &behind, asked)
}
