//! Says why jumps of a program are long.

ghost use Rattle.std.specs.Prelude.{◌≡◌, ◌∷◌, ◌++◌, [], All, IfOk, codes, map, string_bytes};
ghost use Rattle.std.specs.List.{AllZip};
ghost use Rattle.report_texts.specs.declared.report.Severity.TheVariants as severity;
ghost use Rattle.zmo_object.specs.Modules.{module_of};
ghost use Rattle.zmo_object.specs.Rules.{IsModule};
ghost use Rattle.link_errors.specs.Longs.{AreLongNotes, IsLongNote, IsReasonNote, reason_text};

use message_texts::{Note, shown};
use program_map::{JoinFault, LongJump, LongJumps, find_long_jumps};
use report_texts::{Report, Severity, Where};
use std::alloc::{AllocError, Global};
use written_lines::{Expansions, Site, Sources, mentioned};
use zlink::Built;

/// Says by how many jumps a jump is long, and in which lines they are.
fn reason_text(alloc: Global, count: usize, lines: &str) -> Result<String, AllocError>
    ensures { IfOk result (λ text. string_bytes text ≡ reason_text count lines.now) }
{
    if count == 0 {
        String::from_str(alloc, "it would be long even if all other jumps were short")
    } else if count == 1 {
        format!(in alloc; "the jump between that is long, at {lines}, is the reason")
    } else {
        format!(in alloc; "the jumps between that are long, at {lines}, are the reason")
    }
}

/// The note with the reason, and then those about calls.
fn notes_of(alloc: Global, reason: Note, calls: Vec<Note>) -> Result<Vec<Note>, AllocError>
    ensures { IfOk result (λ notes. notes.items ≡ reason ∷ calls.items) }
{
    let mut notes = Vec::new(alloc);
    notes.push(reason)?;
    let mut calls = calls;
    notes.append(&mut calls)?;
    Ok(notes)
}

/// The report of a jump that is long, given how far away its target is.
fn note_report(
    alloc: Global,
    at: Option<Where>,
    reach: String,
    notes: Vec<Note>,
) -> Result<Report, AllocError>
    ensures severity { IfOk result (λ report. report.severity ≡ severity.Note) }
    ensures unnamed { IfOk result (λ report. string_bytes report.name ≡ []) }
    ensures text { IfOk result (λ report. string_bytes report.text ≡ codes "this jump takes 3 bytes: " ++ string_bytes reach) }
    ensures notes { IfOk result (λ report. report.notes ≡ notes) }
{
    let text = format!(in alloc; "this jump takes 3 bytes: {reach}")?;
    Ok(Report {
        severity: Severity::Note,
        at,
        text,
        name: String::new(alloc),
        notes,
    })
}

/// The long jumps of a program, and what is needed to name them.
#[derive(Drop)]
struct Named<'b, 's, 'f> {
    sources: &'b Sources<'s, 'f>,
    built: &'b Built,
    sites: Vec<program_map::Site>,
    expansions: Expansions,
}

impl<'b, 's, 'f> Named<'b, 's, 'f> {
    /// The name of the target of a jump in this line: a label of the statement, or of the end of the last module.
    fn name(&self, alloc: Global, line: &[u8], statement: u32) -> Result<&'b [u8], AllocError> {
        let modules = self.built.modules.as_slice();
        let (module, own) = match self.sites.get(statement as usize) {
            Some(site) => (modules.get(site.module), site.statement),
            None => match modules.last() {
                Some(last) => (Some(last), last.statements.len()),
                None => (None, 0),
            },
        };
        match module {
            Some(module) => mentioned(alloc, line, module, own),
            None => Ok(b"$"),
        }
    }

    /// Where a statement of the program is written that building reports by this line of a source.
    fn site(&self, statement: u32, source: usize, line: u32) -> Site<'_> {
        match self.sites.get(statement as usize) {
            Some(site) => self
                .expansions
                .site(self.sources, source, site.statement, line),
            None => Site::plain(line, self.sources.line(source, line)),
        }
    }

    /// Appends `PATH:LINE` of a statement, after a comma if it is not the first.
    fn put_line(&self, alloc: Global, out: &mut String, statement: u32) -> Result<(), AllocError> {
        let Some(origin) = self.built.statements.get(statement as usize) else {
            return Ok(());
        };
        let own = self.sources.located(origin.source, origin.line);
        let (path, line) = (own.path, own.line);
        let comma = if out.is_empty() { "" } else { ", " };
        out.push_str(&format!(in alloc; "{comma}{path}:{line}")?)
    }

    /// Answers the lines of the jumps that are the reason for a long jump, or that there are none.
    fn reason(&self, alloc: Global, jump: &LongJump) -> Result<Note, AllocError>
        ensures { IfOk result (λ note. IsReasonNote jump.now note) }
    {
        let mut lines = String::new(alloc);
        for statement in &jump.reason {
            self.put_line(alloc, &mut lines, *statement)?;
        }
        let text = reason_text(alloc, jump.reason.len(), &lines)?;
        Ok(Note::Note(text))
    }

    /// Answers the report of a long jump.
    fn report(&self, alloc: Global, jump: &LongJump) -> Result<Report, AllocError>
        ensures { IfOk result (λ report. IsLongNote jump.now report) }
    {
        let (source, line) = match self.built.statements.get(jump.statement as usize) {
            Some(origin) => (origin.source, origin.line),
            None => (0, 0),
        };
        let site = self.site(jump.statement, source, line);
        let target = self.name(alloc, site.text, jump.target)?;
        let at = Some(self.sources.mark(alloc, source, site, target)?);
        let name = site.own_text(alloc, &shown(alloc, target)?)?;
        let reach = jump.text(alloc, &name)?;
        let mut calls = Vec::new(alloc);
        self.sources.put_calls(alloc, source, site, &mut calls)?;
        let reason = self.reason(alloc, jump)?;
        let notes = notes_of(alloc, reason, calls)?;
        let report = note_report(alloc, at, reach, notes)?;
        Ok(report)
    }

    /// Answers the reports of long jumps.
    fn reports(&self, alloc: Global, jumps: &[LongJump]) -> Result<Vec<Report>, AllocError>
        ensures { IfOk result (λ reports. AllZip IsLongNote jumps.now reports.items) }
    {
        let mut reports = Vec::new(alloc);
        for jump in jumps {
            let report = self.report(alloc, jump)?;
            reports.push(report)?;
        }
        Ok(reports)
    }
}

/// Answers a report of each long jump of a program. Those come first that are the fewest bytes too long.
///
/// # Errors
///
/// [`AllocError`] if memory ran out.
pub fn long_jump_notes(
    alloc: Global,
    sources: &Sources<'_, '_>,
    built: &Built,
) -> Result<Vec<Report>, AllocError>
    requires { All IsModule (map module_of built.now.modules.items) }
    ensures { IfOk result (λ reports. AreLongNotes (map module_of built.now.modules.items) reports.items) }
{
    let LongJumps { jumps, sites } = match find_long_jumps(alloc, &built.modules) {
        Ok(found) => found,
        Err(JoinFault::NoMemory) => return Err(AllocError),
        Err(_) => return Ok(Vec::new(alloc)),
    };
    let named = Named {
        sources,
        built,
        sites,
        expansions: Expansions::of(alloc, sources)?,
    };
    let reports = named.reports(alloc, &jumps)?;
    Ok(reports)
}
