//! Reports the errors of sources, each by itself.

ghost use Rattle.std.specs.Prelude.{◌≡◌, IfOk, OnOk, true};
ghost use Rattle.std.specs.List.{list_any};
ghost use Rattle.z80dev_explain.specs.Reports.{is_report_of};

use crate::adapting::{overlong, with_shared};
use crate::gathering::{Found, Gathered};
use asm_line::{BlockWord, Head, ScanFault, form_of, names, tokens};
use asm_macro::MacroFault;
use asm_module::{AsmFault, StmtFault, Why};
use common::{LONGEST_TEXT, NameKey};
use error_messages::{
    Before, Message, Note, Place, SourceLines, empty_parameter, message, opener_of,
};
use report_texts::{Report, Severity, Where, in_its_line, why_name};
use source_errors::{Finding, Findings, Known, find_errors};
use std::alloc::{AllocError, Global};
use written_lines::{
    Group, MOST_OTHERS, Site, Sources, Traces, grouped, macro_in, tokens_of, traced,
};

/// A source with errors.
#[derive(Drop)]
struct Faulty<'s, 'f> {
    alloc: Global,
    sources: &'s Sources<'s, 'f>,
    /// The number of the source.
    source: usize,
    text: SourceLines<'s>,
    known: Option<Known>,
    /// Where the lines of its expansion are written, if the expansion stops or one of its errors is not in the line with its number.
    traces: Traces,
}

impl<'s, 'f> Faulty<'s, 'f> {
    /// Whether the line of a finding is as it is written in the line with its number.
    fn is_written(&self, finding: &Finding) -> bool {
        self.text.line(finding.number) == finding.text.as_slice()
    }

    /// Whether an error is that the source has too many bytes, and not that it takes too many lines.
    fn is_overlong(&self, finding: &Finding) -> bool {
        finding.why == Why::Macro(MacroFault::TooManyLines)
            && self.sources.text(self.source).len() > LONGEST_TEXT
    }

    /// Answers what is said of an error, given what is said of it in a source about whose files nothing is known.
    fn adapted(&self, finding: &Finding, message: Message) -> Result<Message, AllocError> {
        let alloc = self.alloc;
        let front = self.sources.front;
        match finding.why {
            Why::Macro(_) if self.is_overlong(finding) => {
                overlong(alloc, self.sources.text(self.source).len(), message)
            }
            Why::Stmt(StmtFault::UnknownWord) if front.files.is_empty() => {
                with_shared(alloc, message)
            }
            _ => Ok(message),
        }
    }

    /// Answers the report of an error of the source, which has this number, with these notes after those of its message.
    fn report(
        &self,
        source: usize,
        finding: &Finding,
        site: Site<'_>,
        notes: Vec<Note>,
    ) -> Result<Report, AllocError>
        ensures { IfOk result (λ r. is_report_of source (record { line = site.entry.reported; why = finding.now.why }) r ≡ true) }
    {
        let alloc = self.alloc;
        let message = message(alloc, &self.text, finding, self.known.as_ref())?;
        let message = self.adapted(finding, message)?;
        let mut all = site.own_notes(alloc, &message.notes)?;
        self.sources.put_calls(alloc, self.source, site, &mut all)?;
        let mut notes = notes;
        all.append(&mut notes)?;
        if self.known.is_none() && matches!(finding.why, Why::Macro(_)) {
            all.push(Note::Note(String::from_str(
                alloc,
                "no other error of this source is looked for until this one is mended",
            )?))?;
        }
        let at = self.sources.place(alloc, source, site, message.place)?;
        Ok(Report {
            severity: Severity::Error,
            at: Some(at),
            text: site.own_text(alloc, &message.text)?,
            name: String::from_str(alloc, why_name(finding.why))?,
            notes: all,
        })
    }

    /// Answers what is said of an error, if its line is in the front: that tells whether an earlier source has the same error. Otherwise nothing.
    fn shared_text(
        &self,
        finding: &Finding,
        site: Site<'_>,
        gathered: &Gathered,
    ) -> Result<String, AllocError> {
        let alloc = self.alloc;
        if !gathered.is_front_line(site.line) {
            return Ok(String::new(alloc));
        }
        let message = message(alloc, &self.text, finding, self.known.as_ref())?;
        let message = self.adapted(finding, message)?;
        site.own_text(alloc, &message.text)
    }

    /// Answers the report of an error that is only counted: where the error is, its name, and what tells it from others of its line.
    fn counted(
        &self,
        finding: &Finding,
        site: Site<'_>,
        gathered: &Gathered,
    ) -> Result<Report, AllocError> {
        let alloc = self.alloc;
        Ok(Report {
            severity: Severity::Error,
            at: Some(Where {
                source: self.source,
                reported: site.reported,
                written: site.line,
                column: 1,
                text: Vec::new(alloc),
                place: Place { at: 0, len: 0 },
            }),
            text: self.shared_text(finding, site, gathered)?,
            name: String::from_str(alloc, why_name(finding.why))?,
            notes: Vec::new(alloc),
        })
    }

    /// The first line of a macro's body that is a LOCAL without a list of names; None if there is none.
    fn bad_local(&self, name: &[u8]) -> Result<Option<u32>, AllocError> {
        let (mut number, mut is_in) = (0u32, false);
        for _ in 0..self.text.len() {
            number = number.saturating_add(1);
            let line = self.text.line(number);
            if !is_in {
                is_in = is_macro(self.alloc, line, name)?;
                continue;
            }
            match locals_in(self.alloc, line)? {
                Locals::Bad => return Ok(Some(number)),
                Locals::Names => (),
                Locals::None => return Ok(None),
            }
        }
        Ok(None)
    }

    /// The line of a LOCAL without a list of names for which the expansion stops at a call; None if it stops for something else.
    fn stray_local(&self, finding: &Finding) -> Result<Option<u32>, AllocError> {
        if finding.why != Why::Macro(MacroFault::Stray) {
            return Ok(None);
        }
        let found = tokens_of(self.alloc, &finding.text)?;
        match form_of(&found).head {
            Head::Word(word) => {
                let name = word.to_ascii_uppercase(self.alloc)?;
                self.bad_local(&name)
            }
            _ => Ok(None),
        }
    }

    /// An error in the text of another line.
    fn moved(&self, finding: &Finding, line: u32) -> Result<Finding, AllocError> {
        Ok(Finding {
            number: line,
            text: self.text.line(line).to_vec(self.alloc)?,
            why: finding.why,
            name: None,
        })
    }

    /// The line in which it is reported that a source has too many bytes, and the one by which building reports it. For a source after a front that
    /// is its first line, though the assembler finds the error in the first line of all; a front by itself has the error in the line with the first
    /// byte too many.
    fn overlong_lines(&self, finding: &Finding, reported: u32) -> (u32, u32) {
        if !self.sources.files.is_empty() {
            return (self.sources.after_front(1), reported);
        }
        let fault = AsmFault {
            line: reported,
            why: finding.why,
        };
        let AsmFault { line, .. } = in_its_line(self.sources.text(self.source), fault);
        (line, line)
    }

    /// Answers the report that a source has too many bytes.
    fn report_overlong(&self, finding: &Finding, first: Site<'_>) -> Result<Report, AllocError> {
        let (line, reported) = self.overlong_lines(finding, first.reported);
        let moved = self.moved(finding, line)?;
        let site = Site {
            reported,
            line,
            text: &moved.text,
            ..first
        };
        self.report(self.source, &moved, site, Vec::new(self.alloc))
    }

    /// Answers the report of a call that stops for a LOCAL, in the line of that.
    fn report_local(
        &self,
        finding: &Finding,
        line: u32,
        call: Site<'_>,
    ) -> Result<Report, AllocError> {
        let moved = self.moved(finding, line)?;
        let mut calls = call.calls.to_vec(self.alloc)?;
        calls.push(call.line)?;
        let site = Site {
            line,
            text: &moved.text,
            calls: &calls,
            ..call
        };
        self.report(self.source, &moved, site, Vec::new(self.alloc))
    }

    /// Answers the report of an ENDIF, ELSE or ENDM for which only a word of another assembler opens a block, in the line of that word.
    fn report_opener(
        &self,
        finding: &Finding,
        line: u32,
        closer: Site<'_>,
    ) -> Result<Report, AllocError> {
        let alloc = self.alloc;
        let moved = self.moved(finding, line)?;
        let found = tokens_of(alloc, &finding.text)?;
        let word = match found.first() {
            Some(token) => error_messages::shown(alloc, token.text)?,
            None => String::new(alloc),
        };
        let own = self.sources.located(self.source, closer.line);
        let (path, number) = (own.path, own.line);
        let mut notes = Vec::new(alloc);
        let role = if word.as_bytes().eq_ignore_ascii_case(b"ELSE") {
            "belonged to it"
        } else {
            "was to close it"
        };
        notes.push(Note::Note(format!(in alloc;
            "the {word} at {path}:{number} {role}, so `build` stops there"
        )?))?;
        let site = Site {
            line,
            text: &moved.text,
            ..closer
        };
        self.report(self.source, &moved, site, notes)
    }

    /// Answers a note about how often an error occurs, and in which other calls.
    fn often(&self, group: &Group) -> Result<Note, AllocError> {
        let alloc = self.alloc;
        let count = group.count;
        let mut text = format!(in alloc; "this error occurs {count} times")?;
        for (number, line) in group.others.iter().enumerate() {
            let own = self.sources.located(self.source, *line);
            let (path, line) = (own.path, own.line);
            if number >= MOST_OTHERS {
                text.push_str(", ..")?;
            } else if number == 0 {
                text.push_str(&format!(in alloc; ", also in {path}:{line}")?)?;
            } else {
                text.push_str(&format!(in alloc; ", {path}:{line}")?)?;
            }
        }
        Ok(Note::Note(text))
    }

    /// Whether a line begins a REPT.
    fn is_rept(&self, line: u32) -> Result<bool, AllocError> {
        let found = tokens_of(self.alloc, self.text.line(line))?;
        match form_of(&found).head {
            Head::Block(BlockWord::Rept) => Ok(true),
            _ => Ok(false),
        }
    }

    /// Appends a note about a parameter that is empty in the line of an error, in the innermost call that leads there.
    fn put_empty(&self, site: Site<'_>, notes: &mut Vec<Note>) -> Result<(), AllocError> {
        let alloc = self.alloc;
        for call in site.calls.iter().rev() {
            let is_rept = self.is_rept(*call)?;
            if !is_rept {
                if let Some(name) = empty_parameter(alloc, &self.text, *call, site.line)? {
                    let own = self.sources.located(self.source, *call);
                    let (path, line) = (own.path, own.line);
                    notes.push(Note::Note(format!(in alloc;
                        "the parameter `{name}` is empty in that call, at {path}:{line}"
                    )?))?;
                }
                return Ok(());
            }
        }
        Ok(())
    }

    /// Where the line of an error is written, which is this line of the expansion if it is not as it is written.
    fn site<'e>(&'e self, traced: Option<usize>, finding: &'e Finding) -> Site<'e> {
        let found = match (&self.traces.whole, traced) {
            (Some(trace), Some(at)) => Site::traced(trace, at, finding.number),
            _ => None,
        };
        match found {
            Some(site) => site,
            None => Site::plain(finding.number, &finding.text),
        }
    }

    /// Where the line is written at which the expansion stops, if a call or a REPT leads to it, and building reports it by this line.
    fn stop_site(&self, reported: u32) -> Option<Site<'_>> {
        let trace = self.traces.stop.as_ref()?;
        let last = trace.lines.len().checked_sub(1)?;
        let site = Site::traced(trace, last, reported)?;
        if site.calls.is_empty() {
            None
        } else {
            Some(site)
        }
    }

    /// The error at which the expansion stops, in the line at which it stops. Which lines come before a word that closes no block is seen in
    /// the source as it is written; what EQU lines come before a condition, in the order of the expansion.
    fn stopped(&self, finding: &Finding, site: Site<'_>) -> Result<Finding, AllocError> {
        let number = match finding.why {
            Why::Macro(MacroFault::Stray) => site.line,
            _ => finding.number,
        };
        Ok(Finding {
            number,
            text: site.text.to_vec(self.alloc)?,
            why: finding.why,
            name: None,
        })
    }

    /// Answers the report of an error.
    fn report_group(&self, group: &Group, finding: &Finding) -> Result<Report, AllocError> {
        if is_stop(group, finding) {
            if let Some(site) = self.stop_site(finding.number) {
                let stopped = self.stopped(finding, site)?;
                return self.report_found(group, &stopped, site);
            }
        }
        self.report_found(group, finding, self.site(group.traced, finding))
    }

    /// Answers the report of an error, in the line in which it is written.
    fn report_found(
        &self,
        group: &Group,
        finding: &Finding,
        site: Site<'_>,
    ) -> Result<Report, AllocError> {
        if self.is_overlong(finding) {
            return self.report_overlong(finding, site);
        }
        if let Some(line) = self.stray_local(finding)? {
            return self.report_local(finding, line, site);
        }
        if let Some(line) = opener_of(self.alloc, &self.text, finding)? {
            return self.report_opener(finding, line, site);
        }
        let mut notes = Vec::new(self.alloc);
        self.put_empty(site, &mut notes)?;
        if group.count > 1 {
            notes.push(self.often(group)?)?;
        }
        self.report(self.source, finding, site, notes)
    }

    /// The number of the line at which the expansion stops, as it is written, if this is the first error.
    fn stop_line(&self, first: &Finding) -> u32 {
        match self.stop_site(first.number) {
            Some(site) => site.line,
            None => first.number,
        }
    }

    /// The error of a line of the expansion if that is in a macro or in a REPT, and cannot be cut into tokens as it is written.
    fn uncut_in(&self, site: Site<'_>) -> Result<Option<Finding>, AllocError> {
        if site.calls.is_empty() {
            return Ok(None);
        }
        let text = self.text.line(site.line);
        Ok(match uncut(self.alloc, text)? {
            Some(why) => Some(Finding {
                number: site.reported,
                text: text.to_vec(self.alloc)?,
                why,
                name: None,
            }),
            None => None,
        })
    }

    /// Appends the reports of lines in macros and REPTs that cannot be cut into tokens, each once, but that of the line with the number
    /// `stop`, at which the expansion stops.
    fn put_uncut(&self, stop: u32, gathered: &mut Gathered) -> Result<(), AllocError> {
        let Some(trace) = &self.traces.whole else {
            return Ok(());
        };
        let mut is_seen = vec![in self.alloc; false; self.text.len()]?;
        for (at, line) in trace.lines.iter().enumerate() {
            let Some(site) = Site::traced(trace, at, line.number) else {
                return Ok(());
            };
            let Some(seen) = is_seen.get_mut((site.line as usize).saturating_sub(1)) else {
                return Ok(());
            };
            if !*seen && site.line != stop {
                *seen = true;
                self.put_uncut_in(site, gathered)?;
            }
        }
        Ok(())
    }

    /// Appends the report of a line that cannot be cut into tokens, if it is one.
    fn put_uncut_in(&self, site: Site<'_>, gathered: &mut Gathered) -> Result<(), AllocError> {
        let Some(finding) = self.uncut_in(site)? else {
            return Ok(());
        };
        let text = finding.text.as_slice();
        let site = Site { text, ..site };
        let counted = self.counted(&finding, site, gathered)?;
        if !gathered.is_new(self.alloc, &counted)? {
            return Ok(());
        }
        let report = if gathered.takes_room(Found::Uncut) {
            self.report(self.source, &finding, site, Vec::new(self.alloc))?
        } else {
            counted
        };
        gathered.push(report)
    }

    /// Appends the report of the error at which the expansion stops. It may be written in another line than its finding says.
    fn put_stop(
        &self,
        group: &Group,
        finding: &Finding,
        gathered: &mut Gathered,
    ) -> Result<(), AllocError> {
        let report = self.report_group(group, finding)?;
        if gathered.is_new(self.alloc, &report)? {
            gathered.push(report)?;
        }
        Ok(())
    }

    /// Appends the report of one time that an error occurs, unless an earlier source has the same error. Answers whether it is appended.
    fn put_time(
        &self,
        group: &Group,
        finding: &Finding,
        site: Site<'_>,
        gathered: &mut Gathered,
    ) -> Result<bool, AllocError> {
        let counted = self.counted(finding, site, gathered)?;
        if !gathered.is_new(self.alloc, &counted)? {
            return Ok(false);
        }
        let report = if gathered.takes_room(Found::Assembled) {
            self.report_found(group, finding, site)?
        } else {
            counted
        };
        gathered.push(report)?;
        Ok(true)
    }

    /// Appends the report of an error at which the expansion does not stop. If an earlier source has the same error, the report is of a call with
    /// other arguments for which the message differs, if there is one.
    fn put_group<'x>(
        &'x self,
        findings: &'x [Finding],
        group: &Group,
        finding: &'x Finding,
        gathered: &mut Gathered,
    ) -> Result<(), AllocError> {
        if self.put_time(group, finding, self.site(group.traced, finding), gathered)? {
            return Ok(());
        }
        for again in &group.differing {
            if let Some(finding) = findings.get(again.finding) {
                let site = self.site(again.traced, finding);
                if self.put_time(group, finding, site, gathered)? {
                    return Ok(());
                }
            }
        }
        Ok(())
    }

    /// Appends the reports of errors.
    fn put_groups(
        &self,
        findings: &[Finding],
        groups: &[Group],
        gathered: &mut Gathered,
    ) -> Result<(), AllocError> {
        for group in groups {
            match findings.get(group.finding) {
                Some(finding) if is_stop(group, finding) => {
                    self.put_stop(group, finding, gathered)?
                }
                // Lent again, since the findings are asked for as long as the source.
                Some(finding) => (&*self).put_group(&*findings, group, finding, gathered)?,
                None => (),
            }
        }
        Ok(())
    }
}

/// What a line of a macro's body is, as far as LOCAL goes.
#[derive(Clone, Copy)]
enum Locals {
    /// A LOCAL with names.
    Names,
    /// A LOCAL with something else.
    Bad,
    /// Another line.
    None,
}

/// What a line of a macro's body is, as far as LOCAL goes.
fn locals_in(alloc: Global, line: &[u8]) -> Result<Locals, AllocError> {
    let found = tokens_of(alloc, line)?;
    let form = form_of(&found);
    let Head::Block(BlockWord::Local) = form.head else {
        return Ok(Locals::None);
    };
    Ok(if names(alloc, form.rest)?.is_some() {
        Locals::Names
    } else {
        Locals::Bad
    })
}

/// Why a line cannot be cut into tokens; None if it can.
fn uncut(alloc: Global, line: &[u8]) -> Result<Option<Why>, AllocError> {
    match tokens(alloc, line) {
        Ok(_) => Ok(None),
        Err(ScanFault::NoMemory) => Err(AllocError),
        Err(fault) => Ok(Some(Why::Macro(MacroFault::from(fault)))),
    }
}

/// Whether a line defines the macro with this name, which is in upper case.
fn is_macro(alloc: Global, line: &[u8], name: &[u8]) -> Result<bool, AllocError> {
    match macro_in(alloc, line)? {
        Some(own) => Ok(own.as_slice() == name),
        None => Ok(false),
    }
}

/// Which lines notes do not name by their numbers. If a front is looked at by itself, those of its only file have their own numbers; those of
/// several files have none, since a note has no room for a path.
fn before(sources: &Sources<'_, '_>) -> Before {
    let defines = u32::try_from(sources.front.defines.len()).unwrap_or(u32::MAX);
    let lines = if !sources.files.is_empty() {
        sources.front_lines()
    } else if sources.front.files.len() > 1 {
        u32::MAX
    } else {
        defines
    };
    Before { defines, lines }
}

/// A source before anything is known of it.
fn begun<'s, 'f>(
    alloc: Global,
    sources: &'s Sources<'s, 'f>,
    source: usize,
) -> Result<Faulty<'s, 'f>, AllocError> {
    Ok(Faulty {
        alloc,
        sources,
        source,
        text: SourceLines::of(alloc, sources.text(source), before(sources))?,
        known: None,
        traces: Traces::none(),
    })
}

/// Whether the expansion stops at an error. Only the first one can be that.
fn is_stop(group: &Group, finding: &Finding) -> bool {
    group.finding == 0 && matches!(finding.why, Why::Macro(_))
}

/// Whether the first error is one at which the expansion stops.
fn does_stop(findings: &[Finding]) -> bool {
    match findings {
        [first, ..] => matches!(first.why, Why::Macro(_)),
        [] => false,
    }
}

impl<'s, 'f> Faulty<'s, 'f> {
    /// Says of each error whether its line is assembled as it is written.
    fn are_written(&self, findings: &[Finding]) -> Result<Vec<bool>, AllocError> {
        let mut are_written = Vec::with_capacity(self.alloc, findings.len())?;
        for finding in findings {
            are_written.push(self.is_written(finding))?;
        }
        Ok(are_written)
    }

    /// Appends the reports of errors, given where the lines of the expansion are written.
    fn put_all(
        &self,
        findings: &[Finding],
        are_written: &[bool],
        gathered: &mut Gathered,
    ) -> Result<(), AllocError> {
        let key = NameKey::of(self.sources.text(self.source));
        let trace = self.traces.whole.as_ref();
        let groups = grouped(self.alloc, key, findings, are_written, trace)?;
        self.put_groups(findings, &groups, gathered)?;
        match findings {
            [first, ..] if does_stop(findings) => self.put_uncut(self.stop_line(first), gathered),
            _ => Ok(()),
        }
    }
}

/// Appends the reports of all errors of a source.
pub(crate) fn put_errors(
    alloc: Global,
    sources: &Sources<'_, '_>,
    source: usize,
    grow: bool,
    gathered: &mut Gathered,
) -> Result<(), AllocError> {
    let text = sources.text(source);
    let Findings { findings, known } = find_errors(alloc, text, grow)?;
    if findings.is_empty() {
        return Ok(());
    }
    let mut faulty = begun(alloc, sources, source)?;
    faulty.known = known;
    let are_written = faulty.are_written(&findings)?;
    if does_stop(&findings) || are_written.contains(&false) {
        faulty.traces = traced(alloc, text)?;
    }
    faulty.put_all(&findings, &are_written, gathered)
}

/// Answers the report of one error, about whose source nothing else is known.
pub(crate) fn report_of(
    alloc: Global,
    sources: &Sources<'_, '_>,
    source: usize,
    fault: AsmFault,
) -> Result<Report, AllocError>
    ensures { IfOk result (λ report. is_report_of source fault report ≡ true) }
{
    let faulty = begun(alloc, sources, source)?;
    let finding = Finding {
        number: fault.line,
        text: faulty.text.line(fault.line).to_vec(alloc)?,
        why: fault.why,
        name: None,
    };
    let site = Site {
        reported: fault.line,
        line: fault.line,
        text: &finding.text,
        calls: &[],
        names: None,
    };
    faulty.report(source, &finding, site, Vec::new(alloc))
}
