//! Reports the warnings about jumps.

ghost use Rattle.std.specs.Prelude.{◌≡◌, All, IfOk, length, map};
ghost use Rattle.zmo_object.specs.Modules.{module_of};
ghost use Rattle.zmo_object.specs.Rules.{IsModule};
ghost use Rattle.link_errors.specs.Counts.{warning_count};

use report_texts::{Report, Severity};
use source_warnings::{Part, Site, Warning, find_jump_warnings};
use std::alloc::{AllocError, Global};
use written_lines::{Expansions, Sources};
use z80dev_make::{JumpWarning, jump_warnings};
use zlink::{Built, JoinFault, join};

/// Answers the statements that the warnings about the jumps of a program are about, in the order of the warnings.
fn sites_of(alloc: Global, built: &Built) -> Result<Vec<Site>, AllocError>
    requires { All IsModule (map module_of built.now.modules.items) }
{
    let links = match join(alloc, &built.modules) {
        Ok(links) => links,
        Err(JoinFault::NoMemory) => return Err(AllocError),
        Err(_) => return Ok(Vec::new(alloc)),
    };
    let mut parts = Vec::with_capacity(alloc, links.len())?;
    for (module, link) in built.modules.iter().zip(&links) {
        parts.push(Part {
            module,
            externals: &link.externals,
        })?;
    }
    let mut sites = Vec::new(alloc);
    for warning in &find_jump_warnings(alloc, &parts)? {
        sites.push(match warning {
            Warning::Over(site, _, _) | Warning::Entry(site) => *site,
        })?;
    }
    Ok(sites)
}

/// What is known of the statements that warnings are about.
#[derive(Drop)]
struct Warned<'w, 's, 'f> {
    sources: &'w Sources<'s, 'f>,
    /// The statement of each warning.
    sites: Vec<Site>,
    expansions: Expansions,
}

impl<'w, 's, 'f> Warned<'w, 's, 'f> {
    /// Answers the report of a warning, which has this number.
    fn report(
        &self,
        alloc: Global,
        number: usize,
        warning: &JumpWarning,
    ) -> Result<Report, AllocError> {
        let shown = str::from_utf8(&warning.text).unwrap_or("?");
        let statement = match self.sites.get(number) {
            Some(site) => site.statement,
            None => usize::MAX,
        };
        let line = self.sources.after_front(warning.line);
        let site = self
            .expansions
            .site(self.sources, warning.source, statement, line);
        let mut notes = Vec::new(alloc);
        self.sources
            .put_calls(alloc, warning.source, site, &mut notes)?;
        Ok(Report {
            severity: Severity::Warning,
            at: Some(self.sources.mark(alloc, warning.source, site, b"")?),
            text: site.own_text(alloc, shown)?,
            name: String::new(alloc),
            notes,
        })
    }
}

/// Answers the reports of warnings about the jumps of a program.
fn reports_of(
    alloc: Global,
    sources: &Sources<'_, '_>,
    built: &Built,
    warnings: &[JumpWarning],
) -> Result<Vec<Report>, AllocError>
    requires { All IsModule (map module_of built.now.modules.items) }
    ensures { IfOk result (λ reports. length reports.items ≡ length warnings.now) }
{
    let mut reports = Vec::new(alloc);
    if warnings.is_empty() {
        return Ok(reports);
    }
    let warned = Warned {
        sources,
        sites: sites_of(alloc, built)?,
        expansions: Expansions::of(alloc, sources)?,
    };
    for (number, warning) in warnings.iter().enumerate() {
        reports.push(warned.report(alloc, number, warning)?)?;
    }
    Ok(reports)
}

/// Answers the reports of the warnings about the jumps of a program.
///
/// # Errors
///
/// [`AllocError`] if memory ran out.
pub fn warnings_of(
    alloc: Global,
    sources: &Sources<'_, '_>,
    built: &Built,
) -> Result<Vec<Report>, AllocError>
    requires { All IsModule (map module_of built.now.modules.items) }
    ensures { IfOk result (λ reports. length reports.items ≡ warning_count built.now) }
{
    let warnings = jump_warnings(alloc, sources.front, sources.files, built)?;
    let reports = reports_of(alloc, sources, built, &warnings)?;
    Ok(reports)
}
