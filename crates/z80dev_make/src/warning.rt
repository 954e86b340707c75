//! Finds and prints the warnings about the jumps of sources.

ghost use Rattle.std.specs.Prelude.{◌≡◌, ◌∷◌, [], All, IfOk, List, map};
ghost use Rattle.asm_module.specs.Assembled.{Assembled};
ghost use Rattle.std.specs.List.{AllZip, zip};
ghost use Rattle.zlink.specs.Program.Faults.{first_fault};
ghost use Rattle.zlink.specs.Program.Parts.{parts};
ghost use Rattle.zlink.specs.Program.Whole.{AreLinks};
ghost use Rattle.source_warnings.specs.Jumps.Parts.{member_of};
ghost use Rattle.source_warnings.specs.Jumps.Warnings.{all_warnings};
ghost use Rattle.zmo_object.specs.Modules.{module_of};
ghost use Rattle.zmo_object.specs.Rules.{IsModule};
ghost use Rattle.report_texts.specs.Front.{earlier, front_lines};
ghost use Rattle.z80dev_make.specs.Private.Shown.{member_with, shown_in, shown_of};
ghost use Rattle.z80dev_make.specs.Warned.{AreJumpWarnings, IsGivenAs, build_warnings, found_unless, joined, jump_warning_lines};

use crate::warned::{Shown, line_at, put_message, site_of, warning_lines};
use asm_module::{Lines, Module};
use report_texts::{Front, SourceFile, front_lines, number_lines};
use source_warnings::{Part, Warning, find_jump_warnings};
use std::alloc::{AllocError, Global};
use zlink::{Built, JoinFault, Links, join};

/// Answers lines of a source after a front by the numbers that they have in the source.
fn own_lines(front: Front<'_>, lines: Vec<u32>) -> Vec<u32>
    ensures { result.items ≡ map (earlier (front_lines front.entry)) lines.items }
{
    let mut lines = lines;
    number_lines(&mut lines, front_lines(front));
    lines
}

/// Answers the lines of the modules of sources after a front, by the numbers that they have in each source.
fn all_own_lines(
    alloc: Global,
    front: Front<'_>,
    lines: &[Lines],
) -> Result<Vec<Vec<u32>>, AllocError>
    ensures { IfOk result (λ all. map (λ own. own.items) all.items ≡ map (λ l. map (earlier (front_lines front.entry)) l.each.items) lines.now) }
{
    let mut all = Vec::with_capacity(alloc, lines.len())?;
    for module in lines {
        let each = module.each.to_vec(alloc)?;
        all.push(own_lines(front, each))?;
    }
    Ok(all)
}

/// Answers the warnings of a module by itself. What its externals stand for is not known.
fn found_alone(alloc: Global, module: &Module) -> Result<Vec<Warning>, AllocError>
    ensures { IfOk result (λ found. found.items ≡ all_warnings (record { holds = module_of «module».now; externals = [] } ∷ [])) }
{
    let externals: &[u32] = &[];
    find_jump_warnings(alloc, &[Part { module, externals }])
}

/// Answers the warnings about the jumps of the module of a source after a front, given the lines of its statements, as lines for standard
/// error: ten at most, and how many there are more.
pub(crate) fn warn_module(
    alloc: Global,
    front: Front<'_>,
    path: &str,
    module: &Module,
    lines: Vec<u32>,
) -> Result<Vec<u8>, AllocError>
    ensures { IfOk result (λ out. out.items ≡ jump_warning_lines (record { path = path.now; lines = map (earlier (front_lines front.entry)) lines.items; holds = module_of «module».now } ∷ []) (all_warnings (record { holds = module_of «module».now; externals = [] } ∷ []))) }
{
    let found = found_alone(alloc, module)?;
    let lines = own_lines(front, lines);
    warning_lines(
        alloc,
        &[Shown {
            path,
            lines: &lines,
            module,
        }],
        &found,
    )
}

/// Answers the modules with what their externals stand for.
fn joined<'s>(
    alloc: Global,
    modules: &'s [Module],
    links: &'s [Links],
) -> Result<Vec<Part<'s>>, AllocError>
    ensures { IfOk result (λ v. map member_of v.items ≡ map member_with (zip modules.now links.now)) }
{
    let mut parts = Vec::with_capacity(alloc, modules.len())?;
    for (number, module) in modules.iter().enumerate() {
        let Some(own) = links.get(number) else {
            return Ok(parts);
        };
        let externals = own.externals.as_slice();
        parts.push(Part { module, externals })?;
    }
    Ok(parts)
}

/// Answers the sources as warnings show them.
fn shown<'s>(
    alloc: Global,
    files: &[SourceFile<'s>],
    lines: &'s [Vec<u32>],
    modules: &'s [Module],
) -> Result<Vec<Shown<'s>>, AllocError>
    ensures { IfOk result (λ v. map shown_of v.items ≡ map shown_in (zip files.now (zip lines.now modules.now))) }
{
    let mut shown = Vec::with_capacity(alloc, files.len())?;
    for (number, file) in files.iter().enumerate() {
        let Some(own) = lines.get(number) else {
            return Ok(shown);
        };
        let Some(module) = modules.get(number) else {
            return Ok(shown);
        };
        let path = file.path;
        let lines = own.as_slice();
        shown.push(Shown {
            path,
            lines,
            module,
        })?;
    }
    Ok(shown)
}

/// Answers the warnings of the program of modules; none if they have an error together.
fn found_joined(alloc: Global, modules: &[Module]) -> Result<Vec<Warning>, AllocError>
    requires { All IsModule (map module_of modules.now) }
    ensures { IfOk result (λ found. found.items ≡ found_unless (first_fault (map module_of modules.now)) (all_warnings (joined (map module_of modules.now)))) }
{
    let links = match join(alloc, modules) {
        Ok(links) => links,
        Err(JoinFault::NoMemory) => return Err(AllocError),
        Err(_) => return Ok(Vec::new(alloc)),
    };
    let parts = joined(alloc, modules, &links)?;
    find_jump_warnings(alloc, &parts)
}

/// Answers the lines for the program of modules, given the lines of their statements in their own sources.
fn lines_joined(
    alloc: Global,
    files: &[SourceFile<'_>],
    modules: &[Module],
    own: &[Vec<u32>],
) -> Result<Vec<u8>, AllocError>
    requires { All IsModule (map module_of modules.now) }
    ensures { IfOk result (λ lines. lines.items ≡ jump_warning_lines (map shown_in (zip files.now (zip own.now modules.now))) (found_unless (first_fault (map module_of modules.now)) (all_warnings (joined (map module_of modules.now))))) }
{
    let found = found_joined(alloc, modules)?;
    let sources = shown(alloc, files, own, modules)?;
    warning_lines(alloc, &sources, &found)
}

/// Answers the warnings about the jumps of a program that was built of sources after a front, as lines for standard error: ten at most, and
/// how many there are more.
pub(crate) fn warn_built(
    alloc: Global,
    front: Front<'_>,
    files: &[SourceFile<'_>],
    built: &Built,
) -> Result<Vec<u8>, AllocError>
    requires { All IsModule (map module_of built.now.modules.items) }
    ensures { IfOk result (λ lines. (all : List Assembled) → map module_of built.now.modules.items ≡ map (λ a. a.holds) all → map (λ l. l.each.items) built.now.lines.items ≡ map (λ a. a.each) all → lines.items ≡ build_warnings front.entry files.now all) }
{
    let own = all_own_lines(alloc, front, &built.lines)?;
    lines_joined(alloc, files, &built.modules, &own)
}

/// A warning about the jumps of a program.
#[derive(Debug, Drop)]
pub struct JumpWarning {
    /// The number of the source, from 0.
    pub source: usize,
    /// The line of the statement that it is about.
    pub line: u32,
    /// What it says.
    pub text: Vec<u8>,
}

/// Answers a warning with the source and the line of its statement.
fn told(alloc: Global, sources: &[Shown<'_>], warning: &Warning) -> Result<JumpWarning, AllocError>
    ensures { IfOk result (λ given. IsGivenAs (map shown_of sources.now) warning.now given) }
{
    let site = site_of(warning);
    let mut text = Vec::new(alloc);
    put_message(alloc, &mut text, sources, warning)?;
    let line = match sources.get(site.module) {
        Some(source) => line_at(source.lines, site.statement),
        None => 0,
    };
    Ok(JumpWarning {
        source: site.module,
        line,
        text,
    })
}

/// Answers warnings with the sources and the lines of their statements, in the same order.
fn all_told(
    alloc: Global,
    sources: &[Shown<'_>],
    found: &[Warning],
) -> Result<Vec<JumpWarning>, AllocError>
    ensures { IfOk result (λ all. AllZip (IsGivenAs (map shown_of sources.now)) found.now all.items) }
{
    let mut all = Vec::with_capacity(alloc, found.len())?;
    for warning in found {
        all.push(told(alloc, sources, warning)?)?;
    }
    Ok(all)
}

/// Answers the warnings for the program of modules, given the lines of their statements.
fn told_joined(
    alloc: Global,
    files: &[SourceFile<'_>],
    modules: &[Module],
    lines: &[Vec<u32>],
) -> Result<Vec<JumpWarning>, AllocError>
    requires { All IsModule (map module_of modules.now) }
    ensures { IfOk result (λ all. AllZip (IsGivenAs (map shown_in (zip files.now (zip lines.now modules.now)))) (found_unless (first_fault (map module_of modules.now)) (all_warnings (joined (map module_of modules.now)))) all.items) }
{
    let found = found_joined(alloc, modules)?;
    let sources = shown(alloc, files, lines, modules)?;
    all_told(alloc, &sources, &found)
}

/// Answers all warnings about the jumps of a program that was built of these sources after a front, in the order of
/// [`find_jump_warnings`](source_warnings::find_jump_warnings). Lines have the numbers that they have in their own sources. There is no warning if the
/// modules have an error together, so that there is no program.
///
/// # Errors
///
/// [`AllocError`] if memory ran out.
pub fn jump_warnings(
    alloc: Global,
    front: Front<'_>,
    files: &[SourceFile<'_>],
    built: &Built,
) -> Result<Vec<JumpWarning>, AllocError>
    requires { All IsModule (map module_of built.now.modules.items) }
    ensures { IfOk result (λ all. AreJumpWarnings front.entry files.now built.now all.items) }
{
    let lines = all_own_lines(alloc, front, &built.lines)?;
    told_joined(alloc, files, &built.modules, &lines)
}
