//! Finds all warnings about a source.

ghost use Rattle.std.specs.Prelude.{◌≡◌, ◌≢◌, ◌++◌, ◌∷◌, [], ◌-◌, List, ℕ, IfOk, OnOk, Ok, length, map, slice_index_or, false};
ghost use Rattle.std.specs.Str.{bytes_eq};
ghost use Rattle.asm_text.specs.Lines.{Numbered};
ghost use Rattle.asm_macro.specs.Texts.{source_lines};
ghost use Rattle.asm_macro.specs.Views.{lines_seen};
ghost use Rattle.source_warnings.specs.Found.{AreSourceWarnings};
ghost use Rattle.source_warnings.specs.Warnings.{is_own, line_warnings, warning_of, warnings_after};
ghost use Rattle.source_warnings.specs.Private.Known.{Knows, line_seen};

use crate::first_lines::FirstLines;
use crate::mentions::mentions_in;
use crate::own::{Before, put_own};
use crate::reading::parsed;
use crate::warning::SourceWarning;
use asm_macro::{ExpandedLine, MacroFault, expand, source_part};
use asm_module::{Why, assemble};
use asm_text::Lines;
use common::NameKey;
use std::alloc::{AllocError, Global};

/// Whether a line of the expansion is the line of the source with its number, as it is written.
pub(crate) fn is_own(lines: &Lines<'_>, line: &ExpandedLine) -> bool
    ensures { result ≡ bytes_eq line.now.text.items (slice_index_or lines.now (line.now.number - 1) []) }
{
    let at = (line.number as usize).saturating_sub(1);
    line.text.as_slice() == lines.line(at)
}

/// Appends the warnings about a line of the expansion.
fn put_line(
    alloc: Global,
    lines: &Lines<'_>,
    line: &ExpandedLine,
    before: &mut Before,
    found: &mut Vec<SourceWarning>,
) -> Result<(), AllocError>
    ensures { OnOk result ((text : List ℕ) (earlier : List Numbered) → lines.now ≡ source_lines text → Knows text earlier before.old →
        (map warning_of found.new.items ≡ map warning_of found.old.items ++ line_warnings text earlier (line_seen line.now)) × Knows text (earlier ++ line_seen line.now ∷ []) before.new) }
{
    if is_own(lines, line) {
        let read = parsed(alloc, &line.text)?;
        put_own(alloc, line, read.as_ref(), before, found)?;
    }
    Ok(())
}

/// Answers the warnings about the lines of an expansion.
fn warnings_in(
    alloc: Global,
    text: &[u8],
    expanded: &[ExpandedLine],
) -> Result<Vec<SourceWarning>, AllocError>
    ensures { IfOk result (λ found. map warning_of found.items ≡ warnings_after text.now [] (lines_seen expanded.now)) }
{
    let lines = Lines::of(alloc, source_part(text))?;
    if lines.len() > u32::MAX as usize {
        return Err(AllocError);
    }
    let key = NameKey::of(text);
    let mut before = Before {
        mentioned: mentions_in(alloc, &lines, key)?,
        publics: FirstLines::new(alloc, key),
        externals: FirstLines::new(alloc, key),
    };
    let mut found = Vec::new(alloc);
    for line in expanded {
        put_line(alloc, &lines, line, &mut before, &mut found)?;
    }
    Ok(found)
}

/// Answers no warnings about a source whose expansion stops, or that memory ran out.
pub(crate) fn stopped(alloc: Global, why: MacroFault) -> Result<Vec<SourceWarning>, AllocError>
    ensures { IfOk result (λ found. (why ≢ MacroFault.NoMemory) × (found.items ≡ [])) }
{
    match why {
        MacroFault::NoMemory => Err(AllocError),
        _ => Ok(Vec::new(alloc)),
    }
}

/// Answers no warnings about a source with an error, or that memory ran out.
pub(crate) fn refused(alloc: Global, why: Why) -> Result<Vec<SourceWarning>, AllocError>
    ensures { IfOk result (λ found. (why ≢ Why.NoMemory) × (found.items ≡ [])) }
{
    match why {
        Why::NoMemory => Err(AllocError),
        _ => Ok(Vec::new(alloc)),
    }
}

/// Answers the warnings about a source, in the order of its lines; none if the source has an error.
///
/// # Errors
///
/// [`AllocError`] if memory ran out.
pub fn find_warnings(alloc: Global, text: &[u8]) -> Result<Vec<SourceWarning>, AllocError>
    ensures { IfOk result (λ found. AreSourceWarnings text.now (map warning_of found.items)) }
{
    let expanded = match expand(alloc, text) {
        Ok(expanded) => expanded,
        Err((_, why)) => return stopped(alloc, why),
    };
    match assemble(alloc, b"", text) {
        Ok(module) => {
            drop(module);
            warnings_in(alloc, text, &expanded.lines)
        }
        Err(fault) => refused(alloc, fault.why),
    }
}
