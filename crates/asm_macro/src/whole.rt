//! Expands a whole source at once.

ghost use Rattle.std.specs.Prelude.{◌≡◌, ◌++◌, ◌∷◌, [], OnOk};
ghost use Rattle.asm_macro.specs.Ahead.{seen};
ghost use Rattle.asm_macro.specs.Expands.{IsExpanded};
ghost use Rattle.asm_macro.specs.Private.Collected.{Collected};
ghost use Rattle.asm_macro.specs.Views.{expanded_seen, lines_seen};

use crate::expander::{Expander, Line};
use crate::fault::MacroFault;
use std::alloc::{AllocError, Global};

/// A line of an expansion, with the number of the source line that it comes from.
#[derive(Debug, Drop)]
pub struct ExpandedLine {
    pub number: u32,
    pub text: Vec<u8>,
}

/// The lines of an expansion.
#[derive(Debug, Drop)]
pub struct Expanded {
    pub lines: Vec<ExpandedLine>,
}

/// Appends a line.
fn put(alloc: Global, lines: &mut Vec<ExpandedLine>, line: Line<'_>) -> Result<(), AllocError>
    ensures { OnOk result (lines_seen lines.new.items ≡ lines_seen lines.old.items ++ seen line.entry ∷ []) }
{
    let text = Vec::from_slice(alloc, line.text)?;
    lines.push(ExpandedLine {
        number: line.number,
        text,
    })?;
    Ok(())
}

/// Appends all lines that are still to come.
fn collect(
    alloc: Global,
    expander: &mut Expander<'_>,
    lines: &mut Vec<ExpandedLine>,
) -> Result<(), (u32, MacroFault)>
    ensures { Collected expander.old.ahead (lines_seen lines.old.items) result (lines_seen lines.new.items) }
{
    while let Some(line) = expander.next_line()? {
        let number = line.number;
        if put(alloc, lines, line).is_err() {
            return Err((number, MacroFault::NoMemory));
        }
    }
    Ok(())
}

/// Answers the expansion of a source.
///
/// # Errors
///
/// The line at which the expansion stops, and why.
pub fn expand(alloc: Global, text: &[u8]) -> Result<Expanded, (u32, MacroFault)>
    ensures { IsExpanded text.now (expanded_seen result) }
{
    let mut lines = Vec::new(alloc);
    let collected = collect(alloc, &mut Expander::new(alloc, text), &mut lines);
    match collected {
        Ok(()) => Ok(Expanded { lines }),
        Err(stop) => Err(stop),
    }
}
