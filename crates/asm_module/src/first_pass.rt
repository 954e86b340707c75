//! The first pass over the lines of a source.

ghost use Rattle.asm_names.specs.Lines.{lines_of};
ghost use Rattle.asm_module.specs.Private.Steps.{Passes};

use crate::fault::{AsmFault, of_line, of_name};
use crate::source::SourceText;
use asm_names::{NameTable, names_of};
use std::alloc::Global;

/// Answers the names of a source, or the error of the first line that may not define its name or cannot be parsed.
pub(crate) fn first_pass(alloc: Global, source: &SourceText) -> Result<NameTable, AsmFault>
    ensures { Passes (lines_of source.now.lines.items) source.now.unread result }
{
    let table = match names_of(alloc, &source.lines) {
        Ok(table) => table,
        Err((line, why)) => return Err(of_name(line, why)),
    };
    match source.unread {
        Some((line, why)) => Err(of_line(line, why)),
        None => Ok(table),
    }
}
