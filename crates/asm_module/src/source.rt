//! Reads the lines of a source.

ghost use Rattle.asm_module.specs.Reads.Source.{IsSourceText};

use crate::line_fault::LineFault;
use crate::listing_end::last_listed;
use crate::reading::{Reading, read_lines};
use asm_macro::MacroFault;
use asm_names::SourceLine;
use std::alloc::Global;

/// What the lines of a source parse as.
#[derive(Debug, Drop)]
pub struct SourceText {
    /// The lines of its expansion before the first that cannot be parsed.
    pub lines: Vec<SourceLine>,
    /// The number of that line, and why it cannot be parsed.
    pub unread: Option<(u32, LineFault)>,
    /// The number of the last line that the listing shows: that of END, or of the source's last line if there is none; 0 if the source has
    /// no lines.
    pub last: u32,
}

/// Expands a source and reads its lines.
///
/// # Errors
///
/// The line at which the expansion stops, and why; or [`MacroFault::NoMemory`].
pub fn read_source(alloc: Global, text: &[u8]) -> Result<SourceText, (u32, MacroFault)>
    ensures { IsSourceText text.now result }
{
    let Reading { lines, unread } = read_lines(alloc, text)?;
    let last = last_listed(&lines, text);
    Ok(SourceText {
        lines,
        unread,
        last,
    })
}
