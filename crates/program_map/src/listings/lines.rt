//! Prints the lines of sources, with their bytes.

ghost use Rattle.std.specs.Prelude.{◌≡◌, ◌++◌, ◌+◌, ◌≤◌, IfOk};
ghost use Rattle.program_map.specs.Private.Runs.{Ascends, HasLines, source_with};
ghost use Rattle.program_map.specs.Listings.Listing as spec;

use crate::listings::cells::{Cell, cells_by_line, split_line};
use crate::listings::rows::put_line;
use asm_macro::source_part;
use bstr::ByteSlice;
use std::alloc::{AllocError, Global};
use zlink::{Built, Source};

/// Appends the lines of a source up to the last that is listed, and answers the bytes of the sources after it.
fn put_source<'a>(
    alloc: Global,
    out: &mut Vec<u8>,
    cells: &'a [Cell],
    source: usize,
    text: &[u8],
    last: u32,
) -> Result<&'a [Cell], AllocError>
    requires { Ascends cells.now }
    ensures text { IfOk result (λ _. out.new.items ≡ out.old.items ++ source_with source cells.now last text.now) }
    ensures rest { IfOk result (λ rest. HasLines (λ number line. source + 1 ≤ number) rest.now cells.now) }
{
    let mut rest = cells;
    let mut number = 0;
    for line in source_part(text).lines() {
        if number == last {
            return Ok(rest);
        }
        number += 1;
        let (own, behind) = split_line(rest, source, number);
        put_line(alloc, out, line, own)?;
        rest = behind;
    }
    Ok(rest)
}

/// Answers the listing of a program: each line of each source, with the bytes of its statements, four to a row.
///
/// A row has the address of its first byte and its bytes, in hexadecimal. The first row of a line also has its text. A line without bytes
/// has blanks before its text. The line of a call or a `REPT` has all bytes of its expansion. Each source is listed up to its last listed
/// line, or to its end if it has fewer lines.
///
/// # Errors
///
/// [`AllocError`] if memory ran out.
pub fn listing(alloc: Global, built: &Built, sources: &[Source<'_>]) -> Result<Vec<u8>, AllocError>
    ensures { IfOk result (λ text. text.items ≡ spec.listing built.now sources.now) }
{
    let cells = cells_by_line(alloc, &built.com, &built.statements)?;
    let mut out = Vec::new(alloc);
    let mut rest = cells.as_slice();
    for (number, source) in sources.iter().enumerate() {
        let Some(last) = built.last.get(number) else {
            return Ok(out);
        };
        rest = put_source(alloc, &mut out, rest, number, source.text, *last)?;
    }
    Ok(out)
}
