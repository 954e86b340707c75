//! Writes a source text that builds to the bytes of a program.

ghost use Rattle.std.specs.Prelude.{◌≡◌, IfOk, true, map};
ghost use Rattle.std.specs.Option.{option_map};
ghost use Rattle.disassembler.specs.Disassembly.{IsDisassembly, Rebuilds};
ghost use Rattle.disassembler.specs.Private.{IsRebuilt};

use crate::entries::{data_offsets, entry_offsets};
use crate::fault::DisassemblyFault;
use crate::items::Layout;
use crate::labels::{first_bad_label, first_labels};
use crate::lines::Lines;
use crate::statements::{put_items, put_last_labels, put_plain};
use common::LONGEST_PROGRAM;
use std::alloc::{AllocError, Global};
use zlink::{BuildFault, LinkFault, Source, Why, build};

/// The most labels of a labels file that are used. A source may have 40,000 names and 60,000 lines: with one label of its own for each of
/// 17,000 items, the text has at most 37,001 names. Its lines are those of the items, 2,016 of other bytes, and one for each of these labels.
const MOST_LABELS: usize = 20_000;

/// The name of the source whose text is tried. No answer has it.
const SOURCE_NAME: &str = "PROGRAM";

/// Whether a source was refused because memory ran out.
fn ran_out_of_memory(fault: &BuildFault) -> bool {
    match fault {
        BuildFault::Asm { fault, .. } => matches!(fault.why, Why::NoMemory),
        BuildFault::Link(fault) => matches!(fault, LinkFault::NoMemory),
    }
}

/// Whether a text builds to these bytes.
fn builds_to(alloc: Global, text: &[u8], program: &[u8]) -> Result<bool, AllocError>
    ensures { IfOk result (λ same. same ≡ true → Rebuilds text.now program.now) }
{
    let name = SOURCE_NAME.as_bytes();
    match build(alloc, &[Source { name, text }]) {
        Ok(built) => Ok(built.com.as_slice() == program),
        Err(fault) => {
            if ran_out_of_memory(&fault) {
                Err(AllocError)
            } else {
                Ok(false)
            }
        }
    }
}

/// Writes the first lines of a text.
fn put_head(alloc: Global, lines: &mut Lines, count: usize) -> Result<(), AllocError> {
    lines.put_remark(
        "Made from a .COM file: `z80dev build` makes the same file from this source.",
    )?;
    let size = format!(in alloc; "Its size in bytes: {count}.")?;
    lines.put_remark(size.as_str())
}

/// Writes a program as instructions and data.
fn full_text(
    alloc: Global,
    program: &[u8],
    labels: Option<&[u8]>,
    entries: &[usize],
    data_starts: &[usize],
) -> Result<Vec<u8>, AllocError> {
    let labels = first_labels(alloc, labels, MOST_LABELS)?;
    let layout = Layout::new(alloc, program, &labels, entries, data_starts)?;
    let mut lines = Lines::new(alloc);
    put_head(alloc, &mut lines, program.len())?;
    put_items(alloc, &layout, &mut lines)?;
    if layout.end < program.len() {
        lines.put_remark("The rest as bytes: a source has at most 20,000 statements.")?;
    }
    put_plain(&mut lines, program, layout.end)?;
    put_last_labels(alloc, &layout, &mut lines)?;
    Ok(lines.into_text())
}

/// Writes a program as bytes. A program of 64,512 bytes has 2,016 statements, so the text is never too long.
fn plain_text(alloc: Global, program: &[u8]) -> Result<Vec<u8>, AllocError> {
    let mut lines = Lines::new(alloc);
    put_head(alloc, &mut lines, program.len())?;
    lines.put_remark("Only bytes: a source with its instructions did not build to the same file.")?;
    put_plain(&mut lines, program, 0)?;
    Ok(lines.into_text())
}

/// Answers the first text that builds to the bytes of a program.
fn rebuilt<'a>(
    alloc: Global,
    program: &[u8],
    labels: Option<&[u8]>,
    entries: &[usize],
    data_starts: &[usize],
) -> Result<Vec<u8>, DisassemblyFault<'a>>
    ensures { IsRebuilt program.now result }
{
    let text = full_text(alloc, program, labels, entries, data_starts)?;
    if builds_to(alloc, &text, program)? {
        return Ok(text);
    }
    let text = plain_text(alloc, program)?;
    if builds_to(alloc, &text, program)? {
        return Ok(text);
    }
    Err(DisassemblyFault::NotRebuilt)
}

/// Answers a source text that builds to the bytes of a program.
///
/// Code is what can be reached from the first byte and from the entries, but not the bytes at `data_starts`; everything else is data.
/// `labels` is a labels file, whose names the text uses.
///
/// # Errors
///
/// [`DisassemblyFault::TooLong`] if the program has more than 64,512 bytes; otherwise [`DisassemblyFault::BadEntry`] with the first entry
/// that is not an address of a byte of the program; otherwise [`DisassemblyFault::BadData`] with the first beginning of data that is not;
/// otherwise [`DisassemblyFault::BadLabels`] with the first line of the labels file that is not one of a label; otherwise
/// [`DisassemblyFault::NotRebuilt`] if neither the text of instructions nor that of bytes alone builds to the program, which no known program
/// does; [`DisassemblyFault::NoMemory`] if memory ran out.
pub fn disassemble<'a>(
    alloc: Global,
    program: &[u8],
    labels: Option<&[u8]>,
    entries: &[&'a str],
    data_starts: &[&'a str],
) -> Result<Vec<u8>, DisassemblyFault<'a>>
    ensures { IsDisassembly program.now (option_map (λ text. text.now) labels.entry) (map (λ word. word.now) entries.now) (map (λ word. word.now) data_starts.now) result }
{
    if program.len() > LONGEST_PROGRAM as usize {
        return Err(DisassemblyFault::TooLong);
    }
    let entries = entry_offsets(alloc, program.len(), entries)?;
    let data_starts = data_offsets(alloc, program.len(), data_starts)?;
    if let Some(line) = first_bad_label(labels) {
        return Err(DisassemblyFault::BadLabels(line));
    }
    rebuilt(alloc, program, labels, &entries, &data_starts)
}
