//! The command `dis`.

ghost use Rattle.std.specs.Prelude.{◌≡◌, map, option_map};
ghost use Rattle.z80dev.specs.Making.{DisEnds};
ghost use Rattle.host.specs.Ending.{effect_of, ended};
ghost use Rattle.z80dev.specs.Private.FileSteps.{Disassembles};

use crate::{End, Files, Sink};
use disassembler::{DisassemblyFault, disassemble, fault_text};
use host::{print, read, read_if_given};
use std::alloc::Global;
use z80dev_commands::Dis;

/// A source that builds to a program, or how the command ends because there is none.
fn source_of(
    alloc: Global,
    program: &[u8],
    labels: Option<&[u8]>,
    entries: &[&str],
    data_starts: &[&str],
) -> Result<Vec<u8>, End<'static>>
    ensures { Disassembles program.now (option_map (λ text. text.now) labels.entry) (map (λ word. word.now) entries.now) (map (λ word. word.now) data_starts.now) result }
{
    match disassemble(alloc, program, labels, entries, data_starts) {
        Ok(text) => Ok(text),
        Err(DisassemblyFault::NoMemory) => Err(End::NoMemory),
        Err(why) => Err(End::Refused(fault_text(alloc, why)?)),
    }
}

/// Prints a source that builds to a program.
pub fn dis_file<'a, F: Files, W: Sink>(
    alloc: Global,
    dis: &Dis<'a>,
    files: &mut F,
    output: &mut W,
) -> Result<End<'a>, End<'a>>
    ensures { DisEnds dis.now (effect_of (F.folder files.old) (F.folder files.new) (W.stream output.old) (W.stream output.new)) (ended result) }
{
    let bytes = read(alloc, dis.program, files)?;
    let labels = read_if_given(alloc, dis.labels, files)?;
    let source = source_of(
        alloc,
        &bytes,
        labels.as_deref(),
        &dis.entries,
        &dis.data_starts,
    )?;
    match print(output, &source) {
        Ok(()) => Ok(End::Done),
        Err(_) => Ok(End::Stream),
    }
}
