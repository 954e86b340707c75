//! Runs programs.

use crate::disks::{is_blank, mounted};
use cpm_console::MemoryConsole;
use cpm_disk::Disk;
use cpm_image::{DiskKind, MemoryImage};
use cpm_run::{RunEnd, Why, run};
use std::alloc::Global;
use std::io::Write;

/// A program that prints `Hi`.
const HI: &[u8] = b"\x11\x09\x01\x0E\x09\xCD\x05\x00\xC9Hi$";

/// A program that creates the file of its first word, writes a record of `Hello$` to it, closes and opens it, reads the record to 2000H
/// and prints it.
const FILE: &[u8] = b"\x0E\x1A\x11\x4C\x01\xCD\x05\x00\
\x0E\x16\x11\x5C\x00\xCD\x05\x00\
\x0E\x15\x11\x5C\x00\xCD\x05\x00\
\x0E\x10\x11\x5C\x00\xCD\x05\x00\
\xAF\x32\x7C\x00\x32\x68\x00\
\x0E\x0F\x11\x5C\x00\xCD\x05\x00\
\x0E\x1A\x11\x00\x20\xCD\x05\x00\
\x0E\x14\x11\x5C\x00\xCD\x05\x00\
\x0E\x09\x11\x00\x20\xCD\x05\x00\
\x0E\x00\xC3\x05\x00Hello$";

type End = RunEnd<MemoryImage, MemoryConsole>;

fn ended(alloc: Global, program: &[u8], disk: Disk<MemoryImage>, console: MemoryConsole) -> End {
    run(alloc, program, &[b"hello.txt"], disk, console, 1000)
}

fn show_end<W: Write>(out: &mut W, end: &End) -> Result<(), anyhow::Error> {
    write!(out, "{:?} after {} turns, ", end.why, end.turns)?;
    Ok(out.write_all(end.console.output())?)
}

/// Runs a program with the disk and the console that a run gave back because memory ran out, if they are unchanged.
fn run_again<W: Write>(
    alloc: Global,
    out: &mut W,
    program: &[u8],
    end: End,
) -> Result<(), anyhow::Error> {
    let image = end.disk.unmount();
    if !is_blank(&image) || !end.console.output().is_empty() {
        return Ok(write!(out, "changed")?);
    }
    match Disk::mount(alloc, image) {
        Ok(disk) => show_end(out, &ended(alloc, program, disk, end.console)),
        Err((fault, _)) => Ok(write!(out, "{fault:?}")?),
    }
}

/// Runs a program on an empty disk without input, and writes how the run ends and what it prints.
pub(crate) fn answer_run<W: Write>(
    alloc: Global,
    out: &mut W,
    name: &str,
) -> Result<(), anyhow::Error> {
    let program = if name == "hi" { HI } else { FILE };
    let disk = match mounted(alloc, DiskKind::EightInch) {
        Ok(disk) => disk,
        Err(fault) => return Ok(write!(out, "{fault:?}")?),
    };
    let console = MemoryConsole::new(alloc, Vec::new(alloc));
    let end = ended(alloc, program, disk, console);
    if end.why == Why::NoMemory {
        run_again(alloc, out, program, end)
    } else {
        show_end(out, &end)
    }
}
