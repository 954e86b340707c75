//! Machines that make system calls, with a disk and a console that may fail.

use cpm_bdos::Bdos;
use cpm_console::{FailingConsole, MemoryConsole};
use cpm_disk::{Disk, DiskKind};
use cpm_image::{FailedWrite, Failing, LogicalRecord, MemoryImage, Sectors, logical};
use row_text::Row;
use std::alloc::Global;
use z80_cpu::{Cpu, Flags, Memory};

/// A console in memory that may fail.
pub(crate) type Keyboard = FailingConsole<MemoryConsole>;

/// A processor with memory, and the system that answers its calls.
#[derive(Drop)]
pub(crate) struct Machine {
    pub(crate) bdos: Bdos<Failing, Keyboard>,
    pub(crate) cpu: Cpu,
    pub(crate) memory: Memory,
}

/// Takes a kind of disk.
pub(crate) fn kind_of(row: &mut Row) -> DiskKind {
    match row.word() {
        "eight" => DiskKind::EightInch,
        "megabyte" => DiskKind::Megabyte,
        _ => {
            row.refuse("no such kind of disk");
            DiskKind::EightInch
        }
    }
}

/// Which calls of a console fail, by the number of the first. Calls that take a byte and calls that put one are counted together from 0.
#[derive(Clone, Copy)]
enum Fails {
    Never,
    Once(u64),
    From(u64),
    Puts(u64),
}

/// The calls that a word names.
fn fails_of(word: &str) -> Option<Fails> {
    if word == "good" {
        return Some(Fails::Never);
    }
    let (word, call) = word.split_at_checked(4)?;
    let call = u64::from(u32::from_str_radix(call, 10).ok()?);
    match word {
        "once" => Some(Fails::Once(call)),
        "from" => Some(Fails::From(call)),
        "puts" => Some(Fails::Puts(call)),
        _ => None,
    }
}

/// A console without input that does not fail.
pub(crate) fn good_console(alloc: Global) -> Keyboard {
    FailingConsole::once(MemoryConsole::new(alloc, Vec::new(alloc)), u64::MAX, false)
}

/// A console with input. A word says which of its calls fail.
pub(crate) fn console_of(row: &mut Row, fails: &str, typed: Vec<u8>) -> Keyboard {
    let console = MemoryConsole::new(row.alloc(), typed);
    match fails_of(fails) {
        Some(Fails::Never) => FailingConsole::once(console, u64::MAX, false),
        Some(Fails::Once(call)) => FailingConsole::once(console, call, false),
        Some(Fails::From(call)) => FailingConsole::from_then_on(console, call, false),
        Some(Fails::Puts(call)) => FailingConsole::from_then_on(console, call, true),
        None => {
            row.refuse("no such console");
            FailingConsole::once(console, u64::MAX, false)
        }
    }
}

/// Mounts an image on a device that makes `good_calls` good calls and then fails.
fn mounted(alloc: Global, image: MemoryImage, good_calls: u32) -> Option<Disk<Failing>> {
    let device = Failing::lasting(image, good_calls, FailedWrite::Old);
    Disk::mount(alloc, device).ok()
}

/// An empty disk that does not fail.
pub(crate) fn blank_disk(alloc: Global, kind: DiskKind) -> Option<Disk<Failing>> {
    mounted(alloc, MemoryImage::blank(alloc, kind).ok()?, u32::MAX)
}

/// Registers with values that no call answers.
fn marked_cpu() -> Cpu {
    let mut cpu = Cpu::new();
    cpu.main.a = 0x5A;
    cpu.main.b = 0xB5;
    cpu.main.flags = Flags::from_byte(0xC5);
    cpu.main.set_hl(0x1234);
    cpu.ix = 0x1111;
    cpu.iy = 0x1212;
    cpu.sp = 0x2222;
    cpu.pc = 0x3333;
    cpu
}

/// A machine with a disk and a console.
pub(crate) fn machine_over(
    alloc: Global,
    disk: Disk<Failing>,
    console: Keyboard,
) -> Option<Machine> {
    let memory = Memory::new(alloc).ok()?;
    Some(Machine {
        bdos: Bdos::new(disk, console),
        cpu: marked_cpu(),
        memory,
    })
}

/// A machine with an empty eight inch disk and a console without input.
pub(crate) fn blank_machine(alloc: Global) -> Option<Machine> {
    let disk = blank_disk(alloc, DiskKind::EightInch)?;
    machine_over(alloc, disk, good_console(alloc))
}

/// Makes a machine with an empty disk from its columns: the format, which calls of the console fail, and what is typed.
pub(crate) fn new_machine(row: &mut Row) -> Option<Machine> {
    let kind = kind_of(row);
    let columns = row.rest();
    let (fails, typed) = columns.split_once('|').unwrap_or((columns, ""));
    let typed = row.bytes_of(typed);
    let console = console_of(row, fails, typed);
    let disk = blank_disk(row.alloc(), kind)?;
    machine_over(row.alloc(), disk, console)
}

/// The image of a machine's disk.
fn image_of(machine: Machine) -> MemoryImage {
    let Machine { bdos, .. } = machine;
    let (disk, _console) = bdos.into_parts();
    disk.unmount().into_image()
}

/// A new machine with the disk of another. Its device makes as many good calls as the row says after those of mounting, and then fails.
pub(crate) fn with_device(row: &mut Row, machine: Machine) -> Option<Machine> {
    let image = image_of(machine);
    let kind = DiskKind::of_size(image.len())?;
    // Mounting reads the whole directory, with one call for each record.
    let first = row.decimal().saturating_add(kind.directory_records());
    let disk = mounted(row.alloc(), image, first)?;
    machine_over(row.alloc(), disk, good_console(row.alloc()))
}

/// Writes the beginning of the first entry to the directory of an eight inch disk. The rest of the entry is 0.
fn put_entry(image: &mut MemoryImage, front: &[u8]) -> Option<()> {
    let mut record = [0xE5; 128];
    for (at, byte) in record[..32].iter_mut().enumerate() {
        *byte = *front.get(at).unwrap_or(&0);
    }
    let sector = logical(LogicalRecord::new(0));
    if sector >= image.len() {
        return None;
    }
    image.write(sector, &record).ok()
}

/// A machine with an eight inch disk whose first entry begins with the bytes of the row.
pub(crate) fn with_entry(row: &mut Row) -> Option<Machine> {
    let mut image = MemoryImage::blank(row.alloc(), DiskKind::EightInch).ok()?;
    put_entry(&mut image, &row.bytes())?;
    let disk = mounted(row.alloc(), image, u32::MAX)?;
    machine_over(row.alloc(), disk, good_console(row.alloc()))
}

/// Prints all bytes that a machine put on its console.
pub(crate) fn answer_output(row: &mut Row, machine: Machine) {
    let Machine { bdos, .. } = machine;
    let (_disk, console) = bdos.into_parts();
    row.write_runs(console.into_console().output())
}
