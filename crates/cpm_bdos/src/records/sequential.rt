//! Reads and writes records one after the other.

ghost use Rattle.std.specs.Prelude.{◌≡◌, ◌<◌, ◌≤◌, OnOk, ℕ, List};
ghost use Rattle.cpm_image.specs.declared.directory.entry.TheConstants.{USERS};
ghost use Rattle.cpm_disk.specs.Control.Stops.{Ends};
ghost use Rattle.cpm_disk.specs.Control.Fcbs.{current_of};
ghost use Rattle.cpm_bdos.specs.Records.Sequential.{ReadsNext, WritesNext, refused_read, refused_write, sequential_judged, with_extent, with_place, with_s2};

use crate::records::entries::put_extent_entry;
use crate::records::place::Place;
use cpm_disk::{
    CR_OFFSET, Disk, DiskFault, DiskKind, Fcb, Name, Stop, bytes_at, put_bytes, put_field, stop_of,
};
use cpm_image::{EX_OFFSET, EXTENT_RECORDS, S2_OFFSET, Sectors};
use z80_cpu::Memory;

/// The answer of a read if there is no such record.
const NO_RECORD: u16 = 1;

/// The answer of a write if the directory is full.
const DIRECTORY_FULL: u16 = 1;

/// The answer of a write if the disk is full, or no file can have the record.
const DISK_FULL: u16 = 2;

/// Function 20: reads the next record to the DMA buffer. If there is none, the answer is 1, and the file control block stays as it is.
///
/// # Errors
///
/// [`Stop::UnknownDrive`]; [`Stop::BadFcb`] for the drive, a `?` in the name, EX above 31, CR above 128 or, on a Megabyte disk, the low
/// six bits of S2 above 15; [`Stop::DiskFault`].
pub fn read_next<S: Sectors>(
    disk: &mut Disk<S>,
    user: u8,
    dma: u16,
    memory: &mut Memory,
    address: u16,
) -> Result<u16, Stop>
    requires { user < USERS }
    ensures { ReadsNext S.sectors S.faults disk.old disk.new user dma address memory.old memory.new result }
{
    let fcb = Fcb::at(memory, address);
    let kind = disk.kind();
    judge(&fcb, kind)?;
    let old = Place::of(&fcb);
    let Some(new) = old.turned(kind) else {
        return Ok(NO_RECORD);
    };
    let name = Name::new(fcb.name());
    let number = new.record(kind);
    match disk.read_block_of(user, &name, number) {
        Ok(bytes) => {
            put_bytes(memory, dma, &bytes);
            put_place(memory, address, old, new);
            put_extent_entry(disk, user, &name, number, memory, address);
            Ok(0)
        }
        Err(fault) => not_read(fault),
    }
}

/// Function 21: writes the DMA buffer to the next record. The answer is 1 if the directory is full, and 2 if the disk is full or no file
/// can have the record; then the file control block stays as it is.
///
/// # Errors
///
/// Those of `read_next`; [`Stop::BadFcb`] if there is no such file, [`Stop::FileReadOnly`].
pub fn write_next<S: Sectors>(
    disk: &mut Disk<S>,
    user: u8,
    dma: u16,
    memory: &mut Memory,
    address: u16,
) -> Result<u16, Stop>
    requires { user < USERS }
    ensures { WritesNext S.sectors S.faults disk.old disk.new user dma address memory.old memory.new result }
{
    let fcb = Fcb::at(memory, address);
    let kind = disk.kind();
    judge(&fcb, kind)?;
    let old = Place::of(&fcb);
    let Some(new) = old.turned(kind) else {
        return Ok(DISK_FULL);
    };
    let name = Name::new(fcb.name());
    let number = new.record(kind);
    match disk.write_block_of(user, &name, number, &bytes_at(memory, dma)) {
        Ok(()) => {
            put_place(memory, address, old, new);
            put_extent_entry(disk, user, &name, number, memory, address);
            Ok(0)
        }
        Err(fault) => not_written(fault),
    }
}

/// Tests drive and name, and then the position.
fn judge(fcb: &Fcb, kind: DiskKind) -> Result<(), Stop>
    ensures judged { result ≡ sequential_judged kind fcb.now }
    ensures within { OnOk result (current_of fcb.now ≤ EXTENT_RECORDS) }
{
    fcb.judge_file()?;
    Place::of(fcb).judge(kind)
}

/// Sets CR to the record after this one, EX too if CR was 128, and S2 too if it went up.
fn put_place(memory: &mut Memory, address: u16, old: Place, new: Place)
    requires { new.current < EXTENT_RECORDS }
    ensures { memory.new ≡ with_place address old new memory.old }
{
    put_extent(memory, address, old, new);
    put_s2(memory, address, old, new);
    put_field(memory, address, CR_OFFSET as u16, &[new.current + 1]);
}

fn put_extent(memory: &mut Memory, address: u16, old: Place, new: Place)
    ensures { memory.new ≡ with_extent address old new memory.old }
{
    if old.current == EXTENT_RECORDS {
        put_field(memory, address, EX_OFFSET as u16, &[new.extent]);
    }
}

fn put_s2(memory: &mut Memory, address: u16, old: Place, new: Place)
    ensures { memory.new ≡ with_s2 address old new memory.old }
{
    if old.s2 != new.s2 {
        put_field(memory, address, S2_OFFSET as u16, &[new.s2]);
    }
}

/// What function 20 answers if the disk refuses.
fn not_read(fault: DiskFault) -> Result<u16, Stop>
    ensures { (memory : List ℕ) → Ends (refused_read memory fault) memory memory result }
{
    match fault {
        DiskFault::NotFound | DiskFault::NoExtent | DiskFault::Unwritten | DiskFault::TooFar => {
            Ok(NO_RECORD)
        }
        _ => Err(stop_of(fault)),
    }
}

/// What function 21 answers if the disk refuses.
fn not_written(fault: DiskFault) -> Result<u16, Stop>
    ensures { (memory : List ℕ) → Ends (refused_write memory fault) memory memory result }
{
    match fault {
        DiskFault::DirectoryFull => Ok(DIRECTORY_FULL),
        DiskFault::DiskFull | DiskFault::TooFar => Ok(DISK_FULL),
        _ => Err(stop_of(fault)),
    }
}
