//! Reads and writes records by number.

ghost use Rattle.std.specs.Prelude.{◌≡◌, ◌<◌};
ghost use Rattle.cpm_image.specs.declared.directory.entry.TheConstants.{USERS};
ghost use Rattle.cpm_disk.specs.Control.Stops.{Ends};
ghost use Rattle.cpm_bdos.specs.Records.Random.{ReadsAt, WritesAt, can_have_record, refused_random_read, refused_random_write, with_place_of};

use crate::records::entries::put_extent_entry;
use cpm_disk::{
    CR_OFFSET, Disk, DiskFault, DiskKind, Fcb, Name, Stop, bytes_at, put_bytes, put_field, stop_of,
};
use cpm_image::{EX_OFFSET, EXTENT_RECORDS, S2_EXTENTS, S2_OFFSET, S2_RECORDS, Sectors};
use z80_cpu::Memory;

/// The answer of a read if the record was never written.
const UNWRITTEN: u16 = 1;

/// The answer of a write if the disk is full.
const DISK_FULL: u16 = 2;

/// The answer of a read if the extent was never written, or there is no such file.
const NO_EXTENT: u16 = 4;

/// The answer of a write if the directory is full.
const DIRECTORY_FULL: u16 = 5;

/// The answer for a record number that no file can have.
const TOO_FAR: u16 = 6;

/// Function 33: reads the record with the number in R0 and R1 to the DMA buffer. The answer is 1 if it was never written, 4 if there is
/// no such extent or file, and 6 if no file can have the record. With every answer but 6, EX, S2 and CR are set to the position of the
/// record.
///
/// # Errors
///
/// [`Stop::UnknownDrive`], [`Stop::BadFcb`] of the drive or for a `?` in the name, [`Stop::DiskFault`].
pub fn read_at<S: Sectors>(
    disk: &mut Disk<S>,
    user: u8,
    dma: u16,
    memory: &mut Memory,
    address: u16,
) -> Result<u16, Stop>
    requires { user < USERS }
    ensures { ReadsAt S.sectors S.faults disk.old disk.new user dma address memory.old memory.new result }
{
    let fcb = Fcb::at(memory, address);
    fcb.judge_file()?;
    if !is_within(&fcb, disk.kind()) {
        return Ok(TOO_FAR);
    }
    let name = Name::new(fcb.name());
    let number = fcb.random();
    match disk.read_block_of(user, &name, u32::from(number)) {
        Ok(bytes) => {
            put_bytes(memory, dma, &bytes);
            put_place_of(memory, address, number);
            put_extent_entry(disk, user, &name, u32::from(number), memory, address);
            Ok(0)
        }
        Err(fault) => not_read(fault, memory, address, number),
    }
}

/// Function 34: writes the DMA buffer to the record with the number in R0 and R1. The answer is 2 if the disk is full, 5 if the directory
/// is, and 6 if no file can have the record. With every answer but 6, EX, S2 and CR are set to the position of the record.
///
/// # Errors
///
/// Those of `read_at`; [`Stop::BadFcb`] if there is no such file, [`Stop::FileReadOnly`].
pub fn write_at<S: Sectors>(
    disk: &mut Disk<S>,
    user: u8,
    dma: u16,
    memory: &mut Memory,
    address: u16,
) -> Result<u16, Stop>
    requires { user < USERS }
    ensures { WritesAt S.sectors S.faults disk.old disk.new user dma address memory.old memory.new result }
{
    let fcb = Fcb::at(memory, address);
    fcb.judge_file()?;
    if !is_within(&fcb, disk.kind()) {
        return Ok(TOO_FAR);
    }
    let name = Name::new(fcb.name());
    let number = fcb.random();
    match disk.write_block_of(user, &name, u32::from(number), &bytes_at(memory, dma)) {
        Ok(()) => {
            put_place_of(memory, address, number);
            put_extent_entry(disk, user, &name, u32::from(number), memory, address);
            Ok(0)
        }
        Err(fault) => not_written(fault, memory, address, number),
    }
}

/// Whether a file can have the record with the number in R0 to R2.
fn is_within(fcb: &Fcb, kind: DiskKind) -> bool
    ensures { result ≡ can_have_record kind fcb.now }
{
    fcb.overflow() == 0 && u32::from(fcb.random()) < kind.file_records()
}

/// Sets EX, S2 and CR to the position of a record.
fn put_place_of(memory: &mut Memory, address: u16, number: u16)
    ensures { memory.new ≡ with_place_of address number memory.old }
{
    let extent = number / EXTENT_RECORDS as u16 % S2_EXTENTS as u16;
    put_field(memory, address, EX_OFFSET as u16, &[extent as u8]);
    put_field(
        memory,
        address,
        S2_OFFSET as u16,
        &[(number / S2_RECORDS) as u8],
    );
    let current = number % EXTENT_RECORDS as u16;
    put_field(memory, address, CR_OFFSET as u16, &[current as u8]);
}

/// What function 33 answers if the disk refuses.
fn not_read(fault: DiskFault, memory: &mut Memory, address: u16, number: u16) -> Result<u16, Stop>
    ensures { Ends (refused_random_read address number memory.old fault) memory.old memory.new result }
{
    let value = match fault {
        DiskFault::NotFound | DiskFault::NoExtent => NO_EXTENT,
        DiskFault::Unwritten => UNWRITTEN,
        _ => return Err(stop_of(fault)),
    };
    put_place_of(memory, address, number);
    Ok(value)
}

/// What function 34 answers if the disk refuses.
fn not_written(
    fault: DiskFault,
    memory: &mut Memory,
    address: u16,
    number: u16,
) -> Result<u16, Stop>
    ensures { Ends (refused_random_write address number memory.old fault) memory.old memory.new result }
{
    let value = match fault {
        DiskFault::DiskFull => DISK_FULL,
        DiskFault::DirectoryFull => DIRECTORY_FULL,
        _ => return Err(stop_of(fault)),
    };
    put_place_of(memory, address, number);
    Ok(value)
}
