//! Opening and closing files.

ghost use Rattle.std.specs.Prelude.{◌≡◌};
ghost use Rattle.cpm_disk.specs.Control.Stops.{Ends};
ghost use Rattle.cpm_bdos.specs.Files.Opening.{closed, code_of, extent_entry, fcb_extent_number, open_answer};

use cpm_disk::{Disk, DiskKind, Fcb, Name, Pattern, Stop, put_entry};
use cpm_image::{LAST_EXTENT, NAME_OFFSET, RECORD_ENTRIES, S2_EXTENTS, S2_VALUES, Sectors};
use z80_cpu::Memory;

/// The answer of a call that finds nothing.
pub(crate) const NOT_FOUND: u16 = 0xFF;

/// The answer for a directory entry: its number modulo 4, or FFH if there is none.
pub(crate) fn code_of(entry: Option<u16>) -> u16
    ensures { result ≡ code_of entry }
{
    match entry {
        Some(number) => number % RECORD_ENTRIES,
        None => NOT_FOUND,
    }
}

/// Function 15: opens a file. Bytes 1 to 31 of the first directory entry that matches the name and EX of the file control block, with S2
/// 0, are copied to the file control block.
///
/// # Errors
///
/// [`Stop::UnknownDrive`], [`Stop::BadFcb`] of the drive.
pub fn open<S: Sectors>(
    disk: &Disk<S>,
    user: u8,
    memory: &mut Memory,
    address: u16,
) -> Result<u16, Stop>
    ensures { Ends (open_answer S.sectors disk.now user address memory.old) memory.old memory.new result }
{
    let fcb = Fcb::at(memory, address);
    fcb.judge_drive()?;
    let pattern = Pattern {
        name: fcb.name(),
        extent: fcb.extent(),
        high: 0,
    };
    let found = disk.find(user, &pattern, 0);
    put_entry(disk, found, NAME_OFFSET, memory, address);
    Ok(code_of(found))
}

/// Function 16: closes a file. Answers the directory entry that has the name and EX of the file control block and, on a Megabyte disk,
/// the low six bits of its S2.
///
/// # Errors
///
/// [`Stop::UnknownDrive`], [`Stop::BadFcb`] of the drive or for a `?` in the name.
pub fn close<S: Sectors>(
    disk: &Disk<S>,
    user: u8,
    memory: &Memory,
    address: u16,
) -> Result<u16, Stop>
    ensures { result ≡ closed S.sectors disk.now user address memory.now }
{
    let fcb = Fcb::at(memory, address);
    fcb.judge_file()?;
    Ok(code_of(extent_entry(disk, user, &fcb)))
}

/// The directory entry of the extent that a file control block is at.
fn extent_entry<S: Sectors>(disk: &Disk<S>, user: u8, fcb: &Fcb) -> Option<u16>
    ensures { result ≡ extent_entry S.sectors disk.now user fcb.now }
{
    if fcb.extent() > LAST_EXTENT {
        return None;
    }
    disk.find_extent(
        user,
        &Name::new(fcb.name()),
        extent_number(disk.kind(), fcb),
    )
}

/// The number of the extent that a file control block is at. S2 counts only on a Megabyte disk.
fn extent_number(kind: DiskKind, fcb: &Fcb) -> u16
    ensures { result ≡ fcb_extent_number kind fcb.now }
{
    let extent = u16::from(fcb.extent());
    match kind {
        DiskKind::EightInch => extent,
        DiskKind::Megabyte => S2_EXTENTS as u16 * u16::from(fcb.s2() % S2_VALUES) + extent,
    }
}
