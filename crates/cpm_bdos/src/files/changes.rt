//! Making, erasing and renaming files.

ghost use Rattle.std.specs.Prelude.{◌≡◌, ◌<◌, ℕ, List, Err};
ghost use Rattle.cpm_image.specs.declared.directory.entry.TheConstants.{USERS};
ghost use Rattle.cpm_disk.specs.Control.Stops.{Ends};
ghost use Rattle.cpm_bdos.specs.Files.Changes.{ErasesFiles, Makes, RenamesFile, erase_answer, make_answer, rename_answer};

use crate::files::opening::NOT_FOUND;
use cpm_disk::{Disk, DiskFault, Fcb, Name, Pattern, Stop, put_field, stop_of};
use cpm_image::{ENTRY_BYTES, EX_OFFSET, RECORD_ENTRIES, Sectors};
use z80_cpu::Memory;

/// How many bytes function 22 clears: from EX to the last block.
const CLEARED: usize = ENTRY_BYTES - EX_OFFSET;

/// Function 22: creates a file with extent 0, and sets bytes 12 to 31 of the file control block to 0.
///
/// # Errors
///
/// [`Stop::UnknownDrive`], [`Stop::BadFcb`] of the drive or for a `?` in the name, [`Stop::DiskFault`].
pub fn make<S: Sectors>(
    disk: &mut Disk<S>,
    user: u8,
    memory: &mut Memory,
    address: u16,
) -> Result<u16, Stop>
    requires { user < USERS }
    ensures { Makes S.sectors S.faults disk.old disk.new user address memory.old memory.new result }
{
    let fcb = Fcb::at(memory, address);
    fcb.judge_file()?;
    match disk.create(user, &Name::new(fcb.name())) {
        Ok(number) => {
            put_field(memory, address, EX_OFFSET as u16, &[0; CLEARED]);
            Ok(number % RECORD_ENTRIES)
        }
        Err(fault) => not_made(fault),
    }
}

/// Function 19: erases the files that match bytes 1 to 11 of the file control block, with all their extents.
///
/// # Errors
///
/// [`Stop::UnknownDrive`], [`Stop::BadFcb`] of the drive, [`Stop::FileReadOnly`], [`Stop::DiskFault`].
pub fn erase<S: Sectors>(
    disk: &mut Disk<S>,
    user: u8,
    memory: &Memory,
    address: u16,
) -> Result<u16, Stop>
    requires { user < USERS }
    ensures { ErasesFiles S.sectors S.faults disk.old disk.new user address memory.now result }
{
    let fcb = Fcb::at(memory, address);
    fcb.judge_drive()?;
    let pattern = Pattern {
        name: fcb.name(),
        extent: 0,
        high: 0,
    };
    erased(disk.erase(user, &pattern))
}

/// Function 23: renames the file with the name in bytes 1 to 11 of the file control block to that in bytes 17 to 27.
///
/// # Errors
///
/// [`Stop::UnknownDrive`], [`Stop::BadFcb`] of the drive or for a `?` in either name, [`Stop::FileReadOnly`],
/// [`Stop::DiskFault`].
pub fn rename<S: Sectors>(
    disk: &mut Disk<S>,
    user: u8,
    memory: &Memory,
    address: u16,
) -> Result<u16, Stop>
    requires { user < USERS }
    ensures { RenamesFile S.sectors S.faults disk.old disk.new user address memory.now result }
{
    let fcb = Fcb::at(memory, address);
    fcb.judge_names()?;
    let old = Name::new(fcb.name());
    let new = Name::new(fcb.new_name());
    renamed(disk.rename(user, &old, &new))
}

/// What function 22 answers if the disk refuses: FFH if the file exists or the directory is full; any other fault is a stop.
fn not_made(fault: DiskFault) -> Result<u16, Stop>
    ensures { (address : ℕ) (memory : List ℕ) → Ends (make_answer address memory (Err fault)) memory memory result }
{
    match fault {
        DiskFault::Exists | DiskFault::DirectoryFull => Ok(NOT_FOUND),
        _ => Err(stop_of(fault)),
    }
}

/// What function 19 answers: FFH if no file matches.
fn erased(reply: Result<u16, DiskFault>) -> Result<u16, Stop>
    ensures { result ≡ erase_answer reply }
{
    match reply {
        Ok(_) => Ok(0),
        Err(DiskFault::NotFound) => Ok(NOT_FOUND),
        Err(fault) => Err(stop_of(fault)),
    }
}

/// What function 23 answers: FFH if there is no file of the old name, or there is one of the new name.
fn renamed(reply: Result<(), DiskFault>) -> Result<u16, Stop>
    ensures { result ≡ rename_answer reply }
{
    match reply {
        Ok(()) => Ok(0),
        Err(DiskFault::NotFound | DiskFault::Exists) => Ok(NOT_FOUND),
        Err(fault) => Err(stop_of(fault)),
    }
}
