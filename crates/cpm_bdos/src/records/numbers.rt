//! Sets R0 to R2 of a file control block.

ghost use Rattle.std.specs.Prelude.{◌≡◌, ◌<◌, ◌^◌};
ghost use Rattle.cpm_image.specs.declared.directory.entry.TheConstants.{USERS};
ghost use Rattle.cpm_disk.specs.Control.Stops.{Ends};
ghost use Rattle.cpm_bdos.specs.Records.Numbers.{record_number_stored, size_stored, with_random};

use crate::records::place::Place;
use cpm_disk::{Disk, DiskKind, Fcb, Name, R0_OFFSET, Stop, put_field};
use cpm_image::Sectors;
use z80_cpu::Memory;

/// The answer if there is no such file.
const NO_FILE: u16 = 0xFF;

/// Function 35: sets R0 to R2 to the size of a file. If there is no such file, it sets them to 0 and answers FFH.
///
/// # Errors
///
/// [`Stop::UnknownDrive`], [`Stop::BadFcb`] of the drive or for a `?` in the name.
pub fn size<S: Sectors>(
    disk: &Disk<S>,
    user: u8,
    memory: &mut Memory,
    address: u16,
) -> Result<u16, Stop>
    requires { user < USERS }
    ensures { Ends (size_stored S.sectors disk.now user address memory.old) memory.old memory.new result }
{
    let fcb = Fcb::at(memory, address);
    fcb.judge_file()?;
    match disk.size(user, &Name::new(fcb.name())) {
        Some(size) => {
            put_random(memory, address, size);
            Ok(0)
        }
        None => {
            put_random(memory, address, 0);
            Ok(NO_FILE)
        }
    }
}

/// Function 36: sets R0 to R2 to the number of the record that EX and CR, and on a Megabyte disk S2, give. Any values are accepted.
///
/// # Errors
///
/// [`Stop::UnknownDrive`], [`Stop::BadFcb`] of the drive or for a `?` in the name.
pub fn set_random(kind: DiskKind, memory: &mut Memory, address: u16) -> Result<u16, Stop>
    ensures { Ends (record_number_stored kind address memory.old) memory.old memory.new result }
{
    let fcb = Fcb::at(memory, address);
    fcb.judge_file()?;
    put_random(memory, address, Place::of(&fcb).record(kind));
    Ok(0)
}

/// Writes a number of 24 bits to R0 to R2, low byte first.
fn put_random(memory: &mut Memory, address: u16, number: u32)
    requires { number < 2 ^ 24 }
    ensures { memory.new ≡ with_random address number memory.old }
{
    let low = (number % 256) as u8;
    let middle = (number / 256 % 256) as u8;
    let high = (number / 65_536) as u8;
    put_field(memory, address, R0_OFFSET as u16, &[low, middle, high]);
}
