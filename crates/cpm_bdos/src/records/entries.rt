//! Copies part of a directory entry to a file control block, as CP/M does after each record.

ghost use Rattle.std.specs.Prelude.{◌≡◌, ◌<◌, ◌/◌};
ghost use Rattle.cpm_bdos.specs.Records.Entries.{with_extent_entry};

use cpm_disk::{Disk, Name, put_entry};
use cpm_image::{EXTENT_RECORDS, RC_OFFSET, Sectors};
use z80_cpu::Memory;

/// Copies bytes 15 to 31 of the directory entry of a record's extent to a file control block.
pub(crate) fn put_extent_entry<S: Sectors>(
    disk: &Disk<S>,
    user: u8,
    name: &Name,
    number: u32,
    memory: &mut Memory,
    address: u16,
)
    requires { number / EXTENT_RECORDS < 65536 }
    ensures { memory.new ≡ with_extent_entry S.sectors disk.now user name.now number address memory.old }
{
    let entry = disk.find_extent(user, name, (number / EXTENT_RECORDS as u32) as u16);
    put_entry(disk, entry, RC_OFFSET, memory, address);
}
