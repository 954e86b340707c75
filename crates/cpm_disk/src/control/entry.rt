//! Copies directory entries to file control blocks.

ghost use Rattle.std.specs.Prelude.{◌≡◌, ◌<◌, ◌≤◌, IfSome};
ghost use Rattle.cpm_image.specs.Kind.{entry_count};
ghost use Rattle.cpm_disk.specs.Control.Files.{with_entry};

use crate::Disk;
use crate::control::bytes::put_field;
use cpm_image::{ENTRY_BYTES, Sectors};
use z80_cpu::Memory;

/// Copies the bytes of a directory entry from this offset on to a file control block, if there is an entry.
pub fn put_entry<S: Sectors>(
    disk: &Disk<S>,
    entry: Option<u16>,
    offset: usize,
    memory: &mut Memory,
    address: u16,
)
    requires entry { IfSome entry (λ k. k < entry_count disk.now.kind) }
    requires offset { offset ≤ ENTRY_BYTES }
    ensures { memory.new ≡ with_entry S.sectors disk.now offset address entry memory.old }
{
    if let Some(number) = entry {
        put_field(
            memory,
            address,
            offset as u16,
            disk.entry(number).split_at(offset).1,
        );
    }
}
