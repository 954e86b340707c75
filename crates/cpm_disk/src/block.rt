//! Writes records of files to blocks.

ghost use Rattle.std.specs.Prelude.{◌≡◌, ◌⊎◌, ◌<◌, ◌≤◌, ◌+◌, ◌*◌, ℕ, false, true, length, OnErr, OnOk, slice_set};
ghost use Rattle.cpm_image.specs.Device.{HasCountedFault};
ghost use Rattle.cpm_image.specs.Kind.{block_count, block_records, entry_count, first_block, record_count, sector_count};
ghost use Rattle.cpm_disk.specs.Private.Blocks.{Cleared, Prepared};
ghost use Rattle.cpm_disk.specs.Calls.{HasWritten, PartlyWritten, Written};
ghost use Rattle.cpm_disk.specs.Image.{IsOfBlock, SameBut, directory, disk_record};

use crate::placement::Placement;
use crate::records::{store, write_record};
use cpm_image::{DeviceFault, DiskKind, Entry, LogicalRecord, RECORD_BYTES, Sectors};

/// The logical record of the disk that is record `i` of a block.
fn record_of(kind: DiskKind, block: u16, i: u32) -> LogicalRecord
    requires block { block < block_count kind }
    requires record { i < block_records kind }
    ensures record { result ≡ block_records kind * block + i }
    ensures within { result < record_count kind }
{
    LogicalRecord::new(u32::from(kind.block_records()) * u32::from(block) + i)
}

/// Fills all records of a block with zeros, except one.
fn clear_others<S: Sectors>(
    device: &mut S,
    kind: DiskKind,
    block: u16,
    kept: u32,
) -> Result<(), DeviceFault>
    requires count { length (S.sectors device.old) ≡ sector_count kind }
    requires block { block < block_count kind }
    ensures cleared { OnOk result (Cleared kind (S.sectors device.old) (S.sectors device.new) block kept (block_records kind)) }
    ensures rest { SameBut kind (IsOfBlock kind block) (S.sectors device.old) (S.sectors device.new) }
    ensures cause { HasCountedFault (S.faults device.old) (S.faults device.new) result }
{
    let zeros = [0; RECORD_BYTES];
    for i in 0..u32::from(kind.block_records()) {
        if i != kept {
            write_record(device, kind, record_of(kind, block, i), &zeros)?;
        }
    }
    Ok(())
}

/// Fills all records of a block with zeros, except one, if the block is new.
fn prepare<S: Sectors>(
    device: &mut S,
    kind: DiskKind,
    place: &Placement,
    i: u32,
) -> Result<(), DeviceFault>
    requires count { length (S.sectors device.old) ≡ sector_count kind }
    requires block { place.now.block < block_count kind }
    ensures prepared { OnOk result (Prepared kind (S.sectors device.old) (S.sectors device.new) place.now i) }
    ensures rest { SameBut kind (IsOfBlock kind place.now.block) (S.sectors device.old) (S.sectors device.new) }
    ensures stopped { OnErr result (place.now.is_new ≡ true) }
    ensures cause { HasCountedFault (S.faults device.old) (S.faults device.new) result }
{
    if place.is_new {
        return clear_others(device, kind, place.block, i);
    }
    Ok(())
}

/// Writes record `i` of a block. If the block is new, it first fills the others with zeros.
fn write_block<S: Sectors>(
    device: &mut S,
    kind: DiskKind,
    place: &Placement,
    i: u32,
    bytes: &[u8; RECORD_BYTES],
) -> Result<(), DeviceFault>
    requires count { length (S.sectors device.old) ≡ sector_count kind }
    requires block { place.now.block < block_count kind }
    requires place { i < block_records kind }
    ensures written { OnOk result (HasWritten kind (S.sectors device.old) (S.sectors device.new) place.now.block i place.now.is_new bytes.now) }
    ensures rest { SameBut kind (IsOfBlock kind place.now.block) (S.sectors device.old) (S.sectors device.new) }
    ensures stopped { OnErr result (place.now.is_new ≡ false → (j : ℕ) → j < block_records kind →
        (disk_record kind (S.sectors device.new) (block_records kind * place.now.block + j) ≡ disk_record kind (S.sectors device.old) (block_records kind * place.now.block + j))
        ⊎ ((j ≡ i) × (disk_record kind (S.sectors device.new) (block_records kind * place.now.block + j) ≡ bytes.now))) }
    ensures cause { HasCountedFault (S.faults device.old) (S.faults device.new) result }
{
    prepare(device, kind, place, i)?;
    write_record(device, kind, record_of(kind, place.block, i), bytes)
}

/// Writes record `i` of a block, and then its directory entry.
pub(crate) fn write_all<S: Sectors>(
    device: &mut S,
    kind: DiskKind,
    entries: &mut [Entry],
    place: &Placement,
    i: u32,
    bytes: &[u8; RECORD_BYTES],
) -> Result<(), DeviceFault>
    requires count { length (S.sectors device.old) ≡ sector_count kind }
    requires size { length entries.old ≡ entry_count kind }
    requires entries { directory kind (S.sectors device.old) ≡ entries.old }
    requires number { place.now.entry_number < entry_count kind }
    requires from { first_block kind ≤ place.now.block }
    requires to { place.now.block < block_count kind }
    requires place { i < block_records kind }
    ensures entries { OnOk result (entries.new ≡ slice_set entries.old place.now.entry_number place.now.entry) }
    ensures written { OnOk result (Written kind (S.sectors device.old) (S.sectors device.new) place.now i bytes.now) }
    ensures stopped { OnErr result (PartlyWritten kind (S.sectors device.old) (S.sectors device.new) place.now i bytes.now) }
    ensures size { length entries.new ≡ entry_count kind }
    ensures cause { HasCountedFault (S.faults device.old) (S.faults device.new) result }
{
    write_block(device, kind, place, i, bytes)?;
    store(device, kind, entries, place.entry_number, place.entry)
}
