//! Makes a call on devices that fail, at each of their calls in turn, and tests what it leaves.

ghost use Rattle.std.specs.Prelude.{◌<◌};

use crate::call::change_named;
use crate::disks::{Change, change_of, good, leaves_of, make};
use anyhow::anyhow;
use cpm_disk::{Attribute, Disk, DiskFault, Name, Pattern, Space, Usage};
use cpm_image::{FailedWrite, Failing, ImageFault, MemoryImage};
use row_text::Row;
use std::alloc::Global;

/// The records of each file that are compared: at the beginning and the end of blocks and extents, and those that rows write.
const LOOKED_AT: [u32; 22] = [
    0, 1, 2, 3, 4, 7, 8, 9, 10, 11, 15, 16, 23, 24, 128, 129, 130, 131, 256, 300, 303, 4_100,
];

/// What can be seen of a disk: its entries, and the answers to reading records of its files.
#[derive(Drop)]
struct Seen {
    entries: Vec<[u8; 32]>,
    records: Vec<Result<[u8; 128], DiskFault>>,
}

/// A call, its user, and how its device fails.
#[derive(Clone, Copy)]
struct Stopped {
    change: Change,
    user: u8,
    lasts: bool,
    leaves: FailedWrite,
}

/// A copy of an image, unless memory runs out.
pub(crate) fn copy_of(row: &Row, image: &MemoryImage) -> Option<MemoryImage> {
    copied(row.alloc(), image).ok()
}

/// A copy of an image.
fn copied(alloc: Global, image: &MemoryImage) -> Result<MemoryImage, ImageFault> {
    MemoryImage::from_bytes(alloc, image.sectors().as_flattened())
}

/// The disk of an image, on a device that does not fail.
fn mounted(alloc: Global, image: MemoryImage) -> Result<Disk<Failing>, anyhow::Error> {
    match Disk::mount(alloc, good(image)) {
        Ok(disk) => Ok(disk),
        Err((fault, _)) => Err(fault.into()),
    }
}

/// Adds the answers to reading the records of a file.
fn look_at_file(
    disk: &mut Disk<Failing>,
    user: u8,
    name: &Name,
    records: &mut Vec<Result<[u8; 128], DiskFault>>,
) -> Result<(), anyhow::Error> {
    if user >= 32 {
        return Err(anyhow!("users are 0 to 31"));
    }
    for number in LOOKED_AT {
        records.push(disk.read_block_of(user, name, number))?;
    }
    Ok(())
}

/// The entries of a disk.
fn entries_of(alloc: Global, disk: &Disk<Failing>) -> Result<Vec<[u8; 32]>, anyhow::Error> {
    let mut entries = Vec::new(alloc);
    for number in 0..disk.kind().entry_count() {
        entries.push(disk.entry(number))?;
    }
    Ok(entries)
}

/// What can be seen after an image is mounted again.
fn look_at(alloc: Global, image: MemoryImage) -> Result<Seen, anyhow::Error> {
    let mut disk = mounted(alloc, image)?;
    let mut records = Vec::new(alloc);
    for file in &disk.list(alloc)? {
        look_at_file(&mut disk, file.user, &file.name, &mut records)?;
    }
    Ok(Seen {
        entries: entries_of(alloc, &disk)?,
        records,
    })
}

/// Whether nothing can be seen of a disk whose device has failed.
fn is_unseen(alloc: Global, disk: &Disk<Failing>, name: &Name) -> bool {
    let any = Pattern {
        name: *b"???????????",
        extent: 0x3F,
        high: 0x3F,
    };
    let is_no_file = disk.find(0, &any, 0).is_none()
        && disk.find_extent(0, name, 0).is_none()
        && disk.size(0, name).is_none();
    is_no_file
        && matches!(disk.list(alloc), Err(DiskFault::Failed))
        && counts_nothing(disk, name)
        && has_no_entries(disk)
}

/// Whether a disk answers no entries and no blocks, for a file and for what is free.
fn counts_nothing(disk: &Disk<Failing>, name: &Name) -> bool {
    let (entries, blocks) = (0, 0);
    disk.usage(0, name) == Usage { entries, blocks } && disk.space() == Space { entries, blocks }
}

/// Whether all entries of a disk are E5H.
fn has_no_entries(disk: &Disk<Failing>) -> bool {
    for number in 0..disk.kind().entry_count() {
        if disk.entry(number) != [0xE5; 32] {
            return false;
        }
    }
    true
}

/// Whether a disk answers Failed to each call.
fn fails_all(disk: &mut Disk<Failing>, name: Name) -> bool {
    let fresh = Name::new(*b"FRESH   TXT");
    let pattern = Pattern {
        name: name.bytes(),
        extent: 0,
        high: 0,
    };
    for change in [
        Change::Create(fresh),
        Change::Create(name),
        Change::Erase(pattern),
        Change::Mark(pattern, Attribute::ReadOnly, true),
        Change::Rename(name, fresh),
        Change::Read(name, 0),
        Change::Read(name, 5_000),
        Change::Write(name, 0, 1),
        Change::Write(fresh, 5_000, 1),
    ] {
        if make(change, 0, disk) != Err(DiskFault::Failed) {
            return false;
        }
    }
    true
}

/// Whether each entry is as it was before or as it is after the finished call; and, unless the call erases or renames files, whether all
/// records are as before or all as after.
fn is_between(change: Change, now: &Seen, before: &Seen, after: &Seen) -> bool {
    let mut entries = now.entries.iter().zip(&before.entries).zip(&after.entries);
    if !entries.all(|((entry, old), new)| entry == old || entry == new) {
        return false;
    }
    let records = now.records.as_slice();
    matches!(change, Change::Erase(_) | Change::Rename(..))
        || records == before.records.as_slice()
        || records == after.records.as_slice()
}

/// Makes a call on a disk. Answers whether the call met the fault, whether the disk then answered as one that has failed, and the image.
fn stopped_at(
    alloc: Global,
    device: Failing,
    stopped: Stopped,
) -> Result<(bool, bool, MemoryImage), anyhow::Error> {
    if stopped.user >= 32 {
        return Err(anyhow!("users are 0 to 31"));
    }
    let mut disk = match Disk::mount(alloc, device) {
        Ok(disk) => disk,
        Err((DiskFault::Fault, device)) => return Ok((true, true, device.into_image())),
        Err((fault, _)) => return Err(fault.into()),
    };
    let is_met = make(stopped.change, stopped.user, &mut disk) == Err(DiskFault::Fault);
    let other = Name::new(*b"OTHER   TXT");
    let is_failed = is_met && is_unseen(alloc, &disk, &other) && fails_all(&mut disk, other);
    Ok((is_met, is_failed, disk.unmount().into_image()))
}

/// A device on which call number `call` fails.
fn failing(stopped: Stopped, image: MemoryImage, call: u32) -> Failing {
    if stopped.lasts {
        Failing::lasting(image, call, stopped.leaves)
    } else {
        Failing::once(image, call, stopped.leaves)
    }
}

/// Makes a call on a device on which call number `call` fails, and answers whether the call met that fault.
fn meets_fault(
    alloc: Global,
    image: &MemoryImage,
    stopped: Stopped,
    call: u32,
    states: (&Seen, &Seen),
) -> Result<bool, anyhow::Error> {
    let (before, after) = states;
    let device = failing(stopped, copied(alloc, image)?, call);
    let (is_met, is_failed, left) = stopped_at(alloc, device, stopped)?;
    if is_met && !is_failed {
        return Err(anyhow!("a disk that failed answers"));
    }
    let before = if is_met { before } else { after };
    if is_between(stopped.change, &look_at(alloc, left)?, before, after) {
        Ok(is_met)
    } else {
        Err(anyhow!("neither as before nor as after, at call {call}"))
    }
}

/// Takes the call that a row names: `once` or `from`, `old` or `new`, the call, the user and its columns. None if it is no such call.
fn stopped_of(row: &mut Row) -> Option<Stopped> {
    let lasts = row.word() == "from";
    let leaves = leaves_of(row);
    let call = change_named(row.word())?;
    let user = row.byte();
    Some(Stopped {
        change: change_of(row, call),
        user,
        lasts,
        leaves,
    })
}

/// What the finished call leaves.
fn finished(alloc: Global, image: &MemoryImage, stopped: Stopped) -> Result<Seen, anyhow::Error> {
    let device = good(copied(alloc, image)?);
    let (_, _, left) = stopped_at(alloc, device, stopped)?;
    look_at(alloc, left)
}

/// Makes a call on devices that fail at each of their calls in turn, until it meets no fault, and answers at how many it stopped.
fn stops(alloc: Global, image: &MemoryImage, stopped: Stopped) -> Result<u32, anyhow::Error> {
    let before = look_at(alloc, copied(alloc, image)?)?;
    let after = finished(alloc, image, stopped)?;
    for call in 0..200 {
        if !meets_fault(alloc, image, stopped, call, (&before, &after))? {
            return Ok(call);
        }
    }
    Err(anyhow!("it never ends"))
}

/// Prints at how many calls of its device a call stopped.
pub(crate) fn answer_stops(row: &mut Row, image: &MemoryImage) {
    let Some(stopped) = stopped_of(row) else {
        return row.refuse("no such call");
    };
    match stops(row.alloc(), image, stopped) {
        Ok(count) => write!(row, " {count}"),
        Err(why) => write!(row, " {why}"),
    }
}
