//! Makes calls of images and of mounted disks.

use cpm_disk::{Disk, DiskFault, Name};
use cpm_image::{DiskKind, MemoryImage, Sectors};
use std::alloc::Global;
use std::io::Write;

/// Whether no sector of an image was written.
pub(crate) fn is_blank(image: &MemoryImage) -> bool {
    image
        .sectors()
        .iter()
        .all(|sector| sector.iter().all(|byte| *byte == 0xE5))
}

/// Writes the number of sectors in the image of an empty disk.
pub(crate) fn answer_image<W: Write>(
    alloc: Global,
    out: &mut W,
    kind: DiskKind,
) -> Result<(), anyhow::Error> {
    match MemoryImage::blank(alloc, kind) {
        Ok(image) => Ok(write!(out, "{} sectors", image.len())?),
        Err(fault) => Ok(write!(out, "{fault:?}")?),
    }
}

/// Mounts an empty disk. If memory runs out, it mounts the device that comes back, provided that it is unchanged.
pub(crate) fn mounted(alloc: Global, kind: DiskKind) -> Result<Disk<MemoryImage>, DiskFault> {
    let Ok(image) = MemoryImage::blank(alloc, kind) else {
        return Err(DiskFault::NoMemory);
    };
    let device = match Disk::mount(alloc, image) {
        Ok(disk) => return Ok(disk),
        Err((DiskFault::NoMemory, device)) => device,
        Err((fault, _)) => return Err(fault),
    };
    if !is_blank(&device) {
        return Err(DiskFault::Fault);
    }
    match Disk::mount(alloc, device) {
        Ok(disk) => Ok(disk),
        Err((fault, _)) => Err(fault),
    }
}

/// The number of files that a disk lists. If memory runs out, the disk is asked again.
fn count_of(alloc: Global, disk: &Disk<MemoryImage>) -> Result<usize, DiskFault> {
    match disk.list(alloc) {
        Ok(files) => Ok(files.len()),
        Err(DiskFault::NoMemory) => Ok(disk.list(alloc)?.len()),
        Err(fault) => Err(fault),
    }
}

/// Creates a file on an empty disk, and answers the number of files that the disk lists.
fn listed(alloc: Global, kind: DiskKind) -> Result<usize, DiskFault> {
    let mut disk = mounted(alloc, kind)?;
    let _at = disk.create(0, &Name::new(*b"FILE    TXT"))?;
    count_of(alloc, &disk)
}

/// Creates a file on an empty disk, and writes the number of files that the disk lists.
pub(crate) fn answer_mount<W: Write>(
    alloc: Global,
    out: &mut W,
    kind: DiskKind,
) -> Result<(), anyhow::Error> {
    match listed(alloc, kind) {
        Ok(count) => Ok(write!(out, "{count} listed")?),
        Err(fault) => Ok(write!(out, "{fault:?}")?),
    }
}
