//! Mounts the bytes of an image as a disk, and makes the bytes and answers that a command gives back.

ghost use Rattle.std.specs.Prelude.{◌≡◌, IfOk};
ghost use Rattle.std.specs.List.{concat};
ghost use Rattle.cpm_image.specs.Image.{blank_image};
ghost use Rattle.z80dev_disk.specs.Disks.{IsMounted, disk_answer, one_file};
ghost use Rattle.z80dev_disk.specs.Private.{answer_at, refusal_at};

use crate::refusal::Refusal;
use cpm_disk::Disk;
use cpm_image::{DiskKind, MemoryImage};
use host::{Answer, Kind, NewFile};
use std::alloc::{AllocError, Global};

/// Mounts the image that these bytes are.
///
/// # Errors
///
/// In this order: [`ImageFault`](crate::ImageFault) if the bytes are not an image; the first fault of the directory.
pub fn disk_of(alloc: Global, bytes: &[u8]) -> Result<Disk<MemoryImage>, Refusal>
    ensures { IsMounted bytes.now result }
{
    let image = MemoryImage::from_bytes(alloc, bytes)?;
    match Disk::mount(alloc, image) {
        Ok(disk) => Ok(disk),
        Err((fault, _)) => Err(Refusal::from(fault)),
    }
}

/// An answer that writes one file with these bytes and prints nothing.
pub fn one_file(alloc: Global, bytes: Vec<u8>) -> Result<Answer<Refusal>, AllocError>
    ensures { IfOk result (λ answer. disk_answer answer ≡ one_file bytes.items) }
{
    let mut files = Vec::with_capacity(alloc, 1)?;
    files.push(NewFile {
        kind: Kind::Given,
        bytes,
    })?;
    Ok(Answer::done(files, Vec::new(alloc)))
}

/// The bytes of an image, sector after sector.
pub(crate) fn image_bytes(alloc: Global, image: &MemoryImage) -> Result<Vec<u8>, AllocError>
    ensures { IfOk result (λ bytes. bytes.items ≡ concat image.now) }
{
    Vec::from_slice(alloc, image.sectors().as_flattened())
}

/// The answer of a command; a refusal becomes an answer that writes and prints nothing and has this refusal.
pub(crate) fn answered(alloc: Global, answer: Result<Answer<Refusal>, Refusal>) -> Answer<Refusal>
    ensures answer { disk_answer result ≡ answer_at answer }
    ensures refusal { result.refusal ≡ refusal_at answer }
{
    match answer {
        Ok(answer) => answer,
        Err(refusal) => Answer::refused(alloc, refusal),
    }
}

/// The image of an empty disk of a format: 256,256 or 1,048,576 bytes, all E5H.
pub fn blank(alloc: Global, kind: DiskKind) -> Result<Vec<u8>, AllocError>
    ensures { IfOk result (λ bytes. bytes.items ≡ concat (blank_image kind)) }
{
    match MemoryImage::blank(alloc, kind) {
        Ok(image) => image_bytes(alloc, &image),
        Err(_) => Err(AllocError),
    }
}
