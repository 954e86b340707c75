//! Copies an image in memory.

ghost use Rattle.std.specs.Prelude.{◌≡◌, IfOk, length};
ghost use Rattle.cpm_image.specs.Kind.{sector_count};

use cpm_image::{DiskKind, MemoryImage, Sectors};
use std::alloc::{AllocError, Global};

/// A copy of the image of a disk of this format.
pub(crate) fn image_copied(
    alloc: Global,
    kind: DiskKind,
    image: &MemoryImage,
) -> Result<MemoryImage, AllocError>
    requires { length image.now ≡ sector_count kind }
    ensures { IfOk result (λ copy. copy ≡ image.now) }
{
    let Ok(mut copy) = MemoryImage::blank(alloc, kind) else {
        return Err(AllocError);
    };
    let sectors = image.sectors();
    for (number, sector) in sectors.iter().enumerate() {
        let _ = copy.write(number as u32, sector);
    }
    Ok(copy)
}
