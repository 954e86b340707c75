//! Erases, renames and marks files of a disk.

ghost use Rattle.std.specs.Prelude.{◌≡◌, ◌<◌, IfErr, OnOk, false};
ghost use Rattle.cpm_image.specs.declared.directory.entry.TheConstants.{USERS};
ghost use Rattle.cpm_disk.specs.Refusals.{RefusesErasure, RefusesMarking, RefusesRenaming};
ghost use Rattle.z80dev_disk.specs.Along.{Along, IsRefusedAlong};
ghost use Rattle.z80dev_disk.specs.Changes.{Erases, IsErasedImage, IsMarkedImage, IsRenamedImage, Marks, StopsErasing, StopsMarking, refused_name, pattern_itself};
ghost use Rattle.z80dev_disk.specs.Private.{IsRefusedAt};
ghost use Rattle.z80dev_disk.specs.Refusals.{IsRefusalOf, WithName, WithoutName};

use crate::entries::{of_any_extent, read_only_name};
use crate::image::{disk_of, image_bytes};
use crate::refusal::Refusal;
use cpm_disk::Disk;
use cpm_image::{Attribute, DiskFault, MemoryImage, Name};
use std::alloc::Global;

/// The name that is reported with a refusal: for a read-only file the name in the first matching entry that is read-only, otherwise the
/// pattern.
fn named_by(disk: &Disk<MemoryImage>, user: u8, pattern: &[u8; 11], why: DiskFault) -> [u8; 11]
    requires { disk.now.failed ≡ false }
    ensures { result ≡ refused_name disk.now.kind user pattern.now disk.now.device why }
{
    match why {
        DiskFault::ReadOnly => read_only_name(disk, user, pattern),
        _ => *pattern,
    }
}

/// Erases the files of a user that match a pattern.
fn erase_one(disk: &mut Disk<MemoryImage>, user: u8, pattern: &[u8; 11]) -> Result<(), Refusal>
    requires sound { disk.old.failed ≡ false }
    requires user { user < USERS }
    ensures kind { disk.new.kind ≡ disk.old.kind }
    ensures sound { OnOk result (disk.new.failed ≡ false) }
    ensures erased { OnOk result (Erases disk.old.kind user pattern.now disk.old.device disk.new.device) }
    ensures stopped { IfErr result (IsRefusedAt (StopsErasing disk.old.kind user) (refused_name disk.old.kind user) pattern.now disk.old.device) }
    ensures refusals { IfErr result (WithName RefusesErasure) }
{
    match disk.erase(user, &of_any_extent(pattern)) {
        Ok(_) => Ok(()),
        Err(why) => Err(Refusal::Named(why, named_by(disk, user, pattern, why))),
    }
}

/// Erases the files of a user that match each pattern, one pattern after the other, until one is refused.
fn erase_all(disk: &mut Disk<MemoryImage>, user: u8, patterns: &[[u8; 11]]) -> Result<(), Refusal>
    requires sound { disk.old.failed ≡ false }
    requires user { user < USERS }
    ensures erased { OnOk result (Along (Erases disk.old.kind user) patterns.now disk.old.device disk.new.device) }
    ensures stopped { IfErr result (IsRefusedAlong (Erases disk.old.kind user) (StopsErasing disk.old.kind user) (refused_name disk.old.kind user) patterns.now disk.old.device) }
    ensures refusals { IfErr result (WithName RefusesErasure) }
{
    for pattern in patterns {
        erase_one(disk, user, pattern)?;
    }
    Ok(())
}

/// Answers the image without the files of a user that match these patterns, which it takes one after the other. A byte `?` of a pattern
/// matches any byte.
///
/// # Errors
///
/// In this order: [`ImageFault`](crate::ImageFault) if the bytes are not an image; the first fault of the directory; then for each
/// pattern in turn [`DiskFault::NotFound`], with the pattern, if it matches none of the files that are left, and [`DiskFault::ReadOnly`],
/// with the name in the first matching entry that is read-only. [`Refusal::NoMemory`].
pub fn erase(
    alloc: Global,
    image: &[u8],
    user: u8,
    patterns: &[[u8; 11]],
) -> Result<Vec<u8>, Refusal>
    requires { user < USERS }
    ensures answer { IsErasedImage image.now user patterns.now result }
    ensures refusals { IfErr result (IsRefusalOf (WithName RefusesErasure)) }
{
    let mut disk = disk_of(alloc, image)?;
    erase_all(&mut disk, user, patterns)?;
    Ok(image_bytes(alloc, &disk.unmount())?)
}

/// Answers the image with one file of a user renamed.
///
/// # Errors
///
/// In this order: [`ImageFault`](crate::ImageFault) if the bytes are not an image; the first fault of the directory;
/// [`DiskFault::NotFound`]; [`DiskFault::Exists`] if the user has a file of the new name; [`DiskFault::ReadOnly`]. None of the last three
/// has a name with it. [`Refusal::NoMemory`].
pub fn rename(
    alloc: Global,
    image: &[u8],
    user: u8,
    old: &Name,
    new: &Name,
) -> Result<Vec<u8>, Refusal>
    requires { user < USERS }
    ensures answer { IsRenamedImage image.now user old.now new.now result }
    ensures refusals { IfErr result (IsRefusalOf (WithoutName RefusesRenaming)) }
{
    let mut disk = disk_of(alloc, image)?;
    disk.rename(user, old, new)?;
    Ok(image_bytes(alloc, &disk.unmount())?)
}

/// Sets or clears an attribute of the files of a user that match a pattern.
fn mark_one(
    disk: &mut Disk<MemoryImage>,
    user: u8,
    attribute: Attribute,
    on: bool,
    pattern: &[u8; 11],
) -> Result<(), Refusal>
    requires sound { disk.old.failed ≡ false }
    requires user { user < USERS }
    ensures kind { disk.new.kind ≡ disk.old.kind }
    ensures sound { OnOk result (disk.new.failed ≡ false) }
    ensures marked { OnOk result (Marks disk.old.kind user attribute on pattern.now disk.old.device disk.new.device) }
    ensures stopped { IfErr result (IsRefusedAt (StopsMarking disk.old.kind user) pattern_itself pattern.now disk.old.device) }
    ensures refusals { IfErr result (WithName RefusesMarking) }
{
    match disk.mark(user, &of_any_extent(pattern), attribute, on) {
        Ok(_) => Ok(()),
        Err(why) => Err(Refusal::Named(why, *pattern)),
    }
}

/// Sets or clears an attribute of the files of a user that match each pattern, one pattern after the other, until one is refused.
fn mark_all(
    disk: &mut Disk<MemoryImage>,
    user: u8,
    attribute: Attribute,
    on: bool,
    patterns: &[[u8; 11]],
) -> Result<(), Refusal>
    requires sound { disk.old.failed ≡ false }
    requires user { user < USERS }
    ensures marked { OnOk result (Along (Marks disk.old.kind user attribute on) patterns.now disk.old.device disk.new.device) }
    ensures stopped { IfErr result (IsRefusedAlong (Marks disk.old.kind user attribute on) (StopsMarking disk.old.kind user) pattern_itself patterns.now disk.old.device) }
    ensures refusals { IfErr result (WithName RefusesMarking) }
{
    for pattern in patterns {
        mark_one(disk, user, attribute, on, pattern)?;
    }
    Ok(())
}

/// Answers the image with an attribute of the files of a user that match these patterns set, or cleared if `on` is false. The attributes
/// of a read-only file may be changed too.
///
/// # Errors
///
/// In this order: [`ImageFault`](crate::ImageFault) if the bytes are not an image; the first fault of the directory; then for each
/// pattern in turn [`DiskFault::NotFound`], with the pattern, if no file matches it. [`Refusal::NoMemory`].
pub fn mark(
    alloc: Global,
    image: &[u8],
    user: u8,
    attribute: Attribute,
    on: bool,
    patterns: &[[u8; 11]],
) -> Result<Vec<u8>, Refusal>
    requires { user < USERS }
    ensures answer { IsMarkedImage image.now user attribute on patterns.now result }
    ensures refusals { IfErr result (IsRefusalOf (WithName RefusesMarking)) }
{
    let mut disk = disk_of(alloc, image)?;
    mark_all(&mut disk, user, attribute, on, patterns)?;
    Ok(image_bytes(alloc, &disk.unmount())?)
}
