//! Puts files on a disk.

ghost use Rattle.std.specs.Prelude.{◌≡◌, ◌<◌, ◌≤◌, All, IfErr, MatchOption, OnOk, drop, false, length, map, take, true};
ghost use Rattle.cpm_image.specs.declared.directory.entry.TheConstants.{USERS};
ghost use Rattle.cpm_disk.specs.Files.{IsFile, OthersAreSame};
ghost use Rattle.cpm_disk.specs.Image.{directory};
ghost use Rattle.cpm_image.specs.Directory.Searches.{is_file};
ghost use Rattle.cpm_image.specs.declared.directory.fault.DiskFault.TheVariants as fault;
ghost use Rattle.z80dev_disk.specs.Along.{Along, IsRefusedAlong};
ghost use Rattle.z80dev_disk.specs.Private.{IsRefusedAt};
ghost use Rattle.z80dev_disk.specs.Put.{IsPutImage, IsStopped, IsStored, LacksRoom, MakesRoom, PutsOne, StopsOne, named_file, padded_record, is_replaced, name_of_file};
ghost use Rattle.z80dev_disk.specs.Refusals.{IsRefusalOf, RefusesPut, WithName};
ghost use Rattle.z80dev_disk.specs.Words.{is_wild};

use crate::entries::{has_names, of_any_extent};
use crate::image::{disk_of, image_bytes};
use crate::refusal::Refusal;
use cpm_disk::Disk;
use cpm_image::{DiskFault, MemoryImage, Name, RECORD_BYTES};
use std::alloc::Global;

/// Pads the last record of a file. CP/M takes it as the end of a text.
const FILL: u8 = 0x1A;

/// A file to put on a disk.
#[derive(Clone, Copy, Debug)]
pub struct PutFile<'a> {
    /// The name of the file on the disk.
    pub name: Name,
    pub bytes: &'a [u8],
}

/// A record that begins with these bytes and is padded with 1AH.
fn filled(piece: &[u8]) -> [u8; RECORD_BYTES]
    requires { length piece.now ≤ RECORD_BYTES }
    ensures { result ≡ padded_record piece.now }
{
    let mut record = [FILL; RECORD_BYTES];
    record[..piece.len()].copy_from_slice(piece);
    record
}

/// Divides the rest of a file into its first record, which may be shorter than 128 bytes, and what follows; `None` if nothing is left.
fn cut(rest: &[u8]) -> Option<(&[u8], &[u8])>
    ensures { MatchOption result (length rest.now ≡ 0) (λ parts. (0 < length rest.now) × (length parts.0.now ≤ RECORD_BYTES) × (parts.0.now ≡ take RECORD_BYTES rest.now) × (parts.1.now ≡ drop RECORD_BYTES rest.now)) }
{
    if rest.is_empty() {
        return None;
    }
    Some(rest.split_at(rest.len().min(RECORD_BYTES)))
}

/// Creates a file and writes its records, one after the other.
fn store(disk: &mut Disk<MemoryImage>, user: u8, name: &Name, file: &[u8]) -> Result<(), DiskFault>
    requires sound { disk.old.failed ≡ false }
    requires user { user < USERS }
    ensures kind { disk.new.kind ≡ disk.old.kind }
    ensures sound { OnOk result (disk.new.failed ≡ false) }
    ensures stored { OnOk result (IsStored disk.old.kind disk.old.device disk.new.device user name.now file.now) }
    ensures stopped { IfErr result (IsStopped disk.old.kind disk.old.device user name.now file.now) }
    ensures exists { IfErr result (λ why. why ≡ fault.Exists → is_file user name.now (directory disk.old.kind disk.old.device) ≡ true) }
{
    disk.create(user, name)?;
    let mut number = 0;
    let mut rest = file;
    while let Some((piece, behind)) = cut(rest) {
        disk.write_block_of(user, name, number, &filled(piece))?;
        number += 1;
        rest = behind;
    }
    Ok(())
}

/// Whether the user has a file of this name that has to be erased first.
fn is_replaced(disk: &Disk<MemoryImage>, user: u8, replace: bool, name: &Name) -> bool
    requires { disk.now.failed ≡ false }
    ensures { result ≡ is_replaced user replace name.now (directory disk.now.kind disk.now.device) }
{
    replace && disk.size(user, name).is_some()
}

/// Erases the user's file of this name, if there is one and it is to be replaced.
fn make_room(
    disk: &mut Disk<MemoryImage>,
    user: u8,
    replace: bool,
    name: &Name,
) -> Result<(), DiskFault>
    requires sound { disk.old.failed ≡ false }
    requires user { user < USERS }
    requires plain { is_wild name.now ≡ false }
    ensures kind { disk.new.kind ≡ disk.old.kind }
    ensures sound { OnOk result (disk.new.failed ≡ false) }
    ensures made { OnOk result (MakesRoom (is_replaced user replace name.now (directory disk.old.kind disk.old.device)) disk.old.kind user name.now disk.old.device disk.new.device) }
    ensures others { OnOk result (OthersAreSame disk.old.kind disk.old.device disk.new.device (IsFile user name.now)) }
    ensures gone { OnOk result (replace ≡ true → is_file user name.now (directory disk.old.kind disk.new.device) ≡ false) }
    ensures lacks { IfErr result (LacksRoom (is_replaced user replace name.now (directory disk.old.kind disk.old.device)) disk.old.kind user name.now disk.old.device) }
{
    if !is_replaced(disk, user, replace, name) {
        return Ok(());
    }
    // A law: all names have eleven bytes, so a name without `?` matches no other name, and the call below erases only this file.
    has_names(disk);
    disk.erase(user, &of_any_extent(&name.bytes()))?;
    Ok(())
}

/// Puts one file on the disk, after it erases the file that it replaces.
fn put_file(
    disk: &mut Disk<MemoryImage>,
    user: u8,
    replace: bool,
    file: &PutFile<'_>,
) -> Result<(), DiskFault>
    requires sound { disk.old.failed ≡ false }
    requires user { user < USERS }
    requires plain { is_wild file.now.name ≡ false }
    ensures kind { disk.new.kind ≡ disk.old.kind }
    ensures sound { OnOk result (disk.new.failed ≡ false) }
    ensures put { OnOk result (PutsOne disk.old.kind user replace (named_file file.now) disk.old.device disk.new.device) }
    ensures stopped { IfErr result (StopsOne disk.old.kind user replace (named_file file.now) disk.old.device) }
    ensures refusals { IfErr result (RefusesPut replace) }
{
    make_room(disk, user, replace, &file.name)?;
    store(disk, user, &file.name, file.bytes)
}

/// Puts one file on the disk, and adds the file's name to a refusal.
fn put_one(
    disk: &mut Disk<MemoryImage>,
    user: u8,
    replace: bool,
    file: &PutFile<'_>,
) -> Result<(), Refusal>
    requires sound { disk.old.failed ≡ false }
    requires user { user < USERS }
    requires plain { is_wild file.now.name ≡ false }
    ensures kind { disk.new.kind ≡ disk.old.kind }
    ensures sound { OnOk result (disk.new.failed ≡ false) }
    ensures put { OnOk result (PutsOne disk.old.kind user replace (named_file file.now) disk.old.device disk.new.device) }
    ensures stopped { IfErr result (IsRefusedAt (StopsOne disk.old.kind user replace) name_of_file (named_file file.now) disk.old.device) }
    ensures refusals { IfErr result (WithName (RefusesPut replace)) }
{
    match put_file(disk, user, replace, file) {
        Ok(()) => Ok(()),
        Err(why) => Err(Refusal::Named(why, file.name.bytes())),
    }
}

/// Puts these files on the disk, one after the other, until one is refused.
fn put_all(
    disk: &mut Disk<MemoryImage>,
    user: u8,
    replace: bool,
    files: &[PutFile<'_>],
) -> Result<(), Refusal>
    requires sound { disk.old.failed ≡ false }
    requires user { user < USERS }
    requires plain { All (λ f. is_wild f.name ≡ false) files.now }
    ensures put { OnOk result (Along (PutsOne disk.old.kind user replace) (map named_file files.now) disk.old.device disk.new.device) }
    ensures stopped { IfErr result (IsRefusedAlong (PutsOne disk.old.kind user replace) (StopsOne disk.old.kind user replace) name_of_file (map named_file files.now) disk.old.device) }
    ensures refusals { IfErr result (WithName (RefusesPut replace)) }
{
    for file in files {
        put_one(disk, user, replace, file)?;
    }
    Ok(())
}

/// Answers the image with these files of a user added, one after the other. The last record of each is padded with 1AH. With `replace`, a
/// file of the same name is erased first.
///
/// # Errors
///
/// In this order: [`ImageFault`](crate::ImageFault) if the bytes are not an image; the first fault of the directory; then for each file
/// in turn, with its name: [`DiskFault::ReadOnly`] if it would replace a read-only file, [`DiskFault::Exists`] if the user has a file of
/// this name and `replace` is false, [`DiskFault::DirectoryFull`]; and for each of its records [`DiskFault::TooFar`],
/// [`DiskFault::DirectoryFull`], [`DiskFault::DiskFull`]. [`Refusal::NoMemory`].
pub fn put(
    alloc: Global,
    image: &[u8],
    user: u8,
    replace: bool,
    files: &[PutFile<'_>],
) -> Result<Vec<u8>, Refusal>
    requires user { user < USERS }
    requires names { All (λ f. is_wild f.name ≡ false) files.now }
    ensures answer { IsPutImage image.now user replace (map named_file files.now) result }
    ensures refusals { IfErr result (IsRefusalOf (WithName (RefusesPut replace))) }
{
    let mut disk = disk_of(alloc, image)?;
    put_all(&mut disk, user, replace, files)?;
    Ok(image_bytes(alloc, &disk.unmount())?)
}
