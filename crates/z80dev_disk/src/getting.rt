//! Copies files from a disk.

ghost use Rattle.std.specs.Prelude.{◌≡◌, ◌<◌, ◌≤◌, All, IfErr, IfOk, IfSome, false, find, map, not, option_map, unwrap_or};
ghost use Rattle.cpm_image.specs.Kind.{file_records};
ghost use Rattle.cpm_image.specs.declared.directory.entry.TheConstants.{USERS};
ghost use Rattle.cpm_image.specs.Directory.Searches.{size};
ghost use Rattle.cpm_disk.specs.Image.{directory};
ghost use Rattle.host.specs.Answers.{MemoryAside};
ghost use Rattle.z80dev_disk.specs.Disks.{disk_answer};
ghost use Rattle.z80dev_disk.specs.Get.{IsGet, IsGetAll, as_asked, copied_record, copied_below, gotten, host_file, refusal_of};
ghost use Rattle.z80dev_disk.specs.Names.{is_host_name};
ghost use Rattle.z80dev_disk.specs.Private.{IsAnswered};
ghost use Rattle.z80dev_disk.specs.Refusals.{IsNotFound, IsRefusalOf, RefusesGetAll, WithoutName};
ghost use Rattle.z80dev_disk.specs.declared.refusal.Refusal.TheVariants as refusal;

use crate::image::{answered, disk_of, one_file};
use crate::listing::asked_for;
use crate::refusal::Refusal;
use crate::shown::{HostName, is_host_name};
use crate::text::host_text;
use cpm_disk::Disk;
use cpm_image::{DiskFault, Listed, MemoryImage, Name, RECORD_BYTES};
use host::Answer;
use std::alloc::{AllocError, Global};

/// A file of a disk, ready to be written on the host.
#[derive(Debug, Drop)]
pub struct Gotten {
    /// Its name on the host: `NAME`, or `NAME.TYP`.
    pub name: String,
    pub bytes: Vec<u8>,
}

/// A record of a user's file, or 128 zeros if the file has no such record.
fn copied(disk: &mut Disk<MemoryImage>, user: u8, name: &Name, number: u32) -> [u8; RECORD_BYTES]
    requires sound { disk.old.failed ≡ false }
    requires user { user < USERS }
    requires within { number < file_records disk.old.kind }
    ensures bytes { result ≡ copied_record disk.old.kind disk.old.device user name.now number }
    ensures same { disk.new ≡ disk.old }
{
    match disk.read_block_of(user, name, number) {
        Ok(bytes) => bytes,
        Err(_) => [0; RECORD_BYTES],
    }
}

/// The first `count` records of a user's file, one after the other, with zeros for a record that the file does not have.
fn copied_below(
    alloc: Global,
    disk: &mut Disk<MemoryImage>,
    user: u8,
    name: &Name,
    count: u32,
) -> Result<Vec<u8>, AllocError>
    requires sound { disk.old.failed ≡ false }
    requires user { user < USERS }
    requires within { count ≤ file_records disk.old.kind }
    ensures bytes { IfOk result (λ bytes. bytes.items ≡ copied_below disk.old.kind disk.old.device user name.now count) }
    ensures same { disk.new ≡ disk.old }
{
    let mut bytes = Vec::new(alloc);
    for number in 0..count {
        bytes.extend_from_slice(&copied(disk, user, name, number))?;
    }
    Ok(bytes)
}

/// These bytes, or if a text is asked for, the text in them in the host's form.
fn as_asked(alloc: Global, text: bool, bytes: Vec<u8>) -> Result<Vec<u8>, AllocError>
    ensures { IfOk result (λ made. made.items ≡ as_asked text bytes.items) }
{
    if text {
        return host_text(alloc, &bytes);
    }
    Ok(bytes)
}

/// A file of an image; or why the command is refused.
fn got(
    alloc: Global,
    image: &[u8],
    user: u8,
    name: &Name,
    text: bool,
) -> Result<Answer<Refusal>, Refusal>
    requires { user < USERS }
    ensures { IsAnswered (WithoutName IsNotFound) (IsGet image.now user name.now text) result }
{
    let mut disk = disk_of(alloc, image)?;
    let Some(count) = disk.size(user, name) else {
        return Err(Refusal::Disk(DiskFault::NotFound));
    };
    let bytes = copied_below(alloc, &mut disk, user, name, count)?;
    Ok(one_file(alloc, as_asked(alloc, text, bytes)?)?)
}

/// Answers a file of a user from the disk whose image these bytes are: all its records below its size, with zeros for one that was never
/// written. With `text`, the answer is only what comes before the first 1AH, without the CR before each LF.
///
/// Refused, in this order: [`ImageFault`](crate::ImageFault) if the bytes are not an image; the first fault of the directory;
/// [`DiskFault::NotFound`].
pub fn get(alloc: Global, image: &[u8], user: u8, name: &Name, text: bool) -> Answer<Refusal>
    requires { user < USERS }
    ensures answer { MemoryAside (IsGet image.now user name.now text) (disk_answer result) }
    ensures refusals { IfSome result.refusal (IsRefusalOf (WithoutName IsNotFound)) }
{
    answered(alloc, got(alloc, image, user, name, text))
}

/// A refusal with the first name in this list that the host cannot take; `None` if it can take all.
fn bad_file(files: &[Listed]) -> Option<Refusal>
    ensures { result ≡ option_map (λ f. refusal.BadFile f.name) (find (λ f. not (is_host_name f.name)) files.now) }
{
    for file in files {
        let name = file.name.bytes();
        if !is_host_name(&name) {
            return Some(Refusal::BadFile(name));
        }
    }
    None
}

/// Why these files, which match a pattern, are not copied: there are none, or the host cannot take the name of one. `None` if nothing is
/// wrong.
fn refusal_of(pattern: &[u8; 11], files: &[Listed]) -> Option<Refusal>
    ensures reason { result ≡ refusal_of pattern.now files.now }
    ensures refusals { IfSome result (RefusesGetAll pattern.now) }
{
    if files.is_empty() {
        return Some(Refusal::Named(DiskFault::NotFound, *pattern));
    }
    bad_file(files)
}

/// Copies a file of a listing, and gives it its name on the host.
fn file_for_host(
    alloc: Global,
    disk: &mut Disk<MemoryImage>,
    text: bool,
    file: &Listed,
) -> Result<Gotten, AllocError>
    requires sound { disk.old.failed ≡ false }
    requires user { file.now.user < USERS }
    requires records { file.now.records ≡ unwrap_or (size file.now.user file.now.name (directory disk.old.kind disk.old.device)) 0 }
    ensures file { IfOk result (λ made. host_file made ≡ gotten text disk.old.kind disk.old.device file.now) }
    ensures same { disk.new ≡ disk.old }
{
    let count = disk.size(file.user, &file.name).unwrap_or(0);
    let bytes = copied_below(alloc, disk, file.user, &file.name, count)?;
    let shown = HostName {
        name: file.name.bytes(),
    };
    Ok(Gotten {
        name: format!(in alloc; "{shown}")?,
        bytes: as_asked(alloc, text, bytes)?,
    })
}

/// Copies the files of a listing, each with its name on the host.
fn files_for_host(
    alloc: Global,
    disk: &mut Disk<MemoryImage>,
    text: bool,
    files: &[Listed],
) -> Result<Vec<Gotten>, AllocError>
    requires sound { disk.old.failed ≡ false }
    requires listed { All (λ file. (file.user < USERS) × (file.records ≡ unwrap_or (size file.user file.name (directory disk.old.kind disk.old.device)) 0)) files.now }
    ensures { IfOk result (λ made. map host_file made.items ≡ map (gotten text disk.old.kind disk.old.device) files.now) }
{
    let mut made = Vec::new(alloc);
    for file in files {
        made.push(file_for_host(alloc, disk, text, file)?)?;
    }
    Ok(made)
}

/// Answers every file of a user that matches a pattern, in the order of their names, each with its name on the host. The image is given
/// by its bytes. A byte `?` of the pattern matches any byte. The bytes of a file are those that [`get`] answers.
///
/// # Errors
///
/// In this order: [`ImageFault`](crate::ImageFault) if the bytes are not an image; the first fault of the directory;
/// [`DiskFault::NotFound`], with the pattern, if no file matches; [`Refusal::BadFile`] with the first name that the host cannot take: one
/// that is blank, or has a byte outside 20H to 7EH, a `/` or a point. [`Refusal::NoMemory`].
pub fn get_all(
    alloc: Global,
    image: &[u8],
    user: u8,
    pattern: &[u8; 11],
    text: bool,
) -> Result<Vec<Gotten>, Refusal>
    ensures answer { IsGetAll image.now user pattern.now text result }
    ensures refusals { IfErr result (IsRefusalOf (RefusesGetAll pattern.now)) }
{
    let mut disk = disk_of(alloc, image)?;
    let files = asked_for(alloc, &disk, Some(user), Some(*pattern))?;
    if let Some(why) = refusal_of(pattern, &files) {
        return Err(why);
    }
    Ok(files_for_host(alloc, &mut disk, text, &files)?)
}
