//! The command `dir`.

ghost use Rattle.std.specs.Prelude.{◌≡◌, IfErr, IfOk, IfSome, false, filter, string_bytes};
ghost use Rattle.std.specs.List.{flat_map};
ghost use Rattle.cpm_image.specs.declared.directory.fault.DiskFault.TheVariants as fault;
ghost use Rattle.host.specs.Answers.{MemoryAside};
ghost use Rattle.z80dev_disk.specs.Dir.{IsDir, is_asked, is_named, is_users, dir_line, dir_lines, space_line, usage_text};
ghost use Rattle.z80dev_disk.specs.Disks.{disk_answer};
ghost use Rattle.z80dev_disk.specs.Private.{AreAsked, IsAnswered};
ghost use Rattle.z80dev_disk.specs.Refusals.{IsRefusalOf, RefusesDir};

use crate::image::{answered, disk_of};
use crate::refusal::Refusal;
use crate::shown::{joined, trimmed, when};
use cpm_disk::Disk;
use cpm_image::{DiskFault, Entry, Listed, MemoryImage, RECORD_BYTES, Space, Usage};
use host::Answer;
use std::alloc::{AllocError, Global};

/// Which files are listed, and how.
#[derive(Clone, Copy, Debug)]
pub struct Asked {
    /// Only files of this user; `None` is the files of all users.
    pub user: Option<u8>,
    /// Only files whose names match this pattern; `None` is all names. A byte `?` matches any byte.
    pub pattern: Option<[u8; 11]>,
    /// Whether each line also gives the bytes, directory entries and blocks of its file, and a last line the space that is left.
    pub long: bool,
}

/// Whether a file belongs to the user that is asked for, or no user is asked for.
fn is_users(user: Option<u8>, file: &Listed) -> bool
    ensures { result ≡ is_users user file.now }
{
    match user {
        Some(user) => file.user == user,
        None => true,
    }
}

/// Whether a file's name matches the pattern that is asked for, or no pattern is asked for.
fn is_named(pattern: Option<[u8; 11]>, file: &Listed) -> bool
    ensures { result ≡ is_named pattern file.now }
{
    match pattern {
        Some(pattern) => {
            Entry::new_extent(file.user, file.name.bytes(), 0).is_match(file.user, &pattern)
        }
        None => true,
    }
}

/// Whether a file is of the user and matches the pattern that are asked for.
fn is_asked(user: Option<u8>, pattern: Option<[u8; 11]>, file: &Listed) -> bool
    ensures { result ≡ is_asked user pattern file.now }
{
    is_users(user, file) && is_named(pattern, file)
}

/// Those of these files that are of the user and match the pattern, in their order.
fn chosen(
    alloc: Global,
    files: &[Listed],
    user: Option<u8>,
    pattern: Option<[u8; 11]>,
) -> Result<Vec<Listed>, AllocError>
    ensures { IfOk result (λ chosen. chosen.items ≡ filter (is_asked user pattern) files.now) }
{
    let mut chosen = Vec::new(alloc);
    for file in files {
        if is_asked(user, pattern, file) {
            chosen.push(*file)?;
        }
    }
    Ok(chosen)
}

/// The files of a disk that are asked for, by user and then by name.
pub(crate) fn asked_for(
    alloc: Global,
    disk: &Disk<MemoryImage>,
    user: Option<u8>,
    pattern: Option<[u8; 11]>,
) -> Result<Vec<Listed>, DiskFault>
    requires { disk.now.failed ≡ false }
    ensures files { IfOk result (λ files. AreAsked disk.now.kind disk.now.device user pattern files.items) }
    ensures memory { IfErr result (λ why. why ≡ fault.NoMemory) }
{
    let files = disk.list(alloc)?;
    Ok(chosen(alloc, &files, user, pattern)?)
}

/// How much of the disk a file takes: ` BYTES ENTRIES BLOCKS`.
fn usage_text(alloc: Global, file: &Listed, usage: Usage) -> Result<String, AllocError>
    ensures { IfOk result (λ text. string_bytes text ≡ usage_text file.now usage) }
{
    let bytes = RECORD_BYTES as u64 * u64::from(file.records);
    let entries = usage.entries;
    let blocks = usage.blocks;
    format!(in alloc; " {bytes} {entries} {blocks}")
}

/// The line of a file: `USER NAME.TYP RECORDS`, in a long listing ` BYTES ENTRIES BLOCKS`, then ` RO` if the file is read-only and ` SYS`
/// if it is a system file.
fn line_of(
    alloc: Global,
    disk: &Disk<MemoryImage>,
    long: bool,
    file: &Listed,
) -> Result<Vec<u8>, AllocError>
    requires { disk.now.failed ≡ false }
    ensures { IfOk result (λ line. line.items ≡ dir_line long disk.now.kind disk.now.device file.now) }
{
    let name = file.name.bytes();
    let number = file.user;
    let user = format!(in alloc; "{number} ")?;
    let count = file.records;
    let records = format!(in alloc; " {count}")?;
    let usage = usage_text(alloc, file, disk.usage(file.user, &file.name))?;
    joined(
        alloc,
        &[
            user.as_bytes(),
            trimmed(&name[..8]),
            b".",
            trimmed(&name[8..]),
            records.as_bytes(),
            when(long, usage.as_bytes()),
            when(file.read_only, b" RO"),
            when(file.system, b" SYS"),
            b"\n",
        ],
    )
}

/// The space that is left on a disk: `free: BLOCKS blocks, ENTRIES entries`.
fn space_line(alloc: Global, space: Space) -> Result<String, AllocError>
    ensures { IfOk result (λ line. string_bytes line ≡ space_line space) }
{
    let blocks = space.blocks;
    let entries = space.entries;
    format!(in alloc; "free: {blocks} blocks, {entries} entries\n")
}

/// The lines of these files, one after the other.
fn lines_of(
    alloc: Global,
    disk: &Disk<MemoryImage>,
    long: bool,
    files: &[Listed],
) -> Result<Vec<u8>, AllocError>
    requires { disk.now.failed ≡ false }
    ensures { IfOk result (λ lines. lines.items ≡ flat_map (dir_line long disk.now.kind disk.now.device) files.now) }
{
    let mut lines = Vec::new(alloc);
    for file in files {
        lines.extend_from_slice(&line_of(alloc, disk, long, file)?)?;
    }
    Ok(lines)
}

/// The lines of these files, and in a long listing the line with the space that is left.
fn listing(
    alloc: Global,
    disk: &Disk<MemoryImage>,
    long: bool,
    files: &[Listed],
) -> Result<Vec<u8>, AllocError>
    requires { disk.now.failed ≡ false }
    ensures { IfOk result (λ lines. lines.items ≡ dir_lines long disk.now.kind disk.now.device files.now) }
{
    let mut lines = lines_of(alloc, disk, long, files)?;
    let last = space_line(alloc, disk.space())?;
    lines.extend_from_slice(when(long, last.as_bytes()))?;
    Ok(lines)
}

/// The listing of the files of an image that are asked for; or why the command is refused.
fn listed(alloc: Global, image: &[u8], asked: &Asked) -> Result<Answer<Refusal>, Refusal>
    ensures { IsAnswered (RefusesDir asked.now.pattern) (IsDir image.now asked.now) result }
{
    let disk = disk_of(alloc, image)?;
    let files = asked_for(alloc, &disk, asked.user, asked.pattern)?;
    if let Some(pattern) = asked.pattern
        && files.is_empty()
    {
        return Err(Refusal::Named(DiskFault::NotFound, pattern));
    }
    let lines = listing(alloc, &disk, asked.long, &files)?;
    Ok(Answer::done(Vec::new(alloc), lines))
}

/// Lists the files of an image that are asked for, by user and then by name, with a line for each: `USER NAME.TYP RECORDS`, then ` RO` if
/// it is read-only and ` SYS` if it is a system file. Blanks at the end of the name and of the type are left out; the point is always
/// there. In a long listing ` BYTES ENTRIES BLOCKS` follows the records, and the last line is `free: BLOCKS blocks, ENTRIES entries`.
///
/// Refused, in this order: [`ImageFault`](crate::ImageFault) if the bytes are not an image; the first fault of the directory;
/// [`DiskFault::NotFound`], with the pattern, if a pattern is given and no file matches.
pub fn dir(alloc: Global, image: &[u8], asked: &Asked) -> Answer<Refusal>
    ensures answer { MemoryAside (IsDir image.now asked.now) (disk_answer result) }
    ensures refusals { IfSome result.refusal (IsRefusalOf (RefusesDir asked.now.pattern)) }
{
    answered(alloc, listed(alloc, image, asked))
}
