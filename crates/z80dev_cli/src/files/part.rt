//! A file that is written beside the one whose place it is to take.

ghost use Rattle.std.specs.Prelude.{◌≡◌, IfOk, OnOk, false, true, string_bytes};
ghost use Rattle.host.specs.declared.files.Placed.TheVariants.{Done};
ghost use Rattle.z80dev_cli.specs.Host.{held_lock};

use crate::files::lock::{HeldLock, Names, is_same};
use arrayvec::ArrayString;
use host::{Placed, WatchedSink, WriteFailed, put};
use std::fmt::{self, Write};
use std::fs::{self, File, Metadata, OpenOptions};
use std::io::{self, ErrorKind};
use std::os::unix::fs::{MetadataExt, OpenOptionsExt, fchown};
use std::path::Path;

/// How many parts may lie beside a file, left by commands that were killed or of commands that have not ended.
const PARTS: u32 = 100;

/// The permissions of a new file: what `umask` leaves of these; and of a part that takes the place of a file, until it has those of that file.
const COMMON: u32 = 0o666;

const PRIVATE: u32 = 0o600;

/// How many bytes of the name of a file its part has before `.part` and two digits.
const NAME_LIMIT: usize = 248;

/// A path of any length that the system takes, for which no memory is asked.
type PartPath = ArrayString<4096>;

/// Where the bytes were written.
#[derive(Drop)]
enum Place {
    /// To a new file beside the target.
    Beside(PartPath),
    /// To the target itself, which is a device or a pipe.
    There,
}

/// A file that is written beside the one whose place it is to take.
#[derive(Drop)]
pub(crate) struct Part {
    pub(crate) names: Names,
    place: Place,
    file: File,
    pub(crate) is_synced: bool,
}

impl Part {
    ghost use Rattle.std.specs.Prelude.{◌≡◌, IfOk, OnOk, true};
    ghost use Rattle.host.specs.declared.files.Placed.TheVariants.{Exists};

    /// Waits until the bytes have reached the device.
    pub(crate) fn sync(&mut self) -> Result<(), WriteFailed>
        ensures { OnOk result (self.new ≡ record self.old { is_synced = true }) }
    {
        match self.file.sync_all() {
            Ok(()) => {}
            // A pipe or a terminal has nothing to sync.
            Err(error) if matches!(self.place, Place::There) && cannot_sync(&error) => {}
            Err(_) => return Err(WriteFailed),
        }
        self.is_synced = true;
        Ok(())
    }

    /// Gives the bytes up.
    pub(crate) fn discard(self, rt: &HostRuntime) {
        if let Place::Beside(part) = &self.place {
            let _ = fs::remove_file(rt, part.as_str());
        }
    }

    /// Gives the bytes the path of the target; with `keep`, only if there is no file.
    pub(crate) fn put_in_place(self, rt: &HostRuntime, keep: bool) -> Result<Placed, WriteFailed>
        ensures { IfOk result (λ p. p ≡ Exists → keep ≡ true) }
    {
        let Part {
            names,
            place,
            file,
            ..
        } = self;
        let Place::Beside(part) = place else {
            return Ok(Placed::Done);
        };
        let part = part.as_str();
        // Another program may have taken the name of the part meanwhile.
        if !is_same(rt, &file, part) {
            return Err(WriteFailed);
        }
        let placed = if keep {
            link_part(rt, part, &names.target)
        } else {
            rename_part(rt, part, &names.target)
        };
        if placed.is_ok() && sync_folder(rt, &names.target).is_err() {
            return Err(WriteFailed);
        }
        placed
    }
}

/// Gives a part the path of its target, in place of a file that is there.
fn rename_part(rt: &HostRuntime, part: &str, target: &str) -> Result<Placed, WriteFailed>
    ensures { IfOk result (λ p. p ≡ Done) }
{
    if fs::rename(rt, part, target).is_ok() {
        return Ok(Placed::Done);
    }
    let _ = fs::remove_file(rt, part);
    Err(WriteFailed)
}

/// Gives a part the path of its target, unless there is a file. A new link fails if there is one, even one that came this moment; a file
/// system without links is asked first.
fn link_part(rt: &HostRuntime, part: &str, target: &str) -> Result<Placed, WriteFailed> {
    match fs::hard_link(rt, part, target) {
        Ok(()) => {
            let _ = fs::remove_file(rt, part);
            Ok(Placed::Done)
        }
        Err(error) if error.kind() == ErrorKind::AlreadyExists => {
            let _ = fs::remove_file(rt, part);
            Ok(Placed::Exists)
        }
        Err(_) if fs::symlink_metadata(rt, target).is_ok() => {
            let _ = fs::remove_file(rt, part);
            Ok(Placed::Exists)
        }
        Err(_) => rename_part(rt, part, target),
    }
}

/// Waits until a new name of a file in its folder has reached the device. Some file systems cannot sync a folder; that is no error.
fn sync_folder(rt: &HostRuntime, target: &str) -> Result<(), WriteFailed> {
    let folder = match Path::new(target).parent() {
        Some(folder) if !folder.as_str().is_empty() => folder.as_str(),
        _ => ".",
    };
    let synced = match fs::open(rt, folder) {
        Ok(folder) => folder.sync_all(),
        Err(error) => Err(error),
    };
    match synced {
        Ok(()) => Ok(()),
        Err(error) if cannot_sync(&error) => Ok(()),
        Err(_) => Err(WriteFailed),
    }
}

/// Whether a sync failed because this file or folder cannot be synced at all, or this user may not open it.
fn cannot_sync(error: &io::Error) -> bool {
    matches!(
        error.kind(),
        ErrorKind::InvalidInput | ErrorKind::Unsupported | ErrorKind::PermissionDenied
    )
}

/// Writes the bytes beside the file of a lock that was taken, with that file's owner and permissions.
///
/// # Errors
///
/// If they cannot be written, or the file is write-protected.
pub(crate) fn write_part(
    rt: &HostRuntime,
    lock: &mut HeldLock,
    bytes: &[u8],
) -> Result<Part, WriteFailed>
    ensures lock { held_lock lock.new ≡ held_lock lock.old }
    ensures part { IfOk result (λ p. (string_bytes p.names.path ≡ string_bytes lock.old.path) × (p.is_synced ≡ false)) }
{
    let Some(names) = lock.names.take() else {
        return Err(WriteFailed);
    };
    let has_lock = match &lock.file {
        // Who writes without the lock may have put another file there.
        Some(file) if !is_same(rt, file, &names.target) => return Err(WriteFailed),
        Some(_) => true,
        None => false,
    };
    match fs::metadata(rt, &names.target) {
        Ok(found) if found.is_file() && found.permissions().readonly() => Err(WriteFailed),
        Ok(found) if found.is_file() => write_beside(rt, names, bytes, Some(&found), has_lock),
        Ok(found) if !found.is_dir() => write_there(rt, names, bytes),
        Err(error) if error.kind() == ErrorKind::NotFound => {
            write_beside(rt, names, bytes, None, has_lock)
        }
        _ => Err(WriteFailed),
    }
}

/// Writes the bytes to what is there, and returns it.
pub(crate) fn write_through(
    rt: &HostRuntime,
    path: &str,
    bytes: &[u8],
) -> Result<File, WriteFailed> {
    let Ok(file) = OpenOptions::new().write(true).open(rt, path) else {
        return Err(WriteFailed);
    };
    put(&mut WatchedSink::new(&file), bytes)?;
    Ok(file)
}

/// Writes the bytes to a device or a pipe.
fn write_there(rt: &HostRuntime, names: Names, bytes: &[u8]) -> Result<Part, WriteFailed>
    ensures { IfOk result (λ p. (p.names ≡ names) × (p.is_synced ≡ false)) }
{
    let file = write_through(rt, &names.target, bytes)?;
    Ok(Part {
        names,
        place: Place::There,
        file,
        is_synced: false,
    })
}

/// Writes the bytes to a new file beside the target.
fn write_beside(
    rt: &HostRuntime,
    names: Names,
    bytes: &[u8],
    found: Option<&Metadata>,
    has_lock: bool,
) -> Result<Part, WriteFailed>
    ensures { IfOk result (λ p. (p.names ≡ names) × (p.is_synced ≡ false)) }
{
    let first = first_number(rt, &names.target, has_lock);
    let mode = if found.is_some() { PRIVATE } else { COMMON };
    let (part, file) = new_part(rt, &names.target, mode, first)?;
    if let Some(found) = found {
        keep_owner(&file, found);
    }
    if put(&mut WatchedSink::new(&file), bytes).is_err() {
        let _ = fs::remove_file(rt, part.as_str());
        return Err(WriteFailed);
    }
    Ok(Part {
        names,
        place: Place::Beside(part),
        file,
        is_synced: false,
    })
}

/// Gives a part the owner, group and permissions of the file whose place it takes, as far as the system lets this user. Until then, and where
/// this fails, nobody else may read it.
fn keep_owner(file: &File, found: &Metadata) {
    if fchown(file, Some(found.uid()), Some(found.gid())).is_err() {
        let _ = fchown(file, None, Some(found.gid()));
    }
    let _ = file.set_permissions(found.permissions());
}

/// Writes the bytes beside a file that can be made again, and gives them its name when all are written.
pub(crate) fn replace(rt: &HostRuntime, path: &str, bytes: &[u8]) -> Result<(), WriteFailed> {
    let (part, file) = new_part(rt, path, COMMON, 0)?;
    let answer = put(&mut WatchedSink::new(file), bytes);
    if answer.is_ok() && fs::rename(rt, part.as_str(), path).is_ok() {
        return Ok(());
    }
    let _ = fs::remove_file(rt, part.as_str());
    Err(WriteFailed)
}

/// The lowest number that the part of an image may have. Number 0 is for who holds the lock: a part with it was left by a command that was
/// killed, and is removed. A name that is cut may be that of another image too.
fn first_number(rt: &HostRuntime, target: &str, has_lock: bool) -> u32 {
    if !has_lock || front_of(target).len() < target.len() {
        return 1;
    }
    if let Ok(left) = part_of(target, 0) {
        let _ = fs::remove_file(rt, left.as_str());
    }
    0
}

/// A new file beside that of the path, and its own path; its number is the first that is free.
fn new_part(
    rt: &HostRuntime,
    path: &str,
    mode: u32,
    first: u32,
) -> Result<(PartPath, File), WriteFailed> {
    for number in first..PARTS {
        let Ok(part) = part_of(path, number) else {
            return Err(WriteFailed);
        };
        match OpenOptions::new()
            .write(true)
            .create_new(true)
            .mode(mode)
            .open(rt, part.as_str())
        {
            Ok(file) => return Ok((part, file)),
            Err(error) if error.kind() == ErrorKind::AlreadyExists => {}
            Err(_) => return Err(WriteFailed),
        }
    }
    Err(WriteFailed)
}

/// The path of a part: the file's, its name cut where it is too long, then `.part`, and a number unless that is 0.
///
/// # Errors
///
/// Where it is longer than a path may be.
fn part_of(path: &str, number: u32) -> Result<PartPath, fmt::Error> {
    let mut part = PartPath::new();
    part.write_str(front_of(path))?;
    part.write_str(".part")?;
    if number > 0 {
        write!(part, "{number}")?;
    }
    Ok(part)
}

/// As much of a path that no name in it is too long with the ending of a part.
fn front_of(path: &str) -> &str {
    let name = match path.rfind('/') {
        Some(slash) => slash.saturating_add(1),
        None => 0,
    };
    let end = path.floor_char_boundary(name.saturating_add(NAME_LIMIT));
    path.get(..end).unwrap_or(path)
}
