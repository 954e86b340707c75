//! The lock of a file that a command changes.

ghost use Rattle.std.specs.Prelude.{◌≡◌, IfOk, IfSome, string_bytes};
ghost use Rattle.std.proofs.Props.{props};
ghost use Rattle.host.specs.Files.{IsLockWanted};

use host::Unread;
use std::alloc::Global;
use std::fs::{self, File, Metadata, OpenOptions, TryLockError};
use std::io::{self, ErrorKind};
use std::os::unix::fs::MetadataExt;
use std::thread::sleep;
use std::time::Duration;

/// How often the lock is asked for before the command gives up. With the pauses in between, that takes a second.
const ATTEMPTS: u32 = 100;

/// The milliseconds between two attempts.
const PAUSE: u64 = 10;

/// The names of a file that is to be replaced. They are made when memory can still be refused without harm.
#[derive(Drop)]
pub(crate) struct Names {
    /// The path that was given.
    pub(crate) path: String,
    /// The path after symbolic links are followed. The file there is replaced, not the link.
    pub(crate) target: String,
}

/// The lock that a command took.
#[derive(Drop)]
pub(crate) struct HeldLock {
    /// The path that it was asked for.
    pub(crate) path: String,
    /// What the file that is written beside this one takes.
    pub(crate) names: Option<Names>,
    /// The file on which the lock is, which keeps it. None if there is no file, or no lock.
    pub(crate) file: Option<File>,
    /// Whether the lock was asked for.
    pub(crate) is_wanted: bool,
    pub(crate) is_held: bool,
    ghost same_path: { IfSome names (λ n. string_bytes n.path ≡ string_bytes path) } by { Prim.hlevel props },
}

/// What came of asking for the lock once.
enum Attempt {
    /// It is held, on this file.
    Held(File),
    /// There is no file yet.
    Nothing,
    /// This file system has no locks.
    Unavailable,
    /// Another program holds it, or replaced the file meanwhile.
    Busy,
    /// The file cannot be opened.
    Failed,
}

/// A copy of a path.
fn copy_of(alloc: Global, path: &str) -> Result<String, Unread>
    ensures { IfOk result (λ copy. string_bytes copy ≡ path.now) }
{
    match String::from_str(alloc, path) {
        Ok(copy) => Ok(copy),
        Err(_) => Err(Unread::NoMemory),
    }
}

/// The path after symbolic links are followed, which is the path itself if it is no link. A link whose file is not there is an error: to replace the
/// link would be wrong. A link to a pipe leads to no path, so what is no file keeps its own.
fn target_of(rt: &HostRuntime, alloc: Global, path: &str) -> Result<String, Unread> {
    if fs::metadata(rt, path).is_ok_and(|found| !found.is_file()) {
        return copy_of(alloc, path);
    }
    match fs::symlink_metadata(rt, path) {
        Ok(found) if found.is_symlink() => match fs::canonicalize(rt, path) {
            Ok(target) => Ok(target.into_string()),
            Err(error) if error.kind() == ErrorKind::OutOfMemory => Err(Unread::NoMemory),
            Err(_) => Err(Unread::File),
        },
        _ => copy_of(alloc, path),
    }
}

/// Whether the path still names the file that was opened. Whoever replaces a file gives its path to another one.
pub(crate) fn is_same(rt: &HostRuntime, file: &File, path: &str) -> bool {
    match (file.metadata(), fs::metadata(rt, path)) {
        (Ok(held), Ok(found)) => is_one_file(&held, &found),
        _ => false,
    }
}

/// Whether two paths or files are one file.
pub(crate) fn is_one_file(one: &Metadata, other: &Metadata) -> bool {
    one.dev() == other.dev() && one.ino() == other.ino()
}

/// Opens a file for its lock: for writing too where that is allowed, since network file systems give this lock to no reader.
fn open(rt: &HostRuntime, target: &str) -> io::Result<File> {
    match OpenOptions::new().read(true).write(true).open(rt, target) {
        Err(error) if error.kind() != ErrorKind::NotFound => fs::open(rt, target),
        opened => opened,
    }
}

/// Asks for the lock once, without waiting.
fn ask_once(rt: &HostRuntime, target: &str) -> Attempt {
    let file = match open(rt, target) {
        Ok(file) => file,
        Err(error) if error.kind() == ErrorKind::NotFound => return Attempt::Nothing,
        Err(_) => return Attempt::Failed,
    };
    match file.try_lock() {
        Ok(()) if is_same(rt, &file, target) => Attempt::Held(file),
        Ok(()) | Err(TryLockError::WouldBlock) => Attempt::Busy,
        Err(TryLockError::Error(_)) => Attempt::Unavailable,
    }
}

/// Asks for the lock until it is held, for a second at most. The answer is the file on which it is, and whether a lock can be had at all.
/// Where there is no file there is nothing to lock; a file that is to be read has to be there.
fn wait_for_lock(
    rt: &HostRuntime,
    target: &str,
    is_read: bool,
) -> Result<(Option<File>, bool), Unread> {
    for _ in 0..ATTEMPTS {
        match ask_once(rt, target) {
            Attempt::Held(file) => return Ok((Some(file), true)),
            Attempt::Nothing if !is_read => return Ok((None, true)),
            Attempt::Nothing => return Err(Unread::File),
            Attempt::Unavailable => return Ok((None, false)),
            Attempt::Failed => return Err(Unread::File),
            Attempt::Busy => sleep(rt, Duration::from_millis(PAUSE)),
        }
    }
    Err(Unread::File)
}

/// The lock of a regular file that is wanted; a device or a pipe has none.
fn lock_target(
    rt: &HostRuntime,
    target: &str,
    is_wanted: bool,
    is_read: bool,
) -> Result<(Option<File>, bool), Unread>
    ensures { IfOk result (λ r. IsLockWanted is_wanted r.1) }
{
    if !is_wanted {
        return Ok((None, false));
    }
    match fs::metadata(rt, target) {
        Ok(found) if !found.is_file() => Ok((None, true)),
        _ => wait_for_lock(rt, target, is_read),
    }
}

/// Takes the lock of a path, if it is wanted; `is_read` says that the file is to be read under it.
///
/// # Errors
///
/// [`Unread::File`] if another program keeps it for a second, or the file cannot be opened; [`Unread::NoMemory`].
pub(crate) fn take_lock(
    rt: &HostRuntime,
    alloc: Global,
    path: &str,
    is_wanted: bool,
    is_read: bool,
) -> Result<HeldLock, Unread>
    ensures { IfOk result (λ l. (string_bytes l.path ≡ path.now) × (l.is_wanted ≡ is_wanted) × IsLockWanted is_wanted l.is_held) }
{
    let copy = copy_of(alloc, path)?;
    let names = Names {
        path: copy_of(alloc, path)?,
        target: target_of(rt, alloc, path)?,
    };
    let (file, is_held) = lock_target(rt, &names.target, is_wanted, is_read)?;
    Ok(HeldLock {
        path: copy,
        names: Some(names),
        file,
        is_wanted,
        is_held,
    })
}
