//! Files of the machine that the program runs on.

mod lock;
mod part;
mod refused;
mod taken;

ghost use Rattle.std.specs.Prelude.{◌≡◌, ◌≤◌, IfOk, None, false, length, option_map, string_bytes, true};
ghost use Rattle.common.specs.declared.limits.TheConstants.{LONGEST_TEXT};
ghost use Rattle.host.specs.Streams.Stream.{counted};
ghost use Rattle.host.specs.Files.{IsLockWanted};
ghost use Rattle.z80dev_cli.specs.Host.{held_claim, held_lock, placement_by, written_part};

use host::{Claimed, Files, Placed, Unread, Watched, WatchedSink, WriteFailed, print};
use lock::{HeldLock, is_one_file, take_lock};
use part::{Part, write_part};
use refused::{Access, Refused};
use std::alloc::{AllocError, Global};
use std::fs::{self, Metadata};
use std::io::ErrorKind;
use std::os::unix::fs::FileTypeExt;
use taken::{FileId, Taken};
use z80dev::{Fault, read_text};

/// The standard streams as paths.
const INPUT: &str = "/proc/self/fd/0";

const OUTPUT: &str = "/proc/self/fd/1";

const ERRORS: &str = "/proc/self/fd/2";

/// The files of the system, how often a call failed, how often a file took the place of another, and how often a lock was asked for.
#[derive(Drop)]
pub(crate) struct HostFiles<'a> {
    rt: &'a HostRuntime,
    failures: u64,
    replacements: u64,
    asks: u64,
    lock: Option<HeldLock>,
    claimed: Option<String>,
    /// Whether a part was written under the lock, or was to be. A lock has names for one part.
    is_spent: bool,
    part: Option<Part>,
    /// Whether the last file that took the place of another would have been kept from it by one that was there.
    placed: Option<bool>,
    /// The files that were read, which are not written over.
    taken: Taken,
    /// The path that the last call that failed was given, and what the call wanted to do with it, if there is memory for that.
    refused: Option<Refused>,
}

impl<'a> HostFiles<'a> {
    pub(crate) fn new(rt: &'a HostRuntime) -> HostFiles<'a> {
        HostFiles {
            rt,
            failures: 0,
            replacements: 0,
            asks: 0,
            lock: None,
            claimed: None,
            is_spent: false,
            part: None,
            placed: None,
            taken: Taken::new(rt.alloc()),
            refused: None,
        }
    }

    /// Counts a call that failed, and keeps its path and what it wanted to do with it.
    fn fail(&mut self, refused: Option<Refused>)
        ensures { self.new ≡ record self.old { failures = counted self.old.failures; refused = refused } }
    {
        self.failures = self.failures.saturating_add(1);
        self.refused = refused;
    }

    /// Why the last call failed, as far as another look at its file tells.
    pub(crate) fn reason(&self) -> Option<&'static str> {
        match &self.refused {
            Some(refused) => refused.reason(self.rt),
            None => None,
        }
    }

    /// Counts a lock that is asked for.
    fn ask(&mut self)
        ensures { self.new ≡ record self.old { asks = counted self.old.asks } }
    {
        self.asks = self.asks.saturating_add(1);
    }

    /// Keeps a lock, with the path of the file that was read under it. A part that was written under an earlier lock is given up.
    fn take(&mut self, lock: HeldLock, claimed: Option<String>)
        ensures { self.new ≡ record self.old { lock = Some lock; claimed = claimed; is_spent = false; part = None } }
    {
        // Before the earlier lock is given back, since whoever gets that lock may write a part of this name.
        if let Some(part) = self.part.take() {
            part.discard(self.rt);
        }
        self.lock = Some(lock);
        self.claimed = claimed;
        self.is_spent = false;
    }

    /// Notes that a file was read.
    fn note_read(&mut self, file: Option<FileId>) -> Result<(), AllocError>
        ensures { self.new ≡ record self.old { taken = self.new.taken } }
    {
        match file {
            Some(file) => self.taken.add(file),
            None => Ok(()),
        }
    }

    /// Whether a path is that of a file that was read, or on which the lock is, also if it was written otherwise there. A link to such a file
    /// is not: what is written takes the place of the link.
    fn is_input(&self, path: &str) -> bool {
        let Ok(found) = fs::symlink_metadata(self.rt, path) else {
            return false;
        };
        let is_locked = match &self.lock {
            Some(lock) => is_file_of(self.rt, &lock.path, &found),
            None => false,
        };
        is_locked || self.taken.has(&found)
    }

    /// Counts a file that took its place; `keep` says whether one that was there would have been kept.
    fn count_replacement(&mut self, keep: bool)
        ensures { self.new ≡ record self.old { replacements = counted self.old.replacements; placed = Some keep } }
    {
        self.replacements = self.replacements.saturating_add(1);
        self.placed = Some(keep);
    }
}

impl Files for HostFiles<'_> {
    ghost folder = { λ h. record { files = None; stored = None; failures = h.failures; replacements = h.replacements; gives = λ _ _. true; asks = h.asks; locked = option_map held_lock h.lock; claimed = option_map held_claim h.claimed; is_spent = h.is_spent; part = option_map written_part h.part; placed = option_map placement_by h.placed } };

    fn read(&mut self, alloc: Global, path: &str) -> Result<Vec<u8>, Unread> {
        match read_whole(self.rt, alloc, path) {
            Ok(Whole { bytes, file }) => match self.note_read(file) {
                Ok(()) => Ok(bytes),
                Err(AllocError) => Err(Unread::NoMemory),
            },
            Err(Unread::File) => {
                self.fail(Refused::new(alloc, path, Access::Read));
                Err(Unread::File)
            }
            Err(Unread::NoMemory) => Err(Unread::NoMemory),
        }
    }

    fn write(&mut self, path: &str, bytes: &[u8]) -> Result<(), WriteFailed> {
        // Two paths may name one file though their texts differ. Then the command could not know that it writes over what it reads.
        let access = if self.is_input(path) {
            Access::WriteInput
        } else if write(self.rt, path, bytes).is_err() {
            Access::Write
        } else {
            return Ok(());
        };
        self.fail(Refused::new(self.rt.alloc(), path, access));
        Err(WriteFailed)
    }

    fn lock(&mut self, alloc: Global, path: &str, is_wanted: bool) -> Result<bool, Unread> {
        self.ask();
        match take_lock(self.rt, alloc, path, is_wanted, false) {
            Ok(lock) => {
                let is_held = lock.is_held;
                self.take(lock, None);
                Ok(is_held)
            }
            Err(Unread::File) => {
                self.fail(Refused::new(alloc, path, Access::Lock));
                Err(Unread::File)
            }
            Err(Unread::NoMemory) => Err(Unread::NoMemory),
        }
    }

    fn claim(&mut self, alloc: Global, path: &str, is_wanted: bool) -> Result<Claimed, Unread> {
        self.ask();
        let claimed = match String::from_str(alloc, path) {
            Ok(copy) => copy,
            Err(AllocError) => return Err(Unread::NoMemory),
        };
        match claim(self.rt, alloc, path, is_wanted) {
            Ok((lock, bytes)) => {
                let is_locked = lock.is_held;
                self.take(lock, Some(claimed));
                Ok(Claimed { bytes, is_locked })
            }
            Err(Unread::File) => {
                self.fail(Refused::new(alloc, path, Access::Claim));
                Err(Unread::File)
            }
            Err(Unread::NoMemory) => Err(Unread::NoMemory),
        }
    }

    fn write_beside(&mut self, path: &str, bytes: &[u8]) -> Result<(), WriteFailed> {
        self.is_spent = true;
        let Some(lock) = &mut self.lock else {
            unreachable!();
        };
        match write_part(self.rt, lock, bytes) {
            Ok(part) => {
                self.part = Some(part);
                Ok(())
            }
            Err(WriteFailed) => {
                self.fail(Refused::new(self.rt.alloc(), path, Access::Replace));
                Err(WriteFailed)
            }
        }
    }

    fn sync(&mut self) -> Result<(), WriteFailed> {
        let Some(mut part) = self.part.take() else {
            unreachable!();
        };
        match part.sync() {
            Ok(()) => {
                self.part = Some(part);
                Ok(())
            }
            Err(WriteFailed) => {
                part.discard(self.rt);
                self.fail(None);
                Err(WriteFailed)
            }
        }
    }

    fn put_in_place(&mut self, keep: bool) -> Result<Placed, WriteFailed> {
        let Some(part) = self.part.take() else {
            unreachable!();
        };
        match part.put_in_place(self.rt, keep) {
            Ok(Placed::Done) => {
                self.count_replacement(keep);
                Ok(Placed::Done)
            }
            Ok(Placed::Exists) => Ok(Placed::Exists),
            Err(WriteFailed) => {
                self.fail(None);
                Err(WriteFailed)
            }
        }
    }
}

/// What a file holds, and which file it is, unless it is a pipe or a device.
#[derive(Drop)]
struct Whole {
    bytes: Vec<u8>,
    file: Option<FileId>,
}

/// Reads a file whole.
fn read_whole(rt: &HostRuntime, alloc: Global, path: &str) -> Result<Whole, Unread>
    ensures { IfOk result (λ whole. length whole.bytes.items ≤ LONGEST_TEXT) }
{
    let Ok(opened) = fs::open(rt, path) else {
        return Err(Unread::File);
    };
    let file = FileId::of_open(&opened);
    match read_text(alloc, &mut Watched::new(opened)) {
        Ok(bytes) => Ok(Whole { bytes, file }),
        Err(Fault::File) => Err(Unread::File),
        Err(Fault::Build(_)) => Err(Unread::NoMemory),
    }
}

/// Takes the lock of a path and reads the file that is locked: the one to which symbolic links lead.
fn claim(
    rt: &HostRuntime,
    alloc: Global,
    path: &str,
    is_wanted: bool,
) -> Result<(HeldLock, Vec<u8>), Unread>
    ensures { IfOk result (λ r. (string_bytes r.0.path ≡ path.now) × (r.0.is_wanted ≡ is_wanted) × IsLockWanted is_wanted r.0.is_held × (length r.1.items ≤ LONGEST_TEXT)) }
{
    let lock = take_lock(rt, alloc, path, is_wanted, true)?;
    let bytes = match &lock.names {
        Some(names) => read_whole(rt, alloc, &names.target)?.bytes,
        None => read_whole(rt, alloc, path)?.bytes,
    };
    Ok((lock, bytes))
}

/// Writes the bytes: to a pipe or a device directly, and else as a new file that takes the place of the path's.
fn write(rt: &HostRuntime, path: &str, bytes: &[u8]) -> Result<(), WriteFailed> {
    match fs::metadata(rt, path) {
        // A link to a folder would be replaced, and its folder lost from sight.
        Ok(found) if found.is_dir() => Err(WriteFailed),
        Ok(found) if is_link(rt, path) => write_linked(rt, path, bytes, &found),
        Ok(found) => write_found(rt, path, bytes, &found),
        Err(error) if error.kind() == ErrorKind::NotFound => part::replace(rt, path, bytes),
        Err(_) => Err(WriteFailed),
    }
}

/// Writes the bytes where there is a file, a pipe or a device.
fn write_found(
    rt: &HostRuntime,
    path: &str,
    bytes: &[u8],
    found: &Metadata,
) -> Result<(), WriteFailed> {
    if found.is_file() {
        return part::replace(rt, path, bytes);
    }
    part::write_through(rt, path, bytes)?;
    Ok(())
}

/// Whether a path is a symbolic link.
fn is_link(rt: &HostRuntime, path: &str) -> bool {
    fs::symlink_metadata(rt, path).is_ok_and(|link| link.is_symlink())
}

/// Writes the bytes where a link is. If it leads to the file or socket of standard output or standard error, as `/dev/stdout` may, the link
/// stays, since every program of the system needs it. The bytes go to the stream, so what is printed afterwards comes after them. What standard
/// input leads to takes no bytes, unless it is a device such as a terminal.
fn write_linked(
    rt: &HostRuntime,
    path: &str,
    bytes: &[u8],
    found: &Metadata,
) -> Result<(), WriteFailed> {
    let kind = found.file_type();
    let is_device = kind.is_char_device() || kind.is_block_device();
    // A pipe or a device can be opened by its path. A file would be replaced, and a socket cannot be opened.
    let is_for_stream = found.is_file() || kind.is_socket();
    if is_for_stream && is_file_of(rt, OUTPUT, found) {
        return print(&mut WatchedSink::new(rt.stdout()), bytes);
    }
    if is_for_stream && is_file_of(rt, ERRORS, found) {
        return print(&mut WatchedSink::new(rt.stderr()), bytes);
    }
    if !is_device && is_file_of(rt, INPUT, found) {
        return Err(WriteFailed);
    }
    write_found(rt, path, bytes, found)
}

/// Whether this is the file that a path leads to, such as that of a standard stream.
fn is_file_of(rt: &HostRuntime, path: &str, found: &Metadata) -> bool {
    fs::metadata(rt, path).is_ok_and(|file| is_one_file(&file, found))
}
