//! Files by their paths.

ghost use Rattle.std.specs.Prelude.{◌≡◌, Some};
ghost use Rattle.host.specs.Files.{Claims, Folder, IsFree, IsReady, Locks, Part, PutsInPlace, ReadsPath, Replaces, Stores, Syncs, WritesBeside};

use crate::WriteFailed;
use std::alloc::Global;

/// Why a file is not read.
#[derive(Clone, Copy, Debug, PartialEq, Eq)]
pub enum Unread {
    /// There is none, it cannot be read, or it has more than 16,777,216 bytes.
    File,
    /// Memory ran out.
    NoMemory,
}

/// A file that was read under its lock.
#[derive(Debug, Drop)]
pub struct Claimed {
    /// The bytes of the file.
    pub bytes: Vec<u8>,
    /// Whether the lock is held. It is not if it was not asked for, or if the file system has no locks.
    pub is_locked: bool,
}

/// What came of putting a file in its place.
#[derive(Clone, Copy, Debug, PartialEq, Eq)]
pub enum Placed {
    /// It is in its place.
    Done,
    /// There is a file, which was to be kept.
    Exists,
}

/// Files by their paths, with a count of the calls that failed.
///
/// Files that can be made again are written by [`write`](Files::write). A file that holds a user's work, such as the image of a disk, is
/// replaced in four calls: it is [claimed](Files::claim), or only [locked](Files::lock) if it is not read; [written beside](Files::write_beside)
/// itself; [synced](Files::sync); and [put in place](Files::put_in_place). So two programs that hold the lock do not both change a file and lose
/// one of the changes, and after a power cut the file is the old one or the new one. The last three calls require that the lock was taken and is
/// not spent, that a file is written beside another, and that it is synced. Only the claim says which bytes were read under the lock, and taking
/// another lock ends it; so a contract that works on a claimed file's bytes excludes bytes that were read before. Each lock or claim that is asked
/// for is counted, so a contract that tells the count excludes another one, also one that fails. Only [`put_in_place`](Files::put_in_place) counts
/// a replacement, and only [`write`](Files::write) adds to the files that are written otherwise; so a contract that tells both excludes that a file
/// is written in another way, or that another file is written.
pub trait Files {
    /// The files, if they are known, and what the calls have done so far.
    ghost folder: { Self → Folder };

    /// Reads a file whole.
    ///
    /// # Errors
    ///
    /// Those of [`Unread`].
    fn read(&mut self, alloc: Global, path: &str) -> Result<Vec<u8>, Unread>
        ensures { ReadsPath (folder self.old) (folder self.new) path.now result };

    /// Writes a file whole, in place of one that has its path.
    ///
    /// # Errors
    ///
    /// If it cannot be written. Then there is the file that was there before, or the new one.
    fn write(&mut self, path: &str, bytes: &[u8]) -> Result<(), WriteFailed>
        ensures { Stores (folder self.old) (folder self.new) (path.now, bytes.now) result };

    /// Takes the lock of a path for as long as the program runs, or until it takes another or puts a file in place. There may be no file. The
    /// answer says whether the lock is held: it is not if `is_wanted` is false, or if the file system has no locks.
    ///
    /// # Errors
    ///
    /// Those of [`Unread`]; [`Unread::File`] too if another program, or this one since an earlier call, holds the lock and keeps it.
    fn lock(&mut self, alloc: Global, path: &str, is_wanted: bool) -> Result<bool, Unread>
        ensures { Locks (folder self.old) (folder self.new) path.now is_wanted result };

    /// Takes the lock of a file as [`lock`](Files::lock) does, and then reads the file whole. If it cannot be read, the lock is not taken.
    ///
    /// # Errors
    ///
    /// Those of [`Unread`]; [`Unread::File`] too if another program, or this one since an earlier call, holds the lock and keeps it.
    fn claim(&mut self, alloc: Global, path: &str, is_wanted: bool) -> Result<Claimed, Unread>
        ensures { Claims (folder self.old) (folder self.new) path.now is_wanted result };

    /// Writes bytes to a new file beside that of a path whose lock was taken, once for each time that it is.
    ///
    /// # Errors
    ///
    /// If it cannot be written, or if the file of the path is write-protected. To try again, take the lock again.
    fn write_beside(&mut self, path: &str, bytes: &[u8]) -> Result<(), WriteFailed>
        requires free { IsFree (folder self.old) path.now }
        ensures { WritesBeside (folder self.old) (folder self.new) path.now bytes.now result };

    /// Waits until the bytes of the file that was written beside another have reached the device.
    ///
    /// # Errors
    ///
    /// If they do not.
    fn sync(&mut self) -> Result<(), WriteFailed>
        requires written { (p : Part) × ((folder self.old).part ≡ Some p) }
        ensures { (p : Part) → (folder self.old).part ≡ Some p → Syncs (folder self.old) (folder self.new) p result };

    /// Puts the file that was written beside another in its place, in one step; with `keep`, only if there is no file.
    ///
    /// # Errors
    ///
    /// If this fails. Then there is the file that was there before, or the new one.
    fn put_in_place(&mut self, keep: bool) -> Result<Placed, WriteFailed>
        requires ready { (p : Part) × IsReady (folder self.old) p }
        ensures { (p : Part) → (folder self.old).part ≡ Some p → PutsInPlace (folder self.old) (folder self.new) p keep result };
}

/// Replaces the file of a path whose lock was taken; with `keep`, only if there is none.
///
/// # Errors
///
/// If a call fails. Then there is the file that was there before, or the new one. To try again, take the lock again.
pub fn replace<F: Files>(
    files: &mut F,
    path: &str,
    bytes: &[u8],
    keep: bool,
) -> Result<Placed, WriteFailed>
    requires free { IsFree (F.folder files.old) path.now }
    ensures { Replaces (F.folder files.old) (F.folder files.new) (path.now, bytes.now) keep result }
{
    files.write_beside(path, bytes)?;
    files.sync()?;
    files.put_in_place(keep)
}
