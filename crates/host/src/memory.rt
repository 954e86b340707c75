//! Files in memory: what tests of the whole command work on. Unlike those of the system, they tell a contract their bytes.

ghost use Rattle.std.specs.Prelude.{◌≡◌, [], None, Some, false, map, true};
ghost use Rattle.host.specs.Streams.Stream.{counted};
ghost use Rattle.host.specs.Files.{after_asking};
ghost use Rattle.host.specs.Memory.{Finds, written_file, files_of, folder_of};
ghost use Rattle.host.specs.Private.Kept.{Copies, Keeps, KeepsPart, TakesLock};

use crate::{Claimed, Files, Placed, Unread, WriteFailed};
use common::LONGEST_TEXT;
use std::alloc::{AllocError, Global};

/// A file that was written.
#[derive(Debug, Drop)]
pub struct Written {
    pub path: Vec<u8>,
    pub bytes: Vec<u8>,
    /// Whether it was written beside the file whose place it took.
    is_part: bool,
}

/// The lock that was taken.
#[derive(Debug, Drop)]
struct Lock {
    path: Vec<u8>,
    is_held: bool,
}

/// A file that is written beside another.
#[derive(Debug, Drop)]
struct Part {
    file: Written,
    is_synced: bool,
}

/// Files that are kept in memory, each as it was written, the oldest first. Of those with one path the newest is the one that is there.
#[derive(Debug, Drop)]
pub struct MemoryFiles {
    alloc: Global,
    written: Vec<Written>,
    failures: u64,
    replacements: u64,
    asks: u64,
    locked: Option<Lock>,
    claimed: Option<Vec<u8>>,
    is_spent: bool,
    part: Option<Part>,
    /// Whether the last file that took the place of another would have been kept from it by one that was there.
    placed: Option<bool>,
}

impl MemoryFiles {
    /// None yet.
    pub fn new(alloc: Global) -> MemoryFiles
        ensures { folder_of result ≡ record { files = Some []; stored = Some []; failures = 0; replacements = 0; gives = λ _ _. true; asks = 0; locked = None; claimed = None; is_spent = false; part = None; placed = None } }
    {
        MemoryFiles {
            alloc,
            written: Vec::new(alloc),
            failures: 0,
            replacements: 0,
            asks: 0,
            locked: None,
            claimed: None,
            is_spent: false,
            part: None,
            placed: None,
        }
    }

    /// All that were written, the oldest first.
    pub fn written(&self) -> &[Written]
        ensures { map written_file result.now ≡ files_of self.now }
    {
        &self.written
    }

    /// How often memory was refused to a write.
    pub fn failures(&self) -> u64
        ensures { result ≡ (folder_of self.now).failures }
    {
        self.failures
    }

    /// The bytes of the newest file that has the path.
    pub fn find(&self, path: &[u8]) -> Option<&[u8]>
        ensures { Finds (files_of self.now) path.now result }
    {
        for number in (0..self.written.len()).rev() {
            let file = &self.written[number];
            if file.path.as_slice() == path {
                return Some(file.bytes.as_slice());
            }
        }
        None
    }

    /// A copy of a file.
    fn copy(&self, path: &str, bytes: &[u8]) -> Result<Written, AllocError>
        ensures { Copies (path.now, bytes.now) result }
    {
        let path = Vec::from_slice(self.alloc, path.as_bytes())?;
        let bytes = Vec::from_slice(self.alloc, bytes)?;
        Ok(Written {
            path,
            bytes,
            is_part: false,
        })
    }

    /// Keeps a copy of a file.
    #[tactic(auto, using(crate::proofs::MemoryStored::one_more_stored))]
    fn keep(&mut self, path: &str, bytes: &[u8]) -> Result<(), AllocError>
        ensures { Keeps self.old self.new (path.now, bytes.now) result }
    {
        let file = self.copy(path, bytes)?;
        self.written.push(file)?;
        Ok(())
    }

    /// Counts a lock that is asked for.
    fn ask(&mut self)
        ensures { folder_of self.new ≡ after_asking (folder_of self.old) }
    {
        self.asks = self.asks.saturating_add(1);
    }

    /// Takes the lock of a path, which was asked for. What was claimed or written beside a file under another lock is given up.
    fn take_lock(&mut self, path: &str, is_held: bool) -> Result<(), AllocError>
        ensures { TakesLock self.old self.new path.now is_held result }
    {
        let path = Vec::from_slice(self.alloc, path.as_bytes())?;
        self.locked = Some(Lock { path, is_held });
        self.claimed = None;
        self.is_spent = false;
        self.part = None;
        Ok(())
    }

    /// Keeps a copy of a file beside the one whose place it is to take. This spends the lock.
    fn keep_part(&mut self, path: &str, bytes: &[u8]) -> Result<(), AllocError>
        ensures { KeepsPart self.old self.new (path.now, bytes.now) result }
    {
        let file = self.copy(path, bytes)?;
        self.part = Some(Part {
            file,
            is_synced: false,
        });
        self.is_spent = true;
        Ok(())
    }

    /// Counts a call that failed.
    fn fail(&mut self) -> WriteFailed
        ensures { folder_of self.new ≡ record (folder_of self.old) { failures = counted self.old.failures } }
    {
        self.failures = self.failures.saturating_add(1);
        WriteFailed
    }
}

impl Files for MemoryFiles {
    ghost folder = { folder_of };

    fn read(&mut self, alloc: Global, path: &str) -> Result<Vec<u8>, Unread> {
        match self.find(path.as_bytes()) {
            Some(bytes) if bytes.len() <= LONGEST_TEXT => match Vec::from_slice(alloc, bytes) {
                Ok(copy) => Ok(copy),
                Err(_) => Err(Unread::NoMemory),
            },
            _ => Err(Unread::File),
        }
    }

    fn write(&mut self, path: &str, bytes: &[u8]) -> Result<(), WriteFailed> {
        match self.keep(path, bytes) {
            Ok(()) => Ok(()),
            Err(_) => Err(self.fail()),
        }
    }

    fn lock(&mut self, _: Global, path: &str, is_wanted: bool) -> Result<bool, Unread> {
        self.ask();
        match self.take_lock(path, is_wanted) {
            Ok(()) => Ok(is_wanted),
            Err(_) => Err(Unread::NoMemory),
        }
    }

    fn claim(&mut self, alloc: Global, path: &str, is_wanted: bool) -> Result<Claimed, Unread> {
        self.ask();
        // Nobody else changes files in memory, so the file may be read first: if that fails, the lock is not taken.
        let bytes = self.read(alloc, path)?;
        let Ok(claimed) = Vec::from_slice(self.alloc, path.as_bytes()) else {
            return Err(Unread::NoMemory);
        };
        let Ok(()) = self.take_lock(path, is_wanted) else {
            return Err(Unread::NoMemory);
        };
        self.claimed = Some(claimed);
        Ok(Claimed {
            bytes,
            is_locked: is_wanted,
        })
    }

    fn write_beside(&mut self, path: &str, bytes: &[u8]) -> Result<(), WriteFailed> {
        match self.keep_part(path, bytes) {
            Ok(()) => Ok(()),
            Err(_) => Err(self.fail()),
        }
    }

    fn sync(&mut self) -> Result<(), WriteFailed> {
        if let Some(part) = &mut self.part {
            part.is_synced = true;
        }
        Ok(())
    }

    #[tactic(auto, using(crate::proofs::MemoryStored::no_more_stored))]
    fn put_in_place(&mut self, keep: bool) -> Result<Placed, WriteFailed> {
        let Some(part) = self.part.take() else {
            unreachable!();
        };
        // A part whose place is taken is dropped: whoever wants to write the file after all begins again.
        if keep && self.find(&part.file.path).is_some() {
            return Ok(Placed::Exists);
        }
        let mut file = part.file;
        file.is_part = true;
        match self.written.push(file) {
            Ok(()) => {
                self.replacements = self.replacements.saturating_add(1);
                self.placed = Some(keep);
                Ok(Placed::Done)
            }
            Err(_) => Err(self.fail()),
        }
    }
}
