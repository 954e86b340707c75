//! The files that a command has read, so that it writes over none of them by another path.

use std::alloc::{AllocError, Global};
use std::fs::{File, Metadata};
use std::os::unix::fs::MetadataExt;

/// A file, whatever paths it has: its device, and its number there.
#[derive(Clone, Copy, PartialEq, Eq)]
pub(crate) struct FileId {
    device: u64,
    number: u64,
}

impl FileId {
    fn of(found: &Metadata) -> FileId {
        FileId {
            device: found.dev(),
            number: found.ino(),
        }
    }

    /// Which file is open, or nothing for a pipe or a device: nothing takes the place of those.
    pub(crate) fn of_open(file: &File) -> Option<FileId> {
        match file.metadata() {
            Ok(found) if found.is_file() => Some(FileId::of(&found)),
            _ => None,
        }
    }
}

/// The files that were read.
#[derive(Drop)]
pub(crate) struct Taken {
    files: Vec<FileId>,
}

impl Taken {
    pub(crate) fn new(alloc: Global) -> Taken {
        Taken {
            files: Vec::new(alloc),
        }
    }

    /// Adds a file.
    pub(crate) fn add(&mut self, file: FileId) -> Result<(), AllocError> {
        self.files.push(file)?;
        Ok(())
    }

    /// Whether this is one of the files.
    pub(crate) fn has(&self, found: &Metadata) -> bool {
        let file = FileId::of(found);
        self.files.iter().any(|other| *other == file)
    }
}
