//! Why a file could not be used, for somebody at a terminal.

use common::LONGEST_TEXT;
use std::alloc::Global;
use std::fs::{self, File, TryLockError};
use std::io::ErrorKind;
use std::path::Path;

/// What a command wanted of a file.
#[derive(Clone, Copy)]
pub(crate) enum Access {
    /// To read it.
    Read,
    /// To read it under its lock.
    Claim,
    /// To lock it, so that another file can be put in its place.
    Lock,
    /// To put another file in its place. The command itself has the lock then.
    Replace,
    /// To write it.
    Write,
    /// To write it, though the command has read it.
    WriteInput,
}

/// A file that could not be used.
#[derive(Drop)]
pub(crate) struct Refused {
    path: String,
    access: Access,
}

impl Refused {
    /// Keeps the path; None if there is no memory for it.
    pub(crate) fn new(alloc: Global, path: &str, access: Access) -> Option<Refused> {
        match String::from_str(alloc, path) {
            Ok(path) => Some(Refused { path, access }),
            Err(_) => None,
        }
    }

    /// Why the file cannot be used, as far as another look at it tells. The system's own reason is not kept, since all that a command says of
    /// a file that fails is its path.
    pub(crate) fn reason(&self, rt: &HostRuntime) -> Option<&'static str> {
        match self.access {
            Access::Read => why_not_read(rt, &self.path),
            Access::Claim if is_missing(rt, &self.path) => {
                Some("there is no such file; `z80dev blank` makes an empty image")
            }
            Access::Claim => why_not_read(rt, &self.path).or_else(|| why_not_locked(
                rt, &self.path,
            )),
            Access::Lock => {
                why_not_replaced(rt, &self.path).or_else(|| why_not_locked(rt, &self.path))
            }
            Access::Replace => why_not_replaced(rt, &self.path),
            Access::Write => why_not_written(rt, &self.path),
            Access::WriteInput => Some("the command has read this file"),
        }
    }
}

/// Whether there is nothing at a path, though there is its folder.
fn is_missing(rt: &HostRuntime, path: &str) -> bool {
    match fs::symlink_metadata(rt, path) {
        Err(error) => match error.kind() {
            ErrorKind::NotFound => has_folder(rt, path),
            _ => false,
        },
        Ok(_) => false,
    }
}

/// Why there is nothing at a path.
fn why_not_found(rt: &HostRuntime, path: &str, kind: ErrorKind) -> Option<&'static str> {
    match kind {
        ErrorKind::NotFound if fs::symlink_metadata(rt, path).is_ok() => {
            Some("it is a link to a file that is not there")
        }
        ErrorKind::NotFound if !has_folder(rt, path) => Some("there is no such folder"),
        ErrorKind::NotFound => Some("there is no such file"),
        ErrorKind::PermissionDenied => Some("you have no permission to look into its folder"),
        _ => None,
    }
}

/// Whether there is the folder in which a file of this path would be.
fn has_folder(rt: &HostRuntime, path: &str) -> bool {
    match Path::new(path).parent() {
        Some(folder) if !folder.as_str().is_empty() => {
            fs::metadata(rt, folder.as_str()).is_ok_and(|found| found.is_dir())
        }
        _ => true,
    }
}

/// Why a file cannot be read. What is neither a file nor a folder is not opened, since that could wait for another program.
fn why_not_read(rt: &HostRuntime, path: &str) -> Option<&'static str> {
    match fs::metadata(rt, path) {
        Err(error) => why_not_found(rt, path, error.kind()),
        Ok(found) if found.is_dir() => Some("it is a folder"),
        Ok(found) if !found.is_file() => None,
        Ok(found) if found.len() > LONGEST_TEXT as u64 => Some("it has more than 16,777,216 bytes"),
        Ok(_) => why_not_opened(rt, path),
    }
}

/// Why a file that is there cannot be opened.
fn why_not_opened(rt: &HostRuntime, path: &str) -> Option<&'static str> {
    match fs::open(rt, path) {
        Err(error) if error.kind() == ErrorKind::PermissionDenied => {
            Some("you have no permission to read it")
        }
        _ => None,
    }
}

/// Whether another command holds the lock of a file.
fn is_locked(file: &File) -> bool {
    matches!(file.try_lock(), Err(TryLockError::WouldBlock))
}

/// Why a file cannot be locked.
fn why_not_locked(rt: &HostRuntime, path: &str) -> Option<&'static str> {
    if !fs::metadata(rt, path).is_ok_and(|found| found.is_file()) {
        return None;
    }
    match fs::open(rt, path) {
        Ok(file) if is_locked(&file) => Some("another program has locked it"),
        _ => None,
    }
}

/// Why no other file can be put in the place of one that is locked.
fn why_not_replaced(rt: &HostRuntime, path: &str) -> Option<&'static str> {
    match fs::metadata(rt, path) {
        Ok(found) if found.is_file() && found.permissions().readonly() => {
            Some("it is write-protected")
        }
        _ => why_not_written(rt, path),
    }
}

/// Why a file cannot be written. If there is none, one could not be made.
fn why_not_written(rt: &HostRuntime, path: &str) -> Option<&'static str> {
    match fs::metadata(rt, path) {
        Err(error) if error.kind() == ErrorKind::NotFound && has_folder(rt, path) => None,
        Err(error) => why_not_found(rt, path, error.kind()),
        Ok(found) if found.is_dir() => Some("it is a folder"),
        Ok(_) => None,
    }
}
