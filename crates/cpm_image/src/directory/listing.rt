//! Lists the files of a directory.

ghost use Rattle.std.specs.Prelude.{◌≡◌, IfErr, IfOk, map};
ghost use Rattle.cpm_image.specs.Private.Files.{AreInOrder, files_of};
ghost use Rattle.cpm_image.specs.Directory.Searches.{IsListing, listed_of};

use crate::directory::file::File;
use crate::{DiskFault, Entry, Name, file_is_read_only, file_is_system, size};
use std::alloc::{AllocError, Global};

/// A file in a listing.
#[derive(Clone, Copy, Debug, PartialEq, Eq)]
pub struct Listed {
    /// The user, 0 to 31.
    pub user: u8,
    pub name: Name,
    /// The number of records up to the file's last one, whether they were written or not.
    pub records: u32,
    pub read_only: bool,
    pub system: bool,
}

/// The files to which the entries of users 0 to 31 belong, one for each entry.
fn files(alloc: Global, entries: &[Entry]) -> Result<Vec<File>, AllocError>
    ensures { IfOk result (λ files. files.items ≡ files_of entries.now) }
{
    entries
        .iter()
        .filter(|entry| entry.is_extent())
        .map(|entry| File {
            user: entry.user,
            name: Name::new(entry.name),
        })
        .collect(alloc)
}

/// Sorts the files and leaves each one once.
fn bring_in_order(files: &mut Vec<File>)
    ensures { AreInOrder files.old.items files.new.items }
{
    files.sort_unstable();
    files.dedup();
}

/// What a listing says about a file.
fn describe(entries: &[Entry], file: &File) -> Listed
    ensures { result ≡ listed_of file.now.user file.now.name entries.now }
{
    Listed {
        user: file.user,
        name: file.name,
        records: size(entries, file.user, &file.name).unwrap_or(0),
        read_only: file_is_read_only(entries, file.user, &file.name),
        system: file_is_system(entries, file.user, &file.name),
    }
}

/// What a listing says about each of these files.
fn describe_each(
    alloc: Global,
    entries: &[Entry],
    files: &[File],
) -> Result<Vec<Listed>, AllocError>
    ensures { IfOk result (λ listed. listed.items ≡ map (λ f. listed_of f.user f.name entries.now) files.now) }
{
    files
        .iter()
        .map(|file| describe(entries, file))
        .collect(alloc)
}

/// Lists the files of users 0 to 31, each once, by user and then by name.
///
/// # Errors
///
/// Only [`DiskFault::NoMemory`].
pub fn list(alloc: Global, entries: &[Entry]) -> Result<Vec<Listed>, DiskFault>
    ensures listing { IfOk result (λ listed. IsListing entries.now listed.items) }
    ensures memory { IfErr result (λ fault. fault ≡ DiskFault.NoMemory) }
{
    let mut files = files(alloc, entries)?;
    bring_in_order(&mut files);
    Ok(describe_each(alloc, entries, &files)?)
}
