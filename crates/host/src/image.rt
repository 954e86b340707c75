//! Images that are read, and those that are claimed, changed and kept.

ghost use Rattle.host.specs.Files.{IsFree};
ghost use Rattle.host.specs.Claims.{KeepsFile, ClaimsImage, ReadsImageFile};

use crate::paths::{names_no_image, over};
use crate::warning::warnings;
use crate::{Claimed, End, Files, Unread, read, replace};
use std::alloc::Global;

/// An image that was read.
#[derive(Drop)]
pub struct Image {
    pub bytes: Vec<u8>,
    /// The lines that the command writes on standard error if all is done.
    pub warnings: Option<String>,
}

/// Reads an image that the command does not change.
pub fn read_image<'a, F: Files>(
    alloc: Global,
    path: &'a str,
    files: &mut F,
) -> Result<Image, End<'a>>
    ensures { ReadsImageFile (F.folder files.old) (F.folder files.new) path.now result }
{
    let bytes = read(alloc, path, files)?;
    let warnings = warnings(alloc, path, bytes.len(), false)?;
    Ok(Image { bytes, warnings })
}

/// Locks an image, if it is wanted, and then reads it. A path that ends as that of a program does is refused: a program of 128 bytes, or of
/// a multiple of that, could be taken for a short image, and be lost.
pub fn claim<'a, F: Files>(
    alloc: Global,
    path: &'a str,
    lock: bool,
    files: &mut F,
) -> Result<Image, End<'a>>
    ensures { ClaimsImage (F.folder files.old) (F.folder files.new) path.now lock result }
{
    if names_no_image(path) {
        return Err(over(alloc, path));
    }
    match files.claim(alloc, path, lock) {
        Ok(Claimed { bytes, is_locked }) => {
            let warnings = warnings(alloc, path, bytes.len(), lock && !is_locked)?;
            Ok(Image { bytes, warnings })
        }
        Err(Unread::File) => Err(End::File { path, ending: "" }),
        Err(Unread::NoMemory) => Err(End::NoMemory),
    }
}

/// Replaces a claimed image, unless its bytes are these already. Then its file keeps its time, too.
pub fn keep<'a, F: Files>(
    path: &'a str,
    bytes: &[u8],
    made: &[u8],
    files: &mut F,
) -> Result<(), End<'a>>
    requires free { IsFree (F.folder files.old) path.now }
    ensures { KeepsFile path.now bytes.now made.now (F.folder files.old) (F.folder files.new) result }
{
    if made == bytes {
        return Ok(());
    }
    match replace(files, path, made, false) {
        Ok(_) => Ok(()),
        Err(_) => Err(End::File { path, ending: "" }),
    }
}
