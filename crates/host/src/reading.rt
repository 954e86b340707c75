//! What a command reads.

ghost use Rattle.std.specs.Prelude.{map};
ghost use Rattle.host.specs.Reading.{ReadsIfGiven, ReadsAll, ReadsFile};

use crate::{End, Files, Unread};
use std::alloc::Global;

/// The bytes of a file.
pub fn read<'a, F: Files>(alloc: Global, path: &'a str, files: &mut F) -> Result<Vec<u8>, End<'a>>
    ensures { ReadsFile (F.folder files.old) (F.folder files.new) path.now result }
{
    match files.read(alloc, path) {
        Ok(bytes) => Ok(bytes),
        Err(Unread::File) => Err(End::File { path, ending: "" }),
        Err(Unread::NoMemory) => Err(End::NoMemory),
    }
}

/// The bytes of a file, if its path is given.
pub fn read_if_given<'a, F: Files>(
    alloc: Global,
    path: Option<&'a str>,
    files: &mut F,
) -> Result<Option<Vec<u8>>, End<'a>>
    ensures { ReadsIfGiven path.entry (F.folder files.old) (F.folder files.new) result }
{
    match path {
        Some(path) => Ok(Some(read(alloc, path, files)?)),
        None => Ok(None),
    }
}

/// The bytes of files, read in their order.
pub fn read_all<'a, F: Files>(
    alloc: Global,
    paths: &[&'a str],
    files: &mut F,
) -> Result<Vec<Vec<u8>>, End<'a>>
    ensures { ReadsAll (F.folder files.old) (F.folder files.new) (map (λ path. path.now) paths.now) result }
{
    let mut texts = Vec::with_capacity(alloc, paths.len())?;
    for path in paths {
        let text = read(alloc, path, files)?;
        let Ok(()) = texts.push(text) else {
            return Err(End::NoMemory);
        };
    }
    Ok(texts)
}
