//! Ends a command that changes an image.

ghost use Rattle.host.specs.Files.{IsFree};
ghost use Rattle.z80dev.specs.Private.Images.{ChangesInto};

use crate::disks::names::refusal_end;
use host::{End, Files, Image, keep};
use std::alloc::Global;
use z80dev_disk::Refusal;

/// Ends a command that changes a claimed image. If all is done, the result is its warnings.
pub(crate) fn change<'a, F: Files>(
    alloc: Global,
    path: &'a str,
    image: Image,
    made: Result<Vec<u8>, Refusal>,
    files: &mut F,
) -> Result<Option<String>, End<'a>>
    requires free { IsFree (F.folder files.old) path.now }
    ensures { ChangesInto path.now image made (F.folder files.old) (F.folder files.new) result }
{
    match made {
        Ok(made) => {
            keep(path, &image.bytes, &made, files)?;
            Ok(image.warnings)
        }
        Err(why) => Err(refusal_end(alloc, why)),
    }
}
