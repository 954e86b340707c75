//! The commands that list what is on a disk.

ghost use Rattle.z80dev.specs.Disks.{CheckDiskEnds, DirEnds};
ghost use Rattle.host.specs.Ending.{effect_of, EndsWith};
ghost use Rattle.z80dev.specs.Private.DiskSteps.{DoneWith};

use crate::disks::names::pattern_if_given;
use host::{End, Files, Sink, finish, read_image};
use std::alloc::Global;
use z80dev_disk::{Asked, check_disk, dir};

/// A line that goes with the end at which all is done.
pub(crate) fn done_with<'a>(end: End<'a>, line: Option<String>) -> Result<Option<String>, End<'a>>
    ensures { DoneWith end.entry line result }
{
    match end {
        End::Done => Ok(line),
        end => Err(end),
    }
}

/// Lists the files of a disk: of one user or of all, those that match a word or all.
pub(crate) fn dir_image<'a, F: Files, W: Sink>(
    alloc: Global,
    image: &'a str,
    user: Option<u8>,
    long: bool,
    word: Option<&'a str>,
    files: &mut F,
    output: &mut W,
) -> Result<Option<String>, End<'a>>
    ensures { EndsWith (DirEnds image.now user long word.entry (effect_of (F.folder files.old) (F.folder files.new) (W.stream output.old) (W.stream output.new))) result }
{
    let pattern = pattern_if_given(alloc, word)?;
    let read = read_image(alloc, image, files)?;
    let asked = Asked {
        user,
        pattern,
        long,
    };
    let answer = dir(alloc, &read.bytes, &asked);
    let end = finish(alloc, image, &answer, files, output);
    done_with(end, read.warnings)
}

/// Lists the entries of a directory that break a rule.
pub(crate) fn check_image<'a, F: Files, W: Sink>(
    alloc: Global,
    image: &'a str,
    files: &mut F,
    output: &mut W,
) -> Result<Option<String>, End<'a>>
    ensures { EndsWith (CheckDiskEnds image.now (effect_of (F.folder files.old) (F.folder files.new) (W.stream output.old) (W.stream output.new))) result }
{
    let read = read_image(alloc, image, files)?;
    let answer = check_disk(alloc, &read.bytes);
    let end = finish(alloc, image, &answer, files, output);
    done_with(end, read.warnings)
}
