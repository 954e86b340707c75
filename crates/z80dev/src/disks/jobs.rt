//! The commands on images of disks.

ghost use Rattle.std.specs.Prelude.{◌≡◌};
ghost use Rattle.z80dev.specs.Disks.{DiskJobEnds, HasUser};
ghost use Rattle.host.specs.Ending.{effect_of, EndsWith};

use crate::disks::changing::{
    blank_image, erase_files, protect_files, put_file, put_files, rename_file,
};
use crate::disks::getting::{get_every, get_file};
use crate::disks::listing::{check_image, dir_image};
use host::{End, Files, Sink};
use std::alloc::Global;
use z80dev_commands::DiskJob;

/// Does a job on an image of a disk. If all is done, the result is the lines that warn, if there are some.
pub fn do_on_disk<'a, F: Files, W: Sink>(
    alloc: Global,
    job: DiskJob<'a>,
    files: &mut F,
    output: &mut W,
) -> Result<Option<String>, End<'a>>
    requires user { HasUser job }
    ensures { EndsWith (DiskJobEnds job.entry (effect_of (F.folder files.old) (F.folder files.new) (W.stream output.old) (W.stream output.new))) result }
{
    match job {
        DiskJob::Dir(dir) => dir_image(
            alloc, dir.image, dir.user, dir.long, dir.name, files, output,
        ),
        DiskJob::Put(put) => put_file(alloc, put.target, put.manner, put.file, put.name, files),
        DiskJob::PutAll(put) => put_files(alloc, put.target, put.manner, &put.files, files),
        DiskJob::Get(get) => get_file(alloc, get, files, output),
        DiskJob::GetAll(get) => get_every(alloc, get.image, get.user, get.text, get.folder, files),
        DiskJob::Erase(erase) => erase_files(alloc, erase.target, &erase.names, files),
        DiskJob::Rename(rename) => rename_file(alloc, rename.target, rename.old, rename.new, files),
        DiskJob::Protect(protect) => protect_files(
            alloc,
            protect.target,
            protect.attribute,
            protect.on,
            &protect.names,
            files,
        ),
        DiskJob::Check(image) => check_image(alloc, image, files, output),
        DiskJob::Blank(blank) => blank_image(
            alloc,
            blank.mega,
            blank.keep,
            blank.lock,
            blank.image,
            files,
        ),
    }
}
