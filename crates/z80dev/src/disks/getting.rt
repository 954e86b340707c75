//! The commands that get files from a disk.

ghost use Rattle.std.specs.Prelude.{◌≡◌, ◌<◌, IfOk, List, Some, find, length, map, option_map, ℕ, string_bytes};
ghost use Rattle.host.specs.SamePath.{is_same_path};
ghost use Rattle.cpm_image.specs.declared.directory.entry.TheConstants.{USERS};
ghost use Rattle.host.specs.Streams.Stream.{Stream};
ghost use Rattle.z80dev.specs.Disks.{GetAllEnds, GetEnds, GetsInto, GetsMatching, GetsNamed, GetsTo, gotten_paths, over_image};
ghost use Rattle.host.specs.Ending.{effect_of, EndsWith, IsClear};
ghost use Rattle.z80dev.specs.Private.Images.{WritesAll};
ghost use Rattle.z80dev.specs.Private.DiskSteps.{EndsWarned};

use crate::disks::listing::done_with;
use crate::disks::names::{pattern_of_word, refusal_end};
use host::{End, Files, Sink, finish, is_same_path, read_image};
use std::alloc::{AllocError, Global};
use z80dev_commands::Get;
use z80dev_disk::{Gotten, Name, file_name, get, get_all};

/// The pattern that matches every name.
const ALL: [u8; 11] = [b'?'; 11];

/// The path of each file in a folder.
fn paths_in(alloc: Global, folder: &str, gotten: &[Gotten]) -> Result<Vec<String>, AllocError>
    ensures { IfOk result (λ paths. map string_bytes paths.items ≡ gotten_paths folder.now gotten.now) }
{
    let mut paths = Vec::with_capacity(alloc, gotten.len())?;
    for file in gotten {
        let name = &file.name;
        paths.push(format!(in alloc; "{folder}/{name}")?)?;
    }
    Ok(paths)
}

/// The first path that names the image.
fn first_over<'p>(image: &str, paths: &'p [String]) -> Option<&'p String>
    ensures { option_map (λ path. string_bytes path.now) result ≡ find (λ path. is_same_path path image.now) (map string_bytes paths.now) }
{
    for path in paths {
        if is_same_path(path, image) {
            return Some(path);
        }
    }
    None
}

/// Refuses to write over the image that the files are read from.
fn refuse_image(alloc: Global, image: &str, paths: &[String]) -> Result<(), End<'static>>
    ensures { IsClear (over_image image.now (map string_bytes paths.now)) result }
{
    match first_over(image, paths) {
        Some(path) => Err(End::Refused(format!(in alloc; "Overwrites({path})")?)),
        None => Ok(()),
    }
}

/// Writes files into a folder, each under its path. The paths are there beforehand: once a file is written, it is too late to run out of
/// memory.
fn write_into<'a, F: Files>(
    folder: &str,
    mut paths: Vec<String>,
    gotten: &[Gotten],
    files: &mut F,
) -> Result<(), End<'a>>
    requires { map string_bytes paths.items ≡ gotten_paths folder.now gotten.now }
    ensures { WritesAll folder.now gotten.now (F.folder files.old) (F.folder files.new) result }
{
    for (number, file) in gotten.iter().enumerate() {
        let Ok(()) = files.write(&paths[number], &file.bytes) else {
            return Err(End::Path(paths.swap_remove(number)));
        };
    }
    Ok(())
}

/// Gets the files of a user that match a pattern into a folder, whose path is not empty. If one of them would overwrite the image, none is written.
fn get_matching<'a, F: Files>(
    alloc: Global,
    image: &'a str,
    user: u8,
    text: bool,
    pattern: &[u8; 11],
    folder: &str,
    files: &mut F,
) -> Result<Option<String>, End<'a>>
    requires user { user < USERS }
    ensures { (o : Stream) → EndsWarned (GetsMatching image.now user text pattern.now folder.now (effect_of (F.folder files.old) (F.folder files.new) o o)) result }
{
    let read = read_image(alloc, image, files)?;
    match get_all(alloc, &read.bytes, user, pattern, text) {
        Ok(gotten) => {
            let paths = paths_in(alloc, folder, &gotten)?;
            refuse_image(alloc, image, &paths)?;
            write_into(folder, paths, &gotten, files)?;
            Ok(read.warnings)
        }
        Err(why) => Err(refusal_end(alloc, why)),
    }
}

/// Gets the files of a user that match a pattern into a folder. An empty path names no folder: with it, the files would come into the root.
fn get_into<'a, F: Files>(
    alloc: Global,
    image: &'a str,
    user: u8,
    text: bool,
    pattern: &[u8; 11],
    folder: &str,
    files: &mut F,
) -> Result<Option<String>, End<'a>>
    requires user { user < USERS }
    ensures { (o : Stream) → EndsWarned (GetsInto image.now user text pattern.now folder.now (effect_of (F.folder files.old) (F.folder files.new) o o)) result }
{
    if folder.is_empty() {
        return Err(End::File {
            path: "",
            ending: "",
        });
    }
    get_matching(alloc, image, user, text, pattern, folder, files)
}

/// Gets all files of a user into a folder.
pub(crate) fn get_every<'a, F: Files>(
    alloc: Global,
    image: &'a str,
    user: u8,
    text: bool,
    folder: &str,
    files: &mut F,
) -> Result<Option<String>, End<'a>>
    requires user { user < USERS }
    ensures { (o : Stream) → EndsWith (GetAllEnds image.now user text folder.now (effect_of (F.folder files.old) (F.folder files.new) o o)) result }
{
    get_into(alloc, image, user, text, &ALL, folder, files)
}

/// Gets the file of a name to a path.
fn get_to<'a, F: Files, W: Sink>(
    alloc: Global,
    image: &'a str,
    user: u8,
    text: bool,
    name: &Name,
    path: &'a str,
    files: &mut F,
    output: &mut W,
) -> Result<Option<String>, End<'a>>
    requires user { user < USERS }
    ensures { EndsWarned (GetsTo name.now image.now user text path.now (effect_of (F.folder files.old) (F.folder files.new) (W.stream output.old) (W.stream output.new))) result }
{
    let read = read_image(alloc, image, files)?;
    let answer = get(alloc, &read.bytes, user, name, text);
    let end = finish(alloc, path, &answer, files, output);
    done_with(end, read.warnings)
}

/// Gets the file of a name to a path that is not that of the image.
fn get_named<'a, F: Files, W: Sink>(
    alloc: Global,
    image: &'a str,
    user: u8,
    text: bool,
    name: &Name,
    path: &'a str,
    files: &mut F,
    output: &mut W,
) -> Result<Option<String>, End<'a>>
    requires user { user < USERS }
    ensures { (word : List ℕ) → EndsWarned (GetsNamed (Some name.now) image.now user text word path.now (effect_of (F.folder files.old) (F.folder files.new) (W.stream output.old) (W.stream output.new))) result }
{
    if is_same_path(path, image) {
        return Err(End::Refused(format!(in alloc; "Overwrites({path})")?));
    }
    get_to(alloc, image, user, text, name, path, files, output)
}

/// Gets a file of a disk; or into a folder all that match, if the word has `?` or `*`.
pub(crate) fn get_file<'a, F: Files, W: Sink>(
    alloc: Global,
    get: Get<'a>,
    files: &mut F,
    output: &mut W,
) -> Result<Option<String>, End<'a>>
    requires user { get.user < USERS }
    ensures { EndsWith (GetEnds get.entry (effect_of (F.folder files.old) (F.folder files.new) (W.stream output.old) (W.stream output.new))) result }
{
    let Get {
        image,
        user,
        text,
        name,
        file,
    } = get;
    match file_name(name) {
        Some(known) => get_named(alloc, image, user, text, &known, file, files, output),
        None => {
            let pattern = pattern_of_word(alloc, name)?;
            get_into(alloc, image, user, text, &pattern, file, files)
        }
    }
}
