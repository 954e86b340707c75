//! The commands that change an image.

ghost use Rattle.std.specs.Prelude.{◌≡◌, ◌<◌, All, IfOk, false, length, map};
ghost use Rattle.cpm_image.specs.declared.directory.entry.TheConstants.{USERS};
ghost use Rattle.host.specs.Streams.Stream.{Stream};
ghost use Rattle.z80dev_disk.specs.Words.{is_wild};
ghost use Rattle.z80dev.specs.Disks.{BlankEnds, EraseEnds, ProtectEnds, PutAllEnds, PutEnds, RenameEnds, as_put, attribute_of, kind_of, without_name};
ghost use Rattle.host.specs.Ending.{effect_of, EndsWith};
ghost use Rattle.z80dev.specs.Private.Images.{ArePuts, LocksPath};

use crate::disks::change::change;
use crate::disks::names::{name_of, own_names, patterns_of, refusal_end};
use host::{
    End, Files, Placed, Unread, claim, names_no_image, over, read, read_all, replace, warnings,
};
use std::alloc::{AllocError, Global};
use z80dev_commands::{Attribute, Manner, Target};
use z80dev_disk::{
    DiskFault, DiskKind, Name, PutFile, Refusal, blank, cpm_text, erase, mark, put, rename,
};

/// The bytes that are put for a file's: with `text`, as CP/M keeps a text.
fn as_put(alloc: Global, text: bool, file: Vec<u8>) -> Result<Vec<u8>, AllocError>
    ensures { IfOk result (λ bytes. bytes.items ≡ as_put text file.items) }
{
    if text {
        return cpm_text(alloc, &file);
    }
    Ok(file)
}

/// A refusal of one file alone does not name it.
fn without_name(made: Result<Vec<u8>, Refusal>) -> Result<Vec<u8>, Refusal>
    ensures { result ≡ without_name made }
{
    match made {
        Ok(made) => Ok(made),
        Err(why) => Err(why.unnamed()),
    }
}

/// Puts a file on a disk.
pub(crate) fn put_file<'a, F: Files>(
    alloc: Global,
    target: Target<'a>,
    manner: Manner,
    path: &'a str,
    word: &str,
    files: &mut F,
) -> Result<Option<String>, End<'a>>
    requires user { target.user < USERS }
    ensures { (o : Stream) → EndsWith (PutEnds target.entry manner path.now word.now (effect_of (F.folder files.old) (F.folder files.new) o o)) result }
{
    let name = name_of(alloc, word)?;
    let image = claim(alloc, target.image, target.lock, files)?;
    let file = read(alloc, path, files)?;
    let bytes = as_put(alloc, manner.text, file)?;
    let puts = [PutFile {
        name,
        bytes: &bytes,
    }];
    let made = put(alloc, &image.bytes, target.user, manner.replace, &puts);
    change(alloc, target.image, image, without_name(made), files)
}

/// The files to put, each with the name that it gets.
fn puts_of<'t>(
    alloc: Global,
    names: &[Name],
    texts: &'t [Vec<u8>],
) -> Result<Vec<PutFile<'t>>, AllocError>
    requires lengths { length names.now ≡ length texts.now }
    requires plain { All (λ name. is_wild name ≡ false) names.now }
    ensures plain { IfOk result (λ puts. All (λ put. is_wild put.name ≡ false) puts.items) }
    ensures puts { IfOk result (λ puts. ArePuts names.now (map (λ text. text.items) texts.now) puts.items) }
{
    let mut puts = Vec::new(alloc);
    for name in names {
        let bytes = &texts[puts.len()];
        let Ok(()) = puts.push(PutFile { name: *name, bytes }) else {
            return Err(AllocError);
        };
    }
    Ok(puts)
}

/// Files as they are put, in their order.
fn all_as_put(alloc: Global, text: bool, files: Vec<Vec<u8>>) -> Result<Vec<Vec<u8>>, AllocError>
    ensures { IfOk result (λ all. map (λ bytes. bytes.items) all.items ≡ map (λ file. as_put text file.items) files.items) }
{
    if !text {
        return Ok(files);
    }
    let mut all = Vec::with_capacity(alloc, files.len())?;
    for file in &files {
        all.push(cpm_text(alloc, file)?)?;
    }
    Ok(all)
}

/// Puts files on a disk, each under its own name, all of them or none.
pub(crate) fn put_files<'a, F: Files>(
    alloc: Global,
    target: Target<'a>,
    manner: Manner,
    paths: &[&'a str],
    files: &mut F,
) -> Result<Option<String>, End<'a>>
    requires user { target.user < USERS }
    ensures { (o : Stream) → EndsWith (PutAllEnds target.entry manner (map (λ path. path.now) paths.now) (effect_of (F.folder files.old) (F.folder files.new) o o)) result }
{
    let names = own_names(alloc, paths)?;
    let image = claim(alloc, target.image, target.lock, files)?;
    let texts = read_all(alloc, paths, files)?;
    let texts = all_as_put(alloc, manner.text, texts)?;
    let Ok(puts) = puts_of(alloc, &names, &texts) else {
        return Err(End::NoMemory);
    };
    let made = put(alloc, &image.bytes, target.user, manner.replace, &puts);
    change(alloc, target.image, image, made, files)
}

/// Erases the files that match words, all of them or none.
pub(crate) fn erase_files<'a, F: Files>(
    alloc: Global,
    target: Target<'a>,
    words: &[&'a str],
    files: &mut F,
) -> Result<Option<String>, End<'a>>
    requires user { target.user < USERS }
    ensures { (o : Stream) → EndsWith (EraseEnds target.entry (map (λ word. word.now) words.now) (effect_of (F.folder files.old) (F.folder files.new) o o)) result }
{
    let patterns = patterns_of(alloc, words)?;
    let image = claim(alloc, target.image, target.lock, files)?;
    let made = erase(alloc, &image.bytes, target.user, &patterns);
    change(alloc, target.image, image, made, files)
}

/// Gives a file another name.
pub(crate) fn rename_file<'a, F: Files>(
    alloc: Global,
    target: Target<'a>,
    old: &str,
    new: &str,
    files: &mut F,
) -> Result<Option<String>, End<'a>>
    requires user { target.user < USERS }
    ensures { (o : Stream) → EndsWith (RenameEnds target.entry old.now new.now (effect_of (F.folder files.old) (F.folder files.new) o o)) result }
{
    let old = name_of(alloc, old)?;
    let new = name_of(alloc, new)?;
    let image = claim(alloc, target.image, target.lock, files)?;
    let made = rename(alloc, &image.bytes, target.user, &old, &new);
    change(alloc, target.image, image, made, files)
}

/// The attribute of a directory that a word names.
fn attribute_of(word: Attribute) -> z80dev_disk::Attribute
    ensures { result ≡ attribute_of word }
{
    match word {
        Attribute::ReadOnly => z80dev_disk::Attribute::ReadOnly,
        Attribute::System => z80dev_disk::Attribute::System,
    }
}

/// Sets an attribute of the files that match words, or takes it away.
pub(crate) fn protect_files<'a, F: Files>(
    alloc: Global,
    target: Target<'a>,
    attribute: Attribute,
    on: bool,
    words: &[&'a str],
    files: &mut F,
) -> Result<Option<String>, End<'a>>
    requires user { target.user < USERS }
    ensures { (o : Stream) → EndsWith (ProtectEnds target.entry attribute on (map (λ word. word.now) words.now) (effect_of (F.folder files.old) (F.folder files.new) o o)) result }
{
    let patterns = patterns_of(alloc, words)?;
    let image = claim(alloc, target.image, target.lock, files)?;
    let attribute = attribute_of(attribute);
    let made = mark(alloc, &image.bytes, target.user, attribute, on, &patterns);
    change(alloc, target.image, image, made, files)
}

/// The kind of disk that `blank` makes.
fn kind_of(mega: bool) -> DiskKind
    ensures { result ≡ kind_of mega }
{
    if mega {
        DiskKind::Megabyte
    } else {
        DiskKind::EightInch
    }
}

/// Takes the lock of a path, if it is wanted, and gives whether it is held. A path that ends as that of a program does is refused.
fn lock_path<'a, F: Files>(
    alloc: Global,
    path: &'a str,
    lock: bool,
    files: &mut F,
) -> Result<bool, End<'a>>
    ensures { LocksPath (F.folder files.old) (F.folder files.new) path.now lock result }
{
    if names_no_image(path) {
        return Err(over(alloc, path));
    }
    match files.lock(alloc, path, lock) {
        Ok(is_held) => Ok(is_held),
        Err(Unread::File) => Err(End::File { path, ending: "" }),
        Err(Unread::NoMemory) => Err(End::NoMemory),
    }
}

/// Makes the image of a blank disk; with `keep`, only if there is no file of its path.
pub(crate) fn blank_image<'a, F: Files>(
    alloc: Global,
    mega: bool,
    keep: bool,
    lock: bool,
    image: &'a str,
    files: &mut F,
) -> Result<Option<String>, End<'a>>
    ensures { (o : Stream) → EndsWith (BlankEnds mega keep lock image.now (effect_of (F.folder files.old) (F.folder files.new) o o)) result }
{
    let made = blank(alloc, kind_of(mega))?;
    let is_held = lock_path(alloc, image, lock, files)?;
    let warnings = warnings(alloc, image, 0, lock && !is_held)?;
    match replace(files, image, &made, keep) {
        Ok(Placed::Done) => Ok(warnings),
        Ok(Placed::Exists) => Err(refusal_end(alloc, Refusal::Disk(DiskFault::Exists))),
        Err(_) => Err(End::File {
            path: image,
            ending: "",
        }),
    }
}
