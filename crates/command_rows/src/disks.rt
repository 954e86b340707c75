//! Rows of images in memory, and of the commands that use them.

ghost use Rattle.std.specs.Prelude.{◌<◌, ◌≡◌, IfSome, false};
ghost use Rattle.z80dev_disk.specs.Words.{is_wild};

use crate::step::{Change, Look, NewImage, Put, Step, step_named};
use row_text::Row;
use std::alloc::{AllocError, Global};
use z80dev_disk::{
    Answer, Asked, Attribute, DiskKind, Name, PutFile, Refusal, blank, check_disk, cpm_text, dir,
    erase, file_name, get, get_all, mark, pattern_of, put, rename,
};

/// The first byte of the directory of an eight inch disk: after two tracks of 26 sectors.
const DIRECTORY: usize = 6_656;

/// An image, and the user whose files the steps of a row change.
#[derive(Drop)]
struct Drive {
    image: Vec<u8>,
    user: u8,
}

impl Drive {
    /// The user.
    fn user(&self) -> u8
        ensures { result < 32 }
    {
        self.user % 32
    }

    /// Puts a changed image in the place of the old one. A refusal is printed, and leaves the image.
    fn take(&mut self, row: &mut Row, made: Result<Vec<u8>, Refusal>) {
        match made {
            Ok(made) => {
                self.image = made;
                write!(row, " done")
            }
            Err(refusal) => show_refusal(row, refusal),
        }
    }
}

/// Prints why a call is refused.
fn show_refusal(row: &mut Row, refusal: Refusal) {
    match format!(in row.alloc(); "{refusal}") {
        Ok(text) => {
            write!(row, " error: ");
            row.write_text(text.as_bytes())
        }
        Err(_) => row.refuse("no memory"),
    }
}

/// Prints an answer: what it prints, its files, and its refusal.
fn show_answer(row: &mut Row, answer: &Answer<Refusal>) {
    row.write_runs(&answer.printed);
    for file in answer.files.iter() {
        write!(row, " {:?}", file.kind);
        row.write_runs(&file.bytes);
    }
    if let Some(refusal) = answer.refusal {
        show_refusal(row, refusal);
    }
}

/// An eight inch image that ends after these entries.
fn image_of(alloc: Global, entries: &[u8]) -> Result<Vec<u8>, AllocError> {
    let mut image = vec![in alloc; 0xE5; DIRECTORY]?;
    image.extend_from_slice(entries)?;
    Ok(image)
}

/// The image that a step makes.
fn new_image(row: &mut Row, step: NewImage) -> Result<Vec<u8>, AllocError> {
    match step {
        NewImage::Eight => blank(row.alloc(), DiskKind::EightInch),
        NewImage::Mega => blank(row.alloc(), DiskKind::Megabyte),
        NewImage::Bytes => vec![in row.alloc(); 0xE5; row.decimal() as usize],
        NewImage::Entries => image_of(row.alloc(), &row.bytes()),
    }
}

/// Carries out a step that makes an image.
fn make(row: &mut Row, drive: &mut Drive, step: NewImage) {
    match new_image(row, step) {
        Ok(image) => {
            write!(row, " {} bytes", image.len());
            drive.image = image;
        }
        Err(_) => row.refuse("no memory"),
    }
}

/// Puts a file with the given number of bytes 21H on the disk.
fn put_file(row: &mut Row, drive: &mut Drive, replace: bool) {
    let Some(name) = file_name(row.word()) else {
        return row.refuse("no name");
    };
    let Ok(bytes) = vec![in row.alloc(); 0x21; row.decimal() as usize] else {
        return row.refuse("no memory");
    };
    let file = PutFile {
        name,
        bytes: &bytes,
    };
    let made = put(row.alloc(), &drive.image, drive.user(), replace, &[file]);
    drive.take(row, made)
}

/// Puts two files without bytes on the disk, in one call.
fn put_two(row: &mut Row, drive: &mut Drive) {
    let Some(first) = file_name(row.word()) else {
        return row.refuse("no name");
    };
    let Some(second) = file_name(row.word()) else {
        return row.refuse("no second name");
    };
    let files = [
        PutFile {
            name: first,
            bytes: &[],
        },
        PutFile {
            name: second,
            bytes: &[],
        },
    ];
    let made = put(row.alloc(), &drive.image, drive.user(), false, &files);
    drive.take(row, made)
}

/// Puts a text on the disk.
fn put_text(row: &mut Row, drive: &mut Drive) {
    let Some(name) = file_name(row.word()) else {
        return row.refuse("no name");
    };
    let text = row.rest();
    let text = row.lines_of(text);
    let Ok(bytes) = cpm_text(row.alloc(), &text) else {
        return row.refuse("no memory");
    };
    let file = PutFile {
        name,
        bytes: &bytes,
    };
    let made = put(row.alloc(), &drive.image, drive.user(), true, &[file]);
    drive.take(row, made)
}

/// The name `F` and a number.
fn numbered(alloc: Global, number: u32) -> Option<Name>
    ensures { IfSome result (λ name. is_wild name ≡ false) }
{
    let word = format!(in alloc; "F{number}").ok()?;
    file_name(word.as_str())
}

/// Puts this many empty files F0, F1 and so on, on the disk.
fn put_many(row: &mut Row, drive: &mut Drive) {
    for number in 0..row.decimal() {
        let Some(name) = numbered(row.alloc(), number) else {
            return row.refuse("no name");
        };
        let file = PutFile { name, bytes: &[] };
        match put(row.alloc(), &drive.image, drive.user(), false, &[file]) {
            Ok(made) => drive.image = made,
            Err(refusal) => return show_refusal(row, refusal),
        }
    }
    write!(row, " done")
}

/// Carries out a step that puts files.
fn put_files(row: &mut Row, drive: &mut Drive, step: Put) {
    match step {
        Put::New => put_file(row, drive, false),
        Put::Replace => put_file(row, drive, true),
        Put::Two => put_two(row, drive),
        Put::Text => put_text(row, drive),
        Put::Empty => put_many(row, drive),
    }
}

/// Renames a file.
fn rename_file(row: &mut Row, drive: &mut Drive) {
    let Some(old) = file_name(row.word()) else {
        return row.refuse("no name");
    };
    let Some(new) = file_name(row.word()) else {
        return row.refuse("no second name");
    };
    let made = rename(row.alloc(), &drive.image, drive.user(), &old, &new);
    drive.take(row, made)
}

/// Words as patterns. None: one is no pattern, or there is no memory.
fn patterns(alloc: Global, words: &str) -> Option<Vec<[u8; 11]>> {
    let mut found = Vec::new(alloc);
    for word in words.split(' ') {
        found.push(pattern_of(word)?).ok()?;
    }
    Some(found)
}

/// The image after files that match are erased, or have an attribute set or cleared.
fn changed(
    alloc: Global,
    drive: &Drive,
    step: Change,
    patterns: &[[u8; 11]],
) -> Result<Vec<u8>, Refusal> {
    let (image, user) = (&drive.image, drive.user());
    match step {
        Change::Protect => mark(alloc, image, user, Attribute::ReadOnly, true, patterns),
        Change::Unprotect => mark(alloc, image, user, Attribute::ReadOnly, false, patterns),
        Change::Hide => mark(alloc, image, user, Attribute::System, true, patterns),
        Change::Show => mark(alloc, image, user, Attribute::System, false, patterns),
        _ => erase(alloc, image, user, patterns),
    }
}

/// Carries out a step that changes the files that match.
fn change_matches(row: &mut Row, drive: &mut Drive, step: Change) {
    let Some(patterns) = patterns(row.alloc(), row.rest()) else {
        return row.refuse("no pattern");
    };
    let made = changed(row.alloc(), drive, step, &patterns);
    drive.take(row, made)
}

/// Carries out a step that changes files.
fn change(row: &mut Row, drive: &mut Drive, step: Change) {
    match step {
        Change::Rename => rename_file(row, drive),
        _ => change_matches(row, drive, step),
    }
}

/// Prints a file that is there.
fn get_file(row: &mut Row, drive: &Drive, text: bool) {
    let Some(name) = file_name(row.word()) else {
        return row.refuse("no name");
    };
    let answer = get(row.alloc(), &drive.image, drive.user(), &name, text);
    show_answer(row, &answer)
}

/// Prints each file that matches, with its name on the host.
fn get_files(row: &mut Row, drive: &Drive, text: bool) {
    let Some(pattern) = pattern_of(row.word()) else {
        return row.refuse("no pattern");
    };
    match get_all(row.alloc(), &drive.image, drive.user(), &pattern, text) {
        Ok(files) => {
            for file in files.iter() {
                row.write_runs(file.name.as_bytes());
                row.write_runs(&file.bytes);
            }
        }
        Err(refusal) => show_refusal(row, refusal),
    }
}

/// What a listing is asked for: all files, or those of the user that match.
fn asked_of(row: &mut Row, drive: &Drive, long: bool) -> Asked {
    let word = row.word();
    if word.is_empty() {
        return Asked {
            user: None,
            pattern: None,
            long,
        };
    }
    let pattern = pattern_of(word);
    if pattern.is_none() {
        row.refuse("no pattern");
    }
    Asked {
        user: Some(drive.user()),
        pattern,
        long,
    }
}

/// Prints the listing of all files, or of those of the user that match.
fn list_files(row: &mut Row, drive: &Drive, long: bool) {
    let asked = asked_of(row, drive, long);
    let answer = dir(row.alloc(), &drive.image, &asked);
    show_answer(row, &answer)
}

/// Some bytes of an image: the number of the first, and how many.
fn part_of(image: &[u8], from: u32, count: u32) -> Option<&[u8]> {
    image.get(from as usize..)?.get(..count as usize)
}

/// Prints some bytes of an image.
fn show_part(row: &mut Row, image: &[u8]) {
    let (from, count) = (row.decimal(), row.decimal());
    match part_of(image, from, count) {
        Some(part) => row.write_runs(part),
        None => row.refuse("no such bytes"),
    }
}

/// Prints the answer of `check_disk`.
fn show_checked(row: &mut Row, image: &[u8]) {
    let answer = check_disk(row.alloc(), image);
    show_answer(row, &answer)
}

/// Carries out a step that looks at an image.
fn look(row: &mut Row, drive: &Drive, step: Look) {
    match step {
        Look::Get => get_file(row, drive, false),
        Look::Text => get_file(row, drive, true),
        Look::GetAll => get_files(row, drive, false),
        Look::Texts => get_files(row, drive, true),
        Look::Dir => list_files(row, drive, false),
        Look::Long => list_files(row, drive, true),
        Look::Check => show_checked(row, &drive.image),
        Look::At => show_part(row, &drive.image),
        Look::Whole => row.write_runs(&drive.image),
        Look::Size => write!(row, " {} bytes", drive.image.len()),
    }
}

/// Carries out a step.
fn answer_step(row: &mut Row, drive: &mut Drive) {
    match step_named(row.word()) {
        Some(Step::Make(step)) => make(row, drive, step),
        Some(Step::User) => drive.user = row.byte(),
        Some(Step::Look(step)) => look(row, drive, step),
        Some(Step::Change(step)) => change(row, drive, step),
        Some(Step::Put(step)) => put_files(row, drive, step),
        None => row.refuse("no such step"),
    }
}

/// Carries out a step of a row.
fn answer_part(row: &mut Row, drive: &mut Drive, part: &str) {
    let mut step = Row::new(row.alloc(), part);
    answer_step(&mut step, drive);
    row.write_bytes(step.answer());
    if step.is_wrong() {
        row.refuse("no such step");
    }
}

/// Carries out the steps of a row, each on the image that the steps before it leave.
pub(crate) fn answer_disk(row: &mut Row) {
    let mut drive = Drive {
        image: Vec::new(row.alloc()),
        user: 0,
    };
    for (number, part) in row.rest().split(" & ").enumerate() {
        if number != 0 {
            write!(row, ";");
        }
        answer_part(row, &mut drive, part);
    }
}
