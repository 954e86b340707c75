//! What comes before each source: definitions from the command line, and shared files.

ghost use Rattle.std.specs.Prelude.{◌≡◌, ◌++◌, ◌≤◌, IfOk, OnOk, length};
ghost use Rattle.std.specs.List.{flat_map};
ghost use Rattle.asm_macro.specs.Texts.{source_part};
ghost use Rattle.report_texts.specs.Front.{CountsLines, define_line, defined_name, defined_value, end_of_line, front_lines, front_text, name_length, path_at, with_end};
ghost use Rattle.report_texts.specs.Lines.{line_count};

use asm_macro::source_part;
use bstr::ByteSlice;
use std::alloc::{AllocError, Global};
use std::marker::Model;

/// A source file that was read: its path, which is its name, and its text.
#[derive(Clone, Copy, Debug, PartialEq, Eq)]
pub struct SourceFile<'a> {
    pub path: &'a str,
    pub text: &'a [u8],
}

/// Answers how many lines a file has.
fn line_count(file: &SourceFile<'_>) -> usize
    ensures { result ≡ line_count file.now }
{
    source_part(file.text).lines().count()
}

/// A shared file that was read. It knows how many lines it has, since each error in a shared file is found by the lines of the files before
/// it, and there may be thousands of errors.
#[derive(Debug, Drop)]
pub struct SharedFile<'a> {
    file: SourceFile<'a>,
    lines: usize,
}

impl<'a> Model for SharedFile<'a> {
    ghost use Rattle.std.specs.Prelude.{◌≡◌};
    ghost use Rattle.report_texts.specs.declared.front.SourceFile.{SourceFile};
    ghost use Rattle.report_texts.specs.Lines.{line_count};

    ghost Value = { SourceFile };

    ghost view = { λ shared. shared.file };

    ghost invariant = { λ shared. shared.lines ≡ line_count shared.file };
}

impl<'a> SharedFile<'a> {
    /// Answers a file as a shared file, and counts its lines.
    pub fn new(file: SourceFile<'a>) -> SharedFile<'a>
        ensures { result ≡ file.entry }
    {
        let lines = line_count(&file);
        SharedFile { file, lines }
    }

    /// Answers the file.
    pub fn file(&self) -> SourceFile<'a>
        ensures { result ≡ self.now }
    {
        self.file
    }

    /// Answers how many lines the file has.
    pub(crate) fn lines(&self) -> usize
        ensures { result ≡ line_count self.now }
    {
        self.lines
    }
}

/// Answers files as shared files.
///
/// # Errors
///
/// [`AllocError`] if memory ran out.
pub fn shared_files<'a>(
    alloc: Global,
    files: &[SourceFile<'a>],
) -> Result<Vec<SharedFile<'a>>, AllocError>
    ensures { IfOk result (λ shared. shared.items ≡ files.now) }
{
    let mut shared = Vec::with_capacity(alloc, files.len())?;
    for file in files {
        shared.push(SharedFile::new(*file))?;
    }
    Ok(shared)
}

/// What comes before each source: definitions from the command line, then shared files, in the order of the words.
#[derive(Clone, Copy, Debug)]
pub struct Front<'a> {
    /// Words `NAME=VALUE`, each a line `NAME EQU VALUE`.
    pub defines: &'a [&'a str],
    /// Files that each source begins with. They hold definitions and macros.
    pub files: &'a [SharedFile<'a>],
}

/// Answers the path of a source, given its number; no path if there is no such source.
pub fn path_at<'a>(files: &[SourceFile<'a>], number: usize) -> &'a str
    ensures { result.now ≡ path_at files.now number }
{
    match files.get(number) {
        Some(file) => file.path,
        None => "",
    }
}

/// Answers how many bytes of a word `NAME=VALUE` come before the first `=`.
fn name_length(word: &[u8]) -> usize
    ensures length { result ≡ name_length word.now }
    ensures within { result ≤ length word.now }
{
    word.iter().take_while(|byte| **byte != b'=').count()
}

/// Answers NAME and VALUE of a word `NAME=VALUE`.
pub(crate) fn parts_of(word: &str) -> (&[u8], &[u8])
    ensures name { result.0.now ≡ defined_name word.now }
    ensures value { result.1.now ≡ defined_value word.now }
{
    let word = word.as_bytes();
    let (name, rest) = word.split_at(name_length(word));
    match rest {
        [_, value @ ..] => (name, value),
        [] => (name, &[]),
    }
}

/// Appends the line of a word, without a line end.
pub(crate) fn put_define(text: &mut Vec<u8>, word: &str) -> Result<(), AllocError>
    ensures { OnOk result (text.new.items ≡ text.old.items ++ define_line word.now) }
{
    let (name, value) = parts_of(word);
    text.extend_from_slice(name)?;
    text.extend_from_slice(b" EQU ")?;
    text.extend_from_slice(value)
}

/// Appends the lines of words.
fn put_defines(text: &mut Vec<u8>, defines: &[&str]) -> Result<(), AllocError>
    ensures { OnOk result (text.new.items ≡ text.old.items ++ flat_map (λ word. define_line word.now ++ end_of_line) defines.now) }
{
    for word in defines {
        put_define(text, word)?;
        text.push(b'\n')?;
    }
    Ok(())
}

/// Appends a text, and a line end if its last line has none.
fn put_ended(text: &mut Vec<u8>, part: &[u8]) -> Result<(), AllocError>
    ensures { OnOk result (text.new.items ≡ text.old.items ++ with_end part.now) }
{
    text.extend_from_slice(part)?;
    match part.last() {
        Some(b'\n') | None => Ok(()),
        Some(_) => Ok(text.push(b'\n')?),
    }
}

/// Appends shared files.
fn put_files(text: &mut Vec<u8>, files: &[SharedFile<'_>]) -> Result<(), AllocError>
    ensures { OnOk result (text.new.items ≡ text.old.items ++ flat_map (λ file. with_end (source_part file.text.now)) files.now) }
{
    for file in files {
        put_ended(text, source_part(file.file().text))?;
    }
    Ok(())
}

/// Answers the text of a front.
pub fn front_text(alloc: Global, front: Front<'_>) -> Result<Vec<u8>, AllocError>
    ensures { IfOk result (λ text. text.items ≡ front_text front.entry) }
{
    let mut text = Vec::new(alloc);
    put_defines(&mut text, front.defines)?;
    put_files(&mut text, front.files)?;
    Ok(text)
}

/// Answers a text after the text of a front.
pub fn text_behind(alloc: Global, front: &[u8], text: &[u8]) -> Result<Vec<u8>, AllocError>
    ensures { IfOk result (λ both. both.items ≡ front.now ++ text.now) }
{
    let mut both = Vec::with_capacity(alloc, front.len().saturating_add(text.len()))?;
    both.extend_from_slice(front)?;
    both.extend_from_slice(text)?;
    Ok(both)
}

/// Answers how many lines a front has, or the highest number of a line if that is less.
pub fn front_lines(front: Front<'_>) -> usize
    ensures { CountsLines result (front_lines front.entry) }
{
    let mut lines = front.defines.len();
    for file in front.files {
        lines = lines.saturating_add(file.lines());
    }
    lines
}
