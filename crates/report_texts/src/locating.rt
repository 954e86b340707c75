//! Finds the file and the line of an error that a front has, or a source after it.

ghost use Rattle.std.specs.Prelude.{◌≡◌, ◌-◌, ◌≤◌, length, nat_le, take};
ghost use Rattle.report_texts.specs.Faults.Refusals.{told_text};
ghost use Rattle.report_texts.specs.Front.{front_fault_text, front_lines, front_text, in_its_line, is_too_long, line_ends, line_in, overlong_line, own_fault_text, own_place, source_fault_text};
ghost use Rattle.report_texts.specs.Shared.{unshared_text};

use crate::faults::{Refusal, Told};
use crate::front::{Front, SharedFile, front_lines};
use common::LONGEST_TEXT;
use zlink::{AsmFault, MacroFault, Why};

/// A line by its own file, and by the number that it has there.
#[derive(Clone, Copy)]
pub struct Located<'a> {
    pub path: &'a str,
    pub line: u32,
}

/// Answers the path and the own number of a line of shared files, one after the other; if they have fewer lines, it is a line of the source
/// with this path.
fn line_in<'a>(files: &[SharedFile<'a>], path: &'a str, line: u32) -> Located<'a>
    ensures { (result.path.now, result.line) ≡ line_in files.now path.now line }
{
    let mut line = line;
    for file in files {
        let count = file.lines();
        if line as usize <= count {
            let path = file.file().path;
            return Located { path, line };
        }
        line -= count as u32;
    }
    Located { path, line }
}

/// Answers the file of a line and its number there, given its number in a front with the source of this path after it. It is not a line of the
/// front's words.
fn in_file<'a>(front: Front<'a>, path: &'a str, line: u32) -> Located<'a>
    ensures { (result.path.now, result.line) ≡ line_in front.entry.files.now path.now (line - length front.entry.defines.now) }
{
    let words = u32::try_from(front.defines.len()).unwrap_or(u32::MAX);
    line_in(front.files, path, line.saturating_sub(words))
}

/// Answers the file of a line and its number there, given its number in a front with the source of this path after it. A line that a word of
/// the command line stands for is line 1 of the word.
pub fn locate<'a>(front: Front<'a>, path: &'a str, line: u32) -> Located<'a>
    ensures { (result.path.now, result.line) ≡ own_place front.entry path.now line }
{
    match front.defines.get(line.saturating_sub(1) as usize) {
        Some(word) => Located {
            path: *word,
            line: 1,
        },
        None => in_file(front, path, line),
    }
}

/// Answers the refusal of an error in a line of a front, or of the source with this path after it.
pub(crate) fn told_at<'a>(front: Front<'a>, path: &'a str, fault: AsmFault) -> Told<'a>
    ensures { told_text result ≡ front_fault_text front.entry path.now fault }
{
    let AsmFault { line, why } = fault;
    if let Some(word) = front.defines.get(line.saturating_sub(1) as usize) {
        let refusal = Refusal::Define(why);
        return Told {
            path: *word,
            refusal,
        };
    }
    let Located { path, line } = in_file(front, path, line);
    let refusal = Refusal::of_source(AsmFault { line, why });
    Told { path, refusal }
}

/// Whether a line is in a front.
fn is_in_front(front: Front<'_>, line: u32) -> bool
    ensures { result ≡ nat_le line (front_lines front.entry) }
{
    line as usize <= front_lines(front)
}

/// Whether an error is that a source has too many lines or bytes.
fn is_too_long(why: Why) -> bool
    ensures { result ≡ is_too_long why }
{
    matches!(why, Why::Macro(MacroFault::TooManyLines))
}

/// Answers how many lines end in a text.
fn line_ends(text: &[u8]) -> usize
    ensures ends { result ≡ line_ends text.now }
    ensures few { result ≤ length text.now }
{
    text.iter().filter(|byte| **byte == b'\n').count()
}

/// Answers the first bytes of a text, at most this many.
fn first_bytes(text: &[u8], count: usize) -> &[u8]
    ensures { result.now ≡ take count text.now }
{
    text.get(..count).unwrap_or(text)
}

/// Answers the line of a text with its first byte too many.
fn overlong_line(text: &[u8]) -> u32
    ensures { result ≡ overlong_line text.now }
{
    line_ends(first_bytes(text, LONGEST_TEXT)) as u32 + 1
}

/// Answers an error of a text, in its line: if the text is longer than a source may be, in the line with the first byte too many.
pub fn in_its_line(text: &[u8], fault: AsmFault) -> AsmFault
    ensures { result ≡ in_its_line text.now fault }
{
    let AsmFault { line: _, why } = fault;
    if is_too_long(why) && text.len() > LONGEST_TEXT {
        AsmFault {
            line: overlong_line(text),
            why,
        }
    } else {
        fault
    }
}

/// Answers the refusal of an error that a front has by itself, given its text.
pub(crate) fn told_alone<'a>(front: Front<'a>, text: &[u8], fault: AsmFault) -> Told<'a>
    requires { text.now ≡ front_text front }
    ensures { told_text result ≡ own_fault_text front.entry fault }
{
    told_at(front, "", in_its_line(text, fault))
}

/// Answers the refusal of an error that the source with this path has after a front.
pub fn told_behind<'a>(front: Front<'a>, path: &'a str, fault: AsmFault) -> Told<'a>
    ensures { told_text result ≡ source_fault_text front.entry path.now fault }
{
    let AsmFault { line, why } = fault;
    if is_too_long(why) && is_in_front(front, line) {
        let refusal = Refusal::Source(AsmFault { line: 1, why });
        return Told { path, refusal };
    }
    told_at(front, path, fault)
}

/// Answers the refusal of a line that a shared file may not hold.
pub(crate) fn unshared_at<'a>(front: Front<'a>, line: u32) -> Told<'a>
    ensures { told_text result ≡ unshared_text front.entry line }
{
    let Located { path, line } = in_file(front, "", line);
    let refusal = Refusal::NotShared(line);
    Told { path, refusal }
}
