//! Sources after a front: their texts, and their lines by the files that they are in.

ghost use Rattle.std.specs.Prelude.{◌≡◌, IfOk};

use crate::cutting::tokens_of;
use asm_line::Token;
use asm_macro::source_part;
use asm_module::Module;
use message_texts::place_of_name;
use report_texts::{Front, Located, SourceFile, Where, locate, path_at};
use std::alloc::{AllocError, Global};

/// Sources after a front.
#[derive(Clone, Copy)]
pub struct Sources<'s, 'f> {
    pub front: Front<'f>,
    /// How many lines the front has, or the highest number of a line if that is less.
    pub before: usize,
    pub files: &'s [SourceFile<'f>],
    /// The text of each source after that of the front.
    pub texts: &'s [Vec<u8>],
    /// Where the lines of these texts end, found once: a program may have thousands of reports.
    pub lines: &'s [LineEnds],
}

/// The offsets at which the lines of a text end, after their line feeds.
#[derive(Drop)]
pub struct LineEnds {
    each: Vec<u32>,
}

/// An offset as it is kept.
fn offset(at: usize) -> u32 {
    u32::try_from(at).unwrap_or(u32::MAX)
}

/// Finds where the lines of a text end.
fn ends_of(alloc: Global, text: &[u8]) -> Result<LineEnds, AllocError> {
    let part = source_part(text);
    let mut each = Vec::new(alloc);
    for (at, byte) in part.iter().enumerate() {
        if *byte == b'\n' {
            each.push(offset(at.saturating_add(1)))?;
        }
    }
    each.push(offset(part.len()))?;
    Ok(LineEnds { each })
}

/// Finds where the lines of texts end.
///
/// # Errors
///
/// [`AllocError`] if memory ran out.
pub fn lines_of(alloc: Global, texts: &[Vec<u8>]) -> Result<Vec<LineEnds>, AllocError> {
    let mut all = Vec::with_capacity(alloc, texts.len())?;
    for text in texts {
        all.push(ends_of(alloc, text)?)?;
    }
    Ok(all)
}

impl LineEnds {
    /// The offsets of the first byte of a line and of the one after its last, its line feed included; None if there is no such line.
    fn bounds(&self, number: u32) -> Option<(usize, usize)> {
        let at = (number as usize).saturating_sub(1);
        let end = *self.each.get(at)?;
        let begin = match self.each.get(at.wrapping_sub(1)) {
            Some(before) => *before,
            None => 0,
        };
        Some((begin as usize, end as usize))
    }
}

/// A line without its LF or CR LF.
fn without_end(line: &[u8]) -> &[u8] {
    match line {
        [text @ .., b'\r', b'\n'] => text,
        [text @ .., b'\n'] => text,
        _ => line,
    }
}

/// Whether one of the tokens is this name, in upper or lower case.
fn has_token(tokens: &[Token<'_>], name: &[u8]) -> bool {
    tokens
        .iter()
        .any(|token| token.text.eq_ignore_ascii_case(name))
}

impl<'s, 'f> Sources<'s, 'f> {
    /// The path of a source.
    pub fn path(&self, source: usize) -> &'f str {
        path_at(self.files, source)
    }

    /// How many lines the front has, as the number of a line.
    pub fn front_lines(&self) -> u32 {
        u32::try_from(self.before).unwrap_or(u32::MAX)
    }

    /// The number of a line of a source after the front, given its number in the source itself.
    pub fn after_front(&self, own: u32) -> u32 {
        own.saturating_add(self.front_lines())
    }

    /// The text of a source after that of the front.
    pub fn text(&self, source: usize) -> &'s [u8] {
        match self.texts.get(source) {
            Some(text) => text,
            None => &[],
        }
    }

    /// A line of a source after the front; an empty one if there is no such line.
    pub fn line(&self, source: usize, number: u32) -> &'s [u8] {
        let bounds = match self.lines.get(source) {
            Some(lines) => lines.bounds(number),
            None => None,
        };
        match bounds {
            Some((begin, end)) => without_end(self.text(source).get(begin..end).unwrap_or(&[])),
            None => &[],
        }
    }

    /// The file of a line of a source, and the line's number there. A line that a word of the command line stands for is in the word.
    pub fn located(&self, source: usize, line: u32) -> Located<'f> {
        locate(self.front, self.path(source), line)
    }

    /// The line with this number, and in it the first token that is this name or word; all tokens if none is.
    ///
    /// # Errors
    ///
    /// [`AllocError`] if memory ran out.
    pub fn named(
        &self,
        alloc: Global,
        source: usize,
        line: u32,
        marked: &[u8],
    ) -> Result<Where, AllocError>
        ensures source { IfOk result (λ w. w.source ≡ source) }
        ensures written { IfOk result (λ w. w.written ≡ line) }
    {
        let text = self.line(source, line).to_vec(alloc)?;
        let place = place_of_name(alloc, &text, marked)?;
        Ok(Where {
            source,
            reported: line,
            written: line,
            column: place.at.saturating_add(1),
            text,
            place,
        })
    }
}

/// The name of a label of a statement that a line has in it; the first one of the statement if the line has none of them, and `$` if there is
/// none. The labels of a module are in the order of their statements.
///
/// # Errors
///
/// [`AllocError`] if memory ran out.
pub fn mentioned<'m>(
    alloc: Global,
    line: &[u8],
    module: &'m Module,
    statement: usize,
) -> Result<&'m [u8], AllocError> {
    let found = tokens_of(alloc, line)?;
    let labels = module.labels.as_slice();
    let first = labels.partition_point(|label| usize::from(label.statement) < statement);
    let from = labels.get(first..).unwrap_or(&[]);
    let mut name: &[u8] = b"$";
    for (at, label) in from.iter().enumerate() {
        if usize::from(label.statement) != statement {
            return Ok(name);
        }
        if has_token(&found, &label.name) {
            return Ok(&label.name);
        }
        if at == 0 {
            name = &label.name;
        }
    }
    Ok(name)
}
