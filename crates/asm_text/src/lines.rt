//! A source as the list of its lines.

ghost use Rattle.std.specs.Prelude.{◌≡◌, ◌≤◌, ◌∷◌, [], IfOk, length, map, slice_index_or};
ghost use Rattle.bstr.specs.Text.{lines_of, part, without_terminator};

use bstr::ByteSlice;
use std::alloc::{AllocError, Global};
use std::marker::Model;

/// The lines of a source, which it borrows. It keeps four bytes for each line. Clauses see the list of the lines, without their LF
/// or CR LF.
#[derive(Debug, Drop)]
pub struct Lines<'a> {
    text: &'a [u8],
    /// For each line, the offset at which it ends, after its LF.
    ends: Vec<u32>,
}

impl<'a> Model for Lines<'a> {
    ghost use Rattle.std.specs.Prelude.{List, ℕ};
    ghost use Rattle.asm_text.specs.Private.Ends.{lines_by};

    ghost Value = { List (List ℕ) };

    ghost view = { λ l. lines_by l.text.now 0 l.ends.items };
}

/// The bytes of `text` from offset `from` to the one before `to`, as far as there are any.
fn part(text: &[u8], from: usize, to: usize) -> &[u8]
    ensures { result.now ≡ part from to text.now }
{
    let to = to.min(text.len());
    let from = from.min(to);
    &text[from..to]
}

/// A line without the LF or CR LF that ends it, if one does.
fn without_terminator(line: &[u8]) -> &[u8]
    ensures { result.now ≡ without_terminator line.now }
{
    match line {
        [text @ .., b'\r', b'\n'] => text,
        [text @ .., b'\n'] => text,
        _ => line,
    }
}

/// The offset at which line `at` begins, which is where the line before it ends.
fn begin_at(ends: &[u32], at: usize) -> usize
    requires { at ≤ length ends.now }
    ensures { result ≡ slice_index_or (0 ∷ ends.now) at 0 }
{
    if at == 0 { 0 } else { ends[at - 1] as usize }
}

impl<'a> Lines<'a> {
    /// Finds the lines of a source. LF or CR LF ends each, or the end of the source.
    ///
    /// # Errors
    ///
    /// `AllocError` if memory has run out, or if the source has 2^32 bytes or more.
    pub fn of(alloc: Global, text: &'a [u8]) -> Result<Lines<'a>, AllocError>
        ensures lines { IfOk result (λ found. found ≡ map without_terminator (lines_of text.now)) }
        ensures few { IfOk result (λ found. length found ≤ length text.now) }
    {
        let mut ends = Vec::new(alloc);
        let mut end = 0;
        for line in text.lines_with_terminator() {
            end += line.len();
            let Ok(place) = u32::try_from(end) else {
                return Err(AllocError);
            };
            ends.push(place)?;
        }
        Ok(Lines { text, ends })
    }

    /// How many lines the source has.
    pub fn len(&self) -> usize
        ensures { result ≡ length self.now }
    {
        self.ends.len()
    }

    /// The line with index `at`, from 0, without the LF or CR LF that ends it; an empty line if there is none.
    pub fn line(&self, at: usize) -> &'a [u8]
        ensures { result.now ≡ slice_index_or self.now at [] }
    {
        let Some(end) = self.ends.get(at) else {
            return &[];
        };
        let from = begin_at(&self.ends, at);
        without_terminator(part(self.text, from, *end as usize))
    }
}
