//! Splits a source into lines, with which its expansion begins.

ghost use Rattle.std.specs.Prelude.{◌≡◌, ◌≤◌, ◌==◌, length, not};
ghost use Rattle.std.specs.List.{prefix_len};
ghost use Rattle.asm_macro.specs.Texts.{source_part};
ghost use Rattle.asm_macro.specs.Private.Stages.{Begins};

use crate::constants::Constants;
use crate::expansion::Expansion;
use crate::fault::MacroFault;
use asm_text::{Book, Lines, Span};
use bstr::ByteSlice;
use common::{LONGEST_TEXT, NameKey};
use indexmap::IndexMap;
use std::alloc::Global;

/// Answers how many bytes come before the first byte 1AH.
fn end_of(text: &[u8]) -> usize
    ensures value { result ≡ prefix_len (λ byte. not (byte == 0x1A)) text.now }
    ensures within { result ≤ length text.now }
{
    match text.find_byte(0x1A) {
        Some(at) => at,
        None => text.len(),
    }
}

/// Answers the source up to its first byte 1AH, which ends a text file in CP/M.
pub fn source_part(text: &[u8]) -> &[u8]
    ensures part { result.now ≡ source_part text.now }
    ensures within { length result.now ≤ length text.now }
{
    &text[..end_of(text)]
}

/// Reads a source: answers its expansion before the first line.
pub(crate) fn begin(alloc: Global, text: &[u8]) -> Result<Expansion<'_>, MacroFault>
    ensures { Begins text.now result }
{
    if text.len() > LONGEST_TEXT {
        return Err(MacroFault::TooManyLines);
    }
    let lines = Lines::of(alloc, source_part(text))?;
    let end = lines.len();
    let key = NameKey::of(text);
    Ok(Expansion {
        alloc,
        lines,
        macros: IndexMap::with_hasher(alloc, key),
        constants: Constants::new(alloc, key),
        counter: 0,
        count: 0,
        text: Span {
            at: 0,
            end,
            number: None,
        },
        around: Vec::new(alloc),
        calls: Vec::new(alloc),
        turns: 0,
        book: Book::new(alloc),
        books: Vec::new(alloc),
        source: Book::new(alloc),
    })
}
