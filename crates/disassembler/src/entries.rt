//! Reads the entries and the beginnings of data: words that are addresses of bytes of the program.

ghost use Rattle.std.specs.Prelude.{◌≡◌, IfOk, Ok, is_some, map};
ghost use Rattle.asm_line.specs.Tokens.{lexemes};
ghost use Rattle.disassembler.specs.Entries.{has_byte_at, is_entry, number_word, only_number};
ghost use Rattle.disassembler.specs.Private.{AreDataStarts, AreEntries};

use crate::fault::DisassemblyFault;
use crate::place::offset_of;
use asm_line::{Kind, ScanFault, Token, tokens};
use std::alloc::{AllocError, Global};

/// Answers the number that the tokens of a word are, if the whole word is one number.
fn only_number(word: &[u8], found: &[Token<'_>]) -> Option<u16>
    ensures { result ≡ only_number word.now (Ok (lexemes found.now)) }
{
    let [token] = found else {
        return None;
    };
    match token.kind {
        Kind::Number(n) if token.text == word => Some(n),
        _ => None,
    }
}

/// Answers the value of a word that is a number of the language.
fn number_word(alloc: Global, word: &[u8]) -> Result<Option<u16>, AllocError>
    ensures { IfOk result (λ value. value ≡ number_word word.now) }
{
    match tokens(alloc, word) {
        Ok(found) => Ok(only_number(word, &found)),
        Err(ScanFault::NoMemory) => Err(AllocError),
        Err(_) => Ok(None),
    }
}

/// Answers the offset of an address in a program of `count` bytes, if it has a byte there.
fn byte_offset(count: usize, address: u16) -> Option<usize>
    ensures { is_some result ≡ has_byte_at count address }
{
    let offset = offset_of(address)?;
    if offset < count { Some(offset) } else { None }
}

/// Answers the offset of an entry in a program of `count` bytes, if it has a byte there.
fn entry_offset(alloc: Global, count: usize, word: &str) -> Result<Option<usize>, AllocError>
    ensures { IfOk result (λ offset. is_some offset ≡ is_entry count word.now) }
{
    match number_word(alloc, word.as_bytes())? {
        Some(address) => Ok(byte_offset(count, address)),
        None => Ok(None),
    }
}

/// Answers the offsets of the entries, or the first that is no address of a byte of the program.
pub(crate) fn entry_offsets<'a>(
    alloc: Global,
    count: usize,
    entries: &[&'a str],
) -> Result<Vec<usize>, DisassemblyFault<'a>>
    ensures { AreEntries count (map (λ word. word.now) entries.now) result }
{
    let mut offsets = Vec::new(alloc);
    for word in entries {
        match entry_offset(alloc, count, word)? {
            Some(offset) => offsets.push(offset)?,
            None => return Err(DisassemblyFault::BadEntry(word)),
        }
    }
    Ok(offsets)
}

/// Answers the offsets at which data begins, or the first word that is no address of a byte of the program.
pub(crate) fn data_offsets<'a>(
    alloc: Global,
    count: usize,
    starts: &[&'a str],
) -> Result<Vec<usize>, DisassemblyFault<'a>>
    ensures { AreDataStarts count (map (λ word. word.now) starts.now) result }
{
    match entry_offsets(alloc, count, starts) {
        Err(DisassemblyFault::BadEntry(word)) => Err(DisassemblyFault::BadData(word)),
        offsets => offsets,
    }
}
