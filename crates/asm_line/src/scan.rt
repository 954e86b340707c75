//! Cuts a line into tokens.

ghost use Rattle.std.specs.Prelude.{◌≡◌, ◌≢◌, ◌<◌, ◌≤◌, ◌⊎◌, ℕ, List, length, slice_index, true, IfOk, IfErr, Result};
ghost use Rattle.std.specs.Char.{is_ascii_digit};
ghost use Rattle.asm_line.specs.Types.{ScanFault};
ghost use Rattle.asm_line.specs.Tokens.{Lexeme, answered_tokens, lexemes};
ghost use Rattle.asm_line.specs.Lines.{AreSpans, Scans};
ghost use Rattle.asm_line.specs.Scanned.{scanned};
ghost use Rattle.asm_line.specs.Private.Reading.{first_name, first_number, first_token, is_af};

use crate::classes::{begins_name, blank_len, is_quote, name_len, number_len};
use crate::fault::ScanFault;
use crate::number::number_of;
use crate::quoted::string_len;
use crate::token::{Kind, Mark, Token};
use std::alloc::Global;

/// The most bytes that a line may have, without its line end.
pub const LONGEST_LINE: usize = 255;

/// How many tokens there is room for from the start. Few lines have more.
const FEW_TOKENS: usize = 8;

/// Whether the name is AF, in upper or lower case.
fn is_af(name: &[u8]) -> bool
    ensures { result ≡ is_af name.now }
{
    matches!(name, [b'A' | b'a', b'F' | b'f'])
}

/// The kind and length of the name, or of the `AF'`, at the front.
fn first_name(bytes: &[u8]) -> (Kind, usize)
    ensures { result ≡ first_name bytes.now }
{
    let (name, after) = bytes.split_at(name_len(bytes));
    if is_af(name) && after.starts_with(b"'") {
        (Kind::OtherAf, name.len() + 1)
    } else {
        (Kind::Name, name.len())
    }
}

/// The kind and length of the number at the front, or its error.
fn first_number(bytes: &[u8]) -> Result<(Kind, usize), ScanFault>
    requires { is_ascii_digit (slice_index bytes.now 0) ≡ true }
    ensures { result ≡ first_number bytes.now }
{
    let len = number_len(bytes);
    match number_of(&bytes[..len]) {
        Some(value) => Ok((Kind::Number(value), len)),
        None => Err(ScanFault::BadNumber),
    }
}

/// The kind and length of the token at the front, or its error.
fn first_token(bytes: &[u8]) -> Result<(Kind, usize), ScanFault>
    requires { 0 < length bytes.now }
    ensures { result ≡ first_token bytes.now }
{
    let first = bytes[0];
    if begins_name(first) {
        return Ok(first_name(bytes));
    }
    if first.is_ascii_digit() {
        return first_number(bytes);
    }
    if is_quote(first) {
        let len = string_len(first, &bytes[1..])?;
        return Ok((Kind::Quoted, len + 1));
    }
    match Mark::from_byte(first) {
        Some(mark) => Ok((Kind::Mark(mark), 1)),
        None => Err(ScanFault::BadByte),
    }
}

/// Cuts a line into its tokens.
///
/// `line` is without its line end. Comments and blanks are no tokens.
///
/// # Errors
///
/// [`ScanFault::LineTooLong`] if the line has more than 255 bytes, whatever it contains; otherwise the error of the token that
/// begins furthest left; [`ScanFault::NoMemory`] if memory runs out.
pub fn tokens(alloc: Global, line: &[u8]) -> Result<Vec<Token<'_>>, ScanFault>
    // The answer is the tokens or the error of the line, unless memory runs out.
    ensures cut { IfOk result (λ found. Scans line.now (Ok (lexemes found.items))) }
    ensures fault { IfErr result (λ why. why ≢ ScanFault.NoMemory → Scans line.now (Err why)) }

    // A line has only one answer, so no other is possible.
    ensures only { (answer : Result (List Lexeme) ScanFault) → Scans line.now answer →
        (answered_tokens result ≡ answer) ⊎ (result ≡ Err ScanFault.NoMemory) }
    ensures scanned { (answered_tokens result ≡ scanned line.now) ⊎ (result ≡ Err ScanFault.NoMemory) }
    ensures too_long { LONGEST_LINE < length line.now → result ≡ Err ScanFault.LineTooLong }

    // The texts of the tokens are slices of the line, in order, and none overlap.
    ensures spans { IfOk result (λ found. AreSpans line.now 0 (lexemes found.items)) }

    // Each token takes at least one byte.
    ensures few { IfOk result (λ found. length found.items ≤ length line.now) }
{
    if line.len() > LONGEST_LINE {
        return Err(ScanFault::LineTooLong);
    }
    let mut found = Vec::with_capacity(alloc, line.len().min(FEW_TOKENS))?;
    let mut rest = line;
    loop {
        let (_, start) = rest.split_at(blank_len(rest));
        if start.is_empty() || start[0] == b';' {
            return Ok(found);
        }
        let (kind, len) = first_token(start)?;
        let (text, after) = start.split_at(len);
        found.push(Token { kind, text })?;
        rest = after;
    }
}
