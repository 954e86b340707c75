//! Where in a line some of its tokens are.

ghost use Rattle.std.specs.Prelude.{◌≡◌, ◌+◌, ◌-◌, ◌<◌, ◌≤◌, List, Ok, IfOk, length};
ghost use Rattle.asm_line.specs.Tokens.{Lexeme, lexemes};
ghost use Rattle.asm_line.specs.Scanned.{scanned};
ghost use Rattle.asm_line.specs.Lines.{without_blanks};
ghost use Rattle.asm_line.specs.Replacing.Pieces.{behind_all};
ghost use Rattle.message_texts.specs.Places.{CoversTokens, IsInLine};

use crate::draft::Spot;
use crate::parts::Place;
use asm_line::{ScanFault, Token, after, blank_len, tokens};
use std::alloc::{AllocError, Global};

/// The rest of a line after its first tokens.
fn behind<'a>(line: &'a [u8], tokens: &[Token<'_>]) -> &'a [u8]
    ensures { result.now ≡ behind_all line.now (lexemes tokens.entry.now) }
{
    let mut rest = line;
    for token in tokens {
        rest = after(rest, token);
    }
    rest
}

/// How many bytes of a line come before what follows its first tokens and the blanks after them.
fn begin_after(line: &[u8], tokens: &[Token<'_>]) -> usize
    ensures begin { result ≡ length line.now - length (without_blanks (behind_all line.now (lexemes tokens.entry.now))) }
    ensures within { result ≤ length line.now }
{
    let rest = behind(line, tokens);
    let (_, start) = rest.split_at(blank_len(rest));
    line.len().saturating_sub(start.len())
}

/// How many bytes of a line its first tokens take, with the blanks before them.
fn end_after(line: &[u8], tokens: &[Token<'_>]) -> usize
    ensures end { result ≡ length line.now - length (behind_all line.now (lexemes tokens.entry.now)) }
    ensures within { result ≤ length line.now }
{
    line.len().saturating_sub(behind(line, tokens).len())
}

/// The place of this number of tokens of a line, from this one on.
fn place_of_tokens(line: &[u8], tokens: &[Token<'_>], first: usize, count: usize) -> Place
    requires some { 0 < count }
    requires few { first + count ≤ length tokens.now }
    ensures within { IsInLine line.now result }
    ensures tokens { CoversTokens line.now (lexemes tokens.entry.now) result }
{
    let at = begin_after(line, &tokens[..first]);
    let end = end_after(line, &tokens[..first + count]);
    let len = end.saturating_sub(at);
    Place { at, len }
}

/// The place of this number of bytes of a line, from this one on, as far as there are any.
fn place_of_bytes(line: &[u8], at: usize, len: usize) -> Place
    ensures { IsInLine line.now result }
{
    let at = at.min(line.len());
    let len = len.min(line.len() - at);
    Place { at, len }
}

/// The place that a message is about, given the tokens of its line; none if the line cannot be cut into tokens. If the spot goes beyond
/// the last token, the place ends there.
pub fn place_of(line: &[u8], tokens: &[Token<'_>], spot: Spot) -> Place
    ensures within { IsInLine line.now result }
    ensures tokens { 0 < length tokens.now → CoversTokens line.now (lexemes tokens.entry.now) result }
{
    let (first, count) = match spot {
        Spot::Bytes(at, len) if tokens.is_empty() => return place_of_bytes(line, at, len),
        Spot::Bytes(_, _) => (0, tokens.len()),
        Spot::Tokens(first, count) => (first, count),
    };
    if tokens.is_empty() {
        return place_of_bytes(line, 0, line.len());
    }
    let first = first.min(tokens.len() - 1);
    let count = count.max(1).min(tokens.len() - first);
    place_of_tokens(line, tokens, first, count)
}

/// The number of the first token from this one on that is a name or word, in upper or lower case.
pub fn token_named(tokens: &[Token<'_>], from: usize, name: &[u8]) -> Option<usize> {
    for (at, token) in tokens.iter().enumerate() {
        if at >= from && token.text.eq_ignore_ascii_case(name) {
            return Some(at);
        }
    }
    None
}

/// Answers the place in a line of the first token that is this name or word, in upper or lower case; of all tokens if none is.
///
/// # Errors
///
/// `AllocError` if memory ran out.
pub fn place_of_name(alloc: Global, line: &[u8], name: &[u8]) -> Result<Place, AllocError>
    ensures within { IfOk result (IsInLine line.now) }
    ensures tokens { IfOk result (λ place. (cut : List Lexeme) → scanned line.now ≡ Ok cut → 0 < length cut → CoversTokens line.now cut place) }
{
    match tokens(alloc, line) {
        Ok(found) => {
            let spot = match token_named(&found, 0, name) {
                Some(at) => Spot::Tokens(at, 1),
                None => Spot::Tokens(0, found.len()),
            };
            Ok(place_of(line, &found, spot))
        }
        Err(ScanFault::NoMemory) => Err(AllocError),
        Err(_) => Ok(place_of_bytes(line, 0, line.len())),
    }
}
