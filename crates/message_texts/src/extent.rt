//! Where in a line the token begins that has an error.

use asm_line::{Token, begins_name, blank_len, continues_name, tokens};
use std::alloc::Global;

/// How many bytes a string at the front takes, its quotes included; all bytes if it has no end.
fn string_len(quote: u8, bytes: &[u8]) -> usize {
    let mut is_doubled = false;
    for (at, byte) in bytes.iter().enumerate().skip(1) {
        let behind = at.saturating_add(1);
        if is_doubled {
            is_doubled = false;
        } else if *byte == quote {
            if bytes.get(behind) != Some(&quote) {
                return behind;
            }
            is_doubled = true;
        }
    }
    bytes.len()
}

/// How many bytes the name at the front takes. AF with a quote directly after it is one token.
fn name_len(bytes: &[u8]) -> usize {
    let len = bytes.iter().take_while(|b| continues_name(**b)).count();
    let front = bytes.get(..len).unwrap_or(&[]);
    if front.eq_ignore_ascii_case(b"AF") && bytes.get(len) == Some(&b'\'') {
        return len.saturating_add(1);
    }
    len
}

/// How many bytes the token at the front takes, or what would be a token there.
fn token_len(bytes: &[u8]) -> usize {
    match bytes {
        [] => 0,
        [quote @ (b'\'' | b'"'), ..] => string_len(*quote, bytes),
        [first, ..] if begins_name(*first) => name_len(bytes),
        [first, ..] if first.is_ascii_digit() => {
            bytes
                .iter()
                .take_while(|b| b.is_ascii_alphanumeric())
                .count()
        }
        _ => 1,
    }
}

/// What has an error: this number of bytes from this one on.
#[derive(Clone, Copy)]
pub struct Extent {
    pub at: usize,
    pub len: usize,
}

/// Whether bytes can be cut into tokens.
fn can_be_cut(alloc: Global, bytes: &[u8]) -> bool {
    let found: Result<Vec<Token<'_>>, _> = tokens(alloc, bytes);
    found.is_ok()
}

/// The token at the front of some bytes, and how many blanks come before it. At a comment, that is one byte of it.
fn front(bytes: &[u8]) -> (usize, &[u8]) {
    let blanks = blank_len(bytes);
    let (_, start) = bytes.split_at(blanks);
    let (token, _) = start.split_at(token_len(start).min(start.len()));
    (blanks, token)
}

/// The first token of a line that by itself cannot be cut; the end of the line if there is none.
pub fn first_uncut(alloc: Global, line: &[u8]) -> Extent {
    let mut at = 0usize;
    for _ in 0..line.len() {
        let rest = line.get(at..);
        let (blanks, token) = front(rest.unwrap_or(&[]));
        let begin = at.saturating_add(blanks);
        if !can_be_cut(alloc, token) {
            return Extent {
                at: begin,
                len: token.len(),
            };
        }
        at = begin.saturating_add(token.len());
    }
    Extent {
        at: line.len(),
        len: 0,
    }
}
