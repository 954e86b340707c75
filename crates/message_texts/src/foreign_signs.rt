//! Signs of other languages: what the C preprocessor has, and characters that are no ASCII.

use crate::advice::{DEFINED, directive_instead};
use crate::intel::row_of;
use crate::{joined, shown, tokens_of};
use asm_line::{Kind, Token};
use asm_spell::{StmtFault, statement};
use std::alloc::{AllocError, Global};
use z80_form::mnemonic_of;

/// Words of the C preprocessor in upper case, and what to write instead. Its other words are in the tables of directives.
const PREPROCESSOR: [(&str, &str); 10] = [
    (
        "INCLUDE",
        "there is no INCLUDE: give a file of EQU lines and macros by `--with FILE`, and other files as sources to `build`",
    ),
    (
        "IF",
        "`IF X`, with the operators as words: `EQ`, `NE`, `AND`, `OR`, `NOT`",
    ),
    ("ELSE", "`ELSE`"),
    ("ENDIF", "`ENDIF`"),
    ("UNDEF", "leave it out: a name keeps its value"),
    ("ASM", "leave it out: each line is one of the assembler"),
    ("ENDASM", "leave it out: each line is one of the assembler"),
    ("PRAGMA", "leave it out"),
    ("LINE", "leave it out"),
    ("WARNING", "leave it out"),
];

/// Whether a line NAME EQU VALUE is a statement, given its name and the tokens of the value.
fn is_constant(alloc: Global, name: Token<'_>, value: &[Token<'_>]) -> Result<bool, AllocError> {
    let equ = Token {
        kind: Kind::Name,
        text: b"EQU",
    };
    let mut line = Vec::from_slice(alloc, &[name, equ])?;
    line.extend_from_slice(value)?;
    is_statement(alloc, &line)
}

/// A constant as EQU defines it, given its name and the tokens of its value; None if they are none.
fn constant_text(
    alloc: Global,
    name: Token<'_>,
    value: &[Token<'_>],
) -> Result<Option<String>, AllocError> {
    if name.kind != Kind::Name || !is_constant(alloc, name, value)? {
        return Ok(None);
    }
    let (name, text) = (shown(alloc, name.text)?, joined(alloc, value)?);
    match value {
        [number] if matches!(number.kind, Kind::Number(_)) => Ok(Some(format!(in alloc;
            "`{name} EQU {text}`, or `build --define {name}={text}`"
        )?)),
        _ => Ok(Some(format!(in alloc; "`{name} EQU {text}`")?)),
    }
}

/// A constant as EQU defines it, given what follows `#define`; None if that is no name with a value or without one.
fn as_constant(alloc: Global, rest: &[Token<'_>]) -> Result<Option<String>, AllocError> {
    // A name without a value is made for `#ifdef`, so any number other than 0 does.
    let one = Token {
        kind: Kind::Number(1),
        text: b"1",
    };
    match rest {
        [name] => constant_text(alloc, *name, &[one]),
        [name, value @ ..] => constant_text(alloc, *name, value),
        [] => Ok(None),
    }
}

/// A condition as IF has it, given what follows `#if`; None if its operators are those of C.
fn as_condition(alloc: Global, rest: &[Token<'_>]) -> Result<Option<String>, AllocError> {
    match rest.first() {
        Some(first) if first.text.eq_ignore_ascii_case(b"DEFINED") => {
            return Ok(Some(String::from_str(alloc, DEFINED)?));
        }
        _ => (),
    }
    let name = Token {
        kind: Kind::Name,
        text: b"X",
    };
    if !is_constant(alloc, name, rest)? {
        return Ok(None);
    }
    let text = joined(alloc, rest)?;
    Ok(Some(format!(in alloc; "`IF {text}`")?))
}

/// The word that bytes begin with after blanks, in upper case.
fn first_word(alloc: Global, rest: &[u8]) -> Result<Vec<u8>, AllocError> {
    let blanks = rest
        .iter()
        .take_while(|byte| matches!(**byte, b' ' | b'\t'))
        .count();
    let rest = rest.get(blanks..).unwrap_or(&[]);
    let letters = rest
        .iter()
        .take_while(|byte| byte.is_ascii_alphabetic())
        .count();
    rest.get(..letters)
        .unwrap_or(rest)
        .to_ascii_uppercase(alloc)
}

/// What to write instead of a line of the C preprocessor, given what follows its `#`.
///
/// # Errors
///
/// `AllocError` if memory ran out.
pub fn of_preprocessor(alloc: Global, rest: &[u8]) -> Result<String, AllocError> {
    let word = first_word(alloc, rest)?;
    let word = shown(alloc, &word)?;
    // No tokens if the line has signs of C, as in `#include <stdio.h>`.
    let found = tokens_of(alloc, rest)?;
    let operands = found.get(1..).unwrap_or(&[]);
    let own = match word.as_str() {
        "DEFINE" => as_constant(alloc, operands)?,
        "IF" => as_condition(alloc, operands)?,
        _ => None,
    };
    if let Some(text) = own {
        return Ok(text);
    }
    match row_of(&PREPROCESSOR, &word).or(directive_instead(&word)) {
        Some(text) => String::from_str(alloc, text),
        None => String::from_str(
            alloc,
            "a comment starts with `;`, and no line begins with `#`",
        ),
    }
}

/// What to write where a second statement follows in a line.
pub const ONE_STATEMENT: &str =
    "a line has one statement, and the next one is on a line of its own";

/// Whether tokens are a statement of the language.
fn is_statement(alloc: Global, tokens: &[Token<'_>]) -> Result<bool, AllocError> {
    if tokens.is_empty() {
        return Ok(false);
    }
    match statement(alloc, tokens) {
        Ok(_) => Ok(true),
        Err(StmtFault::NoMemory) => Err(AllocError),
        Err(_) => Ok(false),
    }
}

/// Whether bytes are a statement of the language.
///
/// # Errors
///
/// `AllocError` if memory ran out.
pub fn begins_statement(alloc: Global, rest: &[u8]) -> Result<bool, AllocError> {
    is_statement(alloc, &tokens_of(alloc, rest)?)
}

/// Whether tokens are a statement, or begin with one after which comes the mnemonic of the next.
pub fn are_statements(alloc: Global, tokens: &[Token<'_>]) -> Result<bool, AllocError> {
    for (at, token) in tokens.iter().enumerate() {
        let front = tokens.get(..at).unwrap_or(&[]);
        if mnemonic_of(token.text).is_some() && is_statement(alloc, front)? {
            return Ok(true);
        }
    }
    is_statement(alloc, tokens)
}

/// Characters that editors put in the place of others, in UTF-8, and what to write instead.
const CHARACTERS: [(&[u8], &str); 7] = [
    (b"\xE2\x80\x98", "this is a typographic quote: write `'`"),
    (b"\xE2\x80\x99", "this is a typographic quote: write `'`"),
    (b"\xE2\x80\x9C", "this is a typographic quote: write `\"`"),
    (b"\xE2\x80\x9D", "this is a typographic quote: write `\"`"),
    (b"\xE2\x80\x93", "this is a dash: write `-`"),
    (
        b"\xE2\x88\x92",
        "this is a minus sign that is no ASCII: write `-`",
    ),
    (
        b"\xC2\xA0",
        "this is a blank that does not break lines: write a plain one",
    ),
];

/// What to write instead of a character that begins with a byte above 7FH.
pub fn unicode_instead(bytes: &[u8]) -> &'static str {
    for (character, text) in &CHARACTERS {
        if bytes.starts_with(*character) {
            return *text;
        }
    }
    "a name has the letters A to Z, digits, `_`, `?`, `@` and `.`"
}
