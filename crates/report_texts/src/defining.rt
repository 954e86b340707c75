//! Which words are definitions.

ghost use Rattle.std.specs.Prelude.{◌≡◌, IfOk, map};
ghost use Rattle.std.specs.Option.{option_map};
ghost use Rattle.asm_line.specs.Tokens.{lexemes};
ghost use Rattle.asm_spell.specs.Spelling.{spelled};
ghost use Rattle.report_texts.specs.Defines.{are_name_and_number, defines_name, first_bad, is_definition, is_number};

use crate::front::{parts_of, put_define};
use asm_line::{Kind, ScanFault, Token, tokens};
use asm_spell::{Line, StmtFault, statement};
use std::alloc::{AllocError, Global};

fn is_number(kind: Kind) -> bool
    ensures { result ≡ is_number kind }
{
    matches!(kind, Kind::Number(_))
}

/// Whether the tokens are three: this name, EQU, and this value, which is a number.
fn are_name_and_number(name: &[u8], value: &[u8], tokens: &[Token<'_>]) -> bool
    ensures { result ≡ are_name_and_number name.now value.now (lexemes tokens.now) }
{
    match tokens {
        [first, _, last] => first.text == name && is_number(last.kind) && last.text == value,
        _ => false,
    }
}

/// Whether the tokens of a line define a name.
fn defines_name(alloc: Global, tokens: &[Token<'_>]) -> Result<bool, AllocError>
    ensures { IfOk result (λ yes. yes ≡ defines_name (spelled (lexemes tokens.entry.now))) }
{
    match statement(alloc, tokens) {
        Ok(line) => Ok(matches!(line, Line::Equ { .. })),
        Err(StmtFault::NoMemory) => Err(AllocError),
        Err(_) => Ok(false),
    }
}

/// Whether a word is `NAME=VALUE`: NAME is a name that a source may define, and VALUE a number.
fn is_definition(alloc: Global, word: &str) -> Result<bool, AllocError>
    ensures { IfOk result (λ yes. yes ≡ is_definition word.now) }
{
    let (name, value) = parts_of(word);
    let mut line = Vec::new(alloc);
    put_define(&mut line, word)?;
    match tokens(alloc, &line) {
        Ok(found) => Ok(are_name_and_number(name, value, &found) && defines_name(alloc, &found)?),
        Err(ScanFault::NoMemory) => Err(AllocError),
        Err(_) => Ok(false),
    }
}

/// Answers the first of the words that is not `NAME=VALUE`: NAME a name that a source may define, VALUE a number as the language writes
/// them, as `0FFH`, `12` or `101B`.
///
/// # Errors
///
/// [`AllocError`] if memory ran out.
pub fn bad_define<'a>(alloc: Global, defines: &[&'a str]) -> Result<Option<&'a str>, AllocError>
    ensures { IfOk result (λ bad. option_map (λ word. word.now) bad ≡ first_bad (map (λ word. word.now) defines.now)) }
{
    for word in defines {
        if !is_definition(alloc, word)? {
            return Ok(Some(*word));
        }
    }
    Ok(None)
}
