//! Replaces whole names in a line.

ghost use Rattle.std.specs.Prelude.{◌≡◌, ◌++◌, OnOk};
ghost use Rattle.asm_line.specs.Tokens.{lexeme, lexemes};
ghost use Rattle.common.specs.Words.{upper};
ghost use Rattle.asm_line.specs.Replacing.Pieces.{after_first_token};
ghost use Rattle.asm_line.specs.Replacing.Replaced.{replaced_tokens, swapped};
ghost use Rattle.asm_line.specs.Replacing.Views.{replacement_table, replacement_at, texts};

use crate::replacing::local::put_local_name;
use crate::replacing::names::{NameKind, Names, Place};
use crate::{Token, blank_len, is_name};
use std::alloc::AllocError;
use std::rc::Rc;

/// What a call replaces the names of a macro by.
#[derive(Debug, Drop)]
pub struct Replacements {
    pub names: Rc<Names>,
    /// What the parameters are replaced by, in their order. A missing argument counts as empty, and one too many is ignored.
    pub arguments: Vec<Vec<u8>>,
    /// The number of the first LOCAL name.
    pub counter: u64,
}

/// Answers the rest of a line after its first token.
pub fn after<'a>(line: &'a [u8], token: &Token<'_>) -> &'a [u8]
    ensures { result.now ≡ after_first_token line.now (lexeme token.now) }
{
    let (_, start) = line.split_at(blank_len(line));
    start.get(token.text.len()..).unwrap_or(&[])
}

/// Appends a name in upper case.
fn put_upper(name: &[u8], out: &mut Vec<u8>) -> Result<(), AllocError>
    ensures { OnOk result (out.new.items ≡ out.old.items ++ upper name.now) }
{
    for byte in name {
        out.push(byte.to_ascii_uppercase())?;
    }
    Ok(())
}

/// Appends what replaces the name at a place. If the number of a LOCAL name does not fit a u64, the answer is that memory ran out, since no
/// memory holds as many names.
fn put_text(names: &Replacements, place: Place, out: &mut Vec<u8>) -> Result<(), AllocError>
    ensures { OnOk result (out.new.items ≡ out.old.items ++ replacement_at (texts names.now.arguments.items) names.now.counter place) }
{
    match place.kind {
        NameKind::Parameter => match names.arguments.get(place.at) {
            Some(argument) => out.extend_from_slice(argument),
            None => Ok(()),
        },
        NameKind::Local => match names.counter.checked_add(place.at as u64) {
            Some(number) => put_local_name(number, out),
            None => Err(AllocError),
        },
    }
}

/// Appends a token, or what its name is replaced by.
#[tactic(auto, unfolding(crate::specs::Replacing::Views::replacement_table))]
fn put_swapped(names: &Replacements, token: &Token<'_>, out: &mut Vec<u8>) -> Result<(), AllocError>
    ensures { OnOk result (out.new.items ≡ out.old.items ++ swapped (replacement_table names.now) (lexeme token.now)) }
{
    if !is_name(token) {
        return out.extend_from_slice(token.text);
    }
    // The name in upper case is written to `out`, looked up there and removed again, so that looking it up needs no memory of its own.
    let start = out.len();
    put_upper(token.text, out)?;
    let place = names.names.place_of(out.get(start..).unwrap_or(&[]));
    out.truncate(start);
    match place {
        Some(place) => put_text(names, place, out),
        None => out.extend_from_slice(token.text),
    }
}

/// Appends a line with each whole name of the table replaced. `tokens` are the tokens of the line.
pub fn replace(
    names: &Replacements,
    line: &[u8],
    tokens: &[Token<'_>],
    out: &mut Vec<u8>,
) -> Result<(), AllocError>
    ensures { OnOk result (out.new.items ≡ out.old.items ++ replaced_tokens (replacement_table names.now) line.now (lexemes tokens.entry.now)) }
{
    let mut rest = line;
    for token in tokens {
        let (blanks, _) = rest.split_at(blank_len(rest));
        out.extend_from_slice(blanks)?;
        put_swapped(names, token, out)?;
        rest = after(rest, token);
    }
    out.extend_from_slice(rest)?;
    Ok(())
}
