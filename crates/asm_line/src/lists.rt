//! Names separated by commas.

ghost use Rattle.std.specs.Prelude.{◌≡◌, map, IfOk};
ghost use Rattle.std.specs.Option.{option_map};
ghost use Rattle.asm_line.specs.Tokens.{lexemes};
ghost use Rattle.asm_line.specs.Lists.{name_list};

use crate::Token;
use crate::single::{is_comma, is_name};
use std::alloc::{AllocError, Global};

/// The names in upper case, at least one; None if the tokens are not names separated by commas.
pub fn names(alloc: Global, tokens: &[Token<'_>]) -> Result<Option<Vec<Vec<u8>>>, AllocError>
    ensures { IfOk result (λ found. option_map (λ all. map (λ name. name.items) all.items) found ≡ name_list (lexemes tokens.entry.now)) }
{
    let mut all = Vec::new(alloc);
    let mut at = 0;
    while at < tokens.len() {
        if !is_name(&tokens[at]) {
            return Ok(None);
        }
        all.push(tokens[at].text.to_ascii_uppercase(alloc)?)?;
        if at + 1 == tokens.len() {
            return Ok(Some(all));
        }
        if !is_comma(&tokens[at + 1]) {
            return Ok(None);
        }
        at += 2;
    }
    Ok(None)
}
