//! Finds the arguments of a call.

ghost use Rattle.std.specs.Prelude.{◌≡◌, IfOk, OnOk};
ghost use Rattle.asm_line.specs.Tokens.{lexemes};
ghost use Rattle.asm_line.specs.Replacing.Arguments.{arguments, text_with_token};
ghost use Rattle.asm_line.specs.Replacing.Pieces.{gap};
ghost use Rattle.asm_line.specs.Replacing.Views.{texts};

use crate::replacing::whole_names::after;
use crate::{Token, blank_len, is_comma, open_behind};
use std::alloc::{AllocError, Global};

/// Appends the first token of the rest of a line to an argument, with the blanks before it unless the argument is empty.
fn put_token(rest: &[u8], token: &Token<'_>, argument: &mut Vec<u8>) -> Result<(), AllocError>
    ensures { OnOk result (argument.new.items ≡ text_with_token argument.old.items (gap rest.now) token.now.text.now) }
{
    if !argument.is_empty() {
        let (blanks, _) = rest.split_at(blank_len(rest));
        argument.extend_from_slice(blanks)?;
    }
    argument.extend_from_slice(token.text)?;
    Ok(())
}

/// Answers the arguments after a macro's name. They are separated by commas outside of strings and parentheses, and have no blanks at
/// either end. `line` is the rest of the line after the name, and `tokens` are its tokens.
pub fn arguments(
    alloc: Global,
    line: &[u8],
    tokens: &[Token<'_>],
) -> Result<Vec<Vec<u8>>, AllocError>
    ensures { IfOk result (λ all. texts all.items ≡ arguments line.now (lexemes tokens.entry.now)) }
{
    let mut all = Vec::new(alloc);
    if tokens.is_empty() {
        return Ok(all);
    }
    let mut argument = Vec::new(alloc);
    let mut depth = 0;
    let mut rest = line;
    for token in tokens {
        if depth == 0 && is_comma(token) {
            all.push(argument)?;
            argument = Vec::new(alloc);
        } else {
            put_token(rest, token, &mut argument)?;
            depth = open_behind(depth, token);
        }
        rest = after(rest, token);
    }
    all.push(argument)?;
    Ok(all)
}
