//! The operands of the line with the error, as its parser cuts them.

use crate::case::Case;
use asm_line::{is_comma, open_behind};
use message_texts::{DEEPEST, Operand};
use std::alloc::AllocError;

/// The operands of a line: the tokens after its word, which commas outside of parentheses separate. No tokens are no operands.
///
/// # Errors
///
/// `AllocError` if memory ran out.
pub fn operands<'a>(case: &Case<'a>) -> Result<Vec<Operand<'a>>, AllocError> {
    let all = Operand {
        at: case.rest_at(),
        tokens: case.form.rest,
    };
    let mut found = Vec::new(case.alloc);
    if all.tokens.is_empty() {
        return Ok(found);
    }
    let mut start = 0;
    let mut depth = 0usize;
    for (at, token) in all.tokens.iter().enumerate() {
        if depth == 0 && is_comma(token) {
            found.push(all.part(start, at.saturating_sub(start)))?;
            start = at.saturating_add(1);
        }
        depth = open_behind(depth.min(DEEPEST), token);
    }
    found.push(all.part(start, all.tokens.len()))?;
    Ok(found)
}
