//! Divisions.

use crate::values::FIXED;
use asm_line::{Kind, Mark, Token, is_word};
use common::is_reserved;
use error_lines::{Case, Worth, judge};
use message_texts::{Draft, Operand, joined, left_open};
use std::alloc::AllocError;

/// The divisor after an operator: the next token, or what its parentheses have.
fn divisor<'a>(part: &Operand<'a>, operator: usize) -> Operand<'a> {
    let behind = part.part(operator.saturating_add(1), part.tokens.len());
    for count in 1..behind.tokens.len() {
        let front = behind.part(0, count);
        let (open, _) = left_open(front.tokens);
        if open == 0 {
            return front;
        }
    }
    behind
}

/// Whether a token divides.
fn divides(token: &Token<'_>) -> bool {
    matches!(token.kind, Kind::Mark(Mark::Slash)) || is_word(b"MOD", token)
}

/// The first division of the line whose divisor is worth this: the number of its operator among the tokens, and the divisor.
fn division<'a>(
    case: &Case<'a>,
    wanted: Worth,
) -> Result<Option<(usize, Operand<'a>)>, AllocError> {
    let all = Operand {
        at: case.rest_at(),
        tokens: case.form.rest,
    };
    for (at, token) in all.tokens.iter().enumerate() {
        if divides(token) {
            let by = divisor(&all, at);
            if judge(case, by.tokens)? == wanted {
                return Ok(Some((all.at.saturating_add(at), by)));
            }
        }
    }
    Ok(None)
}

/// Whether a token is in a divisor.
pub(crate) fn is_in_divisor(case: &Case<'_>, wanted: usize) -> bool {
    let all = Operand {
        at: case.rest_at(),
        tokens: case.form.rest,
    };
    for (at, token) in all.tokens.iter().enumerate() {
        if divides(token) {
            let by = divisor(&all, at);
            if wanted >= by.at && wanted < by.at.saturating_add(by.tokens.len()) {
                return true;
            }
        }
    }
    false
}

/// The line that defines the one name that tokens are: ` (line 1)`.
fn defined_text(case: &Case<'_>, tokens: &[Token<'_>]) -> Result<String, AllocError> {
    let alloc = case.alloc;
    let ([token], Some(known)) = (tokens, case.known) else {
        return Ok(String::new(alloc));
    };
    let upper = token.text.to_ascii_uppercase(alloc)?;
    match crate::names::defined_at(known, &upper) {
        Some(line) if !is_reserved(&upper) => {
            let line = case.line_text(line)?;
            format!(in alloc; " ({line})")
        }
        _ => Ok(String::new(alloc)),
    }
}

/// The message about a division by zero.
///
/// # Errors
///
/// `AllocError` if memory ran out.
pub fn divides_by_zero(case: &Case<'_>) -> Result<Draft, AllocError> {
    let alloc = case.alloc;
    let Some((at, by)) = division(case, Worth::Number(0))? else {
        let text = String::from_str(alloc, "division by zero")?;
        return Ok(case.draft(case.rest_at(), case.form.rest.len(), text));
    };
    if let [
        Token {
            kind: Kind::Number(_),
            ..
        },
    ] = by.tokens
    {
        return Ok(case.draft(at, 1, String::from_str(alloc, "division by zero")?));
    }
    let written = joined(alloc, by.tokens)?;
    let line = defined_text(case, by.tokens)?;
    let text = format!(in alloc; "division by zero: {written} is 0{line}")?;
    Ok(case.draft(at, 1, text))
}

/// The message about a divisor that depends on addresses.
///
/// # Errors
///
/// `AllocError` if memory ran out.
pub fn divisor_varies(case: &Case<'_>) -> Result<Draft, AllocError> {
    let alloc = case.alloc;
    let help = String::from_str(alloc, FIXED)?;
    let Some((at, by)) = division(case, Worth::Address)? else {
        let text = String::from_str(alloc, "a divisor must be a constant")?;
        return case
            .draft(case.rest_at(), case.form.rest.len(), text)
            .help(help);
    };
    let written = joined(alloc, by.tokens)?;
    let text = format!(in alloc; "a divisor must be a constant: `{written}` depends on addresses")?;
    case.draft(at, 1, text).help(help)
}
