//! Tries what a help is about to propose: only what builds is proposed.

use crate::case::Case;
use crate::worth::{Worth, distance_of, judge, worth_of};
use asm_line::{Token, is_name};
use asm_parse::Tree;
use asm_spell::{Body, Line, StmtFault, Value, statement};
use common::is_reserved;
use message_texts::{joined, shown, tokens_of};
use std::alloc::{AllocError, Global};
use z80_form::Field;

/// Whether a value fits its field, as far as that is known. A name that is not defined fits where any address fits.
fn is_fit(case: &Case<'_>, field: Field, tree: &Tree) -> Result<bool, AllocError> {
    if field == Field::Distance {
        return Ok(match distance_of(case, tree)? {
            Some(value) => field.allows(value),
            None => false,
        });
    }
    Ok(match worth_of(case, tree)? {
        Worth::Number(value) => field.allows(value),
        Worth::Address | Worth::Unknown => field == Field::Word,
        Worth::Fault(_) => false,
    })
}

/// Whether each number of an instruction fits.
fn are_numbers_fit(case: &Case<'_>, numbers: &[(Field, Tree)]) -> Result<bool, AllocError> {
    for part in numbers {
        let (field, tree) = part;
        if !is_fit(case, *field, tree)? {
            return Ok(false);
        }
    }
    Ok(true)
}

/// Whether each item of DB fits.
fn are_bytes_fit(case: &Case<'_>, values: &[Value]) -> Result<bool, AllocError> {
    for value in values {
        if let Value::Byte(tree) = value {
            if !is_fit(case, Field::Byte, tree)? {
                return Ok(false);
            }
        }
    }
    Ok(true)
}

/// Whether the size of DS is a number, as far as that is known, and its fill byte fits.
fn is_space_fit(case: &Case<'_>, size: &Tree, fill: Option<&Tree>) -> Result<bool, AllocError> {
    if !matches!(worth_of(case, size)?, Worth::Number(_) | Worth::Unknown) {
        return Ok(false);
    }
    match fill {
        Some(fill) => is_fit(case, Field::Byte, fill),
        None => Ok(true),
    }
}

/// Whether the values of a statement fit.
fn is_body_fit(case: &Case<'_>, body: &Body) -> Result<bool, AllocError> {
    match body {
        Body::Code { numbers, .. } => are_numbers_fit(case, numbers.as_slice()),
        Body::Bytes(values) => are_bytes_fit(case, values),
        Body::Space { size, fill } => is_space_fit(case, size, fill.as_ref()),
        _ => Ok(true),
    }
}

/// Whether tokens are a line that builds where the error is.
///
/// # Errors
///
/// `AllocError` if memory ran out.
pub fn do_build(case: &Case<'_>, tokens: &[Token<'_>]) -> Result<bool, AllocError> {
    if tokens.is_empty() {
        return Ok(false);
    }
    let line = match statement(case.alloc, tokens) {
        Ok(line) => line,
        Err(StmtFault::NoMemory) => return Err(AllocError),
        Err(_) => return Ok(false),
    };
    match &line {
        Line::Statement {
            body: Some(body),
            ..
        } => is_body_fit(case, body),
        _ => Ok(true),
    }
}

/// Whether tokens have a name that is not defined.
fn has_undefined(case: &Case<'_>, tokens: &[Token<'_>]) -> Result<bool, AllocError> {
    for token in tokens {
        let alone = [*token];
        let upper = token.text.to_ascii_uppercase(case.alloc)?;
        if is_name(token) && !is_reserved(&upper) && judge(case, &alone)? == Worth::Unknown {
            return Ok(true);
        }
    }
    Ok(false)
}

/// Whether bytes are a line that builds where the error is, or may build once the names in it are defined.
///
/// # Errors
///
/// `AllocError` if memory ran out.
pub fn may_build(case: &Case<'_>, line: &[u8]) -> Result<bool, AllocError> {
    let found = tokens_of(case.alloc, line)?;
    if do_build(case, &found)? {
        return Ok(true);
    }
    let operands = found.get(1..).unwrap_or(&[]);
    if !has_undefined(case, operands)? {
        return Ok(false);
    }
    match statement(case.alloc, &found) {
        Ok(_) => Ok(true),
        Err(StmtFault::NoMemory) => Err(AllocError),
        Err(_) => Ok(false),
    }
}

/// Whether bytes are a line that builds where the error is.
///
/// # Errors
///
/// `AllocError` if memory ran out.
pub fn builds(case: &Case<'_>, line: &[u8]) -> Result<bool, AllocError> {
    do_build(case, &tokens_of(case.alloc, line)?)
}

/// A word and its operands, as they are shown.
pub fn statement_text(alloc: Global, tokens: &[Token<'_>]) -> Result<String, AllocError> {
    let [word, rest @ ..] = tokens else {
        return Ok(String::new(alloc));
    };
    let word = shown(alloc, word.text)?;
    if rest.is_empty() {
        return Ok(word);
    }
    let rest = joined(alloc, rest)?;
    format!(in alloc; "{word} {rest}")
}

/// Tokens of a line with one more, or with others in place of some.
pub(crate) fn changed<'t>(
    case: &Case<'t>,
    at: usize,
    count: usize,
    others: &[Token<'t>],
) -> Result<Vec<Token<'t>>, AllocError> {
    let mut all = Vec::from_slice(case.alloc, case.tokens_at(0, at))?;
    all.extend_from_slice(others)?;
    all.extend_from_slice(case.tokens_at(at.saturating_add(count), case.tokens.len()))?;
    Ok(all)
}

/// The statement of a line with other tokens in place of some, between backquotes, if it builds.
///
/// # Errors
///
/// `AllocError` if memory ran out.
pub fn mended<'t>(
    case: &Case<'t>,
    at: usize,
    count: usize,
    others: &[Token<'t>],
) -> Result<Option<String>, AllocError> {
    let alloc = case.alloc;
    let all = changed(case, at, count, others)?;
    if !do_build(case, &all)? {
        return Ok(None);
    }
    let text = statement_text(alloc, all.get(case.statement_at()..).unwrap_or(&[]))?;
    Ok(Some(format!(in alloc; "`{text}`")?))
}
