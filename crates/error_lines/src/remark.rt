//! Words that may be a remark.

use crate::case::Case;
use asm_line::{Kind, Mark, Token};
use common::is_reserved;
use std::alloc::AllocError;

/// Whether tokens begin with a name that is neither reserved nor defined.
///
/// # Errors
///
/// `AllocError` if memory ran out.
pub fn begin_new(case: &Case<'_>, tokens: &[Token<'_>]) -> Result<bool, AllocError> {
    let [first, ..] = tokens else {
        return Ok(false);
    };
    let upper = first.text.to_ascii_uppercase(case.alloc)?;
    let is_defined = match case.known {
        Some(known) => known.table.kind(&upper).is_some(),
        None => false,
    };
    Ok(first.kind == Kind::Name && !is_defined && !is_reserved(&upper))
}

/// Whether tokens may be a remark: whether they begin with a name that is neither reserved nor defined, and have no comma.
///
/// # Errors
///
/// `AllocError` if memory ran out.
pub fn is_remark(case: &Case<'_>, tokens: &[Token<'_>]) -> Result<bool, AllocError> {
    Ok(begin_new(case, tokens)? && !tokens.iter().any(|t| t.kind == Kind::Mark(Mark::Comma)))
}
