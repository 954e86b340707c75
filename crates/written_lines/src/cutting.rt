//! Cuts lines into tokens.

use asm_line::{Head, ScanFault, Token, form_of, tokens};
use std::alloc::{AllocError, Global};

/// The tokens of a line; none if it cannot be cut into tokens.
///
/// # Errors
///
/// [`AllocError`] if memory ran out.
pub fn tokens_of(alloc: Global, line: &[u8]) -> Result<Vec<Token<'_>>, AllocError> {
    match tokens(alloc, line) {
        Ok(found) => Ok(found),
        Err(ScanFault::NoMemory) => Err(AllocError),
        Err(_) => Ok(Vec::new(alloc)),
    }
}

/// The macro that a line defines, in upper case.
///
/// # Errors
///
/// [`AllocError`] if memory ran out.
pub fn macro_in(alloc: Global, line: &[u8]) -> Result<Option<Vec<u8>>, AllocError> {
    let found = tokens_of(alloc, line)?;
    match form_of(&found).head {
        Head::Macro(name) => Ok(Some(name.to_ascii_uppercase(alloc)?)),
        _ => Ok(None),
    }
}
