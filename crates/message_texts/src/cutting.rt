//! Cuts a line into tokens.

use asm_line::{ScanFault, Token, tokens};
use std::alloc::{AllocError, Global};

/// The tokens of a line; none if it cannot be cut.
///
/// # Errors
///
/// `AllocError` if memory ran out.
pub fn tokens_of(alloc: Global, line: &[u8]) -> Result<Vec<Token<'_>>, AllocError> {
    match tokens(alloc, line) {
        Ok(found) => Ok(found),
        Err(ScanFault::NoMemory) => Err(AllocError),
        Err(_) => Ok(Vec::new(alloc)),
    }
}
