//! The words that the program was called with.

use std::alloc::AllocError;
use std::env::{Env, FillError};

/// How many bytes a word has room for at first.
const ROOM: usize = 256;

/// The bytes of the word of this number; `None` after the last word.
fn bytes_of(rt: &HostRuntime, number: usize) -> Result<Option<Vec<u8>>, AllocError> {
    let mut bytes = Vec::new(rt.alloc());
    let mut room = ROOM;
    for _ in 0..usize::BITS {
        bytes.resize(room, 0)?;
        match rt.arg(number, &mut bytes) {
            Ok(count) => {
                bytes.truncate(count);
                return Ok(Some(bytes));
            }
            Err(FillError::NotPresent) => return Ok(None),
            Err(FillError::TooLong) => room = room.saturating_mul(2),
        }
    }
    Err(AllocError)
}

/// The words, the program's name first.
///
/// # Errors
///
/// If memory runs out.
pub(crate) fn words_of(rt: &HostRuntime) -> Result<Vec<Vec<u8>>, AllocError> {
    let mut words = Vec::new(rt.alloc());
    for number in 0..usize::MAX {
        let Some(word) = bytes_of(rt, number)? else {
            break;
        };
        if words.push(word).is_err() {
            return Err(AllocError);
        }
    }
    Ok(words)
}
