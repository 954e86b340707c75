//! An EQU without a name.

use crate::case::Case;
use crate::trial::builds;
use message_texts::{Draft, joined, shown};
use std::alloc::AllocError;

/// The message about an EQU without a name before it. The name may come after it.
///
/// # Errors
///
/// `AllocError` if memory ran out.
pub fn nameless_equ(case: &Case<'_>) -> Result<Draft, AllocError> {
    let alloc = case.alloc;
    let draft = case.on_word(String::from_str(alloc, "a name comes before EQU")?);
    if let [name, value @ ..] = case.form.rest {
        let (name, value) = (shown(alloc, name.text)?, joined(alloc, value)?);
        let line = format!(in alloc; "{name} EQU {value}")?;
        if builds(case, line.as_bytes())? {
            return draft.help(format!(in alloc; "`{line}`")?);
        }
    }
    draft.help(String::from_str(alloc, "`NAME EQU 5`")?)
}
