//! Loads from one register of 16 bits to another, which the Z80 mostly does not have, and what does the same.

use message_texts::{halves, is_pushed, name_text};
use std::alloc::{AllocError, Global};
use z80_form::Name;

/// What to write in place of a load from one register of 16 bits to another.
pub(crate) fn loaded(alloc: Global, to: Name, from: Name) -> Result<Option<String>, AllocError> {
    let (t, f) = (name_text(to), name_text(from));
    if let (Some((to_high, to_low)), Some((high, low))) = (halves(to), halves(from)) {
        return Ok(Some(format!(in alloc;
            "`LD {to_high},{high}` and `LD {to_low},{low}`, or `PUSH {f}` and `POP {t}`"
        )?));
    }
    if is_pushed(to) && is_pushed(from) {
        return Ok(Some(format!(in alloc; "`PUSH {f}` and `POP {t}`")?));
    }
    if from == Name::Sp && to == Name::Hl {
        return Ok(Some(format!(in alloc; "`LD HL,0` and `ADD HL,SP`")?));
    }
    Ok(None)
}
