//! What a reserved name is.

use z80_form::{Name, name_of};

/// What a name is that no program defines, in words.
pub fn reserved_text(name: &[u8]) -> &'static str {
    match name_of(name) {
        Some(Name::C) => "a register and a condition",
        Some(Name::Nz | Name::Z | Name::Nc | Name::Po | Name::Pe | Name::P | Name::M) => {
            "a condition"
        }
        Some(_) => "a register",
        None => "an operator",
    }
}
