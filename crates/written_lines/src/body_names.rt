//! The names that the assembler makes for LOCAL, such as `??00001`, and the names that the macro's body has for them.

use asm_line::continues_name;
use common::NameKey;
use indexmap::IndexMap;
use std::alloc::{AllocError, Global};

/// With how many bytes the names begin that the assembler makes, at least: `??` and five digits.
const SHORTEST: usize = 7;

/// The names in the bodies of macros, by those that the assembler made for them in a call.
#[derive(Drop)]
pub struct BodyNames {
    own: IndexMap<Vec<u8>, Vec<u8>, NameKey>,
}

/// The name at the front of a text, if it looks like one that the assembler made; otherwise nothing.
fn made_name(text: &[u8]) -> &[u8] {
    if !text.starts_with(b"??") {
        return &[];
    }
    let len = text.iter().take_while(|b| continues_name(**b)).count();
    text.get(..len).unwrap_or(&[])
}

impl BodyNames {
    /// No names.
    pub(crate) fn new(alloc: Global, key: NameKey) -> BodyNames {
        BodyNames {
            own: IndexMap::with_hasher(alloc, key),
        }
    }

    /// Adds a name that the assembler made, and the name in the body. A parameter comes before a LOCAL name, so what is in its place may be
    /// any text, or a name that was made for another macro.
    pub(crate) fn add(&mut self, alloc: Global, made: &[u8], own: &[u8]) -> Result<(), AllocError> {
        let name = made_name(made);
        if name.len() >= SHORTEST && name.len() == made.len() && self.own.get(made).is_none() {
            self.own.insert(made.to_vec(alloc)?, own.to_vec(alloc)?)?;
        }
        Ok(())
    }

    /// A text in which the names that the assembler made are those in the bodies.
    pub(crate) fn renamed(&self, alloc: Global, text: &[u8]) -> Result<Vec<u8>, AllocError> {
        let mut renamed = Vec::with_capacity(alloc, text.len())?;
        let mut passed = 0usize;
        let mut is_in_name = false;
        for (at, byte) in text.iter().enumerate() {
            if passed > 0 {
                passed -= 1;
                continue;
            }
            let made = made_name(text.get(at..).unwrap_or(&[]));
            match self.own.get(made) {
                Some(own) if !is_in_name => {
                    renamed.extend_from_slice(own)?;
                    passed = made.len().saturating_sub(1);
                }
                _ => renamed.push(*byte)?,
            }
            is_in_name = continues_name(*byte);
        }
        Ok(renamed)
    }
}
