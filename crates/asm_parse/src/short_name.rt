//! Short names, kept in place.

ghost use Rattle.std.specs.Prelude.{◌≡◌, ◌<◌, IfSome, IfNone, length};
ghost use Rattle.common.specs.Words.{upper};
ghost use Rattle.asm_parse.specs.declared.short_name.TheConstants.{MOST_SHORT};

use std::marker::Model;

/// The most bytes of a name that is kept in place. With fourteen, an item of an expression takes three words.
pub(crate) const MOST_SHORT: usize = 14;

/// A name of up to fourteen bytes, which takes no memory of its own.
#[derive(Debug, Drop)]
pub struct ShortName {
    length: u8,
    bytes: [u8; MOST_SHORT],
}

impl Model for ShortName {
    ghost use Rattle.std.specs.Prelude.{◌≤◌, ℕ, List, take};
    ghost use Rattle.asm_parse.specs.declared.short_name.TheConstants.{MOST_SHORT};

    ghost Value = { List ℕ };

    ghost view = { λ name. take name.length name.bytes };

    ghost invariant = { λ name. name.length ≤ MOST_SHORT };
}

impl ShortName {
    /// The name with this text, if it has at most fourteen bytes; None otherwise.
    pub(crate) fn new(text: &[u8]) -> Option<ShortName>
        ensures short { IfSome result (λ name. name ≡ text.now) }
        ensures long { IfNone result (MOST_SHORT < length text.now) }
    {
        if text.len() > MOST_SHORT {
            return None;
        }
        let mut bytes = [0; MOST_SHORT];
        bytes[..text.len()].copy_from_slice(text);
        Some(ShortName {
            length: text.len() as u8,
            bytes,
        })
    }

    /// The bytes of the name.
    pub(crate) fn as_slice(&self) -> &[u8]
        ensures { result.now ≡ self.now }
    {
        &self.bytes[..usize::from(self.length)]
    }

    /// Puts the name into upper case.
    pub(crate) fn make_upper(&mut self)
        ensures { self.new ≡ upper self.old }
    {
        self.bytes.as_mut_slice().make_ascii_uppercase();
    }
}
