//! A short word in upper case, kept in place.

use std::marker::Model;

/// The length of the longest word that names an operation or an operand.
const LONGEST: usize = 4;

/// Up to four bytes.
#[derive(Debug, Drop)]
pub(crate) struct Buffer {
    bytes: [u8; LONGEST],
    length: usize,
}

impl Model for Buffer {
    ghost use Rattle.std.specs.Prelude.{◌≤◌, List, ℕ, take};
    ghost use Rattle.z80_form.specs.declared.buffer.TheConstants.{LONGEST};

    ghost Value = { List ℕ };

    ghost view = { λ b. take b.length b.bytes };

    ghost invariant = { λ b. b.length ≤ LONGEST };
}

impl Buffer {
    ghost use Rattle.std.specs.Prelude.{◌≡◌, ◌≤◌, ◌<◌, IfSome, length, None, ◌↔◌, OnSome};
    ghost use Rattle.z80_form.specs.Words.{upper_letters};
    ghost use Rattle.z80_form.specs.declared.buffer.TheConstants.{LONGEST};

    /// The word in upper case; None if it is longer than each word that can be found.
    pub(crate) fn upper(word: &[u8]) -> Option<Buffer>
        ensures short { IfSome result (λ b. b ≡ upper_letters word.now) }
        ensures long { result ≡ None → LONGEST < length word.now }
    {
        if word.len() > LONGEST {
            return None;
        }
        let mut bytes = [0; LONGEST];
        let letters = &mut bytes[..word.len()];
        letters.copy_from_slice(word);
        letters.make_ascii_uppercase();
        Some(Buffer {
            bytes,
            length: word.len(),
        })
    }

    pub(crate) fn as_slice(&self) -> &[u8]
        ensures { result.now ≡ self.now }
    {
        &self.bytes[..self.length]
    }
}
